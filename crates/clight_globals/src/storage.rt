//! The storage words of declarations.

ghost use Rattle.std.specs.Prelude.{◌≡◌};
ghost use Rattle.c_tree.specs.Shape.{specifier_of, specifiers_of};
ghost use Rattle.clight_globals.specs.Globals.{storage_word, storage_in, is_static, is_extern, is_typedef};
ghost use Rattle.clight_globals.specs.GlobalsOf.{storage_given};

use c_tree::{Specifier, StorageClass};

/// The storage word that a specifier is.
#[tactic(auto, using(c_tree::proofs::Shapes::composite_shape, c_tree::proofs::Shapes::enumeration_shape))]
fn storage_word(specifier: &Specifier) -> Option<StorageClass>
    ensures { storage_given result ≡ storage_word (specifier_of specifier.now) }
{
    match specifier {
        Specifier::Storage { word, .. } => Some(*word),
        Specifier::Qualifier { .. } => None,
        Specifier::Inline { .. } => None,
        Specifier::Words { .. } => None,
        Specifier::Typedef { .. } => None,
        Specifier::CompositeReference { .. } => None,
        Specifier::Composite { .. } => None,
        Specifier::EnumReference { .. } => None,
        Specifier::Enumeration { .. } => None,
    }
}

/// The first storage word among specifiers.
pub fn storage_in(list: &[Specifier]) -> Option<StorageClass>
    ensures { storage_given result ≡ storage_in (specifiers_of list.now) }
{
    for specifier in list {
        if let Some(word) = storage_word(specifier) {
            return Some(word);
        }
    }
    None
}

/// Whether the storage word is `static`.
pub fn is_static(storage: Option<StorageClass>) -> bool
    ensures { result ≡ is_static (storage_given storage) }
{
    matches!(storage, Some(StorageClass::Static))
}

/// Whether the storage word is `extern`.
pub fn is_extern(storage: Option<StorageClass>) -> bool
    ensures { result ≡ is_extern (storage_given storage) }
{
    matches!(storage, Some(StorageClass::Extern))
}

/// Whether the storage word is `typedef`.
pub fn is_typedef(storage: Option<StorageClass>) -> bool
    ensures { result ≡ is_typedef (storage_given storage) }
{
    matches!(storage, Some(StorageClass::Typedef))
}
