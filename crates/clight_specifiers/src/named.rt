//! The name in a declarator.

ghost use Rattle.std.specs.Prelude.{◌≡◌};
ghost use Rattle.std.specs.Option.{option_copied};
ghost use Rattle.c_tree.specs.Shape.{declarator_of, direct_of};
ghost use Rattle.c_tree.specs.Writing.{has_pointer, has_suffix};
ghost use Rattle.clight_typing.specs.Typing.{declared_name, declared_at, is_name};

use c_tree::{Declarator, Direct, Qualifier, Suffix};
use tso_words::Name;

/// The name that a declarator declares.
#[tactic(auto, using(crate::proofs::Declared::name_told, c_tree::proofs::Shapes::nested_shape))]
pub fn declared_name(declarator: &Declarator) -> Option<&Name>
    ensures { option_copied result ≡ declared_name (declarator_of declarator.now) }
{
    match &declarator.direct {
        Direct::Unnamed => None,
        Direct::Named { name, .. } => Some(name),
        Direct::Nested(inner) => declared_name(inner),
    }
}

/// The place of that name, or another place where there is none.
#[tactic(auto, using(crate::proofs::Declared::place_told, c_tree::proofs::Shapes::nested_shape))]
pub fn declared_at(declarator: &Declarator, other: u32) -> u32
    ensures { result ≡ declared_at (declarator_of declarator.now) other }
{
    match &declarator.direct {
        Direct::Unnamed => other,
        Direct::Named { at, .. } => *at,
        Direct::Nested(inner) => declared_at(inner, other),
    }
}

fn has_pointer(pointers: &[Vec<Qualifier>]) -> bool
    ensures { result ≡ has_pointer pointers.now }
{
    match pointers {
        [] => false,
        [_, ..] => true,
    }
}

fn has_suffix(suffixes: &[Suffix]) -> bool
    ensures { result ≡ has_suffix suffixes.now }
{
    match suffixes {
        [] => false,
        [_, ..] => true,
    }
}

/// Whether the inside of a declarator is a name alone, in parentheses or not.
#[tactic(auto, using(crate::proofs::Declared::alone_told, c_tree::proofs::Shapes::nested_shape))]
pub fn is_name_alone(direct: &Direct) -> bool
    ensures { result ≡ is_name (direct_of direct.now) }
{
    match direct {
        Direct::Unnamed => false,
        Direct::Named { .. } => true,
        Direct::Nested(inner) => {
            if has_pointer(&inner.pointers) {
                false
            } else if has_suffix(&inner.suffixes) {
                false
            } else {
                is_name_alone(&inner.direct)
            }
        }
    }
}
