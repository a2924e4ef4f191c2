//! The typedef names of a file.

ghost use Rattle.std.specs.Prelude.{◌≡◌, [], ◌∷◌, IfOk};
ghost use Rattle.c_grammar.specs.Spelling.{is_typedef};

use std::alloc::{AllocError, Global};
use std::collections::HashSet;
use std::marker::Model;
use tso_words::{Name, NoMemory};

/// The typedef names so far: contracts see them as the list of their declarations, the last first.
#[derive(Drop)]
pub struct TypedefNames {
    declared: Vec<Name>,
    known: HashSet<Name>,
}

impl Model for TypedefNames {
    ghost use Rattle.std.specs.Prelude.{◌≡◌, List, ℕ, reverse, nat_eq};
    ghost use Rattle.std.specs.Coded.{coded_list, coded_ℕ};
    ghost use Rattle.std.specs.HashSet.{contains};
    ghost use Rattle.std.specs.Cmp.Lexicographic.{pointwise};
    ghost use Rattle.c_grammar.specs.Spelling.{is_typedef};

    ghost Value = { List (List ℕ) };

    ghost coded = { coded_list (coded_list coded_ℕ) };

    ghost view = { λ s. reverse s.declared.items };

    ghost invariant = { λ s. (x : List ℕ) → contains (pointwise nat_eq) s.known x ≡ is_typedef (reverse s.declared.items) x };
}

impl TypedefNames {
    /// No names.
    pub fn new(alloc: Global) -> TypedefNames
        ensures { result ≡ [] }
    {
        TypedefNames {
            declared: Vec::new(alloc),
            known: HashSet::new(alloc),
        }
    }

    /// Whether a typedef declared the name.
    pub fn is_typedef(&self, name: &Name) -> bool
        ensures { result ≡ is_typedef self.now name.now }
    {
        self.known.contains(name)
    }

    /// The names with one more.
    pub fn declare(self, name: Name) -> Result<TypedefNames, NoMemory>
        ensures { IfOk result (λ names. names ≡ name ∷ self) }
    {
        let TypedefNames {
            mut declared,
            mut known,
        } = self;
        let copy = name.clone()?;
        known.insert(copy).map_err(AllocError::from)?;
        declared.push(name).map_err(AllocError::from)?;
        Ok(TypedefNames { declared, known })
    }
}
