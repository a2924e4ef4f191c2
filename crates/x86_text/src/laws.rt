//! What holds of each text.
ghost use Rattle.std.specs.Prelude.{◌≡◌, List, ℕ};
ghost use Rattle.x86_lang.specs.declared.assembly.Parts.{Parts};
ghost use Rattle.x86_text.specs.Text.{AsmOf};
ghost use Rattle.x86_text.specs.Bad.{IsBadText};

/// A text is one of at most one assembly.
pub fn a_text_has_one_assembly()
    ensures { (text : List ℕ) (a b : Parts) → AsmOf text a → AsmOf text b → a ≡ b }
{}

/// A text has at most one first bad line.
pub fn a_text_has_one_first_bad_line()
    ensures { (text : List ℕ) (n m : ℕ) → IsBadText text n → IsBadText text m → n ≡ m }
{}

/// A text of an assembly has no bad line.
pub fn a_text_of_an_assembly_has_no_bad_line()
    ensures { (text : List ℕ) (a : Parts) (n : ℕ) → AsmOf text a → IsBadText text n → ⊥ }
{}
