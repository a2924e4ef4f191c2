//! What holds of the form, whatever tells it.

ghost use Rattle.std.specs.Prelude.{ℕ, List, None};
ghost use Rattle.c_reading.specs.Answers.{tree};
ghost use Rattle.c_reading.specs.FileAnswers.{IsFileAnswer};
ghost use Rattle.c_tokens.specs.Tokens.{Tokens};
ghost use Rattle.c_tokens.specs.declared.token.Token.{Token};
ghost use Rattle.c_tree.specs.Trees.{FileTree};
ghost use Rattle.first_form.specs.Form.{AreTen, TenTokens};

/// A file is of the form exactly where its tokens are the ten words.
pub const fn form_is_ten_tokens()
    ensures listed { (bytes : List ℕ) (n : ℕ) → TenTokens bytes n → (tokens : List Token) × Tokens bytes tokens None × AreTen bytes tokens n }
    ensures told { (bytes : List ℕ) (tokens : List Token) (n : ℕ) → Tokens bytes tokens None → AreTen bytes tokens n → TenTokens bytes n }
{}

/// A file of the form is a file of the grammar that nests nothing too deep.
pub const fn form_has_a_tree()
    ensures { (bytes : List ℕ) (n : ℕ) → TenTokens bytes n → (file : FileTree) × IsFileAnswer bytes (tree file) }
{}
