//! What holds of the definition of the tokens.
ghost use Rattle.std.specs.Prelude.{◌≡◌, ℕ, List, Option};
ghost use Rattle.c_tokens.specs.Tokens.{Tokens};
ghost use Rattle.c_tokens.specs.declared.token.Token.{Token};

/// A file has one list of tokens and at most one bad token.
pub const fn tokens_are_unique()
    ensures { (bytes : List ℕ) (tokens others : List Token) (bad other : Option ℕ) → Tokens bytes tokens bad → Tokens bytes others other → (tokens ≡ others) × (bad ≡ other) }
{}
