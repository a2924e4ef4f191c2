//! What holds of the grammar, whatever reads it.

ghost use Rattle.std.specs.Prelude.{◌≡◌, ◌≢◌, ◌<◌, ℕ, suc, List, Some, None, true, false, length, take};
ghost use Rattle.c_grammar.specs.Tokens.{Token};
ghost use Rattle.c_grammar.specs.Derivations.{File};
ghost use Rattle.c_grammar.specs.Spelling.{Spells, Begins};
ghost use Rattle.c_grammar.specs.Machine.{State, at_file, go, start, is_done};
ghost use Rattle.c_grammar.specs.Nesting.{Least};
ghost use Rattle.c_grammar.specs.Reading.{SyntaxAt};

/// No list of tokens is spelled by two files.
pub fn one_file()
    ensures { (f g : File) (ts : List Token) → Spells f ts → Spells g ts → f ≡ g }
{}

/// The machine reads on exactly where some file begins so, and has a file exactly where the tokens
/// spell it.
pub fn reads_on()
    ensures on { (ts : List Token) (s : State) → go (Some start) ts ≡ Some s → Begins ts }
    ensures only { (ts : List Token) → Begins ts → go (Some start) ts ≢ None }
    ensures ends { (ts : List Token) (f : File) → go (Some start) ts ≡ Some (at_file f) → Spells f ts }
    ensures whole { (ts : List Token) (f : File) → Spells f ts → go (Some start) ts ≡ Some (at_file f) }
{}

/// Where the machine fails, and where the tokens end before the file does, is the place of the syntax
/// fault; a machine that is done has read a file.
pub fn syntax_places()
    ensures refused { (ts : List Token) (n : ℕ) (s : State) → n < length ts → go (Some start) (take n ts) ≡ Some s
        → go (Some start) (take (suc n) ts) ≡ None → SyntaxAt ts n }
    ensures unfinished { (ts : List Token) (s : State) → go (Some start) ts ≡ Some s → is_done s ≡ false
        → SyntaxAt ts (length ts) }
    ensures done { (ts : List Token) (s : State) → go (Some start) ts ≡ Some s → is_done s ≡ true
        → (f : File) × Spells f ts }
{}

/// Of the files that some tokens begin, one nests each of them least.
pub fn least_nesting()
    ensures { (ts : List Token) → Begins ts → Least ts }
{}
