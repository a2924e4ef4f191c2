//! What holds of the reader of `specs/Code.antt`, whatever runs it.

ghost use Rattle.std.specs.Prelude.{◌≡◌, ◌<◌, ◌≤◌, ℕ, suc, List, Some, None, true, false, length, take};
ghost use Rattle.c_grammar.specs.Tokens.{Token};
ghost use Rattle.c_grammar.specs.Derivations.{File};
ghost use Rattle.c_grammar.specs.Spelling.{Spells};
ghost use Rattle.c_grammar.specs.Nesting.{limit, TooDeep, TooDeepAt};
ghost use Rattle.c_grammar.specs.Reading.{SyntaxAt};
ghost use Rattle.c_reading.specs.Answers.{Answer, IsAnswer, answer};
ghost use Rattle.c_reading.specs.FileAnswers.{IsFileAnswer};
ghost use Rattle.c_reading.specs.Code.{Reader, read_on, start_code, is_in_file, file_trees, deepest};
ghost use Rattle.c_tree.specs.Reading.{file_tree};

/// A reader that stands in the file has read a file, and has its tree; a token that it refuses, and
/// the end of the tokens where it stands elsewhere, is the place of the syntax fault.
pub fn reads_files()
    ensures whole { (ts : List Token) (r : Reader) → read_on (Some start_code) ts ≡ Some r → is_in_file r.mode ≡ true
        → (f : File) × Spells f ts × (file_trees r ≡ file_tree f) }
    ensures refused { (ts : List Token) (n : ℕ) (r : Reader) → n < length ts → read_on (Some start_code) (take n ts) ≡ Some r
        → read_on (Some start_code) (take (suc n) ts) ≡ None → SyntaxAt ts n }
    ensures unfinished { (ts : List Token) (r : Reader) → read_on (Some start_code) ts ≡ Some r → is_in_file r.mode ≡ false
        → SyntaxAt ts (length ts) }
{}

/// The first token with which the reader's deepest nesting is above the limit is the one that nests
/// too deep; where it is not above, the tokens are not too deep.
pub fn nests_too_deep()
    ensures deep { (ts : List Token) (n : ℕ) (r r' : Reader) → n < length ts → read_on (Some start_code) (take n ts) ≡ Some r
        → deepest r ≤ limit → read_on (Some start_code) (take (suc n) ts) ≡ Some r' → limit < deepest r' → TooDeepAt ts n }
    ensures shallow { (ts : List Token) (r : Reader) → read_on (Some start_code) ts ≡ Some r → deepest r ≤ limit → ¬ TooDeep ts }
{}

/// What the reader answers for the tokens of a file: a tree exactly where they are a file and no
/// prefix is too deep, else the byte of the syntax fault or of the token that nests too deep,
/// whichever comes first.
pub fn answers_exactly()
    ensures { (ts : List Token) (size : ℕ) → IsAnswer ts size (answer ts size) }
{}

/// The bytes of a file have one answer.
pub fn one_answer()
    ensures { (bytes : List ℕ) (a b : Answer) → IsFileAnswer bytes a → IsFileAnswer bytes b → a ≡ b }
{}
