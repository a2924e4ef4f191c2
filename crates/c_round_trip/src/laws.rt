//! What holds of printing and reading, whatever code does them.

ghost use Rattle.std.specs.Prelude.{◌≡◌, ◌≤◌, ◌⊎◌, ℕ, List};
ghost use Rattle.c_grammar.specs.Tokens.{Token};
ghost use Rattle.c_reading.specs.FileTokens.{AreFileTokens};
ghost use Rattle.c_reading.specs.Answers.{Answer, tree, too_deep};
ghost use Rattle.c_reading.specs.FileAnswers.{IsFileAnswer};
ghost use Rattle.c_round_trip.specs.Placeless.{placeless};
ghost use Rattle.c_round_trip.specs.RoundTrip.{IsFileTree, IsSameTree, ReadsAs, opens};
ghost use Rattle.c_tree.specs.Statements.{file_text};
ghost use Rattle.c_tree.specs.Trees.{FileTree};

/// The text of a file's tree has no bad token, and its tokens spell the tree, places aside. So the
/// reader answers the tree, or that it nests too deep.
pub fn printed_text_reads()
    ensures spells { (x : FileTree) → IsFileTree x → ReadsAs (file_text x) x }
    ensures answers { (x : FileTree) → IsFileTree x → (a : Answer) → IsFileAnswer (file_text x) a → IsSameTree x a ⊎ ((p : ℕ) × (a ≡ too_deep p)) }
{}

/// What was read is a file's tree. Printed and read again it is the same, places aside, and nests
/// not too deep.
pub fn read_text_prints()
    ensures tree { (bytes : List ℕ) (x : FileTree) → IsFileAnswer bytes (tree x) → IsFileTree x }
    ensures again { (bytes : List ℕ) (x : FileTree) → IsFileAnswer bytes (tree x)
        → (y : FileTree) × IsFileAnswer (file_text x) (tree y) × (placeless y ≡ placeless x) }
    ensures only { (bytes : List ℕ) (x : FileTree) → IsFileAnswer bytes (tree x) → (a : Answer) → IsFileAnswer (file_text x) a → IsSameTree x a }
{}

/// A text says nothing of a tree's places; so what is read of it prints the same bytes. No text that
/// reads as the tree has fewer parentheses.
pub fn printed_text_is_least()
    ensures placeless { (x y : FileTree) → placeless x ≡ placeless y → file_text x ≡ file_text y }
    ensures fewest { (x : FileTree) (text : List ℕ) (printed : ReadsAs (file_text x) x) (other : ReadsAs text x) → opens printed.tokens ≤ opens other.tokens }
{}

/// The bytes of a file have one list of tokens of the grammar.
pub fn tokens_are_one_list()
    ensures { (bytes : List ℕ) (ts us : List Token) → AreFileTokens bytes ts → AreFileTokens bytes us → ts ≡ us }
{}
