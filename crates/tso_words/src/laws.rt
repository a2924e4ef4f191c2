//! What passes and machines use of the definitions: each law is the contract of a function that does
//! nothing. A proof of another crate cites the lemma, of `proofs/OperatorLaws.antt`, `ByteLaws.antt`
//! or `BelowLaws.antt`.
ghost use Rattle.std.specs.Prelude.{◌≡◌, ◌≢◌, ℕ, List, [], ◌∷◌, map, not, true, Option, Some, IfSome, option_map, length};
ghost use Rattle.std.specs.List.{AllByRecursion};
ghost use Rattle.tso_words.specs.declared.value.Val.{Val};
ghost use Rattle.tso_words.specs.declared.value.Val.TheVariants.{Undef, Word};
ghost use Rattle.tso_words.specs.declared.value.Cell.{Cell};
ghost use Rattle.tso_words.specs.declared.value.Chunk.{Chunk};
ghost use Rattle.tso_words.specs.declared.operator.Cond.{Cond};
ghost use Rattle.tso_words.specs.declared.operator.Op.{Op};
ghost use Rattle.tso_words.specs.declared.operator.Op.TheVariants.{Cmp};
ghost use Rattle.tso_words.specs.Words.{IsValue, IsCell, chunk_size, bytes_of, value_of};
ghost use Rattle.tso_words.specs.Operators.{operate, compare, negate, truth, kept, is_cast};
ghost use Rattle.tso_words.specs.Below.{ValBelow, ValsBelow, CellsBelow, AnswerBelow};

/// A value that is written as a chunk is read as its cast.
pub fn written_is_read_as_cast()
    ensures { (c : Chunk) (v : Val) → IsValue v → Some (value_of c (bytes_of c v)) ≡ kept c v }
{}

/// What is written and what is read is in range, and as many cells are written as the chunk has
/// bytes.
pub fn bytes_and_values_fit()
    ensures size { (c : Chunk) (v : Val) → length (bytes_of c v) ≡ chunk_size c }
    ensures bytes { (c : Chunk) (v : Val) → AllByRecursion IsCell (bytes_of c v) }
    ensures value { (c : Chunk) (cells : List Cell) → length cells ≡ chunk_size c
        → AllByRecursion IsCell cells → IsValue (value_of c cells) }
{}

/// An operator answers words with a word, if it is not wrong, and values with a value.
pub fn words_give_words()
    ensures known { (op : Op) (words : List ℕ) → operate op (map Word words) ≢ Some Undef }
    ensures fits { (op : Op) (vs : List Val) → AllByRecursion IsValue vs → IfSome (operate op vs) IsValue }
{}

/// To cast once more changes nothing.
pub fn casts_are_idempotent()
    ensures { (op : Op) (v w : Val) → is_cast op ≡ true
        → operate op (v ∷ []) ≡ Some w → operate op (w ∷ []) ≡ Some w }
{}

/// The negation of a comparison is known where the comparison is, and holds exactly where that
/// does not. The operator of a comparison answers with its truth.
pub fn negation_holds_otherwise()
    ensures otherwise { (c : Cond) (v w : Val) → compare (negate c) v w ≡ option_map not (compare c v w) }
    ensures twice { (c : Cond) → negate (negate c) ≡ c }
    ensures operator { (c : Cond) (v w : Val) → operate (Cmp c) (v ∷ w ∷ []) ≡ Some (truth (compare c v w)) }
{}

/// Where more is known of the operands, of the value that is written or of the cells that are read,
/// no less is known of what comes of it; and what is not wrong stays so.
pub fn more_known_gives_more()
    ensures operator { (op : Op) (vs ws : List Val) → ValsBelow vs ws
        → AnswerBelow ValBelow (operate op vs) (operate op ws) }
    ensures comparison { (c : Cond) (v w v' w' : Val) → ValBelow v v' → ValBelow w w'
        → AnswerBelow (λ r s. s ≡ r) (compare c v w) (compare c v' w') }
    ensures bytes { (c : Chunk) (v w : Val) → ValBelow v w → CellsBelow (bytes_of c v) (bytes_of c w) }
    ensures value { (c : Chunk) (cells more : List Cell) → CellsBelow cells more
        → ValBelow (value_of c cells) (value_of c more) }
{}
