//! The operators of the intermediate languages: what each answers, on words and where an operand
//! is not known.

use crate::value::Val;

/// A comparison of two words: signed (`S`), unsigned (`U`) or either.
#[derive(Clone, Copy, PartialEq, Eq, PartialOrd, Ord, Hash, Debug)]
pub enum Cond {
    Eq,
    Ne,
    LtS,
    LeS,
    GtS,
    GeS,
    LtU,
    LeU,
    GtU,
    GeU,
}

impl Cond {
    ghost use Rattle.std.specs.Prelude.{◌≡◌};
    ghost use Rattle.tso_words.specs.Operators.{negate};

    /// The comparison that holds of two words exactly where this one does not.
    pub fn negate(self) -> Cond
        ensures { result ≡ negate self }
    {
        match self {
            Cond::Eq => Cond::Ne,
            Cond::Ne => Cond::Eq,
            Cond::LtS => Cond::GeS,
            Cond::LeS => Cond::GtS,
            Cond::GtS => Cond::LeS,
            Cond::GeS => Cond::LtS,
            Cond::LtU => Cond::GeU,
            Cond::LeU => Cond::GtU,
            Cond::GtU => Cond::LeU,
            Cond::GeU => Cond::LtU,
        }
    }
}

/// An operator. `Neg`, `Not` and the casts take one operand, the others two.
///
/// A cast keeps the low 8 or 16 bits and extends them, by their sign (`s`) or by zeros (`u`). A
/// shift to the right copies the sign bit (`S`) or shifts in zeros (`U`). `Cmp` answers 1 or 0.
#[derive(Clone, Copy, PartialEq, Eq, PartialOrd, Ord, Hash, Debug)]
pub enum Op {
    Add,
    Sub,
    Mul,
    And,
    Or,
    Xor,
    DivS,
    ModS,
    DivU,
    ModU,
    Shl,
    ShrS,
    ShrU,
    Neg,
    Not,
    Cast8s,
    Cast8u,
    Cast16s,
    Cast16u,
    Cmp(Cond),
}
