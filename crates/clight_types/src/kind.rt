//! What an expression is, as far as operators and conversions look at it.

ghost use Rattle.std.specs.Prelude.{◌≡◌, ◌≤◌, max};
ghost use Rattle.clight_types.specs.Alignments.{bytes_in};

/// The integer types. `long` and every enum are `int`, and `char` is signed.
#[derive(Clone, Copy, PartialEq, Eq, Hash, Debug)]
pub enum Integer {
    Char,
    UnsignedChar,
    Short,
    UnsignedShort,
    Int,
    UnsignedInt,
}

/// The type of a value. A pointer has the number of the type that it points to.
#[derive(Clone, Copy, PartialEq, Eq, Debug)]
pub enum Value {
    Integer(Integer),
    Pointer(usize),
    Struct,
    Void,
}

/// What an expression stands for: a value, or an object or a function of the type with this number.
#[derive(Clone, Copy, PartialEq, Eq, Debug)]
pub enum Denoted {
    Value(Value),
    Object(usize),
    Function(usize),
}

/// Whether an expression is constant, and its value, where it has one: `1 / 0` is constant and has
/// none.
#[derive(Clone, Copy, PartialEq, Eq, Debug)]
pub enum Constant {
    No,
    WithoutValue,
    Known(u32),
}

/// The alignments of types on i386.
#[derive(Clone, Copy, PartialEq, Eq, Hash, Debug)]
pub enum Alignment {
    One,
    Two,
    Four,
}

impl Alignment {
    /// The bytes of which an address has to be a multiple.
    pub fn bytes(self) -> u32
        ensures value { result ≡ bytes_in self }
        ensures least { 1 ≤ result }
        ensures most { result ≤ 4 }
    {
        match self {
            Alignment::One => 1,
            Alignment::Two => 2,
            Alignment::Four => 4,
        }
    }

    /// The greater of two.
    pub fn joined(self, other: Alignment) -> Alignment
        ensures { bytes_in result ≡ max (bytes_in self) (bytes_in other) }
    {
        match (self, other) {
            (Alignment::Four, _) | (_, Alignment::Four) => Alignment::Four,
            (Alignment::Two, _) | (_, Alignment::Two) => Alignment::Two,
            (Alignment::One, Alignment::One) => Alignment::One,
        }
    }
}
