//! Operators, words and constants.

/// A constant, and how it is written, as far as its type hangs on that.
#[derive(Clone, Copy, PartialEq, Eq, Debug)]
pub enum Number {
    Decimal(u32),
    OctalOrHexadecimal(u32),
    /// With a `u`.
    DecimalUnsigned(u32),
    /// Octal or hexadecimal, with a `u`.
    OtherUnsigned(u32),
    /// The byte of a character constant: its value is that byte as a signed char.
    Character(u8),
}

/// An operator before its operand.
#[derive(Clone, Copy, PartialEq, Eq, Debug)]
pub enum UnaryOperator {
    /// `&`
    AddressOf,
    /// `*`
    Dereference,
    Plus,
    Minus,
    /// `~`
    Complement,
    /// `!`
    Not,
}

/// An operator between two operands.
#[derive(Clone, Copy, PartialEq, Eq, Debug)]
pub enum BinaryOperator {
    LogicalOr,
    LogicalAnd,
    BitOr,
    BitXor,
    BitAnd,
    Equal,
    NotEqual,
    Less,
    Greater,
    LessEqual,
    GreaterEqual,
    ShiftLeft,
    ShiftRight,
    Plus,
    Minus,
    Times,
    Divide,
    Remainder,
}

/// `=` and the compound assignments.
#[derive(Clone, Copy, PartialEq, Eq, Debug)]
pub enum AssignmentOperator {
    Assign,
    Times,
    Divide,
    Remainder,
    Plus,
    Minus,
    ShiftLeft,
    ShiftRight,
    BitAnd,
    BitXor,
    BitOr,
}

/// `++` and `--`.
#[derive(Clone, Copy, PartialEq, Eq, Debug)]
pub enum Increment {
    Increase,
    Decrease,
}

/// `.` and `->`.
#[derive(Clone, Copy, PartialEq, Eq, Debug)]
pub enum Access {
    Dot,
    Arrow,
}

/// The words that types are written with.
#[derive(Clone, Copy, PartialEq, Eq, Debug)]
pub enum TypeWord {
    Void,
    Char,
    Short,
    Int,
    Long,
    Float,
    Double,
    Signed,
    Unsigned,
}

/// The type qualifiers.
#[derive(Clone, Copy, PartialEq, Eq, Debug)]
pub enum Qualifier {
    Const,
    Volatile,
    Restrict,
}

/// The storage classes.
#[derive(Clone, Copy, PartialEq, Eq, Debug)]
pub enum StorageClass {
    Extern,
    Static,
    Typedef,
}

/// `struct` and `union`.
#[derive(Clone, Copy, PartialEq, Eq, Debug)]
pub enum CompositeWord {
    Struct,
    Union,
}
