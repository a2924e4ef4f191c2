//! Values, the cells of memory, and the chunks in which memory is read and written.

/// A 32-bit word, or a value of which nothing is known.
#[derive(Clone, Copy, PartialEq, Eq, PartialOrd, Ord, Hash, Debug)]
pub enum Val {
    Undef,
    Word(u32),
}

/// One byte of memory: known, or never written with a known value.
#[derive(Clone, Copy, PartialEq, Eq, PartialOrd, Ord, Hash, Debug)]
pub enum Cell {
    Blank,
    Byte(u8),
}

/// The width of an access in bits, and how a load extends it to a word: by its sign (`s`) or by
/// zeros (`u`).
#[derive(Clone, Copy, PartialEq, Eq, PartialOrd, Ord, Hash, Debug)]
pub enum Chunk {
    I8s,
    I8u,
    I16s,
    I16u,
    I32,
}
