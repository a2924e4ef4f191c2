//! The bytes in which memory keeps the value of a chunk, and the value that bytes mean.
ghost use Rattle.std.specs.Prelude.{◌≡◌, ◌-◌, ◌++◌, length, replicate};
ghost use Rattle.tso_words.specs.Words.{chunk_size, bytes_of, value_of};
ghost use Rattle.tso_words.specs.declared.value.Cell.TheVariants.{Blank};

use crate::value::{Cell, Chunk, Val};

/// The size of a chunk in bytes: 1, 2 or 4.
pub fn size_of_chunk(c: Chunk) -> u32
    ensures { result ≡ chunk_size c }
{
    match c {
        Chunk::I8s | Chunk::I8u => 1,
        Chunk::I16s | Chunk::I16u => 2,
        Chunk::I32 => 4,
    }
}

/// The cells that a store of the value writes, lowest byte first; those past the size of the chunk
/// are blank.
pub fn bytes_of(c: Chunk, v: Val) -> [Cell; 4]
    ensures { result ≡ bytes_of c v ++ replicate (4 - chunk_size c) Blank }
{
    let Val::Word(w) = v else {
        return [Cell::Blank; 4];
    };
    let [b0, b1, b2, b3] = w.to_le_bytes();
    match c {
        Chunk::I8s | Chunk::I8u => [Cell::Byte(b0), Cell::Blank, Cell::Blank, Cell::Blank],
        Chunk::I16s | Chunk::I16u => [Cell::Byte(b0), Cell::Byte(b1), Cell::Blank, Cell::Blank],
        Chunk::I32 => [
            Cell::Byte(b0),
            Cell::Byte(b1),
            Cell::Byte(b2),
            Cell::Byte(b3),
        ],
    }
}

/// The value that the cells of a chunk mean: their number, extended to a word as the chunk says,
/// or `Undef` where one of them is blank.
pub fn val_of(c: Chunk, cells: &[Cell]) -> Val
    requires { length cells.now ≡ chunk_size c }
    ensures { result ≡ value_of c cells.now }
{
    match (c, cells) {
        (Chunk::I8s, [Cell::Byte(b)]) => Val::Word(i32::from(b.cast_signed()).cast_unsigned()),
        (Chunk::I8u, [Cell::Byte(b)]) => Val::Word(u32::from(*b)),
        (Chunk::I16s, [Cell::Byte(a), Cell::Byte(b)]) => {
            Val::Word(i32::from(i16::from_le_bytes([*a, *b])).cast_unsigned())
        }
        (Chunk::I16u, [Cell::Byte(a), Cell::Byte(b)]) => {
            Val::Word(u32::from(u16::from_le_bytes([*a, *b])))
        }
        (Chunk::I32, [Cell::Byte(a), Cell::Byte(b), Cell::Byte(c), Cell::Byte(d)]) => {
            Val::Word(u32::from_le_bytes([*a, *b, *c, *d]))
        }
        _ => Val::Undef,
    }
}
