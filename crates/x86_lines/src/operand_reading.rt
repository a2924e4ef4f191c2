//! Operands from the pieces of a line, each with what stands behind it.
ghost use Rattle.std.specs.Prelude.{◌≡◌, Some};
ghost use Rattle.std.specs.Option.{option_map};
ghost use Rattle.x86_lines.specs.Pieces.{pieces};
ghost use Rattle.x86_lines.specs.Finding.{is_mark, scale_from};
ghost use Rattle.x86_lines.specs.Spelled.{operand_of, spelled_operands, taken, taken_back};
ghost use Rattle.x86_lines.specs.Taking.{back, behind, behind_base, behind_comma, behind_first, behind_index, closed, immediate, immediate_at, index_of, indexed, inside, inside_at, memory_at, memory_from, named, named_from, operand_at, operands_in, plain_at, plus, scaled, second_from, shape_behind, symbol_from, take_operand, through, word_of};
ghost use Rattle.x86_table.specs.declared.operand.Operand.TheVariants as operand;
ghost use Rattle.x86_table.specs.Operand.{shape_of};

use crate::bits::{found_bits, found_count};
use crate::piece::{next_piece, passes_as_name};
use crate::register_names::{found_byte, found_half, found_index, found_register};
use x86_table::operand::{Index, Scale};
use x86_table::register::{ByteRegister, HalfRegister, IndexRegister, Register};
use x86_table::table::{Pattern, Shape};

const SIGN_BIT: u32 = 2_147_483_648;

/// An operand as a text spells it.
#[derive(Clone, Copy)]
pub enum Spelled<'a> {
    Absent,
    Word(Register),
    Byte(ByteRegister),
    Half(HalfRegister),
    Number(u32),
    Symbol(&'a [u8], u32),
    /// A memory operand with a label.
    Labelled(&'a [u8], u32, Option<Register>, Option<Index>),
    Memory(u32, Option<Register>, Option<Index>),
    Through(Register),
}

/// An operand, its shape, and what stands behind it.
#[derive(Clone, Copy)]
pub struct Taken<'a> {
    pub operand: Spelled<'a>,
    pub shape: Shape,
    pub rest: &'a [u8],
}

/// The parentheses of a memory operand, and what stands behind them.
#[derive(Clone, Copy)]
pub struct TakenBack<'a> {
    pub base: Option<Register>,
    pub index: Option<Index>,
    pub rest: &'a [u8],
}

/// The operands of a line, with their shapes.
#[derive(Clone, Copy)]
pub struct SpelledOperands<'a> {
    pub first: Spelled<'a>,
    pub second: Spelled<'a>,
    pub pattern: Pattern,
}

// Whether a piece is this byte alone.
const fn is_mark(mark: u8, word: &[u8]) -> bool
    ensures { result ≡ is_mark mark word.now }
{
    match word {
        [] => false,
        [byte] => *byte == mark,
        [_, _, ..] => false,
    }
}

/// What stands behind this mark.
pub fn take_mark(mark: u8, line: &[u8]) -> Option<&[u8]>
    ensures { option_map (λ rest. pieces rest.now) result ≡ behind mark (pieces line.now) }
{
    match next_piece(line) {
        None => None,
        Some(piece) => {
            if is_mark(mark, piece.word) {
                Some(piece.rest)
            } else {
                None
            }
        }
    }
}

// The factor of this size.
fn scale_of(count: Option<u128>) -> Option<Scale>
    ensures { result ≡ scale_from count }
{
    match count {
        None => None,
        Some(size) => {
            if size == 1 {
                Some(Scale::One)
            } else if size == 2 {
                Some(Scale::Two)
            } else if size == 4 {
                Some(Scale::Four)
            } else if size == 8 {
                Some(Scale::Eight)
            } else {
                None
            }
        }
    }
}

// The scale of an index.
fn take_scale(register: IndexRegister, line: &[u8]) -> Option<(Index, &[u8])>
    ensures { option_map (λ t. (t.0, pieces t.1.now)) result ≡ scaled register (pieces line.now) }
{
    match next_piece(line) {
        None => None,
        Some(number) => match scale_of(found_count(number.word)) {
            None => None,
            Some(scale) => Some((Index { register, scale }, number.rest)),
        },
    }
}

// What stands behind the register of an index.
fn take_comma_scale(register: IndexRegister, line: &[u8]) -> Option<(Index, &[u8])>
    ensures { option_map (λ t. (t.0, pieces t.1.now)) result ≡ behind_index register (behind 44 (pieces line.now)) }
{
    match take_mark(44, line) {
        None => None,
        Some(rest) => take_scale(register, rest),
    }
}

// `%ecx,4`
fn take_index(line: &[u8]) -> Option<(Index, &[u8])>
    ensures { option_map (λ t. (t.0, pieces t.1.now)) result ≡ index_of (pieces line.now) }
{
    match next_piece(line) {
        None => None,
        Some(name) => match found_index(name.word) {
            None => None,
            Some(register) => take_comma_scale(register, name.rest),
        },
    }
}

// An index, behind this base.
fn take_indexed(base: Option<Register>, line: &[u8]) -> Option<TakenBack<'_>>
    ensures { option_map taken_back result ≡ indexed base (index_of (pieces line.now)) }
{
    match take_index(line) {
        None => None,
        Some((index, rest)) => Some(TakenBack {
            base,
            index: Some(index),
            rest,
        }),
    }
}

// What stands behind a base.
fn take_behind_base(register: Register, line: &[u8]) -> Option<TakenBack<'_>>
    ensures { option_map taken_back result ≡ behind_base register (behind 44 (pieces line.now)) (pieces line.now) }
{
    match take_mark(44, line) {
        None => Some(TakenBack {
            base: Some(register),
            index: None,
            rest: line,
        }),
        Some(rest) => take_indexed(Some(register), rest),
    }
}

// What stands between parentheses, from its first piece on.
fn inside_at<'a>(word: &'a [u8], rest: &'a [u8]) -> Option<TakenBack<'a>>
    ensures { option_map taken_back result ≡ inside_at word.now (pieces rest.now) }
{
    if is_mark(44, word) {
        return take_indexed(None, rest);
    }
    match found_register(word) {
        None => None,
        Some(register) => take_behind_base(register, rest),
    }
}

// What stands between parentheses.
fn take_inside(line: &[u8]) -> Option<TakenBack<'_>>
    ensures { option_map taken_back result ≡ inside (pieces line.now) }
{
    match next_piece(line) {
        None => None,
        Some(piece) => inside_at(piece.word, piece.rest),
    }
}

// What stands between parentheses, and the second of them.
fn take_closed(line: &[u8]) -> Option<TakenBack<'_>>
    ensures { option_map taken_back result ≡ closed (pieces line.now) }
{
    match take_inside(line) {
        None => None,
        Some(inside) => match take_mark(41, inside.rest) {
            None => None,
            Some(rest) => Some(TakenBack {
                base: inside.base,
                index: inside.index,
                rest,
            }),
        },
    }
}

// The parentheses, where there are any.
fn take_back(line: &[u8]) -> Option<TakenBack<'_>>
    ensures { option_map taken_back result ≡ back (pieces line.now) }
{
    match take_mark(40, line) {
        None => Some(TakenBack {
            base: None,
            index: None,
            rest: line,
        }),
        Some(rest) => take_closed(rest),
    }
}

// A number of 32 bits.
fn take_word(line: &[u8]) -> Option<(u32, &[u8])>
    ensures { option_map (λ t. (t.0, pieces t.1.now)) result ≡ word_of (pieces line.now) }
{
    match next_piece(line) {
        None => None,
        Some(number) => match found_bits(SIGN_BIT, number.word) {
            None => None,
            Some(size) => Some((size, number.rest)),
        },
    }
}

// `+4`
fn take_plus(line: &[u8]) -> Option<(u32, &[u8])>
    ensures { option_map (λ t. (t.0, pieces t.1.now)) result ≡ plus (pieces line.now) }
{
    match take_mark(43, line) {
        None => None,
        Some(rest) => take_word(rest),
    }
}

// The shape of a name behind which these parentheses stand.
fn shape_behind(base: Option<Register>, index: Option<Index>) -> Shape
    ensures { result ≡ shape_behind base index }
{
    match (base, index) {
        (None, None) => Shape::Bare,
        _ => Shape::Memory,
    }
}

// A memory operand behind its name.
fn take_named<'a>(name: &'a [u8], line: &'a [u8]) -> Option<Taken<'a>>
    ensures { option_map taken result ≡ named_from name.now (back (pieces line.now)) }
{
    match take_back(line) {
        None => None,
        Some(behind) => Some(Taken {
            operand: Spelled::Labelled(name, 0, behind.base, behind.index),
            shape: shape_behind(behind.base, behind.index),
            rest: behind.rest,
        }),
    }
}

// A memory operand behind its name and what is added to that.
fn take_named_plus<'a>(name: &'a [u8], plus: u32, line: &'a [u8]) -> Option<Taken<'a>>
    ensures { option_map taken result ≡ memory_from (Some name.now) plus (back (pieces line.now)) }
{
    match take_back(line) {
        None => None,
        Some(behind) => Some(Taken {
            operand: Spelled::Labelled(name, plus, behind.base, behind.index),
            shape: Shape::Memory,
            rest: behind.rest,
        }),
    }
}

// A memory operand with a label.
fn take_labelled<'a>(name: &'a [u8], line: &'a [u8]) -> Option<Taken<'a>>
    ensures { option_map taken result ≡ named name.now (plus (pieces line.now)) (pieces line.now) }
{
    match take_plus(line) {
        None => take_named(name, line),
        Some((plus, rest)) => take_named_plus(name, plus, rest),
    }
}

// A memory operand without a label, by what its parentheses are.
fn unlabelled(number: u32, behind: Option<TakenBack<'_>>) -> Option<Taken<'_>>
    ensures { option_map taken result ≡ memory_from None number (option_map taken_back behind.entry) }
{
    match behind {
        None => None,
        Some(behind) => Some(Taken {
            operand: Spelled::Memory(number, behind.base, behind.index),
            shape: Shape::Memory,
            rest: behind.rest,
        }),
    }
}

// A memory operand.
fn memory_at<'a>(word: &'a [u8], rest: &'a [u8]) -> Option<Taken<'a>>
    ensures { option_map taken result ≡ memory_at word.now (pieces rest.now) }
{
    if passes_as_name(word) {
        return take_labelled(word, rest);
    }
    match found_bits(SIGN_BIT, word) {
        Some(number) => unlabelled(number, take_back(rest)),
        None => {
            if is_mark(40, word) {
                unlabelled(0, take_closed(rest))
            } else {
                None
            }
        }
    }
}

// A label as a number, behind its name.
fn take_symbol<'a>(name: &'a [u8], line: &'a [u8]) -> Taken<'a>
    ensures { taken result ≡ symbol_from name.now (plus (pieces line.now)) (pieces line.now) }
{
    let (plus, rest) = match take_plus(line) {
        None => (0, line),
        Some((plus, rest)) => (plus, rest),
    };
    Taken {
        operand: Spelled::Symbol(name, plus),
        shape: Shape::Symbol,
        rest,
    }
}

// What stands behind a '$', from its first piece on.
fn immediate_at<'a>(word: &'a [u8], rest: &'a [u8]) -> Option<Taken<'a>>
    ensures { option_map taken result ≡ immediate_at word.now (pieces rest.now) }
{
    if passes_as_name(word) {
        return Some(take_symbol(word, rest));
    }
    match found_bits(SIGN_BIT, word) {
        None => None,
        Some(number) => Some(Taken {
            operand: Spelled::Number(number),
            shape: Shape::Number,
            rest,
        }),
    }
}

// What stands behind a '$'.
fn take_immediate(line: &[u8]) -> Option<Taken<'_>>
    ensures { option_map taken result ≡ immediate (pieces line.now) }
{
    match next_piece(line) {
        None => None,
        Some(piece) => immediate_at(piece.word, piece.rest),
    }
}

// `*%eax`, behind the '*'.
fn take_through(line: &[u8]) -> Option<Taken<'_>>
    ensures { option_map taken result ≡ through (pieces line.now) }
{
    match next_piece(line) {
        None => None,
        Some(name) => match found_register(name.word) {
            None => None,
            Some(register) => Some(Taken {
                operand: Spelled::Through(register),
                shape: Shape::Through,
                rest: name.rest,
            }),
        },
    }
}

// The shape of a byte.
fn byte_shape(register: ByteRegister) -> Shape
    ensures { result ≡ shape_of (operand.Byte register) }
{
    match register {
        ByteRegister::Al | ByteRegister::Bl | ByteRegister::Dl => Shape::Byte,
        ByteRegister::Cl => Shape::Cl,
    }
}

// A register, or a memory operand.
fn plain_at<'a>(word: &'a [u8], rest: &'a [u8]) -> Option<Taken<'a>>
    ensures { option_map taken result ≡ plain_at word.now (pieces rest.now) }
{
    let (operand, shape) = match found_register(word) {
        Some(register) => (Spelled::Word(register), Shape::Word),
        None => match found_byte(word) {
            Some(register) => (Spelled::Byte(register), byte_shape(register)),
            None => match found_half(word) {
                Some(register) => (Spelled::Half(register), Shape::Half),
                None => return memory_at(word, rest),
            },
        },
    };
    Some(Taken {
        operand,
        shape,
        rest,
    })
}

// An operand, from its first piece on.
fn operand_at<'a>(word: &'a [u8], rest: &'a [u8]) -> Option<Taken<'a>>
    ensures { option_map taken result ≡ operand_at word.now (pieces rest.now) }
{
    if is_mark(36, word) {
        return take_immediate(rest);
    }
    if is_mark(42, word) {
        return take_through(rest);
    }
    plain_at(word, rest)
}

/// The operand at the front of a line; None where there is none.
pub fn take_operand(line: &[u8]) -> Option<Taken<'_>>
    ensures { option_map taken result ≡ take_operand (pieces line.now) }
{
    match next_piece(line) {
        None => None,
        Some(piece) => operand_at(piece.word, piece.rest),
    }
}

// The second operand of a line, with nothing behind it.
fn take_second<'a>(first: Spelled<'a>, shape: Shape, line: &'a [u8]) -> Option<SpelledOperands<'a>>
    ensures { option_map spelled_operands result ≡ second_from (operand_of first.entry) shape (take_operand (pieces line.now)) }
{
    match take_operand(line) {
        None => None,
        Some(second) => match next_piece(second.rest) {
            None => Some(SpelledOperands {
                first,
                second: second.operand,
                pattern: Pattern {
                    first: shape,
                    second: second.shape,
                },
            }),
            Some(_) => None,
        },
    }
}

// The operands of a line behind the first.
fn take_behind_first<'a>(
    first: Spelled<'a>,
    shape: Shape,
    line: &'a [u8],
) -> Option<SpelledOperands<'a>>
    ensures { option_map spelled_operands result ≡ behind_first (operand_of first.entry) shape (pieces line.now) }
{
    if next_piece(line).is_none() {
        return Some(SpelledOperands {
            first,
            second: Spelled::Absent,
            pattern: Pattern {
                first: shape,
                second: Shape::Absent,
            },
        });
    }
    match take_mark(44, line) {
        None => None,
        Some(rest) => take_second(first, shape, rest),
    }
}

/// The operands of a line, with their shapes; None where the line is no list of operands.
pub fn operands_in(line: &[u8]) -> Option<SpelledOperands<'_>>
    ensures { option_map spelled_operands result ≡ operands_in (pieces line.now) }
{
    if next_piece(line).is_none() {
        return Some(SpelledOperands {
            first: Spelled::Absent,
            second: Spelled::Absent,
            pattern: Pattern {
                first: Shape::Absent,
                second: Shape::Absent,
            },
        });
    }
    match take_operand(line) {
        None => None,
        Some(first) => take_behind_first(first.operand, first.shape, first.rest),
    }
}
