//! What a line of a text says.
ghost use Rattle.std.specs.Prelude.{◌≡◌, ◌^◌, ◌<◌, ◌∷◌, IfOk, IfSome, MatchOption};
ghost use Rattle.std.specs.Option.{option_map};
ghost use Rattle.x86_lines.specs.Pieces.{pieces};
ghost use Rattle.x86_lines.specs.Finding.{bits_in, count_in};
ghost use Rattle.x86_text.specs.declared.line.Line.{Line};
ghost use Rattle.x86_text.specs.Scanning.{balign_from, byte_from, comment, datum, export, extern_at, extern_from, extern_in, extern_or, is_alignment, label, long_from, one_piece, pace_from, pace_in, pace_or, plain, reading, reading_at, short_from, strip, two_pieces, zero_from};
ghost use Rattle.x86_text.specs.Spoken.{IsMadeOf, IsOp, spoken_of};
ghost use Rattle.x86_text.specs.Text.{Says, extern_mark};
ghost use Rattle.x86_table.specs.declared.instruction.Instr.{Instr};
ghost use Rattle.x86_lines.specs.Grammar.{IsInstr};

use crate::line::Line;
use std::alloc::Global;
use tso_words::{Name, NoMemory};
use x86_lang::StaticLine;
use x86_lines::bits::{found_bits, found_count};
use x86_lines::instr_reading::instr_in;
use x86_lines::piece::{next_piece, passes_as_name, past_blanks};

/// What a line says, or that it is bad, or that it has to be an instruction.
#[derive(Clone, Copy)]
pub enum Spoken<'a> {
    Nothing,
    Pace(u128),
    Extern(&'a [u8], u32),
    Text,
    Data,
    Export(&'a [u8]),
    Label(&'a [u8]),
    Byte(u8),
    Short(u16),
    Long(u32),
    Zero(u32),
    Balign(u32),
    Bad,
    Code,
}

// What stands behind a mark.
fn strip<'a>(mark: &[u8], bytes: &'a [u8]) -> Option<&'a [u8]>
    ensures { option_map (λ rest. rest.now) result ≡ strip mark.now bytes.now }
{
    let mut left = mark;
    let mut rest = bytes;
    while let [expected, marks @ ..] = left {
        match rest {
            [] => return None,
            [first, after @ ..] => {
                if *first != *expected {
                    return None;
                }
                left = marks;
                rest = after;
            }
        }
    }
    Some(rest)
}

// A pace.
fn pace_from<'a>(count: Option<u128>) -> Spoken<'a>
    ensures { spoken_of result ≡ pace_from count }
{
    match count {
        None => Spoken::Bad,
        Some(pace) => Spoken::Pace(pace),
    }
}

// The number of '# pace'.
fn pace_in(bytes: &[u8]) -> Spoken<'_>
    ensures { spoken_of result ≡ pace_in (pieces bytes.now) }
{
    match next_piece(bytes) {
        None => Spoken::Bad,
        Some(number) => {
            if next_piece(number.rest).is_none() {
                pace_from(found_count(number.word))
            } else {
                Spoken::Bad
            }
        }
    }
}

// An external with the number of words that it takes.
fn extern_from<'a>(name: &'a [u8], count: Option<u128>) -> Spoken<'a>
    ensures { spoken_of result ≡ extern_from name.now count }
{
    match count {
        None => Spoken::Bad,
        Some(words) => {
            if words <= 64 {
                Spoken::Extern(name, words as u32)
            } else {
                Spoken::Bad
            }
        }
    }
}

// A name and a number.
fn extern_at<'a>(name: &'a [u8], number: &'a [u8]) -> Spoken<'a>
    ensures { spoken_of result ≡ extern_at name.now number.now }
{
    if passes_as_name(name) {
        extern_from(name, found_count(number))
    } else {
        Spoken::Bad
    }
}

// What stands behind the name of '# extern'.
fn extern_behind<'a>(name: &'a [u8], bytes: &'a [u8]) -> Spoken<'a>
    ensures { spoken_of result ≡ extern_in (name.now ∷ pieces bytes.now) }
{
    match next_piece(bytes) {
        None => Spoken::Bad,
        Some(number) => {
            if next_piece(number.rest).is_none() {
                extern_at(name, number.word)
            } else {
                Spoken::Bad
            }
        }
    }
}

// The name and the number of '# extern'.
fn extern_in(bytes: &[u8]) -> Spoken<'_>
    ensures { spoken_of result ≡ extern_in (pieces bytes.now) }
{
    match next_piece(bytes) {
        None => Spoken::Bad,
        Some(name) => extern_behind(name.word, name.rest),
    }
}

// A comment that is no '# pace'.
fn extern_or(bytes: &[u8]) -> Spoken<'_>
    ensures { spoken_of result ≡ extern_or (strip extern_mark bytes.now) }
{
    match strip(b"# extern ", bytes) {
        None => Spoken::Nothing,
        Some(rest) => extern_in(rest),
    }
}

// A comment.
fn comment(bytes: &[u8]) -> Spoken<'_>
    ensures { spoken_of result ≡ comment bytes.now }
{
    match strip(b"# pace ", bytes) {
        None => extern_or(bytes),
        Some(rest) => pace_in(rest),
    }
}

// A number of 8 bits.
fn byte_from<'a>(bits: Option<u32>) -> Spoken<'a>
    requires { IfSome bits (λ n. n < 2 ^ 8) }
    ensures { spoken_of result ≡ byte_from bits }
{
    match bits {
        None => Spoken::Bad,
        Some(number) => Spoken::Byte(number as u8),
    }
}

// A number of 16 bits.
fn short_from<'a>(bits: Option<u32>) -> Spoken<'a>
    requires { IfSome bits (λ n. n < 2 ^ 16) }
    ensures { spoken_of result ≡ short_from bits }
{
    match bits {
        None => Spoken::Bad,
        Some(number) => Spoken::Short(number as u16),
    }
}

// A number of 32 bits.
fn long_from<'a>(bits: Option<u32>) -> Spoken<'a>
    ensures { spoken_of result ≡ long_from bits }
{
    match bits {
        None => Spoken::Bad,
        Some(number) => Spoken::Long(number),
    }
}

// So many zeros.
fn zero_from<'a>(bits: Option<u32>) -> Spoken<'a>
    ensures { spoken_of result ≡ zero_from bits }
{
    match bits {
        None => Spoken::Bad,
        Some(number) => Spoken::Zero(number),
    }
}

// An alignment.
fn balign_from<'a>(count: Option<u128>) -> Spoken<'a>
    ensures { spoken_of result ≡ balign_from count }
{
    match count {
        None => Spoken::Bad,
        Some(number) => {
            if number == 1 || (number == 2 || (number == 4 || number == 16)) {
                Spoken::Balign(number as u32)
            } else {
                Spoken::Bad
            }
        }
    }
}

// A directive of data.
fn datum<'a>(word: &'a [u8], number: &'a [u8]) -> Spoken<'a>
    ensures { spoken_of result ≡ datum word.now number.now }
{
    if word == b".byte".as_slice() {
        byte_from(found_bits(128, number))
    } else if word == b".short".as_slice() {
        short_from(found_bits(32_768, number))
    } else if word == b".long".as_slice() {
        long_from(found_bits(2_147_483_648, number))
    } else if word == b".zero".as_slice() {
        zero_from(found_bits(2_147_483_648, number))
    } else if word == b".balign".as_slice() {
        balign_from(found_count(number))
    } else {
        Spoken::Code
    }
}

// A label.
fn label(name: &[u8]) -> Spoken<'_>
    ensures { spoken_of result ≡ label name.now }
{
    if passes_as_name(name) {
        Spoken::Label(name)
    } else {
        Spoken::Bad
    }
}

// A name that is exported.
fn export(name: &[u8]) -> Spoken<'_>
    ensures { spoken_of result ≡ export name.now }
{
    if passes_as_name(name) {
        Spoken::Export(name)
    } else {
        Spoken::Bad
    }
}

// A line of one piece.
fn one_piece(word: &[u8]) -> Spoken<'_>
    ensures { spoken_of result ≡ one_piece word.now }
{
    if word == b".text".as_slice() {
        Spoken::Text
    } else if word == b".data".as_slice() {
        Spoken::Data
    } else {
        Spoken::Code
    }
}

// A line of two pieces.
fn two_pieces<'a>(word: &'a [u8], second: &'a [u8]) -> Spoken<'a>
    ensures { spoken_of result ≡ two_pieces word.now second.now }
{
    if second == b":".as_slice() {
        label(word)
    } else if word == b".globl".as_slice() {
        export(second)
    } else {
        datum(word, second)
    }
}

// A line of two pieces or more.
fn two_or_more<'a>(word: &'a [u8], second: &'a [u8], rest: &'a [u8]) -> Spoken<'a>
    ensures { spoken_of result ≡ plain (word.now ∷ second.now ∷ pieces rest.now) }
{
    match next_piece(rest) {
        None => two_pieces(word, second),
        Some(_) => Spoken::Code,
    }
}

// A line of one piece or more.
fn one_or_more<'a>(word: &'a [u8], rest: &'a [u8]) -> Spoken<'a>
    ensures { spoken_of result ≡ plain (word.now ∷ pieces rest.now) }
{
    match next_piece(rest) {
        None => one_piece(word),
        Some(second) => two_or_more(word, second.word, second.rest),
    }
}

// A line that is no comment.
fn plain(bytes: &[u8]) -> Spoken<'_>
    ensures { spoken_of result ≡ plain (pieces bytes.now) }
{
    match next_piece(bytes) {
        None => Spoken::Nothing,
        Some(first) => one_or_more(first.word, first.rest),
    }
}

// A line, by what stands behind its blanks.
fn reading_at<'a>(front: &'a [u8], bytes: &'a [u8]) -> Spoken<'a>
    ensures { spoken_of result ≡ reading_at front.now bytes.now }
{
    match front {
        [] => plain(bytes),
        [first, ..] => {
            if *first == 35 {
                comment(front)
            } else {
                plain(bytes)
            }
        }
    }
}

// A line.
fn reading(bytes: &[u8]) -> Spoken<'_>
    ensures { spoken_of result ≡ reading bytes.now }
{
    reading_at(past_blanks(bytes), bytes)
}

// A line that has to be an instruction.
fn code_line(alloc: Global, bytes: &[u8]) -> Result<Option<Line>, NoMemory>
    ensures { IfOk result (λ r. MatchOption r ((i : Instr) → ¬ IsInstr (pieces bytes.now) i) (λ l. IsOp bytes.now l)) }
{
    let instr = instr_in(alloc, bytes)?;
    match instr {
        None => Ok(None),
        Some(instr) => Ok(Some(Line::Op(instr))),
    }
}

// The line that a reading says.
fn line_made(alloc: Global, spoken: Spoken<'_>, bytes: &[u8]) -> Result<Option<Line>, NoMemory>
    ensures { IfOk result (λ r. IsMadeOf (spoken_of spoken.entry) bytes.now r) }
{
    match spoken {
        Spoken::Nothing => Ok(Some(Line::Nothing)),
        Spoken::Pace(pace) => Ok(Some(Line::Pace(pace))),
        Spoken::Extern(name, words) => Ok(Some(Line::Extern(Name::made(alloc, name)?, words))),
        Spoken::Text => Ok(Some(Line::Text)),
        Spoken::Data => Ok(Some(Line::Data)),
        Spoken::Export(name) => Ok(Some(Line::Export(Name::made(alloc, name)?))),
        Spoken::Label(name) => Ok(Some(Line::Label(Name::made(alloc, name)?))),
        Spoken::Byte(number) => Ok(Some(Line::Datum(StaticLine::Byte(number)))),
        Spoken::Short(number) => Ok(Some(Line::Datum(StaticLine::Short(number)))),
        Spoken::Long(number) => Ok(Some(Line::Datum(StaticLine::Long(number)))),
        Spoken::Zero(number) => Ok(Some(Line::Datum(StaticLine::Zero(number)))),
        Spoken::Balign(number) => Ok(Some(Line::Datum(StaticLine::Balign(number)))),
        Spoken::Bad => Ok(None),
        Spoken::Code => code_line(alloc, bytes),
    }
}

/// What a line says; None where it says nothing at all, which is bad.
pub fn read_line(alloc: Global, bytes: &[u8]) -> Result<Option<Line>, NoMemory>
    ensures { IfOk result (λ r. MatchOption r ((l : Line) → ¬ Says bytes.now l) (λ l. Says bytes.now l)) }
{
    line_made(alloc, reading(bytes), bytes)
}
