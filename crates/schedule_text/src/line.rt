//! One line of a schedule.

ghost use Rattle.std.specs.Prelude.{◌≡◌};
ghost use Rattle.schedule_text.specs.Scanning.{directive_of, directive_with, drain_of, fields_reading, is_skipped, line_reading, run_of, word_of};

use crate::number::{choice, count, thread};
use crate::schedule::Directive;
use crate::split::split_field;
use tso_core::Step;

/// The first word of a directive.
#[derive(Clone, Copy)]
pub enum Word {
    Run,
    Drain,
    Hold,
    Lazy,
    Auto,
}

/// What a line says.
#[derive(Clone, Copy)]
pub enum Reading {
    /// Nothing: it is blank or a comment.
    Skipped,
    Directs(Directive),
    /// It is no line of a schedule.
    Bad,
}

fn word_of(field: &[u8]) -> Option<Word>
    ensures { result ≡ word_of field.now }
{
    if field == b"run".as_slice() {
        Some(Word::Run)
    } else if field == b"drain".as_slice() {
        Some(Word::Drain)
    } else if field == b"hold".as_slice() {
        Some(Word::Hold)
    } else if field == b"lazy".as_slice() {
        Some(Word::Lazy)
    } else if field == b"auto".as_slice() {
        Some(Word::Auto)
    } else {
        None
    }
}

fn run_of(thread: u32, field: &[u8]) -> Option<Directive>
    ensures { result ≡ run_of thread field.now }
{
    let choice = match field {
        [] => None,
        [_, ..] => Some(choice(field)?),
    };
    Some(Directive::Step(Step::Run { thread, choice }))
}

fn drain_of(thread: u32, field: &[u8]) -> Option<Directive>
    ensures { result ≡ drain_of thread field.now }
{
    match field {
        [] => Some(Directive::Step(Step::Drain { thread })),
        [_, ..] => None,
    }
}

// The directive of a word for a thread, with the field behind the thread's.
fn directive_with(word: Word, thread: u32, field: &[u8]) -> Option<Directive>
    ensures { result ≡ directive_with word thread field.now }
{
    match word {
        Word::Run => run_of(thread, field),
        Word::Drain => drain_of(thread, field),
        Word::Hold => {
            let most = count(field)?;
            Some(Directive::Hold { thread, most })
        }
        Word::Lazy => {
            let most = count(field)?;
            Some(Directive::Lazy { thread, most })
        }
        Word::Auto => {
            let most = count(field)?;
            Some(Directive::Auto { thread, most })
        }
    }
}

fn directive_of(first: &[u8], second: &[u8], third: &[u8]) -> Option<Directive>
    ensures { result ≡ directive_of first.now second.now third.now }
{
    let word = word_of(first)?;
    let thread = thread(second)?;
    directive_with(word, thread, third)
}

fn is_skipped(first: &[u8]) -> bool
    ensures { result ≡ is_skipped first.now }
{
    match first {
        [byte, ..] => *byte == b'#',
        [] => true,
    }
}

// What a line with these first fields says; a field that it lacks is empty.
fn fields_reading(first: &[u8], second: &[u8], third: &[u8], extra: &[u8]) -> Reading
    ensures { result ≡ fields_reading first.now second.now third.now extra.now }
{
    if is_skipped(first) {
        return Reading::Skipped;
    }
    if !extra.is_empty() {
        return Reading::Bad;
    }
    match directive_of(first, second, third) {
        Some(what) => Reading::Directs(what),
        None => Reading::Bad,
    }
}

/// What a line says.
pub fn read_line(line: &[u8]) -> Reading
    ensures { result ≡ line_reading line.now }
{
    let (first, rest) = split_field(line);
    let (second, rest) = split_field(rest);
    let (third, rest) = split_field(rest);
    let (extra, _) = split_field(rest);
    fields_reading(first, second, third, extra)
}
