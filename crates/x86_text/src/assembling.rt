//! The lines of a text, one after the other, up to the first that is bad.
ghost use Rattle.std.specs.Prelude.{◌≡◌, ◌+◌, ◌≤◌, ◌<◌, IfOk, nat_eq};
ghost use Rattle.std.specs.Cmp.Lexicographic.{pointwise};
ghost use Rattle.indexmap.specs.IndexSet.{contains};
ghost use Rattle.x86_lang.specs.Assembly.{data_start, heap_start};
ghost use Rattle.x86_text.specs.Judging.{
  Ends,
  Grows,
  IsKept,
  IsOutcomeOf,
  IsSaid,
  Judges,
  JudgesLine,
  Takes,
  TakesMade,
  datum_size,
  made_name,
  op_count,
};
ghost use Rattle.x86_text.specs.Gathering.{gathered_of};
ghost use Rattle.x86_text.specs.Naming.{IsSurvey, look};
ghost use Rattle.x86_text.specs.Text.{opening};

use crate::cutting::first_line;
use crate::gathering::{Gathering, add_line, opening};
use crate::line::Line;
use crate::line_reading::read_line;
use crate::naming::{NameTable, is_service};
use indexmap::IndexSet;
use std::alloc::{AllocError, Global};
use tso_words::{Name, NoMemory};
use x86_lang::Parts;
use x86_lang::placing::{CODE_START, DATA_START, HEAP_START, size_at};

/// What the good lines so far said, the names that they make, and the addresses behind their code
/// and their data.
#[derive(Drop)]
pub struct Assembling {
    gathering: Gathering,
    names: IndexSet<Name>,
    code_end: u32,
    data_end: u32,
}

/// The parts that a text says, or its first bad line, counted from 1.
#[derive(Drop)]
pub enum Outcome {
    Whole(Parts),
    BadLine(u64),
}

// Before the first line.
fn first(alloc: Global) -> Assembling
    ensures kept { IsKept result }
    ensures opens { gathered_of result.gathering ≡ opening }
{
    Assembling {
        gathering: opening(alloc),
        names: IndexSet::new(alloc),
        code_end: CODE_START,
        data_end: DATA_START,
    }
}

// Adds a name, where it is new and no service has it.
fn take(names: &mut IndexSet<Name>, name: &Name) -> Result<bool, NoMemory>
    ensures { IfOk result (λ fresh. Takes fresh (contains (pointwise nat_eq) names.old) name.now (contains (pointwise nat_eq) names.new)) }
{
    if is_service(name.bytes()) {
        return Ok(false);
    }
    let copy = name.clone()?;
    let fresh = names.insert(copy).map_err(AllocError::from)?;
    Ok(fresh)
}

// Adds the name that a line makes, if it makes one.
fn take_made(names: &mut IndexSet<Name>, line: &Line) -> Result<bool, NoMemory>
    ensures { IfOk result (λ fresh. TakesMade fresh (contains (pointwise nat_eq) names.old) (made_name line.now) (contains (pointwise nat_eq) names.new)) }
{
    match line {
        Line::Label(name) => take(names, name),
        Line::Extern(name, _) => take(names, name),
        _ => Ok(true),
    }
}

// Where the code ends behind a line that may stand.
fn code_end_behind(at: u32, line: &Line) -> u32
    requires { at ≤ data_start }
    ensures { result ≡ at + op_count line.now }
{
    match line {
        Line::Op(_) => at + 1,
        _ => at,
    }
}

// Where the data end behind a line that may stand.
fn data_end_behind(at: u32, line: &Line) -> u64
    requires within { at ≤ heap_start }
    requires said { IsSaid line.now }
    ensures { result ≡ at + datum_size at line.now }
{
    match line {
        Line::Datum(datum) => u64::from(at) + u64::from(size_at(at, datum)),
        _ => u64::from(at),
    }
}

// Adds a line, where it may stand and its section does not get too long.
fn grow(state: &mut Assembling, line: Line) -> Result<bool, NoMemory>
    requires code { state.old.code_end ≤ data_start }
    requires statics { state.old.data_end ≤ heap_start }
    requires said { IsSaid line }
    ensures { IfOk result (λ good. Grows good state.old line state.new) }
{
    let code_end = code_end_behind(state.code_end, &line);
    let data_end = data_end_behind(state.data_end, &line);
    if !add_line(&mut state.gathering, line)? {
        return Ok(false);
    }
    if DATA_START < code_end || u64::from(HEAP_START) < data_end {
        return Ok(false);
    }
    state.code_end = code_end;
    state.data_end = data_end as u32;
    Ok(true)
}

// Adds a line, where it is good.
fn judge(table: &NameTable, state: &mut Assembling, line: Line) -> Result<bool, NoMemory>
    requires kept { IsKept state.old }
    requires said { IsSaid line }
    ensures { IfOk result (λ good. Judges good (look table.now) state.old line state.new) }
{
    if !table.takes_line(&line) {
        return Ok(false);
    }
    if !take_made(&mut state.names, &line)? {
        return Ok(false);
    }
    grow(state, line)
}

// Adds the bytes of a line, where they say something good.
fn judge_line(
    alloc: Global,
    table: &NameTable,
    state: &mut Assembling,
    bytes: &[u8],
) -> Result<bool, NoMemory>
    requires { IsKept state.old }
    ensures { IfOk result (λ good. JudgesLine good (look table.now) state.old bytes.now state.new) }
{
    let said = read_line(alloc, bytes)?;
    match said {
        None => Ok(false),
        Some(line) => judge(table, state, line),
    }
}

// What all lines say together, where some label of code is 'main'.
fn ended(alloc: Global, table: &NameTable, parts: Parts, count: u64) -> Result<Outcome, NoMemory>
    requires { count < 18446744073709551615 }
    ensures { IfOk result (λ outcome. Ends (look table.now) parts count outcome) }
{
    let main = Name::made(alloc, b"main")?;
    if table.is_code(&main) {
        Ok(Outcome::Whole(parts))
    } else {
        Ok(Outcome::BadLine(count + 1))
    }
}

/// The parts that a text says, or its first bad line.
pub fn outcome_of(alloc: Global, table: &NameTable, text: &[u8]) -> Result<Outcome, NoMemory>
    requires { IsSurvey text.now (look table.now) }
    ensures { IfOk result (λ outcome. IsOutcomeOf text.now outcome) }
{
    let mut state = first(alloc);
    let mut rest = text;
    let mut count: u64 = 0;
    while let Some(cut) = first_line(rest) {
        if !judge_line(alloc, table, &mut state, cut.line)? {
            return Ok(Outcome::BadLine(count + 1));
        }
        count += 1;
        rest = cut.rest;
    }
    let Assembling { gathering, .. } = state;
    ended(alloc, table, gathering.into_parts(), count)
}
