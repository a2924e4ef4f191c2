//! What the lines so far said, names aside.
ghost use Rattle.std.specs.Prelude.{◌≡◌, IfOk};
ghost use Rattle.x86_text.specs.Gathering.{AddsAs, gathered_of};
ghost use Rattle.x86_text.specs.declared.line.Line.TheVariants as Line;
ghost use Rattle.x86_text.specs.Text.{adds, opening};

use crate::line::Line;
use sqlite_items::Items;
use std::alloc::Global;
use tso_words::{Name, NoMemory};
use x86_lang::{CodeLine, Parts, StaticLine};
use x86_table::instruction::Instr;

/// What the lines so far said, and the section that they ended in.
#[derive(Drop)]
pub struct Gathering {
    in_data: bool,
    has_pace: bool,
    parts: Parts,
}

impl Gathering {
    /// The parts that the lines said.
    pub fn into_parts(self) -> Parts
        ensures { result ≡ (gathered_of self).parts }
    {
        let Gathering { parts, .. } = self;
        parts
    }
}

/// Before the first line.
pub fn opening(alloc: Global) -> Gathering
    ensures { gathered_of result ≡ opening }
{
    Gathering {
        in_data: false,
        has_pace: false,
        parts: Parts {
            pace: 0,
            externs: Items::new(alloc),
            exports: Items::new(alloc),
            code: Items::new(alloc),
            statics: Items::new(alloc),
        },
    }
}

// Adds a pace, where there is none.
fn add_pace(gathering: &mut Gathering, pace: u128) -> bool
    ensures { AddsAs result (adds (gathered_of gathering.old) (Line.Pace pace)) (gathered_of gathering.new) }
{
    if gathering.has_pace {
        return false;
    }
    gathering.has_pace = true;
    gathering.parts.pace = pace;
    true
}

// Adds a label to the section.
fn add_label(gathering: &mut Gathering, name: Name) -> Result<bool, NoMemory>
    ensures { IfOk result (λ stands. AddsAs stands (adds (gathered_of gathering.old) (Line.Label name)) (gathered_of gathering.new)) }
{
    if gathering.in_data {
        gathering.parts.statics.push(StaticLine::Label(name))?;
    } else {
        gathering.parts.code.push(CodeLine::Label(name))?;
    }
    Ok(true)
}

// Adds a directive of data, where it may stand.
fn add_datum(gathering: &mut Gathering, datum: StaticLine) -> Result<bool, NoMemory>
    ensures { IfOk result (λ stands. AddsAs stands (adds (gathered_of gathering.old) (Line.Datum datum)) (gathered_of gathering.new)) }
{
    if !gathering.in_data {
        return Ok(false);
    }
    gathering.parts.statics.push(datum)?;
    Ok(true)
}

// Adds an instruction, where it may stand.
fn add_op(gathering: &mut Gathering, op: Instr) -> Result<bool, NoMemory>
    ensures { IfOk result (λ stands. AddsAs stands (adds (gathered_of gathering.old) (Line.Op op)) (gathered_of gathering.new)) }
{
    if gathering.in_data {
        return Ok(false);
    }
    gathering.parts.code.push(CodeLine::Op(op))?;
    Ok(true)
}

/// Adds what a line says, where it may stand there.
pub fn add_line(gathering: &mut Gathering, line: Line) -> Result<bool, NoMemory>
    ensures { IfOk result (λ stands. AddsAs stands (adds (gathered_of gathering.old) line) (gathered_of gathering.new)) }
{
    match line {
        Line::Nothing => Ok(true),
        Line::Pace(pace) => Ok(add_pace(gathering, pace)),
        Line::Extern(name, words) => {
            gathering.parts.externs.push((name, words))?;
            Ok(true)
        }
        Line::Text => {
            gathering.in_data = false;
            Ok(true)
        }
        Line::Data => {
            gathering.in_data = true;
            Ok(true)
        }
        Line::Export(name) => {
            gathering.parts.exports.push(name)?;
            Ok(true)
        }
        Line::Label(name) => add_label(gathering, name),
        Line::Datum(datum) => add_datum(gathering, datum),
        Line::Op(op) => add_op(gathering, op),
    }
}
