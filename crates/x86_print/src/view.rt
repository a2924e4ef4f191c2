//! The operands of an instruction, seen without taking it apart.
ghost use Rattle.std.specs.Prelude.{◌≡◌};
ghost use Rattle.x86_table.specs.Instruction.{operands_of};
ghost use Rattle.x86_print.specs.Views.{seen};

use tso_words::Name;
use x86_table::instruction::Instr;
use x86_table::operand::{Address, Symbol};
use x86_table::register::{ByteRegister, HalfRegister, Register};

/// An operand. A name alone is that of a jump or a call.
#[derive(Clone, Copy)]
pub enum View<'a> {
    Absent,
    Word(Register),
    Byte(ByteRegister),
    Half(HalfRegister),
    Number(u32),
    Symbol(&'a Symbol),
    Memory(&'a Address),
    Bare(&'a Name),
    Through(Register),
}

/// The operands of an instruction.
#[derive(Clone, Copy)]
pub struct Views<'a> {
    pub first: View<'a>,
    pub second: View<'a>,
}

/// The operands of an instruction, the source first.
pub fn views_of(instr: &Instr) -> Views<'_>
    ensures first { seen result.first ≡ (operands_of instr.now).first }
    ensures second { seen result.second ≡ (operands_of instr.now).second }
{
    let (first, second) = match instr {
        Instr::MoveNumber { number, to } => (View::Number(*number), View::Word(*to)),
        Instr::MoveSymbol { symbol, to } => (View::Symbol(symbol), View::Word(*to)),
        Instr::Move { from, to } => (View::Word(*from), View::Word(*to)),
        Instr::Load { from, to } => (View::Memory(from), View::Word(*to)),
        Instr::Store { from, to } => (View::Word(*from), View::Memory(to)),
        Instr::StoreNumber { number, to } => (View::Number(*number), View::Memory(to)),
        Instr::StoreByte { from, to } => (View::Byte(*from), View::Memory(to)),
        Instr::StoreHalf { from, to } => (View::Half(*from), View::Memory(to)),
        Instr::LoadExtended { from, to, .. } => (View::Memory(from), View::Word(*to)),
        Instr::ExtendByte { from, to, .. } => (View::Byte(*from), View::Word(*to)),
        Instr::ExtendHalf { from, to, .. } => (View::Half(*from), View::Word(*to)),
        Instr::LoadAddress { address, to } => (View::Memory(address), View::Word(*to)),
        Instr::Combine { from, to, .. } => (View::Word(*from), View::Word(*to)),
        Instr::CombineNumber { number, to, .. } => (View::Number(*number), View::Word(*to)),
        Instr::Negate { register } => (View::Word(*register), View::Absent),
        Instr::Complement { register } => (View::Word(*register), View::Absent),
        Instr::ShiftByNumber {
            count,
            register,
            ..
        } => (View::Number(*count), View::Word(*register)),
        Instr::ShiftByCl { register, .. } => (View::Byte(ByteRegister::Cl), View::Word(*register)),
        Instr::ExtendEax => (View::Absent, View::Absent),
        Instr::Divide { divisor, .. } => (View::Word(*divisor), View::Absent),
        Instr::Compare { first, second } => (View::Word(*first), View::Word(*second)),
        Instr::CompareNumber { number, second } => (View::Number(*number), View::Word(*second)),
        Instr::Test { first, second } => (View::Word(*first), View::Word(*second)),
        Instr::Set { to, .. } => (View::Byte(*to), View::Absent),
        Instr::JumpIf { label, .. } => (View::Bare(label), View::Absent),
        Instr::Jump { label } => (View::Bare(label), View::Absent),
        Instr::Call { name } => (View::Bare(name), View::Absent),
        Instr::CallThrough { register } => (View::Through(*register), View::Absent),
        Instr::Return => (View::Absent, View::Absent),
        Instr::Push { register } => (View::Word(*register), View::Absent),
        Instr::Pop { register } => (View::Word(*register), View::Absent),
        Instr::Fence => (View::Absent, View::Absent),
        Instr::CompareExchange { from, at } => (View::Word(*from), View::Memory(at)),
        Instr::ExchangeAdd { from, at } => (View::Word(*from), View::Memory(at)),
        Instr::Exchange { from, at } => (View::Word(*from), View::Memory(at)),
    };
    Views { first, second }
}
