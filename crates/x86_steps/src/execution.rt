//! What each instruction does to registers, flags, the next place and memory.
//!
//! An instruction stands at `place`, `label` is the address of the one name that it has, and
//! `loaded` is what its access found, extended by zeros.
ghost use Rattle.std.specs.Prelude.{◌≡◌, ◌+◌, ◌<◌, ◌^◌};
ghost use Rattle.x86_steps.specs.Execution.{sign_word as sign_word_in, with_division as with_division_in, with_truth as with_truth_in, registers_after as registers_in, flags_after as flags_in, place_after as place_in, branch as branch_in, written as written_in, executed as executed_in};

use crate::access::{effective, popped, pushed};
use crate::arithmetic::{Division, combined, divided, extended, flags_of_combined, shifted};
use crate::flags::Flags;
use crate::registers::Registers;
use x86_table::instruction::{Instr, Operator, Width};
use x86_table::register::{ByteRegister, Register};

/// What an instruction leaves behind.
#[derive(Clone, Copy, Debug, PartialEq, Eq)]
pub struct After {
    pub registers: Registers,
    pub flags: Flags,
    /// The address of the next instruction.
    pub place: u32,
    /// What is written at the address of its access; `None` where nothing is.
    pub written: Option<u32>,
}

/// All that an instruction does; `None` is a fault: a condition on an unknown flag, or a division
/// that has no quotient.
pub fn executed(
    instr: &Instr,
    label: u32,
    place: u32,
    registers: &Registers,
    flags: &Flags,
    loaded: u32,
) -> Option<After>
    requires { place + 1 < 2 ^ 32 }
    ensures { result ≡ executed_in instr.now label place registers.now flags.now loaded }
{
    let after = registers_after(instr, label, registers, flags, loaded);
    let next = place_after(instr, label, place, registers, flags, loaded);
    match (after, next) {
        (Some(after), Some(next)) => Some(After {
            registers: after,
            flags: flags_after(instr, registers, flags, loaded),
            place: next,
            written: written(instr, place, registers, loaded),
        }),
        _ => None,
    }
}

/// The registers after an instruction; `None` is a fault.
pub fn registers_after(
    instr: &Instr,
    label: u32,
    registers: &Registers,
    flags: &Flags,
    loaded: u32,
) -> Option<Registers>
    ensures { result ≡ registers_in instr.now label registers.now flags.now loaded }
{
    let (to, word) = match instr {
        Instr::MoveNumber { number, to } => (*to, *number),
        Instr::MoveSymbol { symbol, to } => (*to, label.wrapping_add(symbol.plus)),
        Instr::Move { from, to } => (*to, registers.word(*from)),
        Instr::Load { to, .. } => (*to, loaded),
        Instr::LoadExtended {
            width,
            sign,
            to,
            ..
        } => (*to, extended(*width, *sign, loaded)),
        Instr::ExtendByte { sign, from, to } => (
            *to,
            extended(Width::Byte, *sign, registers.byte(*from)),
        ),
        Instr::ExtendHalf { sign, from, to } => (
            *to,
            extended(Width::Half, *sign, registers.half(*from)),
        ),
        Instr::LoadAddress { address, to } => (*to, effective(address, label, registers)),
        Instr::Combine { operator, from, to } => (
            *to,
            combined(*operator, registers.word(*to), registers.word(*from)),
        ),
        Instr::CombineNumber {
            operator,
            number,
            to,
        } => (*to, combined(*operator, registers.word(*to), *number)),
        Instr::Negate { register } => (
            *register,
            combined(Operator::Subtract, 0, registers.word(*register)),
        ),
        Instr::Complement { register } => (*register, !registers.word(*register)),
        Instr::ShiftByNumber {
            shift,
            count,
            register,
        } => (
            *register,
            shifted(*shift, registers.word(*register), *count),
        ),
        Instr::ShiftByCl { shift, register } => (
            *register,
            shifted(
                *shift,
                registers.word(*register),
                registers.byte(ByteRegister::Cl),
            ),
        ),
        Instr::ExtendEax => (Register::Edx, sign_word(registers.eax)),
        Instr::Divide { sign, divisor } => {
            return with_division(
                registers,
                divided(
                    *sign,
                    registers.edx,
                    registers.eax,
                    registers.word(*divisor),
                ),
            );
        }
        Instr::Set { condition, to } => return with_truth(registers, *to, flags.holds(*condition)),
        Instr::Call { .. } | Instr::CallThrough { .. } | Instr::Push { .. } => (
            Register::Esp,
            pushed(registers.esp),
        ),
        Instr::Return => (Register::Esp, popped(registers.esp)),
        Instr::Pop { register } => {
            let above = registers.with_word(Register::Esp, popped(registers.esp));
            return Some(above.with_word(*register, loaded));
        }
        Instr::CompareExchange { .. } => (Register::Eax, loaded),
        Instr::ExchangeAdd { from, .. } | Instr::Exchange { from, .. } => (*from, loaded),
        _ => return Some(*registers),
    };
    Some(registers.with_word(to, word))
}

// The word whose bits are all the sign of another.
fn sign_word(word: u32) -> u32
    ensures { result ≡ sign_word_in word }
{
    if word >= 0x8000_0000 { 0xffff_ffff } else { 0 }
}

fn with_division(registers: &Registers, division: Option<Division>) -> Option<Registers>
    ensures { result ≡ with_division_in registers.now division }
{
    let division = division?;
    let mut after = *registers;
    after.eax = division.quotient;
    after.edx = division.remainder;
    Some(after)
}

fn with_truth(
    registers: &Registers,
    register: ByteRegister,
    holds: Option<bool>,
) -> Option<Registers>
    ensures { result ≡ with_truth_in registers.now register holds }
{
    let byte = if holds? { 1 } else { 0 };
    Some(registers.with_byte(register, byte))
}

/// The flags after an instruction.
pub fn flags_after(instr: &Instr, registers: &Registers, flags: &Flags, loaded: u32) -> Flags
    ensures { result ≡ flags_in instr.now registers.now flags.now loaded }
{
    match instr {
        Instr::Combine { operator, from, to } => flags_of_combined(
            *operator,
            registers.word(*to),
            registers.word(*from),
        ),
        Instr::CombineNumber {
            operator,
            number,
            to,
        } => flags_of_combined(*operator, registers.word(*to), *number),
        Instr::Negate { register } => Flags::of_difference(0, registers.word(*register)),
        Instr::ShiftByNumber { .. } | Instr::ShiftByCl { .. } | Instr::Divide { .. } =>
            Flags::unknown(),
        Instr::Compare { first, second } => Flags::of_difference(
            registers.word(*second),
            registers.word(*first),
        ),
        Instr::CompareNumber { number, second } => Flags::of_difference(
            registers.word(*second),
            *number,
        ),
        Instr::Test { first, second } => Flags::of_bits(
            registers.word(*second) & registers.word(*first),
        ),
        Instr::CompareExchange { .. } => Flags::of_match(registers.eax == loaded),
        Instr::ExchangeAdd { .. } => Flags::unknown(),
        _ => *flags,
    }
}

/// The place after an instruction; `None` is a fault.
pub fn place_after(
    instr: &Instr,
    label: u32,
    place: u32,
    registers: &Registers,
    flags: &Flags,
    loaded: u32,
) -> Option<u32>
    requires { place + 1 < 2 ^ 32 }
    ensures { result ≡ place_in instr.now label place registers.now flags.now loaded }
{
    match instr {
        Instr::JumpIf { condition, .. } => branch(flags.holds(*condition), label, place + 1),
        Instr::Jump { .. } | Instr::Call { .. } => Some(label),
        Instr::CallThrough { register } => Some(registers.word(*register)),
        Instr::Return => Some(loaded),
        _ => Some(place + 1),
    }
}

// Where a jump on a condition leads.
fn branch(holds: Option<bool>, taken: u32, next: u32) -> Option<u32>
    ensures { result ≡ branch_in holds taken next }
{
    match holds {
        Some(true) => Some(taken),
        Some(false) => Some(next),
        None => None,
    }
}

/// What an instruction writes at the address of its access; `None` where it writes nothing.
pub fn written(instr: &Instr, place: u32, registers: &Registers, loaded: u32) -> Option<u32>
    requires { place + 1 < 2 ^ 32 }
    ensures { result ≡ written_in instr.now place registers.now loaded }
{
    match instr {
        Instr::Store { from, .. } => Some(registers.word(*from)),
        Instr::StoreNumber { number, .. } => Some(*number),
        Instr::StoreByte { from, .. } => Some(registers.byte(*from)),
        Instr::StoreHalf { from, .. } => Some(registers.half(*from)),
        Instr::Call { .. } | Instr::CallThrough { .. } => Some(place + 1),
        Instr::Push { register } => Some(registers.word(*register)),
        Instr::CompareExchange { from, .. } if registers.eax == loaded => Some(registers.word(
            *from,
        )),
        Instr::ExchangeAdd { from, .. } => Some(loaded.wrapping_add(registers.word(*from))),
        Instr::Exchange { from, .. } => Some(registers.word(*from)),
        _ => None,
    }
}
