//! The instruction of a mnemonic and its operands, as reading needs it: the other way round of
//! `operands_of` and of `form_of`, whose row has the mnemonic.
ghost use Rattle.std.specs.Prelude.{◌≡◌, IfSome, IfNone};
ghost use Rattle.x86_table.specs.Instruction.{mnemonic_of, operands_of as operands_in};
ghost use Rattle.x86_table.specs.OfOperands.{instr_of as instr_in, number_to_register as number_to_register_in, symbol_to_register as symbol_to_register_in, register_to_register as register_to_register_in, memory_to_register as memory_to_register_in, register_to_memory as register_to_memory_in, number_to_memory as number_to_memory_in, byte_to_memory as byte_to_memory_in, half_to_memory as half_to_memory_in, half_to_register as half_to_register_in, on_register as on_register_in, on_nothing as on_nothing_in, on_byte as on_byte_in, through_register as through_register_in, cl_to_register as cl_to_register_in, byte_to_register as byte_to_register_in, on_name as on_name_in, on_memory as on_memory_in};

use crate::instruction::{Condition, Instr, Operator, Shift, Sign, Width};
use crate::mnemonic::Mnemonic;
use crate::operand::{Address, Operand, Operands, Symbol};
use crate::register::{ByteRegister, HalfRegister, Register};
use tso_words::Name;

/// The instruction that has this mnemonic and these operands; None where there is none.
pub fn instr_of(mnemonic: Mnemonic, operands: Operands) -> Option<Instr>
    ensures has { IfSome result (λ i. (mnemonic_of i ≡ mnemonic) × (operands_in i ≡ operands)) }
    ensures none { IfNone result ((i : Instr) → mnemonic_of i ≡ mnemonic → operands_in i ≡ operands → ⊥) }
{
    chosen(mnemonic, operands)
}

// The same, by the kinds of the two operands.
fn chosen(mnemonic: Mnemonic, operands: Operands) -> Option<Instr>
    ensures { result ≡ instr_in mnemonic operands }
{
    let Operands { first, second } = operands;
    match (first, second) {
        (Operand::Number(number), Operand::Word(to)) => number_to_register(mnemonic, number, to),
        (Operand::Symbol(symbol), Operand::Word(to)) => symbol_to_register(mnemonic, symbol, to),
        (Operand::Word(from), Operand::Word(to)) => register_to_register(mnemonic, from, to),
        (Operand::Memory(from), Operand::Word(to)) => memory_to_register(mnemonic, from, to),
        (Operand::Word(from), Operand::Memory(to)) => register_to_memory(mnemonic, from, to),
        (Operand::Number(number), Operand::Memory(to)) => number_to_memory(mnemonic, number, to),
        (Operand::Byte(from), Operand::Memory(to)) => byte_to_memory(mnemonic, from, to),
        (Operand::Half(from), Operand::Memory(to)) => half_to_memory(mnemonic, from, to),
        (Operand::Half(from), Operand::Word(to)) => half_to_register(mnemonic, from, to),
        (Operand::Word(register), Operand::Absent) => on_register(mnemonic, register),
        (Operand::Absent, Operand::Absent) => on_nothing(mnemonic),
        (Operand::Byte(to), Operand::Absent) => on_byte(mnemonic, to),
        (Operand::Through(register), Operand::Absent) => through_register(mnemonic, register),
        (Operand::Byte(from), Operand::Word(to)) => byte_to_register(mnemonic, from, to),
        (Operand::Memory(address), Operand::Absent) => on_memory(mnemonic, address),
        _ => None,
    }
}

// With a number and a register.
fn number_to_register(mnemonic: Mnemonic, number: u32, to: Register) -> Option<Instr>
    ensures { result ≡ number_to_register_in mnemonic number to }
{
    match mnemonic {
        Mnemonic::Movl => Some(Instr::MoveNumber { number, to }),
        Mnemonic::Addl => Some(Instr::CombineNumber {
            operator: Operator::Add,
            number,
            to,
        }),
        Mnemonic::Subl => Some(Instr::CombineNumber {
            operator: Operator::Subtract,
            number,
            to,
        }),
        Mnemonic::Imull => Some(Instr::CombineNumber {
            operator: Operator::Multiply,
            number,
            to,
        }),
        Mnemonic::Andl => Some(Instr::CombineNumber {
            operator: Operator::And,
            number,
            to,
        }),
        Mnemonic::Orl => Some(Instr::CombineNumber {
            operator: Operator::Or,
            number,
            to,
        }),
        Mnemonic::Xorl => Some(Instr::CombineNumber {
            operator: Operator::Xor,
            number,
            to,
        }),
        Mnemonic::Shll => Some(Instr::ShiftByNumber {
            shift: Shift::Left,
            count: number,
            register: to,
        }),
        Mnemonic::Shrl => Some(Instr::ShiftByNumber {
            shift: Shift::Right,
            count: number,
            register: to,
        }),
        Mnemonic::Sarl => Some(Instr::ShiftByNumber {
            shift: Shift::Arithmetic,
            count: number,
            register: to,
        }),
        Mnemonic::Cmpl => Some(Instr::CompareNumber { number, second: to }),
        _ => None,
    }
}

// With a label as a number, and a register.
fn symbol_to_register(mnemonic: Mnemonic, symbol: Symbol, to: Register) -> Option<Instr>
    ensures { result ≡ symbol_to_register_in mnemonic symbol to }
{
    match mnemonic {
        Mnemonic::Movl => Some(Instr::MoveSymbol { symbol, to }),
        _ => None,
    }
}

// With two registers.
fn register_to_register(mnemonic: Mnemonic, from: Register, to: Register) -> Option<Instr>
    ensures { result ≡ register_to_register_in mnemonic from to }
{
    match mnemonic {
        Mnemonic::Movl => Some(Instr::Move { from, to }),
        Mnemonic::Addl => Some(Instr::Combine {
            operator: Operator::Add,
            from,
            to,
        }),
        Mnemonic::Subl => Some(Instr::Combine {
            operator: Operator::Subtract,
            from,
            to,
        }),
        Mnemonic::Imull => Some(Instr::Combine {
            operator: Operator::Multiply,
            from,
            to,
        }),
        Mnemonic::Andl => Some(Instr::Combine {
            operator: Operator::And,
            from,
            to,
        }),
        Mnemonic::Orl => Some(Instr::Combine {
            operator: Operator::Or,
            from,
            to,
        }),
        Mnemonic::Xorl => Some(Instr::Combine {
            operator: Operator::Xor,
            from,
            to,
        }),
        Mnemonic::Cmpl => Some(Instr::Compare {
            first: from,
            second: to,
        }),
        Mnemonic::Testl => Some(Instr::Test {
            first: from,
            second: to,
        }),
        _ => None,
    }
}

// With memory and a register.
fn memory_to_register(mnemonic: Mnemonic, from: Address, to: Register) -> Option<Instr>
    ensures { result ≡ memory_to_register_in mnemonic from to }
{
    match mnemonic {
        Mnemonic::Movl => Some(Instr::Load { from, to }),
        Mnemonic::Movsbl => Some(Instr::LoadExtended {
            width: Width::Byte,
            sign: Sign::Signed,
            from,
            to,
        }),
        Mnemonic::Movzbl => Some(Instr::LoadExtended {
            width: Width::Byte,
            sign: Sign::Unsigned,
            from,
            to,
        }),
        Mnemonic::Movswl => Some(Instr::LoadExtended {
            width: Width::Half,
            sign: Sign::Signed,
            from,
            to,
        }),
        Mnemonic::Movzwl => Some(Instr::LoadExtended {
            width: Width::Half,
            sign: Sign::Unsigned,
            from,
            to,
        }),
        Mnemonic::Leal => Some(Instr::LoadAddress { address: from, to }),
        _ => None,
    }
}

// With a register and memory.
fn register_to_memory(mnemonic: Mnemonic, from: Register, to: Address) -> Option<Instr>
    ensures { result ≡ register_to_memory_in mnemonic from to }
{
    match mnemonic {
        Mnemonic::Movl => Some(Instr::Store { from, to }),
        Mnemonic::LockCmpxchgl => Some(Instr::CompareExchange { from, at: to }),
        Mnemonic::LockXaddl => Some(Instr::ExchangeAdd { from, at: to }),
        Mnemonic::Xchgl => Some(Instr::Exchange { from, at: to }),
        _ => None,
    }
}

// With a number and memory.
fn number_to_memory(mnemonic: Mnemonic, number: u32, to: Address) -> Option<Instr>
    ensures { result ≡ number_to_memory_in mnemonic number to }
{
    match mnemonic {
        Mnemonic::Movl => Some(Instr::StoreNumber { number, to }),
        _ => None,
    }
}

// With a byte and memory.
fn byte_to_memory(mnemonic: Mnemonic, from: ByteRegister, to: Address) -> Option<Instr>
    ensures { result ≡ byte_to_memory_in mnemonic from to }
{
    match mnemonic {
        Mnemonic::Movb => Some(Instr::StoreByte { from, to }),
        _ => None,
    }
}

// With a half and memory.
fn half_to_memory(mnemonic: Mnemonic, from: HalfRegister, to: Address) -> Option<Instr>
    ensures { result ≡ half_to_memory_in mnemonic from to }
{
    match mnemonic {
        Mnemonic::Movw => Some(Instr::StoreHalf { from, to }),
        _ => None,
    }
}

// With a half and a register.
fn half_to_register(mnemonic: Mnemonic, from: HalfRegister, to: Register) -> Option<Instr>
    ensures { result ≡ half_to_register_in mnemonic from to }
{
    match mnemonic {
        Mnemonic::Movswl => Some(Instr::ExtendHalf {
            sign: Sign::Signed,
            from,
            to,
        }),
        Mnemonic::Movzwl => Some(Instr::ExtendHalf {
            sign: Sign::Unsigned,
            from,
            to,
        }),
        _ => None,
    }
}

// With a register.
fn on_register(mnemonic: Mnemonic, register: Register) -> Option<Instr>
    ensures { result ≡ on_register_in mnemonic register }
{
    match mnemonic {
        Mnemonic::Negl => Some(Instr::Negate { register }),
        Mnemonic::Notl => Some(Instr::Complement { register }),
        Mnemonic::Idivl => Some(Instr::Divide {
            sign: Sign::Signed,
            divisor: register,
        }),
        Mnemonic::Divl => Some(Instr::Divide {
            sign: Sign::Unsigned,
            divisor: register,
        }),
        Mnemonic::Pushl => Some(Instr::Push { register }),
        Mnemonic::Popl => Some(Instr::Pop { register }),
        _ => None,
    }
}

// With no operand.
fn on_nothing(mnemonic: Mnemonic) -> Option<Instr>
    ensures { result ≡ on_nothing_in mnemonic }
{
    match mnemonic {
        Mnemonic::Cltd => Some(Instr::ExtendEax),
        Mnemonic::Ret => Some(Instr::Return),
        Mnemonic::Mfence => Some(Instr::Fence),
        _ => None,
    }
}

// With a byte.
fn on_byte(mnemonic: Mnemonic, to: ByteRegister) -> Option<Instr>
    ensures { result ≡ on_byte_in mnemonic to }
{
    match mnemonic {
        Mnemonic::Sete => Some(Instr::Set {
            condition: Condition::Equal,
            to,
        }),
        Mnemonic::Setne => Some(Instr::Set {
            condition: Condition::NotEqual,
            to,
        }),
        Mnemonic::Setl => Some(Instr::Set {
            condition: Condition::Less,
            to,
        }),
        Mnemonic::Setge => Some(Instr::Set {
            condition: Condition::GreaterOrEqual,
            to,
        }),
        Mnemonic::Setle => Some(Instr::Set {
            condition: Condition::LessOrEqual,
            to,
        }),
        Mnemonic::Setg => Some(Instr::Set {
            condition: Condition::Greater,
            to,
        }),
        Mnemonic::Setb => Some(Instr::Set {
            condition: Condition::Below,
            to,
        }),
        Mnemonic::Setae => Some(Instr::Set {
            condition: Condition::AboveOrEqual,
            to,
        }),
        Mnemonic::Setbe => Some(Instr::Set {
            condition: Condition::BelowOrEqual,
            to,
        }),
        Mnemonic::Seta => Some(Instr::Set {
            condition: Condition::Above,
            to,
        }),
        _ => None,
    }
}

// With an address in a register.
fn through_register(mnemonic: Mnemonic, register: Register) -> Option<Instr>
    ensures { result ≡ through_register_in mnemonic register }
{
    match mnemonic {
        Mnemonic::Call => Some(Instr::CallThrough { register }),
        _ => None,
    }
}

// With CL, the count of a shift, and a register.
fn cl_to_register(mnemonic: Mnemonic, count: ByteRegister, register: Register) -> Option<Instr>
    ensures { result ≡ cl_to_register_in mnemonic count register }
{
    match (mnemonic, count) {
        (Mnemonic::Shll, ByteRegister::Cl) => Some(Instr::ShiftByCl {
            shift: Shift::Left,
            register,
        }),
        (Mnemonic::Shrl, ByteRegister::Cl) => Some(Instr::ShiftByCl {
            shift: Shift::Right,
            register,
        }),
        (Mnemonic::Sarl, ByteRegister::Cl) => Some(Instr::ShiftByCl {
            shift: Shift::Arithmetic,
            register,
        }),
        _ => None,
    }
}

// With a byte and a register.
fn byte_to_register(mnemonic: Mnemonic, from: ByteRegister, to: Register) -> Option<Instr>
    ensures { result ≡ byte_to_register_in mnemonic from to }
{
    match mnemonic {
        Mnemonic::Movsbl => Some(Instr::ExtendByte {
            sign: Sign::Signed,
            from,
            to,
        }),
        Mnemonic::Movzbl => Some(Instr::ExtendByte {
            sign: Sign::Unsigned,
            from,
            to,
        }),
        _ => cl_to_register(mnemonic, from, to),
    }
}

// With an address, which has to be a name alone.
fn on_memory(mnemonic: Mnemonic, address: Address) -> Option<Instr>
    ensures { result ≡ on_memory_in mnemonic address }
{
    let Address {
        label,
        displacement,
        base,
        index,
    } = address;
    match (label, displacement, base, index) {
        (Some(name), 0, None, None) => on_name(mnemonic, name),
        _ => None,
    }
}

// With a name alone.
fn on_name(mnemonic: Mnemonic, name: Name) -> Option<Instr>
    ensures { result ≡ on_name_in mnemonic name }
{
    match mnemonic {
        Mnemonic::Je => Some(Instr::JumpIf {
            condition: Condition::Equal,
            label: name,
        }),
        Mnemonic::Jne => Some(Instr::JumpIf {
            condition: Condition::NotEqual,
            label: name,
        }),
        Mnemonic::Jl => Some(Instr::JumpIf {
            condition: Condition::Less,
            label: name,
        }),
        Mnemonic::Jge => Some(Instr::JumpIf {
            condition: Condition::GreaterOrEqual,
            label: name,
        }),
        Mnemonic::Jle => Some(Instr::JumpIf {
            condition: Condition::LessOrEqual,
            label: name,
        }),
        Mnemonic::Jg => Some(Instr::JumpIf {
            condition: Condition::Greater,
            label: name,
        }),
        Mnemonic::Jb => Some(Instr::JumpIf {
            condition: Condition::Below,
            label: name,
        }),
        Mnemonic::Jae => Some(Instr::JumpIf {
            condition: Condition::AboveOrEqual,
            label: name,
        }),
        Mnemonic::Jbe => Some(Instr::JumpIf {
            condition: Condition::BelowOrEqual,
            label: name,
        }),
        Mnemonic::Ja => Some(Instr::JumpIf {
            condition: Condition::Above,
            label: name,
        }),
        Mnemonic::Jmp => Some(Instr::Jump { label: name }),
        Mnemonic::Call => Some(Instr::Call { name }),
        _ => None,
    }
}

/// An instruction is determined by its mnemonic and its operands.
pub fn mnemonic_and_operands_determine()
    ensures { (i j : Instr) → mnemonic_of i ≡ mnemonic_of j → operands_in i ≡ operands_in j → i ≡ j }
{}
