//! Instructions: one variant for each kind of form of the instruction table. An operator, a
//! condition or a width tells rows apart that differ in that alone.
ghost use Rattle.std.specs.Prelude.{◌≡◌, Some, position};
ghost use Rattle.x86_table.specs.Instruction.{mnemonic_of, operands_of as operands_in, form_of as form_index, sign_place, width_place, operator_place, shift_place, condition_place};
ghost use Rattle.x86_table.specs.Mnemonic.{text_of};
ghost use Rattle.x86_table.specs.Operand.{pattern_of};
ghost use Rattle.x86_table.specs.Table.{is_form_of};

use crate::operand::{Address, Operand, Operands, Symbol};
use crate::register::{ByteRegister, HalfRegister, Register};
use crate::table::FORMS;
use tso_words::Name;

/// How a byte or a half is extended to a word: by its sign or by zeros.
#[derive(Clone, Copy, Debug, PartialEq, Eq)]
pub enum Sign {
    Signed,
    Unsigned,
}

/// A width below a word.
#[derive(Clone, Copy, Debug, PartialEq, Eq)]
pub enum Width {
    Byte,
    Half,
}

/// An operator that puts `second op first` into its second operand.
#[derive(Clone, Copy, Debug, PartialEq, Eq)]
pub enum Operator {
    Add,
    Subtract,
    Multiply,
    And,
    Or,
    Xor,
}

/// A shift; `Arithmetic` goes to the right and copies the sign bit.
#[derive(Clone, Copy, Debug, PartialEq, Eq)]
pub enum Shift {
    Left,
    Right,
    Arithmetic,
}

/// A condition on the flags, named for what a comparison of the second operand with the first
/// says; `Below` and `Above` are unsigned.
#[derive(Clone, Copy, Debug, PartialEq, Eq)]
pub enum Condition {
    Equal,
    NotEqual,
    Less,
    GreaterOrEqual,
    LessOrEqual,
    Greater,
    Below,
    AboveOrEqual,
    BelowOrEqual,
    Above,
}

/// An instruction. Numbers are words of 32 bits.
#[derive(Debug, Drop)]
pub enum Instr {
    /// `movl $5, %eax`
    MoveNumber {
        number: u32,
        to: Register,
    },
    /// `movl $NAME, %eax`
    MoveSymbol {
        symbol: Symbol,
        to: Register,
    },
    /// `movl %eax, %ebx`
    Move {
        from: Register,
        to: Register,
    },
    /// `movl NAME, %eax`
    Load {
        from: Address,
        to: Register,
    },
    /// `movl %eax, NAME`
    Store {
        from: Register,
        to: Address,
    },
    /// `movl $5, NAME`
    StoreNumber {
        number: u32,
        to: Address,
    },
    /// `movb %al, NAME`
    StoreByte {
        from: ByteRegister,
        to: Address,
    },
    /// `movw %ax, NAME`
    StoreHalf {
        from: HalfRegister,
        to: Address,
    },
    /// `movsbl NAME, %eax`
    LoadExtended {
        width: Width,
        sign: Sign,
        from: Address,
        to: Register,
    },
    /// `movsbl %al, %ebx`
    ExtendByte {
        sign: Sign,
        from: ByteRegister,
        to: Register,
    },
    /// `movswl %ax, %ebx`
    ExtendHalf {
        sign: Sign,
        from: HalfRegister,
        to: Register,
    },
    /// `leal NAME, %eax`
    LoadAddress {
        address: Address,
        to: Register,
    },
    /// `addl %eax, %ebx`
    Combine {
        operator: Operator,
        from: Register,
        to: Register,
    },
    /// `addl $5, %ebx`
    CombineNumber {
        operator: Operator,
        number: u32,
        to: Register,
    },
    /// `negl %eax`
    Negate {
        register: Register,
    },
    /// `notl %eax`
    Complement {
        register: Register,
    },
    /// `shll $5, %eax`; the count is at most 31
    ShiftByNumber {
        shift: Shift,
        count: u32,
        register: Register,
    },
    /// `shll %cl, %eax`
    ShiftByCl {
        shift: Shift,
        register: Register,
    },
    /// `cltd`: the sign of EAX into EDX
    ExtendEax,
    /// `idivl %ebx` or `divl %ebx`
    Divide {
        sign: Sign,
        divisor: Register,
    },
    /// `cmpl %eax, %ebx`: the flags of second - first
    Compare {
        first: Register,
        second: Register,
    },
    /// `cmpl $5, %ebx`
    CompareNumber {
        number: u32,
        second: Register,
    },
    /// `testl %eax, %ebx`
    Test {
        first: Register,
        second: Register,
    },
    /// `sete %al`
    Set {
        condition: Condition,
        to: ByteRegister,
    },
    /// `je NAME`
    JumpIf {
        condition: Condition,
        label: Name,
    },
    /// `jmp NAME`
    Jump {
        label: Name,
    },
    /// `call NAME`
    Call {
        name: Name,
    },
    /// `call *%eax`
    CallThrough {
        register: Register,
    },
    /// `ret`
    Return,
    /// `pushl %eax`
    Push {
        register: Register,
    },
    /// `popl %eax`
    Pop {
        register: Register,
    },
    /// `mfence`
    Fence,
    /// `lock cmpxchgl %ebx, NAME`
    CompareExchange {
        from: Register,
        at: Address,
    },
    /// `lock xaddl %ebx, NAME`
    ExchangeAdd {
        from: Register,
        at: Address,
    },
    /// `xchgl %ebx, NAME`
    Exchange {
        from: Register,
        at: Address,
    },
}

impl Sign {
    // The place among the rows of one kind.
    fn place(self) -> usize
        ensures { result ≡ sign_place self }
    {
        match self {
            Sign::Signed => 0,
            Sign::Unsigned => 1,
        }
    }
}

impl Width {
    // The place among the rows of one kind.
    fn place(self) -> usize
        ensures { result ≡ width_place self }
    {
        match self {
            Width::Byte => 0,
            Width::Half => 2,
        }
    }
}

impl Operator {
    // The place among the rows of one kind.
    fn place(self) -> usize
        ensures { result ≡ operator_place self }
    {
        match self {
            Operator::Add => 0,
            Operator::Subtract => 1,
            Operator::Multiply => 2,
            Operator::And => 3,
            Operator::Or => 4,
            Operator::Xor => 5,
        }
    }
}

impl Shift {
    // The place among the rows of one kind.
    fn place(self) -> usize
        ensures { result ≡ shift_place self }
    {
        match self {
            Shift::Left => 0,
            Shift::Right => 1,
            Shift::Arithmetic => 2,
        }
    }
}

impl Condition {
    // The place among the rows of one kind.
    fn place(self) -> usize
        ensures { result ≡ condition_place self }
    {
        match self {
            Condition::Equal => 0,
            Condition::NotEqual => 1,
            Condition::Less => 2,
            Condition::GreaterOrEqual => 3,
            Condition::LessOrEqual => 4,
            Condition::Greater => 5,
            Condition::Below => 6,
            Condition::AboveOrEqual => 7,
            Condition::BelowOrEqual => 8,
            Condition::Above => 9,
        }
    }
}

/// The index in `FORMS` of the form of an instruction: the first that has its mnemonic and takes its
/// operands.
pub fn form_of(instr: &Instr) -> usize
    ensures { position (is_form_of (text_of (mnemonic_of instr.now)) (pattern_of (operands_in instr.now))) FORMS ≡ Some result }
{
    place_of(instr)
}

// The same, by cases.
fn place_of(instr: &Instr) -> usize
    ensures { result ≡ form_index instr.now }
{
    match instr {
        Instr::MoveNumber { .. } => 0,
        Instr::MoveSymbol { .. } => 1,
        Instr::Move { .. } => 2,
        Instr::Load { .. } => 3,
        Instr::Store { .. } => 4,
        Instr::StoreNumber { .. } => 5,
        Instr::StoreByte { .. } => 6,
        Instr::StoreHalf { .. } => 7,
        Instr::LoadExtended { width, sign, .. } => 8 + width.place() + sign.place(),
        Instr::ExtendByte { sign, .. } => 12 + sign.place(),
        Instr::ExtendHalf { sign, .. } => 14 + sign.place(),
        Instr::LoadAddress { .. } => 16,
        Instr::Combine { operator, .. } => 17 + operator.place(),
        Instr::CombineNumber { operator, .. } => 23 + operator.place(),
        Instr::Negate { .. } => 29,
        Instr::Complement { .. } => 30,
        Instr::ShiftByNumber { shift, .. } => 31 + shift.place(),
        Instr::ShiftByCl { shift, .. } => 34 + shift.place(),
        Instr::ExtendEax => 37,
        Instr::Divide { sign, .. } => 38 + sign.place(),
        Instr::Compare { .. } => 40,
        Instr::CompareNumber { .. } => 41,
        Instr::Test { .. } => 42,
        Instr::Set { condition, .. } => 43 + condition.place(),
        Instr::JumpIf { condition, .. } => 53 + condition.place(),
        Instr::Jump { .. } => 63,
        Instr::Call { .. } => 64,
        Instr::CallThrough { .. } => 65,
        Instr::Return => 66,
        Instr::Push { .. } => 67,
        Instr::Pop { .. } => 68,
        Instr::Fence => 69,
        Instr::CompareExchange { .. } => 70,
        Instr::ExchangeAdd { .. } => 71,
        Instr::Exchange { .. } => 72,
    }
}

/// The operands of an instruction.
pub fn operands_of(instr: Instr) -> Operands
    ensures { result ≡ operands_in instr }
{
    let (first, second) = match instr {
        Instr::MoveNumber { number, to } => (Operand::Number(number), Operand::Word(to)),
        Instr::MoveSymbol { symbol, to } => (Operand::Symbol(symbol), Operand::Word(to)),
        Instr::Move { from, to } => (Operand::Word(from), Operand::Word(to)),
        Instr::Load { from, to } => (Operand::Memory(from), Operand::Word(to)),
        Instr::Store { from, to } => (Operand::Word(from), Operand::Memory(to)),
        Instr::StoreNumber { number, to } => (Operand::Number(number), Operand::Memory(to)),
        Instr::StoreByte { from, to } => (Operand::Byte(from), Operand::Memory(to)),
        Instr::StoreHalf { from, to } => (Operand::Half(from), Operand::Memory(to)),
        Instr::LoadExtended { from, to, .. } => (Operand::Memory(from), Operand::Word(to)),
        Instr::ExtendByte { from, to, .. } => (Operand::Byte(from), Operand::Word(to)),
        Instr::ExtendHalf { from, to, .. } => (Operand::Half(from), Operand::Word(to)),
        Instr::LoadAddress { address, to } => (Operand::Memory(address), Operand::Word(to)),
        Instr::Combine { from, to, .. } => (Operand::Word(from), Operand::Word(to)),
        Instr::CombineNumber { number, to, .. } => (Operand::Number(number), Operand::Word(to)),
        Instr::Negate { register } => (Operand::Word(register), Operand::Absent),
        Instr::Complement { register } => (Operand::Word(register), Operand::Absent),
        Instr::ShiftByNumber {
            count,
            register,
            ..
        } => (Operand::Number(count), Operand::Word(register)),
        Instr::ShiftByCl { register, .. } => (
            Operand::Byte(ByteRegister::Cl),
            Operand::Word(register),
        ),
        Instr::ExtendEax => (Operand::Absent, Operand::Absent),
        Instr::Divide { divisor, .. } => (Operand::Word(divisor), Operand::Absent),
        Instr::Compare { first, second } => (Operand::Word(first), Operand::Word(second)),
        Instr::CompareNumber { number, second } => (Operand::Number(number), Operand::Word(second)),
        Instr::Test { first, second } => (Operand::Word(first), Operand::Word(second)),
        Instr::Set { to, .. } => (Operand::Byte(to), Operand::Absent),
        Instr::JumpIf { label, .. } => (Operand::name_alone(label), Operand::Absent),
        Instr::Jump { label } => (Operand::name_alone(label), Operand::Absent),
        Instr::Call { name } => (Operand::name_alone(name), Operand::Absent),
        Instr::CallThrough { register } => (Operand::Through(register), Operand::Absent),
        Instr::Return => (Operand::Absent, Operand::Absent),
        Instr::Push { register } => (Operand::Word(register), Operand::Absent),
        Instr::Pop { register } => (Operand::Word(register), Operand::Absent),
        Instr::Fence => (Operand::Absent, Operand::Absent),
        Instr::CompareExchange { from, at } => (Operand::Word(from), Operand::Memory(at)),
        Instr::ExchangeAdd { from, at } => (Operand::Word(from), Operand::Memory(at)),
        Instr::Exchange { from, at } => (Operand::Word(from), Operand::Memory(at)),
    };
    Operands { first, second }
}
