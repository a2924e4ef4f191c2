//! The access to memory that an instruction makes. None makes more than one.
ghost use Rattle.std.specs.Prelude.{◌≡◌, Some, ◌+◌, ◌%◌, ◌^◌, ◌<◌};
ghost use Rattle.x86_steps.specs.Accesses.{label_part as label_part_in, base_part as base_part_in, index_part as index_part_in, factor as factor_in, effective as effective_in, pushed as pushed_in, popped as popped_in, size_of as size_in, access_of as access_in, needs_empty_buffer as needs_empty_buffer_in, loads_stack_pointer as loads_stack_pointer_in, bytes_of as bytes_in};

use crate::registers::{Registers, register_of_index};
use tso_words::Name;
use x86_table::instruction::{Instr, Width};
use x86_table::operand::{Address, Index, Scale};
use x86_table::register::Register;

/// The size of an access: 1, 2 or 4 bytes.
#[derive(Clone, Copy, Debug, PartialEq, Eq)]
pub enum Size {
    Byte,
    Half,
    Word,
}

/// What an access does. A locked one loads and stores memory at once.
#[derive(Clone, Copy, Debug, PartialEq, Eq)]
pub enum Kind {
    Load,
    Store,
    Locked,
}

/// An access to memory.
#[derive(Clone, Copy, Debug, PartialEq, Eq)]
pub struct Access {
    pub kind: Kind,
    pub size: Size,
    pub address: u32,
}

impl Size {
    /// How many bytes it has.
    pub fn bytes(self) -> u32
        ensures { result ≡ bytes_in self }
    {
        match self {
            Size::Byte => 1,
            Size::Half => 2,
            Size::Word => 4,
        }
    }
}

// What an index is multiplied by.
fn factor(scale: Scale) -> u32
    ensures { result ≡ factor_in scale }
{
    match scale {
        Scale::One => 1,
        Scale::Two => 2,
        Scale::Four => 4,
        Scale::Eight => 8,
    }
}

fn label_part(name: &Option<Name>, label: u32) -> u32
    ensures { result ≡ label_part_in name.now label }
{
    match name {
        None => 0,
        Some(_) => label,
    }
}

fn base_part(base: Option<Register>, registers: &Registers) -> u32
    ensures { result ≡ base_part_in base registers.now }
{
    match base {
        None => 0,
        Some(base) => registers.word(base),
    }
}

fn index_part(index: Option<Index>, registers: &Registers) -> u64
    ensures value { result ≡ index_part_in index registers.now }
    ensures bound { result < 2 ^ 36 }
{
    match index {
        None => 0,
        Some(index) => {
            let word = registers.word(register_of_index(index.register));
            u64::from(word) * u64::from(factor(index.scale))
        }
    }
}

/// The effective address of a memory operand, whose name, if it has one, has the address `label`.
pub fn effective(address: &Address, label: u32, registers: &Registers) -> u32
    ensures { result ≡ effective_in address.now label registers.now }
{
    let sum = u64::from(label_part(&address.label, label))
        + u64::from(address.displacement)
        + u64::from(base_part(address.base, registers))
        + index_part(address.index, registers);
    (sum % 0x1_0000_0000) as u32
}

/// The stack pointer after a word is pushed.
pub fn pushed(esp: u32) -> u32
    ensures { result ≡ pushed_in esp }
{
    esp.wrapping_sub(4)
}

/// The stack pointer after a word is popped.
pub fn popped(esp: u32) -> u32
    ensures { result ≡ popped_in esp }
{
    esp.wrapping_add(4)
}

fn size_of(width: Width) -> Size
    ensures { result ≡ size_in width }
{
    match width {
        Width::Byte => Size::Byte,
        Width::Half => Size::Half,
    }
}

/// The access of an instruction, at the registers before it; `label` is the address of the name
/// that the instruction has.
pub fn access_of(instr: &Instr, label: u32, registers: &Registers) -> Option<Access>
    ensures { result ≡ access_in instr.now label registers.now }
{
    let (kind, size, address) = match instr {
        Instr::Load { from, .. } => (Kind::Load, Size::Word, effective(from, label, registers)),
        Instr::LoadExtended { width, from, .. } => {
            (
                Kind::Load,
                size_of(*width),
                effective(from, label, registers),
            )
        }
        Instr::Store { to, .. } | Instr::StoreNumber { to, .. } => {
            (Kind::Store, Size::Word, effective(to, label, registers))
        }
        Instr::StoreByte { to, .. } => (Kind::Store, Size::Byte, effective(to, label, registers)),
        Instr::StoreHalf { to, .. } => (Kind::Store, Size::Half, effective(to, label, registers)),
        Instr::Call { .. } | Instr::CallThrough { .. } | Instr::Push { .. } => {
            (Kind::Store, Size::Word, pushed(registers.esp))
        }
        Instr::Return | Instr::Pop { .. } => (Kind::Load, Size::Word, registers.esp),
        Instr::CompareExchange { at, .. }
        | Instr::ExchangeAdd { at, .. }
        | Instr::Exchange { at, .. } => {
            (Kind::Locked, Size::Word, effective(at, label, registers))
        }
        _ => return None,
    };
    Some(Access {
        kind,
        size,
        address,
    })
}

/// Whether the instruction waits until the thread's buffer is empty.
pub fn needs_empty_buffer(instr: &Instr) -> bool
    ensures { result ≡ needs_empty_buffer_in instr.now }
{
    matches!(
        instr,
        Instr::Fence
            | Instr::CompareExchange { .. }
            | Instr::ExchangeAdd { .. }
            | Instr::Exchange { .. }
    )
}

/// Whether the word that the instruction loads becomes the stack pointer.
pub fn loads_stack_pointer(instr: &Instr) -> bool
    ensures { result ≡ loads_stack_pointer_in instr.now }
{
    match instr {
        Instr::Load { to, .. } | Instr::LoadExtended { to, .. } => *to == Register::Esp,
        Instr::Pop { register } => *register == Register::Esp,
        Instr::ExchangeAdd { from, .. } | Instr::Exchange { from, .. } => *from == Register::Esp,
        _ => false,
    }
}
