//! What an instruction works on, as the assembly text spells it, and the shapes that the
//! instruction table tells apart.
ghost use Rattle.std.specs.Prelude.{◌≡◌};

use crate::register::{ByteRegister, HalfRegister, IndexRegister, Register};
use tso_words::Name;

/// What an index is multiplied by.
#[derive(Clone, Copy, Debug, PartialEq, Eq)]
pub enum Scale {
    One,
    Two,
    Four,
    Eight,
}

/// An index of an address, as `%ecx,4` behind the base.
#[derive(Clone, Copy, Debug, PartialEq, Eq)]
pub struct Index {
    pub register: IndexRegister,
    pub scale: Scale,
}

/// A label with what is added to its address modulo 2 ^ 32, as `NAME+4`.
#[derive(Debug, Drop)]
pub struct Symbol {
    pub name: Name,
    pub plus: u32,
}

/// A memory operand: the sum of its parts modulo 2 ^ 32. A part that is absent counts as 0.
#[derive(Debug, Drop)]
pub struct Address {
    pub label: Option<Name>,
    pub displacement: u32,
    pub base: Option<Register>,
    pub index: Option<Index>,
}

/// An operand. The destination of a jump and of a call by name is a memory operand that is a name
/// alone.
#[derive(Debug, Drop)]
pub enum Operand {
    Absent,
    /// `%eax`
    Word(Register),
    /// `%al`
    Byte(ByteRegister),
    /// `%ax`
    Half(HalfRegister),
    /// `$5`
    Number(u32),
    /// `$NAME+4`
    Symbol(Symbol),
    /// `NAME+4(%eax,%ecx,2)`
    Memory(Address),
    /// `*%eax`
    Through(Register),
}

impl Operand {
    ghost use Rattle.x86_table.specs.Instruction.{name_alone};

    /// The memory operand that is a name alone.
    pub fn name_alone(name: Name) -> Operand
        ensures { result ≡ name_alone name }
    {
        Operand::Memory(Address {
            label: Some(name),
            displacement: 0,
            base: None,
            index: None,
        })
    }
}

/// The operands of an instruction; the source stands first.
#[derive(Debug, Drop)]
pub struct Operands {
    pub first: Operand,
    pub second: Operand,
}
