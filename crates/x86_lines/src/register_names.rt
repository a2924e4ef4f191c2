//! The names of registers, with their '%'.
ghost use Rattle.std.specs.Prelude.{◌≡◌, ◌≢◌, MatchOption, bytes_eq, find};
ghost use Rattle.x86_table.specs.declared.register.Register.{Register};
ghost use Rattle.x86_table.specs.declared.register.ByteRegister.{ByteRegister};
ghost use Rattle.x86_table.specs.declared.register.HalfRegister.{HalfRegister};
ghost use Rattle.x86_table.specs.declared.register.IndexRegister.{IndexRegister};
ghost use Rattle.x86_lines.specs.Registers.{byte_text, factor, half_text, index_register, register_text};
ghost use Rattle.x86_lines.specs.Finding.{byte_in, half_in, index_in, register_in};

use x86_table::operand::Scale;
use x86_table::register::{ByteRegister, HalfRegister, IndexRegister, Register};

/// The name of a register of 32 bits.
pub fn register_text(register: Register) -> &'static [u8]
    ensures { result.now ≡ register_text register }
{
    match register {
        Register::Eax => b"%eax",
        Register::Ebx => b"%ebx",
        Register::Ecx => b"%ecx",
        Register::Edx => b"%edx",
        Register::Esi => b"%esi",
        Register::Edi => b"%edi",
        Register::Ebp => b"%ebp",
        Register::Esp => b"%esp",
    }
}

/// The name of the lowest byte of a register.
pub fn byte_text(register: ByteRegister) -> &'static [u8]
    ensures { result.now ≡ byte_text register }
{
    match register {
        ByteRegister::Al => b"%al",
        ByteRegister::Bl => b"%bl",
        ByteRegister::Cl => b"%cl",
        ByteRegister::Dl => b"%dl",
    }
}

/// The name of the lower half of a register.
pub fn half_text(register: HalfRegister) -> &'static [u8]
    ensures { result.now ≡ half_text register }
{
    match register {
        HalfRegister::Ax => b"%ax",
        HalfRegister::Bx => b"%bx",
        HalfRegister::Cx => b"%cx",
        HalfRegister::Dx => b"%dx",
        HalfRegister::Si => b"%si",
        HalfRegister::Di => b"%di",
        HalfRegister::Bp => b"%bp",
    }
}

/// The register of an index.
pub fn index_register(register: IndexRegister) -> Register
    ensures { result ≡ index_register register }
{
    match register {
        IndexRegister::Eax => Register::Eax,
        IndexRegister::Ebx => Register::Ebx,
        IndexRegister::Ecx => Register::Ecx,
        IndexRegister::Edx => Register::Edx,
        IndexRegister::Esi => Register::Esi,
        IndexRegister::Edi => Register::Edi,
        IndexRegister::Ebp => Register::Ebp,
    }
}

/// What an index is multiplied by, as a number.
pub fn factor(scale: Scale) -> u32
    ensures { result ≡ factor scale }
{
    match scale {
        Scale::One => 1,
        Scale::Two => 2,
        Scale::Four => 4,
        Scale::Eight => 8,
    }
}

const REGISTERS: [Register; 8] = [
    Register::Eax,
    Register::Ebx,
    Register::Ecx,
    Register::Edx,
    Register::Esi,
    Register::Edi,
    Register::Ebp,
    Register::Esp,
];

const BYTES: [ByteRegister; 4] = [
    ByteRegister::Al,
    ByteRegister::Bl,
    ByteRegister::Cl,
    ByteRegister::Dl,
];

const HALVES: [HalfRegister; 7] = [
    HalfRegister::Ax,
    HalfRegister::Bx,
    HalfRegister::Cx,
    HalfRegister::Dx,
    HalfRegister::Si,
    HalfRegister::Di,
    HalfRegister::Bp,
];

const INDEXES: [IndexRegister; 7] = [
    IndexRegister::Eax,
    IndexRegister::Ebx,
    IndexRegister::Ecx,
    IndexRegister::Edx,
    IndexRegister::Esi,
    IndexRegister::Edi,
    IndexRegister::Ebp,
];

// The first register of the table with this name.
fn first_register(word: &[u8]) -> Option<Register>
    ensures { result ≡ find (λ r. bytes_eq (register_text r) word.now) REGISTERS }
{
    REGISTERS
        .iter()
        .copied()
        .find(|r| register_text(*r) == word)
}

/// The same as `register_of`, in the order in which it is looked for.
pub fn found_register(word: &[u8]) -> Option<Register>
    ensures { result ≡ register_in word.now }
{
    first_register(word)
}

/// The register of this name.
pub fn register_of(word: &[u8]) -> Option<Register>
    ensures { MatchOption result ((r : Register) → word.now ≢ register_text r) (λ r. word.now ≡ register_text r) }
{
    found_register(word)
}

// The first byte of the table with this name.
fn first_byte(word: &[u8]) -> Option<ByteRegister>
    ensures { result ≡ find (λ r. bytes_eq (byte_text r) word.now) BYTES }
{
    BYTES.iter().copied().find(|r| byte_text(*r) == word)
}

/// The same as `byte_of`, in the order in which it is looked for.
pub fn found_byte(word: &[u8]) -> Option<ByteRegister>
    ensures { result ≡ byte_in word.now }
{
    first_byte(word)
}

/// The lowest byte of a register, by this name.
pub fn byte_of(word: &[u8]) -> Option<ByteRegister>
    ensures { MatchOption result ((r : ByteRegister) → word.now ≢ byte_text r) (λ r. word.now ≡ byte_text r) }
{
    found_byte(word)
}

// The first half of the table with this name.
fn first_half(word: &[u8]) -> Option<HalfRegister>
    ensures { result ≡ find (λ r. bytes_eq (half_text r) word.now) HALVES }
{
    HALVES.iter().copied().find(|r| half_text(*r) == word)
}

/// The same as `half_of`, in the order in which it is looked for.
pub fn found_half(word: &[u8]) -> Option<HalfRegister>
    ensures { result ≡ half_in word.now }
{
    first_half(word)
}

/// The lower half of a register, by this name.
pub fn half_of(word: &[u8]) -> Option<HalfRegister>
    ensures { MatchOption result ((r : HalfRegister) → word.now ≢ half_text r) (λ r. word.now ≡ half_text r) }
{
    found_half(word)
}

// The first index register of the table with this name.
fn first_index(word: &[u8]) -> Option<IndexRegister>
    ensures { result ≡ find (λ r. bytes_eq (register_text (index_register r)) word.now) INDEXES }
{
    INDEXES
        .iter()
        .copied()
        .find(|r| register_text(index_register(*r)) == word)
}

/// The same as `index_of`, in the order in which it is looked for.
pub fn found_index(word: &[u8]) -> Option<IndexRegister>
    ensures { result ≡ index_in word.now }
{
    first_index(word)
}

/// The register of this name that may be an index.
pub fn index_of(word: &[u8]) -> Option<IndexRegister>
    ensures { MatchOption result ((r : IndexRegister) → word.now ≢ register_text (index_register r)) (λ r. word.now ≡ register_text (index_register r)) }
{
    found_index(word)
}
