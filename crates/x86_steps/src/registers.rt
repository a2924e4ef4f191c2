//! The registers of a thread.

use x86_table::register::{ByteRegister, HalfRegister, IndexRegister, Register};

/// The eight general registers. A byte or half operand is the lowest part of one.
#[derive(Clone, Copy, Debug, PartialEq, Eq)]
pub struct Registers {
    pub eax: u32,
    pub ebx: u32,
    pub ecx: u32,
    pub edx: u32,
    pub esi: u32,
    pub edi: u32,
    pub ebp: u32,
    pub esp: u32,
}

impl Registers {
    ghost use Rattle.std.specs.Prelude.{◌≡◌, ◌<◌, ◌^◌};
    ghost use Rattle.x86_steps.specs.Registers.{word_in, with_word, byte_in, half_in, with_byte};

    /// The word in a register.
    pub fn word(&self, register: Register) -> u32
        ensures { result ≡ word_in self.now register }
    {
        match register {
            Register::Eax => self.eax,
            Register::Ebx => self.ebx,
            Register::Ecx => self.ecx,
            Register::Edx => self.edx,
            Register::Esi => self.esi,
            Register::Edi => self.edi,
            Register::Ebp => self.ebp,
            Register::Esp => self.esp,
        }
    }

    /// The registers with this word in one of them.
    pub fn with_word(&self, register: Register, word: u32) -> Registers
        ensures { result ≡ with_word self.now register word }
    {
        let mut new = *self;
        match register {
            Register::Eax => new.eax = word,
            Register::Ebx => new.ebx = word,
            Register::Ecx => new.ecx = word,
            Register::Edx => new.edx = word,
            Register::Esi => new.esi = word,
            Register::Edi => new.edi = word,
            Register::Ebp => new.ebp = word,
            Register::Esp => new.esp = word,
        }
        new
    }

    /// The byte that an operand names.
    pub fn byte(&self, register: ByteRegister) -> u32
        ensures { result ≡ byte_in self.now register }
    {
        self.word(whole_of_byte(register)) % 256
    }

    /// The half that an operand names.
    pub fn half(&self, register: HalfRegister) -> u32
        ensures { result ≡ half_in self.now register }
    {
        self.word(whole_of_half(register)) % 65536
    }

    /// The registers with this byte in the lowest part of one of them.
    pub fn with_byte(&self, register: ByteRegister, byte: u32) -> Registers
        requires { byte < 2 ^ 8 }
        ensures { result ≡ with_byte self.now register byte }
    {
        let register = whole_of_byte(register);
        self.with_word(register, self.word(register) / 256 * 256 + byte)
    }
}

ghost use Rattle.std.specs.Prelude.{◌≡◌};
ghost use Rattle.x86_steps.specs.Registers.{whole_of_byte as byte_whole, whole_of_half as half_whole, register_of_index as index_register};

// The register whose lowest byte the operand names.
fn whole_of_byte(register: ByteRegister) -> Register
    ensures { result ≡ byte_whole register }
{
    match register {
        ByteRegister::Al => Register::Eax,
        ByteRegister::Bl => Register::Ebx,
        ByteRegister::Cl => Register::Ecx,
        ByteRegister::Dl => Register::Edx,
    }
}

// The register whose lower half the operand names.
fn whole_of_half(register: HalfRegister) -> Register
    ensures { result ≡ half_whole register }
{
    match register {
        HalfRegister::Ax => Register::Eax,
        HalfRegister::Bx => Register::Ebx,
        HalfRegister::Cx => Register::Ecx,
        HalfRegister::Dx => Register::Edx,
        HalfRegister::Si => Register::Esi,
        HalfRegister::Di => Register::Edi,
        HalfRegister::Bp => Register::Ebp,
    }
}

/// The register that an index names.
pub fn register_of_index(register: IndexRegister) -> Register
    ensures { result ≡ index_register register }
{
    match register {
        IndexRegister::Eax => Register::Eax,
        IndexRegister::Ebx => Register::Ebx,
        IndexRegister::Ecx => Register::Ecx,
        IndexRegister::Edx => Register::Edx,
        IndexRegister::Esi => Register::Esi,
        IndexRegister::Edi => Register::Edi,
        IndexRegister::Ebp => Register::Ebp,
    }
}
