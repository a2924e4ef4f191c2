//! The registers of 32-bit x86, by the width that an operand names them with.

/// A register of 32 bits, as `%eax` names it.
#[derive(Clone, Copy, Debug, PartialEq, Eq)]
pub enum Register {
    Eax,
    Ebx,
    Ecx,
    Edx,
    Esi,
    Edi,
    Ebp,
    Esp,
}

/// The lowest byte of a register, as `%al` names it.
#[derive(Clone, Copy, Debug, PartialEq, Eq)]
pub enum ByteRegister {
    Al,
    Bl,
    Cl,
    Dl,
}

/// The lower half of a register, as `%ax` names it. That of ESP is no operand.
#[derive(Clone, Copy, Debug, PartialEq, Eq)]
pub enum HalfRegister {
    Ax,
    Bx,
    Cx,
    Dx,
    Si,
    Di,
    Bp,
}

/// A register that may be the index of an address: each one but ESP.
#[derive(Clone, Copy, Debug, PartialEq, Eq)]
pub enum IndexRegister {
    Eax,
    Ebx,
    Ecx,
    Edx,
    Esi,
    Edi,
    Ebp,
}
