//! The instruction table: each form of an instruction with its mnemonic and the shapes of its
//! operands, after GNU as for the System V i386 ABI. Printing, reading and stepping go by it.
ghost use Rattle.std.specs.Prelude.{◌≡◌, ◌+◌, ℕ, Some, position, slice_get};
ghost use Rattle.x86_table.specs.declared.table.Form.{Form};
ghost use Rattle.x86_table.specs.Table.{takes, takes_pattern, is_form_of, FitsAtMostOnce};

use crate::mnemonic::Mnemonic;

/// The shape of an operand.
#[derive(Clone, Copy, Debug, PartialEq, Eq)]
pub enum Shape {
    /// no operand
    Absent,
    /// `%eax`
    Word,
    /// `%al`, but not `%cl`
    Byte,
    /// `%cl`
    Cl,
    /// `%ax`
    Half,
    /// `$5`
    Number,
    /// `$NAME` or `$NAME+4`
    Symbol,
    /// a name alone
    Bare,
    /// any other memory operand
    Memory,
    /// `*%eax`
    Through,
}

impl Shape {
    /// Whether an operand of this shape may stand where a form has the shape `self`: the same one,
    /// `%cl` among the bytes, and a name alone among the memory operands.
    pub fn takes(self, shape: Shape) -> bool
        ensures { result ≡ takes self shape }
    {
        match (self, shape) {
            (Shape::Byte, Shape::Cl) | (Shape::Memory, Shape::Bare) => true,
            _ => self == shape,
        }
    }
}

/// The shapes of two operands; the source stands first.
#[derive(Clone, Copy, Debug, PartialEq, Eq)]
pub struct Pattern {
    pub first: Shape,
    pub second: Shape,
}

impl Pattern {
    /// Whether operands of these shapes may stand where a form has the pattern `self`.
    pub fn takes(&self, pattern: &Pattern) -> bool
        ensures { result ≡ takes_pattern self.now pattern.now }
    {
        self.first.takes(pattern.first) && self.second.takes(pattern.second)
    }
}

/// A row of the instruction table.
#[derive(Clone, Copy, Debug, PartialEq, Eq)]
pub struct Form {
    pub mnemonic: Mnemonic,
    pub pattern: Pattern,
    /// The row's number, counted from 1.
    pub row: u8,
}

/// The index of the first row that has this mnemonic and takes operands of these shapes; None
/// where no row does.
pub fn find<const N: usize>(table: &[Form; N], mnemonic: &[u8], pattern: &Pattern) -> Option<usize>
    ensures { result ≡ position (is_form_of mnemonic.now pattern.now) table.now }
{
    table.iter().position(|form| form.mnemonic.text() == mnemonic && form.pattern.takes(pattern))
}

macro_rules! form {
    ($row:literal, $mnemonic:ident, $first:ident, $second:ident) => {
        Form {
            mnemonic: Mnemonic::$mnemonic,
            pattern: Pattern {
                first: Shape::$first,
                second: Shape::$second,
            },
            row: $row,
        }
    };
}

/// Each form of an instruction.
pub const FORMS: [Form; 73] = [
    form!(1, Movl, Number, Word),
    form!(2, Movl, Symbol, Word),
    form!(3, Movl, Word, Word),
    form!(4, Movl, Memory, Word),
    form!(5, Movl, Word, Memory),
    form!(6, Movl, Number, Memory),
    form!(7, Movb, Byte, Memory),
    form!(8, Movw, Half, Memory),
    form!(9, Movsbl, Memory, Word),
    form!(10, Movzbl, Memory, Word),
    form!(11, Movswl, Memory, Word),
    form!(12, Movzwl, Memory, Word),
    form!(13, Movsbl, Byte, Word),
    form!(14, Movzbl, Byte, Word),
    form!(15, Movswl, Half, Word),
    form!(16, Movzwl, Half, Word),
    form!(17, Leal, Memory, Word),
    form!(18, Addl, Word, Word),
    form!(19, Subl, Word, Word),
    form!(20, Imull, Word, Word),
    form!(21, Andl, Word, Word),
    form!(22, Orl, Word, Word),
    form!(23, Xorl, Word, Word),
    form!(24, Addl, Number, Word),
    form!(25, Subl, Number, Word),
    form!(26, Imull, Number, Word),
    form!(27, Andl, Number, Word),
    form!(28, Orl, Number, Word),
    form!(29, Xorl, Number, Word),
    form!(30, Negl, Word, Absent),
    form!(31, Notl, Word, Absent),
    form!(32, Shll, Number, Word),
    form!(33, Shrl, Number, Word),
    form!(34, Sarl, Number, Word),
    form!(35, Shll, Cl, Word),
    form!(36, Shrl, Cl, Word),
    form!(37, Sarl, Cl, Word),
    form!(38, Cltd, Absent, Absent),
    form!(39, Idivl, Word, Absent),
    form!(40, Divl, Word, Absent),
    form!(41, Cmpl, Word, Word),
    form!(42, Cmpl, Number, Word),
    form!(43, Testl, Word, Word),
    form!(44, Sete, Byte, Absent),
    form!(45, Setne, Byte, Absent),
    form!(46, Setl, Byte, Absent),
    form!(47, Setge, Byte, Absent),
    form!(48, Setle, Byte, Absent),
    form!(49, Setg, Byte, Absent),
    form!(50, Setb, Byte, Absent),
    form!(51, Setae, Byte, Absent),
    form!(52, Setbe, Byte, Absent),
    form!(53, Seta, Byte, Absent),
    form!(54, Je, Bare, Absent),
    form!(55, Jne, Bare, Absent),
    form!(56, Jl, Bare, Absent),
    form!(57, Jge, Bare, Absent),
    form!(58, Jle, Bare, Absent),
    form!(59, Jg, Bare, Absent),
    form!(60, Jb, Bare, Absent),
    form!(61, Jae, Bare, Absent),
    form!(62, Jbe, Bare, Absent),
    form!(63, Ja, Bare, Absent),
    form!(64, Jmp, Bare, Absent),
    form!(65, Call, Bare, Absent),
    form!(66, Call, Through, Absent),
    form!(67, Ret, Absent, Absent),
    form!(68, Pushl, Word, Absent),
    form!(69, Popl, Word, Absent),
    form!(70, Mfence, Absent, Absent),
    form!(71, LockCmpxchgl, Word, Memory),
    form!(72, LockXaddl, Word, Memory),
    form!(73, Xchgl, Word, Memory),
];

/// Of one mnemonic and the same operands there is at most one row.
pub fn no_two_rows_fit()
    ensures { FitsAtMostOnce FORMS }
{}

/// The rows are numbered in their order, from 1.
pub fn rows_are_numbered()
    ensures { (i : ℕ) (form : Form) → slice_get FORMS i ≡ Some form → form.row ≡ i + 1 }
{}
