//! Each kind of form against what a processor gave on the same registers, and the flags that the
//! table leaves unknown.

use crate::access::{Access, Kind, Size, access_of};
use crate::arithmetic::{combined, divided, extended, flags_of_combined, shifted};
use crate::execution::{After, executed, flags_after, registers_after, written};
use crate::flags::Flags;
use crate::registers::Registers;
use std::test::Fail;
use tso_words::Name;
use x86_table::instruction::{Condition, Instr, Operator, Shift, Sign, Width};
use x86_table::operand::{Address, Index, Scale, Symbol};
use x86_table::register::{ByteRegister, IndexRegister, Register};

const CONDITIONS: [Condition; 10] = [
    Condition::Equal,
    Condition::NotEqual,
    Condition::Less,
    Condition::GreaterOrEqual,
    Condition::LessOrEqual,
    Condition::Greater,
    Condition::Below,
    Condition::AboveOrEqual,
    Condition::BelowOrEqual,
    Condition::Above,
];

fn flags(zero: bool, sign: bool, carry: bool, overflow: bool) -> Flags {
    Flags {
        zero: Some(zero),
        sign: Some(sign),
        carry: Some(carry),
        overflow: Some(overflow),
    }
}

fn registers() -> Registers {
    Registers {
        eax: 0x1122_3344,
        ebx: 0x1234_ff80,
        ecx: 0x8000_0021,
        edx: 5,
        esi: 0x2000_0000,
        edi: 3,
        ebp: 0xffff_fff0,
        esp: 0x900f_fff8,
    }
}

#[test]
fn operators(rt: HostRuntime) {
    let rows = [
        (
            Operator::Add,
            0x7fff_ffff,
            1,
            0x8000_0000,
            flags(false, true, false, true),
        ),
        (
            Operator::Add,
            0xffff_ffff,
            1,
            0,
            flags(true, false, true, false),
        ),
        (
            Operator::Add,
            0x8000_0000,
            0x8000_0000,
            0,
            flags(true, false, true, true),
        ),
        (
            Operator::Subtract,
            5,
            7,
            0xffff_fffe,
            flags(false, true, true, false),
        ),
        (
            Operator::Subtract,
            0x8000_0000,
            1,
            0x7fff_ffff,
            flags(false, false, false, true),
        ),
        (
            Operator::Subtract,
            0,
            0x8000_0000,
            0x8000_0000,
            flags(false, true, true, true),
        ),
        (Operator::Multiply, 5, 7, 35, Flags::unknown()),
        (
            Operator::Multiply,
            0x8000_0000,
            0x8000_0000,
            0,
            Flags::unknown(),
        ),
        (
            Operator::And,
            0x7fff_ffff,
            0x8000_0001,
            1,
            flags(false, false, false, false),
        ),
        (
            Operator::Or,
            0x8000_0000,
            1,
            0x8000_0001,
            flags(false, true, false, false),
        ),
        (
            Operator::Xor,
            0x8000_0000,
            0x8000_0000,
            0,
            flags(true, false, false, false),
        ),
    ];
    for (operator, a, b, word, after) in rows {
        assert!(rt; combined(operator, a, b) == word);
        assert!(rt; flags_of_combined(operator, a, b) == after);
    }
}

#[test]
fn conditions(rt: HostRuntime) {
    let rows = [
        (1, 1, "1001100110"),
        (1, 2, "0110101010"),
        (2, 1, "0101010101"),
        (0x8000_0000, 1, "0110100101"),
        (1, 0x8000_0000, "0101011010"),
    ];
    for (a, b, answers) in rows {
        let after = Flags::of_difference(a, b);
        for (condition, answer) in CONDITIONS.iter().zip(answers.bytes()) {
            assert!(rt; after.holds(*condition) == Some(answer == b'1'));
        }
    }
    for condition in CONDITIONS {
        assert!(rt; Flags::unknown().holds(condition).is_none());
    }
    let matched = Flags::of_match(true);
    assert!(rt; matched.holds(Condition::Equal) == Some(true));
    assert!(rt; matched.holds(Condition::LessOrEqual).is_none());
    assert!(rt; matched.holds(Condition::BelowOrEqual).is_none());
}

#[test]
fn shifts_and_extensions(rt: HostRuntime) {
    let shifts = [
        (Shift::Left, 0x1234_5678, 4, 0x2345_6780),
        (Shift::Left, 0x8000_0001, 32, 0x8000_0001),
        (Shift::Right, 0x8000_0001, 31, 1),
        (Shift::Right, 0x8000_0001, 33, 0x4000_0000),
        (Shift::Arithmetic, 0x8000_0001, 1, 0xc000_0000),
        (Shift::Arithmetic, 0x8000_0001, 31, 0xffff_ffff),
    ];
    for (shift, word, count, after) in shifts {
        assert!(rt; shifted(shift, word, count) == after);
    }
    let extensions = [
        (Width::Byte, Sign::Signed, 0x1234_5680, 0xffff_ff80),
        (Width::Byte, Sign::Unsigned, 0x1234_5680, 0x80),
        (Width::Half, Sign::Signed, 0x1234_ff7f, 0xffff_ff7f),
        (Width::Half, Sign::Unsigned, 0x1234_ff7f, 0xff7f),
    ];
    for (width, sign, word, after) in extensions {
        assert!(rt; extended(width, sign, word) == after);
    }
}

#[test]
fn divisions(rt: HostRuntime) {
    let rows = [
        (
            Sign::Signed,
            0xffff_ffff,
            0xffff_fff9,
            2,
            Some((0xffff_fffd, 0xffff_ffff)),
        ),
        (Sign::Signed, 0, 7, 0xffff_fffe, Some((0xffff_fffd, 1))),
        (
            Sign::Signed,
            0xffff_ffff,
            0x8000_0000,
            1,
            Some((0x8000_0000, 0)),
        ),
        (Sign::Signed, 0xffff_ffff, 0x8000_0000, 0xffff_ffff, None),
        (Sign::Signed, 0, 0x8000_0000, 1, None),
        (Sign::Signed, 0, 1, 0, None),
        (Sign::Unsigned, 6, 5, 7, Some((0xdb6d_b6dc, 1))),
        (Sign::Unsigned, 7, 5, 7, None),
        (Sign::Unsigned, 0, 5, 0, None),
    ];
    for (sign, high, low, divisor, after) in rows {
        let division = divided(sign, high, low, divisor).map(|d| (d.quotient, d.remainder));
        assert!(rt; division == after);
    }
}

// NAME+8(%esi,%edi,4), or a part of it.
fn address(label: Option<Name>, base: Option<Register>, scale: Option<Scale>) -> Address {
    Address {
        label,
        displacement: 8,
        base,
        index: scale.map(|scale| Index {
            register: IndexRegister::Edi,
            scale,
        }),
    }
}

#[test]
fn registers_and_bytes(rt: HostRuntime) -> Result<(), Fail> {
    let before = registers();
    let name = Name::made(rt.alloc(), b"x")?;
    let symbol = Symbol {
        name,
        plus: 0xffff_ffff,
    };
    let place = address(
        Some(Name::made(rt.alloc(), b"x")?),
        Some(Register::Ebp),
        Some(Scale::Eight),
    );
    let rows = [
        (
            Instr::MoveSymbol {
                symbol,
                to: Register::Ebx,
            },
            before.with_word(Register::Ebx, 0x0fff_ffff),
        ),
        (
            Instr::LoadAddress {
                address: place,
                to: Register::Ecx,
            },
            before.with_word(Register::Ecx, 0x1000_0010),
        ),
        (
            Instr::ExtendByte {
                sign: Sign::Signed,
                from: ByteRegister::Bl,
                to: Register::Eax,
            },
            before.with_word(Register::Eax, 0xffff_ff80),
        ),
        (
            Instr::Negate {
                register: Register::Edx,
            },
            before.with_word(Register::Edx, 0xffff_fffb),
        ),
        (
            Instr::Complement {
                register: Register::Edx,
            },
            before.with_word(Register::Edx, 0xffff_fffa),
        ),
        (
            Instr::ShiftByCl {
                shift: Shift::Left,
                register: Register::Edx,
            },
            before.with_word(Register::Edx, 10),
        ),
        (Instr::ExtendEax, before.with_word(Register::Edx, 0)),
        (
            Instr::Set {
                condition: Condition::Less,
                to: ByteRegister::Bl,
            },
            before.with_word(Register::Ebx, 0x1234_ff01),
        ),
        (
            Instr::Push {
                register: Register::Esp,
            },
            before.with_word(Register::Esp, 0x900f_fff4),
        ),
        (
            Instr::Pop {
                register: Register::Esp,
            },
            before.with_word(Register::Esp, 77),
        ),
        (
            Instr::Pop {
                register: Register::Eax,
            },
            before
                .with_word(Register::Esp, 0x900f_fffc)
                .with_word(Register::Eax, 77),
        ),
    ];
    let less = flags(false, true, false, false);
    for (instr, after) in rows {
        assert!(rt; registers_after(&instr, 0x1000_0000, &before, &less, 77) == Some(after));
    }
    Ok(())
}

#[test]
fn accesses_and_places(rt: HostRuntime) {
    let before = registers();
    let push = Instr::Push {
        register: Register::Esp,
    };
    let stack = Access {
        kind: Kind::Store,
        size: Size::Word,
        address: 0x900f_fff4,
    };
    assert!(rt; access_of(&push, 0, &before) == Some(stack));
    assert!(rt; written(&push, 0x0800_0000, &before, 0) == Some(0x900f_fff8));
    let halves = Instr::LoadExtended {
        width: Width::Half,
        sign: Sign::Signed,
        from: address(None, Some(Register::Esi), Some(Scale::Four)),
        to: Register::Eax,
    };
    let half = Access {
        kind: Kind::Load,
        size: Size::Half,
        address: 0x2000_0014,
    };
    assert!(rt; access_of(&halves, 0, &before) == Some(half));
    let compare = Instr::CompareExchange {
        from: Register::Edx,
        at: address(None, None, None),
    };
    assert!(rt; written(&compare, 0x0800_0000, &before, 0x1122_3344) == Some(5));
    assert!(rt; written(&compare, 0x0800_0000, &before, 0x1122_3345).is_none());
    assert!(rt; flags_after(&compare, &before, &Flags::unknown(), 1) == Flags::of_match(false));
    let call = Instr::CallThrough {
        register: Register::Esi,
    };
    let after = After {
        registers: before.with_word(Register::Esp, 0x900f_fff4),
        flags: Flags::unknown(),
        place: 0x2000_0000,
        written: Some(0x0800_0001),
    };
    assert!(rt; executed(&call, 0, 0x0800_0000, &before, &Flags::unknown(), 0) == Some(after));
}
