// The instruction table: the rows that mnemonics and shapes find, and instructions there and back.
use crate::instruction::{Condition, Instr, Shift, form_of, operands_of};
use crate::mnemonic::Mnemonic;
use crate::of_operands::instr_of;
use crate::operand::{Operand, Operands};
use crate::register::{ByteRegister, Register};
use crate::table::{FORMS, Form, Pattern, Shape, find};
use std::test::Fail;
use tso_words::Name;

#[test]
fn the_first_row_that_fits(rt: HostRuntime) -> Result<(), Fail> {
    let rows: [(&[u8], Shape, Shape, Option<usize>); 12] = [
        (b"movl", Shape::Number, Shape::Word, Some(0)),
        (b"movl", Shape::Bare, Shape::Word, Some(3)),
        (b"movl", Shape::Number, Shape::Bare, Some(5)),
        (b"movzwl", Shape::Half, Shape::Word, Some(15)),
        (b"shll", Shape::Cl, Shape::Word, Some(34)),
        (b"setl", Shape::Cl, Shape::Absent, Some(45)),
        (b"jmp", Shape::Bare, Shape::Absent, Some(63)),
        (b"call", Shape::Through, Shape::Absent, Some(65)),
        (b"lock xaddl", Shape::Word, Shape::Memory, Some(71)),
        (b"jmp", Shape::Memory, Shape::Absent, None),
        (b"shll", Shape::Byte, Shape::Word, None),
        (b"mov", Shape::Number, Shape::Word, None),
    ];
    for (mnemonic, first, second, row) in rows {
        let pattern = Pattern { first, second };
        assert_eq!(rt; find(&FORMS, mnemonic, &pattern), row);
    }
    let none: [Form; 0] = [];
    let pattern = Pattern {
        first: Shape::Number,
        second: Shape::Word,
    };
    assert_eq!(rt; find(&none, b"movl", &pattern), None);
    Ok(())
}

#[test]
fn an_instruction_of_its_operands(rt: HostRuntime) -> Result<(), Fail> {
    let operands = operands_of(Instr::ShiftByCl {
        shift: Shift::Right,
        register: Register::Esi,
    });
    match instr_of(Mnemonic::Shrl, operands) {
        Some(instr) => assert_eq!(rt; form_of(&instr), 35),
        None => assert!(rt; false),
    }
    let name = Name::made(rt.alloc(), b"main")?;
    let operands = operands_of(Instr::JumpIf {
        condition: Condition::BelowOrEqual,
        label: name,
    });
    match instr_of(Mnemonic::Jbe, operands) {
        Some(instr) => assert_eq!(rt; form_of(&instr), 61),
        None => assert!(rt; false),
    }
    let operands = Operands {
        first: Operand::Byte(ByteRegister::Dl),
        second: Operand::Word(Register::Eax),
    };
    assert!(rt; instr_of(Mnemonic::Shll, operands).is_none());
    Ok(())
}
