// Instructions read and printed: each form of the table, and each shape of an operand.
use crate::printing::put_instr;
use std::alloc::Global;
use std::test::Fail;
use x86_lines::instr_reading::instr_in;
use x86_table::instruction::form_of;

// The row of the instruction that a line spells, where its printed form is this text behind a tab;
// 0 where the line spells none.
fn row_of(alloc: Global, line: &[u8], text: &[u8]) -> Result<usize, Fail> {
    let Some(instr) = instr_in(alloc, line)? else {
        return Ok(0);
    };
    let mut printed = Vec::new(alloc);
    put_instr(&mut printed, &instr)?;
    let mut wanted = Vec::from_slice(alloc, b"\t")?;
    wanted.extend_from_slice(text)?;
    if printed.as_slice() == wanted.as_slice() {
        Ok(form_of(&instr) + 1)
    } else {
        Ok(74)
    }
}

#[test]
fn every_form_is_read_and_printed(rt: HostRuntime) -> Result<(), Fail> {
    let alloc = rt.alloc();
    let rows: [&[u8]; 73] = [
        b"movl $5, %eax",
        b"movl $x.1+8, %ebx",
        b"movl %esp, %ebp",
        b"movl 4(%esp), %ecx",
        b"movl %edx, (%eax,%ebx,4)",
        b"movl $-1, x.1",
        b"movb %al, x.1+2",
        b"movw %bp, (%edi)",
        b"movsbl (,%esi,8), %edi",
        b"movzbl -1(%ebp), %esi",
        b"movswl x.1(%eax), %eax",
        b"movzwl 2147483647(%eax,%ebp,1), %edx",
        b"movsbl %bl, %eax",
        b"movzbl %cl, %ecx",
        b"movswl %ax, %ebx",
        b"movzwl %si, %esi",
        b"leal x.1+-4(%esp,%ecx,2), %eax",
        b"addl %ebx, %eax",
        b"subl %ecx, %eax",
        b"imull %edx, %eax",
        b"andl %esi, %eax",
        b"orl %edi, %eax",
        b"xorl %ebp, %eax",
        b"addl $-2147483648, %esp",
        b"subl $2147483647, %esp",
        b"imull $0, %eax",
        b"andl $-16, %esp",
        b"orl $1, %eax",
        b"xorl $255, %eax",
        b"negl %eax",
        b"notl %edx",
        b"shll $31, %eax",
        b"shrl $0, %eax",
        b"sarl $1, %eax",
        b"shll %cl, %ebx",
        b"shrl %cl, %ebx",
        b"sarl %cl, %ebx",
        b"cltd",
        b"idivl %ecx",
        b"divl %ecx",
        b"cmpl %eax, %ebx",
        b"cmpl $7, %ebx",
        b"testl %eax, %eax",
        b"sete %al",
        b"setne %bl",
        b"setl %cl",
        b"setge %dl",
        b"setle %al",
        b"setg %al",
        b"setb %al",
        b"setae %al",
        b"setbe %al",
        b"seta %al",
        b"je x.1",
        b"jne x.1",
        b"jl x.1",
        b"jge x.1",
        b"jle x.1",
        b"jg x.1",
        b"jb x.1",
        b"jae x.1",
        b"jbe x.1",
        b"ja x.1",
        b"jmp x.1",
        b"call x.1",
        b"call *%eax",
        b"ret",
        b"pushl %ebp",
        b"popl %ebp",
        b"mfence",
        b"lock cmpxchgl %ecx, (%edx)",
        b"lock xaddl %eax, x.1",
        b"xchgl %eax, 0",
    ];
    for (row, text) in rows.iter().enumerate() {
        assert!(rt; row_of(alloc, text, text)? == row + 1);
    }
    Ok(())
}

#[test]
fn every_operand_is_read_and_printed(rt: HostRuntime) -> Result<(), Fail> {
    let alloc = rt.alloc();
    let rows: [&[u8]; 19] = [
        b"movl $x.1, %eax",
        b"movl $x.1+-2147483648, %eax",
        b"movl $2147483647, %esi",
        b"movl $-2147483648, %edi",
        b"movl 0, %eax",
        b"movl -1, %eax",
        b"movl x.1, %eax",
        b"movl (%esp), %eax",
        b"movl (%esp,%edi,4), %eax",
        b"movl -2147483648(,%edi,4), %eax",
        b"movl x.1+8(%esp), %eax",
        b"movl x.1(,%ebx,2), %eax",
        b"movw %ax, 0",
        b"movw %bx, 0",
        b"movw %cx, 0",
        b"movw %dx, 0",
        b"movw %di, 0",
        b"movb %dl, (%ebp)",
        b"call *%esp",
    ];
    for text in rows {
        let row = row_of(alloc, text, text)?;
        assert!(rt; 0 < row && row < 74);
    }
    Ok(())
}

#[test]
fn blanks_and_numbers_are_free(rt: HostRuntime) -> Result<(), Fail> {
    let alloc = rt.alloc();
    let rows: [(&[u8], &[u8]); 16] = [
        (b"movl $7,%eax", b"movl $7, %eax"),
        (b" movl $ x + -4 , %eax", b"movl $x+-4, %eax"),
        (b"movl x+0, %eax", b"movl x, %eax"),
        (
            b"lock\tcmpxchgl %ebx,4(%eax)",
            b"lock cmpxchgl %ebx, 4(%eax)",
        ),
        (b"movl 0x10(,%edi,0x4), %eax", b"movl 16(,%edi,4), %eax"),
        (b"movl $4294967295, %eax", b"movl $-1, %eax"),
        (b"movl $0xffffffff, %eax", b"movl $-1, %eax"),
        (b"movl $-0, %eax", b"movl $0, %eax"),
        (b"movl $010, %eax", b"movl $10, %eax"),
        (b"movl 0(%eax), %eax", b"movl (%eax), %eax"),
        (b"call * %eax", b"call *%eax"),
        (b"jmp x+0", b""),
        (b"shll $32, %eax", b""),
        (b"movl $7 %eax", b""),
        (b"movl (%eax,%esp,1), %eax", b""),
        (b"movl $4294967296, %eax", b""),
    ];
    for (line, text) in rows {
        let row = row_of(alloc, line, text)?;
        assert!(rt; row < 74 && (row == 0) == text.is_empty());
    }
    Ok(())
}
