// The first bad line of texts.
use crate::printing::print_asm;
use crate::reading::{ReadAsmRefusal, read_asm};
use std::alloc::Global;
use std::test::Fail;

// The first bad line of a text; 0 where it has none and its printed form is a text too.
fn first_bad(alloc: Global, text: &[u8]) -> Result<u64, ReadAsmRefusal> {
    match read_asm(alloc, text) {
        Ok(asm) => {
            let printed = print_asm(alloc, &asm).map_err(|_| ReadAsmRefusal::NoMemory)?;
            read_asm(alloc, printed.as_slice())?;
            Ok(0)
        }
        Err(ReadAsmRefusal::BadText { line }) => Ok(line),
        Err(ReadAsmRefusal::NoMemory) => Err(ReadAsmRefusal::NoMemory),
    }
}

// The first bad line of a text with one line between others.
fn first_bad_with(alloc: Global, before: &[u8], line: &[u8], behind: &[u8]) -> Result<u64, Fail> {
    let mut text = Vec::from_slice(alloc, before)?;
    text.extend_from_slice(line)?;
    text.extend_from_slice(behind)?;
    Ok(first_bad(alloc, text.as_slice())?)
}

#[test]
fn texts_have_their_first_bad_line(rt: HostRuntime) -> Result<(), Fail> {
    let alloc = rt.alloc();
    let rows: [(&[u8], u64); 25] = [
        (b"", 1),
        (b"\n", 2),
        (b"main:", 0),
        (b".text\nmain:\n\tret\n", 0),
        (b"main: ret", 1),
        (b".text\nmain:\n\tjmp out\nrubbish", 3),
        (b".text\njmp f\n# extern f 1\nf:\nmain:\nret\n", 4),
        (b"main:\n.data\nmain:\n", 3),
        (b".data\nmain:\n", 3),
        (b"call main\n\n  # plain\n", 1),
        (b"jmp main\nmain:\nmain:\n", 3),
        (b"# pace 5\nmain:\n# pace 6\n", 3),
        (
            b"#pace 5\n# pace\n#  pace 5\n#\tpace 5\n# pace 0x10\nmain:\n",
            0,
        ),
        (
            b"# pace 340282366920938463463374607431768211455\nmain:\n",
            0,
        ),
        (b"# pace -0\nmain:\n", 0),
        (b"# extern f 64\n# extern g 0x0\nmain:\ncall f\n", 0),
        (
            b".globl main\n.data\n.globl main\nx :\n.text\nmain :\n.globl x\n",
            0,
        ),
        (
            b".data\n.byte -128\n.byte 255\n.short -32768\n.short 65535\n.long -2147483648\n.long 4294967295\n.zero 0\n.balign 0x10\n.balign 1\n.text\nmain:\n",
            0,
        ),
        (b".data\n.zero 268435456\n.text\nmain:\n", 0),
        (b".data\n.zero 268435457\n.text\nmain:\n", 2),
        (b".data\n.zero 0x10000000\n.zero 0\n.text\nmain:\n", 0),
        (
            b".data\n.zero 268435456\n.balign 16\n.byte 0\n.text\nmain:\n",
            4,
        ),
        (b".data\n.zero 268435441\n.balign 16\n.text\nmain:\n", 0),
        (b".data\n.zero 4294967295\n.text\nmain:\n", 2),
        (
            b"\tmovl $main+-4, %eax\n\tmovl main(%eax), %eax\n\tcall free\nmain:",
            0,
        ),
    ];
    for (text, line) in rows {
        assert!(rt; first_bad(alloc, text)? == line);
    }
    Ok(())
}

#[test]
fn lines_among_code_are_bad(rt: HostRuntime) -> Result<(), Fail> {
    let alloc = rt.alloc();
    let before = b"# pace 1\n# extern f 2\n.data\nd:\n\t.long 7\n.text\nmain:\n";
    let rows: [&[u8]; 72] = [
        b"movl $7 %eax",
        b"jmp out",
        b"jmp d",
        b"je d",
        b"jmp f",
        b"jmp malloc",
        b"call d",
        b"call out",
        b"movl $f, %eax",
        b"movl $malloc, %eax",
        b"movl f, %eax",
        b"movl exit, %eax",
        b"leal out, %eax",
        b"movl %eax, out+4",
        b".globl out",
        b".globl f",
        b".globl exit",
        b".globl",
        b".globl d d",
        b".globl 5",
        b"main:",
        b"d:",
        b"f:",
        b"malloc:",
        b"exit :",
        b"# extern f 2",
        b"# extern main 1",
        b"# extern free 1",
        b"# extern g 65",
        b"# extern g -1",
        b"# extern g",
        b"# extern 5g 1",
        b"# extern g 1 2",
        b"# pace 2",
        b"# pace x",
        b"# pace ",
        b"# extern ",
        b"# pace 340282366920938463463374607431768211456",
        b".byte 1",
        b".balign 4",
        b"5x:",
        b"x",
        b"x: ret",
        b"movl",
        b"movl %eax",
        b"movl %eax, %ebx, %ecx",
        b"movl d, d",
        b"movl $1, $2",
        b"movb %eax, d",
        b"movw %al, d",
        b"movl %al, %eax",
        b"movl $4294967296, %eax",
        b"movl $-2147483649, %eax",
        b"movl $0X1, %eax",
        b"movl $-0x1, %eax",
        b"shll $32, %eax",
        b"shll $-1, %eax",
        b"shll %bl, %eax",
        b"movl (%eax,%esp,1), %eax",
        b"movl (%eax,%ebx,3), %eax",
        b"movl (%eax,%ebx), %eax",
        b"movl (), %eax",
        b"jmp main+0",
        b"jmp *%eax",
        b"lock movl %eax, d",
        b"lock",
        b"cmpxchgl %eax, d",
        b"% eax",
        b"addl d, %eax",
        b"sete %eax",
        b"ret 4",
        b".section x",
    ];
    assert!(rt; first_bad_with(alloc, before, b"\tcall f", b"\n\tret\n")? == 0);
    for line in rows {
        assert!(rt; first_bad_with(alloc, before, line, b"\n\tret\n")? == 8);
    }
    Ok(())
}

#[test]
fn lines_among_data_are_bad(rt: HostRuntime) -> Result<(), Fail> {
    let alloc = rt.alloc();
    let before = b".text\nmain:\n\tret\n.data\nd:\n\t.long 7\n";
    let rows: [&[u8]; 18] = [
        b".zero -1",
        b".zero -2147483648",
        b".zero -2147483649",
        b".zero 4294967295",
        b".zero 4294967296",
        b".zero 268435453",
        b".byte 256",
        b".byte -129",
        b".short 65536",
        b".short -32769",
        b".long 4294967296",
        b".long x",
        b".balign 8",
        b".balign 0",
        b".byte",
        b".byte 1, 2",
        b"main:",
        b"ret",
    ];
    assert!(rt; first_bad_with(alloc, before, b".zero 268435452", b"\n")? == 0);
    for line in rows {
        assert!(rt; first_bad_with(alloc, before, line, b"\n")? == 7);
    }
    Ok(())
}

// The printed form of a text whose one line of code is this one; nothing where it is bad.
fn printed_with(alloc: Global, line: &[u8]) -> Result<Vec<u8>, Fail> {
    let mut text = Vec::from_slice(alloc, b".data\nd:\n.text\nmain:\n")?;
    text.extend_from_slice(line)?;
    match read_asm(alloc, text.as_slice()) {
        Ok(asm) => Ok(print_asm(alloc, &asm)?),
        Err(ReadAsmRefusal::BadText { line: 5 }) => Ok(Vec::new(alloc)),
        Err(refusal) => Err(Fail::from(refusal)),
    }
}

#[test]
fn displacements_at_both_ends(rt: HostRuntime) -> Result<(), Fail> {
    let alloc = rt.alloc();
    let rows: [(&[u8], &[u8]); 16] = [
        (b"movl -2147483648(%eax), %eax", b"-2147483648(%eax), %eax"),
        (b"movl -2147483649(%eax), %eax", b""),
        (b"movl 2147483648(%eax), %eax", b"-2147483648(%eax), %eax"),
        (b"movl 2147483647(%eax), %eax", b"2147483647(%eax), %eax"),
        (b"movl 4294967295(%eax), %eax", b"-1(%eax), %eax"),
        (b"movl 4294967296(%eax), %eax", b""),
        (b"movl 0xffffffff(,%eax,8), %eax", b"-1(,%eax,8), %eax"),
        (b"movl 0x100000000(,%eax,8), %eax", b""),
        (b"movl 4294967295, %eax", b"-1, %eax"),
        (b"movl 4294967296, %eax", b""),
        (b"movl d+4294967295(%eax), %eax", b"d+-1(%eax), %eax"),
        (b"movl d+4294967296(%eax), %eax", b""),
        (b"movl d+-2147483648, %eax", b"d+-2147483648, %eax"),
        (b"movl d+-2147483649, %eax", b""),
        (b"movl $d+-2147483648, %eax", b"$d+-2147483648, %eax"),
        (b"movl $d+-2147483649, %eax", b""),
    ];
    for (line, operands) in rows {
        let printed = printed_with(alloc, line)?;
        let mut wanted = Vec::new(alloc);
        if !operands.is_empty() {
            wanted.extend_from_slice(b"# pace 0\n.data\nd:\n.text\nmain:\n\tmovl ")?;
            wanted.extend_from_slice(operands)?;
            wanted.push(b'\n')?;
        }
        assert!(rt; printed.as_slice() == wanted.as_slice());
    }
    Ok(())
}
