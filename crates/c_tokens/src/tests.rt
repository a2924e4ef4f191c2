//! Small files and their tokens, worked by hand from the rules of the tokens.
ghost use Rattle.std.specs.Prelude.{◌≤◌, length};

use crate::{IntegerConstant, Token, TokenKind, character_constant, integer_constant, tokens};
use std::alloc::Global;
use std::process::Abort;
use std::test::Fail;

const WORD: TokenKind = TokenKind::Identifier;

const KEY: TokenKind = TokenKind::Keyword;

const INT: TokenKind = TokenKind::Integer;

const CHAR: TokenKind = TokenKind::Character;

const MARK: TokenKind = TokenKind::Punctuator;

fn expect_tokens(
    rt: &impl Abort,
    alloc: Global,
    file: &[u8],
    want: &[(TokenKind, u32, u32)],
    bad: Option<u32>,
) -> Result<(), Fail> {
    assert!(rt; file.len() <= 4_194_304);
    let got = tokens(alloc, file)?;
    assert_eq!(rt; got.bad, bad, "{file:?}");
    assert_eq!(rt; got.list.len(), want.len(), "{file:?}");
    for (token, row) in got.list.iter().zip(want) {
        let (kind, from, to) = *row;
        assert_eq!(rt; *token, Token { kind, from, to }, "{file:?}");
    }
    Ok(())
}

// Each word is one token of the kind.
fn expect_each(
    rt: &impl Abort,
    alloc: Global,
    kind: TokenKind,
    words: &[&[u8]],
) -> Result<(), Fail> {
    for word in words {
        let length = word.len();
        assert!(rt; length <= 200);
        expect_tokens(rt, alloc, *word, &[(kind, 0, length as u32)], None)?;
    }
    Ok(())
}

// The first bad byte of each file.
fn expect_bad(rt: &impl Abort, alloc: Global, files: &[(&[u8], u32)]) -> Result<(), Fail> {
    for (file, place) in files {
        assert!(rt; file.len() <= 4_194_304);
        let got = tokens(alloc, *file)?;
        assert_eq!(rt; got.bad, Some(*place), "{file:?}");
    }
    Ok(())
}

#[test]
fn words(rt: HostRuntime) -> Result<(), Fail> {
    let alloc = rt.alloc();
    expect_each(
        &rt,
        alloc,
        WORD,
        &[b"a", b"_", b"Z9_z", b"Int", b"ifx", &[b'q'; 127]],
    )?;
    expect_each(
        &rt,
        alloc,
        KEY,
        &[b"int", b"while", b"do", b"double", b"_Bool", b"_Imaginary"],
    )?;
    expect_bad(
        &rt,
        alloc,
        &[(&[b'q'; 128], 0), (b"int $", 4), (b"x@", 1), (b"\x80", 0)],
    )
}

#[test]
fn integers(rt: HostRuntime) -> Result<(), Fail> {
    let alloc = rt.alloc();
    let most: [&[u8]; 5] = [b"0", b"00", b"4294967295", b"037777777777", b"0XffFFffFF"];
    expect_each(&rt, alloc, INT, &most)?;
    let suffixes: [&[u8]; 8] = [
        b"1u", b"1U", b"0l", b"0L", b"7ul", b"7LU", b"0x1lU", b"0xfuL",
    ];
    expect_each(&rt, alloc, INT, &suffixes)?;
    let past: [(&[u8], u32); 3] = [
        (b"4294967296", 0),
        (b"040000000000", 0),
        (b"0x100000000", 0),
    ];
    expect_bad(&rt, alloc, &past)?;
    let other: [(&[u8], u32); 8] = [
        (b" 08", 1),
        (b"0x", 0),
        (b"1.", 0),
        (b"1ull", 0),
        (b"1uu", 0),
        (b"1_", 0),
        (b".5", 0),
        (b"..5", 1),
    ];
    expect_bad(&rt, alloc, &other)
}

#[test]
fn characters(rt: HostRuntime) -> Result<(), Fail> {
    let alloc = rt.alloc();
    let good: [&[u8]; 10] = [
        b"' '",
        b"'~'",
        b"'\"'",
        b"'\\n'",
        b"'\\''",
        b"'\\\\'",
        b"'\\0'",
        b"'\\377'",
        b"'\\x0ff'",
        b"'\\?'",
    ];
    expect_each(&rt, alloc, CHAR, &good)?;
    let bad: [(&[u8], u32); 9] = [
        (b"'\\400'", 0),
        (b"'\\x100'", 0),
        (b"''", 0),
        (b"'ab'", 0),
        (b"'a", 0),
        (b"'\\q'", 0),
        (b"'\\x'", 0),
        (b"'\n'", 0),
        (b"x \"s\"", 2),
    ];
    expect_bad(&rt, alloc, &bad)
}

#[test]
fn punctuators(rt: HostRuntime) -> Result<(), Fail> {
    let alloc = rt.alloc();
    let each: [&[u8]; 10] = [
        b"<<=", b">>=", b"->", b"--", b"||", b"^=", b"/=", b".", b"~", b"?",
    ];
    expect_each(&rt, alloc, MARK, &each)?;
    let plus = [(WORD, 0, 1), (MARK, 1, 3), (MARK, 3, 4), (WORD, 4, 5)];
    expect_tokens(&rt, alloc, b"a+++b", &plus, None)?;
    expect_tokens(&rt, alloc, b"-->", &[(MARK, 0, 2), (MARK, 2, 3)], None)?;
    expect_tokens(
        &rt,
        alloc,
        b"...",
        &[(MARK, 0, 1), (MARK, 1, 2), (MARK, 2, 3)],
        None,
    )?;
    expect_tokens(
        &rt,
        alloc,
        b"1/'a'",
        &[(INT, 0, 1), (MARK, 1, 2), (CHAR, 2, 5)],
        None,
    )
}

#[test]
fn gaps(rt: HostRuntime) -> Result<(), Fail> {
    let alloc = rt.alloc();
    let empty: [&[u8]; 10] = [
        b"",
        b" \t\r\n\x0c\x0b",
        b"//",
        b"/**/",
        b"/***/",
        b"/* /* */",
        b"# 1 \"f.c\"",
        b"\x0c#5x",
        b"//\n#1",
        b"#\t1 /*",
    ];
    for file in &empty {
        expect_tokens(&rt, alloc, *file, &[], None)?;
    }
    expect_tokens(
        &rt,
        alloc,
        b"a//b\nc/*\n*/int",
        &[(WORD, 0, 1), (WORD, 5, 6), (KEY, 11, 14)],
        None,
    )?;
    let bad: [(&[u8], u32); 9] = [
        (b"#line 5", 0),
        (b"/**/ # 1", 5),
        (b"/*\n*/# 1", 5),
        (b"a # 1", 2),
        (b"/*/", 0),
        (b"a /* b", 2),
        (b"\\\n", 0),
        (b"# 1\n#", 4),
        (b"#\n1", 0),
    ];
    expect_bad(&rt, alloc, &bad)
}

// The integer constant at the front of a file.
fn first_integer(rt: &impl Abort, alloc: Global, file: &[u8]) -> Result<IntegerConstant, Fail> {
    assert!(rt; file.len() <= 100);
    let got = tokens(alloc, file)?;
    assert!(rt; got.list.len() > 0);
    let token = got.list[0];
    match token.kind {
        TokenKind::Integer => Ok(integer_constant(&file[token.from as usize..token.to as usize])),
        _ => panic!(rt; "no integer constant"),
    }
}

// The number of the character constant at the front of a file.
fn first_character(rt: &impl Abort, alloc: Global, file: &[u8]) -> Result<u8, Fail> {
    assert!(rt; file.len() <= 100);
    let got = tokens(alloc, file)?;
    assert!(rt; got.list.len() > 0);
    let token = got.list[0];
    match token.kind {
        TokenKind::Character => Ok(character_constant(
            &file[token.from as usize..token.to as usize],
        )),
        _ => panic!(rt; "no character constant"),
    }
}

#[test]
fn integer_constants(rt: HostRuntime) -> Result<(), Fail> {
    let rows: [(&[u8], u32, bool, bool); 9] = [
        (b"0", 0, true, false),
        (b"0u", 0, true, true),
        (b"00", 0, false, false),
        (b"0x0", 0, false, false),
        (b"017L", 15, false, false),
        (b"0XfFUl", 255, false, true),
        (b"0xflu", 15, false, true),
        (b"4294967295", 4_294_967_295, true, false),
        (b"10lU", 10, true, true),
    ];
    for row in &rows {
        let (file, value, is_decimal, is_unsigned) = *row;
        let got = first_integer(&rt, rt.alloc(), file)?;
        assert!(rt; got.value == value);
        assert!(rt; got.is_decimal == is_decimal);
        assert!(rt; got.is_unsigned == is_unsigned);
    }
    Ok(())
}

#[test]
fn character_constants(rt: HostRuntime) -> Result<(), Fail> {
    let rows: [(&[u8], u8); 8] = [
        (b"' '", 32),
        (b"'~'", 126),
        (b"'\\n'", 10),
        (b"'\\v'", 11),
        (b"'\\''", 39),
        (b"'\\0'", 0),
        (b"'\\377'", 255),
        (b"'\\x0aB'", 171),
    ];
    for row in &rows {
        let (file, number) = *row;
        let got = first_character(&rt, rt.alloc(), file)?;
        assert!(rt; got == number);
    }
    Ok(())
}
