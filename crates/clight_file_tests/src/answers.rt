//! What the check answers the bytes of a file.

use c_reader::read_file;
use clight_lang::Program;
use clight_programs::{CheckRefusal, check};
use std::alloc::Global;
use std::process::Abort;
use std::test::Fail;

/// What the check says of a file.
#[derive(Clone, Copy, PartialEq, Eq, Debug)]
pub enum Answer {
    Accepted,
    /// The number of the first rule that it breaks, and the byte at which it does.
    Fault(u8, u32),
    /// The number of the first count that it passes, and the byte at which it does.
    Excess(u8, u32),
    NoMemory,
}

/// The program of the file with these bytes, which is of the grammar.
#[tactic(auto, using(c_shapes::proofs::Files::read_shaped))]
pub fn checked(rt: &impl Abort, alloc: Global, bytes: &[u8]) -> Result<Program, CheckRefusal> {
    assert!(rt; bytes.len() <= 4_194_304);
    match read_file(alloc, bytes) {
        Ok(file) => check(alloc, bytes.len() as u32, &file),
        Err(refusal) => panic!(rt; "{refusal:?}: {bytes:?}"),
    }
}

pub fn answer_of(checked: &Result<Program, CheckRefusal>) -> Answer {
    match checked {
        Ok(_) => Answer::Accepted,
        Err(CheckRefusal::Faulty(fault)) => Answer::Fault(fault.rule.number(), fault.at),
        Err(CheckRefusal::Passed { count, at }) => Answer::Excess(count.number(), *at),
        Err(CheckRefusal::NoMemory) => Answer::NoMemory,
    }
}

/// The file of a row, and the byte before which its `@` stands.
fn marked(rt: &impl Abort, alloc: Global, row: &str) -> Result<(Vec<u8>, u32), Fail> {
    let Some((before, behind)) = row.split_once('@') else {
        panic!(rt; "no place: {row}");
    };
    assert!(rt; before.len() <= 4_194_304);
    let mut file = Vec::from_slice(alloc, before.as_bytes())?;
    file.extend_from_slice(behind.as_bytes())?;
    Ok((file, before.len() as u32))
}

/// Each file breaks this rule first, at its `@`.
pub fn refuse(rt: &impl Abort, alloc: Global, rule: u8, rows: &[&str]) -> Result<(), Fail> {
    for row in rows {
        let (file, at) = marked(rt, alloc, row)?;
        let answer = answer_of(&checked(rt, alloc, &file));
        assert_eq!(rt; answer, Answer::Fault(rule, at), "{row}");
    }
    Ok(())
}

/// Each file passes this count first, at its `@`.
pub fn exceed(rt: &impl Abort, alloc: Global, count: u8, rows: &[&str]) -> Result<(), Fail> {
    for row in rows {
        let (file, at) = marked(rt, alloc, row)?;
        let answer = answer_of(&checked(rt, alloc, &file));
        assert_eq!(rt; answer, Answer::Excess(count, at), "{row}");
    }
    Ok(())
}

/// Each file has a program.
pub fn accept(rt: &impl Abort, alloc: Global, texts: &[&str]) -> Result<(), Fail> {
    for text in texts {
        let answer = answer_of(&checked(rt, alloc, text.as_bytes()));
        assert_eq!(rt; answer, Answer::Accepted, "{text}");
    }
    Ok(())
}
