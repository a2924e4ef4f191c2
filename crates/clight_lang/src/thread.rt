//! Threads: the calls of one, and what the innermost does.

use crate::frame::Frame;
use crate::function::Function;
use crate::statement::{Rest, Stmt};
use std::rc::Rc;
use tso_words::Val;

/// What the innermost call of a thread does.
#[derive(Drop)]
pub enum Doing {
    /// It enters its function: it places its locals, and then stores the parameters in memory, of
    /// which so many are stored.
    Enter(Vec<Val>, usize),
    /// It runs a statement, with the answers to the statement's first reads, and then the rest.
    Run(Vec<Val>, Rc<Stmt>, Rc<Rest>),
    /// It leaves its function with a value.
    Leave(Val),
    /// It waits for the word of an external call, which goes into a temporary.
    Wait(usize, Rc<Rest>),
}

/// A call that waits for the one above it, whose value goes into a temporary.
#[derive(Drop)]
pub struct Caller {
    pub function: Rc<Function>,
    pub frame: Frame,
    pub into: usize,
    pub rest: Rc<Rest>,
}

/// A thread: the innermost call, and the callers below it, the newest last.
#[derive(Drop)]
pub struct Thread {
    /// Whether it is the thread of main.
    pub is_first: bool,
    pub function: Rc<Function>,
    pub frame: Frame,
    pub doing: Doing,
    pub callers: Vec<Caller>,
}
