//! Statements, and what comes after a statement. Both are shared: a thread names them, and copies
//! no tree.

use crate::expression::Expr;
use std::rc::Rc;
use tso_words::{Chunk, Name};

/// A function that every program may call.
#[derive(Clone, Copy, PartialEq, Eq, Debug)]
pub enum Builtin {
    /// A new thread, which calls the function at the first argument with the second.
    ThreadCreate,
    Fence,
    /// The word at the first argument becomes the third where it is the second.
    AtomicCas,
    AtomicAdd,
    AtomicXchg,
    Malloc,
    Free,
    Exit,
}

/// A group of a switch: its numbers, whether it is the default, and the place of its first
/// statement among those of the switch.
#[derive(Drop)]
pub struct Group {
    pub numbers: Vec<u32>,
    pub is_default: bool,
    pub from: usize,
}

/// A statement. Calls, external calls and builtins put their answers into the temporary that comes
/// first; a function type is its number in the program's table.
#[cycle(statement)]
#[derive(Drop)]
pub enum Stmt {
    Skip,
    Set(usize, Expr),
    /// The chunk, the address and the value.
    Store(Chunk, Expr, Expr),
    /// The temporary, the function type of the callee, the callee and the arguments.
    Call(usize, usize, Expr, Vec<Expr>),
    /// The temporary, the name and the function type of the external function, and the arguments.
    External(usize, Name, usize, Vec<Expr>),
    Builtin(usize, Builtin, Vec<Expr>),
    Block(Rc<Stmts>),
    If(Expr, Rc<Stmt>, Rc<Stmt>),
    /// The first part, then the second, and again; `Continue` in the first part goes to the second.
    Loop(Rc<Stmt>, Rc<Stmt>),
    /// The statements of all groups in one list: each group runs on into the next.
    Switch(Expr, Vec<Group>, Rc<Stmts>),
    Break,
    Continue,
    Return(Option<Expr>),
}

/// A list of statements, of which each tail can be shared.
#[cycle(statement)]
pub enum Stmts {
    Nil,
    Cons(Rc<Stmt>, Rc<Stmts>),
}

/// A list is let go in a loop, up to a tail that has another owner: a block may be long.
impl Drop for Stmts {
    #[cycle(statement)]
    fn drop(mut self) {
        loop {
            match self {
                Stmts::Nil => return,
                Stmts::Cons(_, others) => match Rc::into_inner(others) {
                    Some(tail) => self = tail,
                    None => return,
                },
            }
        }
    }
}

/// What comes after a statement, up to the end of its function.
#[derive(Drop)]
pub enum Rest {
    Empty,
    /// The other statements of a block.
    List(Rc<Stmts>, Rc<Rest>),
    /// The first part of a loop is running.
    Body(Rc<Stmt>, Rc<Stmt>, Rc<Rest>),
    /// The second part of a loop is running.
    Step(Rc<Stmt>, Rc<Stmt>, Rc<Rest>),
    /// The statements of a switch are running.
    Switch(Rc<Rest>),
}
