//! Functions.

use crate::statement::Stmts;
use std::rc::Rc;
use tso_core::placement::Room;
use tso_words::{Chunk, Name};

/// A memory parameter or local: an object that each call of its function places.
#[derive(Clone, Copy, PartialEq, Eq, Debug)]
pub struct Local {
    pub size: u32,
    pub align: u32,
}

/// A parameter that is a temporary: the number of the argument, and that of the temporary.
#[derive(Clone, Copy, PartialEq, Eq, Debug)]
pub struct Taken {
    pub argument: usize,
    pub temp: usize,
}

/// A parameter in memory: the number of the argument, that of the local which keeps it, and the
/// chunk in which it is stored.
#[derive(Clone, Copy, PartialEq, Eq, Debug)]
pub struct Kept {
    pub argument: usize,
    pub local: usize,
    pub chunk: Chunk,
}

/// A defined function. A call places its locals in order, stores the parameters that are in memory
/// in order, and runs the body, one block.
#[derive(Drop)]
pub struct Function {
    pub name: Name,
    /// The number of its type in the program's table.
    pub function_type: usize,
    /// How many parameters it has: each is taken or kept.
    pub parameters: usize,
    pub taken: Vec<Taken>,
    pub kept: Vec<Kept>,
    pub locals: Vec<Local>,
    /// How many temporaries it has.
    pub temps: usize,
    pub body: Rc<Stmts>,
    pub room: Room,
}
