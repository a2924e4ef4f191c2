//! Programs.

use crate::function::Function;
use std::rc::Rc;
use tso_core::placement::Globals;
use tso_words::Name;

/// The weight of a function is at most so many times its nodes in the C file.
pub const GROWTH: u32 = 9;

/// An external function, and the number of its type.
#[derive(Drop)]
pub struct External {
    pub name: Name,
    pub function_type: usize,
}

/// A program. A function type is its number in the table `types`, which has the number of its
/// parameters.
#[derive(Drop)]
pub struct Program {
    /// The names of the defined functions, and the globals, each in order of first declaration.
    pub globals: Globals,
    pub main: Rc<Function>,
    /// The defined functions, main among them.
    pub functions: Vec<Rc<Function>>,
    pub externals: Vec<External>,
    pub types: Vec<usize>,
    /// The type `void (void *)`, which is that of a thread's function, where it is in the table.
    pub thread_type: Option<usize>,
}
