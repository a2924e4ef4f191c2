//! All that is known at a place of a file.

use clight_types::Types;
use indexmap::{IndexMap, IndexSet};
use tso_words::Name;

/// What an ordinary name of the file stands for. Types are by their numbers.
#[derive(Drop)]
pub enum Entity {
    /// An object, and its first bytes.
    Object {
        type_number: usize,
        is_defined: bool,
        start: Vec<u8>,
    },
    Function {
        type_number: usize,
        is_static: bool,
        is_defined: bool,
    },
    /// The value of an enumeration constant.
    Enumerator(u32),
    Typedef(usize),
    /// A builtin that the file declares.
    Builtin {
        is_static: bool,
    },
}

/// What a name of the file stands for, and the place of its first declaration.
#[derive(Drop)]
pub struct FileName {
    pub at: u32,
    pub entity: Entity,
}

/// A name of a block or a parameter list: its type, and its number among the parameters and locals
/// of the function that is defined. A parameter of a declaration has none.
#[derive(Clone, Copy, PartialEq, Eq, Debug)]
pub struct BlockName {
    pub type_number: usize,
    pub local: Option<usize>,
}

/// A block or a parameter list.
#[derive(Drop)]
pub struct Block {
    pub names: IndexMap<Name, BlockName>,
}

/// What a tag stands for: a struct by its number, and whether its body has begun, or an enum.
#[derive(Clone, Copy, PartialEq, Eq, Debug)]
pub enum TagKind {
    Struct(usize, bool),
    Enum,
}

/// All that is known at a place of a file.
#[derive(Drop)]
pub struct Scene {
    pub types: Types,
    pub tags: IndexMap<Name, TagKind>,
    /// The file's names, in order of first declaration.
    pub file: IndexMap<Name, FileName>,
    /// The blocks that are open, the outermost first.
    pub blocks: Vec<Block>,
    /// The types of the parameters and locals of the function that is defined, in order.
    pub locals: Vec<usize>,
    /// Those of them whose address it takes.
    pub addressed: Vec<usize>,
    pub in_body: bool,
    /// The functions that the file defines anywhere.
    pub defined: IndexSet<Name>,
}
