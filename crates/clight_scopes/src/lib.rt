//! What names stand for at a place of a C file: the ordinary names of the file and of the blocks
//! that are open, and the tags.
#![tactic(auto)]

pub mod changes;
pub mod lookups;
pub mod scene;

pub use scene::{Block, BlockName, Entity, FileName, Scene, TagKind};
