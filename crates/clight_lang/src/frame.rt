//! Frames: the temporaries and placed objects of a call.

use tso_words::Val;

/// A memory parameter or local that has been placed.
#[derive(Clone, Copy, PartialEq, Eq, Debug)]
pub struct Placed {
    pub base: u32,
    pub size: u32,
}

/// The values of the temporaries of a call, and its memory parameters and locals that are placed,
/// each in order.
#[derive(Drop)]
pub struct Frame {
    pub temps: Vec<Val>,
    pub placed: Vec<Placed>,
}
