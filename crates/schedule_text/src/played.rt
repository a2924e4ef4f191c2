//! What a replay gives.

use thiserror::Error;
use tso_core::Event;

/// Whether a machine still runs behind a replay, or how it ended.
#[derive(Clone, Copy, PartialEq, Eq, Debug)]
pub enum End {
    Running,
    Exited,
    /// The source has no meaning from there on.
    Wrong,
    /// The target did what has no meaning.
    Fault,
    NoStack,
    NoHeap,
}

/// The events of a replay in order, the number of its steps, and the machine's end. The number
/// stays at the last value of its type where there are more.
#[derive(PartialEq, Eq, Debug, Drop)]
pub struct Replay {
    pub events: Vec<Event>,
    pub taken: u64,
    pub end: End,
}

/// Why a schedule was not played to its end.
#[derive(PartialEq, Eq, Debug, Drop, Error)]
pub enum ReplayRefusal {
    /// The step of this line is not enabled; the replay of the lines before it.
    #[error("not a run: line {line}")]
    NotARun { line: u64, before: Replay },
    /// The allocator had no memory.
    #[error("no memory")]
    NoMemory,
}
