//! Schedules: which steps a replay takes, line by line.

use thiserror::Error;
use tso_core::Step;

/// What one line of a schedule says. `Hold`, `Lazy` and `Auto` take at most `most` steps; they stop
/// behind a step that shows an event, and may take no step at all.
#[derive(Clone, Copy, PartialEq, Eq, Debug)]
pub enum Directive {
    /// One step, which has to be enabled.
    Step(Step),
    /// Runs of the thread, as long as they are enabled: nothing leaves its buffer.
    Hold { thread: u32, most: u64 },
    /// Runs of the thread, and a drain of its buffer only where no run is enabled.
    Lazy { thread: u32, most: u64 },
    /// Drains of the thread's buffer, and a run only where no drain is enabled.
    Auto { thread: u32, most: u64 },
}

/// A directive and the number of its line, from 1.
#[derive(Clone, Copy, PartialEq, Eq, Debug)]
pub struct Line {
    pub number: u64,
    pub what: Directive,
}

/// The directives of a text, in order.
#[derive(PartialEq, Eq, Debug, Drop)]
pub struct Schedule {
    pub lines: Vec<Line>,
}

/// Why a text was not read as a schedule.
#[derive(Clone, Copy, PartialEq, Eq, Debug, Error)]
pub enum ScheduleRefusal {
    /// The first line that is none of a schedule.
    #[error("bad schedule: line {line}")]
    BadSchedule { line: u64 },
    /// The allocator had no memory.
    #[error("no memory")]
    NoMemory,
}
