//! Steps and events of machines, what it is that one machine shows no more than another, and the
//! laws by which this is proved of whole machines: by ties, by simulations of threads, and by
//! composition.
#![tactic(auto)]

pub mod language;
pub mod laws;
pub mod offer;
pub mod placement;
pub mod traced;

use tso_words::{Name, Words};

/// One atomic step of a machine.
#[derive(Clone, Copy, PartialEq, Eq, Debug)]
pub enum Step {
    /// Thread `thread` does one step of its own, with a choice where the step takes one; `None` is
    /// the default choice.
    Run { thread: u32, choice: Option<u32> },
    /// The oldest item of the buffer of thread `thread` reaches memory.
    Drain { thread: u32 },
}

/// What a step shows to the outside.
#[derive(PartialEq, Eq, Debug, Drop)]
pub enum Event {
    /// A thread calls the external function `name` with these words.
    Call {
        thread: u32,
        name: Name,
        words: Words,
    },
    /// An external call gives the thread this word.
    Return {
        thread: u32,
        word: u32,
    },
    /// The program ended with this word.
    Exit {
        word: u32,
    },
}
