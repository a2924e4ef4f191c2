//! What a thread offers to do next, what it is answered, and what a step of a machine gives.

use crate::Event;
use thiserror::Error;
use tso_words::{Chunk, Name, NoMemory, Val, Words};

/// An atomic read-modify-write of a word. `Cas` stores the desired value where the old one is the
/// expected one, `Add` the sum, `Xchg` the desired value.
#[derive(Clone, Copy, PartialEq, Eq, Debug)]
pub enum Atomic {
    Cas,
    Add,
    Xchg,
}

/// The next step of a thread, as its language gives it.
#[derive(PartialEq, Eq, Debug, Drop)]
pub enum Offer {
    /// A step of the thread's own, which touches nothing that is shared.
    Silent,
    Load {
        chunk: Chunk,
        addr: Val,
    },
    Store {
        chunk: Chunk,
        addr: Val,
        val: Val,
    },
    /// A new local object of `size` bytes, at an address that `align` divides.
    Place {
        size: u32,
        align: u32,
    },
    /// The end of the local object with this base and size.
    Lift {
        base: u32,
        size: u32,
    },
    Fence,
    /// `expected` is Undef where the kind is not `Cas`.
    Atomic {
        kind: Atomic,
        addr: Val,
        expected: Val,
        desired: Val,
    },
    /// A new heap block of `size` bytes.
    Malloc {
        size: Val,
    },
    /// The end of the heap block at `addr`.
    Free {
        addr: Val,
    },
    /// A new thread, which calls the function at `fun` with `arg`.
    Start {
        fun: Val,
        arg: Val,
    },
    /// A call of an external function.
    Call {
        name: Name,
        words: Words,
    },
    /// Waiting for the word that an external call returns.
    Wait,
    /// The end of the program, with a status.
    Exit {
        word: Val,
    },
    /// The end of the thread.
    End,
    /// The thread has gone wrong.
    Wrong,
}

/// What a thread is answered: the loaded, old or new value where its offer asks for one.
#[derive(Clone, Copy, PartialEq, Eq, Debug)]
pub enum Answer {
    Nothing,
    Value(Val),
}

/// Whether a machine still runs, or how it has stopped.
#[derive(Clone, Copy, PartialEq, Eq, Debug)]
pub enum Now {
    Running,
    Exited,
    Wrong,
    NoHeap,
}

/// What an enabled step gives: the event that it shows, and whether the machine runs after it.
#[derive(PartialEq, Eq, Debug, Drop)]
pub struct StepOut {
    pub event: Option<Event>,
    pub now: Now,
}

/// Why a machine made no step. It is as it was.
#[derive(Clone, Copy, PartialEq, Eq, Debug, Error)]
pub enum StepRefusal {
    /// The step is not enabled.
    #[error("not enabled")]
    NotEnabled,
    /// The allocator had no memory.
    #[error("no memory")]
    NoMemory,
}

impl From<NoMemory> for StepRefusal {
    ghost use Rattle.std.specs.Prelude.{◌≡◌};
    ghost use Rattle.tso_core.specs.declared.offer.StepRefusal.TheVariants as R;

    ghost from_gives = { λ _ e. e ≡ R.NoMemory };

    fn from(_: NoMemory) -> StepRefusal {
        StepRefusal::NoMemory
    }
}
