//! Machines with their programs, as the laws of refinement see them.

ghost use Rattle.tso_core.specs.Systems.{System};
ghost use Rattle.tso_core.specs.Machine.{machine};

use crate::language::ThreadLang;
use std::marker::PhantomData;

/// A machine that runs programs of one kind. What refinement speaks of is the member `system`: the
/// machine's states, its steps with the events that they show, and what is seen of a state.
pub trait Traced {
    type Program;

    ghost system: { Self.Program → System };
}

/// The machine over a thread language, for the laws alone: nothing of it runs.
pub struct Threaded<L: ThreadLang> {
    language: PhantomData<L>,
}

impl<L: ThreadLang> Traced for Threaded<L> {
    type Program = L::Program;

    ghost system = { λ p. machine (L.language p) };
}
