//! Thread languages: how a program's threads begin, what they offer and how they go on.

ghost use Rattle.std.specs.Prelude.{◌≡◌, IfOk, OnOk, OnErr};
ghost use Rattle.std.specs.Option.{option_map};
ghost use Rattle.tso_core.specs.Language.{Language, Takes, IsLawful};
ghost use Rattle.tso_core.specs.Runs.{IsProper};
ghost use Rattle.tso_core.specs.Stated.{globals_of};

use crate::offer::{Answer, Offer};
use crate::placement::{Globals, Placement};
use std::alloc::Global;
use tso_words::{NoMemory, Val};

/// A language whose threads run on the machine. Its meaning is the member `language`: functions on
/// the states that threads stand for. Each call is its function there, at every placement that is
/// proper for the program.
pub trait ThreadLang {
    type Program;

    type Thread: Drop;

    // What a thread stands for, and what a program means.
    ghost State: { Type 0 };

    ghost state_of: { Self.Thread → State };

    ghost language: { Self.Program → Language State };

    /// The defined functions and the globals of a program.
    fn globals(p: &Self::Program) -> &Globals
        ensures { globals_of result.now ≡ (language p.now).globals };

    /// The thread of main.
    fn first(alloc: Global, p: &Self::Program, at: &Placement) -> Result<Self::Thread, NoMemory>
        requires { IsProper (language p.now).globals at.now }
        ensures { IfOk result (λ t. state_of t ≡ (language p.now).first at.now) };

    /// A thread that calls the function at `fun` with `arg`; `None` where no function with one
    /// parameter, a pointer to void, and no result is there.
    fn started(
        alloc: Global,
        p: &Self::Program,
        at: &Placement,
        fun: Val,
        arg: Val,
    ) -> Result<Option<Self::Thread>, NoMemory>
        requires { IsProper (language p.now).globals at.now }
        ensures { IfOk result (λ o. option_map state_of o ≡ (language p.now).started at.now fun arg) };

    /// What a thread does next.
    fn offer(
        alloc: Global,
        p: &Self::Program,
        at: &Placement,
        t: &Self::Thread,
    ) -> Result<Offer, NoMemory>
        requires { IsProper (language p.now).globals at.now }
        ensures { IfOk result (λ o. o ≡ (language p.now).offer at.now (state_of t.now)) };

    /// The thread goes on with an answer that its offer takes. After want of memory it is as it was.
    fn resume(
        alloc: Global,
        p: &Self::Program,
        at: &Placement,
        t: &mut Self::Thread,
        a: Answer,
    ) -> Result<(), NoMemory>
        requires proper { IsProper (language p.now).globals at.now }
        requires takes { Takes ((language p.now).offer at.now (state_of t.old)) a }
        ensures ok { OnOk result (state_of t.new ≡ (language p.now).resumed at.now (state_of t.old) a) }
        ensures err { OnErr result (state_of t.new ≡ state_of t.old) };

    ghost lawful: { (p : Self.Program) → IsLawful (language p) };
}
