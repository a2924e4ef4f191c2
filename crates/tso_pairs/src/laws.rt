//! Laws of paired buffers, of drains and of lagging threads. Each is the contract of a function with
//! nothing in its body: a crate above calls it, and has the law's conclusion behind.

ghost use Rattle.std.specs.Prelude.{◌≡◌, ℕ, ◌+◌};
ghost use Rattle.tso_core.specs.Systems.{Places, runs_of};
ghost use Rattle.tso_core.specs.Language.{Language};
ghost use Rattle.tso_core.specs.Machine.{machine};
ghost use Rattle.tso_core.specs.Refinement.{Refines};
ghost use Rattle.tso_core.specs.Simulation.{ThreadSimulation};
ghost use Rattle.tso_pairs.specs.Draining.{drains, FrontDrains, WrongFrontDrains};
ghost use Rattle.tso_pairs.specs.Growing.{GroupsGrow};
ghost use Rattle.tso_pairs.specs.Groups.{Pairing, KeepsPair, ViewsPaired, DrainsPaired, PutsPaired, NoPutAlone};
ghost use Rattle.tso_pairs.specs.Answering.{DrainsAnswered, EmptiesAnswered};
ghost use Rattle.tso_pairs.specs.Lagging.{CoreSimulation, LagsWith};
ghost use Rattle.tso_pairs.specs.Rightness.{MoreObjectsKeepRight, StoreKeepsObjects, NewObjectKeepsObjects, PlaceKeepsObjects, PushKeepsRight, DrainKeepsRight};

use tso_core::language::ThreadLang;

/// How a pass relates the buffers of a thread on the machines of its input and its output: by
/// groups of items, each of which keeps the two memories related.
pub trait Pairs {
    ghost pairing: { Pairing };

    ghost keeps: { KeepsPair pairing };
}

/// The views of a thread behind its two buffers are related, so its loads find related values.
pub fn views_are_paired<P: Pairs>()
    ensures { ViewsPaired P.pairing }
{}

/// A drain of the output's oldest item takes off the groups up to the one that has the item: behind
/// them the memories are related again, and the groups that are left have what they ask.
pub fn drains_are_paired<P: Pairs>()
    ensures { DrainsPaired P.pairing }
{}

/// A further group may stand behind those that wait, where the input's memory has what it asks in
/// the view of the thread.
pub fn groups_grow<P: Pairs>()
    ensures { GroupsGrow P.pairing }
{}

/// Where each group with a Put of the input has one of the output, the input has a Put in its
/// buffer only where the output has one.
pub fn no_put_is_alone<P: Pairs>()
    ensures { PutsPaired P.pairing → NoPutAlone P.pairing }
{}

/// The front of a thread's buffer drains to its view, by steps that show nothing, where it is right.
pub fn front_drains<L: ThreadLang>(p: &L::Program)
    ensures { FrontDrains (L.language p.now) }
{}

/// Where the front of a thread's buffer is not right, drains that show nothing make the machine
/// wrong.
pub fn wrong_front_drains<L: ThreadLang>(p: &L::Program)
    ensures { WrongFrontDrains (L.language p.now) }
{}

/// What keeps the stores of a buffer right in their turn: a thread's own right items and its drains;
/// and of what others do, all that takes no object away. Only the drain of a Lift and `free` do.
pub fn rightness_is_kept()
    ensures more_objects { MoreObjectsKeepRight }
    ensures stores { StoreKeepsObjects }
    ensures new_objects { NewObjectKeepsObjects }
    ensures places { PlaceKeepsObjects }
    ensures pushes { PushKeepsRight }
    ensures drains { DrainKeepsRight }
{}

/// A drain of the output's machine is answered by drains of the input's that show nothing and lead
/// to related memories and paired buffers again, or by drains that make the input's machine wrong.
pub fn drains_are_answered<L: ThreadLang, P: Pairs>(p: &L::Program)
    ensures { DrainsAnswered (L.language p.now) P.pairing }
{}

/// Where the output's buffer is empty, drains that show nothing empty the input's and lead to
/// related memories, or make the input's machine wrong.
pub fn empty_buffers_are_answered<L: ThreadLang, P: Pairs>(p: &L::Program)
    ensures { EmptiesAnswered (L.language p.now) P.pairing }
{}

/// Drains are runs of no thread, so they cost no pace.
pub fn drains_are_no_runs()
    ensures { (i j count : ℕ) → runs_of j (drains i count) ≡ 0 }
{}

/// A simulation of the threads of two kinds of programs by a relation of the places where they
/// meet. From there the first may lag behind by Silent steps, and the measure bounds how many
/// Silent steps of the second in a row are answered by none.
pub trait LaggingSim {
    type Source;

    type Target;

    // The states of their threads, and what the programs mean.
    ghost SourceState: { Type 0 };

    ghost TargetState: { Type 0 };

    ghost source: { Self.Source → Language SourceState };

    ghost target: { Self.Target → Language TargetState };

    // Which pairs of programs are tied.
    ghost IsPair: { Self.Source → Self.Target → Type 0 };

    // The states that meet, and the measure.
    ghost core: { Self.Source → Self.Target → Places → SourceState → TargetState → Type 0 };

    ghost measure: { Self.Source → Self.Target → Places → SourceState → TargetState → ℕ };

    ghost bound: { ℕ };

    ghost tied: { (p : Self.Source) (q : Self.Target) → IsPair p q → CoreSimulation (source p) (target q) (core p q) (measure p q) bound };
}

/// What such a simulation gives is a simulation of threads, by the relation with its lags.
pub fn lagging_simulates<S: LaggingSim>(p: &S::Source, q: &S::Target)
    requires { S.IsPair p.now q.now }
    ensures { ThreadSimulation (S.source p.now) (S.target q.now) (LagsWith (S.source p.now) (S.target q.now) (S.core p.now q.now) (S.measure p.now q.now) S.bound) S.bound }
{}

/// So it gives refinement of the machines.
pub fn lagging_lifts<S: LaggingSim>(p: &S::Source, q: &S::Target)
    requires { S.IsPair p.now q.now }
    ensures { Refines (machine (S.source p.now)) (machine (S.target q.now)) (S.bound + 1) }
{}
