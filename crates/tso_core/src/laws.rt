//! The laws of refinement. Each is the contract of a function with nothing in its body: a crate
//! above calls it where it has the refinements or the tie, and has the law's conclusion behind.

ghost use Rattle.std.specs.Prelude.{ℕ, ◌+◌, ◌*◌, ◌≢◌, List};
ghost use Rattle.tso_core.specs.declared.Step.{Step};
ghost use Rattle.tso_core.specs.Systems.{System, Places, Wrong, after};
ghost use Rattle.tso_core.specs.Matching.{Matches};
ghost use Rattle.tso_core.specs.Literal.{LiteralMatches};
ghost use Rattle.tso_core.specs.Refinement.{Refines};
ghost use Rattle.tso_core.specs.Ties.{Relation, IsMachineTie};
ghost use Rattle.tso_core.specs.Language.{Language};
ghost use Rattle.tso_core.specs.Machine.{open_machine, machine};
ghost use Rattle.tso_core.specs.Locals.{AreSafe};
ghost use Rattle.tso_core.specs.Theorem.{EveryRunMatched};
ghost use Rattle.tso_core.specs.Simulation.{ThreadSimulation};

use crate::language::ThreadLang;
use crate::traced::Traced;

/// Refinements compose, and their factors multiply.
pub fn refines_compose<P: Traced, Q: Traced, R: Traced>(
    p: &P::Program,
    q: &Q::Program,
    r: &R::Program,
)
    ensures { (j k : ℕ) → Refines (P.system p.now) (Q.system q.now) j → Refines (Q.system q.now) (R.system r.now) k → Refines (P.system p.now) (R.system r.now) (j * k) }
{}

/// A tie of the machines of two kinds of programs: a relation of their states, with a number for
/// each thread that stays below `bound`.
pub trait MachineTie {
    type Source;

    type Target;

    // The machines of the programs.
    ghost source: { Self.Source → System };

    ghost target: { Self.Target → System };

    // Which pairs of programs are tied.
    ghost IsPair: { Self.Source → Self.Target → Type 0 };

    // The states that are tied.
    ghost related: { (p : Self.Source) (q : Self.Target) → Relation (source p) (target q) };

    ghost bound: { ℕ };

    ghost tied: { (p : Self.Source) (q : Self.Target) → IsPair p q → IsMachineTie (source p) (target q) (related p q) bound };
}

/// A tie of machines gives refinement, with its bound as the factor.
pub fn tie_refines<T: MachineTie>(p: &T::Source, q: &T::Target)
    requires { T.IsPair p.now q.now }
    ensures { Refines (T.source p.now) (T.target q.now) T.bound }
{}

/// Matching gives its literal form, in which the pieces are cut at the first step that makes the
/// source wrong, wherever it stands in them.
pub fn matches_literally<P: Traced, Q: Traced>(p: &P::Program, q: &Q::Program)
    ensures { (pace : ℕ) (s : (P.system p.now).State) (t : (Q.system q.now).State) (steps : List Step) (pieces : List (List Step)) → (P.system p.now).status s ≢ Wrong → Matches (P.system p.now) (Q.system q.now) pace s t steps pieces → LiteralMatches (P.system p.now) (Q.system q.now) pace s t steps pieces }
{}

/// A simulation of the threads of two kinds of programs: a relation of their states at a placement,
/// with a number, at most `bound`, of Silent steps of the target in a row.
pub trait ThreadSim {
    type Source;

    type Target;

    // The states of their threads, and what the programs mean.
    ghost SourceState: { Type 0 };

    ghost TargetState: { Type 0 };

    ghost source: { Self.Source → Language SourceState };

    ghost target: { Self.Target → Language TargetState };

    // Which pairs of programs are tied.
    ghost IsPair: { Self.Source → Self.Target → Type 0 };

    // The states that are tied.
    ghost related: { Self.Source → Self.Target → Places → SourceState → TargetState → ℕ → Type 0 };

    ghost bound: { ℕ };

    ghost tied: { (p : Self.Source) (q : Self.Target) → IsPair p q → ThreadSimulation (source p) (target q) (related p q) bound };
}

/// A simulation of threads gives refinement of the machines. At most `bound` Silent steps of the
/// target in a row are answered by none of the source, so the factor is one more.
pub fn sim_lifts<S: ThreadSim>(p: &S::Source, q: &S::Target)
    requires { S.IsPair p.now q.now }
    ensures { Refines (machine (S.source p.now)) (machine (S.target q.now)) (S.bound + 1) }
{}

/// In each state that a run of a machine comes to, the oldest item of every buffer is safe to apply:
/// no live object meets a Place, and the object of a Lift is live.
pub fn locals_are_safe<L: ThreadLang>(p: &L::Program)
    ensures { (at : Places) (steps : List Step) → AreSafe (after (open_machine (L.language p.now)) ((open_machine (L.language p.now)).opening at) steps).shared }
{}

/// The compiler theorem follows from refinement, where the source is a program of a thread language
/// on its machine: every run of the target has pieces of the source that match it step by step, and
/// where the target wants heap or stack the source has the cause.
pub fn every_run_is_matched<L: ThreadLang, Q: Traced>(p: &L::Program, q: &Q::Program)
    ensures { (pace : ℕ) → Refines (machine (L.language p.now)) (Q.system q.now) pace → EveryRunMatched (machine (L.language p.now)) (Q.system q.now) pace }
{}
