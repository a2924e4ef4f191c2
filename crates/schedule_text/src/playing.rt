//! Replays of schedules, over any machine.

ghost use Rattle.std.specs.Prelude.{◌≡◌, ◌∷◌, [], OnOk, ℕ, Option};
ghost use Rattle.schedule_text.specs.Stepping.{Gives};
ghost use Rattle.schedule_text.specs.Playing.{LineGives, Logs, TriesOf};
ghost use Rattle.schedule_text.specs.Plays.{FirstOf, IsBurst, Replays};

use crate::played::{End, Replay, ReplayRefusal};
use crate::schedule::{Directive, Schedule};
use std::alloc::{AllocError, Global};
use tso_core::offer::StepRefusal;
use tso_core::{Event, Step};
use tso_words::NoMemory;

/// A machine with its program, as a replay sees it: what a step gives at a state, and how the
/// machine ends. A step without a choice has its default choice here.
pub trait Replayed {
    ghost use Rattle.std.specs.Prelude.{Option};
    ghost use Rattle.tso_core.specs.declared.Event.{Event};
    ghost use Rattle.tso_core.specs.declared.Step.{Step};
    ghost use Rattle.schedule_text.specs.declared.played.End.{End};
    ghost use Rattle.schedule_text.specs.Stepping.{Gives};

    // The states of the machine with its program, and that of a value.
    ghost State: { Type 0 };

    ghost state_of: { Self → State };

    // What a step gives: the event that it shows and the state after it; None where it is not
    // enabled.
    ghost steps: { State → Step → Option (Option Event × State) → Type 0 };

    ghost end_of: { State → End };

    // What the machine keeps, so that it can make steps.
    ghost is_ready: { Self → Type 0 };

    /// One step. After a refusal the machine is as it was.
    fn step(&mut self, s: &Step) -> Result<Option<Event>, StepRefusal>
        requires { is_ready self.old }
        ensures gives { Gives (λ a o. steps a s.now o) (state_of self.old) (state_of self.new) result }
        ensures ready { is_ready self.new };

    /// Whether the machine runs, or how it ended.
    fn end(&self) -> End
        ensures { result ≡ end_of (state_of self.now) };
}

// The events of a replay so far, and the number of its steps.
#[derive(Drop)]
struct Log {
    events: Vec<Event>,
    taken: u64,
}

// How a line that plays several steps goes on.
#[derive(Clone, Copy)]
enum Way {
    Hold,
    Lazy,
    Auto,
}

impl Log {
    ghost use Rattle.std.specs.Prelude.{◌≡◌, ◌∷◌, [], OnOk};
    ghost use Rattle.schedule_text.specs.Playing.{Adds};

    fn add(&mut self, event: Option<Event>) -> Result<(), NoMemory>
        ensures { OnOk result (Adds (event ∷ []) self.old self.new) }
    {
        if let Some(event) = event {
            match self.events.push(event) {
                Ok(()) => {}
                Err(failed) => return Err(AllocError::from(failed).into()),
            }
        }
        self.taken = self.taken.saturating_add(1);
        Ok(())
    }

    fn replay(self, end: End) -> Replay
        ensures { (result.events.items ≡ self.events.items) × (result.taken ≡ self.taken) × (result.end ≡ end) }
    {
        let Log { events, taken } = self;
        Replay { events, taken, end }
    }
}

// Makes the first of two steps that is enabled.
fn first_of<M: Replayed>(
    machine: &mut M,
    first: &Step,
    second: &Step,
) -> Result<Option<Event>, StepRefusal>
    requires { M.is_ready machine.old }
    ensures gives { Gives (FirstOf M.steps first.now second.now) (M.state_of machine.old) (M.state_of machine.new) result }
    ensures ready { M.is_ready machine.new }
{
    match machine.step(first) {
        Ok(event) => Ok(event),
        Err(StepRefusal::NotEnabled) => machine.step(second),
        Err(StepRefusal::NoMemory) => Err(StepRefusal::NoMemory),
    }
}

// Makes one try of a line that plays several steps.
fn attempt<M: Replayed>(
    machine: &mut M,
    way: Way,
    thread: u32,
) -> Result<Option<Event>, StepRefusal>
    requires { M.is_ready machine.old }
    ensures gives { Gives (TriesOf M.steps way thread) (M.state_of machine.old) (M.state_of machine.new) result }
    ensures ready { M.is_ready machine.new }
{
    let run = Step::Run {
        thread,
        choice: None,
    };
    let drain = Step::Drain { thread };
    match way {
        Way::Hold => machine.step(&run),
        Way::Lazy => first_of(machine, &run, &drain),
        Way::Auto => first_of(machine, &drain, &run),
    }
}

// Plays a line of at most so many steps.
fn burst<M: Replayed>(
    machine: &mut M,
    way: Way,
    thread: u32,
    most: u64,
    log: &mut Log,
) -> Result<(), NoMemory>
    requires { M.is_ready machine.old }
    ensures ok { OnOk result (Logs (IsBurst (TriesOf M.steps way thread) most (M.state_of machine.old) (M.state_of machine.new)) log.old log.new) }
    ensures ready { M.is_ready machine.new }
{
    for _turn in 0..most {
        match attempt(machine, way, thread) {
            Ok(event) => {
                let is_shown = event.is_some();
                log.add(event)?;
                if is_shown {
                    return Ok(());
                }
            }
            Err(StepRefusal::NotEnabled) => return Ok(()),
            Err(StepRefusal::NoMemory) => return Err(NoMemory),
        }
    }
    Ok(())
}

// Plays one line. `NotEnabled` comes of a line that is one step alone.
fn play_line<M: Replayed>(
    machine: &mut M,
    what: &Directive,
    log: &mut Log,
) -> Result<(), StepRefusal>
    requires { M.is_ready machine.old }
    ensures gives { LineGives M.steps what.now (M.state_of machine.old) (M.state_of machine.new) log.old log.new result }
    ensures ready { M.is_ready machine.new }
{
    match what {
        Directive::Step(step) => match machine.step(step) {
            Ok(event) => log.add(event)?,
            Err(refusal) => return Err(refusal),
        },
        Directive::Hold { thread, most } => burst(machine, Way::Hold, *thread, *most, log)?,
        Directive::Lazy { thread, most } => burst(machine, Way::Lazy, *thread, *most, log)?,
        Directive::Auto { thread, most } => burst(machine, Way::Auto, *thread, *most, log)?,
    }
    Ok(())
}

/// Plays a schedule on a machine: its replay, or the first line whose step is not enabled with the
/// replay of the lines before it. The machine is left at the state behind these steps; after
/// `NoMemory` it may be at any state on the way.
pub fn replay<M: Replayed>(
    alloc: Global,
    machine: &mut M,
    s: &Schedule,
) -> Result<Replay, ReplayRefusal>
    requires { M.is_ready machine.old }
    ensures plays { Replays M.steps M.end_of s.now.lines.items (M.state_of machine.old) (M.state_of machine.new) result }
    ensures ready { M.is_ready machine.new }
{
    let mut log = Log {
        events: Vec::new(alloc),
        taken: 0,
    };
    for line in &s.lines {
        match play_line(machine, &line.what, &mut log) {
            Ok(()) => {}
            Err(StepRefusal::NotEnabled) => {
                return Err(ReplayRefusal::NotARun {
                    line: line.number,
                    before: log.replay(machine.end()),
                });
            }
            Err(StepRefusal::NoMemory) => return Err(ReplayRefusal::NoMemory),
        }
    }
    Ok(log.replay(machine.end()))
}
