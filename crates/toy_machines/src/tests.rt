//! Each offer of the machine, and each refusal. A row is a step, what it shows, and whether the
//! machine runs after it.

use crate::opened::script_machine;
use crate::script::{Deed, Script};
use std::alloc::Global;
use std::process::Abort;
use std::test::Fail;
use tso_core::offer::{Now, StepOut, StepRefusal};
use tso_core::{Event, Step};

/// What a step shows.
#[derive(Clone, Copy, PartialEq, Eq, Debug)]
enum Shown {
    Nothing,
    Call(u32),
    Return(u32, u32),
    Exit(u32),
}

type Outcome = Result<(Shown, Now), StepRefusal>;

const GOES: Outcome = Ok((Shown::Nothing, Now::Running));

const GOES_WRONG: Outcome = Ok((Shown::Nothing, Now::Wrong));

const WANTS_HEAP: Outcome = Ok((Shown::Nothing, Now::NoHeap));

const REFUSED: Outcome = Err(StepRefusal::NotEnabled);

fn exits(word: u32) -> Outcome {
    Ok((Shown::Exit(word), Now::Exited))
}

fn run(thread: u32) -> Step {
    Step::Run {
        thread,
        choice: None,
    }
}

fn run_at(thread: u32, choice: u32) -> Step {
    Step::Run {
        thread,
        choice: Some(choice),
    }
}

fn drain(thread: u32) -> Step {
    Step::Drain { thread }
}

fn shown_by(event: &Option<Event>) -> Shown {
    match event {
        None => Shown::Nothing,
        Some(Event::Call { thread, .. }) => Shown::Call(*thread),
        Some(Event::Return { thread, word }) => Shown::Return(*thread, *word),
        Some(Event::Exit { word }) => Shown::Exit(*word),
    }
}

fn outcome(made: Result<StepOut, StepRefusal>) -> Outcome {
    match made {
        Ok(out) => Ok((shown_by(&out.event), out.now)),
        Err(e) => Err(e),
    }
}

/// Plays the rows on the machine of a script.
fn play(
    rt: &impl Abort,
    alloc: Global,
    deeds: &[Deed],
    rows: &[(Step, Outcome)],
) -> Result<(), Fail> {
    let script = Script::made(alloc, deeds.to_vec(alloc)?)?;
    let mut machine = script_machine(alloc, &script)?;
    for (step, expected) in rows {
        let found = outcome(machine.step(step));
        assert!(rt; found == *expected);
    }
    Ok(())
}

#[test]
fn stores_wait_and_drain(rt: HostRuntime) -> Result<(), Fail> {
    let deeds = [
        Deed::Store(0x2000_0000, 9),
        Deed::Load(0x2000_0000),
        Deed::Fence,
        Deed::Store(0x2000_0004, 3),
        Deed::Swap(0x2000_0000, 1),
        Deed::Exit,
    ];
    let rows = [
        (run_at(0, 1), REFUSED),
        (drain(0), REFUSED),
        (run(1), REFUSED),
        (run(0), GOES),
        (run_at(0, 0), REFUSED),
        (run(0), GOES),
        (run(0), REFUSED),
        (drain(0), GOES),
        (drain(0), REFUSED),
        (run(0), GOES),
        (run(0), GOES),
        (run(0), REFUSED),
        (drain(0), GOES),
        (run(0), GOES),
        (run(0), exits(9)),
        (run(0), REFUSED),
        (drain(0), REFUSED),
    ];
    play(&rt, rt.alloc(), &deeds, &rows)
}

#[test]
fn globals_begin_with_their_bytes(rt: HostRuntime) -> Result<(), Fail> {
    let at_start = [(run(0), GOES), (run(0), exits(7))];
    let behind = [(run(0), GOES), (run(0), exits(0))];
    let wrong = [(run(0), GOES_WRONG), (run(0), REFUSED), (drain(0), REFUSED)];
    let alloc = rt.alloc();
    play(
        &rt,
        alloc,
        &[Deed::Load(0x2000_0000), Deed::Exit],
        &at_start,
    )?;
    play(&rt, alloc, &[Deed::Load(0x2000_0004), Deed::Exit], &behind)?;
    play(&rt, alloc, &[Deed::Load(0x2000_0008)], &wrong)?;
    play(&rt, alloc, &[Deed::Load(0x2000_0002)], &wrong)?;
    play(&rt, alloc, &[Deed::Swap(0x2000_0008, 1)], &wrong)?;
    play(&rt, alloc, &[Deed::Wrong], &wrong)
}

#[test]
fn blocks_of_the_heap(rt: HostRuntime) -> Result<(), Fail> {
    let alloc = rt.alloc();
    let given = [
        (run(0), GOES),
        (run_at(0, 0x3000_0000), REFUSED),
        (run_at(0, 0x3000_0018), REFUSED),
        (run(0), GOES),
        (run_at(0, 0x3000_0010), REFUSED),
        (run(0), exits(0x3000_0010)),
    ];
    play(
        &rt,
        alloc,
        &[Deed::Malloc(4), Deed::Malloc(0), Deed::Exit],
        &given,
    )?;
    let freed = [(run(0), GOES), (run(0), GOES), (run(0), GOES_WRONG)];
    let twice = [
        Deed::Malloc(4),
        Deed::Free(0x3000_0000),
        Deed::Free(0x3000_0000),
    ];
    play(&rt, alloc, &twice, &freed)?;
    play(
        &rt,
        alloc,
        &[Deed::Free(0x2000_0000)],
        &[(run(0), GOES_WRONG)],
    )?;
    play(
        &rt,
        alloc,
        &[Deed::Malloc(4)],
        &[(run_at(0, 0), WANTS_HEAP), (run(0), REFUSED)],
    )?;
    let unknown = [(run_at(0, 0x3000_0000), REFUSED), (run(0), GOES_WRONG)];
    play(&rt, alloc, &[Deed::MallocUnknown], &unknown)
}

#[test]
fn locals_wait_in_the_buffers(rt: HostRuntime) -> Result<(), Fail> {
    let alloc = rt.alloc();
    let again = [
        (run_at(0, 0x9000_0002), REFUSED),
        (run_at(0, 0x8FFF_FFFC), REFUSED),
        (run(0), GOES),
        (run(0), GOES),
        (run(0), GOES),
        (run(0), exits(0x9000_0000)),
    ];
    let deeds = [Deed::Place, Deed::Lift, Deed::Place, Deed::Exit];
    play(&rt, alloc, &deeds, &again)?;
    let others = [
        (run_at(0, 1), REFUSED),
        (run(0), GOES),
        (run(1), GOES),
        (run(0), GOES),
        (run_at(1, 0x9000_0000), REFUSED),
        (drain(0), GOES),
        (run_at(1, 0x9000_0000), REFUSED),
        (run(1), GOES),
        (run(1), exits(0x9000_0010)),
    ];
    play(
        &rt,
        alloc,
        &[Deed::Start(1), Deed::Place, Deed::Exit],
        &others,
    )
}

#[test]
fn threads_and_the_outside(rt: HostRuntime) -> Result<(), Fail> {
    let alloc = rt.alloc();
    let numbered = [(run(0), GOES), (run(0), exits(1))];
    play(&rt, alloc, &[Deed::Start(1), Deed::Exit], &numbered)?;
    play(&rt, alloc, &[Deed::Start(2)], &[(run(0), GOES_WRONG)])?;
    play(&rt, alloc, &[Deed::Exit], &[(run(0), GOES_WRONG)])?;
    let ended = [
        (run_at(0, 0), REFUSED),
        (run(0), GOES),
        (run(0), GOES),
        (run(0), REFUSED),
    ];
    play(&rt, alloc, &[Deed::Silent], &ended)?;
    let answered = [
        (run_at(0, 5), REFUSED),
        (run(0), Ok((Shown::Call(0), Now::Running))),
        (run_at(0, 5), Ok((Shown::Return(0, 5), Now::Running))),
        (run(0), exits(5)),
    ];
    play(&rt, alloc, &[Deed::Call, Deed::Wait, Deed::Exit], &answered)?;
    let by_default = [
        (run(0), Ok((Shown::Return(0, 0), Now::Running))),
        (run(0), exits(0)),
    ];
    play(&rt, alloc, &[Deed::Wait, Deed::Exit], &by_default)
}
