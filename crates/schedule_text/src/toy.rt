//! A toy machine of two threads for the tests. What contracts see of it is its end alone.
ghost use Rattle.std.specs.Prelude.{◌≡◌};

use crate::{End, Replayed};
use tso_core::offer::StepRefusal;
use tso_core::{Event, Step};

/// What a thread of the toy does next.
#[derive(Clone, Copy)]
enum Move {
    Quiet,
    /// A store into the thread's buffer.
    Write,
    /// Enabled with an empty buffer alone.
    Fence,
    Show(u32),
    /// Takes a choice and shows it.
    Pick,
    Exit(u32),
}

#[derive(Drop)]
struct Thread {
    number: u32,
    moves: &'static [Move],
    buffered: u32,
}

/// Thread 0 writes, shows 1, fences, picks and exits with 7. Thread 1 shows -1 between two quiet
/// steps.
#[derive(Drop)]
pub struct Toy {
    first: Thread,
    second: Thread,
    end: End,
}

const FIRST: &[Move] = &[
    Move::Write,
    Move::Show(1),
    Move::Fence,
    Move::Pick,
    Move::Exit(7),
];

const SECOND: &[Move] = &[Move::Quiet, Move::Show(4_294_967_295), Move::Quiet];

impl Thread {
    // One run: what it shows, or None where it is not enabled.
    fn run(&mut self, choice: Option<u32>) -> Option<Option<Event>> {
        let [next, rest @ ..] = self.moves else {
            return None;
        };
        let thread = self.number;
        let shown = match (*next, choice) {
            (Move::Quiet, None) => None,
            (Move::Write, None) => {
                self.buffered = self.buffered.saturating_add(1);
                None
            }
            (Move::Fence, None) if self.buffered == 0 => None,
            (Move::Show(word), None) => Some(Event::Return { thread, word }),
            (Move::Pick, _) => Some(Event::Return {
                thread,
                word: choice.unwrap_or(0),
            }),
            (Move::Exit(word), None) => Some(Event::Exit { word }),
            _ => return None,
        };
        self.moves = rest;
        Some(shown)
    }

    fn drain(&mut self) -> bool {
        if self.buffered == 0 {
            return false;
        }
        self.buffered -= 1;
        true
    }
}

impl Toy {
    pub fn opened() -> Toy {
        Toy {
            first: Thread {
                number: 0,
                moves: FIRST,
                buffered: 0,
            },
            second: Thread {
                number: 1,
                moves: SECOND,
                buffered: 0,
            },
            end: End::Running,
        }
    }

    fn run(&mut self, thread: u32, choice: Option<u32>) -> Option<Option<Event>>
        ensures { self.new.end ≡ self.old.end }
    {
        match thread {
            0 => self.first.run(choice),
            1 => self.second.run(choice),
            _ => None,
        }
    }

    fn drain(&mut self, thread: u32) -> bool
        ensures { self.new.end ≡ self.old.end }
    {
        match thread {
            0 => self.first.drain(),
            1 => self.second.drain(),
            _ => false,
        }
    }
}

impl Replayed for Toy {
    ghost use Rattle.std.specs.Prelude.{Option};
    ghost use Rattle.tso_core.specs.declared.Event.{Event};
    ghost use Rattle.tso_core.specs.declared.Step.{Step};
    ghost use Rattle.schedule_text.specs.declared.played.End.{End};

    ghost State = { End };

    ghost state_of = { λ toy. toy.end };

    ghost steps = { λ a x o. Unit {0} };

    ghost end_of = { λ a. a };

    ghost is_ready = { λ toy. Unit {0} };

    fn step(&mut self, s: &Step) -> Result<Option<Event>, StepRefusal> {
        if self.end != End::Running {
            return Err(StepRefusal::NotEnabled);
        }
        match *s {
            Step::Run { thread, choice } => {
                let Some(shown) = self.run(thread, choice) else {
                    return Err(StepRefusal::NotEnabled);
                };
                if matches!(shown, Some(Event::Exit { .. })) {
                    self.end = End::Exited;
                }
                Ok(shown)
            }
            Step::Drain { thread } => {
                if self.drain(thread) {
                    Ok(None)
                } else {
                    Err(StepRefusal::NotEnabled)
                }
            }
        }
    }

    fn end(&self) -> End {
        self.end
    }
}
