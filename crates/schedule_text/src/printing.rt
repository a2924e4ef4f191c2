//! The lines that a replay prints.

ghost use Rattle.std.specs.Prelude.{◌≡◌, ◌++◌, [], ◌∷◌, IfOk, OnOk, codes, decimal};
ghost use Rattle.schedule_text.specs.Printed.{end_text, event_text, events_text, not_a_run_text, replay_text, word_text, words_text};

use crate::played::{End, Replay};
use itoa::{Buffer, Integer};
use std::alloc::Global;
use tso_core::Event;
use tso_words::{Name, NoMemory, Words};

fn put(out: &mut Vec<u8>, bytes: &[u8]) -> Result<(), NoMemory>
    ensures { OnOk result (out.new.items ≡ out.old.items ++ bytes.now) }
{
    out.extend_from_slice(bytes)?;
    Ok(())
}

fn put_number<I: Integer>(out: &mut Vec<u8>, number: I) -> Result<(), NoMemory>
    ensures { OnOk result (out.new.items ≡ out.old.items ++ I.text number) }
{
    let mut buffer = Buffer::new();
    put(out, buffer.format(number).as_bytes())
}

fn put_word(out: &mut Vec<u8>, word: u32) -> Result<(), NoMemory>
    ensures { OnOk result (out.new.items ≡ out.old.items ++ word_text word) }
{
    put_number(out, word.cast_signed())
}

fn put_words(out: &mut Vec<u8>, words: &[u32]) -> Result<(), NoMemory>
    ensures { OnOk result (out.new.items ≡ out.old.items ++ words_text words.now) }
{
    let mut rest = words;
    while let [word, after @ ..] = rest {
        put(out, b" ")?;
        put_word(out, *word)?;
        rest = after;
    }
    Ok(())
}

fn put_call(out: &mut Vec<u8>, thread: u32, name: &Name, words: &Words) -> Result<(), NoMemory>
    ensures { OnOk result (out.new.items ≡ out.old.items ++ (codes "call " ++ decimal thread ++ codes " " ++ name.now ++ words_text words.now)) }
{
    put(out, b"call ")?;
    put_number(out, thread)?;
    put(out, b" ")?;
    put(out, name.bytes())?;
    put_words(out, words.list())
}

fn put_return(out: &mut Vec<u8>, thread: u32, word: u32) -> Result<(), NoMemory>
    ensures { OnOk result (out.new.items ≡ out.old.items ++ (codes "return " ++ decimal thread ++ codes " " ++ word_text word)) }
{
    put(out, b"return ")?;
    put_number(out, thread)?;
    put(out, b" ")?;
    put_word(out, word)
}

fn put_exit(out: &mut Vec<u8>, word: u32) -> Result<(), NoMemory>
    ensures { OnOk result (out.new.items ≡ out.old.items ++ (codes "exit " ++ word_text word)) }
{
    put(out, b"exit ")?;
    put_word(out, word)
}

fn put_event(out: &mut Vec<u8>, event: &Event) -> Result<(), NoMemory>
    ensures { OnOk result (out.new.items ≡ out.old.items ++ event_text event.now) }
{
    match event {
        Event::Call {
            thread,
            name,
            words,
        } => put_call(out, *thread, name, words)?,
        Event::Return { thread, word } => put_return(out, *thread, *word)?,
        Event::Exit { word } => put_exit(out, *word)?,
    }
    put(out, b"\n")
}

fn put_events(out: &mut Vec<u8>, events: &[Event]) -> Result<(), NoMemory>
    ensures { OnOk result (out.new.items ≡ out.old.items ++ events_text events.now) }
{
    let mut rest = events;
    while let [event, after @ ..] = rest {
        put_event(out, event)?;
        rest = after;
    }
    Ok(())
}

fn end_line(end: End) -> &'static [u8]
    ensures { result.now ≡ end_text end ++ 10 ∷ [] }
{
    match end {
        End::Running => b"end running\n",
        End::Exited => b"end exited\n",
        End::Wrong => b"end wrong\n",
        End::Fault => b"end fault\n",
        End::NoStack => b"end no stack\n",
        End::NoHeap => b"end no heap\n",
    }
}

/// The lines of a replay: one for each event, and that of its end.
pub fn print_replay(alloc: Global, r: &Replay) -> Result<Vec<u8>, NoMemory>
    ensures { IfOk result (λ text. text.items ≡ replay_text r.now.events.items r.now.end) }
{
    let mut out = Vec::new(alloc);
    put_events(&mut out, r.events.as_slice())?;
    put(&mut out, end_line(r.end))?;
    Ok(out)
}

/// The lines of a replay that stopped at a line of the schedule: one for each event before it, and
/// one that names the line.
pub fn print_not_a_run(alloc: Global, line: u64, before: &Replay) -> Result<Vec<u8>, NoMemory>
    ensures { IfOk result (λ text. text.items ≡ not_a_run_text line before.now.events.items) }
{
    let mut out = Vec::new(alloc);
    put_events(&mut out, before.events.as_slice())?;
    put(&mut out, b"not a run: line ")?;
    put_number(&mut out, line)?;
    put(&mut out, b"\n")?;
    Ok(out)
}
