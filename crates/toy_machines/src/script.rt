//! Scripts: a thread language in which each offer of the machine can be tried.

ghost use Rattle.std.specs.Prelude.{◌≡◌, ◌≢◌, ◌+◌, IfOk, slice_get, length, nat_lt, if◌then◌else◌};
ghost use Rattle.tso_core.specs.Stated.{globals_of};
ghost use Rattle.toy_machines.specs.declared.script.Thread.{Thread};
ghost use Rattle.toy_machines.specs.Meaning.{language, lawful, offers, local_after, value_after, place_offer, lift_offer, x_alone};

use std::alloc::Global as Heap;
use std::marker::Model;
use tso_core::language::ThreadLang;
use tso_core::offer::{Answer, Atomic, Offer};
use tso_core::placement::{Global, Globals, Placement};
use tso_words::{Chunk, Name, NoMemory, Val, Words};

/// What a thread does in one step.
#[derive(Clone, Copy, PartialEq, Eq, Debug)]
pub enum Deed {
    Silent,
    /// Loads the word at an address.
    Load(u32),
    /// Stores a word at an address.
    Store(u32, u32),
    /// A local of 4 bytes begins, where the thread has none.
    Place,
    /// The local ends, where the thread has one.
    Lift,
    Fence,
    /// Exchanges the word at an address with another.
    Swap(u32, u32),
    Malloc(u32),
    /// Asks for a block of a size that is not known.
    MallocUnknown,
    Free(u32),
    /// Starts a thread, which does the same script, where the address is 1.
    Start(u32),
    Call,
    Wait,
    /// Ends the program with the value that was answered last.
    Exit,
    Wrong,
}

/// A thread: the place of its next deed, the base of its local, and the value that it was answered
/// last.
#[derive(Clone, Copy, PartialEq, Eq, Debug)]
pub struct Thread {
    pub next: usize,
    pub local: Option<u32>,
    pub value: Val,
}

/// A script. Contracts see it as its deeds.
#[derive(Drop)]
pub struct Script {
    globals: Globals,
    deeds: Vec<Deed>,
}

impl Model for Script {
    ghost use Rattle.std.specs.Prelude.{◌≡◌, List};
    ghost use Rattle.tso_core.specs.Stated.{globals_of};
    ghost use Rattle.toy_machines.specs.declared.script.Deed.{Deed};
    ghost use Rattle.toy_machines.specs.Meaning.{x_alone};

    ghost Value = { List Deed };

    ghost view = { λ s. s.deeds.items };

    ghost invariant = { λ s. globals_of s.globals ≡ x_alone };
}

/// The global of every script: 8 bytes, the first of which is 7.
fn x_alone(alloc: Heap) -> Result<Globals, NoMemory>
    ensures { IfOk result (λ g. globals_of g ≡ x_alone) }
{
    let name = Name::made(alloc, b"x")?;
    let start = [7].to_vec(alloc)?;
    let mut objects = Vec::new(alloc);
    let x = Global {
        name,
        size: 8,
        align: 4,
        start,
    };
    match objects.push(x) {
        Ok(()) => Ok(Globals {
            functions: Vec::new(alloc),
            objects,
        }),
        Err(_) => Err(NoMemory),
    }
}

impl Script {
    /// The script of these deeds.
    pub fn made(alloc: Heap, deeds: Vec<Deed>) -> Result<Script, NoMemory>
        ensures { IfOk result (λ s. s ≡ deeds.items) }
    {
        let globals = x_alone(alloc)?;
        Ok(Script { globals, deeds })
    }

    /// The deed at a place.
    fn deed(&self, k: usize) -> Option<Deed>
        ensures { result ≡ slice_get self.now k }
    {
        self.deeds.get(k).copied()
    }

    /// How many deeds there are.
    fn count(&self) -> usize
        ensures { result ≡ length self.now }
    {
        self.deeds.len()
    }

    /// Its functions and globals.
    fn globals(&self) -> &Globals
        ensures { globals_of result.now ≡ x_alone }
    {
        &self.globals
    }
}

/// The offer of a call.
fn call_offer(alloc: Heap) -> Result<Offer, NoMemory>
    ensures { IfOk result (λ o. o ≡ offers (Some Deed.Call) None Val.Undef) }
{
    let name = Name::made(alloc, b"x")?;
    let words = Words::made(alloc, &[7])?;
    Ok(Offer::Call { name, words })
}

/// A local begins, where the thread has none.
fn place_offer(local: Option<u32>) -> Offer
    ensures { result ≡ place_offer local }
{
    match local {
        None => Offer::Place { size: 4, align: 4 },
        Some(_) => Offer::Silent,
    }
}

/// The local ends, where the thread has one.
fn lift_offer(local: Option<u32>) -> Offer
    ensures { result ≡ lift_offer local }
{
    match local {
        None => Offer::Silent,
        Some(base) => Offer::Lift { base, size: 4 },
    }
}

/// The offer of a deed other than a call.
fn plain_offer(deed: Deed, local: Option<u32>, value: Val) -> Offer
    requires { deed ≢ Deed.Call }
    ensures { result ≡ offers (Some deed) local value }
{
    match deed {
        Deed::Silent | Deed::Call => Offer::Silent,
        Deed::Load(addr) => Offer::Load {
            chunk: Chunk::I32,
            addr: Val::Word(addr),
        },
        Deed::Store(addr, word) => Offer::Store {
            chunk: Chunk::I32,
            addr: Val::Word(addr),
            val: Val::Word(word),
        },
        Deed::Place => place_offer(local),
        Deed::Lift => lift_offer(local),
        Deed::Fence => Offer::Fence,
        Deed::Swap(addr, word) => Offer::Atomic {
            kind: Atomic::Xchg,
            addr: Val::Word(addr),
            expected: Val::Undef,
            desired: Val::Word(word),
        },
        Deed::Malloc(size) => Offer::Malloc {
            size: Val::Word(size),
        },
        Deed::MallocUnknown => Offer::Malloc { size: Val::Undef },
        Deed::Free(addr) => Offer::Free {
            addr: Val::Word(addr),
        },
        Deed::Start(fun) => Offer::Start {
            fun: Val::Word(fun),
            arg: Val::Word(0),
        },
        Deed::Wait => Offer::Wait,
        Deed::Exit => Offer::Exit { word: value },
        Deed::Wrong => Offer::Wrong,
    }
}

/// The offer of a deed.
fn offer_of(
    alloc: Heap,
    deed: Option<Deed>,
    local: Option<u32>,
    value: Val,
) -> Result<Offer, NoMemory>
    ensures { IfOk result (λ o. o ≡ offers deed local value) }
{
    match deed {
        None => Ok(Offer::End),
        Some(Deed::Call) => call_offer(alloc),
        Some(deed) => Ok(plain_offer(deed, local, value)),
    }
}

/// The local of a thread after an answer to its deed.
fn local_after(deed: Option<Deed>, local: Option<u32>, answer: Answer) -> Option<u32>
    ensures { result ≡ local_after deed local answer }
{
    match deed {
        Some(Deed::Place) => match (local, answer) {
            (None, Answer::Value(Val::Word(base))) => Some(base),
            _ => local,
        },
        Some(Deed::Lift) => None,
        _ => local,
    }
}

/// The last value after an answer.
fn value_after(value: Val, answer: Answer) -> Val
    ensures { result ≡ value_after value answer }
{
    match answer {
        Answer::Nothing => value,
        Answer::Value(new) => new,
    }
}

/// The place of the next deed.
fn next_after(count: usize, next: usize) -> usize
    ensures { result ≡ (if nat_lt next count then next + 1 else next) }
{
    if next < count { next + 1 } else { next }
}

/// The language of scripts.
pub struct Scripts;

impl ThreadLang for Scripts {
    type Program = Script;

    type Thread = Thread;

    ghost State = { Thread };

    ghost state_of = { λ t. t };

    ghost language = { language };

    ghost lawful = { lawful };

    #[tactic(auto, unfolding(crate::specs::Meaning::language))]
    fn globals(p: &Script) -> &Globals {
        p.globals()
    }

    #[tactic(auto, unfolding(crate::specs::Meaning::language))]
    fn first(_alloc: Heap, _p: &Script, _at: &Placement) -> Result<Thread, NoMemory> {
        Ok(Thread {
            next: 0,
            local: None,
            value: Val::Undef,
        })
    }

    #[tactic(auto, unfolding(crate::specs::Meaning::language))]
    fn started(
        _alloc: Heap,
        _p: &Script,
        _at: &Placement,
        fun: Val,
        _arg: Val,
    ) -> Result<Option<Thread>, NoMemory> {
        match fun {
            Val::Undef => Ok(None),
            Val::Word(f) => {
                if f < 1 {
                    return Ok(None);
                }
                if f < 2 {
                    return Ok(Some(Thread {
                        next: 0,
                        local: None,
                        value: Val::Undef,
                    }));
                }
                Ok(None)
            }
        }
    }

    #[tactic(auto, unfolding(crate::specs::Meaning::language))]
    fn offer(alloc: Heap, p: &Script, _at: &Placement, t: &Thread) -> Result<Offer, NoMemory> {
        offer_of(alloc, p.deed(t.next), t.local, t.value)
    }

    #[tactic(auto, unfolding(crate::specs::Meaning::language))]
    fn resume(
        _alloc: Heap,
        p: &Script,
        _at: &Placement,
        t: &mut Thread,
        a: Answer,
    ) -> Result<(), NoMemory> {
        let deed = p.deed(t.next);
        let next = next_after(p.count(), t.next);
        let local = local_after(deed, t.local, a);
        let value = value_after(t.value, a);
        *t = Thread { next, local, value };
        Ok(())
    }
}
