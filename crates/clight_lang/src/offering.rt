//! What a thread offers.

ghost use Rattle.std.specs.Prelude.{◌≡◌, IfOk, slice_get, length, find, map};
ghost use Rattle.std.specs.Option.{option_map, option_copied};
ghost use Rattle.std.specs.List.{list_all};
ghost use Rattle.tso_core.specs.Placing.{address_of};
ghost use Rattle.clight_lang.specs.Rules.{entry_of, entry_offer, words_of, is_known, word_or_0, external_offer, builtin_offer, choice_offer, call_offer, callee_of, of_type, is_word, offered, leave_offer, end_offer, last_placed, offer_of};
ghost use Rattle.clight_lang.specs.State.{function_of, functions_of, callers_of, after_of, state_of};
ghost use Rattle.clight_lang.specs.Syntax.{statement_of};

use crate::due::{Due, due_of};
use crate::frame::Placed;
use crate::function::{Function, Kept, Local};
use crate::next::{local_address, value};
use crate::statement::{Builtin, Rest, Stmt};
use crate::thread::{Caller, Doing, Thread};
use std::alloc::Global;
use std::rc::Rc;
use tso_core::offer::{Atomic, Offer};
use tso_core::placement::Placement;
use tso_words::{Name, NoMemory, Val, Words};

/// What a call does when it enters its function: a local to be placed comes first, then a parameter
/// to be stored, with the number of those that are stored then.
#[derive(Clone, Copy, PartialEq, Eq, Debug)]
pub enum Entry {
    Place(Local),
    Store(Kept, usize),
    Begin,
}

/// What a thread offers. It takes memory for the words of an external call alone, and for the
/// values of a statement.
pub fn thread_offer(
    alloc: Global,
    functions: &[Rc<Function>],
    at: &Placement,
    t: &Thread,
) -> Result<Offer, NoMemory>
    ensures { IfOk result (λ o. o ≡ offer_of (functions_of functions.now) at.now (state_of t.now)) }
{
    match &t.doing {
        Doing::Enter(args, stored) => {
            let entry = entry_at(&t.function, &t.frame.placed, *stored);
            Ok(enter_offer(entry, &t.frame.placed, args))
        }
        Doing::Run(answers, s, rest) => match due_of(alloc, s, &t.frame, at, answers)? {
            Due::Ready(values) => run_offer(alloc, functions, at, s, rest, &values),
            Due::Wrong => Ok(Offer::Wrong),
            Due::Read(chunk, addr) => Ok(Offer::Load { chunk, addr }),
        },
        Doing::Leave(v) => Ok(leaving_offer(&t.frame.placed, &t.callers, t.is_first, *v)),
        Doing::Wait(_, _) => Ok(Offer::Wait),
    }
}

/// What a call does that enters a function, where so many locals are placed and so many parameters
/// stored.
pub fn entry_at(function: &Function, placed: &[Placed], stored: usize) -> Entry
    ensures { result ≡ entry_of (function_of function.now) placed.now stored }
{
    match function.locals.get(placed.len()) {
        Some(local) => Entry::Place(*local),
        None => match function.kept.get(stored) {
            Some(kept) => Entry::Store(*kept, stored + 1),
            None => Entry::Begin,
        },
    }
}

fn enter_offer(entry: Entry, placed: &[Placed], args: &[Val]) -> Offer
    ensures { result ≡ entry_offer entry placed.now args.now }
{
    match entry {
        Entry::Place(local) => Offer::Place {
            size: local.size,
            align: local.align,
        },
        Entry::Store(kept, _) => Offer::Store {
            chunk: kept.chunk,
            addr: local_address(placed, kept.local),
            val: value(args, kept.argument),
        },
        Entry::Begin => Offer::Silent,
    }
}

/// The offer of a statement whose expressions have values.
fn run_offer(
    alloc: Global,
    functions: &[Rc<Function>],
    at: &Placement,
    s: &Stmt,
    rest: &Rest,
    values: &[Val],
) -> Result<Offer, NoMemory>
    ensures { IfOk result (λ o. o ≡ offered (functions_of functions.now) at.now (statement_of s.now) (after_of rest.now) values.now) }
{
    match s {
        Stmt::Store(chunk, _, _) => Ok(Offer::Store {
            chunk: *chunk,
            addr: value(values, 0),
            val: value(values, 1),
        }),
        Stmt::Call(_, function_type, _, _) => {
            match callee(functions, at, *function_type, value(values, 0)) {
                Some(_) => Ok(Offer::Silent),
                None => Ok(Offer::Wrong),
            }
        }
        Stmt::External(_, name, _, _) => extern_offer(alloc, name, values),
        Stmt::Builtin(_, builtin, _) => Ok(service_offer(*builtin, values)),
        Stmt::If(_, _, _) => Ok(known_offer(value(values, 0))),
        Stmt::Switch(_, _, _) => Ok(known_offer(value(values, 0))),
        Stmt::Break => match rest {
            Rest::Empty => Ok(Offer::Wrong),
            _ => Ok(Offer::Silent),
        },
        Stmt::Continue => match rest {
            Rest::Empty => Ok(Offer::Wrong),
            Rest::Step(_, _, _) => Ok(Offer::Wrong),
            _ => Ok(Offer::Silent),
        },
        _ => Ok(Offer::Silent),
    }
}

fn known_offer(v: Val) -> Offer
    ensures { result ≡ choice_offer v }
{
    match v {
        Val::Undef => Offer::Wrong,
        Val::Word(_) => Offer::Silent,
    }
}

/// A call of an external function, of whose arguments each has to be known.
fn extern_offer(alloc: Global, name: &Name, values: &[Val]) -> Result<Offer, NoMemory>
    ensures { IfOk result (λ o. o ≡ external_offer name.now (words_of values.now)) }
{
    if !all_known(values) {
        return Ok(Offer::Wrong);
    }
    let words = known_words(alloc, values)?;
    Ok(Offer::Call {
        name: name.clone()?,
        words: Words::made(alloc, &words)?,
    })
}

fn all_known(values: &[Val]) -> bool
    ensures { result ≡ list_all is_known values.now }
{
    values.iter().all(|v| is_word_value(*v))
}

fn is_word_value(v: Val) -> bool
    ensures { result ≡ is_known v }
{
    match v {
        Val::Undef => false,
        Val::Word(_) => true,
    }
}

/// The words of values, and 0 for one that is not known.
fn known_words(alloc: Global, values: &[Val]) -> Result<Vec<u32>, NoMemory>
    ensures { IfOk result (λ words. words.items ≡ map word_or_0 values.now) }
{
    let words: Vec<u32> = values.iter().map(|v| known_word(*v)).collect(alloc)?;
    Ok(words)
}

fn known_word(v: Val) -> u32
    ensures { result ≡ word_or_0 v }
{
    match v {
        Val::Undef => 0,
        Val::Word(word) => word,
    }
}

fn service_offer(builtin: Builtin, values: &[Val]) -> Offer
    ensures { result ≡ builtin_offer builtin values.now }
{
    let first = value(values, 0);
    let second = value(values, 1);
    match builtin {
        Builtin::ThreadCreate => Offer::Start {
            fun: first,
            arg: second,
        },
        Builtin::Fence => Offer::Fence,
        Builtin::AtomicCas => Offer::Atomic {
            kind: Atomic::Cas,
            addr: first,
            expected: second,
            desired: value(values, 2),
        },
        Builtin::AtomicAdd => Offer::Atomic {
            kind: Atomic::Add,
            addr: first,
            expected: Val::Undef,
            desired: second,
        },
        Builtin::AtomicXchg => Offer::Atomic {
            kind: Atomic::Xchg,
            addr: first,
            expected: Val::Undef,
            desired: second,
        },
        Builtin::Malloc => Offer::Malloc { size: first },
        Builtin::Free => Offer::Free { addr: first },
        Builtin::Exit => Offer::Exit { word: first },
    }
}

fn leaving_offer(placed: &[Placed], callers: &[Caller], is_first: bool, v: Val) -> Offer
    ensures { result ≡ leave_offer (last_placed placed.now) (callers_of callers.now) is_first v }
{
    match placed.last() {
        Some(p) => Offer::Lift {
            base: p.base,
            size: p.size,
        },
        None => {
            if !callers.is_empty() {
                Offer::Silent
            } else if is_first {
                Offer::Exit { word: v }
            } else {
                Offer::End
            }
        }
    }
}

/// The defined function of a type whose address is a value.
#[tactic(auto, using(crate::proofs::Lists::find_map))]
pub fn callee<'a>(
    functions: &'a [Rc<Function>],
    at: &Placement,
    function_type: usize,
    v: Val,
) -> Option<&'a Rc<Function>>
    ensures { option_map (λ f. function_of f.now.value) result ≡ callee_of (functions_of functions.now) at.now function_type v }
{
    let Val::Word(word) = v else {
        return None;
    };
    match placed_at(functions, at, word) {
        Some(f) => {
            if f.function_type == function_type {
                Some(f)
            } else {
                None
            }
        }
        None => None,
    }
}

fn placed_at<'a>(
    functions: &'a [Rc<Function>],
    at: &Placement,
    word: u32,
) -> Option<&'a Rc<Function>>
    ensures { option_copied result ≡ find (λ f. is_word word (address_of at.now f.value.name)) functions.now }
{
    functions.iter().find(|f| is_at(at, &f.name, word))
}

fn is_at(at: &Placement, name: &Name, word: u32) -> bool
    ensures { result ≡ is_word word (address_of at.now name.now) }
{
    match at.find(name) {
        Some(address) => address == word,
        None => false,
    }
}
