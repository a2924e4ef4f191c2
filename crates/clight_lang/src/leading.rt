//! Where a statement leads, once its expressions have values.

ghost use Rattle.std.specs.Prelude.{◌≡◌, ◌==◌, [], IfOk, find, map, slice_set};
ghost use Rattle.std.specs.List.{list_any};
ghost use Rattle.std.specs.Option.{option_map, option_copied};
ghost use Rattle.clight_lang.specs.Rules.{led, skipped, broken, continued, unfolded, chosen, switched, chosen_from, numbered, default_of, statements_from, end_value, set_by, answer_value};
ghost use Rattle.clight_lang.specs.State.{Run, Body, Step, after_of, doing_of};
ghost use Rattle.clight_lang.specs.Syntax.{Skip, group_of, statement_of, statements_of};

use crate::next::value;
use crate::statement::{Group, Rest, Stmt, Stmts};
use crate::thread::Doing;
use std::alloc::Global;
use std::rc::Rc;
use tso_core::offer::Answer;
use tso_words::{NoMemory, Val};

/// Where a statement other than a call of a defined function leads; `in_main` says whether it is
/// one of main.
pub fn lead(
    alloc: Global,
    in_main: bool,
    s: &Stmt,
    rest: &Rc<Rest>,
    values: &[Val],
) -> Result<Doing, NoMemory>
    ensures { IfOk result (λ d. doing_of d ≡ led in_main (statement_of s.now) (after_of rest.now.value) values.now) }
{
    match s {
        Stmt::Skip => after_skip(alloc, in_main, rest),
        Stmt::External(temp, _, _, _) => Ok(Doing::Wait(*temp, same(rest)?)),
        Stmt::Block(list) => into_block(alloc, list, rest),
        Stmt::If(_, a, b) => into_branch(alloc, value(values, 0), a, b, rest),
        Stmt::Loop(a, b) => into_loop(alloc, a, b, rest),
        Stmt::Switch(_, groups, list) => {
            into_switch(alloc, place_of(value(values, 0), groups), list, rest)
        }
        Stmt::Break => after_break(alloc, rest),
        Stmt::Continue => after_continue(alloc, rest),
        Stmt::Return(_) => Ok(Doing::Leave(value(values, 0))),
        _ => skip(alloc, rest),
    }
}

/// One more owner.
pub fn same<T: Drop>(shared: &Rc<T>) -> Result<Rc<T>, NoMemory>
    ensures { IfOk result (λ again. again.value ≡ shared.now.value) }
{
    match shared.clone() {
        Ok(again) => Ok(again),
        Err(_) => Err(NoMemory),
    }
}

/// A first owner.
pub fn shared<T: Drop>(alloc: Global, value: T) -> Result<Rc<T>, NoMemory>
    ensures { IfOk result (λ first. first.value ≡ value) }
{
    match Rc::new(alloc, value) {
        Ok(first) => Ok(first),
        Err(_) => Err(NoMemory),
    }
}

/// A statement that has no answers yet.
fn run(alloc: Global, s: Rc<Stmt>, rest: Rc<Rest>) -> Doing
    ensures { doing_of result ≡ Run [] (statement_of s.value) (after_of rest.value) }
{
    Doing::Run(Vec::new(alloc), s, rest)
}

/// Nothing but the rest is left.
pub fn skip(alloc: Global, rest: &Rc<Rest>) -> Result<Doing, NoMemory>
    ensures { IfOk result (λ d. doing_of d ≡ Run [] Skip (after_of rest.now.value)) }
{
    Ok(run(alloc, shared(alloc, Stmt::Skip)?, same(rest)?))
}

fn after_skip(alloc: Global, in_main: bool, rest: &Rc<Rest>) -> Result<Doing, NoMemory>
    ensures { IfOk result (λ d. doing_of d ≡ skipped in_main (after_of rest.now.value)) }
{
    match rest.as_ref() {
        Rest::Empty => Ok(Doing::Leave(falls_off(in_main))),
        Rest::List(list, k) => {
            let block = shared(alloc, Stmt::Block(same(list)?))?;
            Ok(run(alloc, block, same(k)?))
        }
        Rest::Body(a, b, k) => into_step(alloc, a, b, k),
        Rest::Step(a, b, k) => {
            let again = shared(alloc, Stmt::Loop(same(a)?, same(b)?))?;
            Ok(run(alloc, again, same(k)?))
        }
        Rest::Switch(k) => skip(alloc, k),
    }
}

/// What a function gives whose end is reached.
fn falls_off(in_main: bool) -> Val
    ensures { result ≡ end_value in_main }
{
    if in_main { Val::Word(0) } else { Val::Undef }
}

/// The second part of a loop.
fn into_step(alloc: Global, a: &Rc<Stmt>, b: &Rc<Stmt>, rest: &Rc<Rest>) -> Result<Doing, NoMemory>
    ensures { IfOk result (λ d. doing_of d ≡ Run [] (statement_of b.now.value) (Step (statement_of a.now.value) (statement_of b.now.value) (after_of rest.now.value))) }
{
    let step = shared(alloc, Rest::Step(same(a)?, same(b)?, same(rest)?))?;
    Ok(run(alloc, same(b)?, step))
}

/// The first part of a loop.
fn into_loop(alloc: Global, a: &Rc<Stmt>, b: &Rc<Stmt>, rest: &Rc<Rest>) -> Result<Doing, NoMemory>
    ensures { IfOk result (λ d. doing_of d ≡ Run [] (statement_of a.now.value) (Body (statement_of a.now.value) (statement_of b.now.value) (after_of rest.now.value))) }
{
    let body = shared(alloc, Rest::Body(same(a)?, same(b)?, same(rest)?))?;
    Ok(run(alloc, same(a)?, body))
}

fn into_block(alloc: Global, list: &Rc<Stmts>, rest: &Rc<Rest>) -> Result<Doing, NoMemory>
    ensures { IfOk result (λ d. doing_of d ≡ unfolded (statements_of list.now.value) (after_of rest.now.value)) }
{
    match list.as_ref() {
        Stmts::Nil => skip(alloc, rest),
        Stmts::Cons(first, others) => {
            let behind = shared(alloc, Rest::List(same(others)?, same(rest)?))?;
            Ok(run(alloc, same(first)?, behind))
        }
    }
}

fn into_branch(
    alloc: Global,
    condition: Val,
    a: &Rc<Stmt>,
    b: &Rc<Stmt>,
    rest: &Rc<Rest>,
) -> Result<Doing, NoMemory>
    ensures { IfOk result (λ d. doing_of d ≡ chosen condition (statement_of a.now.value) (statement_of b.now.value) (after_of rest.now.value)) }
{
    match condition {
        Val::Undef => skip(alloc, rest),
        Val::Word(0) => Ok(run(alloc, same(b)?, same(rest)?)),
        Val::Word(_) => Ok(run(alloc, same(a)?, same(rest)?)),
    }
}

/// The statements of a switch from a place on, or none.
fn into_switch(
    alloc: Global,
    place: Option<usize>,
    list: &Rc<Stmts>,
    rest: &Rc<Rest>,
) -> Result<Doing, NoMemory>
    ensures { IfOk result (λ d. doing_of d ≡ switched place (statements_of list.now.value) (after_of rest.now.value)) }
{
    match place {
        None => skip(alloc, rest),
        Some(place) => {
            let block = shared(alloc, Stmt::Block(from_place(list, place)?))?;
            Ok(run(alloc, block, shared(alloc, Rest::Switch(same(rest)?))?))
        }
    }
}

/// The statements from a place on.
fn from_place(list: &Rc<Stmts>, place: usize) -> Result<Rc<Stmts>, NoMemory>
    ensures { IfOk result (λ l. statements_of l.value ≡ statements_from (statements_of list.now.value) place) }
{
    match list.as_ref() {
        Stmts::Nil => same(list),
        Stmts::Cons(_, others) => {
            if place == 0 {
                same(list)
            } else {
                from_place(others, place - 1)
            }
        }
    }
}

/// The place in a switch where a value leads.
fn place_of(v: Val, groups: &[Group]) -> Option<usize>
    ensures { result ≡ chosen_from v (map group_of groups.now) }
{
    match v {
        Val::Undef => None,
        Val::Word(word) => match with_number(word, groups) {
            Some(place) => Some(place),
            None => default_place(groups),
        },
    }
}

#[tactic(auto, using(crate::proofs::Lists::find_map))]
fn with_number(word: u32, groups: &[Group]) -> Option<usize>
    ensures { result ≡ numbered word (map group_of groups.now) }
{
    match group_of_number(word, groups) {
        Some(group) => Some(group.from),
        None => None,
    }
}

fn group_of_number(word: u32, groups: &[Group]) -> Option<&Group>
    ensures { option_copied result ≡ find (λ g. list_any (λ n. n == word) g.numbers.items) groups.now }
{
    groups.iter().find(|g| has_number(g, word))
}

fn has_number(group: &Group, word: u32) -> bool
    ensures { result ≡ list_any (λ n. n == word) group.now.numbers.items }
{
    group.numbers.iter().any(|n| *n == word)
}

#[tactic(auto, using(crate::proofs::Lists::find_map))]
fn default_place(groups: &[Group]) -> Option<usize>
    ensures { result ≡ default_of (map group_of groups.now) }
{
    match default_group(groups) {
        Some(group) => Some(group.from),
        None => None,
    }
}

fn default_group(groups: &[Group]) -> Option<&Group>
    ensures { option_copied result ≡ find (λ g. g.is_default) groups.now }
{
    groups.iter().find(|g| g.is_default)
}

fn after_break(alloc: Global, rest: &Rc<Rest>) -> Result<Doing, NoMemory>
    ensures { IfOk result (λ d. doing_of d ≡ broken (after_of rest.now.value)) }
{
    match rest.as_ref() {
        Rest::Empty => Ok(run(alloc, shared(alloc, Stmt::Break)?, same(rest)?)),
        Rest::List(_, k) => Ok(run(alloc, shared(alloc, Stmt::Break)?, same(k)?)),
        Rest::Body(_, _, k) | Rest::Step(_, _, k) | Rest::Switch(k) => skip(alloc, k),
    }
}

fn after_continue(alloc: Global, rest: &Rc<Rest>) -> Result<Doing, NoMemory>
    ensures { IfOk result (λ d. doing_of d ≡ continued (after_of rest.now.value)) }
{
    match rest.as_ref() {
        Rest::Empty | Rest::Step(_, _, _) => {
            Ok(run(alloc, shared(alloc, Stmt::Continue)?, same(rest)?))
        }
        Rest::List(_, k) | Rest::Switch(k) => {
            Ok(run(alloc, shared(alloc, Stmt::Continue)?, same(k)?))
        }
        Rest::Body(a, b, k) => into_step(alloc, a, b, k),
    }
}

/// Sets the temporary of a statement that sets one: a Set has its value, a builtin its answer.
pub fn set_temps(s: &Stmt, values: &[Val], a: Answer, temps: &mut Vec<Val>)
    ensures { temps.new.items ≡ set_by (statement_of s.now) values.now a temps.old.items }
{
    match s {
        Stmt::Set(i, _) => set_temp(temps, *i, value(values, 0)),
        Stmt::Builtin(i, _, _) => set_temp(temps, *i, answered(a)),
        _ => {}
    }
}

/// Sets a temporary, where it is there.
pub fn set_temp(temps: &mut Vec<Val>, i: usize, v: Val)
    ensures { temps.new.items ≡ slice_set temps.old.items i v }
{
    if i < temps.len() {
        temps[i] = v;
    }
}

/// The value of an answer; nothing is known where there is none.
pub fn answered(a: Answer) -> Val
    ensures { result ≡ answer_value a }
{
    match a {
        Answer::Nothing => Val::Undef,
        Answer::Value(v) => v,
    }
}
