//! What the expressions of a statement come to.

ghost use Rattle.std.specs.Prelude.{◌≡◌, ◌∷◌, [], ◌++◌, IfOk, map};
ghost use Rattle.clight_lang.specs.Next.{scope_of};
ghost use Rattle.clight_lang.specs.Rules.{due_from, due_in, due_view};
ghost use Rattle.clight_lang.specs.Syntax.{expression_of, statement_of};

use crate::expression::Expr;
use crate::frame::Frame;
use crate::next::{NextPart, next_after};
use crate::statement::Stmt;
use std::alloc::Global;
use tso_core::placement::Placement;
use tso_words::{Chunk, NoMemory, Val};

/// What the expressions of a statement come to: their values in order, wrong, or a read.
#[derive(Drop)]
pub enum Due {
    Ready(Vec<Val>),
    Wrong,
    Read(Chunk, Val),
}

/// What the expressions of a statement come to, from left to right, with the answers to their first
/// reads.
pub fn due_of(
    alloc: Global,
    s: &Stmt,
    frame: &Frame,
    at: &Placement,
    answers: &[Val],
) -> Result<Due, NoMemory>
    ensures { IfOk result (λ d. due_view d ≡ due_in (scope_of frame.now at.now) answers.now (statement_of s.now)) }
{
    let none = Vec::new(alloc);
    match s {
        Stmt::Set(_, e) => with_one(none, e, frame, at, answers),
        Stmt::If(e, _, _) => with_one(none, e, frame, at, answers),
        Stmt::Switch(e, _, _) => with_one(none, e, frame, at, answers),
        Stmt::Return(Some(e)) => with_one(none, e, frame, at, answers),
        Stmt::Store(_, a, e) => with_two(none, a, e, frame, at, answers),
        Stmt::Call(_, _, f, args) => with_callee(none, f, args, frame, at, answers),
        Stmt::External(_, _, _, args) => with_all(none, args, frame, at, answers, 0),
        Stmt::Builtin(_, _, args) => with_all(none, args, frame, at, answers, 0),
        _ => Ok(Due::Ready(none)),
    }
}

fn pushed(mut values: Vec<Val>, v: Val) -> Result<Vec<Val>, NoMemory>
    ensures { IfOk result (λ all. all.items ≡ values.items ++ v ∷ []) }
{
    match values.push(v) {
        Ok(()) => Ok(values),
        Err(_) => Err(NoMemory),
    }
}

fn with_one(
    values: Vec<Val>,
    e: &Expr,
    frame: &Frame,
    at: &Placement,
    answers: &[Val],
) -> Result<Due, NoMemory>
    ensures { IfOk result (λ d. due_view d ≡ due_from (scope_of frame.now at.now) answers.now values.items (expression_of e.now ∷ []) 0) }
{
    match next_after(e, frame, at, answers, 0) {
        NextPart::Value { val, used: _ } => Ok(Due::Ready(pushed(values, val)?)),
        NextPart::Wrong => Ok(Due::Wrong),
        NextPart::Read { chunk, addr } => Ok(Due::Read(chunk, addr)),
    }
}

fn with_two(
    values: Vec<Val>,
    a: &Expr,
    e: &Expr,
    frame: &Frame,
    at: &Placement,
    answers: &[Val],
) -> Result<Due, NoMemory>
    ensures { IfOk result (λ d. due_view d ≡ due_from (scope_of frame.now at.now) answers.now values.items (expression_of a.now ∷ expression_of e.now ∷ []) 0) }
{
    match next_after(a, frame, at, answers, 0) {
        NextPart::Value { val: x, used } => match next_after(e, frame, at, answers, used) {
            NextPart::Value { val: y, used: _ } => {
                let values = pushed(values, x)?;
                Ok(Due::Ready(pushed(values, y)?))
            }
            NextPart::Wrong => Ok(Due::Wrong),
            NextPart::Read { chunk, addr } => Ok(Due::Read(chunk, addr)),
        },
        NextPart::Wrong => Ok(Due::Wrong),
        NextPart::Read { chunk, addr } => Ok(Due::Read(chunk, addr)),
    }
}

fn with_callee(
    values: Vec<Val>,
    f: &Expr,
    args: &[Expr],
    frame: &Frame,
    at: &Placement,
    answers: &[Val],
) -> Result<Due, NoMemory>
    ensures { IfOk result (λ d. due_view d ≡ due_from (scope_of frame.now at.now) answers.now values.items (expression_of f.now ∷ map expression_of args.now) 0) }
{
    match next_after(f, frame, at, answers, 0) {
        NextPart::Value { val, used } => {
            with_all(pushed(values, val)?, args, frame, at, answers, used)
        }
        NextPart::Wrong => Ok(Due::Wrong),
        NextPart::Read { chunk, addr } => Ok(Due::Read(chunk, addr)),
    }
}

fn with_all(
    values: Vec<Val>,
    es: &[Expr],
    frame: &Frame,
    at: &Placement,
    answers: &[Val],
    used: usize,
) -> Result<Due, NoMemory>
    ensures { IfOk result (λ d. due_view d ≡ due_from (scope_of frame.now at.now) answers.now values.items (map expression_of es.now) used) }
{
    match es {
        [] => Ok(Due::Ready(values)),
        [e, others @ ..] => match next_after(e, frame, at, answers, used) {
            NextPart::Value { val, used } => {
                with_all(pushed(values, val)?, others, frame, at, answers, used)
            }
            NextPart::Wrong => Ok(Due::Wrong),
            NextPart::Read { chunk, addr } => Ok(Due::Read(chunk, addr)),
        },
    }
}
