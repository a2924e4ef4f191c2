//! The value of an expression, or the read that is due in it.

ghost use Rattle.std.specs.Prelude.{◌≡◌, slice_get};
ghost use Rattle.tso_core.specs.Placing.{address_of};
ghost use Rattle.clight_lang.specs.Syntax.{expression_of};
ghost use Rattle.clight_lang.specs.Next.{next_from, scope_of, value_at, base_address, name_address, truth_next, operated};
ghost use Rattle.clight_lang.specs.Put.{Comes, term_of};

use crate::expression::Expr;
use crate::frame::{Frame, Placed};
use tso_core::placement::Placement;
use tso_words::{Chunk, Name, Val, eval_op};

/// What comes next in an expression. `used` is the number of answers that were put in, counted
/// from the first one of the list.
#[derive(Clone, Copy, PartialEq, Eq, Debug)]
pub enum NextPart {
    Value { val: Val, used: usize },
    Wrong,
    Read { chunk: Chunk, addr: Val },
}

/// What comes next in an expression once the answers are put in the places of its first reads: its
/// value, wrong, or the leftmost read that is due. The frame is one of the function that the
/// expression stands in; a temporary, local or name that is not there is not known.
pub fn next(e: &Expr, frame: &Frame, at: &Placement, answers: &[Val]) -> NextPart
    ensures { Comes answers.now (term_of (scope_of frame.now at.now) (expression_of e.now)) 0 result }
{
    next_after(e, frame, at, answers, 0)
}

/// The same, with the answers from `used` on.
pub fn next_after(e: &Expr, frame: &Frame, at: &Placement, answers: &[Val], used: usize) -> NextPart
    ensures { result ≡ next_from (scope_of frame.now at.now) answers.now (expression_of e.now) used }
{
    match e {
        Expr::Const(word) => NextPart::Value {
            val: Val::Word(*word),
            used,
        },
        Expr::Temp(i) => NextPart::Value {
            val: value(&frame.temps, *i),
            used,
        },
        Expr::LocalAddr(i) => NextPart::Value {
            val: local_address(&frame.placed, *i),
            used,
        },
        Expr::GlobalAddr(name) => NextPart::Value {
            val: global(at, name),
            used,
        },
        Expr::Read(chunk, a) => match next_after(a, frame, at, answers, used) {
            NextPart::Value { val, used } => match answers.get(used) {
                Some(v) => NextPart::Value {
                    val: *v,
                    used: used + 1,
                },
                None => NextPart::Read {
                    chunk: *chunk,
                    addr: val,
                },
            },
            other => other,
        },
        Expr::Unary(op, a) => match next_after(a, frame, at, answers, used) {
            NextPart::Value { val, used } => given(eval_op(*op, &[val]), used),
            other => other,
        },
        Expr::Binary(op, a, b) => match next_after(a, frame, at, answers, used) {
            NextPart::Value { val: x, used } => match next_after(b, frame, at, answers, used) {
                NextPart::Value { val: y, used } => given(eval_op(*op, &[x, y]), used),
                other => other,
            },
            other => other,
        },
        Expr::AndAlso(a, b) => match next_after(a, frame, at, answers, used) {
            NextPart::Value { val, used } => match val {
                Val::Undef => NextPart::Wrong,
                Val::Word(0) => NextPart::Value { val, used },
                Val::Word(_) => truth(next_after(b, frame, at, answers, used)),
            },
            other => other,
        },
        Expr::OrElse(a, b) => match next_after(a, frame, at, answers, used) {
            NextPart::Value { val, used } => match val {
                Val::Undef => NextPart::Wrong,
                Val::Word(0) => truth(next_after(b, frame, at, answers, used)),
                Val::Word(_) => NextPart::Value {
                    val: Val::Word(1),
                    used,
                },
            },
            other => other,
        },
        Expr::Choose(c, a, b) => match next_after(c, frame, at, answers, used) {
            NextPart::Value { val, used } => match val {
                Val::Undef => NextPart::Wrong,
                Val::Word(0) => next_after(b, frame, at, answers, used),
                Val::Word(_) => next_after(a, frame, at, answers, used),
            },
            other => other,
        },
    }
}

/// The value at a place of a list; not known where there is none.
pub fn value(list: &[Val], i: usize) -> Val
    ensures { result ≡ value_at list.now i }
{
    match list.get(i) {
        Some(v) => *v,
        None => Val::Undef,
    }
}

/// The address of a placed object; not known where there is none.
pub fn local_address(placed: &[Placed], i: usize) -> Val
    ensures { result ≡ base_address (slice_get placed.now i) }
{
    match placed.get(i) {
        Some(p) => Val::Word(p.base),
        None => Val::Undef,
    }
}

fn global(at: &Placement, name: &Name) -> Val
    ensures { result ≡ name_address (address_of at.now name.now) }
{
    match at.find(name) {
        Some(address) => Val::Word(address),
        None => Val::Undef,
    }
}

/// The answer of an operator; `None` is wrong.
fn given(answer: Option<Val>, used: usize) -> NextPart
    ensures { result ≡ operated answer used }
{
    match answer {
        Some(val) => NextPart::Value { val, used },
        None => NextPart::Wrong,
    }
}

/// 1 for a word that is not 0.
fn truth(part: NextPart) -> NextPart
    ensures { result ≡ truth_next part }
{
    match part {
        NextPart::Value { val, used } => NextPart::Value {
            val: match val {
                Val::Undef => Val::Undef,
                Val::Word(0) => Val::Word(0),
                Val::Word(_) => Val::Word(1),
            },
            used,
        },
        other => other,
    }
}
