//! What statements do, as statements of ClightTSO. Each takes the first fresh temporary, and gives
//! the first behind its own.

ghost use Rattle.std.specs.Prelude.{◌≡◌, ◌+◌, IfOk, map};
ghost use Rattle.std.specs.Option.{option_map};
ghost use Rattle.clight_lang.specs.Syntax.{expression_of, statement_of, statements_of, Nil, Cons, Skip, Block, If, Loop, Return};
ghost use Rattle.clight_operands.specs.Shown.{callee_of};
ghost use Rattle.clight_typing.specs.Statements.{ReturnCallMade};
ghost use Rattle.clight_made.specs.MadeOf.{made_of, made_list, made_groups};
ghost use Rattle.clight_placing.specs.Placing.{placed, test_of, tested, block_two, both, meant, all_meant, groups_meant};
ghost use Rattle.clight_placing.specs.InnerOf.{inner_of};
ghost use Rattle.clight_placing.specs.Listed.{listed, shared_of, meant_of, onto_statements, switch_of};
ghost use Rattle.clight_placing.specs.Switched.{switch_with};

use crate::deeds::{call_into, deed_meant, set_placed};
use crate::expressions::{placed, placed_option};
use crate::inner::Inner;
use crate::lists::{behind, block, block_two, branch, listed, repeated};
use clight_lang::expression::Expr;
use clight_lang::leading::shared;
use clight_lang::statement::{Group, Stmt, Stmts};
use clight_made::{Made, MadeGroup};
use clight_operands::applied::converted;
use clight_operands::typed::Callee;
use clight_types::Value;
use std::alloc::{AllocError, Global};
use std::rc::Rc;
use tso_words::NoMemory;

/// The groups of a switch, the statements of all of them in order, and the first temporary behind
/// theirs.
#[derive(Drop)]
pub struct SwitchBody {
    pub groups: Vec<Group>,
    pub statements: Vec<Rc<Stmt>>,
    pub next: usize,
}

/// A condition leaves its loop where it is 0.
fn test_of(alloc: Global, inner: &Inner, condition: &Expr) -> Result<Rc<Stmt>, NoMemory>
    ensures { IfOk result (λ s. statement_of s.value ≡ test_of (inner_of inner.now) (expression_of condition.now)) }
{
    let skip = shared(alloc, Stmt::Skip)?;
    let leave = shared(alloc, Stmt::Break)?;
    let condition = placed(alloc, inner, condition)?;
    branch(alloc, condition, skip, leave)
}

/// The body of a `for`, behind its condition where it has one.
fn tested(
    alloc: Global,
    inner: &Inner,
    condition: &Option<Expr>,
    body: Rc<Stmt>,
) -> Result<Rc<Stmt>, NoMemory>
    ensures { IfOk result (λ s. statement_of s.value ≡ tested (inner_of inner.now) (option_map expression_of condition.now) (statement_of body.value)) }
{
    match condition {
        Some(condition) => {
            let test = test_of(alloc, inner, condition)?;
            block_two(alloc, test, body)
        }
        None => Ok(body),
    }
}

fn while_loop(
    alloc: Global,
    inner: &Inner,
    condition: &Expr,
    body: Rc<Stmt>,
) -> Result<Rc<Stmt>, NoMemory>
    ensures { IfOk result (λ s. statement_of s.value ≡ Loop (block_two (test_of (inner_of inner.now) (expression_of condition.now)) (statement_of body.value)) Skip) }
{
    let test = test_of(alloc, inner, condition)?;
    let body = block_two(alloc, test, body)?;
    let step = shared(alloc, Stmt::Skip)?;
    repeated(alloc, body, step)
}

fn do_loop(
    alloc: Global,
    inner: &Inner,
    body: Rc<Stmt>,
    condition: &Expr,
) -> Result<Rc<Stmt>, NoMemory>
    ensures { IfOk result (λ s. statement_of s.value ≡ Loop (statement_of body.value) (test_of (inner_of inner.now) (expression_of condition.now))) }
{
    let test = test_of(alloc, inner, condition)?;
    repeated(alloc, body, test)
}

/// The first part of a `for`, and then its loop.
#[tactic(auto, using(crate::proofs::Joined::pushed))]
fn for_loop(
    alloc: Global,
    inner: &Inner,
    first: Vec<Rc<Stmt>>,
    condition: &Option<Expr>,
    update: Rc<Stmt>,
    body: Rc<Stmt>,
) -> Result<Rc<Stmt>, NoMemory>
    ensures { IfOk result (λ s. statement_of s.value ≡ Block (both (listed (map shared_of first.items)) (Cons (Loop (tested (inner_of inner.now) (option_map expression_of condition.now) (statement_of body.value)) (statement_of update.value)) Nil))) }
{
    let mut list = first;
    let body = tested(alloc, inner, condition, body)?;
    let repeated = repeated(alloc, body, update)?;
    list.push(repeated).map_err(AllocError::from)?;
    block(alloc, list)
}

fn branch_on(
    alloc: Global,
    inner: &Inner,
    test: &Expr,
    a: Rc<Stmt>,
    b: Rc<Stmt>,
) -> Result<Rc<Stmt>, NoMemory>
    ensures { IfOk result (λ s. statement_of s.value ≡ If (placed (inner_of inner.now) (expression_of test.now)) (statement_of a.value) (statement_of b.value)) }
{
    let test = placed(alloc, inner, test)?;
    branch(alloc, test, a, b)
}

/// A switch whose groups are made.
fn switch_on(
    alloc: Global,
    inner: &Inner,
    selector: &Expr,
    body: SwitchBody,
) -> Result<(Rc<Stmt>, usize), NoMemory>
    ensures { IfOk result (λ r. meant_of r ≡ switch_with (inner_of inner.now) (expression_of selector.now) (switch_of body)) }
{
    let SwitchBody {
        groups,
        statements,
        next,
    } = body;
    let statements = listed(alloc, statements)?;
    let selector = placed(alloc, inner, selector)?;
    let whole = shared(alloc, Stmt::Switch(selector, groups, statements))?;
    Ok((whole, next))
}

fn returned(alloc: Global, inner: &Inner, e: &Option<Expr>) -> Result<Rc<Stmt>, NoMemory>
    ensures { IfOk result (λ s. statement_of s.value ≡ Return (option_map (placed (inner_of inner.now)) (option_map expression_of e.now))) }
{
    let e = placed_option(alloc, inner, e)?;
    shared(alloc, Stmt::Return(e))
}

/// The value of a call, of one type, is returned as one of another.
fn call_returned(
    alloc: Global,
    inner: &Inner,
    next: usize,
    callee: &Callee,
    arguments: &[Expr],
    from: Value,
    to: Value,
) -> Result<(Rc<Stmt>, usize), NoMemory>
    ensures { IfOk result (λ r. meant_of r ≡ meant (inner_of inner.now) next (ReturnCallMade (callee_of callee.now) (map expression_of arguments.now) from to)) }
{
    let after = behind(next)?;
    let call = call_into(alloc, inner, next, callee, arguments)?;
    let value = converted(alloc, from, to, Expr::Temp(next))?;
    let leave = shared(alloc, Stmt::Return(Some(value)))?;
    Ok((block_two(alloc, call, leave)?, after))
}

/// What a statement does, as a statement of ClightTSO, and the first temporary behind its own.
/// `next` is the first fresh temporary.
///
/// # Errors
///
/// `NoMemory`, also where there is no number left for a temporary.
#[cycle(meant)]
#[tactic(auto, using(clight_made::proofs::Shapes::block_shape, clight_made::proofs::Shapes::for_shape, clight_made::proofs::Shapes::switch_shape))]
pub fn meant(
    alloc: Global,
    inner: &Inner,
    next: usize,
    made: &Made,
) -> Result<(Rc<Stmt>, usize), NoMemory>
    ensures { IfOk result (λ r. meant_of r ≡ meant (inner_of inner.now) next (made_of made.now)) }
{
    match made {
        Made::Nothing => Ok((shared(alloc, Stmt::Skip)?, next)),
        // the value is not used
        Made::Evaluated(e) => {
            let after = behind(next)?;
            Ok((set_placed(alloc, inner, next, e)?, after))
        }
        Made::Deed(deed) => deed_meant(alloc, inner, next, deed),
        Made::Block(list) => {
            let (list, next) = body_meant(alloc, inner, next, list)?;
            Ok((shared(alloc, Stmt::Block(list))?, next))
        }
        Made::Branch(test, a, b) => {
            let (a, next) = meant(alloc, inner, next, a)?;
            let (b, next) = meant(alloc, inner, next, b)?;
            Ok((branch_on(alloc, inner, test, a, b)?, next))
        }
        Made::While(condition, body) => {
            let (body, next) = meant(alloc, inner, next, body)?;
            Ok((while_loop(alloc, inner, condition, body)?, next))
        }
        Made::Do(body, condition) => {
            let (body, next) = meant(alloc, inner, next, body)?;
            Ok((do_loop(alloc, inner, body, condition)?, next))
        }
        Made::For {
            first,
            condition,
            update,
            body,
        } => {
            let mut statements = Vec::new(alloc);
            let next = all_meant(alloc, inner, next, &mut statements, first)?;
            let (update, next) = meant(alloc, inner, next, update)?;
            let (body, next) = meant(alloc, inner, next, body)?;
            let whole = for_loop(alloc, inner, statements, condition, update, body)?;
            Ok((whole, next))
        }
        Made::Switch(selector, groups) => {
            let body = groups_meant(alloc, inner, next, groups)?;
            switch_on(alloc, inner, selector, body)
        }
        Made::Break => Ok((shared(alloc, Stmt::Break)?, next)),
        Made::Continue => Ok((shared(alloc, Stmt::Continue)?, next)),
        Made::Return(e) => Ok((returned(alloc, inner, e)?, next)),
        Made::ReturnCall(callee, arguments, from, to) => {
            call_returned(alloc, inner, next, callee, arguments, *from, *to)
        }
    }
}

/// What the statements of a body do, and the first temporary behind theirs.
#[cycle(meant)]
pub fn body_meant(
    alloc: Global,
    inner: &Inner,
    next: usize,
    list: &[Made],
) -> Result<(Rc<Stmts>, usize), NoMemory>
    ensures { IfOk result (λ r. (statements_of r.0.value, r.1) ≡ all_meant (inner_of inner.now) next (made_list list.now)) }
{
    let mut statements = Vec::new(alloc);
    let next = all_meant(alloc, inner, next, &mut statements, list)?;
    Ok((listed(alloc, statements)?, next))
}

/// What statements do, behind those that are made already, and the first temporary behind theirs.
#[cycle(meant)]
fn all_meant(
    alloc: Global,
    inner: &Inner,
    next: usize,
    made: &mut Vec<Rc<Stmt>>,
    list: &[Made],
) -> Result<usize, NoMemory>
    ensures { IfOk result (λ after. (listed (map shared_of made.new.items), after) ≡ onto_statements (map shared_of made.old.items) (all_meant (inner_of inner.now) next (made_list list.now))) }
{
    let mut next = next;
    for statement in list {
        let (statement, after) = meant(alloc, inner, next, statement)?;
        made.push(statement).map_err(AllocError::from)?;
        next = after;
    }
    Ok(next)
}

/// What the groups of a switch do, with their statements in one list.
#[cycle(meant)]
pub fn groups_meant(
    alloc: Global,
    inner: &Inner,
    next: usize,
    groups: &[MadeGroup],
) -> Result<SwitchBody, NoMemory>
    ensures { IfOk result (λ r. switch_of r ≡ groups_meant (inner_of inner.now) next 0 (made_groups groups.now)) }
{
    let mut made = Vec::new(alloc);
    let mut statements = Vec::new(alloc);
    let mut next = next;
    for group in groups {
        let from = statements.len();
        next = all_meant(alloc, inner, next, &mut statements, &group.statements)?;
        made.push(Group {
            numbers: Vec::from_slice(alloc, &group.numbers)?,
            is_default: group.is_default,
            from,
        })
        .map_err(AllocError::from)?;
    }
    Ok(SwitchBody {
        groups: made,
        statements,
        next,
    })
}
