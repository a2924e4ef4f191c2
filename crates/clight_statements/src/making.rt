//! What statements do, put together from what their parts do.

ghost use Rattle.std.specs.Prelude.{◌≡◌, ◌++◌, IfOk, OnOk};
ghost use Rattle.clight_lang.specs.Syntax.{expression_of};
ghost use Rattle.clight_typing.specs.Statements.{BranchMade, WhileMade, DoMade, ForMade, alone, joined};
ghost use Rattle.clight_made.specs.MadeOf.{made_of, made_list};
ghost use Rattle.clight_statements.specs.StatementsOf.{maybe_made, head_of};

use crate::effects::ForHead;
use clight_lang::expression::Expr;
use clight_made::Made;
use clight_specifiers::built::push;
use std::alloc::{AllocError, Global};
use tso_words::NoMemory;

/// A list of one statement.
pub fn alone(alloc: Global, made: Made) -> Result<Vec<Made>, NoMemory>
    ensures { IfOk result (λ list. made_list list.items ≡ alone (made_of made)) }
{
    let mut list = Vec::new(alloc);
    push(&mut list, made)?;
    Ok(list)
}

/// One statement more, where there is one.
#[tactic(auto, using(crate::proofs::Joined::one_more, crate::proofs::Joined::joined_none))]
pub fn add(list: &mut Vec<Made>, made: Option<Made>) -> Result<(), NoMemory>
    ensures { OnOk result (made_list list.new.items ≡ joined (made_list list.old.items) (maybe_made made)) }
{
    match made {
        Some(made) => push(list, made),
        None => Ok(()),
    }
}

/// Statements behind others.
#[tactic(auto, using(crate::proofs::Joined::more))]
pub fn append(list: &mut Vec<Made>, others: Vec<Made>) -> Result<(), NoMemory>
    ensures { OnOk result (made_list list.new.items ≡ joined (made_list list.old.items) (made_list others.items)) }
{
    let mut others = others;
    list.append(&mut others)?;
    Ok(())
}

fn boxed(alloc: Global, made: Made) -> Result<Box<Made>, NoMemory>
    ensures { IfOk result (λ b. made_of b.value ≡ made_of made) }
{
    Ok(Box::new(alloc, made).map_err(AllocError::from)?)
}

/// A branch on a condition.
pub fn branch(alloc: Global, condition: Expr, a: Made, b: Made) -> Result<Made, NoMemory>
    ensures { IfOk result (λ m. made_of m ≡ BranchMade (expression_of condition) (made_of a) (made_of b)) }
{
    let a = boxed(alloc, a)?;
    let b = boxed(alloc, b)?;
    Ok(Made::Branch(condition, a, b))
}

/// A `while`.
pub fn while_loop(alloc: Global, condition: Expr, body: Made) -> Result<Made, NoMemory>
    ensures { IfOk result (λ m. made_of m ≡ WhileMade (expression_of condition) (made_of body)) }
{
    Ok(Made::While(condition, boxed(alloc, body)?))
}

/// A `do`.
pub fn do_loop(alloc: Global, body: Made, condition: Expr) -> Result<Made, NoMemory>
    ensures { IfOk result (λ m. made_of m ≡ DoMade (made_of body) (expression_of condition)) }
{
    Ok(Made::Do(boxed(alloc, body)?, condition))
}

/// A `for`.
pub fn for_loop(alloc: Global, head: ForHead, body: Made) -> Result<Made, NoMemory>
    ensures { IfOk result (λ m. made_of m ≡ ForMade (head_of head).first (head_of head).condition (head_of head).update (made_of body)) }
{
    let ForHead {
        first,
        condition,
        update,
    } = head;
    let update = boxed(alloc, update)?;
    let body = boxed(alloc, body)?;
    Ok(Made::For {
        first,
        condition,
        update,
        body,
    })
}
