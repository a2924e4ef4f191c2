//! Lists of statements, and blocks, loops and branches of statements that are made. A statement
//! that is made has one owner from its begin on.

ghost use Rattle.std.specs.Prelude.{◌≡◌, ◌+◌, IfOk, map};
ghost use Rattle.clight_lang.specs.Syntax.{expression_of, statement_of, statements_of, Nil, Cons, Set, Store, If, Loop, Block};
ghost use Rattle.clight_types.specs.WordOperators.{value_chunk};
ghost use Rattle.clight_placing.specs.Placing.{block_two, block_three};
ghost use Rattle.clight_placing.specs.Listed.{listed, shared_of};

use clight_lang::expression::Expr;
use clight_lang::leading::shared;
use clight_lang::statement::{Stmt, Stmts};
use clight_types::Value;
use clight_types::constants::chunk_of;
use std::alloc::Global;
use std::rc::Rc;
use tso_words::NoMemory;

/// The temporary behind one.
pub fn behind(temp: usize) -> Result<usize, NoMemory>
    ensures { IfOk result (λ next. next ≡ temp + 1) }
{
    temp.checked_add(1).ok_or(NoMemory)
}

fn cons(alloc: Global, first: Rc<Stmt>, others: Rc<Stmts>) -> Result<Rc<Stmts>, NoMemory>
    ensures { IfOk result (λ l. statements_of l.value ≡ Cons (statement_of first.value) (statements_of others.value)) }
{
    shared(alloc, Stmts::Cons(first, others))
}

/// The statements of a vector. They are put together from the last one on, so that nothing goes
/// as deep as the list is long.
#[tactic(auto, using(crate::proofs::Joined::pushed_onto, crate::proofs::Joined::both_nil))]
pub fn listed(alloc: Global, list: Vec<Rc<Stmt>>) -> Result<Rc<Stmts>, NoMemory>
    ensures { IfOk result (λ l. statements_of l.value ≡ listed (map shared_of list.items)) }
{
    let mut rest = list;
    let mut made = shared(alloc, Stmts::Nil)?;
    while let Some(last) = rest.pop() {
        made = cons(alloc, last, made)?;
    }
    Ok(made)
}

/// The statements of a vector, as one.
pub fn block(alloc: Global, list: Vec<Rc<Stmt>>) -> Result<Rc<Stmt>, NoMemory>
    ensures { IfOk result (λ s. statement_of s.value ≡ Block (listed (map shared_of list.items))) }
{
    let list = listed(alloc, list)?;
    shared(alloc, Stmt::Block(list))
}

fn pair(alloc: Global, a: Rc<Stmt>, b: Rc<Stmt>) -> Result<Rc<Stmts>, NoMemory>
    ensures { IfOk result (λ l. statements_of l.value ≡ Cons (statement_of a.value) (Cons (statement_of b.value) Nil)) }
{
    let list = shared(alloc, Stmts::Nil)?;
    let list = cons(alloc, b, list)?;
    cons(alloc, a, list)
}

/// One statement and then another.
pub fn block_two(alloc: Global, a: Rc<Stmt>, b: Rc<Stmt>) -> Result<Rc<Stmt>, NoMemory>
    ensures { IfOk result (λ s. statement_of s.value ≡ block_two (statement_of a.value) (statement_of b.value)) }
{
    let list = pair(alloc, a, b)?;
    shared(alloc, Stmt::Block(list))
}

/// Three statements in order.
pub fn block_three(
    alloc: Global,
    a: Rc<Stmt>,
    b: Rc<Stmt>,
    c: Rc<Stmt>,
) -> Result<Rc<Stmt>, NoMemory>
    ensures { IfOk result (λ s. statement_of s.value ≡ block_three (statement_of a.value) (statement_of b.value) (statement_of c.value)) }
{
    let list = pair(alloc, b, c)?;
    let list = cons(alloc, a, list)?;
    shared(alloc, Stmt::Block(list))
}

/// A value becomes that of a temporary.
pub fn set(alloc: Global, temp: usize, value: Expr) -> Result<Rc<Stmt>, NoMemory>
    ensures { IfOk result (λ s. statement_of s.value ≡ Set temp (expression_of value)) }
{
    shared(alloc, Stmt::Set(temp, value))
}

/// A value of a type is stored at an address.
pub fn store(alloc: Global, to: Value, address: Expr, value: Expr) -> Result<Rc<Stmt>, NoMemory>
    ensures { IfOk result (λ s. statement_of s.value ≡ Store (value_chunk to) (expression_of address) (expression_of value)) }
{
    shared(alloc, Stmt::Store(chunk_of(to), address, value))
}

/// A branch on an expression that is made.
pub fn branch(alloc: Global, test: Expr, a: Rc<Stmt>, b: Rc<Stmt>) -> Result<Rc<Stmt>, NoMemory>
    ensures { IfOk result (λ s. statement_of s.value ≡ If (expression_of test) (statement_of a.value) (statement_of b.value)) }
{
    shared(alloc, Stmt::If(test, a, b))
}

/// A loop of two parts.
pub fn repeated(alloc: Global, body: Rc<Stmt>, step: Rc<Stmt>) -> Result<Rc<Stmt>, NoMemory>
    ensures { IfOk result (λ s. statement_of s.value ≡ Loop (statement_of body.value) (statement_of step.value)) }
{
    shared(alloc, Stmt::Loop(body, step))
}
