//! Expressions: a local that is a temporary is read as one.

ghost use Rattle.std.specs.Prelude.{◌≡◌, IfOk, map};
ghost use Rattle.std.specs.Option.{option_map};
ghost use Rattle.clight_lang.specs.Syntax.{expression_of};
ghost use Rattle.clight_placing.specs.Placing.{address_at, placed, temp_of};
ghost use Rattle.clight_placing.specs.InnerOf.{inner_of, location_of};

use crate::inner::{Inner, Location};
use clight_calls::names::copied;
use clight_lang::expression::Expr;
use std::alloc::{AllocError, Global};
use tso_words::NoMemory;

fn address_at(location: Location) -> Expr
    ensures { expression_of result ≡ address_at (location_of location) }
{
    match location {
        Location::Memory(m) => Expr::LocalAddr(m),
        Location::Temp(t) => Expr::Temp(t),
    }
}

/// The temporary that a place is.
pub fn temp_of(inner: &Inner, place: &Expr) -> Option<usize>
    ensures { result ≡ temp_of (inner_of inner.now) (expression_of place.now) }
{
    match place {
        Expr::LocalAddr(n) => match inner.location(*n) {
            Location::Temp(t) => Some(t),
            Location::Memory(_) => None,
        },
        Expr::Const(_)
        | Expr::Temp(_)
        | Expr::GlobalAddr(_)
        | Expr::Read(..)
        | Expr::Unary(..)
        | Expr::Binary(..)
        | Expr::AndAlso(..)
        | Expr::OrElse(..)
        | Expr::Choose(..) => None,
    }
}

/// An expression in which each local is where it is.
#[cycle(placed)]
#[tactic(auto, using(crate::proofs::Places::temp_read, crate::proofs::Places::memory_read))]
pub fn placed(alloc: Global, inner: &Inner, e: &Expr) -> Result<Expr, NoMemory>
    ensures { IfOk result (λ r. expression_of r ≡ placed (inner_of inner.now) (expression_of e.now)) }
{
    match e {
        Expr::Const(word) => Ok(Expr::Const(*word)),
        Expr::Temp(i) => Ok(Expr::Temp(*i)),
        Expr::LocalAddr(n) => Ok(address_at(inner.location(*n))),
        Expr::GlobalAddr(name) => Ok(Expr::GlobalAddr(copied(name)?)),
        Expr::Read(chunk, address) => match temp_of(inner, address) {
            Some(t) => Ok(Expr::Temp(t)),
            None => Ok(Expr::Read(*chunk, boxed(alloc, inner, address)?)),
        },
        Expr::Unary(op, a) => Ok(Expr::Unary(*op, boxed(alloc, inner, a)?)),
        Expr::Binary(op, a, b) => {
            let a = boxed(alloc, inner, a)?;
            let b = boxed(alloc, inner, b)?;
            Ok(Expr::Binary(*op, a, b))
        }
        Expr::AndAlso(a, b) => {
            let a = boxed(alloc, inner, a)?;
            let b = boxed(alloc, inner, b)?;
            Ok(Expr::AndAlso(a, b))
        }
        Expr::OrElse(a, b) => {
            let a = boxed(alloc, inner, a)?;
            let b = boxed(alloc, inner, b)?;
            Ok(Expr::OrElse(a, b))
        }
        Expr::Choose(test, a, b) => {
            let test = boxed(alloc, inner, test)?;
            let a = boxed(alloc, inner, a)?;
            let b = boxed(alloc, inner, b)?;
            Ok(Expr::Choose(test, a, b))
        }
    }
}

/// The same as a part of another expression.
#[cycle(placed)]
fn boxed(alloc: Global, inner: &Inner, e: &Expr) -> Result<Box<Expr>, NoMemory>
    ensures { IfOk result (λ r. expression_of r.value ≡ placed (inner_of inner.now) (expression_of e.now)) }
{
    let e = placed(alloc, inner, e)?;
    Ok(Box::new(alloc, e).map_err(AllocError::from)?)
}

/// Expressions in order, as the arguments of a call.
pub fn placed_all(alloc: Global, inner: &Inner, list: &[Expr]) -> Result<Vec<Expr>, NoMemory>
    ensures { IfOk result (λ es. map expression_of es.items ≡ map (placed (inner_of inner.now)) (map expression_of list.now)) }
{
    let mut made = Vec::new(alloc);
    for e in list {
        let e = placed(alloc, inner, e)?;
        made.push(e).map_err(AllocError::from)?;
    }
    Ok(made)
}

/// An expression where there is one.
pub fn placed_option(
    alloc: Global,
    inner: &Inner,
    e: &Option<Expr>,
) -> Result<Option<Expr>, NoMemory>
    ensures { IfOk result (λ r. option_map expression_of r ≡ option_map (placed (inner_of inner.now)) (option_map expression_of e.now)) }
{
    match e {
        Some(e) => Ok(Some(placed(alloc, inner, e)?)),
        None => Ok(None),
    }
}
