//! Statements worked by hand, in a function whose first local is a temporary and whose second one
//! is in memory.

use crate::inner::{Inner, Location};
use crate::statements::{groups_meant, meant};
use clight_lang::expression::Expr;
use clight_lang::statement::{Builtin, Stmt};
use clight_made::{Made, MadeGroup};
use clight_operands::typed::{Callee, Deed, Source};
use clight_types::Types;
use clight_types::conversions::INT;
use indexmap::IndexSet;
use std::alloc::Global;
use std::test::Fail;
use tso_words::Chunk;

const LOCALS: [Location; 2] = [Location::Temp(0), Location::Memory(0)];

/// `x = 7`, of the local of this number.
fn assigned(n: usize) -> Made {
    let seven = Source::Value(Expr::Const(7));
    Made::Deed(Deed::Assign(Expr::LocalAddr(n), INT, seven))
}

/// `x = malloc(..)`, of the local of this number, without its argument.
fn answered(alloc: Global, n: usize) -> Made {
    let call = Source::Call(Callee::Provided(Builtin::Malloc), Vec::new(alloc), INT);
    Made::Deed(Deed::Assign(Expr::LocalAddr(n), INT, call))
}

#[test]
fn locals_are_where_they_are(rt: HostRuntime) -> Result<(), Fail> {
    let alloc = rt.alloc();
    let types = Types::first(alloc)?;
    let function_types = IndexSet::new(alloc);
    let inner = Inner {
        types: &types,
        function_types: &function_types,
        locations: &LOCALS,
    };
    assert!(rt; inner.location(1) == Location::Memory(0));
    assert!(rt; inner.location(2) == Location::Memory(1));
    let (s, next) = meant(alloc, &inner, 1, &assigned(0))?;
    assert!(rt; matches!(s.as_ref(), Stmt::Set(0, Expr::Const(7))));
    assert!(rt; next == 1);
    let (s, next) = meant(alloc, &inner, 1, &assigned(1))?;
    assert!(rt;
        matches!(
            s.as_ref(),
            Stmt::Store(Chunk::I32, Expr::LocalAddr(0), Expr::Const(7))
        )
    );
    assert!(rt; next == 1);
    let (_, next) = meant(alloc, &inner, 1, &answered(alloc, 0))?;
    assert!(rt; next == 2);
    let (_, next) = meant(alloc, &inner, 1, &answered(alloc, 1))?;
    assert!(rt; next == 3);
    Ok(())
}

#[test]
fn groups_begin_behind_each_other(rt: HostRuntime) -> Result<(), Fail> {
    let alloc = rt.alloc();
    let types = Types::first(alloc)?;
    let function_types = IndexSet::new(alloc);
    let inner = Inner {
        types: &types,
        function_types: &function_types,
        locations: &LOCALS,
    };
    let first = MadeGroup {
        numbers: Vec::from_array(alloc, [1, 2])?,
        is_default: false,
        statements: Vec::from_array(alloc, [assigned(0), Made::Break])?,
    };
    let second = MadeGroup {
        numbers: Vec::new(alloc),
        is_default: true,
        statements: Vec::from_array(alloc, [assigned(1)])?,
    };
    let groups = Vec::from_array(alloc, [first, second])?;
    let body = groups_meant(alloc, &inner, 1, &groups)?;
    assert!(rt; body.groups.len() == 2);
    assert!(rt; body.groups[0].from == 0);
    assert!(rt; body.groups[1].from == 2);
    assert!(rt; body.statements.len() == 3);
    assert!(rt; body.next == 1);
    Ok(())
}
