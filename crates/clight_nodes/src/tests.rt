//! Trees whose nodes and labels were counted by hand.

use crate::{count_exprs, count_items, most_labels};
use c_tree::{
    Decl, Declarator, Direct, Expr, Group, InitDeclarator, Initializer, Item, Label, Number, Stmt,
};
use std::alloc::Global;
use std::test::Fail;
use tso_words::Name;

fn variable(alloc: Global, name: &[u8]) -> Result<Expr, Fail> {
    Ok(Expr::Name {
        at: 0,
        name: Name::made(alloc, name)?,
    })
}

fn number(value: u32) -> Expr {
    Expr::Constant {
        at: 0,
        number: Number::Decimal(value),
    }
}

// `int NAME = 1;`, without its `int`, which is no node.
fn declared(alloc: Global, name: &[u8]) -> Result<Item, Fail> {
    let declarator = Declarator {
        pointers: Vec::new(alloc),
        direct: Direct::Named {
            at: 0,
            name: Name::made(alloc, name)?,
        },
        suffixes: Vec::new(alloc),
    };
    let init = InitDeclarator {
        declarator,
        initializer: Some(Initializer::Value(number(1))),
    };
    Ok(Item::Decl(Decl {
        at: 0,
        specifiers: Vec::new(alloc),
        declarators: vec![in alloc; init]?,
    }))
}

// `switch (x) { case 1: case 2: ITEM default: ; }`
fn switch(alloc: Global, item: Item) -> Result<Stmt, Fail> {
    let first = Label::Case {
        at: 0,
        value: number(1),
    };
    let second = Label::Case {
        at: 0,
        value: number(2),
    };
    let cases = Group {
        labels: vec![in alloc; first, second]?,
        items: vec![in alloc; item]?,
    };
    let others = Group {
        labels: vec![in alloc; Label::Default { at: 0 }]?,
        items: vec![in alloc; Item::Stmt(Stmt::Empty { at: 0 })]?,
    };
    Ok(Stmt::Switch {
        at: 0,
        selector: variable(alloc, b"x")?,
        groups: vec![in alloc; cases, others]?,
    })
}

#[test]
fn arguments_are_counted(rt: HostRuntime) -> Result<(), Fail> {
    let alloc = rt.alloc();
    // `a[1], f(x, 2)`: the index with its operands, and the call with its callee and arguments.
    let index = Expr::Index {
        at: 0,
        op_at: 0,
        array: Box::new(alloc, variable(alloc, b"a")?)?,
        index: Box::new(alloc, number(1))?,
    };
    let call = Expr::Call {
        at: 0,
        op_at: 0,
        callee: Box::new(alloc, variable(alloc, b"f")?)?,
        arguments: vec![in alloc; variable(alloc, b"x")?, number(2)]?,
    };
    let list = vec![in alloc; index, call]?;
    let mut count = 5;
    count_exprs(&mut count, &list);
    assert!(rt; count == 5 + 3 + 4);
    Ok(())
}

#[test]
fn a_switch_in_a_switch(rt: HostRuntime) -> Result<(), Fail> {
    let alloc = rt.alloc();
    let inner = switch(alloc, declared(alloc, b"y")?)?;
    let outer = switch(alloc, Item::Stmt(inner))?;
    let body = vec![in alloc; declared(alloc, b"x")?, Item::Stmt(outer)]?;
    let mut count = 0;
    count_items(&mut count, &body);
    // `x` and its value, and for each switch itself, `x`, two numbers and `;`, and `y` and its value.
    assert!(rt; count == 2 + 5 + 5 + 2);
    assert!(rt; most_labels(&body) == 3);
    Ok(())
}

#[test]
fn a_full_count_stays(rt: HostRuntime) -> Result<(), Fail> {
    let alloc = rt.alloc();
    let list = vec![in alloc; number(1), number(2)]?;
    let mut count = usize::MAX - 1;
    count_exprs(&mut count, &list);
    assert!(rt; count == usize::MAX);
    Ok(())
}
