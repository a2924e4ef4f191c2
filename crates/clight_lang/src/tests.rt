//! Threads of programs made by hand, stepped rule by rule.

use crate::expression::Expr;
use crate::function::{Function, Kept, Local};
use crate::leading::{same, shared};
use crate::offering::thread_offer;
use crate::resuming::{resume_thread, thread_of};
use crate::returning::program_returning;
use crate::statement::{Builtin, Group, Stmt, Stmts};
use crate::thread::Thread;
use std::alloc::Global as Heap;
use std::rc::Rc;
use std::test::Fail;
use tso_core::offer::{Answer, Atomic, Offer};
use tso_core::placement::{Placement, Room};
use tso_words::{Chunk, Cond, Name, Op, Val, Words};

/// The address of the function, or global, that is called `it`.
const IT: u32 = 0x0800_0001;

const AT: Val = Val::Word(64);

fn words(alloc: Heap, list: &[u32]) -> Result<Words, Fail> {
    Ok(Words::made(alloc, list)?)
}

fn place(alloc: Heap) -> Result<Placement, Fail> {
    let it = Name::made(alloc, b"it")?;
    Ok(Placement::made(alloc, Vec::from_array(alloc, [(it, IT)])?)?)
}

fn statements(alloc: Heap, mut list: Vec<Stmt>) -> Result<Rc<Stmts>, Fail> {
    let mut made = shared(alloc, Stmts::Nil)?;
    for _ in 0..list.len() {
        if let Some(s) = list.pop() {
            made = shared(alloc, Stmts::Cons(shared(alloc, s)?, made))?;
        }
    }
    Ok(made)
}

fn function(alloc: Heap, name: &[u8], body: Rc<Stmts>) -> Result<Function, Fail> {
    Ok(Function {
        name: Name::made(alloc, name)?,
        function_type: 0,
        parameters: 0,
        taken: Vec::new(alloc),
        kept: Vec::new(alloc),
        locals: Vec::new(alloc),
        temps: 2,
        body,
        room: Room {
            nodes: 9,
            stated: 632,
            needed: 8,
        },
    })
}

/// The function `it(int x)`, whose parameter is in memory: it returns x.
fn it(alloc: Heap) -> Result<Rc<Function>, Fail> {
    let x = Expr::Read(Chunk::I32, Box::new(alloc, Expr::LocalAddr(0))?);
    let body = statements(alloc, Vec::from_array(alloc, [Stmt::Return(Some(x))])?)?;
    let mut it = function(alloc, b"it", body)?;
    it.function_type = 1;
    it.parameters = 1;
    it.kept.push(Kept {
        argument: 0,
        local: 0,
        chunk: Chunk::I32,
    })?;
    it.locals.push(Local { size: 4, align: 4 })?;
    Ok(shared(alloc, it)?)
}

/// The offers of a thread but the silent ones, where each that asks for a word is answered the next
/// of these words, up to an offer that ends it.
fn offers(alloc: Heap, t: &mut Thread, words: &[u32]) -> Result<Vec<Offer>, Fail> {
    let functions = Vec::from_array(alloc, [it(alloc)?])?;
    let at = place(alloc)?;
    let mut seen = Vec::new(alloc);
    let mut next = 0;
    for _ in 0..60 {
        let offer = thread_offer(alloc, &functions, &at, t)?;
        let mut answer = Answer::Nothing;
        match &offer {
            Offer::Silent => {}
            Offer::Exit { word: _ } | Offer::End | Offer::Wrong => {
                seen.push(offer)?;
                return Ok(seen);
            }
            Offer::Store { .. } | Offer::Lift { .. } | Offer::Fence | Offer::Free { addr: _ } => {
                seen.push(offer)?;
            }
            Offer::Call { .. } => {
                seen.push(offer)?;
            }
            _ => {
                seen.push(offer)?;
                if next < words.len() {
                    answer = Answer::Value(Val::Word(words[next]));
                    next += 1;
                }
            }
        }
        resume_thread(alloc, &functions, &at, t, answer)?;
    }
    Ok(seen)
}

/// The offers of main with this body.
fn main_offers(alloc: Heap, body: Vec<Stmt>, words: &[u32]) -> Result<Vec<Offer>, Fail> {
    let main = function(alloc, b"main", statements(alloc, body)?)?;
    let mut t = thread_of(alloc, true, shared(alloc, main)?, Vec::new(alloc));
    offers(alloc, &mut t, words)
}

fn store(val: u32) -> Offer {
    Offer::Store {
        chunk: Chunk::I8s,
        addr: AT,
        val: Val::Word(val),
    }
}

fn put(val: Expr) -> Stmt {
    Stmt::Store(Chunk::I8s, Expr::Const(64), val)
}

fn exit(word: u32) -> Offer {
    Offer::Exit {
        word: Val::Word(word),
    }
}

fn compared(alloc: Heap, cond: Cond, word: u32) -> Result<Expr, Fail> {
    let i = Box::new(alloc, Expr::Temp(0))?;
    let n = Box::new(alloc, Expr::Const(word))?;
    Ok(Expr::Binary(Op::Cmp(cond), i, n))
}

/// `if (e) a`.
fn when(alloc: Heap, e: Expr, a: Stmt, b: Stmt) -> Result<Stmt, Fail> {
    Ok(Stmt::If(e, shared(alloc, a)?, shared(alloc, b)?))
}

fn block(alloc: Heap, list: Vec<Stmt>) -> Result<Stmt, Fail> {
    Ok(Stmt::Block(statements(alloc, list)?))
}

#[test]
fn loops_continue_at_the_third_part(rt: HostRuntime) -> Result<(), Fail> {
    let alloc = rt.alloc();
    // for (i = 0; i < 3; i++) { if (i == 1) continue; store i; }
    let test = when(
        alloc,
        compared(alloc, Cond::LtS, 3)?,
        Stmt::Skip,
        Stmt::Break,
    )?;
    let skip = when(
        alloc,
        compared(alloc, Cond::Eq, 1)?,
        Stmt::Continue,
        Stmt::Skip,
    )?;
    let inner = Vec::from_array(alloc, [skip, put(Expr::Temp(0))])?;
    let body = Vec::from_array(alloc, [test, block(alloc, inner)?])?;
    let first = block(alloc, body)?;
    let one = Box::new(alloc, Expr::Const(1))?;
    let i = Box::new(alloc, Expr::Temp(0))?;
    let next = Stmt::Set(0, Expr::Binary(Op::Add, i, one));
    let all = [
        Stmt::Set(0, Expr::Const(0)),
        Stmt::Loop(shared(alloc, first)?, shared(alloc, next)?),
    ];
    let seen = main_offers(alloc, Vec::from_array(alloc, all)?, &[])?;
    assert!(rt; seen.len() == 3);
    assert!(rt; seen[0] == store(0));
    assert!(rt; seen[1] == store(2));
    assert!(rt; seen[2] == exit(0));
    Ok(())
}

fn group(alloc: Heap, number: u32, is_default: bool, from: usize) -> Result<Group, Fail> {
    Ok(Group {
        numbers: Vec::from_slice(alloc, &[number])?,
        is_default,
        from,
    })
}

/// `switch (e) { case 1: store 1; case 2: store 2; break; default: store 4; }`.
fn switch(alloc: Heap, e: Expr) -> Result<Vec<Stmt>, Fail> {
    let list = [
        put(Expr::Const(1)),
        put(Expr::Const(2)),
        Stmt::Break,
        put(Expr::Const(4)),
    ];
    let groups = [
        group(alloc, 1, false, 0)?,
        group(alloc, 2, false, 1)?,
        group(alloc, 9, true, 3)?,
    ];
    let list = statements(alloc, Vec::from_array(alloc, list)?)?;
    let groups = Vec::from_array(alloc, groups)?;
    Ok(Vec::from_array(alloc, [Stmt::Switch(e, groups, list)])?)
}

#[test]
fn switches_run_on_into_the_next_group(rt: HostRuntime) -> Result<(), Fail> {
    let alloc = rt.alloc();
    let seen = main_offers(alloc, switch(alloc, Expr::Const(1))?, &[])?;
    assert!(rt; seen.len() == 3);
    assert!(rt; seen[0] == store(1));
    assert!(rt; seen[1] == store(2));
    assert!(rt; seen[2] == exit(0));
    let seen = main_offers(alloc, switch(alloc, Expr::Const(7))?, &[])?;
    assert!(rt; seen.len() == 2);
    assert!(rt; seen[0] == store(4));
    let seen = main_offers(alloc, switch(alloc, Expr::Temp(0))?, &[])?;
    assert!(rt; seen.len() == 1);
    assert!(rt; seen[0] == Offer::Wrong);
    Ok(())
}

#[test]
fn calls_place_store_and_lift(rt: HostRuntime) -> Result<(), Fail> {
    let alloc = rt.alloc();
    let it = Name::made(alloc, b"it")?;
    let args = Vec::from_array(alloc, [Expr::Const(5)])?;
    let body = [
        Stmt::Call(0, 1, Expr::GlobalAddr(it), args),
        Stmt::Return(Some(Expr::Temp(0))),
    ];
    let body = Vec::from_array(alloc, body)?;
    let seen = main_offers(alloc, body, &[0x9000_0000, 5])?;
    assert!(rt; seen.len() == 5);
    assert!(rt; seen[0] == Offer::Place { size: 4, align: 4 });
    let x = Val::Word(0x9000_0000);
    let kept = Offer::Store {
        chunk: Chunk::I32,
        addr: x,
        val: Val::Word(5),
    };
    assert!(rt; seen[1] == kept);
    let read = Offer::Load {
        chunk: Chunk::I32,
        addr: x,
    };
    assert!(rt; seen[2] == read);
    let lift = Offer::Lift {
        base: 0x9000_0000,
        size: 4,
    };
    assert!(rt; seen[3] == lift);
    assert!(rt; seen[4] == exit(5));
    Ok(())
}

#[test]
fn external_calls_wait_for_a_word(rt: HostRuntime) -> Result<(), Fail> {
    let alloc = rt.alloc();
    let args = Vec::from_array(alloc, [Expr::Const(5)])?;
    let body = [
        Stmt::External(0, Name::made(alloc, b"print")?, 1, args),
        Stmt::Return(Some(Expr::Temp(0))),
    ];
    let seen = main_offers(alloc, Vec::from_array(alloc, body)?, &[8])?;
    assert!(rt; seen.len() == 3);
    let call = Offer::Call {
        name: Name::made(alloc, b"print")?,
        words: words(alloc, &[5])?,
    };
    assert!(rt; seen[0] == call);
    assert!(rt; seen[1] == Offer::Wait);
    assert!(rt; seen[2] == exit(8));
    Ok(())
}

/// The first offer of a builtin on the words 1, 2 and 3.
fn builtin(alloc: Heap, builtin: Builtin) -> Result<Offer, Fail> {
    let args = [Expr::Const(1), Expr::Const(2), Expr::Const(3)];
    let s = Stmt::Builtin(0, builtin, Vec::from_array(alloc, args)?);
    let mut seen = main_offers(alloc, Vec::from_array(alloc, [s])?, &[4])?;
    if seen.is_empty() {
        return Ok(Offer::Silent);
    }
    Ok(seen.remove(0))
}

#[test]
fn builtins_offer_what_they_do(rt: HostRuntime) -> Result<(), Fail> {
    let alloc = rt.alloc();
    let (one, two) = (Val::Word(1), Val::Word(2));
    let cases = [
        (Builtin::ThreadCreate, Offer::Start { fun: one, arg: two }),
        (Builtin::Fence, Offer::Fence),
        (Builtin::AtomicCas, atomic(Atomic::Cas, two, Val::Word(3))),
        (Builtin::AtomicAdd, atomic(Atomic::Add, Val::Undef, two)),
        (Builtin::AtomicXchg, atomic(Atomic::Xchg, Val::Undef, two)),
        (Builtin::Malloc, Offer::Malloc { size: one }),
        (Builtin::Free, Offer::Free { addr: one }),
        (Builtin::Exit, Offer::Exit { word: one }),
    ];
    for (service, expected) in &cases {
        let seen = builtin(alloc, *service)?;
        assert!(rt; seen == *expected);
    }
    Ok(())
}

fn atomic(kind: Atomic, expected: Val, desired: Val) -> Offer {
    Offer::Atomic {
        kind,
        addr: Val::Word(1),
        expected,
        desired,
    }
}

/// `a / b` or the like.
fn binary(alloc: Heap, op: Op, a: Expr, b: Expr) -> Result<Expr, Fail> {
    Ok(Expr::Binary(op, Box::new(alloc, a)?, Box::new(alloc, b)?))
}

#[test]
fn threads_go_wrong(rt: HostRuntime) -> Result<(), Fail> {
    let alloc = rt.alloc();
    let it = Name::made(alloc, b"it")?;
    let zero = binary(alloc, Op::DivU, Expr::Const(1), Expr::Const(0))?;
    let bodies = [
        when(alloc, Expr::Temp(0), Stmt::Skip, Stmt::Skip)?,
        Stmt::Set(0, zero),
        Stmt::Break,
        Stmt::Continue,
        Stmt::Call(0, 0, Expr::GlobalAddr(it), Vec::new(alloc)),
        Stmt::Call(0, 1, Expr::Const(7), Vec::new(alloc)),
    ];
    let mut bodies = Vec::from_array(alloc, bodies)?;
    for _ in 0..bodies.len() {
        if let Some(s) = bodies.pop() {
            let seen = main_offers(alloc, Vec::from_array(alloc, [s])?, &[])?;
            assert!(rt; seen.len() == 1);
            assert!(rt; seen[0] == Offer::Wrong);
        }
    }
    Ok(())
}

#[test]
fn conditions_look_at_the_part_that_counts(rt: HostRuntime) -> Result<(), Fail> {
    let alloc = rt.alloc();
    let cases = [
        (0u32, 3u32, 0u32, 1u32),
        (5, 0, 0, 1),
        (5, 3, 1, 1),
        (0, 0, 0, 0),
    ];
    for (a, b, and, or) in &cases {
        let both = Expr::AndAlso(
            Box::new(alloc, Expr::Const(*a))?,
            Box::new(alloc, Expr::Const(*b))?,
        );
        let either = Expr::OrElse(
            Box::new(alloc, Expr::Const(*a))?,
            Box::new(alloc, Expr::Const(*b))?,
        );
        let body = Vec::from_array(alloc, [Stmt::Return(Some(both))])?;
        let seen = main_offers(alloc, body, &[])?;
        assert!(rt; seen.len() == 1);
        assert!(rt; seen[0] == exit(*and));
        let body = Vec::from_array(alloc, [Stmt::Return(Some(either))])?;
        let seen = main_offers(alloc, body, &[])?;
        assert!(rt; seen.len() == 1);
        assert!(rt; seen[0] == exit(*or));
    }
    Ok(())
}

#[test]
fn other_threads_end(rt: HostRuntime) -> Result<(), Fail> {
    let alloc = rt.alloc();
    let f = function(alloc, b"f", statements(alloc, Vec::new(alloc))?)?;
    let mut t = thread_of(alloc, false, shared(alloc, f)?, Vec::new(alloc));
    let seen = offers(alloc, &mut t, &[])?;
    assert!(rt; seen.len() == 1);
    assert!(rt; seen[0] == Offer::End);
    Ok(())
}

#[test]
fn the_least_program_exits(rt: HostRuntime) -> Result<(), Fail> {
    let alloc = rt.alloc();
    let p = program_returning(alloc, 42)?;
    let mut t = thread_of(alloc, true, same(&p.main)?, Vec::new(alloc));
    let seen = offers(alloc, &mut t, &[])?;
    assert!(rt; seen.len() == 1);
    assert!(rt; seen[0] == exit(42));
    Ok(())
}

#[test]
fn long_blocks_are_let_go(rt: HostRuntime) -> Result<(), Fail> {
    let alloc = rt.alloc();
    let mut list = Vec::new(alloc);
    for _ in 0..8000 {
        list.push(Stmt::Skip)?;
    }
    let block = statements(alloc, list)?;
    assert!(rt; matches!(block.as_ref(), Stmts::Cons(_, _)));
    Ok(())
}
