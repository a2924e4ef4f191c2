//! Replays of programs made by hand. Each has the functions `f`, `g` and `main` and the globals `x`
//! and `y` of a word each, and calls the external function `print`.
ghost use Rattle.std.specs.Prelude.{◌≡◌, [], IfOk};
ghost use Rattle.tso_core.specs.Stated.{globals_of, object_of};
ghost use Rattle.clight_lang.specs.Placed.{AreWithin};
ghost use Rattle.clight_run.specs.Tried.{names_tried};

use crate::replay_source;
use clight_lang::Program;
use clight_lang::expression::Expr;
use clight_lang::function::{Function, Local, Taken};
use clight_lang::leading::{same, shared};
use clight_lang::program::External;
use clight_lang::statement::{Builtin, Stmt, Stmts};
use schedule_text::{ReplayRefusal, ScheduleRefusal, print_not_a_run, print_replay, read_schedule};
use std::alloc::Global as Heap;
use std::process::Abort;
use std::rc::Rc;
use std::test::Fail;
use tso_core::placement::{Global, Globals, Room};
use tso_words::{Chunk, Name, Op};

/// The types `void (void *)` and `int (void)`, and that of `print`, `void (int)`.
const OF_THREADS: usize = 0;

const OF_MAIN: usize = 1;

const OF_PRINT: usize = 2;

fn word(alloc: Heap, name: &[u8]) -> Result<Global, Fail>
    ensures { IfOk result (λ g. object_of g ≡ (name.now, 4, 4, [])) }
{
    Ok(Global {
        name: Name::made(alloc, name)?,
        size: 4,
        align: 4,
        start: Vec::new(alloc),
    })
}

fn names(alloc: Heap) -> Result<Globals, Fail>
    ensures { IfOk result (λ g. AreWithin (globals_of g)) }
{
    let globals = named(alloc)?;
    Ok(globals)
}

fn named(alloc: Heap) -> Result<Globals, Fail>
    ensures { IfOk result (λ g. globals_of g ≡ names_tried) }
{
    let f = Name::made(alloc, b"f")?;
    let g = Name::made(alloc, b"g")?;
    let main = Name::made(alloc, b"main")?;
    let x = word(alloc, b"x")?;
    let y = word(alloc, b"y")?;
    Ok(Globals {
        functions: Vec::from_array(alloc, [f, g, main])?,
        objects: Vec::from_array(alloc, [x, y])?,
    })
}

/// A function of this body, with four temporaries.
fn function(alloc: Heap, name: &[u8], body: Vec<Stmt>) -> Result<Function, Fail> {
    Ok(Function {
        name: Name::made(alloc, name)?,
        function_type: OF_MAIN,
        parameters: 0,
        taken: Vec::new(alloc),
        kept: Vec::new(alloc),
        locals: Vec::new(alloc),
        temps: 4,
        body: statements(alloc, body)?,
        room: Room {
            nodes: 40,
            stated: 2_616,
            needed: 0,
        },
    })
}

/// A thread's function: its parameter is temporary 0.
fn for_threads(alloc: Heap, name: &[u8], body: Vec<Stmt>) -> Result<Function, Fail> {
    let mut f = function(alloc, name, body)?;
    f.function_type = OF_THREADS;
    f.parameters = 1;
    f.taken.push(Taken {
        argument: 0,
        temp: 0,
    })?;
    Ok(f)
}

fn program(alloc: Heap, f: Function, g: Function, main: Function) -> Result<Program, Fail>
    ensures { IfOk result (λ p. AreWithin (globals_of p.globals)) }
{
    let main = shared(alloc, main)?;
    let print = External {
        name: Name::made(alloc, b"print")?,
        function_type: OF_PRINT,
    };
    let functions = [shared(alloc, f)?, shared(alloc, g)?, same(&main)?];
    Ok(Program {
        globals: names(alloc)?,
        main,
        functions: Vec::from_array(alloc, functions)?,
        externals: Vec::from_array(alloc, [print])?,
        types: [1, 0, 1].to_vec(alloc)?,
        thread_type: Some(OF_THREADS),
    })
}

/// Main alone does something.
fn main_alone(alloc: Heap, body: Vec<Stmt>) -> Result<Program, Fail>
    ensures { IfOk result (λ p. AreWithin (globals_of p.globals)) }
{
    let f = function(alloc, b"f", Vec::new(alloc))?;
    let g = function(alloc, b"g", Vec::new(alloc))?;
    program(alloc, f, g, function(alloc, b"main", body)?)
}

fn statements(alloc: Heap, mut list: Vec<Stmt>) -> Result<Rc<Stmts>, Fail> {
    let mut made = shared(alloc, Stmts::Nil)?;
    while let Some(s) = list.pop() {
        made = shared(alloc, Stmts::Cons(shared(alloc, s)?, made))?;
    }
    Ok(made)
}

fn at(alloc: Heap, name: &[u8]) -> Result<Expr, Fail> {
    Ok(Expr::GlobalAddr(Name::made(alloc, name)?))
}

fn read(alloc: Heap, address: Expr) -> Result<Expr, Fail> {
    Ok(Expr::Read(Chunk::I32, Box::new(alloc, address)?))
}

/// The address a few bytes behind that in temporary 0.
fn behind(alloc: Heap, bytes: u32) -> Result<Expr, Fail> {
    let start = Box::new(alloc, Expr::Temp(0))?;
    let bytes = Box::new(alloc, Expr::Const(bytes))?;
    Ok(Expr::Binary(Op::Add, start, bytes))
}

fn print(alloc: Heap, e: Expr) -> Result<Stmt, Fail> {
    let arguments = Vec::from_array(alloc, [e])?;
    Ok(Stmt::External(3, Name::made(alloc, b"print")?, OF_PRINT, arguments))
}

fn start(alloc: Heap, name: &[u8]) -> Result<Stmt, Fail> {
    let arguments = Vec::from_array(alloc, [at(alloc, name)?, Expr::Const(0)])?;
    Ok(Stmt::Builtin(3, Builtin::ThreadCreate, arguments))
}

/// `while (1) ;`
fn forever(alloc: Heap) -> Result<Stmt, Fail> {
    let goes = shared(alloc, Stmt::Skip)?;
    let ends = shared(alloc, Stmt::Break)?;
    let test = Stmt::If(Expr::Const(1), goes, ends);
    let first = Stmt::Block(statements(alloc, Vec::from_array(alloc, [test, Stmt::Skip])?)?);
    Ok(Stmt::Loop(shared(alloc, first)?, shared(alloc, Stmt::Skip)?))
}

/// What a replay of each schedule prints.
fn expect(rt: &impl Abort, alloc: Heap, p: &Program, rows: &[(&[u8], &[u8])]) -> Result<(), Fail>
    requires { AreWithin (globals_of p.now.globals) }
{
    for (text, want) in rows {
        assert!(rt; text.len() <= 1000);
        let schedule = read_schedule(alloc, *text)?;
        let printed = match replay_source(alloc, p, &schedule) {
            Ok(r) => print_replay(alloc, &r)?,
            Err(ReplayRefusal::NotARun { line, before }) => print_not_a_run(alloc, line, &before)?,
            Err(ReplayRefusal::NoMemory) => return Err(Fail::from(ScheduleRefusal::NoMemory)),
        };
        assert!(rt; printed.as_slice() == *want, "{text:?}");
    }
    Ok(())
}

#[test]
fn main_returns_seven(rt: HostRuntime) -> Result<(), Fail> {
    let alloc = rt.alloc();
    let body = Vec::from_array(alloc, [Stmt::Return(Some(Expr::Const(7)))])?;
    let p = main_alone(alloc, body)?;
    expect(
        &rt,
        alloc,
        &p,
        &[
            (b"run 0\nrun 0\nrun 0\nrun 0\n", b"exit 7\nend exited\n"),
            (b"run 0\nrun 0\nrun 0\n", b"end running\n"),
            (
                b"run 0\nrun 0\nrun 0\nrun 0\nrun 0\n",
                b"exit 7\nnot a run: line 5\n",
            ),
            (b"auto 0 100000\n", b"exit 7\nend exited\n"),
            (b"drain 0\n", b"not a run: line 1\n"),
            (b"run 7\n", b"not a run: line 1\n"),
            (b"hold 7 5\n", b"end running\n"),
            (b"run 0 1\n", b"not a run: line 1\n"),
            (b"", b"end running\n"),
        ],
    )
}

/// A thread of store buffering: it writes one global, and prints what it reads of the other.
fn buffering(
    alloc: Heap,
    name: &[u8],
    writes: &[u8],
    reads: &[u8],
    fence: Stmt,
) -> Result<Function, Fail> {
    let store = Stmt::Store(Chunk::I32, at(alloc, writes)?, Expr::Const(1));
    let load = Stmt::Set(1, read(alloc, at(alloc, reads)?)?);
    let shown = print(alloc, Expr::Temp(1))?;
    for_threads(
        alloc,
        name,
        Vec::from_array(alloc, [store, fence, load, shown])?,
    )
}

fn store_buffering(alloc: Heap, first: Stmt, second: Stmt) -> Result<Program, Fail>
    ensures { IfOk result (λ p. AreWithin (globals_of p.globals)) }
{
    let f = buffering(alloc, b"f", b"x", b"y", first)?;
    let g = buffering(alloc, b"g", b"y", b"x", second)?;
    let body = [start(alloc, b"f")?, start(alloc, b"g")?, forever(alloc)?];
    let main = function(alloc, b"main", Vec::from_array(alloc, body)?)?;
    program(alloc, f, g, main)
}

fn fence(alloc: Heap) -> Stmt {
    Stmt::Builtin(2, Builtin::Fence, Vec::new(alloc))
}

#[test]
fn both_threads_read_the_old_value(rt: HostRuntime) -> Result<(), Fail> {
    let alloc = rt.alloc();
    let p = store_buffering(alloc, Stmt::Skip, Stmt::Skip)?;
    expect(
        &rt,
        alloc,
        &p,
        &[(
            b"lazy 0 100000\nhold 1 100000\nhold 2 100000\n",
            b"call 1 print 0\ncall 2 print 0\nend running\n",
        )],
    )?;
    let fenced = store_buffering(alloc, fence(alloc), fence(alloc))?;
    expect(
        &rt,
        alloc,
        &fenced,
        &[
            (
                b"lazy 0 100000\nhold 1 100000\nrun 1\n",
                b"not a run: line 3\n",
            ),
            (
                b"lazy 0 100000\nlazy 1 100000\nlazy 2 100000\n",
                b"call 1 print 0\ncall 2 print 1\nend running\n",
            ),
        ],
    )
}

/// `x = &v; v = 0; print(0); return v;`
fn lends_a_local(alloc: Heap) -> Result<Function, Fail> {
    let lends = Stmt::Store(Chunk::I32, at(alloc, b"x")?, Expr::LocalAddr(0));
    let clears = Stmt::Store(Chunk::I32, Expr::LocalAddr(0), Expr::Const(0));
    let shown = print(alloc, Expr::Const(0))?;
    let gives = Stmt::Return(Some(read(alloc, Expr::LocalAddr(0))?));
    let body = Vec::from_array(alloc, [lends, clears, shown, gives])?;
    let mut g = function(alloc, b"g", body)?;
    g.locals.push(Local { size: 4, align: 4 })?;
    Ok(g)
}

/// `*x = 5; print(1); while (1) ;`
fn writes_through_x(alloc: Heap) -> Result<Function, Fail> {
    let address = read(alloc, at(alloc, b"x")?)?;
    let store = Stmt::Store(Chunk::I32, address, Expr::Const(5));
    let shown = print(alloc, Expr::Const(1))?;
    let body = Vec::from_array(alloc, [store, shown, forever(alloc)?])?;
    for_threads(alloc, b"f", body)
}

#[test]
fn a_local_is_written_by_another_thread(rt: HostRuntime) -> Result<(), Fail> {
    let alloc = rt.alloc();
    let call = Stmt::Call(2, OF_MAIN, at(alloc, b"g")?, Vec::new(alloc));
    let set = Stmt::Set(0, Expr::Temp(2));
    let both = Stmt::Block(statements(alloc, Vec::from_array(alloc, [call, set])?)?);
    let shown = print(alloc, Expr::Temp(0))?;
    let body = [start(alloc, b"f")?, both, shown, forever(alloc)?];
    let main = function(alloc, b"main", Vec::from_array(alloc, body)?)?;
    let p = program(alloc, writes_through_x(alloc)?, lends_a_local(alloc)?, main)?;
    expect(
        &rt,
        alloc,
        &p,
        &[
            (
                b"lazy 0 1000\nauto 0 1000\nhold 1 1000\ndrain 1\nlazy 0 1000\n",
                b"call 0 print 0\nreturn 0 0\ncall 1 print 1\ncall 0 print 5\nend running\n",
            ),
            (
                b"lazy 0 1000\nauto 0 1000\nhold 1 1000\nlazy 0 1000\ndrain 0\ndrain 1\n",
                b"call 0 print 0\nreturn 0 0\ncall 1 print 1\ncall 0 print 0\nend wrong\n",
            ),
        ],
    )
}

#[test]
fn an_undefined_word_and_no_heap(rt: HostRuntime) -> Result<(), Fail> {
    let alloc = rt.alloc();
    let body = [
        print(alloc, Expr::Temp(0))?,
        Stmt::Return(Some(Expr::Const(0))),
    ];
    let wrong = main_alone(alloc, Vec::from_array(alloc, body)?)?;
    expect(&rt, alloc, &wrong, &[(b"auto 0 1000\n", b"end wrong\n")])?;
    let arguments = Vec::from_array(alloc, [Expr::Const(4)])?;
    let asks = Stmt::Builtin(1, Builtin::Malloc, arguments);
    let set = Stmt::Set(0, Expr::Temp(1));
    let both = Stmt::Block(statements(alloc, Vec::from_array(alloc, [asks, set])?)?);
    let heap = main_alone(alloc, Vec::from_array(alloc, [both, Stmt::Return(None)])?)?;
    expect(
        &rt,
        alloc,
        &heap,
        &[
            (b"run 0\nrun 0\nrun 0\nrun 0 0\n", b"end no heap\n"),
            (b"run 0\nrun 0\nrun 0\nrun 0 5\n", b"not a run: line 4\n"),
        ],
    )
}

#[test]
fn bytes_of_a_word(rt: HostRuntime) -> Result<(), Fail> {
    let alloc = rt.alloc();
    let body = [
        Stmt::Set(0, at(alloc, b"x")?),
        Stmt::Store(Chunk::I32, at(alloc, b"x")?, Expr::Const(0)),
        Stmt::Store(Chunk::I8s, behind(alloc, 0)?, Expr::Const(1)),
        print(alloc, Expr::Const(0))?,
        Stmt::Store(Chunk::I8s, behind(alloc, 1)?, Expr::Const(2)),
        Stmt::Store(Chunk::I16s, behind(alloc, 2)?, Expr::Const(3)),
        Stmt::Return(Some(read(alloc, at(alloc, b"x")?)?)),
    ];
    let p = main_alone(alloc, Vec::from_array(alloc, body)?)?;
    expect(
        &rt,
        alloc,
        &p,
        &[(
            b"hold 0 100000\ndrain 0\ndrain 0\nhold 0 100000\nhold 0 100000\n",
            b"call 0 print 0\nreturn 0 0\nexit 197121\nend exited\n",
        )],
    )
}
