//! How a thread goes on with an answer.

ghost use Rattle.std.specs.Prelude.{◌≡◌, [], ◌∷◌, List, Some, None, IfOk, OnOk, OnErr, MatchOption, drop};
ghost use Rattle.tso_core.specs.Systems.{Places};
ghost use Rattle.clight_lang.specs.Rules.{resumed, begun, placed_at, with_stored, with_answer, is_main, entering, called, left, last_placed, due_resumed, ruled, IsRunning, IsEntering, IsWaiting};
ghost use Rattle.clight_lang.specs.State.{FunctionOf, Run, Empty, function_of, functions_of, after_of, doing_of, caller_of, callers_of, state_of};
ghost use Rattle.clight_lang.specs.Syntax.{Block, statement_of};

use crate::due::{Due, due_of};
use crate::frame::{Frame, Placed};
use crate::function::Function;
use crate::leading::{answered, lead, same, set_temp, set_temps, shared, skip};
use crate::next::value;
use crate::offering::{Entry, callee, entry_at};
use crate::statement::{Rest, Stmt};
use crate::thread::{Caller, Doing, Thread};
use std::alloc::Global;
use std::mem;
use std::rc::Rc;
use tso_core::offer::Answer;
use tso_core::placement::Placement;
use tso_words::{NoMemory, Val};

/// One more placed object, at the base that is answered.
fn place(placed: &mut Vec<Placed>, size: u32, base: Val) -> Result<(), NoMemory>
    ensures ok { OnOk result (placed.new.items ≡ placed_at placed.old.items size base) }
    ensures err { OnErr result (placed.new.items ≡ placed.old.items) }
{
    let Val::Word(base) = base else {
        return Ok(());
    };
    match placed.push(Placed { base, size }) {
        Ok(()) => Ok(()),
        Err(_) => Err(NoMemory),
    }
}

/// The temporaries of a new call: not known, but for the parameters that are taken.
fn temps_of(alloc: Global, function: &Function, args: &[Val]) -> Result<Vec<Val>, NoMemory>
    ensures { IfOk result (λ temps. temps.items ≡ begun (function_of function.now) args.now) }
{
    let mut temps: Vec<Val> = vec![in alloc; Val::Undef; function.temps]?;
    for taken in &function.taken {
        set_temp(&mut temps, taken.temp, value(args, taken.argument));
    }
    Ok(temps)
}

/// Whether a function is main.
fn is_named_main(function: &Function) -> bool
    ensures { result ≡ is_main (function_of function.now) }
{
    function.name.bytes() == b"main".as_slice()
}

/// A thread that enters a function.
pub fn thread_of(alloc: Global, is_first: bool, function: Rc<Function>, args: Vec<Val>) -> Thread
    ensures { state_of result ≡ entering is_first (function_of function.value) args.items }
{
    Thread {
        is_first,
        function,
        frame: Frame {
            temps: Vec::new(alloc),
            placed: Vec::new(alloc),
        },
        doing: Doing::Enter(args, 0),
        callers: Vec::new(alloc),
    }
}

/// The body of a function, with nothing behind it.
fn body_of(alloc: Global, function: &Function) -> Result<Doing, NoMemory>
    ensures { IfOk result (λ d. doing_of d ≡ Run [] (Block (function_of function.now).body) Empty) }
{
    let block = shared(alloc, Stmt::Block(same(&function.body)?))?;
    let rest = shared(alloc, Rest::Empty)?;
    Ok(Doing::Run(Vec::new(alloc), block, rest))
}

/// So many parameters are stored.
fn set_stored(doing: &mut Doing, count: usize)
    ensures { doing_of doing.new ≡ with_stored (doing_of doing.old) count }
{
    if let Doing::Enter(_, stored) = doing {
        *stored = count;
    }
}

/// One more answer to the reads of the statement that runs.
fn push_answer(doing: &mut Doing, a: Answer) -> Result<(), NoMemory>
    ensures ok { OnOk result (doing_of doing.new ≡ with_answer (doing_of doing.old) a) }
    ensures err { OnErr result (doing_of doing.new ≡ doing_of doing.old) }
{
    let Answer::Value(v) = a else {
        return Ok(());
    };
    if let Doing::Run(answers, _, _) = doing {
        return match answers.push(v) {
            Ok(()) => Ok(()),
            Err(_) => Err(NoMemory),
        };
    }
    Ok(())
}

/// The values behind the first.
fn arguments(alloc: Global, values: &[Val]) -> Result<Vec<Val>, NoMemory>
    ensures { IfOk result (λ args. args.items ≡ drop 1 values.now) }
{
    match values {
        [] => Ok(Vec::new(alloc)),
        [_, args @ ..] => Ok(Vec::from_slice(alloc, args)?),
    }
}

/// The thread calls a function, and its innermost call waits. After want of memory it is as it was.
fn call(
    alloc: Global,
    t: &mut Thread,
    function: Rc<Function>,
    args: Vec<Val>,
    into: usize,
    rest: Rc<Rest>,
) -> Result<(), NoMemory>
    ensures ok { OnOk result (state_of t.new ≡ called (state_of t.old) into (after_of rest.value) args.items (Some (function_of function.value))) }
    ensures err { OnErr result (state_of t.new ≡ state_of t.old) }
{
    if t.callers.reserve(1).is_err() {
        return Err(NoMemory);
    }
    let empty = Frame {
        temps: Vec::new(alloc),
        placed: Vec::new(alloc),
    };
    let caller = Caller {
        function: mem::replace(&mut t.function, function),
        frame: mem::replace(&mut t.frame, empty),
        into,
        rest,
    };
    t.doing = Doing::Enter(args, 0);
    match t.callers.push(caller) {
        Ok(()) => Ok(()),
        Err(_) => unreachable!(),
    }
}

/// The newest caller, which is taken off.
fn newest(callers: &mut Vec<Caller>) -> Option<Caller>
    ensures { MatchOption result ((callers_of callers.old.items ≡ []) × (callers_of callers.new.items ≡ [])) (λ c. callers_of callers.old.items ≡ caller_of c ∷ callers_of callers.new.items) }
{
    callers.pop()
}

/// The thread leaves its innermost call, whose objects are lifted, for the caller below.
fn leave_to_caller(alloc: Global, t: &mut Thread, v: Val) -> Result<(), NoMemory>
    ensures ok { OnOk result (state_of t.new ≡ left (state_of t.old) v None (callers_of t.old.callers.items)) }
    ensures err { OnErr result (state_of t.new ≡ state_of t.old) }
{
    let skip = shared(alloc, Stmt::Skip)?;
    match newest(&mut t.callers) {
        None => Ok(()),
        Some(caller) => {
            let Caller {
                function,
                frame,
                into,
                rest,
            } = caller;
            t.function = function;
            t.frame = frame;
            set_temp(&mut t.frame.temps, into, v);
            t.doing = Doing::Run(Vec::new(alloc), skip, rest);
            Ok(())
        }
    }
}

/// The thread leaves its innermost call: the object that was placed last is lifted, or there is
/// none.
fn leave(alloc: Global, t: &mut Thread, v: Val) -> Result<(), NoMemory>
    ensures ok { OnOk result (state_of t.new ≡ left (state_of t.old) v (last_placed t.old.frame.placed.items) (callers_of t.old.callers.items)) }
    ensures err { OnErr result (state_of t.new ≡ state_of t.old) }
{
    if t.frame.placed.is_empty() {
        return leave_to_caller(alloc, t, v);
    }
    let _lifted = t.frame.placed.pop();
    Ok(())
}

/// The thread runs a statement, and goes on with an answer.
fn run_on(
    alloc: Global,
    functions: &[Rc<Function>],
    at: &Placement,
    t: &mut Thread,
    a: Answer,
) -> Result<(), NoMemory>
    requires { IsRunning (doing_of t.old.doing) }
    ensures ok { OnOk result (state_of t.new ≡ resumed (functions_of functions.now) at.now (state_of t.old) a) }
    ensures err { OnErr result (state_of t.new ≡ state_of t.old) }
{
    let Doing::Run(answers, s, rest) = &t.doing else {
        unreachable!()
    };
    match due_of(alloc, s, &t.frame, at, answers)? {
        Due::Wrong => Ok(()),
        Due::Read(_, _) => push_answer(&mut t.doing, a),
        Due::Ready(values) => {
            let s = same(s)?;
            let rest = same(rest)?;
            go_on(alloc, functions, at, t, s, rest, values, a)
        }
    }
}

/// The thread runs a statement whose expressions have these values, and goes on with an answer.
fn go_on(
    alloc: Global,
    functions: &[Rc<Function>],
    at: &Placement,
    t: &mut Thread,
    s: Rc<Stmt>,
    rest: Rc<Rest>,
    values: Vec<Val>,
    a: Answer,
) -> Result<(), NoMemory>
    ensures ok { OnOk result (state_of t.new ≡ ruled (functions_of functions.now) at.now (state_of t.old) (statement_of s.value) (after_of rest.value) a values.items) }
    ensures err { OnErr result (state_of t.new ≡ state_of t.old) }
{
    match s.as_ref() {
        Stmt::Call(into, function_type, _, _) => {
            match callee(functions, at, *function_type, value(&values, 0)) {
                None => Ok(()),
                Some(f) => {
                    let args = arguments(alloc, &values)?;
                    call(alloc, t, same(f)?, args, *into, rest)
                }
            }
        }
        _ => {
            let doing = lead(alloc, is_named_main(&t.function), &s, &rest, &values)?;
            set_temps(&s, &values, a, &mut t.frame.temps);
            t.doing = doing;
            Ok(())
        }
    }
}

/// The thread enters its function, and goes on with an answer.
fn enter_on(alloc: Global, t: &mut Thread, a: Answer) -> Result<(), NoMemory>
    requires { IsEntering (doing_of t.old.doing) }
    ensures ok { OnOk result ((fs : List FunctionOf) (at : Places) → state_of t.new ≡ resumed fs at (state_of t.old) a) }
    ensures err { OnErr result (state_of t.new ≡ state_of t.old) }
{
    let Doing::Enter(args, stored) = &t.doing else {
        unreachable!()
    };
    match entry_at(&t.function, &t.frame.placed, *stored) {
        Entry::Place(local) => place(&mut t.frame.placed, local.size, answered(a)),
        Entry::Store(_, count) => {
            set_stored(&mut t.doing, count);
            Ok(())
        }
        Entry::Begin => {
            let temps = temps_of(alloc, &t.function, args)?;
            let doing = body_of(alloc, &t.function)?;
            t.frame.temps = temps;
            t.doing = doing;
            Ok(())
        }
    }
}

/// The thread goes on with the word of an external call.
fn wait_on(alloc: Global, t: &mut Thread, a: Answer) -> Result<(), NoMemory>
    requires { IsWaiting (doing_of t.old.doing) }
    ensures ok { OnOk result ((fs : List FunctionOf) (at : Places) → state_of t.new ≡ resumed fs at (state_of t.old) a) }
    ensures err { OnErr result (state_of t.new ≡ state_of t.old) }
{
    let Doing::Wait(into, rest) = &t.doing else {
        unreachable!()
    };
    let doing = skip(alloc, rest)?;
    set_temp(&mut t.frame.temps, *into, answered(a));
    t.doing = doing;
    Ok(())
}

/// The thread goes on with an answer. After want of memory it is as it was.
pub fn resume_thread(
    alloc: Global,
    functions: &[Rc<Function>],
    at: &Placement,
    t: &mut Thread,
    a: Answer,
) -> Result<(), NoMemory>
    ensures ok { OnOk result (state_of t.new ≡ resumed (functions_of functions.now) at.now (state_of t.old) a) }
    ensures err { OnErr result (state_of t.new ≡ state_of t.old) }
{
    match &t.doing {
        Doing::Enter(_, _) => enter_on(alloc, t, a),
        Doing::Run(_, _, _) => run_on(alloc, functions, at, t, a),
        Doing::Leave(v) => {
            let v = *v;
            leave(alloc, t, v)
        }
        Doing::Wait(_, _) => wait_on(alloc, t, a),
    }
}
