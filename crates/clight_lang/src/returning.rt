//! The programs whose main returns a constant.

ghost use Rattle.std.specs.Prelude.{◌≡◌, IfOk};
ghost use Rattle.tso_core.specs.Stated.{globals_of};
ghost use Rattle.clight_lang.specs.State.{function_of};
ghost use Rattle.clight_lang.specs.Syntax.{statements_of};
ghost use Rattle.clight_lang.specs.Meaning.{program_of};
ghost use Rattle.clight_lang.specs.WellMade.{IsWellMade};
ghost use Rattle.clight_lang.specs.MainAlone.{main_alone, main_body, main_returning, returned};

use crate::expression::Expr;
use crate::function::Function;
use crate::leading::{same, shared};
use crate::program::Program;
use crate::statement::{Stmt, Stmts};
use std::alloc::Global;
use std::rc::Rc;
use tso_core::placement::{Globals, Room};
use tso_words::{Name, NoMemory};

/// The program `int main(void) { return number; }`.
pub fn program_returning(alloc: Global, number: u32) -> Result<Program, NoMemory>
    ensures program { IfOk result (λ p. program_of p ≡ returned number) }
    ensures well_made { IfOk result (λ p. IsWellMade (program_of p)) }
{
    let program = made(alloc, number)?;
    Ok(program)
}

fn made(alloc: Global, number: u32) -> Result<Program, NoMemory>
    ensures { IfOk result (λ p. program_of p ≡ returned number) }
{
    let main = shared(alloc, main_function(alloc, number)?)?;
    let globals = globals_alone(alloc)?;
    let mut functions = Vec::new(alloc);
    match functions.push(same(&main)?) {
        Ok(()) => {}
        Err(_) => return Err(NoMemory),
    }
    Ok(Program {
        globals,
        main,
        functions,
        externals: Vec::new(alloc),
        types: Vec::from_slice(alloc, &[0])?,
        thread_type: None,
    })
}

fn globals_alone(alloc: Global) -> Result<Globals, NoMemory>
    ensures { IfOk result (λ g. globals_of g ≡ main_alone) }
{
    let main = Name::made(alloc, b"main")?;
    let mut functions = Vec::new(alloc);
    match functions.push(main) {
        Ok(()) => {}
        Err(_) => return Err(NoMemory),
    }
    Ok(Globals {
        functions,
        objects: Vec::new(alloc),
    })
}

/// Its room: a block, a statement and a constant, and no locals.
fn main_function(alloc: Global, number: u32) -> Result<Function, NoMemory>
    ensures { IfOk result (λ f. function_of f ≡ main_returning number) }
{
    Ok(Function {
        name: Name::made(alloc, b"main")?,
        function_type: 0,
        parameters: 0,
        taken: Vec::new(alloc),
        kept: Vec::new(alloc),
        locals: Vec::new(alloc),
        temps: 0,
        body: body_returning(alloc, number)?,
        room: Room {
            nodes: 3,
            stated: 248,
            needed: 0,
        },
    })
}

fn body_returning(alloc: Global, number: u32) -> Result<Rc<Stmts>, NoMemory>
    ensures { IfOk result (λ l. statements_of l.value ≡ main_body number) }
{
    let statement = shared(alloc, Stmt::Return(Some(Expr::Const(number))))?;
    let nothing = shared(alloc, Stmts::Nil)?;
    shared(alloc, Stmts::Cons(statement, nothing))
}
