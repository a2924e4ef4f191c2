//! Functions in order of first declaration.

ghost use Rattle.std.specs.Prelude.{◌≡◌, ◌++◌, IfOk, OnOk, Some, map};
ghost use Rattle.std.specs.Option.{option_copied};
ghost use Rattle.std.specs.Map.{keys_of};
ghost use Rattle.clight_lang.specs.State.{function_of, functions_of};
ghost use Rattle.clight_meaning.specs.Meaning.{main_of};
ghost use Rattle.clight_programs.specs.ProgramsOf.{found_in, in_order, shared_function, table_of};

use clight_calls::names::copied;
use clight_lang::function::Function;
use clight_scopes::FileName;
use indexmap::IndexMap;
use std::alloc::{AllocError, Global};
use std::rc::Rc;
use tso_words::{Name, NoMemory};

/// One more owner of a function.
fn shared_again(function: &Rc<Function>) -> Result<Rc<Function>, NoMemory>
    ensures { IfOk result (λ again. again.value ≡ function.now.value) }
{
    Ok(function.clone()?)
}

/// A function that was found joins the others.
#[tactic(auto, using(crate::proofs::Order::found_put, crate::proofs::Order::none_put))]
fn put_found(
    functions: &mut Vec<Rc<Function>>,
    found: Option<&Rc<Function>>,
) -> Result<(), NoMemory>
    ensures { OnOk result (functions_of functions.new.items ≡ functions_of functions.old.items ++ found_in (shared_function (option_copied found.entry))) }
{
    if let Some(function) = found {
        let function = shared_again(function)?;
        functions.push(function).map_err(AllocError::from)?;
    }
    Ok(())
}

/// The functions of a table in the order of a file's names.
pub fn in_order(
    alloc: Global,
    names: &IndexMap<Name, FileName>,
    table: &IndexMap<Name, Rc<Function>>,
) -> Result<Vec<Rc<Function>>, NoMemory>
    ensures { IfOk result (λ functions. functions_of functions.items ≡ in_order (table_of table.now.entries) (keys_of names.now.entries)) }
{
    let mut functions = Vec::new(alloc);
    for name in names.keys() {
        put_found(&mut functions, table.get(name))?;
    }
    Ok(functions)
}

/// The names of functions, in their order.
pub fn names_of(alloc: Global, functions: &[Rc<Function>]) -> Result<Vec<Name>, NoMemory>
    ensures { IfOk result (λ names. names.items ≡ map (λ f. f.name) (functions_of functions.now)) }
{
    let mut names = Vec::new(alloc);
    for function in functions {
        let name = copied(&function.name)?;
        names.push(name).map_err(AllocError::from)?;
    }
    Ok(names)
}

/// The function with the name of `main`.
///
/// # Errors
///
/// `NoMemory`, also where there is none; each file without faults has one.
#[tactic(auto, using(crate::proofs::Order::main_here, crate::proofs::Order::main_behind))]
pub fn main_of(alloc: Global, functions: &[Rc<Function>]) -> Result<Rc<Function>, NoMemory>
    ensures { IfOk result (λ main. main_of (functions_of functions.now) ≡ Some (function_of main.value)) }
{
    let name = Name::made(alloc, b"main")?;
    for function in functions {
        if function.name == name {
            return shared_again(function);
        }
    }
    Err(NoMemory)
}
