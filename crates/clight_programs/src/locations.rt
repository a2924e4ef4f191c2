//! Where the parameters and locals of a function are.

ghost use Rattle.std.specs.Prelude.{◌≡◌, ◌++◌, ◌∷◌, [], true, IfOk, OnOk, map, not, slice_set};
ghost use Rattle.clight_types.specs.Types.{is_scalar};
ghost use Rattle.clight_types.specs.Table.{types_of};
ghost use Rattle.clight_placing.specs.InnerOf.{location_of};
ghost use Rattle.clight_files.specs.FilesOf.{function_made_of};
ghost use Rattle.clight_programs.specs.Locals.{located, marked, marks_of};

use clight_files::FunctionMade;
use clight_placing::inner::Location;
use clight_types::Types;
use std::alloc::{AllocError, Global};
use tso_words::NoMemory;

#[tactic(auto, using(clight_types::proofs::Entries::set_past))]
fn mark(marks: &mut Vec<bool>, n: usize)
    ensures { marks.new.items ≡ slice_set marks.old.items n true }
{
    if let Some(mark) = marks.get_mut(n) {
        *mark = true;
    }
}

/// Marks those whose address is taken.
fn mark_addressed(marks: &mut Vec<bool>, addressed: &[usize])
    ensures { marks.new.items ≡ marked marks.old.items addressed.now }
{
    for n in addressed {
        mark(marks, *n);
    }
}

/// One more in memory or among the temporaries.
fn put_location(
    list: &mut Vec<Location>,
    is_in_memory: bool,
    temps: usize,
    memory: usize,
) -> Result<(), NoMemory>
    ensures { OnOk result (map location_of list.new.items ≡ map location_of list.old.items ++ located temps memory (is_in_memory ∷ [])) }
{
    if is_in_memory {
        list.push(Location::Memory(memory))
            .map_err(AllocError::from)?;
    } else {
        list.push(Location::Temp(temps)).map_err(AllocError::from)?;
    }
    Ok(())
}

/// Those that are marked are numbered among themselves, and so are the others.
fn located(alloc: Global, marks: &[bool]) -> Result<Vec<Location>, NoMemory>
    ensures { IfOk result (λ list. map location_of list.items ≡ located 0 0 marks.now) }
{
    let mut list = Vec::new(alloc);
    let mut temps = 0;
    let mut memory = 0;
    for is_in_memory in marks {
        put_location(&mut list, *is_in_memory, temps, memory)?;
        if *is_in_memory {
            memory += 1;
        } else {
            temps += 1;
        }
    }
    Ok(list)
}

/// Whether each local of these types is in memory whatever the function does with it.
fn scalar_marks(alloc: Global, types: &Types, locals: &[usize]) -> Result<Vec<bool>, NoMemory>
    ensures { IfOk result (λ marks. marks.items ≡ map (λ t. not (is_scalar (types_of types.now) t)) locals.now) }
{
    let mut marks = Vec::new(alloc);
    for t in locals {
        marks.push(!types.is_scalar(*t)).map_err(AllocError::from)?;
    }
    Ok(marks)
}

/// Where each parameter and local of a function is: in memory where it is an array or a struct, or
/// the function takes its address, and else it is a temporary.
pub fn locations(
    alloc: Global,
    types: &Types,
    function: &FunctionMade,
) -> Result<Vec<Location>, NoMemory>
    ensures { IfOk result (λ list. map location_of list.items ≡ located 0 0 (marks_of (types_of types.now) (function_made_of function.now))) }
{
    let mut marks = scalar_marks(alloc, types, &function.locals)?;
    mark_addressed(&mut marks, &function.addressed);
    located(alloc, &marks)
}
