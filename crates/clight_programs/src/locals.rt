//! The parameters of a function that are temporaries, those that are kept in memory, and its locals
//! there.

ghost use Rattle.std.specs.Prelude.{◌≡◌, ◌++◌, IfOk, OnOk, length, unwrap_or, slice_get};
ghost use Rattle.clight_types.specs.Table.{types_of};
ghost use Rattle.clight_files.specs.FilesOf.{function_made_of};
ghost use Rattle.clight_placing.specs.InnerOf.{inner_of, location_of};
ghost use Rattle.clight_meaning.specs.Meaning.{below, taken_at, taken_from, kept_at, kept_from};
ghost use Rattle.clight_programs.specs.Locals.{local_at, locals_at};

use clight_files::FunctionMade;
use clight_lang::function::{Kept, Local, Taken};
use clight_placing::inner::{Inner, Location};
use clight_types::constants::chunk_of;
use clight_types::{Types, Value};
use std::alloc::{AllocError, Global};
use tso_words::NoMemory;

/// A parameter that is a temporary joins the others.
#[tactic(auto, using(crate::proofs::Steps::none_put))]
fn put_taken(list: &mut Vec<Taken>, argument: usize, location: Location) -> Result<(), NoMemory>
    ensures { OnOk result (list.new.items ≡ list.old.items ++ taken_at argument (location_of location)) }
{
    if let Location::Temp(temp) = location {
        list.push(Taken { argument, temp })
            .map_err(AllocError::from)?;
    }
    Ok(())
}

/// The parameters that are temporaries, of so many.
pub fn taken(alloc: Global, inner: &Inner, parameters: usize) -> Result<Vec<Taken>, NoMemory>
    ensures { IfOk result (λ list. list.items ≡ taken_from (inner_of inner.now) (below parameters)) }
{
    let mut list = Vec::new(alloc);
    for argument in 0..parameters {
        let location = inner.location(argument);
        put_taken(&mut list, argument, location)?;
    }
    Ok(list)
}

/// The type of a local by its number.
fn local_type(locals: &[usize], n: usize) -> usize
    ensures { result ≡ unwrap_or (slice_get locals.now n) 0 }
{
    locals.get(n).copied().unwrap_or(0)
}

/// A parameter of a type that is in memory joins the others.
#[tactic(auto, using(crate::proofs::Steps::none_put))]
fn put_kept(
    list: &mut Vec<Kept>,
    value: Value,
    argument: usize,
    location: Location,
) -> Result<(), NoMemory>
    ensures { OnOk result (list.new.items ≡ list.old.items ++ kept_at value argument (location_of location)) }
{
    if let Location::Memory(local) = location {
        let chunk = chunk_of(value);
        list.push(Kept {
            argument,
            local,
            chunk,
        })
        .map_err(AllocError::from)?;
    }
    Ok(())
}

/// The parameters that are in memory.
pub fn kept(alloc: Global, inner: &Inner, function: &FunctionMade) -> Result<Vec<Kept>, NoMemory>
    ensures { IfOk result (λ list. list.items ≡ kept_from (inner_of inner.now) (function_made_of function.now) (below function.now.parameters)) }
{
    let mut list = Vec::new(alloc);
    for argument in 0..function.parameters {
        let t = local_type(&function.locals, argument);
        let value = inner.types.value(t);
        let location = inner.location(argument);
        put_kept(&mut list, value, argument, location)?;
    }
    Ok(list)
}

/// A local of a type that is in memory joins the others.
#[tactic(auto, using(crate::proofs::Steps::none_put))]
fn put_local(
    types: &Types,
    list: &mut Vec<Local>,
    t: usize,
    location: Location,
) -> Result<(), NoMemory>
    ensures { OnOk result (list.new.items ≡ list.old.items ++ local_at (types_of types.now) t (location_of location)) }
{
    if let Location::Memory(_) = location {
        let size = types.size(t);
        let align = types.align(t).bytes();
        list.push(Local { size, align }).map_err(AllocError::from)?;
    }
    Ok(())
}

/// The parameters and locals that are in memory, by their sizes and alignments.
pub fn memory_locals(alloc: Global, inner: &Inner, locals: &[usize]) -> Result<Vec<Local>, NoMemory>
    ensures { IfOk result (λ list. list.items ≡ locals_at (inner_of inner.now) locals.now (below (length locals.now))) }
{
    let mut list = Vec::new(alloc);
    for n in 0..locals.len() {
        let t = local_type(locals, n);
        let location = inner.location(n);
        put_local(inner.types, &mut list, t, location)?;
    }
    Ok(list)
}
