//! What a function that is defined means.

ghost use Rattle.std.specs.Prelude.{◌≡◌, false, IfOk, OnOk, sum_by};
ghost use Rattle.clight_lang.specs.State.{function_of};
ghost use Rattle.clight_types.specs.Types.{is_scalar};
ghost use Rattle.clight_types.specs.Table.{types_of};
ghost use Rattle.clight_placing.specs.InnerOf.{inner_of};
ghost use Rattle.clight_files.specs.FilesOf.{function_made_of, functions_of};
ghost use Rattle.clight_meaning.specs.Meaning.{room_of};
ghost use Rattle.clight_counts.specs.CountsOf.{size_of, size_in};
ghost use Rattle.clight_counts.specs.First.{with_first};
ghost use Rattle.clight_programs.specs.ProgramsOf.{function_placed, function_with, function_entry, function_table, table_of};

use crate::locals::{kept, memory_locals, taken};
use crate::locations::locations;
use clight_calls::names::copied;
use clight_counts::texts::put_first;
use clight_counts::{Size, Sizes};
use clight_files::FunctionMade;
use clight_lang::function::{Function, Local};
use clight_lang::leading::shared;
use clight_placing::inner::Inner;
use clight_placing::statements::body_meant;
use clight_types::Types;
use indexmap::{IndexMap, IndexSet};
use std::alloc::Global;
use std::rc::Rc;
use tso_core::placement::Room;
use tso_words::{Name, NoMemory};

/// A number of 32 bits.
///
/// # Errors
///
/// `NoMemory`, where it does not fit; the numbers of a file within the counts do.
fn fitting(n: u64) -> Result<u32, NoMemory>
    ensures { IfOk result (λ m. m ≡ n) }
{
    match u32::try_from(n) {
        Ok(m) => Ok(m),
        Err(_) => Err(NoMemory),
    }
}

#[tactic(auto, using(crate::proofs::Steps::size_next))]
fn bytes_of(locals: &[Local]) -> Result<u32, NoMemory>
    ensures { IfOk result (λ n. n ≡ sum_by (λ l. l.size) locals.now) }
{
    let mut bytes: u32 = 0;
    for local in locals {
        bytes = bytes.checked_add(local.size).ok_or(NoMemory)?;
    }
    Ok(bytes)
}

/// The room of a function. The frame that the program states is its bound less 8: the bound is 64
/// bytes, the parameters and locals, and 64 bytes for each node.
fn room(size: Size, locals: &[Local], temps: usize) -> Result<Room, NoMemory>
    ensures { IfOk result (λ room. room ≡ room_of (size_of size) locals.now temps) }
{
    let nodes = fitting(size.nodes as u64)?;
    let bytes = fitting(size.bytes as u64)?;
    let temps = fitting(temps as u64)?;
    let stated = 56 + u64::from(bytes) + 64 * u64::from(nodes);
    let needed = u64::from(bytes_of(locals)?) + 4 * u64::from(temps);
    Ok(Room {
        nodes,
        stated: fitting(stated)?,
        needed: fitting(needed)?,
    })
}

/// A function that is defined, once it is known where its locals are.
fn function_placed(
    alloc: Global,
    inner: &Inner,
    size: Size,
    function: &FunctionMade,
) -> Result<Function, NoMemory>
    ensures { IfOk result (λ f. function_of f ≡ function_placed (inner_of inner.now) (size_of size) (function_made_of function.now)) }
{
    let name = copied(&function.name)?;
    let taken = taken(alloc, inner, function.parameters)?;
    let kept = kept(alloc, inner, function)?;
    let locals = memory_locals(alloc, inner, &function.locals)?;
    let next = function.locals.len().saturating_sub(locals.len());
    let (body, temps) = body_meant(alloc, inner, next, &function.body)?;
    let room = room(size, &locals, temps)?;
    Ok(Function {
        name,
        function_type: inner.type_number(function.type_number),
        parameters: function.parameters,
        taken,
        kept,
        locals,
        temps,
        body,
        room,
    })
}

/// What a function that is defined means.
pub fn function_meant(
    alloc: Global,
    types: &Types,
    function_types: &IndexSet<usize>,
    sizes: &Sizes,
    function: &FunctionMade,
) -> Result<Function, NoMemory>
    requires { is_scalar (types_of types.now) 0 ≡ false }
    ensures { IfOk result (λ f. function_of f ≡ function_with (types_of types.now) function_types.now.keys (size_in sizes.now (types_of types.now) function.now.name function.now.type_number) (function_made_of function.now)) }
{
    let locations = locations(alloc, types, function)?;
    let size = sizes.of(types, &function.name, function.type_number)?;
    let inner = Inner {
        types,
        function_types,
        locations: &locations,
    };
    function_placed(alloc, &inner, size, function)
}

/// A function joins those before it, unless one of them has its name.
fn put_function(
    alloc: Global,
    types: &Types,
    function_types: &IndexSet<usize>,
    sizes: &Sizes,
    table: &mut IndexMap<Name, Rc<Function>>,
    function: &FunctionMade,
) -> Result<(), NoMemory>
    requires { is_scalar (types_of types.now) 0 ≡ false }
    ensures { OnOk result (table_of table.new.entries ≡ with_first (table_of table.old.entries) (function_entry (types_of types.now) function_types.now.keys sizes.now (function_made_of function.now))) }
{
    let name = copied(&function.name)?;
    let meant = function_meant(alloc, types, function_types, sizes, function)?;
    put_first(table, name, shared(alloc, meant)?)
}

/// The functions that a file defines, by their names.
pub fn function_table(
    alloc: Global,
    types: &Types,
    function_types: &IndexSet<usize>,
    sizes: &Sizes,
    functions: &[FunctionMade],
) -> Result<IndexMap<Name, Rc<Function>>, NoMemory>
    requires { is_scalar (types_of types.now) 0 ≡ false }
    ensures { IfOk result (λ table. table_of table.entries ≡ function_table (types_of types.now) function_types.now.keys sizes.now (functions_of functions.now)) }
{
    let mut table = IndexMap::new(alloc);
    for function in functions {
        put_function(alloc, types, function_types, sizes, &mut table, function)?;
    }
    Ok(table)
}
