//! The objects of a program, its external functions, and what it has of its function types.

ghost use Rattle.std.specs.Prelude.{◌≡◌, ◌++◌, IfOk, OnOk, map, position};
ghost use Rattle.tso_core.specs.Stated.{object_of};
ghost use Rattle.clight_lang.specs.Meaning.{external_of};
ghost use Rattle.clight_types.specs.Types.{size_at, align_at};
ghost use Rattle.clight_types.specs.Table.{types_of};
ghost use Rattle.clight_scopes.specs.SceneOf.{entity_of, file_of};
ghost use Rattle.clight_placing.specs.Placing.{number_of_type};
ghost use Rattle.clight_meaning.specs.Meaning.{object_meant, objects_meant};
ghost use Rattle.clight_programs.specs.ProgramsOf.{external_with, externals_with, counts_with};

use clight_calls::names::copied;
use clight_counts::sizes::parameters_of;
use clight_lang::program::External;
use clight_scopes::{Entity, FileName};
use clight_types::Types;
use indexmap::{IndexMap, IndexSet};
use std::alloc::{AllocError, Global};
use tso_core::placement::Global as Object;
use tso_words::{Name, NoMemory};

/// The objects and the external functions of a program, each in order of first declaration.
#[derive(Drop)]
pub struct Outer {
    pub objects: Vec<Object>,
    pub externals: Vec<External>,
}

/// The number of a function type in the program; 0 where the program has it not.
#[tactic(auto, using(clight_placing::proofs::Numbers::number_at))]
fn number_of_type(function_types: &IndexSet<usize>, t: usize) -> usize
    ensures { result ≡ number_of_type function_types.now.keys t }
{
    function_types.get_index_of(&t).unwrap_or(0)
}

/// An object of a type, with its first bytes.
///
/// # Errors
///
/// `NoMemory`, also where the type has no size or the first bytes do not fit; a file without faults
/// has no such object.
fn object_of_type(
    alloc: Global,
    types: &Types,
    name: &Name,
    t: usize,
    start: &[u8],
) -> Result<Object, NoMemory>
    ensures { IfOk result (λ o. object_of o ≡ (name.now, size_at (types_of types.now) t, align_at (types_of types.now) t, start.now)) }
{
    let size = types.size(t);
    if size == 0 || start.len() > size as usize {
        return Err(NoMemory);
    }
    Ok(Object {
        name: copied(name)?,
        size,
        align: types.align(t).bytes(),
        start: Vec::from_slice(alloc, start)?,
    })
}

/// An external function of a type.
fn external_of_type(
    function_types: &IndexSet<usize>,
    name: &Name,
    t: usize,
) -> Result<External, NoMemory>
    ensures { IfOk result (λ x. external_of x ≡ record { name = name.now; function_type = number_of_type function_types.now.keys t }) }
{
    Ok(External {
        name: copied(name)?,
        function_type: number_of_type(function_types, t),
    })
}

/// What a name of the file stands for joins the objects or the external functions.
#[tactic(auto, using(crate::proofs::Outer::object_put, crate::proofs::Outer::external_put, crate::proofs::Outer::nothing_put))]
fn put(
    alloc: Global,
    types: &Types,
    function_types: &IndexSet<usize>,
    outer: &mut Outer,
    name: &Name,
    entity: &Entity,
) -> Result<(), NoMemory>
    ensures objects { OnOk result (map object_of outer.new.objects.items ≡ map object_of outer.old.objects.items ++ object_meant (types_of types.now) name.now (entity_of entity.now)) }
    ensures externals { OnOk result (map external_of outer.new.externals.items ≡ map external_of outer.old.externals.items ++ external_with function_types.now.keys name.now (entity_of entity.now)) }
{
    match entity {
        Entity::Object {
            type_number,
            is_defined: _,
            start,
        } => {
            let object = object_of_type(alloc, types, name, *type_number, start)?;
            outer.objects.push(object).map_err(AllocError::from)?;
        }
        Entity::Function {
            type_number,
            is_static: _,
            is_defined: false,
        } => {
            let external = external_of_type(function_types, name, *type_number)?;
            outer.externals.push(external).map_err(AllocError::from)?;
        }
        Entity::Function { .. }
        | Entity::Enumerator(_)
        | Entity::Typedef(_)
        | Entity::Builtin { .. } => {}
    }
    Ok(())
}

/// The objects and the external functions among the names of a file.
#[tactic(auto, using(crate::proofs::Outer::objects_next, crate::proofs::Outer::objects_end, crate::proofs::Outer::externals_next, crate::proofs::Outer::externals_end))]
pub fn outer_meant(
    alloc: Global,
    types: &Types,
    function_types: &IndexSet<usize>,
    file: &IndexMap<Name, FileName>,
) -> Result<Outer, NoMemory>
    ensures objects { IfOk result (λ outer. map object_of outer.objects.items ≡ objects_meant (types_of types.now) (file_of file.now.entries)) }
    ensures externals { IfOk result (λ outer. map external_of outer.externals.items ≡ externals_with function_types.now.keys (file_of file.now.entries)) }
{
    let mut outer = Outer {
        objects: Vec::new(alloc),
        externals: Vec::new(alloc),
    };
    for (name, known) in file.iter() {
        put(
            alloc,
            types,
            function_types,
            &mut outer,
            name,
            &known.entity,
        )?;
    }
    Ok(outer)
}

/// How many parameters each function type has.
pub fn parameter_counts(
    alloc: Global,
    types: &Types,
    function_types: &IndexSet<usize>,
) -> Result<Vec<usize>, NoMemory>
    ensures { IfOk result (λ counts. counts.items ≡ counts_with (types_of types.now) function_types.now.keys) }
{
    let counts = function_types
        .iter()
        .map(|t| parameters_of(types, *t).len())
        .collect(alloc)?;
    Ok(counts)
}
