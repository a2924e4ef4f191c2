//! The function types of a program, each once: those of the functions in order of first declaration,
//! and then those of the calls.

ghost use Rattle.std.specs.Prelude.{◌≡◌, [], OnOk, IfOk};
ghost use Rattle.clight_operands.specs.Shown.{callee_of, source_of, deed_of};
ghost use Rattle.clight_scopes.specs.SceneOf.{scene_of, entity_of};
ghost use Rattle.clight_made.specs.MadeOf.{made_of, made_list, made_groups};
ghost use Rattle.clight_files.specs.FilesOf.{functions_of, file_made_of};
ghost use Rattle.clight_meaning.specs.Meaning.{added, callee_types, source_types, deed_types, made_types, list_types, group_types, entity_types, declared_types, body_types, all_types};

use clight_files::{FileMade, FunctionMade};
use clight_made::{Made, MadeGroup};
use clight_operands::typed::{Callee, Deed, Source};
use clight_scopes::{Entity, Scene};
use indexmap::IndexSet;
use std::alloc::{AllocError, Global};
use tso_words::NoMemory;

#[tactic(auto, using(crate::proofs::Numbered::number_added))]
fn add(types: &mut IndexSet<usize>, t: usize) -> Result<(), NoMemory>
    ensures { OnOk result (types.new.keys ≡ added types.old.keys t) }
{
    types.insert(t).map_err(AllocError::from)?;
    Ok(())
}

fn callee_types(types: &mut IndexSet<usize>, callee: &Callee) -> Result<(), NoMemory>
    ensures { OnOk result (types.new.keys ≡ callee_types types.old.keys (callee_of callee.now)) }
{
    match callee {
        Callee::Inside(t, _) | Callee::Outside(_, t) => add(types, *t),
        Callee::Provided(_) => Ok(()),
    }
}

fn source_types(types: &mut IndexSet<usize>, source: &Source) -> Result<(), NoMemory>
    ensures { OnOk result (types.new.keys ≡ source_types types.old.keys (source_of source.now)) }
{
    match source {
        Source::Value(_) => Ok(()),
        Source::Call(callee, _, _) => callee_types(types, callee),
    }
}

fn deed_types(types: &mut IndexSet<usize>, deed: &Deed) -> Result<(), NoMemory>
    ensures { OnOk result (types.new.keys ≡ deed_types types.old.keys (deed_of deed.now)) }
{
    match deed {
        Deed::Call(callee, _, _) => callee_types(types, callee),
        Deed::Assign(_, _, source) => source_types(types, source),
        Deed::Update { .. } => Ok(()),
    }
}

#[cycle(types)]
#[tactic(auto, using(clight_made::proofs::Shapes::block_shape, clight_made::proofs::Shapes::for_shape, clight_made::proofs::Shapes::switch_shape))]
fn made_types(types: &mut IndexSet<usize>, made: &Made) -> Result<(), NoMemory>
    ensures { OnOk result (types.new.keys ≡ made_types types.old.keys (made_of made.now)) }
{
    match made {
        Made::Nothing | Made::Evaluated(_) | Made::Break | Made::Continue | Made::Return(_) => Ok(
            (),
        ),
        Made::Deed(deed) => deed_types(types, deed),
        Made::Block(list) => list_types(types, list),
        Made::Branch(_, a, b) => {
            made_types(types, a)?;
            made_types(types, b)
        }
        Made::While(_, body) | Made::Do(body, _) => made_types(types, body),
        Made::For {
            first,
            update,
            body,
            ..
        } => {
            list_types(types, first)?;
            made_types(types, update)?;
            made_types(types, body)
        }
        Made::Switch(_, groups) => group_types(types, groups),
        Made::ReturnCall(callee, _, _, _) => callee_types(types, callee),
    }
}

#[cycle(types)]
fn list_types(types: &mut IndexSet<usize>, list: &[Made]) -> Result<(), NoMemory>
    ensures { OnOk result (types.new.keys ≡ list_types types.old.keys (made_list list.now)) }
{
    for made in list {
        made_types(types, made)?;
    }
    Ok(())
}

#[cycle(types)]
fn group_types(types: &mut IndexSet<usize>, groups: &[MadeGroup]) -> Result<(), NoMemory>
    ensures { OnOk result (types.new.keys ≡ group_types types.old.keys (made_groups groups.now)) }
{
    for group in groups {
        list_types(types, &group.statements)?;
    }
    Ok(())
}

fn entity_types(types: &mut IndexSet<usize>, entity: &Entity) -> Result<(), NoMemory>
    ensures { OnOk result (types.new.keys ≡ entity_types types.old.keys (entity_of entity.now)) }
{
    match entity {
        Entity::Function { type_number, .. } => add(types, *type_number),
        Entity::Object { .. }
        | Entity::Enumerator(_)
        | Entity::Typedef(_)
        | Entity::Builtin { .. } => Ok(()),
    }
}

fn declared_types(types: &mut IndexSet<usize>, scene: &Scene) -> Result<(), NoMemory>
    ensures { OnOk result (types.new.keys ≡ declared_types types.old.keys (scene_of scene.now).file) }
{
    for (_, known) in scene.file.iter() {
        entity_types(types, &known.entity)?;
    }
    Ok(())
}

fn body_types(types: &mut IndexSet<usize>, functions: &[FunctionMade]) -> Result<(), NoMemory>
    ensures { OnOk result (types.new.keys ≡ body_types types.old.keys (functions_of functions.now)) }
{
    for function in functions {
        list_types(types, &function.body)?;
    }
    Ok(())
}

/// The function types of the program of a file.
pub fn all_types(alloc: Global, made: &FileMade) -> Result<IndexSet<usize>, NoMemory>
    ensures { IfOk result (λ types. types.keys ≡ all_types (file_made_of made.now)) }
{
    let mut types = IndexSet::new(alloc);
    declared_types(&mut types, &made.scene)?;
    body_types(&mut types, &made.functions)?;
    Ok(types)
}
