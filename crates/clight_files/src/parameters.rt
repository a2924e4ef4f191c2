//! The parameters of a function that is defined, and its scene before its body and behind it.

ghost use Rattle.std.specs.Prelude.{◌≡◌, [], map, OnOk, Some};
ghost use Rattle.clight_types.specs.BuiltOf.{parameter_of, part_of};
ghost use Rattle.clight_scopes.specs.SceneOf.{scene_of};
ghost use Rattle.clight_scopes.specs.Scopes.{with_block_name};
ghost use Rattle.clight_specifiers.specs.TypingOf.{parts_of};
ghost use Rattle.clight_typing.specs.Typing.{name_or_empty};
ghost use Rattle.clight_files.specs.Files.{own_parameters, in_definition, in_body_of, behind_body};

use clight_scopes::Scene;
use clight_specifiers::built::name_or_empty;
use clight_types::declarators::{Parameter, Part};
use std::alloc::Global;
use tso_words::NoMemory;

/// The parts of a declarator from the outermost on.
pub fn outermost_first(parts: Vec<Part>) -> Vec<Part>
    ensures { map part_of result.items ≡ parts_of parts.items }
{
    let mut parts = parts;
    parts.reverse();
    parts
}

/// The parameters of the function itself, which are those of the innermost part.
#[tactic(auto, using(crate::proofs::Blocks::own_last))]
pub fn own_parameters(parts: &[Part]) -> &[Parameter]
    ensures { map parameter_of result.now ≡ own_parameters (map part_of parts.now) }
{
    match parts.last() {
        Some(Part::Function(parameters)) => parameters.as_slice(),
        Some(Part::Pointer) | Some(Part::Array(_)) | None => &[],
    }
}

/// A definition begins: it has no locals so far.
pub fn begin_definition(scene: &mut Scene)
    ensures { scene_of scene.new ≡ in_definition (scene_of scene.old) }
{
    scene.locals.clear();
    scene.addressed.clear();
}

/// A parameter comes into the scope of the body. The parameters of a definition that the grammar
/// has are named, each once, once its declarator is judged; for any other this gives up.
fn put_parameter(
    alloc: Global,
    scene: &mut Scene,
    number: usize,
    parameter: &Parameter,
) -> Result<(), NoMemory>
    ensures { OnOk result (scene_of scene.new ≡ with_block_name (scene_of scene.old) (name_or_empty (parameter_of parameter.now).name) parameter.now.type_number (Some number)) }
{
    let name = name_or_empty(alloc, parameter.name.as_ref())?;
    if scene.is_in_first(&name) {
        return Err(NoMemory);
    }
    scene.put_block_name(alloc, name, parameter.type_number, Some(number))
}

/// The body of a function begins, with no names of its own.
fn enter_body(alloc: Global, scene: &mut Scene) -> Result<(), NoMemory>
    ensures { OnOk result (scene_of scene.new ≡ in_body_of (scene_of scene.old) []) }
{
    scene.blocks.clear();
    scene.in_body = true;
    scene.open(alloc)
}

/// The body of a function begins, with its parameters in scope.
pub fn begin_body(
    alloc: Global,
    scene: &mut Scene,
    parameters: &[Parameter],
) -> Result<(), NoMemory>
    ensures { OnOk result (scene_of scene.new ≡ in_body_of (scene_of scene.old) (map parameter_of parameters.now)) }
{
    enter_body(alloc, scene)?;
    for (number, parameter) in parameters.iter().enumerate() {
        put_parameter(alloc, scene, number, parameter)?;
    }
    Ok(())
}

/// The body of a function ends.
pub fn end_body(scene: &mut Scene)
    ensures { scene_of scene.new ≡ behind_body (scene_of scene.old) }
{
    scene.blocks.clear();
    scene.in_body = false;
}
