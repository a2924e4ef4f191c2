//! Definitions of functions (ISO C99 6.9.1).

ghost use Rattle.std.specs.Prelude.{◌≡◌, map, IfOk};
ghost use Rattle.c_tree.specs.Shape.{specifiers_of, declarator_of};
ghost use Rattle.c_tree.specs.FileShape.{items_of};
ghost use Rattle.clight_types.specs.BuiltOf.{built_of, parameter_of};
ghost use Rattle.clight_types.specs.Judged.{Judges};
ghost use Rattle.clight_types.specs.Table.{types_of};
ghost use Rattle.clight_scopes.specs.SceneOf.{scene_of};
ghost use Rattle.clight_statements.specs.StatementsOf.{around_of};
ghost use Rattle.clight_files.specs.Files.{around_body, body_judged, definition_judged, function_defined};
ghost use Rattle.clight_files.specs.FilesOf.{function_made_of};

use crate::made::FunctionMade;
use crate::parameters::{begin_body, begin_definition, end_body, outermost_first, own_parameters};
use c_tree::{FunctionDefinition, Item};
use clight_expressions::typing::{declared, specified};
use clight_globals::clashes::function_clash;
use clight_globals::declarators::{function_judged, result_of};
use clight_globals::storage::{is_static, storage_in};
use clight_operands::operands::refused;
use clight_scopes::Scene;
use clight_specifiers::built::{base_of, name_or_empty};
use clight_specifiers::named::{declared_at, declared_name};
use clight_statements::Around;
use clight_statements::statements::items_judged;
use clight_types::declarators::{Built, Parameter, built_type};
use clight_types::{Refusal, Rule, Types, owed};
use std::alloc::{AllocError, Global};
use tso_words::{Name, NoMemory};

/// What stands around the body of a function of a type.
fn around_body(types: &Types, t: usize) -> Around
    ensures { around_of result ≡ around_body (types_of types.now) t }
{
    Around {
        result_type: result_of(types, t),
        breaks: false,
        continues: false,
    }
}

/// A copy of a list of numbers.
fn copied_numbers(alloc: Global, numbers: &[usize]) -> Result<Vec<usize>, NoMemory>
    ensures { IfOk result (λ copy. copy.items ≡ numbers.now) }
{
    Ok(Vec::from_slice(alloc, numbers).map_err(AllocError::from)?)
}

/// The body of a function of a type.
fn body_judged(
    alloc: Global,
    scene: &mut Scene,
    name: Name,
    t: usize,
    parameters: &[Parameter],
    body: &[Item],
) -> Result<FunctionMade, Refusal>
    ensures { Judges (body_judged (scene_of scene.old) name t (map parameter_of parameters.now) (items_of body.now)) (λ f. (scene_of scene.new, function_made_of f)) result }
{
    let around = around_body(&scene.types, t);
    begin_body(alloc, scene, parameters)?;
    let made = items_judged(alloc, scene, around, body)?;
    end_body(scene);
    Ok(FunctionMade {
        name,
        type_number: t,
        locals: copied_numbers(alloc, &scene.locals)?,
        addressed: copied_numbers(alloc, &scene.addressed)?,
        parameters: parameters.len(),
        body: made,
    })
}

/// A definition by its type, where its declarator makes one. One that makes none breaks the rule on
/// arrays and functions.
fn definition_judged(
    alloc: Global,
    scene: &mut Scene,
    is_static: bool,
    at: u32,
    name: Name,
    built: Built,
    parameters: &[Parameter],
    body: &[Item],
) -> Result<FunctionMade, Refusal>
    ensures { Judges (definition_judged (scene_of scene.old) is_static at name (built_of scene.old.types built) (map parameter_of parameters.now) (items_of body.now) built.type_number) (λ f. (scene_of scene.new, function_made_of f)) result }
{
    match built.type_number {
        Some(t) => {
            function_judged(scene, at, &name, built, t, is_static, true)?;
            body_judged(alloc, scene, name, t, parameters, body)
        }
        None => {
            let clash = function_clash(scene, &name, 0, true);
            owed(!clash.is_twice, Rule::DefinedTwice, at)?;
            Err(refused(Rule::ArrayOrFunction, at))
        }
    }
}

/// The definition of a function: what is made of it. A refusal has the first fault, in the order of
/// the file.
pub fn function_defined(
    alloc: Global,
    scene: &mut Scene,
    function: &FunctionDefinition,
) -> Result<FunctionMade, Refusal>
    ensures { Judges (function_defined (scene_of scene.old) (specifiers_of function.now.specifiers.items) (declarator_of function.now.declarator) (items_of function.now.body.items)) (λ f. (scene_of scene.new, function_made_of f)) result }
{
    let base = specified(alloc, scene, &function.specifiers)?;
    begin_definition(scene);
    let parts = declared(alloc, scene, true, &function.declarator)?;
    let name = name_or_empty(alloc, declared_name(&function.declarator))?;
    let at = declared_at(&function.declarator, 0);
    let parts = outermost_first(parts);
    let built = built_type(alloc, &mut scene.types, base_of(base), &parts)?;
    let is_static = is_static(storage_in(&function.specifiers));
    let parameters = own_parameters(&parts);
    definition_judged(
        alloc,
        scene,
        is_static,
        at,
        name,
        built,
        parameters,
        &function.body,
    )
}
