//! Names in expressions.

ghost use Rattle.std.specs.Prelude.{◌≡◌, IfOk};
ghost use Rattle.clight_lang.specs.Syntax.{expression_of, GlobalAddr};
ghost use Rattle.clight_types.specs.Judged.{Judges};
ghost use Rattle.clight_scopes.specs.Scopes.{find_file};
ghost use Rattle.clight_scopes.specs.SceneOf.{scene_of, entity_of};
ghost use Rattle.clight_calls.specs.Names.{named_as, local_address, builtin_typed, function_typed, file_name_typed, known_name_typed, name_typed};
ghost use Rattle.clight_operands.specs.Shown.{typed_of, naming_of};

use crate::builtins::builtin_named;
use clight_lang::expression::Expr;
use clight_lang::statement::Builtin;
use clight_operands::operands::{plain, refused};
use clight_operands::typed::{Naming, Typed};
use clight_scopes::{Entity, Scene};
use clight_types::conversions::INT;
use clight_types::{Constant, Denoted, Refusal, Rule, Value, owed};
use tso_words::{Name, NoMemory};

fn named(at: u32, denoted: Denoted, naming: Naming, meaning: Expr) -> Typed
    ensures { typed_of result ≡ named_as at denoted (naming_of naming) (expression_of meaning) }
{
    Typed {
        at,
        denoted,
        constant: Constant::No,
        naming,
        meaning,
        deed: None,
    }
}

/// The address of a local, by its number among all.
fn local_address(local: Option<usize>) -> Expr
    ensures { expression_of result ≡ local_address local }
{
    match local {
        Some(number) => Expr::LocalAddr(number),
        None => Expr::Const(0),
    }
}

/// A copy of a name.
pub fn copied(name: &Name) -> Result<Name, NoMemory>
    ensures { IfOk result (λ copy. copy ≡ name.now) }
{
    Ok(name.clone()?)
}

/// The address of what the file declares by a name.
fn global_address(name: &Name) -> Result<Expr, NoMemory>
    ensures { IfOk result (λ r. expression_of r ≡ GlobalAddr name.now) }
{
    Ok(Expr::GlobalAddr(copied(name)?))
}

/// A builtin is only called.
fn builtin_typed(is_called: bool, at: u32, builtin: Builtin) -> Result<Typed, Refusal>
    ensures { Judges (builtin_typed is_called at builtin) typed_of result }
{
    owed(is_called, Rule::NoObject, at)?;
    Ok(named(
        at,
        Denoted::Value(Value::Void),
        Naming::Builtin(builtin),
        Expr::Const(0),
    ))
}

fn external_name(name: &Name) -> Result<Naming, NoMemory>
    ensures { IfOk result (λ r. naming_of r ≡ naming_of (Naming.External name.now)) }
{
    Ok(Naming::External(copied(name)?))
}

/// A function that the file defines has an address; an external one is only called.
fn function_typed(
    is_defined: bool,
    is_called: bool,
    at: u32,
    name: &Name,
    t: usize,
) -> Result<Typed, Refusal>
    ensures { Judges (function_typed is_defined is_called at name.now t) typed_of result }
{
    let address = global_address(name)?;
    if is_defined {
        return Ok(named(at, Denoted::Function(t), Naming::Nothing, address));
    }
    owed(is_called, Rule::NoObject, at)?;
    let naming = external_name(name)?;
    Ok(named(at, Denoted::Function(t), naming, address))
}

fn file_name_typed(
    scene: &Scene,
    is_called: bool,
    at: u32,
    name: &Name,
    entity: &Entity,
) -> Result<Typed, Refusal>
    ensures { Judges (file_name_typed (scene_of scene.now) is_called at name.now (entity_of entity.now)) typed_of result }
{
    match entity {
        Entity::Object { type_number, .. } => {
            let address = global_address(name)?;
            Ok(named(at, Denoted::Object(*type_number), Naming::Nothing, address))
        }
        Entity::Function { type_number, .. } => {
            function_typed(scene.defines(name), is_called, at, name, *type_number)
        }
        Entity::Enumerator(word) => Ok(plain(
            at,
            Denoted::Value(INT),
            Constant::Known(*word),
            Expr::Const(*word),
        )),
        Entity::Typedef(_) | Entity::Builtin { .. } => Err(refused(Rule::Undeclared, at)),
    }
}

fn known_name_typed(scene: &Scene, is_called: bool, at: u32, name: &Name) -> Result<Typed, Refusal>
    ensures { Judges (known_name_typed (scene_of scene.now) is_called at name.now (find_file name.now (scene_of scene.now).file)) typed_of result }
{
    match scene.find_file(name) {
        Some(known) => file_name_typed(scene, is_called, at, name, &known.entity),
        None => Err(refused(Rule::Undeclared, at)),
    }
}

/// A name: a local's, a builtin's or one of the file.
pub fn name_typed(scene: &Scene, is_called: bool, at: u32, name: &Name) -> Result<Typed, Refusal>
    ensures { Judges (name_typed (scene_of scene.now) is_called at name.now) typed_of result }
{
    if let Some(local) = scene.find_local(name) {
        return Ok(named(
            at,
            Denoted::Object(local.type_number),
            Naming::Local(local.local),
            local_address(local.local),
        ));
    }
    match builtin_named(name) {
        Some(builtin) => builtin_typed(is_called, at, builtin),
        None => known_name_typed(scene, is_called, at, name),
    }
}
