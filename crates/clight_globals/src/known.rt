//! What is known of a name behind a declaration.

ghost use Rattle.std.specs.Prelude.{◌≡◌, OnOk};
ghost use Rattle.std.specs.Option.{option_map};
ghost use Rattle.clight_scopes.specs.SceneOf.{scene_of, entity_of as entity_value};
ghost use Rattle.clight_typing.specs.Typing.{entity_of};
ghost use Rattle.clight_globals.specs.Globals.{object_known, function_known, started};
ghost use Rattle.clight_globals.specs.GlobalsOf.{object_again, new_function, function_again, object_started};

use clight_calls::builtins::is_builtin_name;
use clight_calls::names::copied;
use clight_scopes::{Entity, Scene};
use std::alloc::Global;
use tso_words::{Name, NoMemory};

/// An object is defined where one of its declarations defines it.
fn object_again(entity: &mut Entity, defines: bool)
    ensures { entity_value entity.new ≡ object_again defines (entity_value entity.old) }
{
    match entity {
        Entity::Object { is_defined, .. } => *is_defined = *is_defined || defines,
        Entity::Function { .. }
        | Entity::Enumerator(_)
        | Entity::Typedef(_)
        | Entity::Builtin { .. } => {}
    }
}

/// An object is declared, with nothing said of its bytes.
pub fn object_known(
    alloc: Global,
    scene: &mut Scene,
    name: &Name,
    at: u32,
    t: usize,
    defines: bool,
) -> Result<(), NoMemory>
    ensures { OnOk result (scene_of scene.new ≡ object_known (scene_of scene.old) name.now at t defines (entity_of (scene_of scene.old) name.now)) }
{
    if let Some(index) = scene.file.get_index_of(name) {
        if let Some(known) = scene.file.get_index_mut(index) {
            object_again(&mut known.entity, defines);
        }
        return Ok(());
    }
    let object = Entity::Object {
        type_number: t,
        is_defined: defines,
        start: Vec::new(alloc),
    };
    scene.put_file_name(copied(name)?, at, object)
}

/// A function or a builtin that the file did not have.
fn new_function(name: &Name, t: usize, is_static: bool, is_defined: bool) -> Entity
    ensures { entity_value result ≡ new_function name.now t is_static is_defined }
{
    if is_builtin_name(name) {
        Entity::Builtin { is_static }
    } else {
        Entity::Function {
            type_number: t,
            is_static,
            is_defined,
        }
    }
}

/// A function is static and defined where one of its declarations says so.
fn function_again(entity: &Entity, is_static: bool, defines: bool) -> Option<Entity>
    ensures { option_map entity_value result ≡ function_again is_static defines (entity_value entity.now) }
{
    match entity {
        Entity::Function {
            type_number,
            is_static: was_static,
            is_defined,
        } => Some(Entity::Function {
            type_number: *type_number,
            is_static: *was_static || is_static,
            is_defined: *is_defined || defines,
        }),
        Entity::Builtin {
            is_static: was_static,
        } => Some(Entity::Builtin {
            is_static: *was_static || is_static,
        }),
        Entity::Object { .. } | Entity::Enumerator(_) | Entity::Typedef(_) => None,
    }
}

/// A function is declared or defined.
pub fn function_known(
    scene: &mut Scene,
    name: &Name,
    at: u32,
    t: usize,
    is_static: bool,
    defines: bool,
) -> Result<(), NoMemory>
    ensures { OnOk result (scene_of scene.new ≡ function_known (scene_of scene.old) name.now at t is_static defines (entity_of (scene_of scene.old) name.now)) }
{
    match scene.find_file(name) {
        Some(known) => {
            if let Some(entity) = function_again(&known.entity, is_static, defines) {
                scene.replace_entity(name, entity);
            }
            Ok(())
        }
        None => {
            let entity = new_function(name, t, is_static, defines);
            scene.put_file_name(copied(name)?, at, entity)
        }
    }
}

/// An object with these first bytes, where the name stands for one.
fn started_with(entity: &Entity, bytes: Vec<u8>) -> Option<Entity>
    ensures { option_map entity_value result ≡ object_started bytes.items (entity_value entity.now) }
{
    match entity {
        Entity::Object {
            type_number,
            is_defined,
            ..
        } => Some(Entity::Object {
            type_number: *type_number,
            is_defined: *is_defined,
            start: bytes,
        }),
        Entity::Function { .. }
        | Entity::Enumerator(_)
        | Entity::Typedef(_)
        | Entity::Builtin { .. } => None,
    }
}

/// An object begins with these bytes.
pub fn start(scene: &mut Scene, name: &Name, bytes: Vec<u8>)
    ensures { scene_of scene.new ≡ started (scene_of scene.old) name.now bytes.items }
{
    if let Some(known) = scene.find_file(name) {
        if let Some(entity) = started_with(&known.entity, bytes) {
            scene.replace_entity(name, entity);
        }
    }
}
