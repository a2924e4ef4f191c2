//! How a declaration clashes with what its name stands for in the file already.

ghost use Rattle.std.specs.Prelude.{◌≡◌, Some};
ghost use Rattle.clight_scopes.specs.SceneOf.{scene_of, entity_of};
ghost use Rattle.clight_typing.specs.Typing.{no_clash, defined_twice, other_thing};
ghost use Rattle.clight_specifiers.specs.TypingOf.{clash_of};
ghost use Rattle.clight_globals.specs.Globals.{object_with, judged_if, object_clash, function_with, builtin_clash, function_clash, typedef_clash};

use clight_calls::builtins::{builtin_named, builtin_type, is_builtin_name};
use clight_scopes::{Entity, Scene};
use clight_specifiers::enumerators::Clash;
use clight_types::declarators::type_or;
use tso_words::Name;

fn no_clash() -> Clash
    ensures { clash_of result ≡ no_clash }
{
    Clash {
        is_twice: false,
        differs: false,
    }
}

fn defined_twice() -> Clash
    ensures { clash_of result ≡ defined_twice }
{
    Clash {
        is_twice: true,
        differs: false,
    }
}

/// Another thing of the name is there, and is defined or not.
fn other_thing(is_defined: bool) -> Clash
    ensures { clash_of result ≡ other_thing is_defined }
{
    Clash {
        is_twice: is_defined,
        differs: !is_defined,
    }
}

/// An object of a type against what stands for its name.
fn object_with(entity: &Entity, t: usize, defines: bool) -> Clash
    ensures { clash_of result ≡ object_with t defines (Some (entity_of entity.now)) }
{
    match entity {
        Entity::Object {
            type_number,
            is_defined,
            ..
        } => Clash {
            is_twice: *is_defined && defines,
            differs: t != *type_number,
        },
        Entity::Function { is_defined, .. } => other_thing(*is_defined && defines),
        Entity::Enumerator(_) => other_thing(defines),
        Entity::Typedef(_) | Entity::Builtin { .. } => defined_twice(),
    }
}

/// Where no type could be built, a difference of types is not judged.
fn judged_if(is_built: bool, clash: Clash) -> Clash
    ensures { clash_of result ≡ judged_if is_built (clash_of clash) }
{
    Clash {
        is_twice: clash.is_twice,
        differs: is_built && clash.differs,
    }
}

/// An object, of a type where one could be built, against what stands for its name.
pub fn object_clash(scene: &Scene, name: &Name, built: Option<usize>, defines: bool) -> Clash
    ensures { clash_of result ≡ object_clash (scene_of scene.now) name.now built defines }
{
    if is_builtin_name(name) {
        return defined_twice();
    }
    let clash = match scene.find_file(name) {
        Some(known) => object_with(&known.entity, type_or(built, 0), defines),
        None => no_clash(),
    };
    judged_if(built.is_some(), clash)
}

/// A function of a type against what stands for its name.
fn function_with(entity: &Entity, t: usize, defines: bool) -> Clash
    ensures { clash_of result ≡ function_with t defines (Some (entity_of entity.now)) }
{
    match entity {
        Entity::Function {
            type_number,
            is_defined,
            ..
        } => Clash {
            is_twice: *is_defined && defines,
            differs: t != *type_number,
        },
        Entity::Object { is_defined, .. } => other_thing(*is_defined && defines),
        Entity::Enumerator(_) => other_thing(defines),
        Entity::Typedef(_) | Entity::Builtin { .. } => defined_twice(),
    }
}

/// A builtin may be declared with just its type, and is never defined.
fn builtin_clash(name: &Name, t: usize, defines: bool) -> Clash
    ensures { clash_of result ≡ builtin_clash name.now t defines }
{
    let own = match builtin_named(name) {
        Some(builtin) => builtin_type(builtin),
        None => None,
    };
    match own {
        Some(u) if u == t && !defines => no_clash(),
        _ => defined_twice(),
    }
}

/// A function of a type against what stands for its name.
pub fn function_clash(scene: &Scene, name: &Name, t: usize, defines: bool) -> Clash
    ensures { clash_of result ≡ function_clash (scene_of scene.now) name.now t defines }
{
    if is_builtin_name(name) {
        return builtin_clash(name, t, defines);
    }
    match scene.find_file(name) {
        Some(known) => function_with(&known.entity, t, defines),
        None => no_clash(),
    }
}

/// Whether a typedef of this name cannot stand.
pub fn typedef_clash(scene: &Scene, name: &Name) -> bool
    ensures { result ≡ typedef_clash (scene_of scene.now) name.now }
{
    is_builtin_name(name) || scene.find_file(name).is_some()
}
