//! The declarators of a file's declarations.

ghost use Rattle.std.specs.Prelude.{◌≡◌};
ghost use Rattle.c_tree.specs.Shape.{declarator_of};
ghost use Rattle.c_tree.specs.FileShape.{initializer_of, init_declarators_of};
ghost use Rattle.clight_types.specs.BuiltOf.{built_of};
ghost use Rattle.clight_types.specs.Judged.{Judges};
ghost use Rattle.clight_types.specs.Table.{types_of};
ghost use Rattle.clight_types.specs.Types.{shape_at};
ghost use Rattle.clight_calls.specs.Calls.{results_at};
ghost use Rattle.clight_scopes.specs.SceneOf.{scene_of};
ghost use Rattle.clight_globals.specs.Globals.{is_main, narrow_value, gives_narrow, function_judged, object_judged, typedef_declared, function_in, object_declared, name_declared, names_declared};
ghost use Rattle.clight_globals.specs.GlobalsOf.{storage_given, item_declared};

use crate::clashes::{function_clash, object_clash, typedef_clash};
use crate::initializers::{object_initialized, refused_initializer};
use crate::known::{function_known, object_known};
use crate::storage::{is_extern, is_static, is_typedef};
use c_tree::{InitDeclarator, Initializer, StorageClass};
use clight_calls::builtins::is_builtin_name;
use clight_calls::names::copied;
use clight_expressions::typing::declared as parts_declared;
use clight_scopes::{Entity, Scene};
use clight_specifiers::built::{INT_TYPE, built_type_in, name_or_empty};
use clight_specifiers::named::{declared_at, declared_name};
use clight_types::declarators::{Built, type_or};
use clight_types::{Integer, Refusal, Rule, Shape, Types, Value, owed};
use std::alloc::Global;
use tso_words::Name;

/// The number of the type of `main`.
const MAIN_TYPE: usize = 14;

fn is_main(name: &Name) -> bool
    ensures { result ≡ is_main name.now }
{
    name.bytes() == b"main".as_slice()
}

/// The type that a function gives; `void` where the type is no function's.
pub fn result_of(types: &Types, t: usize) -> usize
    ensures { result ≡ results_at (shape_at (types_of types.now) t) }
{
    match types.shape(t) {
        Some(Shape::Function { result, .. }) => *result,
        Some(
            Shape::Void
            | Shape::Integer(_)
            | Shape::Pointer(_)
            | Shape::Array { .. }
            | Shape::Struct(_),
        )
        | None => 0,
    }
}

/// Whether the value is narrower than an `int`.
fn is_narrow(value: Value) -> bool
    ensures { result ≡ narrow_value value }
{
    match value {
        Value::Integer(i) => match i {
            Integer::Char | Integer::UnsignedChar | Integer::Short | Integer::UnsignedShort => true,
            Integer::Int | Integer::UnsignedInt => false,
        },
        Value::Pointer(_) | Value::Struct | Value::Void => false,
    }
}

/// Whether a function is external and gives a narrow value.
fn gives_narrow(scene: &Scene, name: &Name, t: usize) -> bool
    ensures { result ≡ gives_narrow (scene_of scene.now) (types_of scene.now.types) name.now t }
{
    let given = scene.types.value(result_of(&scene.types, t));
    !is_builtin_name(name) && !scene.defines(name) && is_narrow(given)
}

/// The declarator of a function that is declared or defined, whose type has this number.
pub fn function_judged(
    scene: &mut Scene,
    at: u32,
    name: &Name,
    built: Built,
    t: usize,
    is_static: bool,
    defines: bool,
) -> Result<(), Refusal>
    ensures { Judges (function_judged (scene_of scene.old) at name.now (built_of scene.old.types built) t is_static defines) (λ u. scene_of scene.new) result }
{
    let clash = function_clash(scene, name, t, defines);
    owed(!clash.is_twice, Rule::DefinedTwice, at)?;
    owed(!clash.differs, Rule::TypesDiffer, at)?;
    owed(!built.is_large, Rule::LargeType, at)?;
    owed(!built.gives_struct, Rule::StructValue, at)?;
    owed(!is_main(name) || t == MAIN_TYPE, Rule::Main, at)?;
    owed(!gives_narrow(scene, name, t), Rule::NarrowResult, at)?;
    Ok(function_known(scene, name, at, t, is_static, defines)?)
}

/// The declarator of an object.
fn object_judged(
    alloc: Global,
    scene: &mut Scene,
    at: u32,
    name: &Name,
    built: Built,
    defines: bool,
) -> Result<(), Refusal>
    ensures { Judges (object_judged (scene_of scene.old) at name.now (built_of scene.old.types built) defines) (λ u. scene_of scene.new) result }
{
    let clash = object_clash(scene, name, built.type_number, defines);
    let t = type_or(built.type_number, INT_TYPE);
    owed(!clash.is_twice, Rule::DefinedTwice, at)?;
    owed(!clash.differs, Rule::TypesDiffer, at)?;
    owed(
        !built.has_incomplete && !scene.types.is_incomplete(t),
        Rule::Incomplete,
        at,
    )?;
    owed(!built.is_wrong, Rule::ArrayOrFunction, at)?;
    owed(!built.is_large, Rule::LargeType, at)?;
    owed(!built.gives_struct, Rule::StructValue, at)?;
    owed(!is_main(name), Rule::Main, at)?;
    Ok(object_known(alloc, scene, name, at, t, defines)?)
}

/// The declarator of a typedef.
#[tactic(auto, using(crate::proofs::Behind::typedef_new))]
fn typedef_declared(scene: &mut Scene, at: u32, name: &Name, built: Built) -> Result<(), Refusal>
    ensures { Judges (typedef_declared (scene_of scene.old) at name.now (built_of scene.old.types built)) (λ u. scene_of scene.new) result }
{
    owed(!typedef_clash(scene, name), Rule::DefinedTwice, at)?;
    owed(!built.has_incomplete, Rule::Incomplete, at)?;
    owed(!built.is_wrong, Rule::ArrayOrFunction, at)?;
    owed(!built.is_large, Rule::LargeType, at)?;
    owed(!built.gives_struct, Rule::StructValue, at)?;
    let t = type_or(built.type_number, INT_TYPE);
    Ok(scene.put_file_name(copied(name)?, at, Entity::Typedef(t))?)
}

/// Whether a function's type could be built.
fn is_function_in(types: &Types, built: Option<usize>) -> bool
    ensures { result ≡ function_in (types_of types.now) built }
{
    match built {
        Some(t) => types.is_function(t),
        None => false,
    }
}

/// The declarator of an object, with its initializer.
fn object_declared(
    alloc: Global,
    scene: &mut Scene,
    storage: Option<StorageClass>,
    at: u32,
    name: &Name,
    built: Built,
    initializer: &Option<Initializer>,
) -> Result<(), Refusal>
    ensures { Judges (object_declared (scene_of scene.old) (storage_given storage) at name.now (built_of scene.old.types built) (initializer_of initializer.now)) (λ u. scene_of scene.new) result }
{
    let is_extern = is_extern(storage);
    object_judged(alloc, scene, at, name, built, !is_extern)?;
    if is_extern {
        refused_initializer(alloc, scene, initializer)
    } else {
        let t = type_or(built.type_number, INT_TYPE);
        object_initialized(alloc, scene, name, t, initializer)
    }
}

/// What a declarator declares, once its type is built: a typedef, a function or an object.
fn name_declared(
    alloc: Global,
    scene: &mut Scene,
    storage: Option<StorageClass>,
    at: u32,
    name: &Name,
    built: Built,
    initializer: &Option<Initializer>,
) -> Result<(), Refusal>
    ensures { Judges (name_declared (scene_of scene.old) (storage_given storage) at name.now (built_of scene.old.types built) (initializer_of initializer.now)) (λ u. scene_of scene.new) result }
{
    if is_typedef(storage) {
        typedef_declared(scene, at, name, built)?;
        refused_initializer(alloc, scene, initializer)
    } else if is_function_in(&scene.types, built.type_number) {
        let t = type_or(built.type_number, 0);
        function_judged(scene, at, name, built, t, is_static(storage), false)?;
        refused_initializer(alloc, scene, initializer)
    } else {
        object_declared(alloc, scene, storage, at, name, built, initializer)
    }
}

/// A declarator with its initializer, behind specifiers that give a base type.
fn item_declared(
    alloc: Global,
    scene: &mut Scene,
    storage: Option<StorageClass>,
    base: usize,
    item: &InitDeclarator,
) -> Result<(), Refusal>
    ensures { Judges (item_declared (scene_of scene.old) (storage_given storage) base (declarator_of item.now.declarator) (initializer_of item.now.initializer)) (λ u. scene_of scene.new) result }
{
    let parts = parts_declared(alloc, scene, false, &item.declarator)?;
    let name = name_or_empty(alloc, declared_name(&item.declarator))?;
    let at = declared_at(&item.declarator, 0);
    let built = built_type_in(alloc, scene, base, parts)?;
    name_declared(alloc, scene, storage, at, &name, built, &item.initializer)
}

/// The declarators of one declaration, behind a storage word, where there is one, and specifiers
/// that give a base type. A refusal has the first fault, in the order of the file.
pub fn names_declared(
    alloc: Global,
    scene: &mut Scene,
    storage: Option<StorageClass>,
    base: usize,
    list: &[InitDeclarator],
) -> Result<(), Refusal>
    ensures { Judges (names_declared (scene_of scene.old) (storage_given storage) base (init_declarators_of list.now)) (λ u. scene_of scene.new) result }
{
    for item in list {
        item_declared(alloc, scene, storage, base, item)?;
    }
    Ok(())
}
