//! Whole files.

ghost use Rattle.std.specs.Prelude.{◌≡◌, [], OnOk, IfOk, Some};
ghost use Rattle.c_tree.specs.FileShape.{external_of, externals_of, file_of};
ghost use Rattle.clight_types.specs.Judged.{Judges};
ghost use Rattle.clight_scopes.specs.Scopes.{first_scene, with_each};
ghost use Rattle.clight_scopes.specs.SceneOf.{scene_of, entity_of as entity_value};
ghost use Rattle.clight_typing.specs.Typing.{entity_of};
ghost use Rattle.clight_globals.specs.Globals.{main_name};
ghost use Rattle.clight_files.specs.Files.{defined_name, defined_names, is_settled, is_defined_entity, file_judged};
ghost use Rattle.clight_files.specs.FilesOf.{file_made_of, with_defined, settled};

use crate::externals::externals_judged;
use crate::made::FileMade;
use c_tree::{External, File};
use clight_scopes::{Entity, Scene};
use clight_specifiers::built::name_or_empty;
use clight_specifiers::named::declared_name;
use clight_types::{Refusal, Rule, Types, owed};
use indexmap::{IndexMap, IndexSet};
use std::alloc::{AllocError, Global};
use tso_words::{Name, NoMemory};

/// The name of a function that is defined joins the others.
fn put_defined(
    alloc: Global,
    names: &mut IndexSet<Name>,
    external: &External,
) -> Result<(), NoMemory>
    ensures { OnOk result (names.new.keys ≡ with_each names.old.keys (defined_name (external_of external.now))) }
{
    if let External::Function(function) = external {
        let name = name_or_empty(alloc, declared_name(&function.declarator))?;
        names.insert(name).map_err(AllocError::from)?;
    }
    Ok(())
}

/// The names of the functions that the file defines anywhere.
fn defined_names(alloc: Global, list: &[External]) -> Result<IndexSet<Name>, NoMemory>
    ensures { IfOk result (λ names. names.keys ≡ with_each [] (defined_names (externals_of list.now))) }
{
    let mut names = IndexSet::new(alloc);
    for external in list {
        put_defined(alloc, &mut names, external)?;
    }
    Ok(names)
}

/// The scene at the begin of a file that defines these functions.
fn first_scene(alloc: Global, defined: IndexSet<Name>) -> Result<Scene, NoMemory>
    ensures { IfOk result (λ scene. scene_of scene ≡ with_defined (first_scene []) defined.keys) }
{
    Ok(Scene {
        types: Types::first(alloc)?,
        tags: IndexMap::new(alloc),
        file: IndexMap::new(alloc),
        blocks: Vec::new(alloc),
        locals: Vec::new(alloc),
        addressed: Vec::new(alloc),
        in_body: false,
        defined,
    })
}

/// Whether an object or a static function is defined, as all are in the end.
fn is_settled(entity: &Entity) -> bool
    ensures { result ≡ is_settled (entity_value entity.now) }
{
    match entity {
        Entity::Object { is_defined, .. } => *is_defined,
        Entity::Function {
            is_static,
            is_defined,
            ..
        } => *is_defined || !*is_static,
        Entity::Builtin { is_static } => !*is_static,
        Entity::Enumerator(_) | Entity::Typedef(_) => true,
    }
}

/// No object and no static function is left undefined.
fn all_settled(scene: &Scene) -> Result<(), Refusal>
    ensures { Judges (settled (scene_of scene.now)) (λ u. u) result }
{
    for known in scene.file.values() {
        owed(is_settled(&known.entity), Rule::NeverDefined, known.at)?;
    }
    Ok(())
}

/// Whether the name stands for a function that is defined.
fn is_defined_function(scene: &Scene, name: &Name) -> bool
    ensures { result ≡ is_defined_entity (entity_of (scene_of scene.now) name.now) }
{
    match scene.find_file(name) {
        Some(known) => match &known.entity {
            Entity::Function { is_defined, .. } => *is_defined,
            Entity::Object { .. }
            | Entity::Enumerator(_)
            | Entity::Typedef(_)
            | Entity::Builtin { .. } => false,
        },
        None => false,
    }
}

/// Whether the file defines `main`.
fn defines_main(alloc: Global, scene: &Scene) -> Result<bool, NoMemory>
    ensures { IfOk result (λ b. b ≡ is_defined_entity (entity_of (scene_of scene.now) main_name)) }
{
    let name = Name::made(alloc, b"main")?;
    Ok(is_defined_function(scene, &name))
}

/// What is made of a file of a length in bytes, which is the place of a missing `main`. A refusal
/// has the first fault of the file, in its order, or says that memory was short.
pub fn file_judged(alloc: Global, length: u32, file: &File) -> Result<FileMade, Refusal>
    ensures { Judges (file_judged length (file_of file.now)) (λ m. file_made_of m) result }
{
    let defined = defined_names(alloc, &file.externals)?;
    let mut scene = first_scene(alloc, defined)?;
    let functions = externals_judged(alloc, &mut scene, &file.externals)?;
    all_settled(&scene)?;
    owed(defines_main(alloc, &scene)?, Rule::Main, length)?;
    Ok(FileMade { scene, functions })
}
