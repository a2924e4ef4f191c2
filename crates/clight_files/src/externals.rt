//! What stands in a file, one thing behind another.

ghost use Rattle.std.specs.Prelude.{◌≡◌, ◌++◌, ◌∷◌, [], OnOk};
ghost use Rattle.c_tree.specs.FileShape.{decl_of, external_of, externals_of};
ghost use Rattle.clight_types.specs.Judged.{Judges};
ghost use Rattle.clight_scopes.specs.SceneOf.{scene_of};
ghost use Rattle.clight_files.specs.Files.{external_judged, externals_judged};
ghost use Rattle.clight_files.specs.FilesOf.{functions_of, functions_behind, decl_declared};

use crate::definitions::function_defined;
use crate::made::FunctionMade;
use c_tree::{Decl, External};
use clight_expressions::typing::specified;
use clight_globals::declarators::names_declared;
use clight_globals::storage::storage_in;
use clight_scopes::Scene;
use clight_specifiers::built::{base_of, push};
use clight_types::Refusal;
use std::alloc::Global;

/// A declaration of the file.
fn decl_declared(alloc: Global, scene: &mut Scene, decl: &Decl) -> Result<(), Refusal>
    ensures { Judges (decl_declared (scene_of scene.old) (decl_of decl.now)) (λ u. scene_of scene.new) result }
{
    let base = specified(alloc, scene, &decl.specifiers)?;
    let storage = storage_in(&decl.specifiers);
    names_declared(alloc, scene, storage, base_of(base), &decl.declarators)
}

/// A declaration or a definition; a function that it defines goes behind those before it.
fn external_judged(
    alloc: Global,
    scene: &mut Scene,
    external: &External,
    functions: &mut Vec<FunctionMade>,
) -> Result<(), Refusal>
    ensures { Judges (functions_behind (functions_of functions.old.items) (external_judged (scene_of scene.old) (external_of external.now))) (λ u. (scene_of scene.new, functions_of functions.new.items)) result }
{
    match external {
        External::Decl(decl) => decl_declared(alloc, scene, decl),
        External::Function(function) => {
            let made = function_defined(alloc, scene, function)?;
            Ok(push(functions, made)?)
        }
    }
}

/// All that stands in a file: the functions that it defines, in order.
pub fn externals_judged(
    alloc: Global,
    scene: &mut Scene,
    list: &[External],
) -> Result<Vec<FunctionMade>, Refusal>
    ensures { Judges (externals_judged (scene_of scene.old) (externals_of list.now)) (λ fs. (scene_of scene.new, functions_of fs.items)) result }
{
    let mut functions = Vec::new(alloc);
    for external in list {
        external_judged(alloc, scene, external, &mut functions)?;
    }
    Ok(functions)
}
