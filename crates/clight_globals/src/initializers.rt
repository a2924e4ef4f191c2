//! The initializers of a file's objects (ISO C99 6.7.8), and those that may not stand.

ghost use Rattle.std.specs.Prelude.{◌≡◌};
ghost use Rattle.c_tree.specs.Trees.{list_init};
ghost use Rattle.c_tree.specs.Shape.{exprs_of};
ghost use Rattle.c_tree.specs.FileShape.{initializer_of};
ghost use Rattle.clight_types.specs.Judged.{Judges};
ghost use Rattle.clight_scopes.specs.SceneOf.{scene_of};
ghost use Rattle.clight_operands.specs.Shown.{typed_of};
ghost use Rattle.clight_globals.specs.Globals.{value_judged, refused_initializer, object_initialized};

use crate::bytes::{constant_bytes, is_known};
use crate::known::start;
use crate::lists::list_judged;
use c_tree::{Expr, Initializer};
use clight_expressions::typing::{typed, typed_all};
use clight_operands::operands::{converts_to, is_struct_expression, refused};
use clight_operands::{Allowed, Typed};
use clight_scopes::Scene;
use clight_types::{Refusal, Rule, owed};
use std::alloc::Global;
use tso_words::Name;

/// A value that initializes an object of a type.
fn value_judged(
    alloc: Global,
    scene: &mut Scene,
    name: &Name,
    t: usize,
    e: &Typed,
) -> Result<(), Refusal>
    ensures { Judges (value_judged (scene_of scene.old) name.now t (typed_of e.now)) (λ u. scene_of scene.new) result }
{
    let types = &scene.types;
    let to = types.value(t);
    owed(!is_struct_expression(types, e), Rule::StructValue, e.at)?;
    owed(!types.is_struct(t), Rule::StructValue, e.at)?;
    owed(is_known(e.constant), Rule::Initializer, e.at)?;
    owed(
        types.is_scalar(t) && converts_to(types, to, e),
        Rule::NeedsCast,
        e.at,
    )?;
    let bytes = constant_bytes(alloc, to, e.constant)?;
    start(scene, name, bytes);
    Ok(())
}

/// A list where none may stand.
#[tactic(auto, using(clight_specifiers::proofs::Faults::stopped, clight_specifiers::proofs::Faults::gone_on))]
fn refused_list(alloc: Global, scene: &mut Scene, at: u32, list: &[Expr]) -> Result<(), Refusal>
    ensures { Judges (refused_initializer (scene_of scene.old) (list_init at (exprs_of list.now))) (λ u. scene_of scene.new) result }
{
    let _values = typed_all(alloc, scene, list)?;
    Err(refused(Rule::Initializer, at))
}

/// An initializer where none may stand: of a function, an `extern` or a typedef.
#[tactic(auto, using(clight_specifiers::proofs::Faults::stopped, clight_specifiers::proofs::Faults::gone_on))]
pub fn refused_initializer(
    alloc: Global,
    scene: &mut Scene,
    initializer: &Option<Initializer>,
) -> Result<(), Refusal>
    ensures { Judges (refused_initializer (scene_of scene.old) (initializer_of initializer.now)) (λ u. scene_of scene.new) result }
{
    match initializer {
        None => Ok(()),
        Some(Initializer::Value(expr)) => {
            let e = typed(alloc, scene, Allowed::NoEffect, false, expr)?;
            Err(refused(Rule::Initializer, e.at))
        }
        Some(Initializer::List { at, values }) => refused_list(alloc, scene, *at, values),
    }
}

/// The initializer of an object, where it has one.
#[tactic(auto, using(clight_specifiers::proofs::Faults::stopped, clight_specifiers::proofs::Faults::gone_on))]
pub fn object_initialized(
    alloc: Global,
    scene: &mut Scene,
    name: &Name,
    t: usize,
    initializer: &Option<Initializer>,
) -> Result<(), Refusal>
    ensures { Judges (object_initialized (scene_of scene.old) name.now t (initializer_of initializer.now)) (λ u. scene_of scene.new) result }
{
    match initializer {
        None => Ok(()),
        Some(Initializer::Value(expr)) => {
            let e = typed(alloc, scene, Allowed::NoEffect, false, expr)?;
            value_judged(alloc, scene, name, t, &e)
        }
        Some(Initializer::List { at, values }) => {
            if scene.types.is_scalar(t) {
                refused_list(alloc, scene, *at, values)
            } else {
                list_judged(alloc, scene, *at, name, t, values)
            }
        }
    }
}
