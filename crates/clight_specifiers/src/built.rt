//! Members, parameters and type names, once their types are built.

ghost use Rattle.std.specs.Prelude.{◌≡◌, ◌++◌, [], ◌∷◌, false, OnOk, IfOk, replicate};
ghost use Rattle.clight_types.specs.Judged.{Judges};
ghost use Rattle.clight_types.specs.LaidOf.{laid_of};
ghost use Rattle.clight_types.specs.BuiltOf.{built_of, parameter_of};
ghost use Rattle.clight_scopes.specs.SceneOf.{scene_of};
ghost use Rattle.clight_types.specs.Table.{types_of};
ghost use Rattle.clight_types.specs.Declarators.{PointerPart, built_parameter, built_type};
ghost use Rattle.clight_scopes.specs.Scopes.{with_types};
ghost use Rattle.clight_specifiers.specs.TypingOf.{parts_of};
ghost use Rattle.clight_typing.specs.Typing.{base_of, name_or_empty, member_judged, is_taken_name, passes_limit, with_parameter, parameter_judged, type_name_judged};
ghost use Rattle.std.specs.Option.{option_copied};

use clight_calls::builtins::is_builtin_name;
use clight_calls::names::copied;
use clight_scopes::Scene;
use clight_types::declarators::{
    Built, Parameter, Part, TYPE_LIMIT, built_parameter, built_type, type_or,
};
use clight_types::layout::{is_member_name, laid_with, next_end};
use clight_types::{Laid, Refusal, Rule, owed};
use std::alloc::{AllocError, Global};
use tso_words::{Name, NoMemory};

/// The number of `int`, which stands for a type that could not be built.
pub const INT_TYPE: usize = 5;

/// The type that specifiers give.
pub fn base_of(given: Option<usize>) -> usize
    ensures { result ≡ base_of given }
{
    type_or(given, INT_TYPE)
}

/// A name, or the empty one where there is none.
pub fn name_or_empty(alloc: Global, name: Option<&Name>) -> Result<Name, NoMemory>
    ensures { IfOk result (λ copy. copy ≡ name_or_empty (option_copied name.entry)) }
{
    match name {
        Some(name) => copied(name),
        None => Name::made(alloc, b""),
    }
}

/// One more at the end of a list.
pub fn push<T: Drop>(list: &mut Vec<T>, item: T) -> Result<(), NoMemory>
    ensures { OnOk result (list.new.items ≡ list.old.items ++ item ∷ []) }
{
    list.push(item).map_err(AllocError::from)?;
    Ok(())
}

/// The parts of a declarator behind so many pointers, which stand outside the others.
#[tactic(auto, using(crate::proofs::PartsOf::pointers_more))]
pub fn with_pointers(parts: Vec<Part>, count: usize) -> Result<Vec<Part>, NoMemory>
    ensures { IfOk result (λ ps. parts_of ps.items ≡ replicate count PointerPart ++ parts_of parts.items) }
{
    let mut parts = parts;
    for _ in 0..count {
        push(&mut parts, Part::Pointer)?;
    }
    Ok(parts)
}

/// The type that the parts of a declarator make of a base; the parts come from the innermost on.
pub fn built_type_in(
    alloc: Global,
    scene: &mut Scene,
    base: usize,
    parts: Vec<Part>,
) -> Result<Built, NoMemory>
    ensures built { IfOk result (λ b. built_type (types_of scene.old.types) base (parts_of parts.items) ≡ built_of scene.new.types b) }
    ensures rest { scene_of scene.new ≡ with_types (scene_of scene.old) (types_of scene.new.types) }
{
    let mut parts = parts;
    parts.reverse();
    built_type(alloc, &mut scene.types, base, &parts)
}

/// The same of a parameter.
fn built_parameter_in(
    alloc: Global,
    scene: &mut Scene,
    base: usize,
    parts: Vec<Part>,
) -> Result<Built, NoMemory>
    ensures built { IfOk result (λ b. built_parameter (types_of scene.old.types) base (parts_of parts.items) ≡ built_of scene.new.types b) }
    ensures rest { scene_of scene.new ≡ with_types (scene_of scene.old) (types_of scene.new.types) }
{
    let mut parts = parts;
    parts.reverse();
    built_parameter(alloc, &mut scene.types, base, &parts)
}

/// A member of a struct.
fn member_judged(
    scene: &Scene,
    laid: Laid,
    at: u32,
    name: Name,
    built: Built,
) -> Result<Laid, Refusal>
    ensures { Judges (member_judged (scene_of scene.now) (laid_of laid) at name (built_of scene.now.types built)) (λ l. (scene_of scene.now, laid_of l)) result }
{
    let types = &scene.types;
    let t = type_or(built.type_number, INT_TYPE);
    owed(!is_member_name(&laid, &name), Rule::DefinedTwice, at)?;
    owed(
        !built.has_incomplete && types.is_complete(t),
        Rule::Incomplete,
        at,
    )?;
    owed(!built.is_wrong, Rule::ArrayOrFunction, at)?;
    let fits = next_end(types, &laid, t) <= u64::from(TYPE_LIMIT);
    owed(!built.is_large && fits, Rule::LargeType, at)?;
    owed(!built.gives_struct, Rule::StructValue, at)?;
    Ok(laid_with(types, laid, name, t)?)
}

/// Whether a parameter of this name cannot stand.
fn is_taken_name(scene: &Scene, name: Option<&Name>) -> bool
    ensures { result ≡ is_taken_name (scene_of scene.now) (option_copied name.entry) }
{
    match name {
        Some(name) => scene.is_in_first(name) || is_builtin_name(name),
        None => false,
    }
}

fn copied_name(name: Option<&Name>) -> Result<Option<Name>, NoMemory>
    ensures { IfOk result (λ copy. copy ≡ option_copied name.entry) }
{
    match name {
        Some(name) => Ok(Some(copied(name)?)),
        None => Ok(None),
    }
}

/// A parameter comes into scope; one of the function that is defined is a local of it.
fn put_parameter(
    alloc: Global,
    scene: &mut Scene,
    is_own: bool,
    name: Option<&Name>,
    t: usize,
) -> Result<(), NoMemory>
    requires { is_taken_name (scene_of scene.old) (option_copied name) ≡ false }
    ensures { OnOk result (scene_of scene.new ≡ with_parameter is_own (scene_of scene.old) (option_copied name.entry) t) }
{
    let local = if is_own {
        Some(scene.locals.len())
    } else {
        None
    };
    if let Some(name) = name {
        scene.put_block_name(alloc, copied(name)?, t, local)?;
    }
    if is_own {
        scene.put_local(t)?;
    }
    Ok(())
}

/// A parameter.
fn parameter_judged(
    alloc: Global,
    scene: &mut Scene,
    is_own: bool,
    first_at: u32,
    at: u32,
    name: Option<&Name>,
    built: Built,
) -> Result<Parameter, Refusal>
    ensures { Judges (parameter_judged is_own (scene_of scene.old) first_at at (option_copied name.entry) (built_of scene.old.types built)) (λ p. (scene_of scene.new, parameter_of p)) result }
{
    let t = type_or(built.type_number, INT_TYPE);
    owed(!is_taken_name(scene, name), Rule::DefinedTwice, at)?;
    owed(
        !built.has_incomplete && !scene.types.is_incomplete(t),
        Rule::Incomplete,
        at,
    )?;
    owed(!built.is_wrong, Rule::ArrayOrFunction, at)?;
    owed(!built.is_large, Rule::LargeType, at)?;
    owed(
        !built.gives_struct && !scene.types.is_struct(t),
        Rule::StructValue,
        at,
    )?;
    owed(!is_own || name.is_some(), Rule::NamelessParameter, first_at)?;
    put_parameter(alloc, scene, is_own, name, t)?;
    Ok(Parameter {
        name: copied_name(name)?,
        at,
        type_number: t,
    })
}

/// The type of a type name.
fn type_name_judged(scene: &Scene, at: u32, built: Built) -> Result<usize, Refusal>
    ensures { Judges (type_name_judged (scene_of scene.now) at (built_of scene.now.types built)) (λ t. (scene_of scene.now, t)) result }
{
    owed(!built.has_incomplete, Rule::Incomplete, at)?;
    owed(!built.is_wrong, Rule::ArrayOrFunction, at)?;
    owed(!built.is_large, Rule::LargeType, at)?;
    owed(!built.gives_struct, Rule::StructValue, at)?;
    Ok(type_or(built.type_number, INT_TYPE))
}

/// A member of a struct, by the parts of its declarator.
pub fn member_built(
    alloc: Global,
    scene: &mut Scene,
    base: usize,
    laid: Laid,
    at: u32,
    name: Name,
    parts: Vec<Part>,
) -> Result<Laid, Refusal>
    ensures { Judges (member_judged (scene_of scene.old) (laid_of laid) at name (built_type (types_of scene.old.types) base (parts_of parts.items))) (λ l. (scene_of scene.new, laid_of l)) result }
{
    let built = built_type_in(alloc, scene, base, parts)?;
    member_judged(scene, laid, at, name, built)
}

/// A parameter, by the parts of its declarator.
pub fn parameter_built(
    alloc: Global,
    scene: &mut Scene,
    is_own: bool,
    base: usize,
    first_at: u32,
    at: u32,
    name: Option<&Name>,
    parts: Vec<Part>,
) -> Result<Parameter, Refusal>
    ensures { Judges (parameter_judged is_own (scene_of scene.old) first_at at (option_copied name.entry) (built_parameter (types_of scene.old.types) base (parts_of parts.items))) (λ p. (scene_of scene.new, parameter_of p)) result }
{
    let built = built_parameter_in(alloc, scene, base, parts)?;
    parameter_judged(alloc, scene, is_own, first_at, at, name, built)
}

/// The type of a type name, by the parts of its declarator.
pub fn type_name_built(
    alloc: Global,
    scene: &mut Scene,
    base: usize,
    at: u32,
    parts: Vec<Part>,
) -> Result<usize, Refusal>
    ensures { Judges (type_name_judged (scene_of scene.old) at (built_type (types_of scene.old.types) base (parts_of parts.items))) (λ t. (scene_of scene.new, t)) result }
{
    let built = built_type_in(alloc, scene, base, parts)?;
    type_name_judged(scene, at, built)
}
