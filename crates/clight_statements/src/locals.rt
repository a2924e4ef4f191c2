//! Declarations in blocks.

ghost use Rattle.std.specs.Prelude.{◌≡◌, IfOk, false};
ghost use Rattle.c_tree.specs.Shape.{declarator_of};
ghost use Rattle.c_tree.specs.FileShape.{initializer_of, init_declarators_of, decl_of};
ghost use Rattle.clight_types.specs.BuiltOf.{built_of};
ghost use Rattle.clight_types.specs.Declarators.{built_type};
ghost use Rattle.clight_types.specs.Judged.{Judges};
ghost use Rattle.clight_types.specs.Table.{types_of};
ghost use Rattle.clight_scopes.specs.SceneOf.{scene_of};
ghost use Rattle.clight_operands.specs.Shown.{typed_of};
ghost use Rattle.clight_specifiers.specs.TypingOf.{parts_of};
ghost use Rattle.clight_typing.specs.Statements.{local_type, is_taken_local, local_added, local_judged, alone, local_value_judged, local_initialized, local_declared, locals_declared, decl_judged};
ghost use Rattle.clight_made.specs.MadeOf.{made_of, made_list};
ghost use Rattle.clight_statements.specs.StatementsOf.{maybe_made, local_of, local_built};

use crate::making::add;
use c_tree::{Decl, InitDeclarator, Initializer};
use clight_calls::builtins::is_builtin_name;
use clight_expressions::typing::{declared, specified, typed, typed_all};
use clight_lang::expression::Expr;
use clight_made::Made;
use clight_operands::assignments::source_of;
use clight_operands::operands::{converts_to, is_struct_expression, refused};
use clight_operands::{Allowed, Deed, Typed};
use clight_scopes::Scene;
use clight_specifiers::built::{INT_TYPE, base_of, built_type_in, name_or_empty};
use clight_specifiers::named::{declared_at, declared_name};
use clight_types::declarators::{Built, Part, type_or};
use clight_types::{Refusal, Rule, Types, owed};
use std::alloc::Global;
use tso_words::{Name, NoMemory};

/// A local that is declared: its type, and its number among the parameters and locals of the
/// function.
#[derive(Clone, Copy, PartialEq, Eq, Debug)]
pub struct Local {
    pub type_number: usize,
    pub number: usize,
}

/// The type of a local, also where it could not be built.
fn local_type(types: &Types, built: Built) -> usize
    ensures { result ≡ local_type (built_of types.now built) }
{
    type_or(built.type_number, INT_TYPE)
}

/// Whether a local of this name cannot stand.
fn is_taken_local(scene: &Scene, name: &Name) -> bool
    ensures { result ≡ is_taken_local (scene_of scene.now) name.now }
{
    scene.is_in_first(name) || is_builtin_name(name)
}

/// A local more: its number among the parameters and locals of the function.
fn local_added(alloc: Global, scene: &mut Scene, name: Name, t: usize) -> Result<usize, NoMemory>
    requires { is_taken_local (scene_of scene.old) name ≡ false }
    ensures { IfOk result (λ n. local_added (scene_of scene.old) name t ≡ (scene_of scene.new, n)) }
{
    let number = scene.locals.len();
    scene.put_block_name(alloc, name, t, Some(number))?;
    scene.put_local(t)?;
    Ok(number)
}

/// A declarator in a block: the number of the local that it declares.
fn local_judged(
    alloc: Global,
    scene: &mut Scene,
    first_at: u32,
    at: u32,
    name: Name,
    built: Built,
) -> Result<usize, Refusal>
    ensures { Judges (local_judged (scene_of scene.old) first_at at name (built_of scene.old.types built)) (λ n. (scene_of scene.new, n)) result }
{
    let t = local_type(&scene.types, built);
    owed(!is_taken_local(scene, &name), Rule::DefinedTwice, at)?;
    owed(
        !built.has_incomplete && !scene.types.is_incomplete(t),
        Rule::Incomplete,
        at,
    )?;
    owed(!built.is_wrong, Rule::ArrayOrFunction, at)?;
    owed(!built.is_large, Rule::LargeType, at)?;
    owed(!built.gives_struct, Rule::StructValue, at)?;
    owed(!scene.types.is_function(t), Rule::InBlock, first_at)?;
    Ok(local_added(alloc, scene, name, t)?)
}

/// A value that initializes a local.
fn local_value_judged(alloc: Global, scene: &Scene, local: Local, e: Typed) -> Result<Made, Refusal>
    ensures { Judges (local_value_judged (scene_of scene.now) local.type_number local.number (typed_of e)) (λ m. (scene_of scene.now, alone (made_of m))) result }
{
    let types = &scene.types;
    let t = local.type_number;
    let to = types.value(t);
    owed(!is_struct_expression(types, &e), Rule::StructValue, e.at)?;
    owed(!types.is_struct(t), Rule::StructValue, e.at)?;
    owed(
        types.is_scalar(t) && converts_to(types, to, &e),
        Rule::NeedsCast,
        e.at,
    )?;
    let source = source_of(alloc, types, to, e)?;
    Ok(Made::Deed(Deed::Assign(Expr::LocalAddr(local.number), to, source)))
}

/// The initializer of a local, where it has one.
#[tactic(auto, using(clight_specifiers::proofs::Faults::stopped, clight_specifiers::proofs::Faults::gone_on))]
fn local_initialized(
    alloc: Global,
    scene: &mut Scene,
    local: Local,
    initializer: &Option<Initializer>,
) -> Result<Option<Made>, Refusal>
    ensures { Judges (local_initialized (scene_of scene.old) local.type_number local.number (initializer_of initializer.now)) (λ m. (scene_of scene.new, maybe_made m)) result }
{
    match initializer {
        None => Ok(None),
        Some(Initializer::Value(expr)) => {
            let e = typed(alloc, scene, Allowed::Call, false, expr)?;
            Ok(Some(local_value_judged(alloc, scene, local, e)?))
        }
        Some(Initializer::List { at, values }) => {
            let _values = typed_all(alloc, scene, values)?;
            Err(refused(Rule::Initializer, *at))
        }
    }
}

/// A local by the parts of its declarator.
fn local_built(
    alloc: Global,
    scene: &mut Scene,
    first_at: u32,
    base: usize,
    at: u32,
    name: Name,
    parts: Vec<Part>,
) -> Result<Local, Refusal>
    ensures { Judges (local_built (scene_of scene.old) first_at at name (built_type (types_of scene.old.types) base (parts_of parts.items))) (λ l. (scene_of scene.new, local_of l)) result }
{
    let built = built_type_in(alloc, scene, base, parts)?;
    let type_number = local_type(&scene.types, built);
    let number = local_judged(alloc, scene, first_at, at, name, built)?;
    Ok(Local {
        type_number,
        number,
    })
}

/// A local and its initializer.
fn local_declared(
    alloc: Global,
    scene: &mut Scene,
    first_at: u32,
    base: usize,
    item: &InitDeclarator,
) -> Result<Option<Made>, Refusal>
    ensures { Judges (local_declared (scene_of scene.old) first_at base (declarator_of item.now.declarator) (initializer_of item.now.initializer)) (λ m. (scene_of scene.new, maybe_made m)) result }
{
    let parts = declared(alloc, scene, false, &item.declarator)?;
    let name = name_or_empty(alloc, declared_name(&item.declarator))?;
    let at = declared_at(&item.declarator, first_at);
    let local = local_built(alloc, scene, first_at, base, at, name, parts)?;
    local_initialized(alloc, scene, local, &item.initializer)
}

/// Locals of one declaration, and what their initializers do.
fn locals_declared(
    alloc: Global,
    scene: &mut Scene,
    at: u32,
    base: usize,
    list: &[InitDeclarator],
) -> Result<Vec<Made>, Refusal>
    ensures { Judges (locals_declared (scene_of scene.old) at base (init_declarators_of list.now)) (λ ms. (scene_of scene.new, made_list ms.items)) result }
{
    let mut made = Vec::new(alloc);
    for item in list {
        let initialized = local_declared(alloc, scene, at, base, item)?;
        add(&mut made, initialized)?;
    }
    Ok(made)
}

/// A declaration in a block: what its initializers do.
#[tactic(auto, using(clight_specifiers::proofs::Faults::stopped, clight_specifiers::proofs::Faults::gone_on))]
pub fn decl_judged(alloc: Global, scene: &mut Scene, decl: &Decl) -> Result<Vec<Made>, Refusal>
    ensures { Judges (decl_judged (scene_of scene.old) (decl_of decl.now)) (λ ms. (scene_of scene.new, made_list ms.items)) result }
{
    let base = specified(alloc, scene, &decl.specifiers)?;
    locals_declared(alloc, scene, decl.at, base_of(base), &decl.declarators)
}
