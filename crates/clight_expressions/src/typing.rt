//! Expressions, and the types, specifiers and declarators that stand in them.

ghost use Rattle.std.specs.Prelude.{◌≡◌, ◌&&◌, None, map};
ghost use Rattle.c_tree.specs.Shape.{expr_of, exprs_of, maybe_of, type_of, specifier_of, specifiers_of, members_of, declarators_of, enumerators_of, declarator_of, direct_of, parameters_of};
ghost use Rattle.clight_types.specs.Judged.{Judges};
ghost use Rattle.clight_types.specs.Types.{nothing_laid};
ghost use Rattle.clight_types.specs.BuiltOf.{length_of as written, parameter_of, part_of};
ghost use Rattle.clight_types.specs.LaidOf.{laid_of};
ghost use Rattle.clight_scopes.specs.SceneOf.{scene_of};
ghost use Rattle.clight_operands.specs.Shown.{typed_of, all_typed, allowed_of};
ghost use Rattle.clight_typing.specs.Typing.{typed, typed_all, typed_length, typed_value, typed_name, specifier_judged, specified, members_judged, member_declarators, enumerators_judged, declared, is_name, parameters_judged};
ghost use Rattle.clight_specifiers.specs.TypingOf.{value_of, parts_of};
ghost use Rattle.clight_expressions.specs.SuffixOf.{suffix_judged, suffixes_judged};

use c_tree::{
    Declarator, Direct, Enumerator, Expr, Member, Parameter, Specifier, Suffix, TypeName,
};
use clight_calls::atomics::call_typed;
use clight_calls::members::member_typed;
use clight_calls::names::name_typed;
use clight_operands::assignments::{allowed_right, assigned, choice_typed, step_typed};
use clight_operands::operands::{
    binary_typed, cast_typed, index_typed, number_typed, sizeof_typed,
};
use clight_operands::prefixed::{denoted_size, has_size};
use clight_operands::{Allowed, Typed};
use clight_scopes::Scene;
use clight_specifiers::addresses::unary_judged;
use clight_specifiers::built::{
    INT_TYPE, base_of, member_built, name_or_empty, parameter_built, push, type_name_built,
    with_pointers,
};
use clight_specifiers::enumerators::{EnumValue, enumerator_judged, length_of};
use clight_specifiers::named::{declared_at, declared_name, is_name_alone};
use clight_specifiers::tags::{
    body_begun, body_ended, enum_begun, enum_referred, referred, typedef_judged,
};
use clight_specifiers::words::{is_floating, words_type};
use clight_types::declarators::{Length, Parameter as Taken, Part};
use clight_types::layout::nothing_laid;
use clight_types::{Laid, Refusal, Rule, owed};
use std::alloc::Global;

/// An expression, at a place where these effects may stand, as the callee of a call or not.
#[cycle(typing)]
pub fn typed(
    alloc: Global,
    scene: &mut Scene,
    allowed: Allowed,
    is_called: bool,
    expr: &Expr,
) -> Result<Typed, Refusal>
    ensures { Judges (typed (allowed_of allowed) is_called (scene_of scene.old) (expr_of expr.now)) (λ r. (scene_of scene.new, typed_of r)) result }
{
    match expr {
        Expr::Name { at, name } => name_typed(scene, is_called, *at, name),
        Expr::Constant { at, number } => number_typed(*at, *number),
        Expr::Index {
            at,
            op_at,
            array,
            index,
        } => {
            let a = typed(alloc, scene, Allowed::NoEffect, false, array)?;
            let b = typed(alloc, scene, Allowed::NoEffect, false, index)?;
            index_typed(alloc, &scene.types, *at, *op_at, a, b)
        }
        Expr::Call {
            at,
            op_at,
            callee,
            arguments,
        } => {
            let f = typed(alloc, scene, Allowed::NoEffect, true, callee)?;
            let args = typed_all(alloc, scene, arguments)?;
            call_typed(alloc, &scene.types, allowed, *at, *op_at, f, args)
        }
        Expr::Member {
            at,
            object,
            access,
            name_at,
            name,
            ..
        } => {
            let a = typed(alloc, scene, Allowed::NoEffect, false, object)?;
            member_typed(alloc, &scene.types, *at, *access, *name_at, name, a)
        }
        Expr::StepAfter {
            at,
            op_at,
            operand,
            step,
        } => {
            let a = typed(alloc, scene, Allowed::NoEffect, false, operand)?;
            step_typed(alloc, &scene.types, allowed, *at, *op_at, *step, a)
        }
        Expr::StepBefore { at, step, operand } => {
            let a = typed(alloc, scene, Allowed::NoEffect, false, operand)?;
            step_typed(alloc, &scene.types, allowed, *at, *at, *step, a)
        }
        Expr::Unary {
            at,
            operator,
            operand,
        } => {
            let a = typed(alloc, scene, Allowed::NoEffect, false, operand)?;
            unary_judged(alloc, scene, *at, *operator, a)
        }
        Expr::SizeofExpr { at, operand } => {
            let a = typed(alloc, scene, Allowed::NoEffect, false, operand)?;
            let is_sized = has_size(&scene.types, a.denoted);
            sizeof_typed(*at, is_sized, denoted_size(&scene.types, a.denoted))
        }
        Expr::SizeofType { at, type_name } => {
            let t = typed_name(alloc, scene, type_name)?;
            let is_sized = scene.types.is_complete(t);
            sizeof_typed(*at, is_sized, scene.types.size(t))
        }
        Expr::Cast {
            at,
            type_name,
            operand,
        } => {
            let t = typed_name(alloc, scene, type_name)?;
            let a = typed(alloc, scene, Allowed::NoEffect, false, operand)?;
            cast_typed(alloc, &scene.types, *at, t, a)
        }
        Expr::Binary {
            at,
            op_at,
            operator,
            left,
            right,
        } => {
            let a = typed(alloc, scene, Allowed::NoEffect, false, left)?;
            let b = typed(alloc, scene, Allowed::NoEffect, false, right)?;
            binary_typed(alloc, &scene.types, *at, *op_at, *operator, a, b)
        }
        Expr::Cond {
            at,
            op_at,
            condition,
            if_true,
            if_false,
        } => {
            let c = typed(alloc, scene, Allowed::NoEffect, false, condition)?;
            let a = typed(alloc, scene, Allowed::NoEffect, false, if_true)?;
            let b = typed(alloc, scene, Allowed::NoEffect, false, if_false)?;
            choice_typed(alloc, &scene.types, *at, *op_at, c, a, b)
        }
        Expr::Assign {
            at,
            op_at,
            operator,
            target,
            value,
        } => {
            let a = typed(alloc, scene, Allowed::NoEffect, false, target)?;
            let b = typed(alloc, scene, allowed_right(*operator), false, value)?;
            assigned(alloc, &scene.types, allowed, *at, *op_at, *operator, a, b)
        }
    }
}

/// Expressions in order, as the arguments of a call.
#[cycle(typing)]
pub fn typed_all(alloc: Global, scene: &mut Scene, list: &[Expr]) -> Result<Vec<Typed>, Refusal>
    ensures { Judges (typed_all (scene_of scene.old) (exprs_of list.now)) (λ r. (scene_of scene.new, all_typed r.items)) result }
{
    let mut made = Vec::new(alloc);
    for expr in list {
        let e = typed(alloc, scene, Allowed::NoEffect, false, expr)?;
        push(&mut made, e)?;
    }
    Ok(made)
}

/// The length of an array, where it is stated.
#[cycle(typing)]
fn typed_length(
    alloc: Global,
    scene: &mut Scene,
    length: &Option<Box<Expr>>,
) -> Result<Length, Refusal>
    ensures { Judges (typed_length (scene_of scene.old) (maybe_of length.now)) (λ r. (scene_of scene.new, written r)) result }
{
    match length {
        Some(expr) => {
            let e = typed(alloc, scene, Allowed::NoEffect, false, expr)?;
            Ok(length_of(e.constant))
        }
        None => Ok(Length::Missing),
    }
}

/// The value of an enumerator, where it is stated.
#[cycle(typing)]
fn typed_value(
    alloc: Global,
    scene: &mut Scene,
    value: &Option<Box<Expr>>,
) -> Result<EnumValue, Refusal>
    ensures { Judges (typed_value (scene_of scene.old) (maybe_of value.now)) (λ r. (scene_of scene.new, value_of r)) result }
{
    match value {
        Some(expr) => {
            let e = typed(alloc, scene, Allowed::NoEffect, false, expr)?;
            Ok(EnumValue::Stated(e.constant))
        }
        None => Ok(EnumValue::Next),
    }
}

/// A type name.
#[cycle(typing)]
pub fn typed_name(alloc: Global, scene: &mut Scene, type_name: &TypeName) -> Result<usize, Refusal>
    ensures { Judges (typed_name (scene_of scene.old) (type_of type_name.now)) (λ t. (scene_of scene.new, t)) result }
{
    let base = specified(alloc, scene, &type_name.specifiers)?;
    let parts = declared(alloc, scene, false, &type_name.declarator)?;
    let at = declared_at(&type_name.declarator, type_name.at);
    type_name_built(alloc, scene, base_of(base), at, parts)
}

/// A specifier: the type that it gives, where it gives any.
#[cycle(typing)]
fn specifier_judged(
    alloc: Global,
    scene: &mut Scene,
    specifier: &Specifier,
) -> Result<Option<usize>, Refusal>
    ensures { Judges (specifier_judged (scene_of scene.old) (specifier_of specifier.now)) (λ t. (scene_of scene.new, t)) result }
{
    match specifier {
        Specifier::Storage { at, .. } => {
            owed(!scene.in_body, Rule::InBlock, *at)?;
            Ok(None)
        }
        Specifier::Qualifier { .. } => Ok(None),
        Specifier::Inline { .. } => Ok(None),
        Specifier::Words { at, words } => {
            let words = words.as_slice();
            owed(!is_floating(words), Rule::Floating, *at)?;
            Ok(Some(words_type(words)))
        }
        Specifier::Typedef { at, name } => Ok(Some(typedef_judged(scene, *at, name)?)),
        Specifier::CompositeReference { at, word, tag } => {
            Ok(Some(referred(scene, *word, *at, tag.at, &tag.name)?))
        }
        Specifier::Composite {
            at,
            word,
            tag,
            body_at,
            members,
        } => {
            let n = body_begun(scene, *word, *at, tag, *body_at)?;
            let laid = members_judged(alloc, scene, members)?;
            Ok(Some(body_ended(scene, n, laid)?))
        }
        Specifier::EnumReference { tag, .. } => {
            Ok(Some(enum_referred(scene, tag.at, &tag.name)?))
        }
        Specifier::Enumeration {
            tag,
            body_at,
            enumerators,
            ..
        } => {
            enum_begun(scene, tag, *body_at)?;
            enumerators_judged(alloc, scene, enumerators)?;
            Ok(Some(INT_TYPE))
        }
    }
}

/// Specifiers: the type that the last one gives that gives any.
#[cycle(typing)]
pub fn specified(
    alloc: Global,
    scene: &mut Scene,
    list: &[Specifier],
) -> Result<Option<usize>, Refusal>
    ensures { Judges (specified (scene_of scene.old) None (specifiers_of list.now)) (λ t. (scene_of scene.new, t)) result }
{
    let mut base = None;
    for specifier in list {
        let given = specifier_judged(alloc, scene, specifier)?;
        base = given.or(base);
    }
    Ok(base)
}

/// The members of a struct.
#[cycle(typing)]
fn members_judged(alloc: Global, scene: &mut Scene, list: &[Member]) -> Result<Laid, Refusal>
    ensures { Judges (members_judged (scene_of scene.old) nothing_laid (members_of list.now)) (λ l. (scene_of scene.new, laid_of l)) result }
{
    let mut laid = nothing_laid(alloc);
    for member in list {
        let base = specified(alloc, scene, &member.specifiers)?;
        laid = member_declarators(alloc, scene, base_of(base), laid, &member.declarators)?;
    }
    Ok(laid)
}

#[cycle(typing)]
fn member_declarators(
    alloc: Global,
    scene: &mut Scene,
    base: usize,
    laid: Laid,
    list: &[Declarator],
) -> Result<Laid, Refusal>
    ensures { Judges (member_declarators (scene_of scene.old) base (laid_of laid) (declarators_of list.now)) (λ l. (scene_of scene.new, laid_of l)) result }
{
    let mut laid = laid;
    for declarator in list {
        let parts = declared(alloc, scene, false, declarator)?;
        let name = name_or_empty(alloc, declared_name(declarator))?;
        let at = declared_at(declarator, 0);
        laid = member_built(alloc, scene, base, laid, at, name, parts)?;
    }
    Ok(laid)
}

/// The enumerators of an enum, the first of value 0 where none is stated.
#[cycle(typing)]
fn enumerators_judged(alloc: Global, scene: &mut Scene, list: &[Enumerator]) -> Result<(), Refusal>
    ensures { Judges (enumerators_judged (scene_of scene.old) 0 (enumerators_of list.now)) (λ u. scene_of scene.new) result }
{
    let mut next = 0;
    for enumerator in list {
        let value = typed_value(alloc, scene, &enumerator.value)?;
        next = enumerator_judged(scene, enumerator.at, &enumerator.name, next, value)?;
    }
    Ok(())
}

/// The parts of a declarator, the innermost first.
#[cycle(typing)]
pub fn declared(
    alloc: Global,
    scene: &mut Scene,
    is_own: bool,
    declarator: &Declarator,
) -> Result<Vec<Part>, Refusal>
    ensures { Judges (declared (scene_of scene.old) is_own (declarator_of declarator.now)) (λ ps. (scene_of scene.new, parts_of ps.items)) result }
{
    let inside = direct_declared(alloc, scene, is_own, &declarator.direct)?;
    let is_own = keeps_own(is_own, &declarator.direct);
    let parts = suffixes_declared(alloc, scene, is_own, inside, &declarator.suffixes)?;
    Ok(with_pointers(parts, declarator.pointers.len())?)
}

/// Whether the first parameters behind the inside of a declarator are those of the function that is
/// defined: where that inside is its name alone.
fn keeps_own(is_own: bool, direct: &Direct) -> bool
    ensures { result ≡ (is_own && is_name (direct_of direct.now)) }
{
    is_own && is_name_alone(direct)
}

/// The brackets and parameters behind the inside of a declarator; the first may be the parameters
/// of the function that is defined.
#[cycle(typing)]
fn suffixes_declared(
    alloc: Global,
    scene: &mut Scene,
    is_own: bool,
    inside: Vec<Part>,
    suffixes: &[Suffix],
) -> Result<Vec<Part>, Refusal>
    ensures { Judges (suffixes_judged (scene_of scene.old) is_own (parts_of inside.items) suffixes.now) (λ ps. (scene_of scene.new, parts_of ps.items)) result }
{
    let mut parts = inside;
    let mut is_own = is_own;
    for suffix in suffixes {
        let part = suffix_declared(alloc, scene, is_own, suffix)?;
        push(&mut parts, part)?;
        is_own = false;
    }
    Ok(parts)
}

#[cycle(typing)]
fn direct_declared(
    alloc: Global,
    scene: &mut Scene,
    is_own: bool,
    direct: &Direct,
) -> Result<Vec<Part>, Refusal>
    ensures { Judges (declared (scene_of scene.old) is_own (direct_of direct.now)) (λ ps. (scene_of scene.new, parts_of ps.items)) result }
{
    match direct {
        Direct::Unnamed => Ok(Vec::new(alloc)),
        Direct::Named { .. } => Ok(Vec::new(alloc)),
        Direct::Nested(inner) => declared(alloc, scene, is_own, inner),
    }
}

#[cycle(typing)]
fn suffix_declared(
    alloc: Global,
    scene: &mut Scene,
    is_own: bool,
    suffix: &Suffix,
) -> Result<Part, Refusal>
    ensures { Judges (suffix_judged (scene_of scene.old) is_own suffix.now) (λ p. (scene_of scene.new, part_of p)) result }
{
    match suffix {
        Suffix::Array(length) => Ok(Part::Array(typed_length(alloc, scene, length)?)),
        Suffix::Function(parameters) => {
            scene.open(alloc)?;
            let list = parameters_judged(alloc, scene, is_own, parameters)?;
            scene.close();
            Ok(Part::Function(list))
        }
    }
}

/// The parameters of a function.
#[cycle(typing)]
fn parameters_judged(
    alloc: Global,
    scene: &mut Scene,
    is_own: bool,
    list: &[Parameter],
) -> Result<Vec<Taken>, Refusal>
    ensures { Judges (parameters_judged is_own (scene_of scene.old) (parameters_of list.now)) (λ ps. (scene_of scene.new, map parameter_of ps.items)) result }
{
    let mut made = Vec::new(alloc);
    for parameter in list {
        let base = specified(alloc, scene, &parameter.specifiers)?;
        let parts = declared(alloc, scene, false, &parameter.declarator)?;
        let first_at = parameter.at;
        let at = declared_at(&parameter.declarator, first_at);
        let name = declared_name(&parameter.declarator);
        let base = base_of(base);
        let taken = parameter_built(alloc, scene, is_own, base, first_at, at, name, parts)?;
        push(&mut made, taken)?;
    }
    Ok(made)
}
