//! Initializers in braces (ISO C99 6.7.8): each item has its place in the object, and the bytes
//! between the items are zero.

ghost use Rattle.std.specs.Prelude.{◌≡◌, ◌-◌, ◌++◌, ◌||◌, not, length, replicate, OnOk};
ghost use Rattle.c_tree.specs.Shape.{expr_of, exprs_of};
ghost use Rattle.clight_types.specs.Judged.{Judges};
ghost use Rattle.clight_types.specs.Table.{types_of};
ghost use Rattle.clight_scopes.specs.SceneOf.{scene_of};
ghost use Rattle.clight_operands.specs.Shown.{typed_of};
ghost use Rattle.clight_globals.specs.Globals.{filled_at, constant_bytes, is_known, item_judged, items_filled, list_judged};
ghost use Rattle.clight_globals.specs.GlobalsOf.{filled_of, nothing_filled, slot_in, item_filled};

use crate::bytes::{is_known, put_constant};
use crate::known::start;
use crate::slots::{Slot, slot_of, takes_list};
use c_tree::Expr;
use clight_expressions::typing::typed;
use clight_operands::operands::{converts_to, is_struct_expression};
use clight_operands::{Allowed, Typed};
use clight_scopes::Scene;
use clight_types::{Constant, Refusal, Rule, Types, owed};
use std::alloc::Global;
use tso_words::{Name, NoMemory};

/// The bytes that items give an object so far, and whether an item was of no use: too many, or not
/// constant.
#[derive(Drop)]
pub struct Filled {
    pub bytes: Vec<u8>,
    pub is_bad: bool,
}

fn nothing_filled(alloc: Global) -> Filled
    ensures { filled_of result ≡ nothing_filled }
{
    Filled {
        bytes: Vec::new(alloc),
        is_bad: false,
    }
}

/// Zeros up to an offset, where there are fewer bytes.
fn put_zeros(bytes: &mut Vec<u8>, offset: usize) -> Result<(), NoMemory>
    ensures { OnOk result (bytes.new.items ≡ bytes.old.items ++ replicate (offset - length bytes.old.items) 0) }
{
    if bytes.len() < offset {
        bytes.resize(offset, 0)?;
    }
    Ok(())
}

/// The bytes of one item more.
fn fill(filled: &mut Filled, slot: Slot, constant: Constant) -> Result<(), NoMemory>
    ensures bytes { OnOk result (filled.new.bytes.items ≡ filled_at filled.old.bytes.items slot.offset (constant_bytes slot.to constant)) }
    ensures is_bad { OnOk result (filled.new.is_bad ≡ (filled.old.is_bad || not (is_known constant))) }
{
    put_zeros(&mut filled.bytes, slot.offset)?;
    put_constant(&mut filled.bytes, slot.to, constant)?;
    filled.is_bad = filled.is_bad || !is_known(constant);
    Ok(())
}

/// An item at its place, where it has one.
fn item_judged(
    types: &Types,
    filled: &mut Filled,
    e: &Typed,
    slot: Option<Slot>,
) -> Result<(), Refusal>
    ensures { Judges (item_judged (types_of types.now) (filled_of filled.old) (typed_of e.now) (slot_in slot)) (λ u. filled_of filled.new) result }
{
    match slot {
        Some(slot) => {
            owed(!is_struct_expression(types, e), Rule::StructValue, e.at)?;
            owed(converts_to(types, slot.to, e), Rule::NeedsCast, e.at)?;
            Ok(fill(filled, slot, e.constant)?)
        }
        None => {
            filled.is_bad = true;
            Ok(())
        }
    }
}

/// The item of this number, in an object of a type.
fn item_filled(
    alloc: Global,
    scene: &mut Scene,
    t: usize,
    fits: bool,
    item: usize,
    filled: &mut Filled,
    expr: &Expr,
) -> Result<(), Refusal>
    ensures { Judges (item_filled (scene_of scene.old) t fits item (filled_of filled.old) (expr_of expr.now)) (λ u. (scene_of scene.new, filled_of filled.new)) result }
{
    let e = typed(alloc, scene, Allowed::NoEffect, false, expr)?;
    let slot = slot_of(&scene.types, t, fits, item);
    item_judged(&scene.types, filled, &e, slot)
}

/// The items of a list, from the first one on.
fn items_filled(
    alloc: Global,
    scene: &mut Scene,
    t: usize,
    fits: bool,
    list: &[Expr],
) -> Result<Filled, Refusal>
    ensures { Judges (items_filled (scene_of scene.old) t fits 0 nothing_filled (exprs_of list.now)) (λ f. (scene_of scene.new, filled_of f)) result }
{
    let mut filled = nothing_filled(alloc);
    for (item, expr) in list.iter().enumerate() {
        item_filled(alloc, scene, t, fits, item, &mut filled, expr)?;
    }
    Ok(filled)
}

/// A list that initializes an object of a type.
pub fn list_judged(
    alloc: Global,
    scene: &mut Scene,
    at: u32,
    name: &Name,
    t: usize,
    list: &[Expr],
) -> Result<(), Refusal>
    ensures { Judges (list_judged (scene_of scene.old) at name.now t (exprs_of list.now)) (λ u. scene_of scene.new) result }
{
    let fits = takes_list(&scene.types, t);
    let filled = items_filled(alloc, scene, t, fits, list)?;
    owed(!filled.is_bad, Rule::Initializer, at)?;
    start(scene, name, filled.bytes);
    Ok(())
}
