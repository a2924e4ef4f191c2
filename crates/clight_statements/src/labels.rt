//! The labels of a `switch`.

ghost use Rattle.std.specs.Prelude.{◌≡◌, ◌++◌, [], ◌∷◌, true, IfOk, OnOk};
ghost use Rattle.clight_types.specs.declared.kind.Constant.TheVariants.{Known};
ghost use Rattle.c_tree.specs.FileShape.{label_of, labels_of as label_trees};
ghost use Rattle.clight_types.specs.Judged.{Judges};
ghost use Rattle.clight_scopes.specs.SceneOf.{scene_of};
ghost use Rattle.clight_typing.specs.Statements.{is_new, label_judged, labels_judged, no_labels};
ghost use Rattle.clight_statements.specs.StatementsOf.{labels_of, group_begun, number_judged};

use c_tree::Label;
use clight_expressions::typing::typed;
use clight_operands::Allowed;
use clight_operands::operands::refused;
use clight_scopes::Scene;
use clight_specifiers::built::push;
use clight_types::{Constant, Refusal, Rule, owed};
use indexmap::IndexSet;
use std::alloc::{AllocError, Global};
use tso_words::NoMemory;

/// The labels of a `switch` so far: the numbers of all groups, and whether there was a `default`.
#[derive(Drop)]
pub struct Seen {
    pub numbers: IndexSet<u32>,
    pub has_default: bool,
}

/// The labels of one group: its numbers, and whether `default` is among them.
#[derive(Drop)]
pub struct GroupLabels {
    pub numbers: Vec<u32>,
    pub is_default: bool,
}

/// A `switch` before its first label.
pub fn nothing_seen(alloc: Global) -> Seen
    ensures { group_begun result ≡ no_labels }
{
    Seen {
        numbers: IndexSet::new(alloc),
        has_default: false,
    }
}

/// Notes a number, and says whether it is new.
#[tactic(auto, using(crate::proofs::Noted::new_number, crate::proofs::Noted::number_noted))]
fn note(numbers: &mut IndexSet<u32>, number: u32) -> Result<bool, NoMemory>
    ensures new { IfOk result (λ added. added ≡ is_new numbers.old.keys (Known number)) }
    ensures noted { OnOk result (is_new numbers.old.keys (Known number) ≡ true → numbers.new.keys ≡ numbers.old.keys ++ number ∷ []) }
{
    let added = numbers.insert(number).map_err(AllocError::from)?;
    Ok(added)
}

/// The number of a `case`, which no other label of the `switch` has.
fn number_judged(
    seen: &mut Seen,
    group: &mut GroupLabels,
    at: u32,
    constant: Constant,
) -> Result<(), Refusal>
    ensures { Judges (number_judged (labels_of seen.old group.old) at constant) (λ u. labels_of seen.new group.new) result }
{
    match constant {
        Constant::Known(number) => {
            let is_new = note(&mut seen.numbers, number)?;
            owed(is_new, Rule::Label, at)?;
            push(&mut group.numbers, number)?;
            Ok(())
        }
        Constant::No | Constant::WithoutValue => Err(refused(Rule::Label, at)),
    }
}

/// A label.
fn label_judged(
    alloc: Global,
    scene: &mut Scene,
    seen: &mut Seen,
    group: &mut GroupLabels,
    label: &Label,
) -> Result<(), Refusal>
    ensures { Judges (label_judged (scene_of scene.old) (labels_of seen.old group.old) (label_of label.now)) (λ u. (scene_of scene.new, labels_of seen.new group.new)) result }
{
    match label {
        Label::Case { at, value } => {
            let e = typed(alloc, scene, Allowed::NoEffect, false, value)?;
            number_judged(seen, group, *at, e.constant)?;
            Ok(())
        }
        Label::Default { at } => {
            owed(!seen.has_default, Rule::Label, *at)?;
            seen.has_default = true;
            group.is_default = true;
            Ok(())
        }
    }
}

/// The labels of a group.
pub fn labels_judged(
    alloc: Global,
    scene: &mut Scene,
    seen: &mut Seen,
    list: &[Label],
) -> Result<GroupLabels, Refusal>
    ensures { Judges (labels_judged (scene_of scene.old) (group_begun seen.old) (label_trees list.now)) (λ g. (scene_of scene.new, labels_of seen.new g)) result }
{
    let mut group = GroupLabels {
        numbers: Vec::new(alloc),
        is_default: false,
    };
    for label in list {
        label_judged(alloc, scene, seen, &mut group, label)?;
    }
    Ok(group)
}
