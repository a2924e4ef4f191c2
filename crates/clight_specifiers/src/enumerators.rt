//! Constants in types: lengths of arrays and values of enumerators.

ghost use Rattle.std.specs.Prelude.{◌≡◌, Some};
ghost use Rattle.clight_types.specs.Judged.{Judges};
ghost use Rattle.clight_types.specs.BuiltOf.{length_of as written};
ghost use Rattle.clight_scopes.specs.SceneOf.{scene_of, entity_of};
ghost use Rattle.clight_typing.specs.Typing.{length_of, has_value, enum_word, enumerator_with, enumerator_clash, enumerator_judged};
ghost use Rattle.clight_specifiers.specs.TypingOf.{clash_of, value_of};

use clight_calls::builtins::is_builtin_name;
use clight_calls::names::copied;
use clight_scopes::{Entity, Scene};
use clight_types::declarators::{Length, TYPE_LIMIT};
use clight_types::{Constant, Refusal, Rule, owed};
use tso_words::Name;

/// How a declaration clashes with what the name stands for: it is defined twice, or declared with
/// another type or as another thing.
#[derive(Clone, Copy, PartialEq, Eq, Debug)]
pub struct Clash {
    pub is_twice: bool,
    pub differs: bool,
}

/// An enumerator's value: the next one, or the one that is stated.
#[derive(Clone, Copy, PartialEq, Eq, Debug)]
pub enum EnumValue {
    Next,
    Stated(Constant),
}

/// The length that a constant is: from 1 to the limit.
pub fn length_of(constant: Constant) -> Length
    ensures { written result ≡ length_of constant }
{
    match constant {
        Constant::Known(n) => {
            if 1 <= n && n <= TYPE_LIMIT {
                Length::Elements(n)
            } else {
                Length::Bad
            }
        }
        Constant::No | Constant::WithoutValue => Length::Bad,
    }
}

fn has_value(value: EnumValue) -> bool
    ensures { result ≡ has_value (value_of value) }
{
    !matches!(
        value,
        EnumValue::Stated(Constant::No | Constant::WithoutValue)
    )
}

fn enum_word(next: u32, value: EnumValue) -> u32
    ensures { result ≡ enum_word next (value_of value) }
{
    match value {
        EnumValue::Stated(Constant::Known(word)) => word,
        EnumValue::Stated(Constant::No | Constant::WithoutValue) | EnumValue::Next => next,
    }
}

fn entity_clash(entity: &Entity) -> Clash
    ensures { clash_of result ≡ enumerator_with (Some (entity_of entity.now)) }
{
    match entity {
        Entity::Object { is_defined, .. } | Entity::Function { is_defined, .. } => Clash {
            is_twice: *is_defined,
            differs: !*is_defined,
        },
        Entity::Enumerator(_) | Entity::Typedef(_) | Entity::Builtin { .. } => Clash {
            is_twice: true,
            differs: false,
        },
    }
}

fn enumerator_clash(scene: &Scene, name: &Name) -> Clash
    ensures { clash_of result ≡ enumerator_clash (scene_of scene.now) name.now }
{
    if is_builtin_name(name) {
        return Clash {
            is_twice: true,
            differs: false,
        };
    }
    match scene.find_file(name) {
        Some(known) => entity_clash(&known.entity),
        None => Clash {
            is_twice: false,
            differs: false,
        },
    }
}

/// An enumerator: the value of the next one.
#[tactic(auto, using(crate::proofs::Faults::no_clash_new))]
pub fn enumerator_judged(
    scene: &mut Scene,
    at: u32,
    name: &Name,
    next: u32,
    value: EnumValue,
) -> Result<u32, Refusal>
    ensures { Judges (enumerator_judged (scene_of scene.old) at name.now next (value_of value)) (λ r. (scene_of scene.new, r)) result }
{
    let clash = enumerator_clash(scene, name);
    owed(!clash.is_twice, Rule::DefinedTwice, at)?;
    owed(!clash.differs, Rule::TypesDiffer, at)?;
    owed(has_value(value), Rule::Enumerator, at)?;
    let word = enum_word(next, value);
    scene.put_file_name(copied(name)?, at, Entity::Enumerator(word))?;
    Ok(word.wrapping_add(1))
}
