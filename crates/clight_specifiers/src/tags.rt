//! Tags and the types that they stand for.

ghost use Rattle.std.specs.Prelude.{◌≡◌, IfOk, None};
ghost use Rattle.c_tree.specs.Shape.{composite_of, tag_of};
ghost use Rattle.clight_types.specs.Judged.{Judges};
ghost use Rattle.clight_types.specs.LaidOf.{laid_of};
ghost use Rattle.clight_scopes.specs.Scopes.{find_tag};
ghost use Rattle.clight_scopes.specs.SceneOf.{scene_of};
ghost use Rattle.clight_typing.specs.Typing.{tag_kind, struct_type, new_struct, new_tagged, referred_by, referred, begun_by, begun_struct, body_begun, body_ended, enum_referred, enum_begun, entity_of, typedef_of, typedef_judged};

use crate::built::INT_TYPE;
use c_tree::{CompositeWord, Tag};
use clight_calls::names::copied;
use clight_operands::operands::refused;
use clight_scopes::{Entity, Scene, TagKind};
use clight_types::{Laid, Refusal, Rule, Shape, owed};
use tso_words::{Name, NoMemory};

/// The number of the type of a struct.
fn struct_type(scene: &mut Scene, n: usize) -> Result<usize, NoMemory>
    ensures { IfOk result (λ t. struct_type (scene_of scene.old) n ≡ (scene_of scene.new, t)) }
{
    scene.types.number_for(Shape::Struct(n))
}

fn new_struct(scene: &mut Scene) -> Result<usize, NoMemory>
    ensures { IfOk result (λ n. new_struct (scene_of scene.old) ≡ (scene_of scene.new, n)) }
{
    scene.types.new_struct()
}

fn new_tagged(scene: &mut Scene, name: &Name, is_begun: bool) -> Result<usize, NoMemory>
    requires { find_tag name.now (scene_of scene.old).tags ≡ None }
    ensures { IfOk result (λ n. new_tagged (scene_of scene.old) name.now is_begun ≡ (scene_of scene.new, n)) }
{
    let n = new_struct(scene)?;
    scene.put_tag(copied(name)?, TagKind::Struct(n, is_begun))?;
    Ok(n)
}

/// `struct NAME` declares its tag where it is not declared yet.
fn referred_by(scene: &mut Scene, at: u32, name: &Name) -> Result<usize, Refusal>
    ensures { Judges (referred_by (scene_of scene.old) at name.now (tag_kind (scene_of scene.old) name.now)) (λ t. (scene_of scene.new, t)) result }
{
    match scene.find_tag(name) {
        None => {
            let n = new_tagged(scene, name, false)?;
            Ok(struct_type(scene, n)?)
        }
        Some(TagKind::Struct(n, _)) => Ok(struct_type(scene, n)?),
        Some(TagKind::Enum) => Err(refused(Rule::TagTwice, at)),
    }
}

/// A struct or union without its body.
pub fn referred(
    scene: &mut Scene,
    word: CompositeWord,
    at: u32,
    tag_at: u32,
    name: &Name,
) -> Result<usize, Refusal>
    ensures { Judges (referred (scene_of scene.old) (composite_of word) at tag_at name.now) (λ t. (scene_of scene.new, t)) result }
{
    match word {
        CompositeWord::Struct => referred_by(scene, tag_at, name),
        CompositeWord::Union => Err(refused(Rule::Union, at)),
    }
}

fn begun_by(scene: &mut Scene, at: u32, name: &Name) -> Result<usize, Refusal>
    ensures { Judges (begun_by (scene_of scene.old) at name.now (tag_kind (scene_of scene.old) name.now)) (λ n. (scene_of scene.new, n)) result }
{
    match scene.find_tag(name) {
        None => Ok(new_tagged(scene, name, true)?),
        Some(TagKind::Struct(n, false)) => {
            scene.replace_tag(name, TagKind::Struct(n, true));
            Ok(n)
        }
        Some(TagKind::Struct(_, true) | TagKind::Enum) => Err(refused(Rule::TagTwice, at)),
    }
}

fn begun_struct(scene: &mut Scene, tag: &Option<Tag>) -> Result<usize, Refusal>
    ensures { Judges (begun_struct (scene_of scene.old) (tag_of tag.now)) (λ n. (scene_of scene.new, n)) result }
{
    match tag {
        Some(tag) => begun_by(scene, tag.at, &tag.name),
        None => Ok(new_struct(scene)?),
    }
}

/// The struct whose body begins, which may stand in no block.
#[tactic(auto, using(crate::proofs::Faults::stopped))]
pub fn body_begun(
    scene: &mut Scene,
    word: CompositeWord,
    at: u32,
    tag: &Option<Tag>,
    body_at: u32,
) -> Result<usize, Refusal>
    ensures { Judges (body_begun (scene_of scene.old) (composite_of word) at (tag_of tag.now) body_at) (λ n. (scene_of scene.new, n)) result }
{
    let in_body = scene.in_body;
    match word {
        CompositeWord::Struct => {
            let n = begun_struct(scene, tag)?;
            owed(!in_body, Rule::InBlock, body_at)?;
            Ok(n)
        }
        CompositeWord::Union => Err(refused(Rule::Union, at)),
    }
}

/// The type of a struct whose body has ended.
pub fn body_ended(scene: &mut Scene, n: usize, laid: Laid) -> Result<usize, Refusal>
    ensures { Judges (body_ended (scene_of scene.old) n (laid_of laid)) (λ t. (scene_of scene.new, t)) result }
{
    scene.types.close_struct(n, laid);
    Ok(struct_type(scene, n)?)
}

/// `enum NAME`: every enum is an `int`.
pub fn enum_referred(scene: &Scene, at: u32, name: &Name) -> Result<usize, Refusal>
    ensures { Judges (enum_referred (scene_of scene.now) at (tag_kind (scene_of scene.now) name.now)) (λ t. (scene_of scene.now, t)) result }
{
    match scene.find_tag(name) {
        Some(TagKind::Enum) => Ok(INT_TYPE),
        Some(TagKind::Struct(..)) => Err(refused(Rule::TagTwice, at)),
        None => Err(refused(Rule::Undeclared, at)),
    }
}

/// The body of an enum begins, which may stand in no block.
pub fn enum_begun(scene: &mut Scene, tag: &Option<Tag>, body_at: u32) -> Result<(), Refusal>
    ensures { Judges (enum_begun (scene_of scene.old) (tag_of tag.now) body_at) (λ u. scene_of scene.new) result }
{
    let in_body = scene.in_body;
    match tag {
        Some(tag) => {
            let is_known = scene.find_tag(&tag.name).is_some();
            owed(!is_known, Rule::TagTwice, tag.at)?;
            owed(!in_body, Rule::InBlock, body_at)?;
            scene.put_tag(copied(&tag.name)?, TagKind::Enum)?;
            Ok(())
        }
        None => {
            owed(!in_body, Rule::InBlock, body_at)?;
            Ok(())
        }
    }
}

/// The type that a typedef's name stands for.
pub fn typedef_judged(scene: &Scene, at: u32, name: &Name) -> Result<usize, Refusal>
    ensures { Judges (typedef_judged (scene_of scene.now) at (typedef_of (entity_of (scene_of scene.now) name.now))) (λ t. (scene_of scene.now, t)) result }
{
    match scene.find_file(name) {
        Some(known) => match &known.entity {
            Entity::Typedef(t) => Ok(*t),
            Entity::Object { .. }
            | Entity::Function { .. }
            | Entity::Enumerator(_)
            | Entity::Builtin { .. } => Err(refused(Rule::Undeclared, at)),
        },
        None => Err(refused(Rule::Undeclared, at)),
    }
}
