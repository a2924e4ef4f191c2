//! Where the items of a list in braces go.

ghost use Rattle.std.specs.Prelude.{◌≡◌, slice_get};
ghost use Rattle.std.specs.List.{list_all};
ghost use Rattle.clight_types.specs.Table.{body_of, types_of};
ghost use Rattle.clight_types.specs.Types.{shape_at, body_at, body_members, is_scalar};
ghost use Rattle.clight_globals.specs.Globals.{member_slot, element_slot, shape_slot, shape_takes_list, slot_of};
ghost use Rattle.clight_globals.specs.GlobalsOf.{slot_in};

use clight_types::{Body, Shape, Types, Value};

/// The place of an item in its object, in bytes from the object's begin, and the type of its value.
#[derive(Clone, Copy, PartialEq, Eq, Debug)]
pub struct Slot {
    pub offset: usize,
    pub to: Value,
}

/// An element of an array, by its number.
fn element_slot(types: &Types, element: usize, length: u32, item: usize) -> Option<Slot>
    ensures { slot_in result ≡ element_slot (types_of types.now) element length item }
{
    if item < length as usize {
        let offset = u64::from(item as u32) * u64::from(types.size(element));
        Some(Slot {
            offset: offset as usize,
            to: types.value(element),
        })
    } else {
        None
    }
}

/// A member of a struct, by its number.
#[tactic(auto, using(crate::proofs::Members::member_at))]
fn member_slot(types: &Types, n: usize, item: usize) -> Option<Slot>
    ensures { slot_in result ≡ member_slot (types_of types.now) (slice_get (body_members (body_at (types_of types.now) n)) item) }
{
    match types.structs.get(n) {
        Some(Body::Closed { members, .. }) => match members.get_index(item) {
            Some((_, member)) => Some(Slot {
                offset: member.offset as usize,
                to: types.value(member.type_number),
            }),
            None => None,
        },
        Some(Body::Open) | None => None,
    }
}

fn shape_slot(types: &Types, t: usize, item: usize) -> Option<Slot>
    ensures { slot_in result ≡ shape_slot (types_of types.now) (shape_at (types_of types.now) t) item }
{
    match types.shape(t) {
        Some(
            Shape::Array {
                element,
                length,
                ..
            },
        ) => element_slot(types, *element, *length, item),
        Some(Shape::Struct(n)) => member_slot(types, *n, item),
        Some(Shape::Void | Shape::Integer(_) | Shape::Pointer(_) | Shape::Function { .. }) | None =>
            None,
    }
}

/// The place of an item in an object of a type, where the type takes a list and has that many
/// parts.
pub fn slot_of(types: &Types, t: usize, fits: bool, item: usize) -> Option<Slot>
    ensures { slot_in result ≡ slot_of (types_of types.now) t fits item }
{
    if fits {
        shape_slot(types, t, item)
    } else {
        None
    }
}

/// Whether each member of a struct's body is a scalar.
fn are_scalars(types: &Types, body: &Body) -> bool
    ensures { result ≡ list_all (λ m. is_scalar (types_of types.now) m.type) (body_members (body_of body.now)) }
{
    match body {
        Body::Closed { members, .. } => {
            for member in members.values() {
                if !types.is_scalar(member.type_number) {
                    return false;
                }
            }
            true
        }
        Body::Open => true,
    }
}

/// Whether each member of a struct is a scalar.
fn has_scalar_members(types: &Types, n: usize) -> bool
    ensures { result ≡ list_all (λ m. is_scalar (types_of types.now) m.type) (body_members (body_at (types_of types.now) n)) }
{
    match types.structs.get(n) {
        Some(body) => are_scalars(types, body),
        None => true,
    }
}

/// Whether an object of the type takes a list: an array of scalars, or a struct of scalars.
pub fn takes_list(types: &Types, t: usize) -> bool
    ensures { result ≡ shape_takes_list (types_of types.now) (shape_at (types_of types.now) t) }
{
    match types.shape(t) {
        Some(Shape::Array { element, .. }) => types.is_scalar(*element),
        Some(Shape::Struct(n)) => has_scalar_members(types, *n),
        Some(Shape::Void | Shape::Integer(_) | Shape::Pointer(_) | Shape::Function { .. }) | None =>
            false,
    }
}
