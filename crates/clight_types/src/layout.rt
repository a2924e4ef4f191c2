//! What a member adds to a struct, and the body of a struct behind its last member.

ghost use Rattle.std.specs.Prelude.{◌≡◌, ◌+◌, ◌≤◌, IfOk, None, is_some};
ghost use Rattle.clight_types.specs.Table.{body_of, types_of};
ghost use Rattle.clight_types.specs.LaidOf.{laid_of};
ghost use Rattle.clight_types.specs.Types.{nothing_laid, laid_with, next_offset, named_member, size_at, closed_body, type_limit};

use crate::kind::Alignment;
use crate::laid::{Laid, Member, aligned};
use crate::types::{Body, Types};
use indexmap::IndexMap;
use std::alloc::{AllocError, Global};
use tso_words::{Name, NoMemory};

/// A struct before its first member.
pub fn nothing_laid(alloc: Global) -> Laid
    ensures { laid_of result ≡ nothing_laid }
{
    Laid {
        size: 0,
        align: Alignment::One,
        members: IndexMap::new(alloc),
    }
}

/// Whether a member of this name stands.
#[tactic(auto, using(crate::proofs::Parts::member_told))]
pub fn is_member_name(laid: &Laid, name: &Name) -> bool
    ensures { result ≡ is_some (named_member name.now (laid_of laid.now).members) }
{
    laid.members.contains_key(name)
}

fn next_offset(types: &Types, laid: &Laid, t: usize) -> u64
    ensures value { result ≡ next_offset (types_of types.now) (laid_of laid.now) t }
    ensures small { result ≤ 4294967298 }
{
    aligned(laid.size, types.align(t))
}

/// Where a member of the type would end, in bytes from the struct's begin.
pub fn next_end(types: &Types, laid: &Laid, t: usize) -> u64
    ensures { result ≡ next_offset (types_of types.now) (laid_of laid.now) t + size_at (types_of types.now) t }
{
    next_offset(types, laid, t) + u64::from(types.size(t))
}

/// One member more.
#[tactic(auto, using(crate::proofs::Parts::member_put))]
pub fn laid_with(types: &Types, laid: Laid, name: Name, t: usize) -> Result<Laid, NoMemory>
    requires is_new { named_member name (laid_of laid).members ≡ None }
    requires fits { next_offset (types_of types.now) (laid_of laid) t + size_at (types_of types.now) t ≤ type_limit }
    ensures { IfOk result (λ r. laid_of r ≡ laid_with (types_of types.now) (laid_of laid) name t) }
{
    let offset = next_offset(types, &laid, t) as u32;
    let Laid {
        size: _,
        align,
        mut members,
    } = laid;
    let member = Member {
        offset,
        type_number: t,
    };
    members.insert(name, member).map_err(AllocError::from)?;
    Ok(Laid {
        size: offset + types.size(t),
        align: align.joined(types.align(t)),
        members,
    })
}

/// The body of a struct that has these members.
pub fn closed(laid: Laid) -> Body
    ensures { body_of result ≡ closed_body (laid_of laid) }
{
    let Laid {
        size,
        align,
        members,
    } = laid;
    Body::Closed {
        size: aligned(size, align) as u32,
        align,
        members,
    }
}
