//! The layout of a struct, member by member.

ghost use Rattle.std.specs.Prelude.{◌≡◌, ◌+◌, ◌≤◌};
ghost use Rattle.clight_types.specs.Alignments.{bytes_in};
ghost use Rattle.clight_types.specs.Types.{aligned};

use crate::kind::Alignment;
use indexmap::IndexMap;
use tso_words::Name;

/// A member of a struct, whose name is its key there.
#[derive(Drop)]
pub struct Member {
    pub offset: u32,
    pub type_number: usize,
}

/// The members of a struct that stand so far.
#[derive(Drop)]
pub struct Laid {
    pub size: u32,
    pub align: Alignment,
    pub members: IndexMap<Name, Member>,
    ghost in_range: { size ≤ 16777216 },
}

/// The least multiple of the alignment that is at least `n`.
pub fn aligned(n: u32, align: Alignment) -> u64
    ensures value { result ≡ aligned n (bytes_in align) }
    ensures small { result ≤ n + 3 }
{
    let bytes = u64::from(align.bytes());
    let up = u64::from(n) + (bytes - 1);
    up - up % bytes
}
