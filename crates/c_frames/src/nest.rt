//! The marked parts above what stands in a frame.

ghost use Rattle.std.specs.Prelude.{◌≡◌};
ghost use Rattle.c_reading.specs.Frames as marks;
ghost use Rattle.c_frames.specs.Nests.{nest_of};
ghost use Rattle.c_parts.specs.Views.{file_part_of};

use c_parts::{FilePart, deeper, over};

/// The marked parts above what stands in a frame, each at most 255.
#[derive(Clone, Copy, Drop)]
pub struct Nest {
    /// Above a name or an expression there.
    pub depth: u8,
    /// Above what stands there once its declarator is marked.
    pub inner: u8,
    /// The same two of an abstract declarator, whose `*` are marked one by one.
    pub star_depth: u8,
    pub star_inner: u8,
    /// The nesting of the deepest token so far.
    pub deepest: u8,
    /// Whether a declarator there may be the head of a function definition.
    pub may_head: bool,
    /// Whether an abstract declarator there may turn out to be one with a name.
    pub takes_name: bool,
}

/// So many marks above, and the deepest token so far.
pub fn nest_at(depth: u8, deepest: u8) -> Nest
    ensures { nest_of result ≡ marks.nest_at depth deepest }
{
    Nest {
        depth,
        inner: deeper(depth),
        star_depth: depth,
        star_inner: deeper(depth),
        deepest,
        may_head: false,
        takes_name: false,
    }
}

/// So many marks above, with tokens before of this height.
pub fn under(base: Nest, depth: u8, height: u8) -> Nest
    ensures { nest_of result ≡ marks.under (nest_of base) depth height }
{
    nest_at(depth, base.deepest.max(over(depth, height)))
}

/// One mark more, with tokens before of this height.
pub fn below_mark(base: Nest, height: u8) -> Nest
    ensures { nest_of result ≡ marks.below_mark (nest_of base) height }
{
    under(base, deeper(base.depth), height)
}

/// No mark more, with tokens before of this height.
pub fn beside(base: Nest, height: u8) -> Nest
    ensures { nest_of result ≡ marks.beside (nest_of base) height }
{
    under(base, base.depth, height)
}

/// What stands in a file: a declarator there may head a function.
pub fn file_nest(file: &FilePart) -> Nest
    ensures { nest_of result ≡ marks.file_nest (file_part_of file.now) }
{
    Nest {
        may_head: true,
        ..nest_at(0, file.deepest)
    }
}
