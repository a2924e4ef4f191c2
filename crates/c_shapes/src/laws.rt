//! Laws of the trees, whatever reads them.

ghost use Rattle.c_shapes.specs.Laws.{TreesAreShaped};

/// In the tree that the bytes of a file have, the body of a struct has a member, the declarator of a
/// function that is defined is a name with parameters behind stars, and declared names have at most
/// 127 bytes.
pub const fn trees_are_shaped()
    ensures { TreesAreShaped }
{}
