//! Where specifiers stand.

/// Where specifiers stand.
#[derive(Clone, Copy, Drop)]
pub enum SpecifiersPlace {
    Declaration,
    Member,
    Parameter,
    TypeName,
}
