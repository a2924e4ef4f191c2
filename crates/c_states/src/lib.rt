//! The states of the reader in expressions, specifiers and declarators: what each makes of a token.
//!
//! Each function here is a state of the reader's definition, `specs/Code.antt` of `c_reading`; there
//! is no state behind a token that no file has there.
#![tactic(auto)]

mod declarator;
mod expr;
mod hole;
mod place;
mod specifiers;
mod suffix;

pub use declarator::{
    on_abstract, on_declarator, on_direct, on_direct_abstract, on_starred, on_starred_abstract,
};
pub use expr::{
    on_access, on_arguments, on_expression, on_open, on_operand, on_postfix, on_sizeof,
    on_sizeof_open,
};
pub use specifiers::{
    on_after_enumerator, on_composite, on_enum, on_enumerator, on_enumerator_comma, on_members,
    on_specifiers,
};
pub use suffix::{on_length, on_opened, on_parameters};
