//! What the reader of C files has begun and not ended: the frames, their stack with the marks above
//! what stands there, and the reader's state.
//!
//! `specs/Frames.antt` says which frame and which stack of the reader's definition a value of the
//! types here is, and `specs/Readers.antt` which token and which reader.
#![tactic(auto)]

mod declarations;
mod frame;
mod inside;
mod item_ends;
mod kinds;
mod mode;
mod names;
mod nest;
mod nesting;
mod pile;
mod stack;
mod states;
mod suffix_ends;
mod token;

pub use declarations::{declared, declared_alone, on_init_declarator};
pub use frame::{Entry, Frame, SuffixedPart};
pub use item_ends::{groups_end, items_end, labelled};
pub use kinds::{
    begins_type, binary_operator, binds, is_colon, is_comma, is_equals, is_left_brace,
    is_left_bracket, is_left_paren, is_right_brace, is_right_bracket, is_right_paren, is_semicolon,
    unary_operator,
};
pub use mode::{Context, Head, Mode};
pub use names::TypedefNames;
pub use nest::Nest;
pub use nesting::deepest;
pub use pile::Pile;
pub use stack::Stack;
pub use states::{end_if, operand_on, pushed, pushed_if};
pub use suffix_ends::{array_end, enumeration_end, function_end, parameters_end};
pub use token::Token;
