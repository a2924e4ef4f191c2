//! Which token it is.

ghost use Rattle.std.specs.Prelude.{◌≡◌, MatchOption, false, nat_le, true};
ghost use Rattle.c_frames.specs.Readers.{token_of};
ghost use Rattle.c_grammar.specs.Machine.{begins_type, kind_of};
ghost use Rattle.c_grammar.specs.Spelling.{is_unary, precedence as precedence_of};
ghost use Rattle.c_reading.specs.Code as code;
ghost use Rattle.c_reading.specs.Kinds.{operator_of};
ghost use Rattle.c_tree.specs.Shape.{binary_of, unary_of};

use crate::names::TypedefNames;
use crate::token::Token;
use c_reading::token::{Kind, Operator};
use c_tree::{AssignmentOperator, BinaryOperator, UnaryOperator};

/// Whether the token is `;`.
pub fn is_semicolon(token: &Token) -> bool
    ensures { result ≡ code.is_semicolon (token_of token.now) }
{
    matches!(token.kind, Kind::Semicolon)
}

/// Whether the token is `,`.
pub fn is_comma(token: &Token) -> bool
    ensures { result ≡ code.is_comma (token_of token.now) }
{
    matches!(token.kind, Kind::Comma)
}

/// Whether the token is `:`.
pub fn is_colon(token: &Token) -> bool
    ensures { result ≡ code.is_colon (token_of token.now) }
{
    matches!(token.kind, Kind::Colon)
}

/// Whether the token is `(`.
pub fn is_left_paren(token: &Token) -> bool
    ensures { result ≡ code.is_left_paren (token_of token.now) }
{
    matches!(token.kind, Kind::LeftParen)
}

/// Whether the token is `)`.
pub fn is_right_paren(token: &Token) -> bool
    ensures { result ≡ code.is_right_paren (token_of token.now) }
{
    matches!(token.kind, Kind::RightParen)
}

/// Whether the token is `{`.
pub fn is_left_brace(token: &Token) -> bool
    ensures { result ≡ code.is_left_brace (token_of token.now) }
{
    matches!(token.kind, Kind::LeftBrace)
}

/// Whether the token is `}`.
pub fn is_right_brace(token: &Token) -> bool
    ensures { result ≡ code.is_right_brace (token_of token.now) }
{
    matches!(token.kind, Kind::RightBrace)
}

/// Whether the token is `[`.
pub fn is_left_bracket(token: &Token) -> bool
    ensures { result ≡ code.is_left_bracket (token_of token.now) }
{
    matches!(token.kind, Kind::LeftBracket)
}

/// Whether the token is `]`.
pub fn is_right_bracket(token: &Token) -> bool
    ensures { result ≡ code.is_right_bracket (token_of token.now) }
{
    matches!(token.kind, Kind::RightBracket)
}

/// Whether the token is `=`.
pub fn is_equals(token: &Token) -> bool
    ensures { result ≡ code.is_equals (token_of token.now) }
{
    matches!(token.kind, Kind::Assignment(AssignmentOperator::Assign))
}

/// How tightly an operator between two operands binds, 0 where it is none.
fn precedence(operator: Operator) -> u8
    ensures { result ≡ precedence_of (operator_of operator) }
{
    match operator {
        Operator::LogicalOr => 3,
        Operator::LogicalAnd => 4,
        Operator::BitOr => 5,
        Operator::BitXor => 6,
        Operator::Ampersand => 7,
        Operator::Equal | Operator::NotEqual => 8,
        Operator::Less | Operator::Greater | Operator::LessEqual | Operator::GreaterEqual => 9,
        Operator::ShiftLeft | Operator::ShiftRight => 10,
        Operator::Plus | Operator::Minus => 11,
        Operator::Star | Operator::Slash | Operator::Percent => 12,
        Operator::Complement | Operator::Not => 0,
    }
}

/// The level of what an operator behind an operand makes, or 0 where the token is none.
pub fn binds(token: &Token) -> u8
    ensures { result ≡ code.binds_of (token_of token.now) }
{
    match token.kind {
        Kind::Operator(operator) => precedence(operator),
        Kind::Assignment(_) => 1,
        Kind::Question => 2,
        _ => 0,
    }
}

/// Whether the token begins a type.
pub fn begins_type(names: &TypedefNames, token: &Token) -> bool
    ensures { result ≡ begins_type names.now (kind_of (token_of token.now)) }
{
    match token.kind {
        Kind::Name => names.is_typedef(&token.name),
        Kind::TypeWord(_) | Kind::Qualifier(_) | Kind::Composite(_) | Kind::Enum => true,
        _ => false,
    }
}

/// The operator between two operands that an operator is.
pub fn binary_operator(operator: Operator) -> Option<BinaryOperator>
    ensures { MatchOption result (nat_le 3 (precedence_of (operator_of operator)) ≡ false) (λ binary. (binary_of binary ≡ operator_of operator) × (nat_le 3 (precedence_of (operator_of operator)) ≡ true)) }
{
    Some(match operator {
        Operator::LogicalOr => BinaryOperator::LogicalOr,
        Operator::LogicalAnd => BinaryOperator::LogicalAnd,
        Operator::BitOr => BinaryOperator::BitOr,
        Operator::BitXor => BinaryOperator::BitXor,
        Operator::Ampersand => BinaryOperator::BitAnd,
        Operator::Equal => BinaryOperator::Equal,
        Operator::NotEqual => BinaryOperator::NotEqual,
        Operator::Less => BinaryOperator::Less,
        Operator::Greater => BinaryOperator::Greater,
        Operator::LessEqual => BinaryOperator::LessEqual,
        Operator::GreaterEqual => BinaryOperator::GreaterEqual,
        Operator::ShiftLeft => BinaryOperator::ShiftLeft,
        Operator::ShiftRight => BinaryOperator::ShiftRight,
        Operator::Plus => BinaryOperator::Plus,
        Operator::Minus => BinaryOperator::Minus,
        Operator::Star => BinaryOperator::Times,
        Operator::Slash => BinaryOperator::Divide,
        Operator::Percent => BinaryOperator::Remainder,
        Operator::Complement | Operator::Not => return None,
    })
}

/// The operator before an operand that an operator is.
pub fn unary_operator(operator: Operator) -> Option<UnaryOperator>
    ensures { MatchOption result (is_unary (operator_of operator) ≡ false) (λ unary. (unary_of unary ≡ operator_of operator) × (is_unary (operator_of operator) ≡ true)) }
{
    match operator {
        Operator::Ampersand => Some(UnaryOperator::AddressOf),
        Operator::Star => Some(UnaryOperator::Dereference),
        Operator::Plus => Some(UnaryOperator::Plus),
        Operator::Minus => Some(UnaryOperator::Minus),
        Operator::Complement => Some(UnaryOperator::Complement),
        Operator::Not => Some(UnaryOperator::Not),
        _ => None,
    }
}
