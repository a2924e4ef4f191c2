//! Expressions, types and declarators as text.
ghost use Rattle.std.specs.Prelude.{◌≡◌, ◌≤◌, ◌&&◌, OnOk, true};
ghost use Rattle.c_tree.specs.Printing.{
  binding,
  closed,
  is_looser,
  is_pointer,
  opened,
  put_declarator,
  put_declarators,
  put_enumerators,
  put_expr,
  put_exprs,
  put_maybe,
  put_members,
  put_parameters,
  put_specifier,
  put_specifiers,
  put_tag,
  put_value,
  put_void,
  is_empty_list,
};
ghost use Rattle.c_tree.specs.Writing.{has_pointer, has_suffix, put_member, put_pointers, put_suffix, put_suffixes};
ghost use Rattle.c_tree.specs.Shape.{
  binary_of,
  declarator_of,
  declarators_of,
  direct_of,
  enumerators_of,
  expr_of,
  exprs_of,
  maybe_of,
  members_of,
  parameters_of,
  specifier_of,
  specifiers_of,
  tag_of,
};
ghost use Rattle.c_grammar.specs.Spelling.{precedence as precedence_of};

use crate::expr::{
    Declarator, Direct, Enumerator, Expr, Member, Parameter, Specifier, Suffix, Tag,
};
use crate::spell::{
    access_word, assignment_word, binary_word, composite_word, qualifier_word, step_word,
    storage_word, unary_word, write_qualifiers, write_type_words,
};
use crate::text::{write_close, write_comma, write_line, write_number, write_open, write_word};
use crate::word::{BinaryOperator, Qualifier};
use tso_words::NoMemory;

/// How tightly a binary operator binds, the weakest 3.
pub fn precedence(operator: BinaryOperator) -> u8
    ensures value { result ≡ precedence_of (binary_of operator) }
    ensures small { result ≤ 12 }
{
    match operator {
        BinaryOperator::LogicalOr => 3,
        BinaryOperator::LogicalAnd => 4,
        BinaryOperator::BitOr => 5,
        BinaryOperator::BitXor => 6,
        BinaryOperator::BitAnd => 7,
        BinaryOperator::Equal | BinaryOperator::NotEqual => 8,
        BinaryOperator::Less
        | BinaryOperator::Greater
        | BinaryOperator::LessEqual
        | BinaryOperator::GreaterEqual => 9,
        BinaryOperator::ShiftLeft | BinaryOperator::ShiftRight => 10,
        BinaryOperator::Plus | BinaryOperator::Minus => 11,
        BinaryOperator::Times | BinaryOperator::Divide | BinaryOperator::Remainder => 12,
    }
}

// How tightly an expression binds, from 1 for an assignment to 15 for a postfix expression.
fn binding(expr: &Expr) -> u8
    ensures { result ≡ binding (expr_of expr.now) }
{
    match expr {
        Expr::Name { .. }
        | Expr::Constant { .. }
        | Expr::Index { .. }
        | Expr::Call { .. }
        | Expr::Member { .. }
        | Expr::StepAfter { .. } => 15,
        Expr::StepBefore { .. }
        | Expr::Unary { .. }
        | Expr::SizeofExpr { .. }
        | Expr::SizeofType { .. } => 14,
        Expr::Cast { .. } => 13,
        Expr::Binary { operator, .. } => precedence(*operator),
        Expr::Cond { .. } => 2,
        Expr::Assign { .. } => 1,
    }
}

fn is_looser(expr: &Expr, level: u8) -> bool
    ensures { result ≡ is_looser (expr_of expr.now) level }
{
    binding(expr) < level
}

fn write_tag(out: &mut Vec<u8>, tag: &Option<Tag>) -> Result<(), NoMemory>
    ensures { OnOk result (out.new.items ≡ put_tag (tag_of tag.now) out.old.items) }
{
    match tag {
        Some(tag) => write_word(out, tag.name.bytes()),
        None => Ok(()),
    }
}

fn has_suffix(suffixes: &[Suffix]) -> bool
    ensures { result ≡ has_suffix suffixes.now }
{
    match suffixes {
        [] => false,
        [_, ..] => true,
    }
}

fn has_pointer(pointers: &[Vec<Qualifier>]) -> bool
    ensures { result ≡ has_pointer pointers.now }
{
    match pointers {
        [] => false,
        [_, ..] => true,
    }
}

// Whether a declarator begins with `*`.
#[tactic(auto, using(crate::proofs::Declarators::pointer_told, crate::proofs::Shapes::nested_shape))]
fn is_pointer(declarator: &Declarator) -> bool
    ensures { result ≡ is_pointer (declarator_of declarator.now) }
{
    if has_pointer(&declarator.pointers) {
        true
    } else if has_suffix(&declarator.suffixes) {
        false
    } else {
        match &declarator.direct {
            Direct::Nested(inner) => is_pointer(inner),
            Direct::Unnamed | Direct::Named { .. } => false,
        }
    }
}

fn write_pointers(out: &mut Vec<u8>, pointers: &[Vec<Qualifier>]) -> Result<(), NoMemory>
    ensures { OnOk result (out.new.items ≡ put_pointers pointers.now out.old.items) }
{
    for qualifiers in pointers {
        write_word(out, b"*")?;
        write_qualifiers(out, qualifiers)?;
    }
    Ok(())
}

// An expression where one that binds as tightly as `level` stands.
#[cycle(print_expr)]
pub fn write_expr(out: &mut Vec<u8>, level: u8, expr: &Expr) -> Result<(), NoMemory>
    ensures { OnOk result (out.new.items ≡ closed (is_looser (expr_of expr.now) level) (put_expr (expr_of expr.now) (opened (is_looser (expr_of expr.now) level) out.old.items))) }
{
    let wrap = is_looser(expr, level);
    write_open(out, wrap)?;
    write_bare(out, expr)?;
    write_close(out, wrap)
}

// An expression without parentheses of its own.
#[cycle(print_expr)]
pub fn write_bare(out: &mut Vec<u8>, expr: &Expr) -> Result<(), NoMemory>
    ensures { OnOk result (out.new.items ≡ put_expr (expr_of expr.now) out.old.items) }
{
    match expr {
        Expr::Name { name, .. } => write_word(out, name.bytes()),
        Expr::Constant { number, .. } => write_number(out, *number),
        Expr::Index { array, index, .. } => {
            write_expr(out, 15, array)?;
            write_word(out, b"[")?;
            write_bare(out, index)?;
            write_word(out, b"]")
        }
        Expr::Call {
            callee,
            arguments,
            ..
        } => {
            write_expr(out, 15, callee)?;
            write_word(out, b"(")?;
            write_exprs(out, arguments)?;
            write_word(out, b")")
        }
        Expr::Member {
            object,
            access,
            name,
            ..
        } => {
            write_expr(out, 15, object)?;
            write_word(out, access_word(*access))?;
            write_word(out, name.bytes())
        }
        Expr::StepAfter { operand, step, .. } => {
            write_expr(out, 15, operand)?;
            write_word(out, step_word(*step))
        }
        Expr::StepBefore { step, operand, .. } => {
            write_word(out, step_word(*step))?;
            write_expr(out, 14, operand)
        }
        Expr::Unary {
            operator,
            operand,
            ..
        } => {
            write_word(out, unary_word(*operator))?;
            write_expr(out, 13, operand)
        }
        Expr::SizeofExpr { operand, .. } => {
            write_word(out, b"sizeof")?;
            write_expr(out, 14, operand)
        }
        Expr::SizeofType { type_name, .. } => {
            write_word(out, b"sizeof")?;
            write_word(out, b"(")?;
            write_specifiers(out, &type_name.specifiers)?;
            write_declarator(out, &type_name.declarator)?;
            write_word(out, b")")
        }
        Expr::Cast {
            type_name,
            operand,
            ..
        } => {
            write_word(out, b"(")?;
            write_specifiers(out, &type_name.specifiers)?;
            write_declarator(out, &type_name.declarator)?;
            write_word(out, b")")?;
            write_expr(out, 13, operand)
        }
        Expr::Binary {
            operator,
            left,
            right,
            ..
        } => {
            let level = precedence(*operator);
            write_expr(out, level, left)?;
            write_word(out, binary_word(*operator))?;
            write_expr(out, level + 1, right)
        }
        Expr::Cond {
            condition,
            if_true,
            if_false,
            ..
        } => {
            write_expr(out, 3, condition)?;
            write_word(out, b"?")?;
            write_bare(out, if_true)?;
            write_word(out, b":")?;
            write_expr(out, 2, if_false)
        }
        Expr::Assign {
            operator,
            target,
            value,
            ..
        } => {
            write_expr(out, 14, target)?;
            write_word(out, assignment_word(*operator))?;
            write_bare(out, value)
        }
    }
}

#[cycle(print_expr)]
pub fn write_exprs(out: &mut Vec<u8>, list: &[Expr]) -> Result<(), NoMemory>
    ensures { OnOk result (out.new.items ≡ put_exprs true (exprs_of list.now) out.old.items) }
{
    let mut is_first = true;
    for expr in list {
        write_comma(out, is_first)?;
        write_bare(out, expr)?;
        is_first = false;
    }
    Ok(())
}

#[cycle(print_expr)]
fn write_maybe(out: &mut Vec<u8>, value: &Option<Box<Expr>>) -> Result<(), NoMemory>
    ensures { OnOk result (out.new.items ≡ put_maybe (maybe_of value.now) out.old.items) }
{
    match value {
        Some(expr) => write_expr(out, 2, expr),
        None => Ok(()),
    }
}

#[cycle(print_expr)]
pub fn write_specifiers(out: &mut Vec<u8>, list: &[Specifier]) -> Result<(), NoMemory>
    ensures { OnOk result (out.new.items ≡ put_specifiers (specifiers_of list.now) out.old.items) }
{
    for specifier in list {
        write_specifier(out, specifier)?;
    }
    Ok(())
}

#[cycle(print_expr)]
fn write_specifier(out: &mut Vec<u8>, specifier: &Specifier) -> Result<(), NoMemory>
    ensures { OnOk result (out.new.items ≡ put_specifier (specifier_of specifier.now) out.old.items) }
{
    match specifier {
        Specifier::Storage { word, .. } => write_word(out, storage_word(*word)),
        Specifier::Qualifier { word, .. } => write_word(out, qualifier_word(*word)),
        Specifier::Inline { .. } => write_word(out, b"inline"),
        Specifier::Words { words, .. } => write_type_words(out, words),
        Specifier::Typedef { name, .. } => write_word(out, name.bytes()),
        Specifier::CompositeReference { word, tag, .. } => {
            write_word(out, composite_word(*word))?;
            write_word(out, tag.name.bytes())
        }
        Specifier::Composite {
            word,
            tag,
            members,
            ..
        } => {
            write_word(out, composite_word(*word))?;
            write_tag(out, tag)?;
            write_line(out, b"{")?;
            write_members(out, members)?;
            write_word(out, b"}")
        }
        Specifier::EnumReference { tag, .. } => {
            write_word(out, b"enum")?;
            write_word(out, tag.name.bytes())
        }
        Specifier::Enumeration {
            tag,
            enumerators,
            ..
        } => {
            write_word(out, b"enum")?;
            write_tag(out, tag)?;
            write_word(out, b"{")?;
            write_enumerators(out, enumerators)?;
            write_word(out, b"}")
        }
    }
}

#[cycle(print_expr)]
#[tactic(auto, using(crate::proofs::Puts::member_put))]
fn write_members(out: &mut Vec<u8>, list: &[Member]) -> Result<(), NoMemory>
    ensures { OnOk result (out.new.items ≡ put_members (members_of list.now) out.old.items) }
{
    for member in list {
        write_member(out, member)?;
    }
    Ok(())
}

#[cycle(print_expr)]
fn write_member(out: &mut Vec<u8>, member: &Member) -> Result<(), NoMemory>
    ensures { OnOk result (out.new.items ≡ put_member member.now out.old.items) }
{
    write_specifiers(out, &member.specifiers)?;
    write_declarators(out, &member.declarators)?;
    write_line(out, b";")
}

#[cycle(print_expr)]
fn write_enumerators(out: &mut Vec<u8>, list: &[Enumerator]) -> Result<(), NoMemory>
    ensures { OnOk result (out.new.items ≡ put_enumerators true (enumerators_of list.now) out.old.items) }
{
    let mut is_first = true;
    for enumerator in list {
        write_comma(out, is_first)?;
        write_word(out, enumerator.name.bytes())?;
        write_value(out, &enumerator.value)?;
        is_first = false;
    }
    Ok(())
}

#[cycle(print_expr)]
fn write_value(out: &mut Vec<u8>, value: &Option<Box<Expr>>) -> Result<(), NoMemory>
    ensures { OnOk result (out.new.items ≡ put_value (maybe_of value.now) out.old.items) }
{
    match value {
        Some(expr) => {
            write_word(out, b"=")?;
            write_expr(out, 2, expr)
        }
        None => Ok(()),
    }
}

#[cycle(print_expr)]
pub fn write_declarators(out: &mut Vec<u8>, list: &[Declarator]) -> Result<(), NoMemory>
    ensures { OnOk result (out.new.items ≡ put_declarators true (declarators_of list.now) out.old.items) }
{
    let mut is_first = true;
    for declarator in list {
        write_comma(out, is_first)?;
        write_declarator(out, declarator)?;
        is_first = false;
    }
    Ok(())
}

#[cycle(print_expr)]
#[tactic(auto, using(crate::proofs::Declarators::declarator_put))]
pub fn write_declarator(out: &mut Vec<u8>, declarator: &Declarator) -> Result<(), NoMemory>
    ensures { OnOk result (out.new.items ≡ put_declarator (declarator_of declarator.now) out.old.items) }
{
    write_pointers(out, &declarator.pointers)?;
    let is_followed = has_suffix(&declarator.suffixes);
    write_direct(out, &declarator.direct, is_followed)?;
    write_suffixes(out, &declarator.suffixes)
}

// The inside of a declarator, in parentheses if `*` begins it and brackets or parameters follow.
#[cycle(print_expr)]
#[tactic(auto, using(crate::proofs::Shapes::nested_shape))]
fn write_direct(out: &mut Vec<u8>, direct: &Direct, is_followed: bool) -> Result<(), NoMemory>
    ensures { OnOk result (out.new.items ≡ closed (is_pointer (direct_of direct.now) && is_followed) (put_declarator (direct_of direct.now) (opened (is_pointer (direct_of direct.now) && is_followed) out.old.items))) }
{
    match direct {
        Direct::Unnamed => Ok(()),
        Direct::Named { name, .. } => write_word(out, name.bytes()),
        Direct::Nested(inner) => {
            let wrap = is_pointer(inner) && is_followed;
            write_open(out, wrap)?;
            write_declarator(out, inner)?;
            write_close(out, wrap)
        }
    }
}

#[cycle(print_expr)]
fn write_suffixes(out: &mut Vec<u8>, list: &[Suffix]) -> Result<(), NoMemory>
    ensures { OnOk result (out.new.items ≡ put_suffixes list.now out.old.items) }
{
    for suffix in list {
        write_suffix(out, suffix)?;
    }
    Ok(())
}

#[cycle(print_expr)]
fn write_suffix(out: &mut Vec<u8>, suffix: &Suffix) -> Result<(), NoMemory>
    ensures { OnOk result (out.new.items ≡ put_suffix suffix.now out.old.items) }
{
    match suffix {
        Suffix::Array(length) => {
            write_word(out, b"[")?;
            write_maybe(out, length)?;
            write_word(out, b"]")
        }
        Suffix::Function(parameters) => {
            write_word(out, b"(")?;
            write_parameters(out, parameters)?;
            write_word(out, b")")
        }
    }
}

#[cycle(print_expr)]
fn write_parameters(out: &mut Vec<u8>, list: &[Parameter]) -> Result<(), NoMemory>
    ensures { OnOk result (out.new.items ≡ put_parameters true (parameters_of list.now) (put_void (is_empty_list (parameters_of list.now)) out.old.items)) }
{
    if list.is_empty() {
        return write_word(out, b"void");
    }
    let mut is_first = true;
    for parameter in list {
        write_comma(out, is_first)?;
        write_specifiers(out, &parameter.specifiers)?;
        write_declarator(out, &parameter.declarator)?;
        is_first = false;
    }
    Ok(())
}
