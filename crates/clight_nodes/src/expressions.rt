//! The nodes of expressions, and of the types, specifiers and declarators that stand in them.

ghost use Rattle.std.specs.Prelude.{◌≡◌};
ghost use Rattle.c_tree.specs.Shape.{declarator_of, declarators_of, direct_of, enumerators_of, expr_of, exprs_of, maybe_of, members_of, parameters_of, specifier_of, specifiers_of, type_of};
ghost use Rattle.clight_nodes.specs.Counted.{counted, member_nodes, suffix_nodes, suffixes_nodes};
ghost use Rattle.clight_nodes.specs.Nodes.{declarator_nodes, declarators_nodes, enumerators_nodes, expr_nodes, exprs_nodes, maybe_nodes, members_nodes, parameters_nodes, specifier_nodes, specifiers_nodes, type_nodes};

use crate::count::add;
use c_tree::{
    Declarator, Direct, Enumerator, Expr, Member, Parameter, Specifier, Suffix, TypeName,
};

/// Counts the nodes of an expression.
#[cycle(nodes)]
pub fn count_expr(count: &mut usize, expr: &Expr)
    ensures { count.new ≡ counted count.old (expr_nodes (expr_of expr.now)) }
{
    add(count, 1);
    match expr {
        Expr::Name { .. } | Expr::Constant { .. } => {}
        Expr::Index { array, index, .. } => {
            count_expr(count, array);
            count_expr(count, index);
        }
        Expr::Call {
            callee,
            arguments,
            ..
        } => {
            count_expr(count, callee);
            count_exprs(count, arguments);
        }
        Expr::Member { object, .. } => count_expr(count, object),
        Expr::StepAfter { operand, .. } => count_expr(count, operand),
        Expr::StepBefore { operand, .. } => count_expr(count, operand),
        Expr::Unary { operand, .. } => count_expr(count, operand),
        Expr::SizeofExpr { operand, .. } => count_expr(count, operand),
        Expr::SizeofType { type_name, .. } => count_type(count, type_name),
        Expr::Cast {
            type_name,
            operand,
            ..
        } => {
            count_type(count, type_name);
            count_expr(count, operand);
        }
        Expr::Binary { left, right, .. } => {
            count_expr(count, left);
            count_expr(count, right);
        }
        Expr::Cond {
            condition,
            if_true,
            if_false,
            ..
        } => {
            count_expr(count, condition);
            count_expr(count, if_true);
            count_expr(count, if_false);
        }
        Expr::Assign { target, value, .. } => {
            count_expr(count, target);
            count_expr(count, value);
        }
    }
}

/// Counts the nodes of expressions in a row.
#[cycle(nodes)]
pub fn count_exprs(count: &mut usize, list: &[Expr])
    ensures { count.new ≡ counted count.old (exprs_nodes (exprs_of list.now)) }
{
    for expr in list {
        count_expr(count, expr);
    }
}

#[cycle(nodes)]
fn count_maybe(count: &mut usize, value: &Option<Box<Expr>>)
    ensures { count.new ≡ counted count.old (maybe_nodes (maybe_of value.now)) }
{
    if let Some(expr) = value {
        count_expr(count, expr);
    }
}

#[cycle(nodes)]
fn count_type(count: &mut usize, type_name: &TypeName)
    ensures { count.new ≡ counted count.old (type_nodes (type_of type_name.now)) }
{
    count_specifiers(count, &type_name.specifiers);
    count_declarator(count, &type_name.declarator);
}

#[cycle(nodes)]
fn count_specifier(count: &mut usize, specifier: &Specifier)
    ensures { count.new ≡ counted count.old (specifier_nodes (specifier_of specifier.now)) }
{
    match specifier {
        Specifier::Composite { members, .. } => count_members(count, members),
        Specifier::Enumeration { enumerators, .. } => count_enumerators(count, enumerators),
        Specifier::Storage { .. }
        | Specifier::Qualifier { .. }
        | Specifier::Inline { .. }
        | Specifier::Words { .. }
        | Specifier::Typedef { .. }
        | Specifier::CompositeReference { .. }
        | Specifier::EnumReference { .. } => {}
    }
}

/// Counts the nodes of specifiers: those that stand in bodies of structs and enums.
#[cycle(nodes)]
pub fn count_specifiers(count: &mut usize, list: &[Specifier])
    ensures { count.new ≡ counted count.old (specifiers_nodes (specifiers_of list.now)) }
{
    for specifier in list {
        count_specifier(count, specifier);
    }
}

#[cycle(nodes)]
fn count_members(count: &mut usize, list: &[Member])
    ensures { count.new ≡ counted count.old (members_nodes (members_of list.now)) }
{
    for member in list {
        count_member(count, member);
    }
}

#[cycle(nodes)]
fn count_member(count: &mut usize, member: &Member)
    ensures { count.new ≡ counted count.old (member_nodes member.now) }
{
    count_specifiers(count, &member.specifiers);
    count_declarators(count, &member.declarators);
}

#[cycle(nodes)]
fn count_enumerators(count: &mut usize, list: &[Enumerator])
    ensures { count.new ≡ counted count.old (enumerators_nodes (enumerators_of list.now)) }
{
    for enumerator in list {
        count_maybe(count, &enumerator.value);
    }
}

#[cycle(nodes)]
fn count_declarators(count: &mut usize, list: &[Declarator])
    ensures { count.new ≡ counted count.old (declarators_nodes (declarators_of list.now)) }
{
    for declarator in list {
        count_declarator(count, declarator);
    }
}

/// Counts the nodes of a declarator: those of lengths and of parameters.
#[cycle(nodes)]
#[tactic(auto, using(crate::proofs::Counts::declarator_counts))]
pub fn count_declarator(count: &mut usize, declarator: &Declarator)
    ensures { count.new ≡ counted count.old (declarator_nodes (declarator_of declarator.now)) }
{
    count_direct(count, &declarator.direct);
    count_suffixes(count, &declarator.suffixes);
}

#[cycle(nodes)]
#[tactic(auto, using(crate::proofs::Counts::nested_nodes))]
fn count_direct(count: &mut usize, direct: &Direct)
    ensures { count.new ≡ counted count.old (declarator_nodes (direct_of direct.now)) }
{
    match direct {
        Direct::Unnamed | Direct::Named { .. } => {}
        Direct::Nested(inner) => count_declarator(count, inner),
    }
}

#[cycle(nodes)]
fn count_suffixes(count: &mut usize, list: &[Suffix])
    ensures { count.new ≡ counted count.old (suffixes_nodes list.now) }
{
    for suffix in list {
        count_suffix(count, suffix);
    }
}

#[cycle(nodes)]
#[tactic(auto, using(crate::proofs::Counts::function_nodes))]
fn count_suffix(count: &mut usize, suffix: &Suffix)
    ensures { count.new ≡ counted count.old (suffix_nodes suffix.now) }
{
    match suffix {
        Suffix::Array(length) => count_maybe(count, length),
        Suffix::Function(parameters) => count_parameters(count, parameters),
    }
}

#[cycle(nodes)]
fn count_parameters(count: &mut usize, list: &[Parameter])
    ensures { count.new ≡ counted count.old (parameters_nodes (parameters_of list.now)) }
{
    for parameter in list {
        count_specifiers(count, &parameter.specifiers);
        count_declarator(count, &parameter.declarator);
    }
}
