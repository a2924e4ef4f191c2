//! The nodes of declarations and statements.

ghost use Rattle.std.specs.Prelude.{◌≡◌};
ghost use Rattle.c_tree.specs.FileShape.{decl_of, first_of_for, groups_of, init_declarators_of, initializer_of, items_of, labels_of, optional_of, stmt_of};
ghost use Rattle.clight_nodes.specs.Counted.{counted, item_nodes};
ghost use Rattle.clight_nodes.specs.Nodes.{decl_nodes, first_nodes, groups_nodes, initializer_nodes, inits_nodes, items_nodes, labels_nodes, local_nodes, optional_nodes, stmt_nodes};

use crate::count::add;
use crate::expressions::{count_declarator, count_expr, count_exprs, count_specifiers};
use c_tree::{Decl, Expr, ForFirst, Group, InitDeclarator, Initializer, Item, Label, Stmt};

fn count_initializer(count: &mut usize, initializer: &Option<Initializer>)
    ensures { count.new ≡ counted count.old (initializer_nodes (initializer_of initializer.now)) }
{
    match initializer {
        None => {}
        Some(Initializer::Value(expr)) => count_expr(count, expr),
        Some(Initializer::List { values, .. }) => count_exprs(count, values),
    }
}

fn count_inits(count: &mut usize, list: &[InitDeclarator])
    ensures { count.new ≡ counted count.old (inits_nodes (init_declarators_of list.now)) }
{
    for item in list {
        count_declarator(count, &item.declarator);
        count_initializer(count, &item.initializer);
    }
}

/// Counts the nodes of a declaration of the file.
pub fn count_decl(count: &mut usize, decl: &Decl)
    ensures { count.new ≡ counted count.old (decl_nodes (decl_of decl.now)) }
{
    count_specifiers(count, &decl.specifiers);
    count_inits(count, &decl.declarators);
}

// A declaration in a block counts its locals too.
#[tactic(auto, using(crate::proofs::Counts::inits_length))]
fn count_local(count: &mut usize, decl: &Decl)
    ensures { count.new ≡ counted count.old (local_nodes (decl_of decl.now)) }
{
    add(count, decl.declarators.len());
    count_decl(count, decl);
}

fn count_optional(count: &mut usize, value: &Option<Expr>)
    ensures { count.new ≡ counted count.old (optional_nodes (optional_of value.now)) }
{
    if let Some(expr) = value {
        count_expr(count, expr);
    }
}

fn count_first(count: &mut usize, first: &ForFirst)
    ensures { count.new ≡ counted count.old (first_nodes (first_of_for first.now)) }
{
    match first {
        ForFirst::Nothing => {}
        ForFirst::Expr(expr) => count_expr(count, expr),
        ForFirst::Decl(decl) => count_local(count, decl),
    }
}

fn count_labels(count: &mut usize, list: &[Label])
    ensures { count.new ≡ counted count.old (labels_nodes (labels_of list.now)) }
{
    for label in list {
        if let Label::Case { value, .. } = label {
            count_expr(count, value);
        }
    }
}

#[cycle(statements)]
fn count_stmt(count: &mut usize, stmt: &Stmt)
    ensures { count.new ≡ counted count.old (stmt_nodes (stmt_of stmt.now)) }
{
    add(count, 1);
    match stmt {
        Stmt::Empty { .. } | Stmt::Break { .. } | Stmt::Continue { .. } => {}
        Stmt::Block { items, .. } => count_items(count, items),
        Stmt::Expr { expr, .. } => count_expr(count, expr),
        Stmt::If {
            condition,
            if_true,
            if_false,
            ..
        } => {
            count_expr(count, condition);
            count_stmt(count, if_true);
            if let Some(other) = if_false {
                count_stmt(count, other);
            }
        }
        Stmt::While {
            condition,
            body,
            ..
        } => {
            count_expr(count, condition);
            count_stmt(count, body);
        }
        Stmt::Do {
            body,
            condition,
            ..
        } => {
            count_stmt(count, body);
            count_expr(count, condition);
        }
        Stmt::For {
            first,
            condition,
            update,
            body,
            ..
        } => {
            count_first(count, first);
            count_optional(count, condition);
            count_optional(count, update);
            count_stmt(count, body);
        }
        Stmt::Switch {
            selector,
            groups,
            ..
        } => {
            count_expr(count, selector);
            count_groups(count, groups);
        }
        Stmt::Return { value, .. } => count_optional(count, value),
    }
}

#[cycle(statements)]
fn count_item(count: &mut usize, item: &Item)
    ensures { count.new ≡ counted count.old (item_nodes item.now) }
{
    match item {
        Item::Decl(decl) => count_local(count, decl),
        Item::Stmt(stmt) => count_stmt(count, stmt),
    }
}

/// Counts the nodes of what stands in a block, the block itself left out.
#[cycle(statements)]
pub fn count_items(count: &mut usize, list: &[Item])
    ensures { count.new ≡ counted count.old (items_nodes (items_of list.now)) }
{
    for item in list {
        count_item(count, item);
    }
}

#[cycle(statements)]
fn count_groups(count: &mut usize, list: &[Group])
    ensures { count.new ≡ counted count.old (groups_nodes (groups_of list.now)) }
{
    for group in list {
        count_labels(count, &group.labels);
        count_items(count, &group.items);
    }
}
