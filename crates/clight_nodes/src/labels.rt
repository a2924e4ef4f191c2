//! The labels of each `switch`.

ghost use Rattle.std.specs.Prelude.{◌≡◌, length};
ghost use Rattle.c_tree.specs.FileShape.{groups_of, items_of, labels_of, stmt_of};
ghost use Rattle.clight_nodes.specs.Counted.{counted, item_labels};
ghost use Rattle.clight_nodes.specs.Nodes.{group_labels, groups_labels, items_labels, most_labels as most_in};

use crate::count::add;
use c_tree::{Group, Item, Label, Stmt};

#[tactic(auto, using(crate::proofs::Counts::labels_length))]
fn add_labels(count: &mut usize, list: &[Label])
    ensures { count.new ≡ counted count.old (length (labels_of list.now)) }
{
    add(count, list.len());
}

// The labels of one `switch`.
fn labels_of_groups(list: &[Group]) -> usize
    ensures { result ≡ counted 0 (group_labels (groups_of list.now)) }
{
    let mut count = 0;
    for group in list {
        add_labels(&mut count, &group.labels);
    }
    count
}

#[cycle(labels)]
fn labels_of_stmt(stmt: &Stmt) -> usize
    ensures { result ≡ counted 0 (most_in (stmt_of stmt.now)) }
{
    match stmt {
        Stmt::Block { items, .. } => most_labels(items),
        Stmt::If {
            if_true,
            if_false,
            ..
        } => {
            let most = labels_of_stmt(if_true);
            match if_false {
                Some(other) => most.max(labels_of_stmt(other)),
                None => most,
            }
        }
        Stmt::While { body, .. } => labels_of_stmt(body),
        Stmt::Do { body, .. } => labels_of_stmt(body),
        Stmt::For { body, .. } => labels_of_stmt(body),
        Stmt::Switch { groups, .. } => labels_of_groups(groups).max(labels_in_groups(groups)),
        Stmt::Empty { .. }
        | Stmt::Expr { .. }
        | Stmt::Break { .. }
        | Stmt::Continue { .. }
        | Stmt::Return { .. } => 0,
    }
}

#[cycle(labels)]
fn labels_of_item(item: &Item) -> usize
    ensures { result ≡ counted 0 (item_labels item.now) }
{
    match item {
        Item::Decl(_) => 0,
        Item::Stmt(stmt) => labels_of_stmt(stmt),
    }
}

/// The most labels that one `switch` has among the items of a block.
#[cycle(labels)]
pub fn most_labels(list: &[Item]) -> usize
    ensures { result ≡ counted 0 (items_labels (items_of list.now)) }
{
    let mut most = 0;
    for item in list {
        most = most.max(labels_of_item(item));
    }
    most
}

#[cycle(labels)]
fn labels_in_groups(list: &[Group]) -> usize
    ensures { result ≡ counted 0 (groups_labels (groups_of list.now)) }
{
    let mut most = 0;
    for group in list {
        most = most.max(most_labels(&group.items));
    }
    most
}
