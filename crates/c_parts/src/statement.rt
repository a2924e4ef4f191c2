//! Statements.

ghost use Rattle.std.specs.Prelude.{◌≡◌, IfOk};
ghost use Rattle.c_reading.specs.Kinds.{jump_of};
ghost use Rattle.c_reading.specs.Parts as part;
ghost use Rattle.c_parts.specs.Views.{
  declaration_part_of,
  expr_part_of,
  for_first_part_of,
  groups_part_of,
  items_part_of,
  label_part_of,
  labels_part_of,
  optional_part_of,
  statement_part_of,
};

use crate::declaration::DeclarationPart;
use crate::expr::ExprPart;
use crate::height::deeper;
use crate::memory::{boxed, extended};
use c_reading::token::JumpWord;
use c_tree::{Expr, ForFirst, Group, Item, Label, Stmt};
use std::alloc::Global;
use tso_words::NoMemory;

/// An expression that may be left out of a `for` or a `return`.
#[derive(Drop)]
pub struct OptionalPart {
    pub tree: Option<Expr>,
    pub height: u8,
}

/// The first part of a `for`.
#[derive(Drop)]
pub struct ForFirstPart {
    pub tree: ForFirst,
    pub height: u8,
}

/// A label of a `switch`.
#[derive(Drop)]
pub struct LabelPart {
    pub tree: Label,
    pub height: u8,
}

/// The labels of a group.
#[derive(Drop)]
pub struct LabelsPart {
    pub trees: Vec<Label>,
    pub height: u8,
}

/// A statement.
#[derive(Drop)]
pub struct StatementPart {
    pub tree: Stmt,
    pub height: u8,
}

/// What stands in a block or a group.
#[derive(Drop)]
pub struct ItemsPart {
    pub trees: Vec<Item>,
    pub height: u8,
}

/// The groups of a `switch`.
#[derive(Drop)]
pub struct GroupsPart {
    pub trees: Vec<Group>,
    pub height: u8,
}

/// An expression that is left out.
pub fn no_expression() -> OptionalPart
    ensures { optional_part_of result ≡ part.no_expression }
{
    OptionalPart {
        tree: None,
        height: 0,
    }
}

/// An expression that is not left out.
pub fn some_expression(expr: ExprPart) -> OptionalPart
    ensures { optional_part_of result ≡ part.some_expression (expr_part_of expr) }
{
    OptionalPart {
        tree: Some(expr.tree),
        height: expr.height,
    }
}

/// An empty first part of a `for`.
pub fn nothing_part() -> ForFirstPart
    ensures { for_first_part_of result ≡ part.nothing_part }
{
    ForFirstPart {
        tree: ForFirst::Nothing,
        height: 0,
    }
}

/// An expression as the first part of a `for`.
pub fn first_expression_part(expr: ExprPart) -> ForFirstPart
    ensures { for_first_part_of result ≡ part.first_expression_part (expr_part_of expr) }
{
    ForFirstPart {
        tree: ForFirst::Expr(expr.tree),
        height: expr.height,
    }
}

/// A declaration as the first part of a `for`.
pub fn first_declaration_part(declaration: DeclarationPart) -> ForFirstPart
    ensures { for_first_part_of result ≡ part.first_declaration_part (declaration_part_of declaration) }
{
    ForFirstPart {
        tree: ForFirst::Decl(declaration.tree),
        height: declaration.height,
    }
}

/// `case value:`.
pub fn case_part(at: u32, value: ExprPart) -> LabelPart
    ensures { label_part_of result ≡ part.case_part at (expr_part_of value) }
{
    LabelPart {
        tree: Label::Case {
            at,
            value: value.tree,
        },
        height: value.height,
    }
}

/// `default:`.
pub fn default_part(at: u32) -> LabelPart
    ensures { label_part_of result ≡ part.default_part at }
{
    LabelPart {
        tree: Label::Default { at },
        height: 0,
    }
}

/// No labels.
pub fn no_label(alloc: Global) -> LabelsPart
    ensures { labels_part_of result ≡ part.no_label }
{
    LabelsPart {
        trees: Vec::new(alloc),
        height: 0,
    }
}

/// One label more.
#[tactic(auto, using(crate::proofs::Ends::labels_end))]
pub fn add_label(labels: LabelsPart, label: LabelPart) -> Result<LabelsPart, NoMemory>
    ensures { IfOk result (λ ls. labels_part_of ls ≡ part.add_label (labels_part_of labels) (label_part_of label)) }
{
    Ok(LabelsPart {
        trees: extended(labels.trees, label.tree)?,
        height: labels.height.max(label.height),
    })
}

/// No items.
pub fn no_item(alloc: Global) -> ItemsPart
    ensures { items_part_of result ≡ part.no_item }
{
    ItemsPart {
        trees: Vec::new(alloc),
        height: 0,
    }
}

/// Whether there are no items.
pub fn are_no_items(items: &ItemsPart) -> bool
    ensures { result ≡ part.are_no_items (items_part_of items.now).trees }
{
    match items.trees.as_slice() {
        [] => true,
        [Item::Decl(_) | Item::Stmt(_), ..] => false,
    }
}

/// One declaration more.
#[tactic(auto, using(crate::proofs::StatementEnds::declarations_end))]
pub fn add_declaration(
    items: ItemsPart,
    declaration: DeclarationPart,
) -> Result<ItemsPart, NoMemory>
    ensures { IfOk result (λ is. items_part_of is ≡ part.add_declaration (items_part_of items) (declaration_part_of declaration)) }
{
    Ok(ItemsPart {
        trees: extended(items.trees, Item::Decl(declaration.tree))?,
        height: items.height.max(declaration.height),
    })
}

/// One statement more.
#[tactic(auto, using(crate::proofs::StatementEnds::statements_end))]
pub fn add_statement(items: ItemsPart, statement: StatementPart) -> Result<ItemsPart, NoMemory>
    ensures { IfOk result (λ is. items_part_of is ≡ part.add_statement (items_part_of items) (statement_part_of statement)) }
{
    Ok(ItemsPart {
        trees: extended(items.trees, Item::Stmt(statement.tree))?,
        height: items.height.max(statement.height),
    })
}

/// No groups.
pub fn no_group(alloc: Global) -> GroupsPart
    ensures { groups_part_of result ≡ part.no_group }
{
    GroupsPart {
        trees: Vec::new(alloc),
        height: 0,
    }
}

/// One group more.
#[tactic(auto, using(crate::proofs::StatementEnds::groups_end))]
pub fn add_group(
    groups: GroupsPart,
    labels: LabelsPart,
    items: ItemsPart,
) -> Result<GroupsPart, NoMemory>
    ensures { IfOk result (λ gs. groups_part_of gs ≡ part.add_group (groups_part_of groups) (labels_part_of labels) (items_part_of items)) }
{
    let inner = labels.height.max(items.height);
    let group = Group {
        labels: labels.trees,
        items: items.trees,
    };
    Ok(GroupsPart {
        trees: extended(groups.trees, group)?,
        height: groups.height.max(inner),
    })
}

/// A block.
#[tactic(auto, using(crate::proofs::StatementEnds::block_shape))]
pub fn block_part(at: u32, items: ItemsPart) -> StatementPart
    ensures { statement_part_of result ≡ part.block_part at (items_part_of items) }
{
    StatementPart {
        height: deeper(items.height),
        tree: Stmt::Block {
            at,
            items: items.trees,
        },
    }
}

/// `;`.
pub fn empty_part(at: u32) -> StatementPart
    ensures { statement_part_of result ≡ part.empty_part at }
{
    StatementPart {
        tree: Stmt::Empty { at },
        height: deeper(0),
    }
}

/// An expression as a statement.
pub fn expression_part(expr: ExprPart) -> StatementPart
    ensures { statement_part_of result ≡ part.expression_part (expr_part_of expr) }
{
    StatementPart {
        height: deeper(expr.height),
        tree: Stmt::Expr {
            at: expr.start,
            expr: expr.tree,
        },
    }
}

/// `if` without `else`.
pub fn if_part(
    alloc: Global,
    at: u32,
    condition: ExprPart,
    if_true: StatementPart,
) -> Result<StatementPart, NoMemory>
    ensures { IfOk result (λ s. statement_part_of s ≡ part.if_part at (expr_part_of condition) (statement_part_of if_true)) }
{
    Ok(StatementPart {
        height: deeper(condition.height.max(if_true.height)),
        tree: Stmt::If {
            at,
            condition: condition.tree,
            if_true: boxed(alloc, if_true.tree)?,
            if_false: None,
        },
    })
}

/// `if` with `else`.
pub fn if_else_part(
    alloc: Global,
    at: u32,
    condition: ExprPart,
    if_true: StatementPart,
    if_false: StatementPart,
) -> Result<StatementPart, NoMemory>
    ensures { IfOk result (λ s. statement_part_of s ≡ part.if_else_part at (expr_part_of condition) (statement_part_of if_true) (statement_part_of if_false)) }
{
    Ok(StatementPart {
        height: deeper(condition.height.max(if_true.height.max(if_false.height))),
        tree: Stmt::If {
            at,
            condition: condition.tree,
            if_true: boxed(alloc, if_true.tree)?,
            if_false: Some(boxed(alloc, if_false.tree)?),
        },
    })
}

/// `while`.
pub fn while_part(
    alloc: Global,
    at: u32,
    condition: ExprPart,
    body: StatementPart,
) -> Result<StatementPart, NoMemory>
    ensures { IfOk result (λ s. statement_part_of s ≡ part.while_part at (expr_part_of condition) (statement_part_of body)) }
{
    Ok(StatementPart {
        height: deeper(condition.height.max(body.height)),
        tree: Stmt::While {
            at,
            condition: condition.tree,
            body: boxed(alloc, body.tree)?,
        },
    })
}

/// `do`.
pub fn do_part(
    alloc: Global,
    at: u32,
    body: StatementPart,
    condition: ExprPart,
) -> Result<StatementPart, NoMemory>
    ensures { IfOk result (λ s. statement_part_of s ≡ part.do_part at (statement_part_of body) (expr_part_of condition)) }
{
    Ok(StatementPart {
        height: deeper(body.height.max(condition.height)),
        tree: Stmt::Do {
            at,
            body: boxed(alloc, body.tree)?,
            condition: condition.tree,
        },
    })
}

/// `for`.
pub fn for_part(
    alloc: Global,
    at: u32,
    first: ForFirstPart,
    condition: OptionalPart,
    update: OptionalPart,
    body: StatementPart,
) -> Result<StatementPart, NoMemory>
    ensures { IfOk result (λ s. statement_part_of s ≡ part.for_part at (for_first_part_of first) (optional_part_of condition) (optional_part_of update) (statement_part_of body)) }
{
    let head = first.height.max(condition.height.max(update.height));
    Ok(StatementPart {
        height: deeper(head.max(body.height)),
        tree: Stmt::For {
            at,
            first: first.tree,
            condition: condition.tree,
            update: update.tree,
            body: boxed(alloc, body.tree)?,
        },
    })
}

/// `switch`.
#[tactic(auto, using(crate::proofs::StatementEnds::switch_shape))]
pub fn switch_part(at: u32, selector: ExprPart, groups: GroupsPart) -> StatementPart
    ensures { statement_part_of result ≡ part.switch_part at (expr_part_of selector) (groups_part_of groups) }
{
    StatementPart {
        height: deeper(selector.height.max(groups.height)),
        tree: Stmt::Switch {
            at,
            selector: selector.tree,
            groups: groups.trees,
        },
    }
}

/// `break` or `continue`.
pub fn jump_part(at: u32, word: JumpWord) -> StatementPart
    ensures { statement_part_of result ≡ part.jump_part at (jump_of word) }
{
    StatementPart {
        height: deeper(0),
        tree: match word {
            JumpWord::Break => Stmt::Break { at },
            JumpWord::Continue => Stmt::Continue { at },
        },
    }
}

/// `return`.
pub fn return_part(at: u32, value: OptionalPart) -> StatementPart
    ensures { statement_part_of result ≡ part.return_part at (optional_part_of value) }
{
    StatementPart {
        height: deeper(value.height),
        tree: Stmt::Return {
            at,
            value: value.tree,
        },
    }
}
