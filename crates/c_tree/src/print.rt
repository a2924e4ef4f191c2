//! Statements, declarations and files as text.
ghost use Rattle.std.specs.Prelude.{◌≡◌, IfOk, [], OnOk, true};
ghost use Rattle.c_tree.specs.FileShape.{
  decl_of,
  else_of,
  external_of,
  externals_of,
  file_of,
  first_of_for,
  groups_of,
  init_declarators_of,
  initializer_of,
  item_onto,
  items_of,
  label_of,
  labels_of,
  optional_of,
  stmt_of,
};
ghost use Rattle.c_tree.specs.Statements.{
  file_text,
  put_decl,
  put_else,
  put_external,
  put_externals,
  put_first,
  put_for,
  put_groups,
  put_head,
  put_init_declarators,
  put_initializer,
  put_items,
  put_jump,
  put_label,
  put_labels,
  put_optional,
  put_return,
  put_stmt,
};
ghost use Rattle.c_tree.specs.Shape.{expr_of};
ghost use Rattle.c_tree.specs.Trees.{no_item_trees};

use crate::expr::Expr;
use crate::file::{Decl, External, File, FunctionDefinition, InitDeclarator, Initializer};
use crate::print_expr::{write_bare, write_declarator, write_expr, write_exprs, write_specifiers};
use crate::stmt::{ForFirst, Group, Item, Label, Stmt};
use crate::text::{write_comma, write_line, write_word};
use std::alloc::Global;
use tso_words::NoMemory;

fn write_initializer(out: &mut Vec<u8>, initializer: &Option<Initializer>) -> Result<(), NoMemory>
    ensures { OnOk result (out.new.items ≡ put_initializer (initializer_of initializer.now) out.old.items) }
{
    match initializer {
        None => Ok(()),
        Some(Initializer::Value(value)) => {
            write_word(out, b"=")?;
            write_bare(out, value)
        }
        Some(Initializer::List { values, .. }) => {
            write_word(out, b"=")?;
            write_word(out, b"{")?;
            write_exprs(out, values)?;
            write_word(out, b"}")
        }
    }
}

fn write_init_declarators(out: &mut Vec<u8>, list: &[InitDeclarator]) -> Result<(), NoMemory>
    ensures { OnOk result (out.new.items ≡ put_init_declarators true (init_declarators_of list.now) out.old.items) }
{
    let mut is_first = true;
    for item in list {
        write_comma(out, is_first)?;
        write_declarator(out, &item.declarator)?;
        write_initializer(out, &item.initializer)?;
        is_first = false;
    }
    Ok(())
}

// A declaration with its `;`.
fn write_decl(out: &mut Vec<u8>, decl: &Decl) -> Result<(), NoMemory>
    ensures { OnOk result (out.new.items ≡ put_decl (decl_of decl.now) out.old.items) }
{
    write_specifiers(out, &decl.specifiers)?;
    write_init_declarators(out, &decl.declarators)?;
    write_line(out, b";")
}

fn write_optional(out: &mut Vec<u8>, value: &Option<Expr>) -> Result<(), NoMemory>
    ensures { OnOk result (out.new.items ≡ put_optional (optional_of value.now) out.old.items) }
{
    match value {
        Some(expr) => write_bare(out, expr),
        None => Ok(()),
    }
}

// The first part of a `for`, with its `;`.
fn write_first(out: &mut Vec<u8>, first: &ForFirst) -> Result<(), NoMemory>
    ensures { OnOk result (out.new.items ≡ put_first (first_of_for first.now) out.old.items) }
{
    match first {
        ForFirst::Nothing => write_word(out, b";"),
        ForFirst::Expr(expr) => {
            write_bare(out, expr)?;
            write_word(out, b";")
        }
        ForFirst::Decl(decl) => write_decl(out, decl),
    }
}

fn write_label(out: &mut Vec<u8>, label: &Label) -> Result<(), NoMemory>
    ensures { OnOk result (out.new.items ≡ put_label (label_of label.now) out.old.items) }
{
    match label {
        Label::Case { value, .. } => {
            write_word(out, b"case")?;
            write_expr(out, 2, value)?;
            write_line(out, b":")
        }
        Label::Default { .. } => {
            write_word(out, b"default")?;
            write_line(out, b":")
        }
    }
}

fn write_labels(out: &mut Vec<u8>, list: &[Label]) -> Result<(), NoMemory>
    ensures { OnOk result (out.new.items ≡ put_labels (labels_of list.now) out.old.items) }
{
    for label in list {
        write_label(out, label)?;
    }
    Ok(())
}

// `word ( expr )`.
fn write_head(out: &mut Vec<u8>, word: &[u8], expr: &Expr) -> Result<(), NoMemory>
    ensures { OnOk result (out.new.items ≡ put_head word.now (expr_of expr.now) out.old.items) }
{
    write_word(out, word)?;
    write_word(out, b"(")?;
    write_bare(out, expr)?;
    write_word(out, b")")
}

// `for ( .. )`.
fn write_for(
    out: &mut Vec<u8>,
    first: &ForFirst,
    condition: &Option<Expr>,
    update: &Option<Expr>,
) -> Result<(), NoMemory>
    ensures { OnOk result (out.new.items ≡ put_for (first_of_for first.now) (optional_of condition.now) (optional_of update.now) out.old.items) }
{
    write_word(out, b"for")?;
    write_word(out, b"(")?;
    write_first(out, first)?;
    write_optional(out, condition)?;
    write_word(out, b";")?;
    write_optional(out, update)?;
    write_word(out, b")")
}

fn write_return(out: &mut Vec<u8>, value: &Option<Expr>) -> Result<(), NoMemory>
    ensures { OnOk result (out.new.items ≡ put_return (optional_of value.now) out.old.items) }
{
    write_word(out, b"return")?;
    write_optional(out, value)?;
    write_line(out, b";")
}

fn write_jump(out: &mut Vec<u8>, word: &[u8]) -> Result<(), NoMemory>
    ensures { OnOk result (out.new.items ≡ put_jump word.now out.old.items) }
{
    write_word(out, word)?;
    write_line(out, b";")
}

#[cycle(print_stmt)]
#[tactic(auto, using(crate::proofs::Statements::if_put))]
fn write_stmt(out: &mut Vec<u8>, stmt: &Stmt) -> Result<(), NoMemory>
    ensures { OnOk result (out.new.items ≡ put_stmt (stmt_of stmt.now) out.old.items) }
{
    match stmt {
        Stmt::Block { items, .. } => {
            write_line(out, b"{")?;
            write_items(out, items)?;
            write_line(out, b"}")
        }
        Stmt::Empty { .. } => write_line(out, b";"),
        Stmt::Expr { expr, .. } => {
            write_bare(out, expr)?;
            write_line(out, b";")
        }
        Stmt::If {
            condition,
            if_true,
            if_false,
            ..
        } => {
            write_head(out, b"if", condition)?;
            write_stmt(out, if_true)?;
            write_else(out, if_false)
        }
        Stmt::While {
            condition,
            body,
            ..
        } => {
            write_head(out, b"while", condition)?;
            write_stmt(out, body)
        }
        Stmt::Do {
            body,
            condition,
            ..
        } => {
            write_word(out, b"do")?;
            write_stmt(out, body)?;
            write_head(out, b"while", condition)?;
            write_line(out, b";")
        }
        Stmt::For {
            first,
            condition,
            update,
            body,
            ..
        } => {
            write_for(out, first, condition, update)?;
            write_stmt(out, body)
        }
        Stmt::Switch {
            selector,
            groups,
            ..
        } => {
            write_head(out, b"switch", selector)?;
            write_line(out, b"{")?;
            write_groups(out, groups)?;
            write_line(out, b"}")
        }
        Stmt::Break { .. } => write_jump(out, b"break"),
        Stmt::Continue { .. } => write_jump(out, b"continue"),
        Stmt::Return { value, .. } => write_return(out, value),
    }
}

#[cycle(print_stmt)]
fn write_else(out: &mut Vec<u8>, if_false: &Option<Box<Stmt>>) -> Result<(), NoMemory>
    ensures { OnOk result (out.new.items ≡ put_else (else_of if_false.now) out.old.items) }
{
    match if_false {
        Some(stmt) => {
            write_word(out, b"else")?;
            write_stmt(out, stmt)
        }
        None => Ok(()),
    }
}

#[cycle(print_stmt)]
fn write_item(out: &mut Vec<u8>, item: &Item) -> Result<(), NoMemory>
    ensures { OnOk result (out.new.items ≡ put_items (item_onto item.now no_item_trees) out.old.items) }
{
    match item {
        Item::Decl(decl) => write_decl(out, decl),
        Item::Stmt(stmt) => write_stmt(out, stmt),
    }
}

#[cycle(print_stmt)]
fn write_items(out: &mut Vec<u8>, list: &[Item]) -> Result<(), NoMemory>
    ensures { OnOk result (out.new.items ≡ put_items (items_of list.now) out.old.items) }
{
    for item in list {
        write_item(out, item)?;
    }
    Ok(())
}

#[cycle(print_stmt)]
fn write_groups(out: &mut Vec<u8>, list: &[Group]) -> Result<(), NoMemory>
    ensures { OnOk result (out.new.items ≡ put_groups (groups_of list.now) out.old.items) }
{
    for group in list {
        write_labels(out, &group.labels)?;
        write_items(out, &group.items)?;
    }
    Ok(())
}

fn write_function(out: &mut Vec<u8>, function: &FunctionDefinition) -> Result<(), NoMemory>
    ensures { OnOk result (out.new.items ≡ put_external (external_of (External.Function function.now)) out.old.items) }
{
    write_specifiers(out, &function.specifiers)?;
    write_declarator(out, &function.declarator)?;
    write_line(out, b"{")?;
    write_items(out, &function.body)?;
    write_line(out, b"}")
}

fn write_external(out: &mut Vec<u8>, external: &External) -> Result<(), NoMemory>
    ensures { OnOk result (out.new.items ≡ put_external (external_of external.now) out.old.items) }
{
    match external {
        External::Decl(decl) => write_decl(out, decl),
        External::Function(function) => write_function(out, function),
    }
}

/// The text of a file: its tokens in order, each with a blank or a line feed behind it, and
/// parentheses only where the tree needs them.
pub fn print_file(alloc: Global, file: &File) -> Result<Vec<u8>, NoMemory>
    ensures { IfOk result (λ text. text.items ≡ file_text (file_of file.now)) }
{
    let mut out = Vec::new(alloc);
    for external in &file.externals {
        write_external(&mut out, external)?;
    }
    Ok(out)
}
