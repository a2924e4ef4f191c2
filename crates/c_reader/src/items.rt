//! Among the items of a block or a `switch`, and behind a statement.

ghost use Rattle.std.specs.Prelude.{◌≡◌, IfOk, List};
ghost use Rattle.c_frames.specs.Frames.{frame_of, stack_of};
ghost use Rattle.c_frames.specs.Readers.{Moves, reached, token_of};
ghost use Rattle.c_grammar.specs.Tokens.{Identifier};
ghost use Rattle.c_parts.specs.Views.{groups_part_of, items_part_of, labels_part_of, statement_part_of};
ghost use Rattle.c_reading.specs.Code as code;
ghost use Rattle.c_reading.specs.Frames as marks;

use crate::statement::{begins_declaration, declaration_on, on_statement};
use c_frames::{
    Context, Frame, Mode, Token, end_if, groups_end, is_colon, is_right_brace, items_end, labelled,
    operand_on, pushed,
};
use c_parts::{
    GroupsPart, ItemsPart, LabelsPart, StatementPart, add_group, add_statement, are_no_items,
    default_part, for_part, if_else_part, if_part, no_group, no_label, while_part,
};
use c_reading::token::Kind;
use std::alloc::Global;
use tso_words::NoMemory;

// Whether the token is `else`.
fn is_else(token: &Token) -> bool
    ensures { result ≡ code.is_else (token_of token.now) }
{
    matches!(token.kind, Kind::Else)
}

// Whether the token is `while`.
fn is_while(token: &Token) -> bool
    ensures { result ≡ code.is_while (token_of token.now) }
{
    matches!(token.kind, Kind::While)
}

// Whether the token is `case`.
fn is_case(token: &Token) -> bool
    ensures { result ≡ code.is_case (token_of token.now) }
{
    matches!(token.kind, Kind::Case)
}

// Whether the token is `default`.
fn is_default(token: &Token) -> bool
    ensures { result ≡ code.is_default (token_of token.now) }
{
    matches!(token.kind, Kind::Default)
}

// The frame of a label behind these items: of the same group where there are none.
fn label_behind(
    alloc: Global,
    groups: GroupsPart,
    labels: LabelsPart,
    items: ItemsPart,
) -> Result<Frame, NoMemory>
    ensures { IfOk result (λ frame. frame_of frame ≡ code.label_behind (groups_part_of groups) (labels_part_of labels) (items_part_of items)) }
{
    if are_no_items(&items) {
        return Ok(Frame::Label { groups, labels });
    }
    Ok(Frame::Label {
        groups: add_group(groups, labels, items)?,
        labels: no_label(alloc),
    })
}

// A `case` among items, the frame that they stand in being taken off.
fn on_case_in(
    alloc: Global,
    at: u32,
    frame: Frame,
    context: &mut Context,
) -> Result<Option<Mode>, NoMemory>
    ensures { (nest : marks.Nest) → Moves result context.new (code.on_case at (marks.above (frame_of frame) nest (stack_of context.old.stack)) context.old.names) }
{
    match frame {
        Frame::Group {
            groups,
            labels,
            items,
        } => {
            let label = label_behind(alloc, groups, labels, items)?;
            context.stack.push(label)?;
            operand_on(Frame::Case { at }, context)
        }
        other => {
            drop(other);
            Ok(None)
        }
    }
}

// A `case` among items, which only those of a `switch` take.
fn on_case(alloc: Global, at: u32, context: &mut Context) -> Result<Option<Mode>, NoMemory>
    ensures { Moves result context.new (code.on_case at (stack_of context.old.stack) context.old.names) }
{
    match context.stack.pop() {
        Some(frame) => on_case_in(alloc, at, frame, context),
        None => Ok(None),
    }
}

// A `default` among items, the frame that they stand in being taken off.
fn on_default_in(
    alloc: Global,
    at: u32,
    frame: Frame,
    context: &mut Context,
) -> Result<Option<Mode>, NoMemory>
    ensures { (nest : marks.Nest) → Moves result context.new (code.on_default at (marks.above (frame_of frame) nest (stack_of context.old.stack)) context.old.names) }
{
    match frame {
        Frame::Group {
            groups,
            labels,
            items,
        } => {
            let label = label_behind(alloc, groups, labels, items)?;
            pushed(Mode::AfterDefault { at }, label, context)
        }
        other => {
            drop(other);
            Ok(None)
        }
    }
}

// A `default` among items, which only those of a `switch` take.
fn on_default(alloc: Global, at: u32, context: &mut Context) -> Result<Option<Mode>, NoMemory>
    ensures { Moves result context.new (code.on_default at (stack_of context.old.stack) context.old.names) }
{
    match context.stack.pop() {
        Some(frame) => on_default_in(alloc, at, frame, context),
        None => Ok(None),
    }
}

// A declaration or a statement.
fn on_item(alloc: Global, context: &mut Context, token: &Token) -> Result<Option<Mode>, NoMemory>
    ensures { Moves result context.new (code.on_item (stack_of context.old.stack) context.old.names (token_of token.now)) }
{
    if begins_declaration(&context.names, token) {
        declaration_on(alloc, context, token)
    } else {
        on_statement(alloc, context, token)
    }
}

/// Among items.
pub fn on_items(
    alloc: Global,
    context: &mut Context,
    token: &Token,
) -> Result<Option<Mode>, NoMemory>
    ensures { Moves result context.new (code.on_items (stack_of context.old.stack) context.old.names (token_of token.now)) }
{
    if is_right_brace(token) {
        return items_end(alloc, context);
    }
    if is_case(token) {
        return on_case(alloc, token.at, context);
    }
    if is_default(token) {
        return on_default(alloc, token.at, context);
    }
    on_item(alloc, context, token)
}

// Among items, inside a frame.
fn items_in(
    alloc: Global,
    frame: Frame,
    context: &mut Context,
    token: &Token,
) -> Result<Option<Mode>, NoMemory>
    ensures { Moves result context.new (code.on_items (marks.push (frame_of frame) (stack_of context.old.stack)) context.old.names (token_of token.now)) }
{
    context.stack.push(frame)?;
    on_items(alloc, context, token)
}

// Behind the body of a `do`.
fn behind_body(at: u32, body: StatementPart, token: &Token) -> Option<Mode>
    ensures { (stack : marks.Stack) (names : List Identifier) → reached result stack names ≡ code.end_if (code.is_while (token_of token.now)) (code.in_do_condition at (statement_part_of body)) stack names }
{
    end_if(is_while(token), Mode::DoCondition { at, body })
}

// Behind a statement, the frame that it stands in being taken off.
#[cycle(after)]
fn on_after_in(
    alloc: Global,
    statement: StatementPart,
    frame: Frame,
    context: &mut Context,
    token: &Token,
) -> Result<Option<Mode>, NoMemory>
    ensures { (nest : marks.Nest) → Moves result context.new (code.on_after (statement_part_of statement) (marks.above (frame_of frame) nest (stack_of context.old.stack)) context.old.names (token_of token.now)) }
{
    match frame {
        Frame::Then { at, condition } => {
            if is_else(token) {
                let frame = Frame::Else {
                    at,
                    condition,
                    if_true: statement,
                };
                return pushed(Mode::Statement, frame, context);
            }
            let whole = if_part(alloc, at, condition, statement)?;
            on_after(alloc, whole, context, token)
        }
        Frame::Else {
            at,
            condition,
            if_true,
        } => {
            let whole = if_else_part(alloc, at, condition, if_true, statement)?;
            on_after(alloc, whole, context, token)
        }
        Frame::WhileBody { at, condition } => {
            let whole = while_part(alloc, at, condition, statement)?;
            on_after(alloc, whole, context, token)
        }
        Frame::DoBody { at } => Ok(behind_body(at, statement, token)),
        Frame::ForBody {
            at,
            first,
            condition,
            update,
        } => {
            let whole = for_part(alloc, at, first, condition, update, statement)?;
            on_after(alloc, whole, context, token)
        }
        Frame::Block { at, items } => {
            let items = add_statement(items, statement)?;
            items_in(alloc, Frame::Block { at, items }, context, token)
        }
        Frame::Function {
            specifiers,
            declarator,
            body_at,
            items,
        } => {
            let Ok(items) = add_statement(items, statement) else {
                drop(specifiers);
                drop(declarator);
                return Err(NoMemory);
            };
            let function = Frame::Function {
                specifiers,
                declarator,
                body_at,
                items,
            };
            items_in(alloc, function, context, token)
        }
        Frame::Group {
            groups,
            labels,
            items,
        } => {
            let Ok(items) = add_statement(items, statement) else {
                drop(groups);
                drop(labels);
                return Err(NoMemory);
            };
            let group = Frame::Group {
                groups,
                labels,
                items,
            };
            items_in(alloc, group, context, token)
        }
        other => {
            drop(other);
            drop(statement);
            Ok(None)
        }
    }
}

/// Behind a statement: what stands before takes it.
#[cycle(after)]
pub fn on_after(
    alloc: Global,
    statement: StatementPart,
    context: &mut Context,
    token: &Token,
) -> Result<Option<Mode>, NoMemory>
    ensures { Moves result context.new (code.on_after (statement_part_of statement) (stack_of context.old.stack) context.old.names (token_of token.now)) }
{
    match context.stack.pop() {
        Some(frame) => on_after_in(alloc, statement, frame, context, token),
        None => {
            drop(statement);
            Ok(None)
        }
    }
}

/// Where the labels of a `switch` begin.
pub fn on_labels(
    alloc: Global,
    context: &mut Context,
    token: &Token,
) -> Result<Option<Mode>, NoMemory>
    ensures { Moves result context.new (code.on_labels (stack_of context.old.stack) context.old.names (token_of token.now)) }
{
    let groups = no_group(alloc);
    if is_right_brace(token) {
        return Ok(groups_end(groups, context));
    }
    let labels = no_label(alloc);
    let at = token.at;
    if is_case(token) {
        context.stack.push(Frame::Label { groups, labels })?;
        return operand_on(Frame::Case { at }, context);
    }
    if is_default(token) {
        return pushed(
            Mode::AfterDefault { at },
            Frame::Label { groups, labels },
            context,
        );
    }
    drop(groups);
    drop(labels);
    Ok(None)
}

/// Behind `default`.
pub fn on_after_default(
    alloc: Global,
    at: u32,
    context: &mut Context,
    token: &Token,
) -> Result<Option<Mode>, NoMemory>
    ensures { Moves result context.new (code.on_after_default at (stack_of context.old.stack) context.old.names (token_of token.now)) }
{
    if is_colon(token) {
        labelled(alloc, default_part(at), context)
    } else {
        Ok(None)
    }
}
