//! Behind the items of a block and of a `switch`.

ghost use Rattle.std.specs.Prelude.{◌≡◌, List, OnOk};
ghost use Rattle.c_frames.specs.Frames.{frame_of, stack_of};
ghost use Rattle.c_frames.specs.Readers.{Moves, reached};
ghost use Rattle.c_grammar.specs.Tokens.{Identifier};
ghost use Rattle.c_parts.specs.Views.{declarator_part_of, file_part_of, groups_part_of, items_part_of, label_part_of, specifiers_part_of};
ghost use Rattle.c_reading.specs.Code as code;
ghost use Rattle.c_reading.specs.Frames as marks;
ghost use Rattle.c_reading.specs.Parts as part;

use crate::frame::Frame;
use crate::mode::{Context, Mode};
use crate::stack::Stack;
use crate::states::pushed;
use c_parts::{
    DeclaratorPart, GroupsPart, ItemsPart, LabelPart, SpecifiersPart, add_function, add_group,
    add_label, block_part, no_file, no_item, switch_part,
};
use std::alloc::Global;
use std::mem;
use tso_words::NoMemory;

// Behind the `}` of a `switch`, the frame being taken off.
fn groups_end_in(groups: GroupsPart, frame: Frame) -> Option<Mode>
    ensures { (nest : marks.Nest) (stack : marks.Stack) (names : List Identifier) → reached result stack names ≡ code.groups_end (groups_part_of groups) (marks.above (frame_of frame) nest stack) names }
{
    match frame {
        Frame::Groups { at, selector } => {
            Some(Mode::AfterStatement(switch_part(at, selector, groups)))
        }
        other => {
            drop(other);
            drop(groups);
            None
        }
    }
}

/// Behind the `}` of a `switch`.
pub fn groups_end(groups: GroupsPart, context: &mut Context) -> Option<Mode>
    ensures { reached result (stack_of context.new.stack) context.new.names ≡ code.groups_end (groups_part_of groups) (stack_of context.old.stack) context.old.names }
{
    match context.stack.pop() {
        Some(frame) => groups_end_in(groups, frame),
        None => {
            drop(groups);
            None
        }
    }
}

// The file with one function more, where no frame is left.
#[tactic(auto, using(crate::proofs::Bottom::still_bottom))]
fn defined_in_file(
    alloc: Global,
    specifiers: SpecifiersPart,
    declarator: DeclaratorPart,
    body_at: u32,
    items: ItemsPart,
    stack: &mut Stack,
) -> Result<(), NoMemory>
    requires { stack_of stack.old ≡ marks.bottom (file_part_of stack.old.file) }
    ensures { OnOk result (stack_of stack.new ≡ marks.bottom (part.add_function (file_part_of stack.old.file) (specifiers_part_of specifiers) (declarator_part_of declarator) body_at (items_part_of items))) }
{
    let file = mem::replace(&mut stack.file, no_file(alloc));
    stack.file = add_function(file, specifiers, declarator, body_at, items)?;
    Ok(())
}

// Behind the `}` of a function's body, which stands in the file.
fn function_ends(
    alloc: Global,
    specifiers: SpecifiersPart,
    declarator: DeclaratorPart,
    body_at: u32,
    items: ItemsPart,
    context: &mut Context,
) -> Result<Option<Mode>, NoMemory>
    ensures { (n : marks.Nest) → Moves result context.new (code.items_end (marks.above (marks.function_frame (specifiers_part_of specifiers) (declarator_part_of declarator) body_at (items_part_of items)) n (stack_of context.old.stack)) context.old.names) }
{
    match context.stack.pop() {
        None => {
            let stack = &mut context.stack;
            defined_in_file(alloc, specifiers, declarator, body_at, items, stack)?;
            Ok(Some(Mode::File))
        }
        Some(frame) => {
            drop(frame);
            drop(specifiers);
            drop(declarator);
            drop(items);
            Ok(None)
        }
    }
}

// Behind the `}` that ends items, the frame being taken off.
fn items_end_in(
    alloc: Global,
    frame: Frame,
    context: &mut Context,
) -> Result<Option<Mode>, NoMemory>
    ensures { (nest : marks.Nest) → Moves result context.new (code.items_end (marks.above (frame_of frame) nest (stack_of context.old.stack)) context.old.names) }
{
    match frame {
        Frame::Block { at, items } => Ok(Some(Mode::AfterStatement(block_part(at, items)))),
        Frame::Function {
            specifiers,
            declarator,
            body_at,
            items,
        } => function_ends(alloc, specifiers, declarator, body_at, items, context),
        Frame::Group {
            groups,
            labels,
            items,
        } => Ok(groups_end(add_group(groups, labels, items)?, context)),
        other => {
            drop(other);
            Ok(None)
        }
    }
}

/// Behind the `}` that ends items.
pub fn items_end(alloc: Global, context: &mut Context) -> Result<Option<Mode>, NoMemory>
    ensures { Moves result context.new (code.items_end (stack_of context.old.stack) context.old.names) }
{
    match context.stack.pop() {
        Some(frame) => items_end_in(alloc, frame, context),
        None => Ok(None),
    }
}

// Behind the `:` of a label, the frame being taken off.
fn labelled_in(
    alloc: Global,
    label: LabelPart,
    frame: Frame,
    context: &mut Context,
) -> Result<Option<Mode>, NoMemory>
    ensures { (nest : marks.Nest) → Moves result context.new (code.labelled (label_part_of label) (marks.above (frame_of frame) nest (stack_of context.old.stack)) context.old.names) }
{
    match frame {
        Frame::Label { groups, labels } => {
            let Ok(labels) = add_label(labels, label) else {
                drop(groups);
                return Err(NoMemory);
            };
            let group = Frame::Group {
                groups,
                labels,
                items: no_item(alloc),
            };
            pushed(Mode::Items, group, context)
        }
        other => {
            drop(other);
            drop(label);
            Ok(None)
        }
    }
}

/// Behind the `:` of a label.
pub fn labelled(
    alloc: Global,
    label: LabelPart,
    context: &mut Context,
) -> Result<Option<Mode>, NoMemory>
    ensures { Moves result context.new (code.labelled (label_part_of label) (stack_of context.old.stack) context.old.names) }
{
    match context.stack.pop() {
        Some(frame) => labelled_in(alloc, label, frame, context),
        None => {
            drop(label);
            Ok(None)
        }
    }
}
