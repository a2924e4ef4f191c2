//! Behind declarations.

ghost use Rattle.std.specs.Prelude.{◌≡◌, OnOk};
ghost use Rattle.c_frames.specs.Frames.{frame_of, stack_of};
ghost use Rattle.c_frames.specs.Readers.{Moves, token_of};
ghost use Rattle.c_parts.specs.Views.{declaration_part_of, declarator_part_of, file_part_of, inits_part_of, items_part_of, specifiers_part_of};
ghost use Rattle.c_reading.specs.Code as code;
ghost use Rattle.c_reading.specs.Frames as marks;
ghost use Rattle.c_reading.specs.Parts as part;

use crate::frame::{Entry, Frame};
use crate::kinds::{is_comma, is_semicolon};
use crate::mode::{Context, Mode};
use crate::stack::Stack;
use crate::states::pushed;
use crate::token::Token;
use c_parts::{
    DeclarationPart, DeclaratorPart, InitsPart, ItemsPart, SpecifiersPart, add_declaration,
    add_external_declaration, declaration_part, first_declaration_part, no_file,
};
use std::alloc::Global;
use std::mem;
use tso_words::NoMemory;

// The file with one declaration more, where no frame is left.
#[tactic(auto, using(crate::proofs::Bottom::still_bottom))]
fn declared_in_file(
    alloc: Global,
    declaration: DeclarationPart,
    stack: &mut Stack,
) -> Result<(), NoMemory>
    requires { stack_of stack.old ≡ marks.bottom (file_part_of stack.old.file) }
    ensures { OnOk result (stack_of stack.new ≡ marks.bottom (part.add_external_declaration (file_part_of stack.old.file) (declaration_part_of declaration))) }
{
    let file = mem::replace(&mut stack.file, no_file(alloc));
    stack.file = add_external_declaration(file, declaration)?;
    Ok(())
}

// Behind a declaration in a function's body, whose frame was taken off.
fn declared_in_function(
    declaration: DeclarationPart,
    specifiers: SpecifiersPart,
    declarator: DeclaratorPart,
    body_at: u32,
    items: ItemsPart,
    context: &mut Context,
) -> Result<Option<Mode>, NoMemory>
    ensures { (nest : marks.Nest) → Moves result context.new (code.declared (declaration_part_of declaration) (marks.above (marks.function_frame (specifiers_part_of specifiers) (declarator_part_of declarator) body_at (items_part_of items)) nest (stack_of context.old.stack)) context.old.names) }
{
    let Ok(items) = add_declaration(items, declaration) else {
        drop(specifiers);
        drop(declarator);
        return Err(NoMemory);
    };
    let function = Frame::Function {
        specifiers,
        declarator,
        body_at,
        items,
    };
    pushed(Mode::Items, function, context)
}

// Behind a declaration, the frame that it stands in being taken off.
fn declared_in(
    declaration: DeclarationPart,
    frame: Frame,
    context: &mut Context,
) -> Result<Option<Mode>, NoMemory>
    ensures { (nest : marks.Nest) → Moves result context.new (code.declared (declaration_part_of declaration) (marks.above (frame_of frame) nest (stack_of context.old.stack)) context.old.names) }
{
    match frame {
        Frame::Block { at, items } => {
            let items = add_declaration(items, declaration)?;
            pushed(Mode::Items, Frame::Block { at, items }, context)
        }
        Frame::Function {
            specifiers,
            declarator,
            body_at,
            items,
        } => { declared_in_function(declaration, specifiers, declarator, body_at, items, context) }
        Frame::Group {
            groups,
            labels,
            items,
        } => {
            let Ok(items) = add_declaration(items, declaration) else {
                drop(groups);
                drop(labels);
                return Err(NoMemory);
            };
            let group = Frame::Group {
                groups,
                labels,
                items,
            };
            pushed(Mode::Items, group, context)
        }
        Frame::ForHead { at } => {
            let first = first_declaration_part(declaration);
            Ok(Some(Mode::ForTest { at, first }))
        }
        other => {
            drop(other);
            drop(declaration);
            Ok(None)
        }
    }
}

/// Behind a declaration: it stands in the file, among items, or in the head of a `for`.
pub fn declared(
    alloc: Global,
    declaration: DeclarationPart,
    context: &mut Context,
) -> Result<Option<Mode>, NoMemory>
    ensures { Moves result context.new (code.declared (declaration_part_of declaration) (stack_of context.old.stack) context.old.names) }
{
    match context.stack.pop() {
        Some(frame) => declared_in(declaration, frame, context),
        None => {
            declared_in_file(alloc, declaration, &mut context.stack)?;
            Ok(Some(Mode::File))
        }
    }
}

// Whether the head of a `for` is wanted.
fn is_for_head(stack: &Stack) -> bool
    ensures { result ≡ code.is_for_head (stack_of stack.now) }
{
    match stack.entries.top() {
        Some(
            Entry {
                frame: Frame::ForHead { .. },
                ..
            },
        ) => true,
        _ => false,
    }
}

/// Behind specifiers with no declarators, which a `for` does not take.
pub fn declared_alone(
    alloc: Global,
    declaration: DeclarationPart,
    context: &mut Context,
) -> Result<Option<Mode>, NoMemory>
    ensures { Moves result context.new (code.declared_alone (declaration_part_of declaration) (stack_of context.old.stack) context.old.names) }
{
    if is_for_head(&context.stack) {
        drop(declaration);
        Ok(None)
    } else {
        declared(alloc, declaration, context)
    }
}

/// Behind a declarator with its initializer.
pub fn on_init_declarator(
    alloc: Global,
    specifiers: SpecifiersPart,
    inits: InitsPart,
    context: &mut Context,
    token: &Token,
) -> Result<Option<Mode>, NoMemory>
    ensures { Moves result context.new (code.on_init_declarator (specifiers_part_of specifiers) (inits_part_of inits) (stack_of context.old.stack) context.old.names (token_of token.now)) }
{
    if is_semicolon(token) {
        return declared(alloc, declaration_part(specifiers, inits)?, context);
    }
    if is_comma(token) {
        return pushed(Mode::Declarator, Frame::Init { specifiers, inits }, context);
    }
    drop(specifiers);
    drop(inits);
    Ok(None)
}
