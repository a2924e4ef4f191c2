//! Behind the `=` of a declarator.

ghost use Rattle.c_frames.specs.Frames.{frame_of, stack_of};
ghost use Rattle.c_frames.specs.Readers.{Moves, token_of};
ghost use Rattle.c_parts.specs.Views.{arguments_part_of, expr_part_of};
ghost use Rattle.c_reading.specs.Code as code;
ghost use Rattle.c_reading.specs.Frames as marks;

use crate::statement::operand_in;
use c_frames::{
    Context, Frame, Mode, Token, is_left_brace, is_right_brace, on_init_declarator, operand_on,
};
use c_parts::{ArgumentsPart, ExprPart, add_argument, add_init, list_part, no_argument};
use c_states::on_operand;
use std::alloc::Global;
use tso_words::NoMemory;

/// Behind `=`.
pub fn on_initializer(
    alloc: Global,
    context: &mut Context,
    token: &Token,
) -> Result<Option<Mode>, NoMemory>
    ensures { Moves result context.new (code.on_initializer (stack_of context.old.stack) context.old.names (token_of token.now)) }
{
    if is_left_brace(token) {
        let list = Frame::List {
            at: token.at,
            values: no_argument(alloc),
        };
        return operand_on(list, context);
    }
    on_operand(context, token)
}

// Behind a comma of a list, its frame being taken off.
fn on_list_comma_in(
    alloc: Global,
    value: ExprPart,
    frame: Frame,
    context: &mut Context,
    token: &Token,
) -> Result<Option<Mode>, NoMemory>
    ensures { (nest : marks.Nest) → Moves result context.new (code.on_list_comma (expr_part_of value) (marks.above (frame_of frame) nest (stack_of context.old.stack)) context.old.names (token_of token.now)) }
{
    match frame {
        Frame::List { at, values } => {
            let values = add_argument(values, value)?;
            if is_right_brace(token) {
                return Ok(Some(Mode::AfterList { at, values }));
            }
            operand_in(alloc, Frame::List { at, values }, context, token)
        }
        other => {
            drop(other);
            drop(value);
            Ok(None)
        }
    }
}

/// Behind a comma of a list, whose last value this is.
pub fn on_list_comma(
    alloc: Global,
    value: ExprPart,
    context: &mut Context,
    token: &Token,
) -> Result<Option<Mode>, NoMemory>
    ensures { Moves result context.new (code.on_list_comma (expr_part_of value) (stack_of context.old.stack) context.old.names (token_of token.now)) }
{
    match context.stack.pop() {
        Some(frame) => on_list_comma_in(alloc, value, frame, context, token),
        None => {
            drop(value);
            Ok(None)
        }
    }
}

// Behind the `}` of a list, the frame of its declarator being taken off.
fn on_after_list_in(
    alloc: Global,
    at: u32,
    values: ArgumentsPart,
    frame: Frame,
    context: &mut Context,
    token: &Token,
) -> Result<Option<Mode>, NoMemory>
    ensures { (nest : marks.Nest) → Moves result context.new (code.on_after_list at (arguments_part_of values) (marks.above (frame_of frame) nest (stack_of context.old.stack)) context.old.names (token_of token.now)) }
{
    match frame {
        Frame::Initializer {
            specifiers,
            inits,
            declarator,
        } => {
            let Ok(inits) = add_init(inits, declarator, list_part(at, values)) else {
                drop(specifiers);
                return Err(NoMemory);
            };
            on_init_declarator(alloc, specifiers, inits, context, token)
        }
        other => {
            drop(other);
            drop(values);
            Ok(None)
        }
    }
}

/// Behind the `}` of a list.
pub fn on_after_list(
    alloc: Global,
    at: u32,
    values: ArgumentsPart,
    context: &mut Context,
    token: &Token,
) -> Result<Option<Mode>, NoMemory>
    ensures { Moves result context.new (code.on_after_list at (arguments_part_of values) (stack_of context.old.stack) context.old.names (token_of token.now)) }
{
    match context.stack.pop() {
        Some(frame) => on_after_list_in(alloc, at, values, frame, context, token),
        None => Ok(None),
    }
}
