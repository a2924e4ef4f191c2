//! Brackets and parameters behind a declarator.

ghost use Rattle.std.specs.Prelude.{◌≡◌, IfOk, List};
ghost use Rattle.c_frames.specs.Frames.{frame_of, stack_of};
ghost use Rattle.c_frames.specs.Readers.{Moves, reached, token_of};
ghost use Rattle.c_grammar.specs.Tokens.{Identifier};
ghost use Rattle.c_reading.specs.Code as code;
ghost use Rattle.c_reading.specs.Frames as marks;

use crate::declarator::on_abstract;
use crate::expr::on_operand;
use crate::specifiers::on_specifiers;
use c_frames::{
    Context, Frame, Mode, SuffixedPart, Token, array_end, begins_type, is_right_bracket,
    is_right_paren, parameters_end,
};
use c_parts::{abstract_function_part, left_out_part, no_abstract, no_parameter, no_specifier};
use std::alloc::Global;
use tso_words::NoMemory;

// Brackets without a length, their frame being taken off.
fn no_length_end_in(alloc: Global, frame: Frame) -> Result<Option<Mode>, NoMemory>
    ensures { (nest : marks.Nest) (stack : marks.Stack) (names : List Identifier) → IfOk result (λ next. reached next stack names ≡ code.no_length_end (marks.above (frame_of frame) nest stack) names) }
{
    match frame {
        Frame::Length(suffixed) => {
            let mode = array_end(alloc, suffixed, left_out_part())?;
            Ok(Some(mode))
        }
        other => {
            drop(other);
            Ok(None)
        }
    }
}

// Brackets without a length.
fn no_length_end(alloc: Global, context: &mut Context) -> Result<Option<Mode>, NoMemory>
    ensures { Moves result context.new (code.no_length_end (stack_of context.old.stack) context.old.names) }
{
    match context.stack.pop() {
        Some(frame) => no_length_end_in(alloc, frame),
        None => Ok(None),
    }
}

/// Behind `[`.
pub fn on_length(
    alloc: Global,
    context: &mut Context,
    token: &Token,
) -> Result<Option<Mode>, NoMemory>
    ensures { Moves result context.new (code.on_length (stack_of context.old.stack) context.old.names (token_of token.now)) }
{
    if is_right_bracket(token) {
        return no_length_end(alloc, context);
    }
    on_operand(context, token)
}

/// Behind `(` where parameters stand.
pub fn on_parameters(
    alloc: Global,
    context: &mut Context,
    token: &Token,
) -> Result<Option<Mode>, NoMemory>
    ensures { Moves result context.new (code.on_parameters (stack_of context.old.stack) context.old.names (token_of token.now)) }
{
    if is_right_paren(token) {
        return parameters_end(alloc, no_parameter(alloc), context);
    }
    context.stack.push(Frame::Parameter(no_parameter(alloc)))?;
    on_specifiers(alloc, no_specifier(alloc), context, token)
}

/// Behind `(` where an abstract declarator may stand: parameters, or a declarator of either kind.
pub fn on_opened(
    alloc: Global,
    context: &mut Context,
    token: &Token,
) -> Result<Option<Mode>, NoMemory>
    ensures { Moves result context.new (code.on_opened (stack_of context.old.stack) context.old.names (token_of token.now)) }
{
    if is_right_paren(token) {
        let whole = abstract_function_part(alloc, no_abstract(alloc), no_parameter(alloc))?;
        return Ok(Some(Mode::AfterAbstract(whole)));
    }
    if begins_type(&context.names, token) {
        let suffixed = SuffixedPart::Abstract(no_abstract(alloc));
        context.stack.push(Frame::Parameters(suffixed))?;
        context.stack.push(Frame::Parameter(no_parameter(alloc)))?;
        return on_specifiers(alloc, no_specifier(alloc), context, token);
    }
    context.stack.push(Frame::Open)?;
    on_abstract(alloc, context, token)
}
