//! The states behind a token.

ghost use Rattle.std.specs.Prelude.{◌≡◌, List};
ghost use Rattle.c_frames.specs.Frames.{frame_of, stack_of};
ghost use Rattle.c_frames.specs.Readers.{Moves, mode_of, reached};
ghost use Rattle.c_grammar.specs.Tokens.{Identifier};
ghost use Rattle.c_reading.specs.Code as code;
ghost use Rattle.c_reading.specs.Frames as marks;

use crate::frame::Frame;
use crate::mode::{Context, Mode};
use tso_words::NoMemory;

/// The mode, inside a frame.
pub fn pushed(mode: Mode, frame: Frame, context: &mut Context) -> Result<Option<Mode>, NoMemory>
    ensures { Moves result context.new (code.goes (mode_of mode) (marks.push (frame_of frame) (stack_of context.old.stack)) context.old.names) }
{
    match context.stack.push(frame) {
        Ok(()) => Ok(Some(mode)),
        Err(no_memory) => {
            drop(mode);
            Err(no_memory)
        }
    }
}

/// Where an operand is wanted, inside a frame.
pub fn operand_on(frame: Frame, context: &mut Context) -> Result<Option<Mode>, NoMemory>
    ensures { Moves result context.new (code.operand_on (frame_of frame) (stack_of context.old.stack) context.old.names) }
{
    context.stack.push(frame)?;
    Ok(Some(Mode::Expression))
}

/// The mode where the token ends what stands before, else none.
pub fn end_if(is_end: bool, mode: Mode) -> Option<Mode>
    ensures { (stack : marks.Stack) (names : List Identifier) → reached result stack names ≡ code.end_if is_end (mode_of mode) stack names }
{
    if is_end {
        Some(mode)
    } else {
        drop(mode);
        None
    }
}

/// The mode, inside a frame, where the token ends what stands before.
pub fn pushed_if(
    is_end: bool,
    mode: Mode,
    frame: Frame,
    context: &mut Context,
) -> Result<Option<Mode>, NoMemory>
    ensures { Moves result context.new (code.end_if is_end (mode_of mode) (marks.push (frame_of frame) (stack_of context.old.stack)) context.old.names) }
{
    if is_end {
        pushed(mode, frame, context)
    } else {
        drop(mode);
        drop(frame);
        Ok(None)
    }
}
