//! Behind the brackets and the parameters of a declarator, and the constants of an enum.

ghost use Rattle.std.specs.Prelude.{◌≡◌, IfOk, List};
ghost use Rattle.c_frames.specs.Frames.{frame_of, stack_of, suffixed_of};
ghost use Rattle.c_frames.specs.Readers.{Moves, mode_of, reached};
ghost use Rattle.c_grammar.specs.Tokens.{Identifier};
ghost use Rattle.c_parts.specs.Views.{enumerators_part_of, maybe_part_of, parameters_part_of};
ghost use Rattle.c_reading.specs.Code as code;
ghost use Rattle.c_reading.specs.Frames as marks;

use crate::frame::{Frame, SuffixedPart};
use crate::mode::{Context, Mode};
use c_parts::{
    EnumeratorsPart, MaybePart, ParametersPart, abstract_array_part, abstract_function_part,
    add_enumeration, array_part, function_part,
};
use std::alloc::Global;
use tso_words::NoMemory;

/// Behind the `]` of a length.
pub fn array_end(alloc: Global, suffixed: SuffixedPart, length: MaybePart) -> Result<Mode, NoMemory>
    ensures { IfOk result (λ mode. (stack : marks.Stack) (names : List Identifier) → code.goes (mode_of mode) stack names ≡ code.array_end (suffixed_of suffixed) (maybe_part_of length) stack names) }
{
    match suffixed {
        SuffixedPart::Named(declarator) => {
            let array = array_part(alloc, declarator, length)?;
            Ok(Mode::AfterDeclarator(array))
        }
        SuffixedPart::Abstract(declarator) => {
            let array = abstract_array_part(alloc, declarator, length)?;
            Ok(Mode::AfterAbstract(array))
        }
    }
}

/// Behind the `)` of parameters.
pub fn function_end(
    alloc: Global,
    suffixed: SuffixedPart,
    parameters: ParametersPart,
) -> Result<Mode, NoMemory>
    ensures { IfOk result (λ mode. (stack : marks.Stack) (names : List Identifier) → code.goes (mode_of mode) stack names ≡ code.function_end (suffixed_of suffixed) (parameters_part_of parameters) stack names) }
{
    match suffixed {
        SuffixedPart::Named(declarator) => {
            let function = function_part(alloc, declarator, parameters)?;
            Ok(Mode::AfterDeclarator(function))
        }
        SuffixedPart::Abstract(declarator) => {
            let function = abstract_function_part(alloc, declarator, parameters)?;
            Ok(Mode::AfterAbstract(function))
        }
    }
}

// Behind the `)` of parameters, the frame being taken off.
fn parameters_end_in(
    alloc: Global,
    parameters: ParametersPart,
    frame: Frame,
) -> Result<Option<Mode>, NoMemory>
    ensures { (nest : marks.Nest) (stack : marks.Stack) (names : List Identifier) → IfOk result (λ next. reached next stack names ≡ code.parameters_end (parameters_part_of parameters) (marks.above (frame_of frame) nest stack) names) }
{
    match frame {
        Frame::Parameters(suffixed) => {
            let mode = function_end(alloc, suffixed, parameters)?;
            Ok(Some(mode))
        }
        other => {
            drop(other);
            drop(parameters);
            Ok(None)
        }
    }
}

/// Behind the `)` of parameters, which the frame on top is of.
pub fn parameters_end(
    alloc: Global,
    parameters: ParametersPart,
    context: &mut Context,
) -> Result<Option<Mode>, NoMemory>
    ensures { Moves result context.new (code.parameters_end (parameters_part_of parameters) (stack_of context.old.stack) context.old.names) }
{
    match context.stack.pop() {
        Some(frame) => parameters_end_in(alloc, parameters, frame),
        None => {
            drop(parameters);
            Ok(None)
        }
    }
}

// Behind the `}` of an enum's constants, the frame being taken off.
fn enumeration_end_in(enumerators: EnumeratorsPart, frame: Frame) -> Result<Option<Mode>, NoMemory>
    ensures { (nest : marks.Nest) (stack : marks.Stack) (names : List Identifier) → IfOk result (λ next. reached next stack names ≡ code.enumeration_end (enumerators_part_of enumerators) (marks.above (frame_of frame) nest stack) names) }
{
    match frame {
        Frame::Enum {
            specifiers,
            at,
            tag,
            body_at,
        } => {
            let whole = add_enumeration(specifiers, at, tag, body_at, enumerators)?;
            Ok(Some(Mode::Specifiers(whole)))
        }
        other => {
            drop(other);
            drop(enumerators);
            Ok(None)
        }
    }
}

/// Behind the `}` of an enum's constants.
pub fn enumeration_end(
    enumerators: EnumeratorsPart,
    context: &mut Context,
) -> Result<Option<Mode>, NoMemory>
    ensures { Moves result context.new (code.enumeration_end (enumerators_part_of enumerators) (stack_of context.old.stack) context.old.names) }
{
    match context.stack.pop() {
        Some(frame) => enumeration_end_in(enumerators, frame),
        None => {
            drop(enumerators);
            Ok(None)
        }
    }
}
