//! Behind a whole expression: the token that ends what it stands in.

ghost use Rattle.std.specs.Prelude.{◌≡◌, IfOk, List, false};
ghost use Rattle.c_frames.specs.Frames.{frame_of, stack_of, suffixed_of};
ghost use Rattle.c_frames.specs.Readers.{Moves, reached, token_of};
ghost use Rattle.c_parts.specs.Views.{arguments_part_of, expr_part_of};
ghost use Rattle.c_grammar.specs.Tokens.{Identifier};
ghost use Rattle.c_reading.specs.Code as code;
ghost use Rattle.c_reading.specs.Frames as marks;
ghost use Rattle.c_states.specs.Holes.{is_in_expression};

use crate::specifiers::on_enumerator_value;
use c_frames::{
    Context, Frame, Mode, SuffixedPart, Token, array_end, end_if, is_colon, is_comma,
    is_right_brace, is_right_bracket, is_right_paren, is_semicolon, labelled, on_init_declarator,
    operand_on, pushed, pushed_if,
};
use c_parts::{
    ArgumentsPart, ExprPart, add_argument, add_enumerator, add_init, call_part, case_part,
    expression_part, first_expression_part, index_part, parentheses_part, return_part,
    some_expression, stated_part, value_part,
};
use std::alloc::Global;
use tso_words::NoMemory;

// Behind an argument.
fn on_argument(
    alloc: Global,
    callee: ExprPart,
    at: u32,
    arguments: ArgumentsPart,
    context: &mut Context,
    token: &Token,
) -> Result<Option<Mode>, NoMemory>
    ensures { Moves result context.new (code.on_argument (expr_part_of callee) at (arguments_part_of arguments) (stack_of context.old.stack) context.old.names (token_of token.now)) }
{
    if is_comma(token) {
        let frame = Frame::Argument {
            callee,
            at,
            arguments,
        };
        return operand_on(frame, context);
    }
    let whole = call_part(alloc, callee, at, arguments)?;
    Ok(end_if(is_right_paren(token), Mode::AfterPostfix(whole)))
}

// Behind a value of a list.
fn on_list_item(
    at: u32,
    values: ArgumentsPart,
    value: ExprPart,
    context: &mut Context,
    token: &Token,
) -> Result<Option<Mode>, NoMemory>
    ensures { Moves result context.new (code.on_list_item at (arguments_part_of values) (expr_part_of value) (stack_of context.old.stack) context.old.names (token_of token.now)) }
{
    if is_comma(token) {
        return pushed(
            Mode::AfterListComma(value),
            Frame::List { at, values },
            context,
        );
    }
    let values = add_argument(values, value)?;
    Ok(end_if(is_right_brace(token), Mode::AfterList { at, values }))
}

// Behind the middle of a conditional expression.
fn on_middle(
    condition: ExprPart,
    at: u32,
    if_true: ExprPart,
    context: &mut Context,
    token: &Token,
) -> Result<Option<Mode>, NoMemory>
    ensures { Moves result context.new (code.on_hole (marks.middle_frame (expr_part_of condition) at) (expr_part_of if_true) (stack_of context.old.stack) context.old.names (token_of token.now)) }
{
    if !is_colon(token) {
        drop(condition);
        drop(if_true);
        return Ok(None);
    }
    let frame = Frame::Conditional {
        condition,
        at,
        if_true,
    };
    operand_on(frame, context)
}

// Behind a length.
fn on_array_length(
    alloc: Global,
    suffixed: SuffixedPart,
    length: ExprPart,
    token: &Token,
) -> Result<Option<Mode>, NoMemory>
    ensures { (stack : marks.Stack) (names : List Identifier) → IfOk result (λ next. reached next stack names ≡ code.on_hole (marks.length_frame (suffixed_of suffixed)) (expr_part_of length) stack names (token_of token.now)) }
{
    if !is_right_bracket(token) {
        drop(suffixed);
        drop(length);
        return Ok(None);
    }
    let Ok(length) = stated_part(alloc, length) else {
        drop(suffixed);
        return Err(NoMemory);
    };
    let mode = array_end(alloc, suffixed, length)?;
    Ok(Some(mode))
}

// Behind the value of a `case`.
fn on_case_value(
    alloc: Global,
    at: u32,
    value: ExprPart,
    context: &mut Context,
    token: &Token,
) -> Result<Option<Mode>, NoMemory>
    ensures { Moves result context.new (code.on_hole (marks.case_frame at) (expr_part_of value) (stack_of context.old.stack) context.old.names (token_of token.now)) }
{
    if !is_colon(token) {
        drop(value);
        return Ok(None);
    }
    labelled(alloc, case_part(at, value), context)
}

/// Behind a whole expression, the frame being taken off.
pub fn on_hole(
    alloc: Global,
    frame: Frame,
    e: ExprPart,
    context: &mut Context,
    token: &Token,
) -> Result<Option<Mode>, NoMemory>
    ensures { Moves result context.new (code.on_hole (frame_of frame) (expr_part_of e) (stack_of context.old.stack) context.old.names (token_of token.now)) }
{
    match frame {
        Frame::Parentheses { at } => {
            let mode = Mode::AfterPostfix(parentheses_part(at, e));
            Ok(end_if(is_right_paren(token), mode))
        }
        Frame::Index { array, at } => {
            let mode = Mode::AfterPostfix(index_part(alloc, array, at, e)?);
            Ok(end_if(is_right_bracket(token), mode))
        }
        Frame::Argument {
            callee,
            at,
            arguments,
        } => {
            let Ok(arguments) = add_argument(arguments, e) else {
                drop(callee);
                return Err(NoMemory);
            };
            on_argument(alloc, callee, at, arguments, context, token)
        }
        Frame::Middle { condition, at } => on_middle(condition, at, e, context, token),
        Frame::Length(suffixed) => on_array_length(alloc, suffixed, e, token),
        Frame::Enumerator {
            enumerators,
            at,
            name,
        } => {
            let Ok(value) = stated_part(alloc, e) else {
                drop(enumerators);
                drop(name);
                return Err(NoMemory);
            };
            let more = add_enumerator(enumerators, at, name, value)?;
            on_enumerator_value(more, context, token)
        }
        Frame::Case { at } => on_case_value(alloc, at, e, context, token),
        Frame::Initializer {
            specifiers,
            inits,
            declarator,
        } => {
            let Ok(more) = add_init(inits, declarator, value_part(e)) else {
                drop(specifiers);
                return Err(NoMemory);
            };
            on_init_declarator(alloc, specifiers, more, context, token)
        }
        Frame::List { at, values } => on_list_item(at, values, e, context, token),
        other => in_statement(other, e, context, token),
    }
}

// Behind an expression of a statement.
fn in_statement(
    frame: Frame,
    e: ExprPart,
    context: &mut Context,
    token: &Token,
) -> Result<Option<Mode>, NoMemory>
    requires { is_in_expression (frame_of frame) ≡ false }
    ensures { Moves result context.new (code.on_hole (frame_of frame) (expr_part_of e) (stack_of context.old.stack) context.old.names (token_of token.now)) }
{
    let is_paren = is_right_paren(token);
    let is_end = is_semicolon(token);
    match frame {
        Frame::Expression => { Ok(end_if(is_end, Mode::AfterStatement(expression_part(e)))) }
        Frame::Return { at } => {
            let whole = return_part(at, some_expression(e));
            Ok(end_if(is_end, Mode::AfterStatement(whole)))
        }
        Frame::If { at } => {
            let then = Frame::Then { at, condition: e };
            pushed_if(is_paren, Mode::Statement, then, context)
        }
        Frame::While { at } => {
            let body = Frame::WhileBody { at, condition: e };
            pushed_if(is_paren, Mode::Statement, body, context)
        }
        Frame::Do { at, body } => {
            let condition = e;
            Ok(end_if(
                is_paren,
                Mode::AfterDo {
                    at,
                    body,
                    condition,
                },
            ))
        }
        Frame::Switch { at } => { Ok(end_if(is_paren, Mode::SwitchBody { at, selector: e })) }
        Frame::ForFirst { at } => {
            let first = first_expression_part(e);
            Ok(end_if(is_end, Mode::ForTest { at, first }))
        }
        Frame::ForTest { at, first } => {
            let condition = some_expression(e);
            Ok(end_if(
                is_end,
                Mode::ForStep {
                    at,
                    first,
                    condition,
                },
            ))
        }
        Frame::ForStep {
            at,
            first,
            condition,
        } => {
            let body = Frame::ForBody {
                at,
                first,
                condition,
                update: some_expression(e),
            };
            pushed_if(is_paren, Mode::Statement, body, context)
        }
        other => {
            drop(other);
            drop(e);
            Ok(None)
        }
    }
}
