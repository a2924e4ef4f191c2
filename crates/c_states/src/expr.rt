//! Expressions: operands, and the operators behind them.

ghost use Rattle.std.specs.Prelude.{◌≡◌, IfOk, List};
ghost use Rattle.c_frames.specs.Frames.{frame_of, stack_of};
ghost use Rattle.c_frames.specs.Readers.{Moves, reached, token_of};
ghost use Rattle.c_parts.specs.Views.{expr_part_of};
ghost use Rattle.c_reading.specs.Code as code;
ghost use Rattle.c_states.specs.Joining.{Joins};
ghost use Rattle.c_reading.specs.Kinds.{operator_of};
ghost use Rattle.c_grammar.specs.Tokens as k;
ghost use Rattle.c_grammar.specs.Tokens.{Identifier};
ghost use Rattle.c_reading.specs.Frames as marks;
ghost use Rattle.c_tree.specs.Shape.{access_of};

use crate::hole::on_hole;
use crate::specifiers::on_specifiers;
use c_frames::{
    Context, Frame, Mode, Token, begins_type, binary_operator, binds, is_left_paren,
    is_right_paren, operand_on, unary_operator,
};
use c_parts::{
    ExprPart, assignment_part, binary_part, call_part, cast_part, conditional_part, constant_part,
    member_part, name_part, no_argument, no_specifier, sizeof_part, step_after_part,
    step_before_part, unary_part,
};
use c_reading::token::{Kind, Operator};
use c_tree::{Access, precedence};
use std::alloc::Global;
use tso_words::{Name, NoMemory};

// A name as an operand: no typedef's.
fn on_operand_name(at: u32, name: &Name, context: &Context) -> Result<Option<Mode>, NoMemory>
    ensures { Moves result context.now (code.on_operand (stack_of context.now.stack) context.now.names (k.token (k.Name name.now) at)) }
{
    if context.names.is_typedef(name) {
        return Ok(None);
    }
    let name = name.clone()?;
    Ok(Some(Mode::AfterPostfix(name_part(at, name))))
}

// An operator before its operand.
fn on_unary(operator: Operator, at: u32, context: &mut Context) -> Result<Option<Mode>, NoMemory>
    ensures { Moves result context.new (code.on_operand (stack_of context.old.stack) context.old.names (k.token (k.Op (operator_of operator)) at)) }
{
    match unary_operator(operator) {
        Some(operator) => operand_on(Frame::Unary { at, operator }, context),
        None => Ok(None),
    }
}

/// Where an operand is wanted.
pub fn on_operand(context: &mut Context, token: &Token) -> Result<Option<Mode>, NoMemory>
    ensures { Moves result context.new (code.on_operand (stack_of context.old.stack) context.old.names (token_of token.now)) }
{
    let at = token.at;
    match token.kind {
        Kind::Name => on_operand_name(at, &token.name, context),
        Kind::Constant(number) => { Ok(Some(Mode::AfterPostfix(constant_part(at, number)))) }
        Kind::Operator(operator) => on_unary(operator, at, context),
        Kind::Step(step) => operand_on(Frame::Step { at, step }, context),
        Kind::Sizeof => Ok(Some(Mode::Sizeof { at })),
        Kind::LeftParen => Ok(Some(Mode::Open { at })),
        _ => Ok(None),
    }
}

// An operator between two operands, behind the first.
fn on_binary(
    left: ExprPart,
    operator: Operator,
    at: u32,
    context: &mut Context,
) -> Result<Option<Mode>, NoMemory>
    ensures { Moves result context.new (code.on_operator (expr_part_of left) (stack_of context.old.stack) context.old.names (k.token (k.Op (operator_of operator)) at)) }
{
    let Some(operator) = binary_operator(operator) else {
        drop(left);
        return Ok(None);
    };
    if precedence(operator) > left.level {
        drop(left);
        return Ok(None);
    }
    operand_on(Frame::Binary { left, at, operator }, context)
}

// An operator behind an operand that it takes.
fn on_operator(e: ExprPart, context: &mut Context, token: &Token) -> Result<Option<Mode>, NoMemory>
    ensures { Moves result context.new (code.on_operator (expr_part_of e) (stack_of context.old.stack) context.old.names (token_of token.now)) }
{
    let at = token.at;
    match token.kind {
        Kind::Operator(operator) => on_binary(e, operator, at, context),
        Kind::Assignment(operator) if e.level >= 14 => {
            let target = e;
            operand_on(
                Frame::Assignment {
                    target,
                    at,
                    operator,
                },
                context,
            )
        }
        Kind::Question if e.level >= 3 => {
            let condition = e;
            operand_on(Frame::Middle { condition, at }, context)
        }
        _ => {
            drop(e);
            Ok(None)
        }
    }
}

// What an expression behind a frame makes: the whole that takes it as its last operand, or itself,
// behind which a token has to end the frame.
enum Joined {
    Whole(ExprPart),
    Apart(Frame, ExprPart),
}

// The whole of which an expression is the last operand.
fn join(alloc: Global, frame: Frame, e: ExprPart) -> Result<Joined, NoMemory>
    ensures { Joins frame e result }
{
    let whole = match frame {
        Frame::Step { at, step } => step_before_part(alloc, at, step, e)?,
        Frame::Unary { at, operator } => unary_part(alloc, at, operator, e)?,
        Frame::Sizeof { at } => sizeof_part(alloc, at, e)?,
        Frame::Cast { at, type_name } => cast_part(alloc, at, type_name, e)?,
        Frame::Binary { left, at, operator } => binary_part(alloc, left, at, operator, e)?,
        Frame::Conditional {
            condition,
            at,
            if_true,
        } => conditional_part(alloc, condition, at, if_true, e)?,
        Frame::Assignment {
            target,
            at,
            operator,
        } => assignment_part(alloc, target, at, operator, e)?,
        other => return Ok(Joined::Apart(other, e)),
    };
    Ok(Joined::Whole(whole))
}

/// Behind an expression that may be an operand: what stands before takes it unless the token binds
/// tighter.
pub fn on_expression(
    alloc: Global,
    e: ExprPart,
    context: &mut Context,
    token: &Token,
) -> Result<Option<Mode>, NoMemory>
    ensures { Moves result context.new (code.on_expression (expr_part_of e) (stack_of context.old.stack) context.old.names (token_of token.now)) }
{
    if context.stack.is_bottom() {
        drop(e);
        return Ok(None);
    }
    if context.stack.need() <= binds(token) {
        return on_operator(e, context, token);
    }
    let Some(frame) = context.stack.pop() else {
        drop(e);
        return Ok(None);
    };
    match join(alloc, frame, e)? {
        Joined::Whole(whole) => on_expression(alloc, whole, context, token),
        Joined::Apart(frame, e) => on_hole(alloc, frame, e, context, token),
    }
}

/// Behind a postfix expression.
pub fn on_postfix(
    alloc: Global,
    e: ExprPart,
    context: &mut Context,
    token: &Token,
) -> Result<Option<Mode>, NoMemory>
    ensures { Moves result context.new (code.on_postfix (expr_part_of e) (stack_of context.old.stack) context.old.names (token_of token.now)) }
{
    let at = token.at;
    match token.kind {
        Kind::LeftBracket => operand_on(Frame::Index { array: e, at }, context),
        Kind::LeftParen => Ok(Some(Mode::Arguments { callee: e, at })),
        Kind::Member(access) => {
            let object = e;
            Ok(Some(Mode::Access { object, at, access }))
        }
        Kind::Step(step) => {
            let whole = step_after_part(alloc, e, at, step)?;
            Ok(Some(Mode::AfterPostfix(whole)))
        }
        _ => on_expression(alloc, e, context, token),
    }
}

/// Behind `(` before an operand.
pub fn on_open(
    alloc: Global,
    at: u32,
    context: &mut Context,
    token: &Token,
) -> Result<Option<Mode>, NoMemory>
    ensures { Moves result context.new (code.on_open at (stack_of context.old.stack) context.old.names (token_of token.now)) }
{
    if begins_type(&context.names, token) {
        if context.stack.need() > 13 {
            return Ok(None);
        }
        context.stack.push(Frame::CastType { at })?;
        return on_specifiers(alloc, no_specifier(alloc), context, token);
    }
    context.stack.push(Frame::Parentheses { at })?;
    on_operand(context, token)
}

/// Behind `sizeof`.
pub fn on_sizeof(at: u32, context: &mut Context, token: &Token) -> Result<Option<Mode>, NoMemory>
    ensures { Moves result context.new (code.on_sizeof at (stack_of context.old.stack) context.old.names (token_of token.now)) }
{
    if is_left_paren(token) {
        let paren_at = token.at;
        return Ok(Some(Mode::SizeofOpen { at, paren_at }));
    }
    context.stack.push(Frame::Sizeof { at })?;
    on_operand(context, token)
}

/// Behind `sizeof (`.
pub fn on_sizeof_open(
    alloc: Global,
    at: u32,
    paren_at: u32,
    context: &mut Context,
    token: &Token,
) -> Result<Option<Mode>, NoMemory>
    ensures { Moves result context.new (code.on_sizeof_open at paren_at (stack_of context.old.stack) context.old.names (token_of token.now)) }
{
    if begins_type(&context.names, token) {
        context.stack.push(Frame::SizeofType { at })?;
        return on_specifiers(alloc, no_specifier(alloc), context, token);
    }
    context.stack.push(Frame::Sizeof { at })?;
    context.stack.push(Frame::Parentheses { at: paren_at })?;
    on_operand(context, token)
}

/// Behind the `(` of a call.
pub fn on_arguments(
    alloc: Global,
    callee: ExprPart,
    at: u32,
    context: &mut Context,
    token: &Token,
) -> Result<Option<Mode>, NoMemory>
    ensures { Moves result context.new (code.on_arguments (expr_part_of callee) at (stack_of context.old.stack) context.old.names (token_of token.now)) }
{
    let arguments = no_argument(alloc);
    if is_right_paren(token) {
        let whole = call_part(alloc, callee, at, arguments)?;
        return Ok(Some(Mode::AfterPostfix(whole)));
    }
    context.stack.push(Frame::Argument {
        callee,
        at,
        arguments,
    })?;
    on_operand(context, token)
}

/// Behind `.` or `->`.
pub fn on_access(
    alloc: Global,
    object: ExprPart,
    at: u32,
    access: Access,
    token: &Token,
) -> Result<Option<Mode>, NoMemory>
    ensures { (stack : marks.Stack) (names : List Identifier) → IfOk result (λ next. reached next stack names ≡ code.on_access (expr_part_of object) at (access_of access) stack names (token_of token.now)) }
{
    match token.kind {
        Kind::Name => {
            let Ok(name) = token.name.clone() else {
                drop(object);
                return Err(NoMemory);
            };
            let whole = member_part(alloc, object, at, access, token.at, name)?;
            Ok(Some(Mode::AfterPostfix(whole)))
        }
        _ => {
            drop(object);
            Ok(None)
        }
    }
}
