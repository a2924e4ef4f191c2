//! Where a statement is wanted, and inside one.

ghost use Rattle.std.specs.Prelude.{◌≡◌, IfOk, List};
ghost use Rattle.c_frames.specs.Frames.{frame_of, stack_of};
ghost use Rattle.c_frames.specs.Readers.{Moves, head_of, reached, token_of};
ghost use Rattle.c_grammar.specs.Machine.{begins_declaration, kind_of};
ghost use Rattle.c_grammar.specs.Tokens.{Identifier};
ghost use Rattle.c_parts.specs.Views.{
  expr_part_of,
  for_first_part_of,
  optional_part_of,
  statement_part_of,
};
ghost use Rattle.c_reading.specs.Code as code;
ghost use Rattle.c_reading.specs.Frames as marks;
ghost use Rattle.c_reading.specs.Kinds.{jump_of};
ghost use Rattle.c_reading.specs.Parts as part;

use c_frames::{
    Context, Frame, Head, Mode, Token, TypedefNames, begins_type, end_if, is_left_brace,
    is_left_paren, is_right_paren, is_semicolon, operand_on, pushed,
};
use c_parts::{
    ExprPart, ForFirstPart, OptionalPart, StatementPart, do_part, empty_part, jump_part,
    no_expression, no_item, no_specifier, nothing_part, return_part,
};
use c_reading::token::{JumpWord, Kind};
use c_states::{on_operand, on_specifiers};
use std::alloc::Global;
use tso_words::NoMemory;

/// Whether the token begins a declaration.
pub fn begins_declaration(names: &TypedefNames, token: &Token) -> bool
    ensures { result ≡ begins_declaration names.now (kind_of (token_of token.now)) }
{
    match token.kind {
        Kind::Storage(_) | Kind::Inline => true,
        _ => begins_type(names, token),
    }
}

/// An operand, or its beginning, inside a frame.
pub fn operand_in(
    alloc: Global,
    frame: Frame,
    context: &mut Context,
    token: &Token,
) -> Result<Option<Mode>, NoMemory>
    ensures { Moves result context.new (code.on_operand (marks.push (frame_of frame) (stack_of context.old.stack)) context.old.names (token_of token.now)) }
{
    context.stack.push(frame)?;
    on_operand(context, token)
}

/// A declaration, or its beginning.
pub fn declaration_on(
    alloc: Global,
    context: &mut Context,
    token: &Token,
) -> Result<Option<Mode>, NoMemory>
    ensures { Moves result context.new (code.on_specifiers part.no_specifier (stack_of context.old.stack) context.old.names (token_of token.now)) }
{
    on_specifiers(alloc, no_specifier(alloc), context, token)
}

/// Where a statement is wanted.
pub fn on_statement(
    alloc: Global,
    context: &mut Context,
    token: &Token,
) -> Result<Option<Mode>, NoMemory>
    ensures { Moves result context.new (code.on_statement (stack_of context.old.stack) context.old.names (token_of token.now)) }
{
    let at = token.at;
    match token.kind {
        Kind::LeftBrace => {
            let items = no_item(alloc);
            pushed(Mode::Items, Frame::Block { at, items }, context)
        }
        Kind::Semicolon => Ok(Some(Mode::AfterStatement(empty_part(at)))),
        Kind::If => {
            let head = Head::If;
            Ok(Some(Mode::Condition { head, at }))
        }
        Kind::While => {
            let head = Head::While;
            Ok(Some(Mode::Condition { head, at }))
        }
        Kind::Switch => {
            let head = Head::Switch;
            Ok(Some(Mode::Condition { head, at }))
        }
        Kind::Do => pushed(Mode::Statement, Frame::DoBody { at }, context),
        Kind::For => Ok(Some(Mode::For { at })),
        Kind::Jump(word) => Ok(Some(Mode::Jump { at, word })),
        Kind::Return => Ok(Some(Mode::Return { at })),
        _ => operand_in(alloc, Frame::Expression, context, token),
    }
}

// The frame of the condition in parentheses.
fn condition_frame(head: Head, at: u32) -> Frame
    ensures { frame_of result ≡ code.condition_frame (head_of head) at }
{
    match head {
        Head::If => Frame::If { at },
        Head::While => Frame::While { at },
        Head::Switch => Frame::Switch { at },
    }
}

/// Behind `if`, `while` or `switch`.
pub fn on_condition(
    head: Head,
    at: u32,
    context: &mut Context,
    token: &Token,
) -> Result<Option<Mode>, NoMemory>
    ensures { Moves result context.new (code.on_condition (head_of head) at (stack_of context.old.stack) context.old.names (token_of token.now)) }
{
    if is_left_paren(token) {
        operand_on(condition_frame(head, at), context)
    } else {
        Ok(None)
    }
}

/// Behind `do`, its body and `while`.
pub fn on_do_condition(
    at: u32,
    body: StatementPart,
    context: &mut Context,
    token: &Token,
) -> Result<Option<Mode>, NoMemory>
    ensures { Moves result context.new (code.on_do_condition at (statement_part_of body) (stack_of context.old.stack) context.old.names (token_of token.now)) }
{
    if is_left_paren(token) {
        operand_on(Frame::Do { at, body }, context)
    } else {
        drop(body);
        Ok(None)
    }
}

/// Behind the `)` of a `do`.
pub fn on_after_do(
    alloc: Global,
    at: u32,
    body: StatementPart,
    condition: ExprPart,
    token: &Token,
) -> Result<Option<Mode>, NoMemory>
    ensures { (stack : marks.Stack) (names : List Identifier) → IfOk result (λ next. reached next stack names ≡ code.on_after_do at (statement_part_of body) (expr_part_of condition) stack names (token_of token.now)) }
{
    let whole = do_part(alloc, at, body, condition)?;
    Ok(end_if(is_semicolon(token), Mode::AfterStatement(whole)))
}

/// Behind `for`.
pub fn on_for(at: u32, token: &Token) -> Option<Mode>
    ensures { (stack : marks.Stack) (names : List Identifier) → reached result stack names ≡ code.on_for at stack names (token_of token.now) }
{
    end_if(is_left_paren(token), Mode::ForFirst { at })
}

/// Behind `for (`.
pub fn on_for_first(
    alloc: Global,
    at: u32,
    context: &mut Context,
    token: &Token,
) -> Result<Option<Mode>, NoMemory>
    ensures { Moves result context.new (code.on_for_first at (stack_of context.old.stack) context.old.names (token_of token.now)) }
{
    if is_semicolon(token) {
        let first = nothing_part();
        return Ok(Some(Mode::ForTest { at, first }));
    }
    if begins_declaration(&context.names, token) {
        context.stack.push(Frame::ForHead { at })?;
        return declaration_on(alloc, context, token);
    }
    operand_in(alloc, Frame::ForFirst { at }, context, token)
}

/// Behind the first part of a `for`.
pub fn on_for_test(
    alloc: Global,
    at: u32,
    first: ForFirstPart,
    context: &mut Context,
    token: &Token,
) -> Result<Option<Mode>, NoMemory>
    ensures { Moves result context.new (code.on_for_test at (for_first_part_of first) (stack_of context.old.stack) context.old.names (token_of token.now)) }
{
    if is_semicolon(token) {
        let condition = no_expression();
        return Ok(Some(Mode::ForStep {
            at,
            first,
            condition,
        }));
    }
    operand_in(alloc, Frame::ForTest { at, first }, context, token)
}

/// Behind the second `;` of a `for`.
pub fn on_for_step(
    alloc: Global,
    at: u32,
    first: ForFirstPart,
    condition: OptionalPart,
    context: &mut Context,
    token: &Token,
) -> Result<Option<Mode>, NoMemory>
    ensures { Moves result context.new (code.on_for_step at (for_first_part_of first) (optional_part_of condition) (stack_of context.old.stack) context.old.names (token_of token.now)) }
{
    if is_right_paren(token) {
        let body = Frame::ForBody {
            at,
            first,
            condition,
            update: no_expression(),
        };
        return pushed(Mode::Statement, body, context);
    }
    let step = Frame::ForStep {
        at,
        first,
        condition,
    };
    operand_in(alloc, step, context, token)
}

/// Behind the `)` of a `switch`.
pub fn on_switch_body(
    at: u32,
    selector: ExprPart,
    context: &mut Context,
    token: &Token,
) -> Result<Option<Mode>, NoMemory>
    ensures { Moves result context.new (code.on_switch_body at (expr_part_of selector) (stack_of context.old.stack) context.old.names (token_of token.now)) }
{
    if is_left_brace(token) {
        pushed(Mode::Labels, Frame::Groups { at, selector }, context)
    } else {
        drop(selector);
        Ok(None)
    }
}

/// Behind `break` or `continue`.
pub fn on_jump(at: u32, word: JumpWord, token: &Token) -> Option<Mode>
    ensures { (stack : marks.Stack) (names : List Identifier) → reached result stack names ≡ code.on_jump at (jump_of word) stack names (token_of token.now) }
{
    let whole = jump_part(at, word);
    end_if(is_semicolon(token), Mode::AfterStatement(whole))
}

/// Behind `return`.
pub fn on_return(
    alloc: Global,
    at: u32,
    context: &mut Context,
    token: &Token,
) -> Result<Option<Mode>, NoMemory>
    ensures { Moves result context.new (code.on_return at (stack_of context.old.stack) context.old.names (token_of token.now)) }
{
    if is_semicolon(token) {
        let whole = return_part(at, no_expression());
        return Ok(Some(Mode::AfterStatement(whole)));
    }
    operand_in(alloc, Frame::Return { at }, context, token)
}
