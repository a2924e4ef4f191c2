//! One token more.

ghost use Rattle.std.specs.Prelude.{◌≡◌};
ghost use Rattle.c_frames.specs.Frames.{stack_of};
ghost use Rattle.c_frames.specs.Readers.{Moves, mode_of, reader_of, token_of};
ghost use Rattle.c_frames.specs.declared.mode.Mode.TheVariants as mode;
ghost use Rattle.c_reading.specs.Code as code;

use crate::initializer::{on_after_list, on_initializer, on_list_comma};
use crate::items::{on_after, on_after_default, on_items, on_labels};
use crate::statement::{
    declaration_on, on_after_do, on_condition, on_do_condition, on_for, on_for_first, on_for_step,
    on_for_test, on_jump, on_return, on_statement, on_switch_body,
};
use c_frames::{Context, Mode, Stack, Token, TypedefNames};
use c_parts::no_file;
use c_states::{
    on_access, on_after_enumerator, on_arguments, on_composite, on_direct, on_direct_abstract,
    on_enum, on_enumerator, on_enumerator_comma, on_expression, on_length, on_members, on_open,
    on_opened, on_operand, on_parameters, on_postfix, on_sizeof, on_sizeof_open, on_specifiers,
    on_starred, on_starred_abstract,
};
use std::alloc::Global;
use tso_words::NoMemory;

// The state behind one token more, or none where no file goes on so.
#[tactic(auto, unfolding(c_reading::specs::Code::feed_in))]
fn feed_in(
    alloc: Global,
    mode: Mode,
    context: &mut Context,
    token: &Token,
) -> Result<Option<Mode>, NoMemory>
    ensures { Moves result context.new (code.feed_in (mode_of mode) (stack_of context.old.stack) context.old.names (token_of token.now)) }
{
    match mode {
        Mode::File => declaration_on(alloc, context, token),
        Mode::Items => on_items(alloc, context, token),
        Mode::Statement => on_statement(alloc, context, token),
        Mode::AfterStatement(statement) => on_after(alloc, statement, context, token),
        Mode::Labels => on_labels(alloc, context, token),
        Mode::AfterDefault { at } => on_after_default(alloc, at, context, token),
        Mode::Condition { head, at } => on_condition(head, at, context, token),
        Mode::DoCondition { at, body } => on_do_condition(at, body, context, token),
        Mode::AfterDo {
            at,
            body,
            condition,
        } => on_after_do(alloc, at, body, condition, token),
        Mode::For { at } => Ok(on_for(at, token)),
        Mode::ForFirst { at } => on_for_first(alloc, at, context, token),
        Mode::ForTest { at, first } => on_for_test(alloc, at, first, context, token),
        Mode::ForStep {
            at,
            first,
            condition,
        } => on_for_step(alloc, at, first, condition, context, token),
        Mode::SwitchBody { at, selector } => on_switch_body(at, selector, context, token),
        Mode::Jump { at, word } => Ok(on_jump(at, word, token)),
        Mode::Return { at } => on_return(alloc, at, context, token),
        Mode::Initializer => on_initializer(alloc, context, token),
        Mode::AfterListComma(value) => on_list_comma(alloc, value, context, token),
        Mode::AfterList { at, values } => on_after_list(alloc, at, values, context, token),
        Mode::Specifiers(specifiers) => on_specifiers(alloc, specifiers, context, token),
        Mode::Composite {
            specifiers,
            at,
            word,
        } => on_composite(alloc, specifiers, at, word, context, token),
        Mode::Enum { specifiers, at } => on_enum(specifiers, at, context, token),
        Mode::Members => on_members(alloc, context, token),
        Mode::Enumerator => on_enumerator(alloc, context, token),
        Mode::AfterEnumerator {
            enumerators,
            at,
            name,
        } => on_after_enumerator(enumerators, at, name, context, token),
        Mode::AfterEnumeratorComma(enumerators) => {
            on_enumerator_comma(enumerators, context, token)
        }
        Mode::Declarator => on_starred(alloc, context, token),
        Mode::AfterDeclarator(declarator) => on_direct(alloc, declarator, context, token),
        Mode::Abstract => on_starred_abstract(alloc, context, token),
        Mode::Opened => on_opened(alloc, context, token),
        Mode::AfterAbstract(declarator) => on_direct_abstract(alloc, declarator, context, token),
        Mode::Length => on_length(alloc, context, token),
        Mode::Parameters => on_parameters(alloc, context, token),
        Mode::Expression => on_operand(context, token),
        Mode::AfterPostfix(expr) => on_postfix(alloc, expr, context, token),
        Mode::AfterSizeof(expr) => on_expression(alloc, expr, context, token),
        Mode::Open { at } => on_open(alloc, at, context, token),
        Mode::Sizeof { at } => on_sizeof(at, context, token),
        Mode::SizeofOpen { at, paren_at } => on_sizeof_open(alloc, at, paren_at, context, token),
        Mode::Arguments { callee, at } => on_arguments(alloc, callee, at, context, token),
        Mode::Access { object, at, access } => { on_access(alloc, object, at, access, token) }
    }
}

/// Reads one token more: the mode behind it, over what was read, or none where no file goes on so.
pub fn feed(
    alloc: Global,
    mode: Mode,
    context: &mut Context,
    token: &Token,
) -> Result<Option<Mode>, NoMemory>
    ensures { Moves result context.new (code.feed_code (reader_of mode context.old) (token_of token.now)) }
{
    feed_in(alloc, mode, context, token)
}

/// What was read at the beginning of a file.
pub fn start(alloc: Global) -> Context
    ensures { reader_of mode.File result ≡ code.start_code }
{
    Context {
        stack: Stack::over(alloc, no_file(alloc)),
        names: TypedefNames::new(alloc),
    }
}
