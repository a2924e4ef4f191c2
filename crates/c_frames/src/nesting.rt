//! The nesting of the deepest token that was read.

ghost use Rattle.std.specs.Prelude.{◌≡◌};
ghost use Rattle.c_frames.specs.Nests.{nest_of};
ghost use Rattle.c_frames.specs.Readers.{mode_of, reader_of};
ghost use Rattle.c_parts.specs.Views.{abstract_part_of, declarator_part_of};
ghost use Rattle.c_reading.specs.Code as code;

use crate::mode::{Context, Mode};
use crate::nest::Nest;
use c_parts::{AbstractPart, DeclaratorPart, deeper, is_bare, is_named_function, over};

// A declarator, which may still turn out to be the head of a function.
fn declarator_deepest(declarator: &DeclaratorPart, nest: Nest) -> u8
    ensures { result ≡ code.declarator_deepest (declarator_part_of declarator.now) (nest_of nest) }
{
    let is_name = is_bare(declarator.shape);
    let below = if (is_name || is_named_function(declarator.shape)) && nest.may_head {
        over(0, declarator.inner)
    } else if is_name {
        nest.depth
    } else {
        over(nest.inner, declarator.inner)
    };
    nest.deepest.max(below)
}

// What stands in the frame, of this height.
fn with_part(nest: Nest, height: u8) -> u8
    ensures { result ≡ code.with_part (nest_of nest) height }
{
    nest.deepest.max(over(nest.depth, height))
}

// What stands there below one mark more.
fn with_marked(nest: Nest, height: u8) -> u8
    ensures { result ≡ code.with_marked (nest_of nest) height }
{
    nest.deepest.max(over(deeper(nest.depth), height))
}

// Where a declarator is wanted that may have no name.
fn abstract_wanted(nest: Nest) -> u8
    ensures { result ≡ code.mode_deepest code.in_abstract (nest_of nest) }
{
    let below = if nest.takes_name {
        nest.depth
    } else {
        nest.star_depth
    };
    nest.deepest.max(below)
}

// Behind the parenthesis of such a declarator.
fn opened(nest: Nest) -> u8
    ensures { result ≡ code.mode_deepest code.in_opened (nest_of nest) }
{
    let below = if nest.takes_name {
        nest.inner
    } else {
        nest.star_inner
    };
    nest.deepest.max(below)
}

// An abstract declarator.
fn abstract_deepest(declarator: &AbstractPart, nest: Nest) -> u8
    ensures { result ≡ code.mode_deepest (code.after_abstract (abstract_part_of declarator.now)) (nest_of nest) }
{
    let below = if declarator.is_some {
        over(nest.star_inner, declarator.inner)
    } else {
        nest.star_depth
    };
    nest.deepest.max(below)
}

// Where a declarator with a name is wanted: the name may be the head of a function.
fn declarator_wanted(nest: Nest) -> u8
    ensures { result ≡ code.mode_deepest code.in_declarator (nest_of nest) }
{
    if nest.may_head {
        nest.deepest
    } else {
        nest.deepest.max(nest.depth)
    }
}

// The nesting of the deepest token, at most 255, where a state stands in so many marks.
fn mode_deepest(mode: &Mode, nest: Nest) -> u8
    ensures { result ≡ code.mode_deepest (mode_of mode.now) (nest_of nest) }
{
    match mode {
        Mode::File
        | Mode::Items
        | Mode::Statement
        | Mode::Labels
        | Mode::Initializer
        | Mode::Members
        | Mode::Enumerator
        | Mode::Length
        | Mode::Parameters
        | Mode::Expression => nest.deepest,
        Mode::AfterStatement(statement) => with_part(nest, statement.height),
        Mode::AfterDefault { .. } => with_part(nest, 0),
        Mode::Condition { .. }
        | Mode::For { .. }
        | Mode::ForFirst { .. }
        | Mode::Jump { .. }
        | Mode::Return { .. }
        | Mode::Open { .. }
        | Mode::Sizeof { .. }
        | Mode::SizeofOpen { .. } => with_marked(nest, 0),
        Mode::DoCondition { body, .. } => with_marked(nest, body.height),
        Mode::AfterDo {
            body,
            condition,
            ..
        } => with_marked(nest, body.height.max(condition.height)),
        Mode::ForTest { first, .. } => with_marked(nest, first.height),
        Mode::ForStep {
            first,
            condition,
            ..
        } => with_marked(nest, first.height.max(condition.height)),
        Mode::AfterList { values, .. } => with_marked(nest, values.height),
        Mode::SwitchBody { selector: e, .. }
        | Mode::Arguments { callee: e, .. }
        | Mode::Access { object: e, .. } => with_marked(nest, e.height),
        Mode::AfterListComma(e) | Mode::AfterPostfix(e) | Mode::AfterSizeof(e) => {
            with_part(nest, e.height)
        }
        Mode::Specifiers(specifiers)
        | Mode::Composite { specifiers, .. }
        | Mode::Enum { specifiers, .. } => with_part(nest, specifiers.height),
        Mode::AfterEnumerator { enumerators, .. } | Mode::AfterEnumeratorComma(enumerators) => {
            with_part(nest, enumerators.height)
        }
        Mode::Declarator => declarator_wanted(nest),
        Mode::AfterDeclarator(declarator) => declarator_deepest(declarator, nest),
        Mode::Abstract => abstract_wanted(nest),
        Mode::Opened => opened(nest),
        Mode::AfterAbstract(declarator) => abstract_deepest(declarator, nest),
    }
}

/// The nesting of the deepest token that was read, at most 255.
pub fn deepest(mode: &Mode, context: &Context) -> u8
    ensures { result ≡ code.deepest (reader_of mode.now context.now) }
{
    mode_deepest(mode, context.stack.nest())
}
