//! Declarators, with a name and without, and parameters.

ghost use Rattle.std.specs.Prelude.{◌≡◌, ◌++◌, ◌∷◌, [], MatchResult, OnOk, false};
ghost use Rattle.c_frames.specs.Frames.{frame_of, stack_of};
ghost use Rattle.c_frames.specs.Readers.{Moves, token_of};
ghost use Rattle.c_parts.specs.Views.{
  abstract_part_of,
  declarator_part_of,
  declarators_part_of,
  inits_part_of,
  parameters_part_of,
  specifiers_part_of,
  type_part_of,
};
ghost use Rattle.c_grammar.specs.Tokens as k;
ghost use Rattle.c_reading.specs.Code as code;
ghost use Rattle.c_reading.specs.Frames as marks;
ghost use Rattle.c_reading.specs.Parts as part;
ghost use Rattle.c_states.specs.Holes.{is_star};
ghost use Rattle.c_tree.specs.Shape.{qualifier_of, qualifiers_of};

use c_frames::{
    Context, Entry, Frame, Mode, Stack, SuffixedPart, Token, TypedefNames, end_if, is_comma,
    is_equals, is_left_brace, is_left_bracket, is_left_paren, is_right_paren, is_semicolon,
    on_init_declarator, operand_on, parameters_end, pushed,
};
use c_parts::{
    AbstractPart, DeclaratorPart, DeclaratorsPart, InitsPart, ParametersPart, SpecifiersPart,
    TypePart, abstract_parenthesized_part, abstract_pointer_part, add_abstract, add_declarator,
    add_init, add_members, add_parameter, are_no_inits, declared_part, extended_qualifiers,
    is_head, last_abstract, no_abstract, no_initializer_part, no_item, no_specifier,
    parenthesized_part, pointer_part, sizeof_type_part, type_part,
};
use c_reading::token::{Kind, Operator};
use c_tree::Qualifier;
use std::alloc::Global;
use std::mem;
use tso_words::{Name, NoMemory};

// The name that a declarator declares: no typedef's.
fn on_declared_name(
    alloc: Global,
    at: u32,
    name: &Name,
    context: &Context,
) -> Result<Option<Mode>, NoMemory>
    ensures { Moves result context.now (code.on_declarator (stack_of context.now.stack) context.now.names (k.token (k.Name name.now) at)) }
{
    if context.names.is_typedef(name) {
        return Ok(None);
    }
    let declarator = declared_part(alloc, at, name.clone()?)?;
    Ok(Some(Mode::AfterDeclarator(declarator)))
}

/// Where a declarator is wanted.
pub fn on_declarator(
    alloc: Global,
    context: &mut Context,
    token: &Token,
) -> Result<Option<Mode>, NoMemory>
    ensures { Moves result context.new (code.on_declarator (stack_of context.old.stack) context.old.names (token_of token.now)) }
{
    match token.kind {
        Kind::Name => on_declared_name(alloc, token.at, &token.name, context),
        Kind::Operator(Operator::Star) => {
            pushed(Mode::Declarator, Frame::Star(Vec::new(alloc)), context)
        }
        Kind::LeftParen => pushed(Mode::Declarator, Frame::Open, context),
        _ => Ok(None),
    }
}

// A `*` on top, with one more qualifier behind these.
fn push_star(
    qualifiers: Vec<Qualifier>,
    qualifier: Qualifier,
    stack: &mut Stack,
) -> Result<(), NoMemory>
    ensures { OnOk result (stack_of stack.new ≡ marks.push (marks.star_frame (qualifiers_of qualifiers.items ++ qualifier_of qualifier ∷ [])) (stack_of stack.old)) }
{
    let more = extended_qualifiers(qualifiers, qualifier)?;
    stack.push(Frame::Star(more))
}

// The qualifiers of a `*`, or the frame itself where it is of another kind.
fn star_qualifiers(frame: Frame) -> Result<Vec<Qualifier>, Frame>
    ensures { MatchResult result (λ qualifiers. frame_of frame ≡ marks.star_frame (qualifiers_of qualifiers.items)) (λ other. (other ≡ frame) × (is_star (frame_of frame) ≡ false)) }
{
    match frame {
        Frame::Star(qualifiers) => Ok(qualifiers),
        other => Err(other),
    }
}

/// Where a declarator is wanted, or a qualifier of the `*` before.
pub fn on_starred(
    alloc: Global,
    context: &mut Context,
    token: &Token,
) -> Result<Option<Mode>, NoMemory>
    ensures { Moves result context.new (code.on_starred (stack_of context.old.stack) context.old.names (token_of token.now)) }
{
    let Kind::Qualifier(qualifier) = token.kind else {
        return on_declarator(alloc, context, token);
    };
    let Some(frame) = context.stack.pop() else {
        return Ok(None);
    };
    match star_qualifiers(frame) {
        Ok(qualifiers) => {
            push_star(qualifiers, qualifier, &mut context.stack)?;
            Ok(Some(Mode::Declarator))
        }
        Err(other) => {
            drop(other);
            Ok(None)
        }
    }
}

// Behind a parameter without more of it: a comma, or the end of the parameters.
fn on_parameter(
    alloc: Global,
    parameters: ParametersPart,
    context: &mut Context,
    token: &Token,
) -> Result<Option<Mode>, NoMemory>
    ensures { Moves result context.new (code.on_parameter (parameters_part_of parameters) (parameters_part_of parameters) (stack_of context.old.stack) context.old.names (token_of token.now)) }
{
    if is_comma(token) {
        let mode = Mode::Specifiers(no_specifier(alloc));
        return pushed(mode, Frame::Parameter(parameters), context);
    }
    if is_right_paren(token) {
        return parameters_end(alloc, parameters, context);
    }
    drop(parameters);
    Ok(None)
}

// Behind one more parameter with no name: a comma, or the end of the parameters.
fn after_abstract_parameter(
    alloc: Global,
    parameters: ParametersPart,
    specifiers: SpecifiersPart,
    declarator: AbstractPart,
    context: &mut Context,
    token: &Token,
) -> Result<Option<Mode>, NoMemory>
    ensures { Moves result context.new (code.on_parameter (part.add_abstract (parameters_part_of parameters) (specifiers_part_of specifiers) (abstract_part_of declarator)) (part.last_abstract (parameters_part_of parameters) (specifiers_part_of specifiers) (abstract_part_of declarator)) (stack_of context.old.stack) context.old.names (token_of token.now)) }
{
    if is_comma(token) {
        let more = add_abstract(parameters, specifiers, declarator)?;
        let mode = Mode::Specifiers(no_specifier(alloc));
        return pushed(mode, Frame::Parameter(more), context);
    }
    if is_right_paren(token) {
        let all = last_abstract(alloc, parameters, specifiers, declarator)?;
        return parameters_end(alloc, all, context);
    }
    drop(parameters);
    drop(specifiers);
    drop(declarator);
    Ok(None)
}

// Behind an abstract declarator of a parameter, or where there is none, the frame of the parameters
// being taken off.
fn on_abstract_parameter_in(
    alloc: Global,
    specifiers: SpecifiersPart,
    declarator: AbstractPart,
    frame: Frame,
    context: &mut Context,
    token: &Token,
) -> Result<Option<Mode>, NoMemory>
    ensures { (nest : marks.Nest) → Moves result context.new (code.on_abstract_parameter (specifiers_part_of specifiers) (abstract_part_of declarator) (marks.above (frame_of frame) nest (stack_of context.old.stack)) context.old.names (token_of token.now)) }
{
    match frame {
        Frame::Parameter(parameters) => {
            after_abstract_parameter(alloc, parameters, specifiers, declarator, context, token)
        }
        other => {
            drop(other);
            drop(specifiers);
            drop(declarator);
            Ok(None)
        }
    }
}

// Behind an abstract declarator of a parameter, or where there is none.
fn on_abstract_parameter(
    alloc: Global,
    specifiers: SpecifiersPart,
    declarator: AbstractPart,
    context: &mut Context,
    token: &Token,
) -> Result<Option<Mode>, NoMemory>
    ensures { Moves result context.new (code.on_abstract_parameter (specifiers_part_of specifiers) (abstract_part_of declarator) (stack_of context.old.stack) context.old.names (token_of token.now)) }
{
    match context.stack.pop() {
        Some(frame) => {
            on_abstract_parameter_in(alloc, specifiers, declarator, frame, context, token)
        }
        None => {
            drop(specifiers);
            drop(declarator);
            Ok(None)
        }
    }
}

// Behind the type name in parentheses, the frame being taken off.
fn type_named_in(
    alloc: Global,
    type_name: TypePart,
    frame: Frame,
    context: &mut Context,
) -> Result<Option<Mode>, NoMemory>
    ensures { (nest : marks.Nest) → Moves result context.new (code.type_named (type_part_of type_name) (marks.above (frame_of frame) nest (stack_of context.old.stack)) context.old.names) }
{
    match frame {
        Frame::CastType { at } => operand_on(Frame::Cast { at, type_name }, context),
        Frame::SizeofType { at } => {
            let whole = sizeof_type_part(alloc, at, type_name)?;
            Ok(Some(Mode::AfterSizeof(whole)))
        }
        other => {
            drop(other);
            drop(type_name);
            Ok(None)
        }
    }
}

// Behind the type name in parentheses.
fn type_named(
    alloc: Global,
    type_name: TypePart,
    context: &mut Context,
) -> Result<Option<Mode>, NoMemory>
    ensures { Moves result context.new (code.type_named (type_part_of type_name) (stack_of context.old.stack) context.old.names) }
{
    match context.stack.pop() {
        Some(frame) => type_named_in(alloc, type_name, frame, context),
        None => {
            drop(type_name);
            Ok(None)
        }
    }
}

// Behind an abstract declarator, or where there is none, in a frame that has no `*`.
fn end_abstract(
    alloc: Global,
    frame: Frame,
    declarator: AbstractPart,
    context: &mut Context,
    token: &Token,
) -> Result<Option<Mode>, NoMemory>
    requires { is_star (frame_of frame) ≡ false }
    ensures { (nest : marks.Nest) → Moves result context.new (code.climb_abstract (abstract_part_of declarator) (marks.above (frame_of frame) nest (stack_of context.old.stack)) context.old.names (token_of token.now)) }
{
    match frame {
        Frame::ParameterOf(specifiers) => {
            on_abstract_parameter(alloc, specifiers, declarator, context, token)
        }
        Frame::TypeName(specifiers) => {
            if !is_right_paren(token) {
                drop(specifiers);
                drop(declarator);
                return Ok(None);
            }
            type_named(alloc, type_part(specifiers, declarator)?, context)
        }
        Frame::Open => {
            let is_whole = is_right_paren(token) && declarator.is_some;
            let mode = Mode::AfterAbstract(abstract_parenthesized_part(declarator));
            Ok(end_if(is_whole, mode))
        }
        other => {
            drop(other);
            drop(declarator);
            Ok(None)
        }
    }
}

// Behind an abstract declarator, or where there is none.
fn climb_abstract(
    alloc: Global,
    mut declarator: AbstractPart,
    context: &mut Context,
    token: &Token,
) -> Result<Option<Mode>, NoMemory>
    ensures { Moves result context.new (code.climb_abstract (abstract_part_of declarator) (stack_of context.old.stack) context.old.names (token_of token.now)) }
{
    'climbing: loop {
        let Some(frame) = context.stack.pop() else {
            drop(declarator);
            return Ok(None);
        };
        match star_qualifiers(frame) {
            Ok(qualifiers) => declarator = abstract_pointer_part(qualifiers, declarator)?,
            Err(other) => return end_abstract(alloc, other, declarator, context, token),
        }
    }
}

/// Where an abstract declarator or none may stand.
pub fn on_abstract(
    alloc: Global,
    context: &mut Context,
    token: &Token,
) -> Result<Option<Mode>, NoMemory>
    ensures { Moves result context.new (code.on_abstract (stack_of context.old.stack) context.old.names (token_of token.now)) }
{
    match token.kind {
        Kind::Name => {
            if !context.stack.nest().takes_name {
                return Ok(None);
            }
            on_declared_name(alloc, token.at, &token.name, context)
        }
        Kind::Operator(Operator::Star) => {
            pushed(Mode::Abstract, Frame::Star(Vec::new(alloc)), context)
        }
        Kind::LeftParen => Ok(Some(Mode::Opened)),
        Kind::LeftBracket => {
            let suffixed = SuffixedPart::Abstract(no_abstract(alloc));
            pushed(Mode::Length, Frame::Length(suffixed), context)
        }
        _ => climb_abstract(alloc, no_abstract(alloc), context, token),
    }
}

/// Where an abstract declarator may stand, or a qualifier of the `*` before.
pub fn on_starred_abstract(
    alloc: Global,
    context: &mut Context,
    token: &Token,
) -> Result<Option<Mode>, NoMemory>
    ensures { Moves result context.new (code.on_starred_abstract (stack_of context.old.stack) context.old.names (token_of token.now)) }
{
    let Kind::Qualifier(qualifier) = token.kind else {
        return on_abstract(alloc, context, token);
    };
    let Some(Entry { frame, nest }) = context.stack.entries.pop() else {
        return on_abstract(alloc, context, token);
    };
    match star_qualifiers(frame) {
        Ok(qualifiers) => {
            push_star(qualifiers, qualifier, &mut context.stack)?;
            Ok(Some(Mode::Abstract))
        }
        Err(frame) => {
            context.stack.entries.push(Entry { frame, nest })?;
            on_abstract(alloc, context, token)
        }
    }
}

// The brace of a function's body.
fn on_function_body(
    alloc: Global,
    declarator: DeclaratorPart,
    specifiers: SpecifiersPart,
    inits: InitsPart,
    body_at: u32,
    context: &mut Context,
) -> Result<Option<Mode>, NoMemory>
    ensures { Moves result context.new (code.on_function_body (declarator_part_of declarator) (specifiers_part_of specifiers) (inits_part_of inits) body_at (stack_of context.old.stack) context.old.names) }
{
    let is_first = are_no_inits(&inits) && context.stack.is_bottom();
    drop(inits);
    if !is_first || !is_head(declarator.shape) || specifiers.declares_types {
        drop(specifiers);
        drop(declarator);
        return Ok(None);
    }
    let frame = Frame::Function {
        specifiers,
        declarator,
        body_at,
        items: no_item(alloc),
    };
    pushed(Mode::Items, frame, context)
}

// The typedef names behind a declarator of a declaration.
fn declare(
    alloc: Global,
    specifiers: &SpecifiersPart,
    declarator: &DeclaratorPart,
    names: &mut TypedefNames,
) -> Result<(), NoMemory>
    ensures { OnOk result (names.new ≡ code.names_with specifiers.now.declares_types declarator.now.name names.old) }
{
    if specifiers.declares_types {
        let name = declarator.name.clone()?;
        let before = mem::replace(names, TypedefNames::new(alloc));
        *names = before.declare(name)?;
    }
    Ok(())
}

// Behind a declarator of a declaration with nothing round it.
fn on_declared(
    alloc: Global,
    declarator: DeclaratorPart,
    specifiers: SpecifiersPart,
    inits: InitsPart,
    context: &mut Context,
    token: &Token,
) -> Result<Option<Mode>, NoMemory>
    ensures { Moves result context.new (code.on_declared (declarator_part_of declarator) (specifiers_part_of specifiers) (inits_part_of inits) (stack_of context.old.stack) context.old.names (token_of token.now)) }
{
    if is_left_brace(token) {
        return on_function_body(alloc, declarator, specifiers, inits, token.at, context);
    }
    if let Err(no_memory) = declare(alloc, &specifiers, &declarator, &mut context.names) {
        drop(specifiers);
        drop(inits);
        drop(declarator);
        return Err(no_memory);
    }
    if is_equals(token) {
        let frame = Frame::Initializer {
            specifiers,
            inits,
            declarator,
        };
        return pushed(Mode::Initializer, frame, context);
    }
    let Ok(more) = add_init(inits, declarator, no_initializer_part()) else {
        drop(specifiers);
        return Err(NoMemory);
    };
    on_init_declarator(alloc, specifiers, more, context, token)
}

// Behind declarators of members, the frame of the members being taken off.
fn members_more_in(
    specifiers: SpecifiersPart,
    declarators: DeclaratorsPart,
    frame: Frame,
    context: &mut Context,
) -> Result<Option<Mode>, NoMemory>
    ensures { (nest : marks.Nest) → Moves result context.new (code.members_more (specifiers_part_of specifiers) (declarators_part_of declarators) (marks.above (frame_of frame) nest (stack_of context.old.stack)) context.old.names) }
{
    match frame {
        Frame::Members {
            specifiers: outer,
            at,
            word,
            tag,
            body_at,
            members,
        } => {
            let Ok(members) = add_members(members, specifiers, declarators) else {
                drop(outer);
                drop(tag);
                return Err(NoMemory);
            };
            let frame = Frame::Members {
                specifiers: outer,
                at,
                word,
                tag,
                body_at,
                members,
            };
            pushed(Mode::Members, frame, context)
        }
        other => {
            drop(other);
            drop(specifiers);
            drop(declarators);
            Ok(None)
        }
    }
}

// Behind declarators of members, of those that the frame below has.
fn members_more(
    specifiers: SpecifiersPart,
    declarators: DeclaratorsPart,
    context: &mut Context,
) -> Result<Option<Mode>, NoMemory>
    ensures { Moves result context.new (code.members_more (specifiers_part_of specifiers) (declarators_part_of declarators) (stack_of context.old.stack) context.old.names) }
{
    match context.stack.pop() {
        Some(frame) => members_more_in(specifiers, declarators, frame, context),
        None => {
            drop(specifiers);
            drop(declarators);
            Ok(None)
        }
    }
}

// Behind a declarator of members.
fn on_member(
    specifiers: SpecifiersPart,
    declarators: DeclaratorsPart,
    context: &mut Context,
    token: &Token,
) -> Result<Option<Mode>, NoMemory>
    ensures { Moves result context.new (code.on_member (specifiers_part_of specifiers) (declarators_part_of declarators) (stack_of context.old.stack) context.old.names (token_of token.now)) }
{
    if is_comma(token) {
        let frame = Frame::Member {
            specifiers,
            declarators,
        };
        return pushed(Mode::Declarator, frame, context);
    }
    if is_semicolon(token) {
        return members_more(specifiers, declarators, context);
    }
    drop(specifiers);
    drop(declarators);
    Ok(None)
}

// Behind a declarator of a parameter, the frame of the parameters being taken off.
fn on_named_parameter_in(
    alloc: Global,
    specifiers: SpecifiersPart,
    declarator: DeclaratorPart,
    frame: Frame,
    context: &mut Context,
    token: &Token,
) -> Result<Option<Mode>, NoMemory>
    ensures { (nest : marks.Nest) → Moves result context.new (code.on_named_parameter (specifiers_part_of specifiers) (declarator_part_of declarator) (marks.above (frame_of frame) nest (stack_of context.old.stack)) context.old.names (token_of token.now)) }
{
    match frame {
        Frame::Parameter(parameters) => {
            let more = add_parameter(parameters, specifiers, declarator)?;
            on_parameter(alloc, more, context, token)
        }
        other => {
            drop(other);
            drop(specifiers);
            drop(declarator);
            Ok(None)
        }
    }
}

// Behind a declarator of a parameter.
fn on_named_parameter(
    alloc: Global,
    specifiers: SpecifiersPart,
    declarator: DeclaratorPart,
    context: &mut Context,
    token: &Token,
) -> Result<Option<Mode>, NoMemory>
    ensures { Moves result context.new (code.on_named_parameter (specifiers_part_of specifiers) (declarator_part_of declarator) (stack_of context.old.stack) context.old.names (token_of token.now)) }
{
    match context.stack.pop() {
        Some(frame) => on_named_parameter_in(alloc, specifiers, declarator, frame, context, token),
        None => {
            drop(specifiers);
            drop(declarator);
            Ok(None)
        }
    }
}

// Behind a declarator, in a frame that has no `*`.
fn end_declarator(
    alloc: Global,
    frame: Frame,
    declarator: DeclaratorPart,
    context: &mut Context,
    token: &Token,
) -> Result<Option<Mode>, NoMemory>
    requires { is_star (frame_of frame) ≡ false }
    ensures { (nest : marks.Nest) → Moves result context.new (code.climb (declarator_part_of declarator) (marks.above (frame_of frame) nest (stack_of context.old.stack)) context.old.names (token_of token.now)) }
{
    match frame {
        Frame::Init { specifiers, inits } => {
            on_declared(alloc, declarator, specifiers, inits, context, token)
        }
        Frame::Member {
            specifiers,
            declarators,
        } => {
            let Ok(more) = add_declarator(declarators, declarator) else {
                drop(specifiers);
                return Err(NoMemory);
            };
            on_member(specifiers, more, context, token)
        }
        Frame::ParameterOf(specifiers) => {
            on_named_parameter(alloc, specifiers, declarator, context, token)
        }
        Frame::Open => {
            let mode = Mode::AfterDeclarator(parenthesized_part(declarator));
            Ok(end_if(is_right_paren(token), mode))
        }
        other => {
            drop(other);
            drop(declarator);
            Ok(None)
        }
    }
}

// Behind a whole declarator.
fn climb(
    alloc: Global,
    mut declarator: DeclaratorPart,
    context: &mut Context,
    token: &Token,
) -> Result<Option<Mode>, NoMemory>
    ensures { Moves result context.new (code.climb (declarator_part_of declarator) (stack_of context.old.stack) context.old.names (token_of token.now)) }
{
    'climbing: loop {
        let Some(frame) = context.stack.pop() else {
            drop(declarator);
            return Ok(None);
        };
        match star_qualifiers(frame) {
            Ok(qualifiers) => declarator = pointer_part(qualifiers, declarator)?,
            Err(other) => return end_declarator(alloc, other, declarator, context, token),
        }
    }
}

/// Behind a direct declarator.
pub fn on_direct(
    alloc: Global,
    declarator: DeclaratorPart,
    context: &mut Context,
    token: &Token,
) -> Result<Option<Mode>, NoMemory>
    ensures { Moves result context.new (code.on_direct (declarator_part_of declarator) (stack_of context.old.stack) context.old.names (token_of token.now)) }
{
    if is_left_bracket(token) {
        let frame = Frame::Length(SuffixedPart::Named(declarator));
        return pushed(Mode::Length, frame, context);
    }
    if is_left_paren(token) {
        let frame = Frame::Parameters(SuffixedPart::Named(declarator));
        return pushed(Mode::Parameters, frame, context);
    }
    climb(alloc, declarator, context, token)
}

/// Behind a direct abstract declarator.
pub fn on_direct_abstract(
    alloc: Global,
    declarator: AbstractPart,
    context: &mut Context,
    token: &Token,
) -> Result<Option<Mode>, NoMemory>
    ensures { Moves result context.new (code.on_direct_abstract (abstract_part_of declarator) (stack_of context.old.stack) context.old.names (token_of token.now)) }
{
    if is_left_bracket(token) {
        let frame = Frame::Length(SuffixedPart::Abstract(declarator));
        return pushed(Mode::Length, frame, context);
    }
    if is_left_paren(token) {
        let frame = Frame::Parameters(SuffixedPart::Abstract(declarator));
        return pushed(Mode::Parameters, frame, context);
    }
    climb_abstract(alloc, declarator, context, token)
}
