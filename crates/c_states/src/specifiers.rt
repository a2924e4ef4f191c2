//! Specifiers, and the bodies of structs, unions and enums.

ghost use Rattle.std.specs.Prelude.{◌≡◌, IfOk, List, ℕ};
ghost use Rattle.c_frames.specs.Frames.{frame_of, stack_of};
ghost use Rattle.c_frames.specs.Readers.{Moves, reached, token_of};
ghost use Rattle.c_parts.specs.Views.{enumerators_part_of, last_of, specifiers_part_of};
ghost use Rattle.c_grammar.specs.Tokens as k;
ghost use Rattle.c_grammar.specs.Tokens.{Identifier};
ghost use Rattle.c_reading.specs.Code as code;
ghost use Rattle.c_reading.specs.Frames as marks;
ghost use Rattle.c_reading.specs.Parts as part;
ghost use Rattle.c_states.specs.Places.{place_of};
ghost use Rattle.c_tree.specs.Shape.{composite_of, storage_of, word_of, words_of};

use crate::declarator::{on_abstract, on_declarator};
use crate::place::SpecifiersPlace;
use c_frames::{
    Context, Frame, Mode, Token, declared_alone, end_if, enumeration_end, is_comma, is_equals,
    is_right_brace, is_semicolon, operand_on, pushed,
};
use c_parts::{
    EnumeratorsPart, LastSpecifier, SpecifiersPart, add_composite, add_enum_reference,
    add_enumerator, add_first_word, add_inline, add_qualifier, add_reference, add_storage,
    add_typedef, add_word, are_no_members, are_type, before_body, declaration_part, left_out_part,
    no_declarator_part, no_enumerator, no_inits, no_member, no_specifier, with_words,
};
use c_reading::token::Kind;
use c_tree::{CompositeWord, StorageClass, Tag, TypeWord};
use std::alloc::Global;
use std::mem;
use tso_words::{Name, NoMemory};

// Where the specifiers that the top of the stack takes stand.
fn specifiers_place(context: &Context) -> SpecifiersPlace
    ensures { place_of result ≡ code.specifiers_place (stack_of context.now.stack) }
{
    match context.stack.top() {
        Some(Frame::Members { .. }) => SpecifiersPlace::Member,
        Some(Frame::Parameter(_)) => SpecifiersPlace::Parameter,
        Some(Frame::CastType { .. } | Frame::SizeofType { .. }) => SpecifiersPlace::TypeName,
        _ => SpecifiersPlace::Declaration,
    }
}

fn takes_storage(place: SpecifiersPlace) -> bool
    ensures { result ≡ code.takes_storage (place_of place) }
{
    match place {
        SpecifiersPlace::Declaration => true,
        SpecifiersPlace::Member | SpecifiersPlace::Parameter | SpecifiersPlace::TypeName => false,
    }
}

// A name where no type stands yet: a typedef's.
fn on_name(
    specifiers: SpecifiersPart,
    at: u32,
    name: &Name,
    context: &Context,
) -> Result<Option<Mode>, NoMemory>
    ensures { Moves result context.now (code.on_name (specifiers_part_of specifiers) name.now at (stack_of context.now.stack) context.now.names) }
{
    let is_typedef = context.names.is_typedef(name);
    let Ok(name) = name.clone() else {
        drop(specifiers);
        return Err(NoMemory);
    };
    let more = add_typedef(specifiers, at, name)?;
    Ok(end_if(is_typedef, Mode::Specifiers(more)))
}

// A word of a type behind the words of one, the first of which stands at `first`.
fn on_next_word(
    specifiers: SpecifiersPart,
    first: u32,
    words: Vec<TypeWord>,
    word: TypeWord,
) -> Result<Option<Mode>, NoMemory>
    ensures { (at : ℕ) (stack : marks.Stack) (names : List Identifier) → IfOk result (λ next. reached next stack names ≡ code.on_word_behind (part.last_words first (words_of words.items)) (specifiers_part_of specifiers) stack names (word_of word) at) }
{
    let Ok(words) = add_word(words, word) else {
        drop(specifiers);
        return Err(NoMemory);
    };
    if are_type(&words) {
        let more = with_words(specifiers, first, words);
        Ok(Some(Mode::Specifiers(more)))
    } else {
        drop(specifiers);
        drop(words);
        Ok(None)
    }
}

// The first word of a type.
fn on_first_word(
    alloc: Global,
    specifiers: SpecifiersPart,
    at: u32,
    word: TypeWord,
) -> Result<Option<Mode>, NoMemory>
    ensures { (stack : marks.Stack) (names : List Identifier) → IfOk result (λ next. reached next stack names ≡ code.on_word_behind part.no_last (specifiers_part_of specifiers) stack names (word_of word) at) }
{
    if specifiers.has_type {
        drop(specifiers);
        return Ok(None);
    }
    let more = add_first_word(alloc, specifiers, at, word)?;
    Ok(Some(Mode::Specifiers(more)))
}

// A word of a type.
fn on_word(
    alloc: Global,
    mut specifiers: SpecifiersPart,
    at: u32,
    word: TypeWord,
) -> Result<Option<Mode>, NoMemory>
    ensures { (stack : marks.Stack) (names : List Identifier) → IfOk result (λ next. reached next stack names ≡ code.on_word_behind (last_of specifiers.last) (specifiers_part_of specifiers) stack names (word_of word) at) }
{
    match mem::replace(&mut specifiers.last, LastSpecifier::Whole) {
        LastSpecifier::Words { at: first, words } => {
            on_next_word(specifiers, first, words, word)
        }
        other => {
            specifiers.last = other;
            on_first_word(alloc, specifiers, at, word)
        }
    }
}

fn on_storage(
    specifiers: SpecifiersPart,
    at: u32,
    word: StorageClass,
    context: &Context,
) -> Result<Option<Mode>, NoMemory>
    ensures { Moves result context.now (code.on_storage (specifiers_part_of specifiers) at (storage_of word) (stack_of context.now.stack) context.now.names) }
{
    if !takes_storage(specifiers_place(context)) || specifiers.has_storage {
        drop(specifiers);
        return Ok(None);
    }
    let more = add_storage(specifiers, at, word)?;
    Ok(Some(Mode::Specifiers(more)))
}

fn on_inline(
    specifiers: SpecifiersPart,
    at: u32,
    context: &Context,
) -> Result<Option<Mode>, NoMemory>
    ensures { Moves result context.now (code.on_specifiers (specifiers_part_of specifiers) (stack_of context.now.stack) context.now.names (k.token k.Inline at)) }
{
    let is_taken = takes_storage(specifiers_place(context));
    let more = add_inline(specifiers, at)?;
    Ok(end_if(is_taken, Mode::Specifiers(more)))
}

// `{` behind a tag, which begins a body.
fn on_body(
    alloc: Global,
    mut specifiers: SpecifiersPart,
    body_at: u32,
    context: &mut Context,
) -> Result<Option<Mode>, NoMemory>
    ensures { Moves result context.new (code.on_body_behind (last_of specifiers.last) (specifiers_part_of specifiers) body_at (stack_of context.old.stack) context.old.names) }
{
    match mem::replace(&mut specifiers.last, LastSpecifier::Whole) {
        LastSpecifier::Composite { at, word, tag } => {
            let frame = Frame::Members {
                specifiers,
                at,
                word,
                tag: Some(tag),
                body_at,
                members: no_member(alloc),
            };
            pushed(Mode::Members, frame, context)
        }
        LastSpecifier::Enum { at, tag } => {
            let frame = Frame::Enum {
                specifiers,
                at,
                tag: Some(tag),
                body_at,
            };
            pushed(Mode::Enumerator, frame, context)
        }
        LastSpecifier::Whole | LastSpecifier::Words { .. } => {
            drop(specifiers);
            Ok(None)
        }
    }
}

// Behind the specifiers of a declaration.
fn behind_declaration(
    alloc: Global,
    specifiers: SpecifiersPart,
    context: &mut Context,
    token: &Token,
) -> Result<Option<Mode>, NoMemory>
    ensures { Moves result context.new (code.after_specifiers code.of_declaration (specifiers_part_of specifiers) (stack_of context.old.stack) context.old.names (token_of token.now)) }
{
    let inits = no_inits(alloc);
    if is_semicolon(token) {
        let declaration = declaration_part(specifiers, inits)?;
        return declared_alone(alloc, declaration, context);
    }
    context.stack.push(Frame::Init { specifiers, inits })?;
    on_declarator(alloc, context, token)
}

/// Behind specifiers with a type.
fn on_typed(
    alloc: Global,
    specifiers: SpecifiersPart,
    context: &mut Context,
    token: &Token,
) -> Result<Option<Mode>, NoMemory>
    ensures { Moves result context.new (code.on_typed (specifiers_part_of specifiers) (stack_of context.old.stack) context.old.names (token_of token.now)) }
{
    match specifiers_place(context) {
        SpecifiersPlace::Declaration => behind_declaration(alloc, specifiers, context, token),
        SpecifiersPlace::Member => {
            let declarators = no_declarator_part(alloc);
            context.stack.push(Frame::Member {
                specifiers,
                declarators,
            })?;
            on_declarator(alloc, context, token)
        }
        SpecifiersPlace::Parameter => {
            context.stack.push(Frame::ParameterOf(specifiers))?;
            on_abstract(alloc, context, token)
        }
        SpecifiersPlace::TypeName => {
            context.stack.push(Frame::TypeName(specifiers))?;
            on_abstract(alloc, context, token)
        }
    }
}

/// Where specifiers stand, behind these.
pub fn on_specifiers(
    alloc: Global,
    specifiers: SpecifiersPart,
    context: &mut Context,
    token: &Token,
) -> Result<Option<Mode>, NoMemory>
    ensures { Moves result context.new (code.on_specifiers (specifiers_part_of specifiers) (stack_of context.old.stack) context.old.names (token_of token.now)) }
{
    let at = token.at;
    match token.kind {
        Kind::Name if !specifiers.has_type => on_name(specifiers, at, &token.name, context),
        Kind::TypeWord(word) => on_word(alloc, specifiers, at, word),
        Kind::Qualifier(word) => {
            let more = add_qualifier(specifiers, at, word)?;
            Ok(Some(Mode::Specifiers(more)))
        }
        Kind::Storage(word) => on_storage(specifiers, at, word, context),
        Kind::Inline => on_inline(specifiers, at, context),
        Kind::Composite(word) if !specifiers.has_type => {
            let mode = Mode::Composite {
                specifiers,
                at,
                word,
            };
            Ok(Some(mode))
        }
        Kind::Enum if !specifiers.has_type => Ok(Some(Mode::Enum { specifiers, at })),
        Kind::Composite(_) | Kind::Enum => {
            drop(specifiers);
            Ok(None)
        }
        Kind::LeftBrace => on_body(alloc, specifiers, at, context),
        _ if specifiers.has_type => on_typed(alloc, specifiers, context, token),
        _ => {
            drop(specifiers);
            Ok(None)
        }
    }
}

/// Behind `struct` or `union`.
pub fn on_composite(
    alloc: Global,
    specifiers: SpecifiersPart,
    at: u32,
    word: CompositeWord,
    context: &mut Context,
    token: &Token,
) -> Result<Option<Mode>, NoMemory>
    ensures { Moves result context.new (code.on_composite (specifiers_part_of specifiers) at (composite_of word) (stack_of context.old.stack) context.old.names (token_of token.now)) }
{
    match token.kind {
        Kind::Name => {
            let Ok(name) = token.name.clone() else {
                drop(specifiers);
                return Err(NoMemory);
            };
            let tag = Tag { at: token.at, name };
            let more = add_reference(specifiers, at, word, tag)?;
            Ok(Some(Mode::Specifiers(more)))
        }
        Kind::LeftBrace => {
            let specifiers = before_body(specifiers, at)?;
            let frame = Frame::Members {
                specifiers,
                at,
                word,
                tag: None,
                body_at: token.at,
                members: no_member(alloc),
            };
            pushed(Mode::Members, frame, context)
        }
        _ => {
            drop(specifiers);
            Ok(None)
        }
    }
}

/// Behind `enum`.
pub fn on_enum(
    specifiers: SpecifiersPart,
    at: u32,
    context: &mut Context,
    token: &Token,
) -> Result<Option<Mode>, NoMemory>
    ensures { Moves result context.new (code.on_enum (specifiers_part_of specifiers) at (stack_of context.old.stack) context.old.names (token_of token.now)) }
{
    match token.kind {
        Kind::Name => {
            let Ok(name) = token.name.clone() else {
                drop(specifiers);
                return Err(NoMemory);
            };
            let tag = Tag { at: token.at, name };
            let more = add_enum_reference(specifiers, at, tag)?;
            Ok(Some(Mode::Specifiers(more)))
        }
        Kind::LeftBrace => {
            let specifiers = before_body(specifiers, at)?;
            let frame = Frame::Enum {
                specifiers,
                at,
                tag: None,
                body_at: token.at,
            };
            pushed(Mode::Enumerator, frame, context)
        }
        _ => {
            drop(specifiers);
            Ok(None)
        }
    }
}

// Behind the `}` of a struct or union, which needs a member, the frame being taken off.
fn members_end_in(frame: Frame) -> Result<Option<Mode>, NoMemory>
    ensures { (nest : marks.Nest) (stack : marks.Stack) (names : List Identifier) → IfOk result (λ next. reached next stack names ≡ code.members_end (marks.above (frame_of frame) nest stack) names) }
{
    match frame {
        Frame::Members {
            specifiers,
            at,
            word,
            tag,
            body_at,
            members,
        } => {
            if are_no_members(&members) {
                drop(specifiers);
                drop(tag);
                drop(members);
                return Ok(None);
            }
            let more = add_composite(specifiers, at, word, tag, body_at, members)?;
            Ok(Some(Mode::Specifiers(more)))
        }
        other => {
            drop(other);
            Ok(None)
        }
    }
}

// Behind the `}` of a struct or union.
fn members_end(context: &mut Context) -> Result<Option<Mode>, NoMemory>
    ensures { Moves result context.new (code.members_end (stack_of context.old.stack) context.old.names) }
{
    match context.stack.pop() {
        Some(frame) => members_end_in(frame),
        None => Ok(None),
    }
}

/// Among the members of a struct or union.
pub fn on_members(
    alloc: Global,
    context: &mut Context,
    token: &Token,
) -> Result<Option<Mode>, NoMemory>
    ensures { Moves result context.new (code.on_members (stack_of context.old.stack) context.old.names (token_of token.now)) }
{
    if is_right_brace(token) {
        return members_end(context);
    }
    on_specifiers(alloc, no_specifier(alloc), context, token)
}

// The name of an enumeration constant: no typedef's.
fn on_constant_name(
    enumerators: EnumeratorsPart,
    at: u32,
    name: &Name,
    context: &Context,
) -> Result<Option<Mode>, NoMemory>
    ensures { Moves result context.now (code.on_constant_name (enumerators_part_of enumerators) name.now at (stack_of context.now.stack) context.now.names) }
{
    if context.names.is_typedef(name) {
        drop(enumerators);
        return Ok(None);
    }
    let Ok(name) = name.clone() else {
        drop(enumerators);
        return Err(NoMemory);
    };
    Ok(Some(Mode::AfterEnumerator {
        enumerators,
        at,
        name,
    }))
}

/// Where the first enumeration constant is wanted.
pub fn on_enumerator(
    alloc: Global,
    context: &Context,
    token: &Token,
) -> Result<Option<Mode>, NoMemory>
    ensures { Moves result context.now (code.on_enumerator (stack_of context.now.stack) context.now.names (token_of token.now)) }
{
    match token.kind {
        Kind::Name => on_constant_name(no_enumerator(alloc), token.at, &token.name, context),
        _ => Ok(None),
    }
}

/// Behind the name of an enumeration constant.
pub fn on_after_enumerator(
    enumerators: EnumeratorsPart,
    at: u32,
    name: Name,
    context: &mut Context,
    token: &Token,
) -> Result<Option<Mode>, NoMemory>
    ensures { Moves result context.new (code.on_after_enumerator (enumerators_part_of enumerators) at name (stack_of context.old.stack) context.old.names (token_of token.now)) }
{
    if is_equals(token) {
        let frame = Frame::Enumerator {
            enumerators,
            at,
            name,
        };
        return operand_on(frame, context);
    }
    let more = add_enumerator(enumerators, at, name, left_out_part())?;
    on_enumerator_value(more, context, token)
}

/// Behind the comma of an enum.
pub fn on_enumerator_comma(
    enumerators: EnumeratorsPart,
    context: &mut Context,
    token: &Token,
) -> Result<Option<Mode>, NoMemory>
    ensures { Moves result context.new (code.on_enumerator_comma (enumerators_part_of enumerators) (stack_of context.old.stack) context.old.names (token_of token.now)) }
{
    match token.kind {
        Kind::Name => on_constant_name(enumerators, token.at, &token.name, context),
        Kind::RightBrace => enumeration_end(enumerators, context),
        _ => {
            drop(enumerators);
            Ok(None)
        }
    }
}

/// Behind a value or a name of an enum.
pub fn on_enumerator_value(
    enumerators: EnumeratorsPart,
    context: &mut Context,
    token: &Token,
) -> Result<Option<Mode>, NoMemory>
    ensures { Moves result context.new (code.on_enumerator_value (enumerators_part_of enumerators) (stack_of context.old.stack) context.old.names (token_of token.now)) }
{
    if is_comma(token) {
        return Ok(Some(Mode::AfterEnumeratorComma(enumerators)));
    }
    if is_right_brace(token) {
        return enumeration_end(enumerators, context);
    }
    drop(enumerators);
    Ok(None)
}
