//! Specifiers, members and enumerators.

ghost use Rattle.std.specs.Prelude.{◌≡◌, ◌+◌, ◌≤◌, ◌&&◌, ◌++◌, ◌∷◌, [], Some, IfOk, length, nat_eq, nat_le, true};
ghost use Rattle.c_grammar.specs.Tokens as k;
ghost use Rattle.c_grammar.specs.Spelling.{is_typedef_word, same_word};
ghost use Rattle.c_reading.specs.Parts as part;
ghost use Rattle.c_parts.specs.Views.{
  declarators_part_of,
  enumerators_part_of,
  last_of,
  maybe_part_of,
  members_part_of,
  specifiers_part_of,
};
ghost use Rattle.c_tree.specs.Shape.{
  composite_of,
  declarators_of,
  member_onto,
  members_of,
  qualifier_of,
  specifier_of,
  specifiers_of,
  storage_of,
  tag_of,
  word_of,
  words_of,
};
ghost use Rattle.c_tree.specs.Trees.{MemberTrees, member_trees};

use crate::declarator::DeclaratorsPart;
use crate::expr::MaybePart;
use crate::height::deeper;
use crate::memory::extended;
use c_tree::{
    CompositeWord, Declarator, Enumerator, Member, Qualifier, Specifier, StorageClass, Tag,
    TypeWord,
};
use std::alloc::{AllocError, Global};
use tso_words::{Name, NoMemory};

/// The last specifier, as far as what follows may still change it.
#[derive(Drop)]
pub enum LastSpecifier {
    Whole,
    Words {
        at: u32,
        words: Vec<TypeWord>,
    },
    Composite {
        at: u32,
        word: CompositeWord,
        tag: Tag,
    },
    Enum {
        at: u32,
        tag: Tag,
    },
}

/// Specifiers: those that are whole, the last one, the byte of the first token, and which stand
/// there.
#[derive(Drop)]
pub struct SpecifiersPart {
    pub whole: Vec<Specifier>,
    pub last: LastSpecifier,
    pub start: Option<u32>,
    pub has_type: bool,
    pub has_storage: bool,
    pub declares_types: bool,
    pub height: u8,
}

/// The members of a struct or union.
#[derive(Drop)]
pub struct MembersPart {
    pub trees: Vec<Member>,
    pub height: u8,
}

/// The constants of an enum.
#[derive(Drop)]
pub struct EnumeratorsPart {
    pub trees: Vec<Enumerator>,
    pub height: u8,
}

// The specifiers with the last one.
#[tactic(auto, using(crate::proofs::Ends::specifiers_end))]
fn with_last(whole: Vec<Specifier>, last: LastSpecifier) -> Result<Vec<Specifier>, NoMemory>
    ensures { IfOk result (λ all. specifiers_of all.items ≡ part.with_last (specifiers_of whole.items) (last_of last)) }
{
    let specifier = match last {
        LastSpecifier::Whole => return Ok(whole),
        LastSpecifier::Words { at, words } => Specifier::Words { at, words },
        LastSpecifier::Composite { at, word, tag } => {
            Specifier::CompositeReference { at, word, tag }
        }
        LastSpecifier::Enum { at, tag } => Specifier::EnumReference { at, tag },
    };
    extended(whole, specifier)
}

/// All of the specifiers.
pub fn all_specifiers(specifiers: SpecifiersPart) -> Result<Vec<Specifier>, NoMemory>
    ensures { IfOk result (λ all. specifiers_of all.items ≡ part.specifier_trees (specifiers_part_of specifiers)) }
{
    with_last(specifiers.whole, specifiers.last)
}

// The byte of the first token, with that of what follows.
fn start_or(start: Option<u32>, at: u32) -> u32
    ensures { result ≡ part.start_or start at }
{
    match start {
        Some(first) => first,
        None => at,
    }
}

/// The byte of the first token, 0 where there is none.
pub fn start_place(specifiers: &SpecifiersPart) -> u32
    ensures { result ≡ part.start_place (specifiers_part_of specifiers.now) }
{
    start_or(specifiers.start, 0)
}

/// No specifiers.
pub fn no_specifier(alloc: Global) -> SpecifiersPart
    ensures { specifiers_part_of result ≡ part.no_specifier }
{
    SpecifiersPart {
        whole: Vec::new(alloc),
        last: LastSpecifier::Whole,
        start: None,
        has_type: false,
        has_storage: false,
        declares_types: false,
        height: 0,
    }
}

// One whole specifier more, which begins at `at`.
#[tactic(auto, using(crate::proofs::Ends::specifiers_end))]
fn with_specifier(
    specifiers: SpecifiersPart,
    at: u32,
    specifier: Specifier,
) -> Result<SpecifiersPart, NoMemory>
    ensures { IfOk result (λ s. specifiers_part_of s ≡ record (specifiers_part_of specifiers) { whole = part.add_spec (part.specifier_trees (specifiers_part_of specifiers)) (specifier_of specifier); last = part.no_last; start = Some (part.start_or specifiers.start at) }) }
{
    let whole = with_last(specifiers.whole, specifiers.last)?;
    Ok(SpecifiersPart {
        whole: extended(whole, specifier)?,
        last: LastSpecifier::Whole,
        start: Some(start_or(specifiers.start, at)),
        has_type: specifiers.has_type,
        has_storage: specifiers.has_storage,
        declares_types: specifiers.declares_types,
        height: specifiers.height,
    })
}

// The type, which begins at `at` and may still change.
fn with_type(
    specifiers: SpecifiersPart,
    at: u32,
    last: LastSpecifier,
) -> Result<SpecifiersPart, NoMemory>
    ensures { IfOk result (λ s. specifiers_part_of s ≡ record (specifiers_part_of specifiers) { whole = part.specifier_trees (specifiers_part_of specifiers); last = last_of last; start = Some (part.start_or specifiers.start at); has_type = true }) }
{
    Ok(SpecifiersPart {
        whole: with_last(specifiers.whole, specifiers.last)?,
        last,
        start: Some(start_or(specifiers.start, at)),
        has_type: true,
        has_storage: specifiers.has_storage,
        declares_types: specifiers.declares_types,
        height: specifiers.height,
    })
}

fn is_typedef_word(word: StorageClass) -> bool
    ensures { result ≡ is_typedef_word (storage_of word) }
{
    match word {
        StorageClass::Typedef => true,
        StorageClass::Extern | StorageClass::Static => false,
    }
}

/// `extern`, `static` or `typedef`.
pub fn add_storage(
    specifiers: SpecifiersPart,
    at: u32,
    word: StorageClass,
) -> Result<SpecifiersPart, NoMemory>
    ensures { IfOk result (λ s. specifiers_part_of s ≡ part.add_storage (specifiers_part_of specifiers) at (storage_of word)) }
{
    let mut more = with_specifier(specifiers, at, Specifier::Storage { at, word })?;
    more.has_storage = true;
    more.declares_types = is_typedef_word(word) || more.declares_types;
    Ok(more)
}

/// A qualifier.
pub fn add_qualifier(
    specifiers: SpecifiersPart,
    at: u32,
    word: Qualifier,
) -> Result<SpecifiersPart, NoMemory>
    ensures { IfOk result (λ s. specifiers_part_of s ≡ part.add_qualifier (specifiers_part_of specifiers) at (qualifier_of word)) }
{
    with_specifier(specifiers, at, Specifier::Qualifier { at, word })
}

/// `inline`.
pub fn add_inline(specifiers: SpecifiersPart, at: u32) -> Result<SpecifiersPart, NoMemory>
    ensures { IfOk result (λ s. specifiers_part_of s ≡ part.add_inline (specifiers_part_of specifiers) at) }
{
    with_specifier(specifiers, at, Specifier::Inline { at })
}

/// The first word of a type.
pub fn add_first_word(
    alloc: Global,
    specifiers: SpecifiersPart,
    at: u32,
    word: TypeWord,
) -> Result<SpecifiersPart, NoMemory>
    ensures { IfOk result (λ s. specifiers_part_of s ≡ part.add_first_word (specifiers_part_of specifiers) at (word_of word)) }
{
    let words = extended(Vec::new(alloc), word)?;
    with_type(specifiers, at, LastSpecifier::Words { at, words })
}

// How often a word stands among words.
fn words_count(word: TypeWord, words: &[TypeWord]) -> usize
    ensures count { result ≡ part.words_count (word_of word) (words_of words.now) }
    ensures within { result ≤ length words.now }
{
    match words {
        [] => 0,
        [first, rest @ ..] => same_word(word, *first) + words_count(word, rest),
    }
}

fn same_word(word: TypeWord, other: TypeWord) -> usize
    ensures same { result ≡ same_word (word_of word) (word_of other) }
    ensures within { result ≤ 1 }
{
    if word == other { 1 } else { 0 }
}

// How many of the words are `signed` or `unsigned`.
fn signs_count(words: &[TypeWord]) -> usize
    ensures count { result ≡ part.words_count k.Signed (words_of words.now) + part.words_count k.Unsigned (words_of words.now) }
    ensures within { result ≤ length words.now + length words.now }
{
    words_count(TypeWord::Signed, words) + words_count(TypeWord::Unsigned, words)
}

// Whether the words are as many.
#[tactic(auto, using(crate::proofs::Ends::words_length))]
fn are_so_many(words: &[TypeWord], number: usize) -> bool
    ensures { result ≡ nat_eq (length (words_of words.now)) number }
{
    words.len() == number
}

fn is_char(words: &[TypeWord]) -> bool
    ensures { result ≡ ((nat_eq (part.words_count k.Char (words_of words.now)) 1) && (nat_le (part.words_count k.Signed (words_of words.now) + part.words_count k.Unsigned (words_of words.now)) 1) && (nat_eq (length (words_of words.now)) (1 + (part.words_count k.Signed (words_of words.now) + part.words_count k.Unsigned (words_of words.now))))) }
{
    let signs = signs_count(words);
    words_count(TypeWord::Char, words) == 1 && signs <= 1 && are_so_many(words, 1 + signs)
}

fn is_short(words: &[TypeWord]) -> bool
    ensures { result ≡ ((nat_eq (part.words_count k.Short (words_of words.now)) 1) && (nat_le (part.words_count k.Int (words_of words.now)) 1) && (nat_le (part.words_count k.Signed (words_of words.now) + part.words_count k.Unsigned (words_of words.now)) 1) && (nat_eq (length (words_of words.now)) (1 + part.words_count k.Int (words_of words.now) + (part.words_count k.Signed (words_of words.now) + part.words_count k.Unsigned (words_of words.now))))) }
{
    let signs = signs_count(words);
    let ints = words_count(TypeWord::Int, words);
    words_count(TypeWord::Short, words) == 1
        && ints <= 1
        && signs <= 1
        && are_so_many(words, 1 + ints + signs)
}

// `int`, with `long` once, twice or not, and what has no other word.
fn is_long(words: &[TypeWord]) -> bool
    ensures { result ≡ ((nat_le (part.words_count k.Long (words_of words.now)) 2) && (nat_le (part.words_count k.Int (words_of words.now)) 1) && (nat_le (part.words_count k.Signed (words_of words.now) + part.words_count k.Unsigned (words_of words.now)) 1) && (nat_eq (length (words_of words.now)) (part.words_count k.Long (words_of words.now) + part.words_count k.Int (words_of words.now) + (part.words_count k.Signed (words_of words.now) + part.words_count k.Unsigned (words_of words.now))))) }
{
    let signs = signs_count(words);
    let ints = words_count(TypeWord::Int, words);
    let longs = words_count(TypeWord::Long, words);
    longs <= 2 && ints <= 1 && signs <= 1 && are_so_many(words, longs + ints + signs)
}

fn is_long_double(words: &[TypeWord]) -> bool
    ensures { result ≡ ((nat_eq (part.words_count k.Long (words_of words.now)) 1) && (nat_eq (part.words_count k.Double (words_of words.now)) 1) && (nat_eq (length (words_of words.now)) 2)) }
{
    words_count(TypeWord::Long, words) == 1
        && words_count(TypeWord::Double, words) == 1
        && are_so_many(words, 2)
}

/// Whether the words, in any order, name a type (ISO C99 6.7.2).
pub fn are_type(words: &[TypeWord]) -> bool
    ensures { result ≡ part.are_type (words_of words.now) }
{
    are_so_many(words, 1)
        || is_char(words)
        || is_short(words)
        || is_long(words)
        || is_long_double(words)
}

/// The words of the type, the first of which stands at `at`.
pub fn with_words(mut specifiers: SpecifiersPart, at: u32, words: Vec<TypeWord>) -> SpecifiersPart
    ensures { specifiers_part_of result ≡ record (specifiers_part_of specifiers) { last = part.last_words at (words_of words.items) } }
{
    specifiers.last = LastSpecifier::Words { at, words };
    specifiers
}

/// One more word.
#[tactic(auto, using(crate::proofs::Ends::words_end))]
pub fn add_word(words: Vec<TypeWord>, word: TypeWord) -> Result<Vec<TypeWord>, NoMemory>
    ensures { IfOk result (λ more. words_of more.items ≡ words_of words.items ++ word_of word ∷ []) }
{
    extended(words, word)
}

/// A typedef name.
pub fn add_typedef(
    specifiers: SpecifiersPart,
    at: u32,
    name: Name,
) -> Result<SpecifiersPart, NoMemory>
    ensures { IfOk result (λ s. specifiers_part_of s ≡ part.add_typedef (specifiers_part_of specifiers) at name) }
{
    let mut more = with_specifier(specifiers, at, Specifier::Typedef { at, name })?;
    more.has_type = true;
    Ok(more)
}

/// `struct` or `union` and a tag.
pub fn add_reference(
    specifiers: SpecifiersPart,
    at: u32,
    word: CompositeWord,
    tag: Tag,
) -> Result<SpecifiersPart, NoMemory>
    ensures { IfOk result (λ s. specifiers_part_of s ≡ part.add_reference (specifiers_part_of specifiers) at (composite_of word) tag.at tag.name) }
{
    with_type(specifiers, at, LastSpecifier::Composite { at, word, tag })
}

/// `enum` and a tag.
pub fn add_enum_reference(
    specifiers: SpecifiersPart,
    at: u32,
    tag: Tag,
) -> Result<SpecifiersPart, NoMemory>
    ensures { IfOk result (λ s. specifiers_part_of s ≡ part.add_enum_reference (specifiers_part_of specifiers) at tag.at tag.name) }
{
    with_type(specifiers, at, LastSpecifier::Enum { at, tag })
}

/// Those before the body of a struct, union or enum without a tag, which begins at `at`.
pub fn before_body(specifiers: SpecifiersPart, at: u32) -> Result<SpecifiersPart, NoMemory>
    ensures { IfOk result (λ s. specifiers_part_of s ≡ part.before_body (specifiers_part_of specifiers) at) }
{
    with_type(specifiers, at, LastSpecifier::Whole)
}

/// Behind the body of a struct or union.
#[tactic(auto, using(crate::proofs::Ends::specifiers_end, crate::proofs::Shapes::composite_shape))]
pub fn add_composite(
    specifiers: SpecifiersPart,
    at: u32,
    word: CompositeWord,
    tag: Option<Tag>,
    body_at: u32,
    members: MembersPart,
) -> Result<SpecifiersPart, NoMemory>
    ensures { IfOk result (λ s. specifiers_part_of s ≡ part.add_composite (specifiers_part_of specifiers) at (composite_of word) (tag_of tag) body_at (members_part_of members)) }
{
    let specifier = Specifier::Composite {
        at,
        word,
        tag,
        body_at,
        members: members.trees,
    };
    Ok(SpecifiersPart {
        whole: extended(specifiers.whole, specifier)?,
        last: specifiers.last,
        start: specifiers.start,
        has_type: specifiers.has_type,
        has_storage: specifiers.has_storage,
        declares_types: specifiers.declares_types,
        height: specifiers.height.max(deeper(members.height)),
    })
}

/// Behind the body of an enum.
#[tactic(auto, using(crate::proofs::Ends::specifiers_end, crate::proofs::Shapes::enumeration_shape))]
pub fn add_enumeration(
    specifiers: SpecifiersPart,
    at: u32,
    tag: Option<Tag>,
    body_at: u32,
    enumerators: EnumeratorsPart,
) -> Result<SpecifiersPart, NoMemory>
    ensures { IfOk result (λ s. specifiers_part_of s ≡ part.add_enumeration (specifiers_part_of specifiers) at (tag_of tag) body_at (enumerators_part_of enumerators)) }
{
    let specifier = Specifier::Enumeration {
        at,
        tag,
        body_at,
        enumerators: enumerators.trees,
    };
    Ok(SpecifiersPart {
        whole: extended(specifiers.whole, specifier)?,
        last: specifiers.last,
        start: specifiers.start,
        has_type: specifiers.has_type,
        has_storage: specifiers.has_storage,
        declares_types: specifiers.declares_types,
        height: specifiers.height.max(enumerators.height),
    })
}

fn is_void_last(last: &LastSpecifier) -> bool
    ensures { result ≡ part.is_void_last (last_of last.now) }
{
    match last {
        LastSpecifier::Words { words, .. } => is_void(words),
        LastSpecifier::Whole | LastSpecifier::Composite { .. } | LastSpecifier::Enum { .. } => {
            false
        }
    }
}

fn first_is_void(word: TypeWord) -> bool
    ensures { result ≡ part.is_void_list (word_of word ∷ []) }
{
    match word {
        TypeWord::Void => true,
        _ => false,
    }
}

#[tactic(auto, using(crate::proofs::Ends::one_word, crate::proofs::Ends::other_words))]
fn is_void(words: &[TypeWord]) -> bool
    ensures { result ≡ part.is_void_list (words_of words.now) }
{
    match words {
        [first] => first_is_void(*first),
        [] | [_, _, ..] => false,
    }
}

#[tactic(auto, using(crate::proofs::Ends::no_specs_told))]
fn are_no_specifiers(specifiers: &[Specifier]) -> bool
    ensures { result ≡ part.are_no_specs (specifiers_of specifiers.now) }
{
    match specifiers {
        [] => true,
        [_, ..] => false,
    }
}

/// Whether the specifiers are the word `void` alone.
pub fn are_void(specifiers: &SpecifiersPart) -> bool
    ensures { result ≡ part.are_void (specifiers_part_of specifiers.now) }
{
    is_void_last(&specifiers.last) && are_no_specifiers(&specifiers.whole)
}

/// No members.
pub fn no_member(alloc: Global) -> MembersPart
    ensures { members_part_of result ≡ part.no_member }
{
    MembersPart {
        trees: Vec::new(alloc),
        height: 0,
    }
}

/// Whether there are no members.
#[tactic(auto, using(crate::proofs::Ends::no_members_told))]
pub fn are_no_members(members: &MembersPart) -> bool
    ensures { result ≡ part.are_no_members (members_part_of members.now).trees }
{
    match members.trees.as_slice() {
        [] => true,
        [_, ..] => false,
    }
}

// A declaration of members.
#[tactic(auto, using(crate::proofs::Shapes::member_shape))]
fn made_member(at: u32, specifiers: Vec<Specifier>, declarators: Vec<Declarator>) -> Member
    ensures { (r : MemberTrees) → member_onto result r ≡ member_trees at (specifiers_of specifiers.items) (declarators_of declarators.items) r }
{
    Member {
        at,
        specifiers,
        declarators,
    }
}

/// One declaration of members more.
pub fn add_members(
    members: MembersPart,
    specifiers: SpecifiersPart,
    declarators: DeclaratorsPart,
) -> Result<MembersPart, NoMemory>
    ensures { IfOk result (λ ms. members_part_of ms ≡ part.add_members (members_part_of members) (specifiers_part_of specifiers) (declarators_part_of declarators)) }
{
    let inner = specifiers.height.max(declarators.height);
    let at = start_place(&specifiers);
    let member = made_member(at, all_specifiers(specifiers)?, declarators.trees);
    Ok(MembersPart {
        trees: extended(members.trees, member)?,
        height: members.height.max(inner),
    })
}

/// No enumerators.
pub fn no_enumerator(alloc: Global) -> EnumeratorsPart
    ensures { enumerators_part_of result ≡ part.no_enumerator }
{
    EnumeratorsPart {
        trees: Vec::new(alloc),
        height: 0,
    }
}

/// One enumerator more.
#[tactic(auto, using(crate::proofs::Ends::enumerators_end))]
pub fn add_enumerator(
    enumerators: EnumeratorsPart,
    at: u32,
    name: Name,
    value: MaybePart,
) -> Result<EnumeratorsPart, NoMemory>
    ensures { IfOk result (λ es. enumerators_part_of es ≡ part.add_enumerator (enumerators_part_of enumerators) at name (maybe_part_of value)) }
{
    let enumerator = Enumerator {
        at,
        name,
        value: value.tree,
    };
    Ok(EnumeratorsPart {
        trees: extended(enumerators.trees, enumerator)?,
        height: enumerators.height.max(value.height),
    })
}
