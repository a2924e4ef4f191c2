//! Type words.

ghost use Rattle.std.specs.Prelude.{◌≡◌, if◌then◌else◌};
ghost use Rattle.clight_types.specs.Types.{integer_type};
ghost use Rattle.c_tree.specs.Shape.{word_of, words_of};
ghost use Rattle.clight_typing.specs.Typing.{is_word, has_word, is_long_long, is_floating, words_integer, words_type};

use c_tree::TypeWord;
use clight_types::Integer;

/// The number of `void`.
const VOID_TYPE: usize = 0;

fn is_word(word: TypeWord, other: TypeWord) -> bool
    ensures { result ≡ is_word (word_of word) (word_of other) }
{
    word == other
}

fn has_word(word: TypeWord, words: &[TypeWord]) -> bool
    ensures { result ≡ has_word (word_of word) (words_of words.now) }
{
    for other in words {
        if is_word(word, *other) {
            return true;
        }
    }
    false
}

/// Whether `long` stands twice.
fn is_long_long(words: &[TypeWord]) -> bool
    ensures { result ≡ is_long_long (words_of words.now) }
{
    let mut is_long = false;
    for word in words {
        if is_word(TypeWord::Long, *word) {
            if is_long {
                return true;
            }
            is_long = true;
        }
    }
    false
}

/// Whether the words are those of a floating type or of `long long`.
pub fn is_floating(words: &[TypeWord]) -> bool
    ensures { result ≡ is_floating (words_of words.now) }
{
    has_word(TypeWord::Float, words) || has_word(TypeWord::Double, words) || is_long_long(words)
}

fn words_integer(words: &[TypeWord]) -> Integer
    ensures { result ≡ words_integer (words_of words.now) }
{
    let is_unsigned = has_word(TypeWord::Unsigned, words);
    if has_word(TypeWord::Char, words) {
        by_sign(is_unsigned, Integer::UnsignedChar, Integer::Char)
    } else if has_word(TypeWord::Short, words) {
        by_sign(is_unsigned, Integer::UnsignedShort, Integer::Short)
    } else {
        by_sign(is_unsigned, Integer::UnsignedInt, Integer::Int)
    }
}

fn by_sign(is_unsigned: bool, unsigned: Integer, signed: Integer) -> Integer
    ensures { result ≡ (if is_unsigned then unsigned else signed) }
{
    if is_unsigned { unsigned } else { signed }
}

/// The number of an integer type.
fn integer_type(i: Integer) -> usize
    ensures { result ≡ integer_type i }
{
    match i {
        Integer::Char => 1,
        Integer::UnsignedChar => 2,
        Integer::Short => 3,
        Integer::UnsignedShort => 4,
        Integer::Int => 5,
        Integer::UnsignedInt => 6,
    }
}

/// The number of the type of type words.
pub fn words_type(words: &[TypeWord]) -> usize
    ensures { result ≡ words_type (words_of words.now) }
{
    if has_word(TypeWord::Void, words) {
        VOID_TYPE
    } else {
        integer_type(words_integer(words))
    }
}
