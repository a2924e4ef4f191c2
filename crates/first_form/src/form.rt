//! The form, told by the tokens of a file.

ghost use Rattle.std.specs.Prelude.{◌≡◌, ◌≤◌, ℕ, Some, MatchOption, decimal, length, map};
ghost use Rattle.c_tokens.specs.Constants.{IsWord};
ghost use Rattle.c_tokens.specs.Tokens.{Tokens};
ghost use Rattle.first_form.specs.Form.{TenTokens, word_in};
ghost use Rattle.first_form.specs.Telling.{AreWithin, are_ten, are_words};

use c_tokens::{Token, TokenKind, TokenList, integer_constant};
use itoa::Buffer;

/// The largest constant of the form.
const LARGEST: u32 = 2_147_483_647;

/// The place of the constant among the ten words.
const NUMBER_PLACE: usize = 7;

// The bytes of a token.
fn word_of(bytes: &[u8], token: Token) -> &[u8]
    requires order { token.from ≤ token.to }
    requires within { token.to ≤ length bytes.now }
    ensures { result.now ≡ word_in bytes.now token }
{
    &bytes[token.from as usize..token.to as usize]
}

// Whether the tokens are these words.
fn are_words(bytes: &[u8], mut tokens: &[Token], mut words: &[&[u8]]) -> bool
    requires { AreWithin (length bytes.now) tokens.now }
    ensures { result ≡ are_words bytes.now tokens.now (map (λ word. word.now) words.now) }
{
    while let [token, tokens_after @ ..] = tokens {
        let [word, words_after @ ..] = words else {
            return false;
        };
        if word_of(bytes, *token) != *word {
            return false;
        }
        tokens = tokens_after;
        words = words_after;
    }
    words.is_empty()
}

// Whether the tokens are the ten words with this number.
fn are_ten(bytes: &[u8], tokens: &[Token], number: u32) -> bool
    requires { AreWithin (length bytes.now) tokens.now }
    ensures { result ≡ are_ten bytes.now tokens.now number }
{
    let mut buffer = Buffer::new();
    let digits = buffer.format(number).as_bytes();
    let words: [&[u8]; 10] = [
        b"int", b"main", b"(", b"void", b")", b"{", b"return", digits, b";", b"}",
    ];
    number <= LARGEST && are_words(bytes, tokens, &words)
}

// The value of an integer constant; of digits it is their number.
fn value_of(kind: TokenKind, word: &[u8]) -> Option<u32>
    requires { IsWord kind word.now }
    ensures { (n : ℕ) → n ≤ 2147483647 → word.now ≡ decimal n → result ≡ Some n }
{
    if kind == TokenKind::Integer {
        Some(integer_constant(word).value)
    } else {
        None
    }
}

/// The constant N of a file of the form, told by the tokens of the file; nothing for any other file.
pub fn constant_of(bytes: &[u8], tokens: &TokenList) -> Option<u32>
    requires { Tokens bytes.now tokens.now.list.items tokens.now.bad }
    ensures { MatchOption result ((n : ℕ) → TenTokens bytes.now n → ⊥) (λ n. TenTokens bytes.now n) }
{
    let Some(token) = tokens.list.get(NUMBER_PLACE) else {
        return None;
    };
    let Some(number) = value_of(token.kind, word_of(bytes, *token)) else {
        return None;
    };
    if tokens.bad.is_none() && are_ten(bytes, &tokens.list, number) {
        Some(number)
    } else {
        None
    }
}
