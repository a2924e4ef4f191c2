//! The tokens of a file.
ghost use Rattle.std.specs.Prelude.{◌≡◌, ◌≤◌, length, ◌<◌, All, IfOk, IfSome, MatchOption};
ghost use Rattle.c_tokens.specs.Constants.{IsWordOf};
ghost use Rattle.c_tokens.specs.Scanning.{HasNoToken, IsTokenAt};
ghost use Rattle.c_tokens.specs.Tokens.{AreInOrder, Tokens};

use crate::gap::behind_gap;
use crate::lexeme::{behind_lexeme, is_token, kind_of};
use crate::token::Token;
use std::alloc::{AllocError, Global};
use tso_words::NoMemory;

/// The tokens of a file in order, and the place of the first byte that begins none, if there is
/// one: there the list ends.
#[derive(Drop)]
pub struct TokenList {
    pub list: Vec<Token>,
    pub bad: Option<u32>,
}

// The token at the front, and what stands behind it.
fn token_at(size: usize, here: &[u8]) -> Option<(Token, &[u8])>
    requires within { length here.now ≤ size }
    requires small { size ≤ 4194304 }
    ensures { MatchOption result (HasNoToken here.now) (λ r. IsTokenAt size here.now r.0 r.1.now) }
{
    let Some(after) = behind_lexeme(here) else {
        return None;
    };
    let word = &here[..here.len() - after.len()];
    let kind = kind_of(word);
    if is_token(kind, word, after) {
        let from = (size - here.len()) as u32;
        let to = (size - after.len()) as u32;
        Some((Token { kind, from, to }, after))
    } else {
        None
    }
}

/// The tokens of a file: the longest matches in order, with blanks, comments and line markers
/// between them. `NoMemory` where the list cannot grow.
pub fn tokens(alloc: Global, bytes: &[u8]) -> Result<TokenList, NoMemory>
    requires { length bytes.now ≤ 4194304 }
    ensures exact { IfOk result (λ tokens. Tokens bytes.now tokens.list.items tokens.bad) }
    ensures in_order { IfOk result (λ tokens. AreInOrder (length bytes.now) 0 tokens.list.items) }
    ensures words { IfOk result (λ tokens. All (IsWordOf bytes.now) tokens.list.items) }
    ensures bad_within { IfOk result (λ tokens. IfSome tokens.bad (λ place. place < length bytes.now)) }
{
    let size = bytes.len();
    let mut list = Vec::new(alloc);
    let mut here = behind_gap(true, bytes);
    while !here.is_empty() {
        let Some((token, after)) = token_at(size, here) else {
            let bad = (size - here.len()) as u32;
            return Ok(TokenList {
                list,
                bad: Some(bad),
            });
        };
        match list.push(token) {
            Ok(()) => {}
            Err(failed) => return Err(AllocError::from(failed).into()),
        }
        here = behind_gap(false, after);
    }
    Ok(TokenList { list, bad: None })
}
