//! The tokens of a file, as the grammar takes them.

ghost use Rattle.std.specs.Prelude.{◌≡◌, ◌≤◌, [], ◌∷◌, ◌++◌, All, IfOk, OnOk, length, slice_range};
ghost use Rattle.c_reading.specs.FileTokens.{AreFileTokens, IsWithin, refused_at, tokens_of};
ghost use Rattle.c_reading.specs.Kinds.{kind_of};
ghost use Rattle.c_reading.specs.Words.{IsKindOf};
ghost use Rattle.c_tokens.specs.Constants.{IsWordOf};

use crate::token::{Kind, kind_at};
use c_tokens::{Token, TokenList, tokens};
use std::alloc::{AllocError, Global};
use tso_words::NoMemory;

/// A token of a file: what the grammar takes it for, and its bytes, from `from` up to `to`.
#[derive(Clone, Copy)]
pub struct FileToken {
    pub kind: Kind,
    pub from: u32,
    pub to: u32,
}

// What the grammar takes a scanned token for.
fn taken(bytes: &[u8], token: Token) -> FileToken
    requires word { IsWordOf bytes.now token }
    requires ordered { token.from ≤ token.to }
    requires within { token.to ≤ length bytes.now }
    ensures kind { IsKindOf token.kind (slice_range bytes.now token.from token.to) (kind_of (slice_range bytes.now token.from token.to) result.kind) }
    ensures from { result.from ≡ token.from }
    ensures to { result.to ≡ token.to }
{
    let word = &bytes[token.from as usize..token.to as usize];
    FileToken {
        kind: kind_at(token.kind, word),
        from: token.from,
        to: token.to,
    }
}

// One token more.
fn add(list: &mut Vec<FileToken>, token: FileToken) -> Result<(), NoMemory>
    ensures { OnOk result (list.new.items ≡ list.old.items ++ token ∷ []) }
{
    match list.push(token) {
        Ok(()) => Ok(()),
        Err(failed) => Err(AllocError::from(failed).into()),
    }
}

// The bad token behind the others, if there is one.
fn add_bad(list: &mut Vec<FileToken>, bad: Option<u32>) -> Result<(), NoMemory>
    ensures { OnOk result (list.new.items ≡ list.old.items ++ refused_at bad) }
{
    match bad {
        Some(place) => add(
            list,
            FileToken {
                kind: Kind::Refused,
                from: place,
                to: place,
            },
        ),
        None => Ok(()),
    }
}

/// The tokens of a file of at most 4,194,304 bytes in order, with the bad token behind them, if
/// there is one. `NoMemory` where the list cannot grow.
pub fn file_tokens(alloc: Global, bytes: &[u8]) -> Result<Vec<FileToken>, NoMemory>
    requires { length bytes.now ≤ 4194304 }
    ensures exact { IfOk result (λ list. AreFileTokens bytes.now (tokens_of bytes.now list.items)) }
    ensures within { IfOk result (λ list. All (IsWithin (length bytes.now)) list.items) }
{
    let TokenList { list, bad } = tokens(alloc, bytes)?;
    let mut kinds = Vec::new(alloc);
    for token in &list {
        add(&mut kinds, taken(bytes, *token))?;
    }
    add_bad(&mut kinds, bad)?;
    Ok(kinds)
}
