//! Files: from the bytes to the tree, or the exact place of the fault.

ghost use Rattle.std.specs.Prelude.{◌≡◌, ◌≤◌, IfOk, length, slice_range};
ghost use Rattle.c_frames.specs.Readers.{mode_of, reader_of, token_of};
ghost use Rattle.c_reader.specs.Reading.{Ends, GoesOn, Reads};
ghost use Rattle.c_reading.specs.Code as code;
ghost use Rattle.c_reading.specs.Kinds.{kind_of};
ghost use Rattle.c_reading.specs.FileTokens.{IsWithin, token_of as listed_of};

use crate::feed::{feed, start};
use c_frames::{Context, Mode, Stack, Token, deepest};
use c_reading::listed::{FileToken, file_tokens};
use c_reading::token::Kind;
use c_tree::File;
use std::alloc::Global;
use thiserror::Error;
use tso_words::{Name, NoMemory};

/// The nesting that a file may have at most.
pub const NESTING_LIMIT: u8 = 200;

/// Why a file is not read; `at` is a byte of the file.
#[derive(Clone, Copy, PartialEq, Eq, Debug, Error)]
pub enum ReadFileRefusal {
    #[error("syntax: byte {at}")]
    Syntax { at: u32 },
    #[error("too deep: byte {at}")]
    TooDeep { at: u32 },
    #[error("no memory")]
    NoMemory,
}

impl From<NoMemory> for ReadFileRefusal {
    ghost use Rattle.std.specs.Prelude.{◌≡◌};
    ghost use Rattle.c_reader.specs.declared.file.ReadFileRefusal.{ReadFileRefusal};

    ghost from_gives = { λ _ r. r ≡ ReadFileRefusal.NoMemory };

    fn from(_: NoMemory) -> ReadFileRefusal {
        ReadFileRefusal::NoMemory
    }
}

// The bytes of a listed token, where it is a name.
fn name_bytes(bytes: &[u8], listed: FileToken) -> &[u8]
    requires { IsWithin (length bytes.now) listed }
    ensures { kind_of result.now listed.kind ≡ kind_of (slice_range bytes.now listed.from listed.to) listed.kind }
{
    match listed.kind {
        Kind::Name => &bytes[listed.from as usize..listed.to as usize],
        _ => &bytes[..0],
    }
}

// A listed token, as the reader takes it.
fn token_at(alloc: Global, bytes: &[u8], listed: FileToken) -> Result<Token, NoMemory>
    requires { IsWithin (length bytes.now) listed }
    ensures { IfOk result (λ token. token_of token ≡ listed_of bytes.now listed) }
{
    let name = Name::made(alloc, name_bytes(bytes, listed))?;
    Ok(Token {
        at: listed.from,
        kind: listed.kind,
        name,
    })
}

// The mode behind one token more, unless no file goes on so or the token nests too deep.
fn read_token(
    alloc: Global,
    mode: Mode,
    context: &mut Context,
    token: &Token,
) -> Result<Mode, ReadFileRefusal>
    ensures { GoesOn (reader_of mode context.old) (token_of token.now) context.new result }
{
    let at = token.at;
    let Some(next) = feed(alloc, mode, context, token)? else {
        return Err(ReadFileRefusal::Syntax { at });
    };
    if NESTING_LIMIT < deepest(&next, context) {
        drop(next);
        return Err(ReadFileRefusal::TooDeep { at });
    }
    Ok(next)
}

// Whether nothing is begun that is not ended.
fn is_between(mode: &Mode) -> bool
    ensures { result ≡ code.is_in_file (mode_of mode.now) }
{
    match mode {
        Mode::File => true,
        _ => false,
    }
}

// The file, where all its tokens are read.
fn file_end(mode: Mode, context: Context, size: u32) -> Result<File, ReadFileRefusal>
    ensures { Ends (reader_of mode context) size result }
{
    let is_whole = is_between(&mode);
    drop(mode);
    if !is_whole {
        drop(context);
        return Err(ReadFileRefusal::Syntax { at: size });
    }
    let Context { stack, names } = context;
    drop(names);
    let Stack { file, entries } = stack;
    drop(entries);
    Ok(File {
        externals: file.trees,
    })
}

/// The tree of a file of at most 4,194,304 bytes, with the places of its nodes: exactly where the
/// file is of the grammar and nests at most 200 deep up to each token. Else `Syntax` at the first
/// token with which no file begins so, or `TooDeep` at the first with which each such file nests
/// deeper, whichever comes first in the file; the file's length is the place of a file that ends
/// too soon.
pub fn read_file(alloc: Global, bytes: &[u8]) -> Result<File, ReadFileRefusal>
    requires { length bytes.now ≤ 4194304 }
    ensures { Reads bytes.now result }
{
    let tokens = file_tokens(alloc, bytes)?;
    let mut context = start(alloc);
    let mut mode = Mode::File;
    for listed in &tokens {
        let token = token_at(alloc, bytes, *listed)?;
        mode = read_token(alloc, mode, &mut context, &token)?;
    }
    file_end(mode, context, bytes.len() as u32)
}
