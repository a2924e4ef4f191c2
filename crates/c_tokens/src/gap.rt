//! What may stand between tokens: blanks, comments and line markers.
ghost use Rattle.std.specs.Prelude.{◌≡◌, ◌<◌, length, Bool, option_copied};
ghost use Rattle.c_tokens.specs.Scanning.{behind_comment, behind_marker, behind_piece, behind_slash, stays_fresh};
ghost use Rattle.c_tokens.specs.Tokens.{Gap, IsPast};

use crate::class::{Class, begins, behind, contains};

// What stands behind the first '*/'.
fn behind_comment(text: &[u8]) -> Option<&[u8]>
    ensures { option_copied result ≡ behind_comment text.now }
{
    let mut rest = text;
    while let [first, after @ ..] = rest {
        if let [second, end @ ..] = after {
            if *first == 42 && *second == 47 {
                return Some(end);
            }
        }
        rest = after;
    }
    None
}

// What stands behind a line marker whose '#' has been read.
fn behind_marker(text: &[u8]) -> Option<&[u8]>
    ensures { option_copied result ≡ behind_marker text.now }
{
    let number = behind(Class::Space, text);
    if begins(Class::Decimal, number) {
        Some(behind(Class::InLine, number))
    } else {
        None
    }
}

// What stands behind a comment whose first '/' has been read.
fn behind_slash(text: &[u8]) -> Option<&[u8]>
    ensures { option_copied result ≡ behind_slash text.now }
{
    match text {
        [second, after @ ..] => {
            if *second == 47 {
                Some(behind(Class::InLine, after))
            } else if *second == 42 {
                behind_comment(after)
            } else {
                None
            }
        }
        [] => None,
    }
}

// What stands behind one blank, comment or line marker.
fn behind_piece(fresh: bool, bytes: &[u8]) -> Option<&[u8]>
    ensures { option_copied result ≡ behind_piece fresh bytes.now }
{
    match bytes {
        [first, after @ ..] => {
            if contains(Class::Space, *first) {
                Some(after)
            } else if *first == 10 {
                Some(after)
            } else if *first == 47 {
                behind_slash(after)
            } else if *first == 35 && fresh {
                behind_marker(after)
            } else {
                None
            }
        }
        [] => None,
    }
}

// Whether only blanks stand on the line before what is behind the first piece.
fn stays_fresh(fresh: bool, bytes: &[u8]) -> bool
    ensures { result ≡ stays_fresh fresh bytes.now }
{
    match bytes {
        [first, ..] => {
            if contains(Class::Space, *first) {
                fresh
            } else {
                *first == 10
            }
        }
        [] => fresh,
    }
}

/// What stands behind the longest gap. `fresh`: on this line only blanks stand before.
pub fn behind_gap(fresh: bool, bytes: &[u8]) -> &[u8]
    ensures { (now : Bool) × Gap fresh bytes.now now result.now × IsPast now result.now }
{
    let mut is_fresh = fresh;
    let mut rest = bytes;
    while let Some(after) = behind_piece(is_fresh, rest) {
        is_fresh = stays_fresh(is_fresh, rest);
        rest = after;
    }
    rest
}
