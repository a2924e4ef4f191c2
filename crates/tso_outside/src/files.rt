// A list of files in memory: finding a name in it, reading a file and changing one.
ghost use Rattle.std.specs.Prelude.{[], ◌≡◌, ◌⊎◌, ◌+◌, ◌++◌, ◌<◌, ◌≤◌, ℕ, length, take, drop, min, Some, None, MatchOption, OnOk, OnErr, IsOk};
ghost use Rattle.tso_outside.specs.Counting.{is_due, one_more};
ghost use Rattle.tso_outside.specs.Entries.{IsPlaceOf, entries};
ghost use Rattle.tso_outside.specs.Views.{Spares, held, or_empty};

use std::alloc::AllocError;

/// Counts a call, and says whether it is to fail.
pub fn is_failing(calls: &mut u64, failing: &[u64]) -> bool
    ensures counted { calls.new ≡ one_more calls.old }
    ensures due { result ≡ is_due failing.now calls.old }
{
    let number = *calls;
    *calls = number.saturating_add(1);
    failing.contains(&number)
}

/// The place of the first file with this name.
pub fn place_of(files: &[(String, Vec<u8>)], name: &str) -> Option<usize>
    ensures { MatchOption result (held (entries files.now) name.now ≡ None) (IsPlaceOf (entries files.now) name.now) }
{
    for (i, file) in files.iter().enumerate() {
        if file.0.as_str() == name {
            return Some(i);
        }
    }
    None
}

/// Copies first bytes of `source` to the front of `into`, as many as it takes and at most `most`.
pub fn copy_front(source: &[u8], most: usize, into: &mut [u8]) -> usize
    ensures count { result ≡ min most (min (length into.new) (length source.now)) }
    ensures front { source.now ≡ take result into.new ++ drop result source.now }
{
    let count = most.min(into.len().min(source.len()));
    into[..count].copy_from_slice(&source[..count]);
    count
}

/// The bytes of a file from a place on.
pub fn rest(bytes: &[u8], from: u64) -> &[u8]
    ensures { result.now ≡ drop from bytes.now }
{
    match usize::try_from(from) {
        Ok(place) if place <= bytes.len() => &bytes[place..],
        _ => &bytes[bytes.len()..],
    }
}

fn append_at(
    files: &mut Vec<(String, Vec<u8>)>,
    place: usize,
    name: &str,
    piece: &[u8],
) -> Result<(), AllocError>
    requires { IsPlaceOf (entries files.old.items) name.now place }
    ensures spares { Spares name.now (entries files.old.items) (entries files.new.items) }
    ensures ok { OnOk result (held (entries files.new.items) name.now ≡ Some (or_empty (held (entries files.old.items) name.now) ++ piece.now)) }
    ensures err { OnErr result (held (entries files.new.items) name.now ≡ held (entries files.old.items) name.now) }
{
    files[place].1.extend_from_slice(piece)
}

fn empty_at(files: &mut Vec<(String, Vec<u8>)>, place: usize, name: &str)
    requires { IsPlaceOf (entries files.old.items) name.now place }
    ensures spares { Spares name.now (entries files.old.items) (entries files.new.items) }
    ensures empty { held (entries files.new.items) name.now ≡ Some [] }
{
    files[place].1.clear();
}

fn add(files: &mut Vec<(String, Vec<u8>)>, name: &str, piece: &[u8]) -> Result<(), AllocError>
    requires { held (entries files.old.items) name.now ≡ None }
    ensures spares { Spares name.now (entries files.old.items) (entries files.new.items) }
    ensures ok { OnOk result (held (entries files.new.items) name.now ≡ Some piece.now) }
    ensures err { OnErr result (held (entries files.new.items) name.now ≡ None) }
{
    let alloc = *files.allocator();
    let bytes = Vec::from_slice(alloc, piece)?;
    files.push((String::from_str(alloc, name)?, bytes))?;
    Ok(())
}

/// Puts a piece behind the bytes of a file, which is made where it is missing.
pub fn append_to(
    files: &mut Vec<(String, Vec<u8>)>,
    name: &str,
    piece: &[u8],
) -> Result<(), AllocError>
    ensures spares { Spares name.now (entries files.old.items) (entries files.new.items) }
    ensures ok { OnOk result (held (entries files.new.items) name.now ≡ Some (or_empty (held (entries files.old.items) name.now) ++ piece.now)) }
    ensures err { OnErr result (held (entries files.new.items) name.now ≡ held (entries files.old.items) name.now) }
{
    match place_of(files, name) {
        Some(place) => append_at(files, place, name, piece),
        None => add(files, name, piece),
    }
}

/// Makes a file empty. Only a missing file takes memory.
pub fn make_empty(files: &mut Vec<(String, Vec<u8>)>, name: &str) -> Result<(), AllocError>
    ensures spares { Spares name.now (entries files.old.items) (entries files.new.items) }
    ensures ok { OnOk result (held (entries files.new.items) name.now ≡ Some []) }
    ensures err { OnErr result (held (entries files.new.items) name.now ≡ held (entries files.old.items) name.now) }
    ensures missing { OnErr result (held (entries files.old.items) name.now ≡ None) }
{
    match place_of(files, name) {
        Some(place) => {
            empty_at(files, place, name);
            Ok(())
        }
        None => add(files, name, &[]),
    }
}
