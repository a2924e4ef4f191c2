//! The pieces of a line, one after the other.
ghost use Rattle.std.specs.Prelude.{◌≡◌, ◌↔◌, [], ◌∷◌, IsTrue, MatchOption, ◌≤◌, length};
ghost use Rattle.x86_table.specs.Names.{begins_name, is_of_name, IsName};
ghost use Rattle.x86_lines.specs.Pieces.{is_blank, pieces};
ghost use Rattle.x86_lines.specs.Reading.{all_of_name, behind_first, is_name, opens, past_blanks, run};

/// A piece and what stands behind it.
#[derive(Clone, Copy)]
pub struct Piece<'a> {
    pub word: &'a [u8],
    pub rest: &'a [u8],
}

// Whether the byte is a space or a tab.
const fn is_blank(byte: u8) -> bool
    ensures { result ≡ is_blank byte }
{
    byte == 32 || byte == 9
}

// Whether a name may begin with the byte.
const fn begins_name(byte: u8) -> bool
    ensures { result ≡ begins_name byte }
{
    (65 <= byte && byte <= 90) || (97 <= byte && byte <= 122) || byte == 95 || byte == 46
}

// Whether the byte may stand in a name.
const fn is_of_name(byte: u8) -> bool
    ensures { result ≡ is_of_name byte }
{
    begins_name(byte) || (48 <= byte && byte <= 57)
}

// Whether a word may begin with the byte.
const fn opens(byte: u8) -> bool
    ensures { result ≡ opens byte }
{
    is_of_name(byte) || byte == 37 || byte == 45
}

/// What stands behind blanks.
pub fn past_blanks(bytes: &[u8]) -> &[u8]
    ensures { result.now ≡ past_blanks bytes.now }
{
    let mut rest = bytes;
    while let [first, after @ ..] = rest {
        if !is_blank(*first) {
            return rest;
        }
        rest = after;
    }
    rest
}

// The length of the longest run of bytes of names at the front.
fn run(bytes: &[u8]) -> usize
    ensures exact { result ≡ run bytes.now }
    ensures within { result ≤ length bytes.now }
{
    let mut count = 0;
    let mut rest = bytes;
    while let [first, after @ ..] = rest {
        if !is_of_name(*first) {
            return count;
        }
        count += 1;
        rest = after;
    }
    count
}

// Whether every byte may stand in a name.
fn all_of_name(bytes: &[u8]) -> bool
    ensures { result ≡ all_of_name bytes.now }
{
    let mut rest = bytes;
    while let [first, after @ ..] = rest {
        if !is_of_name(*first) {
            return false;
        }
        rest = after;
    }
    true
}

/// The same as `is_name`, byte by byte.
pub fn passes_as_name(word: &[u8]) -> bool
    ensures { result ≡ is_name word.now }
{
    match word {
        [first, after @ ..] => begins_name(*first) && all_of_name(after),
        [] => false,
    }
}

/// Whether a piece is a name.
pub fn is_name(word: &[u8]) -> bool
    ensures { IsTrue result ↔ IsName word.now }
{
    passes_as_name(word)
}

// How many bytes of the piece stand behind its first one.
fn behind_first(first: u8, after: &[u8]) -> usize
    ensures exact { result ≡ behind_first first after.now }
    ensures within { result ≤ length after.now }
{
    if opens(first) { run(after) } else { 0 }
}

// The piece at the front of a line that begins with no blank.
fn first_piece(line: &[u8]) -> Option<Piece<'_>>
    requires { past_blanks line.now ≡ line.now }
    ensures { MatchOption result (pieces line.now ≡ []) (λ p. pieces line.now ≡ p.word.now ∷ pieces p.rest.now) }
{
    match line {
        [first, after @ ..] => {
            let (word, rest) = line.split_at(1 + behind_first(*first, after));
            Some(Piece { word, rest })
        }
        [] => None,
    }
}

/// The first piece of a line; None where it has none.
pub fn next_piece(line: &[u8]) -> Option<Piece<'_>>
    ensures { MatchOption result (pieces line.now ≡ []) (λ p. pieces line.now ≡ p.word.now ∷ pieces p.rest.now) }
{
    first_piece(past_blanks(line))
}
