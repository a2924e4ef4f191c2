//! The lines of a text, one after the other.
ghost use Rattle.std.specs.Prelude.{◌≡◌, ◌-◌, ◌<◌, ◌≤◌, [], ◌∷◌, IfSome, MatchOption, length};
ghost use Rattle.x86_text.specs.Cutting.{line_len, past_feed};
ghost use Rattle.x86_text.specs.Text.{lines};

/// A line without its end, and what stands behind that.
#[derive(Clone, Copy)]
pub struct FirstLine<'a> {
    pub line: &'a [u8],
    pub rest: &'a [u8],
}

// The number of bytes before the first line feed.
fn line_len(bytes: &[u8]) -> usize
    ensures exact { result ≡ line_len bytes.now }
    ensures within { result ≤ length bytes.now }
{
    let mut count = 0;
    let mut rest = bytes;
    while let [first, after @ ..] = rest {
        if *first == 10 {
            return count;
        }
        count += 1;
        rest = after;
    }
    count
}

// What stands behind a line feed.
fn past_feed(bytes: &[u8]) -> &[u8]
    ensures exact { result.now ≡ past_feed bytes.now }
    ensures shorter { length result.now ≤ length bytes.now - 1 }
{
    match bytes {
        [] => bytes,
        [_, after @ ..] => after,
    }
}

/// The first line of a text; None where it has none.
pub fn first_line(bytes: &[u8]) -> Option<FirstLine<'_>>
    ensures cut { MatchOption result (lines bytes.now ≡ []) (λ first. lines bytes.now ≡ first.line.now ∷ lines first.rest.now) }
    ensures shorter { IfSome result (λ first. length first.rest.now < length bytes.now) }
{
    if bytes.is_empty() {
        return None;
    }
    let (line, behind) = bytes.split_at(line_len(bytes));
    Some(FirstLine {
        line,
        rest: past_feed(behind),
    })
}
