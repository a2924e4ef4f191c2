//! The lines of a text, and the fields of a line.

ghost use Rattle.std.specs.Prelude.{◌≡◌, ◌<◌, ◌≤◌, length};
ghost use Rattle.schedule_text.specs.Scanning.{behind, behind_field, behind_line, first_field, first_line, front, members};

/// A set of bytes.
#[derive(Clone, Copy)]
pub enum Class {
    Blank,
    /// All but the blanks.
    InField,
    /// All but the line feed.
    InLine,
}

const fn is_blank(byte: u8) -> bool
    ensures { result ≡ members Class.Blank byte }
{
    byte == 32 || byte == 9 || byte == 13
}

fn contains(class: Class, byte: u8) -> bool
    ensures { result ≡ members class byte }
{
    match class {
        Class::Blank => is_blank(byte),
        Class::InField => !is_blank(byte),
        Class::InLine => byte != 10,
    }
}

// What stands behind the longest run of bytes of the class.
fn behind(class: Class, bytes: &[u8]) -> &[u8]
    ensures behind { result.now ≡ behind (members class) bytes.now }
    ensures shorter { length result.now ≤ length bytes.now }
{
    let mut rest = bytes;
    while let [first, after @ ..] = rest {
        if !contains(class, *first) {
            return rest;
        }
        rest = after;
    }
    rest
}

// The longest run of bytes of the class, and what stands behind it.
fn split(class: Class, bytes: &[u8]) -> (&[u8], &[u8])
    ensures front { result.0.now ≡ front (members class) bytes.now }
    ensures behind { result.1.now ≡ behind (members class) bytes.now }
    ensures shorter { length result.1.now ≤ length bytes.now }
{
    let rest = behind(class, bytes);
    (&bytes[..bytes.len() - rest.len()], rest)
}

/// The first line of a text without its line feed, and the lines behind it.
pub fn split_line(bytes: &[u8]) -> (&[u8], &[u8])
    ensures line { result.0.now ≡ first_line bytes.now }
    ensures behind { result.1.now ≡ behind_line bytes.now }
    ensures shorter { 0 < length bytes.now → length result.1.now < length bytes.now }
{
    let (line, rest) = split(Class::InLine, bytes);
    match rest {
        [_, after @ ..] => (line, after),
        [] => (line, rest),
    }
}

/// The first field of a line, which is empty where there is none, and what stands behind it.
pub fn split_field(line: &[u8]) -> (&[u8], &[u8])
    ensures field { result.0.now ≡ first_field line.now }
    ensures behind { result.1.now ≡ behind_field line.now }
{
    split(Class::InField, behind(Class::Blank, line))
}
