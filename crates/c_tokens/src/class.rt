//! Sets of bytes, and the runs of them at the front of a text.
ghost use Rattle.std.specs.Prelude.{◌≡◌, option_copied};
ghost use Rattle.c_tokens.specs.Scanning.{behind, behind_byte, behind_one, begins, members};

/// A set of bytes.
#[derive(Clone, Copy)]
pub enum Class {
    Space,
    Decimal,
    Octal,
    Hexadecimal,
    /// The letter behind the '0' of a hexadecimal constant.
    HexadecimalMark,
    Letter,
    LetterOrDigit,
    /// What may not stand behind an integer constant.
    GoesOn,
    /// All but the line feed.
    InLine,
    UnsignedMark,
    LongMark,
    /// What stands behind a backslash for one number.
    Escape,
    /// What stands for itself between quotes.
    Plain,
}

const fn is_decimal(byte: u8) -> bool
    ensures { result ≡ members Class.Decimal byte }
{
    48 <= byte && byte <= 57
}

const fn is_hexadecimal(byte: u8) -> bool
    ensures { result ≡ members Class.Hexadecimal byte }
{
    is_decimal(byte) || (65 <= byte && byte <= 70) || (97 <= byte && byte <= 102)
}

const fn is_letter(byte: u8) -> bool
    ensures { result ≡ members Class.Letter byte }
{
    (65 <= byte && byte <= 90) || (97 <= byte && byte <= 122) || byte == 95
}

const fn is_letter_or_digit(byte: u8) -> bool
    ensures { result ≡ members Class.LetterOrDigit byte }
{
    is_letter(byte) || is_decimal(byte)
}

const fn is_space(byte: u8) -> bool
    ensures { result ≡ members Class.Space byte }
{
    byte == 32 || byte == 9 || byte == 13 || byte == 12 || byte == 11
}

const fn is_escape(byte: u8) -> bool
    ensures { result ≡ members Class.Escape byte }
{
    byte == 110
        || byte == 116
        || byte == 114
        || byte == 97
        || byte == 98
        || byte == 102
        || byte == 118
        || byte == 92
        || byte == 39
        || byte == 34
        || byte == 63
}

const fn is_plain(byte: u8) -> bool
    ensures { result ≡ members Class.Plain byte }
{
    32 <= byte && byte <= 126 && byte != 39 && byte != 92
}

/// Whether the byte is of the set.
pub fn contains(class: Class, byte: u8) -> bool
    ensures { result ≡ members class byte }
{
    match class {
        Class::Space => is_space(byte),
        Class::Decimal => is_decimal(byte),
        Class::Octal => 48 <= byte && byte <= 55,
        Class::Hexadecimal => is_hexadecimal(byte),
        Class::HexadecimalMark => byte == 120 || byte == 88,
        Class::Letter => is_letter(byte),
        Class::LetterOrDigit => is_letter_or_digit(byte),
        Class::GoesOn => is_letter_or_digit(byte) || byte == 46,
        Class::InLine => byte != 10,
        Class::UnsignedMark => byte == 117 || byte == 85,
        Class::LongMark => byte == 108 || byte == 76,
        Class::Escape => is_escape(byte),
        Class::Plain => is_plain(byte),
    }
}

/// Whether a byte of the set stands at the front.
pub fn begins(class: Class, bytes: &[u8]) -> bool
    ensures { result ≡ begins (members class) bytes.now }
{
    match bytes {
        [first, ..] => contains(class, *first),
        [] => false,
    }
}

/// What stands behind the longest run of bytes of the set at the front.
pub fn behind(class: Class, bytes: &[u8]) -> &[u8]
    ensures { result.now ≡ behind (members class) bytes.now }
{
    let mut rest = bytes;
    while let [first, after @ ..] = rest {
        if !contains(class, *first) {
            return rest;
        }
        rest = after;
    }
    rest
}

/// What stands behind at most one byte of the set.
pub fn behind_one(class: Class, bytes: &[u8]) -> &[u8]
    ensures { result.now ≡ behind_one (members class) bytes.now }
{
    match bytes {
        [first, after @ ..] => {
            if contains(class, *first) {
                after
            } else {
                bytes
            }
        }
        [] => bytes,
    }
}

/// What stands behind this byte.
pub fn behind_byte(byte: u8, bytes: &[u8]) -> Option<&[u8]>
    ensures { option_copied result ≡ behind_byte byte bytes.now }
{
    match bytes {
        [first, after @ ..] => { if *first == byte { Some(after) } else { None } }
        [] => None,
    }
}
