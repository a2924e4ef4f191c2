//! Numbers of a text.
ghost use Rattle.std.specs.Prelude.{◌≡◌, ◌+◌, ◌*◌, ◌≤◌, Bool, List, MatchOption, ℕ};
ghost use Rattle.std.specs.Char.{digit_value};
ghost use Rattle.std.specs.Option.{option_map};
ghost use Rattle.x86_lines.specs.Numbers.{IsNumber};
ghost use Rattle.x86_lines.specs.Told.{IsTold, told};
ghost use Rattle.x86_lines.specs.Reading.{
  all_digits,
  hexadecimal_in,
  is_numeral,
  kept,
  marked_in,
  number_in,
  signed_in,
  value_on,
};

/// A number: whether it has a '-', and its size, where that is below 2^128.
#[derive(Clone, Copy, Debug, PartialEq, Eq)]
pub struct Number {
    pub negative: bool,
    pub size: Option<u128>,
}

// The value of a digit or a letter, and 36 for any other byte.
const fn digit_value(byte: u8) -> u8
    ensures exact { result ≡ digit_value byte }
    ensures small { result ≤ 36 }
{
    if byte < 48 {
        36
    } else if byte < 58 {
        byte - 48
    } else if byte < 65 {
        36
    } else if byte < 91 {
        byte - 55
    } else if byte < 97 {
        36
    } else if byte < 123 {
        byte - 87
    } else {
        36
    }
}

// Whether every byte is a digit of the base.
fn all_digits(radix: u8, digits: &[u8]) -> bool
    ensures { result ≡ all_digits radix digits.now }
{
    let mut rest = digits;
    while let [first, after @ ..] = rest {
        if digit_value(*first) >= radix {
            return false;
        }
        rest = after;
    }
    true
}

// Whether the bytes are digits of the base, and one at least.
fn is_numeral(radix: u8, digits: &[u8]) -> bool
    ensures { result ≡ is_numeral radix digits.now }
{
    match digits {
        [_, ..] => all_digits(radix, digits),
        [] => false,
    }
}

// One more digit of a size that is kept.
fn with_digit(size: u128, radix: u8, byte: u8) -> Option<u128>
    ensures { result ≡ kept (size * radix + digit_value byte) }
{
    let more = size.checked_mul(u128::from(radix))?;
    more.checked_add(u128::from(digit_value(byte)))
}

// The size of these digits.
fn size_of(radix: u8, digits: &[u8]) -> Option<u128>
    requires { 1 ≤ radix }
    ensures { result ≡ kept (value_on radix 0 digits.now) }
{
    let mut size: u128 = 0;
    let mut rest = digits;
    while let [first, after @ ..] = rest {
        match with_digit(size, radix, *first) {
            Some(more) => size = more,
            None => return None,
        }
        rest = after;
    }
    Some(size)
}

// The number of digits of a base.
fn signed_of(negative: bool, radix: u8, digits: &[u8]) -> Option<Number>
    requires { 1 ≤ radix }
    ensures { result ≡ option_map told (signed_in negative radix digits.now) }
{
    if is_numeral(radix, digits) {
        let size = size_of(radix, digits);
        Some(Number { negative, size })
    } else {
        None
    }
}

// The number behind the '0' of '0x'.
fn hexadecimal_of(bytes: &[u8]) -> Option<Number>
    ensures { result ≡ option_map told (hexadecimal_in bytes.now) }
{
    match bytes {
        [first, after @ ..] => {
            if *first == 120 {
                signed_of(false, 16, after)
            } else {
                None
            }
        }
        [] => None,
    }
}

// The number that begins with a '-' or with '0x'.
fn marked_of(bytes: &[u8]) -> Option<Number>
    ensures { result ≡ option_map told (marked_in bytes.now) }
{
    match bytes {
        [first, after @ ..] => {
            if *first == 45 {
                signed_of(true, 10, after)
            } else if *first == 48 {
                hexadecimal_of(after)
            } else {
                None
            }
        }
        [] => None,
    }
}

/// The same as `number_of`, in the order in which it is looked for.
pub fn found_number(word: &[u8]) -> Option<Number>
    ensures { result ≡ option_map told (number_in word.now) }
{
    if is_numeral(10, word) {
        signed_of(false, 10, word)
    } else {
        marked_of(word)
    }
}

/// The number that a piece is; None where it is none.
pub fn number_of(word: &[u8]) -> Option<Number>
    ensures { MatchOption result ((negative : Bool) (size : ℕ) → ¬ IsNumber word.now negative size) (λ n. IsTold word.now n) }
{
    found_number(word)
}

/// A piece is at most one number.
pub fn a_piece_is_one_number()
    ensures { (word : List ℕ) (negative other : Bool) (size next : ℕ) → IsNumber word negative size → IsNumber word other next → (negative ≡ other) × (size ≡ next) }
{}
