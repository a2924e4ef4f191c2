//! The numbers that the fields of a line write.

ghost use Rattle.std.specs.Prelude.{◌≡◌, ◌≤◌, ◌<◌, ◌+◌, ◌*◌, ◌^◌, IfSome, SomeIff};
ghost use Rattle.schedule_text.specs.Text.{digit_value as digit_number};
ghost use Rattle.schedule_text.specs.Scanning.{choice_behind_zero, choice_of, count_of, digits_from, negative_of, number_of, thread_of};

const WORDS: u64 = 4_294_967_296;

// The value of a digit; 16 for a byte that is none.
const fn digit_value(byte: u8) -> u64
    ensures value { result ≡ digit_number byte }
    ensures small { result ≤ 16 }
{
    if 48 <= byte && byte <= 57 {
        byte as u64 - 48
    } else if 65 <= byte && byte <= 70 {
        byte as u64 - 55
    } else if 97 <= byte && byte <= 102 {
        byte as u64 - 87
    } else {
        16
    }
}

// One more digit behind a number.
fn with_digit(base: u64, number: u64, digit: u64) -> Option<u64>
    ensures { SomeIff result (base * number + digit < 2 ^ 64) (base * number + digit) }
{
    base.checked_mul(number)?.checked_add(digit)
}

// The number that a field of digits writes.
fn digits(base: u64, field: &[u8]) -> Option<u64>
    ensures { result ≡ digits_from base 0 field.now }
{
    let mut number = 0;
    let mut rest = field;
    while let [first, after @ ..] = rest {
        let digit = digit_value(*first);
        if digit >= base {
            return None;
        }
        number = with_digit(base, number, digit)?;
        rest = after;
    }
    Some(number)
}

fn number(base: u64, most: usize, limit: u64, field: &[u8]) -> Option<u64>
    ensures value { result ≡ number_of base most limit field.now }
    ensures small { IfSome result (λ n. n ≤ limit) }
{
    if field.is_empty() || field.len() > most {
        return None;
    }
    let number = digits(base, field)?;
    if number <= limit { Some(number) } else { None }
}

fn word(base: u64, most: usize, field: &[u8]) -> Option<u32>
    ensures { result ≡ number_of base most 4294967295 field.now }
{
    let number = number(base, most, 4_294_967_295, field)?;
    Some(number as u32)
}

/// The number of a thread, below 2^32.
pub fn thread(field: &[u8]) -> Option<u32>
    ensures { result ≡ thread_of field.now }
{
    word(10, 20, field)
}

/// A count of steps, below 2^64.
pub fn count(field: &[u8]) -> Option<u64>
    ensures { result ≡ count_of field.now }
{
    number(10, 20, 18_446_744_073_709_551_615, field)
}

fn negative(field: &[u8]) -> Option<u32>
    ensures { result ≡ negative_of field.now }
{
    let number = number(10, 20, 2_147_483_648, field)?;
    Some(((WORDS - number) % WORDS) as u32)
}

fn choice_behind_zero(field: &[u8], behind: &[u8]) -> Option<u32>
    ensures { result ≡ choice_behind_zero field.now behind.now }
{
    match behind {
        [mark, digits @ ..] => {
            if *mark == b'x' {
                word(16, 8, digits)
            } else {
                thread(field)
            }
        }
        [] => thread(field),
    }
}

/// A choice, as a word.
pub fn choice(field: &[u8]) -> Option<u32>
    ensures { result ≡ choice_of field.now }
{
    match field {
        [first, behind @ ..] => {
            if *first == b'-' {
                negative(behind)
            } else if *first == b'0' {
                choice_behind_zero(field, behind)
            } else {
                thread(field)
            }
        }
        [] => None,
    }
}
