//! The flags that conditions read.

use x86_table::instruction::Condition;

/// The zero, sign, carry and overflow flags, ZF, SF, CF and OF of the manual. `None` is a flag of
/// which nothing is known.
#[derive(Clone, Copy, Debug, PartialEq, Eq)]
pub struct Flags {
    pub zero: Option<bool>,
    pub sign: Option<bool>,
    pub carry: Option<bool>,
    pub overflow: Option<bool>,
}

impl Flags {
    ghost use Rattle.std.specs.Prelude.{◌≡◌};
    ghost use Rattle.x86_steps.specs.Flags.{unknown, flags_of_sum, flags_of_difference, flags_of_bits, flags_of_match, holds};

    /// Nothing is known.
    pub fn unknown() -> Flags
        ensures { result ≡ unknown }
    {
        Flags {
            zero: None,
            sign: None,
            carry: None,
            overflow: None,
        }
    }

    /// The flags of `a + b`.
    pub fn of_sum(a: u32, b: u32) -> Flags
        ensures { result ≡ flags_of_sum a b }
    {
        let sum = a.wrapping_add(b);
        Flags {
            zero: Some(sum == 0),
            sign: Some(sum >= 0x8000_0000),
            carry: Some(a.checked_add(b).is_none()),
            overflow: Some(a.cast_signed().checked_add(b.cast_signed()).is_none()),
        }
    }

    /// The flags of `a - b`.
    pub fn of_difference(a: u32, b: u32) -> Flags
        ensures { result ≡ flags_of_difference a b }
    {
        let difference = a.wrapping_sub(b);
        Flags {
            zero: Some(difference == 0),
            sign: Some(difference >= 0x8000_0000),
            carry: Some(a < b),
            overflow: Some(a.cast_signed().checked_sub(b.cast_signed()).is_none()),
        }
    }

    /// The flags of a bitwise operation that gave this word.
    pub fn of_bits(word: u32) -> Flags
        ensures { result ≡ flags_of_bits word }
    {
        Flags {
            zero: Some(word == 0),
            sign: Some(word >= 0x8000_0000),
            carry: Some(false),
            overflow: Some(false),
        }
    }

    /// The zero flag alone.
    pub fn of_match(same: bool) -> Flags
        ensures { result ≡ flags_of_match same }
    {
        Flags {
            zero: Some(same),
            sign: None,
            carry: None,
            overflow: None,
        }
    }

    /// Whether a condition holds; `None` where a flag that it names is not known, also where the
    /// others would decide it.
    pub fn holds(&self, condition: Condition) -> Option<bool>
        ensures { result ≡ holds condition self.now }
    {
        match condition {
            Condition::Equal => self.zero,
            Condition::NotEqual => opposite(self.zero),
            Condition::Less => differ(self.sign, self.overflow),
            Condition::GreaterOrEqual => opposite(differ(self.sign, self.overflow)),
            Condition::LessOrEqual => either(self.zero, differ(self.sign, self.overflow)),
            Condition::Greater => opposite(either(self.zero, differ(self.sign, self.overflow))),
            Condition::Below => self.carry,
            Condition::AboveOrEqual => opposite(self.carry),
            Condition::BelowOrEqual => either(self.carry, self.zero),
            Condition::Above => opposite(either(self.carry, self.zero)),
        }
    }
}

ghost use Rattle.std.specs.Prelude.{◌≡◌};
ghost use Rattle.x86_steps.specs.Flags.{either as either_in, differ as differ_in, opposite as opposite_in};

fn either(a: Option<bool>, b: Option<bool>) -> Option<bool>
    ensures { result ≡ either_in a b }
{
    match (a, b) {
        (Some(a), Some(b)) => Some(a || b),
        _ => None,
    }
}

fn differ(a: Option<bool>, b: Option<bool>) -> Option<bool>
    ensures { result ≡ differ_in a b }
{
    match (a, b) {
        (Some(a), Some(b)) => Some(a != b),
        _ => None,
    }
}

fn opposite(a: Option<bool>) -> Option<bool>
    ensures { result ≡ opposite_in a }
{
    match a {
        Some(a) => Some(!a),
        None => None,
    }
}
