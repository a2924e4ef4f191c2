//! The ties of the two passes.

ghost use Rattle.std.specs.Prelude.{◌≡◌, ℕ, Bool};
ghost use Rattle.tso_core.specs.Stated.{globals_of};
ghost use Rattle.toy_langs.specs.Meaning.{language_one, language_two, language_three};
ghost use Rattle.toy_passes.specs.Ties.{FirstTied, SecondTied, first_tied, second_tied};

use toy_langs::{One, Three, Two};
use tso_core::laws::ThreadSim;

/// The first step of `One` is left out.
pub struct OneToTwo;

impl ThreadSim for OneToTwo {
    type Source = One;

    type Target = Two;

    ghost SourceState = { Bool };

    ghost TargetState = { Bool };

    ghost source = { language_one };

    ghost target = { language_two };

    ghost IsPair = { λ p q. (globals_of p.globals ≡ globals_of q.globals) × (q.word ≡ p.word) };

    ghost related = { λ p q at s t n. FirstTied s t n };

    ghost bound = { 0 };

    ghost tied = { first_tied };
}

/// A first step is put in front.
pub struct TwoToThree;

impl ThreadSim for TwoToThree {
    type Source = Two;

    type Target = Three;

    ghost SourceState = { Bool };

    ghost TargetState = { Bool };

    ghost source = { language_two };

    ghost target = { language_three };

    ghost IsPair = { λ p q. (globals_of p.globals ≡ globals_of q.globals) × (q.word ≡ p.word) };

    ghost related = { λ p q at s t n. SecondTied s t n };

    ghost bound = { 1 };

    ghost tied = { second_tied };
}
