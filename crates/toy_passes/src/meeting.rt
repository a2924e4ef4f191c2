//! The laws that ties of machines have in common, at small instances.

ghost use Rattle.std.specs.Prelude.{◌≡◌, ℕ, Bool};
ghost use Rattle.tso_core.specs.Machine.{machine};
ghost use Rattle.tso_core.specs.Refinement.{Refines};
ghost use Rattle.tso_core.specs.Stated.{globals_of};
ghost use Rattle.toy_langs.specs.Meaning.{language_one, language_two};
ghost use Rattle.toy_passes.specs.Meeting.{Meet, no_measure, first_meets, item_by_item, item_by_item_keeps};
ghost use Rattle.tso_pairs.specs.Answering.{DrainsAnswered};

use toy_langs::{LangOne, One, Two};
use tso_pairs::laws::{LaggingSim, Pairs, drains_are_answered, lagging_lifts};

/// The first pass, by where its programs meet: `One` lags behind by its first step.
pub struct OneMeetsTwo;

impl LaggingSim for OneMeetsTwo {
    type Source = One;

    type Target = Two;

    ghost SourceState = { Bool };

    ghost TargetState = { Bool };

    ghost source = { language_one };

    ghost target = { language_two };

    ghost IsPair = { λ p q. (globals_of p.globals ≡ globals_of q.globals) × (q.word ≡ p.word) };

    ghost core = { λ p q. Meet };

    ghost measure = { λ p q. no_measure };

    ghost bound = { 0 };

    ghost tied = { first_meets };
}

/// What follows for the machines of the two programs.
pub fn one_refines_two(p: &One, q: &Two)
    requires globals { globals_of p.now.globals ≡ globals_of q.now.globals }
    requires word { q.now.word ≡ p.now.word }
    ensures { Refines (machine (language_one p.now)) (machine (language_two q.now)) 1 }
{
    lagging_lifts::<OneMeetsTwo>(p, q);
}

/// Buffers that are the same, item by item.
pub struct ItemByItem;

impl Pairs for ItemByItem {
    ghost pairing = { item_by_item };

    ghost keeps = { item_by_item_keeps };
}

/// What follows for the drains of a program's machine.
pub fn same_drains(p: &One)
    ensures { DrainsAnswered (language_one p.now) item_by_item }
{
    drains_are_answered::<LangOne, ItemByItem>(p);
}
