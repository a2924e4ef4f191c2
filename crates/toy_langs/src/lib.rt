//! Three small thread languages, in which the laws of refinement are tried: a program ends with a
//! word, after a step of its own (`One`, `Three`) or at once (`Two`).
#![tactic(auto)]

ghost use Rattle.std.specs.Prelude.{Bool};
ghost use Rattle.toy_langs.specs.Meaning.{language_one, language_two, language_three, one_lawful, two_lawful, three_lawful};

use std::alloc::Global;
use tso_core::language::ThreadLang;
use tso_core::offer::{Answer, Offer};
use tso_core::placement::{Globals, Placement};
use tso_words::{NoMemory, Val};

/// A program that ends with `word` in its second step.
#[derive(Drop)]
pub struct One {
    pub globals: Globals,
    pub word: u32,
}

/// A program that ends with `word` in its first step.
#[derive(Drop)]
pub struct Two {
    pub globals: Globals,
    pub word: u32,
}

/// A program that ends with `word` in its second step.
#[derive(Drop)]
pub struct Three {
    pub globals: Globals,
    pub word: u32,
}

/// The languages of these programs. A thread is whether it has made its first step.
pub struct LangOne;

pub struct LangTwo;

pub struct LangThree;

impl ThreadLang for LangOne {
    type Program = One;

    type Thread = bool;

    ghost State = { Bool };

    ghost state_of = { λ t. t };

    ghost language = { language_one };

    ghost lawful = { one_lawful };

    #[tactic(auto, unfolding(crate::specs::Meaning::language_one))]
    fn globals(p: &One) -> &Globals {
        &p.globals
    }

    #[tactic(auto, unfolding(crate::specs::Meaning::language_one))]
    fn first(_alloc: Global, _p: &One, _at: &Placement) -> Result<bool, NoMemory> {
        Ok(false)
    }

    #[tactic(auto, unfolding(crate::specs::Meaning::language_one))]
    fn started(
        _alloc: Global,
        _p: &One,
        _at: &Placement,
        _fun: Val,
        _arg: Val,
    ) -> Result<Option<bool>, NoMemory> {
        Ok(None)
    }

    #[tactic(auto, unfolding(crate::specs::Meaning::language_one))]
    fn offer(_alloc: Global, p: &One, _at: &Placement, t: &bool) -> Result<Offer, NoMemory> {
        if *t {
            Ok(Offer::Exit {
                word: Val::Word(p.word),
            })
        } else {
            Ok(Offer::Silent)
        }
    }

    #[tactic(auto, unfolding(crate::specs::Meaning::language_one))]
    fn resume(
        _alloc: Global,
        _p: &One,
        _at: &Placement,
        t: &mut bool,
        _a: Answer,
    ) -> Result<(), NoMemory> {
        *t = true;
        Ok(())
    }
}

impl ThreadLang for LangTwo {
    type Program = Two;

    type Thread = bool;

    ghost State = { Bool };

    ghost state_of = { λ t. t };

    ghost language = { language_two };

    ghost lawful = { two_lawful };

    #[tactic(auto, unfolding(crate::specs::Meaning::language_two))]
    fn globals(p: &Two) -> &Globals {
        &p.globals
    }

    #[tactic(auto, unfolding(crate::specs::Meaning::language_two))]
    fn first(_alloc: Global, _p: &Two, _at: &Placement) -> Result<bool, NoMemory> {
        Ok(false)
    }

    #[tactic(auto, unfolding(crate::specs::Meaning::language_two))]
    fn started(
        _alloc: Global,
        _p: &Two,
        _at: &Placement,
        _fun: Val,
        _arg: Val,
    ) -> Result<Option<bool>, NoMemory> {
        Ok(None)
    }

    #[tactic(auto, unfolding(crate::specs::Meaning::language_two))]
    fn offer(_alloc: Global, p: &Two, _at: &Placement, _t: &bool) -> Result<Offer, NoMemory> {
        Ok(Offer::Exit {
            word: Val::Word(p.word),
        })
    }

    #[tactic(auto, unfolding(crate::specs::Meaning::language_two))]
    fn resume(
        _alloc: Global,
        _p: &Two,
        _at: &Placement,
        t: &mut bool,
        _a: Answer,
    ) -> Result<(), NoMemory> {
        *t = true;
        Ok(())
    }
}

impl ThreadLang for LangThree {
    type Program = Three;

    type Thread = bool;

    ghost State = { Bool };

    ghost state_of = { λ t. t };

    ghost language = { language_three };

    ghost lawful = { three_lawful };

    #[tactic(auto, unfolding(crate::specs::Meaning::language_three))]
    fn globals(p: &Three) -> &Globals {
        &p.globals
    }

    #[tactic(auto, unfolding(crate::specs::Meaning::language_three))]
    fn first(_alloc: Global, _p: &Three, _at: &Placement) -> Result<bool, NoMemory> {
        Ok(false)
    }

    #[tactic(auto, unfolding(crate::specs::Meaning::language_three))]
    fn started(
        _alloc: Global,
        _p: &Three,
        _at: &Placement,
        _fun: Val,
        _arg: Val,
    ) -> Result<Option<bool>, NoMemory> {
        Ok(None)
    }

    #[tactic(auto, unfolding(crate::specs::Meaning::language_three))]
    fn offer(_alloc: Global, p: &Three, _at: &Placement, t: &bool) -> Result<Offer, NoMemory> {
        if *t {
            Ok(Offer::Exit {
                word: Val::Word(p.word),
            })
        } else {
            Ok(Offer::Silent)
        }
    }

    #[tactic(auto, unfolding(crate::specs::Meaning::language_three))]
    fn resume(
        _alloc: Global,
        _p: &Three,
        _at: &Placement,
        t: &mut bool,
        _a: Answer,
    ) -> Result<(), NoMemory> {
        *t = true;
        Ok(())
    }
}
