//! The passes, and their composition.

ghost use Rattle.std.specs.Prelude.{◌*◌, IfOk};
ghost use Rattle.tso_core.specs.Machine.{machine};
ghost use Rattle.tso_core.specs.Refinement.{Refines};
ghost use Rattle.toy_langs.specs.Meaning.{language_one, language_two, language_three};

use crate::ties::{OneToTwo, TwoToThree};
use toy_langs::{LangOne, LangThree, LangTwo, One, Three, Two};
use tso_core::laws::{refines_compose, sim_lifts};
use tso_core::traced::{Threaded, Traced};
use tso_words::NoMemory;

/// The factors on steps.
pub const FIRST_PACE: u32 = 1;

pub const SECOND_PACE: u32 = 2;

/// The same word, without the step in front.
pub fn first_pass(p: &One) -> Result<Two, NoMemory>
    ensures { IfOk result (λ out. Refines (machine (language_one p.now)) (machine (language_two out)) FIRST_PACE) }
{
    let globals = p.globals.clone()?;
    let out = Two {
        globals,
        word: p.word,
    };
    sim_lifts::<OneToTwo>(p, &out);
    Ok(out)
}

/// The same word, with a step in front.
pub fn second_pass(p: &Two) -> Result<Three, NoMemory>
    ensures { IfOk result (λ out. Refines (machine (language_two p.now)) (machine (language_three out)) SECOND_PACE) }
{
    let globals = p.globals.clone()?;
    let out = Three {
        globals,
        word: p.word,
    };
    sim_lifts::<TwoToThree>(p, &out);
    Ok(out)
}

/// One pass behind the other.
pub fn both(p: &One) -> Result<Three, NoMemory>
    ensures { IfOk result (λ out. Refines (machine (language_one p.now)) (machine (language_three out)) (FIRST_PACE * SECOND_PACE)) }
{
    let two = first_pass(p)?;
    let three = second_pass(&two)?;
    refines_compose::<Threaded<LangOne>, Threaded<LangTwo>, Threaded<LangThree>>(p, &two, &three);
    Ok(three)
}

/// Three machines of any kind, with two refinements that the caller has.
pub fn generic<P: Traced, Q: Traced, R: Traced>(p: &P::Program, q: &Q::Program, r: &R::Program)
    requires first { Refines (P.system p.now) (Q.system q.now) 3 }
    requires second { Refines (Q.system q.now) (R.system r.now) 4 }
    ensures { Refines (P.system p.now) (R.system r.now) 12 }
{
    refines_compose::<P, Q, R>(p, q, r);
}
