//! A request that is rewritten.
ghost use Rattle.std.specs.Prelude.{◌≡◌, ◌+◌, ◌*◌, ◌≤◌, IfOk, OnOk, OnErr, if◌then◌else◌};
ghost use Rattle.rewrite.specs.Rewriting.{next_of, new_target, answer_after, rewritten};
ghost use Rattle.rewrite.specs.Passing.{again, taken_by, pass_by, limit_answer};

use crate::choices::Choices;
use crate::next::{Next, new_target};
use conditions::{Matchers, Steps};
use http_target::Target;
use lt_bytes::NoMemory;
use std::alloc::Global;
use std::sync::ledger::Ledger;

/// How a rewriting ends.
#[derive(Clone, Copy, Debug, PartialEq, Eq)]
pub enum Rewritten {
    /// No new target was made.
    Same,
    New,
    /// A 101st new target would have been made. It isn't read.
    Loop,
    /// A new target was too long, or bad.
    Bad,
}

/// What one look at the lists comes to.
pub(crate) enum Pass {
    Kept,
    Bad,
    /// A new target, with which the rewriting ends.
    Once,
    /// A new target, with which all begins again.
    Repeat,
}

/// No request has more new targets.
const MOST: u32 = 100;

/// Takes a new target in the place of the old one, unless it is too long or bad.
fn take<C: Choices>(
    alloc: Global,
    choices: &C,
    target: &mut Target,
    conds: &mut C::Conds,
    text: &[u8],
) -> Result<bool, NoMemory>
    ensures taken { IfOk result (λ taken. (taken, target.new) ≡ taken_by (new_target text.now) target.old) }
    ensures right { C.right choices.now target.old conds.old → C.right choices.now target.new conds.new }
    ensures asked { IfOk result (λ taken. C.asked conds.new ≡ (if taken then 0 else C.asked conds.old)) }
    ensures err { OnErr result (C.asked conds.new ≡ C.asked conds.old) }
{
    let Some(new) = new_target(alloc, text)? else {
        return Ok(false);
    };
    choices.set_target(conds);
    *target = new;
    Ok(true)
}

/// One look at the lists, and the new target that is taken.
fn look<C: Choices, L: Ledger>(
    alloc: Global,
    choices: &C,
    target: &mut Target,
    conds: &mut C::Conds,
    matchers: &mut Matchers<'_>,
    steps: &mut Steps<L>,
) -> Result<Pass, NoMemory>
    requires right { C.right choices.now target.old conds.old }
    requires patterns { C.belongs choices.now matchers.old }
    ensures pass { IfOk result (λ pass. (pass, target.new) ≡ pass_by (next_of (C.lists choices.now target.old) target.old.raw) target.old) }
    ensures right { C.right choices.now target.new conds.new }
    ensures steps { IfOk result (λ pass. steps.new + C.asked conds.old ≤ steps.old + again pass (C.most choices.now) + C.asked conds.new) }
    ensures err { OnErr result (steps.new + C.asked conds.old ≤ steps.old + C.asked conds.new + 1) }
    ensures matchers { matchers.new ≡ matchers.old }
{
    match choices.next(alloc, target, conds, matchers, steps)? {
        Next::Kept => Ok(Pass::Kept),
        Next::Once(text) => {
            if take(alloc, choices, target, conds, text.bytes())? {
                Ok(Pass::Once)
            } else {
                Ok(Pass::Bad)
            }
        }
        Next::Repeat(text) => {
            if take(alloc, choices, target, conds, text.bytes())? {
                Ok(Pass::Repeat)
            } else {
                Ok(Pass::Bad)
            }
        }
    }
}

/// The answer where no rule makes a new target, after so many.
fn answer_after(passes: u32) -> Rewritten
    ensures { result ≡ answer_after passes }
{
    if passes == 0 {
        Rewritten::Same
    } else {
        Rewritten::New
    }
}

/// The answer where no new target may be taken any more.
fn at_limit(next: &Next) -> Rewritten
    ensures { result ≡ limit_answer next.now }
{
    match next {
        Next::Kept => Rewritten::New,
        Next::Once(_) | Next::Repeat(_) => Rewritten::Loop,
    }
}

/// Rewrites the target of a request, of which `conds` is what was found of the conditions, and then on the new target.
///
/// After want of memory the target may be any that was reached.
pub fn rewrite<C: Choices, L: Ledger>(
    alloc: Global,
    choices: &C,
    target: &mut Target,
    conds: &mut C::Conds,
    matchers: &mut Matchers<'_>,
    steps: &mut Steps<L>,
) -> Result<Rewritten, NoMemory>
    requires right { C.right choices.now target.old conds.old }
    requires patterns { C.belongs choices.now matchers.old }
    ensures answer { IfOk result (λ answer. answer ≡ (rewritten (C.lists choices.now) target.old).answer) }
    ensures target { OnOk result (target.new ≡ (rewritten (C.lists choices.now) target.old).target) }
    ensures right { C.right choices.now target.new conds.new }
    ensures steps { OnOk result (steps.new + C.asked conds.old
        ≤ steps.old + (rewritten (C.lists choices.now) target.old).passes * C.most choices.now + C.asked conds.new) }
    ensures bounded { steps.new + C.asked conds.old
        ≤ steps.old + (rewritten (C.lists choices.now) target.old).passes * C.most choices.now + C.asked conds.new + 1 }
    ensures matchers { matchers.new ≡ matchers.old }
{
    let mut passes = 0u32;
    while passes < MOST {
        match look(alloc, choices, target, conds, matchers, steps) {
            Ok(Pass::Kept) => return Ok(answer_after(passes)),
            Ok(Pass::Bad) => return Ok(Rewritten::Bad),
            Ok(Pass::Once) => return Ok(Rewritten::New),
            Ok(Pass::Repeat) => {}
            Err(NoMemory) => return Err(NoMemory),
        }
        passes += 1;
    }
    let last = choices.next(alloc, target, conds, matchers, steps)?;
    Ok(at_limit(&last))
}
