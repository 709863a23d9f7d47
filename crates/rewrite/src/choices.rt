//! Which rules win on a target.
use crate::next::Next;
use conditions::{Matchers, Steps};
use http_target::Target;
use lt_bytes::NoMemory;
use std::alloc::Global;
use std::sync::ledger::Ledger;

/// A request, of which it can be told which rules win on each target that it may have.
///
/// The lists are functions of the target: those of the last block that holds on it and sets them, each with the groups
/// of that block's own condition. What was found of the conditions on one target is kept beside the request, so that
/// it goes from one call to the next.
pub trait Choices {
    ghost use Rattle.std.specs.Prelude.{◌≡◌, ℕ, ◌+◌, ◌≤◌, List, IfOk, OnOk};
    ghost use Rattle.conditions.specs.Marked.{Marked};
    ghost use Rattle.http_target.specs.declared.read.Target.{Target};
    ghost use Rattle.rewrite.specs.Rules.{Lists};
    ghost use Rattle.rewrite.specs.Rewriting.{next_of};

    /// What was found of the conditions on one target.
    type Conds;

    /// The lists that win on each target.
    ghost lists: { Self → Target → Lists };

    /// What was found is right on this target.
    ghost right: { Self → Target → Self.Conds → Type 0 };

    /// How many conditions were compared for what was found.
    ghost asked: { Self.Conds → ℕ };

    /// How many conditions there are.
    ghost most: { Self → ℕ };

    /// The patterns of the conditions and of the rules are among these, by their numbers.
    ghost belongs: { Self → List Marked → Type 0 };

    /// What the lists that win on a target make of it.
    fn next<L: Ledger>(
        &self,
        alloc: Global,
        target: &Target,
        conds: &mut Self::Conds,
        matchers: &mut Matchers<'_>,
        steps: &mut Steps<L>,
    ) -> Result<Next, NoMemory>
        requires right { right self.now target.now conds.old }
        requires patterns { belongs self.now matchers.old }
        ensures next { IfOk result (λ next. next ≡ next_of (lists self.now target.now) target.now.raw) }
        ensures right { right self.now target.now conds.new }
        ensures few { asked conds.new ≤ most self.now }
        ensures steps { OnOk result (steps.new + asked conds.old ≤ steps.old + asked conds.new) }
        ensures bounded { steps.new + asked conds.old ≤ steps.old + asked conds.new + 1 }
        ensures matchers { matchers.new ≡ matchers.old };

    /// The target becomes another one: nothing that was found counts any more.
    fn set_target(&self, conds: &mut Self::Conds)
        ensures right { (old new : Target) → right self.now old conds.old → right self.now new conds.new }
        ensures asked { asked conds.new ≡ 0 };
}
