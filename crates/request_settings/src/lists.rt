//! The rewriting of a request by the rules that win on its targets.
ghost use Rattle.std.specs.Prelude.{◌≡◌, ◌+◌, ◌*◌, ◌≤◌, false, length, IfOk, OnOk};
ghost use Rattle.cond_cache.specs.Kept.{AreRight, asked, conditions_in};
ghost use Rattle.request_settings.specs.Attributes.{attributes_on};
ghost use Rattle.request_settings.specs.Lists.{Belongs, rewriting_on};

use crate::attributes::{Arrival, attrs_of};
use crate::rules::{lent, lists_now};
use cond_cache::RequestConds;
use conditions::{Matchers, Steps};
use conf_value::Config;
use http_head::Request;
use http_target::Target;
use lt_bytes::NoMemory;
use rewrite::{Choices, Next, Rewritten, next_of, rewrite};
use settings::Index;
use std::alloc::Global;
use std::sync::ledger::Ledger;

/// A request, of which it can be told which rules win on each target that it may come to have.
#[derive(Clone, Copy)]
pub struct RequestLists<'r> {
    pub config: &'r Config,
    pub index: &'r Index,
    pub arrival: Arrival,
    pub head: &'r Request,
}

impl Choices for RequestLists<'_> {
    ghost use Rattle.std.specs.Prelude.{length};
    ghost use Rattle.cond_cache.specs.Kept.{AreRight, asked, conditions_in};
    ghost use Rattle.request_settings.specs.Attributes.{attributes_on};
    ghost use Rattle.request_settings.specs.Lists.{Belongs, lists_on};

    type Conds = RequestConds;

    ghost lists = { λ r target. lists_on r.config.now.blocks (attributes_on r.arrival r.head.now target) };

    ghost right = { λ r target conds. AreRight r.config.now.blocks (attributes_on r.arrival r.head.now target) conds };

    ghost asked = { λ conds. length (asked conds) };

    ghost most = { λ r. conditions_in r.config.now.blocks };

    ghost belongs = { λ r patterns. Belongs r.config.now r.index.now patterns };

    fn next<L: Ledger>(
        &self,
        alloc: Global,
        target: &Target,
        conds: &mut RequestConds,
        matchers: &mut Matchers<'_>,
        steps: &mut Steps<L>,
    ) -> Result<Next, NoMemory> {
        let attrs = attrs_of(self.arrival, self.head, target);
        let Ok(both) = lists_now(
            alloc,
            self.config,
            self.index,
            &attrs,
            conds,
            matchers,
            steps,
        ) else {
            return Err(NoMemory);
        };
        let once = lent(&both.once, conds);
        let repeat = lent(&both.repeat, conds);
        next_of(alloc, matchers, once, repeat, target.raw.bytes())
    }

    fn set_target(&self, conds: &mut RequestConds) {
        conds.empty();
    }
}

/// Rewrites the target of a request, of which `conds` is what was found of the conditions, and then on the new target.
///
/// After want of memory the target may be any that was reached.
#[tactic(auto, unfolding(crate::specs::Lists::rewriting_on))]
pub fn rewrite_now<L: Ledger>(
    alloc: Global,
    lists: &RequestLists<'_>,
    target: &mut Target,
    conds: &mut RequestConds,
    matchers: &mut Matchers<'_>,
    steps: &mut Steps<L>,
) -> Result<Rewritten, NoMemory>
    requires belongs { Belongs lists.now.config.now lists.now.index.now matchers.old }
    requires right { AreRight lists.now.config.now.blocks (attributes_on lists.now.arrival lists.now.head.now target.old) conds.old }
    ensures answer { IfOk result (λ answer. answer ≡ (rewriting_on lists.now.config.now.blocks lists.now.arrival lists.now.head.now target.old).answer) }
    ensures target { OnOk result (target.new ≡ (rewriting_on lists.now.config.now.blocks lists.now.arrival lists.now.head.now target.old).target) }
    ensures right { AreRight lists.now.config.now.blocks (attributes_on lists.now.arrival lists.now.head.now target.new) conds.new }
    ensures steps { OnOk result (steps.new + length (asked conds.old)
        ≤ steps.old + (rewriting_on lists.now.config.now.blocks lists.now.arrival lists.now.head.now target.old).passes * conditions_in lists.now.config.now.blocks + length (asked conds.new)) }
    ensures bounded { steps.new + length (asked conds.old) ≤ steps.old + (rewriting_on lists.now.config.now.blocks lists.now.arrival lists.now.head.now target.old).passes * conditions_in lists.now.config.now.blocks + length (asked conds.new) + 1 }
    ensures matchers { matchers.new ≡ matchers.old }
{
    rewrite(alloc, lists, target, conds, matchers, steps)
}

/// Whether a rule makes a new target of one. Where none does, the request is rewritten no further.
pub fn is_rewritten_now<L: Ledger>(
    alloc: Global,
    lists: &RequestLists<'_>,
    target: &Target,
    conds: &mut RequestConds,
    matchers: &mut Matchers<'_>,
    steps: &mut Steps<L>,
) -> Result<bool, NoMemory>
    requires belongs { Belongs lists.now.config.now lists.now.index.now matchers.old }
    requires right { AreRight lists.now.config.now.blocks (attributes_on lists.now.arrival lists.now.head.now target.now) conds.old }
    ensures same { result ≡ Ok false → rewriting_on lists.now.config.now.blocks lists.now.arrival lists.now.head.now target.now
        ≡ record { answer = Rewritten.Same; target = target.now; passes = 0 } }
    ensures right { AreRight lists.now.config.now.blocks (attributes_on lists.now.arrival lists.now.head.now target.now) conds.new }
    ensures few { length (asked conds.new) ≤ conditions_in lists.now.config.now.blocks }
    ensures steps { OnOk result (steps.new + length (asked conds.old) ≤ steps.old + length (asked conds.new)) }
    ensures bounded { steps.new + length (asked conds.old) ≤ steps.old + length (asked conds.new) + 1 }
    ensures matchers { matchers.new ≡ matchers.old }
{
    match lists.next(alloc, target, conds, matchers, steps) {
        Ok(Next::Kept) => Ok(false),
        Ok(Next::Once(_) | Next::Repeat(_)) => Ok(true),
        Err(NoMemory) => Err(NoMemory),
    }
}
