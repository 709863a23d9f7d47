//! The places that count for some keys on the attributes of a request.
ghost use Rattle.std.specs.Prelude.{◌≡◌, IfOk};
ghost use Rattle.conditions.specs.Attributes.{attributes_of};
ghost use Rattle.settings.specs.InForm.{IsInForm};
ghost use Rattle.settings.specs.Indexed.{AreDue, IsIndexOf, winner};
ghost use Rattle.cond_cache.specs.Truths.{truth_of};
ghost use Rattle.cond_cache.specs.Kept.{AreRight, Counts, HavePatterns, Stay};

use crate::winning::last_true;
use cond_cache::RequestConds;
use conditions::{Attrs, Matchers, Steps};
use conf_value::Config;
use lt_bytes::NoMemory;
use settings::{Counting, Index, Key};
use std::alloc::Global;
use std::sync::ledger::Ledger;

/// The places that count for these keys; other keys have none.
pub(crate) fn counting_now<L: Ledger>(
    alloc: Global,
    config: &Config,
    index: &Index,
    keys: &[Key],
    attrs: &Attrs<'_>,
    conds: &mut RequestConds,
    matchers: &mut Matchers<'_>,
    steps: &mut Steps<L>,
) -> Result<Counting, NoMemory>
    requires form { IsInForm config.now }
    requires index { IsIndexOf config.now.blocks index.now }
    requires patterns { HavePatterns config.now.blocks matchers.old }
    requires right { AreRight config.now.blocks (attributes_of attrs.now) conds.old }
    ensures due { IfOk result (AreDue (winner config.now.blocks (truth_of config.now.blocks (attributes_of attrs.now))) keys.now) }
    ensures right { AreRight config.now.blocks (attributes_of attrs.now) conds.new }
    ensures stay { Stay conds.old conds.new }
    ensures steps { Counts result conds.old conds.new steps.old steps.new }
    ensures matchers { matchers.new ≡ matchers.old }
{
    let mut counting = Counting::new();
    for key in keys {
        let places = index.places(*key);
        match last_true(alloc, config, places, attrs, conds, matchers, steps) {
            Ok(place) => counting.set(*key, place),
            Err(NoMemory) => return Err(NoMemory),
        }
    }
    Ok(counting)
}
