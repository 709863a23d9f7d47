//! Which of a key's places counts on the attributes of a request.
ghost use Rattle.std.specs.Prelude.{◌≡◌, ◌<◌, Some, length, IfOk, IfSome};
ghost use Rattle.conf_value.specs.declared.truth.Truth.TheVariants as truth;
ghost use Rattle.conditions.specs.Attributes.{attributes_of};
ghost use Rattle.settings.specs.InForm.{IsInForm};
ghost use Rattle.settings.specs.Indexed.{last_true};
ghost use Rattle.cond_cache.specs.Truths.{truth_of};
ghost use Rattle.cond_cache.specs.Kept.{AreRight, Counts, HavePatterns, Stay};
ghost use Rattle.request_settings.specs.Counted.{AreIn};

use cond_cache::RequestConds;
use conditions::{Attrs, Matchers, Steps};
use conf_value::{Config, Truth};
use lt_bytes::NoMemory;
use settings::Place;
use std::alloc::Global;
use std::sync::ledger::Ledger;

/// The last of some places whose block holds. The blocks of those before it are not asked for.
pub(crate) fn last_true<L: Ledger>(
    alloc: Global,
    config: &Config,
    places: &[Place],
    attrs: &Attrs<'_>,
    conds: &mut RequestConds,
    matchers: &mut Matchers<'_>,
    steps: &mut Steps<L>,
) -> Result<Option<Place>, NoMemory>
    requires form { IsInForm config.now }
    requires places { AreIn config.now.blocks places.now }
    requires patterns { HavePatterns config.now.blocks matchers.old }
    requires right { AreRight config.now.blocks (attributes_of attrs.now) conds.old }
    ensures place { IfOk result (λ place. place ≡ last_true (truth_of config.now.blocks (attributes_of attrs.now)) places.now) }
    ensures right { AreRight config.now.blocks (attributes_of attrs.now) conds.new }
    ensures stay { Stay conds.old conds.new }
    ensures steps { Counts result conds.old conds.new steps.old steps.new }
    ensures matchers { matchers.new ≡ matchers.old }
{
    let mut left = places.len();
    while 0 < left {
        left -= 1;
        let place = places[left];
        match conds.check(alloc, config, attrs, place.block, matchers, steps) {
            Ok(Truth::True) => return Ok(Some(place)),
            Ok(Truth::False) => {}
            Ok(Truth::Unset) => {}
            Err(NoMemory) => return Err(NoMemory),
        }
    }
    Ok(None)
}
