//! The settings of a request.
ghost use Rattle.std.specs.Prelude.{◌≡◌, ◌≤◌, IfOk};
ghost use Rattle.conditions.specs.Attributes.{attributes_of};
ghost use Rattle.settings.specs.InForm.{IsInForm};
ghost use Rattle.settings.specs.Indexed.{IsIndexOf};
ghost use Rattle.settings.specs.Used.{pairs_or_none, seen, setting_at};
ghost use Rattle.cond_cache.specs.Kept.{AreRight, Counts, HavePatterns, Stay};
ghost use Rattle.request_settings.specs.Values.{values_on};

use crate::counting::counting_now;
use crate::winning::last_true;
use cond_cache::RequestConds;
use conditions::{Attrs, Matchers, Steps};
use conf_value::Config;
use lt_bytes::NoMemory;
use settings::{Index, KEYS, Key, Place, Settings, request_size_at, settings_from};
use std::alloc::Global;
use std::sync::ledger::Ledger;

/// The settings that count, and the place at which the media types among them are set.
#[derive(Clone, Copy)]
pub struct SettingsNow<'c> {
    pub settings: Settings<'c>,
    pub types_at: Option<Place>,
}

/// The settings that count on these attributes, lent from the configuration.
pub fn settings_now<'c, L: Ledger>(
    alloc: Global,
    config: &'c Config,
    index: &Index,
    attrs: &Attrs<'_>,
    conds: &mut RequestConds,
    matchers: &mut Matchers<'_>,
    steps: &mut Steps<L>,
) -> Result<SettingsNow<'c>, NoMemory>
    requires form { IsInForm config.now }
    requires index { IsIndexOf config.now.blocks index.now }
    requires patterns { HavePatterns config.now.blocks matchers.old }
    requires right { AreRight config.now.blocks (attributes_of attrs.now) conds.old }
    ensures values { IfOk result (λ now. seen now.settings ≡ values_on config.now.blocks (attributes_of attrs.now)) }
    ensures types { IfOk result (λ now. now.settings.mimetype_assign.now ≡ pairs_or_none (setting_at config.now.blocks now.types_at)) }
    ensures right { AreRight config.now.blocks (attributes_of attrs.now) conds.new }
    ensures stay { Stay conds.old conds.new }
    ensures steps { Counts result conds.old conds.new steps.old steps.new }
    ensures matchers { matchers.new ≡ matchers.old }
{
    match counting_now(
        alloc,
        config,
        index,
        KEYS.as_slice(),
        attrs,
        conds,
        matchers,
        steps,
    ) {
        Ok(counting) => Ok(SettingsNow {
            settings: settings_from(config, &counting),
            types_at: counting.place(Key::MimetypeAssign),
        }),
        Err(NoMemory) => Err(NoMemory),
    }
}

/// How many bytes the body of a request may have by these attributes. No other key is looked for.
pub fn request_size_now<L: Ledger>(
    alloc: Global,
    config: &Config,
    index: &Index,
    attrs: &Attrs<'_>,
    conds: &mut RequestConds,
    matchers: &mut Matchers<'_>,
    steps: &mut Steps<L>,
) -> Result<u64, NoMemory>
    requires form { IsInForm config.now }
    requires index { IsIndexOf config.now.blocks index.now }
    requires patterns { HavePatterns config.now.blocks matchers.old }
    requires right { AreRight config.now.blocks (attributes_of attrs.now) conds.old }
    ensures size { IfOk result (λ size. size ≡ (values_on config.now.blocks (attributes_of attrs.now)).server_max_request_size) }
    ensures few { IfOk result (λ size. size ≤ 4194304) }
    ensures right { AreRight config.now.blocks (attributes_of attrs.now) conds.new }
    ensures stay { Stay conds.old conds.new }
    ensures steps { Counts result conds.old conds.new steps.old steps.new }
    ensures matchers { matchers.new ≡ matchers.old }
{
    let places = index.places(Key::MaxRequestSize);
    match last_true(alloc, config, places, attrs, conds, matchers, steps) {
        Ok(place) => Ok(request_size_at(config, place)),
        Err(NoMemory) => Err(NoMemory),
    }
}
