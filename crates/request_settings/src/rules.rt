//! The lists of rules that win on a target.
ghost use Rattle.std.specs.Prelude.{◌≡◌, ◌<◌, List, Some, length, IfOk, OnOk};
ghost use Rattle.conf_value.specs.declared.block.Block.{Block};
ghost use Rattle.conf_value.specs.declared.truth.Truth.TheVariants as truth;
ghost use Rattle.conditions.specs.Attributes.{Attributes, attributes_of};
ghost use Rattle.settings.specs.InForm.{IsInForm};
ghost use Rattle.settings.specs.Indexed.{IsIndexOf};
ghost use Rattle.settings.specs.Used.{rules_seen};
ghost use Rattle.cond_cache.specs.Truths.{truth_of};
ghost use Rattle.cond_cache.specs.Kept.{AreRight, Counts, HavePatterns, Stay, kept};
ghost use Rattle.rewrite.specs.Found.{lent_list};
ghost use Rattle.request_settings.specs.Values.{values_on};
ghost use Rattle.request_settings.specs.Lists.{HaveRules, list_on};

use crate::counting::counting_now;
use cond_cache::RequestConds;
use conditions::{Attrs, Matchers, Steps};
use conf_value::Config;
use lt_bytes::NoMemory;
use rewrite::Rules;
use settings::{Index, Key, Rules as Winning, settings_from};
use std::alloc::Global;
use std::sync::ledger::Ledger;

/// What decides which rules win: the modules that are named, and both lists.
const RULE_KEYS: [Key; 3] = [Key::Modules, Key::RewriteOnce, Key::RewriteRepeat];

/// The two lists that win.
#[derive(Clone, Copy)]
pub(crate) struct BothLists<'c> {
    pub(crate) once: Winning<'c>,
    pub(crate) repeat: Winning<'c>,
}

/// The lists that win on these attributes.
fn winning<'c, L: Ledger>(
    alloc: Global,
    config: &'c Config,
    index: &Index,
    attrs: &Attrs<'_>,
    conds: &mut RequestConds,
    matchers: &mut Matchers<'_>,
    steps: &mut Steps<L>,
) -> Result<BothLists<'c>, NoMemory>
    requires form { IsInForm config.now }
    requires index { IsIndexOf config.now.blocks index.now }
    requires patterns { HavePatterns config.now.blocks matchers.old }
    requires right { AreRight config.now.blocks (attributes_of attrs.now) conds.old }
    ensures once { IfOk result (λ both. rules_seen both.once ≡ (values_on config.now.blocks (attributes_of attrs.now)).url_rewrite_once) }
    ensures repeat { IfOk result (λ both. rules_seen both.repeat ≡ (values_on config.now.blocks (attributes_of attrs.now)).url_rewrite_repeat) }
    ensures right { AreRight config.now.blocks (attributes_of attrs.now) conds.new }
    ensures steps { Counts result conds.old conds.new steps.old steps.new }
    ensures matchers { matchers.new ≡ matchers.old }
{
    match counting_now(
        alloc,
        config,
        index,
        RULE_KEYS.as_slice(),
        attrs,
        conds,
        matchers,
        steps,
    ) {
        Ok(counting) => {
            let settings = settings_from(config, &counting);
            Ok(BothLists {
                once: settings.url_rewrite_once,
                repeat: settings.url_rewrite_repeat,
            })
        }
        Err(NoMemory) => Err(NoMemory),
    }
}

/// Asks for a block that holds, so that its groups are kept.
fn hold<L: Ledger>(
    alloc: Global,
    config: &Config,
    block: u32,
    attrs: &Attrs<'_>,
    conds: &mut RequestConds,
    matchers: &mut Matchers<'_>,
    steps: &mut Steps<L>,
) -> Result<(), NoMemory>
    requires form { IsInForm config.now }
    requires block { block < length config.now.blocks }
    requires holds { truth_of config.now.blocks (attributes_of attrs.now) block ≡ truth.True }
    requires patterns { HavePatterns config.now.blocks matchers.old }
    requires right { AreRight config.now.blocks (attributes_of attrs.now) conds.old }
    ensures kept { OnOk result (kept conds.new block ≡ Some truth.True) }
    ensures right { AreRight config.now.blocks (attributes_of attrs.now) conds.new }
    ensures stay { Stay conds.old conds.new }
    ensures steps { Counts result conds.old conds.new steps.old steps.new }
    ensures matchers { matchers.new ≡ matchers.old }
{
    match conds.check(alloc, config, attrs, block, matchers, steps) {
        Ok(_) => Ok(()),
        Err(NoMemory) => Err(NoMemory),
    }
}

/// The lists that win on these attributes, of whose blocks the groups can be asked for.
pub(crate) fn lists_now<'c, L: Ledger>(
    alloc: Global,
    config: &'c Config,
    index: &Index,
    attrs: &Attrs<'_>,
    conds: &mut RequestConds,
    matchers: &mut Matchers<'_>,
    steps: &mut Steps<L>,
) -> Result<BothLists<'c>, NoMemory>
    requires form { IsInForm config.now }
    requires index { IsIndexOf config.now.blocks index.now }
    requires patterns { HavePatterns config.now.blocks matchers.old }
    requires rules { HaveRules config.now.blocks matchers.old }
    requires right { AreRight config.now.blocks (attributes_of attrs.now) conds.old }
    ensures once { IfOk result (λ both. rules_seen both.once ≡ (values_on config.now.blocks (attributes_of attrs.now)).url_rewrite_once) }
    ensures repeat { IfOk result (λ both. rules_seen both.repeat ≡ (values_on config.now.blocks (attributes_of attrs.now)).url_rewrite_repeat) }
    ensures once_kept { IfOk result (λ both. kept conds.new both.once.block ≡ Some truth.True) }
    ensures repeat_kept { IfOk result (λ both. kept conds.new both.repeat.block ≡ Some truth.True) }
    ensures right { AreRight config.now.blocks (attributes_of attrs.now) conds.new }
    ensures steps { Counts result conds.old conds.new steps.old steps.new }
    ensures matchers { matchers.new ≡ matchers.old }
{
    let Ok(both) = winning(alloc, config, index, attrs, conds, matchers, steps) else {
        return Err(NoMemory);
    };
    let Ok(()) = hold(
        alloc,
        config,
        both.once.block,
        attrs,
        conds,
        matchers,
        steps,
    ) else {
        return Err(NoMemory);
    };
    let Ok(()) = hold(
        alloc,
        config,
        both.repeat.block,
        attrs,
        conds,
        matchers,
        steps,
    ) else {
        return Err(NoMemory);
    };
    Ok(both)
}

/// A list that wins, with the groups of its block.
pub(crate) fn lent<'a>(winning: &Winning<'a>, conds: &'a RequestConds) -> Rules<'a>
    requires { kept conds.now winning.now.block ≡ Some truth.True }
    ensures list { (blocks : List Block) (a : Attributes) → AreRight blocks a conds.now → lent_list result ≡ list_on blocks a (rules_seen winning.now) }
    ensures first { result.first_pattern ≡ winning.now.first_pattern }
    ensures pairs { result.pairs.now ≡ winning.now.rules.now }
{
    Rules {
        first_pattern: winning.first_pattern,
        pairs: winning.rules,
        outer: conds.group(winning.block),
    }
}
