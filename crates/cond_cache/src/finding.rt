//! How the truth of a block is found, from what is kept of the others.
ghost use Rattle.std.specs.Prelude.{◌≡◌, ◌≢◌, ◌<◌, suc, None, Some, [], length, slice_get, option_and_then, IfOk, IfSome};
ghost use Rattle.conf_value.specs.declared.block.Block.{Block};
ghost use Rattle.conditions.specs.Attributes.{attributes_of};
ghost use Rattle.settings.specs.InForm.{IsInForm};
ghost use Rattle.cond_cache.specs.Truths.{above_by};
ghost use Rattle.cond_cache.specs.Kept.{AreRight, Comes, Counts, HavePatterns, IsAbove, has_rules, is_rules, kept, left_by};

use crate::place::Place;
use conditions::{Attrs, Groups, Matchers, Steps, compare};
use conf_value::{Block, Config, Setting, Truth};
use lt_bytes::{List, NoMemory};
use std::alloc::Global;
use std::sync::ledger::Ledger;

fn is_rules(setting: &Setting) -> bool
    ensures { result ≡ is_rules setting.now }
{
    setting.key.bytes().starts_with(b"url.rewrite")
}

/// Whether the groups of the block's match can be asked for.
fn has_rules(block: &Block) -> bool
    ensures { result ≡ has_rules block.now }
{
    block.settings.iter().any(is_rules)
}

/// The truth that is kept of a block, if one is.
fn kept(places: &List<Place>, block: u32) -> Option<Truth>
    ensures { result ≡ kept places.now block }
{
    match places.get(block as usize) {
        Some(place) => place.truth(),
        None => None,
    }
}

/// What a branch and those before it leave to the next one.
fn left_at(places: &List<Place>, block: u32) -> Option<Truth>
    ensures { result ≡ option_and_then left_by (slice_get places.now block) }
{
    match places.get(block as usize) {
        Some(place) => place.leaves(),
        None => None,
    }
}

/// What a parent leaves to the blocks in it.
fn left_to_inner(parent: Truth) -> Option<Truth>
    ensures { result ≡ above_by parent [] }
{
    match parent {
        Truth::True => None,
        Truth::False => Some(Truth::False),
        Truth::Unset => Some(Truth::Unset),
    }
}

/// The number of the branch before a block, if it has one. It is a lower one.
fn branch_before(config: &Config, block: u32) -> Option<u32>
    requires form { IsInForm config.now }
    requires block { block < length config.now.blocks }
    ensures before { (b : Block) → slice_get config.now.blocks block ≡ Some b → result ≡ b.chain }
    ensures lower { IfSome result (λ before. before < block) }
{
    config.blocks.as_slice()[block as usize].chain
}

/// The number of the block around one that isn't the global block. It is a lower one.
fn parent_of(config: &Config, block: u32) -> u32
    requires form { IsInForm config.now }
    requires block { block < length config.now.blocks }
    requires inner { block ≢ 0 }
    ensures parent { (b : Block) → slice_get config.now.blocks block ≡ Some b → result ≡ b.parent }
    ensures lower { result < block }
{
    config.blocks.as_slice()[block as usize].parent
}

/// Finds the truth of a block, from what is kept where that tells it. What is found is kept.
#[cycle(find)]
pub(crate) fn find<L: Ledger>(
    alloc: Global,
    config: &Config,
    attrs: &Attrs<'_>,
    block: u32,
    places: &mut List<Place>,
    matchers: &mut Matchers<'_>,
    steps: &mut Steps<L>,
) -> Result<Truth, NoMemory>
    requires form { IsInForm config.now }
    requires block { block < length config.now.blocks }
    requires patterns { HavePatterns config.now.blocks matchers.old }
    requires right { AreRight config.now.blocks (attributes_of attrs.now) places.old }
    ensures comes { Comes (suc block) config.now.blocks (attributes_of attrs.now) places.old places.new }
    ensures found { IfOk result (λ truth. kept places.new block ≡ Some truth) }
    ensures again { kept places.old block ≢ None → places.new ≡ places.old }
    ensures counts { Counts result places.old places.new steps.old steps.new }
    ensures matchers { matchers.new ≡ matchers.old }
{
    if let Some(truth) = kept(places, block) {
        return Ok(truth);
    }
    match find_above(alloc, config, attrs, block, places, matchers, steps) {
        Ok(Some(truth)) => {
            places.replace(block as usize, Place::Given(truth));
            Ok(truth)
        }
        Ok(None) => find_itself(alloc, config, attrs, block, places, matchers, steps),
        Err(NoMemory) => Err(NoMemory),
    }
}

/// Finds the truth that comes before the block's own condition, if one does: from the branch before it, or else from
/// its parent.
#[cycle(find)]
fn find_above<L: Ledger>(
    alloc: Global,
    config: &Config,
    attrs: &Attrs<'_>,
    block: u32,
    places: &mut List<Place>,
    matchers: &mut Matchers<'_>,
    steps: &mut Steps<L>,
) -> Result<Option<Truth>, NoMemory>
    requires form { IsInForm config.now }
    requires block { block < length config.now.blocks }
    requires patterns { HavePatterns config.now.blocks matchers.old }
    requires right { AreRight config.now.blocks (attributes_of attrs.now) places.old }
    ensures comes { Comes block config.now.blocks (attributes_of attrs.now) places.old places.new }
    ensures above { IfOk result (IsAbove config.now.blocks (attributes_of attrs.now) block) }
    ensures counts { Counts result places.old places.new steps.old steps.new }
    ensures matchers { matchers.new ≡ matchers.old }
{
    if let Some(before) = branch_before(config, block) {
        return match find(alloc, config, attrs, before, places, matchers, steps) {
            Ok(_) => Ok(left_at(places, before)),
            Err(NoMemory) => Err(NoMemory),
        };
    }
    if block == 0 {
        return Ok(None);
    }
    let around = parent_of(config, block);
    match find(alloc, config, attrs, around, places, matchers, steps) {
        Ok(parent) => Ok(left_to_inner(parent)),
        Err(NoMemory) => Err(NoMemory),
    }
}

/// Finds the truth of a block before whose condition none comes: by its condition, or True where it has none.
fn find_itself<L: Ledger>(
    alloc: Global,
    config: &Config,
    attrs: &Attrs<'_>,
    block: u32,
    places: &mut List<Place>,
    matchers: &mut Matchers<'_>,
    steps: &mut Steps<L>,
) -> Result<Truth, NoMemory>
    requires block { block < length config.now.blocks }
    requires patterns { HavePatterns config.now.blocks matchers.old }
    requires right { AreRight config.now.blocks (attributes_of attrs.now) places.old }
    requires above { IsAbove config.now.blocks (attributes_of attrs.now) block None }
    requires unasked { slice_get places.old block ≡ Some Place.Unasked }
    ensures comes { Comes (suc block) config.now.blocks (attributes_of attrs.now) places.old places.new }
    ensures found { IfOk result (λ truth. kept places.new block ≡ Some truth) }
    ensures counts { Counts result places.old places.new steps.old steps.new }
    ensures matchers { matchers.new ≡ matchers.old }
{
    let inner = &config.blocks.as_slice()[block as usize];
    let Some(condition) = &inner.condition else {
        places.replace(block as usize, Place::Bare);
        return Ok(Truth::True);
    };
    let keep = has_rules(inner);
    let mut groups = Groups::new(alloc);
    match compare(alloc, condition, attrs, matchers, keep, &mut groups, steps) {
        Ok(truth) => {
            places.replace(block as usize, Place::Compared { truth, groups });
            Ok(truth)
        }
        Err(NoMemory) => Err(NoMemory),
    }
}
