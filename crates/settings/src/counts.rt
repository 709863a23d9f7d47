//! Which place of each key counts, by truths that are known.
ghost use Rattle.std.specs.Prelude.{◌≡◌, ◌<◌, ◌^◌, List};
ghost use Rattle.conf_value.specs.declared.block.Block.{Block};
ghost use Rattle.settings.specs.Indexed as spec;

use crate::counting::Counting;
use crate::key::{KEYS, Key};
use crate::places::{Index, Place, place_of};
use conf_value::{Block, Truth};

/// The places that count where the blocks have these truths.
pub(crate) fn counting_by(index: &Index, truths: &[Truth]) -> Counting
    ensures { (blocks : List Block) → spec.IsIndexOf blocks index.now → spec.IsCountingOf blocks (spec.truth_in truths.now) result }
{
    counting_among(KEYS.as_slice(), index, truths)
}

fn counting_among(keys: &[Key], index: &Index, truths: &[Truth]) -> Counting
    ensures { (blocks : List Block) → spec.IsIndexOf blocks index.now → spec.AreDue (spec.winner blocks (spec.truth_in truths.now)) keys.now result }
{
    let mut counting = Counting::new();
    for key in keys {
        counting.set(*key, last_true(truths, index.places(*key)));
    }
    counting
}

fn last_true(truths: &[Truth], places: &[Place]) -> Option<Place>
    ensures { result ≡ spec.last_true (spec.truth_in truths.now) places.now }
{
    let mut left = places.len();
    while 0 < left {
        left -= 1;
        if is_true(truths, places[left].block) {
            return Some(places[left]);
        }
    }
    None
}

fn is_true(truths: &[Truth], block: u32) -> bool
    ensures { result ≡ spec.is_true (spec.truth_in truths.now block) }
{
    match truths.get(block as usize) {
        Some(Truth::True) => true,
        _ => false,
    }
}

/// The places that count where the global block alone is True.
pub(crate) fn global_counting(blocks: &[Block]) -> Counting
    requires lists { spec.lists_of_all blocks.now < 2 ^ 32 }
    ensures { spec.IsCountingOf blocks.now spec.global_alone result }
{
    global_among(KEYS.as_slice(), blocks)
}

fn global_among(keys: &[Key], blocks: &[Block]) -> Counting
    requires lists { spec.lists_of_all blocks.now < 2 ^ 32 }
    ensures { spec.AreDue (spec.winner blocks.now spec.global_alone) keys.now result }
{
    let mut counting = Counting::new();
    for key in keys {
        counting.set(*key, global_place(blocks, *key));
    }
    counting
}

#[tactic(auto, using(crate::proofs::Last::global_is))]
fn global_place(blocks: &[Block], key: Key) -> Option<Place>
    requires lists { spec.lists_of_all blocks.now < 2 ^ 32 }
    ensures { result ≡ spec.winner blocks.now spec.global_alone key }
{
    match blocks.split_first() {
        Some((block, _)) => place_of(block.settings.as_slice(), key.name(), 0, 0),
        None => None,
    }
}
