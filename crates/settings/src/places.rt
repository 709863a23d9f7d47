//! Where the typed keys are set, found once for a configuration, so that no request looks at blocks that set none of them.
ghost use Rattle.std.specs.Prelude.{◌≡◌, ◌<◌, ◌+◌, ◌^◌, ◌++◌, [], List, IfOk, OnOk, length, map, position, take};
ghost use Rattle.settings.specs.Indexed as spec;
ghost use Rattle.conf_value.specs.declared.block.Block.{Block};

use crate::key::{KEYS, Key};
use crate::lists::lists_of;
use conf_value::{Block, Config, Setting};
use lt_bytes::{List, NoMemory};
use std::alloc::Global;

/// A setting, by the number of its block and its own number there.
#[derive(Clone, Copy, Debug, PartialEq, Eq)]
pub struct Place {
    pub block: u32,
    pub at: usize,
    /// How many lists of hosts stand before it in the configuration: where its value is a list of gateways, the number of the first
    /// list of hosts in it.
    pub first_list: u32,
}

/// For each typed key the places that count, in the order of their blocks.
#[derive(Drop)]
pub struct Index {
    rows: List<List<Place>>,
}

/// The index of a configuration.
pub fn index_of(alloc: Global, config: &Config) -> Result<Index, NoMemory>
    requires few { length config.now.blocks < 2 ^ 32 }
    requires lists { spec.lists_of_all config.now.blocks < 2 ^ 32 }
    ensures { IfOk result (λ index. spec.IsIndexOf config.now.blocks index) }
{
    let rows = rows_of(alloc, config.blocks.as_slice(), KEYS.as_slice())?;
    Ok(Index { rows })
}

fn rows_of(alloc: Global, blocks: &[Block], keys: &[Key]) -> Result<List<List<Place>>, NoMemory>
    requires few { length blocks.now < 2 ^ 32 }
    requires lists { spec.lists_of_all blocks.now < 2 ^ 32 }
    ensures { IfOk result (λ rows. rows ≡ map (spec.places_of blocks.now) keys.now) }
{
    let mut rows = List::new(alloc);
    for key in keys {
        rows.push(places_of(alloc, blocks, *key)?)?;
    }
    Ok(rows)
}

#[tactic(auto, unfolding(crate::specs::Indexed::places_of))]
fn places_of(alloc: Global, blocks: &[Block], key: Key) -> Result<List<Place>, NoMemory>
    requires few { length blocks.now < 2 ^ 32 }
    requires lists { spec.lists_of_all blocks.now < 2 ^ 32 }
    ensures { IfOk result (λ places. places ≡ spec.places_of blocks.now key) }
{
    places_from(alloc, blocks_of(blocks, key), key.name())
}

/// The blocks in which a typed key counts.
fn blocks_of(blocks: &[Block], key: Key) -> &[Block]
    ensures { result.now ≡ spec.blocks_of key blocks.now }
{
    if key.is_global() {
        first(blocks)
    } else {
        blocks
    }
}

fn first(blocks: &[Block]) -> &[Block]
    ensures { result.now ≡ take 1 blocks.now }
{
    if blocks.is_empty() {
        return blocks;
    }
    let (first, _) = blocks.split_at(1);
    first
}

fn places_from(alloc: Global, blocks: &[Block], key: &[u8]) -> Result<List<Place>, NoMemory>
    requires few { length blocks.now < 2 ^ 32 }
    requires lists { spec.lists_of_all blocks.now < 2 ^ 32 }
    ensures { IfOk result (λ places. places ≡ spec.places_from key.now 0 0 blocks.now) }
{
    let mut places = List::new(alloc);
    let mut lists = 0u32;
    for (number, block) in blocks.iter().enumerate() {
        let settings = block.settings.as_slice();
        push_place(&mut places, place_of(settings, key, number as u32, lists))?;
        lists += lists_of(settings);
    }
    Ok(places)
}

fn push_place(places: &mut List<Place>, place: Option<Place>) -> Result<(), NoMemory>
    ensures { OnOk result (places.new ≡ places.old ++ spec.with_place place []) }
{
    match place {
        Some(place) => places.push(place),
        None => Ok(()),
    }
}

/// The place of a key among the settings of a block, before which there are so many lists of hosts.
pub(crate) fn place_of(settings: &[Setting], key: &[u8], block: u32, lists: u32) -> Option<Place>
    requires lists { lists + spec.lists_of settings.now < 2 ^ 32 }
    ensures { result ≡ spec.place_of key.now block lists settings.now }
{
    match at(settings, key) {
        Some(at) => Some(Place {
            block,
            at,
            first_list: lists + lists_of(&settings[..at]),
        }),
        None => None,
    }
}

fn at(settings: &[Setting], key: &[u8]) -> Option<usize>
    ensures { result ≡ position (spec.is_of key.now) settings.now }
{
    settings
        .iter()
        .position(|setting| setting.key.bytes() == key)
}

impl Index {
    /// The places that count for a key, in the order of their blocks.
    pub fn places(&self, key: Key) -> &[Place]
        ensures { (blocks : List Block) → spec.IsIndexOf blocks self.now → result.now ≡ spec.places_of blocks key }
    {
        match self.rows.get(key.row()) {
            Some(places) => places.as_slice(),
            None => &[],
        }
    }
}
