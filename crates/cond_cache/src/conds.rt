//! What is kept of a configuration's blocks for one request.
ghost use Rattle.std.specs.Prelude.{◌≡◌, ◌≢◌, ◌<◌, None, Some, List, [], length, replicate, IfOk};
ghost use Rattle.conf_value.specs.declared.block.Block.{Block};
ghost use Rattle.conf_value.specs.declared.truth.Truth.TheVariants as truth;
ghost use Rattle.conditions.specs.Attributes.{Attributes, attributes_of};
ghost use Rattle.settings.specs.InForm.{IsInForm};
ghost use Rattle.cond_cache.specs.Truths.{truth_of};
ghost use Rattle.cond_cache.specs.Kept.{AreRight, Counts, HavePatterns, HavePlaces, Stay, asked, emptied, groups_at, kept, with_physical, with_target};

use crate::finding::find;
use crate::place::Place;
use conditions::{Attrs, Groups, Matchers, Steps};
use conf_value::{Config, Truth};
use lt_bytes::{List, NoMemory};
use std::alloc::Global;
use std::marker::Model;
use std::sync::ledger::Ledger;

/// What was found of a configuration's blocks on the present attributes of a request: truths, groups, and which
/// conditions were compared. It is owned, so that it goes from one step of a turn to the next, and each call borrows
/// the attributes anew. Contracts see the place of each block.
#[derive(Drop)]
pub struct RequestConds {
    places: List<Place>,
    /// Lent for a block that has no groups.
    none: Groups,
}

impl Model for RequestConds {
    ghost use Rattle.std.specs.Prelude.{◌≡◌, List, []};
    ghost use Rattle.cond_cache.specs.declared.place.Place.{Place};

    ghost Value = { List Place };

    ghost view = { λ c. c.places };

    ghost invariant = { λ c. c.none ≡ [] };
}

/// A place for each of so many blocks, none of which was asked for.
fn unasked(alloc: Global, count: usize) -> Result<List<Place>, NoMemory>
    ensures { IfOk result (λ places. places ≡ replicate count Place.Unasked) }
{
    let mut places = List::new(alloc);
    for _made in 0..count {
        places.push(Place::Unasked)?;
    }
    Ok(places)
}

impl RequestConds {
    /// Nothing is found yet of the blocks of this configuration.
    pub fn new(alloc: Global, config: &Config) -> Result<RequestConds, NoMemory>
        ensures right { IfOk result (λ conds. (a : Attributes) → AreRight config.now.blocks a conds) }
        ensures places { IfOk result (λ conds. HavePlaces config.now.blocks conds) }
        ensures none { IfOk result (λ conds. asked conds ≡ []) }
    {
        let places = unasked(alloc, config.blocks.len())?;
        Ok(RequestConds {
            places,
            none: Groups::new(alloc),
        })
    }

    /// Nothing is found any more, as it must be where the attributes change. It takes no memory, so that one value that is
    /// made for a configuration serves all requests.
    pub fn empty(&mut self)
        ensures right { (blocks : List Block) (a : Attributes) → HavePlaces blocks self.old → AreRight blocks a self.new }
        ensures none { asked self.new ≡ [] }
    {
        empty(&mut self.places);
    }

    /// The attributes of a request after its target became another one. The path of its file is not known any more,
    /// and nothing that was found before counts.
    pub fn set_target<'r>(&mut self, attrs: &Attrs<'r>, url: &'r [u8], query: &'r [u8]) -> Attrs<'r>
        ensures attributes { attributes_of result ≡ with_target url.now query.now (attributes_of attrs.now) }
        ensures right { (blocks : List Block) (a : Attributes) → HavePlaces blocks self.old → AreRight blocks a self.new }
        ensures none { asked self.new ≡ [] }
    {
        self.empty();
        Attrs {
            host: attrs.host,
            url,
            query,
            method: attrs.method,
            peer: attrs.peer,
            local: attrs.local,
            fields: attrs.fields,
            physical: None,
        }
    }

    /// The attributes of a request of whose file the path is known, with the path that led there. Nothing that was
    /// found before counts.
    pub fn set_physical<'r>(
        &mut self,
        attrs: &Attrs<'r>,
        url: &'r [u8],
        physical: &'r [u8],
    ) -> Attrs<'r>
        ensures attributes { attributes_of result ≡ with_physical url.now physical.now (attributes_of attrs.now) }
        ensures right { (blocks : List Block) (a : Attributes) → HavePlaces blocks self.old → AreRight blocks a self.new }
        ensures none { asked self.new ≡ [] }
    {
        self.empty();
        Attrs {
            host: attrs.host,
            url,
            query: attrs.query,
            method: attrs.method,
            peer: attrs.peer,
            local: attrs.local,
            fields: attrs.fields,
            physical: Some(physical),
        }
    }

    /// The truth of a block on these attributes. What is kept of it, of its parent and of the branches before it is
    /// not looked for again, and what is found is kept.
    pub fn check<L: Ledger>(
        &mut self,
        alloc: Global,
        config: &Config,
        attrs: &Attrs<'_>,
        block: u32,
        matchers: &mut Matchers<'_>,
        steps: &mut Steps<L>,
    ) -> Result<Truth, NoMemory>
        requires form { IsInForm config.now }
        requires block { block < length config.now.blocks }
        requires patterns { HavePatterns config.now.blocks matchers.old }
        requires right { AreRight config.now.blocks (attributes_of attrs.now) self.old }
        ensures truth { IfOk result (λ truth. truth ≡ truth_of config.now.blocks (attributes_of attrs.now) block) }
        ensures right { AreRight config.now.blocks (attributes_of attrs.now) self.new }
        ensures kept { IfOk result (λ truth. kept self.new block ≡ Some truth) }
        ensures stay { Stay self.old self.new }
        ensures again { kept self.old block ≢ None → self.new ≡ self.old }
        ensures steps { Counts result self.old self.new steps.old steps.new }
        ensures matchers { matchers.new ≡ matchers.old }
    {
        find(
            alloc,
            config,
            attrs,
            block,
            &mut self.places,
            matchers,
            steps,
        )
    }

    /// The groups of a block's own match, where it is found True and has rules; empty for other blocks.
    pub fn group(&self, block: u32) -> &Groups
        requires { kept self.now block ≡ Some truth.True }
        ensures { (blocks : List Block) (a : Attributes) → AreRight blocks a self.now → result.now ≡ groups_at blocks a block }
    {
        match self.places.get(block as usize) {
            Some(place) => place.groups(&self.none),
            None => &self.none,
        }
    }
}

fn empty(places: &mut List<Place>)
    ensures { places.new ≡ emptied places.old }
{
    for at in 0..places.len() {
        places.replace(at, Place::Unasked);
    }
}
