//! What serves all requests.
ghost use Rattle.std.specs.Prelude.{◌≡◌, map, IfOk};
ghost use Rattle.settings.specs.InForm.{IsInForm};
ghost use Rattle.cond_cache.specs.Kept.{HavePatterns};
ghost use Rattle.request_settings.specs.Lists.{HaveRules};
ghost use Rattle.server_model.specs.Site.{site_at};
ghost use Rattle.request_plan.specs.Kept.{IsFresh, types_at};

use cond_cache::RequestConds;
use conditions::Matchers;
use conf_value::{Config, Pair};
use lt_bytes::NoMemory;
use settings::{Counting, Index, Key, Place, Settings, global_settings, index_of, settings_from};
use static_files::TypeTables;
use std::alloc::Global;
use std::marker::Model;

/// The configuration, which is lent, with all that was made of it once, and what was found of its conditions for the
/// present request.
#[derive(Drop)]
pub struct Planner<'c> {
    pub(crate) alloc: Global,
    pub(crate) config: &'c Config,
    pub(crate) index: Index,
    pub(crate) matchers: Matchers<'c>,
    pub(crate) conds: RequestConds,
    /// The media types of each place that sets them.
    pub(crate) types: TypeTables<'c>,
    /// The settings where the global block alone holds.
    pub(crate) global: Settings<'c>,
}

impl<'c> Model for Planner<'c> {
    ghost use Rattle.request_plan.specs.Kept.{Kept};

    ghost Value = { Kept };

    ghost use Rattle.conf_value.specs.contracts.value.Value as values;
    ghost use Rattle.std.specs.Coded.{codes};

    ghost coded = { Prim.hlevel (codes, values.the_row.coded) };

    ghost use Rattle.request_plan.specs.Kept.{kept_of, IsPlanner};

    ghost view = { kept_of };

    ghost invariant = { IsPlanner };
}

/// The media types that are set at a place.
fn types_at<'c>(config: &'c Config, place: Place) -> &'c [Pair]
    ensures { result.now ≡ types_at config.now.blocks place }
{
    let mut counting = Counting::new();
    counting.set(Key::MimetypeAssign, Some(place));
    settings_from(config, &counting).mimetype_assign
}

/// The media types of each of these places.
fn tables_of<'c>(
    alloc: Global,
    config: &'c Config,
    places: &[Place],
) -> Result<TypeTables<'c>, NoMemory>
    ensures { IfOk result (λ tables. tables ≡ map (types_at config.now.blocks) places.now) }
{
    let mut tables = TypeTables::new(alloc);
    for place in places {
        tables.add(alloc, types_at(config, *place))?;
    }
    Ok(tables)
}

impl<'c> Planner<'c> {
    /// What serves a configuration with the matchers of its patterns.
    pub fn new(
        alloc: Global,
        config: &'c Config,
        matchers: Matchers<'c>,
    ) -> Result<Planner<'c>, NoMemory>
        requires form { IsInForm config.now }
        requires conditions { HavePatterns config.now.blocks matchers }
        requires rules { HaveRules config.now.blocks matchers }
        ensures site { IfOk result (λ planner. planner.site ≡ site_at config.now.blocks) }
    {
        let index = index_of(alloc, config)?;
        let types = tables_of(alloc, config, index.places(Key::MimetypeAssign))?;
        let conds = RequestConds::new(alloc, config)?;
        let global = global_settings(config);
        Ok(Planner {
            alloc,
            config,
            index,
            matchers,
            conds,
            types,
            global,
        })
    }

    /// Nothing is found of the conditions yet, as it must be where another request is looked at.
    pub fn begin(&mut self)
        ensures site { self.new.site ≡ self.old.site }
        ensures fresh { IsFresh self.new }
    {
        self.conds.empty();
    }

    /// Where its memory comes from.
    pub fn alloc(&self) -> Global {
        self.alloc
    }
}
