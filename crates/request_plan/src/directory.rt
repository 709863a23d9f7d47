//! A directory that stands at the place of a request, whose path has its final slash.
ghost use Rattle.std.specs.Prelude.{◌≡◌, ◌+◌, ◌*◌, ◌≤◌, Some, IfOk};
ghost use Rattle.cond_cache.specs.Kept.{conditions_in};
ghost use Rattle.lt_world.specs.Disk.{Disk};
ghost use Rattle.request_plan.specs.Lent.{came, wanted};
ghost use Rattle.request_plan.specs.Planned.{PlansBy, PlansWithin, SendsTo};
ghost use Rattle.request_plan.specs.Finding.{AtDirectory};

use crate::chosen::{Chosen, in_words};
use crate::planner::Planner;
use conditions::Steps;
use file_reply::plain;
use http_head::Request;
use http_target::Target;
use lt_bytes::NoMemory;
use lt_world::{Files, Owner};
use request_settings::{Arrival, attrs_of};
use static_files::{Place, find_file};
use std::sync::ledger::Ledger;

impl<'c> Planner<'c> {
    /// What a directory leads to: the file of the first of its index names.
    pub(crate) fn plan_directory<F: Files, L: Ledger>(
        &mut self,
        arrival: Arrival,
        request: &Request,
        target: &Target,
        physical: &[u8],
        files: &mut F,
        owner: Owner,
        steps: &mut Steps<L>,
    ) -> Result<Chosen<'c>, NoMemory>
        ensures site { self.new.site ≡ self.old.site }
        ensures plans { F.tells → (before : Disk)
            → AtDirectory self.old.site (Some (came arrival)) request.now owner target.now physical.now before (F.disk files.old)
            → PlansBy result self.old.site (Some (came arrival)) owner.conn owner.request request.now before (F.disk files.new) }
        ensures within { IfOk result (λ chosen. PlansWithin chosen.content) }
        ensures sends { IfOk result (λ chosen. SendsTo request.now.method chosen.content) }
        ensures compares { steps.new ≤ steps.old + 2 * conditions_in self.old.site.blocks + wanted result }
        ensures reads { F.reads files.new ≡ F.reads files.old }
        ensures later { F.later files.old files.new }
    {
        let attrs = attrs_of(arrival, request, target);
        let attrs = self.at_place(&attrs, target.path.bytes(), physical);
        let Ok(now) = self.settings_on(&attrs, steps) else {
            return Err(NoMemory);
        };
        let names = now.settings.index_file_names;
        match find_file(
            self.alloc,
            files,
            owner,
            target.path.bytes(),
            physical,
            names,
        ) {
            Ok(
                Place::File {
                    path,
                    physical: stands,
                },
            ) => {
                let (path, stands) = (path.bytes(), stands.bytes());
                self.plan_file(arrival, request, target, path, stands, files, owner, steps)
            }
            Ok(Place::Status(status)) => Ok(in_words(now.settings, plain(self.alloc, status))),
            Err(NoMemory) => Err(NoMemory),
        }
    }
}
