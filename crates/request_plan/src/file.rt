//! A file that stands at the place of a request.
ghost use Rattle.std.specs.Prelude.{◌≡◌, ◌+◌, ◌≤◌, Some, IfOk};
ghost use Rattle.cond_cache.specs.Kept.{conditions_in};
ghost use Rattle.lt_world.specs.Disk.{Disk, IsFileAt};
ghost use Rattle.request_plan.specs.Lent.{came, wanted};
ghost use Rattle.request_plan.specs.Planned.{PlansBy, PlansWithin, SendsTo};
ghost use Rattle.request_plan.specs.Finding.{AtFile};

use crate::chosen::{Chosen, in_words};
use crate::opening::open;
use crate::planner::Planner;
use conditions::Steps;
use file_reply::refusal;
use http_head::Request;
use http_target::Target;
use lt_bytes::NoMemory;
use lt_world::{Files, Owner};
use request_settings::{Arrival, attrs_of};
use std::sync::ledger::Ledger;

impl<'c> Planner<'c> {
    /// What a file answers that was found at the place of this path: why it isn't opened, or what is in it.
    pub(crate) fn plan_file<F: Files, L: Ledger>(
        &mut self,
        arrival: Arrival,
        request: &Request,
        target: &Target,
        path: &[u8],
        physical: &[u8],
        files: &mut F,
        owner: Owner,
        steps: &mut Steps<L>,
    ) -> Result<Chosen<'c>, NoMemory>
        requires file { F.tells → IsFileAt physical.now (F.disk files.old).tree }
        ensures site { self.new.site ≡ self.old.site }
        ensures plans { F.tells → (before : Disk)
            → AtFile self.old.site (Some (came arrival)) request.now owner target.now path.now physical.now before (F.disk files.old)
            → PlansBy result self.old.site (Some (came arrival)) owner.conn owner.request request.now before (F.disk files.new) }
        ensures within { IfOk result (λ chosen. PlansWithin chosen.content) }
        ensures sends { IfOk result (λ chosen. SendsTo request.now.method chosen.content) }
        ensures compares { steps.new ≤ steps.old + conditions_in self.old.site.blocks + wanted result }
        ensures reads { F.reads files.new ≡ F.reads files.old }
        ensures later { F.later files.old files.new }
    {
        let attrs = attrs_of(arrival, request, target);
        let attrs = self.at_place(&attrs, path, physical);
        let Ok(now) = self.settings_on(&attrs, steps) else {
            return Err(NoMemory);
        };
        let excluded = now.settings.static_file_exclude_extensions;
        match refusal(self.alloc, excluded, path, request.method.bytes()) {
            Ok(Some(said)) => Ok(in_words(now.settings, said)),
            Ok(None) => {
                let media_type = self.media_type(&now, path);
                open(
                    self.alloc,
                    now.settings,
                    media_type,
                    request,
                    physical,
                    files,
                    owner,
                )
            }
            Err(NoMemory) => Err(NoMemory),
        }
    }
}
