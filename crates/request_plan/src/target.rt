//! Where a target leads that is rewritten no further.
ghost use Rattle.std.specs.Prelude.{◌≡◌, ◌+◌, ◌*◌, ◌≤◌, Some, IfOk};
ghost use Rattle.cond_cache.specs.Kept.{AreRight, conditions_in};
ghost use Rattle.lt_world.specs.Disk.{ends_in_slash};
ghost use Rattle.file_reply.specs.Refusals.{moved};
ghost use Rattle.server_model.specs.Attributes.{attributes_at};
ghost use Rattle.server_model.specs.Made.{Leads};
ghost use Rattle.server_model.specs.Plan.{at_target};
ghost use Rattle.request_plan.specs.Lent.{came, lent, wanted};
ghost use Rattle.request_plan.specs.Kept.{asked_of};
ghost use Rattle.request_plan.specs.Planned.{PlansBy, PlansWithin, SendsTo};
ghost use Rattle.request_plan.specs.Finding.{IsInWords};

use crate::chosen::{Chosen, in_words};
use crate::planner::Planner;
use conditions::Steps;
use file_reply::{moved, plain};
use http_head::Request;
use http_target::Target;
use lt_bytes::NoMemory;
use lt_world::{Files, Found, Owner};
use request_settings::{Arrival, attrs_of};
use settings::Settings;
use static_files::map_path;
use std::alloc::Global;
use std::sync::ledger::Ledger;

fn ends_in_slash(path: &[u8]) -> bool
    ensures { result ≡ ends_in_slash path.now }
{
    match path.split_last() {
        Some((last, _)) => *last == b'/',
        None => false,
    }
}

/// Sends a request for a directory to its path with a final slash.
fn send_on<'c>(
    alloc: Global,
    settings: Settings<'c>,
    target: &Target,
) -> Result<Chosen<'c>, NoMemory>
    ensures { IfOk result (IsInWords (lent settings.entry) (moved target.now.path target.now.query)) }
{
    match moved(alloc, target.path.bytes(), target.query.bytes()) {
        Ok(said) => Ok(in_words(settings, said)),
        Err(NoMemory) => Err(NoMemory),
    }
}

impl<'c> Planner<'c> {
    /// What is planned for a request with this target: by what stands at its place below the document root.
    pub(crate) fn plan_target<F: Files, L: Ledger>(
        &mut self,
        arrival: Arrival,
        request: &Request,
        target: &Target,
        files: &mut F,
        owner: Owner,
        steps: &mut Steps<L>,
    ) -> Result<Chosen<'c>, NoMemory>
        requires right { AreRight self.old.site.blocks (attributes_at (Some (came arrival)) request.now target.now) self.old.places }
        ensures site { self.new.site ≡ self.old.site }
        ensures plans { F.tells → Leads self.old.site (Some (came arrival)) request.now (F.disk files.old).tree 0 (λ b. at_target b target.now)
            → PlansBy result self.old.site (Some (came arrival)) owner.conn owner.request request.now (F.disk files.old) (F.disk files.new) }
        ensures within { IfOk result (λ chosen. PlansWithin chosen.content) }
        ensures sends { IfOk result (λ chosen. SendsTo request.now.method chosen.content) }
        ensures compares { steps.new + asked_of self.old ≤ steps.old + 3 * conditions_in self.old.site.blocks + wanted result }
        ensures reads { F.reads files.new ≡ F.reads files.old }
        ensures later { F.later files.old files.new }
    {
        let attrs = attrs_of(arrival, request, target);
        let Ok(now) = self.settings_on(&attrs, steps) else {
            return Err(NoMemory);
        };
        let path = target.path.bytes();
        let Ok(place) = map_path(self.alloc, now.settings.server_document_root, path) else {
            return Err(NoMemory);
        };
        match files.find(owner, place.bytes()) {
            Found::File { size: _, time: _ } => {
                let physical = place.bytes();
                self.plan_file(
                    arrival, request, target, path, physical, files, owner, steps,
                )
            }
            Found::Directory => {
                if !ends_in_slash(path) {
                    return send_on(self.alloc, now.settings, target);
                }
                self.plan_directory(arrival, request, target, place.bytes(), files, owner, steps)
            }
            Found::Missing => Ok(in_words(now.settings, plain(self.alloc, 404))),
            Found::Failed => Ok(in_words(now.settings, plain(self.alloc, 500))),
            Found::NoMemory => Err(NoMemory),
        }
    }
}
