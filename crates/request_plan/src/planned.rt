//! What a request gets: it is rewritten, and its target leads to a directory or a file.
ghost use Rattle.std.specs.Prelude.{◌≡◌, ◌+◌, ◌*◌, ◌≤◌, Ok, Some, IfOk};
ghost use Rattle.cond_cache.specs.Kept.{AreRight, conditions_in};
ghost use Rattle.file_reply.specs.Refusals.{plain};
ghost use Rattle.server_model.specs.Attributes.{attributes_at};
ghost use Rattle.server_model.specs.Comparing.{comparisons};
ghost use Rattle.server_model.specs.Rewrites.{rewriting};
ghost use Rattle.server_model.specs.Settings.{settings_on};
ghost use Rattle.request_plan.specs.Lent.{came, lent, wanted};
ghost use Rattle.request_plan.specs.Kept.{IsRightFor, asked_of};
ghost use Rattle.request_plan.specs.Planned.{PlansBy, PlansWithin, SendsTo};
ghost use Rattle.request_plan.specs.Finding.{IsInWords};

use crate::chosen::{Chosen, in_words};
use crate::planner::Planner;
use conditions::Steps;
use file_reply::plain;
use http_head::Request;
use http_target::Target;
use lt_bytes::{NoMemory, Text};
use lt_world::{Files, Owner};
use request_settings::{Arrival, attrs_of};
use rewrite::Rewritten;
use std::alloc::Global;
use std::sync::ledger::Ledger;

fn copy_of(alloc: Global, target: &Target) -> Result<Target, NoMemory>
    ensures { IfOk result (λ copy. copy ≡ target.now) }
{
    let raw = Text::from_bytes(alloc, target.raw.bytes())?;
    let path = Text::from_bytes(alloc, target.path.bytes())?;
    let query = Text::from_bytes(alloc, target.query.bytes())?;
    Ok(Target { raw, path, query })
}

impl<'c> Planner<'c> {
    /// What is planned for a request of a client that came so. What was found of the conditions since `begin` counts, and
    /// no condition is compared again for the same attributes.
    ///
    /// A file that it opened is in the answer where bytes of it are sent, and else given back; without memory none is
    /// open.
    pub fn plan<F: Files, L: Ledger>(
        &mut self,
        arrival: Arrival,
        request: &Request,
        files: &mut F,
        owner: Owner,
        steps: &mut Steps<L>,
    ) -> Result<Chosen<'c>, NoMemory>
        requires right { IsRightFor (came arrival) request.now self.old }
        ensures site { self.new.site ≡ self.old.site }
        ensures plans { F.tells → PlansBy result self.old.site (Some (came arrival)) owner.conn owner.request request.now (F.disk files.old) (F.disk files.new) }
        ensures within { IfOk result (λ chosen. PlansWithin chosen.content) }
        ensures sends { IfOk result (λ chosen. SendsTo request.now.method chosen.content) }
        ensures compares { steps.new + asked_of self.old
            ≤ steps.old + comparisons self.old.site (rewriting self.old.site.blocks (Some (came arrival)) request.now).passes + wanted result }
        ensures reads { F.reads files.new ≡ F.reads files.old }
        ensures later { F.later files.old files.new }
    {
        match self.is_rewritten(arrival, request, steps) {
            Ok(false) => self.plan_target(arrival, request, &request.target, files, owner, steps),
            Ok(true) => self.plan_rewritten(arrival, request, files, owner, steps),
            Err(NoMemory) => Err(NoMemory),
        }
    }

    /// What is planned for a request that is rewritten.
    fn plan_rewritten<F: Files, L: Ledger>(
        &mut self,
        arrival: Arrival,
        request: &Request,
        files: &mut F,
        owner: Owner,
        steps: &mut Steps<L>,
    ) -> Result<Chosen<'c>, NoMemory>
        requires right { IsRightFor (came arrival) request.now self.old }
        ensures site { self.new.site ≡ self.old.site }
        ensures plans { F.tells → PlansBy result self.old.site (Some (came arrival)) owner.conn owner.request request.now (F.disk files.old) (F.disk files.new) }
        ensures within { IfOk result (λ chosen. PlansWithin chosen.content) }
        ensures sends { IfOk result (λ chosen. SendsTo request.now.method chosen.content) }
        ensures compares { steps.new + asked_of self.old
            ≤ steps.old + comparisons self.old.site (rewriting self.old.site.blocks (Some (came arrival)) request.now).passes + wanted result }
        ensures reads { F.reads files.new ≡ F.reads files.old }
        ensures later { F.later files.old files.new }
    {
        let Ok(mut target) = copy_of(self.alloc, &request.target) else {
            return Err(NoMemory);
        };
        match self.rewrite(arrival, request, &mut target, steps) {
            Ok(Rewritten::Same) => self.plan_target(arrival, request, &target, files, owner, steps),
            Ok(Rewritten::New) => self.plan_target(arrival, request, &target, files, owner, steps),
            Ok(Rewritten::Loop) => self.plan_status(arrival, request, &target, 500, steps),
            Ok(Rewritten::Bad) => self.plan_status(arrival, request, &target, 400, steps),
            Err(NoMemory) => Err(NoMemory),
        }
    }

    /// A status in words, with the settings of the target that was reached.
    fn plan_status<L: Ledger>(
        &mut self,
        arrival: Arrival,
        request: &Request,
        target: &Target,
        status: u16,
        steps: &mut Steps<L>,
    ) -> Result<Chosen<'c>, NoMemory>
        requires right { AreRight self.old.site.blocks (attributes_at (Some (came arrival)) request.now target.now) self.old.places }
        ensures site { self.new.site ≡ self.old.site }
        ensures says { IfOk result (IsInWords (settings_on self.old.site.blocks (attributes_at (Some (came arrival)) request.now target.now)) (plain status)) }
        ensures compares { steps.new + asked_of self.old ≤ steps.old + conditions_in self.old.site.blocks + wanted result }
    {
        let attrs = attrs_of(arrival, request, target);
        match self.settings_on(&attrs, steps) {
            Ok(now) => Ok(in_words(now.settings, plain(self.alloc, status))),
            Err(NoMemory) => Err(NoMemory),
        }
    }
}
