//! What is asked for by a head alone.
ghost use Rattle.std.specs.Prelude.{◌≡◌, ◌+◌, ◌≤◌, Some, IfOk, option_map};
ghost use Rattle.cond_cache.specs.Kept.{conditions_in};
ghost use Rattle.server_model.specs.Request.{Head};
ghost use Rattle.server_model.specs.Settings.{settings_at};
ghost use Rattle.request_plan.specs.Lent.{came, lent, wanted};
ghost use Rattle.request_plan.specs.Kept.{IsRightFor, asked_of};

use crate::planner::Planner;
use conditions::Steps;
use http_head::Request;
use lt_bytes::NoMemory;
use request_settings::{Arrival, attrs_of};
use settings::Settings;
use std::sync::ledger::Ledger;

impl<'c> Planner<'c> {
    /// How many bytes the body of a request may have, by its head.
    pub fn body_limit<L: Ledger>(
        &mut self,
        arrival: Arrival,
        head: &Request,
        steps: &mut Steps<L>,
    ) -> Result<u64, NoMemory>
        requires right { IsRightFor (came arrival) head.now self.old }
        ensures site { self.new.site ≡ self.old.site }
        ensures limit { IfOk result (λ limit. limit ≡ (settings_at self.old.site (Some (came arrival)) (Some head.now)).body_limit) }
        ensures right { IsRightFor (came arrival) head.now self.new }
        ensures steps { steps.new + asked_of self.old ≤ steps.old + asked_of self.new + wanted result }
        ensures few { asked_of self.new ≤ conditions_in self.old.site.blocks }
    {
        let attrs = attrs_of(arrival, head, &head.target);
        self.size_on(&attrs, steps)
    }

    /// The settings of a request that was refused, of which the head was read or not.
    pub fn settings_for<L: Ledger>(
        &mut self,
        arrival: Arrival,
        request: Option<&Request>,
        steps: &mut Steps<L>,
    ) -> Result<Settings<'c>, NoMemory>
        requires right { (head : Head) → option_map (λ r. r.now) request ≡ Some head → IsRightFor (came arrival) head self.old }
        requires few { asked_of self.old ≤ conditions_in self.old.site.blocks }
        ensures site { self.new.site ≡ self.old.site }
        ensures settings { IfOk result (λ settings. lent settings ≡ settings_at self.old.site (Some (came arrival)) (option_map (λ r. r.now) request.entry)) }
        ensures steps { steps.new + asked_of self.old ≤ steps.old + asked_of self.new + wanted result }
        ensures few { asked_of self.new ≤ conditions_in self.old.site.blocks }
    {
        match request {
            Some(head) => self.settings_of(arrival, head, steps),
            None => Ok(self.global),
        }
    }

    /// The settings of a request as it was sent.
    fn settings_of<L: Ledger>(
        &mut self,
        arrival: Arrival,
        head: &Request,
        steps: &mut Steps<L>,
    ) -> Result<Settings<'c>, NoMemory>
        requires right { IsRightFor (came arrival) head.now self.old }
        ensures site { self.new.site ≡ self.old.site }
        ensures settings { IfOk result (λ settings. lent settings ≡ settings_at self.old.site (Some (came arrival)) (Some head.now)) }
        ensures steps { steps.new + asked_of self.old ≤ steps.old + asked_of self.new + wanted result }
        ensures few { asked_of self.new ≤ conditions_in self.old.site.blocks }
    {
        let attrs = attrs_of(arrival, head, &head.target);
        match self.settings_on(&attrs, steps) {
            Ok(now) => Ok(now.settings),
            Err(NoMemory) => Err(NoMemory),
        }
    }
}
