//! The calls of `listen` and `wait`, which fail as the script plans it.
ghost use Rattle.std.specs.Prelude.{◌≡◌, ◌≤◌};
ghost use Rattle.script_net.specs.Waited.{unwaited, plans_listen, plans_wait, FailsAs, failed_as, listened, waited};

use lt_bytes::List;
use lt_script::{FaultCall, ScriptFault};
use lt_world::Fault;
use std::marker::Model;

/// The calls that are to fail, and how many of each kind were made and failed.
#[derive(Drop)]
pub struct Waiting {
    plan: List<ScriptFault>,
    listens: u64,
    waits: u64,
    faults: u64,
}

impl Model for Waiting {
    ghost use Rattle.script_net.specs.Waited.{Waited};

    ghost Value = { Waited };

    ghost view = { λ w. record { plan = w.plan; listens = w.listens; waits = w.waits; faults = w.faults } };
}

impl Waiting {
    pub fn new(plan: List<ScriptFault>) -> Waiting
        ensures { result ≡ unwaited plan }
    {
        Waiting {
            plan,
            listens: 0,
            waits: 0,
            faults: 0,
        }
    }

    pub fn listen(&mut self) -> Result<(), Fault>
        ensures becomes { self.new ≡ listened result self.old }
        ensures more { self.old.faults ≤ self.new.faults }
        ensures planned { FailsAs result (plans_listen self.old.listens self.old.plan) }
    {
        let due = plans_listen(self.plan.as_slice(), self.listens);
        self.listens = self.listens.saturating_add(1);
        let answer = answer_of(due);
        self.faults = count(answer, self.faults);
        answer
    }

    pub fn wait(&mut self) -> Result<(), Fault>
        ensures becomes { self.new ≡ waited result self.old }
        ensures more { self.old.faults ≤ self.new.faults }
        ensures planned { FailsAs result (plans_wait self.old.waits self.old.plan) }
    {
        let due = plans_wait(self.plan.as_slice(), self.waits);
        self.waits = self.waits.saturating_add(1);
        let answer = answer_of(due);
        self.faults = count(answer, self.faults);
        answer
    }
}

// The answer of a call that is to fail, or is not.
fn answer_of(due: bool) -> Result<(), Fault>
    ensures { FailsAs result due }
{
    if due { Err(Fault) } else { Ok(()) }
}

/// A count of failed calls after one more answer.
pub fn count(answer: Result<(), Fault>, faults: u64) -> u64
    ensures value { result ≡ failed_as answer faults }
    ensures more { faults ≤ result }
{
    match answer {
        Ok(()) => faults,
        Err(_) => faults.saturating_add(1),
    }
}

fn plans_listen(plan: &[ScriptFault], nth: u64) -> bool
    ensures { result ≡ plans_listen nth plan.now }
{
    plan.iter().any(|fault| matches!(fault.call, FaultCall::Listen) && u64::from(fault.nth) == nth)
}

fn plans_wait(plan: &[ScriptFault], nth: u64) -> bool
    ensures { result ≡ plans_wait nth plan.now }
{
    plan.iter().any(|fault| matches!(fault.call, FaultCall::Wait) && u64::from(fault.nth) == nth)
}
