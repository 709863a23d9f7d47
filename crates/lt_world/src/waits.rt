//! A net that listens at an address and can wait for the next event.
use crate::fault::Fault;
use crate::net::{Address, Net};

/// A net over real sockets, or one that stands in for it.
pub trait Waits: Net {
    ghost use Rattle.std.specs.Prelude.{◌≡◌, ◌≤◌, OnOk, OnErr};
    ghost use Rattle.lt_world.specs.Causes.{Rose};

    /// The second net is what the first one may become, by these two calls as well. What came since has failed as often
    /// or more, and has no more events left.
    ghost since: { Self → Self → Type 0 };

    /// Begins to accept clients at this address.
    fn listen(&mut self, at: Address) -> Result<(), Fault>
        ensures cause { OnErr result (Rose (Self.faults self.old) (Self.faults self.new)) }
        ensures wait_cause { OnErr result (Rose (Self.wait_faults self.old) (Self.wait_faults self.new)) }
        ensures faults { Self.faults self.old ≤ Self.faults self.new }
        ensures wait_faults { Self.wait_faults self.old ≤ Self.wait_faults self.new }
        ensures wait_kept { OnOk result (Self.wait_faults self.new ≡ Self.wait_faults self.old) }
        ensures trace { Self.tells → Self.trace self.new ≡ Self.trace self.old }
        ensures links { Self.links self.new ≡ Self.links self.old }
        ensures last { Self.last self.new ≡ Self.last self.old }
        ensures left { Self.ends → Self.left self.new ≤ Self.left self.old }
        ensures calls { Self.calls self.old ≤ Self.calls self.new }
        ensures room { Self.room self.old ≤ Self.room self.new }
        ensures since { since self.old self.new };

    /// Waits until something may be ready. The only call that may wait.
    fn wait(&mut self) -> Result<(), Fault>
        ensures cause { OnErr result (Rose (Self.faults self.old) (Self.faults self.new)) }
        ensures wait_cause { OnErr result (Rose (Self.wait_faults self.old) (Self.wait_faults self.new)) }
        ensures faults { Self.faults self.old ≤ Self.faults self.new }
        ensures wait_faults { Self.wait_faults self.old ≤ Self.wait_faults self.new }
        ensures wait_kept { OnOk result (Self.wait_faults self.new ≡ Self.wait_faults self.old) }
        ensures trace { Self.tells → Self.trace self.new ≡ Self.trace self.old }
        ensures links { Self.links self.new ≡ Self.links self.old }
        ensures last { Self.last self.new ≡ Self.last self.old }
        ensures left { Self.ends → Self.left self.new ≤ Self.left self.old }
        ensures calls { Self.calls self.old ≤ Self.calls self.new }
        ensures room { Self.room self.old ≤ Self.room self.new }
        ensures since { since self.old self.new };

    ghost later_since: { (a b : Self) → Self.later a b → since a b };

    ghost since_since: { (a b c : Self) → since a b → since b c → since a c };

    ghost since_faults: { (a b : Self) → since a b → Self.faults a ≤ Self.faults b };

    ghost since_wait_faults: { (a b : Self) → since a b → Self.wait_faults a ≤ Self.wait_faults b };

    ghost since_left: { (a b : Self) → Self.ends → since a b → Self.left b ≤ Self.left a };
}
