//! Bytes that come and bytes that go, a piece at a time.
use crate::fault::Fault;

/// Where bytes come from.
pub trait Source {
    ghost use Rattle.std.specs.Prelude.{◌≡◌, ℕ, ◌≤◌, List, length, IfOk, OnErr};
    ghost use Rattle.lt_world.specs.Causes.{Rose};
    ghost use Rattle.lt_world.specs.Streams.{Gives};

    /// Whether sources of this type tell their bytes.
    ghost tells: { Type 0 };

    /// The bytes that are left.
    ghost bytes: { Self → List ℕ };

    /// How often a read has failed. It never falls.
    ghost faults: { Self → ℕ };

    /// The second source is what the first may become. What is later has failed as often or more.
    ghost later: { Self → Self → Type 0 };

    /// Reads once. A read of no byte into a buffer that is not empty is the end.
    fn read(&mut self, buf: &mut [u8]) -> Result<usize, Fault>
        ensures bytes { tells → IfOk result (λ n. Gives n (bytes self.old) buf.new (bytes self.new)) }
        ensures kept { tells → OnErr result (bytes self.new ≡ bytes self.old) }
        ensures within { IfOk result (λ n. n ≤ length buf.new) }
        ensures cause { OnErr result (Rose (faults self.old) (faults self.new)) }
        ensures faults { faults self.old ≤ faults self.new }
        ensures later { later self.old self.new };

    ghost later_same: { (source : Self) → later source source };

    ghost later_later: { (a b c : Self) → later a b → later b c → later a c };

    ghost later_faults: { (a b : Self) → later a b → faults a ≤ faults b };
}

/// Where output goes.
pub trait Sink {
    ghost use Rattle.std.specs.Prelude.{◌≡◌, ℕ, ◌≤◌, List, ◌++◌, length, take, IfOk, OnErr};
    ghost use Rattle.lt_world.specs.Causes.{Rose};
    ghost use Rattle.lt_world.specs.Streams.{TakesSome};

    /// Whether sinks of this type tell their bytes.
    ghost tells: { Type 0 };

    /// The bytes that were taken.
    ghost bytes: { Self → List ℕ };

    /// How often a write has failed. It never falls.
    ghost faults: { Self → ℕ };

    /// The second sink is what the first may become. What is later has failed as often or more.
    ghost later: { Self → Self → Type 0 };

    /// Offers a piece once, and takes bytes from its front: at least one, where there is one.
    fn write(&mut self, piece: &[u8]) -> Result<usize, Fault>
        ensures bytes { tells → IfOk result (λ n. bytes self.new ≡ bytes self.old ++ take n piece.now) }
        ensures kept { tells → OnErr result (bytes self.new ≡ bytes self.old) }
        ensures within { IfOk result (TakesSome (length piece.now)) }
        ensures cause { OnErr result (Rose (faults self.old) (faults self.new)) }
        ensures faults { faults self.old ≤ faults self.new }
        ensures later { later self.old self.new };

    ghost later_same: { (sink : Self) → later sink sink };

    ghost later_later: { (a b c : Self) → later a b → later b c → later a c };

    ghost later_faults: { (a b : Self) → later a b → faults a ≤ faults b };
}
