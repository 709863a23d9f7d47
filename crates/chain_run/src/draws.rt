//! Numbers that a recurrence draws.
ghost use Rattle.std.specs.Prelude.{◌<◌};

/// The linear congruence of a generated script, of which the upper bits count.
#[derive(Drop)]
pub struct Draws {
    state: u64,
}

impl Draws {
    pub fn new(state: u64) -> Draws {
        Draws { state }
    }

    /// A number below this one, which isn't 0.
    pub fn below(&mut self, bound: u64) -> u64 {
        self.state = self
            .state
            .wrapping_mul(6_364_136_223_846_793_005)
            .wrapping_add(1_442_695_040_888_963_407);
        (self.state >> 33) % bound.max(1)
    }
}
