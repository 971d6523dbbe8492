//! Numbers that are the same for the same seed, and else look random.

ghost use Rattle.std.specs.Prelude.{◌<◌};

/// Where a row of numbers stands: a linear congruential generator of 64 bits.
#[derive(Drop)]
pub struct Dice {
    state: u64,
}

impl Dice {
    pub fn new(seed: u64) -> Dice {
        Dice { state: seed }
    }

    /// A number below the limit.
    pub fn below(&mut self, limit: u64) -> u64
        requires { 0 < limit }
        ensures { result < limit }
    {
        self.state = self
            .state
            .wrapping_mul(6_364_136_223_846_793_005)
            .wrapping_add(1_442_695_040_888_963_407);
        (self.state >> 33) % limit
    }
}
