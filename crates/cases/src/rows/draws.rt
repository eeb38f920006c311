//! Draws, the same in each run.

ghost use Rattle.std.specs.Prelude.{◌<◌};

/// The factor and the summand of a linear congruential sequence modulo 2^64.
const FACTOR: u64 = 6_364_136_223_846_793_005;

const SUMMAND: u64 = 1_442_695_040_888_963_407;

/// The state that the draws so far have left.
#[derive(Clone, Copy, Drop)]
pub struct Draws {
    state: u64,
}

impl Draws {
    /// The draws that begin with a seed.
    pub fn from_seed(seed: u64) -> Draws {
        Draws { state: seed }
    }

    /// A number below `most`; 0 where that is 0.
    pub fn below(&mut self, most: u64) -> u64
        ensures { 0 < most → result < most }
    {
        self.state = self.state.wrapping_mul(FACTOR).wrapping_add(SUMMAND);
        (self.state >> 33) % most.max(1)
    }
}
