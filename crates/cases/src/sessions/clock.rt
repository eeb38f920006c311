//! The clock of a case.

ghost use Rattle.std.specs.Prelude.{None};
ghost use Rattle.edge_io.specs.Memory.{step_last};

use edge_io::{Clock, Reading, StepClock};

/// A clock that shows a second more at each reading, and may ask to stop at one of them.
#[derive(Drop)]
pub struct CaseClock {
    steps: StepClock,
    // How many readings there are up to that one, with it; none, where it never asks.
    left: u64,
}

impl CaseClock {
    /// The clock that asks to stop at the reading of this number, from 1; at none, where it is 0.
    pub fn new(stop: u64) -> CaseClock {
        CaseClock {
            steps: StepClock::new(),
            left: stop,
        }
    }
}

impl Clock for CaseClock {
    ghost last = { λ clock. step_last clock.steps };

    ghost readings = { λ _. None };

    fn now(&mut self) -> Reading {
        let stop = self.left == 1;
        self.left = self.left.saturating_sub(1);
        Reading {
            ms: self.steps.now().ms,
            stop,
        }
    }

    fn rest(&mut self) {}
}
