//! A clock that steps at each reading.

ghost use Rattle.std.specs.Prelude.{◌≡◌, ◌≤◌, ℕ, [], ◌∷◌};
ghost use Rattle.edge_io.specs.Counts.{counted};
ghost use Rattle.edge_io.specs.Told.{Noted};
ghost use Rattle.edge_io.specs.Memory.{step_reading, told_readings, step_last};

use crate::clock::{Clock, Reading};
use std::marker::Model;

/// A clock that reads 0 first and 1000 milliseconds more at each reading, as far as that fits into 64 bits, and never
/// asks to stop. Contracts see it as the number of readings that it made.
#[derive(Debug, Drop)]
pub struct StepClock {
    made: u64,
}

impl Model for StepClock {
    ghost use Rattle.std.specs.Prelude.{ℕ};

    ghost Value = { ℕ };

    ghost view = { λ clock. clock.made };
}

const MOST_STEPS: u64 = 18_446_744_073_709_551;

impl StepClock {
    /// A clock that made no reading yet.
    pub fn new() -> StepClock
        ensures { result ≡ 0 }
    {
        StepClock { made: 0 }
    }
}

impl Clock for StepClock {
    ghost last = { step_last };

    ghost readings = { told_readings };

    fn now(&mut self) -> Reading
        ensures read { result ≡ step_reading self.old }
        ensures counted { self.new ≡ counted self.old }
        ensures forward { step_last self.old ≤ result.ms }
        ensures last { step_last self.new ≡ result.ms }
        ensures noted { Noted (told_readings self.old) (told_readings self.new) (result ∷ []) }
    {
        let ms = 1000 * self.made.min(MOST_STEPS);
        self.made = self.made.saturating_add(1);
        Reading { ms, stop: false }
    }

    fn rest(&mut self)
        ensures kept { self.new ≡ self.old }
        ensures noted { Noted (told_readings self.old) (told_readings self.new) [] }
    {}
}
