//! What shows the time of a session.

ghost use Rattle.std.specs.Prelude.{◌≡◌, ℕ, ◌≤◌, List, [], ◌∷◌, Option};
ghost use Rattle.edge_io.specs.Told.{Noted};
ghost use Rattle.edge_io.specs.declared.clock.Reading.{Reading};

/// What a clock shows: milliseconds since some moment of its own, and whether the program is asked to stop.
#[derive(Clone, Copy, Debug, PartialEq, Eq)]
pub struct Reading {
    /// Milliseconds since a moment that the clock chose once.
    pub ms: u64,
    /// Whether whoever reads the clock is asked to come to an end.
    pub stop: bool,
}

/// A clock that never goes back.
pub trait Clock {
    // the greatest number of milliseconds that was answered, 0 where none was
    ghost last: { Self → ℕ };

    // all answers so far, the oldest first, where they are told
    ghost readings: { Self → Option (List Reading) };

    /// Reads the clock.
    fn now(&mut self) -> Reading
        ensures forward { last self.old ≤ result.ms }
        ensures last { last self.new ≡ result.ms }
        ensures noted { Noted (readings self.old) (readings self.new) (result ∷ []) };

    /// Lets a little time pass. The clock isn't read.
    fn rest(&mut self)
        ensures last { last self.new ≡ last self.old }
        ensures noted { Noted (readings self.old) (readings self.new) [] };
}
