//! Clocks whose rests others can end.

ghost use Rattle.std.specs.Prelude.{◌≡◌, []};
ghost use Rattle.edge_io.specs.Told.{Noted};

use crate::bell::Bell;
use edge_io::Clock;
use std::alloc::Global;
use std::sync::Arc;

/// A clock whose rests others can end.
pub trait Rung: Clock {
    /// What ends its rests, if anything does.
    fn bell(&self) -> Option<&Arc<Bell, Global>>;

    /// Rests until a ring of its bell behind this count, or until `ms` milliseconds went by; it may end sooner. The
    /// clock isn't read. It answers false where it has nothing to rest on, and nothing was done then.
    fn rest_until(&mut self, count: u32, ms: u64) -> bool
        ensures last { Self.last self.new ≡ Self.last self.old }
        ensures noted { Noted (Self.readings self.old) (Self.readings self.new) [] };
}
