//! The clock of a connection.

ghost use Rattle.std.specs.Prelude.{◌≡◌, ◌↔◌, IsTrue, None};

use crate::connection::Connection;
use bells::{Bell, Rung, Woken, has_left, has_room};
use edge_io::{Clock, Reading, SystemClock};
use std::alloc::Global;
use std::sync::{Arc, Wait};
use std::time::Instant;

/// How many milliseconds pass at least between two looks at the peer as the clock is read.
const LOOK_MS: u64 = 100;

/// The system's clock, at a connection. Once the peer has left it asks to stop, so that a quiet watch ends, which would
/// else go on until its time is up. Its rests end as its bell is rung, or its peer leaves.
///
/// A burst wakes many watches at once, and each would be due before whoever asks for something meanwhile. Each turn of
/// a watch begins with a reading, so a reading gives way first to the threads that wait for a processor.
#[derive(Drop)]
pub struct PeerClock<R> {
    clock: SystemClock<R>,
    rt: R,
    peer: Connection,
    bell: Arc<Bell, Global>,
    has_rested: bool,
    has_left: bool,
    looked: u64,
}

impl<R: std::time::Clock + Copy> PeerClock<R> {
    /// A clock that shows the time since `start`, at a connection to `peer`.
    pub(crate) fn since(
        rt: R,
        start: Option<Instant>,
        peer: Connection,
        bell: Arc<Bell, Global>,
    ) -> PeerClock<R> {
        let mut clock = SystemClock::since(rt, start);
        let looked = clock.now().ms;
        PeerClock {
            clock,
            rt,
            peer,
            bell,
            has_rested: false,
            has_left: false,
            looked,
        }
    }
}

impl<R: std::time::Clock> Clock for PeerClock<R> {
    ghost last = { λ at. ⟦<SystemClock<R> as Clock>⟧.last at.clock };

    ghost readings = { λ _. None };

    fn now(&mut self) -> Reading {
        libc::sched_yield();
        let ms = self.clock.now().ms;
        if ms.saturating_sub(self.looked) >= LOOK_MS {
            self.looked = ms;
            self.has_left = self.has_left || has_left(&self.peer);
        }
        Reading {
            ms,
            stop: self.has_left,
        }
    }

    fn rest(&mut self) {
        self.clock.rest();
    }
}

impl<R: std::time::Clock + Wait> Rung for PeerClock<R> {
    fn bell(&self) -> Option<&Arc<Bell, Global>> {
        Some(&self.bell)
    }

    // Watches alone rest like this, so the alarm takes its descriptor at the first such rest, if enough are left.
    fn rest_until(&mut self, count: u32, ms: u64) -> bool {
        if !self.has_rested {
            self.has_rested = true;
            if has_room(&self.peer) {
                self.bell.arm();
            }
        }
        let woken = self.bell.rest(&self.rt, count, &self.peer, ms);
        self.has_left = self.has_left || is_leave(woken);
        true
    }
}

// Whether a rest ended since the peer has left, and not for its time or a ring.
fn is_leave(woken: Woken) -> bool
    ensures { IsTrue result ↔ (woken ≡ Woken.Left) }
{
    woken == Woken::Left
}
