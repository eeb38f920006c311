//! The clock of a connection, whose rests its bell ends.

ghost use Rattle.std.specs.Prelude.{◌≡◌, None};

use crate::disconnects::Disconnects;
use crate::doorbell::Doorbell;
use crate::rests::{SHORT_MS, is_stopped, rest_by};
use crate::schedule::Schedule;
use bells::{Bell, NO_PEER, Rung};
use edge_io::{Clock, Reading};
use std::alloc::Global;
use std::sync::{Arc, Wait};

/// A connection's clock, which rests until its bell is rung or its watch has something to do by itself, and asks the
/// watch to stop where all watches were ended since that began. It tells no readings.
///
/// The rings are counted as the clock is read, at the head of a turn, and a rest is one behind that count; so it ends
/// at once where a ring came meanwhile (`Bell`). A lane is told, or told to be behind, before its bell is rung: the
/// turn saw it, or the ring comes behind the count.
#[derive(Drop)]
pub struct RungClock<'a, T, R: Wait> {
    clock: T,
    rt: &'a R,
    bell: Option<Arc<Bell, Global>>,
    doorbell: &'a Doorbell,
    disconnects: &'a Disconnects,
    schedule: &'a Schedule,
    rings: u32,
    start: Option<Start>,
    mark: u64,
    at: u64,
}

// The beginning of a watch: when it was, and how often all watches had been ended.
#[derive(Clone, Copy, Debug)]
struct Start {
    ms: u64,
    ended: u64,
}

impl<'a, T: Rung, R: Wait> RungClock<'a, T, R> {
    /// This clock, at the bell that is rung for its connection, if there is any.
    pub fn new(
        clock: T,
        rt: &'a R,
        bell: Option<Arc<Bell, Global>>,
        doorbell: &'a Doorbell,
        disconnects: &'a Disconnects,
        schedule: &'a Schedule,
    ) -> RungClock<'a, T, R>
        ensures { result.clock ≡ clock }
    {
        RungClock {
            clock,
            rt,
            bell,
            doorbell,
            disconnects,
            schedule,
            rings: 0,
            start: None,
            mark: 0,
            at: 0,
        }
    }

    // Takes down a reading, and answers whether the watch is asked to stop. The first reading is the start of the
    // watch: nothing before it reads the clock.
    fn note(&mut self, reading: Reading) -> bool
        ensures { self.new.clock ≡ self.old.clock }
    {
        let ended = self.disconnects.count();
        self.at = reading.ms;
        match self.start {
            Some(start) => is_stopped(reading.stop, start.ended, ended),
            None => {
                self.mark = reading.ms;
                self.start = Some(Start {
                    ms: reading.ms,
                    ended,
                });
                reading.stop
            }
        }
    }

    // How long the rest may take that begins now. It begins behind a quiet turn, which has written a bookmark if one
    // was due.
    fn rest_ms(&mut self) -> u64
        ensures { self.new.clock ≡ self.old.clock }
    {
        if self.schedule.is_marked(self.mark, self.at) {
            self.mark = self.at;
        }
        let start = match self.start {
            Some(start) => start.ms,
            None => 0,
        };
        let ms = self.schedule.rest_ms(start, self.mark, self.at);
        rest_by(self.doorbell.is_heard(), ms)
    }
}

impl<'a, T: Rung, R: Wait> Clock for RungClock<'a, T, R> {
    ghost last = { λ rung. T.last rung.clock };

    ghost readings = { λ _. None };

    fn now(&mut self) -> Reading {
        self.rings = match &self.bell {
            Some(bell) => bell.count(),
            None => 0,
        };
        let reading = self.clock.now();
        let stop = self.note(reading);
        Reading {
            ms: reading.ms,
            stop,
        }
    }

    // A clock that has nothing to rest on may show no time but its own, so it is looked at often.
    fn rest(&mut self) {
        let ms = self.rest_ms();
        let Some(bell) = &self.bell else {
            self.clock.rest();
            return;
        };
        if !self.clock.rest_until(self.rings, ms) {
            bell.rest(self.rt, self.rings, &NO_PEER, ms.min(SHORT_MS));
        }
    }
}
