//! A count of rings, at which one thread rests.
//!
//! No ring is lost, if whoever rests keeps to this order: it reads the count, looks whether there is something to do,
//! and rests behind the count that it read; and whoever rings does so behind what there is to do.
//!
//! - What was there before the look is seen by the look. What comes behind the look has its ring behind that, so the
//!   ring comes behind the count that was read.
//! - A rest sets `resting`, then compares the count with the one that was read, and then waits. A ring adds to the
//!   count, and then looks at `resting`. All four are steps of one order, in which either the ring's addition comes
//!   before the comparison, and the rest doesn't wait, or the ring finds `resting` set, and wakes. An alarm stays
//!   raised until it is read, and the wait of the fallback compares the count once more; so neither wake can come too
//!   early.
//! - Only who rests gives the bell its alarm, and never while it rests. So a ring that finds a rest which began without
//!   an alarm wakes that one by the count; and where that rest has ended meanwhile, the next count that is read has the
//!   ring in it, since the ring added to it before it looked.
//! - A raise that comes late, when its rest has ended for another reason, ends the next rest for no reason: one idle
//!   turn. So does a ring that the look has seen already.

use crate::alarm::Alarm;
use crate::sockets::has_left;
use std::os::fd::AsRawFd;
use std::sync::atomic::AtomicU64;
use std::sync::atomic::Ordering::SeqCst;
use std::sync::{OnceLock, Wait};
use std::time::Duration;

/// How many milliseconds a rest without an alarm takes at most, as it looks at the peer only behind it.
const LOOK_MS: u64 = 1000;

/// What ended a rest.
#[derive(Clone, Copy, Debug, PartialEq, Eq)]
pub enum Woken {
    /// A ring.
    Rung,
    /// The peer, which has left.
    Left,
    /// The time, or nothing that is known.
    Late,
}

/// Counts rings, and wakes the one thread that rests at it. No contract speaks of it.
#[derive(Drop)]
pub struct Bell {
    rings: AtomicU64,
    resting: AtomicU64,
    alarm: OnceLock<Alarm>,
}

impl Bell {
    /// A bell that wasn't rung yet, and has no alarm.
    pub const fn new() -> Bell {
        Bell {
            rings: AtomicU64::new(0),
            resting: AtomicU64::new(0),
            alarm: OnceLock::new(),
        }
    }

    /// Gives the bell an alarm, if there is none yet and a descriptor for it. It answers whether the bell has one. Only
    /// the thread that rests here calls it.
    pub fn arm(&self) -> bool {
        if self.alarm.get().is_none() {
            if let Some(alarm) = Alarm::new() {
                let _ = self.alarm.try_set(alarm);
            }
        }
        self.alarm.get().is_some()
    }

    /// Ends the rest of the thread that rests here, or the next behind a count that was read before.
    pub fn ring(&self) {
        self.rings.fetch_add(1, SeqCst);
        if self.resting.load(SeqCst) != 0 {
            match self.alarm.get() {
                Some(alarm) => alarm.raise(),
                None => self.rings.wake_one(),
            }
        }
    }

    /// The count of rings, as far as a rest compares it: its low 32 bits.
    pub fn count(&self) -> u32 {
        (self.rings.load(SeqCst) % (1 << 32)) as u32
    }

    /// Rests until a ring behind this count, or until `ms` milliseconds went by, or the peer left. Without an alarm it
    /// rests for a second at most, and looks at the peer only then. It may end for no reason.
    pub fn rest<R: Wait>(&self, rt: &R, count: u32, peer: &impl AsRawFd, ms: u64) -> Woken {
        self.resting.store(1, SeqCst);
        let has_left = self.count() == count && self.rest_now(rt, count, peer, ms);
        self.resting.store(0, SeqCst);
        if has_left {
            Woken::Left
        } else if self.count() != count {
            Woken::Rung
        } else {
            Woken::Late
        }
    }

    // Rests, and answers whether the peer has left.
    fn rest_now<R: Wait>(&self, rt: &R, count: u32, peer: &impl AsRawFd, ms: u64) -> bool {
        match self.alarm.get() {
            Some(alarm) => alarm.rest(peer, ms),
            None => {
                let time = Duration::from_millis(ms.min(LOOK_MS));
                self.rings.park_timeout(rt, count, time);
                has_left(peer)
            }
        }
    }
}
