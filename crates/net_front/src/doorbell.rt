//! The bell of a server, which its pump hears.

use bells::{Bell, NO_PEER};
use std::sync::Wait;
use std::sync::atomic::AtomicBool;
use std::sync::atomic::Ordering::SeqCst;

/// How many milliseconds the pump rests where nobody rings: a mirror's revisions ring nothing.
const REST_MS: u64 = 20;

/// What writes ring, and what the pump rests at. No contract speaks of it.
///
/// No write is missed. It rings behind its commit, so the ring comes behind the count that the pump read before a look
/// that didn't see the commit, and the rest behind that look ends (`Bell`). What the pump tells to lanes it rings there
/// behind that. Lists, and turns that lag, feed a cache too, and leave the bells that are due in the cache: what they
/// told has its cause in a commit whose ring comes later than the commit, or was told in place of it; the pump counts
/// that ring before it takes the cache's lock, so it comes to the lock behind them, and rings for them.
#[derive(Drop)]
pub struct Doorbell {
    bell: Bell,
    is_heard: AtomicBool,
}

impl Doorbell {
    /// A bell that wasn't rung yet, and that nobody hears.
    pub fn new() -> Doorbell {
        Doorbell {
            bell: Bell::new(),
            is_heard: AtomicBool::new(false),
        }
    }

    /// Ends the rest of the pump.
    pub fn ring(&self) {
        self.bell.ring();
    }

    /// Whether a pump hears it. Where none does, nobody rings for the watches, and they have to look for themselves.
    pub fn is_heard(&self) -> bool {
        self.is_heard.load(SeqCst)
    }

    /// The pump begins to hear it.
    pub fn begin(&self) {
        self.is_heard.store(true, SeqCst);
    }

    /// The pump ends.
    pub fn end(&self) {
        self.is_heard.store(false, SeqCst);
    }

    /// The count of rings.
    pub fn count(&self) -> u32 {
        self.bell.count()
    }

    /// Rests until a ring behind this count, or for 20 milliseconds.
    pub fn rest<R: Wait>(&self, rt: &R, count: u32) {
        self.bell.rest(rt, count, &NO_PEER, REST_MS);
    }
}
