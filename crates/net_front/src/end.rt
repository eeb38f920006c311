//! The end of a server's sessions.

use bells::{Bell, NO_PEER};
use std::sync::Wait;
use std::sync::atomic::AtomicBool;
use std::sync::atomic::Ordering::SeqCst;

/// Where what runs beside the sessions sees that they have ended. No contract speaks of it.
#[derive(Drop)]
pub struct End {
    is_there: AtomicBool,
    bell: Bell,
}

/// Whoever has it has seen that the sessions have ended: [`End::seen`] alone gives it.
#[derive(Clone, Copy, Debug)]
pub struct AtEnd(());

impl End {
    /// Sessions may still begin.
    pub fn new() -> End {
        End {
            is_there: AtomicBool::new(false),
            bell: Bell::new(),
        }
    }

    /// All sessions have ended, and none will begin.
    pub fn come(&self) {
        self.is_there.store(true, SeqCst);
        self.bell.ring();
    }

    /// Whether they have.
    pub fn seen(&self) -> Option<AtEnd> {
        if self.is_there.load(SeqCst) {
            Some(AtEnd(()))
        } else {
            None
        }
    }

    /// Rests for so many milliseconds, or until the end comes; for a second at most where the system has no descriptor
    /// left. One thread alone rests here.
    pub fn rest<R: Wait>(&self, rt: &R, ms: u64) {
        self.bell.arm();
        let count = self.bell.count();
        if self.seen().is_none() {
            self.bell.rest(rt, count, &NO_PEER, ms);
        }
    }
}
