//! One direction of a connection, and the time that passes on it.

use crate::waits::{Limits, wait_ms};
use libc::CLOCK_MONOTONIC;
use libc::types::timespec;
use std::io;
use std::io::ErrorKind;
use std::sync::atomic::AtomicU64;
use std::sync::atomic::Ordering::SeqCst;
use std::time::Duration;

/// The milliseconds of the system's clock, above 0. Where it can't be read they stand still, and nothing is late.
pub(crate) fn now_ms() -> u64 {
    let mut time = timespec {
        tv_sec: 0,
        tv_nsec: 0,
    };
    if libc::clock_gettime(CLOCK_MONOTONIC, &mut time) != 0 {
        return 1;
    }
    let seconds = time.tv_sec.unsigned_abs();
    let part = time.tv_nsec.unsigned_abs() / 1_000_000;
    seconds.saturating_mul(1000).saturating_add(part).max(1)
}

/// One direction of a connection: what it is given, since when it carries what it carries now, and how long the system
/// lets a call wait. No contract speaks of it but of the decision, which `wait_ms` makes.
#[derive(Drop)]
pub(crate) struct Way {
    limits: Limits,
    // 0: it carries nothing.
    began: AtomicU64,
    set_ms: AtomicU64,
}

impl Way {
    /// A direction that carries nothing yet, and for which the system was told of no time.
    pub(crate) fn new(limits: Limits) -> Way {
        Way {
            limits,
            began: AtomicU64::new(0),
            set_ms: AtomicU64::new(0),
        }
    }

    /// What the system has to be told before a call: for how long that may wait, where it isn't what was told last. An
    /// error means that the time is over.
    pub(crate) fn next_wait(&self) -> io::Result<Option<Duration>> {
        let began = match self.began.load(SeqCst) {
            0 => None,
            began => Some(began),
        };
        let now = if began.is_some() { now_ms() } else { 0 };
        let Some(ms) = wait_ms(self.limits, began, now) else {
            return Err(io::Error::from(ErrorKind::TimedOut));
        };
        if self.set_ms.load(SeqCst) == ms {
            return Ok(None);
        }
        self.set_ms.store(ms, SeqCst);
        Ok(Some(Duration::from_millis(ms)))
    }

    /// It carries something, from now on if it didn't before.
    pub(crate) fn carry(&self) {
        if self.began.load(SeqCst) == 0 {
            self.began.store(now_ms(), SeqCst);
        }
    }

    /// It carries nothing more of what it carried.
    pub(crate) fn clear(&self) {
        if self.began.load(SeqCst) != 0 {
            self.began.store(0, SeqCst);
        }
    }
}
