//! Who rests at a lane, and has to be rung.

use bells::{Bell, Calls};
use std::sync::Arc;

/// The watcher of a lane that may rest at a bell, with the lane's number, and whether it is called: whether it has to
/// be rung, since the lane got something or fell behind. No contract speaks of it.
#[derive(Drop)]
pub(crate) struct Sleeper {
    lane: u64,
    bell: Arc<Bell>,
    is_called: bool,
}

impl Sleeper {
    /// A watcher that isn't called.
    pub fn new(lane: u64, bell: Arc<Bell>) -> Sleeper {
        Sleeper {
            lane,
            bell,
            is_called: false,
        }
    }

    /// Whether it is called.
    pub fn is_called(&self) -> bool {
        self.is_called
    }

    /// Calls it: its lane is listed, unless it is already. Where there is no memory for that it is rung at once.
    pub fn call(&mut self, called: &mut Vec<u64>) {
        if !self.is_called {
            match called.push(self.lane) {
                Ok(()) => self.is_called = true,
                Err(_) => self.bell.ring(),
            }
        }
    }

    /// Hands its bell to who rings, and is no longer called. Where there is no memory for that it is rung at once.
    pub fn hand_over(&mut self, calls: &mut Calls) {
        self.is_called = false;
        calls.add(&self.bell);
    }
}
