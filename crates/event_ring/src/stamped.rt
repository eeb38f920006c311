//! Events with the time of their push.

use crate::Event;

/// An event and the time at which it was pushed, in milliseconds.
#[derive(Drop)]
pub struct Stamped {
    pub event: Event,
    pub stamp: u64,
}
