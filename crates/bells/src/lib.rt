//! Rests that others can end: bells that count rings and wake the one thread that rests at them, and clocks with such a
//! bell.
//!
//! A thread rests in one `poll(2)` of two descriptors, its peer's socket and an alarm of its own, so that a ring, a
//! peer that left and the time all end the same rest, and nothing looks again and again in between. No contract speaks
//! of what ends a rest; `bell.rt` says why no ring is lost. That a ring which is owed isn't forgotten is a type's:
//! `Calls`.
#![tactic(auto)]

mod alarm;
mod bell;
mod calls;
mod rung;
mod sockets;

pub use alarm::Alarm;
pub use bell::{Bell, Woken};
pub use calls::Calls;
pub use rung::Rung;
pub use sockets::{NO_PEER, has_left, has_room, listen_long};
