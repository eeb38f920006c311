//! The stream that answers a watch: its head, its opening, its turns by the clock, and its end. The lines of a turn are
//! written in the form and the frames that were asked for, and each turn is flushed before the client is asked again.
#![tactic(auto)]

mod ends;
mod frames;
mod laws;
mod lines;
mod stream;
mod turns;
mod view;

pub use ends::WatchEnd;
pub use laws::turns_are_bodies;
pub use stream::{serve_gone, serve_stream};
pub use view::{Framing, View};
