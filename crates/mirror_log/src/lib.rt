//! The log of a mirror: the store that it feeds, and what its peer's lines make of it. What it keeps of the lines
//! until their revision is whole stands in `intake`; the revisions that take the objects of one revision of a log to
//! those of a later one, where only the two lists of rows are known, in `between`.
#![tactic(auto)]

mod between;
mod bridge_refusal;
mod find;
mod gaps;
mod intake;
mod keys;
mod kinds;
mod laws;
mod log;
mod pending;
mod rebasing;
mod refusal;
mod same;
mod slots;
mod take_refusal;

pub use between::bridge;
pub use bridge_refusal::BridgeNo;
pub use intake::Intake;
pub use keys::{Keys, keys_of};
pub use laws::{taken_events_fit, taken_marks_fit};
pub use log::MirrorLog;
pub use refusal::{MirrorNo, RebaseNo};
pub use take_refusal::TakeNo;
