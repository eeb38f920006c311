//! A mirror: a store that follows the watch stream of a peer's pods, line by line, from its opening on: the pods at a
//! revision, asked for and read out of the stream.
#![tactic(auto)]

mod crossing;
mod heard;
mod laws;
mod lines;
mod link_refusal;
mod mirror;
mod opening;
mod opening_lines;
mod refusals;

pub use heard::Heard;
pub use laws::lawful_lines_are_heard;
pub use link_refusal::LinkNo;
pub use mirror::Mirror;
pub use opening::{Opening, Parts};
