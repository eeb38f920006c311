//! One session of the API server: requests in, replies and streams out, from bytes to bytes, over any client of the
//! log.
#![tactic(auto)]

mod answer;
mod each;
mod ends;
mod laws;
mod refused;
mod resources;
mod serve;
mod steps;
mod view;
mod watching;

pub use each::{EachClient, serve_each};
pub use ends::SessionEnd;
pub use laws::{ends_are_exact, requests_are_of_their_path, sessions_settle};
pub use serve::serve_session;
