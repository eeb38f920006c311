//! The load generator: a session of requests that are drawn, and what a server of its own comes to with it.
#![tactic(auto)]

mod draws;
mod figures;
mod replies;
mod requests;
mod run;
mod session;

pub use requests::{Action, LoadRequest};
pub use run::{LoadNo, run_load};
pub use session::make;
