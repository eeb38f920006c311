//! The cache of one resource with the lanes of its watchers: what the cache takes in is told to those whom it concerns,
//! and whoever falls behind catches up from the cache's last events.
#![tactic(auto)]

mod calling;
mod catching;
mod due;
mod hub;
mod lanes;
mod open_lane;
mod placed;
mod sleeper;
mod telling;

pub use catching::{CatchNo, Caught};
pub use hub::Hub;
