//! What a session asks of a client of the log, and what each answer says of the log: writes and transactions, lists
//! and gets at a revision, watches turn by turn, and operations.
//!
//! A client has a pass, which is what it knows of the log. Each answer stands between the pass before the call and the
//! one after it. A client that holds its log alone also says exactly what each call makes of the log.
#![tactic(auto)]

mod answers;
mod calling;
mod client;
mod items;
mod laws;
mod pages;
mod resources;

pub use answers::{Begun, Got, ListNo, Listed, Took};
pub use client::Client;
pub use items::{ItemRows, Items};
pub use laws::{
    lists_agree, loads_are_ends, loads_are_fresh, looks_load, onwards_join, starts_tell, turns_tell,
};
pub use pages::{page, page_before, too_large};
pub use resources::Resources;
pub use watch_lane::Line;
