//! The current objects of one resource in the order of their keys, in shared pages of shared nodes: a snapshot
//! shares all of them, and a change copies only the page that it changes and its node, and these only where they
//! are shared.
#![tactic(auto)]

mod column;
mod edges;
mod filled;
mod laws;
mod mark;
mod node;
mod nodes;
mod page;
mod pages;
mod part;
mod rows;
mod search;
mod shared;
mod snapshot;
mod tree;

pub use laws::{puts_are_updates, puts_stay_rising, removals_are_updates, removals_stay_rising};
pub use rows::Rows;
pub use snapshot::Snapshot;
pub use tree::Tree;
