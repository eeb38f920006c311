//! A client that holds its log alone, with a cache of each resource: a store, three caches that follow it, and one
//! pass. Reads are answered from the caches, which are first brought to what a load of the log's revision gave. It
//! takes no lock and has no lanes.
#![tactic(auto)]

mod client;
mod making;
mod sole;
mod telling;

pub use client::LocalClient;
