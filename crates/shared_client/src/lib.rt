//! Many clients of one log, in any number of threads, with a cache of each resource behind a lock of its own.
//!
//! A [`Cacher`] has the caches, and gives out clients. Under a cache's lock a client only brings the cache up to date
//! and takes a snapshot, or catches up; it selects, pages and writes outside of it, and reads there from the store
//! what is older than the cache goes back. A turn of a watch asks its lane first, and takes no lock where that gives
//! something, or where the log stands at the watch's position; while the caches are being fed it waits at its bell for
//! what comes to its lane. A thread locks a cache and, inside, the store; never the other way round, and never two
//! caches.
//!
//! A watcher that rests is rung by the bell of its client. Whoever feeds the caches ([`Cacher::feed`]) gets the bells
//! of the lanes that were told or fell behind, whichever thread did that, and rings them once it holds no lock.
#![tactic(auto)]

mod cacher;
mod client;
mod crossing;
mod lanes;
mod shared;

pub use cacher::Cacher;
pub use client::SharedClient;
