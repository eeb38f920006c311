//! What keeps a cache up to date with upstream: it follows a feed, begins it anew where it was cut, and builds the
//! cache anew where the feed can't go on.
//!
//! In the terms of the Kubernetes API client this is the reflector of a watch cache: a list, and then a watch from its
//! revision, with a new list after a 410 Gone.
#![tactic(auto)]

mod following;
mod pump;
mod reflector;

pub use pump::Pumped;
pub use reflector::Reflector;
