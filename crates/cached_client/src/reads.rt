//! Where reads find what they ask for.

use obj_tree::Snapshot;

/// Where the objects at a revision are found.
#[derive(Drop)]
pub enum Found {
    /// In the cache: the revision, and the objects there.
    State(u64, Snapshot),
    /// Upstream alone: at this revision, to which the cache doesn't go back.
    Older(u64),
}
