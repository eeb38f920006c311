//! Where a watch starts.

/// Where a watch starts.
#[derive(Clone, Copy, Debug, PartialEq, Eq)]
pub enum Start {
    /// From a state, by an event for each object in it, and a bookmark at its end.
    State,
    /// From a revision.
    Revision(u64),
}
