//! Where a watch starts.

use select_all::Meaning;

/// Where a watch starts (Kubernetes API concepts, "Semantics for watch", and KEP-3157).
#[derive(Clone, Copy, Debug, PartialEq, Eq)]
pub enum Start {
    /// With an event for each selected object of a state, and then the changes since.
    FromState(Meaning),
    /// With the changes since a state.
    FromHere(Meaning),
    /// With the changes since this revision.
    FromRevision(u64),
}
