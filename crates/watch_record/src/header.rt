//! What the first line of a record says.

use kube_meta::{Resource, Text};

/// What the first line of a record says.
#[derive(Debug, Drop)]
pub struct Header {
    /// The revision below the log's first one.
    pub first: u64,
    /// The greatest revision up to which the log was compacted, or `first`.
    pub floor: u64,
    /// How many of a resource's changes its watch cache keeps at least.
    pub window: u64,
    /// The namespace that was watched, and no text where all were.
    pub namespace: Text,
    /// The query of the request, encoded as it was sent.
    pub query: Text,
    /// The resource that was watched.
    pub resource: Resource,
}
