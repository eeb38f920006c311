//! Why the options of a watch are refused.

/// Why the options of a watch are refused; the first of these that holds.
#[derive(Clone, Copy, Debug, PartialEq, Eq)]
pub enum WatchNo {
    /// `resourceVersion` is set and is no revision.
    BadRevision,
    /// `resourceVersionMatch` is set, and `sendInitialEvents` isn't.
    MatchWithoutInitial,
    /// `sendInitialEvents` is set, and `resourceVersionMatch` isn't `NotOlderThan`.
    InitialNeedsNotOlder,
    /// `timeoutSeconds` is set and is no number of at most 1,000,000.
    BadTimeout,
}
