//! The metrics of a log and its caches.

use crate::served::Served;

/// What a server tells a monitor. A client without caches tells of none.
#[derive(Debug, Drop)]
pub struct Metrics {
    /// The revision that the log has reached.
    pub revision: u64,
    /// The log's compaction floor: from this revision on it is kept.
    pub floor: u64,
    /// How often feeds of the log were cut, and so its generation.
    pub generation: u64,
    pub pods: Option<CacheMetrics>,
    pub config_maps: Option<CacheMetrics>,
    pub deployments: Option<CacheMetrics>,
    /// What was served to all clients, where a server counts it.
    pub served: Option<Served>,
}

/// What the cache of one resource tells.
#[derive(Clone, Copy, Debug, PartialEq, Eq)]
pub struct CacheMetrics {
    /// The revision up to which it stands for the log.
    pub end: u64,
    /// How many objects it holds, those at its end.
    pub objects: u64,
    /// How many events it keeps at most now. It grows while fresh events would be dropped, and shrinks again.
    pub window: u64,
    /// The revision above which it keeps all events: watches begin from it on.
    pub floor: u64,
    /// How many events it has taken in since it was made.
    pub received: u64,
    /// How many watches are open.
    pub watchers: u64,
    /// How many of them are behind: they catch up from events that the cache keeps.
    pub behind: u64,
    /// How often it was built anew from the log.
    pub rebuilds: u64,
    /// How often its feed was found cut.
    pub cuts: u64,
}
