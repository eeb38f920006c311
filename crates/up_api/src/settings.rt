//! How a server is set.

ghost use Rattle.std.specs.Prelude.{◌≡◌};
ghost use Rattle.up_api.specs.Settings.{usual, AreInRange};

/// How a server is set. Each field has a range, beside it, that callers keep; `window` is at most `window_max`.
#[derive(Clone, Copy, Debug, PartialEq, Eq)]
pub struct Settings {
    /// Changes of one resource that a cache keeps at least: 1 to 102,400.
    pub window: usize,
    /// Changes of one resource that a cache grows to while they are fresh: 1 to 102,400.
    pub window_max: usize,
    /// Milliseconds for which a kept change is fresh: 1 to 86,400,000.
    pub fresh_ms: u64,
    /// Batches that wait for one watcher: 1 to 1,024.
    pub lane: usize,
    /// Events that are taken, and changes that are polled, at once: 1 to 10,000.
    pub batch: usize,
    /// Revisions whose states are kept: 1 to 1,000,000.
    pub history: u64,
    /// Milliseconds between the bookmarks of a watch (KEP-956): 1 to 86,400,000.
    pub bookmark_ms: u64,
    /// Seconds that a watch lasts where its request doesn't say: 1 to 1,000,000.
    pub timeout_s: u64,
    /// Requests that one session answers: 1 to 1,000,000.
    pub requests: u64,
}

impl Settings {
    /// The settings of a server that wasn't told otherwise.
    pub fn usual() -> Settings
        ensures is { result ≡ usual }
        ensures range { AreInRange result }
    {
        Settings {
            window: 100,
            window_max: 100,
            fresh_ms: 75_000,
            lane: 16,
            batch: 100,
            history: 10_000,
            bookmark_ms: 60_000,
            timeout_s: 1_800,
            requests: 1_000_000,
        }
    }
}
