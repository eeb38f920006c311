//! The lane of a watch, and what its watcher sees of it.

use kube_meta::Resource;
use up_api::LogFacts;
use watch_lane::LaneOut;

/// The lane of a watch in the cache of a resource, with the number by which that knows it. It can't be dropped: whoever
/// ends the watch closes it.
pub struct WatchLane<N: LogFacts> {
    pub resource: Resource,
    pub id: u64,
    pub out: LaneOut<N>,
}

/// What the watcher sees of a lane, without any lock.
pub trait LaneSign {
    /// Whether it shows that it is behind: nothing is sent then until the watcher has caught up. Another thread may set
    /// that at any time, so no contract speaks of it.
    fn is_behind(&self) -> bool;
}

impl<N: LogFacts> LaneSign for WatchLane<N> {
    fn is_behind(&self) -> bool {
        self.out.is_behind()
    }
}

/// Where caches have nothing of a watch, that is never behind.
impl LaneSign for () {
    fn is_behind(&self) -> bool {
        false
    }
}
