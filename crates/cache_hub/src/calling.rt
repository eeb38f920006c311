//! Whose watchers are called, and by which bells.

ghost use Rattle.std.specs.Prelude.{◌≡◌};

use crate::open_lane::OpenLane;
use bells::{Bell, Calls};
use indexmap::IndexMap;
use std::sync::Arc;
use up_api::LogFacts;

/// Calls the watcher of a lane, if it is there, by this bell.
pub(crate) fn hang<N: LogFacts>(
    lanes: &mut IndexMap<u64, OpenLane<N>>,
    id: u64,
    bell: Option<Arc<Bell>>,
)
    ensures { lanes.new.entries ≡ lanes.old.entries }
{
    if let Some(lane) = lanes.get_mut(&id) {
        lane.ring_by(id, bell);
    }
}

/// Hands the bells of the watchers that are called to who rings.
pub(crate) fn hand_over_all<N: LogFacts>(
    placed: &mut IndexMap<u64, OpenLane<N>>,
    alike: &mut IndexMap<u64, OpenLane<N>>,
    called: &mut Vec<u64>,
    calls: &mut Calls,
)
    ensures placed { placed.new.entries ≡ placed.old.entries }
    ensures alike { alike.new.entries ≡ alike.old.entries }
{
    for id in &*called {
        hand_over(placed, *id, calls);
        hand_over(alike, *id, calls);
    }
    called.clear();
}

// Hands the bell of a lane's watcher, if it is there, to who rings.
fn hand_over<N: LogFacts>(lanes: &mut IndexMap<u64, OpenLane<N>>, id: u64, calls: &mut Calls)
    ensures { lanes.new.entries ≡ lanes.old.entries }
{
    if let Some(lane) = lanes.get_mut(&id) {
        lane.hand_over(calls);
    }
}

/// Strikes a lane that was closed from those that are called, so that these are never more than the lanes.
pub(crate) fn strike<N: LogFacts>(called: &mut Vec<u64>, id: u64, closed: Option<OpenLane<N>>) {
    let is_called = match &closed {
        Some(lane) => lane.is_called(),
        None => false,
    };
    if is_called {
        called.retain(|other| *other != id);
    }
}
