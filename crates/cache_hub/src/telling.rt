//! Changes that lanes are told lane by lane. Lanes that are told the same share the piece that they are told.

ghost use Rattle.std.specs.Prelude.{◌≡◌, ◌≤◌, Bool, true, Some, [], ◌∷◌, option_map};
ghost use Rattle.std.specs.List.Sorted.{IsStrictlyIncreasing};
ghost use Rattle.rev_front.specs.Passes.{end_from};
ghost use Rattle.up_api.specs.Sections.{log_of};
ghost use Rattle.cache_hub.specs.Due.{AreReady, AreSilent, IsPieceIn, IsReady};
ghost use Rattle.cache_hub.specs.OpenLanes.{OpenLaneData, SetsLane, AreAlike, AreTold, told_lane, open_at};

use crate::open_lane::OpenLane;
use event_ring::Event;
use indexmap::IndexMap;
use std::alloc::Global;
use std::sync::Arc;
use up_api::{LogFacts, Pass};
use watch_lane::Piece;

/// Tells lanes of one selection of events, in one walk over them.
pub(crate) fn tell_every<N: LogFacts>(
    lanes: &mut IndexMap<u64, OpenLane<N>>,
    alloc: Global,
    events: &[Event],
    end: u64,
    told: &mut Pass<N>,
    called: &mut Vec<u64>,
)
    requires within { end ≤ end_from told.old.first told.old.seen }
    requires alike { AreAlike lanes.old.entries }
    requires ready { AreReady (log_of N.base told.old) end events.now lanes.old.entries }
    ensures told { told.new ≡ told.old }
    ensures lanes { AreTold (log_of N.base told.old) end lanes.old.entries lanes.new.entries }
{
    let mut last = None;
    for place in 0..lanes.len() {
        if let Some(lane) = lanes.get_index_mut(place) {
            lane.tell_along(alloc, events, end, &mut last, told, called);
        }
    }
}

/// Tells the lanes under these numbers of events. They concern no other lane.
pub(crate) fn tell_each<N: LogFacts>(
    lanes: &mut IndexMap<u64, OpenLane<N>>,
    alloc: Global,
    ids: &[u64],
    events: &[Event],
    end: u64,
    told: &mut Pass<N>,
    called: &mut Vec<u64>,
)
    requires within { end ≤ end_from told.old.first told.old.seen }
    requires ready { AreReady (log_of N.base told.old) end events.now lanes.old.entries }
    requires rising { IsStrictlyIncreasing ids.now }
    requires others { AreSilent lanes.old.entries events.now ids.now }
    ensures told { told.new ≡ told.old }
    ensures lanes { AreTold (log_of N.base told.old) end lanes.old.entries lanes.new.entries }
{
    let mut last = None;
    for id in ids {
        tell_lane(lanes, alloc, *id, events, end, &mut last, told, called);
    }
}

// Tells the lane under a number, if it is open. `last` is the last piece that was made of the events.
fn tell_lane<N: LogFacts>(
    lanes: &mut IndexMap<u64, OpenLane<N>>,
    alloc: Global,
    id: u64,
    events: &[Event],
    end: u64,
    last: &mut Option<Arc<Piece>>,
    told: &mut Pass<N>,
    called: &mut Vec<u64>,
)
    requires within { end ≤ end_from told.old.first told.old.seen }
    requires ready { (o : OpenLaneData) → open_at lanes.old.entries id ≡ Some o → IsReady (log_of N.base told.old) end events.now o }
    requires last { IsPieceIn (log_of N.base told.old) end (option_map (λ p. p.value) last.old) }
    ensures told { told.new ≡ told.old }
    ensures last { IsPieceIn (log_of N.base told.old) end (option_map (λ p. p.value) last.new) }
    ensures lane { (falls : Bool) × SetsLane lanes.old.entries lanes.new.entries id (option_map (told_lane (log_of N.base told.old) end falls) (open_at lanes.old.entries id)) }
{
    if let Some(lane) = lanes.get_mut(&id) {
        lane.tell(alloc, events, end, last, told, called);
    }
}
