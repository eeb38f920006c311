//! What the lanes that have a place are told: those that changes may concern, and no other one is visited.

ghost use Rattle.std.specs.Prelude.{◌≡◌, ◌≤◌, ℕ, Bool, true, [], ◌∷◌, ◌++◌, List, None, Some, option_map, IfOk, IfSome, IsTrue, OnOk};
ghost use Rattle.std.specs.List.Sorted.{IsStrictlyIncreasing};
ghost use Rattle.rev_front.specs.Passes.{end_from};
ghost use Rattle.up_api.specs.Sections.{log_of};
ghost use Rattle.watch_lane.specs.Index.{is_listed};
ghost use Rattle.cache_hub.specs.Due.{AddsEach, AddsTo, AllDue, AreReady, AreSilent, AreUntold, AreWaiting, IsWaiting, due_at, missed, touches};
ghost use Rattle.cache_hub.specs.OpenLanes.{OpenLaneData, SetsLane, AreChanged, AreTold, IsIndexed, told_lane, open_at};

use crate::due::{Waiting, put_line};
use crate::open_lane::{OpenLane, object};
use crate::telling::tell_each;
use event_ring::Event;
use indexmap::IndexMap;
use kube_meta::Memory;
use std::alloc::Global;
use std::collections::BTreeMap;
use up_api::{LogFacts, Pass};
use watch_lane::{LaneIndex, Line};

/// Tells the lanes of events: where these may concern different lanes, first what each has to be told of all of them is
/// gathered. Without memory for that those that they concern are behind.
pub(crate) fn tell_placed<N: LogFacts>(
    lanes: &mut IndexMap<u64, OpenLane<N>>,
    index: &LaneIndex,
    alloc: Global,
    events: &[Event],
    end: u64,
    told: &mut Pass<N>,
    called: &mut Vec<u64>,
)
    requires within { end ≤ end_from told.old.first told.old.seen }
    requires indexed { IsIndexed index.now lanes.old.entries }
    requires ready { AreReady (log_of N.base told.old) end events.now lanes.old.entries }
    ensures told { told.new ≡ told.old }
    ensures lanes { AreTold (log_of N.base told.old) end lanes.old.entries lanes.new.entries }
{
    if let Some(ids) = touched_alike(index, events) {
        return tell_each(lanes, alloc, &ids, events, end, told, called);
    }
    match waiting(lanes, index, alloc, events) {
        Ok(waiting) => send_all(lanes, alloc, waiting, end, told, called),
        Err(Memory) => miss_all(lanes, events, called),
    }
}

// The lanes that the events may concern, where none concerns others than the first may. Each of the others costs a few
// looks, and not the lanes.
fn touched_alike(index: &LaneIndex, events: &[Event]) -> Option<Vec<u64>>
    ensures rising { IfSome result (λ ids. IsStrictlyIncreasing ids.items) }
    ensures others { IfSome result (λ ids. (lanes : List (ℕ × OpenLaneData)) → IsIndexed index.now lanes → AreSilent lanes events.now ids.items) }
{
    let Some((first, rest)) = events.split_first() else {
        return None;
    };
    let Ok(ids) = touched(index, first) else {
        return None;
    };
    for event in rest {
        if !goes_with(index, first, event) {
            return None;
        }
    }
    Some(ids)
}

// Whether each lane that an event may concern is surely one that another may.
fn goes_with(index: &LaneIndex, first: &Event, event: &Event) -> bool
    ensures { IsTrue result → (id : ℕ) → touches index.now event.entry.now id ≡ true → touches index.now first.entry.now id ≡ true }
{
    match object(&first.now).or(object(&first.before)) {
        Some(by) => {
            index.covers(by, object(&event.before)) && index.covers(by, object(&event.now))
        }
        None => false,
    }
}

// The lanes that an event may concern.
fn touched(index: &LaneIndex, event: &Event) -> Result<Vec<u64>, Memory>
    ensures rising { IfOk result (λ ids. IsStrictlyIncreasing ids.items) }
    ensures exact { IfOk result (λ ids. (id : ℕ) → is_listed ids.items id ≡ touches index.now event.entry.now id) }
    ensures others { IfOk result (λ ids. (lanes : List (ℕ × OpenLaneData)) → IsIndexed index.now lanes → AreUntold lanes event.entry.now ids.items) }
{
    index.touched(object(&event.before), object(&event.now))
}

// What each lane has to be told of the events.
fn waiting<N: LogFacts>(
    lanes: &IndexMap<u64, OpenLane<N>>,
    index: &LaneIndex,
    alloc: Global,
    events: &[Event],
) -> Result<Waiting, Memory>
    requires { IsIndexed index.now lanes.now.entries }
    ensures { IfOk result (λ waiting. AllDue lanes.now.entries events.now waiting.entries) }
{
    let mut waiting = BTreeMap::new(alloc);
    for event in events {
        note(lanes, index, alloc, event, &mut waiting)?;
    }
    Ok(waiting)
}

// Puts what each lane has to be told of an event behind what waits for it.
fn note<N: LogFacts>(
    lanes: &IndexMap<u64, OpenLane<N>>,
    index: &LaneIndex,
    alloc: Global,
    event: &Event,
    waiting: &mut Waiting,
) -> Result<(), Memory>
    requires { IsIndexed index.now lanes.now.entries }
    ensures { OnOk result (AddsEach lanes.now.entries event.entry.now waiting.old.entries waiting.new.entries) }
{
    let ids = touched(index, event)?;
    for id in &ids {
        note_for(lanes, alloc, *id, event, waiting)?;
    }
    Ok(())
}

// The same for one lane.
fn note_for<N: LogFacts>(
    lanes: &IndexMap<u64, OpenLane<N>>,
    alloc: Global,
    id: u64,
    event: &Event,
    waiting: &mut Waiting,
) -> Result<(), Memory>
    ensures { OnOk result (AddsTo id (due_at lanes.now.entries id event.entry.now) waiting.old.entries waiting.new.entries) }
{
    let Some(lane) = lanes.get(&id) else {
        return Ok(());
    };
    match lane.due(event)? {
        Some(line) => put_line(alloc, waiting, id, line),
        None => Ok(()),
    }
}

// Sends each lane what waits for it.
fn send_all<N: LogFacts>(
    lanes: &mut IndexMap<u64, OpenLane<N>>,
    alloc: Global,
    waiting: Waiting,
    end: u64,
    told: &mut Pass<N>,
    called: &mut Vec<u64>,
)
    requires within { end ≤ end_from told.old.first told.old.seen }
    requires waiting { AreWaiting (log_of N.base told.old) end waiting.entries lanes.old.entries }
    ensures told { told.new ≡ told.old }
    ensures lanes { AreTold (log_of N.base told.old) end lanes.old.entries lanes.new.entries }
{
    let mut waiting = waiting;
    let _number = waiting.len();
    while let Some((id, lines)) = waiting.pop_first() {
        send_to(lanes, alloc, id, lines.lines, end, told, called);
    }
}

// Sends a lane what waits for it.
fn send_to<N: LogFacts>(
    lanes: &mut IndexMap<u64, OpenLane<N>>,
    alloc: Global,
    id: u64,
    lines: Vec<Line>,
    end: u64,
    told: &mut Pass<N>,
    called: &mut Vec<u64>,
)
    requires within { end ≤ end_from told.old.first told.old.seen }
    requires waiting { IsWaiting (log_of N.base told.old) end lines.items (open_at lanes.old.entries id) }
    ensures told { told.new ≡ told.old }
    ensures lane { (falls : Bool) × SetsLane lanes.old.entries lanes.new.entries id (option_map (told_lane (log_of N.base told.old) end falls) (open_at lanes.old.entries id)) }
{
    if let Some(lane) = lanes.get_mut(&id) {
        let _piece = lane.take(alloc, lines, end, told, called);
    }
}

// Leaves those behind that the events concern.
fn miss_all<N: LogFacts>(
    lanes: &mut IndexMap<u64, OpenLane<N>>,
    events: &[Event],
    called: &mut Vec<u64>,
)
    ensures { AreChanged (missed events.now) lanes.old.entries lanes.new.entries }
{
    lanes.retain(
        |_, lane|
            ensures stays { result ≡ true }
            ensures lane { lane.new ≡ missed events.entry.now lane.old }
            ensures events { events.exit.now ≡ events.entry.now }
        {
            lane.miss(events, called);
            true
        },
    );
}
