//! The ring: pushes, its capacity, and what it lends.

ghost use Rattle.std.specs.Prelude.{◌≡◌, ℕ, ◌+◌, ◌<◌, ◌≤◌, ◌==◌, max, [], ◌++◌, length, take, drop, map, IfOk, IfErr, OnOk, OnErr, All};
ghost use Rattle.circular_buffer.specs.Buffer.{buffer};
ghost use Rattle.event_ring.specs.Rings.{IsRing, IsNext, since, pushed, dropped, AreDropped, last_revision, with_events, fitted, fitted_capacity, room_for, is_aged, stamped, events_of};

use crate::search::place_above;
use crate::stamped::Stamped;
use crate::{Event, Span};
use circular_buffer::HeapCircularBuffer;
use kube_meta::Memory;
use std::alloc::Global;
use std::marker::Model;

// The events of a revision, but for one.
const SLACK: usize = 63;

/// The last events of one resource. A push drops exactly the revisions that at least `capacity` later
/// events follow, and what was dropped is up to the ring's floor: each position from the floor on is
/// served. Times are in milliseconds.
#[derive(Drop)]
pub struct Ring {
    window: usize,
    window_max: usize,
    fresh_ms: u64,
    capacity: usize,
    floor: u64,
    held: HeapCircularBuffer<Stamped>,
}

impl Model for Ring {
    ghost use Rattle.event_ring.specs.Rings.{RingData, IsRing};

    ghost Value = { RingData };

    ghost view = { λ r. record { window = r.window; window_max = r.window_max; fresh_ms = r.fresh_ms; capacity = r.capacity; floor = r.floor; held = r.held.items; room = r.held.capacity } };

    ghost invariant = { λ r. IsRing (record { window = r.window; window_max = r.window_max; fresh_ms = r.fresh_ms; capacity = r.capacity; floor = r.floor; held = r.held.items; room = r.held.capacity }) };
}

/// Why a position isn't served: it is below the ring's floor. Both are revisions.
#[derive(Clone, Copy, Debug, PartialEq, Eq)]
pub struct Below {
    pub asked: u64,
    pub floor: u64,
}

impl Ring {
    ghost use Rattle.event_ring.specs.Rings.{RingData};

    /// A ring without events, of the capacity `window`, which may grow to `window_max`, with a floor.
    /// An event is fresh while its age is below `fresh_ms`. Memory is taken for `window` + 63 events.
    pub fn new(
        alloc: Global,
        window: usize,
        window_max: usize,
        fresh_ms: u64,
        floor: u64,
    ) -> Result<Ring, Memory>
        requires some { 1 ≤ window }
        requires order { window ≤ window_max }
        requires bounded { window_max ≤ 102400 }
        ensures { IfOk result (λ ring. ring ≡ record { window = window; window_max = window_max; fresh_ms = fresh_ms; capacity = window; floor = floor; held = []; room = room_for window }) }
    {
        let held = HeapCircularBuffer::with_capacity(alloc, window + SLACK)?;
        Ok(Ring {
            window,
            window_max,
            fresh_ms,
            capacity: window,
            floor,
            held,
        })
    }

    /// Fits the capacity to the age of the events, before a push at the time `now`. Where fewer events
    /// than the capacity are held, it stays. Else, where it is below `window_max` and the oldest event
    /// is fresh, it doubles, up to `window_max`. Else, where it is above `window` and the first of the
    /// last half a capacity of events is no longer fresh, it halves, down to `window`. No event is
    /// dropped. Memory is taken only where the block hasn't the room, and a ring for which there is
    /// none stays as it was.
    pub fn fit(&mut self, now: u64) -> Result<(), Memory>
        ensures ok { OnOk result (self.new ≡ fitted self.old now) }
        ensures err { OnErr result (self.new ≡ self.old) }
        ensures growing { OnErr result (self.old.room < (fitted self.old now).room) }
    {
        let capacity = self.fitting(now);
        make_room(&mut self.held, capacity + SLACK)?;
        self.capacity = capacity;
        Ok(())
    }

    /// Appends the events of a revision, stamped with the time `now`, and drops exactly the revisions
    /// that at least `capacity` later events follow. The floor becomes the revision of the last
    /// dropped event, if there is one. Answers how many events were dropped. Takes no memory.
    pub fn push_revision(&mut self, events: Vec<Event>, now: u64) -> u64
        requires { IsNext self.old events.items }
        ensures value { result ≡ length (dropped self.old.capacity (with_events self.old events.items now)) }
        ensures ring { self.new ≡ pushed self.old events.items now }
    {
        let passed = self.passed(&events);
        self.floor = self.floor_after(passed);
        self.held.truncate_front(self.held.len() - passed);
        append(&mut self.held, events, now);
        passed as u64
    }

    /// The floor: the revision up to which events were dropped, or that the ring began with.
    pub fn floor(&self) -> u64
        ensures value { result ≡ self.now.floor }
        ensures ring { IsRing self.now }
    {
        self.floor
    }

    /// The revision of the last event, or the floor where no event is held. What is pushed is above it.
    pub fn last(&self) -> u64
        ensures value { result ≡ last_revision self.now.floor self.now.held }
        ensures floor { self.now.floor ≤ result }
        ensures top { All (λ x. x.event.rev ≤ result) self.now.held }
    {
        self.floor_after(self.held.len())
    }

    /// By how many later events a revision is dropped at a push.
    pub fn capacity(&self) -> usize
        ensures value { result ≡ self.now.capacity }
        ensures ring { IsRing self.now }
    {
        self.capacity
    }

    /// How many events are held.
    pub fn len(&self) -> usize
        ensures value { result ≡ length self.now.held }
        ensures ring { IsRing self.now }
    {
        self.held.len()
    }

    /// Whether no event is held.
    pub fn is_empty(&self) -> bool
        ensures { result ≡ (length self.now.held == 0) }
    {
        self.held.is_empty()
    }

    /// Lends the events above the revision `at`, in order. A position below the floor is refused, since
    /// events above it were dropped.
    pub fn since(&self, at: u64) -> Result<Span<'_>, Below>
        ensures lent { IfOk result (λ span. span ≡ since self.now at) }
        ensures served { OnOk result (self.now.floor ≤ at) }
        ensures refused { IfErr result (λ below. below ≡ record { asked = at; floor = self.now.floor }) }
        ensures below { OnErr result (at < self.now.floor) }
    {
        if at < self.floor {
            return Err(Below {
                asked: at,
                floor: self.floor,
            });
        }
        Ok(Span::from(&self.held, place_above(&self.held, at)))
    }

    /// Drops all events and sets the floor. The capacity stays.
    pub fn clear(&mut self, floor: u64)
        ensures { self.new ≡ record self.old { floor = floor; held = [] } }
    {
        self.held.clear();
        self.floor = floor;
    }

    // How many events these push out: those of revisions before that of the first of the last
    // `capacity` events.
    fn passed(&self, events: &[Event]) -> usize
        requires { IsNext self.now events.now }
        ensures { AreDropped self.now events.now result }
    {
        let excess = (self.held.len() + events.len()).saturating_sub(self.capacity);
        match self.held.get(excess) {
            Some(first) => place_above(&self.held, first.event.rev - 1),
            None => self.held.len(),
        }
    }

    // The floor once the first events are dropped.
    fn floor_after(&self, passed: usize) -> u64
        requires { passed ≤ length self.now.held }
        ensures { result ≡ last_revision self.now.floor (take passed self.now.held) }
    {
        if passed == 0 {
            return self.floor;
        }
        match self.held.get(passed - 1) {
            Some(last) => last.event.rev,
            None => self.floor,
        }
    }

    // The capacity that fits.
    fn fitting(&self, now: u64) -> usize
        ensures { result ≡ fitted_capacity self.now now }
    {
        let held = self.held.len();
        if held < self.capacity {
            return self.capacity;
        }
        if self.capacity < self.window_max && !self.is_aged(now, 0) {
            return (2 * self.capacity).min(self.window_max);
        }
        if self.window < self.capacity && self.is_aged(now, held - self.capacity / 2) {
            return (self.capacity / 2).max(self.window);
        }
        self.capacity
    }

    // Whether the event at a place is no longer fresh.
    fn is_aged(&self, now: u64, place: usize) -> bool
        ensures { result ≡ is_aged self.now now place }
    {
        match self.held.get(place) {
            Some(stamped) => self.fresh_ms <= now.saturating_sub(stamped.stamp),
            None => false,
        }
    }
}

// Makes the block as large as this, if it isn't.
fn make_room(held: &mut HeapCircularBuffer<Stamped>, room: usize) -> Result<(), Memory>
    ensures ok { OnOk result (held.new ≡ buffer held.old.items (max held.old.capacity room)) }
    ensures err { OnErr result (held.new ≡ held.old) }
    ensures short { OnErr result (held.old.capacity < room) }
{
    if held.capacity() < room {
        held.resize(room)?;
    }
    Ok(())
}

// Appends events, stamped with a time, for which there is room.
fn append(held: &mut HeapCircularBuffer<Stamped>, events: Vec<Event>, now: u64)
    requires { length held.old.items + length events.items ≤ held.old.capacity }
    ensures { held.new ≡ buffer (held.old.items ++ map (stamped now) events.items) held.old.capacity }
{
    for event in events {
        let _ = held.push_back(Stamped { event, stamp: now });
    }
}
