//! Rings of events.

use crate::rows::{NO_STEP, Steps, Wording, key, number, split};
use event_ring::{Event, Ring};
use kube_meta::Memory;
use std::alloc::Global;

/// The most that a ring holds.
const MOST: u64 = 102_400;

/// A ring.
#[derive(Drop)]
pub struct Rings {
    ring: Ring,
}

impl Rings {
    /// A ring of one event, until a step makes another one.
    pub fn new(alloc: Global) -> Result<Rings, Memory> {
        let ring = Ring::new(alloc, 1, 1, 1, 1)?;
        Ok(Rings { ring })
    }
}

impl Steps for Rings {
    fn answer(&mut self, alloc: Global, step: &str, told: &mut Wording) -> Result<(), Memory> {
        let (verb, rest) = split(step);
        match verb {
            "ring" => open(alloc, &mut self.ring, rest)?,
            "push" => return push(alloc, &mut self.ring, rest, told),
            "since" => {
                since(&self.ring, number(rest), told);
                return Ok(());
            }
            _ => {}
        }
        tell_state(&self.ring, told);
        Ok(())
    }
}

// Opens a ring at the floor 1: how many events it has room for, at most how many, and how long one is fresh.
fn open(alloc: Global, ring: &mut Ring, text: &str) -> Result<(), Memory> {
    let (window, rest) = split(text);
    let (most, fresh) = split(rest);
    let window = number(window).clamp(1, MOST) as usize;
    let most = (number(most).min(MOST) as usize).max(window);
    *ring = Ring::new(alloc, window, most, number(fresh), 1)?;
    Ok(())
}

fn tell_state(ring: &Ring, told: &mut Wording) {
    let (floor, last) = (ring.floor(), ring.last());
    let (len, capacity) = (ring.len(), ring.capacity());
    told.show(&format_args!("floor {floor}, last {last}, {len} of {capacity}"));
}

// Fits the ring to a time, and pushes the event of one change.
fn push(alloc: Global, ring: &mut Ring, text: &str, told: &mut Wording) -> Result<(), Memory> {
    let (rev, now) = split(text);
    let now = number(now);
    ring.fit(now)?;
    match push_one(alloc, ring, number(rev), now)? {
        Some(count) => told.show(&format_args!("{count} dropped")),
        None => told.add("not above the last"),
    }
    Ok(())
}

// Pushes the event of one change at a revision, if that is above those before; else nothing.
fn push_one(alloc: Global, ring: &mut Ring, rev: u64, now: u64) -> Result<Option<u64>, Memory> {
    if rev <= ring.last() {
        return Ok(None);
    }
    let mut events = Vec::new(alloc);
    events.push(Event::new(alloc, rev, key(alloc, "web")?, None, None)?)?;
    Ok(Some(ring.push_revision(events, now)))
}

// Tells the revisions of the events above one.
fn since(ring: &Ring, at: u64, told: &mut Wording) {
    match ring.since(at) {
        Ok(span) => {
            told.add("events");
            for place in 0..span.len() {
                if let Some(event) = span.get(place) {
                    told.show(&format_args!(" {}", event.rev));
                }
            }
        }
        Err(below) => told.debug(&below),
    }
}
