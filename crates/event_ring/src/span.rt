//! Events that are lent in order.

ghost use Rattle.std.specs.Prelude.{◌≡◌, ◌≤◌, ◌==◌, length, drop, slice_get, option_copied};
ghost use Rattle.event_ring.specs.Rings.{events_of};

use crate::Event;
use crate::stamped::Stamped;
use circular_buffer::HeapCircularBuffer;
use std::marker::Model;

/// The events of a ring above some revision, lent in order. Seen in contracts as their list.
#[derive(Drop)]
pub struct Span<'a> {
    held: &'a HeapCircularBuffer<Stamped>,
    from: usize,
}

impl<'a> Model for Span<'a> {
    ghost use Rattle.std.specs.Prelude.{◌≤◌, List, length, drop};
    ghost use Rattle.event_ring.specs.Events.{EventRows};
    ghost use Rattle.event_ring.specs.Rings.{events_of};

    ghost Value = { List EventRows };

    ghost view = { λ s. events_of (drop s.from s.held.now.items) };

    ghost invariant = { λ s. s.from ≤ length s.held.now.items };
}

impl<'a> Span<'a> {
    // The events from a place on.
    pub(crate) fn from(held: &'a HeapCircularBuffer<Stamped>, from: usize) -> Span<'a>
        requires { from ≤ length held.now.items }
        ensures { result ≡ events_of (drop from held.now.items) }
    {
        Span { held, from }
    }

    /// How many events there are.
    pub fn len(&self) -> usize
        ensures { result ≡ length self.now }
    {
        self.held.len() - self.from
    }

    /// Whether there is no event.
    pub fn is_empty(&self) -> bool
        ensures { result ≡ (length self.now == 0) }
    {
        self.len() == 0
    }

    /// The event at a place, counted from 0.
    pub fn get(&self, i: usize) -> Option<&Event>
        ensures { option_copied result ≡ slice_get self.now i }
    {
        if i >= self.held.len() - self.from {
            return None;
        }
        match self.held.get(self.from + i) {
            Some(stamped) => Some(&stamped.event),
            None => None,
        }
    }
}
