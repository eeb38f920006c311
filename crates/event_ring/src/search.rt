//! Places in a ring, by binary search.

ghost use Rattle.std.specs.Prelude.{◌≡◌, ◌<◌, length, nat_lt};
ghost use Rattle.std.specs.List.{slice_index_or};
ghost use Rattle.event_ring.specs.declared.stamped.Stamped.{Stamped as StampedData};
ghost use Rattle.event_ring.specs.Rings.{IsPlaceAbove, NotFalling};

use crate::stamped::Stamped;
use circular_buffer::HeapCircularBuffer;

/// The place of the first event above the revision `at`, or their number where there is none, by
/// binary search.
pub(crate) fn place_above(held: &HeapCircularBuffer<Stamped>, at: u64) -> usize
    requires { NotFalling held.now.items }
    ensures { IsPlaceAbove held.now.items at result }
{
    let mut low = 0;
    let mut high = held.len();
    while low < high {
        let middle = low + (high - low) / 2;
        if is_above(held, middle, at) {
            high = middle;
        } else {
            low = middle + 1;
        }
    }
    low
}

// Whether the event at a place is above a revision.
fn is_above(held: &HeapCircularBuffer<Stamped>, place: usize, at: u64) -> bool
    requires { place < length held.now.items }
    ensures { (d : StampedData) → result ≡ nat_lt at (slice_index_or held.now.items place d).event.rev }
{
    match held.get(place) {
        Some(stamped) => stamped.event.rev > at,
        None => false,
    }
}
