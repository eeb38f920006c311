//! How a watcher that fell behind, or that starts, catches up from the cache's last events.

ghost use Rattle.std.specs.Prelude.{◌≡◌, ◌≤◌, filter_map, IfOk, OnOk};
ghost use Rattle.cache_hub.specs.Due.{transition_of};
ghost use Rattle.cache_hub.specs.Catching.{AreFirst, AreInOrder, ends_before, taken};

use crate::open_lane::{concerns, line_of};
use event_ring::{Below, Event, Span};
use kube_meta::Memory;
use select_all::Selection;
use std::alloc::Global;
use std::marker::Model;
use watch_lane::Line;

/// What a watcher is told that catches up: all lines up to the revision `upto`.
#[derive(Debug, Drop)]
pub struct Caught {
    pub upto: u64,
    pub lines: Vec<Line>,
}

impl Model for Caught {
    ghost use Rattle.cache_hub.specs.Catching.{CaughtData};

    ghost Value = { CaughtData };

    ghost view = { λ c. record { upto = c.upto; lines = c.lines.items } };
}

/// Why a watcher can't catch up.
#[derive(Clone, Copy, Debug, PartialEq, Eq)]
pub enum CatchNo {
    /// Its position is below the floor of the cache's ring: events above it were dropped. Both are revisions.
    Lost { at: u64, floor: u64 },
    /// There was no memory.
    Memory,
}

impl From<Memory> for CatchNo {
    ghost use Rattle.std.specs.Prelude.{◌≡◌};
    ghost use Rattle.cache_hub.specs.declared.catching.CatchNo.TheVariants as refusals;

    ghost from_gives = { λ _ refusal. refusal ≡ refusals.Memory };

    fn from(_: Memory) -> CatchNo {
        CatchNo::Memory
    }
}

impl From<Below> for CatchNo {
    ghost use Rattle.std.specs.Prelude.{◌≡◌};
    ghost use Rattle.cache_hub.specs.declared.catching.CatchNo.TheVariants as refusals;

    ghost from_gives = { λ below refusal. refusal ≡ refusals.Lost below.asked below.floor };

    fn from(below: Below) -> CatchNo {
        CatchNo::Lost {
            at: below.asked,
            floor: below.floor,
        }
    }
}

/// The lines of the fewest whole revisions that hold at least `many` lines, or all that are left. Where no more are
/// left, they are all up to `all`.
pub(crate) fn first_lines(
    alloc: Global,
    selection: &Selection,
    events: &Span<'_>,
    at: u64,
    all: u64,
    many: usize,
) -> Result<Caught, Memory>
    requires { 1 ≤ many }
    ensures { IfOk result (λ caught. AreInOrder at all events.now → AreFirst many all (filter_map (transition_of selection.now) events.now) caught) }
{
    let mut caught = Caught {
        upto: at,
        lines: Vec::new(alloc),
    };
    for i in 0..events.len() {
        let Some(event) = events.get(i) else {
            break;
        };
        if caught.ends_before(selection, many, event) {
            return Ok(caught);
        }
        caught.take(selection, event)?;
    }
    caught.upto = all;
    Ok(caught)
}

impl Caught {
    // Whether the lines are enough, and the event is one for the watcher and of a later revision.
    fn ends_before(&self, selection: &Selection, many: usize, event: &Event) -> bool
        ensures { result ≡ ends_before selection.now many self.now event.entry.now }
    {
        many <= self.lines.len() && self.upto < event.rev && concerns(selection, event)
    }

    // Takes in the line of an event, if it concerns the watcher.
    fn take(&mut self, selection: &Selection, event: &Event) -> Result<(), Memory>
        ensures { OnOk result (self.new ≡ taken self.old event.entry.now.rev (transition_of selection.now event.entry.now)) }
    {
        if let Some(line) = line_of(selection, event)? {
            self.upto = event.rev;
            self.lines.push(line)?;
        }
        Ok(())
    }
}
