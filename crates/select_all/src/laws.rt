//! Laws of selections.

ghost use Rattle.select_all.specs.EventLaws.{EventsAreCounted, EventsAbove, EventsUndo, EventsAreInOrder};
ghost use Rattle.select_all.specs.FloorLaws.{FloorsAreGreatest, FloorsAreBetween, CountsStay, FloorsStay, FloorsBegin, FloorsGoOn, FloorsWait, FloorsEvict, EvictionsStay};
ghost use Rattle.select_all.specs.ListingLaws.{ListingsAreUnique, ListingsStay, ListingsByKey, SelectionsDecide, WantedIsNeeded};
ghost use Rattle.select_all.specs.StreamLaws.{TransitionsJoin, TransitionsStay, TransitionsNone, TransitionsAreInOrder, TransitionsAreSelected, ListingsFollow};

// ---- events

/// There is an event for each change.
pub fn events_are_counted()
    ensures { EventsAreCounted }
{}

/// Of the events above one revision, those above a later one are the events from that one on.
pub fn events_above()
    ensures { EventsAbove }
{}

/// What stood at a revision is what the first later event of each key says stood before it, and
/// elsewhere what stands later.
pub fn events_undo()
    ensures { EventsUndo }
{}

/// Events stand in the order of their revisions and then of their keys, with rows of their keys.
pub fn events_are_in_order()
    ensures { EventsAreInOrder }
{}

// ---- streams

/// What a watch is told up to a revision and what it is told from there on is all that it is told.
pub fn transitions_join()
    ensures { TransitionsJoin }
{}

/// What a watch is told up to a revision of the log stays the same as the log grows.
pub fn transitions_stay()
    ensures { TransitionsStay }
{}

/// Up to a revision that isn't above the one where it starts, a watch is told nothing.
pub fn transitions_none()
    ensures { TransitionsNone }
{}

/// A watch is told transitions in the order of their revisions and then of their keys.
pub fn transitions_are_in_order()
    ensures { TransitionsAreInOrder }
{}

/// Each object that a watch is told is one that is selected: of a deletion, the object as it was.
pub fn transitions_are_selected()
    ensures { TransitionsAreSelected }
{}

/// Who has the listing at a revision and applies the transitions from there on has the later listing.
pub fn listings_follow()
    ensures { ListingsFollow }
{}

// ---- listings and selections

/// A selection has one listing at a revision.
pub fn listings_are_unique()
    ensures { ListingsAreUnique }
{}

/// A listing at a revision of the log stays one as the log grows.
pub fn listings_stay()
    ensures { ListingsStay }
{}

/// A listing has, in the order of keys, at each key the row that stands there, if that is selected; and
/// what has that is a listing.
pub fn listings_by_key()
    ensures { ListingsByKey }
{}

/// The computed test of a selection decides which objects are selected.
pub fn selections_decide()
    ensures { SelectionsDecide }
{}

/// Each selected object has, in each field of which a selection wants a value, this value.
pub fn wanted_is_needed()
    ensures { WantedIsNeeded }
{}

// ---- floors

/// The search for the floor of a window of changes finds it: the greatest revision that the window is
/// past.
pub fn floors_are_greatest()
    ensures { FloorsAreGreatest }
{}

/// The floors of a window whose size changes lie between those of its greatest and of its least size.
pub fn floors_are_between()
    ensures { FloorsAreBetween }
{}

/// The number of changes up to a revision of the log stays the same as the log grows.
pub fn counts_stay()
    ensures { CountsStay }
{}

/// The floors of a window that ends within the log stay the same as the log grows.
pub fn floors_stay()
    ensures { FloorsStay }
{}

/// A window begins with its base for a floor.
pub fn floors_begin()
    ensures { FloorsBegin }
{}

/// A window goes on from one floor to the next by what it drops at any size within its bounds.
pub fn floors_go_on()
    ensures { FloorsGoOn }
{}

/// A window's floor stays one over revisions without a change of the resource.
pub fn floors_wait()
    ensures { FloorsWait }
{}

/// A position below a window's floor is evicted.
pub fn floors_evict()
    ensures { FloorsEvict }
{}

/// A position that is evicted stays so as the log grows.
pub fn evictions_stay()
    ensures { EvictionsStay }
{}
