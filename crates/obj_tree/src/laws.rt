//! Laws of puts and removals.

ghost use Rattle.obj_tree.specs.Laws.{PutsAreUpdates, PutsStayRising, RemovalsAreUpdates, RemovalsStayRising};

/// Rows with one more have it at its key, and what they had at every other.
pub fn puts_are_updates()
    ensures { PutsAreUpdates }
{}

/// Rows without a key have none there, and what they had at every other.
pub fn removals_are_updates()
    ensures { RemovalsAreUpdates }
{}

/// Keys that rise go on rising after a put.
pub fn puts_stay_rising()
    ensures { PutsStayRising }
{}

/// Keys that rise go on rising after a removal.
pub fn removals_stay_rising()
    ensures { RemovalsStayRising }
{}
