//! Laws of what a mirror keeps.

ghost use Rattle.mirror_log.specs.Laws.{TakenEventsFit, TakenMarksFit};

/// Nothing is wrong with an event that a mirror takes, unless it is too far behind the last.
pub fn taken_events_fit()
    ensures { TakenEventsFit }
{}

/// Nor with a bookmark.
pub fn taken_marks_fit()
    ensures { TakenMarksFit }
{}
