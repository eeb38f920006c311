//! Laws of pushes.

ghost use Rattle.event_ring.specs.Laws.{PushesAreBounded, PushesLoseNothing, PushesDropWholeRevisions, PushesKeepRings};

/// After a push a ring holds at most 63 events more than its capacity.
pub fn pushes_are_bounded()
    ensures { PushesAreBounded }
{}

/// Above the floor after a push there are exactly the events that there were before and the new ones.
pub fn pushes_lose_nothing()
    ensures { PushesLoseNothing }
{}

/// A push drops the first events, and of each revision all events or none.
pub fn pushes_drop_whole_revisions()
    ensures { PushesDropWholeRevisions }
{}

/// A ring stays one by a push.
pub fn pushes_keep_rings()
    ensures { PushesKeepRings }
{}
