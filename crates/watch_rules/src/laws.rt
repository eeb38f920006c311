//! Laws of what a watch is told.

ghost use Rattle.watch_rules.specs.Laws.{BodiesTellTheStream, PositionsRise, BodiesStay, BodiesBegin, BodiesGoOn, BodiesEnd, BookmarksTellAll, ClosingsTellTheStart, TellingsBegin, TellingsGoOn, TellingsStay, BeginningsStay};

/// The transitions that a body's lines carry are its initial events and then exactly those from its
/// start to its position.
pub fn bodies_tell_the_stream()
    ensures { BodiesTellTheStream }
{}

/// A body's position is never below its start, nor above both its start and the log's end.
pub fn positions_rise()
    ensures { PositionsRise }
{}

/// A body stays one, of the same lines, as the log grows.
pub fn bodies_stay()
    ensures { BodiesStay }
{}

/// A body that hasn't ended by a loss goes on by any lawful piece, whose lines follow its own.
pub fn bodies_go_on()
    ensures { BodiesGoOn }
{}

/// An opening is a body that has reached its start.
pub fn bodies_begin()
    ensures { BodiesBegin }
{}

/// A body ends by a loss that the log bears out, whose line is the last.
pub fn bodies_end()
    ensures { BodiesEnd }
{}

/// Before a bookmark stand exactly the initial events and the transitions up to its revision, which
/// the log has reached; and bookmarks were asked for.
pub fn bookmarks_tell_all()
    ensures { BookmarksTellAll }
{}

/// A bookmark that ends the initial events stands at the start, behind exactly these.
pub fn closings_tell_the_start()
    ensures { ClosingsTellTheStart }
{}

/// The lines of an opening tell a body.
pub fn tellings_begin()
    ensures { TellingsBegin }
{}

/// Lines that tell a body without a loss go on by a stretch of the log, a bookmark or a loss.
pub fn tellings_go_on()
    ensures { TellingsGoOn }
{}

/// Lines that tell a body tell it as the log grows.
pub fn tellings_stay()
    ensures { TellingsStay }
{}

/// Lines that begin a body begin one as the log grows.
pub fn beginnings_stay()
    ensures { BeginningsStay }
{}
