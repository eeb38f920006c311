//! That requests are read in one way.

ghost use Rattle.http_read.specs.Laws as laws;

/// Requests are read in one way: bytes begin with one request at most, which is then neither refused nor cut short,
/// bytes that follow change neither a request nor a refusal, and so the requests in some bytes are determined.
pub fn requests_are_read_in_one_way()
    ensures one { laws.ReadsInOneWay }
    ensures not_refused { laws.WholeIsNotRefused }
    ensures not_cut_short { laws.WholeIsNotCutShort }
    ensures not_unfinished { laws.WholeIsNotUnfinished }
    ensures whole_stays { laws.WholeStays }
    ensures refusal_stays { laws.RefusalStays }
    ensures determined { laws.RequestsAreDetermined }
{}

/// Requests that are read from the same bytes are one list a beginning of the other, and bytes that follow don't change
/// them.
pub fn requests_agree()
    ensures agree { laws.RequestsAgree }
    ensures stay { laws.RequestsStay }
{}

/// In no bytes nothing stands. What is refused isn't unfinished, and how bytes end behind their whole requests is
/// determined, but for a target whose end hasn't come and for more than 64 fields: those may be told as a refusal or
/// as cut short.
pub fn endings_are_determined()
    ensures nothing { laws.NothingStands }
    ensures refused { laws.RefusedIsNotUnfinished }
    ensures determined { laws.EndingsAreDetermined }
{}
