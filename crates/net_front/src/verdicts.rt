//! What a mirror does about its peer.

ghost use Rattle.std.specs.Prelude.{◌≡◌};
ghost use Rattle.mirror_link.specs.declared.link_refusal.LinkNo.TheVariants as no;
ghost use Rattle.net_front.specs.Verdicts.{line_next, opening_next, standing_next, next_by, next_after};

use crate::end::AtEnd;
use crate::standing::Standing;
use mirror_link::LinkNo;

/// What a mirror does next about its peer.
#[derive(Clone, Copy, Debug)]
pub enum Next {
    /// It asks again.
    Again,
    /// It begins anew, from all that the peer has.
    Anew,
    /// It follows the peer no more.
    End,
}

/// Why a peer is followed no more. Only the decisions of this module make one.
#[derive(Clone, Copy, Debug)]
pub struct Lost {
    why: &'static str,
}

impl Lost {
    /// The cause's name.
    pub fn why(self) -> &'static str {
        self.why
    }
}

/// Why no further line is heard.
#[derive(Clone, Copy, Debug)]
pub enum Stop {
    /// The sessions have ended.
    Ended(AtEnd),
    /// The stream is over, for this cause, and is asked for again.
    Over(&'static str),
    /// The peer can't tell what comes next, for this cause.
    Missed(&'static str),
    /// What the peer would send can't be heard.
    Lost(Lost),
}

// What follows from a cause of this name.
fn stop_by(next: Next, why: &'static str) -> Stop
    ensures { next_by result ≡ Some next }
{
    match next {
        Next::Again => Stop::Over(why),
        Next::Anew => Stop::Missed(why),
        Next::End => Stop::Lost(Lost { why }),
    }
}

/// The code of a peer's refusal that it no longer keeps what comes next.
const GONE: u16 = 410;

// What a mirror does behind a refused line.
fn after_line(no: LinkNo) -> Next
    ensures { result ≡ line_next no }
{
    match no {
        LinkNo::Refused { code: GONE } | LinkNo::Told { .. } | LinkNo::Gap { .. } => Next::Anew,
        LinkNo::BadHead
        | LinkNo::Refused { .. }
        | LinkNo::CutShort
        | LinkNo::ReadFault
        | LinkNo::WriteFault
        | LinkNo::Memory => Next::Again,
        LinkNo::BadChunk
        | LinkNo::BadLine
        | LinkNo::Order { .. }
        | LinkNo::TooLong
        | LinkNo::OtherLog
        | LinkNo::Passed { .. } => Next::End,
    }
}

// And behind a refused opening.
fn after_opening(no: LinkNo) -> Next
    ensures { result ≡ opening_next no }
{
    match no {
        LinkNo::Refused { .. } | LinkNo::Told { .. } => Next::Again,
        LinkNo::Gap { .. } => Next::End,
        _ => after_line(no),
    }
}

/// Behind a line that was refused, or a request for the stream.
pub fn stop_of_line(no: LinkNo) -> Stop
    ensures { next_by result ≡ Some (line_next no) }
{
    stop_by(after_line(no), no.name())
}

/// Behind a request for an opening that was refused.
pub fn stop_of_opening(no: LinkNo) -> Stop
    ensures { next_by result ≡ Some (opening_next no) }
{
    stop_by(after_opening(no), no.name())
}

/// Before a peer is asked, by how its log stands to the mirror's end. `None` means that it may be asked.
pub fn stop_of_standing(standing: Standing) -> Option<Stop>
    ensures { next_after result ≡ standing_next standing }
{
    match standing {
        Standing::Reached => None,
        Standing::Behind => Some(stop_by(Next::End, LinkNo::OtherLog.name())),
        Standing::Unknown => Some(stop_by(Next::Again, "NoReply")),
    }
}

/// Where no connection to the peer can be made.
pub fn stop_of_silence() -> Stop
    ensures { next_by result ≡ Some (line_next no.ReadFault) }
{
    stop_by(Next::Again, "NoConnection")
}

/// Where the peer ended its stream.
pub fn stop_of_stream_end() -> Stop
    ensures { next_by result ≡ Some (line_next no.CutShort) }
{
    stop_by(Next::Again, "Ended")
}
