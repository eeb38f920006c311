//! Which refusal of a part is which of the whole.

ghost use Rattle.std.specs.Prelude.{◌≡◌, Option, Result};
ghost use Rattle.cluster_link.specs.Refusals as refusals;

use crate::{ClusterNo, Heard};
use line_stream::{AskNo, LineNo};
use mirror_log::{MirrorNo, RebaseNo, TakeNo};

/// Why something wasn't asked for.
pub(crate) fn request_refusal(fault: AskNo) -> ClusterNo
    ensures { result ≡ refusals.request_refusal fault }
{
    match fault {
        AskNo::WriteFault => ClusterNo::WriteFault,
        AskNo::Memory => ClusterNo::Memory,
    }
}

/// Why there is no reply, or no line of a stream.
pub(crate) fn reply_refusal(fault: LineNo) -> ClusterNo
    ensures { result ≡ refusals.reply_refusal fault }
{
    match fault {
        LineNo::BadHead | LineNo::BadChunk => ClusterNo::BadReply,
        LineNo::Refused { code } => ClusterNo::Refused { code },
        LineNo::Overlong | LineNo::Spent => ClusterNo::TooLong,
        LineNo::CutShort | LineNo::Unfinished => ClusterNo::CutShort,
        LineNo::ReadFault => ClusterNo::ReadFault,
        LineNo::Memory => ClusterNo::Memory,
    }
}

// Why a line isn't taken.
fn take_refusal(why: TakeNo) -> ClusterNo
    ensures { result ≡ refusals.take_refusal why }
{
    match why {
        TakeNo::BadLine => ClusterNo::BadLine,
        TakeNo::Order { last, got } => ClusterNo::Order { last, got },
        TakeNo::Gap { .. } => ClusterNo::BadLine,
    }
}

/// Why a line isn't heard by a mirror's log, which ends at `to`.
pub(crate) fn log_refusal(to: u64, why: MirrorNo) -> ClusterNo
    ensures { result ≡ refusals.log_refusal to why }
{
    match why {
        MirrorNo::Refused(why) => take_refusal(why),
        MirrorNo::Passed { at } => ClusterNo::Passed { to, at },
        MirrorNo::Memory => ClusterNo::Memory,
    }
}

/// Why a mirror's log, which ends at `to`, isn't taken to a list at `at`.
pub(crate) fn anew_refusal(to: u64, at: u64, why: RebaseNo) -> ClusterNo
    ensures { result ≡ refusals.anew_refusal to at why }
{
    match why {
        RebaseNo::Behind { .. } => ClusterNo::Behind { to, at },
        RebaseNo::OtherLog => ClusterNo::OtherLog,
        RebaseNo::Passed { at } => ClusterNo::Passed { to, at },
        RebaseNo::Memory => ClusterNo::Memory,
    }
}

/// The answer that is given again after this one, if any.
pub(crate) fn standing_answer(answer: Result<Heard, ClusterNo>) -> Option<Result<Heard, ClusterNo>>
    ensures { result ≡ refusals.standing_answer answer }
{
    match answer {
        Ok(Heard::Line { .. }) => None,
        Ok(Heard::Ended { to }) => Some(Ok(Heard::Ended { to })),
        Err(why) => Some(Err(why)),
    }
}

/// The answer that stands once a mirror has asked for its stream.
pub(crate) fn resumed_answer(asked: Result<(), ClusterNo>) -> Option<Result<Heard, ClusterNo>>
    ensures { result ≡ refusals.resumed_answer asked }
{
    match asked {
        Ok(()) => None,
        Err(why) => Some(Err(why)),
    }
}
