//! Which refusal of a part is which of the whole.

ghost use Rattle.std.specs.Prelude.{◌≡◌, Option, Result};
ghost use Rattle.mirror_link.specs.Refusals as refusals;

use crate::Heard;
use crate::link_refusal::LinkNo;
use mirror_log::{MirrorNo, RebaseNo, TakeNo};

// Why a line isn't taken.
fn taking_refusal(why: TakeNo) -> LinkNo
    ensures { result ≡ refusals.taking_refusal why }
{
    match why {
        TakeNo::BadLine => LinkNo::BadLine,
        TakeNo::Order { last, got } => LinkNo::Order { last, got },
        TakeNo::Gap { last, got } => LinkNo::Gap { last, got },
    }
}

/// Why a line isn't heard by a mirror's log, which ends at `to`.
pub(crate) fn hearing_refusal(to: u64, why: MirrorNo) -> LinkNo
    ensures { result ≡ refusals.hearing_refusal to why }
{
    match why {
        MirrorNo::Refused(why) => taking_refusal(why),
        MirrorNo::Passed { at } => LinkNo::Passed { to, at },
        MirrorNo::Memory => LinkNo::Memory,
    }
}

/// Why a mirror's log, which ends at `to`, isn't taken to an opening.
pub(crate) fn rebasing_refusal(to: u64, why: RebaseNo) -> LinkNo
    ensures { result ≡ refusals.rebasing_refusal to why }
{
    match why {
        RebaseNo::Behind { .. } | RebaseNo::OtherLog => LinkNo::OtherLog,
        RebaseNo::Passed { at } => LinkNo::Passed { to, at },
        RebaseNo::Memory => LinkNo::Memory,
    }
}

/// The answer that is given again after this one, if any.
pub(crate) fn kept_answer(answer: Result<Heard, LinkNo>) -> Option<Result<Heard, LinkNo>>
    ensures { result ≡ refusals.kept_answer answer }
{
    match answer {
        Ok(Heard::Line { .. }) => None,
        Ok(Heard::Ended { to }) => Some(Ok(Heard::Ended { to })),
        Err(why) => Some(Err(why)),
    }
}
