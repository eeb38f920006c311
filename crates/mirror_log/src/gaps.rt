//! How far apart the revisions of lines may be.

ghost use Rattle.std.specs.Prelude.{◌≡◌, ◌+◌, ◌<◌, ◌≤◌, ◌^◌, nat_lt, Some, None, if◌then◌else◌};

use crate::TakeNo;

/// What is wrong with a revision that is further behind the last than this.
pub(crate) fn gap(most_gap: u64, last: u64, got: u64) -> Option<TakeNo>
    requires last { last ≤ 2 ^ 62 + 1 }
    requires most { most_gap ≤ 2 ^ 62 }
    ensures { result ≡ (if nat_lt (last + most_gap) got then Some (TakeNo.Gap last got) else None) }
{
    if last + most_gap < got {
        Some(TakeNo::Gap { last, got })
    } else {
        None
    }
}
