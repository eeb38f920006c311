//! Why a cache refuses a call.

use event_ring::Below;
use kube_meta::Memory;

/// Why a cache has no state at a revision.
#[derive(Clone, Copy, Debug, PartialEq, Eq)]
pub enum AtNo {
    /// The revision is below the floor of the cache's ring. Both are revisions.
    Below { asked: u64, floor: u64 },
    /// There was no memory.
    Memory,
}

impl From<Memory> for AtNo {
    ghost use Rattle.std.specs.Prelude.{◌≡◌};
    ghost use Rattle.cache_core.specs.declared.refusals.AtNo.TheVariants as refusals;

    ghost from_gives = { λ _ refusal. refusal ≡ refusals.Memory };

    fn from(_: Memory) -> AtNo {
        AtNo::Memory
    }
}

impl From<Below> for AtNo {
    ghost use Rattle.std.specs.Prelude.{◌≡◌};
    ghost use Rattle.cache_core.specs.declared.refusals.AtNo.TheVariants as refusals;

    ghost from_gives = { λ below refusal. refusal ≡ refusals.Below below.asked below.floor };

    fn from(below: Below) -> AtNo {
        AtNo::Below {
            asked: below.asked,
            floor: below.floor,
        }
    }
}
