//! Why there are no such revisions.

use crate::slots::SlotNo;
use kube_meta::Memory;

/// Why there are no such revisions.
#[derive(Clone, Copy, Debug, PartialEq, Eq)]
pub enum BridgeNo {
    /// The rows aren't of the log of which the old ones are.
    OtherLog,
    /// There was no memory.
    Memory,
}

impl From<Memory> for BridgeNo {
    ghost use Rattle.std.specs.Prelude.{◌≡◌};
    ghost use Rattle.mirror_log.specs.declared.bridge_refusal.BridgeNo.TheVariants as refusals;

    ghost from_gives = { λ _ refusal. refusal ≡ refusals.Memory };

    fn from(_: Memory) -> BridgeNo {
        BridgeNo::Memory
    }
}

impl From<SlotNo> for BridgeNo {
    ghost use Rattle.std.specs.Prelude.{◌≡◌};
    ghost use Rattle.mirror_log.specs.Refusals.{slot_refusal};

    ghost from_gives = { λ why refusal. refusal ≡ slot_refusal why };

    fn from(why: SlotNo) -> BridgeNo {
        match why {
            SlotNo::Full => BridgeNo::OtherLog,
            SlotNo::Memory => BridgeNo::Memory,
        }
    }
}
