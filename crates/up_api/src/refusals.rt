//! Why upstream refuses a call.

use kube_meta::Memory;

/// Why upstream refuses a call. The numbers are those of the section in which it was refused.
#[derive(Clone, Copy, Debug, PartialEq, Eq)]
pub enum UpNo {
    /// The asked revision is below the compaction floor: its state isn't served any more.
    Compacted { asked: u64, floor: u64 },
    /// The asked revision is above the log's end.
    Future { asked: u64, current: u64 },
    /// The feeds of the generation in which this one was begun were cut; `now` is the present one.
    Cut { opened: u64, now: u64 },
    /// There was no memory.
    Memory,
}

impl From<Memory> for UpNo {
    ghost use Rattle.std.specs.Prelude.{◌≡◌};
    ghost use Rattle.up_api.specs.declared.refusals.UpNo.TheVariants as refusals;

    ghost from_gives = { λ _ refusal. refusal ≡ refusals.Memory };

    fn from(_: Memory) -> UpNo {
        UpNo::Memory
    }
}
