//! Why bytes are no record.

use kube_meta::Memory;

/// Why bytes are no record; the first of these that holds.
#[derive(Clone, Copy, Debug, PartialEq, Eq)]
pub enum RecordNo {
    /// They are more than 67,108,864, or more than 10,000 lines stand between the first line and the first empty one
    /// behind it.
    TooLong,
    /// They aren't UTF-8, or the first line is no header.
    BadHeader,
    /// No line behind the first is empty, or the last byte is no line feed.
    NoBody,
    /// The line of the log at this place, from 0, doesn't tell the next revision, with 1 to 64 changes in their order.
    BadLog { line: u64 },
    /// The floor is below the first revision, or above the last.
    BadFloor,
    /// The header's namespace, selectors and options ask for no watch.
    BadAsk,
    Memory,
}

impl From<Memory> for RecordNo {
    ghost use Rattle.std.specs.Prelude.{◌≡◌};
    ghost use Rattle.watch_record.specs.declared.refusals.RecordNo.TheVariants as refusals;

    ghost from_gives = { λ _ refusal. refusal ≡ refusals.Memory };

    fn from(_: Memory) -> RecordNo {
        RecordNo::Memory
    }
}
