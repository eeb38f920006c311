//! Why bytes are no record of an unknown log.

use kube_meta::Memory;

/// Why bytes are no record of an unknown log; the first of these that holds.
#[derive(Clone, Copy, Debug, PartialEq, Eq)]
pub enum BetweenNo {
    /// The first line isn't a header of this kind.
    BadHeader,
    /// They are more than 268,435,456.
    TooLong,
    /// No line behind the first is empty.
    NoBody,
    /// The header's namespace, selectors and options ask for no watch from a revision.
    BadAsk,
    /// The list at this place, from 0, is no whole list of the resource, of objects that may be stored; or the first
    /// doesn't stand at the watch's revision, or a later one stands below it.
    BadList { list: u64 },
    Memory,
}

impl From<Memory> for BetweenNo {
    ghost use Rattle.std.specs.Prelude.{◌≡◌};
    ghost use Rattle.watch_record.specs.declared.between_refusal.BetweenNo.TheVariants as refusals;

    ghost from_gives = { λ _ refusal. refusal ≡ refusals.Memory };

    fn from(_: Memory) -> BetweenNo {
        BetweenNo::Memory
    }
}
