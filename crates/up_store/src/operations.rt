//! Operations on the log and its server.

use kube_meta::Memory;

/// An operation on the log and its server.
#[derive(Clone, Copy, Debug, PartialEq, Eq)]
pub enum Operate {
    /// All feeds of the store are cut, and their readers begin anew.
    Cut,
    /// The revisions up to `at` are compacted: a watch from below it is refused from then on.
    Compact { at: u64 },
    /// The caches are built anew from the store.
    Restart,
    /// All open watches of the server end. Nothing of the log changes.
    Disconnect,
}

/// Why an operation was refused.
#[derive(Clone, Copy, Debug, PartialEq, Eq)]
pub enum OpNo {
    /// The log is compacted beyond the asked revision already, up to `floor`.
    Compacted { asked: u64, floor: u64 },
    /// The asked revision is above `current`, that of the log's end.
    Future { asked: u64, current: u64 },
    /// The feeds were cut 2 ^ 62 times, and can't be cut again.
    UsedUp { at: u64 },
    /// There was no memory.
    Memory,
}

impl From<Memory> for OpNo {
    ghost use Rattle.std.specs.Prelude.{◌≡◌};
    ghost use Rattle.up_store.specs.declared.operations.OpNo.TheVariants as refusals;

    ghost from_gives = { λ _ refusal. refusal ≡ refusals.Memory };

    fn from(_: Memory) -> OpNo {
        OpNo::Memory
    }
}
