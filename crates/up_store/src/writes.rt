//! What a write asks for, and its answers.

use kube_meta::{Key, Memory, Obj, Resource, Row};

/// A write of one object, as `POST`, `PUT` and `DELETE` of the Kubernetes API ask for it.
#[derive(Debug, Drop)]
pub enum WriteAsk {
    /// The object is to be created: there must be none with its key.
    Create {
        resource: Resource,
        obj: Obj,
    },
    /// The object with this key is to be replaced. Where `given` is a revision (a resource
    /// version), the object must have been written at it, so that no other client's write is lost.
    Replace {
        resource: Resource,
        obj: Obj,
        given: Option<u64>,
    },
    /// The object with this key is to be removed.
    Remove {
        resource: Resource,
        key: Key,
    },
}

/// An accepted write: its revision, and the row that stands since then. Of a removal it is the
/// removed object with the revision of the removal.
#[derive(Debug, Drop)]
pub struct Written {
    pub rev: u64,
    pub row: Row,
}

/// Why a write was refused; the first of these that holds, but for `ReadOnly`, which comes before
/// all others. Each has in `at` the revision of the log's end, and leaves the log as it was.
#[derive(Clone, Copy, Debug, PartialEq, Eq)]
pub enum WriteNo {
    /// The key to create is there: its object was written at `present`.
    Exists { at: u64, present: u64 },
    /// The key to replace or remove isn't there.
    Absent { at: u64 },
    /// The object was written at `present`, and not at the given revision.
    Stale { at: u64, given: u64, present: u64 },
    /// The log's revision is 2 ^ 62, the last one.
    UsedUp { at: u64 },
    /// The log is a mirror's, which takes its changes from its peer alone.
    ReadOnly { at: u64 },
    /// There was no memory. A store's log is then as it was.
    Memory,
}

impl From<Memory> for WriteNo {
    ghost use Rattle.std.specs.Prelude.{◌≡◌};
    ghost use Rattle.up_store.specs.declared.writes.WriteNo.TheVariants as refusals;

    ghost from_gives = { λ _ refusal. refusal ≡ refusals.Memory };

    fn from(_: Memory) -> WriteNo {
        WriteNo::Memory
    }
}
