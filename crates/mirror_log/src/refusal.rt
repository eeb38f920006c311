//! Why a line isn't heard, and why a log doesn't begin anew.

use crate::bridge_refusal::BridgeNo;
use crate::take_refusal::TakeNo;
use kube_meta::Memory;
use up_api::UpNo;
use up_store::HearNo;

/// Why a line isn't heard, or not whole.
#[derive(Clone, Copy, Debug, PartialEq, Eq)]
pub enum MirrorNo {
    /// It isn't taken. Nothing was committed.
    Refused(TakeNo),
    /// The store has reached `at`: another door than the mirror's heard a revision.
    Passed { at: u64 },
    /// There was no memory.
    Memory,
}

impl From<Memory> for MirrorNo {
    ghost use Rattle.std.specs.Prelude.{◌≡◌};
    ghost use Rattle.mirror_log.specs.declared.refusal.MirrorNo.TheVariants as refusals;

    ghost from_gives = { λ _ refusal. refusal ≡ refusals.Memory };

    fn from(_: Memory) -> MirrorNo {
        MirrorNo::Memory
    }
}

impl From<HearNo> for MirrorNo {
    ghost use Rattle.std.specs.Prelude.{◌≡◌};
    ghost use Rattle.mirror_log.specs.MirrorLogs.{hear_refusal};

    ghost from_gives = { λ fault refusal. refusal ≡ hear_refusal fault };

    fn from(fault: HearNo) -> MirrorNo {
        match fault {
            HearNo::Passed { at } => MirrorNo::Passed { at },
            HearNo::Memory => MirrorNo::Memory,
        }
    }
}

/// Why a mirror's log doesn't begin anew. Nothing was committed.
#[derive(Clone, Copy, Debug, PartialEq, Eq)]
pub enum RebaseNo {
    /// The revision is below `to`, the log's end.
    Behind { to: u64 },
    /// The rows aren't of the log that this one mirrors.
    OtherLog,
    /// The store has reached `at`, or was compacted up to there: another door than the mirror's did that.
    Passed { at: u64 },
    /// There was no memory.
    Memory,
}

impl From<Memory> for RebaseNo {
    ghost use Rattle.std.specs.Prelude.{◌≡◌};
    ghost use Rattle.mirror_log.specs.declared.refusal.RebaseNo.TheVariants as refusals;

    ghost from_gives = { λ _ refusal. refusal ≡ refusals.Memory };

    fn from(_: Memory) -> RebaseNo {
        RebaseNo::Memory
    }
}

impl From<HearNo> for RebaseNo {
    ghost use Rattle.std.specs.Prelude.{◌≡◌};
    ghost use Rattle.mirror_log.specs.Rebasing.{add_refusal};

    ghost from_gives = { λ fault refusal. refusal ≡ add_refusal fault };

    fn from(fault: HearNo) -> RebaseNo {
        match fault {
            HearNo::Passed { at } => RebaseNo::Passed { at },
            HearNo::Memory => RebaseNo::Memory,
        }
    }
}

impl From<UpNo> for RebaseNo {
    ghost use Rattle.std.specs.Prelude.{◌≡◌};
    ghost use Rattle.mirror_log.specs.Rebasing.{read_refusal};

    ghost from_gives = { λ fault refusal. refusal ≡ read_refusal fault };

    fn from(fault: UpNo) -> RebaseNo {
        match fault {
            UpNo::Compacted { floor, .. } => RebaseNo::Passed { at: floor },
            UpNo::Future { current, .. } => RebaseNo::Passed { at: current },
            UpNo::Cut { now, .. } => RebaseNo::Passed { at: now },
            UpNo::Memory => RebaseNo::Memory,
        }
    }
}

impl From<BridgeNo> for RebaseNo {
    ghost use Rattle.std.specs.Prelude.{◌≡◌};
    ghost use Rattle.mirror_log.specs.Rebasing.{bridge_refusal};

    ghost from_gives = { λ fault refusal. refusal ≡ bridge_refusal fault };

    fn from(fault: BridgeNo) -> RebaseNo {
        match fault {
            BridgeNo::OtherLog => RebaseNo::OtherLog,
            BridgeNo::Memory => RebaseNo::Memory,
        }
    }
}
