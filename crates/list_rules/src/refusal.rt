//! Why the options of a list are refused.

ghost use Rattle.std.specs.Prelude.{◌≡◌};

use kube_meta::Memory;

/// Why the options of a list or a get are refused; the first of these that holds. The option names are those
/// of the Kubernetes API concepts.
#[derive(Clone, Copy, Debug, PartialEq, Eq)]
pub enum AskNo {
    /// `resourceVersion` is set and is no revision.
    BadRevision,
    /// `resourceVersionMatch` is set and is neither `Exact` nor `NotOlderThan`.
    BadMatch,
    /// The match is set, and neither `continue` nor `resourceVersion` is.
    MatchNeedsRevision,
    /// The match is `Exact`, `continue` is unset, and the revision is 0.
    ExactZero,
    /// The match and `continue` are set.
    MatchWithContinue,
    /// `continue` is set, and the revision is set and isn't 0.
    RevisionWithContinue,
    /// `sendInitialEvents` is set.
    InitialEventsOnList,
    /// `limit` is set and isn't written as a revision is.
    BadLimit,
    /// `continue` is set and is refused, for the reason that is told; never for want of memory.
    BadContinue(TokenNo),
    /// There was no memory.
    Memory,
}

/// Why a text is no continue token of a list; the first of these that holds.
#[derive(Clone, Copy, Debug, PartialEq, Eq)]
pub enum TokenNo {
    /// It is no continue token.
    NotToken,
    /// It is one of another list.
    OtherList,
    /// There was no memory.
    Memory,
}

impl From<Memory> for AskNo {
    ghost use Rattle.std.specs.Prelude.{◌≡◌};
    ghost use Rattle.list_rules.specs.declared.refusal.AskNo.TheVariants as refusals;

    ghost from_gives = { λ _ refusal. refusal ≡ refusals.Memory };

    fn from(_: Memory) -> AskNo {
        AskNo::Memory
    }
}

impl From<Memory> for TokenNo {
    ghost use Rattle.std.specs.Prelude.{◌≡◌};
    ghost use Rattle.list_rules.specs.declared.refusal.TokenNo.TheVariants as refusals;

    ghost from_gives = { λ _ refusal. refusal ≡ refusals.Memory };

    fn from(_: Memory) -> TokenNo {
        TokenNo::Memory
    }
}
