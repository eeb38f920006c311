//! Why a mirror doesn't hear a line.

ghost use Rattle.std.specs.Prelude.{◌≡◌};
ghost use Rattle.mirror_link.specs.OpeningRefusals as refusals;

use kube_meta::Memory;
use line_stream::{AskNo, LineNo};

/// Why there is no opening, or no further line: what is wrong first in the connection's bytes, or in the calls.
#[derive(Clone, Copy, Debug, PartialEq, Eq)]
pub enum LinkNo {
    /// No head of a response, or one whose body isn't chunked.
    BadHead,
    /// No chunk where one has to be.
    BadChunk,
    /// A line that is none, or that may not come here.
    BadLine,
    /// An event that isn't above `last`, the last revision that was told, or repeats a key there.
    Order { last: u64, got: u64 },
    /// A line too far behind `last`.
    Gap { last: u64, got: u64 },
    /// The peer's refusal, by the code of its reply.
    Refused { code: u16 },
    /// The peer's refusal, by the code of an ERROR in its stream.
    Told { code: u16 },
    /// The input ended before the stream, or the stream before the opening.
    CutShort,
    /// The source failed.
    ReadFault,
    /// The sink failed.
    WriteFault,
    /// The opening has more than 1,073,741,824 bytes.
    TooLong,
    /// The peer's log isn't the one that the mirror has followed.
    OtherLog,
    /// The mirror's log ends at `to`, and its store at `at`: another door heard a revision.
    Passed { to: u64, at: u64 },
    /// There was no memory.
    Memory,
}

impl LinkNo {
    /// The bare name, as it is printed.
    pub fn name(self) -> &'static str
        ensures { result.now ≡ refusals.refusal_name self }
    {
        match self {
            LinkNo::BadHead => "BadHead",
            LinkNo::BadChunk => "BadChunk",
            LinkNo::BadLine => "BadLine",
            LinkNo::Order { .. } => "Order",
            LinkNo::Gap { .. } => "Gap",
            LinkNo::Refused { .. } => "Refused",
            LinkNo::Told { .. } => "Told",
            LinkNo::CutShort => "CutShort",
            LinkNo::ReadFault => "ReadFault",
            LinkNo::WriteFault => "WriteFault",
            LinkNo::TooLong => "TooLong",
            LinkNo::OtherLog => "OtherLog",
            LinkNo::Passed { .. } => "Passed",
            LinkNo::Memory => "Memory",
        }
    }
}

impl From<LineNo> for LinkNo {
    ghost use Rattle.std.specs.Prelude.{◌≡◌};
    ghost use Rattle.mirror_link.specs.OpeningRefusals.{reading_refusal};

    ghost from_gives = { λ fault refusal. refusal ≡ reading_refusal fault };

    fn from(fault: LineNo) -> LinkNo {
        match fault {
            LineNo::BadHead => LinkNo::BadHead,
            LineNo::Refused { code } => LinkNo::Refused { code },
            LineNo::BadChunk => LinkNo::BadChunk,
            LineNo::Overlong | LineNo::Unfinished => LinkNo::BadLine,
            LineNo::Spent => LinkNo::TooLong,
            LineNo::CutShort => LinkNo::CutShort,
            LineNo::ReadFault => LinkNo::ReadFault,
            LineNo::Memory => LinkNo::Memory,
        }
    }
}

impl From<AskNo> for LinkNo {
    ghost use Rattle.std.specs.Prelude.{◌≡◌};
    ghost use Rattle.mirror_link.specs.OpeningRefusals.{asking_refusal};

    ghost from_gives = { λ fault refusal. refusal ≡ asking_refusal fault };

    fn from(fault: AskNo) -> LinkNo {
        match fault {
            AskNo::WriteFault => LinkNo::WriteFault,
            AskNo::Memory => LinkNo::Memory,
        }
    }
}

impl From<Memory> for LinkNo {
    ghost use Rattle.std.specs.Prelude.{◌≡◌};
    ghost use Rattle.mirror_link.specs.declared.link_refusal.LinkNo.TheVariants as no;

    ghost from_gives = { λ _ refusal. refusal ≡ no.Memory };

    fn from(_: Memory) -> LinkNo {
        LinkNo::Memory
    }
}
