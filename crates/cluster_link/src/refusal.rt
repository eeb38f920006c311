//! Why a cluster isn't heard.

ghost use Rattle.std.specs.Prelude.{◌≡◌};
ghost use Rattle.cluster_link.specs.Refusals as refusals;

/// Why there is no list, or no further line: what is wrong first in the connection's bytes, or in the calls.
#[derive(Clone, Copy, Debug, PartialEq, Eq)]
pub enum ClusterNo {
    /// The sink failed.
    WriteFault,
    /// The source failed.
    ReadFault,
    /// The input ended before a reply or the stream, or the stream within a line.
    CutShort,
    /// There was no memory.
    Memory,
    /// No reply of HTTP, or one whose body is neither counted nor chunked; a stream that isn't chunked.
    BadReply,
    /// The cluster's refusal, by the code of its reply.
    Refused { code: u16 },
    /// The cluster's refusal, by the code of an ERROR in its stream.
    Told { code: u16 },
    /// A line or a page that is none, or what may not come here; a list that isn't one.
    BadLine,
    /// A line, a page or a list that is too long.
    TooLong,
    /// An event that isn't above `last`, the last revision that was told.
    Order { last: u64, got: u64 },
    /// A list at `at`, below `to`, where the mirror's log ends.
    Behind { to: u64, at: u64 },
    /// A list has another object at an old revision than the one that stands.
    OtherValue,
    /// A list isn't of the log that the mirror has followed.
    OtherLog,
    /// The pages of a list are of more than one revision.
    MixedPages,
    /// The mirror's log ends at `to`, and its store at `at`: another door heard a revision.
    Passed { to: u64, at: u64 },
}

impl ClusterNo {
    /// The bare name, as it is printed.
    pub fn name(self) -> &'static str
        ensures { result.now ≡ refusals.cluster_refusal_name self }
    {
        match self {
            ClusterNo::WriteFault => "WriteFault",
            ClusterNo::ReadFault => "ReadFault",
            ClusterNo::CutShort => "CutShort",
            ClusterNo::Memory => "Memory",
            ClusterNo::BadReply => "BadReply",
            ClusterNo::Refused { .. } => "Refused",
            ClusterNo::Told { .. } => "Told",
            ClusterNo::BadLine => "BadLine",
            ClusterNo::TooLong => "TooLong",
            ClusterNo::Order { .. } => "Order",
            ClusterNo::Behind { .. } => "Behind",
            ClusterNo::OtherValue => "OtherValue",
            ClusterNo::OtherLog => "OtherLog",
            ClusterNo::MixedPages => "MixedPages",
            ClusterNo::Passed { .. } => "Passed",
        }
    }
}
