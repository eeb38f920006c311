//! What a server does about a cluster of which it mirrors a resource.

ghost use Rattle.std.specs.Prelude.{◌≡◌, Some};
ghost use Rattle.net_front.specs.ClusterVerdicts as verdicts;

use crate::end::AtEnd;
use cluster_link::ClusterNo;
use kube_meta::Text;

/// What a cluster is asked for.
#[derive(Clone, Copy, Debug, PartialEq, Eq)]
pub enum Wanted {
    /// The stream of what comes behind the mirror's end.
    Stream,
    /// All its objects as they are now.
    Objects,
}

/// Why a cluster isn't heard.
#[derive(Clone, Copy, Debug, PartialEq, Eq)]
pub enum ClusterWhy {
    /// Nobody takes a connection at its port.
    NoConnection,
    /// What it sent, or couldn't be asked for.
    No(ClusterNo),
    /// It isn't the cluster that was there at the start.
    OtherCluster,
}

impl ClusterWhy {
    /// The bare name, as it is printed.
    pub fn name(self) -> &'static str {
        match self {
            ClusterWhy::NoConnection => "NoConnection",
            ClusterWhy::No(no) => no.name(),
            ClusterWhy::OtherCluster => "OtherCluster",
        }
    }
}

/// What a mirror does next about its cluster.
#[derive(Clone, Copy, Debug, PartialEq, Eq)]
pub enum Turn {
    /// It asks for what comes next.
    Onward,
    /// It asks for the same again, in a while.
    Again,
    /// It asks for all objects.
    Anew,
    /// It follows the cluster no more.
    End,
}

/// Why a cluster is followed no more. Only the decisions of this module make one.
#[derive(Clone, Copy, Debug)]
pub struct Final {
    why: ClusterWhy,
}

impl Final {
    /// The cause.
    pub fn why(self) -> ClusterWhy {
        self.why
    }
}

/// Why no further line is heard.
#[derive(Clone, Copy, Debug)]
pub enum Halt {
    /// The sessions have ended.
    Ended(AtEnd),
    /// The stream has ended as it was asked to, or a list was taken.
    Onward,
    /// It wasn't to be had, for this cause.
    Again(ClusterWhy),
    /// The cluster can't tell what comes next, for this cause.
    Anew(ClusterWhy),
    /// The cluster can't be followed.
    End(Final),
}

// What follows from this cause.
fn halt_by(turn: Turn, why: ClusterWhy) -> Halt
    ensures { verdicts.turn_by result ≡ Some turn }
{
    match turn {
        Turn::Onward => Halt::Onward,
        Turn::Again => Halt::Again(why),
        Turn::Anew => Halt::Anew(why),
        Turn::End => Halt::End(Final { why }),
    }
}

/// The code of a refusal of what is no longer kept.
const GONE: u16 = 410;

// What a mirror does behind a refused line.
fn after_line(no: ClusterNo) -> Turn
    ensures { result ≡ verdicts.stream_turn no }
{
    match no {
        ClusterNo::Refused { code: GONE } | ClusterNo::Told { .. } | ClusterNo::MixedPages => {
            Turn::Anew
        }
        ClusterNo::Refused { .. }
        | ClusterNo::WriteFault
        | ClusterNo::ReadFault
        | ClusterNo::CutShort
        | ClusterNo::Memory
        | ClusterNo::BadReply => Turn::Again,
        ClusterNo::BadLine
        | ClusterNo::TooLong
        | ClusterNo::Order { .. }
        | ClusterNo::Behind { .. }
        | ClusterNo::OtherValue
        | ClusterNo::OtherLog
        | ClusterNo::Passed { .. } => Turn::End,
    }
}

// And behind a refused list.
fn after_list(no: ClusterNo) -> Turn
    ensures { result ≡ verdicts.list_turn no }
{
    match no {
        ClusterNo::Refused { .. } | ClusterNo::Told { .. } | ClusterNo::MixedPages => Turn::Again,
        _ => after_line(no),
    }
}

// And behind a refusal of either.
fn after(wanted: Wanted, no: ClusterNo) -> Turn
    ensures { result ≡ verdicts.turn_of wanted no }
{
    match wanted {
        Wanted::Stream => after_line(no),
        Wanted::Objects => after_list(no),
    }
}

/// Behind a refusal of what was asked for, or of a line of it.
pub fn halt_of(wanted: Wanted, no: ClusterNo) -> Halt
    ensures { verdicts.turn_by result ≡ Some (verdicts.turn_of wanted no) }
{
    halt_by(after(wanted, no), ClusterWhy::No(no))
}

/// Where no connection to the cluster can be made.
pub fn halt_of_silence() -> Halt
    ensures { verdicts.turn_by result ≡ Some Turn.Again }
{
    halt_by(Turn::Again, ClusterWhy::NoConnection)
}

/// Where the cluster didn't say by which uid it goes. `None` means that it may be asked: what is no reply that tells
/// one may come of a cluster that has none, and else the request that is made next is refused.
pub fn halt_without_uid(no: ClusterNo) -> Option<Halt>
    ensures { verdicts.turn_after result ≡ verdicts.silent_turn no }
{
    match no {
        ClusterNo::BadReply => None,
        _ => Some(halt_by(Turn::Again, ClusterWhy::No(no))),
    }
}

/// By the uid that the cluster goes by now, and the one that is known. `None` means that it may be asked.
pub fn halt_of_uid(known: &Option<Text>, read: &Option<Text>) -> Option<Halt>
    ensures { verdicts.turn_after result ≡ verdicts.uid_turn known.now read.now }
{
    if is_other(known, read) {
        Some(halt_by(Turn::End, ClusterWhy::OtherCluster))
    } else {
        None
    }
}

// Whether these are the uids of two clusters.
fn is_other(known: &Option<Text>, read: &Option<Text>) -> bool
    ensures { result ≡ verdicts.is_other_uid known.now read.now }
{
    match known {
        Some(known) => differs(known, read),
        None => false,
    }
}

fn differs(known: &Text, read: &Option<Text>) -> bool
    ensures { result ≡ verdicts.is_other_uid (Some known.now) read.now }
{
    match read {
        Some(read) => known.as_str() != read.as_str(),
        None => false,
    }
}

/// What the cluster is asked for next.
pub fn wanted_next(halt: Halt, before: Wanted) -> Wanted
    ensures { result ≡ verdicts.wanted_next halt before }
{
    match halt {
        Halt::Onward => Wanted::Stream,
        Halt::Anew(_) => Wanted::Objects,
        Halt::Ended(_) | Halt::Again(_) | Halt::End(_) => before,
    }
}

/// Whether it is asked at once.
pub fn is_at_once(halt: Halt) -> bool
    ensures { result ≡ verdicts.is_at_once halt }
{
    match halt {
        Halt::Onward | Halt::Anew(_) => true,
        Halt::Ended(_) | Halt::Again(_) | Halt::End(_) => false,
    }
}
