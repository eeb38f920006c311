//! The option table of watches.

ghost use Rattle.std.specs.Prelude.{◌≡◌, ◌≤◌, [], ◌∷◌, find, Some, IfSome, IfOk, IfErr, OnOk, OnErr, IsTrue, true, false, unwrap_or, option_and_then};
ghost use Rattle.watch_rules.specs.Options.{revision_text, timeout_text, revision_number, timeout_seconds, is_not_older_than, has_fault, start_of};
ghost use Rattle.watch_rules.specs.Starts.{is_never_exact, is_from_state};

use crate::{Start, WatchNo};
use http_read::Params;
use kube_meta::Rev;
use select_all::Meaning;

// The longest time limit, in seconds.
const MAX_TIMEOUT: u64 = 1_000_000;

// The number that a text is, if it is one.
fn number(text: &str) -> Option<u64>
    ensures { result ≡ revision_number text.now }
{
    Rev::read(text.as_bytes()).ok()
}

// The time limit that a text is, if it is one.
fn seconds(text: &str) -> Option<u64>
    ensures value { result ≡ timeout_seconds text.now }
    ensures bounded { IfSome result (λ seconds. seconds ≤ 1000000) }
{
    match number(text) {
        Some(seconds) if seconds <= MAX_TIMEOUT => Some(seconds),
        _ => None,
    }
}

/// The revision that is asked for, if one is.
pub fn revision(params: &Params) -> Result<Option<u64>, WatchNo>
    ensures read { IfOk result (λ revision. revision ≡ option_and_then revision_number (revision_text params.now)) }
    ensures good { OnOk result (has_fault params.now WatchNo.BadRevision ≡ false) }
    ensures refused { IfErr result (λ fault. fault ≡ WatchNo.BadRevision) }
    ensures bad { OnErr result (has_fault params.now WatchNo.BadRevision ≡ true) }
{
    let Some(text) = params.get("resourceVersion") else {
        return Ok(None);
    };
    match number(text) {
        Some(revision) => Ok(Some(revision)),
        None => Err(WatchNo::BadRevision),
    }
}

/// The time limit in seconds, and 0 where none is set.
pub fn timeout(params: &Params) -> Result<u64, WatchNo>
    ensures read { IfOk result (λ seconds. seconds ≡ unwrap_or (option_and_then timeout_seconds (timeout_text params.now)) 0) }
    ensures bounded { IfOk result (λ seconds. seconds ≤ 1000000) }
    ensures good { OnOk result (has_fault params.now WatchNo.BadTimeout ≡ false) }
    ensures refused { IfErr result (λ fault. fault ≡ WatchNo.BadTimeout) }
    ensures bad { OnErr result (has_fault params.now WatchNo.BadTimeout ≡ true) }
{
    let Some(text) = params.get("timeoutSeconds") else {
        return Ok(0);
    };
    match seconds(text) {
        Some(seconds) => Ok(seconds),
        None => Err(WatchNo::BadTimeout),
    }
}

// Whether a match is the one that initial events go with.
fn is_not_older_than(text: &str) -> bool
    ensures { result ≡ is_not_older_than text.now }
{
    text == "NotOlderThan"
}

/// What is wrong with the match: neither it nor what is said of initial events comes without the other.
pub fn match_fault(params: &Params) -> Option<WatchNo>
    ensures { result ≡ find (has_fault params.now) (WatchNo.MatchWithoutInitial ∷ WatchNo.InitialNeedsNotOlder ∷ []) }
{
    let wanted = params.get("resourceVersionMatch");
    match (params.truth("sendInitialEvents"), wanted) {
        (None, None) => None,
        (None, Some(_)) => Some(WatchNo::MatchWithoutInitial),
        (Some(_), None) => Some(WatchNo::InitialNeedsNotOlder),
        (Some(_), Some(text)) => match is_not_older_than(text) {
            true => None,
            false => Some(WatchNo::InitialNeedsNotOlder),
        },
    }
}

/// Where a watch starts, by what is said of initial events and the revision that is asked for.
pub fn start(initial: Option<bool>, revision: Option<u64>) -> Start
    ensures value { result ≡ start_of initial revision }
    ensures never_exact { IsTrue (is_never_exact result) }
    ensures from_state { initial ≡ Some true → IsTrue (is_from_state result) }
{
    match (initial, revision) {
        (None | Some(true), None) => Start::FromState(Meaning::MostRecent),
        (None | Some(true), Some(0)) => Start::FromState(Meaning::Any),
        (Some(true), Some(revision)) => Start::FromState(Meaning::NotOlder(revision)),
        (Some(false), None) => Start::FromHere(Meaning::MostRecent),
        (Some(false), Some(0)) => Start::FromHere(Meaning::Any),
        (None | Some(false), Some(revision)) => Start::FromRevision(revision),
    }
}
