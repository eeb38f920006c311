//! The option table of lists.

ghost use Rattle.std.specs.Prelude.{◌≡◌, IfOk, codes};
ghost use Rattle.std.specs.Option.{option_map};
ghost use Rattle.list_rules.specs.Options.{given, parameter_text, parameter_number, match_of, options_of, options_fault, page_limit, means, of_get, of_revision, IsNeverExact};

use crate::AskNo;
use http_read::Params;
use kube_meta::Rev;
use select_all::Meaning;

/// What a parameter says that is a number.
#[derive(Clone, Copy, Debug, PartialEq, Eq)]
pub enum Number {
    Unset,
    /// It isn't written as a revision is.
    Refused,
    Is(u64),
}

/// What `resourceVersionMatch` says.
#[derive(Clone, Copy, Debug, PartialEq, Eq)]
pub enum Match {
    Absent,
    Exactly,
    NotOlderThan,
    Other,
}

/// The options of a list as they are given, of which the option table speaks.
#[derive(Clone, Copy, Debug)]
pub struct Options {
    /// `resourceVersion`.
    pub revision: Number,
    /// `resourceVersionMatch`.
    pub matching: Match,
    /// `limit`.
    pub limit: Number,
    /// Whether `continue` is set.
    pub continued: bool,
    /// Whether `sendInitialEvents` is set, be it to nothing.
    pub initial_events: bool,
}

// The number that a parameter says.
pub(crate) fn number_of(params: &Params, name: &str) -> Number
    ensures { result ≡ parameter_number (given name.now params.now) }
{
    match params.get(name) {
        None => Number::Unset,
        Some(text) => match Rev::read(text.as_bytes()) {
            Ok(n) => Number::Is(n),
            Err(_) => Number::Refused,
        },
    }
}

// What `resourceVersionMatch` says.
fn matching(params: &Params) -> Match
    ensures { result ≡ match_of (given (codes "resourceVersionMatch") params.now) }
{
    match params.get("resourceVersionMatch") {
        None => Match::Absent,
        Some("Exact") => Match::Exactly,
        Some("NotOlderThan") => Match::NotOlderThan,
        Some(_) => Match::Other,
    }
}

// The text of a parameter, empty where it is unset.
pub(crate) fn text<'a>(params: &'a Params, name: &str) -> &'a str
    ensures { result.now ≡ parameter_text name.now params.now }
{
    match params.get(name) {
        Some(text) => text,
        None => "",
    }
}

// The limit, 0 where there is none.
pub(crate) fn limit(number: Number) -> u64
    ensures { result ≡ page_limit number }
{
    match number {
        Number::Is(n) => n,
        _ => 0,
    }
}

// What a revision with no match means.
fn at_revision(revision: u64, limit: u64) -> Meaning
    ensures { result ≡ of_revision revision limit }
{
    if revision == 0 {
        Meaning::Any
    } else if limit == 0 {
        Meaning::NotOlder(revision)
    } else {
        Meaning::Exact(revision)
    }
}

// What a revision means that may always be newer.
fn not_older(revision: u64) -> Meaning
    ensures means { result ≡ of_revision revision 0 }
    ensures never_exact { IsNeverExact result }
{
    if revision == 0 {
        Meaning::Any
    } else {
        Meaning::NotOlder(revision)
    }
}

// What a get's revision means.
pub(crate) fn get_meaning(revision: Number) -> Result<Meaning, AskNo>
    ensures means { result ≡ of_get revision }
    ensures never_exact { IfOk result IsNeverExact }
{
    match revision {
        Number::Unset => Ok(Meaning::MostRecent),
        Number::Refused => Err(AskNo::BadRevision),
        Number::Is(r) => Ok(not_older(r)),
    }
}

impl Options {
    pub(crate) fn of(params: &Params) -> Options
        ensures { result ≡ options_of params.now }
    {
        Options {
            revision: number_of(params, "resourceVersion"),
            matching: matching(params),
            limit: number_of(params, "limit"),
            continued: params.get("continue").is_some(),
            initial_events: params.truth("sendInitialEvents").is_some(),
        }
    }

    // The first fault that holds.
    pub(crate) fn first_fault(self) -> Option<AskNo>
        ensures { result ≡ options_fault self }
    {
        let matched = self.matching != Match::Absent;
        let unset = self.revision == Number::Unset;
        let zero = self.revision == Number::Is(0);
        if self.revision == Number::Refused {
            Some(AskNo::BadRevision)
        } else if self.matching == Match::Other {
            Some(AskNo::BadMatch)
        } else if matched && !self.continued && unset {
            Some(AskNo::MatchNeedsRevision)
        } else if self.matching == Match::Exactly && !self.continued && zero {
            Some(AskNo::ExactZero)
        } else if matched && self.continued {
            Some(AskNo::MatchWithContinue)
        } else if self.continued && !unset && !zero {
            Some(AskNo::RevisionWithContinue)
        } else if self.initial_events {
            Some(AskNo::InitialEventsOnList)
        } else if self.limit == Number::Refused {
            Some(AskNo::BadLimit)
        } else {
            None
        }
    }

    // The meaning, where there is no fault and no `continue`.
    pub(crate) fn meaning(self) -> Meaning
        ensures { result ≡ means self.matching self.revision (page_limit self.limit) }
    {
        match (self.matching, self.revision) {
            (Match::Absent, Number::Is(r)) => at_revision(r, limit(self.limit)),
            (Match::Exactly, Number::Is(r)) => Meaning::Exact(r),
            (Match::NotOlderThan, Number::Is(r)) => not_older(r),
            _ => Meaning::MostRecent,
        }
    }
}
