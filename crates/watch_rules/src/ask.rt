//! What a watch asks for.

ghost use Rattle.std.specs.Prelude.{◌≡◌, ◌≤◌, IsTrue};
ghost use Rattle.watch_rules.specs.Starts.{is_never_exact, is_from_state};

use crate::{Start, WatchNo, options};
use http_read::Params;
use select_all::Selection;

/// What a watch asks for.
#[derive(Debug, Drop)]
pub struct WatchAsk {
    /// The objects that it is of.
    pub selection: Selection,
    /// Where it starts. It is never at one revision alone.
    pub start: Start,
    /// Whether a bookmark ends the initial events: only where there are such, and bookmarks may come.
    pub closing: bool,
    /// Whether bookmarks may come.
    pub bookmarks: bool,
    /// After how many seconds it ends, at most 1,000,000; 0 where that is left to the server.
    pub timeout_s: u64,
    pub ghost never_exact: { IsTrue (is_never_exact start) },
    pub ghost closing_a_state: { IsTrue closing → IsTrue (is_from_state start) },
    pub ghost closing_wanted: { IsTrue closing → IsTrue bookmarks },
    pub ghost timeout_bounded: { timeout_s ≤ 1000000 },
}

impl WatchAsk {
    ghost use Rattle.std.specs.Prelude.{Some, IfOk, IfErr};
    ghost use Rattle.watch_rules.specs.Options.{MeansWatch, query_fault};

    /// The watch that the options of a query ask for; their names are those of the Kubernetes API
    /// concepts, and an empty value counts as none, except for those that are true or false.
    pub fn from_params(selection: Selection, params: &Params) -> Result<WatchAsk, WatchNo>
        ensures asked { IfOk result (λ ask. MeansWatch selection params.now ask) }
        ensures refused { IfErr result (λ fault. query_fault params.now ≡ Some fault) }
    {
        let revision = options::revision(params)?;
        if let Some(fault) = options::match_fault(params) {
            return Err(fault);
        }
        let timeout_s = options::timeout(params)?;
        let initial = params.truth("sendInitialEvents");
        let bookmarks = params.truth("allowWatchBookmarks").unwrap_or(false);
        Ok(WatchAsk {
            selection,
            start: options::start(initial, revision),
            closing: initial.unwrap_or(false) && bookmarks,
            bookmarks,
            timeout_s,
        })
    }
}

/// Where the watch starts.
pub fn plan(ask: &WatchAsk) -> Start
    ensures { result ≡ ask.now.start }
{
    ask.start
}
