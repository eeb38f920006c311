//! What a script's words ask for, and selections of small pods.

ghost use Rattle.list_rules.specs.Options.{IsNeverExact};
ghost use Rattle.std.specs.Prelude.{IsTrue};
ghost use Rattle.watch_rules.specs.Starts.{is_never_exact};

use crate::rows::{key, number};
use kube_meta::{Memory, Resource, Text};
use list_rules::{GetAsk, ListAsk};
use select_all::{Meaning, Selection};
use std::alloc::Global;
use watch_rules::{Start, WatchAsk};

/// At which revision a read is: `newest`, `any`, `least:N` or `exact:N`.
pub fn meaning(word: &str) -> Meaning {
    match word.strip_prefix("exact:") {
        Some(asked) => Meaning::Exact(number(asked)),
        None => fresh_meaning(word),
    }
}

// The same without `exact:N`.
fn fresh_meaning(word: &str) -> Meaning
    ensures { IsNeverExact result }
{
    match word.strip_prefix("least:") {
        Some(asked) => Meaning::NotOlder(number(asked)),
        None if word == "any" => Meaning::Any,
        None => Meaning::MostRecent,
    }
}

/// A get of a pod.
pub fn get_ask(alloc: Global, word: &str, name: &str) -> Result<GetAsk, Memory> {
    Ok(GetAsk {
        resource: Resource::Pods,
        key: key(alloc, name)?,
        meaning: fresh_meaning(word),
    })
}

/// A list of the selected objects.
pub fn list_ask(alloc: Global, selection: Selection, meaning: Meaning) -> Result<ListAsk, Memory> {
    Ok(ListAsk {
        selection,
        meaning,
        limit: 0,
        after: None,
        label_text: Text::new(alloc, "")?,
        field_text: Text::new(alloc, "")?,
    })
}

/// A watch of the selected objects, from a revision, or with the newest state, or from here.
pub fn watch_ask(selection: Selection, start: Start) -> WatchAsk
    requires { IsTrue (is_never_exact start) }
{
    WatchAsk {
        selection,
        start,
        closing: false,
        bookmarks: false,
        timeout_s: 0,
    }
}

/// Where a watch starts: `state`, `here` or a revision.
pub fn start(word: &str) -> Start
    ensures { IsTrue (is_never_exact result) }
{
    match word {
        "state" => Start::FromState(Meaning::MostRecent),
        "here" => Start::FromHere(Meaning::MostRecent),
        _ => Start::FromRevision(number(word)),
    }
}

/// The pods that both selectors select, where their texts are some.
pub fn selected(alloc: Global, labels: &str, fields: &str) -> Option<Selection> {
    Selection::read(alloc, Resource::Pods, None, labels, fields).ok()
}
