//! What reads answer, from the objects of a resource at a revision.

ghost use Rattle.std.specs.Prelude.{◌≡◌, ℕ, List, None, IfOk, IsTrue, length};
ghost use Rattle.kube_meta.specs.Rows.{RowData, behind};
ghost use Rattle.list_rules.specs.Pages.{page_of, next_of};
ghost use Rattle.select_all.specs.Listings.{listing};
ghost use Rattle.client_api.specs.Lists.{page_at};
ghost use Rattle.cached_client.specs.Reads.{IsFound, revision_alone};

use crate::walks::{first, in_question, is_unrestricted, left};
use client_api::{Got, Items, ListNo, Listed, page_before};
use kube_meta::{Key, Memory};
use list_rules::ListAsk;
use obj_tree::Snapshot;
use select_all::Meaning;
use std::alloc::Global;
use std::sync::Arc;

/// The one revision that will do, where the meaning has one.
pub(crate) fn revision_alone(meaning: Meaning) -> Option<u64>
    ensures { result ≡ revision_alone meaning }
{
    match meaning {
        Meaning::Exact(asked) => Some(asked),
        _ => None,
    }
}

/// The object at a key, from the objects of its resource at a revision.
pub(crate) fn found(state: &Snapshot, key: &Key, at: u64) -> Result<Got, ListNo>
    ensures { IsFound state.now key.now at result }
{
    match state.get(key) {
        Some(shown) => Ok(Got {
            row: Arc::try_clone(shown)?,
            at,
        }),
        None => Err(ListNo::Absent { at }),
    }
}

/// The page of the ask, from the objects of its resource at a revision.
pub(crate) fn listed(
    alloc: Global,
    ask: &ListAsk,
    rev: u64,
    state: Snapshot,
) -> Result<Listed, Memory>
    ensures { IfOk result (λ l. l ≡ page_at ask.now rev (behind ask.now.after (listing ask.now.selection state))) }
{
    if has_all(ask, &state) {
        return Ok(Listed {
            rev,
            items: Items::All(state),
            more: None,
        });
    }
    picked(alloc, ask, rev, &state)
}

// Whether the page of the ask is known to have all objects of a state, so that it is the last one.
fn has_all(ask: &ListAsk, state: &Snapshot) -> bool
    ensures { IsTrue result → (rev : ℕ) → page_at ask.now rev (behind ask.now.after (listing ask.now.selection state.now)) ≡ record { rev = rev; rows = state.now; more = None } }
{
    is_of_all(ask) && is_within(ask.limit, state.len())
}

// Whether the ask begins with the first object and has neither a namespace nor a requirement.
fn is_of_all(ask: &ListAsk) -> bool
    ensures { IsTrue result → (rows : List RowData) → behind ask.now.after (listing ask.now.selection rows) ≡ rows }
{
    match (&ask.after, &ask.selection.ns) {
        (None, None) => is_unrestricted(&ask.selection),
        _ => false,
    }
}

// Whether so many objects are within a limit, if there is one.
fn is_within(limit: u64, count: usize) -> bool
    ensures { IsTrue result → (rows : List RowData) → length rows ≡ count → (page_of limit rows ≡ rows) × (next_of limit rows ≡ None) }
{
    limit == 0 || count as u64 <= limit
}

// The page of the ask, whose objects are shared one by one.
fn picked(alloc: Global, ask: &ListAsk, rev: u64, state: &Snapshot) -> Result<Listed, Memory>
    ensures { IfOk result (λ l. l ≡ page_at ask.now rev (behind ask.now.after (listing ask.now.selection state.now))) }
{
    let selection = &ask.selection;
    let mut rows = in_question(state, selection, ask.after.as_ref());
    let items = first(alloc, selection, ask.limit, &mut rows)?;
    let left = left(selection, rows);
    page_before(alloc, ask, rev, items, left)
}
