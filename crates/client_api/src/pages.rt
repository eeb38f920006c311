//! What every client of a log makes in one way: the page of a list, from the rows of its selection, and the refusal of
//! a revision that isn't reached.

ghost use Rattle.std.specs.Prelude.{◌≡◌, List, length, map, IfOk};
ghost use Rattle.kube_meta.specs.Rows.{RowData, key_of};
ghost use Rattle.list_rules.specs.Pages.{page_of, left_of};
ghost use Rattle.client_api.specs.Lists.{IsCut, more_of, page_at};
ghost use Rattle.client_api.specs.Refusals.{refusal_above};

use crate::answers::{ListNo, Listed};
use crate::items::Items;
use encode_once::Shown;
use json_obj::More;
use kube_meta::{Key, Memory};
use list_rules::{ListAsk, remaining, token};
use select_all::Meaning;
use std::alloc::Global;
use std::sync::Arc;

/// The refusal of a meaning that names a revision above `current`, which a load of this call gave.
pub fn too_large(meaning: Meaning, current: u64) -> Option<ListNo>
    ensures { result ≡ refusal_above meaning current }
{
    match meaning {
        Meaning::NotOlder(asked) | Meaning::Exact(asked) if asked > current => {
            Some(ListNo::TooLarge { asked, current })
        }
        _ => None,
    }
}

/// The page of the ask at the revision `rev`, from all rows that the selection has there behind the ask's key, in the
/// order of their keys.
#[tactic(auto, using(crate::proofs::PageLemmas::cut_off))]
pub fn page(alloc: Global, ask: &ListAsk, rev: u64, rows: Vec<Arc<Shown>>) -> Result<Listed, Memory>
    ensures { IfOk result (λ listed. listed ≡ page_at ask.now rev (map (λ shown. shown.value) rows.items)) }
{
    let left = left(ask.limit, rows.len());
    let items = first(rows, ask.limit);
    page_before(alloc, ask, rev, items, left)
}

/// The page of the ask at the revision `rev`, of which these are the rows, and so many are left behind it: their number
/// where that is told, and else one that is 0 exactly where none are left.
pub fn page_before(
    alloc: Global,
    ask: &ListAsk,
    rev: u64,
    rows: Vec<Arc<Shown>>,
    left: u64,
) -> Result<Listed, Memory>
    ensures { IfOk result (λ listed. (all : List RowData) → IsCut ask.now all (map (λ shown. shown.value) rows.items) left
        → listed ≡ page_at ask.now rev all) }
{
    let more = more(alloc, ask, rev, rows.as_slice(), left)?;
    Ok(Listed {
        rev,
        items: Items::Picked(rows),
        more,
    })
}

// How many of so many rows are left behind the page.
#[tactic(auto, using(crate::proofs::PageLemmas::left_unlimited, crate::proofs::PageLemmas::left_limited))]
fn left(limit: u64, count: usize) -> u64
    ensures { (rows : List RowData) → length rows ≡ count → result ≡ left_of limit rows }
{
    if limit == 0 {
        return 0;
    }
    (count as u64).saturating_sub(limit)
}

// The first rows, or all where there is no limit.
#[tactic(auto, using(crate::proofs::PageLemmas::page_all, crate::proofs::PageLemmas::page_some))]
fn first(rows: Vec<Arc<Shown>>, limit: u64) -> Vec<Arc<Shown>>
    ensures { map (λ shown. shown.value) result.items ≡ page_of limit (map (λ shown. shown.value) rows.items) }
{
    let mut rows = rows;
    if limit > 0 {
        rows.truncate(limit as usize);
    }
    rows
}

// Where the next page begins, if rows are left.
#[tactic(auto, using(crate::proofs::PageLemmas::more_none, crate::proofs::PageLemmas::more_empty))]
fn more(
    alloc: Global,
    ask: &ListAsk,
    rev: u64,
    rows: &[Arc<Shown>],
    left: u64,
) -> Result<Option<More>, Memory>
    ensures { IfOk result (λ more. (all : List RowData) → IsCut ask.now all (map (λ shown. shown.value) rows.now) left
        → more ≡ more_of ask.now rev all) }
{
    match rows.last() {
        Some(last) if left > 0 => Ok(Some(More {
            token: token(alloc, ask, rev, key(last))?,
            left: remaining(&ask.selection, left),
        })),
        _ => Ok(None),
    }
}

// The key of a row.
fn key(shown: &Arc<Shown>) -> &Key
    ensures { result.now ≡ key_of shown.now.value }
{
    &shown.row().obj.key
}
