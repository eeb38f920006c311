//! Over the rows that a selection has in a state, no further than is asked for.

ghost use Rattle.std.specs.Prelude.{◌≡◌, ◌↔◌, [], ◌∷◌, length, map, option_copied, IfOk, MatchOption};
ghost use Rattle.kube_meta.specs.Rows.{behind};
ghost use Rattle.select_all.specs.Listings.{listing};
ghost use Rattle.select_all.specs.Masks.{IsMaskOf};
ghost use Rattle.select_all.specs.Selecting.{selects};
ghost use Rattle.list_rules.specs.Pages.{page_of, left_of, remaining_of, is_unrestricted};
ghost use Rattle.cached_client.specs.Walks.{AreWithin};

use encode_once::Shown;
use kube_meta::{Key, Mask, Memory};
use obj_tree::{Rows, Snapshot};
use select_all::Selection;
use std::alloc::Global;
use std::sync::Arc;

// The rows behind a key that the selection may have: those of its namespace, where it has one.
#[tactic(auto, using(crate::proofs::WalkLemmas::listing_within, crate::proofs::WalkLemmas::within_one, crate::proofs::WalkLemmas::within_all))]
pub(crate) fn in_question<'a>(
    state: &'a Snapshot,
    selection: &Selection,
    after: Option<&Key>,
) -> Rows<'a>
    ensures rows { listing selection.now result ≡ listing selection.now (behind (option_copied after.entry) state.now) }
    ensures within { AreWithin selection.now result }
{
    match &selection.ns {
        Some(ns) => state.within(ns.as_str(), after),
        None => state.range(after),
    }
}

// The first `limit` selected ones of the rows, shared, or all where that is 0. The rows are those behind them then.
pub(crate) fn first(
    alloc: Global,
    selection: &Selection,
    limit: u64,
    rows: &mut Rows<'_>,
) -> Result<Vec<Arc<Shown>>, Memory>
    ensures first { IfOk result (λ kept. map (λ shown. shown.value) kept.items ≡ page_of limit (listing selection.now rows.old)) }
    ensures left { IfOk result (λ _. length (listing selection.now rows.new) ≡ left_of limit (listing selection.now rows.old)) }
    ensures within { AreWithin selection.now rows.old → AreWithin selection.now rows.new }
{
    let mask = selection.mask();
    let mut kept = Vec::new(alloc);
    while let Some(shown) = next_selected(selection, mask, rows) {
        kept.push(Arc::try_clone(shown)?)?;
        if kept.len() as u64 == limit {
            return Ok(kept);
        }
    }
    Ok(kept)
}

// How many of the rows are selected, where that is told, and else whether any is: 0 exactly where none is.
pub(crate) fn left(selection: &Selection, rows: Rows<'_>) -> u64
    requires { AreWithin selection.now rows }
    ensures none { (result ≡ 0) ↔ (length (listing selection.now rows.entry) ≡ 0) }
    ensures told { remaining_of selection.now result ≡ remaining_of selection.now (length (listing selection.now rows.entry)) }
{
    if is_unrestricted(selection) {
        return rows.len() as u64;
    }
    let mask = selection.mask();
    let mut rows = rows;
    match next_selected(selection, mask, &mut rows) {
        Some(_) => 1,
        None => 0,
    }
}

// Whether neither selector has a requirement.
pub(crate) fn is_unrestricted(selection: &Selection) -> bool
    ensures { result ≡ is_unrestricted selection.now }
{
    selection.labels.is_empty() && selection.fields.is_empty()
}

// The next selected one of the rows, which are those behind it then. No object is looked at whose words lack a bit
// of the mask.
fn next_selected<'a>(
    selection: &Selection,
    mask: Mask,
    rows: &mut Rows<'a>,
) -> Option<&'a Arc<Shown>>
    requires { IsMaskOf selection.now mask }
    ensures next { MatchOption result ((listing selection.now rows.old ≡ []) × (listing selection.now rows.new ≡ []))
        (λ shown. listing selection.now rows.old ≡ shown.now.value ∷ listing selection.now rows.new) }
    ensures within { AreWithin selection.now rows.old → AreWithin selection.now rows.new }
{
    while let Some(shown) = rows.next_with(mask) {
        if is_selected(selection, shown) {
            return Some(shown);
        }
    }
    None
}

// Whether the selection has the object.
fn is_selected(selection: &Selection, shown: &Arc<Shown>) -> bool
    ensures { result ≡ selects selection.now shown.now.value.obj }
{
    selection.selects(&shown.row().obj)
}
