//! Edges among keys, and where they stand among rows.

ghost use Rattle.std.specs.Prelude.{◌≡◌, ◌≤◌, ◌++◌, ◌∷◌, ◌&&◌, suc, [], true, length, take, drop, option_copied};
ghost use Rattle.std.specs.Cmp.Lexicographic.{slice_cmp};
ghost use Rattle.std.specs.List.{list_all};
ghost use Rattle.std.specs.Ordering.{nat_cmp, is_lt};
ghost use Rattle.kube_meta.specs.Keys.{joined as key_text};
ghost use Rattle.kube_meta.specs.Rows.{RowData, AreRising, is_behind};
ghost use Rattle.obj_tree.specs.Edges.{edge_text, is_from, is_after, rows_before, AreBefore, IsSpot};
ghost use Rattle.obj_tree.specs.Maps.{is_below};
ghost use Rattle.obj_tree.specs.Pages.{values_of, parts_of, joined, AreParts};

use crate::page::key_of;
use crate::part::Part;
use encode_once::Shown;
use kube_meta::Key;
use std::sync::Arc;

/// An edge among keys: a text and one more byte, which no key need be.
#[derive(Clone, Copy)]
pub(crate) struct Edge<'a> {
    pub text: &'a str,
    pub next: u8,
}

/// A place between rows: before which row of which part.
#[derive(Clone, Copy)]
pub(crate) struct Spot {
    pub part: usize,
    pub row: usize,
}

/// From which edge on the objects of a namespace stand whose keys are above `after`.
pub(crate) fn first_edge<'a>(ns: &'a str, after: Option<&'a Key>) -> Edge<'a>
    ensures { (row : RowData) → is_from (edge_text result) row ≡ (is_from (key_text ns.now []) row && is_after (option_copied after.entry) row) }
{
    let begin = Edge {
        text: ns,
        next: b'/',
    };
    let Some(key) = after else {
        return begin;
    };
    if is_before(key, &begin) {
        return begin;
    }
    edge_behind(key)
}

/// The edge behind all objects of a namespace.
pub(crate) fn last_edge(ns: &str) -> Edge<'_>
    ensures { edge_text result ≡ ns.now ++ 48 ∷ [] }
{
    // The byte behind the slash.
    Edge {
        text: ns,
        next: b'0',
    }
}

/// The edge right behind a key.
pub(crate) fn edge_behind(key: &Key) -> Edge<'_>
    ensures { (row : RowData) → is_from (edge_text result) row ≡ is_behind key.now row }
{
    Edge {
        text: key.as_str(),
        next: 0,
    }
}

/// Where an edge stands among the rows of parts, by binary search over the parts and in one.
pub(crate) fn spot_of<P: Part>(parts: &[Arc<P>], edge: &Edge<'_>) -> Spot
    requires { AreParts (parts_of P.rows parts.now) }
    ensures spot { IsSpot (parts_of P.rows parts.now) result }
    ensures rows { AreBefore (edge_text edge.now) (joined (parts_of P.rows parts.now)) (rows_before (parts_of P.rows parts.now) result) }
{
    let part = part_at(parts, edge);
    if part == parts.len() {
        return Spot { part, row: 0 };
    }
    let row = parts[part].count_before(edge);
    Spot { part, row }
}

// The last part that begins before an edge, or the first one where none does.
fn part_at<P: Part>(parts: &[Arc<P>], edge: &Edge<'_>) -> usize
    requires { AreParts (parts_of P.rows parts.now) }
    ensures inside { result ≤ length parts.now }
    ensures before { list_all (is_below (edge_text edge.now)) (joined (take result (parts_of P.rows parts.now))) ≡ true }
    ensures after { list_all (is_from (edge_text edge.now)) (joined (drop (suc result) (parts_of P.rows parts.now))) ≡ true }
{
    let mut low = 0;
    let mut high = parts.len();
    while low < high {
        let middle = low + (high - low) / 2;
        if parts[middle].begins_before(edge) {
            low = middle + 1;
        } else {
            high = middle;
        }
    }
    low.saturating_sub(1)
}

/// How many of a page's rows stand before an edge.
pub(crate) fn row_at(rows: &[Arc<Shown>], edge: &Edge<'_>) -> usize
    requires { AreRising (values_of rows.now) }
    ensures { AreBefore (edge_text edge.now) (values_of rows.now) result }
{
    let mut low = 0;
    let mut high = rows.len();
    while low < high {
        let middle = low + (high - low) / 2;
        if is_before(key_of(&rows[middle]), edge) {
            low = middle + 1;
        } else {
            high = middle;
        }
    }
    low
}

/// Whether a key stands before an edge.
pub(crate) fn is_before(key: &Key, edge: &Edge<'_>) -> bool
    ensures { result ≡ is_lt (slice_cmp nat_cmp key.now (edge_text edge.now)) }
{
    let (key, text) = (key.as_str().as_bytes(), edge.text.as_bytes());
    match key.strip_prefix(text) {
        Some(rest) => match rest.first() {
            Some(byte) => *byte < edge.next,
            None => true,
        },
        None => key.cmp(text).is_lt(),
    }
}
