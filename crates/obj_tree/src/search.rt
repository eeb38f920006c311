//! Places among pages, by binary search.

ghost use Rattle.std.specs.Prelude.{◌≡◌, ◌≤◌, ◌<◌, [], true, suc, length, take, drop, MatchOption, IfOk, IfErr, option_map, option_copied};
ghost use Rattle.std.specs.List.{list_all};
ghost use Rattle.kube_meta.specs.Rows.{AreRising, row_with, is_behind};
ghost use Rattle.obj_tree.specs.Maps.{is_below};
ghost use Rattle.obj_tree.specs.Pages.{values_of, parts_of, joined, AreParts, IsPaged, IsPageFor, IsRowAt, IsGapAt};
ghost use Rattle.obj_tree.specs.Places.{IsPlace};

use crate::page::Page;
use crate::part::Part;
use encode_once::{Shown, Sought};
use std::cmp::Ordering;
use std::sync::Arc;

// Of how many rows one is looked at first.
const STEP: usize = 8;

/// Where a key stands among pages: in which one, and where its row is in it, or would go.
#[derive(Clone, Copy)]
pub(crate) struct Place {
    pub page: usize,
    pub row: Result<usize, usize>,
}

/// The row with a key, if there is one.
pub(crate) fn row_of<'a>(pages: &'a [Arc<Page>], sought: &Sought<'_>) -> Option<&'a Arc<Shown>>
    requires { IsPaged (values_of pages.now) }
    ensures { option_map (λ o. o.value) (option_copied result) ≡ row_with (joined (values_of pages.now)) sought.now }
{
    let place = find(pages, sought)?;
    match place.row {
        Ok(row) => Some(&pages[place.page].rows()[row]),
        Err(_) => None,
    }
}

/// Where a key stands or would stand, by binary search over the pages and in one; `None` where there is
/// no page.
pub(crate) fn find(pages: &[Arc<Page>], sought: &Sought<'_>) -> Option<Place>
    requires { IsPaged (values_of pages.now) }
    ensures { MatchOption result (values_of pages.now ≡ []) (IsPlace (values_of pages.now) sought.now) }
{
    let page = part_for(pages, sought)?;
    let row = place_in(pages[page].rows(), sought);
    Some(Place { page, row })
}

/// The part in which a key stands or would stand, by long steps and then shorter ones; `None` where there is
/// no part.
pub(crate) fn part_for<P: Part>(parts: &[Arc<P>], sought: &Sought<'_>) -> Option<usize>
    requires { AreParts (parts_of P.rows parts.now) }
    ensures { MatchOption result (parts_of P.rows parts.now ≡ []) (IsPageFor (parts_of P.rows parts.now) sought.now) }
{
    if parts.is_empty() {
        return None;
    }
    let at = last_begun(parts, sought, 0, 512);
    let at = last_begun(parts, sought, at, 64);
    let at = last_begun(parts, sought, at, 8);
    Some(last_begun(parts, sought, at, 1))
}

// Goes on by steps while the part there doesn't begin above a key.
fn last_begun<P: Part>(parts: &[Arc<P>], sought: &Sought<'_>, from: usize, step: usize) -> usize
    requires parted { AreParts (parts_of P.rows parts.now) }
    requires inside { from < length parts.now }
    requires before { list_all (is_below sought.now) (joined (take from (parts_of P.rows parts.now))) ≡ true }
    requires some { 0 < step }
    ensures inside { result < length parts.now }
    ensures before { list_all (is_below sought.now) (joined (take result (parts_of P.rows parts.now))) ≡ true }
    ensures after { step ≡ 1 → list_all (is_behind sought.now) (joined (drop (suc result) (parts_of P.rows parts.now))) ≡ true }
{
    let mut at = from;
    while step < parts.len() - at && parts[at + step].begins_by(sought) {
        at += step;
    }
    at
}

// Where the row with a key is, or where it would go. Rows are looked at in steps and then one by one: such
// looks don't wait for one another, as those of a binary search do.
fn place_in(rows: &[Arc<Shown>], sought: &Sought<'_>) -> Result<usize, usize>
    requires { AreRising (values_of rows.now) }
    ensures found { IfOk result (IsRowAt (values_of rows.now) sought.now) }
    ensures absent { IfErr result (IsGapAt (values_of rows.now) sought.now) }
{
    let mut at = passed(rows, sought);
    while at < rows.len() {
        match rows[at].key_order(sought) {
            Ordering::Less => at += 1,
            Ordering::Equal => return Ok(at),
            Ordering::Greater => return Err(at),
        }
    }
    Err(at)
}

// A place before which all rows are below a key: one of each eighth row's, and the last such.
fn passed(rows: &[Arc<Shown>], sought: &Sought<'_>) -> usize
    requires { AreRising (values_of rows.now) }
    ensures inside { result ≤ length rows.now }
    ensures below { list_all (is_below sought.now) (take result (values_of rows.now)) ≡ true }
{
    let mut at = 0;
    while rows.len() - at >= STEP && rows[at + (STEP - 1)].key_order(sought).is_lt() {
        at += STEP;
    }
    at
}
