//! Pages in the order of their keys.

ghost use Rattle.std.specs.Prelude.{◌≡◌, ◌↔◌, ◌+◌, ◌≤◌, ◌<◌, ◌++◌, ◌∷◌, [], None, not, nat_lt, length, take, drop, slice_index_or, IfOk, OnOk, OnErr, MatchOption, IsTrue, option_map};
ghost use Rattle.kube_meta.specs.Rows.{RowData, key_of as row_key, row_with};
ghost use Rattle.obj_tree.specs.Maps.{with_row, without};
ghost use Rattle.obj_tree.specs.Marks.{AreMarks, IsReplacedAt};
ghost use Rattle.obj_tree.specs.Pages.{values_of, joined, page_at, replaced, row_put, divided, row_gone, AreSized, AreFull, IsPaged, ArePagesOf, FitsBefore, FitsAfter};

use crate::mark::{Mark, follow, marks_of};
use crate::page::Page;
use crate::part::Part;
use crate::search::find;
use encode_once::{Shown, Sought};
use kube_meta::{Key, Memory};
use std::alloc::Global;
use std::sync::Arc;

/// Puts a row at its key, and answers the one that stood there. `marks` is what is kept of the pages.
pub(crate) fn put(
    alloc: Global,
    pages: &mut Vec<Arc<Page>>,
    marks: &mut Vec<Mark>,
    shown: Arc<Shown>,
) -> Result<Option<Arc<Shown>>, Memory>
    requires paged { IsPaged (values_of pages.old.items) }
    requires marks { AreMarks marks.old.items (values_of pages.old.items) }
    ensures rows { OnOk result (joined (values_of pages.new.items) ≡ with_row (joined (values_of pages.old.items)) shown.value) }
    ensures answer { IfOk result (λ old. option_map (λ o. o.value) old ≡ row_with (joined (values_of pages.old.items)) (row_key shown.value)) }
    ensures len { IfOk result (λ old. MatchOption old (length (joined (values_of pages.new.items)) ≡ length (joined (values_of pages.old.items)) + 1) (λ _. length (joined (values_of pages.new.items)) ≡ length (joined (values_of pages.old.items)))) }
    ensures paged { IsPaged (values_of pages.new.items) }
    ensures marks { AreMarks marks.new.items (values_of pages.new.items) }
    ensures err { OnErr result (values_of pages.new.items ≡ values_of pages.old.items) }
{
    let Some(place) = find(pages, &shown.sought()) else {
        put_first(alloc, pages, shown)?;
        *marks = marks_of(alloc, pages);
        return Ok(None);
    };
    match place.row {
        Ok(row) => {
            let old = shared_row(pages, place.page, row)?;
            put_marked(alloc, pages, marks, place.page, row, row + 1, shown)?;
            Ok(Some(old))
        }
        Err(row) => {
            put_marked(alloc, pages, marks, place.page, row, row, shown)?;
            Ok(None)
        }
    }
}

/// Removes the row with a key, and answers it, if there is one. `marks` is what is kept of the pages.
pub(crate) fn remove(
    alloc: Global,
    pages: &mut Vec<Arc<Page>>,
    marks: &mut Vec<Mark>,
    key: &Key,
) -> Result<Option<Arc<Shown>>, Memory>
    requires paged { IsPaged (values_of pages.old.items) }
    requires marks { AreMarks marks.old.items (values_of pages.old.items) }
    ensures rows { OnOk result (joined (values_of pages.new.items) ≡ without (joined (values_of pages.old.items)) key.now) }
    ensures answer { IfOk result (λ old. option_map (λ o. o.value) old ≡ row_with (joined (values_of pages.old.items)) key.now) }
    ensures len { IfOk result (λ old. MatchOption old (length (joined (values_of pages.new.items)) ≡ length (joined (values_of pages.old.items))) (λ _. length (joined (values_of pages.new.items)) + 1 ≡ length (joined (values_of pages.old.items)))) }
    ensures paged { IsPaged (values_of pages.new.items) }
    ensures marks { AreMarks marks.new.items (values_of pages.new.items) }
    ensures err { OnErr result (values_of pages.new.items ≡ values_of pages.old.items) }
{
    let Some(place) = find(pages, &Sought::new(key)) else {
        return Ok(None);
    };
    let Ok(row) = place.row else {
        return Ok(None);
    };
    let old = shared_row(pages, place.page, row)?;
    remove_marked(alloc, pages, marks, place.page, row)?;
    Ok(Some(old))
}

// The row at a place of a page, shared.
fn shared_row(pages: &[Arc<Page>], at: usize, place: usize) -> Result<Arc<Shown>, Memory>
    requires inside { at < length pages.now }
    requires place { place < length (page_at (values_of pages.now) at) }
    ensures { IfOk result (λ shown. (d : RowData) → shown.value ≡ slice_index_or (page_at (values_of pages.now) at) place d) }
{
    Ok(Arc::try_clone(&pages[at].rows()[place])?)
}

/// The first page, of one row.
pub(crate) fn put_first(
    alloc: Global,
    pages: &mut Vec<Arc<Page>>,
    shown: Arc<Shown>,
) -> Result<(), Memory>
    requires { values_of pages.old.items ≡ [] }
    ensures ok { OnOk result (values_of pages.new.items ≡ (shown.value ∷ []) ∷ []) }
    ensures err { OnErr result (values_of pages.new.items ≡ values_of pages.old.items) }
{
    let page = Arc::new(alloc, Page::one(alloc, shown)?)?;
    pages.push(page)?;
    Ok(())
}

// As `put_row`, with what is kept of the pages.
fn put_marked(
    alloc: Global,
    pages: &mut Vec<Arc<Page>>,
    marks: &mut Vec<Mark>,
    at: usize,
    from: usize,
    to: usize,
    shown: Arc<Shown>,
) -> Result<(), Memory>
    requires inside { at < length pages.old.items }
    requires order { from ≤ to }
    requires near { to ≤ from + 1 }
    requires place { to ≤ length (page_at (values_of pages.old.items) at) }
    requires sized { AreSized (values_of pages.old.items) }
    requires marks { AreMarks marks.old.items (values_of pages.old.items) }
    ensures ok { OnOk result (values_of pages.new.items ≡ replaced (values_of pages.old.items) at (at + 1) (divided (row_put (page_at (values_of pages.old.items) at) from to shown.value))) }
    ensures err { OnErr result (values_of pages.new.items ≡ values_of pages.old.items) }
    ensures marks { AreMarks marks.new.items (values_of pages.new.items) }
{
    let count = pages.len();
    put_row(alloc, pages, at, from, to, shown)?;
    follow(alloc, marks, pages, at, count);
    Ok(())
}

// Puts a row into a page in place of those from one place up to another. A page of 65 rows is split.
fn put_row(
    alloc: Global,
    pages: &mut Vec<Arc<Page>>,
    at: usize,
    from: usize,
    to: usize,
    shown: Arc<Shown>,
) -> Result<(), Memory>
    requires inside { at < length pages.old.items }
    requires order { from ≤ to }
    requires near { to ≤ from + 1 }
    requires place { to ≤ length (page_at (values_of pages.old.items) at) }
    requires sized { AreSized (values_of pages.old.items) }
    ensures ok { OnOk result (values_of pages.new.items ≡ replaced (values_of pages.old.items) at (at + 1) (divided (row_put (page_at (values_of pages.old.items) at) from to shown.value))) }
    ensures err { OnErr result (values_of pages.new.items ≡ values_of pages.old.items) }
{
    if has_room(pages, at, from, to) {
        put_in(alloc, &mut pages[at], from, to, shown)?;
        return Ok(());
    }
    put_full(alloc, pages, at, from, shown)
}

// Whether a page holds at most 64 rows with one in place of those from one place up to another.
fn has_room(pages: &[Arc<Page>], at: usize, from: usize, to: usize) -> bool
    requires inside { at < length pages.now }
    requires order { from ≤ to }
    requires place { to ≤ length (page_at (values_of pages.now) at) }
    ensures { (row : RowData) → result ≡ not (nat_lt 64 (length (row_put (page_at (values_of pages.now) at) from to row))) }
{
    pages[at].len() - (to - from) < 64
}

// Puts a row into a page: where nobody shares the page there, and else into a copy.
fn put_in(
    alloc: Global,
    page: &mut Arc<Page>,
    from: usize,
    to: usize,
    shown: Arc<Shown>,
) -> Result<(), Memory>
    requires order { from ≤ to }
    requires near { to ≤ from + 1 }
    requires place { to ≤ length page.old.value }
    ensures ok { OnOk result (page.new.value ≡ row_put page.old.value from to shown.value) }
    ensures err { OnErr result (page.new.value ≡ page.old.value) }
{
    match Arc::get_mut(page) {
        Some(own) => own.put(from, to, shown),
        None => {
            let mut copy = page.copied(alloc)?;
            copy.put(from, to, shown)?;
            *page = Arc::new(alloc, copy)?;
            Ok(())
        }
    }
}

// As `remove_row`, with what is kept of the pages.
fn remove_marked(
    alloc: Global,
    pages: &mut Vec<Arc<Page>>,
    marks: &mut Vec<Mark>,
    at: usize,
    place: usize,
) -> Result<(), Memory>
    requires inside { at < length pages.old.items }
    requires place { place < length (page_at (values_of pages.old.items) at) }
    requires sized { AreSized (values_of pages.old.items) }
    requires full { AreFull (values_of pages.old.items) }
    requires marks { AreMarks marks.old.items (values_of pages.old.items) }
    ensures ok { OnOk result (ArePagesOf (values_of pages.new.items) (joined (replaced (values_of pages.old.items) at (at + 1) (row_gone (page_at (values_of pages.old.items) at) place ∷ [])))) }
    ensures err { OnErr result (values_of pages.new.items ≡ values_of pages.old.items) }
    ensures marks { AreMarks marks.new.items (values_of pages.new.items) }
{
    let count = pages.len();
    remove_row(alloc, pages, at, place)?;
    follow(alloc, marks, pages, at, count);
    Ok(())
}

// Removes a row from a page. A page that is left empty goes.
fn remove_row(
    alloc: Global,
    pages: &mut Vec<Arc<Page>>,
    at: usize,
    place: usize,
) -> Result<(), Memory>
    requires inside { at < length pages.old.items }
    requires place { place < length (page_at (values_of pages.old.items) at) }
    requires sized { AreSized (values_of pages.old.items) }
    requires full { AreFull (values_of pages.old.items) }
    ensures ok { OnOk result (ArePagesOf (values_of pages.new.items) (joined (replaced (values_of pages.old.items) at (at + 1) (row_gone (page_at (values_of pages.old.items) at) place ∷ [])))) }
    ensures err { OnErr result (values_of pages.new.items ≡ values_of pages.old.items) }
    ensures near { OnOk result (length pages.old.items ≤ length pages.new.items → IsReplacedAt (values_of pages.old.items) at (values_of pages.new.items)) }
{
    let left = pages[at].len() - 1;
    if left == 0 {
        drop_page(pages, at);
        return Ok(());
    }
    if stays(pages, at, left) {
        remove_in(alloc, &mut pages[at], place)?;
        return Ok(());
    }
    let mut page = pages[at].copied(alloc)?;
    page.remove(place);
    put_smaller(alloc, pages, at, page)
}

// Removes a row from a page: where nobody shares the page there, and else in a copy.
fn remove_in(alloc: Global, page: &mut Arc<Page>, place: usize) -> Result<(), Memory>
    requires { place < length page.old.value }
    ensures ok { OnOk result (page.new.value ≡ row_gone page.old.value place) }
    ensures err { OnErr result (page.new.value ≡ page.old.value) }
{
    match Arc::get_mut(page) {
        Some(own) => {
            own.remove(place);
            Ok(())
        }
        None => {
            let mut copy = page.copied(alloc)?;
            copy.remove(place);
            *page = Arc::new(alloc, copy)?;
            Ok(())
        }
    }
}

// Whether a page of so many rows at a place stays apart from its neighbours.
fn stays(pages: &[Arc<Page>], at: usize, left: usize) -> bool
    requires { at < length pages.now }
    ensures before { IsTrue result → FitsBefore (values_of pages.now) at left → ⊥ }
    ensures after { IsTrue result → FitsAfter (values_of pages.now) at left → ⊥ }
{
    if fits_before(pages, at, left) {
        return false;
    }
    !fits_after(pages, at, left)
}

// Puts a page in place of one that held one row more. If it holds at most 32 rows together with a
// neighbour, the two become one.
fn put_smaller(
    alloc: Global,
    pages: &mut Vec<Arc<Page>>,
    at: usize,
    page: Page,
) -> Result<(), Memory>
    requires inside { at < length pages.old.items }
    requires some { 0 < length page }
    requires smaller { length page + 1 ≡ length (page_at (values_of pages.old.items) at) }
    requires sized { AreSized (values_of pages.old.items) }
    requires full { AreFull (values_of pages.old.items) }
    ensures ok { OnOk result (ArePagesOf (values_of pages.new.items) (joined (replaced (values_of pages.old.items) at (at + 1) (page ∷ [])))) }
    ensures err { OnErr result (values_of pages.new.items ≡ values_of pages.old.items) }
    ensures near { OnOk result (length pages.old.items ≤ length pages.new.items → IsReplacedAt (values_of pages.old.items) at (values_of pages.new.items)) }
{
    if fits_before(pages, at, page.len()) {
        let both = pages[at - 1].joined(alloc, &page)?;
        put_joined(alloc, pages, at - 1, both)?;
        return Ok(());
    }
    if fits_after(pages, at, page.len()) {
        let both = page.joined(alloc, &pages[at + 1])?;
        put_joined(alloc, pages, at, both)?;
        return Ok(());
    }
    put_page(alloc, pages, at, page)?;
    Ok(())
}

// Whether a page of so many rows holds at most 32 together with the one before a place.
fn fits_before(pages: &[Arc<Page>], at: usize, rows: usize) -> bool
    requires { at < length pages.now }
    ensures { IsTrue result ↔ FitsBefore (values_of pages.now) at rows }
{
    at > 0 && fit(&pages[at - 1], rows)
}

// Whether it does so with the one after the place.
fn fits_after(pages: &[Arc<Page>], at: usize, rows: usize) -> bool
    requires { at < length pages.now }
    ensures { IsTrue result ↔ FitsAfter (values_of pages.now) at rows }
{
    at + 1 < pages.len() && fit(&pages[at + 1], rows)
}

/// Whether a page holds at most 32 rows together with so many.
pub(crate) fn fit(page: &Page, rows: usize) -> bool
    ensures { IsTrue result ↔ (length page.now + rows ≤ 32) }
{
    page.len() <= 32 && rows <= 32 - page.len()
}

fn put_page(alloc: Global, pages: &mut Vec<Arc<Page>>, at: usize, page: Page) -> Result<(), Memory>
    requires { at < length pages.old.items }
    ensures ok { OnOk result (values_of pages.new.items ≡ replaced (values_of pages.old.items) at (at + 1) (page ∷ [])) }
    ensures err { OnErr result (values_of pages.new.items ≡ values_of pages.old.items) }
{
    let page = Arc::new(alloc, page)?;
    pages[at] = page;
    Ok(())
}

// Puts a row into a full page, which becomes two.
fn put_full(
    alloc: Global,
    pages: &mut Vec<Arc<Page>>,
    at: usize,
    place: usize,
    shown: Arc<Shown>,
) -> Result<(), Memory>
    requires inside { at < length pages.old.items }
    requires place { place ≤ length (page_at (values_of pages.old.items) at) }
    requires long { 32 ≤ length (page_at (values_of pages.old.items) at) }
    ensures ok { OnOk result (values_of pages.new.items ≡ replaced (values_of pages.old.items) at (at + 1) (take 32 (row_put (page_at (values_of pages.old.items) at) place place shown.value) ∷ drop 32 (row_put (page_at (values_of pages.old.items) at) place place shown.value) ∷ [])) }
    ensures err { OnErr result (values_of pages.new.items ≡ values_of pages.old.items) }
{
    let next = Arc::new(alloc, Page::none(alloc))?;
    pages.insert(at + 1, next)?;
    match divide_in(alloc, &mut pages[at], place, shown) {
        Ok(back) => {
            pages[at + 1] = back;
            Ok(())
        }
        Err(refused) => {
            pages.remove(at + 1);
            Err(refused)
        }
    }
}

// Puts a row into a page and answers a page of the rows from the 33rd on: where nobody shares the page there,
// and else in a copy.
fn divide_in(
    alloc: Global,
    page: &mut Arc<Page>,
    place: usize,
    shown: Arc<Shown>,
) -> Result<Arc<Page>, Memory>
    requires place { place ≤ length page.old.value }
    requires long { 32 ≤ length page.old.value }
    ensures ok { OnOk result (page.new.value ≡ take 32 (row_put page.old.value place place shown.value)) }
    ensures back { IfOk result (λ back. back.value ≡ drop 32 (row_put page.old.value place place shown.value)) }
    ensures err { OnErr result (page.new.value ≡ page.old.value) }
{
    match Arc::get_mut(page) {
        Some(own) => own.divide(alloc, place, shown),
        None => {
            let mut copy = page.copied(alloc)?;
            let back = copy.divide(alloc, place, shown)?;
            *page = Arc::new(alloc, copy)?;
            Ok(back)
        }
    }
}

/// One page in place of two.
pub(crate) fn put_joined(
    alloc: Global,
    pages: &mut Vec<Arc<Page>>,
    at: usize,
    page: Page,
) -> Result<(), Memory>
    requires { at + 1 < length pages.old.items }
    ensures ok { OnOk result (values_of pages.new.items ≡ replaced (values_of pages.old.items) at (at + 2) (page ∷ [])) }
    ensures err { OnErr result (values_of pages.new.items ≡ values_of pages.old.items) }
{
    let page = Arc::new(alloc, page)?;
    pages.remove(at + 1);
    pages[at] = page;
    Ok(())
}

fn drop_page(pages: &mut Vec<Arc<Page>>, at: usize)
    requires { at < length pages.old.items }
    ensures { values_of pages.new.items ≡ replaced (values_of pages.old.items) at (at + 1) [] }
{
    pages.remove(at);
}
