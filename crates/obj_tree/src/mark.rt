//! What a node keeps of each of its pages.

ghost use Rattle.std.specs.Prelude.{◌≡◌, ◌+◌, ◌<◌, ◌≤◌, List, length, drop, IfOk, IsTrue};
ghost use Rattle.kube_meta.specs.Rows.{RowData};
ghost use Rattle.obj_tree.specs.Pages.{values_of};
ghost use Rattle.obj_tree.specs.Marks.{AreMarks, IsFirstMark, IsReplacedAt, Lack};
ghost use Rattle.obj_tree.specs.Words.{AreUnfit};

use crate::page::Page;
use crate::part::Part;
use kube_meta::{Mask, Memory, has_bits};
use std::alloc::Global;
use std::sync::Arc;

/// How many rows a page has, and the bits of each four of the words of their fields. A node has these beside its
/// pointers, so that a page of which no row fits is passed over without a look at it.
#[derive(Clone, Copy, Drop)]
pub(crate) struct Mark {
    pub(crate) len: usize,
    pub(crate) fours: [u64; 16],
}

impl Mark {
    // Whether the bits tell that no row fits a mask.
    fn lacks(&self, mask: Mask) -> bool
        ensures { IsTrue result → Lack self.now.fours mask.fields }
    {
        lack(&self.fours, mask.fields)
    }
}

// Whether no four has each bit of a mask.
fn lack(fours: &[u64; 16], mask: u64) -> bool
    ensures { IsTrue result → Lack fours.now mask }
{
    for word in fours {
        if has_bits(*word, mask) {
            return false;
        }
    }
    true
}

/// How many rows a page has, by its mark, the first one, where there is one: then the page isn't looked at.
pub(crate) fn len_of(page: &Page, marks: &[Mark]) -> usize
    requires { IsFirstMark marks.now page.now }
    ensures { result ≡ length page.now }
{
    match marks.first() {
        Some(mark) => mark.len,
        None => page.len(),
    }
}

/// How many rows of a page from a place on are known not to fit a mask: all that are left, where its mark, the first
/// one, tells so, and else those of which their words do.
pub(crate) fn unfit_of(page: &Page, marks: &[Mark], from: usize, mask: Mask) -> usize
    requires from { from < length page.now }
    requires marks { IsFirstMark marks.now page.now }
    ensures unfit { AreUnfit mask (drop from page.now) result }
    ensures fits { from + result ≤ usize.MAX }
{
    match marks.split_first() {
        Some((mark, _)) if mark.lacks(mask) => mark.len - from,
        _ => page.unfit(from, mask),
    }
}

/// The marks behind the first one.
pub(crate) fn behind(marks: &[Mark]) -> &[Mark]
    ensures { result.now ≡ drop 1 marks.now }
{
    match marks.split_first() {
        Some((_, rest)) => rest,
        None => marks,
    }
}

/// The marks of pages. There are none where there is no memory for them.
pub(crate) fn marks_of(alloc: Global, pages: &[Arc<Page>]) -> Vec<Mark>
    ensures { AreMarks result.items (values_of pages.now) }
{
    match all_marks(alloc, pages) {
        Ok(marks) => marks,
        Err(Memory) => Vec::new(alloc),
    }
}

/// The same marks once more, or none where there is no memory for them.
pub(crate) fn copied_marks(alloc: Global, marks: &[Mark]) -> Vec<Mark>
    ensures { (pages : List (List RowData)) → AreMarks marks.now pages → AreMarks result.items pages }
{
    match Vec::from_slice(alloc, marks) {
        Ok(copies) => copies,
        Err(_) => Vec::new(alloc),
    }
}

fn all_marks(alloc: Global, pages: &[Arc<Page>]) -> Result<Vec<Mark>, Memory>
    ensures { IfOk result (λ marks. AreMarks marks.items (values_of pages.now)) }
{
    let mut marks = Vec::with_capacity(alloc, pages.len())?;
    for page in pages {
        marks.push(page.mark())?;
    }
    Ok(marks)
}

/// Brings the marks of pages up to what these are now. There were so many, and where there are no fewer now, only the
/// one at a place is replaced, by one or by several.
pub(crate) fn follow(
    alloc: Global,
    marks: &mut Vec<Mark>,
    pages: &[Arc<Page>],
    at: usize,
    count: usize,
)
    requires inside { at < count }
    requires old { (old : List (List RowData)) × (length old ≡ count) × AreMarks marks.old.items old × (count ≤ length pages.now → IsReplacedAt old at (values_of pages.now)) }
    ensures { AreMarks marks.new.items (values_of pages.now) }
{
    if pages.len() == count && at < marks.len() {
        marks[at] = pages[at].mark();
        return;
    }
    if count < pages.len() && pages.len() - count == 1 && at < marks.len() {
        return follow_divided(marks, pages, at);
    }
    *marks = marks_of(alloc, pages);
}

// The same where the page at the place is two.
fn follow_divided(marks: &mut Vec<Mark>, pages: &[Arc<Page>], at: usize)
    requires inside { at < length marks.old.items }
    requires old { (old : List (List RowData)) × (length old + 1 ≡ length pages.now) × (at < length old) × AreMarks marks.old.items old × IsReplacedAt old at (values_of pages.now) }
    ensures { AreMarks marks.new.items (values_of pages.now) }
{
    marks[at] = pages[at].mark();
    match marks.insert(at + 1, pages[at + 1].mark()) {
        Ok(()) => {}
        Err(_) => marks.truncate(at + 1),
    }
}
