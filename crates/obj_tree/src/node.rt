//! One node of pages.

ghost use Rattle.std.specs.Prelude.{◌≡◌, ◌≤◌, ◌<◌, ◌+◌, ◌*◌, ◌++◌, ◌∷◌, [], length, take, drop, IfOk, IfSome, OnOk, OnErr, MatchOption, option_map, option_copied};
ghost use Rattle.kube_meta.specs.Rows.{AreRising, key_of as row_key, row_with};
ghost use Rattle.obj_tree.specs.Edges.{edge_text, AreBefore};
ghost use Rattle.obj_tree.specs.Maps.{with_row, without};
ghost use Rattle.obj_tree.specs.Prefixes.{IsPrefix};
ghost use Rattle.obj_tree.specs.Pages.{values_of, joined, begins_by, HoldEach, AreSized, AreFull, IsPaged, ArePagesOf};
ghost use Rattle.obj_tree.specs.Marks.{AreMarks};

use crate::edges::{Edge, spot_of};
use crate::mark::{Mark, copied_marks, marks_of};
use crate::page::Page;
use crate::pages;
use crate::part::Part;
use crate::rows::rows_in;
use crate::search::row_of;
use crate::shared::{copied, share};
use encode_once::{KeyPrefix, Shown, Sought};
use kube_meta::{Key, Memory};
use std::alloc::Global;
use std::cmp::Ordering;
use std::marker::Model;
use std::sync::Arc;

/// The pages from which on a node is divided.
pub(crate) const FULL: usize = 64;
/// The pages of the first of the two nodes then.
pub(crate) const HALF: usize = 32;

/// Some pages that stand next to each other. Seen in contracts as the list of their rows.
#[derive(Drop)]
pub(crate) struct Node {
    // The first row's prefix, by which most nodes are told apart without a look at their pages.
    prefix: KeyPrefix,
    // How many rows there are.
    len: usize,
    pages: Vec<Arc<Page>>,
    // What is kept of each page, by which most of them are passed over without a look. Where there is no memory for
    // it, less or nothing is kept.
    marks: Vec<Mark>,
}

impl Model for Node {
    ghost use Rattle.std.specs.Prelude.{◌≡◌, ◌≤◌, List, length};
    ghost use Rattle.std.below.core.specs.declared.int.usize.TheConstants.{MAX};
    ghost use Rattle.kube_meta.specs.Rows.{RowData};
    ghost use Rattle.obj_tree.specs.Prefixes.{IsPrefix};
    ghost use Rattle.obj_tree.specs.Pages.{values_of, joined, IsPaged};
    ghost use Rattle.obj_tree.specs.Marks.{AreMarks};

    ghost Value = { List RowData };

    ghost view = { λ n. joined (values_of n.pages.items) };

    ghost invariant = { λ n. IsPaged (values_of n.pages.items) × IsPrefix n.prefix (joined (values_of n.pages.items)) × (n.len ≡ length (joined (values_of n.pages.items))) × (n.len ≤ MAX) × AreMarks n.marks.items (values_of n.pages.items) };
}

impl Node {
    // A node of these pages.
    pub(crate) fn of(alloc: Global, pages: Vec<Arc<Page>>) -> Node
        requires paged { IsPaged (values_of pages.items) }
        requires few { length (joined (values_of pages.items)) ≤ usize.MAX }
        ensures { result ≡ joined (values_of pages.items) }
    {
        let len = rows_in(&pages);
        let prefix = prefix_of(&pages);
        let marks = marks_of(alloc, &pages);
        Node {
            prefix,
            len,
            pages,
            marks,
        }
    }

    // A node of these pages, which are shared.
    pub(crate) fn sharing(alloc: Global, pages: &[Arc<Page>]) -> Result<Node, Memory>
        requires paged { IsPaged (values_of pages.now) }
        requires few { length (joined (values_of pages.now)) ≤ usize.MAX }
        ensures { IfOk result (λ node. node ≡ joined (values_of pages.now)) }
    {
        let copies = copied(alloc, pages)?;
        Ok(Node::of(alloc, copies))
    }

    // A node of one row.
    pub(crate) fn one(alloc: Global, shown: Arc<Shown>) -> Result<Node, Memory>
        ensures { IfOk result (λ node. node ≡ shown.value ∷ []) }
    {
        let mut pages = Vec::new(alloc);
        pages::put_first(alloc, &mut pages, shown)?;
        Ok(Node::of(alloc, pages))
    }

    // Another node of the same pages, which are shared.
    pub(crate) fn copied(&self, alloc: Global) -> Result<Node, Memory>
        ensures { IfOk result (λ node. node ≡ self.now) }
    {
        let pages = copied(alloc, &self.pages)?;
        let marks = copied_marks(alloc, &self.marks);
        Ok(Node {
            prefix: self.prefix,
            len: self.len,
            pages,
            marks,
        })
    }

    // The pages, and what is kept of them.
    pub(crate) fn parts(&self) -> (&[Arc<Page>], &[Mark])
        ensures rows { joined (values_of result.0.now) ≡ self.now }
        ensures some { HoldEach 1 (values_of result.0.now) }
        ensures marks { AreMarks result.1.now (values_of result.0.now) }
    {
        (&self.pages, &self.marks)
    }

    // How many pages there are.
    pub(crate) fn count(&self) -> usize
        ensures few { 33 * result ≤ 2 * length self.now + 31 }
        ensures enough { length self.now ≤ 64 * result }
    {
        self.pages.len()
    }

    // The row with a key, if there is one.
    pub(crate) fn get(&self, sought: &Sought<'_>) -> Option<&Arc<Shown>>
        ensures { option_map (λ o. o.value) (option_copied result) ≡ row_with self.now sought.now }
    {
        row_of(&self.pages, sought)
    }

    // Puts a row at its key, and answers the one that stood there.
    pub(crate) fn put(
        &mut self,
        alloc: Global,
        shown: Arc<Shown>,
    ) -> Result<Option<Arc<Shown>>, Memory>
        requires { length self.old < usize.MAX }
        ensures rows { OnOk result (self.new ≡ with_row self.old shown.value) }
        ensures answer { IfOk result (λ old. option_map (λ o. o.value) old ≡ row_with self.old (row_key shown.value)) }
        ensures len { IfOk result (λ old. MatchOption old (length self.new ≡ length self.old + 1) (λ _. length self.new ≡ length self.old)) }
        ensures err { OnErr result (self.new ≡ self.old) }
    {
        let old = pages::put(alloc, &mut self.pages, &mut self.marks, shown)?;
        self.prefix = prefix_of(&self.pages);
        if old.is_none() {
            self.len += 1;
        }
        Ok(old)
    }

    // Removes the row with a key, and answers it, if there is one.
    pub(crate) fn remove(&mut self, alloc: Global, key: &Key) -> Result<Option<Arc<Shown>>, Memory>
        ensures rows { OnOk result (self.new ≡ without self.old key.now) }
        ensures answer { IfOk result (λ old. option_map (λ o. o.value) old ≡ row_with self.old key.now) }
        ensures len { IfOk result (λ old. MatchOption old (length self.new ≡ length self.old) (λ _. length self.new + 1 ≡ length self.old)) }
        ensures err { OnErr result (self.new ≡ self.old) }
    {
        let old = pages::remove(alloc, &mut self.pages, &mut self.marks, key)?;
        self.prefix = prefix_of(&self.pages);
        if old.is_some() {
            self.len -= 1;
        }
        Ok(old)
    }

    // The rows of this node and then those of another, as one node. The pages are shared.
    pub(crate) fn joined(&self, alloc: Global, next: &Node) -> Result<Node, Memory>
        requires rising { AreRising (self.now ++ next.now) }
        requires few { length self.now + length next.now ≤ usize.MAX }
        ensures { IfOk result (λ node. node ≡ self.now ++ next.now) }
    {
        let mut pages = copied(alloc, &self.pages)?;
        append(alloc, &mut pages, &next.pages)?;
        Ok(Node::of(alloc, pages))
    }

    // Two nodes of a full one's rows, `None` where it isn't full. The pages are shared.
    pub(crate) fn halves(&self, alloc: Global) -> Result<Option<(Node, Node)>, Memory>
        ensures rows { IfOk result (λ halves. IfSome halves (λ both. both.0 ++ both.1 ≡ self.now)) }
        ensures front { IfOk result (λ halves. IfSome halves (λ both. 512 ≤ length both.0)) }
        ensures back { IfOk result (λ halves. IfSome halves (λ both. 512 ≤ length both.1)) }
    {
        if self.pages.len() < FULL {
            return Ok(None);
        }
        let (front, back) = self.pages.split_at(HALF);
        let front = Node::sharing(alloc, front)?;
        let back = Node::sharing(alloc, back)?;
        Ok(Some((front, back)))
    }
}

impl Part for Node {
    ghost use Rattle.std.specs.Prelude.{List};
    ghost use Rattle.kube_meta.specs.Rows.{RowData};

    ghost rows = { λ node. node };

    fn len(&self) -> usize {
        self.len
    }

    // The row itself is looked at only where the prefixes are equal.
    fn begins_by(&self, sought: &Sought<'_>) -> bool {
        match self.prefix.order(sought.prefix()) {
            Ordering::Less => true,
            Ordering::Equal => is_first_by(&self.pages, sought),
            Ordering::Greater => self.len == 0,
        }
    }

    fn begins_before(&self, edge: &Edge<'_>) -> bool {
        match self.pages.as_slice().first() {
            Some(page) => page.begins_before(edge),
            None => true,
        }
    }

    fn count_before(&self, edge: &Edge<'_>) -> usize {
        let spot = spot_of(&self.pages, edge);
        let (front, _) = self.pages.split_at(spot.part);
        rows_in(front) + spot.row
    }
}

// Whether the first row of pages isn't above a key.
fn is_first_by(pages: &[Arc<Page>], sought: &Sought<'_>) -> bool
    requires { AreSized (values_of pages.now) }
    ensures { result ≡ begins_by sought.now (joined (values_of pages.now)) }
{
    match pages.first() {
        Some(page) => page.begins_by(sought),
        None => true,
    }
}

// The prefix of the first row of pages.
fn prefix_of(pages: &[Arc<Page>]) -> KeyPrefix
    requires { AreSized (values_of pages.now) }
    ensures { IsPrefix result (joined (values_of pages.now)) }
{
    match pages.first() {
        Some(page) => *page.prefix(),
        None => KeyPrefix::none(),
    }
}

// Puts pages behind others. Two where they meet that hold at most 32 rows together become one.
fn append(alloc: Global, pages: &mut Vec<Arc<Page>>, more: &[Arc<Page>]) -> Result<(), Memory>
    requires sized { AreSized (values_of pages.old.items) }
    requires full { AreFull (values_of pages.old.items) }
    requires more_sized { AreSized (values_of more.now) }
    requires more_full { AreFull (values_of more.now) }
    ensures { OnOk result (ArePagesOf (values_of pages.new.items) (joined (values_of pages.old.items) ++ joined (values_of more.now))) }
{
    let at = pages.len();
    share(pages, more)?;
    if at == 0 {
        return Ok(());
    }
    if at == pages.len() {
        return Ok(());
    }
    if pages::fit(&pages[at - 1], pages[at].len()) {
        let both = pages[at - 1].joined(alloc, &pages[at])?;
        return pages::put_joined(alloc, pages, at - 1, both);
    }
    Ok(())
}
