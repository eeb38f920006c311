//! One page of rows.

ghost use Rattle.std.specs.Prelude.{◌≡◌, ◌++◌, ◌∷◌, [], ◌≤◌, ◌<◌, ◌+◌, length, take, drop, IfOk, OnOk, OnErr};
ghost use Rattle.kube_meta.specs.Rows.{key_of as row_key};
ghost use Rattle.obj_tree.specs.Prefixes.{IsPrefix};
ghost use Rattle.obj_tree.specs.Pages.{values_of, begins_by, row_put, row_gone};
ghost use Rattle.obj_tree.specs.Marks.{IsMark};
ghost use Rattle.obj_tree.specs.Words.{labels_of, fields_of, AreUnfit};

use crate::column::{Column, fields_of, labels_of, put_words};
use crate::edges::{Edge, is_before, row_at};
use crate::mark::Mark;
use crate::part::Part;
use encode_once::{KeyPrefix, Shown, Sought};
use kube_meta::{Key, Mask, Memory};
use std::alloc::Global;
use std::cmp::Ordering;
use std::marker::Model;
use std::sync::Arc;

/// Some rows that stand next to each other. Seen in contracts as their list.
#[derive(Drop)]
pub(crate) struct Page {
    // The first row's prefix, by which most pages are told apart without a look at their rows.
    prefix: KeyPrefix,
    rows: Vec<Arc<Shown>>,
    // The words of each row, by which most rows that a selection doesn't have are passed over without a look at them.
    fields: Column,
    labels: Column,
}

impl Model for Page {
    ghost use Rattle.std.specs.Prelude.{◌≡◌, List};
    ghost use Rattle.kube_meta.specs.Rows.{RowData};
    ghost use Rattle.obj_tree.specs.Prefixes.{IsPrefix};
    ghost use Rattle.obj_tree.specs.Pages.{values_of};
    ghost use Rattle.obj_tree.specs.Words.{labels_of, fields_of};

    ghost Value = { List RowData };

    ghost view = { λ p. values_of p.rows.items };

    ghost invariant = { λ p. IsPrefix p.prefix (values_of p.rows.items) × (p.fields ≡ fields_of p.rows.items) × (p.labels ≡ labels_of p.rows.items) };
}

impl Page {
    // The rows.
    pub(crate) fn rows(&self) -> &[Arc<Shown>]
        ensures { values_of result.now ≡ self.now }
    {
        &self.rows
    }

    // The first row's prefix.
    pub(crate) fn prefix(&self) -> &KeyPrefix
        ensures { IsPrefix result.now self.now }
    {
        &self.prefix
    }

    // What a node keeps of the page.
    pub(crate) fn mark(&self) -> Mark
        ensures { IsMark result self.now }
    {
        Mark {
            len: self.rows.len(),
            fours: *self.fields.fours(),
        }
    }

    // A page of one row.
    pub(crate) fn one(alloc: Global, shown: Arc<Shown>) -> Result<Page, Memory>
        ensures { IfOk result (λ page. page ≡ shown.value ∷ []) }
    {
        let mut rows = Vec::new(alloc);
        rows.push(shown)?;
        let page = Page::of(alloc, rows)?;
        Ok(page)
    }

    // How many rows from a place on are known by their words not to fit a mask. The rows aren't looked at.
    pub(crate) fn unfit(&self, from: usize, mask: Mask) -> usize
        requires { from ≤ length self.now }
        ensures unfit { AreUnfit mask (drop from self.now) result }
        ensures fits { from + result ≤ usize.MAX }
    {
        let middle = self.fields.first_with(from, mask.fields);
        let at = self.labels.first_with(middle, mask.labels);
        at - from
    }

    // Puts a row in place of those from a place up to another: of one, or of none.
    pub(crate) fn put(&mut self, from: usize, to: usize, shown: Arc<Shown>) -> Result<(), Memory>
        requires order { from ≤ to }
        requires near { to ≤ from + 1 }
        requires place { to ≤ length self.old }
        ensures ok { OnOk result (self.new ≡ row_put self.old from to shown.value) }
        ensures err { OnErr result (self.new ≡ self.old) }
    {
        if from == to {
            return self.insert(from, shown);
        }
        self.replace(from, shown);
        Ok(())
    }

    // Puts a row at a place, before those that stand there.
    pub(crate) fn insert(&mut self, place: usize, shown: Arc<Shown>) -> Result<(), Memory>
        requires { place ≤ length self.old }
        ensures ok { OnOk result (self.new ≡ row_put self.old place place shown.value) }
        ensures err { OnErr result (self.new ≡ self.old) }
    {
        // Room comes first, so that the row can't be refused once its words are put.
        self.rows.reserve(1)?;
        put_words(&mut self.fields, &mut self.labels, place, &shown)?;
        let _ = self.rows.insert(place, shown);
        if place == 0 {
            self.prefix = prefix_of(&self.rows);
        }
        Ok(())
    }

    // Puts a row in place of the one at a place.
    pub(crate) fn replace(&mut self, place: usize, shown: Arc<Shown>)
        requires { place < length self.old }
        ensures { self.new ≡ row_put self.old place (place + 1) shown.value }
    {
        self.fields.replace(place, shown.fields());
        self.labels.replace(place, shown.labels());
        self.rows[place] = shown;
        if place == 0 {
            self.prefix = prefix_of(&self.rows);
        }
    }

    // Removes the row at a place.
    pub(crate) fn remove(&mut self, place: usize)
        requires { place < length self.old }
        ensures { self.new ≡ row_gone self.old place }
    {
        self.fields.remove(place);
        self.labels.remove(place);
        self.rows.remove(place);
        if place == 0 {
            self.prefix = prefix_of(&self.rows);
        }
    }

    // A page of these rows.
    pub(crate) fn of(alloc: Global, rows: Vec<Arc<Shown>>) -> Result<Page, Memory>
        ensures { IfOk result (λ page. page ≡ values_of rows.items) }
    {
        let fields = fields_of(alloc, &rows)?;
        let labels = labels_of(alloc, &rows)?;
        Ok(Page::made(rows, fields, labels))
    }

    // A page of no rows.
    pub(crate) fn none(alloc: Global) -> Page
        ensures { result ≡ [] }
    {
        let rows = Vec::new(alloc);
        let fields = Column::of(Vec::new(alloc));
        let labels = Column::of(Vec::new(alloc));
        Page::made(rows, fields, labels)
    }

    // A page of rows and their words.
    fn made(rows: Vec<Arc<Shown>>, fields: Column, labels: Column) -> Page
        requires fields { fields ≡ fields_of rows.items }
        requires labels { labels ≡ labels_of rows.items }
        ensures { result ≡ values_of rows.items }
    {
        let prefix = prefix_of(&rows);
        Page {
            prefix,
            rows,
            fields,
            labels,
        }
    }

    // Another page of the same rows, which are shared, with room for one more. Their words are copied: a look at each
    // row would take longer than all else.
    pub(crate) fn copied(&self, alloc: Global) -> Result<Page, Memory>
        ensures { IfOk result (λ page. page ≡ self.now) }
    {
        let mut rows = Vec::with_capacity(alloc, self.rows.len() + 1)?;
        share(&mut rows, &self.rows)?;
        let fields = self.fields.copied(alloc)?;
        let labels = self.labels.copied(alloc)?;
        Ok(Page {
            prefix: self.prefix,
            rows,
            fields,
            labels,
        })
    }

    // The rows of this page and then those of another, as one page.
    pub(crate) fn joined(&self, alloc: Global, next: &Page) -> Result<Page, Memory>
        ensures { IfOk result (λ page. page ≡ self.now ++ next.now) }
    {
        let mut rows = Vec::with_capacity(alloc, self.rows.len().saturating_add(next.rows.len()))?;
        share(&mut rows, &self.rows)?;
        share(&mut rows, &next.rows)?;
        Page::of(alloc, rows)
    }

    // Puts a row at a place, and moves the rows from the 33rd on into a page of their own.
    pub(crate) fn divide(
        &mut self,
        alloc: Global,
        place: usize,
        shown: Arc<Shown>,
    ) -> Result<Arc<Page>, Memory>
        requires place { place ≤ length self.old }
        requires long { 32 ≤ length self.old }
        ensures ok { OnOk result (self.new ≡ take 32 (row_put self.old place place shown.value)) }
        ensures back { IfOk result (λ back. back.value ≡ drop 32 (row_put self.old place place shown.value)) }
        ensures err { OnErr result (self.new ≡ self.old) }
    {
        self.insert(place, shown)?;
        match self.cut_back(alloc) {
            Ok(back) => Ok(back),
            Err(refused) => {
                self.remove(place);
                Err(refused)
            }
        }
    }

    // Moves the rows from the 33rd on into a page of their own.
    pub(crate) fn cut_back(&mut self, alloc: Global) -> Result<Arc<Page>, Memory>
        requires { 32 ≤ length self.old }
        ensures ok { OnOk result (self.new ≡ take 32 self.old) }
        ensures back { IfOk result (λ back. back.value ≡ drop 32 self.old) }
        ensures err { OnErr result (self.new ≡ self.old) }
    {
        let mut back = Arc::new(alloc, Page::none(alloc))?;
        let Some(room) = Arc::get_mut(&mut back) else {
            return Err(Memory);
        };
        let (_, later) = self.rows.split_at(32);
        let fields = fields_of(alloc, later)?;
        let labels = labels_of(alloc, later)?;
        let rows = self.rows.split_off(32)?;
        self.rows.shrink_to_fit();
        self.fields.cut(32);
        self.labels.cut(32);
        *room = Page::made(rows, fields, labels);
        Ok(back)
    }
}

impl Part for Page {
    ghost use Rattle.std.specs.Prelude.{List};
    ghost use Rattle.kube_meta.specs.Rows.{RowData};

    ghost rows = { λ page. page };

    fn len(&self) -> usize {
        self.rows.len()
    }

    // The row itself is looked at only where the prefixes are equal.
    fn begins_by(&self, sought: &Sought<'_>) -> bool {
        match self.prefix.order(sought.prefix()) {
            Ordering::Less => true,
            Ordering::Equal => is_first_by(&self.rows, sought),
            Ordering::Greater => self.rows.as_slice().is_empty(),
        }
    }

    fn begins_before(&self, edge: &Edge<'_>) -> bool {
        match self.rows().first() {
            Some(shown) => is_before(key_of(shown), edge),
            None => true,
        }
    }

    fn count_before(&self, edge: &Edge<'_>) -> usize {
        row_at(self.rows(), edge)
    }
}

/// The key of a shared object.
pub(crate) fn key_of(shown: &Shown) -> &Key
    ensures { result.now ≡ row_key shown.now }
{
    &shown.row().obj.key
}

// Whether the first of rows isn't above a key.
fn is_first_by(rows: &[Arc<Shown>], sought: &Sought<'_>) -> bool
    ensures { result ≡ begins_by sought.now (values_of rows.now) }
{
    match rows.first() {
        Some(shown) => !shown.key_order(sought).is_gt(),
        None => true,
    }
}

// The first row's prefix.
fn prefix_of(rows: &[Arc<Shown>]) -> KeyPrefix
    ensures { IsPrefix result (values_of rows.now) }
{
    match rows.first() {
        Some(shown) => *shown.prefix(),
        None => KeyPrefix::none(),
    }
}

// Puts shared rows behind others.
fn share(rows: &mut Vec<Arc<Shown>>, more: &[Arc<Shown>]) -> Result<(), Memory>
    ensures { OnOk result (values_of rows.new.items ≡ values_of rows.old.items ++ values_of more.now) }
{
    for shown in more {
        rows.push(Arc::try_clone(shown)?)?;
    }
    Ok(())
}
