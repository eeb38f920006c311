//! Rows that are lent one after the other.

ghost use Rattle.std.specs.Prelude.{◌≡◌, ◌-◌, ◌≤◌, ◌==◌, ◌∷◌, ◌++◌, [], length, take, drop, MatchOption};
ghost use Rattle.std.specs.Iterator.{YieldsFirstBy, item_count};
ghost use Rattle.obj_tree.specs.Edges.{rows_before, IsSpot};
ghost use Rattle.obj_tree.specs.Pages.{values_of, parts_of, joined, page_at, HoldEach, IsWithin};
ghost use Rattle.obj_tree.specs.Marks.{AreMarks};
ghost use Rattle.obj_tree.specs.Words.{from_fit, Passes};

use crate::edges::Spot;
use crate::mark::{Mark, behind, len_of, unfit_of};
use crate::node::Node;
use crate::page::Page;
use crate::part::Part;
use encode_once::Shown;
use kube_meta::Mask;
use std::marker::Model;
use std::sync::Arc;

/// Objects in the order of their keys, lent one after the other. Seen in contracts as the list of the
/// rows that are still to come.
#[derive(Drop)]
pub struct Rows<'a> {
    // Of a node, the page that is lent from and those behind it.
    pages: &'a [Arc<Page>],
    // What the node keeps of these pages.
    marks: &'a [Mark],
    // The nodes behind that one.
    nodes: &'a [Arc<Node>],
    place: usize,
    // How many are still to come.
    left: usize,
}

impl<'a> Model for Rows<'a> {
    ghost use Rattle.std.specs.Prelude.{◌≤◌, ◌++◌, List, length, take, drop};
    ghost use Rattle.kube_meta.specs.Rows.{RowData};
    ghost use Rattle.obj_tree.specs.Pages.{values_of, joined, HoldEach, IsWithin};
    ghost use Rattle.obj_tree.specs.Marks.{AreMarks};

    ghost Value = { List RowData };

    ghost view = { λ r. take r.left (drop r.place (joined (values_of r.pages.now ++ values_of r.nodes.now))) };

    ghost invariant = { λ r. HoldEach 1 (values_of r.pages.now) × HoldEach 1 (values_of r.nodes.now) × IsWithin r.place (values_of r.pages.now) (values_of r.nodes.now) × (r.left ≤ length (drop r.place (joined (values_of r.pages.now ++ values_of r.nodes.now)))) × AreMarks r.marks.now (values_of r.pages.now) };
}

impl<'a> Rows<'a> {
    // So many rows of nodes, from a place in the first one on.
    pub(crate) fn from(nodes: &'a [Arc<Node>], place: usize, left: usize) -> Rows<'a>
        requires some { HoldEach 1 (values_of nodes.now) }
        requires place { place ≤ length (page_at (values_of nodes.now) 0) }
        requires left { left ≤ length (drop place (joined (values_of nodes.now))) }
        ensures { result ≡ take left (drop place (joined (values_of nodes.now))) }
    {
        match nodes.split_first() {
            Some((node, rest)) => {
                let (pages, marks) = node.parts();
                lent(pages, marks, rest, place, left)
            }
            None => lent(&[], &[], nodes, place, left),
        }
    }

    // All rows of nodes from a place on.
    pub(crate) fn behind(nodes: &'a [Arc<Node>], from: Spot) -> Rows<'a>
        requires some { HoldEach 1 (values_of nodes.now) }
        requires from { IsSpot (values_of nodes.now) from }
        requires few { length (joined (values_of nodes.now)) ≤ usize.MAX }
        ensures { result ≡ drop (rows_before (values_of nodes.now) from) (joined (values_of nodes.now)) }
    {
        let (_, rest) = nodes.split_at(from.part);
        Rows::from(rest, from.row, rows_in(rest) - from.row)
    }

    // The rows of nodes from one place up to another.
    pub(crate) fn between(nodes: &'a [Arc<Node>], from: Spot, to: Spot) -> Rows<'a>
        requires some { HoldEach 1 (values_of nodes.now) }
        requires from { IsSpot (values_of nodes.now) from }
        requires to { IsSpot (values_of nodes.now) to }
        requires few { length (joined (values_of nodes.now)) ≤ usize.MAX }
        ensures { result ≡ take (rows_before (values_of nodes.now) to - rows_before (values_of nodes.now) from) (drop (rows_before (values_of nodes.now) from) (joined (values_of nodes.now))) }
    {
        if to.part < from.part {
            return Rows::from(nodes, 0, 0);
        }
        let (_, rest) = nodes.split_at(from.part);
        let (front, _) = rest.split_at(to.part - from.part);
        let left = (rows_in(front) + to.row).saturating_sub(from.row);
        Rows::from(rest, from.row, left)
    }

    /// The next object whose words have the bits of a mask, and then those behind it are to come. Those before it
    /// are passed over by their words alone, which lie together.
    pub fn next_with(&mut self, mask: Mask) -> Option<&'a Arc<Shown>>
        ensures { MatchOption result ((from_fit mask self.old ≡ []) × (self.new ≡ [])) (λ shown. from_fit mask self.old ≡ shown.now.value ∷ self.new) }
    {
        while let Some(rest) = self.passed(mask) {
            *self = rest;
        }
        let (shown, rest) = self.first()?;
        *self = rest;
        Some(shown)
    }

    // The rows without some of the next ones that don't fit a mask; `None` where the next one does, or none is.
    fn passed(&self, mask: Mask) -> Option<Rows<'a>>
        ensures { MatchOption result (from_fit mask self.now ≡ self.now) (λ rest. Passes mask self.now rest) }
    {
        passed(
            self.pages, self.marks, self.nodes, self.place, self.left, mask,
        )
    }

    // The next row and those behind it, if there is one.
    fn first(&self) -> Option<(&'a Arc<Shown>, Rows<'a>)>
        ensures { MatchOption result (self.now ≡ []) (λ first. self.now ≡ first.0.now.value ∷ first.1) }
    {
        taken(self.pages, self.marks, self.nodes, self.place, self.left)
    }

    /// How many objects are still to come.
    pub fn len(&self) -> usize
        ensures { result ≡ length self.now }
    {
        self.left
    }

    /// Whether none is still to come.
    pub fn is_empty(&self) -> bool
        ensures { result ≡ (length self.now == 0) }
    {
        self.left == 0
    }
}

impl<'a> Iterator for Rows<'a> {
    type Item = &'a Arc<Shown>;

    ghost next_gives = { YieldsFirstBy (λ x. x.now.value) (λ s. s) };

    ghost remaining = { item_count (λ s. s) };

    fn next(&mut self) -> Option<&'a Arc<Shown>> {
        let (shown, rest) = taken(self.pages, self.marks, self.nodes, self.place, self.left)?;
        *self = rest;
        Some(shown)
    }
}

// So many rows of pages and of the nodes behind them, from a place among the pages' rows on.
fn lent<'a>(
    pages: &'a [Arc<Page>],
    marks: &'a [Mark],
    nodes: &'a [Arc<Node>],
    place: usize,
    left: usize,
) -> Rows<'a>
    requires marks { AreMarks marks.now (values_of pages.now) }
    requires some { HoldEach 1 (values_of pages.now) }
    requires behind { HoldEach 1 (values_of nodes.now) }
    requires place { place ≤ length (joined (values_of pages.now)) }
    requires left { left ≤ length (drop place (joined (values_of pages.now ++ values_of nodes.now))) }
    ensures { result ≡ take left (drop place (joined (values_of pages.now ++ values_of nodes.now))) }
{
    let mut pages = pages;
    let mut marks = marks;
    let mut place = place;
    while let Some((page, rest)) = pages.split_first() {
        let len = len_of(page, marks);
        if place < len {
            return Rows {
                pages,
                marks,
                nodes,
                place,
                left,
            };
        }
        place -= len;
        pages = rest;
        marks = behind(marks);
    }
    opened(pages, nodes, left)
}

// So many rows of nodes.
fn opened<'a>(none: &'a [Arc<Page>], nodes: &'a [Arc<Node>], left: usize) -> Rows<'a>
    requires none { values_of none.now ≡ [] }
    requires some { HoldEach 1 (values_of nodes.now) }
    requires left { left ≤ length (joined (values_of nodes.now)) }
    ensures { result ≡ take left (joined (values_of nodes.now)) }
{
    match nodes.split_first() {
        Some((node, rest)) => {
            let (pages, marks) = node.parts();
            Rows {
                pages,
                marks,
                nodes: rest,
                place: 0,
                left,
            }
        }
        None => Rows {
            pages: none,
            marks: &[],
            nodes,
            place: 0,
            left,
        },
    }
}

// The row at a place in the first page, and those after it; `None` where no more are to come.
fn taken<'a>(
    pages: &'a [Arc<Page>],
    marks: &'a [Mark],
    nodes: &'a [Arc<Node>],
    place: usize,
    left: usize,
) -> Option<(&'a Arc<Shown>, Rows<'a>)>
    requires marks { AreMarks marks.now (values_of pages.now) }
    requires some { HoldEach 1 (values_of pages.now) }
    requires behind { HoldEach 1 (values_of nodes.now) }
    requires place { IsWithin place (values_of pages.now) (values_of nodes.now) }
    requires left { left ≤ length (drop place (joined (values_of pages.now ++ values_of nodes.now))) }
    ensures { MatchOption result (take left (drop place (joined (values_of pages.now ++ values_of nodes.now))) ≡ []) (λ first. take left (drop place (joined (values_of pages.now ++ values_of nodes.now))) ≡ first.0.now.value ∷ first.1) }
{
    let left = left.checked_sub(1)?;
    let (page, _) = pages.split_first()?;
    let shown = &page.rows()[place];
    Some((shown, lent(pages, marks, nodes, place + 1, left)))
}

// The rows without some of those of the first page that don't fit a mask.
fn passed<'a>(
    pages: &'a [Arc<Page>],
    marks: &'a [Mark],
    nodes: &'a [Arc<Node>],
    place: usize,
    left: usize,
    mask: Mask,
) -> Option<Rows<'a>>
    requires marks { AreMarks marks.now (values_of pages.now) }
    requires some { HoldEach 1 (values_of pages.now) }
    requires behind { HoldEach 1 (values_of nodes.now) }
    requires place { IsWithin place (values_of pages.now) (values_of nodes.now) }
    requires left { left ≤ length (drop place (joined (values_of pages.now ++ values_of nodes.now))) }
    ensures { MatchOption result (from_fit mask (take left (drop place (joined (values_of pages.now ++ values_of nodes.now)))) ≡ take left (drop place (joined (values_of pages.now ++ values_of nodes.now))))
        (λ rest. Passes mask (take left (drop place (joined (values_of pages.now ++ values_of nodes.now)))) rest) }
{
    let (page, _) = pages.split_first()?;
    let unfit = unfit_of(page, marks, place, mask);
    let over = unfit.min(left);
    if over == 0 {
        return None;
    }
    Some(lent(pages, marks, nodes, place + over, left - over))
}

/// How many rows parts hold.
pub(crate) fn rows_in<P: Part>(parts: &[Arc<P>]) -> usize
    requires { length (joined (parts_of P.rows parts.now)) ≤ usize.MAX }
    ensures { result ≡ length (joined (parts_of P.rows parts.now)) }
{
    let mut count = 0;
    for part in parts {
        count += part.len();
    }
    count
}
