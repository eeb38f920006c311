//! Lists.

ghost use Rattle.std.specs.Prelude.{◌≡◌, ◌↔◌, ℕ, List, All, IsTrue, Some, MatchResult};
ghost use Rattle.edge_io.specs.Sent.{sent_through};
ghost use Rattle.edge_io.specs.Told.{prepended};
ghost use Rattle.kube_meta.specs.Rows.{AreRising};
ghost use Rattle.cluster_link.specs.Counting.{CountsSource};
ghost use Rattle.cluster_link.specs.Lists.{AnswersList, AreListed, IsClusterList, IsGathered, IsOfAll, IsTestedRow};

use crate::ClusterNo;
use crate::finding::Finding;
use crate::pages::{Gathered, read_pages};
use edge_io::{Sink, Source};
use kube_meta::Row;
use select_all::Selection;
use std::alloc::Global;
use std::marker::Model;

/// All objects of a resource of a cluster, or those of a namespace, at a revision. Contracts see them.
#[derive(Debug, Drop)]
pub struct ClusterList {
    selection: Selection,
    rows: Vec<Row>,
    at: u64,
}

impl Model for ClusterList {
    ghost use Rattle.cluster_link.specs.Lists.{ListData, IsClusterList};

    ghost Value = { ListData };

    ghost view = { λ l. record { selection = l.selection; rows = l.rows.items; at = l.at } };

    ghost invariant = { λ l. IsClusterList (record { selection = l.selection; rows = l.rows.items; at = l.at }) };
}

// Whether the keys of rows rise.
fn are_rising(rows: &[Row]) -> bool
    ensures { IsTrue result ↔ AreRising rows.now }
{
    rows.is_sorted_by(|a, b| a.obj.key < b.obj.key)
}

// Whether a row is selected, and isn't younger than a revision.
fn is_row_of(selection: &Selection, at: u64, row: &Row) -> bool
    ensures { IsTrue result ↔ IsTestedRow selection.now at row.now }
{
    row.rev <= at && selection.selects(&row.obj)
}

// Whether all rows are.
fn are_rows_of(selection: &Selection, at: u64, rows: &[Row]) -> bool
    ensures { IsTrue result ↔ All (IsTestedRow selection.now at) rows.now }
{
    rows.iter().all(|row| is_row_of(selection, at, row))
}

// Whether a list at a revision may have these rows.
fn are_listed(selection: &Selection, at: u64, rows: &[Row]) -> bool
    ensures { IsTrue result ↔ AreListed selection.now at rows.now }
{
    if !are_rising(rows) {
        return false;
    }
    are_rows_of(selection, at, rows)
}

// The list of the pages that were gathered, if they are one.
fn list_of(selection: Selection, gathered: Gathered) -> Result<ClusterList, ClusterNo>
    requires { IsOfAll selection }
    ensures { MatchResult result
        (λ list. (list.selection ≡ selection) × (list.rows ≡ gathered.rows) × (gathered.at ≡ Some list.at))
        (λ why. (why ≡ ClusterNo.BadLine) × ¬ (IsGathered selection gathered)) }
{
    let (rows, at) = gathered.into_parts();
    let Some(at) = at else {
        return Err(ClusterNo::BadLine);
    };
    if !are_listed(&selection, at, &rows) {
        return Err(ClusterNo::BadLine);
    }
    Ok(ClusterList {
        selection,
        rows,
        at,
    })
}

impl ClusterList {
    /// Asks a cluster for all objects of a resource, or those of a namespace, page by page, over a new connection.
    /// Where a page isn't one, what is found in it is noted.
    pub fn read<S: Source, K: Sink>(
        alloc: Global,
        selection: Selection,
        source: &mut S,
        sink: &mut K,
        finding: &mut Option<Finding>,
    ) -> Result<ClusterList, ClusterNo>
        requires { IsOfAll selection }
        ensures reads { (taken : List ℕ) × (S.left source.old ≡ prepended taken (S.left source.new))
            × AnswersList selection taken (S.left source.new) (sent_through K.written K.settled K.faults sink.old sink.new) result }
        ensures counted { CountsSource result (S.faults source.old) (S.faults source.new) }
    {
        let mut gathered = Gathered::new(alloc);
        match read_pages(alloc, &selection, &mut gathered, source, sink, finding) {
            Ok(()) => list_of(selection, gathered),
            Err(why) => Err(why),
        }
    }

    /// The revision at which the rows stand.
    pub fn at(&self) -> u64
        ensures answer { result ≡ self.now.at }
        ensures lawful { IsClusterList self.now }
    {
        self.at
    }

    /// Its rows, in the order of their keys.
    pub(crate) fn rows(&self) -> &[Row]
        ensures { result.now ≡ self.now.rows }
    {
        &self.rows
    }

    /// Whose they are.
    pub(crate) fn selection(&self) -> &Selection
        ensures answer { result.now ≡ self.now.selection }
        ensures lawful { IsClusterList self.now }
    {
        &self.selection
    }
}
