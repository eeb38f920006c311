//! Which rows may be a list.

ghost use Rattle.std.specs.Prelude.{◌↔◌, ◌≤◌, All, IsTrue};
ghost use Rattle.kube_meta.specs.Rows.{AreRising};
ghost use Rattle.select_all.specs.Selecting.{selects};
ghost use Rattle.body_check.specs.Turns.{MayStand};

use kube_meta::Row;
use select_all::Selection;

/// Whether rows may be a list of the selection at a revision: their keys rise, each is selected, and none is younger.
pub fn may_stand(selection: &Selection, rows: &[Row], at: u64) -> bool
    ensures { IsTrue result ↔ MayStand selection.now at rows.now }
{
    if !are_rising(rows) {
        return false;
    }
    are_selected(selection, rows) && are_within(rows, at)
}

// Whether the keys of rows rise.
fn are_rising(rows: &[Row]) -> bool
    ensures { IsTrue result ↔ AreRising rows.now }
{
    rows.is_sorted_by(|a, b| a.obj.key < b.obj.key)
}

// Whether all rows are selected.
fn are_selected(selection: &Selection, rows: &[Row]) -> bool
    ensures { IsTrue result ↔ All (λ row. IsTrue (selects selection.now row.obj)) rows.now }
{
    rows.iter().all(|row| selection.selects(&row.obj))
}

// Whether no row is younger than a revision.
fn are_within(rows: &[Row], at: u64) -> bool
    ensures { IsTrue result ↔ All (λ row. row.rev ≤ at) rows.now }
{
    rows.iter().all(|row| row.rev <= at)
}
