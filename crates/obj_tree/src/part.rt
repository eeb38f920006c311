//! Rows that stand next to each other, whatever holds them.

ghost use Rattle.std.specs.Prelude.{◌≡◌, List, length};
ghost use Rattle.kube_meta.specs.Rows.{RowData, AreRising};
ghost use Rattle.obj_tree.specs.Edges.{edge_text, begins_below, AreBefore};
ghost use Rattle.obj_tree.specs.Pages.{begins_by};

use crate::edges::Edge;
use encode_once::Sought;

/// Some rows that stand next to each other: a page, or a node of pages.
pub(crate) trait Part {
    // the rows
    ghost rows: { Self → List RowData };

    /// How many rows there are.
    fn len(&self) -> usize
        ensures { result ≡ length (rows self.now) };

    /// Whether the first row isn't above a key.
    fn begins_by(&self, sought: &Sought<'_>) -> bool
        ensures { result ≡ begins_by sought.now (rows self.now) };

    /// Whether the first row stands before an edge.
    fn begins_before(&self, edge: &Edge<'_>) -> bool
        ensures { result ≡ begins_below (edge_text edge.now) (rows self.now) };

    /// How many rows stand before an edge.
    fn count_before(&self, edge: &Edge<'_>) -> usize
        requires { AreRising (rows self.now) }
        ensures { AreBefore (edge_text edge.now) (rows self.now) result };
}
