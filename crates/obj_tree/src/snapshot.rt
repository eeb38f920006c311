//! The objects of a tree at one time.

ghost use Rattle.std.specs.Prelude.{◌≡◌, ◌==◌, length, option_map, option_copied};
ghost use Rattle.kube_meta.specs.Rows.{AreRising, behind, row_with, within};
ghost use Rattle.obj_tree.specs.Pages.{values_of, joined, IsNoded};

use crate::Rows;
use crate::edges::{edge_behind, first_edge, last_edge, spot_of};
use crate::nodes::row_of;
use crate::shared::{Nodes, slice_of};
use encode_once::{Shown, Sought};
use kube_meta::Key;
use std::marker::Model;
use std::sync::Arc;

/// The objects of a tree at one time, which later changes of the tree leave as they are. Seen in
/// contracts as the list of its rows, whose keys rise byte by byte.
#[derive(Drop)]
pub struct Snapshot {
    nodes: Nodes,
    len: usize,
}

impl Model for Snapshot {
    ghost use Rattle.std.specs.Prelude.{◌≡◌, ◌≤◌, List, length};
    ghost use Rattle.std.below.core.specs.declared.int.usize.TheConstants.{MAX};
    ghost use Rattle.kube_meta.specs.Rows.{RowData};
    ghost use Rattle.obj_tree.specs.Pages.{values_of, joined, IsNoded};

    ghost Value = { List RowData };

    ghost view = { λ s. joined (values_of s.nodes.value.items) };

    ghost invariant = { λ s. IsNoded (values_of s.nodes.value.items) × (s.len ≡ length (joined (values_of s.nodes.value.items))) × (s.len ≤ MAX) };
}

impl Snapshot {
    // The rows of nodes, and how many there are.
    pub(crate) fn of(nodes: Nodes, len: usize) -> Snapshot
        requires noded { IsNoded (values_of nodes.value.items) }
        requires count { len ≡ length (joined (values_of nodes.value.items)) }
        ensures { result ≡ joined (values_of nodes.value.items) }
    {
        Snapshot { nodes, len }
    }

    /// The object at a key, if there is one.
    pub fn get(&self, key: &Key) -> Option<&Arc<Shown>>
        ensures { option_map (λ o. o.value) (option_copied result) ≡ row_with self.now key.now }
    {
        row_of(slice_of(&self.nodes), &Sought::new(key))
    }

    /// How many objects there are.
    pub fn len(&self) -> usize
        ensures count { result ≡ length self.now }
        ensures rising { AreRising self.now }
    {
        self.len
    }

    /// Whether there are none.
    pub fn is_empty(&self) -> bool
        ensures { result ≡ (length self.now == 0) }
    {
        self.len == 0
    }

    /// Lends the objects whose keys are above `after`, or all where that is `None`, in the order of their
    /// keys.
    pub fn range(&self, after: Option<&Key>) -> Rows<'_>
        ensures rows { result ≡ behind (option_copied after.entry) self.now }
        ensures rising { AreRising self.now }
    {
        let nodes = slice_of(&self.nodes);
        match after {
            Some(key) => {
                let from = spot_of(nodes, &edge_behind(key));
                Rows::behind(nodes, from)
            }
            None => Rows::from(nodes, 0, self.len),
        }
    }

    /// Lends the objects of one namespace whose keys are above `after`, or all of them where that is `None`,
    /// in the order of their keys. They are found by search: no other object is walked over.
    pub fn within(&self, ns: &str, after: Option<&Key>) -> Rows<'_>
        ensures rows { result ≡ within ns.now (behind (option_copied after.entry) self.now) }
        ensures rising { AreRising self.now }
    {
        let nodes = slice_of(&self.nodes);
        let from = spot_of(nodes, &first_edge(ns, after));
        let to = spot_of(nodes, &last_edge(ns));
        Rows::between(nodes, from, to)
    }
}
