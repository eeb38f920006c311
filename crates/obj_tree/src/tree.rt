//! The tree of a resource's current objects.

ghost use Rattle.std.specs.Prelude.{◌≡◌, ◌+◌, ◌*◌, ◌/◌, ◌≤◌, ◌==◌, [], None, length, IfOk, OnOk, OnErr, option_map, option_copied};
ghost use Rattle.kube_meta.specs.Rows.{key_of, row_with, AreRising};
ghost use Rattle.obj_tree.specs.Maps.{with_row, without};
ghost use Rattle.obj_tree.specs.Pages.{values_of};

use crate::filled::filled;
use crate::nodes;
use crate::nodes::{pages_in, row_of};
use crate::shared::{Nodes, slice_of};
use crate::snapshot::Snapshot;
use encode_once::{Shown, Sought};
use kube_meta::{Key, Memory};
use std::alloc::Global;
use std::marker::Model;
use std::sync::Arc;

/// The current objects of one resource: a finite map from keys to objects, each with the revision at
/// which it was written. Seen in contracts as the list of its rows, whose keys rise byte by byte. It is
/// held in pages of 1 to 64 rows, and these in nodes of about as many pages. In a node any two pages that are
/// neighbours hold more than 32 rows together, and a node that isn't alone holds 512 at least. A change takes
/// place in the page itself and its node, or in copies where another tree or a snapshot shares them.
#[derive(Drop)]
pub struct Tree {
    alloc: Global,
    nodes: Nodes,
    len: usize,
}

impl Model for Tree {
    ghost use Rattle.std.specs.Prelude.{◌≡◌, ◌≤◌, List, length};
    ghost use Rattle.std.below.core.specs.declared.int.usize.TheConstants.{MAX};
    ghost use Rattle.kube_meta.specs.Rows.{RowData};
    ghost use Rattle.obj_tree.specs.Pages.{values_of, joined, IsNoded};

    ghost Value = { List RowData };

    ghost view = { λ t. joined (values_of t.nodes.value.items) };

    ghost invariant = { λ t. IsNoded (values_of t.nodes.value.items) × (t.len ≡ length (joined (values_of t.nodes.value.items))) × (t.len ≤ MAX) };
}

impl Tree {
    /// No objects.
    pub fn new(alloc: Global) -> Result<Tree, Memory>
        ensures { IfOk result (λ tree. tree ≡ []) }
    {
        Ok(Tree {
            alloc,
            nodes: Arc::new(alloc, Vec::new(alloc))?,
            len: 0,
        })
    }

    /// The tree of objects whose keys rise, in one pass over them.
    pub fn of_rows(alloc: Global, rows: Vec<Arc<Shown>>) -> Result<Tree, Memory>
        requires { AreRising (values_of rows.items) }
        ensures { IfOk result (λ tree. tree ≡ values_of rows.items) }
    {
        let len = rows.len();
        let nodes = Arc::new(alloc, filled(alloc, rows)?)?;
        Ok(Tree { alloc, nodes, len })
    }

    /// Puts an object at its key, and answers the one that stood there. A tree of 2^64 - 1 objects, which no
    /// memory holds, takes no more: that too is want of memory.
    pub fn put(&mut self, shown: Arc<Shown>) -> Result<Option<Arc<Shown>>, Memory>
        ensures rows { OnOk result (self.new ≡ with_row self.old shown.value) }
        ensures answer { IfOk result (λ old. option_map (λ o. o.value) old ≡ row_with self.old (key_of shown.value)) }
        ensures err { OnErr result (self.new ≡ self.old) }
    {
        let Some(more) = self.len.checked_add(1) else {
            return Err(Memory);
        };
        let old = nodes::put(self.alloc, &mut self.nodes, shown)?;
        if old.is_none() {
            self.len = more;
        }
        Ok(old)
    }

    /// Removes the object at a key, and answers it, if there was one. Where there was none nothing is
    /// changed, and no memory is taken.
    pub fn remove(&mut self, key: &Key) -> Result<Option<Arc<Shown>>, Memory>
        ensures rows { OnOk result (self.new ≡ without self.old key.now) }
        ensures answer { IfOk result (λ old. option_map (λ o. o.value) old ≡ row_with self.old key.now) }
        ensures absent { row_with self.old key.now ≡ None → (result ≡ Ok None) × (self.new ≡ self.old) }
        ensures err { OnErr result (self.new ≡ self.old) }
    {
        let old = nodes::remove(self.alloc, &mut self.nodes, key)?;
        if old.is_some() {
            self.len -= 1;
        }
        Ok(old)
    }

    /// The object at a key, if there is one.
    pub fn get(&self, key: &Key) -> Option<&Arc<Shown>>
        ensures { option_map (λ o. o.value) (option_copied result) ≡ row_with self.now key.now }
    {
        row_of(slice_of(&self.nodes), &Sought::new(key))
    }

    /// How many objects there are.
    pub fn len(&self) -> usize
        ensures count { result ≡ length self.now }
        ensures rising { AreRising self.now }
    {
        self.len
    }

    /// Whether there are none.
    pub fn is_empty(&self) -> bool
        ensures { result ≡ (length self.now == 0) }
    {
        self.len == 0
    }

    /// How many pages hold the objects.
    pub fn pages(&self) -> usize
        ensures few { result ≤ length self.now / 16 + 1 }
        ensures enough { length self.now ≤ 64 * result }
    {
        pages_in(slice_of(&self.nodes))
    }

    /// Another tree of the same objects. The nodes are shared, and changes of one don't show in the other.
    pub fn copy(&self) -> Result<Tree, Memory>
        ensures { IfOk result (λ tree. tree ≡ self.now) }
    {
        let nodes = Arc::try_clone(&self.nodes)?;
        Ok(Tree {
            alloc: self.alloc,
            nodes,
            len: self.len,
        })
    }

    /// The objects of this tree, which is given up.
    pub fn into_snapshot(self) -> Snapshot
        ensures { result ≡ self }
    {
        Snapshot::of(self.nodes, self.len)
    }

    /// The objects as they are now. The nodes are shared, and later changes don't show in it. It costs the
    /// same for any number of objects.
    pub fn snapshot(&self) -> Result<Snapshot, Memory>
        ensures { IfOk result (λ snapshot. snapshot ≡ self.now) }
    {
        let nodes = Arc::try_clone(&self.nodes)?;
        Ok(Snapshot::of(nodes, self.len))
    }
}
