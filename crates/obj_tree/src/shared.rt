//! The nodes that trees and snapshots share.

ghost use Rattle.std.specs.Prelude.{◌≡◌, ◌++◌, IfOk, OnOk};
ghost use Rattle.obj_tree.specs.Pages.{values_of};

use crate::node::Node;
use kube_meta::Memory;
use std::alloc::Global;
use std::sync::Arc;

/// The nodes of a tree or a snapshot: one vector, which those that are equal share, of nodes, which those
/// that have most of them in common share, as nodes share pages.
pub(crate) type Nodes = Arc<Vec<Arc<Node>>>;

/// The nodes, to be read.
pub(crate) fn slice_of(nodes: &Nodes) -> &[Arc<Node>]
    ensures { result.now ≡ nodes.now.value.items }
{
    nodes.as_slice()
}

/// Makes the vector the sole one's. Where it is shared it is copied, and the nodes stay shared.
pub(crate) fn own(alloc: Global, nodes: &mut Nodes) -> Result<(), Memory>
    ensures { values_of nodes.new.value.items ≡ values_of nodes.old.value.items }
{
    if Arc::strong_count(nodes) > 1 {
        let copies = copied(alloc, slice_of(nodes))?;
        *nodes = Arc::new(alloc, copies)?;
    }
    Ok(())
}

/// The same pointers once more, shared.
pub(crate) fn copied<P: Drop>(alloc: Global, parts: &[Arc<P>]) -> Result<Vec<Arc<P>>, Memory>
    ensures { IfOk result (λ copies. values_of copies.items ≡ values_of parts.now) }
{
    let mut copies = Vec::with_capacity(alloc, parts.len())?;
    share(&mut copies, parts)?;
    Ok(copies)
}

/// Puts shared pointers behind others.
pub(crate) fn share<P: Drop>(copies: &mut Vec<Arc<P>>, parts: &[Arc<P>]) -> Result<(), Memory>
    ensures { OnOk result (values_of copies.new.items ≡ values_of copies.old.items ++ values_of parts.now) }
{
    for part in parts {
        copies.push(Arc::try_clone(part)?)?;
    }
    Ok(())
}
