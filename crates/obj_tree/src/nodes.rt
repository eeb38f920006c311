//! Nodes in the order of their keys.

ghost use Rattle.std.specs.Prelude.{◌≡◌, ◌+◌, ◌*◌, ◌/◌, ◌≤◌, ◌<◌, ◌++◌, ◌∷◌, [], None, false, length, IfOk, OnOk, OnErr, MatchOption, IsTrue, ◌↔◌, option_map, option_copied};
ghost use Rattle.kube_meta.specs.Rows.{AreRising, key_of as row_key, row_with};
ghost use Rattle.obj_tree.specs.Maps.{with_row, without};
ghost use Rattle.obj_tree.specs.Pages.{values_of, joined, page_at, replaced, IsNoded, IsPageFor, HoldEach};

use crate::node::Node;
use crate::part::Part;
use crate::search::part_for;
use crate::shared::{Nodes, own, slice_of};
use encode_once::{Shown, Sought};
use kube_meta::{Key, Memory};
use std::alloc::Global;
use std::sync::Arc;

// The fewest rows of a node that isn't alone.
const LEAST: usize = 512;

/// The row with a key, if there is one.
pub(crate) fn row_of<'a>(nodes: &'a [Arc<Node>], sought: &Sought<'_>) -> Option<&'a Arc<Shown>>
    requires { IsNoded (values_of nodes.now) }
    ensures { option_map (λ o. o.value) (option_copied result) ≡ row_with (joined (values_of nodes.now)) sought.now }
{
    match part_for(nodes, sought) {
        Some(at) => nodes[at].get(sought),
        None => None,
    }
}

/// Puts a row at its key, and answers the one that stood there.
pub(crate) fn put(
    alloc: Global,
    nodes: &mut Nodes,
    shown: Arc<Shown>,
) -> Result<Option<Arc<Shown>>, Memory>
    requires noded { IsNoded (values_of nodes.old.value.items) }
    requires room { length (joined (values_of nodes.old.value.items)) < usize.MAX }
    ensures rows { OnOk result (joined (values_of nodes.new.value.items) ≡ with_row (joined (values_of nodes.old.value.items)) shown.value) }
    ensures answer { IfOk result (λ old. option_map (λ o. o.value) old ≡ row_with (joined (values_of nodes.old.value.items)) (row_key shown.value)) }
    ensures len { IfOk result (λ old. MatchOption old (length (joined (values_of nodes.new.value.items)) ≡ length (joined (values_of nodes.old.value.items)) + 1) (λ _. length (joined (values_of nodes.new.value.items)) ≡ length (joined (values_of nodes.old.value.items)))) }
    ensures noded { IsNoded (values_of nodes.new.value.items) }
    ensures err { OnErr result (joined (values_of nodes.new.value.items) ≡ joined (values_of nodes.old.value.items)) }
{
    let Some(at) = part_for(slice_of(nodes), &shown.sought()) else {
        put_first(alloc, nodes, shown)?;
        return Ok(None);
    };
    put_owned(alloc, nodes, at, shown)
}

/// Removes the row with a key, and answers it. Where there is none nothing is changed, and no memory is
/// taken.
pub(crate) fn remove(
    alloc: Global,
    nodes: &mut Nodes,
    key: &Key,
) -> Result<Option<Arc<Shown>>, Memory>
    requires noded { IsNoded (values_of nodes.old.value.items) }
    requires few { length (joined (values_of nodes.old.value.items)) ≤ usize.MAX }
    ensures rows { OnOk result (joined (values_of nodes.new.value.items) ≡ without (joined (values_of nodes.old.value.items)) key.now) }
    ensures answer { IfOk result (λ old. option_map (λ o. o.value) old ≡ row_with (joined (values_of nodes.old.value.items)) key.now) }
    ensures len { IfOk result (λ old. MatchOption old (length (joined (values_of nodes.new.value.items)) ≡ length (joined (values_of nodes.old.value.items))) (λ _. length (joined (values_of nodes.new.value.items)) + 1 ≡ length (joined (values_of nodes.old.value.items)))) }
    ensures noded { IsNoded (values_of nodes.new.value.items) }
    ensures absent { row_with (joined (values_of nodes.old.value.items)) key.now ≡ None → (result ≡ Ok None) × (nodes.new ≡ nodes.old) }
    ensures err { OnErr result (joined (values_of nodes.new.value.items) ≡ joined (values_of nodes.old.value.items)) }
{
    let sought = Sought::new(key);
    let slice = slice_of(nodes);
    let Some(at) = part_for(slice, &sought) else {
        return Ok(None);
    };
    match slice[at].get(&sought) {
        Some(_) => remove_owned(alloc, nodes, at, key),
        None => Ok(None),
    }
}

/// How many pages nodes have.
pub(crate) fn pages_in(nodes: &[Arc<Node>]) -> usize
    requires noded { IsNoded (values_of nodes.now) }
    requires few { length (joined (values_of nodes.now)) ≤ usize.MAX }
    ensures few { result ≤ length (joined (values_of nodes.now)) / 16 + 1 }
    ensures enough { length (joined (values_of nodes.now)) ≤ 64 * result }
{
    let mut count = 0;
    for node in nodes {
        count += node.count();
    }
    count
}

// The first node, of one row.
fn put_first(alloc: Global, nodes: &mut Nodes, shown: Arc<Shown>) -> Result<(), Memory>
    ensures ok { OnOk result (values_of nodes.new.value.items ≡ (shown.value ∷ []) ∷ []) }
    ensures err { OnErr result (nodes.new ≡ nodes.old) }
{
    let node = Arc::new(alloc, Node::one(alloc, shown)?)?;
    let mut first = Vec::new(alloc);
    first.push(node)?;
    *nodes = Arc::new(alloc, first)?;
    Ok(())
}

// As `put_at`, once nobody shares the vector.
fn put_owned(
    alloc: Global,
    nodes: &mut Nodes,
    at: usize,
    shown: Arc<Shown>,
) -> Result<Option<Arc<Shown>>, Memory>
    requires noded { IsNoded (values_of nodes.old.value.items) }
    requires place { IsPageFor (values_of nodes.old.value.items) (row_key shown.value) at }
    requires room { length (joined (values_of nodes.old.value.items)) < usize.MAX }
    ensures rows { OnOk result (joined (values_of nodes.new.value.items) ≡ with_row (joined (values_of nodes.old.value.items)) shown.value) }
    ensures answer { IfOk result (λ old. option_map (λ o. o.value) old ≡ row_with (joined (values_of nodes.old.value.items)) (row_key shown.value)) }
    ensures len { IfOk result (λ old. MatchOption old (length (joined (values_of nodes.new.value.items)) ≡ length (joined (values_of nodes.old.value.items)) + 1) (λ _. length (joined (values_of nodes.new.value.items)) ≡ length (joined (values_of nodes.old.value.items)))) }
    ensures noded { IsNoded (values_of nodes.new.value.items) }
    ensures err { OnErr result (joined (values_of nodes.new.value.items) ≡ joined (values_of nodes.old.value.items)) }
{
    own(alloc, nodes)?;
    match Arc::get_mut(nodes) {
        Some(nodes) => put_at(alloc, nodes, at, shown),
        None => Err(Memory),
    }
}

// Puts a row into the node where its key belongs.
fn put_at(
    alloc: Global,
    nodes: &mut Vec<Arc<Node>>,
    at: usize,
    shown: Arc<Shown>,
) -> Result<Option<Arc<Shown>>, Memory>
    requires noded { IsNoded (values_of nodes.old.items) }
    requires place { IsPageFor (values_of nodes.old.items) (row_key shown.value) at }
    requires room { length (joined (values_of nodes.old.items)) < usize.MAX }
    ensures rows { OnOk result (joined (values_of nodes.new.items) ≡ with_row (joined (values_of nodes.old.items)) shown.value) }
    ensures answer { IfOk result (λ old. option_map (λ o. o.value) old ≡ row_with (joined (values_of nodes.old.items)) (row_key shown.value)) }
    ensures len { IfOk result (λ old. MatchOption old (length (joined (values_of nodes.new.items)) ≡ length (joined (values_of nodes.old.items)) + 1) (λ _. length (joined (values_of nodes.new.items)) ≡ length (joined (values_of nodes.old.items)))) }
    ensures noded { IsNoded (values_of nodes.new.items) }
    ensures err { OnErr result (joined (values_of nodes.new.items) ≡ joined (values_of nodes.old.items)) }
{
    let old = put_in(alloc, &mut nodes[at], shown)?;
    settle(alloc, nodes, at);
    Ok(old)
}

// Puts a row into a node: where nobody shares the node there, and else into a copy.
fn put_in(
    alloc: Global,
    node: &mut Arc<Node>,
    shown: Arc<Shown>,
) -> Result<Option<Arc<Shown>>, Memory>
    requires { length node.old.value < usize.MAX }
    ensures rows { OnOk result (node.new.value ≡ with_row node.old.value shown.value) }
    ensures answer { IfOk result (λ old. option_map (λ o. o.value) old ≡ row_with node.old.value (row_key shown.value)) }
    ensures len { IfOk result (λ old. MatchOption old (length node.new.value ≡ length node.old.value + 1) (λ _. length node.new.value ≡ length node.old.value)) }
    ensures err { OnErr result (node.new.value ≡ node.old.value) }
{
    match Arc::get_mut(node) {
        Some(own) => own.put(alloc, shown),
        None => {
            let mut copy = node.copied(alloc)?;
            let old = copy.put(alloc, shown)?;
            *node = Arc::new(alloc, copy)?;
            Ok(old)
        }
    }
}

// Divides a node that is full, if there is memory; else it is tried again at the next change.
fn settle(alloc: Global, nodes: &mut Vec<Arc<Node>>, at: usize)
    requires inside { at < length nodes.old.items }
    requires noded { IsNoded (values_of nodes.old.items) }
    ensures rows { joined (values_of nodes.new.items) ≡ joined (values_of nodes.old.items) }
    ensures noded { IsNoded (values_of nodes.new.items) }
{
    let Ok(halves) = nodes[at].halves(alloc) else {
        return;
    };
    let Some((front, back)) = halves else {
        return;
    };
    let _ = put_both(alloc, nodes, at, front, back);
}

// Two nodes in place of one.
fn put_both(
    alloc: Global,
    nodes: &mut Vec<Arc<Node>>,
    at: usize,
    front: Node,
    back: Node,
) -> Result<(), Memory>
    requires { at < length nodes.old.items }
    ensures ok { OnOk result (values_of nodes.new.items ≡ replaced (values_of nodes.old.items) at (at + 1) (front ∷ back ∷ [])) }
    ensures err { OnErr result (values_of nodes.new.items ≡ values_of nodes.old.items) }
{
    let front = Arc::new(alloc, front)?;
    let back = Arc::new(alloc, back)?;
    nodes.insert(at + 1, back)?;
    nodes[at] = front;
    Ok(())
}

// As `remove_at`, once nobody shares the vector.
fn remove_owned(
    alloc: Global,
    nodes: &mut Nodes,
    at: usize,
    key: &Key,
) -> Result<Option<Arc<Shown>>, Memory>
    requires noded { IsNoded (values_of nodes.old.value.items) }
    requires place { IsPageFor (values_of nodes.old.value.items) key.now at }
    requires few { length (joined (values_of nodes.old.value.items)) ≤ usize.MAX }
    ensures rows { OnOk result (joined (values_of nodes.new.value.items) ≡ without (joined (values_of nodes.old.value.items)) key.now) }
    ensures answer { IfOk result (λ old. option_map (λ o. o.value) old ≡ row_with (joined (values_of nodes.old.value.items)) key.now) }
    ensures len { IfOk result (λ old. MatchOption old (length (joined (values_of nodes.new.value.items)) ≡ length (joined (values_of nodes.old.value.items))) (λ _. length (joined (values_of nodes.new.value.items)) + 1 ≡ length (joined (values_of nodes.old.value.items)))) }
    ensures noded { IsNoded (values_of nodes.new.value.items) }
    ensures err { OnErr result (joined (values_of nodes.new.value.items) ≡ joined (values_of nodes.old.value.items)) }
{
    own(alloc, nodes)?;
    match Arc::get_mut(nodes) {
        Some(nodes) => remove_at(alloc, nodes, at, key),
        None => Err(Memory),
    }
}

// Removes a row from the node where its key belongs.
fn remove_at(
    alloc: Global,
    nodes: &mut Vec<Arc<Node>>,
    at: usize,
    key: &Key,
) -> Result<Option<Arc<Shown>>, Memory>
    requires noded { IsNoded (values_of nodes.old.items) }
    requires place { IsPageFor (values_of nodes.old.items) key.now at }
    requires few { length (joined (values_of nodes.old.items)) ≤ usize.MAX }
    ensures rows { OnOk result (joined (values_of nodes.new.items) ≡ without (joined (values_of nodes.old.items)) key.now) }
    ensures answer { IfOk result (λ old. option_map (λ o. o.value) old ≡ row_with (joined (values_of nodes.old.items)) key.now) }
    ensures len { IfOk result (λ old. MatchOption old (length (joined (values_of nodes.new.items)) ≡ length (joined (values_of nodes.old.items))) (λ _. length (joined (values_of nodes.new.items)) + 1 ≡ length (joined (values_of nodes.old.items)))) }
    ensures noded { IsNoded (values_of nodes.new.items) }
    ensures err { OnErr result (joined (values_of nodes.new.items) ≡ joined (values_of nodes.old.items)) }
{
    if stays(nodes, at) {
        return remove_plain(alloc, nodes, at, key);
    }
    remove_low(alloc, nodes, at, key)
}

// Whether a node stays apart from its neighbours with a row less: the only one, and one with rows to spare.
fn stays(nodes: &[Arc<Node>], at: usize) -> bool
    requires { at < length nodes.now }
    ensures large { IsTrue result → 1 < length nodes.now → 512 < length (page_at (values_of nodes.now) at) }
    ensures many { result ≡ false → 1 < length nodes.now }
{
    nodes.len() == 1 || nodes[at].len() > LEAST
}

// Removes a row from a node that stays apart from its neighbours. One that is left empty goes.
fn remove_plain(
    alloc: Global,
    nodes: &mut Vec<Arc<Node>>,
    at: usize,
    key: &Key,
) -> Result<Option<Arc<Shown>>, Memory>
    requires noded { IsNoded (values_of nodes.old.items) }
    requires place { IsPageFor (values_of nodes.old.items) key.now at }
    requires large { 1 < length nodes.old.items → 512 < length (page_at (values_of nodes.old.items) at) }
    ensures rows { OnOk result (joined (values_of nodes.new.items) ≡ without (joined (values_of nodes.old.items)) key.now) }
    ensures answer { IfOk result (λ old. option_map (λ o. o.value) old ≡ row_with (joined (values_of nodes.old.items)) key.now) }
    ensures len { IfOk result (λ old. MatchOption old (length (joined (values_of nodes.new.items)) ≡ length (joined (values_of nodes.old.items))) (λ _. length (joined (values_of nodes.new.items)) + 1 ≡ length (joined (values_of nodes.old.items)))) }
    ensures noded { IsNoded (values_of nodes.new.items) }
    ensures err { OnErr result (joined (values_of nodes.new.items) ≡ joined (values_of nodes.old.items)) }
{
    let old = remove_in(alloc, &mut nodes[at], key)?;
    if nodes[at].len() == 0 {
        drop_node(nodes, at);
        return Ok(old);
    }
    Ok(old)
}

fn drop_node(nodes: &mut Vec<Arc<Node>>, at: usize)
    requires { at < length nodes.old.items }
    ensures { values_of nodes.new.items ≡ replaced (values_of nodes.old.items) at (at + 1) [] }
{
    nodes.remove(at);
}

// Removes a row from a node that is too small then, and joins it with a neighbour.
fn remove_low(
    alloc: Global,
    nodes: &mut Vec<Arc<Node>>,
    at: usize,
    key: &Key,
) -> Result<Option<Arc<Shown>>, Memory>
    requires noded { IsNoded (values_of nodes.old.items) }
    requires place { IsPageFor (values_of nodes.old.items) key.now at }
    requires many { 1 < length nodes.old.items }
    requires few { length (joined (values_of nodes.old.items)) ≤ usize.MAX }
    ensures rows { OnOk result (joined (values_of nodes.new.items) ≡ without (joined (values_of nodes.old.items)) key.now) }
    ensures answer { IfOk result (λ old. option_map (λ o. o.value) old ≡ row_with (joined (values_of nodes.old.items)) key.now) }
    ensures len { IfOk result (λ old. MatchOption old (length (joined (values_of nodes.new.items)) ≡ length (joined (values_of nodes.old.items))) (λ _. length (joined (values_of nodes.new.items)) + 1 ≡ length (joined (values_of nodes.old.items)))) }
    ensures noded { IsNoded (values_of nodes.new.items) }
    ensures err { OnErr result (joined (values_of nodes.new.items) ≡ joined (values_of nodes.old.items)) }
{
    let mut node = nodes[at].copied(alloc)?;
    let old = node.remove(alloc, key)?;
    put_smaller(alloc, nodes, at, node)?;
    Ok(old)
}

// Removes a row from a node: where nobody shares the node there, and else in a copy.
fn remove_in(alloc: Global, node: &mut Arc<Node>, key: &Key) -> Result<Option<Arc<Shown>>, Memory>
    ensures rows { OnOk result (node.new.value ≡ without node.old.value key.now) }
    ensures answer { IfOk result (λ old. option_map (λ o. o.value) old ≡ row_with node.old.value key.now) }
    ensures len { IfOk result (λ old. MatchOption old (length node.new.value ≡ length node.old.value) (λ _. length node.new.value + 1 ≡ length node.old.value)) }
    ensures err { OnErr result (node.new.value ≡ node.old.value) }
{
    match Arc::get_mut(node) {
        Some(own) => own.remove(alloc, key),
        None => {
            let mut copy = node.copied(alloc)?;
            let old = copy.remove(alloc, key)?;
            *node = Arc::new(alloc, copy)?;
            Ok(old)
        }
    }
}

// A node that has grown too small, and a neighbour, as one node in place of two.
fn put_smaller(
    alloc: Global,
    nodes: &mut Vec<Arc<Node>>,
    at: usize,
    node: Node,
) -> Result<(), Memory>
    requires inside { at < length nodes.old.items }
    requires many { 1 < length nodes.old.items }
    requires noded { IsNoded (values_of nodes.old.items) }
    requires rising { AreRising (joined (replaced (values_of nodes.old.items) at (at + 1) (node ∷ []))) }
    requires few { length (joined (replaced (values_of nodes.old.items) at (at + 1) (node ∷ []))) ≤ usize.MAX }
    ensures ok { OnOk result (joined (values_of nodes.new.items) ≡ joined (replaced (values_of nodes.old.items) at (at + 1) (node ∷ []))) }
    ensures noded { IsNoded (values_of nodes.new.items) }
    ensures err { OnErr result (values_of nodes.new.items ≡ values_of nodes.old.items) }
{
    if at > 0 {
        return join_last(alloc, nodes, at, node);
    }
    join_next(alloc, nodes, at, node)
}

// A node, and the one before its place, as one.
fn join_last(alloc: Global, nodes: &mut Vec<Arc<Node>>, at: usize, node: Node) -> Result<(), Memory>
    requires some { 0 < at }
    requires inside { at < length nodes.old.items }
    requires many { 1 < length nodes.old.items }
    requires noded { IsNoded (values_of nodes.old.items) }
    requires rising { AreRising (joined (replaced (values_of nodes.old.items) at (at + 1) (node ∷ []))) }
    requires few { length (joined (replaced (values_of nodes.old.items) at (at + 1) (node ∷ []))) ≤ usize.MAX }
    ensures ok { OnOk result (joined (values_of nodes.new.items) ≡ joined (replaced (values_of nodes.old.items) at (at + 1) (node ∷ []))) }
    ensures noded { IsNoded (values_of nodes.new.items) }
    ensures err { OnErr result (values_of nodes.new.items ≡ values_of nodes.old.items) }
{
    let both = nodes[at - 1].joined(alloc, &node)?;
    put_settled(alloc, nodes, at - 1, both)
}

// A node, and the one after its place, as one.
fn join_next(alloc: Global, nodes: &mut Vec<Arc<Node>>, at: usize, node: Node) -> Result<(), Memory>
    requires inside { at + 1 < length nodes.old.items }
    requires noded { IsNoded (values_of nodes.old.items) }
    requires rising { AreRising (joined (replaced (values_of nodes.old.items) at (at + 1) (node ∷ []))) }
    requires few { length (joined (replaced (values_of nodes.old.items) at (at + 1) (node ∷ []))) ≤ usize.MAX }
    ensures ok { OnOk result (joined (values_of nodes.new.items) ≡ joined (replaced (values_of nodes.old.items) at (at + 1) (node ∷ []))) }
    ensures noded { IsNoded (values_of nodes.new.items) }
    ensures err { OnErr result (values_of nodes.new.items ≡ values_of nodes.old.items) }
{
    let both = node.joined(alloc, &nodes[at + 1])?;
    put_settled(alloc, nodes, at, both)
}

// One node in place of two, divided where it is full.
fn put_settled(
    alloc: Global,
    nodes: &mut Vec<Arc<Node>>,
    at: usize,
    node: Node,
) -> Result<(), Memory>
    requires inside { at + 1 < length nodes.old.items }
    requires noded { IsNoded (values_of nodes.old.items) }
    requires large { 512 ≤ length node }
    requires rising { AreRising (joined (replaced (values_of nodes.old.items) at (at + 2) (node ∷ []))) }
    ensures ok { OnOk result (joined (values_of nodes.new.items) ≡ joined (replaced (values_of nodes.old.items) at (at + 2) (node ∷ []))) }
    ensures noded { IsNoded (values_of nodes.new.items) }
    ensures err { OnErr result (values_of nodes.new.items ≡ values_of nodes.old.items) }
{
    put_joined(alloc, nodes, at, node)?;
    settle(alloc, nodes, at);
    Ok(())
}

// One node in place of two.
fn put_joined(
    alloc: Global,
    nodes: &mut Vec<Arc<Node>>,
    at: usize,
    node: Node,
) -> Result<(), Memory>
    requires { at + 1 < length nodes.old.items }
    ensures ok { OnOk result (values_of nodes.new.items ≡ replaced (values_of nodes.old.items) at (at + 2) (node ∷ [])) }
    ensures err { OnErr result (values_of nodes.new.items ≡ values_of nodes.old.items) }
{
    let node = Arc::new(alloc, node)?;
    nodes.remove(at + 1);
    nodes[at] = node;
    Ok(())
}
