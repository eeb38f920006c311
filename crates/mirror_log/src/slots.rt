//! The changes of revisions that aren't made yet, by their numbers.

ghost use Rattle.std.specs.Prelude.{◌≡◌, ◌↔◌, ℕ, ◌+◌, ◌-◌, ◌*◌, ◌<◌, ◌≤◌, ◌^◌, List, [], ◌∷◌, ◌++◌, length, cond, All, None, IfOk, OnOk, IsTrue, Err};
ghost use Rattle.std.specs.BTreeMap.{IsOrdered};
ghost use Rattle.std.specs.List.Sorted.{IsPermutation};
ghost use Rattle.std.specs.Ordering.{is_eq, nat_cmp};
ghost use Rattle.kube_meta.specs.Rows.{RowData, key_of};
ghost use Rattle.rev_log.specs.Changes.{ChangeData, AreOfDistinctObjects, IsRevision};
ghost use Rattle.mirror_log.specs.Bridges.{written_at};
ghost use Rattle.mirror_log.specs.Slots.{Hold, Adds, Remove, AreMadeOf, puts, put_of, removal_of, slot_at, slot_of};

use kube_meta::{Memory, Resource, Row};
use rev_log::{Change, Revision};
use std::alloc::Global;
use std::collections::BTreeMap;
use std::marker::Model;

/// The most changes of one revision.
const MAX_CHANGES: usize = 64;

/// Why a change isn't added.
#[derive(Clone, Copy, Debug, PartialEq, Eq)]
pub(crate) enum SlotNo {
    /// No revision has room for it.
    Full,
    Memory,
}

impl From<Memory> for SlotNo {
    ghost use Rattle.std.specs.Prelude.{◌≡◌};
    ghost use Rattle.mirror_log.specs.declared.slots.SlotNo.TheVariants as refusals;

    ghost from_gives = { λ _ refusal. refusal ≡ refusals.Memory };

    fn from(_: Memory) -> SlotNo {
        SlotNo::Memory
    }
}

/// The changes of one revision, in any order, no more than it may have.
#[derive(Drop)]
pub(crate) struct Slot {
    changes: Vec<Change>,
}

/// The changes of several, by their numbers.
pub(crate) type Slots = BTreeMap<u64, Slot>;

impl Model for Slot {
    ghost use Rattle.std.specs.Prelude.{◌≤◌, List, length};
    ghost use Rattle.rev_log.specs.Changes.{ChangeData};

    ghost Value = { List ChangeData };

    ghost view = { λ s. s.changes.items };

    ghost invariant = { λ s. length s.changes.items ≤ 64 };
}

impl Slot {
    // An empty slot.
    fn new(alloc: Global) -> Slot
        ensures { result ≡ [] }
    {
        Slot {
            changes: Vec::new(alloc),
        }
    }

    // Whether it has room for another change.
    fn has_room(&self) -> bool
        ensures { IsTrue result ↔ (length self.now < 64) }
    {
        self.changes.len() < MAX_CHANGES
    }

    // Adds a change.
    fn add(&mut self, change: Change) -> Result<(), Memory>
        requires { length self.old < 64 }
        ensures { OnOk result (self.new ≡ self.old ++ change ∷ []) }
    {
        self.changes.push(change)?;
        Ok(())
    }

    // Its revision.
    fn revision(self, rev: u64) -> Revision
        requires distinct { AreOfDistinctObjects self }
        requires numbered { All (λ change. change.rev ≡ rev) self }
        ensures rev { result.rev ≡ rev }
        ensures changes { IsPermutation self result.changes }
        ensures form { IsRevision result }
    {
        Revision::sorted(rev, self.changes)
    }
}

// Whether a revision has room for another change.
fn has_room(slots: &Slots, rev: u64) -> bool
    ensures { IsTrue result ↔ (length (slot_at slots.now.entries rev) < 64) }
{
    match slots.get(&rev) {
        Some(slot) => slot.has_room(),
        None => true,
    }
}

// The changes of a revision, taken out.
fn taken(alloc: Global, slots: &mut Slots, rev: u64) -> Slot
    ensures slot { result ≡ slot_at slots.old.entries rev }
    ensures rest { (other : ℕ) → slot_of slots.new.entries other ≡ cond (is_eq (nat_cmp rev other)) None (slot_of slots.old.entries other) }
{
    match slots.remove(&rev) {
        Some(slot) => slot,
        None => Slot::new(alloc),
    }
}

// Puts a change behind those of its revision.
fn put(alloc: Global, slots: &mut Slots, change: Change) -> Result<(), Memory>
    requires { length (slot_at slots.old.entries change.rev) < 64 }
    ensures { OnOk result (Adds slots.old.entries change slots.new.entries) }
{
    let rev = change.rev;
    let mut slot = taken(alloc, slots, rev);
    slot.add(change)?;
    slots.insert(rev, slot)?;
    Ok(())
}

// Puts a change behind those of its revision, if there is room.
fn add(alloc: Global, slots: &mut Slots, change: Change) -> Result<(), SlotNo>
    ensures added { OnOk result (Adds slots.old.entries change slots.new.entries) }
    ensures full { result ≡ Err SlotNo.Full → 64 ≤ length (slot_at slots.old.entries change.rev) }
{
    if !has_room(slots, change.rev) {
        return Err(SlotNo::Full);
    }
    put(alloc, slots, change)?;
    Ok(())
}

// The change that puts a row.
fn put_of(resource: Resource, row: &Row) -> Result<Change, Memory>
    ensures { IfOk result (λ change. change ≡ put_of resource row.now) }
{
    Ok(Change {
        rev: row.rev,
        resource,
        key: row.obj.key.clone()?,
        new: Some(row.obj.clone()?),
    })
}

// The change that removes a row at a revision.
fn removal_of(resource: Resource, row: &Row, rev: u64) -> Result<Change, Memory>
    ensures { IfOk result (λ change. change ≡ removal_of resource row.now rev) }
{
    Ok(Change {
        rev,
        resource,
        key: row.obj.key.clone()?,
        new: None,
    })
}

/// Puts the rows of a resource that are younger than a revision, each at its own.
pub(crate) fn put_all(
    alloc: Global,
    resource: Resource,
    slots: &mut Slots,
    from: u64,
    rows: &[Row],
) -> Result<(), SlotNo>
    requires empty { Hold slots.old.entries [] }
    ensures put { OnOk result (Hold slots.new.entries (puts resource from rows.now)) }
    ensures full { result ≡ Err SlotNo.Full → (rev : ℕ) × (from < rev) × (64 < length (written_at rev rows.now)) }
{
    for row in rows {
        if row.rev > from {
            let change = put_of(resource, row)?;
            match add(alloc, slots, change) {
                Ok(()) => {}
                Err(why) => return Err(why),
            }
        }
    }
    Ok(())
}

// The first revision with room, from one on and up to another; or the one behind that.
fn with_room(slots: &Slots, from: u64, to: u64) -> u64
    requires onward { from ≤ to + 1 }
    requires last { to ≤ 2 ^ 62 }
    ensures onward { from ≤ result }
    ensures within { result ≤ to + 1 }
    ensures room { result ≤ to → length (slot_at slots.now.entries result) < 64 }
    ensures full { (rev : ℕ) → from ≤ rev → rev < result → 64 ≤ length (slot_at slots.now.entries rev) }
{
    for rev in from..to + 1 {
        if has_room(slots, rev) {
            return rev;
        }
    }
    to + 1
}

/// Removes rows of a resource behind a revision and up to another one, each at the first that has room.
pub(crate) fn remove_all(
    alloc: Global,
    resource: Resource,
    slots: &mut Slots,
    from: u64,
    to: u64,
    rows: &[Row],
) -> Result<(), SlotNo>
    requires onward { from ≤ to }
    requires last { to ≤ 2 ^ 62 }
    ensures removed { OnOk result ((changes : List ChangeData) → Hold slots.old.entries changes → Remove resource from to changes rows.now slots.new.entries) }
    ensures full { result ≡ Err SlotNo.Full → (changes : List ChangeData) → Hold slots.old.entries changes →
        64 * (to - from) < length changes + length rows.now }
{
    let mut at = from + 1;
    for row in rows {
        at = with_room(slots, at, to);
        if at > to {
            return Err(SlotNo::Full);
        }
        let change = removal_of(resource, row, at)?;
        match add(alloc, slots, change) {
            Ok(()) => {}
            Err(why) => return Err(why),
        }
    }
    Ok(())
}

/// The revisions of the slots, in the order of their numbers.
pub(crate) fn revisions_of(alloc: Global, slots: Slots) -> Result<Vec<Revision>, Memory>
    requires { (changes : List ChangeData) × Hold slots.entries changes × AreOfDistinctObjects changes }
    ensures made { IfOk result (λ revisions. AreMadeOf slots.entries revisions.items) }
    ensures ordered { IfOk result (λ revisions. IsOrdered nat_cmp slots) }
{
    let mut revisions = Vec::new(alloc);
    for (rev, slot) in slots {
        revisions.push(slot.revision(rev))?;
    }
    Ok(revisions)
}
