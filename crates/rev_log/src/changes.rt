//! Changes and revisions.

ghost use Rattle.std.specs.Prelude.{◌≡◌, ◌↔◌, ◌≤◌, [], ◌∷◌, IfOk, IfErr, OnOk, IsTrue, IsPermutation, All, length};
ghost use Rattle.std.specs.List.{list_all};
ghost use Rattle.std.specs.List.Sorted.{IsStrictlySortedBy};
ghost use Rattle.kube_meta.specs.Resources.{same_resource};
ghost use Rattle.rev_log.specs.Changes.{change_cmp, AreOfDistinctObjects, HasItsKey, IsRevision};

use kube_meta::{Key, Memory, Obj, Resource};
use rev_front::Entry;
use std::alloc::Global;
use std::cmp::Ordering;
use std::marker::Model;
use std::sync::Arc;

/// The most changes of one revision.
const MAX_CHANGES: usize = 64;

/// At the revision `rev` the object with this key is written, or removed where `new` is `None`. The
/// new object has that key. Contracts see the object in place of the shared pointer to it.
#[derive(Debug, Drop)]
pub struct Change {
    pub rev: u64,
    pub resource: Resource,
    pub key: Key,
    pub new: Option<Arc<Obj>>,
}

impl Model for Change {
    ghost use Rattle.std.specs.Prelude.{option_map};
    ghost use Rattle.rev_log.specs.Changes.{ChangeData, HasItsKey};

    ghost Value = { ChangeData };

    ghost view = { λ c. record { rev = c.rev; resource = c.resource; key = c.key; new = option_map (λ obj. obj.value) c.new } };

    ghost invariant = { λ c. HasItsKey (record { rev = c.rev; resource = c.resource; key = c.key; new = option_map (λ obj. obj.value) c.new }) };
}

/// What was accepted together under one number, which Kubernetes calls a resource version: at most
/// 64 changes of distinct objects, in the order of resources and then of keys.
#[derive(Debug, Drop)]
pub struct Revision {
    pub rev: u64,
    pub changes: Vec<Change>,
}

impl Model for Revision {
    ghost use Rattle.rev_log.specs.Changes.{RevisionData, IsRevision};

    ghost Value = { RevisionData };

    ghost view = { λ r. record { rev = r.rev; changes = r.changes.items } };

    ghost invariant = { λ r. IsRevision (record { rev = r.rev; changes = r.changes.items }) };
}

impl Change {
    /// Whether the change is one of the resource.
    pub fn is_of(&self, resource: Resource) -> bool
        ensures { result ≡ same_resource self.now.resource resource }
    {
        self.resource == resource
    }
}

impl Revision {
    ghost use Rattle.rev_log.specs.Changes.{RevisionData};

    /// The revision of these changes, if they are one as they stand; else they are given back.
    pub fn new(rev: u64, changes: Vec<Change>) -> Result<Revision, Vec<Change>>
        ensures ok { IfOk result (λ revision. revision ≡ record { rev = rev; changes = changes.items }) }
        ensures form { OnOk result (IsRevision (record { rev = rev; changes = changes.items })) }
        ensures refused { IfErr result (λ back. (back.items ≡ changes.items) × ¬ (IsRevision (record { rev = rev; changes = changes.items }))) }
    {
        are_keyed(&changes);
        if changes.len() <= MAX_CHANGES && are_in_order(&changes) && have_number(&changes, rev) {
            Ok(Revision { rev, changes })
        } else {
            Err(changes)
        }
    }

    /// The revision of these changes, which are in any order.
    pub fn sorted(rev: u64, mut changes: Vec<Change>) -> Revision
        requires few { length changes.items ≤ 64 }
        requires distinct { AreOfDistinctObjects changes.items }
        requires numbered { All (λ change. change.rev ≡ rev) changes.items }
        ensures rev { result.rev ≡ rev }
        ensures changes { IsPermutation changes.items result.changes }
        ensures form { IsRevision result }
    {
        are_keyed(&changes);
        changes.sort_unstable_by(|a, b| order(a, b));
        Revision { rev, changes }
    }

    /// The revision of this change alone.
    pub fn single(alloc: Global, change: Change) -> Result<Revision, Memory>
        ensures { IfOk result (λ revision. revision ≡ record { rev = change.rev; changes = change ∷ [] }) }
    {
        let rev = change.rev;
        let mut changes = Vec::with_capacity(alloc, 1)?;
        changes.push(change)?;
        Ok(Revision { rev, changes })
    }
}

// Each change has its object's key, which the proof learns where it reads the change.
fn are_keyed(changes: &[Change])
    ensures { All HasItsKey changes.now }
{
    for change in changes {
        let _rev = change.rev;
    }
}

// The order of changes: by resource, and then by key.
fn order(a: &Change, b: &Change) -> Ordering
    ensures { result ≡ change_cmp a.now b.now }
{
    a.resource.cmp(&b.resource).then(a.key.cmp(&b.key))
}

// Whether each change is behind the one before it.
fn are_in_order(changes: &[Change]) -> bool
    ensures { IsTrue result ↔ IsStrictlySortedBy change_cmp changes.now }
{
    changes.is_sorted_by(|a, b| order(a, b).is_lt())
}

// Whether each change has this number.
fn have_number(changes: &[Change], rev: u64) -> bool
    ensures { IsTrue result ↔ All (λ change. change.rev ≡ rev) changes.now }
{
    changes.iter().all(|change| change.rev == rev)
}

impl Entry for Revision {
    ghost use Rattle.rev_log.specs.Logs.{Fits, quiet_at};

    ghost fits = { Fits };

    ghost quiet = { quiet_at };
}

impl Clone for Change {
    ghost use Rattle.std.specs.Prelude.{◌≡◌};

    ghost is_clone = { λ change copy. copy ≡ change };

    fn clone(&self) -> Result<Change, Memory> {
        let new = match &self.new {
            Some(obj) => Some(obj.clone()?),
            None => None,
        };
        Ok(Change {
            rev: self.rev,
            resource: self.resource,
            key: self.key.clone()?,
            new,
        })
    }
}

impl Clone for Revision {
    ghost use Rattle.std.specs.Prelude.{◌≡◌};

    ghost is_clone = { λ revision copy. copy ≡ revision };

    fn clone(&self) -> Result<Revision, Memory> {
        Ok(Revision {
            rev: self.rev,
            changes: self.changes.clone()?,
        })
    }
}
