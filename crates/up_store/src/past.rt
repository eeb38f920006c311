//! States and histories that are made once their store is let go.

ghost use Rattle.std.specs.Prelude.{◌≡◌, ℕ, IfOk, fold};
ghost use Rattle.kube_meta.specs.declared.resources.Resource.{Resource as Kind};
ghost use Rattle.rev_log.specs.Logs.{Log};
ghost use Rattle.rev_log.specs.States.{row_next, IsStateAt};
ghost use Rattle.up_api.specs.Feeds.{IsHistory};
ghost use Rattle.up_store.specs.Kept.{AreStepped};
ghost use Rattle.up_store.specs.Past.{IsOldState, IsOldHistory};

use crate::changes::make_changes;
use crate::parts::parts_of;
use crate::revisions::SharedRevision;
use kube_meta::{Memory, Resource, Row};
use obj_tree::{Snapshot, Tree};
use std::alloc::Global;
use up_api::History;

/// What a state of a resource is made of: rows, in a tree that shares its pages with the store's, and the revisions
/// that are still to be made upon them, which are the store's too.
#[derive(Drop)]
pub struct OldState {
    pub(crate) resource: Resource,
    pub(crate) rows: Tree,
    pub(crate) revisions: Vec<SharedRevision>,
}

impl OldState {
    /// The state's rows, in the order of their keys.
    pub fn rows(self, alloc: Global) -> Result<Vec<Row>, Memory>
        ensures { IfOk result (λ rows. (log : Log) (resource : Kind) (at : ℕ) → IsOldState log resource at self → IsStateAt log resource at rows.items) }
    {
        let made = self.made()?;
        listed(alloc, &made)
    }

    /// The state, in pages of which those that no revision changed are the store's.
    pub fn made(self) -> Result<Snapshot, Memory>
        ensures { IfOk result (λ made. (log : Log) (resource : Kind) (at : ℕ) → IsOldState log resource at self → IsStateAt log resource at made) }
    {
        let OldState {
            resource,
            rows,
            revisions,
        } = self;
        made_upon(rows, &revisions, resource)
    }
}

/// What a history of a resource is made of: its state at the floor, and the revisions after it.
#[derive(Drop)]
pub struct OldHistory {
    pub(crate) floor: u64,
    pub(crate) upto: u64,
    pub(crate) state: OldState,
    pub(crate) revisions: Vec<SharedRevision>,
}

impl OldHistory {
    /// The history.
    pub fn made(self, alloc: Global) -> Result<History, Memory>
        ensures history { IfOk result (λ history. (log : Log) (log_floor : ℕ) (resource : Kind) → IsOldHistory log log_floor resource self → IsHistory log log_floor resource history) }
        ensures floor { IfOk result (λ history. history.floor ≡ self.floor) }
        ensures upto { IfOk result (λ history. history.upto ≡ self.upto) }
    {
        let OldHistory {
            floor,
            upto,
            state,
            revisions,
        } = self;
        let parts = parts_of(alloc, state.resource, &revisions)?;
        let rows = state.rows(alloc)?;
        Ok(History {
            floor,
            rows,
            revisions: parts,
            upto,
        })
    }
}

// What revisions leave of the rows of a resource.
fn made_upon(
    mut rows: Tree,
    revisions: &[SharedRevision],
    resource: Resource,
) -> Result<Snapshot, Memory>
    ensures { IfOk result (λ made. AreStepped rows made (λ key row. fold (row_next resource key) row revisions.now)) }
{
    for revision in revisions {
        make_changes(&mut rows, revision, resource)?;
    }
    Ok(rows.into_snapshot())
}

// The rows in the order of their keys, each shared.
fn listed(alloc: Global, rows: &Snapshot) -> Result<Vec<Row>, Memory>
    ensures { IfOk result (λ list. list.items ≡ rows.now) }
{
    let mut list = Vec::with_capacity(alloc, rows.len())?;
    for shown in rows.range(None) {
        list.push(shown.row().clone()?)?;
    }
    Ok(list)
}
