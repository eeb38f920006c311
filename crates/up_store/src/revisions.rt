//! The revisions of a log as its store keeps them.

ghost use Rattle.std.specs.Prelude.{◌≡◌, IfOk, map};
ghost use Rattle.up_store.specs.Kept as keeping;
ghost use Rattle.up_store.specs.Shared.{shared_row, made_row};

use encode_once::Shown;
use kube_meta::{Memory, Row};
use rev_log::{Change, Revision};
use std::alloc::Global;
use std::marker::Model;
use std::sync::Arc;

/// A revision with the rows that its changes make, each made once for all who put it into a tree. A copy of it shares
/// both. Seen in contracts as the revision.
#[derive(Drop)]
pub struct SharedRevision {
    parts: Arc<Parts>,
}

// A revision, and of each of its changes the row that it makes, if it makes one.
#[derive(Drop)]
struct Parts {
    revision: Revision,
    made: Vec<Option<Arc<Shown>>>,
}

impl Model for SharedRevision {
    ghost use Rattle.std.specs.Prelude.{◌≡◌, map};
    ghost use Rattle.rev_log.specs.Changes.{RevisionData};
    ghost use Rattle.up_store.specs.Shared.{shared_row, made_row};

    ghost Value = { RevisionData };

    ghost view = { λ s. s.parts.value.revision };

    ghost invariant = { λ s. map shared_row s.parts.value.made.items ≡ map (made_row s.parts.value.revision.rev) s.parts.value.revision.changes };
}

impl SharedRevision {
    /// A revision, to be shared.
    pub fn new(alloc: Global, revision: Revision) -> Result<SharedRevision, Memory>
        ensures { IfOk result (λ shared. shared ≡ revision) }
    {
        let made = rows_made(alloc, &revision)?;
        let parts = Arc::new(alloc, Parts { revision, made })?;
        Ok(SharedRevision { parts })
    }

    /// The same once more. It costs a count.
    pub fn again(&self) -> Result<SharedRevision, Memory>
        ensures { IfOk result (λ other. other ≡ self.now) }
    {
        let parts = Arc::try_clone(&self.parts)?;
        Ok(SharedRevision { parts })
    }

    /// The revision.
    pub fn get(&self) -> &Revision
        ensures { result.now ≡ self.now }
    {
        &self.parts.revision
    }

    /// The rows that its changes make, one for each change.
    pub fn made(&self) -> &[Option<Arc<Shown>>]
        ensures { map shared_row result.now ≡ map (made_row self.now.rev) self.now.changes }
    {
        self.parts.made.as_slice()
    }
}

/// The bytes that a revision carries: the texts of its new objects.
pub fn carried(revision: &Revision) -> u64
    ensures { result ≡ keeping.carried revision.now }
{
    let mut bytes: u64 = 0;
    for change in &revision.changes {
        if let Some(obj) = &change.new {
            bytes = bytes
                .saturating_add(obj.front.as_str().len() as u64)
                .saturating_add(obj.back.as_str().len() as u64);
        }
    }
    bytes
}

/// Revisions, to be shared.
pub fn shared(alloc: Global, revisions: Vec<Revision>) -> Result<Vec<SharedRevision>, Memory>
    ensures { IfOk result (λ list. list.items ≡ revisions.items) }
{
    let mut list = Vec::with_capacity(alloc, revisions.len())?;
    for revision in revisions {
        list.push(SharedRevision::new(alloc, revision)?)?;
    }
    Ok(list)
}

// The row that each change of a revision makes.
fn rows_made(alloc: Global, revision: &Revision) -> Result<Vec<Option<Arc<Shown>>>, Memory>
    ensures { IfOk result (λ made. map shared_row made.items ≡ map (made_row revision.now.rev) revision.now.changes) }
{
    let mut made = Vec::with_capacity(alloc, revision.changes.len())?;
    for change in &revision.changes {
        made.push(row_made(alloc, change, revision.rev)?)?;
    }
    Ok(made)
}

// The row that a change makes at a revision.
fn row_made(alloc: Global, change: &Change, rev: u64) -> Result<Option<Arc<Shown>>, Memory>
    ensures { IfOk result (λ row. shared_row row ≡ made_row rev change.now) }
{
    match &change.new {
        Some(obj) => Ok(Some(Shown::new(
            alloc,
            Row {
                obj: obj.clone()?,
                rev,
            },
        )?)),
        None => Ok(None),
    }
}
