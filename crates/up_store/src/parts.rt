//! The part of a revision that is of one resource.

ghost use Rattle.std.specs.Prelude.{◌≡◌, IfOk};
ghost use Rattle.std.specs.List.{filter_map};
ghost use Rattle.up_api.specs.Feeds.{part_of};

use crate::revisions::SharedRevision;
use kube_meta::{Memory, Resource};
use rev_log::{Change, Revision};
use std::alloc::Global;

/// The part of a revision that is of one resource, if there is any.
pub fn part(
    alloc: Global,
    resource: Resource,
    revision: &Revision,
) -> Result<Option<Revision>, Memory>
    ensures { IfOk result (λ part. part ≡ part_of resource revision.now) }
{
    let mut changes: Vec<Change> = Vec::new(alloc);
    for change in &revision.changes {
        if change.is_of(resource) {
            changes.push(change.clone()?)?;
        }
    }
    if changes.is_empty() {
        return Ok(None);
    }
    Ok(Some(Revision {
        rev: revision.rev,
        changes,
    }))
}

/// The parts of revisions that are of one resource, of those that have any.
pub fn parts_of(
    alloc: Global,
    resource: Resource,
    revisions: &[SharedRevision],
) -> Result<Vec<Revision>, Memory>
    ensures { IfOk result (λ parts. parts.items ≡ filter_map (part_of resource) revisions.now) }
{
    let mut parts = Vec::new(alloc);
    for revision in revisions {
        if let Some(found) = part(alloc, resource, revision.get())? {
            parts.push(found)?;
        }
    }
    Ok(parts)
}
