//! Logs as lines.

ghost use Rattle.std.specs.Prelude.{◌≡◌, ◌++◌, OnOk, IfOk, map};
ghost use Rattle.std.specs.List.{flat_map};
ghost use Rattle.serde_json.specs.Written.{comma_if};
ghost use Rattle.kube_meta.specs.Objects.{object_json};
ghost use Rattle.json_obj.specs.Replies.{items_text};
ghost use Rattle.watch_record.specs.Revisions.{new_text, text_of_change, revision_line};

use crate::texts::{LINE_FRONT, push_back, push_key, push_resource};
use kube_meta::{Memory, Obj};
use rev_log::{Change, Revision};
use std::alloc::Global;

/// The lines of a log, as a record has them behind its first line: each revision with its changes, and with its objects
/// as they are shown.
pub fn log_lines(alloc: Global, log: &[Revision]) -> Result<Vec<u8>, Memory>
    ensures { IfOk result (λ text. text.items ≡ flat_map revision_line log.now) }
{
    let mut out = Vec::new(alloc);
    for revision in log {
        push_revision(alloc, &mut out, revision)?;
    }
    Ok(out)
}

// Writes a revision's line.
fn push_revision(alloc: Global, out: &mut Vec<u8>, revision: &Revision) -> Result<(), Memory>
    ensures { OnOk result (out.new.items ≡ out.old.items ++ revision_line revision.now) }
{
    out.extend_from_slice(LINE_FRONT)?;
    push_changes(alloc, out, &revision.changes)?;
    push_back(alloc, out, revision.rev)?;
    out.push(b'\n')?;
    Ok(())
}

// Writes the changes of a line.
fn push_changes(alloc: Global, out: &mut Vec<u8>, changes: &[Change]) -> Result<(), Memory>
    ensures { OnOk result (out.new.items ≡ out.old.items ++ items_text (map text_of_change changes.now)) }
{
    let mut later = false;
    for change in changes {
        push_change(alloc, out, later, change)?;
        later = true;
    }
    Ok(())
}

// Writes a change, after a comma where one stands before.
fn push_change(alloc: Global, out: &mut Vec<u8>, later: bool, change: &Change) -> Result<(), Memory>
    ensures { OnOk result (out.new.items ≡ out.old.items ++ (comma_if later ++ text_of_change change.now)) }
{
    push_key(out, later, change.key.as_str())?;
    push_new(alloc, out, change)?;
    push_resource(out, change.resource)?;
    Ok(())
}

// Writes the object of a change.
fn push_new(alloc: Global, out: &mut Vec<u8>, change: &Change) -> Result<(), Memory>
    ensures { OnOk result (out.new.items ≡ out.old.items ++ new_text change.now.rev change.now.new) }
{
    match &change.new {
        Some(obj) => push_object(alloc, out, obj, change.rev),
        None => out.extend_from_slice(b"null"),
    }
}

// Writes an object as it is shown at a revision.
fn push_object(alloc: Global, out: &mut Vec<u8>, obj: &Obj, rev: u64) -> Result<(), Memory>
    ensures { OnOk result (out.new.items ≡ out.old.items ++ object_json obj.now rev) }
{
    out.extend_from_slice(obj.front.as_str().as_bytes())?;
    out.extend_from_slice(format!(in alloc; "{rev}")?.as_bytes())?;
    out.extend_from_slice(obj.back.as_str().as_bytes())
}
