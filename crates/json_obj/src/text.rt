//! The JSON of an object around its revision, which is left open.

ghost use Rattle.std.specs.Prelude.{◌≡◌, OnOk, IfOk, string_bytes};
ghost use Rattle.serde_json.specs.View.{members_view};
ghost use Rattle.json_obj.specs.Objects.{WritesMetadata, WritesObject};

use crate::members::Unwritten;
use kube_meta::{Memory, Resource};
use serde_json::{Map, Value};
use std::alloc::Global;

// The room that each part of an object's text begins with, in bytes.
const USUAL_ROOM: usize = 256;

// An object's JSON before and after its revision, and where its metadata lies in the two.
#[derive(Drop)]
pub(crate) struct ObjectText {
    pub(crate) front: String,
    pub(crate) back: String,
    pub(crate) meta_from: usize,
    pub(crate) meta_to: usize,
}

pub(crate) fn object_text(
    alloc: Global,
    resource: Resource,
    ns: &str,
    members: &Map<String, Value>,
    metadata: &Map<String, Value>,
) -> Result<ObjectText, Memory>
    ensures { IfOk result (λ text. WritesObject resource ns.now (members_view members.now.entries)
        (members_view metadata.now.entries) (string_bytes text.front) (string_bytes text.back)
        text.meta_from text.meta_to) }
{
    let mut unwritten = Unwritten::of(members);
    let mut front = String::with_capacity(alloc, USUAL_ROOM)?;
    front.push_str("{")?;
    unwritten.write_text(alloc, &mut front, "apiVersion", resource.api_version())?;
    unwritten.write_text(alloc, &mut front, "kind", resource.kind())?;
    unwritten.open(alloc, &mut front, "metadata")?;
    let meta_from = front.len();
    let mut back = String::with_capacity(alloc, USUAL_ROOM)?;
    write_metadata(alloc, ns, metadata, &mut front, &mut back)?;
    let meta_to = back.len();
    unwritten.close(alloc, &mut back)?;
    Ok(ObjectText {
        front,
        back,
        meta_from,
        meta_to,
    })
}

// Writes the metadata, up to its revision in front, and from there on in the back.
fn write_metadata(
    alloc: Global,
    ns: &str,
    metadata: &Map<String, Value>,
    front: &mut String,
    back: &mut String,
) -> Result<(), Memory>
    ensures { OnOk result (WritesMetadata ns.now (members_view metadata.now.entries)
        (string_bytes front.old) (string_bytes back.old)
        (string_bytes front.new) (string_bytes back.new)) }
{
    let mut unwritten = Unwritten::of(metadata);
    front.push_str("{")?;
    unwritten.write_text(alloc, front, "namespace", ns)?;
    unwritten.open(alloc, front, "resourceVersion")?;
    front.push_str("\"")?;
    back.push_str("\"")?;
    unwritten.close(alloc, back)?;
    Ok(())
}
