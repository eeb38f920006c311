//! The text of a log's line, written piece by piece.

ghost use Rattle.std.specs.Prelude.{◌≡◌, ◌++◌, OnOk, codes, decimal};
ghost use Rattle.serde_json.specs.Written.{comma_if};
ghost use Rattle.watch_record.specs.Revisions.{key_text, resource_member, line_back};

use kube_meta::{Memory, Resource};
use std::alloc::Global;

// What a line begins with.
pub(crate) const LINE_FRONT: &[u8] = b"{\"changes\":[";

const KEY_FRONT: &[u8] = b"{\"key\":\"";

const KEY_BACK: &[u8] = b"\",\"object\":";

const RESOURCE_FRONT: &[u8] = b",\"resource\":\"";

const RESOURCE_BACK: &[u8] = b"\"}";

// Writes what stands before a change's object, after a comma where a change stands before.
pub(crate) fn push_key(out: &mut Vec<u8>, later: bool, key: &str) -> Result<(), Memory>
    ensures { OnOk result (out.new.items ≡ out.old.items ++ (comma_if later ++ key_text key.now)) }
{
    if later {
        out.push(b',')?;
    }
    out.extend_from_slice(KEY_FRONT)?;
    out.extend_from_slice(key.as_bytes())?;
    out.extend_from_slice(KEY_BACK)
}

// Writes what stands behind a change's object.
pub(crate) fn push_resource(out: &mut Vec<u8>, resource: Resource) -> Result<(), Memory>
    ensures { OnOk result (out.new.items ≡ out.old.items ++ resource_member resource) }
{
    out.extend_from_slice(RESOURCE_FRONT)?;
    out.extend_from_slice(resource.plural().as_bytes())?;
    out.extend_from_slice(RESOURCE_BACK)
}

// Writes what stands behind a line's changes.
pub(crate) fn push_back(alloc: Global, out: &mut Vec<u8>, rev: u64) -> Result<(), Memory>
    ensures { OnOk result (out.new.items ≡ out.old.items ++ line_back rev) }
{
    let text = format!(in alloc; "],\"rev\":{rev}}}")?;
    out.extend_from_slice(text.as_bytes())
}
