//! The objects that values show.

ghost use Rattle.std.specs.Prelude.{◌≡◌, ◌↔◌, ℕ, IfOk, IsTrue, MatchOption, None};
ghost use Rattle.serde_json.specs.Data.{Data};
ghost use Rattle.serde_json.specs.View.{view};
ghost use Rattle.kube_meta.specs.declared.objects.Obj.{Obj as Object};
ghost use Rattle.json_obj.specs.Objects.{IsTextOf, value_refusal};
ghost use Rattle.watch_lines.specs.Values.{ShowsObject};

use crate::objects::{kept_in, place_in};
use crate::plain::{MAX_NESTING, holds_float, nests_within};
use kube_meta::{Memory, Obj, Resource};
use serde_json::Value;
use std::alloc::Global;

/// The value of a text that is JSON.
pub(crate) fn text_value(alloc: Global, text: &[u8]) -> Result<Option<Value>, Memory>
    ensures { IfOk result (λ found. MatchOption found ((d : Data) → ¬ (IsTextOf text.now d))
        (λ value. IsTextOf text.now (view value))) }
{
    match Value::from_slice(alloc, text) {
        Ok(value) => Ok(Some(value)),
        Err(error) if error.is_memory() => Err(Memory),
        Err(_) => Ok(None),
    }
}

/// The object that a value shows, and the revision at which it does.
pub(crate) fn shown_in(
    alloc: Global,
    resource: Resource,
    value: &Value,
) -> Result<Option<(Obj, u64)>, Memory>
    ensures { IfOk result (λ found. MatchOption found
        ((obj : Object) (rev : ℕ) → ¬ (ShowsObject resource (view value.now) obj rev))
        (λ shown. ShowsObject resource (view value.now) shown.0 shown.1)) }
{
    if !is_plain(value) {
        return Ok(None);
    }
    let Some((ns, name)) = place_in(alloc, value)? else {
        return Ok(None);
    };
    kept_in(alloc, value, resource, &ns, &name)
}

// Whether a value has no float, and nests no deeper than objects may.
fn is_plain(value: &Value) -> bool
    ensures { IsTrue result ↔ (value_refusal (view value.now) ≡ None) }
{
    !holds_float(value) && nests_within(value, MAX_NESTING)
}
