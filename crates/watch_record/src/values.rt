//! Texts read as JSON.

ghost use Rattle.std.specs.Prelude.{◌≡◌, ◌≤◌, IfOk, IfSome, option_map};
ghost use Rattle.serde_json.specs.Data.{depth};
ghost use Rattle.serde_json.specs.Read.{read, max_depth};
ghost use Rattle.serde_json.specs.View.{view};

use kube_meta::Memory;
use serde_json::Value;
use std::alloc::Global;

// The value of a text, if it is JSON.
pub(crate) fn value_of(alloc: Global, text: &str) -> Result<Option<Value>, Memory>
    ensures value { IfOk result (λ value. option_map view value ≡ read text.now) }
    ensures nests { IfOk result (λ value. IfSome value (λ v. depth (view v) ≤ max_depth)) }
{
    match Value::from_str(alloc, text) {
        Ok(value) => Ok(Some(value)),
        Err(error) if error.is_memory() => Err(Memory),
        Err(_) => Ok(None),
    }
}
