//! Objects at a revision, read.

ghost use Rattle.std.specs.Prelude.{◌≡◌, ◌≢◌, ℕ, List, option_map, IfOk, OnOk, MatchOption, Some, None};
ghost use Rattle.serde_json.specs.Data.{Data};
ghost use Rattle.serde_json.specs.View.{view};
ghost use Rattle.kube_meta.specs.Names.{IsNamespace};
ghost use Rattle.kube_meta.specs.Objects.{object_json};
ghost use Rattle.kube_meta.specs.declared.objects.Obj.{Obj as Object};
ghost use Rattle.watch_lines.specs.Stored.{IsStored, IsToldAt};
ghost use Rattle.watch_lines.specs.Reading.{IsValueOf, IsPlaced, Keeps, IsOnly};
ghost use Rattle.watch_lines.specs.Reading as reading;

use json_obj::{ObjNo, obj_of, objects_read_back, read_value, values_are_orderly};
use kube_meta::{Memory, Obj, Resource, Text, is_namespace, revisions_are_read_back};
use serde_json::Value;
use std::alloc::Global;

/// The one object, at the one revision, whose text this may be. That it is has still to be tested.
pub(crate) fn only_object(
    alloc: Global,
    resource: Resource,
    text: &[u8],
) -> Result<Option<(Obj, u64)>, Memory>
    ensures { IfOk result (λ found. MatchOption found
        ((obj : Object) (rev : ℕ) → IsStored resource obj → IsToldAt rev → text.now ≢ object_json obj rev)
        (λ only. IsOnly resource text.now only.0 only.1)) }
{
    values_are_orderly();
    objects_read_back();
    revisions_are_read_back();
    let Some(value) = value_of(alloc, text)? else {
        return Ok(None);
    };
    let Some((ns, name)) = place_in(alloc, &value)? else {
        return Ok(None);
    };
    kept_in(alloc, &value, resource, &ns, &name)
}

/// The value of a text that is JSON with no float and with no deeper nesting than objects may have.
pub(crate) fn value_of(alloc: Global, text: &[u8]) -> Result<Option<Value>, Memory>
    ensures { IfOk result (λ found. MatchOption found ((d : Data) → ¬ (IsValueOf text.now d))
        (λ value. IsValueOf text.now (view value))) }
{
    match read_value(alloc, text) {
        Ok(value) => Ok(Some(value)),
        Err(fault) => {
            unless_memory(fault)?;
            Ok(None)
        }
    }
}

// Want of memory is no fault of a text.
fn unless_memory(fault: ObjNo) -> Result<(), Memory>
    ensures { OnOk result (fault ≢ ObjNo.Memory) }
{
    match fault {
        ObjNo::Memory => Err(Memory),
        _ => Ok(()),
    }
}

/// The namespace and the name in a value's metadata.
pub(crate) fn place_in(alloc: Global, value: &Value) -> Result<Option<(Text, Text)>, Memory>
    ensures { IfOk result (λ found. MatchOption found
        ((ns name : List ℕ) → ¬ (IsPlaced (view value.now) ns name))
        (λ place. IsPlaced (view value.now) place.0 place.1)) }
{
    let Some(ns) = text_at(value, "namespace") else {
        return Ok(None);
    };
    let Some(name) = text_at(value, "name") else {
        return Ok(None);
    };
    if !is_namespace(ns) {
        return Ok(None);
    }
    Ok(Some((Text::new(alloc, ns)?, Text::new(alloc, name)?)))
}

/// The text at a name in the metadata.
pub(crate) fn text_at<'v>(value: &'v Value, name: &str) -> Option<&'v str>
    ensures { option_map (λ text. text.now) result ≡ reading.text_at name.now (view value.now) }
{
    match value.get("metadata") {
        Some(metadata) => metadata.get(name).and_then(Value::as_str),
        None => None,
    }
}

/// The object of a value at its place, and the revision that it gives.
pub(crate) fn kept_in(
    alloc: Global,
    value: &Value,
    resource: Resource,
    ns: &Text,
    name: &Text,
) -> Result<Option<(Obj, u64)>, Memory>
    requires { IsNamespace ns.now }
    ensures { IfOk result (λ found. MatchOption found
        ((obj : Object) (rev : ℕ) → ¬ (Keeps resource ns.now name.now (view value.now) obj rev))
        (λ kept. Keeps resource ns.now name.now (view value.now) kept.0 kept.1)) }
{
    match obj_of(alloc, value, resource, ns, Some(name)) {
        Ok((obj, given)) => Ok(at_given(obj, given)),
        Err(fault) => {
            unless_memory(fault)?;
            Ok(None)
        }
    }
}

// The object with the revision, if one is given.
fn at_given(obj: Obj, given: Option<u64>) -> Option<(Obj, u64)>
    ensures { MatchOption result (given ≡ None) (λ kept. (kept.0 ≡ obj) × (given ≡ Some kept.1)) }
{
    match given {
        Some(rev) => Some((obj, rev)),
        None => None,
    }
}
