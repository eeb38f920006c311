//! The lines of a log, read.

ghost use Rattle.std.specs.Prelude.{◌≡◌, ◌≢◌, ◌≤◌, ◌^◌, ◌++◌, ◌&&◌, nat_le, bytes_eq, IfOk, OnOk, MatchOption, Some, None, is_none, true, false, length, option_map, string_bytes};
ghost use Rattle.std.specs.Option.{option_map_or};
ghost use Rattle.serde_json.specs.Data.{Data, depth, items_depth};
ghost use Rattle.serde_json.specs.Read.{max_depth};
ghost use Rattle.serde_json.specs.View.{view, items_view};
ghost use Rattle.serde_json.specs.Written.{compact_text};
ghost use Rattle.kube_meta.specs.Keys.{namespace_of, name_of};
ghost use Rattle.kube_meta.specs.Names.{IsNamespace};
ghost use Rattle.json_obj.specs.Objects.{IsTextOf, refusal, IsObjectOf};
ghost use Rattle.watch_record.specs.Revisions.{changes_array, is_stored, told_in, all_told, is_line_of, tells_revision, IsRecordedRevision};
ghost use Rattle.watch_record.specs.Reading.{KeepsObject, KeepsNew, ReadsChange, ReadsChanges, ReadsRevision, IsKept};

use crate::heading::{resource_in, text_in};
use crate::texts::{LINE_FRONT, push_back, push_key, push_resource};
use crate::values::value_of;
use json_obj::{ObjNo, read_obj};
use kube_meta::{Key, MAX_REVISION, Memory, Obj, Resource, Text};
use rev_log::{Change, Revision};
use serde_json::Value;
use std::alloc::Global;
use std::sync::Arc;

// The revision that a line tells, if it is the one with this number.
pub(crate) fn read_revision(alloc: Global, line: &str, rev: u64) -> Result<Option<Revision>, Memory>
    ensures { IfOk result (λ found. MatchOption found (tells_revision rev line.now ≡ false) (λ revision.
        (tells_revision rev line.now ≡ true) × IsRecordedRevision rev line.now revision × IsKept rev revision)) }
{
    let Some(value) = value_of(alloc, line)? else {
        return Ok(None);
    };
    let Some(items) = items_in(&value) else {
        return Ok(None);
    };
    let Some(revision) = revision_of(alloc, line, items, rev)? else {
        return Ok(None);
    };
    Ok(Some(revision))
}

// The changes of a line, as values.
fn items_in(value: &Value) -> Option<&Vec<Value>>
    ensures { option_map (λ items. items_view items.now.items) result ≡ changes_array (view value.now) }
{
    value.get("changes").and_then(Value::as_array)
}

// The revision with these changes, if the line is its text.
fn revision_of(
    alloc: Global,
    line: &str,
    items: &Vec<Value>,
    rev: u64,
) -> Result<Option<Revision>, Memory>
    requires { items_depth (items_view items.now.items) ≤ max_depth }
    ensures { let told = all_told (items_view items.now.items) in IfOk result (λ found. MatchOption found
        (option_map_or (is_line_of rev line.now) told false ≡ false)
        (λ revision. ReadsRevision rev line.now told revision)) }
{
    let mut text = Vec::new(alloc);
    text.extend_from_slice(LINE_FRONT)?;
    let Some(changes) = read_changes(alloc, items, rev, &mut text)? else {
        return Ok(None);
    };
    push_back(alloc, &mut text, rev)?;
    if !is_text(changes.as_slice(), rev, text.as_slice(), line) {
        return Ok(None);
    }
    match Revision::new(rev, changes) {
        Ok(revision) => Ok(Some(revision)),
        Err(_) => Ok(None),
    }
}

// Whether there is a change, the revision is one, and the line is this text.
fn is_text(changes: &[Change], rev: u64, text: &[u8], line: &str) -> bool
    ensures { result ≡ (nat_le 1 (length changes.now) && (nat_le rev (2 ^ 62) && bytes_eq text.now line.now)) }
{
    changes.len() >= 1 && rev <= MAX_REVISION && text == line.as_bytes()
}

// The changes that values tell, if each tells one; their texts are written.
fn read_changes(
    alloc: Global,
    items: &Vec<Value>,
    rev: u64,
    out: &mut Vec<u8>,
) -> Result<Option<Vec<Change>>, Memory>
    requires { items_depth (items_view items.now.items) ≤ max_depth }
    ensures { IfOk result (λ found. MatchOption found (all_told (items_view items.now.items) ≡ None)
        (λ changes. ReadsChanges rev (all_told (items_view items.now.items)) changes.items out.old.items out.new.items)) }
{
    let mut changes = Vec::new(alloc);
    for item in items {
        let later = !changes.as_slice().is_empty();
        let Some(change) = read_change(alloc, item, rev, later, out)? else {
            return Ok(None);
        };
        changes.push(change)?;
    }
    Ok(Some(changes))
}

// The change that a value tells, if it tells one; its text is written, after a comma where one stands before.
fn read_change(
    alloc: Global,
    value: &Value,
    rev: u64,
    later: bool,
    out: &mut Vec<u8>,
) -> Result<Option<Change>, Memory>
    requires { depth (view value.now) ≤ max_depth }
    ensures { IfOk result (λ found. MatchOption found (told_in (view value.now) ≡ None)
        (λ change. ReadsChange rev later (told_in (view value.now)) change out.old.items out.new.items)) }
{
    let Some(key) = text_in(value, "key") else {
        return Ok(None);
    };
    let Some(object) = value.get("object") else {
        return Ok(None);
    };
    let Some(resource) = resource_in(value) else {
        return Ok(None);
    };
    let Some(key) = Key::read(alloc, key.as_bytes())? else {
        return Ok(None);
    };
    change_at(alloc, key, object, resource, rev, later, out)
}

// The same of its parts.
fn change_at(
    alloc: Global,
    key: Key,
    object: &Value,
    resource: Resource,
    rev: u64,
    later: bool,
    out: &mut Vec<u8>,
) -> Result<Option<Change>, Memory>
    requires { depth (view object.now) ≤ max_depth }
    ensures { IfOk result (λ found. MatchOption found (is_stored resource key (view object.now) ≡ false)
        (λ change. (is_stored resource key (view object.now) ≡ true)
        × ReadsChange rev later (Some (record { key = key; object = view object.now; resource = resource })) change out.old.items out.new.items)) }
{
    push_key(out, later, key.as_str())?;
    let Some(new) = read_new(alloc, object, resource, &key, out)? else {
        return Ok(None);
    };
    push_resource(out, resource)?;
    Ok(Some(Change {
        rev,
        resource,
        key,
        new,
    }))
}

// What stands at a key by a value: nothing where that is null; its text is written.
fn read_new(
    alloc: Global,
    object: &Value,
    resource: Resource,
    key: &Key,
    out: &mut Vec<u8>,
) -> Result<Option<Option<Arc<Obj>>>, Memory>
    requires { depth (view object.now) ≤ max_depth }
    ensures { IfOk result (λ found. MatchOption found (is_stored resource key.now (view object.now) ≡ false)
        (λ new. KeepsNew resource key.now (view object.now) (option_map (λ obj. obj.value) new)
        × (out.new.items ≡ out.old.items ++ compact_text (view object.now)))) }
{
    if object.is_null() {
        out.extend_from_slice(b"null")?;
        return Ok(Some(None));
    }
    let Some((obj, text)) = object_of(alloc, object, resource, key)? else {
        return Ok(None);
    };
    out.extend_from_slice(text.as_bytes())?;
    Ok(Some(Some(Arc::new(alloc, obj)?)))
}

// The object of a value, if that may be stored at the key, and the value's text.
fn object_of(
    alloc: Global,
    object: &Value,
    resource: Resource,
    key: &Key,
) -> Result<Option<(Obj, String)>, Memory>
    requires { depth (view object.now) ≤ max_depth }
    ensures { let fault = refusal resource (namespace_of key.now) (Some (name_of key.now)) (view object.now) in
        IfOk result (λ found. MatchOption found (is_none fault ≡ false) (λ kept. (fault ≡ None)
        × IsObjectOf resource (namespace_of key.now) (view object.now) kept.0 × (kept.0.key ≡ key.now)
        × (string_bytes kept.1 ≡ compact_text (view object.now)))) }
{
    let ns = Text::new(alloc, key.ns())?;
    let name = Text::new(alloc, key.name())?;
    let text = object.to_string(alloc)?;
    let Some(obj) = obj_at(alloc, text.as_bytes(), resource, &ns, &name)? else {
        return Ok(None);
    };
    Ok(Some((obj, text)))
}

// The object that a text holds, if it may be stored in the namespace under the name.
fn obj_at(
    alloc: Global,
    text: &[u8],
    resource: Resource,
    ns: &Text,
    name: &Text,
) -> Result<Option<Obj>, Memory>
    requires { IsNamespace ns.now }
    ensures { IfOk result (λ found. (d : Data) → IsTextOf text.now d → KeepsObject resource ns.now name.now d found) }
{
    match read_obj(alloc, text, resource, ns, Some(name)) {
        Ok((obj, _)) => Ok(Some(obj)),
        Err(fault) => {
            unless_memory(fault)?;
            Ok(None)
        }
    }
}

// Want of memory is no fault of an object.
fn unless_memory(fault: ObjNo) -> Result<(), Memory>
    ensures { OnOk result (fault ≢ ObjNo.Memory) }
{
    match fault {
        ObjNo::Memory => Err(Memory),
        _ => Ok(()),
    }
}
