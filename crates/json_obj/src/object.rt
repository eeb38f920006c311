//! Objects from JSON.

ghost use Rattle.std.specs.Prelude.{◌≡◌, ◌≢◌, not, if◌then◌else◌, IfOk, IfErr, None, Some, option_map, string_bytes, IsUtf8};
ghost use Rattle.kube_meta.specs.Keys.{joined};
ghost use Rattle.kube_meta.specs.Names.{IsNamespace, IsObjectName};
ghost use Rattle.serde_json.specs.Data.{Data};
ghost use Rattle.serde_json.specs.View.{view};
ghost use Rattle.json_obj.specs.Objects as object;
ghost use Rattle.json_obj.specs.Objects.{IsTextOf, IsObjectOf, Stores, WritesObject};

use crate::metadata::{is_absent_or, is_metadata, labels_in, revision_in, text_in};
use crate::plain::{holds_float, nests_within};
use crate::refusals::ObjNo;
use crate::text::{ObjectText, object_text};
use kube_meta::{Fields, Key, KeyNo, Memory, Obj, Resource, Text};
use serde_json::Value;
use std::alloc::Global;

const MAX_NESTING: usize = 64;

/// Reads the body of a create or of a replacement as an object of the resource in the namespace
/// `ns`. `name` is the name in the path of a replacement, and `None` for a create. Beside the object
/// it answers the resource version that a replacement gives: `None` where it is absent, empty or
/// `0`, and the replacement is then unconditional.
///
/// The object that is stored has the members that were read, with `apiVersion`, `kind` and
/// `metadata.namespace` set, and with a gap for `metadata.resourceVersion`. Of a member that is
/// repeated the last value counts.
pub fn read_obj(
    alloc: Global,
    bytes: &[u8],
    resource: Resource,
    ns: &Text,
    name: Option<&Text>,
) -> Result<(Obj, Option<u64>), ObjNo>
    requires { IsNamespace ns.now }
    ensures ok { let path = option_map (λ n. n.now) name.entry in IfOk result (λ stored. (d : Data)
        × IsTextOf bytes.now d × (object.refusal resource ns.now path d ≡ None)
        × Stores resource ns.now d stored) }
    ensures not_json { result ≡ Err ObjNo.NotJson → (d : Data) → ¬ (IsTextOf bytes.now d) }
    ensures refused { let path = option_map (λ n. n.now) name.entry in IfErr result (λ no.
        no ≢ ObjNo.NotJson → no ≢ ObjNo.Memory → (d : Data)
        × IsTextOf bytes.now d × (object.refusal resource ns.now path d ≡ Some no)) }
{
    let value = read_value(alloc, bytes)?;
    obj_of(alloc, &value, resource, ns, name)
}

/// Reads a body as a value whose numbers are integers of 64 bits and which nests at most 64 deep.
pub fn read_value(alloc: Global, bytes: &[u8]) -> Result<Value, ObjNo>
    ensures ok { IfOk result (λ value. IsTextOf bytes.now (view value)
        × (object.value_refusal (view value) ≡ None)) }
    ensures not_json { result ≡ Err ObjNo.NotJson → (d : Data) → ¬ (IsTextOf bytes.now d) }
    ensures refused { IfErr result (λ no. no ≢ ObjNo.NotJson → no ≢ ObjNo.Memory → (d : Data)
        × IsTextOf bytes.now d × (object.value_refusal d ≡ Some no)) }
{
    let value = match Value::from_slice(alloc, bytes) {
        Ok(value) => value,
        Err(error) if error.is_memory() => return Err(ObjNo::Memory),
        Err(_) => return Err(ObjNo::NotJson),
    };
    if holds_float(&value) {
        return Err(ObjNo::Float);
    }
    if !nests_within(&value, MAX_NESTING) {
        return Err(ObjNo::TooDeep);
    }
    Ok(value)
}

/// The object of the resource for a value that was read already, as `read_obj` has it. Of its numbers and its nesting
/// nothing is asked.
pub fn obj_of(
    alloc: Global,
    value: &Value,
    resource: Resource,
    ns: &Text,
    name: Option<&Text>,
) -> Result<(Obj, Option<u64>), ObjNo>
    requires { IsNamespace ns.now }
    ensures ok { let path = option_map (λ n. n.now) name.entry in IfOk result (λ stored.
        (object.members_refusal resource ns.now path (view value.now) ≡ None)
        × Stores resource ns.now (view value.now) stored) }
    ensures refused { let path = option_map (λ n. n.now) name.entry in IfErr result (λ no.
        no ≢ ObjNo.Memory → object.members_refusal resource ns.now path (view value.now) ≡ Some no) }
    ensures exact { let path = option_map (λ n. n.now) name.entry in (no : ObjNo)
        → object.members_refusal resource ns.now path (view value.now) ≡ Some no → result ≡ Err no }
{
    match members_fault(value, resource, ns, name) {
        Some(no) => Err(no),
        None => Ok(object_for(alloc, value, resource, ns, name)?),
    }
}

/// Why the value isn't stored, of the two reasons that lie in its members. It takes no memory to tell.
pub fn members_fault(
    value: &Value,
    resource: Resource,
    ns: &Text,
    name: Option<&Text>,
) -> Option<ObjNo>
    ensures { result ≡ object.members_refusal resource ns.now (option_map (λ n. n.now) name.entry) (view value.now) }
{
    if !is_of_kind(value, resource) {
        return Some(ObjNo::WrongKind);
    }
    match value.get("metadata") {
        Some(metadata) => metadata_fault(metadata, ns, name),
        None => Some(ObjNo::BadMeta),
    }
}

fn metadata_fault(metadata: &Value, ns: &Text, name: Option<&Text>) -> Option<ObjNo>
    ensures { result ≡ (if not (object.is_metadata ns.now (option_map (λ n. n.now) name.entry) (view metadata.now))
        then Some ObjNo.BadMeta else None) }
{
    if is_metadata(metadata, ns.as_str(), name) {
        None
    } else {
        Some(ObjNo::BadMeta)
    }
}

// The object of a value that nothing in its members refuses.
fn object_for(
    alloc: Global,
    value: &Value,
    resource: Resource,
    ns: &Text,
    name: Option<&Text>,
) -> Result<(Obj, Option<u64>), Memory>
    requires namespace { IsNamespace ns.now }
    requires allowed { object.members_refusal resource ns.now (option_map (λ n. n.now) name) (view value.now) ≡ None }
    ensures { IfOk result (Stores resource ns.now (view value.now)) }
{
    let Some(members) = value.as_object() else {
        unreachable!()
    };
    let Some(metadata) = value.get("metadata") else {
        unreachable!()
    };
    let Some(metadata_members) = metadata.as_object() else {
        unreachable!()
    };
    let given = revision_in(metadata.get("resourceVersion")).unwrap_or(None);
    let text = object_text(alloc, resource, ns.as_str(), members, metadata_members)?;
    let object = stored(alloc, value, metadata, resource, ns, text)?;
    Ok((object, given))
}

// The object with this text.
fn stored(
    alloc: Global,
    value: &Value,
    metadata: &Value,
    resource: Resource,
    ns: &Text,
    text: ObjectText,
) -> Result<Obj, Memory>
    requires namespace { IsNamespace ns.now }
    requires name { IsObjectName (object.name_in (view metadata.now)) }
    requires metadata { view metadata.now ≡ object.metadata_of (view value.now) }
    requires text { WritesObject resource ns.now (object.members_in (view value.now))
        (object.members_in (object.metadata_of (view value.now))) (string_bytes text.front)
        (string_bytes text.back) text.meta_from text.meta_to }
    ensures { IfOk result (IsObjectOf resource ns.now (view value.now)) }
{
    let key = key_of(alloc, metadata, ns)?;
    let labels = labels_in(alloc, metadata)?;
    let fields = fields_of(alloc, value, resource)?;
    let _in_order = labels.pairs();
    Ok(Obj {
        key,
        labels,
        fields,
        front: kept(text.front),
        back: kept(text.back),
        meta_from: text.meta_from,
        meta_to: text.meta_to,
    })
}

// A text that is kept, without the room into which it grew. It's UTF-8, as each text.
fn kept(text: String) -> Text
    ensures same { result ≡ string_bytes text }
    ensures utf8 { IsUtf8 result }
{
    let mut text = text;
    text.shrink_to_fit();
    let _utf8 = text.as_str();
    Text::from_string(text)
}

// The key of the object with this metadata.
fn key_of(alloc: Global, metadata: &Value, ns: &Text) -> Result<Key, Memory>
    requires namespace { IsNamespace ns.now }
    requires name { IsObjectName (object.name_in (view metadata.now)) }
    ensures { IfOk result (λ key. key ≡ joined ns.now (object.name_in (view metadata.now))) }
{
    let name = Text::new(alloc, text_in(metadata, "name"))?;
    match Key::new(ns.clone()?, name) {
        Ok(key) => Ok(key),
        Err(KeyNo::Memory) => Err(Memory),
        Err(KeyNo::BadName | KeyNo::BadNamespace) => unreachable!(),
    }
}

// The values of the listed fields.
fn fields_of(alloc: Global, value: &Value, resource: Resource) -> Result<Fields, Memory>
    ensures { IfOk result (λ fields. fields ≡ object.field_values resource (view value.now)) }
{
    match resource {
        Resource::Pods => {
            let mut values = Vec::with_capacity(alloc, 2)?;
            values.push(Text::new(alloc, text_at(value, "spec", "nodeName"))?)?;
            values.push(Text::new(alloc, text_at(value, "status", "phase"))?)?;
            Ok(Fields::new(values))
        }
        Resource::ConfigMaps | Resource::Deployments => Ok(Fields::new(Vec::new(alloc))),
    }
}

// The text at a member of a member, or no text where there is none.
fn text_at<'v>(value: &'v Value, outer: &str, inner: &str) -> &'v str
    ensures { result.now ≡ object.text_at outer.now inner.now (view value.now) }
{
    match value.get(outer) {
        Some(member) => text_in(member, inner),
        None => "",
    }
}

// Whether the value is an object whose version and kind, where it has them, are the resource's.
fn is_of_kind(value: &Value, resource: Resource) -> bool
    ensures { result ≡ object.is_of_kind resource (view value.now) }
{
    value.is_object()
        && is_absent_or(value.get("apiVersion"), resource.api_version())
        && is_absent_or(value.get("kind"), resource.kind())
}
