//! What may be stored of an object's metadata.

ghost use Rattle.std.specs.Prelude.{◌≡◌, ◌≢◌, ℕ, List, false, IfOk, OnOk, None, option_map, option_and_then};
ghost use Rattle.std.specs.Option.{option_map_or};
ghost use Rattle.std.specs.Str.{bytes_eq};
ghost use Rattle.kube_meta.specs.Labels.{value_at};
ghost use Rattle.kube_meta.specs.Revisions.{revision_of};
ghost use Rattle.kube_meta.specs.Names.{is_label_value as is_value};
ghost use Rattle.serde_json.specs.Find.{as_str, get_member};
ghost use Rattle.serde_json.specs.View.{view, members_view};
ghost use Rattle.json_obj.specs.Objects as object;

use kube_meta::{Labels, Memory, Rev, Text, is_label_key, is_label_value, is_object_name};
use serde_json::{Map, Value};
use std::alloc::Global;

// Whether the metadata may be stored in the namespace: by a replacement at the path's name, or by a
// create where the path has no name.
pub(crate) fn is_metadata(metadata: &Value, ns: &str, path: Option<&Text>) -> bool
    ensures { result ≡ object.is_metadata ns.now (option_map (λ name. name.now) path.entry) (view metadata.now) }
{
    metadata.is_object()
        && is_name(metadata.get("name"), path)
        && is_absent_or(metadata.get("namespace"), ns)
        && has_labels(metadata.get("labels"))
        && is_revision_for(path, revision_in(metadata.get("resourceVersion")))
}

// Whether the member is absent, or is this text.
pub(crate) fn is_absent_or(found: Option<&Value>, text: &str) -> bool
    ensures { result ≡ object.is_absent_or text.now (option_map (λ v. view v.now) found.entry) }
{
    match found {
        Some(value) => is_text(value, text),
        None => true,
    }
}

fn is_text(value: &Value, text: &str) -> bool
    ensures { result ≡ option_map_or (bytes_eq text.now) (as_str (view value.now)) false }
{
    match value.as_str() {
        Some(found) => text == found,
        None => false,
    }
}

fn is_name(found: Option<&Value>, path: Option<&Text>) -> bool
    ensures { result ≡ object.is_name (option_map (λ name. name.now) path.entry)
        (option_map (λ v. view v.now) found.entry) }
{
    match found.and_then(Value::as_str) {
        Some(name) => is_object_name(name) && is_path_name(path, name),
        None => false,
    }
}

fn is_path_name(path: Option<&Text>, name: &str) -> bool
    ensures { result ≡ object.is_path_name (option_map (λ name. name.now) path.entry) name.now }
{
    match path {
        Some(path) => path.as_str() == name,
        None => true,
    }
}

fn has_labels(found: Option<&Value>) -> bool
    ensures { result ≡ object.has_labels (option_map (λ v. view v.now) found.entry) }
{
    match found {
        Some(value) => is_label_map(value),
        None => true,
    }
}

fn is_label_map(value: &Value) -> bool
    ensures { result ≡ object.is_label_map (view value.now) }
{
    match value {
        Value::Null => true,
        Value::Object(members) => are_labels(members),
        _ => false,
    }
}

fn are_labels(members: &Map<String, Value>) -> bool
    ensures { result ≡ object.are_labels (members_view members.now.entries) }
{
    for (name, value) in members.iter() {
        if !is_label_key(name.as_str()) || !is_label_text(value) {
            return false;
        }
    }
    true
}

fn is_label_text(value: &Value) -> bool
    ensures { result ≡ option_map_or is_value (as_str (view value.now)) false }
{
    match value.as_str() {
        Some(text) => is_label_value(text),
        None => false,
    }
}

fn is_revision_for(path: Option<&Text>, revision: Option<Option<u64>>) -> bool
    ensures { result ≡ object.is_revision_for (option_map (λ name. name.now) path.entry) revision }
{
    match revision {
        Some(Some(_)) => path.is_some(),
        Some(None) => true,
        None => false,
    }
}

// The revision that a client saw, where it says one; the outer `None` where the member isn't
// allowed.
pub(crate) fn revision_in(found: Option<&Value>) -> Option<Option<u64>>
    ensures { result ≡ object.revision_in (option_map (λ v. view v.now) found.entry) }
{
    match found {
        Some(value) => revision_in_value(value),
        None => Some(None),
    }
}

fn revision_in_value(value: &Value) -> Option<Option<u64>>
    ensures { result ≡ object.revision_in (Some (view value.now)) }
{
    match value.as_str() {
        Some(text) => revision_in_text(text),
        None => None,
    }
}

fn revision_in_text(text: &str) -> Option<Option<u64>>
    ensures { result ≡ object.revision_in_text text.now (revision_of text.now) }
{
    match Rev::read(text.as_bytes()) {
        Ok(revision) => Some(unless_zero(revision)),
        Err(_) if text.is_empty() => Some(None),
        Err(_) => None,
    }
}

fn unless_zero(revision: u64) -> Option<u64>
    ensures { result ≡ object.unless_zero revision }
{
    if revision == 0 { None } else { Some(revision) }
}

// The text at a member, or no text where there is none.
pub(crate) fn text_in<'v>(value: &'v Value, name: &str) -> &'v str
    ensures { result.now ≡ object.text_in name.now (view value.now) }
{
    match value.get(name).and_then(Value::as_str) {
        Some(text) => text,
        None => "",
    }
}

// The labels, of those members that are texts.
pub(crate) fn labels_in(alloc: Global, metadata: &Value) -> Result<Labels, Memory>
    ensures { IfOk result (λ labels. (name : List ℕ)
        → value_at labels name ≡ object.label_in (view metadata.now) name) }
{
    match metadata.get("labels").and_then(Value::as_object) {
        Some(members) => labels_of(alloc, members),
        None => Ok(Labels::new(alloc)),
    }
}

fn labels_of(alloc: Global, members: &Map<String, Value>) -> Result<Labels, Memory>
    ensures { IfOk result (λ labels. (name : List ℕ)
        → value_at labels name ≡ option_and_then as_str (get_member name (members_view members.now.entries))) }
{
    let mut labels = Labels::with_capacity(alloc, members.len())?;
    for (name, value) in members.iter() {
        put_label(alloc, &mut labels, name.as_str(), value)?;
    }
    Ok(labels)
}

// Sets the label where its value is a text.
fn put_label(alloc: Global, labels: &mut Labels, name: &str, value: &Value) -> Result<(), Memory>
    ensures this { OnOk result (value_at labels.old name.now ≡ None
        → value_at labels.new name.now ≡ as_str (view value.now)) }
    ensures others { OnOk result ((other : List ℕ) → other ≢ name.now
        → value_at labels.new other ≡ value_at labels.old other) }
{
    if let Some(text) = value.as_str() {
        drop(labels.put(Text::new(alloc, name)?, Text::new(alloc, text)?)?);
    }
    Ok(())
}
