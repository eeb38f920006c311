//! Why a text is no line and no page, for the words that a person reads. Nothing is decided by it.

ghost use Rattle.std.specs.Prelude.{◌≡◌, false, IfOk, option_map};
ghost use Rattle.std.specs.Option.{option_map_or};
ghost use Rattle.std.specs.Str.{bytes_eq};
ghost use Rattle.serde_json.specs.Find.{as_str};
ghost use Rattle.serde_json.specs.View.{view, items_view};
ghost use Rattle.json_obj.specs.Objects as object;
ghost use Rattle.watch_lines.specs.Troubles as told;
ghost use Rattle.watch_lines.specs.Troubles.{TellsTrouble, object_trouble};

use crate::objects::text_at;
use crate::pages::items_in;
use crate::plain::{MAX_NESTING, holds_float, nests_within};
use crate::shown::text_value;
use crate::values::revision_at;
use kube_meta::{Memory, Resource, Text, is_namespace};
use serde_json::Value;
use std::alloc::Global;

/// Why a text is no line and no page; the first of these that holds.
#[derive(Clone, Copy, Debug, PartialEq, Eq)]
pub enum Trouble {
    /// The text isn't one JSON text in UTF-8.
    NotJson,
    /// An object nests more than 64 deep.
    TooDeep,
    /// Some number of an object is a float.
    Float,
    /// An object has no namespace that may be one, or no name.
    NoPlace,
    /// An object's version or kind is another one than the resource's.
    Kind,
    /// An object has no revision from 1 to 2^62.
    Revision,
    /// Anything else.
    Other,
}

/// A trouble, with the namespace and the name of the object that has it, as far as they could be read.
#[derive(Debug, Drop)]
pub struct BadText {
    pub trouble: Trouble,
    pub ns: Option<Text>,
    pub name: Option<Text>,
}

/// Why a text is no line of a watch of the resource's objects, or no page of them.
pub fn trouble_of(alloc: Global, resource: Resource, text: &[u8]) -> Result<BadText, Memory>
    ensures { IfOk result (TellsTrouble resource text.now) }
{
    match text_value(alloc, text)? {
        Some(value) => bad_value(alloc, resource, &value),
        None => Ok(bad_text(Trouble::NotJson)),
    }
}

// A trouble with no object.
fn bad_text(trouble: Trouble) -> BadText
    ensures { result ≡ told.bad_text trouble }
{
    BadText {
        trouble,
        ns: None,
        name: None,
    }
}

// What is wrong with a value: with the object of a line, or with the items of a page.
fn bad_value(alloc: Global, resource: Resource, value: &Value) -> Result<BadText, Memory>
    ensures { IfOk result (λ bad. bad ≡ told.bad_value resource (view value.now)) }
{
    if let Some(object) = value.get("object") {
        return bad_object(alloc, resource, object);
    }
    match items_in(value) {
        Some(items) => bad_item(alloc, resource, items),
        None => Ok(bad_text(Trouble::Other)),
    }
}

// The first item with which something that has a name here is wrong.
fn bad_item(alloc: Global, resource: Resource, items: &[Value]) -> Result<BadText, Memory>
    ensures { IfOk result (λ bad. bad ≡ told.bad_item resource (items_view items.now)) }
{
    for item in items {
        if !matches!(trouble_in(item, resource), Trouble::Other) {
            return bad_object(alloc, resource, item);
        }
    }
    Ok(bad_text(Trouble::Other))
}

// What is wrong with an object.
fn bad_object(alloc: Global, resource: Resource, object: &Value) -> Result<BadText, Memory>
    ensures { IfOk result (λ bad. bad ≡ told.bad_object resource (view object.now)) }
{
    let ns = kept(alloc, text_at(object, "namespace"))?;
    let name = kept(alloc, text_at(object, "name"))?;
    Ok(BadText {
        trouble: trouble_in(object, resource),
        ns,
        name,
    })
}

// A copy of a text.
fn kept(alloc: Global, text: Option<&str>) -> Result<Option<Text>, Memory>
    ensures { IfOk result (λ copy. copy ≡ option_map (λ t. t.now) text.entry) }
{
    match text {
        Some(text) => Ok(Some(Text::new(alloc, text)?)),
        None => Ok(None),
    }
}

// What is wrong first with the value of an object.
fn trouble_in(value: &Value, resource: Resource) -> Trouble
    ensures { result ≡ object_trouble resource (view value.now) }
{
    if holds_float(value) {
        Trouble::Float
    } else if !nests_within(value, MAX_NESTING) {
        Trouble::TooDeep
    } else if !has_place(value) {
        Trouble::NoPlace
    } else if !is_of_kind(value, resource) {
        Trouble::Kind
    } else if revision_at(value).is_none() {
        Trouble::Revision
    } else {
        Trouble::Other
    }
}

// Whether the metadata has a namespace that may be one, and a name.
fn has_place(value: &Value) -> bool
    ensures { result ≡ told.has_place (view value.now) }
{
    match text_at(value, "namespace") {
        Some(ns) => is_namespace(ns) && text_at(value, "name").is_some(),
        None => false,
    }
}

// Whether the value is an object whose version and kind, where it has them, are the resource's.
fn is_of_kind(value: &Value, resource: Resource) -> bool
    ensures { result ≡ object.is_of_kind resource (view value.now) }
{
    value.is_object()
        && is_absent_or(value.get("apiVersion"), resource.api_version())
        && is_absent_or(value.get("kind"), resource.kind())
}

// Whether the member is absent, or is this text.
fn is_absent_or(found: Option<&Value>, text: &str) -> bool
    ensures { result ≡ object.is_absent_or text.now (option_map (λ v. view v.now) found.entry) }
{
    match found {
        Some(value) => is_text(value, text),
        None => true,
    }
}

// Whether the value is this text.
fn is_text(value: &Value, text: &str) -> bool
    ensures { result ≡ option_map_or (bytes_eq text.now) (as_str (view value.now)) false }
{
    match value.as_str() {
        Some(found) => text == found,
        None => false,
    }
}
