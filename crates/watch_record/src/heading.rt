//! The first line of a record, read.

ghost use Rattle.std.specs.Prelude.{◌≡◌, IfOk, option_map, string_bytes};
ghost use Rattle.json.specs.Print.{quoted as quoted_text};
ghost use Rattle.serde_json.specs.View.{view};
ghost use Rattle.watch_record.specs.Headers.{header_of, header_front, header_back, header_text};
ghost use Rattle.watch_record.specs.Headers as headers;

use crate::header::Header;
use crate::values::value_of;
use kube_meta::{MAX_REVISION, Memory, Resource, Text};
use serde_json::Value;
use std::alloc::Global;

// The header that a line is, if it is one.
pub(crate) fn read_header(alloc: Global, line: &str) -> Result<Option<Header>, Memory>
    ensures { IfOk result (λ header. header ≡ header_of line.now) }
{
    let Some(value) = value_of(alloc, line)? else {
        return Ok(None);
    };
    let Some(header) = header_in(alloc, &value)? else {
        return Ok(None);
    };
    let text = text_of(alloc, &header)?;
    if text.as_str() == line && is_in_range(&header) {
        Ok(Some(header))
    } else {
        Ok(None)
    }
}

// The header's line.
fn text_of(alloc: Global, header: &Header) -> Result<String, Memory>
    ensures { IfOk result (λ text. string_bytes text ≡ header_text header.now) }
{
    let mut text = front_of(alloc, header)?;
    text.push_str(back_of(alloc, header)?.as_str())?;
    Ok(text)
}

// The line up to the query.
fn front_of(alloc: Global, header: &Header) -> Result<String, Memory>
    ensures { IfOk result (λ text. string_bytes text ≡ header_front header.now) }
{
    let first = header.first;
    let floor = header.floor;
    let namespace = quoted(alloc, &header.namespace)?;
    format!(in alloc; "{{\"first\":{first},\"floor\":{floor},\"namespace\":{namespace},")
}

// The line from the query on.
fn back_of(alloc: Global, header: &Header) -> Result<String, Memory>
    ensures { IfOk result (λ text. string_bytes text ≡ header_back header.now) }
{
    let query = quoted(alloc, &header.query)?;
    let resource = header.resource.plural();
    let window = header.window;
    format!(in alloc; "\"query\":{query},\"resource\":\"{resource}\",\"window\":{window}}}")
}

// A text as a JSON string.
pub(crate) fn quoted(alloc: Global, text: &Text) -> Result<String, Memory>
    ensures { IfOk result (λ s. string_bytes s ≡ quoted_text text.now) }
{
    Value::String(text.to_string()?).to_string(alloc)
}

fn is_in_range(header: &Header) -> bool
    ensures { result ≡ headers.is_in_range header.now }
{
    header.first >= 1 && header.first <= MAX_REVISION && header.window >= 1
}

// What a value holds of a header, if it holds all of one.
fn header_in(alloc: Global, value: &Value) -> Result<Option<Header>, Memory>
    ensures { IfOk result (λ header. header ≡ headers.header_in (view value.now)) }
{
    let Some((first, floor, window)) = numbers_in(value) else {
        return Ok(None);
    };
    let Some((namespace, query, resource)) = texts_in(value) else {
        return Ok(None);
    };
    Ok(Some(Header {
        first,
        floor,
        window,
        namespace: Text::new(alloc, namespace)?,
        query: Text::new(alloc, query)?,
        resource,
    }))
}

// The first revision, the floor and the window.
fn numbers_in(value: &Value) -> Option<(u64, u64, u64)>
    ensures { result ≡ headers.numbers_in (view value.now) }
{
    let first = number_in(value, "first")?;
    let floor = number_in(value, "floor")?;
    let window = number_in(value, "window")?;
    Some((first, floor, window))
}

// The namespace, the query and the resource.
pub(crate) fn texts_in(value: &Value) -> Option<(&str, &str, Resource)>
    ensures { option_map (λ texts. (texts.0.now, texts.1.now, texts.2)) result ≡ headers.texts_in (view value.now) }
{
    let namespace = text_in(value, "namespace")?;
    let query = text_in(value, "query")?;
    let resource = resource_in(value)?;
    Some((namespace, query, resource))
}

fn number_in(value: &Value, name: &str) -> Option<u64>
    ensures { result ≡ headers.number_in name.now (view value.now) }
{
    value.get(name).and_then(Value::as_u64)
}

pub(crate) fn text_in<'v>(value: &'v Value, name: &str) -> Option<&'v str>
    ensures { option_map (λ text. text.now) result ≡ headers.text_member name.now (view value.now) }
{
    value.get(name).and_then(Value::as_str)
}

pub(crate) fn resource_in(value: &Value) -> Option<Resource>
    ensures { result ≡ headers.resource_in (view value.now) }
{
    match text_in(value, "resource") {
        Some(text) => Resource::of_plural(text.as_bytes()),
        None => None,
    }
}
