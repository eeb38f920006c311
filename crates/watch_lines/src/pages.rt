//! The pages of a peer's lists, read by their values.

ghost use Rattle.std.specs.Prelude.{◌≡◌, ◌↔◌, ◌++◌, ◌∷◌, List, [], IfOk, OnOk, IsTrue, MatchOption, Some, option_map};
ghost use Rattle.serde_json.specs.View.{view, items_view};
ghost use Rattle.kube_meta.specs.Rows.{RowData};
ghost use Rattle.watch_lines.specs.Pages.{AreShown, IsListValue, ReadsList, ReadsPage, items_of, token_of};
ghost use Rattle.watch_lines.specs.Reading.{text_in as text_of};

use crate::shown::{shown_in, text_value};
use crate::statuses::text_in;
use crate::values::revision_at;
use kube_meta::{Memory, Obj, Resource, Row};
use serde_json::Value;
use std::alloc::Global;
use std::sync::Arc;

/// A page of a list: its rows, the revision at which they stand, and the token by which the next page is asked for,
/// which is empty where this is the last.
#[derive(Debug, Drop)]
pub struct Page {
    pub rows: Vec<Row>,
    pub at: u64,
    pub token: String,
}

/// Reads a page of a list of the resource by its value, as any API server may write it. Each item has to show an object
/// that may be stored, at a revision; its kind and its version may be absent.
pub fn tell_page(alloc: Global, resource: Resource, text: &[u8]) -> Result<Option<Page>, Memory>
    ensures { IfOk result (λ found. ReadsPage resource text.now found) }
{
    match text_value(alloc, text)? {
        Some(value) => page_of(alloc, resource, &value),
        None => Ok(None),
    }
}

// The page that a value is.
fn page_of(alloc: Global, resource: Resource, value: &Value) -> Result<Option<Page>, Memory>
    ensures { IfOk result (λ found. ReadsList resource (view value.now) found) }
{
    if !is_list(value, resource) {
        return Ok(None);
    }
    let Some(at) = revision_at(value) else {
        return Ok(None);
    };
    let Some(token) = token_in(value) else {
        return Ok(None);
    };
    let Some(items) = items_in(value) else {
        return Ok(None);
    };
    let Some(rows) = rows_of(alloc, resource, items)? else {
        return Ok(None);
    };
    let token = String::from_str(alloc, token)?;
    Ok(Some(Page { rows, at, token }))
}

// Whether a value is of the version and the kind of the resource's lists.
fn is_list(value: &Value, resource: Resource) -> bool
    ensures { IsTrue result ↔ IsListValue resource (view value.now) }
{
    has_text(value, "apiVersion", resource.api_version())
        && has_text(value, "kind", resource.list_kind())
}

// Whether a value has this text at a name.
fn has_text(value: &Value, name: &str, text: &str) -> bool
    ensures { IsTrue result ↔ (text_of name.now (view value.now) ≡ Some text.now) }
{
    match text_in(value, name) {
        Some(found) => found == text,
        None => false,
    }
}

// The token of the page behind this one: no text where there is none.
fn token_in(value: &Value) -> Option<&str>
    ensures { option_map (λ token. token.now) result ≡ token_of (view value.now) }
{
    let Some(metadata) = value.get("metadata") else {
        return Some("");
    };
    match metadata.get("continue") {
        Some(token) => token.as_str(),
        None => Some(""),
    }
}

/// The items of a page. Where they are absent or null there are none.
pub(crate) fn items_in(value: &Value) -> Option<&[Value]>
    ensures { option_map (λ items. items_view items.now) result ≡ items_of (view value.now) }
{
    match value.get("items") {
        Some(Value::Array(items)) => Some(items.as_slice()),
        Some(Value::Null) | None => Some(&[]),
        Some(_) => None,
    }
}

// The rows that items show.
fn rows_of(alloc: Global, resource: Resource, items: &[Value]) -> Result<Option<Vec<Row>>, Memory>
    ensures { IfOk result (λ found. MatchOption found
        ((rows : List RowData) → ¬ (AreShown resource (items_view items.now) rows))
        (λ rows. AreShown resource (items_view items.now) rows.items)) }
{
    let mut rows = Vec::new(alloc);
    for item in items {
        let Some((obj, rev)) = shown_in(alloc, resource, item)? else {
            return Ok(None);
        };
        add(alloc, &mut rows, obj, rev)?;
    }
    Ok(Some(rows))
}

// Adds a row.
fn add(alloc: Global, rows: &mut Vec<Row>, obj: Obj, rev: u64) -> Result<(), Memory>
    ensures { OnOk result (rows.new.items ≡ rows.old.items ++ record { obj = obj; rev = rev } ∷ []) }
{
    let row = Row {
        obj: Arc::new(alloc, obj)?,
        rev,
    };
    rows.push(row)?;
    Ok(())
}
