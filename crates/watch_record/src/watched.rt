//! The first line of a record of an unknown log, read.

ghost use Rattle.std.specs.Prelude.{◌≡◌, IfOk, option_and_then, string_bytes};
ghost use Rattle.serde_json.specs.Read.{read};
ghost use Rattle.serde_json.specs.View.{view};
ghost use Rattle.watch_record.specs.Between.{watched_at, watched_of, watched_text};
ghost use Rattle.watch_record.specs.Between as between;

use crate::header::Header;
use crate::heading::{quoted, texts_in};
use crate::values::value_of;
use kube_meta::{Memory, Text};
use serde_json::Value;
use std::alloc::Global;

// The header that a line is, if it is one.
pub(crate) fn read_watched(alloc: Global, line: &[u8]) -> Result<Option<Header>, Memory>
    ensures { IfOk result (λ header. header ≡ watched_of line.now) }
{
    match str::from_utf8(line) {
        Ok(text) => read_text(alloc, text),
        Err(_) => Ok(None),
    }
}

fn read_text(alloc: Global, line: &str) -> Result<Option<Header>, Memory>
    ensures { IfOk result (λ header. header ≡ option_and_then (watched_at line.now) (option_and_then between.watched_in (read line.now))) }
{
    let Some(value) = value_of(alloc, line)? else {
        return Ok(None);
    };
    let Some(header) = watched_in(alloc, &value)? else {
        return Ok(None);
    };
    if text_of(alloc, &header)?.as_str() == line {
        Ok(Some(header))
    } else {
        Ok(None)
    }
}

// What a value holds of a header, if it holds all of one.
fn watched_in(alloc: Global, value: &Value) -> Result<Option<Header>, Memory>
    ensures { IfOk result (λ header. header ≡ between.watched_in (view value.now)) }
{
    let Some((namespace, query, resource)) = texts_in(value) else {
        return Ok(None);
    };
    Ok(Some(Header {
        first: 1,
        floor: 1,
        window: 1,
        namespace: Text::new(alloc, namespace)?,
        query: Text::new(alloc, query)?,
        resource,
    }))
}

// The header's line.
fn text_of(alloc: Global, header: &Header) -> Result<String, Memory>
    ensures { IfOk result (λ text. string_bytes text ≡ watched_text header.now) }
{
    let namespace = quoted(alloc, &header.namespace)?;
    let query = quoted(alloc, &header.query)?;
    let resource = header.resource.plural();
    format!(in alloc; "{{\"namespace\":{namespace},\"query\":{query},\"resource\":\"{resource}\"}}")
}
