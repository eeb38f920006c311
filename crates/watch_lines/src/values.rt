//! The lines of a peer's watch, read by their values.

ghost use Rattle.std.specs.Prelude.{◌≡◌, ◌≢◌, ℕ, codes, IfOk, MatchOption, Some};
ghost use Rattle.serde_json.specs.View.{view};
ghost use Rattle.json_obj.specs.Replies.{type_text};
ghost use Rattle.json_obj.specs.declared.pieces.EventType.{EventType as Event};
ghost use Rattle.json_obj.specs.declared.pieces.EventType.TheVariants as types;
ghost use Rattle.watch_lines.specs.Texts.{type_of};
ghost use Rattle.watch_lines.specs.Reading.{text_in as text_of};
ghost use Rattle.watch_lines.specs.Values.{HasRevision, ObjectTells, ReadsByValue, ReadsValue, ends_initial_events as closes};
ghost use Rattle.watch_lines.specs.declared.peer_line.PeerLine.{PeerLine as Line};

use crate::PeerLine;
use crate::shown::{shown_in, text_value};
use crate::statuses::{code_at, text_in};
use json_obj::EventType;
use kube_meta::{Memory, Resource, Rev};
use select_all::Kind;
use serde_json::Value;
use std::alloc::Global;

/// Reads one line of a watch of the resource's objects by its value, as any API server may write it: the order of its
/// members, its blanks and what else stands in it don't matter. It tells an event of an object that may be stored, a
/// bookmark, or an ERROR by the code of its Status; a text that tells none of these is none.
pub fn tell_line(alloc: Global, resource: Resource, text: &[u8]) -> Result<Option<PeerLine>, Memory>
    ensures { IfOk result (λ found. ReadsByValue resource text.now found) }
{
    match text_value(alloc, text)? {
        Some(value) => line_of(alloc, resource, &value),
        None => Ok(None),
    }
}

// The line that a value tells.
fn line_of(alloc: Global, resource: Resource, value: &Value) -> Result<Option<PeerLine>, Memory>
    ensures { IfOk result (λ found. ReadsValue resource (view value.now) found) }
{
    let Some(event) = event_in(value) else {
        return Ok(None);
    };
    let Some(object) = value.get("object") else {
        return Ok(None);
    };
    told(alloc, resource, event, object)
}

// The type of the event that a value is.
fn event_in(value: &Value) -> Option<EventType>
    ensures { MatchOption result
        ((event : Event) → text_of (codes "type") (view value.now) ≢ Some (type_text event))
        (λ event. text_of (codes "type") (view value.now) ≡ Some (type_text event)) }
{
    match text_in(value, "type") {
        Some(name) => event_named(name),
        None => None,
    }
}

// The type of an event by its name.
fn event_named(name: &str) -> Option<EventType>
    ensures { MatchOption result ((event : Event) → name.now ≢ type_text event) (λ event. name.now ≡ type_text event) }
{
    if name == "ADDED" {
        Some(EventType::Added)
    } else if name == "MODIFIED" {
        Some(EventType::Modified)
    } else if name == "DELETED" {
        Some(EventType::Deleted)
    } else if name == "BOOKMARK" {
        Some(EventType::Bookmark)
    } else if name == "ERROR" {
        Some(EventType::Error)
    } else {
        None
    }
}

// What an event tells of its object.
fn told(
    alloc: Global,
    resource: Resource,
    event: EventType,
    object: &Value,
) -> Result<Option<PeerLine>, Memory>
    ensures { IfOk result (λ found. MatchOption found
        ((line : Line) → ¬ (ObjectTells resource event (view object.now) line))
        (ObjectTells resource event (view object.now))) }
{
    match event {
        EventType::Added => changed(alloc, resource, Kind::Added, object),
        EventType::Modified => changed(alloc, resource, Kind::Modified, object),
        EventType::Deleted => changed(alloc, resource, Kind::Deleted, object),
        EventType::Bookmark => Ok(bookmark(resource, object)),
        EventType::Error => Ok(error(resource, object)),
    }
}

// The event of an object that may be stored.
fn changed(
    alloc: Global,
    resource: Resource,
    kind: Kind,
    object: &Value,
) -> Result<Option<PeerLine>, Memory>
    ensures { IfOk result (λ found. MatchOption found
        ((line : Line) → ¬ (ObjectTells resource (type_of kind) (view object.now) line))
        (ObjectTells resource (type_of kind) (view object.now))) }
{
    match shown_in(alloc, resource, object)? {
        Some((obj, rev)) => Ok(Some(PeerLine::Told { kind, obj, rev })),
        None => Ok(None),
    }
}

// The bookmark.
fn bookmark(resource: Resource, object: &Value) -> Option<PeerLine>
    ensures { MatchOption result
        ((line : Line) → ¬ (ObjectTells resource types.Bookmark (view object.now) line))
        (ObjectTells resource types.Bookmark (view object.now)) }
{
    match revision_at(object) {
        Some(at) => Some(PeerLine::Bookmark {
            at,
            closing: ends_initial_events(object),
        }),
        None => None,
    }
}

/// The revision in a value's metadata, from 1 on.
pub(crate) fn revision_at(object: &Value) -> Option<u64>
    ensures { MatchOption result ((at : ℕ) → ¬ (HasRevision (view object.now) at)) (HasRevision (view object.now)) }
{
    let Some(metadata) = object.get("metadata") else {
        return None;
    };
    let Some(digits) = text_in(metadata, "resourceVersion") else {
        return None;
    };
    match Rev::read(digits.as_bytes()) {
        Ok(0) => None,
        Ok(at) => Some(at),
        Err(_) => None,
    }
}

// Whether a value's metadata is annotated as that of the bookmark that ends the initial events.
fn ends_initial_events(object: &Value) -> bool
    ensures { result ≡ closes (view object.now) }
{
    let Some(metadata) = object.get("metadata") else {
        return false;
    };
    match metadata.get("annotations") {
        Some(annotations) => annotations.get("k8s.io/initial-events-end").is_some(),
        None => false,
    }
}

// The ERROR, by the code of its Status.
fn error(resource: Resource, object: &Value) -> Option<PeerLine>
    ensures { MatchOption result
        ((line : Line) → ¬ (ObjectTells resource types.Error (view object.now) line))
        (ObjectTells resource types.Error (view object.now)) }
{
    match code_at(object) {
        Some(code) => Some(PeerLine::Error { code }),
        None => None,
    }
}
