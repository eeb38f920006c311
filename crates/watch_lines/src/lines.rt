//! The lines of a peer's watch, read.

ghost use Rattle.std.specs.Prelude.{◌≡◌, ℕ, false, IfOk, MatchOption};
ghost use Rattle.json_obj.specs.Replies.{event_text};
ghost use Rattle.json_obj.specs.declared.pieces.EventType.TheVariants as types;
ghost use Rattle.watch_lines.specs.Texts.{type_of};
ghost use Rattle.watch_lines.specs.Lines.{IsPeerLine, ReadsPeerLine};
ghost use Rattle.watch_lines.specs.declared.peer_line.PeerLine.TheVariants as lines;

use crate::PeerLine;
use crate::events::{object_in, type_of_event};
use crate::objects::only_object;
use crate::readers::bookmark_in;
use crate::statuses::code_in;
use crate::told::tells;
use json_obj::EventType;
use kube_meta::{Memory, Resource};
use select_all::Kind;
use std::alloc::Global;

/// Reads the text of one line of a watch of the resource's objects, without the line feed that ends it. It is read as
/// exactly the line whose text it is, byte for byte: of an object that is stored, at a revision from 1 to 2^62; of a
/// bookmark at such a revision; or of an ERROR with the Status of a refusal. Any other text is none.
pub fn read_line(alloc: Global, resource: Resource, text: &[u8]) -> Result<Option<PeerLine>, Memory>
    ensures { IfOk result (λ found. ReadsPeerLine resource text.now found) }
{
    let event = type_of_event(text);
    let Some(shown) = object_in(text, event) else {
        return Ok(None);
    };
    match event {
        EventType::Added => told(alloc, resource, text, Kind::Added, shown),
        EventType::Modified => told(alloc, resource, text, Kind::Modified, shown),
        EventType::Deleted => told(alloc, resource, text, Kind::Deleted, shown),
        EventType::Bookmark => Ok(bookmark(resource, text, shown)),
        EventType::Error => error(alloc, resource, text, shown),
    }
}

// The line that tells of an object.
fn told(
    alloc: Global,
    resource: Resource,
    text: &[u8],
    kind: Kind,
    shown: &[u8],
) -> Result<Option<PeerLine>, Memory>
    requires { text.now ≡ event_text (type_of kind) shown.now }
    ensures { IfOk result (λ found. ReadsPeerLine resource text.now found) }
{
    let Some((obj, rev)) = only_object(alloc, resource, shown)? else {
        return Ok(None);
    };
    if tells(text, kind, &obj, rev) {
        Ok(Some(PeerLine::Told { kind, obj, rev }))
    } else {
        Ok(None)
    }
}

// The line that is a bookmark.
fn bookmark(resource: Resource, text: &[u8], shown: &[u8]) -> Option<PeerLine>
    requires { text.now ≡ event_text types.Bookmark shown.now }
    ensures { ReadsPeerLine resource text.now result }
{
    match bookmark_at(resource, text, false) {
        Some(at) => Some(PeerLine::Bookmark { at, closing: false }),
        None => closing(resource, text, shown),
    }
}

// The line that is a bookmark which closes the initial events, where it is no other.
fn closing(resource: Resource, text: &[u8], shown: &[u8]) -> Option<PeerLine>
    requires event { text.now ≡ event_text types.Bookmark shown.now }
    requires other { (at : ℕ) → ¬ (IsPeerLine resource text.now (lines.Bookmark at false)) }
    ensures { ReadsPeerLine resource text.now result }
{
    match bookmark_at(resource, text, true) {
        Some(at) => Some(PeerLine::Bookmark { at, closing: true }),
        None => None,
    }
}

// The revision of a bookmark that closes the initial events, or of one that doesn't.
fn bookmark_at(resource: Resource, text: &[u8], closing: bool) -> Option<u64>
    ensures { MatchOption result ((at : ℕ) → ¬ (IsPeerLine resource text.now (lines.Bookmark at closing)))
        (λ at. IsPeerLine resource text.now (lines.Bookmark at closing)) }
{
    let Some(at) = bookmark_in(text, resource, closing) else {
        return None;
    };
    if at == 0 { None } else { Some(at) }
}

// The line that is an ERROR.
fn error(
    alloc: Global,
    resource: Resource,
    text: &[u8],
    shown: &[u8],
) -> Result<Option<PeerLine>, Memory>
    requires { text.now ≡ event_text types.Error shown.now }
    ensures { IfOk result (λ found. ReadsPeerLine resource text.now found) }
{
    match code_in(alloc, shown)? {
        Some(code) => Ok(Some(PeerLine::Error { code })),
        None => Ok(None),
    }
}
