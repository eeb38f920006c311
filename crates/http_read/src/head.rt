//! A head that was read, and what it says of the body.

ghost use Rattle.std.specs.Prelude.{◌≡◌, ◌≤◌, ◌++◌, ℕ, List, length, map, take, IfOk, IfSome, codes, Option, All, IsUtf8, []};
ghost use Rattle.std.specs.Str.Lossy.{utf8_lossy};
ghost use Rattle.std.specs.Option.{option_map};
ghost use Rattle.edge_io.specs.Told.{prepended};
ghost use Rattle.httparse.specs.Spans.{span_bytes, IsHeaderWithin, header_bytes};
ghost use Rattle.http_read.specs.Heads as head;
ghost use Rattle.http_read.specs.Queries.{path_of, query_of, query_pairs};
ghost use Rattle.http_read.specs.Requests.{front, request_with, IsUnfinished};
ghost use Rattle.http_read.specs.Answers.{UnlessFault};
ghost use Rattle.http_read.specs.Steps.{FindsHead, LooksAtHead, ReadsHead, fields_at, request_at};

use crate::body::Body;
use crate::fields::{asks_close, asks_websocket, connection_asks, is_unreadable, value_of};
use crate::params::Params;
use crate::pieces::cut;
use crate::plain::{is_plain, text};
use crate::refusal::ReqNo;
use crate::request::{Req, Upgrade};
use crate::segments::Segments;
use crate::sites::is_foreign;
use crate::unread::{FillNo, Unread};
use edge_io::Source;
use httparse::spans::{HeaderSpan, RequestSpans, parse_request};
use httparse::{Error, Status};
use kube_meta::{Memory, Text};
use std::alloc::Global;

/// The most bytes of a head.
pub const MOST_HEAD: usize = 16_384;

/// The most fields of a head.
pub const MOST_FIELDS: usize = 64;

/// The part of the bytes in which a head has to end.
pub fn front_of(bytes: &[u8]) -> &[u8]
    ensures { result.now ≡ front bytes.now }
{
    &bytes[..bytes.len().min(MOST_HEAD)]
}

// Looks for a whole head in front of the bytes. `None` means that more bytes may complete it.
fn look(bytes: &[u8], spans: &mut [HeaderSpan]) -> Result<Option<RequestSpans>, ReqNo>
    requires { length spans.old ≡ 64 }
    ensures { LooksAtHead bytes.now spans.new result }
{
    match parse_request(front_of(bytes), spans) {
        Ok(Status::Complete(found)) => Ok(Some(found)),
        Ok(Status::Partial) if bytes.len() < MOST_HEAD => Ok(None),
        Ok(Status::Partial) => Err(ReqNo::HeadTooLong),
        Err(Error::TooManyHeaders) => Err(ReqNo::TooManyHeaders),
        Err(_) => Err(ReqNo::Malformed),
    }
}

/// Reads on until there is a whole head in front of the bytes. `None` means that the input ended and there is no byte.
pub(crate) fn read_head<S: Source>(
    kept: &mut Unread,
    source: &mut S,
    spans: &mut [HeaderSpan],
) -> Result<Option<RequestSpans>, ReqNo>
    requires { length spans.old ≡ 64 }
    ensures reads { (taken : List ℕ) × (S.left source.old ≡ prepended taken (S.left source.new)) × (kept.new ≡ kept.old ++ taken)
        × ReadsHead kept.new spans.new (S.left source.new) (S.faults source.old) (S.faults source.new) result }
    ensures idle { (IsUnfinished kept.old → ⊥) → (kept.new ≡ kept.old) × (source.new ≡ source.old) }
    ensures quiet { UnlessFault result (S.faults source.new ≡ S.faults source.old) }
{
    loop {
        match look(kept.bytes(), spans) {
            Ok(Some(found)) => return Ok(Some(found)),
            Ok(None) => {}
            Err(why) => return Err(why),
        }
        match kept.fill(source) {
            Ok(0) if kept.is_empty() => return Ok(None),
            Ok(0) => return Err(ReqNo::CutShort),
            Ok(_) => {}
            Err(FillNo::Fault) => return Err(ReqNo::ReadFault),
            Err(FillNo::Memory) => return Err(ReqNo::Memory),
        }
    }
}

// The value of the first field of this name, as text.
fn text_of(
    alloc: Global,
    bytes: &[u8],
    fields: &[HeaderSpan],
    name: &[u8],
) -> Result<Option<Text>, Memory>
    requires { All (IsHeaderWithin (length bytes.now)) fields.now }
    ensures { IfOk result (λ text. text ≡ head.text_of (head.value_of name.now (map (header_bytes bytes.now) fields.now))) }
{
    match value_of(bytes, fields, name) {
        Some(value) => Ok(Some(text(alloc, value)?)),
        None => Ok(None),
    }
}

// The same, empty where there is none.
fn text_or_empty(
    alloc: Global,
    bytes: &[u8],
    fields: &[HeaderSpan],
    name: &[u8],
) -> Result<Text, Memory>
    requires { All (IsHeaderWithin (length bytes.now)) fields.now }
    ensures { IfOk result (λ text. text ≡ head.text_or_empty (head.value_of name.now (map (header_bytes bytes.now) fields.now))) }
{
    match text_of(alloc, bytes, fields, name)? {
        Some(text) => Ok(text),
        None => Ok(Text::from_string(String::new(alloc))),
    }
}

// The upgrade that is asked for.
fn upgrade_of(
    alloc: Global,
    method: &[u8],
    bytes: &[u8],
    fields: &[HeaderSpan],
    upgrade: bool,
) -> Result<Option<Upgrade>, Memory>
    requires within { All (IsHeaderWithin (length bytes.now)) fields.now }
    requires upgrade { upgrade ≡ head.connection_has (codes "upgrade") (map (header_bytes bytes.now) fields.now) }
    ensures { IfOk result (λ upgrade. upgrade ≡ head.upgrade_of method.now (map (header_bytes bytes.now) fields.now)) }
{
    if !asks_websocket(method, bytes, fields, upgrade) {
        return Ok(None);
    }
    let key = text_or_empty(alloc, bytes, fields, b"sec-websocket-key")?;
    let version = text_or_empty(alloc, bytes, fields, b"sec-websocket-version")?;
    Ok(Some(Upgrade { key, version }))
}

// The path and the query of a target.
fn target_parts(alloc: Global, target: &[u8]) -> Result<(Segments, Params), Memory>
    ensures { IfOk result (λ parts. (parts.0 ≡ path_of target.now) × (parts.1 ≡ query_pairs (query_of target.now))) }
{
    let plain = is_plain(target);
    let (path, query) = match cut(target, b'?') {
        Some(pieces) => pieces,
        None => (target, b"".as_slice()),
    };
    Ok((
        Segments::read(alloc, path, plain)?,
        Params::of_bytes(alloc, query, plain)?,
    ))
}

// The text of a method, which is mostly `GET`.
fn method_text(alloc: Global, method: &[u8]) -> Result<Text, Memory>
    requires { IsUtf8 method.now }
    ensures { IfOk result (λ text. text ≡ method.now) }
{
    if method == b"GET".as_slice() {
        return Text::new(alloc, "GET");
    }
    text(alloc, method)
}

/// The request of a method, a target and fields, with no body.
pub(crate) fn make_request(
    alloc: Global,
    method: &[u8],
    target: &[u8],
    bytes: &[u8],
    fields: &[HeaderSpan],
) -> Result<Req, Memory>
    requires text { IsUtf8 method.now }
    requires within { All (IsHeaderWithin (length bytes.now)) fields.now }
    ensures { IfOk result (λ req. req ≡ request_with method.now target.now (map (header_bytes bytes.now) fields.now) []) }
{
    let method_text = method_text(alloc, method)?;
    let accept = text_of(alloc, bytes, fields, b"accept")?;
    let asked = connection_asks(bytes, fields);
    let upgrade = upgrade_of(alloc, method, bytes, fields, asked.upgrade)?;
    let (path, params) = target_parts(alloc, target)?;
    Ok(Req {
        method: method_text,
        path,
        params,
        body: Body::from_vec(Vec::new(alloc)),
        close: asks_close(method, asked.close),
        foreign: is_foreign(bytes, fields),
        unreadable: is_unreadable(bytes, fields),
        accept,
        upgrade,
    })
}
