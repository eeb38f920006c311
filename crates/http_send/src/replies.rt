//! The heads of replies and streams, and chunks.

ghost use Rattle.std.specs.Prelude.{◌≡◌, ◌<◌, ◌≤◌, ◌^◌};
ghost use Rattle.http_send.specs.Replies as lines;
ghost use Rattle.http_send.specs.Replies.{reply_head_text, typed_head_text, stream_head_text, chunk_head_text, stream_end_text, crlf, text_where, phrase};
ghost use Rattle.edge_io.specs.Sent.{Writes, sent_through};

use crate::hexadecimal::hexadecimal_text;
use crate::pieces::{part, parts};
use edge_io::{Failed, Sink};
use http::StatusCode;
use itoa::Buffer;

/// What the body of a reply is.
#[derive(Clone, Copy, Debug, PartialEq, Eq)]
pub enum ContentType {
    /// `application/json`.
    Json,
    /// `text/plain`, in UTF-8.
    PlainText,
    /// The same, in version 0.0.4 of the text format of Prometheus.
    MetricsText,
    /// An OpenAPI document, in protobuf.
    OpenApi,
}

// The standard reason phrase of a status code, empty where it has none.
fn phrase_of(code: u16) -> &'static str
    ensures { result.now ≡ phrase code }
{
    match StatusCode::from_u16(code) {
        Ok(status) => status.canonical_reason().unwrap_or(""),
        Err(_) => "",
    }
}

// These bytes where the flag is set, and none otherwise.
fn piece_where(flag: bool, piece: &'static [u8]) -> &'static [u8]
    ensures { result.now ≡ text_where flag piece.now }
{
    if flag { piece } else { b"" }
}

// The line of the field that says what a body is, from the line end before it on.
fn content_type_line(kind: ContentType) -> &'static [u8]
    ensures { result.now ≡ lines.content_type_line kind }
{
    match kind {
        ContentType::Json => b"\r\nContent-Type: application/json",
        ContentType::PlainText => b"\r\nContent-Type: text/plain; charset=utf-8",
        ContentType::MetricsText => {
            b"\r\nContent-Type: text/plain; version=0.0.4; charset=utf-8"
        }
        ContentType::OpenApi => {
            b"\r\nContent-Type: application/com.github.proto-openapi.spec.v2.v1.0+protobuf"
        }
    }
}

/// Writes the head of a reply, up to and with its empty line, for a body of `length` bytes of JSON. `retry` says that
/// the client may ask again after a second, and `close` that the connection ends with this reply.
pub fn begin_reply<K: Sink>(
    sink: &mut K,
    code: u16,
    retry: bool,
    close: bool,
    length: u64,
) -> Result<(), Failed>
    ensures { Writes result (reply_head_text code retry close length) (sent_through K.written K.settled K.faults sink.old sink.new) }
{
    begin_typed_reply(sink, ContentType::Json, code, retry, close, length)
}

/// Writes the head of a reply, as [`begin_reply`] does, for a body of this kind.
pub fn begin_typed_reply<K: Sink>(
    sink: &mut K,
    kind: ContentType,
    code: u16,
    retry: bool,
    close: bool,
    length: u64,
) -> Result<(), Failed>
    ensures { Writes result (typed_head_text kind code retry close length) (sent_through K.written K.settled K.faults sink.old sink.new) }
{
    let mut code_digits = Buffer::new();
    let mut length_digits = Buffer::new();
    let pieces: [&[u8]; 10] = [
        b"HTTP/1.1 ",
        code_digits.format(code).as_bytes(),
        b" ",
        phrase_of(code).as_bytes(),
        content_type_line(kind),
        b"\r\nContent-Length: ",
        length_digits.format(length).as_bytes(),
        piece_where(retry, b"\r\nRetry-After: 1"),
        piece_where(close, b"\r\nConnection: close"),
        b"\r\n\r\n",
    ];
    parts(sink, &pieces)
}

/// Writes the head of a reply whose body comes in chunks.
pub fn begin_stream<K: Sink>(sink: &mut K) -> Result<(), Failed>
    ensures { Writes result stream_head_text (sent_through K.written K.settled K.faults sink.old sink.new) }
{
    part(
        sink,
        b"HTTP/1.1 200 OK\r\nContent-Type: application/json\r\nTransfer-Encoding: chunked\r\nConnection: close\r\n\r\n",
    )
}

/// Writes the size of a chunk of `length` bytes. A chunk has some: one of none would end the stream.
pub fn begin_chunk<K: Sink>(sink: &mut K, length: u64) -> Result<(), Failed>
    requires some { 1 ≤ length }
    requires told { length < 2 ^ 63 }
    ensures { Writes result (chunk_head_text length) (sent_through K.written K.settled K.faults sink.old sink.new) }
{
    let mut digits = [0; 64];
    let pieces: [&[u8]; 2] = [hexadecimal_text(length, &mut digits), b"\r\n"];
    parts(sink, &pieces)
}

/// Ends a chunk.
pub fn end_chunk<K: Sink>(sink: &mut K) -> Result<(), Failed>
    ensures { Writes result crlf (sent_through K.written K.settled K.faults sink.old sink.new) }
{
    part(sink, b"\r\n")
}

/// Ends the chunks of a stream.
pub fn end_stream<K: Sink>(sink: &mut K) -> Result<(), Failed>
    ensures { Writes result stream_end_text (sent_through K.written K.settled K.faults sink.old sink.new) }
{
    part(sink, b"0\r\n\r\n")
}
