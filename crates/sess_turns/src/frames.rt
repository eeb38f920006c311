//! The head of a stream, its frames and its end.

ghost use Rattle.std.specs.Prelude.{◌≡◌, ◌<◌, ◌^◌, length, IfSome};
ghost use Rattle.std.specs.List.{flat_map};
ghost use Rattle.edge_io.specs.Sent.{Writes, sent_through};
ghost use Rattle.json_obj.specs.Replies.{event_text};
ghost use Rattle.ws_watch.specs.Messages.{message_text};
ghost use Rattle.sess_reply.specs.Sending.{Emits, Sends};
ghost use Rattle.sess_turns.specs.Streams.{head_text, framed, end_text};

use crate::view::Framing;
use edge_io::{Failed, Sink};
use http_send::{begin_chunk, begin_stream, end_chunk, end_stream, part, parts};
use json_obj::EventType;
use sess_reply::{Broken, send_on};
use ws_watch::{begin_message, begin_socket, end_socket};

// No line has as many bytes.
const TOO_LONG: u64 = 1 << 62;

/// Writes the head of a stream.
pub(crate) fn begin<K: Sink>(sink: &mut K, framing: &Framing) -> Result<(), Failed>
    ensures { Writes result (head_text framing.now) (sent_through K.written K.settled K.faults sink.old sink.new) }
{
    match framing {
        Framing::Chunks => begin_stream(sink),
        Framing::Messages(key) => begin_socket(sink, key.as_str()),
    }
}

/// Writes the line of an event in its frame. Its object is in these pieces.
pub(crate) fn event<K: Sink>(
    sink: &mut K,
    framing: &Framing,
    type_: EventType,
    object: &[&[u8]],
) -> Result<(), Broken>
    ensures { Emits result (framed framing.now (event_text type_ (flat_map (λ piece. piece.now) object.now)))
        (sent_through K.written K.settled K.faults sink.old sink.new) }
{
    let Some(bytes) = line_length(type_, object) else {
        return Err(Broken::Memory);
    };
    Ok(frame(sink, framing, bytes, type_, object)?)
}

// Writes the line of an event, of so many bytes, in its frame.
fn frame<K: Sink>(
    sink: &mut K,
    framing: &Framing,
    bytes: u64,
    type_: EventType,
    object: &[&[u8]],
) -> Result<(), Failed>
    requires told { bytes ≡ length (event_text type_ (flat_map (λ piece. piece.now) object.now)) }
    requires short { bytes < 2 ^ 62 }
    ensures { Writes result (framed framing.now (event_text type_ (flat_map (λ piece. piece.now) object.now)))
        (sent_through K.written K.settled K.faults sink.old sink.new) }
{
    match framing {
        Framing::Chunks => chunk(sink, bytes, type_, object),
        Framing::Messages(_) => message(sink, bytes, type_, object),
    }
}

// Writes the line of an event, of so many bytes, and a line feed as a chunk.
fn chunk<K: Sink>(
    sink: &mut K,
    bytes: u64,
    type_: EventType,
    object: &[&[u8]],
) -> Result<(), Failed>
    requires told { bytes ≡ length (event_text type_ (flat_map (λ piece. piece.now) object.now)) }
    requires short { bytes < 2 ^ 62 }
    ensures { Writes result (framed Framing.Chunks (event_text type_ (flat_map (λ piece. piece.now) object.now)))
        (sent_through K.written K.settled K.faults sink.old sink.new) }
{
    begin_chunk(sink, bytes + 1)?;
    line(sink, type_, object)?;
    part(sink, b"\n")?;
    end_chunk(sink)
}

// Writes the line of an event, of so many bytes, as a message.
fn message<K: Sink>(
    sink: &mut K,
    bytes: u64,
    type_: EventType,
    object: &[&[u8]],
) -> Result<(), Failed>
    requires told { bytes ≡ length (event_text type_ (flat_map (λ piece. piece.now) object.now)) }
    requires short { bytes < 2 ^ 62 }
    ensures { Writes result (message_text (event_text type_ (flat_map (λ piece. piece.now) object.now)))
        (sent_through K.written K.settled K.faults sink.old sink.new) }
{
    begin_message(sink, bytes)?;
    line(sink, type_, object)
}

// Writes the line of an event, without what ends it.
fn line<K: Sink>(sink: &mut K, type_: EventType, object: &[&[u8]]) -> Result<(), Failed>
    ensures { Writes result (event_text type_ (flat_map (λ piece. piece.now) object.now))
        (sent_through K.written K.settled K.faults sink.old sink.new) }
{
    part(sink, type_.front())?;
    parts(sink, object)?;
    part(sink, type_.back())
}

// How many bytes the line of an event has, where they are fewer than 2^62, as those of each line are.
fn line_length(type_: EventType, object: &[&[u8]]) -> Option<u64>
    ensures { IfSome result (λ n. (n ≡ length (event_text type_ (flat_map (λ piece. piece.now) object.now))) × (n < 2 ^ 62)) }
{
    let ends = type_.front().len() as u64 + type_.back().len() as u64;
    let total = ends + short_length(object)?;
    if total < TOO_LONG { Some(total) } else { None }
}

// How many bytes these pieces have together, where they are fewer than 2^62.
fn short_length(pieces: &[&[u8]]) -> Option<u64>
    ensures { IfSome result (λ n. (n ≡ length (flat_map (λ piece. piece.now) pieces.now)) × (n < 2 ^ 62)) }
{
    let mut total = 0u64;
    for piece in pieces {
        total = total.saturating_add(piece.len() as u64);
    }
    if total < TOO_LONG { Some(total) } else { None }
}

/// Writes the end of a stream, and sends all on.
pub(crate) fn end<K: Sink>(sink: &mut K, framing: &Framing) -> Result<(), Broken>
    ensures { Sends result (end_text framing.now) (sent_through K.written K.settled K.faults sink.old sink.new) }
{
    write_end(sink, framing)?;
    send_on(sink)
}

// Writes the end of a stream.
fn write_end<K: Sink>(sink: &mut K, framing: &Framing) -> Result<(), Failed>
    ensures { Writes result (end_text framing.now) (sent_through K.written K.settled K.faults sink.old sink.new) }
{
    match framing {
        Framing::Chunks => end_stream(sink),
        Framing::Messages(_) => end_socket(sink),
    }
}
