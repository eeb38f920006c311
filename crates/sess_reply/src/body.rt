//! Replies in pieces: the head, the pieces of the text, and the line feed.

ghost use Rattle.std.specs.Prelude.{◌≡◌, [], ◌∷◌, ◌++◌, length, IfSome};
ghost use Rattle.std.specs.List.{flat_map};
ghost use Rattle.edge_io.specs.Sent.{sent_through};
ghost use Rattle.http_send.specs.Replies.{reply_text, typed_reply_text};
ghost use Rattle.sess_reply.specs.Sending.{Sends};

use crate::Broken;
use edge_io::Sink;
use http_send::{ContentType, begin_typed_reply, part, parts};

/// How many bytes these pieces have together, where a number of 64 bits holds it.
pub(crate) fn length_in(pieces: &[&[u8]]) -> Option<u64>
    ensures { IfSome result (λ n. n ≡ length (flat_map (λ piece. piece.now) pieces.now)) }
{
    let mut total = 0u64;
    for piece in pieces {
        total = total.checked_add(piece.len() as u64)?;
    }
    Some(total)
}

/// Writes a reply whose JSON is these pieces, and sends it on.
pub(crate) fn send_pieces<K: Sink>(
    sink: &mut K,
    code: u16,
    retry: bool,
    close: bool,
    pieces: &[&[u8]],
) -> Result<(), Broken>
    ensures { Sends result (reply_text code retry close (flat_map (λ piece. piece.now) pieces.now ++ 10 ∷ []))
        (sent_through K.written K.settled K.faults sink.old sink.new) }
{
    send_typed_pieces(sink, ContentType::Json, code, retry, close, pieces)
}

/// Writes a reply whose text is of this kind and is these pieces, and sends it on.
pub(crate) fn send_typed_pieces<K: Sink>(
    sink: &mut K,
    kind: ContentType,
    code: u16,
    retry: bool,
    close: bool,
    pieces: &[&[u8]],
) -> Result<(), Broken>
    ensures { Sends result (typed_reply_text kind code retry close (flat_map (λ piece. piece.now) pieces.now ++ 10 ∷ []))
        (sent_through K.written K.settled K.faults sink.old sink.new) }
{
    let Some(length) = body_length(pieces) else {
        return Err(Broken::Memory);
    };
    begin_typed_reply(sink, kind, code, retry, close, length)?;
    parts(sink, pieces)?;
    end_reply(sink)
}

// How long the body is: the text and the line feed.
fn body_length(pieces: &[&[u8]]) -> Option<u64>
    ensures { IfSome result (λ n. n ≡ length (flat_map (λ piece. piece.now) pieces.now ++ 10 ∷ [])) }
{
    length_in(pieces)?.checked_add(1)
}

/// Writes the line feed that ends a reply, and sends the reply on.
pub(crate) fn end_reply<K: Sink>(sink: &mut K) -> Result<(), Broken>
    ensures { Sends result (10 ∷ []) (sent_through K.written K.settled K.faults sink.old sink.new) }
{
    part(sink, b"\n")?;
    send_on(sink)
}

/// Sends on what the sink still holds back.
pub fn send_on<K: Sink>(sink: &mut K) -> Result<(), Broken>
    ensures { Sends result [] (sent_through K.written K.settled K.faults sink.old sink.new) }
{
    match sink.flush() {
        Ok(()) => Ok(()),
        Err(_) => Err(Broken::Fault),
    }
}
