//! Replies with what describes the server.

ghost use Rattle.std.specs.Prelude.{◌≡◌};
ghost use Rattle.edge_io.specs.Sent.{sent_through};
ghost use Rattle.meta_view.specs.declared.form.Form.TheVariants.{Whole};
ghost use Rattle.sess_reply.specs.Contents as contents;
ghost use Rattle.sess_reply.specs.Replies.{reply_text, described};
ghost use Rattle.sess_reply.specs.Sending.{Sends};

use crate::Broken;
use crate::body::send_typed_pieces;
use crate::documents::pieces;
use client_api::Resources;
use edge_io::Sink;
use http_send::ContentType;
use route_req::Document;

// A probe is answered by a plain text, the OpenAPI document is in protobuf, and all else is JSON.
fn content_type_of(document: &Document) -> ContentType
    ensures { result ≡ contents.content_type_of document.now }
{
    match document {
        Document::Probe(_) => ContentType::PlainText,
        Document::OpenApi => ContentType::OpenApi,
        _ => ContentType::Json,
    }
}

/// Replies with what describes the server, which has these resources.
pub fn send_described<K: Sink>(
    sink: &mut K,
    close: bool,
    served: Resources,
    document: &Document,
) -> Result<(), Broken>
    ensures { Sends result (reply_text Whole close (described served document.now)) (sent_through K.written K.settled K.faults sink.old sink.new) }
{
    let pieces = pieces(document, served);
    send_typed_pieces(sink, content_type_of(document), 200, false, close, &pieces)
}
