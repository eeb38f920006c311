//! Replies that are refusals: a Status.

ghost use Rattle.edge_io.specs.Sent.{sent_through};
ghost use Rattle.watch_rules.specs.declared.ask.WatchAsk.{WatchAsk as Ask};
ghost use Rattle.meta_view.specs.declared.form.Form.TheVariants.{Whole};
ghost use Rattle.sess_reply.specs.Contents.{refusal_content};
ghost use Rattle.sess_reply.specs.Replies.{reply_text, request_refusal_text, content_text, unrouted, bad_upgrade};
ghost use Rattle.sess_reply.specs.Sending.{Sends};

use crate::Broken;
use crate::body::send_pieces;
use api_errors::{Failure, request_told, route_told};
use edge_io::Sink;
use http_read::ReqNo;
use json_obj::status;
use route_req::RouteNo;
use std::alloc::Global;
use watch_rules::WatchAsk;

/// Writes what is told of a refusal, and sends it on. Nothing is told for want of memory alone.
pub(crate) fn send_told<K: Sink>(
    alloc: Global,
    sink: &mut K,
    close: bool,
    told: Option<Failure>,
) -> Result<(), Broken>
    ensures { Sends result (content_text close (refusal_content told)) (sent_through K.written K.settled K.faults sink.old sink.new) }
{
    let Some(told) = told else {
        return Err(Broken::Memory);
    };
    let refusal = told.into_refusal(alloc)?;
    let text = status(alloc, &refusal)?;
    send_pieces(
        sink,
        refusal.code,
        refusal.too_large,
        close,
        &[text.as_slice()],
    )
}

/// Replies to a request that has no route, or whose options or body are refused.
pub fn send_unrouted<K: Sink>(
    alloc: Global,
    sink: &mut K,
    close: bool,
    fault: RouteNo,
) -> Result<(), Broken>
    ensures { Sends result (reply_text Whole close (unrouted fault)) (sent_through K.written K.settled K.faults sink.old sink.new) }
{
    let told = route_told(alloc, fault)?;
    send_told(alloc, sink, close, told)
}

/// Replies to a watch that asks to go on as a WebSocket, where that isn't one.
pub fn send_bad_upgrade<K: Sink>(alloc: Global, sink: &mut K, close: bool) -> Result<(), Broken>
    ensures { (ask : Ask) → Sends result (reply_text Whole close (bad_upgrade ask)) (sent_through K.written K.settled K.faults sink.old sink.new) }
{
    let told = api_errors::bad_upgrade(alloc)?;
    send_told(alloc, sink, close, Some(told))
}

/// Replies to bytes that are no request; the connection ends with it. Nobody is told of an input that ended inside a
/// request, or of a source that failed.
pub fn send_request_refusal<K: Sink>(
    alloc: Global,
    sink: &mut K,
    fault: ReqNo,
) -> Result<(), Broken>
    ensures { Sends result (request_refusal_text fault) (sent_through K.written K.settled K.faults sink.old sink.new) }
{
    let told = request_told(alloc, fault)?;
    send_told(alloc, sink, true, told)
}
