//! Replies to gets and lists, and to watches that are refused before they begin.

ghost use Rattle.edge_io.specs.Sent.{sent_through};
ghost use Rattle.meta_view.specs.declared.form.Form.TheVariants.{Whole};
ghost use Rattle.sess_reply.specs.Contents as contents;
ghost use Rattle.sess_reply.specs.Replies.{reply_text, content_text, got, listed, unwatched};
ghost use Rattle.sess_reply.specs.Sending.{Sends};

use crate::Broken;
use crate::body::send_pieces;
use crate::faults::{get_told, read_told};
use crate::items::item_pieces;
use crate::lists::send_list;
use crate::refusals::send_told;
use client_api::{Got, ListNo, Listed};
use edge_io::Sink;
use encode_once::Shown;
use list_rules::{GetAsk, ListAsk};
use meta_view::Form;
use std::alloc::Global;
use std::sync::Arc;
use watch_rules::WatchAsk;

/// Replies to a get: with the object in the form, or with why it is refused.
pub fn send_got<K: Sink>(
    alloc: Global,
    sink: &mut K,
    form: Form,
    close: bool,
    ask: &GetAsk,
    answer: &Result<Got, ListNo>,
) -> Result<(), Broken>
    ensures { Sends result (reply_text form close (got ask.now answer.now)) (sent_through K.written K.settled K.faults sink.old sink.new) }
{
    match answer {
        Ok(got) => send_shown(sink, form, close, &got.row),
        Err(fault) => {
            let told = get_told(alloc, ask, *fault)?;
            send_told(alloc, sink, close, told)
        }
    }
}

// Replies with an object in a form.
fn send_shown<K: Sink>(
    sink: &mut K,
    form: Form,
    close: bool,
    shown: &Arc<Shown>,
) -> Result<(), Broken>
    ensures { Sends result (content_text close (contents.said 200 (contents.shown_row form shown.now.value)))
        (sent_through K.written K.settled K.faults sink.old sink.new) }
{
    let pieces = item_pieces(form, shown);
    send_pieces(sink, 200, false, close, &pieces)
}

/// Replies to a list: with its objects in the form, or with why it is refused.
pub fn send_listed<K: Sink>(
    alloc: Global,
    sink: &mut K,
    form: Form,
    close: bool,
    ask: &ListAsk,
    answer: &Result<Listed, ListNo>,
) -> Result<(), Broken>
    ensures { Sends result (reply_text form close (listed ask.now answer.now)) (sent_through K.written K.settled K.faults sink.old sink.new) }
{
    match answer {
        Ok(listed) => send_list(alloc, sink, form, close, ask.selection.resource, listed),
        Err(fault) => {
            let told = read_told(alloc, *fault)?;
            send_told(alloc, sink, close, told)
        }
    }
}

/// Replies to a watch that is refused before it begins.
pub fn send_unwatched<K: Sink>(
    alloc: Global,
    sink: &mut K,
    close: bool,
    ask: &WatchAsk,
    fault: ListNo,
) -> Result<(), Broken>
    ensures { Sends result (reply_text Whole close (unwatched ask.now fault)) (sent_through K.written K.settled K.faults sink.old sink.new) }
{
    let _ = ask;
    let told = read_told(alloc, fault)?;
    send_told(alloc, sink, close, told)
}
