//! Lists, written as the pieces that their objects are kept in: no object is copied, and the length is summed before
//! the head is written.

ghost use Rattle.std.specs.Prelude.{◌≡◌, [], ◌∷◌, ◌++◌, decimal, false, option_map};
ghost use Rattle.std.specs.List.{flat_map};
ghost use Rattle.client_api.specs.Items.{rows_of};
ghost use Rattle.edge_io.specs.Sent.{sent_through};
ghost use Rattle.http_send.specs.Replies.{reply_text};
ghost use Rattle.json_obj.specs.Replies.{list_back};
ghost use Rattle.meta_view.specs.Lines.{list_kind_in};
ghost use Rattle.sess_reply.specs.Contents.{listed_json, said};
ghost use Rattle.sess_reply.specs.Items.{between};
ghost use Rattle.sess_reply.specs.Replies.{content_text};
ghost use Rattle.sess_reply.specs.Sending.{Sends};

use crate::Broken;
use crate::body::end_reply;
use crate::items::{list_length, write_list};
use client_api::{Items, Listed};
use edge_io::Sink;
use http_send::begin_reply;
use itoa::Buffer;
use json_obj::{More, quoted};
use kube_meta::Resource;
use meta_view::{Form, shown_list_back, shown_list_front, shown_list_more};
use std::alloc::Global;

/// Replies with a list of the resource in a form.
pub(crate) fn send_list<K: Sink>(
    alloc: Global,
    sink: &mut K,
    form: Form,
    close: bool,
    resource: Resource,
    listed: &Listed,
) -> Result<(), Broken>
    ensures { Sends result (content_text close (said 200 (listed_json form resource listed.now))) (sent_through K.written K.settled K.faults sink.old sink.new) }
{
    let mut digits = Buffer::new();
    let revision = digits.format(listed.rev).as_bytes();
    let mut left_digits = Buffer::new();
    match &listed.more {
        None => {
            let back = shown_list_back(form, resource, revision);
            send_page(sink, form, close, resource, listed, &back)
        }
        Some(more) => {
            let left = left(more, &mut left_digits);
            let token = quoted(alloc, more.token.as_str())?;
            let back = shown_list_more(form, resource, revision, token.as_bytes(), left);
            send_page(sink, form, close, resource, listed, &back)
        }
    }
}

// Replies with a list, whose JSON after its items is these pieces.
fn send_page<K: Sink>(
    sink: &mut K,
    form: Form,
    close: bool,
    resource: Resource,
    listed: &Listed,
    back: &[&[u8]],
) -> Result<(), Broken>
    requires { flat_map (λ piece. piece.now) back.now ≡ list_back (list_kind_in form resource) listed.now.rev listed.now.more }
    ensures { Sends result (content_text close (said 200 (listed_json form resource listed.now))) (sent_through K.written K.settled K.faults sink.old sink.new) }
{
    let front = shown_list_front(form, resource);
    send_items(sink, form, close, &front, &listed.items, back)
}

// The digits of how many items are left, where that is told.
fn left<'a>(more: &More, digits: &'a mut Buffer) -> Option<&'a [u8]>
    ensures { option_map (λ l. l.now) result ≡ option_map decimal more.now.left }
{
    match more.left {
        Some(count) => Some(digits.format(count).as_bytes()),
        None => None,
    }
}

// Replies with a list: the pieces before its items, the items, and the pieces after them.
fn send_items<K: Sink>(
    sink: &mut K,
    form: Form,
    close: bool,
    front: &[&[u8]],
    items: &Items,
    back: &[&[u8]],
) -> Result<(), Broken>
    ensures { Sends result (reply_text 200 false close (between (flat_map (λ piece. piece.now) front.now) form (rows_of items.now) (flat_map (λ piece. piece.now) back.now) ++ 10 ∷ []))
        (sent_through K.written K.settled K.faults sink.old sink.new) }
{
    let Some(length) = list_length(form, front, items, back) else {
        return Err(Broken::Memory);
    };
    begin_reply(sink, 200, false, close, length)?;
    write_list(sink, form, front, items, back)?;
    end_reply(sink)
}
