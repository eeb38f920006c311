//! The items of a list, written as the pieces that their objects are kept in: nothing is copied or joined.

ghost use Rattle.std.specs.Prelude.{◌≡◌, [], ◌∷◌, ◌++◌, length, IfSome};
ghost use Rattle.std.specs.List.{flat_map};
ghost use Rattle.edge_io.specs.Sent.{Writes, sent_through};
ghost use Rattle.client_api.specs.Items.{rows_of, rows_left};
ghost use Rattle.sess_reply.specs.Contents.{shown_row};
ghost use Rattle.sess_reply.specs.Items.{rows_text, between};

use crate::body::length_in;
use client_api::{ItemRows, Items};
use edge_io::{Failed, Sink};
use encode_once::Shown;
use http_send::parts;
use meta_view::{Form, shown_pieces};
use std::sync::Arc;

const COMMA: &[u8] = b",";

/// The JSON of an object in a form.
pub(crate) fn item_pieces<'a>(form: Form, shown: &'a Arc<Shown>) -> [&'a [u8]; 5]
    ensures { flat_map (λ piece. piece.now) result ≡ shown_row form shown.now.value }
{
    shown_pieces(form, &shown.row().obj, shown.digits())
}

// The same behind a comma.
fn later_pieces<'a>(form: Form, shown: &'a Arc<Shown>) -> [&'a [u8]; 6]
    ensures { flat_map (λ piece. piece.now) result ≡ 44 ∷ shown_row form shown.now.value }
{
    let [opens, front, digits, back, closes] = item_pieces(form, shown);
    [COMMA, opens, front, digits, back, closes]
}

// ---- how long they are, where a number of 64 bits holds it

/// How long the body of a list is: its JSON and the line feed.
pub(crate) fn list_length(form: Form, front: &[&[u8]], items: &Items, back: &[&[u8]]) -> Option<u64>
    ensures { IfSome result (λ n. n ≡ length (between (flat_map (λ piece. piece.now) front.now) form
        (rows_of items.now) (flat_map (λ piece. piece.now) back.now) ++ 10 ∷ [])) }
{
    let front = length_in(front)?;
    let items = items_length(form, items)?;
    let back = length_in(back)?;
    front.checked_add(items)?.checked_add(back)?.checked_add(1)
}

fn items_length(form: Form, items: &Items) -> Option<u64>
    ensures { IfSome result (λ n. n ≡ length (rows_text form (rows_of items.now))) }
{
    let mut rows = items.rows();
    let Some(first) = rows.next() else {
        return Some(0);
    };
    let first = length_in(&item_pieces(form, first))?;
    first.checked_add(later_length(form, rows)?)
}

fn later_length(form: Form, later: ItemRows<'_>) -> Option<u64>
    ensures { IfSome result (λ n. n ≡ length (flat_map (λ row. 44 ∷ shown_row form row) (rows_left later.entry))) }
{
    let mut total = 0u64;
    for shown in later {
        total = total.checked_add(length_in(&later_pieces(form, shown))?)?;
    }
    Some(total)
}

// ---- writing them

/// Writes the JSON of a list: the pieces before its items, the items, and the pieces after them.
pub(crate) fn write_list<K: Sink>(
    sink: &mut K,
    form: Form,
    front: &[&[u8]],
    items: &Items,
    back: &[&[u8]],
) -> Result<(), Failed>
    ensures { Writes result (between (flat_map (λ piece. piece.now) front.now) form
        (rows_of items.now) (flat_map (λ piece. piece.now) back.now))
        (sent_through K.written K.settled K.faults sink.old sink.new) }
{
    parts(sink, front)?;
    write_items(sink, form, items)?;
    parts(sink, back)
}

fn write_items<K: Sink>(sink: &mut K, form: Form, items: &Items) -> Result<(), Failed>
    ensures { Writes result (rows_text form (rows_of items.now))
        (sent_through K.written K.settled K.faults sink.old sink.new) }
{
    let mut rows = items.rows();
    let Some(first) = rows.next() else {
        return Ok(());
    };
    parts(sink, &item_pieces(form, first))?;
    write_later(sink, form, rows)
}

fn write_later<K: Sink>(sink: &mut K, form: Form, later: ItemRows<'_>) -> Result<(), Failed>
    ensures { Writes result (flat_map (λ row. 44 ∷ shown_row form row) (rows_left later.entry))
        (sent_through K.written K.settled K.faults sink.old sink.new) }
{
    for shown in later {
        parts(sink, &later_pieces(form, shown))?;
    }
    Ok(())
}
