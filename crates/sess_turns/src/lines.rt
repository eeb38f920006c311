//! The lines of a stream, written in their frames.

ghost use Rattle.std.specs.Prelude.{map};
ghost use Rattle.edge_io.specs.Sent.{sent_through};
ghost use Rattle.watch_rules.specs.Bodies.{Told, initial_lines, opening_lines};
ghost use Rattle.sess_reply.specs.Sending.{Emits};
ghost use Rattle.watch_lines.specs.Texts.{type_of};
ghost use Rattle.sess_turns.specs.Streams.{frames_of, framed};
ghost use Rattle.meta_view.specs.Lines.{object_line, bookmark_line, expired_line};

use crate::frames::event;
use crate::view::{Framing, View};
use client_api::{Begun, Line};
use edge_io::Sink;
use encode_once::Shown;
use itoa::Buffer;
use json_obj::{EventType, expired_pieces};
use kube_meta::Resource;
use meta_view::{shown_bookmark, shown_pieces};
use select_all::Kind;
use sess_reply::Broken;
use std::sync::Arc;
use watch_lines::event_type;
use watch_rules::WatchAsk;

/// Writes the opening of a watch: a line for each of its initial objects, and the bookmark that ends them where one is
/// asked for.
pub(crate) fn opening<K: Sink>(
    sink: &mut K,
    view: &View,
    ask: &WatchAsk,
    begun: &Begun,
) -> Result<(), Broken>
    ensures { Emits result (frames_of view.now ask.now.selection.resource (opening_lines ask.now begun.now.at begun.now.rows))
        (sent_through K.written K.settled K.faults sink.old sink.new) }
{
    let resource = ask.selection.resource;
    initial(sink, view, resource, &begun.initial)?;
    if ask.closing {
        bookmark(sink, view, resource, begun.at, true)?;
    }
    Ok(())
}

// Writes a line for each object.
fn initial<K: Sink>(
    sink: &mut K,
    view: &View,
    resource: Resource,
    objects: &[Arc<Shown>],
) -> Result<(), Broken>
    ensures { Emits result (frames_of view.now resource (initial_lines (map (λ shown. shown.value) objects.now)))
        (sent_through K.written K.settled K.faults sink.old sink.new) }
{
    for shown in objects {
        object(sink, view, Kind::Added, shown)?;
    }
    Ok(())
}

/// Writes these lines.
pub(crate) fn events<K: Sink>(
    sink: &mut K,
    view: &View,
    resource: Resource,
    lines: &[Line],
) -> Result<(), Broken>
    ensures { Emits result (frames_of view.now resource (map Told lines.now))
        (sent_through K.written K.settled K.faults sink.old sink.new) }
{
    for line in lines {
        object(sink, view, line.kind, &line.shown)?;
    }
    Ok(())
}

// Writes what is told of an object.
fn object<K: Sink>(sink: &mut K, view: &View, kind: Kind, shown: &Shown) -> Result<(), Broken>
    ensures { Emits result (framed view.now.framing (object_line view.now.form (type_of kind) shown.now.obj shown.now.rev))
        (sent_through K.written K.settled K.faults sink.old sink.new) }
{
    let pieces = shown_pieces(view.form, &shown.row().obj, shown.digits());
    event(sink, &view.framing, event_type(kind), &pieces)
}

/// Writes a bookmark.
pub(crate) fn bookmark<K: Sink>(
    sink: &mut K,
    view: &View,
    resource: Resource,
    at: u64,
    closing: bool,
) -> Result<(), Broken>
    ensures { Emits result (framed view.now.framing (bookmark_line view.now.form resource at closing))
        (sent_through K.written K.settled K.faults sink.old sink.new) }
{
    let mut buffer = Buffer::new();
    let digits = buffer.format(at).as_bytes();
    let object = shown_bookmark(view.form, resource, digits, closing);
    event(sink, &view.framing, EventType::Bookmark, &object)
}

/// Writes the error of a watch that is lost.
pub(crate) fn lost<K: Sink>(
    sink: &mut K,
    framing: &Framing,
    at: u64,
    floor: u64,
) -> Result<(), Broken>
    ensures { Emits result (framed framing.now (expired_line at floor))
        (sent_through K.written K.settled K.faults sink.old sink.new) }
{
    let mut asked_buffer = Buffer::new();
    let mut floor_buffer = Buffer::new();
    let asked_digits = asked_buffer.format(at).as_bytes();
    let floor_digits = floor_buffer.format(floor).as_bytes();
    let object = expired_pieces(asked_digits, floor_digits);
    event(sink, framing, EventType::Error, &object)
}
