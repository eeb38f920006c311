//! What a line tells of an object.

ghost use Rattle.std.specs.Prelude.{◌≡◌, ◌↔◌, IsTrue};
ghost use Rattle.std.specs.List.{flat_map};
ghost use Rattle.json_obj.specs.Replies.{event_text};
ghost use Rattle.meta_view.specs.declared.form.Form.TheVariants.{Whole};
ghost use Rattle.meta_view.specs.Lines.{object_line};
ghost use Rattle.watch_lines.specs.Texts.{type_of};

use crate::pieces::{behind, is_made_of};
use itoa::Buffer;
use json_obj::EventType;
use kube_meta::Obj;
use meta_view::{Form, shown_pieces};
use select_all::Kind;

/// Whether the line tells this of the whole object at the revision.
pub fn tells(line: &[u8], kind: Kind, obj: &Obj, rev: u64) -> bool
    ensures { IsTrue result ↔ (line.now ≡ object_line Whole (type_of kind) obj.now rev) }
{
    let mut buffer = Buffer::new();
    let digits = buffer.format(rev).as_bytes();
    let object = shown_pieces(Form::Whole, obj, digits);
    is_event(line, event_type(kind), &object)
}

/// The type of an event by which a change of an object is told.
pub fn event_type(kind: Kind) -> EventType
    ensures { result ≡ type_of kind }
{
    match kind {
        Kind::Added => EventType::Added,
        Kind::Modified => EventType::Modified,
        Kind::Deleted => EventType::Deleted,
    }
}

// Whether the line is an event of the type, with an object of these pieces.
fn is_event(line: &[u8], event: EventType, object: &[&[u8]]) -> bool
    ensures { IsTrue result ↔ (line.now ≡ event_text event (flat_map (λ piece. piece.now) object.now)) }
{
    match behind(line, event.front()) {
        Some(rest) => is_made_of(rest, object, event.back()),
        None => false,
    }
}
