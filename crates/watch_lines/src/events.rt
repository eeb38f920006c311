//! The events that texts are: their types and their objects.

ghost use Rattle.std.specs.Prelude.{◌≡◌, ◌≢◌, ℕ, List, MatchOption, slice_index};
ghost use Rattle.json_obj.specs.Replies.{event_text};
ghost use Rattle.json_obj.specs.declared.pieces.EventType.{EventType as Event};

use crate::pieces::{before, behind};
use json_obj::EventType;

/// The type of the event that a text is, if it is one.
pub(crate) fn type_of_event(text: &[u8]) -> EventType
    ensures { (event : Event) (shown : List ℕ) → text.now ≡ event_text event shown → result ≡ event }
{
    if text.len() <= LETTER {
        return EventType::Error;
    }
    match text[LETTER] {
        b'A' => EventType::Added,
        b'M' => EventType::Modified,
        b'D' => EventType::Deleted,
        b'B' => EventType::Bookmark,
        _ => EventType::Error,
    }
}

// Where the first letter of an event's type stands.
const LETTER: usize = 9;

/// The object of the event of a type that a text is.
pub(crate) fn object_in(text: &[u8], event: EventType) -> Option<&[u8]>
    ensures { MatchOption result ((shown : List ℕ) → text.now ≢ event_text event shown)
        (λ shown. text.now ≡ event_text event shown.now) }
{
    let Some(rest) = behind(text, event.front()) else {
        return None;
    };
    before(rest, event.back())
}
