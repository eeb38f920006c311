//! What stands in front of the bytes that a reader keeps.

ghost use Rattle.std.specs.Prelude.{◌≡◌, ◌≢◌, ◌+◌, ◌<◌, ◌≤◌, ◌==◌, nat_lt, [], ◌∷◌, length, take, drop, if◌then◌else◌};
ghost use Rattle.line_stream.specs.Readers.{IsWithinLine, FitsRoom};
ghost use Rattle.line_stream.specs.Looks.{LooksAt, look_of};

use crate::chunks::{Frame, look_at_size, look_behind_data, look_behind_last};
use crate::place::Place;
use crate::refusal::LineNo;
use memchr::memchr;

/// What a look at the bytes finds.
#[derive(Clone, Copy)]
pub(crate) enum Look {
    /// A piece of so many bytes without data, which leads to another place.
    Frame(usize, Place),
    /// So many bytes of the line, behind which so much of the chunk is left.
    Data(usize, u64),
    /// The line feed that ends the line, behind which so much of the chunk is left.
    Feed(u64),
    /// The end of the body, between two lines.
    Over,
    /// Nothing that is whole.
    Open,
}

// What is found where a piece without data has to be.
fn found(frame: Frame) -> Result<Look, LineNo>
    ensures { result ≡ look_of frame }
{
    match frame {
        Frame::Passed(len, to) => Ok(Look::Frame(len, to)),
        Frame::Open => Ok(Look::Open),
        Frame::Refused => Err(LineNo::BadChunk),
    }
}

// The data of a chunk that is at hand: the front of the bytes, as far as they are the chunk's and may be taken.
fn data_in(kept: &[u8], size: u64, room: Option<u64>) -> &[u8]
    ensures front { result.now ≡ take (length result.now) kept.now }
    ensures within { length result.now ≤ length kept.now }
    ensures fits { length result.now ≤ size }
    ensures room { FitsRoom room (length result.now) }
    ensures some { 0 < size → (room ≢ Some 0) → length result.now ≡ 0 → kept.now ≡ [] }
{
    let most = match room {
        Some(room) => size.min(room),
        None => size,
    };
    let len = (kept.len() as u64).min(most);
    &kept[..len as usize]
}

// How many bytes of the line stand in front of some data.
fn line_length(at_hand: &[u8]) -> usize
    ensures within { result ≤ length at_hand.now }
    ensures line { IsWithinLine (take result at_hand.now) }
    ensures feed { result < length at_hand.now → drop result at_hand.now ≡ 10 ∷ drop (result + 1) at_hand.now }
{
    match memchr(b'\n', at_hand) {
        Some(at) => at,
        None => at_hand.len(),
    }
}

// Whether so many bytes more make a line too long.
fn is_too_long(part: usize, len: usize, most: usize) -> bool
    ensures { result ≡ nat_lt most (part + len) }
{
    len > most || part > most - len
}

// Looks for the data of a chunk.
fn look_at_data(
    kept: &[u8],
    size: u64,
    part: &[u8],
    room: Option<u64>,
    most: usize,
) -> Result<Look, LineNo>
    requires size { 0 < size }
    requires room { room ≢ Some 0 }
    ensures { LooksAt (record { kept = kept.now; place = Place.Inside size; part = part.now; room = room; most = most }) result }
{
    let at_hand = data_in(kept, size, room);
    if at_hand.is_empty() {
        return Ok(Look::Open);
    }
    let len = line_length(at_hand);
    if is_too_long(part.len(), len, most) {
        return Err(LineNo::Overlong);
    }
    if len == 0 {
        return Ok(Look::Feed(size - 1));
    }
    Ok(Look::Data(len, size - len as u64))
}

// Looks for the end of the body, where nothing more comes.
fn look_over(part: &[u8]) -> Result<Look, LineNo>
    ensures { result ≡ (if length part.now == 0 then Ok Look.Over else Err LineNo.Unfinished) }
{
    if part.is_empty() {
        Ok(Look::Over)
    } else {
        Err(LineNo::Unfinished)
    }
}

/// Looks at the bytes that a reader keeps: what stands in front of them, or why nothing may stand there.
pub(crate) fn look_at(
    kept: &[u8],
    place: Place,
    part: &[u8],
    room: Option<u64>,
    most: usize,
) -> Result<Look, LineNo>
    ensures { LooksAt (record { kept = kept.now; place = place; part = part.now; room = room; most = most }) result }
{
    if let Some(0) = room {
        return Err(LineNo::Spent);
    }
    match place {
        Place::AtSize => found(look_at_size(kept)),
        Place::Inside(0) => found(look_behind_data(kept)),
        Place::Inside(size) => look_at_data(kept, size, part, room, most),
        Place::Last => found(look_behind_last(kept)),
        Place::Over => look_over(part),
    }
}
