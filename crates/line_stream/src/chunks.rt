//! What stands between the data of a chunked body.

ghost use Rattle.std.specs.Prelude.{◌≡◌, take};
ghost use Rattle.line_stream.specs.Chunks.{most_size, place_behind};
ghost use Rattle.line_stream.specs.Looks.{LooksAtEnd, LooksAtFrame, frame_of};

use crate::place::Place;
use httparse::{Status, parse_chunk_size};

/// The most bytes of a chunk's line.
const MOST_SIZE: usize = 64;

/// Whether bytes begin with the end of a line, CR LF.
#[derive(Clone, Copy)]
pub(crate) enum Ending {
    Whole,
    Open,
    Refused,
}

/// What stands at a place between data: a piece of so many bytes, which leads to another place, or nothing yet, or
/// nothing that may stand there.
#[derive(Clone, Copy)]
pub(crate) enum Frame {
    Passed(usize, Place),
    Open,
    Refused,
}

// Looks for the end of a line in front of the bytes.
fn look_at_end(bytes: &[u8]) -> Ending
    ensures { LooksAtEnd bytes.now result }
{
    if bytes.is_empty() {
        return Ending::Open;
    }
    if bytes[0] != b'\r' {
        return Ending::Refused;
    }
    if bytes.len() == 1 {
        return Ending::Open;
    }
    if bytes[1] != b'\n' {
        return Ending::Refused;
    }
    Ending::Whole
}

// The part of the bytes in which a chunk's line has to end.
fn size_front(bytes: &[u8]) -> &[u8]
    ensures { result.now ≡ take most_size bytes.now }
{
    &bytes[..bytes.len().min(MOST_SIZE)]
}

// What comes behind the line of a chunk with so much data.
fn place_of(size: u64) -> Place
    ensures { result ≡ place_behind size }
{
    if size == 0 {
        Place::Last
    } else {
        Place::Inside(size)
    }
}

/// Looks for a chunk's line in front of the bytes.
pub(crate) fn look_at_size(bytes: &[u8]) -> Frame
    ensures { LooksAtFrame Place.AtSize bytes.now result }
{
    match parse_chunk_size(size_front(bytes)) {
        Ok(Status::Complete((len, size))) => Frame::Passed(len, place_of(size)),
        Ok(Status::Partial) if bytes.len() < MOST_SIZE => Frame::Open,
        Ok(Status::Partial) => Frame::Refused,
        Err(_) => Frame::Refused,
    }
}

// What is at a place between data, where the end of a line has to be.
fn framed(ending: Ending, to: Place) -> Frame
    ensures { result ≡ frame_of to ending }
{
    match ending {
        Ending::Whole => Frame::Passed(2, to),
        Ending::Open => Frame::Open,
        Ending::Refused => Frame::Refused,
    }
}

/// Looks for what comes behind the data of a chunk.
pub(crate) fn look_behind_data(bytes: &[u8]) -> Frame
    ensures { LooksAtFrame (Place.Inside 0) bytes.now result }
{
    framed(look_at_end(bytes), Place::AtSize)
}

/// Looks for what comes behind the line of the last chunk.
pub(crate) fn look_behind_last(bytes: &[u8]) -> Frame
    ensures { LooksAtFrame Place.Last bytes.now result }
{
    framed(look_at_end(bytes), Place::Over)
}
