//! Whether a peer still has the log that a mirror follows.

use edge_io::{Failed, Sink, Source};
use itoa::Buffer;
use line_stream::{LineNo, LineReader, MOST_LINE};
use std::alloc::Global;

/// The code of the reply to a list that is to be not older than a revision which the log hasn't reached.
const TOO_LARGE: u16 = 504;

/// How a peer's log stands to a revision.
#[derive(Clone, Copy, Debug, PartialEq, Eq)]
pub enum Standing {
    /// It has reached it.
    Reached,
    /// It hasn't: a log that had reached it once is another one.
    Behind,
    /// The peer didn't say.
    Unknown,
}

/// Asks a peer, over a connection of its own, for a list of one pod that is not older than the revision `at`.
///
/// The reply's status alone tells. The reader of heads is one of chunked bodies: a list that says its length is a bad
/// head to it, as are bytes that are no reply, which then the watch that is asked for next is refused for.
pub fn standing_of<S: Source, K: Sink>(
    alloc: Global,
    at: u64,
    source: &mut S,
    sink: &mut K,
) -> Standing {
    if ask(at, sink).is_err() {
        return Standing::Unknown;
    }
    match LineReader::open(alloc, 0, MOST_LINE).read_head(source) {
        Ok(()) | Err(LineNo::BadHead) => Standing::Reached,
        Err(LineNo::Refused { code: TOO_LARGE }) => Standing::Behind,
        Err(_) => Standing::Unknown,
    }
}

// Writes the request, and sends it on.
fn ask<K: Sink>(at: u64, sink: &mut K) -> Result<(), Failed> {
    let mut digits = Buffer::new();
    sink.write_pieces(&[
        b"GET /api/v1/pods?limit=1&resourceVersionMatch=NotOlderThan&resourceVersion=",
        digits.format(at).as_bytes(),
        b" HTTP/1.1\r\nHost: localhost\r\nConnection: close\r\n\r\n",
    ])?;
    sink.flush()
}
