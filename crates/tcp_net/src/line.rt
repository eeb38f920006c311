//! The stream of a connection, its deadlines and its close.

ghost use Rattle.std.specs.Io.{ReadsAtMost, WritesAtMost};

use crate::waits::{Limits, wait_ms};
use crate::way::{Way, now_ms};
use std::io;
use std::io::{ErrorKind, Read, Write};
use std::net::{Shutdown, TcpStream};
use std::os::fd::{AsRawFd, RawFd};
use std::sync::atomic::AtomicBool;
use std::sync::atomic::Ordering::SeqCst;
use std::time::Duration;

/// For how many milliseconds a client may stay silent between requests. It is longer than the 90 seconds for which a
/// client of Go keeps an idle connection, so that the client ends that first.
const IDLE_MS: u64 = 120_000;

/// How many milliseconds a whole request takes at most, head and body, from its first byte.
const REQUEST_MS: u64 = 60_000;

/// For how many milliseconds a write waits for its peer to take a byte.
const WRITE_MS: u64 = 60_000;

/// How many milliseconds a whole reply takes at most, from its first byte, or what one turn of a watch tells.
const REPLY_MS: u64 = 120_000;

/// How many milliseconds a close waits at most for its peer to close, and reads off what that still sends.
const LINGER_MS: u64 = 500;

/// How many bytes are read off at once.
const PIECE: usize = 4_096;

/// What requests are given.
const REQUESTS: Limits = Limits {
    first_ms: IDLE_MS,
    each_ms: REQUEST_MS,
    whole_ms: REQUEST_MS,
};

/// What replies are given.
const REPLIES: Limits = Limits {
    first_ms: WRITE_MS,
    each_ms: WRITE_MS,
    whole_ms: REPLY_MS,
};

/// What a close is given.
const CLOSES: Limits = Limits {
    first_ms: LINGER_MS,
    each_ms: LINGER_MS,
    whole_ms: LINGER_MS,
};

/// What is asked of a peer comes when it comes, so each byte is waited for by itself.
const PEERS: Limits = Limits {
    first_ms: IDLE_MS,
    each_ms: IDLE_MS,
    whole_ms: u64::MAX,
};

/// Who began a connection.
#[derive(Clone, Copy, Debug, PartialEq, Eq)]
pub(crate) enum Side {
    /// A client, which is served.
    Client,
    /// This program, which asks a peer.
    Program,
}

/// A TCP stream whose reads and writes fail where they wait too long.
///
/// A request begins with the first byte that is read behind a write, and ends with the next write. A reply begins with
/// its first byte that goes out, and ends where the sink is flushed; so does each turn of a watch. Bytes of a request
/// that were read together with the one before don't begin it.
///
/// The stream of a client is closed in two steps: it is said that nothing more will come, and what the client still
/// sends is read off for a while. A close over bytes that nobody read would break the connection, and the client might
/// not see the reply.
pub(crate) struct Line {
    stream: TcpStream,
    side: Side,
    incoming: Way,
    outgoing: Way,
    // Nothing more comes, or can be sent.
    is_over: AtomicBool,
}

impl Line {
    /// That of a connection which was begun so. It sends what it is given at once.
    pub(crate) fn new(stream: TcpStream, side: Side) -> io::Result<Line> {
        stream.set_nodelay(true)?;
        let incoming = match side {
            Side::Client => REQUESTS,
            Side::Program => PEERS,
        };
        Ok(Line {
            stream,
            side,
            incoming: Way::new(incoming),
            outgoing: Way::new(REPLIES),
            is_over: AtomicBool::new(false),
        })
    }

    /// Reads some bytes.
    pub(crate) fn read(&self, buf: &mut [u8]) -> io::Result<usize>
        ensures { ReadsAtMost result buf.new }
    {
        let outcome = self.read_some(buf);
        match &outcome {
            Ok(0) => self.is_over.store(true, SeqCst),
            Ok(_) => self.incoming.carry(),
            Err(error) => self.note(error),
        }
        outcome
    }

    fn read_some(&self, buf: &mut [u8]) -> io::Result<usize>
        ensures { ReadsAtMost result buf.new }
    {
        if let Some(time) = self.incoming.next_wait()? {
            self.stream.set_read_timeout(Some(time))?;
        }
        (&mut &self.stream).read(buf)
    }

    /// Writes some bytes.
    pub(crate) fn write(&self, buf: &[u8]) -> io::Result<usize>
        ensures { WritesAtMost result buf.now }
    {
        self.incoming.clear();
        let outcome = self.write_some(buf);
        match &outcome {
            Ok(_) => self.outgoing.carry(),
            Err(error) => self.note(error),
        }
        outcome
    }

    fn write_some(&self, buf: &[u8]) -> io::Result<usize>
        ensures { WritesAtMost result buf.now }
    {
        if let Some(time) = self.outgoing.next_wait()? {
            self.stream.set_write_timeout(Some(time))?;
        }
        (&mut &self.stream).write(buf)
    }

    /// What was written is whole.
    pub(crate) fn flush(&self) {
        self.outgoing.clear();
    }

    // Behind an error nothing more is expected, unless it is a signal.
    fn note(&self, error: &io::Error) {
        if error.kind() != ErrorKind::Interrupted {
            self.is_over.store(true, SeqCst);
        }
    }
}

impl AsRawFd for Line {
    fn as_raw_fd(&self) -> RawFd {
        self.stream.as_raw_fd()
    }
}

impl Drop for Line {
    fn drop(self) {
        let Line {
            stream,
            side,
            incoming,
            outgoing,
            is_over,
        } = self;
        if side == Side::Client && !is_over.load(SeqCst) {
            linger(&stream);
        }
    }
}

// Says that nothing more will come, and reads off what the peer still sends, until it closes too or the time is over.
fn linger(stream: &TcpStream) {
    if stream.shutdown(Shutdown::Write).is_err() {
        return;
    }
    let began = now_ms();
    let mut piece = [0u8; PIECE];
    for _ in 0..u64::MAX {
        let Some(ms) = wait_ms(CLOSES, Some(began), now_ms()) else {
            return;
        };
        let time = Some(Duration::from_millis(ms));
        if stream.set_read_timeout(time).is_err() {
            return;
        }
        match (&mut &*stream).read(&mut piece) {
            Ok(0) | Err(_) => return,
            Ok(_) => {}
        }
    }
}
