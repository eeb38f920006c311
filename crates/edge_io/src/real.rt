//! Standard input and output and the system's clock as ends.

ghost use Rattle.std.specs.Prelude.{◌≡◌, ◌↔◌, IsTrue, ℕ, ◌+◌, ◌-◌, ◌<◌, ◌≤◌, [], None, OnOk, OnErr, IfOk, length};
ghost use Rattle.edge_io.specs.Counts.{Rose};

use crate::clock::{Clock, Reading};
use crate::fault::Failed;
use crate::held::Held;
use crate::sink::Sink;
use crate::source::Source;
use std::alloc::Global;
use std::io::{ErrorKind, Read, Write};
use std::time::{Duration, Instant};
use std::{io, thread};

/// A source over what the system reads from, as standard input or a TCP stream. It tells no content.
#[derive(Debug, Drop)]
pub struct ReadEnd<R> {
    from: R,
    faults: u64,
}

impl<R> ReadEnd<R> {
    /// A source that reads from `from`.
    pub fn new(from: R) -> ReadEnd<R>
        ensures from { result.from ≡ from }
        ensures fresh { result.faults ≡ 0 }
    {
        ReadEnd { from, faults: 0 }
    }

    /// Whether a fault was counted.
    pub fn has_faults(&self) -> bool
        ensures { IsTrue result ↔ (0 < self.now.faults) }
    {
        self.faults > 0
    }
}

impl<R: Read> Source for ReadEnd<R> {
    ghost left = { λ _. None };

    ghost faults = { λ end. end.faults };

    // A read that a signal broke off is made again.
    fn read(&mut self, buf: &mut [u8]) -> Result<usize, Failed> {
        for _ in 0..u64::MAX {
            match self.from.read(buf) {
                Ok(n) => return Ok(n),
                Err(e) if e.kind() == ErrorKind::Interrupted => {}
                Err(_) => break,
            }
        }
        self.faults = self.faults.saturating_add(1);
        Err(Failed)
    }
}

/// A sink over what the system writes to, as standard output or a TCP stream. It holds back up to 64 KiB, which go
/// out when they are full and at each [`Sink::flush`], and has memory for them only in between. Where there is none,
/// it holds back nothing. It tells no content. Once it failed it stays failed, so that nothing goes out behind a gap.
#[derive(Drop)]
pub struct WriteEnd<W> {
    to: W,
    held: Held,
    broken: bool,
    faults: u64,
}

impl<W> WriteEnd<W> {
    /// A sink that writes to `to`.
    pub fn new(alloc: Global, to: W) -> WriteEnd<W>
        ensures to { result.to ≡ to }
        ensures fresh { result.faults ≡ 0 }
    {
        WriteEnd {
            to,
            held: Held::new(alloc),
            broken: false,
            faults: 0,
        }
    }

    /// Whether a fault was counted.
    pub fn has_faults(&self) -> bool
        ensures { IsTrue result ↔ (0 < self.now.faults) }
    {
        self.faults > 0
    }

    // Counts a fault, after which each call fails.
    fn fail(&mut self) -> Failed
        ensures counted { Rose self.old.faults self.new.faults }
    {
        self.broken = true;
        self.faults = self.faults.saturating_add(1);
        Failed
    }
}

impl<W: Write> WriteEnd<W> {
    // Writes out what is held back.
    fn pour(&mut self) -> Result<(), Failed>
        ensures emptied { OnOk result (self.new.held ≡ record self.old.held { bytes = [] }) }
        ensures quiet { OnOk result (self.new.faults ≡ self.old.faults) }
        ensures counted { OnErr result (Rose self.old.faults self.new.faults) }
    {
        let outcome = write_whole(&mut self.to, self.held.bytes());
        self.held.clear();
        match outcome {
            Ok(()) => Ok(()),
            Err(_) => Err(self.fail()),
        }
    }
}

// Writes all of `bytes` to `to`.
fn write_whole<W: Write>(to: &mut W, bytes: &[u8]) -> io::Result<()> {
    let mut at = 0;
    for _ in 0..u64::MAX {
        if at >= bytes.len() {
            return Ok(());
        }
        at += write_some(to, &bytes[at..])?;
    }
    Err(io::Error::from(ErrorKind::Other))
}

// Writes some of `bytes` to `to`, at least one. A write that a signal broke off is made again.
fn write_some<W: Write>(to: &mut W, bytes: &[u8]) -> io::Result<usize>
    ensures within { IfOk result (λ n. n ≤ length bytes.now) }
    ensures some { IfOk result (λ n. 0 < n) }
{
    for _ in 0..u64::MAX {
        match to.write(bytes) {
            Ok(0) => break,
            Ok(n) => return Ok(n),
            Err(e) if e.kind() == ErrorKind::Interrupted => {}
            Err(e) => return Err(e),
        }
    }
    Err(io::Error::from(ErrorKind::WriteZero))
}

impl<W: Write> Sink for WriteEnd<W> {
    ghost written = { λ _. None };

    ghost faults = { λ end. end.faults };

    ghost settled = { λ end. end.held.bytes ≡ [] };

    // Bytes that would fill the room by themselves aren't copied.
    fn write(&mut self, bytes: &[u8]) -> Result<usize, Failed> {
        if self.broken {
            return Err(self.fail());
        }
        if bytes.is_empty() {
            return Ok(0);
        }
        self.held.make_room(bytes);
        if self.held.is_full() {
            self.pour()?;
        }
        if !self.held.is_filled_by(bytes) {
            return Ok(self.held.take(bytes));
        }
        match write_some(&mut self.to, bytes) {
            Ok(n) => Ok(n),
            Err(_) => Err(self.fail()),
        }
    }

    fn flush(&mut self) -> Result<(), Failed> {
        if self.broken {
            return Err(self.fail());
        }
        self.pour()?;
        self.held.release();
        match self.to.flush() {
            Ok(()) => Ok(()),
            Err(_) => Err(self.fail()),
        }
    }
}

/// How many milliseconds a [`SystemClock`] rests.
const REST_MS: u64 = 20;

/// The system's clock, in milliseconds since an instant. It never asks to stop, and a rest of it gives up the thread's
/// turn for about 20 ms. It tells no readings. Where the system's clock can't be read, it shows what it showed before.
#[derive(Drop)]
pub struct SystemClock<R> {
    rt: R,
    start: Option<Instant>,
    last: u64,
}

impl<R: std::time::Clock> SystemClock<R> {
    /// A clock that begins at 0 now.
    pub fn new(rt: R) -> SystemClock<R>
        ensures { result.last ≡ 0 }
    {
        let start = Instant::now(&rt).ok();
        SystemClock::since(rt, start)
    }

    /// A clock that shows the time since `start`, the same as any other that began there. Without a start it shows 0.
    pub fn since(rt: R, start: Option<Instant>) -> SystemClock<R>
        ensures { result.last ≡ 0 }
    {
        SystemClock { rt, start, last: 0 }
    }

    fn elapsed_ms(&self) -> Option<u64> {
        let elapsed = self.start?.elapsed(&self.rt).ok()?;
        u64::try_from(elapsed.as_millis()).ok()
    }
}

impl<R: std::time::Clock> Clock for SystemClock<R> {
    ghost last = { λ clock. clock.last };

    ghost readings = { λ _. None };

    fn now(&mut self) -> Reading {
        let ms = self.elapsed_ms().unwrap_or(0);
        self.last = self.last.max(ms);
        Reading {
            ms: self.last,
            stop: false,
        }
    }

    fn rest(&mut self) {
        thread::sleep(&self.rt, Duration::from_millis(REST_MS));
    }
}
