//! The ends of connections in memory, each of which others may see: a source may wait until another connection was
//! written some text, and a clock shows a late time once its own was.

ghost use Rattle.std.specs.Prelude.{◌≡◌, ◌≤◌, length, None, IfOk, ⊤};

use crate::rows::{Wording, number, split, words_of};
use crate::servers::board::{Board, copy_from};
use crate::servers::case::{number_in, tell_bytes};
use bells::{Bell, NO_PEER, Rung};
use edge_io::{Clock, Failed, Listener, Reading, Sink, Source};
use kube_meta::Memory;
use std::alloc::Global;
use std::collections::VecDeque;
use std::sync::{Arc, Wait};
use std::thread;
use std::time::Duration;

/// More bytes than a connection has.
const UNCUT: u64 = 1 << 62;

/// How often a clock looks whether it is late.
const TURNS: u64 = 1_000;

/// The time at which a first bookmark is due, in milliseconds.
const MINUTE_MS: u64 = 60_000;

/// The time that a late clock shows, in milliseconds: longer than any watch.
const LATE_MS: u64 = 1_000_000_000;

/// Gives what a connection sends: no byte where a sign that it waits for doesn't come in time; and where there is a
/// wire, the bytes that that is written.
#[derive(Drop)]
pub struct CaseSource<'a, R> {
    board: &'a Board<R>,
    wire: Option<usize>,
    lines: &'a str,
    text: String,
    // Behind which byte it fails.
    end: u64,
    at: usize,
    faults: u64,
}

impl<'a, R: Wait + Drop + std::time::Clock> CaseSource<'a, R> {
    // Reads what a wire is written, once there is more.
    fn read_wire(&mut self, wire: usize, buf: &mut [u8]) -> usize
        ensures within { result ≤ length buf.new }
        ensures quiet { self.new.faults ≡ self.old.faults }
    {
        let n = self.board.read(wire, self.at, buf);
        self.at = self.at.saturating_add(n);
        n
    }
}

impl<'a, R: Wait + Drop + std::time::Clock> Source for CaseSource<'a, R> {
    ghost left = { λ _. None };

    ghost faults = { λ source. source.faults };

    fn read(&mut self, buf: &mut [u8]) -> Result<usize, Failed> {
        if self.at == 0 && !self.board.all_come(self.lines, "waits") {
            self.at = self.text.len();
            self.wire = None;
        }
        if self.at as u64 >= self.end {
            self.faults = self.faults.saturating_add(1);
            return Err(Failed);
        }
        if let Some(wire) = self.wire {
            return Ok(self.read_wire(wire, buf));
        }
        if self.at >= self.text.len() {
            self.board.all_come(self.lines, "lasts");
        }
        let n = copy_from(
            self.text.as_bytes(),
            self.at,
            room(self.end, self.at as u64),
            buf,
        );
        self.at = self.at.saturating_add(n);
        Ok(n)
    }
}

// How many bytes lie between two places, as far as a length tells it.
fn room(end: u64, at: u64) -> usize {
    end.saturating_sub(at).min(1 << 30) as usize
}

/// Writes what a connection takes to the board.
#[derive(Drop)]
pub struct CaseSink<'a, R> {
    board: &'a Board<R>,
    number: usize,
    // Behind which byte it fails, and behind which it holds, until which sign.
    end: u64,
    holds: Option<&'a str>,
    taken: u64,
    faults: u64,
}

impl<'a, R: Wait + Drop + std::time::Clock> CaseSink<'a, R> {
    // How many of so many bytes are taken: those up to where the connection is cut, and behind the place at which it
    // holds none where a sign doesn't come in time.
    fn taken_of(&self, count: usize) -> usize
        ensures { result ≤ count }
    {
        let count = count.min(room(self.end, self.taken));
        let Some(words) = self.holds else {
            return count;
        };
        let (at, sign) = split(words);
        let at = number(at);
        if self.taken < at {
            return count.min(room(at, self.taken));
        }
        if self.board.comes(sign) {
            return count;
        }
        0
    }
}

impl<'a, R: Wait + Drop + std::time::Clock> Sink for CaseSink<'a, R> {
    ghost written = { λ _. None };

    ghost faults = { λ sink. sink.faults };

    ghost settled = { λ _. ⊤ };

    fn write(&mut self, bytes: &[u8]) -> Result<usize, Failed> {
        let n = self.taken_of(bytes.len());
        let written = self.board.write(self.number, &bytes[..n]);
        if n < bytes.len().min(1) || !written {
            self.board.cut(self.number);
            self.faults = self.faults.saturating_add(1);
            return Err(Failed);
        }
        self.taken = self.taken.saturating_add(n as u64);
        Ok(n)
    }

    fn flush(&mut self) -> Result<(), Failed> {
        Ok(())
    }
}

/// A clock that stands at 0 until its connection was written a text, when it shows a minute, and another one, or was
/// looked at too often; then it is late. Once a third text was written it asks to stop. Where it has a bell, it rests
/// until that is rung.
#[derive(Drop)]
pub struct CaseClock<'a, R> {
    board: &'a Board<R>,
    number: usize,
    lines: &'a str,
    bell: Option<Arc<Bell, Global>>,
    turns: u64,
    last: u64,
}

impl<'a, R: Wait + Drop> CaseClock<'a, R> {
    // Whether the connection was written the text behind a word, if there is one.
    fn has(&self, word: &str) -> bool {
        match words_of(self.lines, word) {
            Some(text) => self.board.has(self.number, text),
            None => false,
        }
    }

    // The time that it shows next.
    fn time(&self) -> u64 {
        if self.turns > TURNS || self.has("late") {
            LATE_MS
        } else if self.has("minute") {
            MINUTE_MS
        } else {
            0
        }
    }
}

impl<'a, R: Wait + Drop + std::time::Clock> Clock for CaseClock<'a, R> {
    ghost last = { λ clock. clock.last };

    ghost readings = { λ _. None };

    fn now(&mut self) -> Reading {
        self.turns = self.turns.saturating_add(1);
        self.last = self.last.max(self.time());
        Reading {
            ms: self.last,
            stop: self.has("stop"),
        }
    }

    fn rest(&mut self) {
        thread::sleep(&self.board.rt, Duration::from_millis(1));
    }
}

impl<'a, R: Wait + Drop + std::time::Clock> Rung for CaseClock<'a, R> {
    fn bell(&self) -> Option<&Arc<Bell, Global>> {
        self.bell.as_ref()
    }

    // It doesn't rest where it has something new to show.
    fn rest_until(&mut self, count: u32, ms: u64) -> bool {
        let shows = self.time() > self.last || self.has("stop");
        match &self.bell {
            Some(bell) => {
                if !shows {
                    bell.rest(&self.board.rt, count, &NO_PEER, ms);
                }
                true
            }
            None => false,
        }
    }
}

/// A clock that stands at 0.
#[derive(Drop)]
pub struct StillClock;

impl Clock for StillClock {
    ghost use Rattle.std.specs.Prelude.{None};

    ghost last = { λ _. 0 };

    ghost readings = { λ _. None };

    fn now(&mut self) -> Reading {
        Reading { ms: 0, stop: false }
    }

    fn rest(&mut self) {}
}

/// The ends of the connection of a number, by its lines. It reads what a wire is written, if one is named.
pub fn ends_of<'a, R>(
    alloc: Global,
    board: &'a Board<R>,
    number: usize,
    lines: &'a str,
    wire: Option<usize>,
) -> Result<(CaseSource<'a, R>, CaseSink<'a, R>), Memory> {
    let mut text = Wording::new(alloc);
    tell_bytes(alloc, lines, "bytes", &mut text)?;
    let source = CaseSource {
        board,
        wire,
        lines,
        text: text.whole()?,
        end: number_in(lines, "reads", UNCUT),
        at: 0,
        faults: 0,
    };
    let sink = CaseSink {
        board,
        number,
        end: number_in(lines, "writes", UNCUT),
        holds: words_of(lines, "holds"),
        taken: 0,
        faults: 0,
    };
    Ok((source, sink))
}

/// The ends of a connection, and its clock.
type CaseEnds<'a, R> = (CaseSource<'a, R>, CaseSink<'a, R>, CaseClock<'a, R>);

/// A listener that hands out connections, the first one first, and may fail in between.
#[derive(Drop)]
pub struct CaseListener<'a, R> {
    alloc: Global,
    board: &'a Board<R>,
    waiting: VecDeque<&'a str>,
    fails: u64,
    given: u64,
    /// How often accepting failed.
    pub faults: u64,
}

impl<'a, R> CaseListener<'a, R> {
    /// A listener of the connections of a server, at which accepting may fail once so many were given.
    pub fn new(
        alloc: Global,
        board: &'a Board<R>,
        server: &'a str,
    ) -> Result<CaseListener<'a, R>, Memory>
        ensures given { IfOk result (λ listener. listener.given ≡ 0) }
        ensures faults { IfOk result (λ listener. listener.faults ≡ 0) }
    {
        let mut waiting = VecDeque::new(alloc);
        for connection in server.split("\nconnection ").skip(1) {
            waiting.push_back(connection)?;
        }
        Ok(CaseListener {
            alloc,
            board,
            waiting,
            fails: number_in(server, "fails", UNCUT),
            given: 0,
            faults: 0,
        })
    }
}

impl<'a, R: Wait + Drop> CaseListener<'a, R> {
    // The ends of a connection, whose first line is its number. What it gets back doesn't matter here.
    fn ends(&self, connection: &'a str) -> Result<CaseEnds<'a, R>, Memory> {
        let (name, lines) = connection.split_once('\n').unwrap_or((connection, ""));
        let (lines, _) = lines.split_once("\nwants ").unwrap_or((lines, ""));
        let number = number(name) as usize;
        let wire = self.board.asked_on(number);
        let bell = bell_of(self.alloc, lines)?;
        let (source, sink) = ends_of(self.alloc, self.board, number, lines, wire)?;
        let clock = CaseClock {
            board: self.board,
            number,
            lines,
            bell,
            turns: 0,
            last: 0,
        };
        Ok((source, sink, clock))
    }
}

// The bell of a connection's clock, if it has one.
fn bell_of(alloc: Global, lines: &str) -> Result<Option<Arc<Bell, Global>>, Memory> {
    match words_of(lines, "bell") {
        Some(_) => Ok(Some(Arc::new(alloc, Bell::new())?)),
        None => Ok(None),
    }
}

impl<'a, R: Wait + Drop + std::time::Clock + Send + Sync> Listener for CaseListener<'a, R> {
    ghost use Rattle.std.specs.Prelude.{[]};

    type S = CaseSource<'a, R>;

    type K = CaseSink<'a, R>;

    type T = CaseClock<'a, R>;

    ghost given = { λ listener. listener.given };

    ghost faults = { λ listener. listener.faults };

    ghost over = { λ listener. listener.waiting.items ≡ [] };

    fn accept(&mut self) -> Result<Option<CaseEnds<'a, R>>, Failed> {
        if self.fails == self.given {
            self.faults += 1;
            return Err(Failed);
        }
        let Some(connection) = self.waiting.pop_front() else {
            return Ok(None);
        };
        match self.ends(connection) {
            Ok(ends) => {
                self.given += 1;
                Ok(Some(ends))
            }
            Err(_) => {
                self.faults += 1;
                Err(Failed)
            }
        }
    }
}
