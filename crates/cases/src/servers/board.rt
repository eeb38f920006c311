//! What connections were written, which others wait for and read.

ghost use Rattle.std.specs.Prelude.{◌≤◌, length, IfSome};

use crate::rows::{Wording, compare, number, split};
use kube_meta::Resource;
use std::alloc::{AllocError, Global};
use std::sync::{Mutex, Wait};
use std::thread;
use std::time::Duration;

/// How often is looked whether something is there. A millisecond lies between two looks.
const LOOKS: u64 = 10_000;

/// What goes one way over a connection.
#[derive(Drop)]
struct Wire {
    text: Vec<u8>,
    is_cut: bool,
}

impl Wire {
    // Copies what stands behind so many bytes, as far as there is room, and answers how much that is; `None` where
    // nothing stands there yet.
    fn read(&self, at: usize, buf: &mut [u8]) -> Option<usize>
        ensures { IfSome result (λ n. n ≤ length buf.new) }
    {
        if at >= self.text.len() && !self.is_cut {
            return None;
        }
        Some(copy_from(self.text.as_slice(), at, usize::MAX, buf))
    }
}

/// A connection that is dialled, where the mirror of this resource dials; 0 where nobody is there.
#[derive(Clone, Copy, Debug)]
pub struct Dial {
    pub resource: Resource,
    pub connection: usize,
}

/// What was written, by the numbers of the wires: on 0 the mirror says what becomes of its peer, the next ones are of
/// the connections, and on those behind them the mirror asks, over one dialled connection after the other.
#[derive(Drop)]
pub struct Board<R> {
    pub rt: R,
    wires: Vec<Mutex<Wire>>,
    connections: usize,
    /// The connections that the mirror dials.
    pub dials: Vec<Dial>,
}

impl<R: Wait + Drop> Board<R> {
    /// A board of the connections of a case, on which nothing was written.
    pub fn new(rt: R, alloc: Global, case: &str) -> Result<Board<R>, AllocError> {
        let connections = case.matches("\nconnection ").count();
        let dials = dials_of(alloc, case)?;
        let most = connections.saturating_add(dials.len());
        let wires = wires_up_to(alloc, most)?;
        Ok(Board {
            rt,
            wires,
            connections,
            dials,
        })
    }

    /// The wire on which the mirror asks over the connection that it dials behind so many others.
    pub fn ask_wire(&self, at: usize) -> usize {
        self.connections.saturating_add(at).saturating_add(1)
    }

    /// The first dial of a resource from this place on: its place, and the connection that is dialled, 0 where nobody
    /// is there.
    pub fn dial_from(&self, at: usize, resource: Resource) -> Option<(usize, usize)> {
        for place in at..self.dials.len() {
            let dial = self.dials[place];
            if dial.resource == resource {
                return Some((place, dial.connection));
            }
        }
        None
    }

    /// The wire on which the mirror asks over a connection, if it dials that.
    pub fn asked_on(&self, connection: usize) -> Option<usize> {
        for place in 0..self.dials.len() {
            if self.dials[place].connection == connection {
                return Some(self.ask_wire(place));
            }
        }
        None
    }

    /// Whether a wire was written this.
    pub fn has(&self, number: usize, part: &str) -> bool {
        match self.wires.get(number) {
            Some(wire) => contains(wire.lock(&self.rt).text.as_slice(), part.as_bytes()),
            None => false,
        }
    }

    /// Writes to a wire, and answers whether there was memory.
    pub fn write(&self, number: usize, bytes: &[u8]) -> bool {
        match self.wires.get(number) {
            Some(wire) => wire.lock(&self.rt).text.extend_from_slice(bytes).is_ok(),
            None => false,
        }
    }

    /// Cuts a wire: nothing more will be written to it.
    pub fn cut(&self, number: usize) {
        if let Some(wire) = self.wires.get(number) {
            wire.lock(&self.rt).is_cut = true;
        }
    }

    /// Tells what a wire was written, if something else is wanted.
    pub fn compare(&self, number: usize, wanted: &str, told: &mut Wording) {
        if let Some(wire) = self.wires.get(number) {
            compare(wanted.as_bytes(), wire.lock(&self.rt).text.as_slice(), told);
        }
    }

    // Reads what a wire was written behind so many bytes, once it is written or the wire is cut.
    fn look(&self, number: usize, at: usize, buf: &mut [u8]) -> Option<usize>
        ensures { IfSome result (λ n. n ≤ length buf.new) }
    {
        match self.wires.get(number) {
            Some(wire) => wire.lock(&self.rt).read(at, buf),
            None => Some(0),
        }
    }
}

impl<R: Wait + Drop + std::time::Clock> Board<R> {
    /// Waits for the signs behind each line's first word, and answers whether all came in time.
    pub fn all_come(&self, lines: &str, word: &str) -> bool {
        for line in lines.lines() {
            let (first, sign) = split(line);
            if first == word && !self.comes(sign) {
                return false;
            }
        }
        true
    }

    /// Waits for a sign: the number of a wire, and a text that it is to be written.
    pub fn comes(&self, sign: &str) -> bool {
        let (wire, text) = split(sign);
        for _ in 0..LOOKS {
            if self.has(number(wire) as usize, text) {
                return true;
            }
            thread::sleep(&self.rt, Duration::from_millis(1));
        }
        false
    }

    /// Waits until a wire has something behind so many bytes, or is cut, or the time is over; reads it, as far as there
    /// is room, and answers how much that is.
    pub fn read(&self, number: usize, at: usize, buf: &mut [u8]) -> usize
        ensures { result ≤ length buf.new }
    {
        for _ in 0..LOOKS {
            if let Some(n) = self.look(number, at, buf) {
                return n;
            }
            thread::sleep(&self.rt, Duration::from_millis(1));
        }
        0
    }
}

// The connections that the mirror of a case dials.
fn dials_of(alloc: Global, case: &str) -> Result<Vec<Dial>, AllocError> {
    let mut dials = Vec::new(alloc);
    for line in case.lines() {
        if let Some(words) = line.strip_prefix("dials ") {
            dials.push(dial_of(words))?;
        }
    }
    Ok(dials)
}

// Who dials which connection.
fn dial_of(words: &str) -> Dial {
    let (name, connection) = split(words);
    match Resource::of_plural(name.as_bytes()) {
        Some(resource) => Dial {
            resource,
            connection: number(connection) as usize,
        },
        None => Dial {
            resource: Resource::Pods,
            connection: number(name) as usize,
        },
    }
}

// The wires with the numbers from 0 up to this one.
fn wires_up_to(alloc: Global, most: usize) -> Result<Vec<Mutex<Wire>>, AllocError> {
    let mut wires = Vec::new(alloc);
    for _ in 0..most.saturating_add(1) {
        wires.push(Mutex::new(Wire {
            text: Vec::new(alloc),
            is_cut: false,
        }))?;
    }
    Ok(wires)
}

// Whether a text contains another one.
fn contains(text: &[u8], part: &[u8]) -> bool {
    for at in 0..text.len() {
        if text[at..].starts_with(part) {
            return true;
        }
    }
    false
}

/// Copies what stands from a place on, as far as there is room, at most so many bytes, and answers how much that is.
pub fn copy_from(text: &[u8], at: usize, most: usize, buf: &mut [u8]) -> usize
    ensures { result ≤ length buf.new }
{
    let left = text.get(at..).unwrap_or(&[]);
    let n = left.len().min(buf.len()).min(most);
    buf[..n].copy_from_slice(&left[..n]);
    n
}
