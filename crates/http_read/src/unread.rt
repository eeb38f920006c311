//! The bytes of a source that were read and aren't used yet.

ghost use Rattle.std.specs.Prelude.{◌≡◌, ℕ, ◌+◌, ◌-◌, ◌<◌, ◌≤◌, ◌==◌, List, [], ◌++◌, length, take, drop, IfOk, IfErr, OnOk, OnErr};
ghost use Rattle.edge_io.specs.Told.{prepended, IsExhausted};
ghost use Rattle.http_read.specs.Heads.{most_head};
ghost use Rattle.http_read.specs.Steps.{FillsNot};

use edge_io::Source;
use kube_meta::Memory;
use std::alloc::Global;
use std::marker::Model;

/// How many bytes a buffer has room for when it is made. It doubles where it is full.
const FIRST: usize = 4096;

/// Why no bytes were read.
#[derive(Clone, Copy, Debug)]
pub enum FillNo {
    /// The source failed, and its count of faults rose.
    Fault,
    /// There was no memory for a larger buffer. The source wasn't asked.
    Memory,
}

// Makes a buffer twice as large.
fn grow(buffer: &mut Vec<u8>) -> Result<(), Memory>
    requires { length buffer.old.items < most_head }
    ensures grown { OnOk result (length buffer.old.items < length buffer.new.items) }
    ensures front { OnOk result (take (length buffer.old.items) buffer.new.items ≡ buffer.old.items) }
    ensures kept { OnErr result (buffer.new.items ≡ buffer.old.items) }
{
    let size = FIRST.max(2 * buffer.len());
    buffer.resize(size, 0)?;
    Ok(())
}

// Where the bytes of a buffer are once there is room behind them: where they touch its end they are moved to its front,
// and where they fill it, it grows.
fn make_room(buffer: &mut Vec<u8>, start: usize, end: usize) -> Result<(usize, usize), Memory>
    requires ordered { start ≤ end }
    requires within { end ≤ length buffer.old.items }
    requires few { end - start < most_head }
    ensures same { IfOk result (λ place. take (place.1 - place.0) (drop place.0 buffer.new.items) ≡ take (end - start) (drop start buffer.old.items)) }
    ensures length_kept { IfOk result (λ place. place.0 + (end - start) ≡ place.1) }
    ensures room { IfOk result (λ place. place.1 < length buffer.new.items) }
    ensures kept { OnErr result (buffer.new.items ≡ buffer.old.items) }
{
    if end < buffer.len() {
        return Ok((start, end));
    }
    if start > 0 {
        buffer.as_mut_slice().copy_within(start..end, 0);
        return Ok((0, end - start));
    }
    grow(buffer)?;
    Ok((0, end))
}

/// The bytes of a source that were read and aren't used yet, at most 16,384. Contracts see them. Their buffer is made
/// where bytes are to be read, and grows with them.
#[derive(Debug, Drop)]
pub struct Unread {
    buffer: Vec<u8>,
    start: usize,
    end: usize,
}

impl Model for Unread {
    ghost use Rattle.std.specs.Prelude.{◌≡◌, ◌-◌, ◌≤◌, ℕ, List, length, take, drop};

    ghost Value = { List ℕ };

    ghost view = { λ kept. take (kept.end - kept.start) (drop kept.start kept.buffer.items) };

    ghost invariant = { λ kept. (kept.start ≤ kept.end) × (kept.end ≤ length kept.buffer.items) };
}

impl Unread {
    /// No bytes yet, and no memory for them.
    pub fn new(alloc: Global) -> Unread
        ensures { result ≡ [] }
    {
        Unread {
            buffer: Vec::new(alloc),
            start: 0,
            end: 0,
        }
    }

    /// The bytes, lent.
    pub fn bytes(&self) -> &[u8]
        ensures { result.now ≡ self.now }
    {
        &self.buffer[self.start..self.end]
    }

    /// Whether there are none.
    pub fn is_empty(&self) -> bool
        ensures { result ≡ (length self.now == 0) }
    {
        self.bytes().is_empty()
    }

    /// The allocator of the buffer.
    pub fn allocator(&self) -> Global {
        *self.buffer.allocator()
    }

    /// Gives the memory back, where there are no bytes.
    pub fn rest(&mut self)
        ensures { self.new ≡ self.old }
    {
        if self.is_empty() {
            *self = Unread::new(self.allocator());
        }
    }

    // Lets all bytes go, and gives a large buffer back.
    fn clear(&mut self)
        ensures { self.new ≡ [] }
    {
        if self.buffer.len() > FIRST {
            *self = Unread::new(self.allocator());
            return;
        }
        self.start = 0;
        self.end = 0;
    }

    /// Lets the first `n` bytes go. Where none is left, the buffer begins anew.
    pub fn consume(&mut self, n: usize)
        requires { n ≤ length self.old }
        ensures { self.new ≡ drop n self.old }
    {
        self.start += n;
        if self.start == self.end {
            self.clear();
        }
    }

    /// Reads more bytes behind those that are there, of which there are fewer than 16,384, and answers how many: none
    /// where the source is over.
    ///
    /// # Errors
    ///
    /// [`FillNo`], and then there are the bytes that were there.
    pub fn fill<S: Source>(&mut self, source: &mut S) -> Result<usize, FillNo>
        requires { length self.old < most_head }
        ensures taken { IfOk result (λ n. (taken : List ℕ) × (length taken ≡ n) × (self.new ≡ self.old ++ taken)
            × (S.left source.old ≡ prepended taken (S.left source.new)) × (n ≡ 0 → IsExhausted (S.left source.new))) }
        ensures kept { OnErr result ((self.new ≡ self.old) × (S.left source.new ≡ S.left source.old)) }
        ensures quiet { OnOk result (S.faults source.new ≡ S.faults source.old) }
        ensures counted { IfErr result (λ why. FillsNot why (S.faults source.old) (S.faults source.new)) }
    {
        let (start, end) = match make_room(&mut self.buffer, self.start, self.end) {
            Ok(place) => place,
            Err(_) => return Err(FillNo::Memory),
        };
        self.start = start;
        self.end = end;
        match source.read(&mut self.buffer[end..]) {
            Ok(n) => {
                self.end += n;
                Ok(n)
            }
            Err(_) => Err(FillNo::Fault),
        }
    }
}
