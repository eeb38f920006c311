//! The bytes that a sink holds back until they are flushed.

ghost use Rattle.std.specs.Prelude.{◌≡◌, ◌+◌, ◌-◌, ◌<◌, ◌≤◌, ◌↔◌, [], ◌++◌, IsTrue, length, min, take};

use std::alloc::Global;
use std::marker::Model;

/// How many bytes a sink holds back.
const CAPACITY: usize = 65_536;

/// The bytes that a sink holds back, at most as many as it has room for. Contracts see them and that room. It has no
/// memory, and no room, until some is made.
#[derive(Drop)]
pub(crate) struct Held {
    buffer: Vec<u8>,
    room: usize,
}

impl Model for Held {
    ghost use Rattle.std.specs.Prelude.{◌≤◌, length, vec_capacity};
    ghost use Rattle.edge_io.specs.Held.{HeldBytes};

    ghost Value = { HeldBytes };

    ghost view = { λ held. record { bytes = held.buffer.items; room = held.room } };

    ghost invariant = { λ held. (length held.buffer.items ≤ held.room) × (held.room ≤ vec_capacity held.buffer) };
}

impl Held {
    /// Nothing yet, with no room.
    pub(crate) fn new(alloc: Global) -> Held
        ensures { result ≡ record { bytes = []; room = 0 } }
    {
        Held {
            buffer: Vec::new(alloc),
            room: 0,
        }
    }

    /// The bytes that are held back.
    pub(crate) fn bytes(&self) -> &[u8]
        ensures { result.now ≡ self.now.bytes }
    {
        self.buffer.as_slice()
    }

    /// Makes room for 64 KiB where there is none, unless `bytes` would fill it by themselves. There stays none where
    /// there is no memory.
    pub(crate) fn make_room(&mut self, bytes: &[u8])
        ensures { self.new.bytes ≡ self.old.bytes }
    {
        if self.room > 0 || bytes.len() >= CAPACITY {
            return;
        }
        if let Ok(buffer) = Vec::with_capacity(*self.buffer.allocator(), CAPACITY) {
            self.buffer = buffer;
            self.room = CAPACITY;
        }
    }

    /// Whether there is no more room.
    pub(crate) fn is_full(&self) -> bool
        ensures { IsTrue result ↔ (self.now.room ≤ length self.now.bytes) }
    {
        self.room <= self.buffer.len()
    }

    /// Whether nothing is held back and `bytes` would fill the room by themselves.
    pub(crate) fn is_filled_by(&self, bytes: &[u8]) -> bool
        ensures { IsTrue result ↔ ((self.now.bytes ≡ []) × (self.now.room ≤ length bytes.now)) }
    {
        self.buffer.is_empty() && self.room <= bytes.len()
    }

    /// Forgets the bytes.
    pub(crate) fn clear(&mut self)
        ensures { self.new ≡ record self.old { bytes = [] } }
    {
        self.buffer.clear();
    }

    /// Forgets the bytes, and gives the memory back.
    pub(crate) fn release(&mut self)
        ensures { self.new ≡ record { bytes = []; room = 0 } }
    {
        *self = Held::new(*self.buffer.allocator());
    }

    /// Takes as many bytes from the front of `bytes` as there is room for.
    pub(crate) fn take(&mut self, bytes: &[u8]) -> usize
        ensures count { result ≡ min (length bytes.now) (self.old.room - length self.old.bytes) }
        ensures taken { self.new ≡ record self.old { bytes = self.old.bytes ++ take result bytes.now } }
    {
        let n = bytes.len().min(self.room - self.buffer.len());
        // There is room for them, so this asks for no memory.
        let _ = self.buffer.extend_from_slice(&bytes[..n]);
        n
    }
}
