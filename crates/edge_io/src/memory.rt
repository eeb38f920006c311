//! Ends in memory, which tell in their contracts what goes through them.

ghost use Rattle.std.specs.Prelude.{◌≡◌, ℕ, ◌+◌, ◌<◌, ◌≤◌, ◌↔◌, [], ◌∷◌, ◌++◌, min, length, take, drop, Some, IsTrue, IfOk, OnOk, OnErr, IsErr, Contains};
ghost use Rattle.edge_io.specs.Counts.{Rose, counted};
ghost use Rattle.edge_io.specs.Memory.{after_read, after_read_fault, after_write, after_write_fault, fresh_source, fresh_sink};

use crate::fault::Failed;
use crate::sink::Sink;
use crate::source::Source;
use std::marker::Model;

/// A source over bytes in memory. Contracts see the bytes still to come, and everything else that decides its answers.
#[derive(Debug, Drop)]
pub struct MemSource {
    bytes: Vec<u8>,
    at: usize,
    step: usize,
    fails: Vec<u64>,
    calls: u64,
    faults: u64,
}

impl Model for MemSource {
    ghost use Rattle.std.specs.Prelude.{◌<◌, ◌≤◌, drop, length};
    ghost use Rattle.edge_io.specs.Memory.{SourceState};

    ghost Value = { SourceState };

    ghost view = { λ s. record { left = drop s.at s.bytes.items; step = s.step; fails = s.fails.items; calls = s.calls; faults = s.faults } };

    ghost invariant = { λ s. (s.at ≤ length s.bytes.items) × (0 < s.step) };
}

impl MemSource {
    /// A source that gives `bytes`, at most `step` of them in a call, and fails the calls whose numbers `fails` lists.
    /// The first call has the number 0.
    pub fn new(bytes: Vec<u8>, step: usize, fails: Vec<u64>) -> MemSource
        requires { 0 < step }
        ensures { result ≡ record { left = bytes.items; step = step; fails = fails.items; calls = 0; faults = 0 } }
    {
        MemSource {
            bytes,
            at: 0,
            step,
            fails,
            calls: 0,
            faults: 0,
        }
    }

    pub(crate) fn reset_faults(&mut self)
        ensures { self.new ≡ fresh_source self.old }
    {
        self.faults = 0;
    }

    pub(crate) fn has_faults(&self) -> bool
        ensures { IsTrue result ↔ (0 < self.now.faults) }
    {
        self.faults > 0
    }
}

impl Source for MemSource {
    ghost left = { λ s. Some s.left };

    ghost faults = { λ s. s.faults };

    fn read(&mut self, buf: &mut [u8]) -> Result<usize, Failed>
        ensures listed { IsErr result ↔ Contains self.old.fails self.old.calls }
        ensures count { IfOk result (λ n. n ≡ min self.old.step (min (length buf.new) (length self.old.left))) }
        ensures bytes { IfOk result (λ n. take n buf.new ≡ take n self.old.left) }
        ensures given { IfOk result (λ n. self.new ≡ after_read self.old n) }
        ensures failed { OnErr result (self.new ≡ after_read_fault self.old) }
        ensures end { IfOk result (λ n. n ≡ 0 → 0 < length buf.new → self.new.left ≡ []) }
        ensures counted { OnErr result (Rose self.old.faults self.new.faults) }
    {
        let fails = self.fails.contains(&self.calls);
        self.calls = self.calls.saturating_add(1);
        if fails {
            self.faults = self.faults.saturating_add(1);
            return Err(Failed);
        }
        let n = self.step.min(buf.len()).min(self.bytes.len() - self.at);
        buf[..n].copy_from_slice(&self.bytes[self.at..self.at + n]);
        self.at += n;
        Ok(n)
    }
}

/// A sink that keeps what is written in memory.
#[derive(Debug, Drop)]
pub struct MemSink {
    bytes: Vec<u8>,
    step: usize,
    fails: Vec<u64>,
    calls: u64,
    faults: u64,
}

impl Model for MemSink {
    ghost use Rattle.std.specs.Prelude.{◌<◌};
    ghost use Rattle.edge_io.specs.Memory.{SinkState};

    ghost Value = { SinkState };

    ghost view = { λ s. record { written = s.bytes.items; step = s.step; fails = s.fails.items; calls = s.calls; faults = s.faults } };

    ghost invariant = { λ s. 0 < s.step };
}

impl MemSink {
    /// An empty sink that takes at most `step` bytes in a call, and fails the calls whose numbers `fails` lists. Writes
    /// and flushes are counted together, and the first has the number 0.
    pub fn new(step: usize, fails: Vec<u64>) -> MemSink
        requires { 0 < step }
        ensures { result ≡ record { written = []; step = step; fails = fails.items; calls = 0; faults = 0 } }
    {
        MemSink {
            bytes: Vec::new(*fails.allocator()),
            step,
            fails,
            calls: 0,
            faults: 0,
        }
    }

    /// The bytes that were written.
    pub fn bytes(&self) -> &[u8]
        ensures { result.now ≡ self.now.written }
    {
        self.bytes.as_slice()
    }

    pub(crate) fn reset_faults(&mut self)
        ensures { self.new ≡ fresh_sink self.old }
    {
        self.faults = 0;
    }

    pub(crate) fn has_faults(&self) -> bool
        ensures { IsTrue result ↔ (0 < self.now.faults) }
    {
        self.faults > 0
    }

    fn count_call(&mut self) -> Result<(), Failed>
        ensures listed { IsErr result ↔ Contains self.old.fails self.old.calls }
        ensures ok { OnOk result (self.new ≡ after_write self.old []) }
        ensures failed { OnErr result (self.new ≡ after_write_fault self.old) }
        ensures counted { OnErr result (Rose self.old.faults self.new.faults) }
    {
        let fails = self.fails.contains(&self.calls);
        self.calls = self.calls.saturating_add(1);
        if fails {
            self.faults = self.faults.saturating_add(1);
            return Err(Failed);
        }
        Ok(())
    }
}

impl Sink for MemSink {
    ghost written = { λ s. Some s.written };

    ghost faults = { λ s. s.faults };

    ghost settled = { λ _. Unit {0} };

    // Where the text can't grow for want of memory, that is counted as a fault too.
    fn write(&mut self, bytes: &[u8]) -> Result<usize, Failed>
        ensures listed { Contains self.old.fails self.old.calls → IsErr result }
        ensures count { IfOk result (λ n. n ≡ min self.old.step (length bytes.now)) }
        ensures taken { IfOk result (λ n. self.new ≡ after_write self.old (take n bytes.now)) }
        ensures failed { OnErr result (self.new ≡ after_write_fault self.old) }
        ensures some { IfOk result (λ n. 0 < length bytes.now → 0 < n) }
        ensures counted { OnErr result (Rose self.old.faults self.new.faults) }
    {
        self.count_call()?;
        let n = self.step.min(bytes.len());
        if self.bytes.extend_from_slice(&bytes[..n]).is_err() {
            self.faults = self.faults.saturating_add(1);
            return Err(Failed);
        }
        Ok(n)
    }

    fn flush(&mut self) -> Result<(), Failed>
        ensures listed { IsErr result ↔ Contains self.old.fails self.old.calls }
        ensures ok { OnOk result (self.new ≡ after_write self.old []) }
        ensures failed { OnErr result (self.new ≡ after_write_fault self.old) }
        ensures counted { OnErr result (Rose self.old.faults self.new.faults) }
    {
        self.count_call()
    }
}
