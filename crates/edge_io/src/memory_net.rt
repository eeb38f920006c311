//! A net in memory: a list of connections that is handed out.

ghost use Rattle.std.specs.Prelude.{◌≡◌, ◌+◌, ◌<◌, ◌^◌, ◌↔◌, [], ◌∷◌, IfOk, IfSome, OnErr, OnOk, IsOk, IsNone, IsErr, length, Some, None};
ghost use Rattle.edge_io.specs.Memory.{Connection, next_peer, IsFirstDialled};
ghost use Rattle.edge_io.specs.Net.{handed_out, failures, faulty, faulty_ends};

use crate::fault::Failed;
use crate::memory::{MemSink, MemSource};
use crate::net::{Listener, Net};
use crate::step_clock::StepClock;
use std::collections::VecDeque;
use std::marker::Model;
use std::mem;

/// A connection in memory, with the clock that it is served by.
type MemConnection = (MemSource, MemSink, StepClock);

/// A listener that hands out connections in memory, the first one first, and is over when none is left.
#[derive(Drop)]
pub struct MemListener {
    waiting: VecDeque<MemConnection>,
    given: u64,
}

impl Model for MemListener {
    ghost use Rattle.edge_io.specs.Memory.{ListenerState};

    ghost Value = { ListenerState };

    ghost view = { λ listener. record { waiting = listener.waiting.items; given = listener.given } };
}

impl Listener for MemListener {
    type S = MemSource;

    type K = MemSink;

    type T = StepClock;

    ghost given = { λ listener. listener.given };

    ghost faults = { λ _. 0 };

    ghost over = { λ listener. listener.waiting ≡ [] };

    fn accept(&mut self) -> Result<Option<(MemSource, MemSink, StepClock)>, Failed>
        requires room { self.old.given < 2 ^ 62 }
        ensures never_fails { IsOk result }
        ensures given { self.new.given ≡ self.old.given + handed_out result }
        ensures none { IfOk result (λ connection. IsNone connection ↔ (self.old.waiting ≡ [])) }
        ensures first { IfOk result (λ connection. IfSome connection (λ ends. self.old.waiting ≡ ends ∷ self.new.waiting)) }
        ensures stays { self.old.waiting ≡ [] → self.new ≡ self.old }
    {
        match self.waiting.pop_front() {
            Some(connection) => {
                self.given += 1;
                Ok(Some(connection))
            }
            None => Ok(None),
        }
    }
}

/// A net whose connections are a list in memory. Its first `listen` gives a listener that hands out all that are left,
/// and each `dial` takes the first one that is left.
#[derive(Drop)]
pub struct MemNet {
    waiting: VecDeque<MemConnection>,
    faults: u64,
    served: u64,
    left: Option<VecDeque<MemConnection>>,
}

impl Model for MemNet {
    ghost use Rattle.edge_io.specs.Memory.{NetState};

    ghost Value = { NetState };

    ghost use Rattle.std.specs.Option.{option_map};

    ghost view = { λ net. record {
      waiting = net.waiting.items;
      faults = net.faults;
      served = net.served;
      left = option_map (λ left. left.items) net.left;
    } };
}

impl MemNet {
    /// A net of these connections.
    pub fn new(list: Vec<(MemSource, MemSink, StepClock)>) -> MemNet
        ensures { result ≡ record { waiting = list.items; faults = 0; served = 0; left = None } }
    {
        MemNet {
            waiting: VecDeque::from(list),
            faults: 0,
            served: 0,
            left: None,
        }
    }
}

impl Net for MemNet {
    type L = MemListener;

    ghost faults = { λ net. net.faults };

    ghost served = { λ net. net.served };

    ghost ended = { λ net. net.left ≡ Some [] };

    ghost peer = { λ net. next_peer net.waiting };

    fn listen(&mut self, _port: u16) -> Result<MemListener, Failed>
        ensures all { IfOk result (λ listener. listener ≡ record { waiting = self.old.waiting; given = 0 }) }
        ensures never_fails { IsOk result }
        ensures taken { self.new ≡ record self.old { waiting = [] } }
    {
        let alloc = *self.waiting.allocator();
        let waiting = mem::replace(&mut self.waiting, VecDeque::new(alloc));
        Ok(MemListener { waiting, given: 0 })
    }

    fn shut(&mut self, listener: MemListener)
        ensures { self.new ≡ record self.old { served = listener.given; left = Some listener.waiting } }
    {
        self.served = listener.given;
        self.left = Some(listener.waiting);
    }

    fn dial(&mut self, _port: u16) -> Result<(MemSource, MemSink), Failed>
        requires few_faults { self.old.faults < 2 ^ 62 }
        ensures none { IsErr result ↔ (self.old.waiting ≡ []) }
        ensures first { IfOk result (λ ends. IsFirstDialled self.old.waiting ends self.new.waiting) }
        ensures failed { OnErr result (self.new ≡ record self.old { faults = self.old.faults + 1 }) }
        ensures rest { OnOk result (self.new ≡ record self.old { waiting = self.new.waiting }) }
    {
        let Some((mut source, mut sink, _clock)) = self.waiting.pop_front() else {
            self.faults += 1;
            return Err(Failed);
        };
        source.reset_faults();
        sink.reset_faults();
        Ok((source, sink))
    }

    fn hang_up(&mut self, source: MemSource, sink: MemSink)
        requires few_faults { self.old.faults < 2 ^ 62 }
        ensures { self.new ≡ record self.old { faults = self.old.faults + faulty_ends source.faults sink.faults } }
    {
        if source.has_faults() || sink.has_faults() {
            self.faults += 1;
        }
    }
}
