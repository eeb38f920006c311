//! What accepts connections.

ghost use Rattle.std.specs.Prelude.{◌≡◌, ℕ, ◌+◌, ◌<◌, ◌≤◌, ◌^◌, ◌↔◌, List, Option, Some, None, IfOk, IfSome, IfNone};
ghost use Rattle.edge_io.specs.Net.{handed_out, failures, faulty, faulty_ends};

use crate::clock::Clock;
use crate::fault::Failed;
use crate::sink::Sink;
use crate::source::Source;

/// What accepts connections.
pub trait Listener {
    /// What a connection's bytes come from.
    type S: Source + Send + Drop;
    /// What bytes to a connection go to.
    type K: Sink + Send + Drop;
    /// The clock that a connection is served by.
    type T: Clock + Send + Drop;

    // how many connections were handed out
    ghost given: { Self → ℕ };

    // how many faults were counted
    ghost faults: { Self → ℕ };

    // no more connections will come
    ghost over: { Self → Type 0 };

    /// Waits for the next connection. `None` means that no more will come.
    fn accept(&mut self) -> Result<Option<(Self::S, Self::K, Self::T)>, Failed>
        requires room { given self.old < 2 ^ 62 }
        requires few_faults { faults self.old < 2 ^ 62 }
        ensures given { given self.new ≡ given self.old + handed_out result }
        ensures faults { faults self.new ≡ faults self.old + failures result }
        ensures none { IfOk result (λ connection. IfNone connection (over self.new)) }
        ensures stays { over self.old → over self.new }
        ensures ended { over self.old → given self.new ≡ given self.old };
}

/// The net: where listeners come from, and connections to others.
pub trait Net {
    /// What listens at a port.
    type L: Listener + Send + Drop;

    // how many faults were counted
    ghost faults: { Self → ℕ };

    // how many connections the listener that was shut last had handed out
    ghost served: { Self → ℕ };

    // no more connections will come to the listener that was shut last
    ghost ended: { Self → Type 0 };

    // what is left in the source that the next dial gives, where that is told
    ghost peer: { Self → Option (List ℕ) };

    /// Listens at a port of this machine's loopback address.
    fn listen(&mut self, port: u16) -> Result<Self::L, Failed>
        requires few_faults { faults self.old < 2 ^ 62 }
        ensures fresh { IfOk result (λ listener. (Self.L.given listener ≡ 0) × (Self.L.faults listener ≡ 0)) }
        ensures faults { faults self.new ≡ faults self.old + failures result }
        ensures served { served self.new ≡ served self.old };

    /// Ends the use of a listener, and notes how many connections it handed out, and whether no more will come.
    fn shut(&mut self, listener: Self::L)
        requires few_faults { faults self.old < 2 ^ 62 }
        ensures served { served self.new ≡ Self.L.given listener }
        ensures ended { ended self.new ↔ Self.L.over listener }
        ensures faults { faults self.new ≡ faults self.old + faulty (Self.L.faults listener) };

    /// Connects to a port of this machine's loopback address.
    fn dial(
        &mut self,
        port: u16,
    ) -> Result<(<Self::L as Listener>::S, <Self::L as Listener>::K), Failed>
        requires few_faults { faults self.old < 2 ^ 62 }
        ensures fresh { IfOk result (λ ends. (Self.L.S.faults ends.0 ≡ 0) × (Self.L.K.faults ends.1 ≡ 0)) }
        ensures peer { IfOk result (λ ends. IfSome (peer self.old) (λ bytes. Self.L.S.left ends.0 ≡ Some bytes)) }
        ensures faults { faults self.new ≡ faults self.old + failures result }
        ensures served { served self.new ≡ served self.old };

    /// Ends the use of a connection that was dialled, and notes whether it had a fault.
    fn hang_up(&mut self, source: <Self::L as Listener>::S, sink: <Self::L as Listener>::K)
        requires few_faults { faults self.old < 2 ^ 62 }
        ensures faults { faults self.new ≡ faults self.old + faulty_ends (Self.L.S.faults source) (Self.L.K.faults sink) }
        ensures served { served self.new ≡ served self.old };
}
