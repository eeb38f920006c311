//! A net that notes what was asked of it.

ghost use Rattle.std.specs.Prelude.{◌≡◌, ◌+◌, ◌<◌, ◌^◌, ◌↔◌, ◌⊎◌, None, Some, IfOk, IfSome};
ghost use Rattle.edge_io.specs.Net.{failures, faulty, faulty_ends};

use edge_io::{Failed, Listener, Net};
use net_front::Served;
use up_api::Settings;

/// What was asked of a net: at which port it listened last, which port was dialled, and how the sessions of the
/// listener were set that was shut last.
#[derive(Clone, Copy, Debug, PartialEq, Eq)]
pub struct Notes {
    pub listened: Option<u16>,
    pub dialled: Option<u16>,
    pub settings: Option<Settings>,
}

/// A net, and what was asked of it. Whoever has it listens and dials by it alone, and dials no second port.
#[derive(Drop)]
pub struct NotedNet<N> {
    net: N,
    notes: Notes,
}

impl<N: Net> NotedNet<N> {
    /// A net of which nothing was asked yet.
    pub fn new(net: N) -> NotedNet<N>
        ensures net { result.net ≡ net }
        ensures listened { result.notes.listened ≡ None }
        ensures dialled { result.notes.dialled ≡ None }
        ensures settings { result.notes.settings ≡ None }
    {
        let notes = Notes {
            listened: None,
            dialled: None,
            settings: None,
        };
        NotedNet { net, notes }
    }

    /// Listens at a port.
    pub fn listen(&mut self, port: u16) -> Result<N::L, Failed>
        requires few_faults { N.faults self.old.net < 2 ^ 62 }
        ensures fresh { IfOk result (λ listener. (N.L.given listener ≡ 0) × (N.L.faults listener ≡ 0)) }
        ensures faults { N.faults self.new.net ≡ N.faults self.old.net + failures result }
        ensures served { N.served self.new.net ≡ N.served self.old.net }
        ensures listened { self.new.notes.listened ≡ Some port }
        ensures dialled { self.new.notes.dialled ≡ self.old.notes.dialled }
    {
        self.notes.listened = Some(port);
        self.net.listen(port)
    }

    /// Ends the use of a server's listener, and notes how many connections that handed out, whether no more will come,
    /// and how their sessions were set.
    pub fn shut(&mut self, served: Served<N::L>)
        requires few_faults { N.faults self.old.net < 2 ^ 62 }
        ensures served { N.served self.new.net ≡ N.L.given served.listener }
        ensures ended { N.ended self.new.net ↔ N.L.over served.listener }
        ensures faults { N.faults self.new.net ≡ N.faults self.old.net + faulty (N.L.faults served.listener) }
        ensures settings { self.new.notes.settings ≡ Some served.settings }
        ensures listened { self.new.notes.listened ≡ self.old.notes.listened }
        ensures dialled { self.new.notes.dialled ≡ self.old.notes.dialled }
    {
        self.notes.settings = Some(served.settings());
        self.net.shut(served.listener)
    }

    /// Connects to a port: that which was dialled before, if one was.
    pub fn dial(
        &mut self,
        port: u16,
    ) -> Result<(<N::L as Listener>::S, <N::L as Listener>::K), Failed>
        requires few_faults { N.faults self.old.net < 2 ^ 62 }
        requires same { (self.old.notes.dialled ≡ None) ⊎ (self.old.notes.dialled ≡ Some port) }
        ensures fresh { IfOk result (λ ends. (N.L.S.faults ends.0 ≡ 0) × (N.L.K.faults ends.1 ≡ 0)) }
        ensures peer { IfOk result (λ ends. IfSome (N.peer self.old.net) (λ bytes. N.L.S.left ends.0 ≡ Some bytes)) }
        ensures faults { N.faults self.new.net ≡ N.faults self.old.net + failures result }
        ensures served { N.served self.new.net ≡ N.served self.old.net }
        ensures dialled { self.new.notes.dialled ≡ Some port }
    {
        self.notes.dialled = Some(port);
        self.net.dial(port)
    }

    /// Ends the use of a connection that was dialled, and notes whether it had a fault.
    pub fn hang_up(&mut self, source: <N::L as Listener>::S, sink: <N::L as Listener>::K)
        requires few_faults { N.faults self.old.net < 2 ^ 62 }
        ensures faults { N.faults self.new.net ≡ N.faults self.old.net + faulty_ends (N.L.S.faults source) (N.L.K.faults sink) }
        ensures served { N.served self.new.net ≡ N.served self.old.net }
        ensures dialled { self.new.notes.dialled ≡ self.old.notes.dialled }
    {
        self.net.hang_up(source, sink)
    }
}
