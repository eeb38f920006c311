//! A server of many connections, over one log that begins empty.

ghost use Rattle.std.specs.Prelude.{◌≡◌, ◌*◌, ◌<◌, ◌≤◌, ◌^◌, ◌↔◌, [], IfOk, IsTrue, Some, false};
ghost use Rattle.watchcache.specs.Words.{AreServed};
ghost use Rattle.edge_io.specs.Sent.{sent_through};
ghost use Rattle.net_front.specs.Ends.{MayEnd, most_connections};
ghost use Rattle.watchcache.specs.Run.{IsServerOver, IsTold, RunsServer, TellsSessions, use_of};
ghost use Rattle.watchcache.specs.Texts.{sessions};

use crate::asked::ServeOptions;
use crate::noted::NotedNet;
use crate::statuses::{DONE, NET_FAULT, OUT_OF_MEMORY};
use crate::telling::tell;
use bells::Rung;
use edge_io::{Clock, Listener, Net, Sink};
use itoa::Buffer;
use kube_meta::Memory;
use net_front::{Host, Served, serve_open};
use rev_front::{Blank, blank};
use rev_log::Revision;
use shared_client::Cacher;
use std::alloc::Global;
use std::marker::Brand;
use std::sync::Wait;
use up_api::LogFacts;
use up_store::{Store, StoreDoor};

/// What a server has from the start: the runtime, memory, and how it is set.
#[derive(Clone, Copy)]
pub struct Setup<R> {
    pub rt: R,
    pub alloc: Global,
    pub options: ServeOptions,
}

/// Serves the connections to a port, over caches of one log that begins empty, and tells how many there were. Answers
/// the status.
pub fn serve_own<R: Host, K: Sink, T: Clock + Send, N: Net>(
    setup: Setup<R>,
    sink: &mut K,
    clock: &mut T,
    net: &mut NotedNet<N>,
) -> u8
where
    <N::L as Listener>::T: Rung,
    requires range { AreServed setup.options }
    requires few_faults { N.faults net.old.net < 2 ^ 62 }
    ensures { RunsServer setup.options (use_of N.faults N.served N.ended N.peer net.old.net net.new.net net.new.notes)
        (sent_through K.written K.settled K.faults sink.old sink.new) result }
{
    match blank(setup.alloc, setup.options.first) {
        Ok(made) => serve_new::<Brand, R, K, T, N>(setup, made, sink, clock, net),
        Err(_) => OUT_OF_MEMORY,
    }
}

// Over the log whose table was just made.
fn serve_new<F, R: Host, K: Sink, T: Clock + Send, N: Net>(
    setup: Setup<R>,
    made: Blank<Revision>,
    sink: &mut K,
    clock: &mut T,
    net: &mut NotedNet<N>,
) -> u8
where
    F: LogFacts + Send + Sync,
    <N::L as Listener>::T: Rung,
    requires name { made ≡ F.log }
    requires first { made.first ≡ setup.options.first }
    requires base { F.base ≡ [] }
    requires own { F.mirror ≡ false }
    requires window { F.window ≡ setup.options.settings.window }
    requires range { AreServed setup.options }
    requires few_faults { N.faults net.old.net < 2 ^ 62 }
    ensures { RunsServer setup.options (use_of N.faults N.served N.ended N.peer net.old.net net.new.net net.new.notes)
        (sent_through K.written K.settled K.faults sink.old sink.new) result }
{
    match cacher_of::<F, R>(setup, made) {
        Ok(cacher) => {
            let status = serve_cached(setup, &cacher, sink, clock, net);
            cacher.close();
            status
        }
        Err(_) => OUT_OF_MEMORY,
    }
}

// The caches of an empty log, behind their locks.
fn cacher_of<F, R>(setup: Setup<R>, made: Blank<Revision>) -> Result<Cacher<F, R>, Memory>
where
    F: LogFacts,
    R: Wait + Copy,
    requires name { made ≡ F.log }
    requires base { F.base ≡ [] }
    requires own { F.mirror ≡ false }
    requires window { F.window ≡ setup.options.settings.window }
    requires range { AreServed setup.options }
{
    let Setup { rt, alloc, options } = setup;
    let (store, mut author) = Store::new(alloc, made, options.settings.history)?;
    let door = StoreDoor::new(rt, store)?;
    door.bound_bytes(bytes_of(options.history_mib), &mut author);
    Cacher::new(rt, alloc, door, author, &options.settings)
}

// Over these.
fn serve_cached<F, R: Host, K: Sink, T: Clock + Send, N: Net>(
    setup: Setup<R>,
    cacher: &Cacher<F, R>,
    sink: &mut K,
    clock: &mut T,
    net: &mut NotedNet<N>,
) -> u8
where
    F: LogFacts + Send + Sync,
    <N::L as Listener>::T: Rung,
    requires range { AreServed setup.options }
    requires few_faults { N.faults net.old.net < 2 ^ 62 }
    ensures { RunsServer setup.options (use_of N.faults N.served N.ended N.peer net.old.net net.new.net net.new.notes)
        (sent_through K.written K.settled K.faults sink.old sink.new) result }
{
    let options = setup.options;
    match net.listen(options.port) {
        Ok(listener) => {
            let served = serve_open(
                &setup.rt,
                setup.alloc,
                listener,
                cacher,
                clock,
                options.workers,
                options.open,
                options.connections,
                &options.settings,
            );
            tell_served(options, served, sink, net)
        }
        Err(_) => NET_FAULT,
    }
}

/// So many MiB in bytes.
pub(crate) fn bytes_of(mib: u64) -> u64
    requires { (1 ≤ mib) × (mib ≤ 1048576) }
    ensures { result ≡ mib * 1048576 }
{
    mib * 1_048_576
}

/// Ends a server that served in the settings of its options, or had no memory to begin. Answers the status.
pub(crate) fn tell_served<K: Sink, N: Net>(
    options: ServeOptions,
    served: Result<Served<N::L>, Memory>,
    sink: &mut K,
    net: &mut NotedNet<N>,
) -> u8
    requires accepted { IfOk served (λ served. served.accepted ≡ N.L.given served.listener) }
    requires faulted { IfOk served (λ served. IsTrue served.faulted ↔ (0 < N.L.faults served.listener)) }
    requires ended { IfOk served
        (λ served. MayEnd (N.L.over served.listener) (N.L.faults served.listener) served.accepted (most_connections options.connections)) }
    requires settings { IfOk served (λ served. served.settings ≡ options.settings) }
    requires port { net.old.notes.listened ≡ Some options.port }
    requires few_faults { N.faults net.old.net < 2 ^ 62 }
    ensures runs { RunsServer options (use_of N.faults N.served N.ended N.peer net.old.net net.new.net net.new.notes)
        (sent_through K.written K.settled K.faults sink.old sink.new) result }
    ensures dialled { net.new.notes.dialled ≡ net.old.notes.dialled }
{
    match served {
        Ok(served) => finish(options, served, sink, net),
        Err(_) => OUT_OF_MEMORY,
    }
}

/// Shuts the listener, and tells how many sessions it gave. That the net failed goes before a failed write.
pub(crate) fn finish<K: Sink, N: Net>(
    options: ServeOptions,
    served: Served<N::L>,
    sink: &mut K,
    net: &mut NotedNet<N>,
) -> u8
    requires accepted { served.accepted ≡ N.L.given served.listener }
    requires faulted { IsTrue served.faulted ↔ (0 < N.L.faults served.listener) }
    requires ended { MayEnd (N.L.over served.listener) (N.L.faults served.listener) served.accepted (most_connections options.connections) }
    requires settings { served.settings ≡ options.settings }
    requires port { net.old.notes.listened ≡ Some options.port }
    requires few_faults { N.faults net.old.net < 2 ^ 62 }
    ensures over { IsServerOver options (use_of N.faults N.served N.ended N.peer net.old.net net.new.net net.new.notes)
        (sent_through K.written K.settled K.faults sink.old sink.new) result }
    ensures dialled { net.new.notes.dialled ≡ net.old.notes.dialled }
{
    shut(served, sink, net)
}

fn shut<K: Sink, N: Net>(served: Served<N::L>, sink: &mut K, net: &mut NotedNet<N>) -> u8
    requires accepted { served.accepted ≡ N.L.given served.listener }
    requires faulted { IsTrue served.faulted ↔ (0 < N.L.faults served.listener) }
    requires few_faults { N.faults net.old.net < 2 ^ 62 }
    ensures served { N.served net.new.net ≡ N.L.given served.listener }
    ensures ended { N.ended net.new.net ↔ N.L.over served.listener }
    ensures failed { 0 < N.L.faults served.listener → N.faults net.old.net < N.faults net.new.net }
    ensures settings { net.new.notes.settings ≡ Some served.settings }
    ensures listened { net.new.notes.listened ≡ net.old.notes.listened }
    ensures dialled { net.new.notes.dialled ≡ net.old.notes.dialled }
    ensures told { TellsSessions (use_of N.faults N.served N.ended N.peer net.old.net net.new.net net.new.notes)
        (sent_through K.written K.settled K.faults sink.old sink.new) result }
{
    let (accepted, faulted) = (served.accepted, served.faulted);
    net.shut(served);
    let told = write_sessions(accepted, sink);
    if faulted { NET_FAULT } else { told }
}

// Tells how many sessions a server served.
fn write_sessions<K: Sink>(accepted: u64, sink: &mut K) -> u8
    ensures { IsTold (sessions accepted) 0 (sent_through K.written K.settled K.faults sink.old sink.new) result }
{
    let mut digits = Buffer::new();
    let pieces: [&[u8]; 3] = [b"sessions ", digits.format(accepted).as_bytes(), b"\n"];
    tell(sink, &pieces, DONE)
}
