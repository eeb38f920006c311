//! A server's beginning: an empty log, or what a peer or a cluster has.

ghost use Rattle.std.specs.Prelude.{◌≡◌, ◌<◌, ◌^◌, IfErr, IfOk, IfSome, None, Some};
ghost use Rattle.kube_meta.specs.Names.{IsNamespace};
ghost use Rattle.watchcache.specs.Words.{AreServed};
ghost use Rattle.edge_io.specs.Counts.{Rose};
ghost use Rattle.edge_io.specs.Sent.{sent_through};
ghost use Rattle.mirror_link.specs.Asking.{CountsReads};
ghost use Rattle.watchcache.specs.Run.{IsOfAllPods, IsOfBytes, IsTold, Opens, Refuses, RunsAny, RunsMirror, use_of, use_with};
ghost use Rattle.watchcache.specs.Texts.{peer_line};

use crate::advice::{say_no_opening, say_no_peer};
use crate::cluster::serve_listed;
use crate::mirroring::serve_opening;
use crate::noted::NotedNet;
use crate::server::{Setup, serve_own};
use crate::statuses::{NET_FAULT, NO_OPENING, OUT_OF_MEMORY};
use crate::telling::tell;
use bells::Rung;
use edge_io::{Clock, Listener, Net, Sink, Source};
use kube_meta::{Memory, Resource, Text};
use mirror_link::{LinkNo, Opening};
use net_front::{Host, Redial};
use select_all::Selection;
use std::alloc::Global;

/// Serves the connections to a port, as a mirror where the options name a peer or a cluster, of which it mirrors all
/// pods or those of a namespace. Answers the status.
pub fn serve_any<R: Host, K: Sink, T: Clock + Send, N: Net, D: Redial + Send + Drop>(
    setup: Setup<R>,
    namespace: &Option<Text>,
    sink: &mut K,
    clock: &mut T,
    net: &mut NotedNet<N>,
    redial: &mut D,
) -> u8
where
    <N::L as Listener>::T: Rung,
    requires range { AreServed setup.options }
    requires namespace { IfSome namespace.now IsNamespace }
    requires quiet { net.old.notes.dialled ≡ None }
    requires few_faults { N.faults net.old.net < 2 ^ 62 }
    ensures { RunsAny setup.options.peer setup.options.cluster namespace.now setup.options
        (use_of N.faults N.served N.ended N.peer net.old.net net.new.net net.new.notes)
        (sent_through K.written K.settled K.faults sink.old sink.new) result }
{
    match setup.options.peer {
        Some(port) => serve_peer(setup, port, sink, clock, net, redial),
        None => serve_without_peer(setup, namespace, sink, clock, net, redial),
    }
}

// The same, where they name no peer.
fn serve_without_peer<R: Host, K: Sink, T: Clock + Send, N: Net, D: Redial + Send + Drop>(
    setup: Setup<R>,
    namespace: &Option<Text>,
    sink: &mut K,
    clock: &mut T,
    net: &mut NotedNet<N>,
    redial: &mut D,
) -> u8
where
    <N::L as Listener>::T: Rung,
    requires range { AreServed setup.options }
    requires namespace { IfSome namespace.now IsNamespace }
    requires quiet { net.old.notes.dialled ≡ None }
    requires few_faults { N.faults net.old.net < 2 ^ 62 }
    ensures { RunsAny None setup.options.cluster namespace.now setup.options
        (use_of N.faults N.served N.ended N.peer net.old.net net.new.net net.new.notes)
        (sent_through K.written K.settled K.faults sink.old sink.new) result }
{
    match setup.options.cluster {
        Some(port) => serve_listed(setup, port, namespace, sink, clock, net, redial),
        None => serve_own(setup, sink, clock, net),
    }
}

// Serves the connections to a port as a mirror of the server at another port, whose pods it reads first and follows
// then, over connections by `redial` once the first is over.
fn serve_peer<R: Host, K: Sink, T: Clock + Send, N: Net, D: Redial + Send + Drop>(
    setup: Setup<R>,
    port: u16,
    sink: &mut K,
    clock: &mut T,
    net: &mut NotedNet<N>,
    redial: &mut D,
) -> u8
where
    <N::L as Listener>::T: Rung,
    requires range { AreServed setup.options }
    requires few_faults { N.faults net.old.net < 2 ^ 62 }
    requires peer { setup.options.peer ≡ Some port }
    requires quiet { net.old.notes.dialled ≡ None }
    ensures { RunsMirror setup.options (use_of N.faults N.served N.ended N.peer net.old.net net.new.net net.new.notes)
        (sent_through K.written K.settled K.faults sink.old sink.new) result }
{
    match net.dial(port) {
        Ok((source, request)) => {
            open_over(setup, port, source, request, sink, clock, net, redial)
        }
        Err(_) => {
            say_no_peer(setup.rt, port);
            NET_FAULT
        }
    }
}

// The same, over the first connection to the peer.
fn open_over<R: Host, K: Sink, T: Clock + Send, N: Net, D: Redial + Send + Drop>(
    setup: Setup<R>,
    port: u16,
    source: <N::L as Listener>::S,
    request: <N::L as Listener>::K,
    sink: &mut K,
    clock: &mut T,
    net: &mut NotedNet<N>,
    redial: &mut D,
) -> u8
where
    <N::L as Listener>::T: Rung,
    requires range { AreServed setup.options }
    requires fresh { (N.L.S.faults source ≡ 0) × (N.L.K.faults request ≡ 0) }
    requires few_faults { N.faults net.old.net < 2 ^ 62 }
    requires dialled { net.old.notes.dialled ≡ setup.options.peer }
    ensures { RunsMirror setup.options (use_with N.faults N.served N.ended (N.L.S.left source) net.old.net net.new.net net.new.notes)
        (sent_through K.written K.settled K.faults sink.old sink.new) result }
{
    let (mut source, mut request) = (source, request);
    match opening_of(setup.alloc, &mut source, &mut request) {
        Ok(opening) => {
            let first = opening.base();
            serve_opening(
                setup,
                first,
                opening,
                &mut source,
                port,
                sink,
                clock,
                net,
                redial,
            )
        }
        Err(why) => {
            say_no_opening(setup.rt, port, why);
            refuse(why, source, request, sink, net)
        }
    }
}

// All pods of the peer.
fn opening_of<S: Source, K: Sink>(
    alloc: Global,
    source: &mut S,
    request: &mut K,
) -> Result<Opening, LinkNo>
    ensures opens { Opens (S.left source.old) result }
    ensures reads { CountsReads result (S.faults source.old) (S.faults source.new) }
    ensures writes { IfErr result (λ no. no ≡ LinkNo.WriteFault → Rose (K.faults request.old) (K.faults request.new)) }
{
    let Ok(selection) = all_pods(alloc) else {
        return Err(LinkNo::Memory);
    };
    Opening::read(alloc, selection, "", "", source, request)
}

fn all_pods(alloc: Global) -> Result<Selection, Memory>
    ensures { IfOk result IsOfAllPods }
{
    match Selection::read(alloc, Resource::Pods, None, "", "") {
        Ok(selection) => Ok(selection),
        Err(_) => Err(Memory),
    }
}

// Says why there is no opening, or lets the connection go that failed.
fn refuse<K: Sink, N: Net>(
    no: LinkNo,
    source: <N::L as Listener>::S,
    request: <N::L as Listener>::K,
    sink: &mut K,
    net: &mut NotedNet<N>,
) -> u8
    requires read { no ≡ LinkNo.ReadFault → 0 < N.L.S.faults source }
    requires written { no ≡ LinkNo.WriteFault → 0 < N.L.K.faults request }
    requires few_faults { N.faults net.old.net < 2 ^ 62 }
    ensures refuses { Refuses IsOfBytes peer_line no (use_of N.faults N.served N.ended N.peer net.old.net net.new.net net.new.notes)
        (sent_through K.written K.settled K.faults sink.old sink.new) result }
    ensures dialled { net.new.notes.dialled ≡ net.old.notes.dialled }
{
    match no {
        LinkNo::ReadFault | LinkNo::WriteFault => {
            net.hang_up(source, request);
            NET_FAULT
        }
        LinkNo::Memory => OUT_OF_MEMORY,
        no => write_refusal(no, sink),
    }
}

fn write_refusal<K: Sink>(no: LinkNo, sink: &mut K) -> u8
    ensures { IsTold (peer_line no) 13 (sent_through K.written K.settled K.faults sink.old sink.new) result }
{
    let pieces: [&[u8]; 3] = [b"peer: ", no.name().as_bytes(), b"\n"];
    tell(sink, &pieces, NO_OPENING)
}
