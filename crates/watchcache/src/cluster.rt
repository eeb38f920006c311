//! A server's beginning with lists of a cluster's resources.

ghost use Rattle.std.specs.Prelude.{◌≡◌, ◌<◌, ◌^◌, IfSome, None, Some};
ghost use Rattle.edge_io.specs.Sent.{sent_through};
ghost use Rattle.kube_meta.specs.Names.{IsNamespace};
ghost use Rattle.net_front.specs.Starts.{IsOfStart};
ghost use Rattle.watchcache.specs.Lists.{IsOfReply};
ghost use Rattle.watchcache.specs.Run.{IsTold, Refuses, RunsCluster, RunsListed, TellsStart, use_of, use_with};
ghost use Rattle.watchcache.specs.Texts.{cluster_line};
ghost use Rattle.watchcache.specs.Words.{AreServed};

use crate::cluster_advice::{say_no_cluster, say_no_list};
use crate::lists::{NoList, first_of, lack, list_behind, list_told, lists_of};
use crate::noted::NotedNet;
use crate::server::{Setup, bytes_of, finish};
use crate::statuses::{NET_FAULT, NO_OPENING, OUT_OF_MEMORY};
use crate::telling::tell;
use bells::Rung;
use cluster_link::ClusterNo;
use edge_io::{Clock, Listener, Net, Sink};
use kube_meta::{Resource, Text};
use net_front::{Cluster, Host, Lists, Manner, Redial, Unserved, serve_cluster};

/// Serves the connections to a port as a mirror of the cluster behind another port, of which it lists each resource
/// first that it mirrors, in one namespace or in all, and follows then by `redial`. By that it is asked for its uid
/// before.
pub fn serve_listed<R: Host, K: Sink, T: Clock + Send, N: Net, D: Redial + Send + Drop>(
    setup: Setup<R>,
    port: u16,
    namespace: &Option<Text>,
    sink: &mut K,
    clock: &mut T,
    net: &mut NotedNet<N>,
    redial: &mut D,
) -> u8
where
    <N::L as Listener>::T: Rung,
    requires range { AreServed setup.options }
    requires namespace { IfSome namespace.now IsNamespace }
    requires few_faults { N.faults net.old.net < 2 ^ 62 }
    requires cluster { setup.options.cluster ≡ Some port }
    requires quiet { net.old.notes.dialled ≡ None }
    ensures { RunsCluster namespace.now setup.options (use_of N.faults N.served N.ended N.peer net.old.net net.new.net net.new.notes)
        (sent_through K.written K.settled K.faults sink.old sink.new) result }
{
    let cluster = Cluster::find(setup.alloc, redial, port);
    match net.dial(port) {
        Ok((source, request)) => {
            let status = list_over(
                setup, &cluster, namespace, port, source, request, sink, clock, net, redial,
            );
            drop(cluster);
            status
        }
        Err(_) => {
            drop(cluster);
            say_no_cluster(setup.rt, port);
            NET_FAULT
        }
    }
}

// The same, over the first connection to the cluster.
fn list_over<R: Host, K: Sink, T: Clock + Send, N: Net, D: Redial + Send + Drop>(
    setup: Setup<R>,
    cluster: &Cluster,
    namespace: &Option<Text>,
    port: u16,
    source: <N::L as Listener>::S,
    request: <N::L as Listener>::K,
    sink: &mut K,
    clock: &mut T,
    net: &mut NotedNet<N>,
    redial: &mut D,
) -> u8
where
    <N::L as Listener>::T: Rung,
    requires range { AreServed setup.options }
    requires namespace { IfSome namespace.now IsNamespace }
    requires fresh { (N.L.S.faults source ≡ 0) × (N.L.K.faults request ≡ 0) }
    requires few_faults { N.faults net.old.net < 2 ^ 62 }
    requires cluster { setup.options.cluster ≡ Some port }
    requires dialled { net.old.notes.dialled ≡ Some port }
    ensures { RunsCluster namespace.now setup.options (use_with N.faults N.served N.ended (N.L.S.left source) net.old.net net.new.net net.new.notes)
        (sent_through K.written K.settled K.faults sink.old sink.new) result }
{
    let resource = first_of(setup.options.resources);
    let (mut source, mut request) = (source, request);
    match list_told(setup, resource, namespace, &mut source, &mut request) {
        Ok(list) => {
            // What a list is, the proof learns where it reads its revision.
            list.at();
            let mut lists = lists_of(resource, list);
            // What follows comes over other connections.
            drop(source);
            drop(request);
            let status = serve_behind(
                setup, cluster, namespace, port, &mut lists, sink, clock, net, redial,
            );
            drop(lists);
            status
        }
        Err(why) => refuse(resource, why, source, request, sink, net),
    }
}

// The same, behind the first list.
fn serve_behind<R: Host, K: Sink, T: Clock + Send, N: Net, D: Redial + Send + Drop>(
    setup: Setup<R>,
    cluster: &Cluster,
    namespace: &Option<Text>,
    port: u16,
    lists: &mut Lists,
    sink: &mut K,
    clock: &mut T,
    net: &mut NotedNet<N>,
    redial: &mut D,
) -> u8
where
    <N::L as Listener>::T: Rung,
    requires range { AreServed setup.options }
    requires namespace { IfSome namespace.now IsNamespace }
    requires few_faults { N.faults net.old.net < 2 ^ 62 }
    requires dialled { net.old.notes.dialled ≡ Some port }
    ensures runs { RunsListed setup.options (use_of N.faults N.served N.ended N.peer net.old.net net.new.net net.new.notes)
        (sent_through K.written K.settled K.faults sink.old sink.new) result }
    ensures dialled { net.new.notes.dialled ≡ net.old.notes.dialled }
{
    match list_behind(setup, namespace, port, lists, net) {
        Ok(()) => serve_lists(setup, lists, cluster, sink, clock, net, redial),
        Err(NoList::Net) => NET_FAULT,
        Err(NoList::Refused { resource, why }) => write_refusal(resource, why, sink),
        Err(NoList::Memory) => OUT_OF_MEMORY,
    }
}

// The same, with all lists.
fn serve_lists<R: Host, K: Sink, T: Clock + Send, N: Net, D: Redial + Send + Drop>(
    setup: Setup<R>,
    lists: &Lists,
    cluster: &Cluster,
    sink: &mut K,
    clock: &mut T,
    net: &mut NotedNet<N>,
    redial: &mut D,
) -> u8
where
    <N::L as Listener>::T: Rung,
    requires range { AreServed setup.options }
    requires few_faults { N.faults net.old.net < 2 ^ 62 }
    ensures runs { RunsListed setup.options (use_of N.faults N.served N.ended N.peer net.old.net net.new.net net.new.notes)
        (sent_through K.written K.settled K.faults sink.old sink.new) result }
    ensures dialled { net.new.notes.dialled ≡ net.old.notes.dialled }
{
    let Ok(listener) = net.listen(setup.options.port) else {
        return NET_FAULT;
    };
    let Setup { rt, alloc, options } = setup;
    let manner = Manner {
        workers: options.workers,
        open: options.open,
        connections: options.connections,
        history_bytes: bytes_of(options.history_mib),
        settings: options.settings,
    };
    match serve_cluster(&rt, alloc, listener, lists, cluster, redial, clock, manner) {
        Ok(served) => finish(options, served, sink, net),
        Err(no) => tell_start(rt, no, sink),
    }
}

// Says why a resource has no mirror, though it has a list.
fn tell_start<R: Host, K: Sink>(rt: R, no: Unserved, sink: &mut K) -> u8
    requires { IsOfStart no.why }
    ensures { TellsStart no.resource no.why (sent_through K.written K.settled K.faults sink.old sink.new) result }
{
    match no.why {
        ClusterNo::Memory => OUT_OF_MEMORY,
        why => {
            say_no_list(rt, no.resource, why, &None);
            write_refusal(no.resource, why, sink)
        }
    }
}

// Says why there is no list, or lets the connection go that failed.
fn refuse<K: Sink, N: Net>(
    resource: Resource,
    no: ClusterNo,
    source: <N::L as Listener>::S,
    request: <N::L as Listener>::K,
    sink: &mut K,
    net: &mut NotedNet<N>,
) -> u8
    requires read { no ≡ ClusterNo.ReadFault → 0 < N.L.S.faults source }
    requires written { no ≡ ClusterNo.WriteFault → 0 < N.L.K.faults request }
    requires few_faults { N.faults net.old.net < 2 ^ 62 }
    ensures refuses { Refuses IsOfReply (cluster_line resource) no (use_of N.faults N.served N.ended N.peer net.old.net net.new.net net.new.notes)
        (sent_through K.written K.settled K.faults sink.old sink.new) result }
    ensures dialled { net.new.notes.dialled ≡ net.old.notes.dialled }
{
    match lack(resource, no, source, request, net) {
        NoList::Net => NET_FAULT,
        NoList::Memory => OUT_OF_MEMORY,
        NoList::Refused { .. } => write_refusal(resource, no, sink),
    }
}

// Says why a resource has no beginning.
fn write_refusal<K: Sink>(resource: Resource, no: ClusterNo, sink: &mut K) -> u8
    ensures { IsTold (cluster_line resource no) 13 (sent_through K.written K.settled K.faults sink.old sink.new) result }
{
    let name = no.name().as_bytes();
    let pieces: [&[u8]; 5] = [
        b"cluster: ",
        name,
        b" ",
        resource.plural().as_bytes(),
        b"\n",
    ];
    tell(sink, &pieces, NO_OPENING)
}
