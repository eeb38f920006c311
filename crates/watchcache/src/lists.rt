//! The lists of a cluster's resources.

ghost use Rattle.std.specs.Prelude.{◌≡◌, ◌<◌, ◌^◌, IfErr, IfOk, IfSome, IsTrue, MatchResult, Some};
ghost use Rattle.cluster_link.specs.Counting.{CountsSource};
ghost use Rattle.edge_io.specs.Counts.{Rose};
ghost use Rattle.kube_meta.specs.Names.{IsNamespace};
ghost use Rattle.watchcache.specs.Lists.{IsOfResource, LacksFor, LacksOne, LacksOther, ListsAll, first_listed};

use crate::cluster_advice::{say_no_cluster, say_no_list};
use crate::noted::NotedNet;
use crate::server::Setup;
use client_api::Resources;
use cluster_link::{ClusterList, ClusterNo, Finding};
use edge_io::{Listener, Net, Sink, Source};
use kube_meta::{Memory, Resource, Text};
use net_front::{Host, Lists};
use select_all::Selection;
use std::alloc::Global;

/// Why a resource isn't listed.
#[derive(Clone, Copy, Debug, PartialEq, Eq)]
pub(crate) enum NoList {
    /// The net's count of faults rose.
    Net,
    /// For this reason, which the bytes of its list give.
    Refused { resource: Resource, why: ClusterNo },
    /// There was no memory.
    Memory,
}

/// The lists, of which there is the first.
pub(crate) fn lists_of(first: Resource, list: ClusterList) -> Lists {
    match first {
        Resource::Pods => Lists {
            pods: Some(list),
            config_maps: None,
            deployments: None,
        },
        Resource::ConfigMaps => Lists {
            pods: None,
            config_maps: Some(list),
            deployments: None,
        },
        Resource::Deployments => Lists {
            pods: None,
            config_maps: None,
            deployments: Some(list),
        },
    }
}

/// Lists the resources behind the first that are to be mirrored.
pub(crate) fn list_behind<R: Host, N: Net>(
    setup: Setup<R>,
    namespace: &Option<Text>,
    port: u16,
    lists: &mut Lists,
    net: &mut NotedNet<N>,
) -> Result<(), NoList>
    requires namespace { IfSome namespace.now IsNamespace }
    requires few_faults { N.faults net.old.net < 2 ^ 62 }
    requires dialled { net.old.notes.dialled ≡ Some port }
    ensures served { N.served net.new.net ≡ N.served net.old.net }
    ensures listed { MatchResult result (λ _. N.faults net.new.net ≡ N.faults net.old.net)
        (LacksOther setup.options.resources (N.faults net.old.net) (N.faults net.new.net)) }
    ensures dialled { net.new.notes.dialled ≡ Some port }
{
    let config_maps = &mut lists.config_maps;
    match list_one(
        setup,
        Resource::ConfigMaps,
        namespace,
        port,
        config_maps,
        net,
    ) {
        Ok(()) => {
            let deployments = &mut lists.deployments;
            list_one(
                setup,
                Resource::Deployments,
                namespace,
                port,
                deployments,
                net,
            )
        }
        Err(no) => Err(no),
    }
}

// Lists a resource over a connection of its own, if it is one behind the first.
fn list_one<R: Host, N: Net>(
    setup: Setup<R>,
    resource: Resource,
    namespace: &Option<Text>,
    port: u16,
    list: &mut Option<ClusterList>,
    net: &mut NotedNet<N>,
) -> Result<(), NoList>
    requires namespace { IfSome namespace.now IsNamespace }
    requires few_faults { N.faults net.old.net < 2 ^ 62 }
    requires dialled { net.old.notes.dialled ≡ Some port }
    ensures served { N.served net.new.net ≡ N.served net.old.net }
    ensures listed { MatchResult result (λ _. N.faults net.new.net ≡ N.faults net.old.net)
        (LacksOther setup.options.resources (N.faults net.old.net) (N.faults net.new.net)) }
    ensures dialled { net.new.notes.dialled ≡ Some port }
{
    if !is_behind(setup.options.resources, resource) {
        return Ok(());
    }
    match list_another(setup, resource, namespace, port, net) {
        Ok(listed) => {
            drop(list.replace(listed));
            Ok(())
        }
        Err(no) => Err(no),
    }
}

// Whether a resource is to be mirrored, but isn't listed first.
fn is_behind(these: Resources, resource: Resource) -> bool
    ensures { IsTrue result → ¬ (resource ≡ first_listed these) }
{
    these.has(resource) && resource != first_of(these)
}

// Lists it.
fn list_another<R: Host, N: Net>(
    setup: Setup<R>,
    resource: Resource,
    namespace: &Option<Text>,
    port: u16,
    net: &mut NotedNet<N>,
) -> Result<ClusterList, NoList>
    requires namespace { IfSome namespace.now IsNamespace }
    requires few_faults { N.faults net.old.net < 2 ^ 62 }
    requires dialled { net.old.notes.dialled ≡ Some port }
    ensures served { N.served net.new.net ≡ N.served net.old.net }
    ensures listed { MatchResult result (λ _. N.faults net.new.net ≡ N.faults net.old.net)
        (LacksOne resource (N.faults net.old.net) (N.faults net.new.net)) }
    ensures dialled { net.new.notes.dialled ≡ Some port }
{
    let Ok((mut source, mut request)) = net.dial(port) else {
        say_no_cluster(setup.rt, port);
        return Err(NoList::Net);
    };
    match list_told(setup, resource, namespace, &mut source, &mut request) {
        Ok(list) => Ok(list),
        Err(why) => Err(lack(resource, why, source, request, net)),
    }
}

/// Why one isn't listed, by its list's refusal.
pub(crate) fn lack<N: Net>(
    resource: Resource,
    why: ClusterNo,
    source: <N::L as Listener>::S,
    request: <N::L as Listener>::K,
    net: &mut NotedNet<N>,
) -> NoList
    requires read { why ≡ ClusterNo.ReadFault → 0 < N.L.S.faults source }
    requires written { why ≡ ClusterNo.WriteFault → 0 < N.L.K.faults request }
    requires few_faults { N.faults net.old.net < 2 ^ 62 }
    ensures served { N.served net.new.net ≡ N.served net.old.net }
    ensures lacks { LacksFor resource why (N.faults net.old.net) (N.faults net.new.net) result }
    ensures dialled { net.new.notes.dialled ≡ net.old.notes.dialled }
{
    match why {
        ClusterNo::ReadFault | ClusterNo::WriteFault => {
            net.hang_up(source, request);
            NoList::Net
        }
        ClusterNo::Memory => NoList::Memory,
        why => NoList::Refused { resource, why },
    }
}

/// All objects of a resource of the cluster, or those of a namespace. Says why there is no list.
pub(crate) fn list_told<R: Host, S: Source, K: Sink>(
    setup: Setup<R>,
    resource: Resource,
    namespace: &Option<Text>,
    source: &mut S,
    request: &mut K,
) -> Result<ClusterList, ClusterNo>
    requires { IfSome namespace.now IsNamespace }
    ensures lists { ListsAll resource namespace.now (S.left source.old) result }
    ensures reads { CountsSource result (S.faults source.old) (S.faults source.new) }
    ensures writes { IfErr result (λ no. no ≡ ClusterNo.WriteFault → Rose (K.faults request.old) (K.faults request.new)) }
{
    let mut finding = None;
    let listed = list_of(
        setup.alloc,
        resource,
        namespace,
        source,
        request,
        &mut finding,
    );
    if let Err(why) = &listed {
        say_no_list(setup.rt, resource, *why, &finding);
    }
    listed
}

fn list_of<S: Source, K: Sink>(
    alloc: Global,
    resource: Resource,
    namespace: &Option<Text>,
    source: &mut S,
    request: &mut K,
    finding: &mut Option<Finding>,
) -> Result<ClusterList, ClusterNo>
    requires { IfSome namespace.now IsNamespace }
    ensures lists { ListsAll resource namespace.now (S.left source.old) result }
    ensures reads { CountsSource result (S.faults source.old) (S.faults source.new) }
    ensures writes { IfErr result (λ no. no ≡ ClusterNo.WriteFault → Rose (K.faults request.old) (K.faults request.new)) }
{
    match all_of(alloc, resource, namespace) {
        Ok(selection) => ClusterList::read(alloc, selection, source, request, finding),
        Err(_) => Err(ClusterNo::Memory),
    }
}

fn all_of(alloc: Global, resource: Resource, namespace: &Option<Text>) -> Result<Selection, Memory>
    ensures { IfOk result (IsOfResource resource namespace.now) }
{
    let namespace = copy_of(alloc, namespace)?;
    match Selection::read(alloc, resource, namespace, "", "") {
        Ok(selection) => Ok(selection),
        Err(_) => Err(Memory),
    }
}

fn copy_of(alloc: Global, text: &Option<Text>) -> Result<Option<Text>, Memory>
    ensures { IfOk result (λ copy. copy ≡ text.now) }
{
    match text {
        Some(text) => Ok(Some(Text::new(alloc, text.as_str())?)),
        None => Ok(None),
    }
}

/// The first of these resources: that which is listed first.
pub(crate) fn first_of(these: Resources) -> Resource
    ensures { result ≡ first_listed these }
{
    if these.pods {
        return Resource::Pods;
    }
    if these.config_maps {
        return Resource::ConfigMaps;
    }
    Resource::Deployments
}
