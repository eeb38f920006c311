//! The server of a cluster's mirrors; the cluster is the other servers of the case.

ghost use Rattle.std.specs.Prelude.{IfOk};
ghost use Rattle.cluster_link.specs.Lists.{IsOfAll};

use crate::Host;
use crate::rows::{Wording, words_of};
use crate::servers::board::Board;
use crate::servers::case::number_in;
use crate::servers::ends::{CaseListener, StillClock};
use crate::servers::mirroring::CaseRedial;
use crate::servers::serving::tell_end;
use cluster_link::{ClusterList, ClusterNo};
use kube_meta::{Memory, Resource};
use net_front::{Cluster, ClusterNews, Lists, Manner, Redial, serve_cluster};
use select_all::Selection;
use std::alloc::Global;
use up_api::Settings;

/// Serves by the mirrors of a cluster, and tells how it ended, or why it has no list.
pub fn serve_listed<R: Host>(
    alloc: Global,
    board: &Board<R>,
    server: &str,
    told: &mut Wording,
) -> Result<(), Memory> {
    let mut redial = CaseRedial::new(alloc, board, Resource::Pods);
    let cluster = Cluster::find(alloc, &mut redial, 0);
    match lists_of(&mut redial, words_of(server, "cluster").unwrap_or("")) {
        Ok(lists) => {
            let served = serve_lists(server, &lists, &cluster, &redial, told);
            drop(lists);
            served
        }
        Err(no) => {
            told.show(&format_args!("{}\n", no.name()));
            Ok(())
        }
    }
}

// The lists of the pods, and of the other resources that are named.
fn lists_of<R: Host>(redial: &mut CaseRedial<'_, R>, named: &str) -> Result<Lists, ClusterNo> {
    let pods = list_of(redial, Resource::Pods)?;
    let (pods, others) = both(pods, others_of(redial, named))?;
    let (config_maps, deployments) = others;
    Ok(Lists {
        pods: Some(pods),
        config_maps,
        deployments,
    })
}

// The lists of the config maps and of the deployments, where they are named.
fn others_of<R: Host>(
    redial: &CaseRedial<'_, R>,
    named: &str,
) -> Result<(Option<ClusterList>, Option<ClusterList>), ClusterNo> {
    let config_maps = list_named(redial, named, Resource::ConfigMaps)?;
    both(
        config_maps,
        list_named(redial, named, Resource::Deployments),
    )
}

// One value beside another, where there is that.
fn both<A: Drop, B: Drop>(first: A, second: Result<B, ClusterNo>) -> Result<(A, B), ClusterNo> {
    match second {
        Ok(second) => Ok((first, second)),
        Err(no) => Err(no),
    }
}

fn list_named<R: Host>(
    redial: &CaseRedial<'_, R>,
    named: &str,
    resource: Resource,
) -> Result<Option<ClusterList>, ClusterNo> {
    if !named.contains(resource.plural()) {
        return Ok(None);
    }
    let mut redial = CaseRedial::new(redial.alloc, redial.board, resource);
    Ok(Some(list_of(&mut redial, resource)?))
}

// All objects of a resource of the cluster.
fn list_of<R: Host>(
    redial: &mut CaseRedial<'_, R>,
    resource: Resource,
) -> Result<ClusterList, ClusterNo> {
    let alloc = redial.alloc;
    let Ok((mut source, mut request)) = redial.redial(0) else {
        return Err(ClusterNo::CutShort);
    };
    let mut finding = None;
    match all_of(alloc, resource) {
        Ok(selection) => {
            ClusterList::read(alloc, selection, &mut source, &mut request, &mut finding)
        }
        Err(_) => Err(ClusterNo::Memory),
    }
}

fn all_of(alloc: Global, resource: Resource) -> Result<Selection, Memory>
    ensures { IfOk result IsOfAll }
{
    match Selection::read(alloc, resource, None, "", "") {
        Ok(selection) => Ok(selection),
        Err(_) => Err(Memory),
    }
}

// Serves over new logs that begin with these lists.
fn serve_lists<R: Host>(
    server: &str,
    lists: &Lists,
    cluster: &Cluster,
    redial: &CaseRedial<'_, R>,
    told: &mut Wording,
) -> Result<(), Memory> {
    let (alloc, board) = (redial.alloc, redial.board);
    let listener = CaseListener::new(alloc, board, server)?;
    let mut clock = StillClock;
    let manner = Manner {
        workers: number_in(server, "workers", 4).clamp(1, 64) as usize,
        open: number_in(server, "open", 0),
        connections: 0,
        history_bytes: 1 << 28,
        settings: Settings::usual(),
    };
    match serve_cluster(
        &board.rt, alloc, listener, lists, cluster, redial, &mut clock, manner,
    ) {
        Ok(served) => {
            tell_end(&served, told);
            Ok(())
        }
        Err(no) => {
            told.show(&format_args!("{}\n", no.why.name()));
            Ok(())
        }
    }
}

/// Tells what becomes of a cluster.
pub fn show_news(news: ClusterNews, told: &mut Wording) {
    match news {
        ClusterNews::Follows { from, .. } => told.show(&format_args!("follows from {from}\n")),
        ClusterNews::IsAway { why } => told.show(&format_args!("is away: {}\n", why.name())),
        ClusterNews::BeginsAnew { why } => {
            told.show(&format_args!("begins anew: {}\n", why.name()))
        }
        ClusterNews::FollowsAgain { from } => {
            told.show(&format_args!("follows again from {from}\n"))
        }
        ClusterNews::Ends { why } => told.show(&format_args!("ends: {}\n", why.name())),
    }
}
