//! The tables of the logs of a server of a cluster.

ghost use Rattle.std.specs.Prelude.{◌≡◌, IfErr, IfOk};
ghost use Rattle.net_front.specs.Starts.{IsOfStart};

use crate::caches::Each;
use crate::cluster::Unserved;
use cluster_link::ClusterNo;
use kube_meta::Resource;
use rev_front::{Blank, blank};
use rev_log::Revision;
use std::alloc::Global;

/// The first revision of each log.
const FIRST: u64 = 1;

/// The table of an empty log for each resource.
pub fn tables(
    alloc: Global,
) -> Result<Each<Blank<Revision>, Blank<Revision>, Blank<Revision>>, Unserved>
    ensures pods { IfOk result (λ made. made.pods.first ≡ 1) }
    ensures config_maps { IfOk result (λ made. made.config_maps.first ≡ 1) }
    ensures deployments { IfOk result (λ made. made.deployments.first ≡ 1) }
    ensures start { IfErr result (λ no. IsOfStart no.why) }
{
    let pods = table(alloc, Resource::Pods)?;
    let config_maps = table(alloc, Resource::ConfigMaps)?;
    let deployments = table(alloc, Resource::Deployments)?;
    Ok(Each {
        pods,
        config_maps,
        deployments,
    })
}

// That of a resource.
fn table(alloc: Global, resource: Resource) -> Result<Blank<Revision>, Unserved>
    ensures first { IfOk result (λ made. made.first ≡ 1) }
    ensures start { IfErr result (λ no. IsOfStart no.why) }
{
    match blank(alloc, FIRST) {
        Ok(made) => Ok(made),
        Err(_) => Err(no_memory(resource)),
    }
}

/// A resource isn't served for want of memory.
pub fn no_memory(resource: Resource) -> Unserved
    ensures { IsOfStart result.why }
{
    Unserved {
        resource,
        why: ClusterNo::Memory,
    }
}
