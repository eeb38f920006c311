//! The server of a cluster's mirrors.

ghost use Rattle.std.specs.Prelude.{◌≡◌, ◌↔◌, ◌<◌, ◌≤◌, ◌^◌, IsTrue, IfErr, IfOk, IfSome};
ghost use Rattle.net_front.specs.Ends.{MayEnd, most_connections};
ghost use Rattle.net_front.specs.Starts.{IsOfStart};
ghost use Rattle.up_api.specs.Settings.{AreInRange};

use crate::cluster_following::uid_of;
use crate::intake::Served;
use crate::redial::Redial;
use crate::replicas::serve_lists;
use crate::shared::Host;
use bells::Rung;
use cluster_link::{ClusterList, ClusterNo};
use edge_io::{Clock, Listener};
use kube_meta::{Memory, Resource, Text};
use std::alloc::Global;
use up_api::Settings;

/// A cluster: the port of the proxy to it, and the uid by which it is told from others, where that was read.
#[derive(Debug, Drop)]
pub struct Cluster {
    pub(crate) port: u16,
    pub(crate) uid: Option<Text>,
}

impl Cluster {
    /// The cluster behind a port. It is asked for its uid, which may not be had now, or ever: then the first that is
    /// read counts.
    pub fn find<D: Redial>(alloc: Global, redial: &mut D, port: u16) -> Cluster {
        let uid = uid_of(alloc, redial, port).unwrap_or(None);
        Cluster { port, uid }
    }

    /// The same, for another follower.
    pub fn again(&self, alloc: Global) -> Result<Cluster, Memory> {
        let uid = match &self.uid {
            Some(uid) => Some(Text::new(alloc, uid.as_str())?),
            None => None,
        };
        Ok(Cluster {
            port: self.port,
            uid,
        })
    }
}

/// The list of each resource of a cluster that is to be mirrored.
#[derive(Debug, Drop)]
pub struct Lists {
    pub pods: Option<ClusterList>,
    pub config_maps: Option<ClusterList>,
    pub deployments: Option<ClusterList>,
}

/// Why a cluster isn't served: this resource has no mirror, or there was no memory.
#[derive(Clone, Copy, Debug, PartialEq, Eq)]
pub struct Unserved {
    pub resource: Resource,
    pub why: ClusterNo,
}

/// How a server serves.
#[derive(Clone, Copy, Debug, PartialEq, Eq)]
pub struct Manner {
    /// Threads that serve from the start on: 1 to 64.
    pub workers: usize,
    /// Connections that are served at once.
    pub open: u64,
    /// Connections that are accepted; 0 for as many as can be counted.
    pub connections: u64,
    /// To how many bytes the kept changes of each log are bounded.
    pub history_bytes: u64,
    /// How each session is set.
    pub settings: Settings,
}

/// Serves as [`serve_open`](crate::serve_open) does, but each resource over the caches of a log of its own. Those that
/// were listed begin with their list, and are followed beside that, each by itself over connections of its own: a
/// stream from the mirror's end, and where that is over the next. Where the cluster can't tell what comes next, the
/// mirror begins anew with a list, and forgets what was before. It is told there what becomes of that. The following of
/// a resource ends where a line can't be heard, or it is another cluster; the server goes on with what it has then.
/// While it doesn't follow each, it isn't ready, and once it has ended following one it isn't live.
///
/// Whoever follows waits for the cluster's bytes, so this may return only once the next line of each has come.
pub fn serve_cluster<L, W: Redial + Send + Drop, T: Clock + Send, R: Host>(
    rt: &R,
    alloc: Global,
    listener: L,
    lists: &Lists,
    cluster: &Cluster,
    redial: &W,
    clock: &mut T,
    manner: Manner,
) -> Result<Served<L>, Unserved>
where
    L: Listener + Send + Drop,
    L::T: Rung,
    requires workers { (1 ≤ manner.workers) × (manner.workers ≤ 64) }
    requires connections { manner.connections ≤ 2 ^ 62 }
    requires fresh { (L.given listener ≡ 0) × (L.faults listener ≡ 0) }
    requires settings { AreInRange manner.settings }
    ensures accepted { IfOk result (λ served. served.accepted ≡ L.given served.listener) }
    ensures within { IfOk result (λ served. served.accepted ≤ most_connections manner.connections) }
    ensures faulted { IfOk result (λ served. IsTrue served.faulted ↔ (0 < L.faults served.listener)) }
    ensures ended { IfOk result
        (λ served. MayEnd (L.over served.listener) (L.faults served.listener) served.accepted (most_connections manner.connections)) }
    ensures sessions { IfOk result (λ served. IfSome served.sessions (λ sessions. sessions ≡ served.accepted)) }
    ensures settings { IfOk result (λ served. served.settings ≡ manner.settings) }
    ensures start { IfErr result (λ no. IsOfStart no.why) }
{
    serve_lists(rt, alloc, listener, lists, cluster, redial, clock, manner)
}
