//! What a mirror's server needs to follow its peer, or its cluster, over one connection after the other.

use crate::cluster_verdicts::ClusterWhy;
use cluster_link::Finding;
use edge_io::{Failed, Sink, Source};
use kube_meta::Resource;

/// What has become of following a peer.
#[derive(Clone, Copy, Debug, PartialEq, Eq)]
pub enum News {
    /// The peer at this port is followed, from a revision on.
    Follows { port: u16, from: u64 },
    /// Its stream is over, for this cause. It is asked for again.
    IsOver { why: &'static str },
    /// It can't tell what comes next, for this cause. It is asked for all that it has.
    BeginsAnew { why: &'static str },
    /// It is followed again, from a revision on.
    FollowsAgain { from: u64 },
    /// It is no longer followed, for this cause.
    Ends { why: &'static str },
}

/// What has become of following a resource of a cluster.
#[derive(Clone, Copy, Debug, PartialEq, Eq)]
pub enum ClusterNews {
    /// The cluster behind this port is followed, from a revision on.
    Follows { port: u16, from: u64 },
    /// It isn't heard, for this cause. It is asked again.
    IsAway { why: ClusterWhy },
    /// It can't tell what comes next, for this cause. Its objects are listed anew.
    BeginsAnew { why: ClusterWhy },
    /// It is followed again, from a revision on.
    FollowsAgain { from: u64 },
    /// It is no longer followed, for this cause.
    Ends { why: ClusterWhy },
}

/// Connects to a peer again and again, and says what becomes of that. Nothing is counted: a peer that is away for a
/// while is no fault of the server.
pub trait Redial {
    /// What a connection's bytes come from.
    type S: Source + Send + Drop;
    /// What bytes to a connection go to.
    type K: Sink + Send + Drop;

    /// Connects to a port of this machine's loopback address.
    fn redial(&mut self, port: u16) -> Result<(Self::S, Self::K), Failed>;

    /// The same, for who follows this resource.
    fn again(&self, resource: Resource) -> Self;

    /// Tells an operator.
    fn say(&mut self, news: News);

    /// Tells an operator of a resource of a cluster, and of what was found in its last text that was refused.
    fn tell(&mut self, _resource: Resource, _news: ClusterNews, _finding: Option<&Finding>) {}
}
