//! Connections to the peer of a mirror, one after the other.

use crate::cluster_advice::say_news;
use cluster_link::Finding;
use edge_io::{Failed, Net, ReadEnd, WriteEnd};
use kube_meta::Resource;
use net_front::{ClusterNews, News, Redial};
use std::alloc::Global;
use std::io::Eprint;
use std::net::{TcpListener, TcpStream};
use tcp_net::{Connection, LoopbackNet};

/// TCP on this machine's loopback address, dialled as often as it is wanted. Each time is that of a net of its own, so
/// the net of the program counts none of them. What becomes of following is said on standard error.
#[derive(Drop)]
pub struct LoopbackRedial<R> {
    rt: R,
    alloc: Global,
}

impl<R: Copy> LoopbackRedial<R> {
    /// That of the runtime `rt`.
    pub fn new(alloc: Global, rt: R) -> LoopbackRedial<R> {
        LoopbackRedial { rt, alloc }
    }
}

impl<R> Redial for LoopbackRedial<R>
where
    R: std::net::Net<Listener = TcpListener, Stream = TcpStream>
        + std::time::Clock
        + Eprint
        + Copy
        + Send,
{
    type S = ReadEnd<Connection>;

    type K = WriteEnd<Connection>;

    fn redial(&mut self, port: u16) -> Result<(ReadEnd<Connection>, WriteEnd<Connection>), Failed> {
        LoopbackNet::new(self.alloc, self.rt).dial(port)
    }

    // A line that can't be written is left out.
    fn say(&mut self, news: News) {
        let _ = match news {
            News::Follows { port, from } => eprintln!(self.rt;
                "watchcache: following http://127.0.0.1:{port} from revision {from}"
            ),
            News::IsOver { why } => eprintln!(self.rt;
                "watchcache: the peer's stream is over ({why}); trying again"
            ),
            News::BeginsAnew { why } => eprintln!(self.rt;
                "watchcache: the peer can't tell what comes next ({why}); beginning anew"
            ),
            News::FollowsAgain { from } => eprintln!(self.rt;
                "watchcache: following again from revision {from}"
            ),
            News::Ends { why } => eprintln!(self.rt; "watchcache: no longer following: {why}"),
        };
    }

    fn tell(&mut self, resource: Resource, news: ClusterNews, finding: Option<&Finding>) {
        say_news(self.rt, resource, news, finding);
    }

    fn again(&self, _resource: Resource) -> LoopbackRedial<R> {
        LoopbackRedial::new(self.alloc, self.rt)
    }
}
