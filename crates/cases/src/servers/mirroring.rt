//! The server of a mirror, whose peers are the other servers of the case.

ghost use Rattle.std.specs.Prelude.{◌≡◌, true};

use crate::Host;
use crate::rows::{Wording, words_of};
use crate::servers::board::Board;
use crate::servers::case::number_in;
use crate::servers::clusters::{serve_listed, show_news};
use crate::servers::ends::{CaseListener, CaseSink, CaseSource, StillClock, ends_of};
use crate::servers::serving::tell_served;
use cluster_link::Finding;
use edge_io::Failed;
use kube_meta::{Memory, Resource};
use mirror_link::{LinkNo, Mirror, Opening};
use net_front::{ClusterNews, News, Redial, serve_mirror};
use rev_front::{Blank, blank};
use rev_log::Revision;
use select_all::Selection;
use shared_client::Cacher;
use std::alloc::Global;
use std::marker::Brand;
use std::sync::Wait;
use up_api::{LogFacts, Settings};

/// Dials one connection after the other, and asks over each on the next wire. Where nobody is there, or all were
/// dialled, dialling fails. What it says is written to wire 0.
#[derive(Drop)]
pub struct CaseRedial<'a, R> {
    pub alloc: Global,
    pub board: &'a Board<R>,
    resource: Resource,
    at: usize,
}

impl<'a, R> CaseRedial<'a, R> {
    /// One of this resource's mirror, that has dialled nothing.
    pub fn new(alloc: Global, board: &'a Board<R>, resource: Resource) -> CaseRedial<'a, R> {
        CaseRedial {
            alloc,
            board,
            resource,
            at: 0,
        }
    }
}

impl<'a, R: Wait + Drop + std::time::Clock + Send + Sync> Redial for CaseRedial<'a, R> {
    type S = CaseSource<'a, R>;

    type K = CaseSink<'a, R>;

    fn redial(&mut self, _port: u16) -> Result<(CaseSource<'a, R>, CaseSink<'a, R>), Failed> {
        let Some((at, dialled)) = self.board.dial_from(self.at, self.resource) else {
            return Err(Failed);
        };
        self.at = at.saturating_add(1);
        if dialled == 0 {
            return Err(Failed);
        }
        let wire = self.board.ask_wire(at);
        match ends_of(self.alloc, self.board, wire, "", Some(dialled)) {
            Ok(ends) => Ok(ends),
            Err(_) => Err(Failed),
        }
    }

    // The first dial of each resource was for its list.
    fn again(&self, resource: Resource) -> CaseRedial<'a, R> {
        let mut redial = CaseRedial::new(self.alloc, self.board, resource);
        redial.at = match self.board.dial_from(0, resource) {
            Some((at, _)) if resource != self.resource => at.saturating_add(1),
            _ => self.at,
        };
        redial
    }

    fn say(&mut self, news: News) {
        let mut told = Wording::new(self.alloc);
        match news {
            News::Follows { from, .. } => told.show(&format_args!("follows from {from}\n")),
            News::IsOver { why } => told.show(&format_args!("is over: {why}\n")),
            News::BeginsAnew { why } => told.show(&format_args!("begins anew: {why}\n")),
            News::FollowsAgain { from } => told.show(&format_args!("follows again from {from}\n")),
            _ => {}
        }
        if let News::Ends { why } = news {
            told.show(&format_args!("ends: {why}\n"));
        }
        if let Ok(text) = told.whole() {
            self.board.write(0, text.as_bytes());
        }
    }

    // What the others' mirrors say comes at any time beside it.
    fn tell(&mut self, resource: Resource, news: ClusterNews, _finding: Option<&Finding>) {
        if resource != Resource::Pods {
            return;
        }
        let mut told = Wording::new(self.alloc);
        show_news(news, &mut told);
        if let Ok(text) = told.whole() {
            self.board.write(0, text.as_bytes());
        }
    }
}

/// Serves by a mirror, if there is one, over the connections that it dials, and answers how that ended.
pub fn serve_mirrored<R: Host>(
    alloc: Global,
    board: &Board<R>,
    mirror: Option<&str>,
) -> Result<String, Memory> {
    let mut told = Wording::new(alloc);
    if let Some(server) = mirror {
        match words_of(server, "cluster") {
            Some(_) => serve_listed(alloc, board, server, &mut told)?,
            None => serve_peer(alloc, board, server, &mut told)?,
        }
    }
    told.whole()
}

// Serves by a mirror, and tells how it ended, or why it has no opening.
fn serve_peer<R: Host>(
    alloc: Global,
    board: &Board<R>,
    server: &str,
    told: &mut Wording,
) -> Result<(), Memory> {
    let mut redial = CaseRedial::new(alloc, board, Resource::Pods);
    match redial.redial(0) {
        Ok((source, request)) => serve_dialled(server, source, request, &mut redial, told),
        Err(_) => {
            told.add("no connection\n");
            Ok(())
        }
    }
}

// The same over the ends of the first connection that it dialled.
fn serve_dialled<'a, R: Host>(
    server: &str,
    source: CaseSource<'a, R>,
    request: CaseSink<'a, R>,
    redial: &mut CaseRedial<'a, R>,
    told: &mut Wording,
) -> Result<(), Memory> {
    let (mut source, mut request) = (source, request);
    let opening = opening_of(redial.alloc, &mut source, &mut request);
    drop(request);
    let served = serve_if_open(server, opening, &mut source, redial, told);
    drop(source);
    served
}

fn serve_if_open<'a, R: Host>(
    server: &str,
    opening: Result<Opening, LinkNo>,
    source: &mut CaseSource<'a, R>,
    redial: &mut CaseRedial<'a, R>,
    told: &mut Wording,
) -> Result<(), Memory> {
    match opening {
        Ok(opening) => serve_opening(server, opening, source, redial, told),
        Err(no) => {
            told.show(&format_args!("{}\n", no.name()));
            Ok(())
        }
    }
}

// All pods of the peer.
fn opening_of<R: Host>(
    alloc: Global,
    source: &mut CaseSource<'_, R>,
    request: &mut CaseSink<'_, R>,
) -> Result<Opening, LinkNo> {
    let Ok(selection) = Selection::read(alloc, Resource::Pods, None, "", "") else {
        return Err(LinkNo::Memory);
    };
    Opening::read(alloc, selection, "", "", source, request)
}

// Serves over a new log that begins with this opening.
fn serve_opening<'a, R: Host>(
    server: &str,
    opening: Opening,
    source: &mut CaseSource<'a, R>,
    redial: &mut CaseRedial<'a, R>,
    told: &mut Wording,
) -> Result<(), Memory> {
    let server = String::from_str(redial.alloc, server)?;
    let made = blank(redial.alloc, opening.base())?;
    serve_log::<Brand, R>(made, server, opening, source, redial, told)
}

/// How many clients of the log there can be at once.
const CLIENTS: u64 = 1 << 32;

fn serve_log<'a, N: LogFacts + Send + Sync, R: Host>(
    made: Blank<Revision>,
    server: String,
    opening: Opening,
    source: &mut CaseSource<'a, R>,
    redial: &mut CaseRedial<'a, R>,
    told: &mut Wording,
) -> Result<(), Memory>
    requires name { made ≡ N.log }
    requires first { made.first ≡ opening.base }
    requires base { N.base ≡ opening.rows }
    requires mirror { N.mirror ≡ true }
    requires window { N.window ≡ 100 }
{
    let (alloc, rt) = (redial.alloc, redial.board.rt);
    let history = Settings::usual().history;
    let mut mirror = Mirror::<N, R>::new(rt, alloc, opening, made, history)?;
    let served = serve_by(server.as_str(), &mut mirror, source, redial, told);
    mirror.close();
    served
}

// Serves by a mirror, over new caches of its log.
fn serve_by<'a, N: LogFacts + Send + Sync, R: Host>(
    server: &str,
    mirror: &mut Mirror<N, R>,
    source: &mut CaseSource<'a, R>,
    redial: &mut CaseRedial<'a, R>,
    told: &mut Wording,
) -> Result<(), Memory>
    requires mirror { N.mirror ≡ true }
    requires window { N.window ≡ 100 }
{
    let (alloc, rt) = (redial.alloc, redial.board.rt);
    let Some(author) = mirror.author(CLIENTS) else {
        return Err(Memory);
    };
    let cacher = Cacher::new(rt, alloc, mirror.door()?, author, &Settings::usual())?;
    let served = serve_over(server, &cacher, mirror, source, redial, told);
    cacher.close();
    served
}

// Serves over caches of the mirror's log, and tells how it ended.
fn serve_over<'a, N: LogFacts + Send + Sync, R: Host>(
    server: &str,
    cacher: &Cacher<N, R>,
    mirror: &mut Mirror<N, R>,
    source: &mut CaseSource<'a, R>,
    redial: &mut CaseRedial<'a, R>,
    told: &mut Wording,
) -> Result<(), Memory>
    requires mirror { N.mirror ≡ true }
{
    let (alloc, board) = (redial.alloc, redial.board);
    let listener = CaseListener::new(alloc, board, server)?;
    let mut clock = StillClock;
    let workers = number_in(server, "workers", 4).clamp(1, 64) as usize;
    let open = number_in(server, "open", 0);
    let served = serve_mirror(
        &board.rt,
        alloc,
        listener,
        cacher,
        mirror,
        source,
        redial,
        0,
        &mut clock,
        workers,
        open,
        0,
        &Settings::usual(),
    );
    tell_served(served, told)
}
