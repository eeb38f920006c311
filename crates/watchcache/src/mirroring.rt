//! A server of many connections, over one log that begins with what a peer has, and follows that.

ghost use Rattle.std.specs.Prelude.{◌≡◌, ◌<◌, ◌≤◌, ◌^◌, true};
ghost use Rattle.watchcache.specs.Words.{AreServed};
ghost use Rattle.edge_io.specs.Sent.{sent_through};
ghost use Rattle.watchcache.specs.Run.{RunsServer, use_of};

use crate::noted::NotedNet;
use crate::server::{Setup, bytes_of, tell_served};
use crate::statuses::{NET_FAULT, OUT_OF_MEMORY};
use bells::Rung;
use edge_io::{Clock, Listener, Net, Sink, Source};
use kube_meta::Memory;
use mirror_link::{Mirror, Opening};
use net_front::{Host, Redial, serve_mirror};
use rev_front::{Blank, blank};
use rev_log::Revision;
use shared_client::Cacher;
use std::marker::Brand;
use std::sync::Wait;
use up_api::LogFacts;

/// Serves the connections to a port, over caches of a log that begins with the pods which a peer has at a revision, and
/// tells how many there were. The peer at `peer` is followed over `source`, and by `redial` once that is over. Answers
/// the status.
pub fn serve_opening<R: Host, S: Source + Send, K: Sink, T: Clock + Send, N: Net, D: Redial + Send>(
    setup: Setup<R>,
    first: u64,
    opening: Opening,
    source: &mut S,
    peer: u16,
    sink: &mut K,
    clock: &mut T,
    net: &mut NotedNet<N>,
    redial: &mut D,
) -> u8
where
    <N::L as Listener>::T: Rung,
    requires range { AreServed setup.options }
    requires first { (1 ≤ first) × (first ≤ 2 ^ 62) }
    requires opened { first ≡ opening.base }
    requires few_faults { N.faults net.old.net < 2 ^ 62 }
    ensures runs { RunsServer setup.options (use_of N.faults N.served N.ended N.peer net.old.net net.new.net net.new.notes)
        (sent_through K.written K.settled K.faults sink.old sink.new) result }
    ensures dialled { net.new.notes.dialled ≡ net.old.notes.dialled }
{
    match blank(setup.alloc, first) {
        Ok(made) => serve_mirrored::<Brand, R, S, K, T, N, D>(
            setup, made, opening, source, peer, sink, clock, net, redial,
        ),
        Err(_) => {
            drop(opening);
            OUT_OF_MEMORY
        }
    }
}

// Over the log whose table was just made, and which begins with a peer's pods.
fn serve_mirrored<F, R: Host, S: Source + Send, K: Sink, T: Clock + Send, N: Net, D: Redial + Send>(
    setup: Setup<R>,
    made: Blank<Revision>,
    opening: Opening,
    source: &mut S,
    peer: u16,
    sink: &mut K,
    clock: &mut T,
    net: &mut NotedNet<N>,
    redial: &mut D,
) -> u8
where
    F: LogFacts + Send + Sync,
    <N::L as Listener>::T: Rung,
    requires name { made ≡ F.log }
    requires first { made.first ≡ opening.base }
    requires base { F.base ≡ opening.rows }
    requires mirror { F.mirror ≡ true }
    requires window { F.window ≡ setup.options.settings.window }
    requires range { AreServed setup.options }
    requires few_faults { N.faults net.old.net < 2 ^ 62 }
    ensures runs { RunsServer setup.options (use_of N.faults N.served N.ended N.peer net.old.net net.new.net net.new.notes)
        (sent_through K.written K.settled K.faults sink.old sink.new) result }
    ensures dialled { net.new.notes.dialled ≡ net.old.notes.dialled }
{
    match mirror_of::<F, R>(setup, made, opening) {
        Ok(mut mirror) => {
            let status = serve_followed(setup, &mut mirror, source, peer, sink, clock, net, redial);
            drop(mirror);
            status
        }
        Err(_) => OUT_OF_MEMORY,
    }
}

// The mirror that begins with a peer's pods.
fn mirror_of<F, R>(
    setup: Setup<R>,
    made: Blank<Revision>,
    opening: Opening,
) -> Result<Mirror<F, R>, Memory>
where
    F: LogFacts,
    R: Wait + Copy,
    requires name { made ≡ F.log }
    requires first { made.first ≡ opening.base }
    requires base { F.base ≡ opening.rows }
    requires mirror { F.mirror ≡ true }
    requires range { AreServed setup.options }
{
    let history = setup.options.settings.history;
    Mirror::new(setup.rt, setup.alloc, opening, made, history)
}

// Over caches of a mirror's log, which is followed beside that.
fn serve_followed<F, R: Host, S: Source + Send, K: Sink, T: Clock + Send, N: Net, D: Redial + Send>(
    setup: Setup<R>,
    mirror: &mut Mirror<F, R>,
    source: &mut S,
    peer: u16,
    sink: &mut K,
    clock: &mut T,
    net: &mut NotedNet<N>,
    redial: &mut D,
) -> u8
where
    F: LogFacts + Send + Sync,
    <N::L as Listener>::T: Rung,
    requires mirror { F.mirror ≡ true }
    requires window { F.window ≡ setup.options.settings.window }
    requires range { AreServed setup.options }
    requires few_faults { N.faults net.old.net < 2 ^ 62 }
    ensures runs { RunsServer setup.options (use_of N.faults N.served N.ended N.peer net.old.net net.new.net net.new.notes)
        (sent_through K.written K.settled K.faults sink.old sink.new) result }
    ensures dialled { net.new.notes.dialled ≡ net.old.notes.dialled }
{
    match mirror_cacher(setup, mirror) {
        Ok(cacher) => {
            let status = serve_cached(
                setup, &cacher, mirror, source, peer, sink, clock, net, redial,
            );
            cacher.close();
            status
        }
        Err(_) => OUT_OF_MEMORY,
    }
}

/// How many clients of a mirror's log there can be at once.
const CLIENTS: u64 = 1 << 61;

// The caches of a mirror's log, behind their locks.
fn mirror_cacher<F, R>(setup: Setup<R>, mirror: &mut Mirror<F, R>) -> Result<Cacher<F, R>, Memory>
where
    F: LogFacts,
    R: Wait + Copy,
    requires window { F.window ≡ setup.options.settings.window }
    requires range { AreServed setup.options }
{
    let Some(mut author) = mirror.author(CLIENTS) else {
        return Err(Memory);
    };
    let door = mirror.door()?;
    door.bound_bytes(bytes_of(setup.options.history_mib), &mut author);
    Cacher::new(setup.rt, setup.alloc, door, author, &setup.options.settings)
}

// Over these.
fn serve_cached<F, R: Host, S: Source + Send, K: Sink, T: Clock + Send, N: Net, D: Redial + Send>(
    setup: Setup<R>,
    cacher: &Cacher<F, R>,
    mirror: &mut Mirror<F, R>,
    source: &mut S,
    peer: u16,
    sink: &mut K,
    clock: &mut T,
    net: &mut NotedNet<N>,
    redial: &mut D,
) -> u8
where
    F: LogFacts + Send + Sync,
    <N::L as Listener>::T: Rung,
    requires mirror { F.mirror ≡ true }
    requires range { AreServed setup.options }
    requires few_faults { N.faults net.old.net < 2 ^ 62 }
    ensures runs { RunsServer setup.options (use_of N.faults N.served N.ended N.peer net.old.net net.new.net net.new.notes)
        (sent_through K.written K.settled K.faults sink.old sink.new) result }
    ensures dialled { net.new.notes.dialled ≡ net.old.notes.dialled }
{
    let options = setup.options;
    match net.listen(options.port) {
        Ok(listener) => {
            let served = serve_mirror(
                &setup.rt,
                setup.alloc,
                listener,
                cacher,
                mirror,
                source,
                redial,
                peer,
                clock,
                options.workers,
                options.open,
                options.connections,
                &options.settings,
            );
            tell_served(options, served, sink, net)
        }
        Err(_) => NET_FAULT,
    }
}
