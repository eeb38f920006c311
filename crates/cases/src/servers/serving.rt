//! Serving the connections of a case.

ghost use Rattle.std.specs.Prelude.{◌≡◌, [], false};
ghost use Rattle.up_api.specs.Settings.{AreInRange};

use crate::Host;
use crate::rows::{Wording, compare, number};
use crate::servers::board::Board;
use crate::servers::case::{number_in, tell_bytes, tell_words};
use crate::servers::ends::{CaseListener, StillClock};
use crate::servers::mirroring::serve_mirrored;
use kube_meta::Memory;
use net_front::{Served, serve_open};
use rev_front::{Author, Blank, blank};
use rev_log::Revision;
use shared_client::Cacher;
use std::alloc::Global;
use std::marker::Brand;
use std::thread;
use up_api::{LogFacts, Settings};
use up_store::{Store, StoreDoor};

/// Serves the connections of a case by its servers, and tells what comes out otherwise.
pub fn serve_case<R: Host>(
    rt: R,
    alloc: Global,
    case: &str,
    told: &mut Wording,
) -> Result<(), Memory> {
    let board = Board::new(rt, alloc, case)?;
    let served = serve_on(alloc, &board, case, told);
    drop(board);
    served
}

// The same on a board on which nothing was written.
fn serve_on<R: Host>(
    alloc: Global,
    board: &Board<R>,
    case: &str,
    told: &mut Wording,
) -> Result<(), Memory> {
    let ends = serve_both(alloc, board, case)?;
    tell_outcome(alloc, board, case, ends.as_str(), told)
}

// Tells what came out otherwise: of what the mirror says, of what connections get back, and of how the servers end.
fn tell_outcome<R: Host>(
    alloc: Global,
    board: &Board<R>,
    case: &str,
    ends: &str,
    told: &mut Wording,
) -> Result<(), Memory> {
    let mut wanted = Wording::new(alloc);
    tell_words(case, "says", &mut wanted);
    board.compare(0, wanted.whole()?.as_str(), told);
    for connection in case.split("\nconnection ").skip(1) {
        tell_connection(alloc, board, connection, told)?;
    }
    let mut wanted = Wording::new(alloc);
    tell_words(case, "end", &mut wanted);
    compare(wanted.whole()?.as_str().as_bytes(), ends.as_bytes(), told);
    Ok(())
}

// Tells what a connection got back, if something else is wanted.
fn tell_connection<R: Host>(
    alloc: Global,
    board: &Board<R>,
    connection: &str,
    told: &mut Wording,
) -> Result<(), Memory> {
    let (name, lines) = connection.split_once('\n').unwrap_or((connection, ""));
    let mut wanted = Wording::new(alloc);
    tell_bytes(alloc, lines, "wants", &mut wanted)?;
    board.compare(number(name) as usize, wanted.whole()?.as_str(), told);
    Ok(())
}

// Serves by all servers, one after the other, and by the mirror's beside them, which is the last one. Answers how they
// ended.
fn serve_both<R: Host>(alloc: Global, board: &Board<R>, case: &str) -> Result<String, Memory> {
    let (own, mirror) = match case.split_once("\nserver mirror") {
        Some((own, mirror)) => (own, Some(mirror)),
        None => (case, None),
    };
    let serving = || serve_in_turn(alloc, board, own);
    let mirroring = || serve_mirrored(alloc, board, mirror);
    let (served, mirrored) = thread::join(&board.rt, serving, mirroring);
    joined(served, mirrored)
}

// One text behind the other.
fn joined(first: Result<String, Memory>, second: Result<String, Memory>) -> Result<String, Memory> {
    let mut text = first?;
    text.push_str(second?.as_str())?;
    Ok(text)
}

// Serves by these servers, one after the other, and answers how they ended.
fn serve_in_turn<R: Host>(alloc: Global, board: &Board<R>, lines: &str) -> Result<String, Memory> {
    let mut told = Wording::new(alloc);
    for servers in lines.split("\nserver anew") {
        serve_new(alloc, board, servers, &mut told)?;
    }
    told.whole()
}

// Serves by servers of a new log, one after the other.
fn serve_new<R: Host>(
    alloc: Global,
    board: &Board<R>,
    servers: &str,
    told: &mut Wording,
) -> Result<(), Memory> {
    let servers = String::from_str(alloc, servers)?;
    let made = blank(alloc, 1)?;
    serve_log::<Brand, R>(alloc, board, made, servers, told)
}

/// How many clients of the log there can be at once.
const CLIENTS: u64 = 1 << 32;

fn serve_log<N: LogFacts + Send + Sync, R: Host>(
    alloc: Global,
    board: &Board<R>,
    made: Blank<Revision>,
    servers: String,
    told: &mut Wording,
) -> Result<(), Memory>
    requires name { made ≡ N.log }
    requires base { N.base ≡ [] }
    requires own { N.mirror ≡ false }
    requires window { N.window ≡ 100 }
{
    let (store, mut author): (Store<N>, Author<N>) = Store::new(
        alloc,
        made,
        Settings::usual().history,
    )?;
    let door = StoreDoor::new(board.rt, store)?;
    let served = serve_again(alloc, board, &door, &mut author, servers.as_str(), told);
    drop(door);
    served
}

// Serves by servers of the log behind a door, one after the other.
fn serve_again<N: LogFacts + Send + Sync, R: Host>(
    alloc: Global,
    board: &Board<R>,
    door: &StoreDoor<N, R>,
    author: &mut Author<N>,
    servers: &str,
    told: &mut Wording,
) -> Result<(), Memory>
    requires window { N.window ≡ 100 }
{
    for server in servers.split("\nserver again") {
        serve_over(alloc, board, door, author, server, told)?;
    }
    Ok(())
}

// Serves by a server over caches of the log behind a door.
fn serve_over<N: LogFacts + Send + Sync, R: Host>(
    alloc: Global,
    board: &Board<R>,
    door: &StoreDoor<N, R>,
    author: &mut Author<N>,
    server: &str,
    told: &mut Wording,
) -> Result<(), Memory>
    requires window { N.window ≡ 100 }
{
    let settings = Settings::usual();
    let Some(clients) = author.split(CLIENTS) else {
        return Err(Memory);
    };
    let cacher = Cacher::new(board.rt, alloc, door.again()?, clients, &settings)?;
    let served = serve(alloc, board, server, &cacher, &settings, told);
    author.merge(cacher.close());
    served
}

// Serves the connections of a server, by workers alone or by helpers too, and tells how it ended.
fn serve<N: LogFacts + Send + Sync, R: Host>(
    alloc: Global,
    board: &Board<R>,
    server: &str,
    cacher: &Cacher<N, R>,
    settings: &Settings,
    told: &mut Wording,
) -> Result<(), Memory>
    requires settings { AreInRange settings.now }
{
    let mut clock = StillClock;
    let listener = CaseListener::new(alloc, board, server)?;
    let workers = number_in(server, "workers", 4).clamp(1, 64) as usize;
    let connections = number_in(server, "connections", 0).min(1_000);
    let open = number_in(server, "open", 0);
    let served = serve_open(
        &board.rt,
        alloc,
        listener,
        cacher,
        &mut clock,
        workers,
        open,
        connections,
        settings,
    );
    tell_served(served, told)
}

/// Tells how a server ended, where there was memory for it.
pub fn tell_served<R: Host>(
    served: Result<Served<CaseListener<'_, R>>, Memory>,
    told: &mut Wording,
) -> Result<(), Memory> {
    match served {
        Ok(served) => {
            tell_end(&served, told);
            drop(served);
            Ok(())
        }
        Err(no) => Err(no),
    }
}

/// Tells how a server ended: how many connections it accepted, whether accepting failed, how often, and how many
/// sessions were run.
pub fn tell_end<R: Host>(served: &Served<CaseListener<'_, R>>, told: &mut Wording) {
    let (accepted, faulted, faults) = (served.accepted, served.faulted, served.listener.faults);
    told.show(&format_args!("accepted {accepted} faulted {faulted} faults {faults}"));
    if let Some(sessions) = served.sessions {
        told.show(&format_args!(" sessions {sessions}"));
    }
    told.add("\n");
}
