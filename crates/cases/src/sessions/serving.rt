//! One session, served from memory to memory.

ghost use Rattle.std.specs.Prelude.{◌≡◌, ◌≤◌, ◌^◌, [], false, None};
ghost use Rattle.up_api.specs.Settings.{AreInRange};

use crate::sessions::clock::CaseClock;
use crate::settings::{first_of, option, settings_of};
use client_api::Client;
use edge_io::{MemSink, MemSource};
use kube_meta::Memory;
use local_client::LocalClient;
use rev_front::{Author, Blank, blank};
use rev_log::Revision;
use sess_serve::{SessionEnd, serve_session};
use shared_client::Cacher;
use std::alloc::Global;
use std::marker::Brand;
use std::sync::Wait;
use up_api::{LogFacts, Settings};
use up_store::{Store, StoreDoor};

/// The clients that sessions are served with.
#[derive(Clone, Copy)]
pub enum Kind {
    /// The one that answers from caches of its own.
    Local,
    /// One of many that answer from the caches of one log.
    Shared,
}

impl Kind {
    /// How it is named.
    pub fn word(self) -> &'static str {
        match self {
            Kind::Local => "local client",
            Kind::Shared => "shared client",
        }
    }
}

/// How a session goes through its ends: the most bytes that are read and written at once, and the calls, from 0, at
/// which its source and its sink fail.
#[derive(Clone, Copy)]
pub struct Way {
    pub read: usize,
    pub write: usize,
    pub read_fault: Option<u64>,
    pub write_fault: Option<u64>,
}

impl Way {
    /// In pieces of so many bytes, and no call fails.
    pub fn in_pieces(step: usize) -> Way {
        Way {
            read: step,
            write: step,
            read_fault: None,
            write_fault: None,
        }
    }
}

/// Where a session is read from and written to, and by which clock it goes.
#[derive(Drop)]
struct Ends {
    source: MemSource,
    sink: MemSink,
    clock: CaseClock,
}

/// What came of a session: its end, and what was written.
#[derive(Drop)]
pub struct Outcome {
    pub end: SessionEnd,
    ends: Ends,
}

impl Outcome {
    /// What was written.
    pub fn bytes(&self) -> &[u8] {
        self.ends.sink.bytes()
    }
}

/// Serves a session with a client of this kind, of a new log, as the lines of its case say that its server is set.
pub fn serve<R: Wait + Copy + Drop>(
    rt: R,
    alloc: Global,
    kind: Kind,
    lines: &str,
    input: &[u8],
    way: Way,
) -> Result<Outcome, Memory> {
    let mut ends = ends_of(alloc, lines, input, way)?;
    let settings = settings_of(lines);
    match serve_through(rt, alloc, kind, first_of(lines), &settings, &mut ends) {
        Ok(end) => Ok(Outcome { end, ends }),
        Err(no) => {
            drop(ends);
            Err(no)
        }
    }
}

fn ends_of(alloc: Global, lines: &str, input: &[u8], way: Way) -> Result<Ends, Memory> {
    let input = input.to_vec(alloc)?;
    let read_faults = calls(alloc, way.read_fault)?;
    let write_faults = calls(alloc, way.write_fault)?;
    Ok(Ends {
        source: MemSource::new(input, way.read.max(1), read_faults),
        sink: MemSink::new(way.write.max(1), write_faults),
        clock: CaseClock::new(option(lines, "--stop ", 0)),
    })
}

// The number of a call, where there is one.
fn calls(alloc: Global, call: Option<u64>) -> Result<Vec<u64>, Memory> {
    let mut calls = Vec::new(alloc);
    if let Some(call) = call {
        calls.push(call)?;
    }
    Ok(calls)
}

// Serves it through these ends.
fn serve_through<R: Wait + Copy + Drop>(
    rt: R,
    alloc: Global,
    kind: Kind,
    first: u64,
    settings: &Settings,
    ends: &mut Ends,
) -> Result<SessionEnd, Memory>
    requires low { 1 ≤ first }
    requires high { first ≤ 2 ^ 62 }
    requires settings { AreInRange settings.now }
{
    let made = blank(alloc, first)?;
    match kind {
        Kind::Local => serve_local::<Brand>(alloc, made, settings, ends),
        Kind::Shared => serve_shared::<Brand, R>(rt, alloc, made, settings, ends),
    }
}

// Serves it with a local client.
fn serve_local<N: LogFacts>(
    alloc: Global,
    made: Blank<Revision>,
    settings: &Settings,
    ends: &mut Ends,
) -> Result<SessionEnd, Memory>
    requires name { made ≡ N.log }
    requires base { N.base ≡ [] }
    requires own { N.mirror ≡ false }
    requires settings { AreInRange settings.now }
{
    let client: LocalClient<N> = LocalClient::new(alloc, made, settings)?;
    Ok(serve_by(alloc, client, settings, ends))
}

// Serves it with a client that shares the caches of a server.
fn serve_shared<N: LogFacts, R: Wait + Copy + Drop>(
    rt: R,
    alloc: Global,
    made: Blank<Revision>,
    settings: &Settings,
    ends: &mut Ends,
) -> Result<SessionEnd, Memory>
    requires name { made ≡ N.log }
    requires base { N.base ≡ [] }
    requires own { N.mirror ≡ false }
    requires window { N.window ≡ settings.now.window }
    requires settings { AreInRange settings.now }
{
    let (store, author): (Store<N>, Author<N>) = Store::new(alloc, made, settings.history)?;
    let cacher = Cacher::new(rt, alloc, StoreDoor::new(rt, store)?, author, settings)?;
    let end = serve_one_of(alloc, &cacher, settings, ends);
    cacher.close();
    end
}

// Serves it with one client of these caches.
fn serve_one_of<N: LogFacts, R: Wait + Copy + Drop>(
    alloc: Global,
    cacher: &Cacher<N, R>,
    settings: &Settings,
    ends: &mut Ends,
) -> Result<SessionEnd, Memory>
    requires settings { AreInRange settings.now }
{
    Ok(serve_by(alloc, cacher.client()?, settings, ends))
}

// Serves it with this client, which is let go.
fn serve_by<C: Client + Drop>(
    alloc: Global,
    client: C,
    settings: &Settings,
    ends: &mut Ends,
) -> SessionEnd
    requires idle { (C.facts client).watching ≡ None }
    requires settings { AreInRange settings.now }
{
    let mut client = client;
    let Ends {
        source,
        sink,
        clock,
    } = ends;
    serve_session(alloc, &mut client, source, sink, clock, settings)
}
