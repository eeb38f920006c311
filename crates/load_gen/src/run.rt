//! A load, from the draws to the figures.

ghost use Rattle.std.specs.Prelude.{◌≡◌, ◌≤◌, ◌^◌, [], false, None, IfOk};
ghost use Rattle.client_api.specs.Alone.{IsSoleRead};
ghost use Rattle.edge_io.specs.Sent.{sent_through};
ghost use Rattle.sess_turns.specs.Terms.{terms_of};
ghost use Rattle.up_api.specs.Settings.{AreInRange, usual};
ghost use Rattle.load_gen.specs.Loads.{AreFigures, IsLoadServed, IsTold};
ghost use Rattle.load_gen.specs.Tallies.{IsTallied, IsWholeList, IsWholeListed};

use crate::figures::Figures;
use crate::replies::{codes, count};
use crate::session::make;
use client_api::{Client, Listed};
use edge_io::{Failed, MemSink, MemSource, Sink, StepClock};
use kube_meta::{Memory, Resource, Text};
use list_rules::ListAsk;
use local_client::LocalClient;
use rev_front::{Blank, blank};
use rev_log::Revision;
use select_all::{Meaning, Selection};
use sess_serve::{SessionEnd, serve_session};
use std::alloc::Global;
use std::marker::Brand;
use up_api::{LogFacts, Settings};

/// Why a load wasn't told.
#[derive(Clone, Copy, Debug, PartialEq, Eq)]
pub enum LoadNo {
    /// The sink failed, and its count of faults rose. A beginning of the lines is written.
    WriteFault,
    /// There was no memory. Nothing is written.
    Memory,
}

/// The first revision of the log.
const FIRST: u64 = 1;

/// How many bytes of the session are read at once.
const PIECE: usize = 512;

/// Serves the session of these draws with a client of a new log, and writes five lines: the number of the requests that
/// were drawn; how many replies but the last have a code below 400, and how many another; and the revision and the
/// number of objects of the list at the end.
pub fn run_load<K: Sink>(
    alloc: Global,
    from: u64,
    requests: u64,
    sink: &mut K,
) -> Result<(), LoadNo>
    requires from { from ≤ 2 ^ 62 }
    requires requests { requests ≤ 100000 }
    ensures { IsTold from requests (sent_through K.written K.settled K.faults sink.old sink.new) result }
{
    let Ok(session) = make(alloc, from, requests) else {
        return Err(LoadNo::Memory);
    };
    let Ok(figures) = figures_of(alloc, requests, session) else {
        return Err(LoadNo::Memory);
    };
    match figures.write(sink) {
        Ok(()) => Ok(()),
        Err(Failed) => Err(LoadNo::WriteFault),
    }
}

// The figures of a session.
fn figures_of(alloc: Global, requests: u64, session: Vec<u8>) -> Result<Figures, Memory>
    ensures requests { IfOk result (λ f. f.requests ≡ requests) }
    ensures figures { IfOk result (λ f. AreFigures session.items f) }
{
    let made = blank(alloc, FIRST)?;
    serve_new::<Brand>(alloc, made, requests, session)
}

// The figures of a session with a client of the log that was just made.
fn serve_new<N: LogFacts>(
    alloc: Global,
    made: Blank<Revision>,
    requests: u64,
    session: Vec<u8>,
) -> Result<Figures, Memory>
    requires name { made ≡ N.log }
    requires first { N.log.first ≡ 1 }
    requires base { N.base ≡ [] }
    requires own { N.mirror ≡ false }
    ensures requests { IfOk result (λ f. f.requests ≡ requests) }
    ensures figures { IfOk result (λ f. AreFigures session.items f) }
{
    let settings = Settings::usual();
    let mut client: LocalClient<N> = LocalClient::new(alloc, made, &settings)?;
    let played = play(alloc, &mut client, session, &settings);
    let listed = list_all(alloc, &mut client);
    client.close();
    figures(alloc, requests, played, listed)
}

// Serves a session from memory to memory. Answers the sink, where the session came to its end.
fn play<C: Client>(
    alloc: Global,
    client: &mut C,
    session: Vec<u8>,
    settings: &Settings,
) -> Result<MemSink, Memory>
    requires idle { (C.facts client.old).watching ≡ None }
    requires settings { AreInRange settings.now }
    ensures served { IfOk result (λ sink. IsLoadServed (terms_of C.base C.mirror (C.facts client.old) settings.now)
        (C.whole client.old) (C.pass client.old) session.items sink.written (C.pass client.new)) }
    ensures kept { C.whole client.old → IfOk result (λ sink. C.whole client.new) }
{
    let mut source = MemSource::new(session, PIECE, Vec::new(alloc));
    let mut sink = MemSink::new(usize::MAX, Vec::new(alloc));
    let mut clock = StepClock::new();
    let end = serve_session(alloc, client, &mut source, &mut sink, &mut clock, settings);
    match end {
        SessionEnd::Done => Ok(sink),
        _ => Err(Memory),
    }
}

// Lists all pods of the namespace, at the newest revision.
fn list_all<C: Client>(alloc: Global, client: &mut C) -> Result<Listed, Memory>
    ensures listed { IfOk result (λ listed. IsWholeListed C.base (C.pass client.old) listed (C.pass client.new)) }
    ensures sole { C.whole client.old → IfOk result (λ listed. IsSoleRead (C.pass client.old) (C.pass client.new)) }
{
    let ask = whole_list(alloc)?;
    match client.list(&ask) {
        Ok(listed) => Ok(listed),
        Err(_) => Err(Memory),
    }
}

// The figures of what was played, and of the list at its end.
fn figures(
    alloc: Global,
    requests: u64,
    played: Result<MemSink, Memory>,
    listed: Result<Listed, Memory>,
) -> Result<Figures, Memory>
    ensures { IfOk result (IsTallied requests played listed) }
{
    let sink = played?;
    let list = listed?;
    let codes = codes(alloc, sink.bytes())?;
    let Some(counts) = count(codes.as_slice()) else {
        return Err(Memory);
    };
    Ok(Figures {
        requests,
        ok: counts.ok,
        refused: counts.refused,
        revision: list.rev,
        items: list.items.len() as u64,
    })
}

// The ask for a list of all pods of the namespace, at the newest revision.
fn whole_list(alloc: Global) -> Result<ListAsk, Memory>
    ensures { IfOk result IsWholeList }
{
    let ns = Text::new(alloc, "load")?;
    let Ok(selection) = Selection::read(alloc, Resource::Pods, Some(ns), "", "") else {
        return Err(Memory);
    };
    Ok(ListAsk {
        selection,
        meaning: Meaning::MostRecent,
        limit: 0,
        after: None,
        label_text: Text::new(alloc, "")?,
        field_text: Text::new(alloc, "")?,
    })
}
