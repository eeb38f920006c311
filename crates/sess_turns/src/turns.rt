//! The turns of a watch, by the clock.

ghost use Rattle.std.specs.Prelude.{◌≡◌, ◌≢◌, ◌+◌, ◌*◌, ◌≤◌, ◌&&◌, [], ◌∷◌, ◌++◌, map, Some, None, Ok, Err, IfOk, nat_le, if◌then◌else◌};
ghost use Rattle.edge_io.specs.Told.{Noted};
ghost use Rattle.edge_io.specs.Sent.{sent_through};
ghost use Rattle.up_api.specs.Settings.{AreInRange};
ghost use Rattle.watch_rules.specs.Bodies.{Told, Bookmark};
ghost use Rattle.sess_turns.specs.Terms.{terms_of, watch_seconds};
ghost use Rattle.sess_reply.specs.Sending.{Sends};
ghost use Rattle.sess_turns.specs.Streams.{outside_of, end_text, framed, frames_of};
ghost use Rattle.sess_turns.specs.Steps.{IsTurned, Stops, Tells};
ghost use Rattle.meta_view.specs.Lines.{expired_line};

use crate::ends::WatchEnd;
use crate::frames::end;
use crate::lines::{bookmark, events, lost};
use crate::view::View;
use client_api::{Client, Line, Took};
use edge_io::{Clock, Reading, Sink};
use kube_meta::Resource;
use sess_reply::{Broken, send_on};
use up_api::Settings;
use watch_rules::WatchAsk;

// After so many turns a watch ends.
const MOST_TURNS: u64 = 1_000_000_000;

/// Where a watch stands between two turns.
#[derive(Debug, Drop)]
pub(crate) struct Place {
    /// Up to here all is told.
    pub(crate) position: u64,
    /// When the last bookmark came; at first the start.
    pub(crate) mark: u64,
}

/// The turns of a watch that stands at `at`, from its first to the end of the stream.
pub(crate) fn turns<C: Client, K: Sink, T: Clock>(
    client: &mut C,
    sink: &mut K,
    clock: &mut T,
    ask: &WatchAsk,
    start: Reading,
    at: u64,
    view: &View,
    settings: &Settings,
) -> Result<WatchEnd, Broken>
    requires watching { (C.facts client.old).watching ≡ Some (record { selection = ask.now.selection; position = at }) }
    requires settings { AreInRange settings.now }
    requires settled { K.settled sink.old }
    requires heard { T.last clock.old ≤ (C.facts client.old).heard }
    ensures stops { Stops (terms_of C.base C.mirror (C.facts client.old) settings.now) view.now ask.now start (C.whole client.old) 0
        (record { pass = C.pass client.old; position = at; mark = start.ms })
        (outside_of T.readings clock.old clock.new (sent_through K.written K.settled K.faults sink.old sink.new)) result (C.pass client.new) }
    ensures same { C.facts client.new ≡ record (C.facts client.old) { watching = (C.facts client.new).watching; heard = (C.facts client.new).heard } }
    ensures heard { T.last clock.new ≤ (C.facts client.new).heard }
    ensures kept { C.whole client.old → result ≢ Err Broken.Memory → C.whole client.new }
{
    let mut place = Place {
        position: at,
        mark: start.ms,
    };
    for _ in 0..MOST_TURNS {
        let ended = turn(client, sink, clock, ask, start, &mut place, view, settings)?;
        match ended {
            None => {}
            Some(how) => return Ok(how),
        }
    }
    end(sink, &view.framing)?;
    Ok(WatchEnd::TurnsSpent)
}

// One turn of a watch: the clock is read once, and then the client asked at most once.
fn turn<C: Client, K: Sink, T: Clock>(
    client: &mut C,
    sink: &mut K,
    clock: &mut T,
    ask: &WatchAsk,
    start: Reading,
    place: &mut Place,
    view: &View,
    settings: &Settings,
) -> Result<Option<WatchEnd>, Broken>
    requires watching { (C.facts client.old).watching ≡ Some (record { selection = ask.now.selection; position = place.old.position }) }
    requires settings { AreInRange settings.now }
    requires settled { K.settled sink.old }
    ensures turned { IsTurned (terms_of C.base C.mirror (C.facts client.old) settings.now) view.now ask.now start (C.whole client.old)
        (record { pass = C.pass client.old; position = place.old.position; mark = place.old.mark })
        (outside_of T.readings clock.old clock.new (sent_through K.written K.settled K.faults sink.old sink.new)) result
        (record { pass = C.pass client.new; position = place.new.position; mark = place.new.mark }) }
    ensures watching { result ≡ Ok None → (C.facts client.new).watching ≡ Some (record { selection = ask.now.selection; position = place.new.position }) }
    ensures same { C.facts client.new ≡ record (C.facts client.old) { watching = (C.facts client.new).watching; heard = (C.facts client.new).heard } }
    ensures heard { T.last clock.new ≤ (C.facts client.new).heard }
    ensures kept { C.whole client.old → result ≢ Err Broken.Memory → C.whole client.new }
{
    let reading = clock.now();
    client.tick(reading.ms);
    if is_late(start.ms, seconds(ask, settings), reading.ms) {
        return close(sink, view, WatchEnd::Timeout);
    }
    if reading.stop {
        return close(sink, view, WatchEnd::Stopped);
    }
    match client.take(settings.batch) {
        Ok(took) => tell(sink, clock, view, ask, settings, place, reading.ms, took),
        Err(_) => Err(Broken::Memory),
    }
}

// Tells what the client gave at the time `now`, and sends it on.
fn tell<K: Sink, T: Clock>(
    sink: &mut K,
    clock: &mut T,
    view: &View,
    ask: &WatchAsk,
    settings: &Settings,
    place: &mut Place,
    now: u64,
    took: Took,
) -> Result<Option<WatchEnd>, Broken>
    requires settled { K.settled sink.old }
    ensures told { Tells settings.now view.now ask.now place.old.position place.old.mark now took result place.new.position place.new.mark
        (sent_through K.written K.settled K.faults sink.old sink.new) }
    ensures unread { Noted (T.readings clock.old) (T.readings clock.new) [] }
    ensures last { T.last clock.new ≡ T.last clock.old }
{
    match took {
        Took::Events { upto, lines, .. } => {
            place.position = upto;
            tell_events(sink, view, ask.selection.resource, &lines)?;
            Ok(None)
        }
        Took::Quiet { upto, reached } => {
            place.position = upto;
            let due = is_due(ask, settings, place.mark, now, reached);
            if due {
                place.mark = now;
            }
            tell_quiet(sink, view, ask.selection.resource, upto, due)?;
            clock.rest();
            Ok(None)
        }
        Took::Lost { at, floor } => tell_lost(sink, view, at, floor),
    }
}

// Writes the lines of a turn, and sends them on.
fn tell_events<K: Sink>(
    sink: &mut K,
    view: &View,
    resource: Resource,
    lines: &[Line],
) -> Result<(), Broken>
    ensures { Sends result (frames_of view.now resource (map Told lines.now))
        (sent_through K.written K.settled K.faults sink.old sink.new) }
{
    events(sink, view, resource, lines)?;
    send_on(sink)
}

// Writes the bookmark of a quiet turn, where one is due, and sends it on.
fn tell_quiet<K: Sink>(
    sink: &mut K,
    view: &View,
    resource: Resource,
    upto: u64,
    due: bool,
) -> Result<(), Broken>
    requires settled { K.settled sink.old }
    ensures { Sends result (frames_of view.now resource (if due then Bookmark upto ∷ [] else []))
        (sent_through K.written K.settled K.faults sink.old sink.new) }
{
    if !due {
        return Ok(());
    }
    bookmark(sink, view, resource, upto, false)?;
    send_on(sink)
}

// Writes that the watch is lost, and ends the stream.
fn tell_lost<K: Sink>(
    sink: &mut K,
    view: &View,
    at: u64,
    floor: u64,
) -> Result<Option<WatchEnd>, Broken>
    ensures ended { IfOk result (λ ended. ended ≡ Some (WatchEnd.Lost at floor)) }
    ensures sends { Sends result (framed view.now.framing (expired_line at floor) ++ end_text view.now.framing)
        (sent_through K.written K.settled K.faults sink.old sink.new) }
{
    lost(sink, &view.framing, at, floor)?;
    close(sink, view, WatchEnd::Lost { at, floor })
}

// Ends the stream.
fn close<K: Sink>(sink: &mut K, view: &View, how: WatchEnd) -> Result<Option<WatchEnd>, Broken>
    ensures ended { IfOk result (λ ended. ended ≡ Some how) }
    ensures sends { Sends result (end_text view.now.framing)
        (sent_through K.written K.settled K.faults sink.old sink.new) }
{
    end(sink, &view.framing)?;
    Ok(Some(how))
}

// After how many seconds the watch ends.
fn seconds(ask: &WatchAsk, settings: &Settings) -> u64
    requires settings { AreInRange settings.now }
    ensures is { result ≡ watch_seconds settings.now ask.now.timeout_s }
    ensures bounded { result ≤ 1000000 }
{
    match ask.timeout_s {
        0 => settings.timeout_s,
        asked => asked,
    }
}

// Whether a bookmark is due at a quiet turn, where the last one came at `mark`.
fn is_due(ask: &WatchAsk, settings: &Settings, mark: u64, now: u64, reached: bool) -> bool
    ensures { result ≡ ask.now.bookmarks && (reached && nat_le (mark + settings.now.bookmark_ms) now) }
{
    ask.bookmarks && reached && is_past(mark, settings.bookmark_ms, now)
}

// Whether so many milliseconds have gone by since `mark`. A limit above all times isn't reached.
fn is_past(mark: u64, ms: u64, now: u64) -> bool
    ensures { result ≡ nat_le (mark + ms) now }
{
    match mark.checked_add(ms) {
        Some(limit) => now >= limit,
        None => false,
    }
}

// Whether so many seconds have gone by since `start`.
fn is_late(start: u64, seconds: u64, now: u64) -> bool
    requires { seconds ≤ 1000000 }
    ensures { result ≡ nat_le (start + 1000 * seconds) now }
{
    is_past(start, 1000 * seconds, now)
}
