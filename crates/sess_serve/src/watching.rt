//! Requests that ask for a watch: answered by its stream, or by a reply where it can't begin.

ghost use Rattle.std.specs.Prelude.{◌≡◌, ◌≤◌, Some, None};
ghost use Rattle.edge_io.specs.Sent.{sent_through};
ghost use Rattle.up_api.specs.Settings.{AreInRange};
ghost use Rattle.route_req.specs.Asks.{IsRoute};
ghost use Rattle.route_req.specs.declared.routing.Routed.TheVariants as routed;
ghost use Rattle.sess_turns.specs.Streams.{outside_of};
ghost use Rattle.sess_turns.specs.Terms.{terms_of};
ghost use Rattle.sess_serve.specs.Http as http;
ghost use Rattle.sess_serve.specs.Http.{IsPlainOrUpgrade};
ghost use Rattle.sess_serve.specs.Serving.{Answered, UnlessMemory, account_of, sent_with};

use crate::refused::tell_refused;
use crate::view::{is_plain_or_upgrade, view_of};
use client_api::{Client, ListNo};
use edge_io::{Clock, Sink};
use http_read::Req;
use sess_reply::{Broken, send_bad_upgrade, send_unwatched};
use sess_turns::{View, WatchEnd, serve_gone, serve_stream};
use std::alloc::Global;
use up_api::Settings;
use watch_rules::WatchAsk;

// The HTTP status of the reply to a watch that asks for a WebSocket, and not as it must.
const BAD_UPGRADE: u16 = 400;

/// How a request came out that was answered by a reply.
pub fn by_reply(sent: Result<(), Broken>) -> Result<Option<WatchEnd>, Broken>
    ensures { result ≡ sent_with (λ done. None) sent }
{
    match sent {
        Ok(()) => Ok(None),
        Err(why) => Err(why),
    }
}

/// How a request came out that was answered by a stream.
fn by_stream(ended: Result<WatchEnd, Broken>) -> Result<Option<WatchEnd>, Broken>
    ensures { result ≡ sent_with Some ended }
{
    match ended {
        Ok(how) => Ok(Some(how)),
        Err(why) => Err(why),
    }
}

/// How it came out where the stream told that the start is gone.
fn by_loss(sent: Result<(), Broken>, at: u64, floor: u64) -> Result<Option<WatchEnd>, Broken>
    ensures { result ≡ sent_with (λ done. Some (WatchEnd.Lost at floor)) sent }
{
    match sent {
        Ok(()) => Ok(Some(WatchEnd::Lost { at, floor })),
        Err(why) => Err(why),
    }
}

/// A watch.
pub fn step_watch<C: Client, K: Sink, T: Clock>(
    alloc: Global,
    client: &mut C,
    sink: &mut K,
    clock: &mut T,
    req: &Req,
    ask: &WatchAsk,
    settings: &Settings,
) -> Result<Option<WatchEnd>, Broken>
    requires route { IsRoute req.now (routed.Watch ask.now) }
    requires idle { (C.facts client.old).watching ≡ None }
    requires settings { AreInRange settings.now }
    ensures answered { Answered (terms_of C.base C.mirror (C.facts client.old) settings.now) (C.whole client.old)
        (account_of (C.pass client.old) (C.facts client.old).did) req.now
        (outside_of T.readings clock.old clock.new (sent_through K.written K.settled K.faults sink.old sink.new))
        (account_of (C.pass client.new) (C.facts client.new).did) result }
    ensures facts { C.facts client.new ≡ record (C.facts client.old) { heard = (C.facts client.new).heard } }
    ensures heard { T.last clock.old ≤ (C.facts client.old).heard → T.last clock.new ≤ (C.facts client.new).heard }
    ensures kept { C.whole client.old → UnlessMemory result (C.whole client.new) }
{
    if is_plain_or_upgrade(req) {
        match view_of(alloc, req) {
            Ok(view) => watch(alloc, client, sink, clock, req, ask, &view, settings),
            Err(_) => Err(Broken::Memory),
        }
    } else {
        tell_refused(client, req.method.as_str(), Some(BAD_UPGRADE));
        by_reply(send_bad_upgrade(alloc, sink, req.close))
    }
}

// A watch whose stream has this view.
fn watch<C: Client, K: Sink, T: Clock>(
    alloc: Global,
    client: &mut C,
    sink: &mut K,
    clock: &mut T,
    req: &Req,
    ask: &WatchAsk,
    view: &View,
    settings: &Settings,
) -> Result<Option<WatchEnd>, Broken>
    requires route { IsRoute req.now (routed.Watch ask.now) }
    requires plain { IsPlainOrUpgrade req.now }
    requires view { view.now ≡ http.view_of req.now }
    requires idle { (C.facts client.old).watching ≡ None }
    requires settings { AreInRange settings.now }
    ensures answered { Answered (terms_of C.base C.mirror (C.facts client.old) settings.now) (C.whole client.old)
        (account_of (C.pass client.old) (C.facts client.old).did) req.now
        (outside_of T.readings clock.old clock.new (sent_through K.written K.settled K.faults sink.old sink.new))
        (account_of (C.pass client.new) (C.facts client.new).did) result }
    ensures facts { C.facts client.new ≡ record (C.facts client.old) { heard = (C.facts client.new).heard } }
    ensures heard { T.last clock.old ≤ (C.facts client.old).heard → T.last clock.new ≤ (C.facts client.new).heard }
    ensures kept { C.whole client.old → UnlessMemory result (C.whole client.new) }
{
    match client.watch(ask) {
        Ok(begun) => by_stream(serve_stream(client, sink, clock, ask, begun, view, settings)),
        Err(ListNo::Expired { asked, floor }) => {
            by_loss(serve_gone(sink, view, asked, floor), asked, floor)
        }
        Err(ListNo::TooLarge { asked, current }) => {
            let fault = ListNo::TooLarge { asked, current };
            by_reply(send_unwatched(alloc, sink, req.close, ask, fault))
        }
        // A watch is of no single object, so that none is absent.
        Err(ListNo::Absent { .. }) => Err(Broken::Memory),
        Err(ListNo::Memory) => Err(Broken::Memory),
    }
}
