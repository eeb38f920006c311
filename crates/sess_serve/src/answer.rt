//! One request, answered.

ghost use Rattle.std.specs.Prelude.{◌≡◌, ◌≤◌, None};
ghost use Rattle.edge_io.specs.Sent.{sent_through};
ghost use Rattle.up_api.specs.Settings.{AreInRange};
ghost use Rattle.route_req.specs.Asks.{IsRoute};
ghost use Rattle.client_api.specs.Facts.{Rests};
ghost use Rattle.sess_turns.specs.Streams.{outside_of};
ghost use Rattle.sess_turns.specs.Terms.{terms_of};
ghost use Rattle.sess_serve.specs.Serving.{Answered, UnlessMemory, account_of};

use crate::refused::tell_refused;
use crate::steps::{
    step_describe, step_get, step_list, step_metrics, step_operate, step_transact, step_write,
};
use crate::watching::{by_reply, step_watch};
use api_errors::route_code;
use client_api::Client;
use edge_io::{Clock, Sink};
use http_read::Req;
use route_req::{RouteNo, Routed, route};
use sess_reply::{Broken, send_unrouted};
use sess_turns::WatchEnd;
use std::alloc::Global;
use up_api::Settings;

/// Answers a request: by the reply to what it asks for, or to why that has no route, or by the stream of a watch.
/// Answers how the watch ended, where there was one.
pub fn answer<C: Client, K: Sink, T: Clock>(
    alloc: Global,
    client: &mut C,
    sink: &mut K,
    clock: &mut T,
    req: &Req,
    settings: &Settings,
) -> Result<Option<WatchEnd>, Broken>
    requires idle { (C.facts client.old).watching ≡ None }
    requires settings { AreInRange settings.now }
    ensures answered { Answered (terms_of C.base C.mirror (C.facts client.old) settings.now) (C.whole client.old)
        (account_of (C.pass client.old) (C.facts client.old).did) req.now
        (outside_of T.readings clock.old clock.new (sent_through K.written K.settled K.faults sink.old sink.new))
        (account_of (C.pass client.new) (C.facts client.new).did) result }
    ensures facts { Rests (C.facts client.old) (C.facts client.new) }
    ensures heard { T.last clock.old ≤ (C.facts client.old).heard → T.last clock.new ≤ (C.facts client.new).heard }
    ensures kept { C.whole client.old → UnlessMemory result (C.whole client.new) }
{
    match route(alloc, req) {
        Ok(routed) => act(alloc, client, sink, clock, req, &routed, settings),
        Err(fault) => match fault {
            RouteNo::Memory => Err(Broken::Memory),
            _ => {
                tell_refused(client, req.method.as_str(), route_code(fault));
                by_reply(send_unrouted(alloc, sink, req.close, fault))
            }
        },
    }
}

// What a request asks for.
fn act<C: Client, K: Sink, T: Clock>(
    alloc: Global,
    client: &mut C,
    sink: &mut K,
    clock: &mut T,
    req: &Req,
    routed: &Routed,
    settings: &Settings,
) -> Result<Option<WatchEnd>, Broken>
    requires route { IsRoute req.now routed.now }
    requires idle { (C.facts client.old).watching ≡ None }
    requires settings { AreInRange settings.now }
    ensures answered { Answered (terms_of C.base C.mirror (C.facts client.old) settings.now) (C.whole client.old)
        (account_of (C.pass client.old) (C.facts client.old).did) req.now
        (outside_of T.readings clock.old clock.new (sent_through K.written K.settled K.faults sink.old sink.new))
        (account_of (C.pass client.new) (C.facts client.new).did) result }
    ensures facts { Rests (C.facts client.old) (C.facts client.new) }
    ensures heard { T.last clock.old ≤ (C.facts client.old).heard → T.last clock.new ≤ (C.facts client.new).heard }
    ensures kept { C.whole client.old → UnlessMemory result (C.whole client.new) }
{
    match routed {
        Routed::Write(ask) => step_write(alloc, client, sink, req, ask),
        Routed::Get(ask) => step_get(alloc, client, sink, req, ask),
        Routed::List(ask) => step_list(alloc, client, sink, req, ask),
        Routed::Watch(ask) => step_watch(alloc, client, sink, clock, req, ask, settings),
        Routed::Operate(ask) => step_operate(alloc, client, sink, req, *ask),
        Routed::Transact(ask) => step_transact(alloc, client, sink, req, ask),
        Routed::Describe(document) => step_describe(client, sink, req, document),
        Routed::Metrics => step_metrics(alloc, client, sink, req),
    }
}
