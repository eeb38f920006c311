//! Requests that are answered by replies: one function a kind. Each asks the client, and writes what it answers.

ghost use Rattle.std.specs.Prelude.{◌≡◌, false, true};
ghost use Rattle.std.specs.Bool.{MatchBool};
ghost use Rattle.edge_io.specs.Sent.{sent_through};
ghost use Rattle.client_api.specs.Facts.{Acts};
ghost use Rattle.client_api.specs.Told.{IsToldRead, IsToldWrite, IsToldTx, IsToldOperation};
ghost use Rattle.route_req.specs.Asks.{IsRoute};
ghost use Rattle.route_req.specs.declared.routing.Routed.TheVariants as routed;
ghost use Rattle.sess_turns.specs.Terms.{terms_of};
ghost use Rattle.up_api.specs.declared.settings.Settings.{Settings};
ghost use Rattle.sess_serve.specs.Serving.{Replied, UnlessMemory, account_of};

use crate::refused::tell_refused;
use crate::watching::by_reply;
use api_errors::Reason;
use client_api::{Client, ListNo};
use edge_io::Sink;
use http_read::Req;
use list_rules::{GetAsk, ListAsk};
use route_req::{Document, Probe};
use sess_reply::{
    Broken, form_of, send_described, send_got, send_listed, send_metered, send_operated,
    send_transacted, send_unoperated, send_unready, send_written,
};
use sess_turns::WatchEnd;
use std::alloc::Global;
use up_store::{OpNo, Operate, Transaction, TxWriteNo, WriteAsk, WriteNo, Written};

// Whether an answer isn't want of memory.

fn is_told_write(answer: &Result<Written, WriteNo>) -> bool
    ensures { MatchBool result (IsToldWrite answer.now) (answer.now ≡ Err WriteNo.Memory) }
{
    !matches!(answer, Err(WriteNo::Memory))
}

fn is_told_transaction(answer: &Result<Vec<Written>, TxWriteNo>) -> bool
    ensures { MatchBool result (IsToldTx answer.now) (answer.now ≡ Err TxWriteNo.Memory) }
{
    !matches!(answer, Err(TxWriteNo::Memory))
}

fn is_told_read<T>(answer: &Result<T, ListNo>) -> bool
    ensures { MatchBool result (IsToldRead answer.now) (answer.now ≡ Err ListNo.Memory) }
{
    !matches!(answer, Err(ListNo::Memory))
}

fn is_told_operation(answer: Result<u64, OpNo>) -> bool
    ensures { MatchBool result (IsToldOperation answer) (answer ≡ Err OpNo.Memory) }
{
    !matches!(answer, Err(OpNo::Memory))
}

/// A create, a replacement or a removal.
pub fn step_write<C: Client, K: Sink>(
    alloc: Global,
    client: &mut C,
    sink: &mut K,
    req: &Req,
    ask: &WriteAsk,
) -> Result<Option<WatchEnd>, Broken>
    requires { IsRoute req.now (routed.Write ask.now) }
    ensures replied { (s : Settings) → Replied (terms_of C.base C.mirror (C.facts client.old) s) (C.whole client.old)
        (account_of (C.pass client.old) (C.facts client.old).did) req.now (sent_through K.written K.settled K.faults sink.old sink.new)
        (account_of (C.pass client.new) (C.facts client.new).did) result }
    ensures facts { Acts (C.facts client.old) (C.facts client.new) }
    ensures kept { C.whole client.old → UnlessMemory result (C.whole client.new) }
{
    let answer = client.write(ask);
    if is_told_write(&answer) {
        by_reply(send_written(alloc, sink, req.close, ask, &answer))
    } else {
        Err(Broken::Memory)
    }
}

/// A transaction.
pub fn step_transact<C: Client, K: Sink>(
    alloc: Global,
    client: &mut C,
    sink: &mut K,
    req: &Req,
    ask: &Transaction,
) -> Result<Option<WatchEnd>, Broken>
    requires { IsRoute req.now (routed.Transact ask.now) }
    ensures replied { (s : Settings) → Replied (terms_of C.base C.mirror (C.facts client.old) s) (C.whole client.old)
        (account_of (C.pass client.old) (C.facts client.old).did) req.now (sent_through K.written K.settled K.faults sink.old sink.new)
        (account_of (C.pass client.new) (C.facts client.new).did) result }
    ensures facts { Acts (C.facts client.old) (C.facts client.new) }
    ensures kept { C.whole client.old → UnlessMemory result (C.whole client.new) }
{
    let answer = client.transact(ask);
    if is_told_transaction(&answer) {
        by_reply(send_transacted(alloc, sink, req.close, ask, &answer))
    } else {
        Err(Broken::Memory)
    }
}

/// A get of one object.
pub fn step_get<C: Client, K: Sink>(
    alloc: Global,
    client: &mut C,
    sink: &mut K,
    req: &Req,
    ask: &GetAsk,
) -> Result<Option<WatchEnd>, Broken>
    requires { IsRoute req.now (routed.Get ask.now) }
    ensures replied { (s : Settings) → Replied (terms_of C.base C.mirror (C.facts client.old) s) (C.whole client.old)
        (account_of (C.pass client.old) (C.facts client.old).did) req.now (sent_through K.written K.settled K.faults sink.old sink.new)
        (account_of (C.pass client.new) (C.facts client.new).did) result }
    ensures facts { C.facts client.new ≡ C.facts client.old }
    ensures kept { C.whole client.old → UnlessMemory result (C.whole client.new) }
{
    let answer = client.get(ask);
    if is_told_read(&answer) {
        by_reply(send_got(alloc, sink, form_of(req), req.close, ask, &answer))
    } else {
        Err(Broken::Memory)
    }
}

/// A list, or a page of one.
pub fn step_list<C: Client, K: Sink>(
    alloc: Global,
    client: &mut C,
    sink: &mut K,
    req: &Req,
    ask: &ListAsk,
) -> Result<Option<WatchEnd>, Broken>
    requires { IsRoute req.now (routed.List ask.now) }
    ensures replied { (s : Settings) → Replied (terms_of C.base C.mirror (C.facts client.old) s) (C.whole client.old)
        (account_of (C.pass client.old) (C.facts client.old).did) req.now (sent_through K.written K.settled K.faults sink.old sink.new)
        (account_of (C.pass client.new) (C.facts client.new).did) result }
    ensures facts { C.facts client.new ≡ C.facts client.old }
    ensures kept { C.whole client.old → UnlessMemory result (C.whole client.new) }
{
    let answer = client.list(ask);
    if is_told_read(&answer) {
        by_reply(send_listed(alloc, sink, form_of(req), req.close, ask, &answer))
    } else {
        Err(Broken::Memory)
    }
}

/// An operation on the log and its server, which is refused where that takes none, whatever it is.
pub fn step_operate<C: Client, K: Sink>(
    alloc: Global,
    client: &mut C,
    sink: &mut K,
    req: &Req,
    ask: Operate,
) -> Result<Option<WatchEnd>, Broken>
    requires { IsRoute req.now (routed.Operate ask) }
    ensures replied { (s : Settings) → Replied (terms_of C.base C.mirror (C.facts client.old) s) (C.whole client.old)
        (account_of (C.pass client.old) (C.facts client.old).did) req.now (sent_through K.written K.settled K.faults sink.old sink.new)
        (account_of (C.pass client.new) (C.facts client.new).did) result }
    ensures facts { Acts (C.facts client.old) (C.facts client.new) }
    ensures kept { C.whole client.old → UnlessMemory result (C.whole client.new) }
{
    if client.is_operable() {
        operate(alloc, client, sink, req, ask)
    } else {
        tell_refused(
            client,
            req.method.as_str(),
            Some(Reason::MethodNotAllowed.code()),
        );
        by_reply(send_unoperated(alloc, sink, req.close, ask))
    }
}

// An operation, where the server takes them.
fn operate<C: Client, K: Sink>(
    alloc: Global,
    client: &mut C,
    sink: &mut K,
    req: &Req,
    ask: Operate,
) -> Result<Option<WatchEnd>, Broken>
    requires route { IsRoute req.now (routed.Operate ask) }
    requires operable { (C.facts client.old).operable ≡ true }
    ensures replied { (s : Settings) → Replied (terms_of C.base C.mirror (C.facts client.old) s) (C.whole client.old)
        (account_of (C.pass client.old) (C.facts client.old).did) req.now (sent_through K.written K.settled K.faults sink.old sink.new)
        (account_of (C.pass client.new) (C.facts client.new).did) result }
    ensures facts { Acts (C.facts client.old) (C.facts client.new) }
    ensures kept { C.whole client.old → UnlessMemory result (C.whole client.new) }
{
    let answer = client.operate(ask);
    if is_told_operation(answer) {
        by_reply(send_operated(alloc, sink, req.close, ask, answer))
    } else {
        Err(Broken::Memory)
    }
}

/// What a monitor is told.
pub fn step_metrics<C: Client, K: Sink>(
    alloc: Global,
    client: &mut C,
    sink: &mut K,
    req: &Req,
) -> Result<Option<WatchEnd>, Broken>
    requires { IsRoute req.now routed.Metrics }
    ensures replied { (s : Settings) → Replied (terms_of C.base C.mirror (C.facts client.old) s) (C.whole client.old)
        (account_of (C.pass client.old) (C.facts client.old).did) req.now (sent_through K.written K.settled K.faults sink.old sink.new)
        (account_of (C.pass client.new) (C.facts client.new).did) result }
    ensures facts { C.facts client.new ≡ C.facts client.old }
    ensures kept { C.whole client.old → UnlessMemory result (C.whole client.new) }
{
    match client.metrics() {
        Ok(told) => by_reply(send_metered(alloc, sink, req.close, &told)),
        Err(_) => Err(Broken::Memory),
    }
}

// Whether a probe is passed: the server is ready, or is to run on.
fn passes<C: Client>(client: &C, probe: Probe) -> bool
    ensures { C.mirror ≡ false → result ≡ true }
{
    match probe {
        Probe::Readyz => client.is_ready(),
        Probe::Livez | Probe::Healthz => client.is_live(),
    }
}

/// What describes the server: the client is asked for no more than which resources that has, whether it is ready, and
/// whether it is to run on.
pub fn step_describe<C: Client, K: Sink>(
    client: &C,
    sink: &mut K,
    req: &Req,
    document: &Document,
) -> Result<Option<WatchEnd>, Broken>
    requires { IsRoute req.now (routed.Describe document.now) }
    ensures { (s : Settings) → Replied (terms_of C.base C.mirror (C.facts client.now) s) (C.whole client.now)
        (account_of (C.pass client.now) (C.facts client.now).did) req.now (sent_through K.written K.settled K.faults sink.old sink.new)
        (account_of (C.pass client.now) (C.facts client.now).did) result }
{
    match document {
        Document::Probe(probe) if !passes(client, *probe) => {
            by_reply(send_unready(sink, req.close, *probe))
        }
        _ => by_reply(send_described(sink, req.close, client.resources(), document)),
    }
}
