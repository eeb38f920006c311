//! One session: requests are read one after the other, and each is answered.

ghost use Rattle.std.specs.Prelude.{◌≡◌, ◌<◌, ◌≤◌, ℕ, List, None, Option};
ghost use Rattle.edge_io.specs.Counts.{Rose};
ghost use Rattle.edge_io.specs.Told.{prepended, appended, Noted};
ghost use Rattle.edge_io.specs.declared.clock.Reading.{Reading as ReadingData};
ghost use Rattle.http_read.specs.Answers.{AnswersNext, UnlessFault};
ghost use Rattle.http_read.specs.Requests.{IsUnfinished};
ghost use Rattle.edge_io.specs.Sent.{sent_through};
ghost use Rattle.client_api.specs.Facts.{Rests};
ghost use Rattle.sess_turns.specs.Terms.{terms_of};
ghost use Rattle.up_api.specs.Settings.{AreInRange};
ghost use Rattle.sess_serve.specs.Ends.{UnlessReadFault, UnlessWriteFault, UnlessMemory, UnlessBroken};
ghost use Rattle.sess_serve.specs.Serving as serving;
ghost use Rattle.sess_serve.specs.Serving.{IsRound, IsStopped, OnNone, OrEnd, account_of};
ghost use Rattle.sess_serve.specs.Http.{http};
ghost use Rattle.sess_serve.specs.Session.{IsSessionBy, acted_by};

use crate::answer::answer;
use crate::ends::SessionEnd;
use crate::refused::tell_refused;
use api_errors::request_code;
use client_api::Client;
use edge_io::{Clock, Sink, Source};
use http_read::{Reader, Req, ReqNo};
use sess_reply::{Broken, send_request_refusal};
use sess_turns::WatchEnd;
use std::alloc::Global;
use up_api::Settings;

/// Serves one connection: reads the requests of `source` one after the other, asks `client` what each asks for, and
/// writes the replies to `sink`, each flushed before the next request is read. A watch is answered by its stream, whose
/// turns go by `clock`; the session ends with it.
pub fn serve_session<C: Client, S: Source, K: Sink, T: Clock>(
    alloc: Global,
    client: &mut C,
    source: &mut S,
    sink: &mut K,
    clock: &mut T,
    settings: &Settings,
) -> SessionEnd
    requires idle { (C.facts client.old).watching ≡ None }
    requires settings { AreInRange settings.now }

    // From bytes to bytes: some bytes went from the source, some went to the sink, the clock was read so often, and
    // between them stands a session. Of the log the client did what its answers tell, however it ended, and no more.
    ensures session { (taken : List ℕ) × (written : List ℕ) × (readings : List ReadingData)
        × (S.left source.old ≡ prepended taken (S.left source.new))
        × (K.written sink.new ≡ appended (K.written sink.old) written)
        × Noted (T.readings clock.old) (T.readings clock.new) readings
        × (session : IsSessionBy http (terms_of C.base C.mirror (C.facts client.old) settings.now) (C.whole client.old) (C.pass client.old)
        (record {
          taken = taken;
          written = written;
          readings = readings;
          read_fault = Rose (S.faults source.old) (S.faults source.new);
          write_fault = Rose (K.faults sink.old) (K.faults sink.new);
          left = S.left source.new;
        }) (C.pass client.new) result) × ((C.facts client.new).did ≡ acted_by session.exchanges (C.facts client.old).did) }

    // The client watches nothing. It may have been told of times: one that was told of all that the clock showed before
    // is told of all that it shows.
    ensures facts { Rests (C.facts client.old) (C.facts client.new) }
    ensures heard { T.last clock.old ≤ (C.facts client.old).heard → T.last clock.new ≤ (C.facts client.new).heard }
    ensures kept { C.whole client.old → UnlessMemory result (C.whole client.new) }

    // Nothing is held back, and no count of faults rose but the one that the end names.
    ensures settled { K.settled sink.old → UnlessBroken result (K.settled sink.new) }
    ensures quiet_source { UnlessReadFault result (S.faults source.new ≡ S.faults source.old) }
    ensures quiet_sink { UnlessWriteFault result (K.faults sink.new ≡ K.faults sink.old) }
{
    let Ok(mut reader) = Reader::new(alloc) else {
        return SessionEnd::Memory;
    };
    for answered in 0..settings.requests {
        match round(
            alloc,
            client,
            &mut reader,
            source,
            sink,
            clock,
            answered,
            settings,
        ) {
            None => {}
            Some(end) => return end,
        }
    }
    SessionEnd::TooMany
}

// Reads one request and answers it. Answers how the session ended, where it did.
fn round<C: Client, S: Source, K: Sink, T: Clock>(
    alloc: Global,
    client: &mut C,
    reader: &mut Reader,
    source: &mut S,
    sink: &mut K,
    clock: &mut T,
    answered: u64,
    settings: &Settings,
) -> Option<SessionEnd>
    requires idle { (C.facts client.old).watching ≡ None }
    requires settings { AreInRange settings.now }
    requires reading { reader.old.refusal ≡ None }
    requires settled { 0 < answered → K.settled sink.old }
    ensures round { IsRound (λ req. Unit {0}) (terms_of C.base C.mirror (C.facts client.old) settings.now) (C.whole client.old)
        (account_of (C.pass client.old) (C.facts client.old).did) reader.old.kept reader.new.kept
        (record { left = S.left source.old; written = K.written sink.old; readings = T.readings clock.old })
        (record { left = S.left source.new; written = K.written sink.new; readings = T.readings clock.new })
        (Rose (S.faults source.old) (S.faults source.new)) (Rose (K.faults sink.old) (K.faults sink.new))
        (account_of (C.pass client.new) (C.facts client.new).did) result }
    ensures facts { Rests (C.facts client.old) (C.facts client.new) }
    ensures heard { T.last clock.old ≤ (C.facts client.old).heard → T.last clock.new ≤ (C.facts client.new).heard }
    ensures kept { C.whole client.old → OrEnd UnlessMemory result (C.whole client.new) }
    ensures reading { OnNone result (reader.new.refusal ≡ None) }
    ensures flushed { OnNone result (K.settled sink.new) }
    ensures settled { K.settled sink.old → OrEnd UnlessBroken result (K.settled sink.new) }
    ensures quiet_source { OrEnd UnlessReadFault result (S.faults source.new ≡ S.faults source.old) }
    ensures quiet_sink { OrEnd UnlessWriteFault result (K.faults sink.new ≡ K.faults sink.old) }
{
    match next_request(reader, source, sink, answered) {
        Ok(Some(req)) => {
            let came = answer(alloc, client, sink, clock, &req, settings);
            end_after(came, req.close)
        }
        Ok(None) => Some(SessionEnd::Done),
        Err(fault) => {
            tell_refused(client, "", request_code(fault));
            Some(stop(alloc, sink, fault))
        }
    }
}

/// Reads the next request. The source is read here alone: what was written is sent on before, and nothing is read while
/// a request stands whole in what was read.
pub fn next_request<S: Source, K: Sink>(
    reader: &mut Reader,
    source: &mut S,
    sink: &K,
    answered: u64,
) -> Result<Option<Req>, ReqNo>
    requires reading { reader.old.refusal ≡ None }
    requires settled { 0 < answered → K.settled sink.now }
    ensures reads { AnswersNext reader.old reader.new (S.left source.old) (S.left source.new)
        (S.faults source.old) (S.faults source.new) result }
    ensures idle { (IsUnfinished reader.old.kept → ⊥) → source.new ≡ source.old }
    ensures quiet { UnlessFault result (S.faults source.new ≡ S.faults source.old) }
{
    let _ = sink;
    let _ = answered;
    reader.next_request(source)
}

/// How the session goes on after a request.
pub fn end_after(came: Result<Option<WatchEnd>, Broken>, close: bool) -> Option<SessionEnd>
    ensures { result ≡ serving.end_after came close }
{
    match came {
        Ok(None) => end_by_reply(close),
        Ok(Some(how)) => Some(SessionEnd::Watched(how)),
        Err(Broken::Fault) => Some(SessionEnd::WriteFault),
        Err(Broken::Memory) => Some(SessionEnd::Memory),
    }
}

fn end_by_reply(close: bool) -> Option<SessionEnd>
    ensures { result ≡ serving.end_by_reply close }
{
    if close { Some(SessionEnd::Done) } else { None }
}

/// Ends the session, since no request was read: bytes that are no request are told so.
pub fn stop<K: Sink>(alloc: Global, sink: &mut K, fault: ReqNo) -> SessionEnd
    ensures { IsStopped fault (sent_through K.written K.settled K.faults sink.old sink.new) result }
{
    match fault {
        ReqNo::CutShort => SessionEnd::CutShort,
        ReqNo::ReadFault => SessionEnd::ReadFault,
        ReqNo::Memory => SessionEnd::Memory,
        _ => end_of_refusal(fault, send_request_refusal(alloc, sink, fault)),
    }
}

// How the session ends with the reply to what is no request.
fn end_of_refusal(fault: ReqNo, sent: Result<(), Broken>) -> SessionEnd
    ensures { result ≡ serving.end_of_refusal fault sent }
{
    match sent {
        Ok(()) => SessionEnd::Refused(fault),
        Err(Broken::Fault) => SessionEnd::WriteFault,
        Err(Broken::Memory) => SessionEnd::Memory,
    }
}
