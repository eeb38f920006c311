//! One session over three logs: each request is answered by the client of its resource.

ghost use Rattle.std.specs.Prelude.{◌≡◌, ◌<◌, ℕ, List, None, Option};
ghost use Rattle.edge_io.specs.Counts.{Rose};
ghost use Rattle.edge_io.specs.Told.{prepended, appended, Noted};
ghost use Rattle.edge_io.specs.declared.clock.Reading.{Reading as ReadingData};
ghost use Rattle.edge_io.specs.Sent.{sent_through};
ghost use Rattle.client_api.specs.Facts.{Rests};
ghost use Rattle.sess_turns.specs.Streams.{outside_of};
ghost use Rattle.up_api.specs.Settings.{AreInRange};
ghost use Rattle.sess_serve.specs.Each.{IsEachSessionBy, strand_of, strands};
ghost use Rattle.sess_serve.specs.EachServing.{AnsweredByOne, IsEachRound};
ghost use Rattle.sess_serve.specs.Http.{http};
ghost use Rattle.sess_serve.specs.Ends.{UnlessReadFault, UnlessWriteFault, UnlessMemory, UnlessBroken};
ghost use Rattle.sess_serve.specs.Serving as serving;
ghost use Rattle.sess_serve.specs.Serving.{OnNone, OrEnd};

use crate::answer::answer;
use crate::ends::SessionEnd;
use crate::refused::tell_refused;
use crate::resources::resource_of;
use crate::serve::{end_after, next_request, stop};
use api_errors::request_code;
use client_api::Client;
use edge_io::{Clock, Sink, Source};
use http_read::{Reader, Req};
use kube_meta::Resource;
use sess_reply::Broken;
use sess_turns::WatchEnd;
use std::alloc::Global;
use up_api::Settings;

/// A client for each resource, each of a log of its own.
#[derive(Drop)]
pub struct EachClient<P, M, D> {
    /// That of the pods, which answers what is of no resource too.
    pub pods: P,
    /// That of the config maps.
    pub config_maps: M,
    /// That of the deployments.
    pub deployments: D,
}

/// Serves one connection as `serve_session` does, where each resource has a log of its own: a request is answered by
/// the client of its resource; one that has none (discovery, probes, metrics, no such path), and bytes that are no
/// request, by the pods'.
pub fn serve_each<P: Client, M: Client, D: Client, S: Source, K: Sink, T: Clock>(
    alloc: Global,
    clients: &mut EachClient<P, M, D>,
    source: &mut S,
    sink: &mut K,
    clock: &mut T,
    settings: &Settings,
) -> SessionEnd
    requires idle_pods { (P.facts clients.old.pods).watching ≡ None }
    requires idle_config_maps { (M.facts clients.old.config_maps).watching ≡ None }
    requires idle_deployments { (D.facts clients.old.deployments).watching ≡ None }
    requires settings { AreInRange settings.now }

    // From bytes to bytes, as a session over one log, with a strand of it on each log.
    ensures session { (taken : List ℕ) × (written : List ℕ) × (readings : List ReadingData)
        × (S.left source.old ≡ prepended taken (S.left source.new))
        × (K.written sink.new ≡ appended (K.written sink.old) written)
        × Noted (T.readings clock.old) (T.readings clock.new) readings
        × IsEachSessionBy http
        (strands
        (strand_of settings.now P.base P.mirror (P.facts clients.old.pods) (P.whole clients.old.pods)
        (P.pass clients.old.pods) (P.pass clients.new.pods))
        (strand_of settings.now M.base M.mirror (M.facts clients.old.config_maps) (M.whole clients.old.config_maps)
        (M.pass clients.old.config_maps) (M.pass clients.new.config_maps))
        (strand_of settings.now D.base D.mirror (D.facts clients.old.deployments) (D.whole clients.old.deployments)
        (D.pass clients.old.deployments) (D.pass clients.new.deployments)))
        (record {
          taken = taken;
          written = written;
          readings = readings;
          read_fault = Rose (S.faults source.old) (S.faults source.new);
          write_fault = Rose (K.faults sink.old) (K.faults sink.new);
          left = S.left source.new;
        }) result }

    // No client watches anything. Each may have been told of times.
    ensures facts_pods { Rests (P.facts clients.old.pods) (P.facts clients.new.pods) }
    ensures facts_config_maps { Rests (M.facts clients.old.config_maps) (M.facts clients.new.config_maps) }
    ensures facts_deployments { Rests (D.facts clients.old.deployments) (D.facts clients.new.deployments) }
    ensures kept_pods { P.whole clients.old.pods → UnlessMemory result (P.whole clients.new.pods) }
    ensures kept_config_maps { M.whole clients.old.config_maps → UnlessMemory result (M.whole clients.new.config_maps) }
    ensures kept_deployments { D.whole clients.old.deployments → UnlessMemory result (D.whole clients.new.deployments) }

    // Nothing is held back, and no count of faults rose but the one that the end names.
    ensures settled { K.settled sink.old → UnlessBroken result (K.settled sink.new) }
    ensures quiet_source { UnlessReadFault result (S.faults source.new ≡ S.faults source.old) }
    ensures quiet_sink { UnlessWriteFault result (K.faults sink.new ≡ K.faults sink.old) }
{
    let Ok(mut reader) = Reader::new(alloc) else {
        return SessionEnd::Memory;
    };
    for answered in 0..settings.requests {
        match round_each(
            alloc,
            clients,
            &mut reader,
            source,
            sink,
            clock,
            answered,
            settings,
        ) {
            None => {}
            Some(end) => return end,
        }
    }
    SessionEnd::TooMany
}

// Reads one request and answers it by the client of its resource. Answers how the session ended, where it did.
fn round_each<P: Client, M: Client, D: Client, S: Source, K: Sink, T: Clock>(
    alloc: Global,
    clients: &mut EachClient<P, M, D>,
    reader: &mut Reader,
    source: &mut S,
    sink: &mut K,
    clock: &mut T,
    answered: u64,
    settings: &Settings,
) -> Option<SessionEnd>
    requires idle_pods { (P.facts clients.old.pods).watching ≡ None }
    requires idle_config_maps { (M.facts clients.old.config_maps).watching ≡ None }
    requires idle_deployments { (D.facts clients.old.deployments).watching ≡ None }
    requires settings { AreInRange settings.now }
    requires reading { reader.old.refusal ≡ None }
    requires settled { 0 < answered → K.settled sink.old }
    ensures round { IsEachRound
        (strands
        (strand_of settings.now P.base P.mirror (P.facts clients.old.pods) (P.whole clients.old.pods)
        (P.pass clients.old.pods) (P.pass clients.new.pods))
        (strand_of settings.now M.base M.mirror (M.facts clients.old.config_maps) (M.whole clients.old.config_maps)
        (M.pass clients.old.config_maps) (M.pass clients.new.config_maps))
        (strand_of settings.now D.base D.mirror (D.facts clients.old.deployments) (D.whole clients.old.deployments)
        (D.pass clients.old.deployments) (D.pass clients.new.deployments)))
        reader.old.kept reader.new.kept
        (record { left = S.left source.old; written = K.written sink.old; readings = T.readings clock.old })
        (record { left = S.left source.new; written = K.written sink.new; readings = T.readings clock.new })
        (Rose (S.faults source.old) (S.faults source.new)) (Rose (K.faults sink.old) (K.faults sink.new)) result }
    ensures facts_pods { Rests (P.facts clients.old.pods) (P.facts clients.new.pods) }
    ensures facts_config_maps { Rests (M.facts clients.old.config_maps) (M.facts clients.new.config_maps) }
    ensures facts_deployments { Rests (D.facts clients.old.deployments) (D.facts clients.new.deployments) }
    ensures kept_pods { P.whole clients.old.pods → OrEnd UnlessMemory result (P.whole clients.new.pods) }
    ensures kept_config_maps { M.whole clients.old.config_maps → OrEnd UnlessMemory result (M.whole clients.new.config_maps) }
    ensures kept_deployments { D.whole clients.old.deployments → OrEnd UnlessMemory result (D.whole clients.new.deployments) }
    ensures reading { OnNone result (reader.new.refusal ≡ None) }
    ensures flushed { OnNone result (K.settled sink.new) }
    ensures settled { K.settled sink.old → OrEnd UnlessBroken result (K.settled sink.new) }
    ensures quiet_source { OrEnd UnlessReadFault result (S.faults source.new ≡ S.faults source.old) }
    ensures quiet_sink { OrEnd UnlessWriteFault result (K.faults sink.new ≡ K.faults sink.old) }
{
    match next_request(reader, source, sink, answered) {
        Ok(Some(req)) => {
            let came = answer_each(alloc, clients, sink, clock, &req, settings);
            end_after(came, req.close)
        }
        Ok(None) => Some(SessionEnd::Done),
        Err(fault) => {
            tell_refused(&mut clients.pods, "", request_code(fault));
            Some(stop(alloc, sink, fault))
        }
    }
}

// Answers a request by the client of its resource. The others aren't asked.
fn answer_each<P: Client, M: Client, D: Client, K: Sink, T: Clock>(
    alloc: Global,
    clients: &mut EachClient<P, M, D>,
    sink: &mut K,
    clock: &mut T,
    req: &Req,
    settings: &Settings,
) -> Result<Option<WatchEnd>, Broken>
    requires idle_pods { (P.facts clients.old.pods).watching ≡ None }
    requires idle_config_maps { (M.facts clients.old.config_maps).watching ≡ None }
    requires idle_deployments { (D.facts clients.old.deployments).watching ≡ None }
    requires settings { AreInRange settings.now }
    ensures answered { AnsweredByOne
        (strands
        (strand_of settings.now P.base P.mirror (P.facts clients.old.pods) (P.whole clients.old.pods)
        (P.pass clients.old.pods) (P.pass clients.new.pods))
        (strand_of settings.now M.base M.mirror (M.facts clients.old.config_maps) (M.whole clients.old.config_maps)
        (M.pass clients.old.config_maps) (M.pass clients.new.config_maps))
        (strand_of settings.now D.base D.mirror (D.facts clients.old.deployments) (D.whole clients.old.deployments)
        (D.pass clients.old.deployments) (D.pass clients.new.deployments)))
        req.now (outside_of T.readings clock.old clock.new (sent_through K.written K.settled K.faults sink.old sink.new)) result }
    ensures facts_pods { Rests (P.facts clients.old.pods) (P.facts clients.new.pods) }
    ensures facts_config_maps { Rests (M.facts clients.old.config_maps) (M.facts clients.new.config_maps) }
    ensures facts_deployments { Rests (D.facts clients.old.deployments) (D.facts clients.new.deployments) }
    ensures kept_pods { P.whole clients.old.pods → serving.UnlessMemory result (P.whole clients.new.pods) }
    ensures kept_config_maps { M.whole clients.old.config_maps → serving.UnlessMemory result (M.whole clients.new.config_maps) }
    ensures kept_deployments { D.whole clients.old.deployments → serving.UnlessMemory result (D.whole clients.new.deployments) }
{
    match resource_of(req) {
        Resource::Pods => answer(alloc, &mut clients.pods, sink, clock, req, settings),
        Resource::ConfigMaps => answer(alloc, &mut clients.config_maps, sink, clock, req, settings),
        Resource::Deployments => answer(
            alloc,
            &mut clients.deployments,
            sink,
            clock,
            req,
            settings,
        ),
    }
}
