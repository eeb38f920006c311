//! An accepted connection. Nothing else is here, so that nothing else has its ends.

ghost use Rattle.std.specs.Prelude.{◌≡◌, ◌+◌, ◌<◌, ◌^◌, true, None, IsSome, IfOk, IfNone, IfSome};
ghost use Rattle.edge_io.specs.Net.{handed_out, failures};
ghost use Rattle.net_front.specs.Probes.{facts_at, facts_in_each};
ghost use Rattle.net_front.specs.Visits.{IsEachVisit, IsVisit, visit_ends};
ghost use Rattle.rev_front.specs.Passes.{Pass};
ghost use Rattle.rev_log.specs.Changes.{RevisionData};
ghost use Rattle.sess_serve.specs.Each.{strand_of, strands};
ghost use Rattle.sess_turns.specs.Terms.{terms_of};
ghost use Rattle.up_api.specs.Settings.{AreInRange};

use crate::clock::RungClock;
use crate::ringing::RingingClient;
use crate::schedule::Schedule;
use crate::shared::Desk;
use bells::{Bell, Rung};
use client_api::Client;
use edge_io::{Failed, Listener};
use kube_meta::Resource;
use sess_serve::{EachClient, SessionEnd, serve_each, serve_session};
use std::alloc::{AllocError, Global};
use std::sync::{Arc, Wait};
use up_api::Settings;

/// An accepted connection, which is owed a session in its settings. It can't be let go: whoever has it can only have it
/// served.
// So it is no `Drop`, and must not become one: that is what refuses a body that forgets one, overwrites it, or leaves
// by `?` while it holds one.
pub struct Visitor<L: Listener> {
    source: L::S,
    sink: L::K,
    clock: L::T,
    settings: Settings,
    ghost ranged: { AreInRange settings },
}

/// Waits for the next connection of a listener, whose session is to be set so.
pub fn accepted<L: Listener>(
    listener: &mut L,
    settings: Settings,
) -> Result<Option<Visitor<L>>, Failed>
    requires ranged { AreInRange settings }
    requires room { L.given listener.old < 2 ^ 62 }
    requires few_faults { L.faults listener.old < 2 ^ 62 }
    ensures given { L.given listener.new ≡ L.given listener.old + handed_out result }
    ensures faults { L.faults listener.new ≡ L.faults listener.old + failures result }
    ensures none { IfOk result (λ visitor. IfNone visitor (L.over listener.new)) }
    ensures settings { IfOk result (λ visitor. IfSome visitor (λ visitor. visitor.settings ≡ settings)) }
{
    match listener.accept() {
        Ok(Some((source, sink, clock))) => Ok(Some(Visitor {
            source,
            sink,
            clock,
            settings,
        })),
        Ok(None) => Ok(None),
        Err(Failed) => Err(Failed),
    }
}

impl<L: Listener> Visitor<L>
where
    L::T: Rung,
{
    /// The bell at which its clock rests, twice: the clock's own, or else a new one. None where there is no memory for
    /// it.
    pub fn bells(&self, alloc: Global) -> (Option<Arc<Bell, Global>>, Option<Arc<Bell, Global>>) {
        match self.two_bells(alloc) {
            Ok((heard, rung)) => (Some(heard), Some(rung)),
            Err(_) => (None, None),
        }
    }

    fn two_bells(
        &self,
        alloc: Global,
    ) -> Result<(Arc<Bell, Global>, Arc<Bell, Global>), AllocError> {
        let bell = match self.clock.bell() {
            Some(bell) => Arc::try_clone(bell)?,
            None => Arc::new(alloc, Bell::new())?,
        };
        let again = Arc::try_clone(&bell)?;
        Ok((bell, again))
    }

    /// Serves it by a session over this client, in its settings, counts that, and gives its source and its sink back.
    /// `bell` is what is rung for the client's watch. Only a mirror's log has a peer that is followed.
    pub fn serve<C: Client + Drop, R: Wait>(
        self,
        rt: &R,
        alloc: Global,
        client: C,
        bell: Option<Arc<Bell, Global>>,
        desk: &Desk,
        sessions: &mut u64,
    ) -> (SessionEnd, L::S, L::K)
        requires idle { (C.facts client).watching ≡ None }
        requires mirrored { IsSome desk.now.followed → C.mirror ≡ true }
        requires room { sessions.old < 2 ^ 63 }
        ensures session { IsVisit (terms_of C.base C.mirror (facts_at desk.now.followed (C.facts client)) self.settings)
            (C.whole client) (C.pass client)
            (visit_ends (L.S.left self.source) (L.S.faults self.source) (L.K.written self.sink) (L.K.faults self.sink))
            (visit_ends (L.S.left result.1) (L.S.faults result.1) (L.K.written result.2) (L.K.faults result.2))
            result.0 }
        ensures counted { sessions.new ≡ sessions.old + 1 }
    {
        let Visitor {
            mut source,
            mut sink,
            clock,
            settings,
        } = self;
        *sessions += 1;
        desk.counts.opened();
        let place = desk.disconnects.enter(rt, bell.as_ref());
        let schedule = Schedule::new(settings);
        let mut client = RingingClient::new(client, desk, &schedule);
        let mut clock = RungClock::new(
            clock,
            rt,
            bell,
            &desk.doorbell,
            &desk.disconnects,
            &schedule,
        );
        let end = serve_session(
            alloc,
            &mut client,
            &mut source,
            &mut sink,
            &mut clock,
            &settings,
        );
        desk.disconnects.leave(rt, place);
        desk.counts.closed();
        (end, source, sink)
    }

    /// The same, over a client for each resource, each of a log of its own. No operation is taken.
    pub fn serve_each<P: Client + Drop, M: Client + Drop, D: Client + Drop, R: Wait>(
        self,
        rt: &R,
        alloc: Global,
        clients: EachClient<P, M, D>,
        bell: Option<Arc<Bell, Global>>,
        desk: &Desk,
        sessions: &mut u64,
    ) -> (SessionEnd, L::S, L::K)
        requires idle_pods { (P.facts clients.pods).watching ≡ None }
        requires idle_config_maps { (M.facts clients.config_maps).watching ≡ None }
        requires idle_deployments { (D.facts clients.deployments).watching ≡ None }
        requires mirrored { IsSome desk.now.followed → P.mirror ≡ true }
        requires mirrored_config_maps { IsSome desk.now.followed → M.mirror ≡ true }
        requires mirrored_deployments { IsSome desk.now.followed → D.mirror ≡ true }
        requires room { sessions.old < 2 ^ 63 }
        ensures session { IsEachVisit (λ (p m d : Pass RevisionData). strands
            (strand_of self.settings P.base P.mirror (facts_in_each desk.now.followed (P.facts clients.pods)) (P.whole clients.pods) (P.pass clients.pods) p)
            (strand_of self.settings M.base M.mirror (facts_in_each desk.now.followed (M.facts clients.config_maps)) (M.whole clients.config_maps) (M.pass clients.config_maps) m)
            (strand_of self.settings D.base D.mirror (facts_in_each desk.now.followed (D.facts clients.deployments)) (D.whole clients.deployments) (D.pass clients.deployments) d))
            (visit_ends (L.S.left self.source) (L.S.faults self.source) (L.K.written self.sink) (L.K.faults self.sink))
            (visit_ends (L.S.left result.1) (L.S.faults result.1) (L.K.written result.2) (L.K.faults result.2))
            result.0 }
        ensures counted { sessions.new ≡ sessions.old + 1 }
    {
        let Visitor {
            mut source,
            mut sink,
            clock,
            settings,
        } = self;
        *sessions += 1;
        desk.counts.opened();
        let place = desk.disconnects.enter(rt, bell.as_ref());
        let rests = Schedule::new(settings);
        let EachClient {
            pods,
            config_maps,
            deployments,
        } = clients;
        let mut clients = EachClient {
            pods: RingingClient::new(pods, desk, &rests).of(Resource::Pods),
            config_maps: RingingClient::new(config_maps, desk, &rests).of(Resource::ConfigMaps),
            deployments: RingingClient::new(deployments, desk, &rests).of(Resource::Deployments),
        };
        let mut clock = RungClock::new(clock, rt, bell, &desk.doorbell, &desk.disconnects, &rests);
        let how = serve_each(
            alloc,
            &mut clients,
            &mut source,
            &mut sink,
            &mut clock,
            &settings,
        );
        desk.disconnects.leave(rt, place);
        desk.counts.closed();
        (how, source, sink)
    }
}
