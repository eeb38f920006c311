//! How many sessions a thread served.

ghost use Rattle.std.specs.Prelude.{◌≡◌, ◌<◌, IfSome};

use crate::caches::Others;
use crate::intake::{Intake, Limit};
use crate::serving::serve_over;
use crate::shared::Front;
use bells::{Bell, Rung};
use edge_io::Listener;
use kube_meta::Memory;
use sess_serve::EachClient;
use std::sync::ledger::{Book, Share};
use std::sync::{Arc, Mutex, Wait};
use up_api::LogFacts;

/// How many sessions were run by those whose parts are here. It is as many as they accepted connections.
#[derive(Drop)]
pub struct Tally<B: Limit> {
    share: Share<B>,
    parts: u64,
    sessions: u64,
    ghost held: { parts ≡ share.parts },
    ghost some: { 0 < parts },
    ghost each: { sessions ≡ share.amount },
}

impl<B: Limit> Tally<B> {
    /// No session was run yet.
    pub fn new(share: Share<B>, parts: u64) -> Tally<B>
        requires held { parts ≡ share.parts }
        requires some { 0 < parts }
        requires none { share.amount ≡ 0 }
    {
        Tally {
            share,
            parts,
            sessions: 0,
        }
    }

    /// A part for another thread, unless this is the last.
    pub fn split(&mut self) -> Option<Tally<B>> {
        if self.parts < 2 {
            return None;
        }
        let share = self.share.split_off(1, 0);
        self.parts -= 1;
        Some(Tally::new(share, 1))
    }

    /// Adds what another thread served. Where that can't be counted, its parts are lost.
    pub fn merge(&mut self, other: Tally<B>) {
        let Tally {
            share,
            parts,
            sessions,
        } = other;
        let (Some(parts), Some(sessions)) = (
            self.parts.checked_add(parts),
            self.sessions.checked_add(sessions),
        ) else {
            return;
        };
        self.share.merge(share);
        self.parts = parts;
        self.sessions = sessions;
    }

    /// Waits for the next connection, and serves it by a session. The lock is free meanwhile. False where none comes.
    /// Whoever calls it has entered the house, and waits no more when it returns.
    pub fn serve_next<L, P, M, D, R>(
        &mut self,
        front: &Front<'_, P, M, D, R>,
        intake: &Mutex<Intake<L, B>>,
    ) -> Result<bool, Memory>
    where
        L: Listener,
        L::T: Rung,
        P: LogFacts,
        M: LogFacts,
        D: LogFacts,
        R: Wait + Copy,
    {
        match front.others {
            Some(others) => self.serve_each(front, others, intake),
            None => self.serve_one(front, intake),
        }
    }

    // Over a client of the one log. This and the next have frames of their own, so that whoever serves one log doesn't
    // hold what serving each takes.
    #[inline(never)]
    fn serve_one<L, P, M, D, R>(
        &mut self,
        front: &Front<'_, P, M, D, R>,
        intake: &Mutex<Intake<L, B>>,
    ) -> Result<bool, Memory>
    where
        L: Listener,
        L::T: Rung,
        P: LogFacts,
        M: LogFacts,
        D: LogFacts,
        R: Wait + Copy,
    {
        let client = front.cacher.client()?;
        let next = intake.lock(front.rt).next(&mut self.share);
        front.house.takes();
        match next {
            Some(visitor) => {
                let (heard, rung) = visitor.bells(front.alloc);
                let _served = visitor.serve(
                    front.rt,
                    front.alloc,
                    client.heard_by(rung),
                    heard,
                    &front.desk,
                    &mut self.sessions,
                );
                Ok(true)
            }
            None => Ok(false),
        }
    }

    // Over a client of each log.
    #[inline(never)]
    fn serve_each<L, P, M, D, R>(
        &mut self,
        front: &Front<'_, P, M, D, R>,
        others: &Others<M, D, R>,
        intake: &Mutex<Intake<L, B>>,
    ) -> Result<bool, Memory>
    where
        L: Listener,
        L::T: Rung,
        P: LogFacts,
        M: LogFacts,
        D: LogFacts,
        R: Wait + Copy,
    {
        let pods = front.cacher.client()?;
        let config_maps = others.config_maps.client()?;
        let deployments = others.deployments.client()?;
        let next = intake.lock(front.rt).next(&mut self.share);
        front.house.takes();
        match next {
            Some(visitor) => {
                let (heard, rung) = visitor.bells(front.alloc);
                let (second, third) = (again(&rung), again(&rung));
                let clients = EachClient {
                    pods: pods.heard_by(rung),
                    config_maps: config_maps.heard_by(second),
                    deployments: deployments.heard_by(third),
                };
                serve_over(
                    visitor,
                    front.rt,
                    front.alloc,
                    clients,
                    heard,
                    &front.desk,
                    &mut self.sessions,
                );
                Ok(true)
            }
            None => Ok(false),
        }
    }

    /// How many sessions were run, where all parts are here: as many as are in the book.
    pub fn sessions_of(&mut self, book: &mut Book<B>, parts: u64) -> Option<u64>
        requires parts { parts ≡ B.parts }
        ensures sessions { IfSome result (λ sessions. sessions ≡ book.old.total) }
        ensures same { book.new.total ≡ book.old.total }
    {
        book.audit(&mut self.share);
        if self.parts == parts {
            Some(self.sessions)
        } else {
            None
        }
    }
}

// The same bell, where there is one and memory for it.
fn again(bell: &Option<Arc<Bell>>) -> Option<Arc<Bell>> {
    Arc::try_clone(bell.as_ref()?).ok()
}
