//! The listener of a server, as its threads share it: who takes the next connection, and when no more are taken.

ghost use Rattle.std.specs.Prelude.{◌≡◌, ◌↔◌, ◌+◌, ◌<◌, ◌≤◌, ◌^◌, ℕ, IsTrue, IfNone, IfSome, if◌then◌else◌};
ghost use Rattle.net_front.specs.Ends.{MayEnd};
ghost use Rattle.up_api.specs.Settings.{AreInRange};

use crate::tally::Tally;
use crate::visitor::{Visitor, accepted};
use edge_io::Listener;
use std::marker::Brand;
use std::sync::ledger::{Book, Ledger, Share};
use up_api::Settings;

/// How many connections a listener is asked for at most, how their sessions are set, and the ledger in which they are
/// counted. Contracts alone know it; each call of a server picks it.
pub trait Limit: Ledger {
    ghost use Rattle.up_api.specs.declared.settings.Settings.{Settings};

    // the most connections
    ghost limit: { ℕ };

    // how each session is set
    ghost settings: { Settings };
}

impl Limit for Brand {
    ghost use Rattle.up_api.specs.Settings.{usual};

    ghost limit = { 0 };

    ghost settings = { usual };
}

/// What a server left behind: its listener, how many connections that gave, whether accepting failed, how many sessions
/// were run, where each thread told its own, and how all of them were set. A server alone makes one.
#[derive(Drop)]
pub struct Served<L> {
    pub listener: L,
    pub accepted: u64,
    pub faulted: bool,
    pub sessions: Option<u64>,
    pub(crate) settings: Settings,
}

impl<L> Served<L> {
    /// How each session was set.
    pub fn settings(&self) -> Settings
        ensures { result ≡ self.now.settings }
    {
        self.settings
    }
}

/// A listener that is asked for connections until it fails, is over, or gave as many as are wanted, each of which is
/// served in these settings.
#[derive(Drop)]
pub struct Intake<L: Listener, B: Limit> {
    listener: L,
    limit: u64,
    accepted: u64,
    faulted: bool,
    is_over: bool,
    settings: Settings,
    book: Book<B>,
    ghost wanted: { limit ≡ B.limit },
    ghost counted: { accepted ≡ L.given listener },
    ghost within: { accepted ≤ limit },
    ghost few: { limit ≤ 2 ^ 62 },
    ghost set: { settings ≡ B.settings },
    ghost ranged: { AreInRange settings },
    ghost booked: { accepted ≡ book.total },
    ghost failed: { L.faults listener ≡ (if faulted then 1 else 0) },
    ghost closed: { IsTrue is_over → ∥ L.over listener ∥₁ },
}

impl<L: Listener, B: Limit> Intake<L, B> {
    /// Nothing was given yet, and at most `limit` connections are wanted, for sessions that are set so.
    pub fn new(listener: L, limit: u64, settings: Settings, book: Book<B>) -> Intake<L, B>
        requires wanted { limit ≡ B.limit }
        requires set { settings ≡ B.settings }
        requires ranged { AreInRange settings }
        requires few { limit ≤ 2 ^ 62 }
        requires fresh { (L.given listener ≡ 0) × (L.faults listener ≡ 0) }
        requires blank { book.total ≡ 0 }
    {
        Intake {
            listener,
            limit,
            accepted: 0,
            faulted: false,
            is_over: false,
            settings,
            book,
        }
    }

    /// Waits for the next connection, and notes it in the share of whoever takes it. `None` comes only where the server
    /// may end, and then always.
    pub fn next(&mut self, mine: &mut Share<B>) -> Option<Visitor<L>>
        requires backed { 0 < mine.old.parts }
        ensures none { IfNone result
            (MayEnd (L.over self.new.listener) (L.faults self.new.listener) (L.given self.new.listener) B.limit) }
        ensures some { IfSome result (λ _. L.given self.new.listener ≡ L.given self.old.listener + 1) }
        ensures settings { IfSome result (λ visitor. visitor.settings ≡ B.settings) }
        ensures parts { mine.new.parts ≡ mine.old.parts }
        ensures noted { IfSome result (λ _. mine.new.amount ≡ mine.old.amount + 1) }
        ensures few { IfSome result (λ _. mine.new.amount ≤ 2 ^ 62) }
        ensures same { IfNone result (mine.new.amount ≡ mine.old.amount) }
    {
        if self.is_over || self.faulted || self.accepted >= self.limit {
            return None;
        }
        match accepted(&mut self.listener, self.settings) {
            Ok(Some(visitor)) => {
                self.accepted += 1;
                self.book.add(mine, 1);
                self.book.audit(mine);
                Some(visitor)
            }
            Ok(None) => {
                self.is_over = true;
                None
            }
            Err(_) => {
                self.faulted = true;
                None
            }
        }
    }

    /// Whether no more connections are taken.
    pub fn may_end(&self) -> bool
        ensures { IsTrue result →
            MayEnd (L.over self.now.listener) (L.faults self.now.listener) (L.given self.now.listener) B.limit }
    {
        self.is_over || self.faulted || self.limit <= self.accepted
    }

    /// The listener, with what is known of it. The sessions are told where all parts of the ledger are in `tally`.
    pub fn end(mut self, mut tally: Tally<B>, parts: u64) -> Served<L>
        requires parts { parts ≡ B.parts }
        ensures listener { result.listener ≡ self.listener }
        ensures accepted { result.accepted ≡ L.given result.listener }
        ensures within { result.accepted ≤ B.limit }
        ensures faulted { IsTrue result.faulted ↔ (0 < L.faults result.listener) }
        ensures sessions { IfSome result.sessions (λ sessions. sessions ≡ result.accepted) }
        ensures settings { result.settings ≡ B.settings }
    {
        let sessions = tally.sessions_of(&mut self.book, parts);
        Served {
            listener: self.listener,
            accepted: self.accepted,
            faulted: self.faulted,
            sessions,
            settings: self.settings,
        }
    }
}
