//! What a client of a log promises.

ghost use Rattle.std.specs.Prelude.{◌≡◌, ◌≤◌, ℕ, max, Bool, true, false, List, Option, None, IsSome, OnOk, IsSomeAnd, IfSome};
ghost use Rattle.kube_meta.specs.Rows.{RowData};
ghost use Rattle.kube_meta.specs.declared.resources.Resource.{Resource};
ghost use Rattle.rev_front.specs.Passes.{Pass};
ghost use Rattle.rev_log.specs.Changes.{RevisionData};
ghost use Rattle.up_store.specs.Replies.{IsWriteReply, IsTransactionReply, IsOperationReply};
ghost use Rattle.up_store.specs.Stores.{commanded, paid};
ghost use Rattle.up_store.specs.Transacting.{answers_in};
ghost use Rattle.client_api.specs.Alone.{SoleRead, SoleTake, SoleWrite, SoleTransact, SoleOperate};
ghost use Rattle.client_api.specs.Caches.{ListsCache, GetsCache, BeginsCache, TakesCache};
ghost use Rattle.client_api.specs.Facts.{Facts, Cached, IsOnward, ticked};
ghost use Rattle.client_api.specs.Gets.{IsGetAnswer};
ghost use Rattle.client_api.specs.Lists.{IsListAnswer};
ghost use Rattle.client_api.specs.Metered.{AreMetricsAnswered};
ghost use Rattle.client_api.specs.Starts.{IsWatchAnswer, begun_watch};
ghost use Rattle.client_api.specs.Told.{IsToldRead, IsToldWrite, IsToldTx, IsToldOperation};
ghost use Rattle.client_api.specs.Turns.{IsTurnAnswer, watch_left};

use crate::answers::{Begun, Got, ListNo, Listed, Took};
use crate::resources::Resources;
use kube_meta::Memory;
use list_rules::{GetAsk, ListAsk};
use metrics::Metrics;
use up_store::{OpNo, Operate, Transaction, TxWriteNo, WriteAsk, WriteNo, Written};
use watch_rules::WatchAsk;

/// A client of one log of revisions. After each call it knows no less of the log than before. A refusal changes
/// nothing beside what it knows and what is cached.
pub trait Client {
    // the pods that stood at the log's first revision
    ghost base: { List RowData };

    // whether the log is a mirror's, which takes its revisions from a peer alone
    ghost mirror: { Bool };

    // what the client knows of the log
    ghost pass: { Self → Pass RevisionData };

    // its watch, what of the log is its own doing, and what else no call changes
    ghost facts: { Self → Facts };

    // nobody else holds the log, and the pass knows it whole: its end, which is all that was shown, its floor and its
    // generation
    ghost whole: { Self → Type 0 };

    // of a log that nobody else holds: how often its store was read, and how far the caches are
    ghost cached: { Self → Cached };

    // the greatest time that the cache of each resource was told, where there is a cache
    ghost times: { Self → Resource → Option ℕ };

    /// Asks for a write. An accepted one adds exactly its change to the log, at a revision of its own, and nothing else
    /// adds one: not a refused one, nor any of the calls below but `transact`.
    fn write(&mut self, ask: &WriteAsk) -> Result<Written, WriteNo>
        ensures onward { IsOnward (pass self.old) (pass self.new) }
        ensures answer { IsWriteReply base mirror (pass self.old) ask.now result (pass self.new) }
        ensures facts { facts self.new ≡ record (facts self.old) { did = paid result (facts self.old).did } }
        ensures times { times self.new ≡ times self.old }
        ensures sole { whole self.old → IsSomeAnd (facts self.old).sole_history
            (λ history. SoleWrite base mirror history (pass self.old) ask.now result (pass self.new)) }
        ensures kept { whole self.old → IsToldWrite result → whole self.new }
        ensures reads { whole self.old → (cached self.new).reads ≡ (cached self.old).reads };

    /// Asks for several writes at one revision: all of them are done, or none.
    fn transact(&mut self, ask: &Transaction) -> Result<Vec<Written>, TxWriteNo>
        ensures onward { IsOnward (pass self.old) (pass self.new) }
        ensures answer { IsTransactionReply base mirror (pass self.old) ask.now (answers_in result) (pass self.new) }
        ensures facts { facts self.new ≡ record (facts self.old) { did = paid result (facts self.old).did } }
        ensures times { times self.new ≡ times self.old }
        ensures sole { whole self.old → IsSomeAnd (facts self.old).sole_history
            (λ history. SoleTransact base mirror history (pass self.old) ask.now (answers_in result) (pass self.new)) }
        ensures kept { whole self.old → IsToldTx result → whole self.new }
        ensures reads { whole self.old → (cached self.new).reads ≡ (cached self.old).reads };

    /// One object, as it stands at a revision of the ask's meaning.
    fn get(&mut self, ask: &GetAsk) -> Result<Got, ListNo>
        ensures onward { IsOnward (pass self.old) (pass self.new) }
        ensures answer { IsGetAnswer base (pass self.old) ask.now result (pass self.new) }
        ensures facts { facts self.new ≡ facts self.old }
        ensures times { times self.new ≡ times self.old }
        ensures sole { whole self.old → SoleRead (pass self.old) result (pass self.new) }
        ensures kept { whole self.old → IsToldRead result → whole self.new }
        ensures cached { whole self.old →
            GetsCache ask.now (pass self.old).floor (cached self.old) result (cached self.new) };

    /// The objects of a selection, as they stand at a revision of the ask's meaning, or a page of them.
    fn list(&mut self, ask: &ListAsk) -> Result<Listed, ListNo>
        ensures onward { IsOnward (pass self.old) (pass self.new) }
        ensures answer { IsListAnswer base (pass self.old) ask.now result (pass self.new) }
        ensures facts { facts self.new ≡ facts self.old }
        ensures times { times self.new ≡ times self.old }
        ensures sole { whole self.old → SoleRead (pass self.old) result (pass self.new) }
        ensures kept { whole self.old → IsToldRead result → whole self.new }
        ensures cached { whole self.old →
            ListsCache ask.now (pass self.old).floor (cached self.old) result (cached self.new) };

    /// Begins a watch. Its turns follow by `take`.
    fn watch(&mut self, ask: &WatchAsk) -> Result<Begun, ListNo>
        requires idle { (facts self.old).watching ≡ None }
        ensures onward { IsOnward (pass self.old) (pass self.new) }
        ensures answer { IsWatchAnswer base (facts self.old).window (pass self.old) ask.now result (pass self.new) }
        ensures facts { facts self.new ≡ record (facts self.old) { watching = begun_watch ask.now result } }
        ensures times { times self.new ≡ times self.old }
        ensures sole { whole self.old → SoleRead (pass self.old) result (pass self.new) }
        ensures kept { whole self.old → IsToldRead result → whole self.new }
        ensures cached { whole self.old →
            BeginsCache ask.now (pass self.old).floor (cached self.old) result (cached self.new) };

    /// One turn of the watch, of about `max` lines at most. A loss ends the watch.
    fn take(&mut self, max: usize) -> Result<Took, Memory>
        requires watching { IsSome (facts self.old).watching }
        requires max { 1 ≤ max }
        ensures onward { IsOnward (pass self.old) (pass self.new) }
        ensures answer { IsTurnAnswer base (facts self.old).window (pass self.old) (facts self.old).watching result
            (pass self.new) }
        ensures facts { facts self.new ≡
            record (facts self.old) { watching = watch_left result (facts self.old).watching } }
        ensures times { times self.new ≡ times self.old }
        ensures sole { whole self.old → SoleTake (pass self.old) result (pass self.new) }
        ensures kept { whole self.old → OnOk result (whole self.new) }
        ensures cached { whole self.old → IfSome (facts self.old).watching
            (λ watched. TakesCache watched (pass self.old).floor (cached self.old) result (cached self.new)) };

    /// Ends the watch, if there is one.
    fn end_watch(&mut self)
        ensures pass { pass self.new ≡ pass self.old }
        ensures facts { facts self.new ≡ record (facts self.old) { watching = None } }
        ensures times { times self.new ≡ times self.old }
        ensures whole { whole self.old → whole self.new }
        ensures cached { cached self.new ≡ cached self.old };

    /// Does an operation on the log and its server.
    fn operate(&mut self, ask: Operate) -> Result<u64, OpNo>
        ensures onward { IsOnward (pass self.old) (pass self.new) }
        ensures answer { IsOperationReply (pass self.old) ask result (pass self.new) }
        ensures facts { facts self.new ≡ record (facts self.old) { did = commanded ask result (facts self.old).did } }
        ensures times { times self.new ≡ times self.old }
        ensures sole { whole self.old → SoleOperate (pass self.old) ask result (pass self.new) }
        ensures kept { whole self.old → IsToldOperation result → whole self.new };

    /// What a monitor is told of the log, its caches and what was served. No cache is brought further for it.
    fn metrics(&mut self) -> Result<Metrics, Memory>
        ensures onward { IsOnward (pass self.old) (pass self.new) }
        ensures answer { AreMetricsAnswered base (pass self.old) result (pass self.new) }
        ensures facts { facts self.new ≡ facts self.old }
        ensures times { times self.new ≡ times self.old }
        ensures sole { whole self.old → SoleTake (pass self.old) result (pass self.new) }
        ensures kept { whole self.old → OnOk result (whole self.new) }
        ensures cached { whole self.old → cached self.new ≡ cached self.old };

    /// Which resources its server has: all, or of a mirror those that it mirrors.
    fn resources(&self) -> Resources
        ensures { result ≡ (facts self.now).resources };

    /// Whether its server takes operations on its log. That of a cluster's replica takes none.
    fn is_operable(&self) -> bool
        ensures { result ≡ (facts self.now).operable };

    /// Whether the log is kept up to date. That of a mirror isn't while it has lost its peer; any other always is.
    fn is_ready(&self) -> bool
        ensures { mirror ≡ false → result ≡ true };

    /// Whether a supervisor should let the server run on. That of a mirror shouldn't once it has ended following its
    /// peer for good; any other always should.
    fn is_live(&self) -> bool
        ensures { mirror ≡ false → result ≡ true }
    {
        true
    }

    /// Is told that a request with this method, or bytes that are none, were refused with this HTTP status, before the
    /// client was asked anything. One that counts nothing needs to do nothing.
    fn refused(&mut self, method: &str, code: u16)
        ensures pass { pass self.new ≡ pass self.old }
        ensures facts { facts self.new ≡ facts self.old }
        ensures times { times self.new ≡ times self.old }
        ensures whole { whole self.old → whole self.new }
        ensures cached { cached self.new ≡ cached self.old }
    {
        let _ = method;
        let _ = code;
    }

    /// Is told a time, by which the age of events is judged.
    fn tick(&mut self, ms: u64)
        ensures pass { pass self.new ≡ pass self.old }
        ensures facts { facts self.new ≡ record (facts self.old) { heard = max (facts self.old).heard ms } }
        ensures times { times self.new ≡ ticked (facts self.old).watching ms (times self.old) }
        ensures whole { whole self.old → whole self.new }
        ensures cached { cached self.new ≡ cached self.old };
}
