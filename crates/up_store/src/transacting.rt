//! Transactions: several writes that are accepted at one revision.

ghost use Rattle.std.specs.Prelude.{◌≡◌, ℕ, ◌⊎◌, ◌+◌, ◌<◌, ◌≤◌, ◌^◌, false, length, map, Some, IfOk, IfErr, OnOk};
ghost use Rattle.rev_front.specs.Passes.{Covers};
ghost use Rattle.rev_log.specs.Logs.{Log, end_of};
ghost use Rattle.up_api.specs.Sections.{Learns};
ghost use Rattle.up_store.specs.Kept.{Keeps, HasRoom};
ghost use Rattle.up_store.specs.Replies.{IsTransactionReply};
ghost use Rattle.up_store.specs.Stores.{KnowsAll, log_in, paid};
ghost use Rattle.up_store.specs.Transacting.{first_fault, tx_refusal_of, object_in, answers_in, AreWritten, IsTransactionAnswer, IsTxPrepared};
ghost use Rattle.up_store.specs.Transactions.{AreTransaction};
ghost use Rattle.up_store.specs.Writes.{change_of, new_object, IsWritten};

use crate::committing::commit;
use crate::kept::Kept;
use crate::revisions::SharedRevision;
use crate::store::{LAST, meet};
use crate::writing::{change, fault, object, share};
use crate::{Store, Transaction, TxWriteNo, WriteAsk, Written};
use kube_meta::{Memory, Obj, Row};
use rev_front::{Author, Pen};
use rev_log::{Change, Revision};
use std::alloc::Global;
use std::sync::Arc;
use up_api::{LogFacts, Pass};

impl<N: LogFacts> Store<N> {
    /// Makes a transaction: all its writes at one revision, or none of them. The answers stand in the order of the
    /// writes.
    pub fn transact(
        &mut self,
        ask: &Transaction,
        told: &mut Pass<N>,
        author: &mut Author<N>,
    ) -> Result<Vec<Written>, TxWriteNo>
        ensures covered { Covers self.old.whole told.old }
        ensures learns { Learns told.old told.new }
        ensures tells { KnowsAll self.new.whole told.new }
        ensures answer { IsTransactionAnswer N.base N.mirror self.old.history ask.now self.old.whole self.new.whole (answers_in result) }
        ensures reply { IsTransactionReply N.base N.mirror told.old ask.now (answers_in result) told.new }
        ensures author { author.new ≡ paid result author.old }
        ensures rest { self.new ≡ record self.old { whole = self.new.whole } }
    {
        let shared = share_all(self.alloc, ask.items());
        self.transact_shared(ask, shared, told, author)
    }

    /// Makes a transaction whose new objects are shared already, as by `share_all` before a lock is taken, if there was
    /// memory for that.
    pub fn transact_shared(
        &mut self,
        ask: &Transaction,
        shared: Result<Vec<Option<Arc<Obj>>>, Memory>,
        told: &mut Pass<N>,
        author: &mut Author<N>,
    ) -> Result<Vec<Written>, TxWriteNo>
        requires { IfOk shared (λ new. map object_in new.items ≡ map new_object ask.now) }
        ensures covered { Covers self.old.whole told.old }
        ensures learns { Learns told.old told.new }
        ensures tells { KnowsAll self.new.whole told.new }
        ensures answer { IsTransactionAnswer N.base N.mirror self.old.history ask.now self.old.whole self.new.whole (answers_in result) }
        ensures reply { IsTransactionReply N.base N.mirror told.old ask.now (answers_in result) told.new }
        ensures author { author.new ≡ paid result author.old }
        ensures rest { self.new ≡ record self.old { whole = self.new.whole } }
    {
        meet(&mut self.pen, told);
        let answer = accept_all(
            self.alloc,
            &mut self.pen,
            author,
            &mut self.kept,
            self.mirror,
            self.history,
            ask.items(),
            shared,
        );
        meet(&mut self.pen, told);
        answer
    }
}

/// The new objects of writes, each behind a shared pointer. They are copied here, so that no lock need be held
/// meanwhile.
pub fn share_all(alloc: Global, asks: &[WriteAsk]) -> Result<Vec<Option<Arc<Obj>>>, Memory>
    ensures { IfOk result (λ shared. map object_in shared.items ≡ map new_object asks.now) }
{
    let mut all = Vec::new(alloc);
    for ask in asks {
        all.push(share(alloc, ask)?)?;
    }
    Ok(all)
}

// Adds the revision of all these writes to the log, if nothing refuses them.
fn accept_all<N: LogFacts>(
    alloc: Global,
    pen: &mut Pen<Revision, N>,
    author: &mut Author<N>,
    kept: &mut Kept,
    mirror: bool,
    history: u64,
    asks: &[WriteAsk],
    shared: Result<Vec<Option<Arc<Obj>>>, Memory>,
) -> Result<Vec<Written>, TxWriteNo>
    requires transaction { AreTransaction asks.now }
    requires objects { IfOk shared (λ new. map object_in new.items ≡ map new_object asks.now) }
    requires history { 1 ≤ history }
    requires keeps { Keeps (log_in N.base pen.old) pen.old.floor kept.old }
    ensures answer { IsTransactionAnswer N.base mirror history asks.now pen.old pen.new (answers_in result) }
    ensures author { author.new ≡ paid result author.old }
    ensures keeps { Keeps (log_in N.base pen.new) pen.new.floor kept.new }
    ensures generation { pen.new.gen ≡ pen.old.gen }
{
    let at = pen.revision();
    if mirror {
        return Err(TxWriteNo::ReadOnly { at });
    }
    let (answers, revision) = prepare_all(alloc, kept, asks, shared, at)?;
    let _ = commit(pen, author, kept, history, revision);
    Ok(answers)
}

/// The answers to writes of distinct objects and their one revision, if nothing refuses them, and room for that
/// revision.
pub fn prepare_all(
    alloc: Global,
    kept: &mut Kept,
    asks: &[WriteAsk],
    shared: Result<Vec<Option<Arc<Obj>>>, Memory>,
    at: u64,
) -> Result<(Vec<Written>, SharedRevision), TxWriteNo>
    requires transaction { AreTransaction asks.now }
    requires objects { IfOk shared (λ new. map object_in new.items ≡ map new_object asks.now) }
    ensures keeps { (log : Log) (floor : ℕ) → Keeps log floor kept.old → Keeps log floor kept.new }
    ensures prepared { IfOk result (λ p. (log : Log) (floor : ℕ) → Keeps log floor kept.old → at ≡ end_of log → IsTxPrepared log asks.now p.0.items p.1) }
    ensures room { OnOk result (HasRoom 1 kept.new) }
    ensures last { OnOk result (at < 2 ^ 62) }
    ensures refused { IfErr result (λ no. (no ≡ TxWriteNo.Memory) ⊎ ((log : Log) (floor : ℕ) → Keeps log floor kept.old → at ≡ end_of log → tx_refusal_of false log asks.now ≡ Some no)) }
{
    let shared = shared?;
    kept.catch_up()?;
    if let Some(no) = refused_item(kept, asks, at) {
        return Err(no);
    }
    if at >= LAST {
        return Err(TxWriteNo::UsedUp { at });
    }
    let answers = answers(alloc, kept, asks, &shared, at)?;
    let revision = Revision::sorted(at + 1, changes(alloc, asks, &shared, at + 1)?);
    let entry = SharedRevision::new(alloc, revision)?;
    kept.reserve(1)?;
    Ok((answers, entry))
}

// The first write that would be refused by itself. It takes no memory.
fn refused_item(kept: &Kept, asks: &[WriteAsk], at: u64) -> Option<TxWriteNo>
    requires { kept.now.last_at ≡ kept.now.end }
    ensures { (log : Log) (floor : ℕ) → Keeps log floor kept.now → at ≡ end_of log → result ≡ first_fault log 0 asks.now }
{
    for (index, ask) in asks.iter().enumerate() {
        if let Some(no) = fault(ask, at, kept.row_before(ask)) {
            return Some(TxWriteNo::Item {
                index: index as u64,
                no,
            });
        }
    }
    None
}

// The answers to writes of which none is refused.
fn answers(
    alloc: Global,
    kept: &Kept,
    asks: &[WriteAsk],
    shared: &[Option<Arc<Obj>>],
    at: u64,
) -> Result<Vec<Written>, Memory>
    requires whole { kept.now.last_at ≡ kept.now.end }
    requires objects { map object_in shared.now ≡ map new_object asks.now }
    requires below { at < 2 ^ 62 }
    ensures { IfOk result (λ answers. (log : Log) (floor : ℕ) → Keeps log floor kept.now → at ≡ end_of log → AreWritten log asks.now answers.items) }
{
    let mut answers = Vec::new(alloc);
    for i in 0..asks.len() {
        answers.push(answer(kept, &asks[i], &shared[i], at)?)?;
    }
    Ok(answers)
}

// The answer to one write that isn't refused.
fn answer(
    kept: &Kept,
    ask: &WriteAsk,
    shared: &Option<Arc<Obj>>,
    at: u64,
) -> Result<Written, Memory>
    requires whole { kept.now.last_at ≡ kept.now.end }
    requires object { object_in shared.now ≡ new_object ask.now }
    requires below { at < 2 ^ 62 }
    ensures { IfOk result (λ written. (log : Log) (floor : ℕ) → Keeps log floor kept.now → at ≡ end_of log → IsWritten log ask.now written) }
{
    match object(ask, shared, at, kept.row_before(ask)) {
        Ok(obj) => Ok(Written {
            rev: at + 1,
            row: Row { obj, rev: at + 1 },
        }),
        Err(_) => Err(Memory),
    }
}

// The changes of writes at a revision, with these new objects.
fn changes(
    alloc: Global,
    asks: &[WriteAsk],
    shared: &[Option<Arc<Obj>>],
    rev: u64,
) -> Result<Vec<Change>, Memory>
    requires { map object_in shared.now ≡ map new_object asks.now }
    ensures { IfOk result (λ changes. changes.items ≡ map (change_of rev) asks.now) }
{
    let mut changes = Vec::with_capacity(alloc, asks.len())?;
    for i in 0..asks.len() {
        changes.push(change(&asks[i], rev, again(&shared[i])?)?)?;
    }
    Ok(changes)
}

// Another pointer to the same object.
fn again(shared: &Option<Arc<Obj>>) -> Result<Option<Arc<Obj>>, Memory>
    ensures { IfOk result (λ copy. object_in copy ≡ object_in shared.now) }
{
    match shared {
        Some(obj) => Ok(Some(obj.clone()?)),
        None => Ok(None),
    }
}
