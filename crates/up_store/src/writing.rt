//! Writes and operations.

ghost use Rattle.std.specs.Prelude.{◌≡◌, ℕ, ◌⊎◌, ◌+◌, ◌<◌, ◌≤◌, ◌^◌, Bool, Option, Some, None, false, IfOk, IfErr, OnOk, option_copied, option_map};
ghost use Rattle.rev_front.specs.Passes.{Covers};
ghost use Rattle.rev_log.specs.Logs.{Log, end_of};
ghost use Rattle.up_api.specs.Sections.{Learns};
ghost use Rattle.up_store.specs.Kept.{Keeps, HasRoom};
ghost use Rattle.up_store.specs.Replies.{IsWriteReply};
ghost use Rattle.up_store.specs.Stores.{KnowsAll, log_in, paid};
ghost use Rattle.up_store.specs.Writes.{fault_at, stale_at, change_of, new_object, written_object, refusal_of, IsPrepared, IsWriteAnswer};

use crate::committing::commit;
use crate::kept::Kept;
use crate::revisions::SharedRevision;
use crate::store::{LAST, meet};
use crate::transactions::{key_of, resource_of};
use crate::{Store, WriteAsk, WriteNo, Written};
use kube_meta::{Memory, Obj, Row};
use rev_front::{Author, Pen};
use rev_log::{Change, Revision};
use std::alloc::Global;
use std::sync::Arc;
use up_api::{LogFacts, Pass};

impl<N: LogFacts> Store<N> {
    /// Makes a write, if nothing refuses it; the first refusal that holds is answered. An accepted write is one
    /// revision, which the answer names.
    pub fn write(
        &mut self,
        ask: &WriteAsk,
        told: &mut Pass<N>,
        author: &mut Author<N>,
    ) -> Result<Written, WriteNo>
        ensures covered { Covers self.old.whole told.old }
        ensures learns { Learns told.old told.new }
        ensures tells { KnowsAll self.new.whole told.new }
        ensures answer { IsWriteAnswer N.base N.mirror self.old.history ask.now self.old.whole self.new.whole result }
        ensures reply { IsWriteReply N.base N.mirror told.old ask.now result told.new }
        ensures author { author.new ≡ paid result author.old }
        ensures rest { self.new ≡ record self.old { whole = self.new.whole } }
    {
        let shared = share(self.alloc, ask);
        self.write_shared(ask, shared, told, author)
    }

    /// Makes a write whose new object is shared already, as by `share` before a lock is taken, if memory allowed it.
    pub fn write_shared(
        &mut self,
        ask: &WriteAsk,
        shared: Result<Option<Arc<Obj>>, Memory>,
        told: &mut Pass<N>,
        author: &mut Author<N>,
    ) -> Result<Written, WriteNo>
        requires { IfOk shared (λ new. option_map (λ obj. obj.value) new ≡ new_object ask.now) }
        ensures covered { Covers self.old.whole told.old }
        ensures learns { Learns told.old told.new }
        ensures tells { KnowsAll self.new.whole told.new }
        ensures answer { IsWriteAnswer N.base N.mirror self.old.history ask.now self.old.whole self.new.whole result }
        ensures reply { IsWriteReply N.base N.mirror told.old ask.now result told.new }
        ensures author { author.new ≡ paid result author.old }
        ensures rest { self.new ≡ record self.old { whole = self.new.whole } }
    {
        meet(&mut self.pen, told);
        let answer = accept(
            self.alloc,
            &mut self.pen,
            author,
            &mut self.kept,
            self.mirror,
            self.history,
            ask,
            shared,
        );
        meet(&mut self.pen, told);
        answer
    }
}

/// The new object of a write, behind a shared pointer. It is copied here, so that no lock need be held meanwhile.
pub fn share(alloc: Global, ask: &WriteAsk) -> Result<Option<Arc<Obj>>, Memory>
    ensures { IfOk result (λ shared. option_map (λ obj. obj.value) shared ≡ new_object ask.now) }
{
    match ask {
        WriteAsk::Create { obj, .. } | WriteAsk::Replace { obj, .. } => {
            Ok(Some(Arc::new(alloc, obj.clone()?)?))
        }
        WriteAsk::Remove { .. } => Ok(None),
    }
}

// Adds the revision of a write to the log, if nothing refuses it.
fn accept<N: LogFacts>(
    alloc: Global,
    pen: &mut Pen<Revision, N>,
    author: &mut Author<N>,
    kept: &mut Kept,
    mirror: bool,
    history: u64,
    ask: &WriteAsk,
    shared: Result<Option<Arc<Obj>>, Memory>,
) -> Result<Written, WriteNo>
    requires object { IfOk shared (λ new. option_map (λ obj. obj.value) new ≡ new_object ask.now) }
    requires history { 1 ≤ history }
    requires keeps { Keeps (log_in N.base pen.old) pen.old.floor kept.old }
    ensures answer { IsWriteAnswer N.base mirror history ask.now pen.old pen.new result }
    ensures author { author.new ≡ paid result author.old }
    ensures keeps { Keeps (log_in N.base pen.new) pen.new.floor kept.new }
    ensures generation { pen.new.gen ≡ pen.old.gen }
{
    let at = pen.revision();
    if mirror {
        return Err(WriteNo::ReadOnly { at });
    }
    let (written, revision) = prepare(alloc, kept, ask, shared, at)?;
    let _ = commit(pen, author, kept, history, revision);
    Ok(written)
}

/// The answer to a write and its revision, if nothing refuses it, and room for that revision.
pub fn prepare(
    alloc: Global,
    kept: &mut Kept,
    ask: &WriteAsk,
    shared: Result<Option<Arc<Obj>>, Memory>,
    at: u64,
) -> Result<(Written, SharedRevision), WriteNo>
    requires object { IfOk shared (λ new. option_map (λ obj. obj.value) new ≡ new_object ask.now) }
    ensures keeps { (log : Log) (floor : ℕ) → Keeps log floor kept.old → Keeps log floor kept.new }
    ensures prepared { IfOk result (λ p. (log : Log) (floor : ℕ) → Keeps log floor kept.old → at ≡ end_of log → IsPrepared log ask.now p.0 p.1) }
    ensures room { OnOk result (HasRoom 1 kept.new) }
    ensures last { OnOk result (at < 2 ^ 62) }
    ensures refused { IfErr result (λ no. (no ≡ WriteNo.Memory) ⊎ ((log : Log) (floor : ℕ) → Keeps log floor kept.old → at ≡ end_of log → refusal_of false log ask.now ≡ Some no)) }
{
    let shared = shared?;
    kept.catch_up()?;
    let row = kept.row_before(ask);
    let obj = object(ask, &shared, at, row)?;
    if at >= LAST {
        return Err(WriteNo::UsedUp { at });
    }
    let rev = at + 1;
    let revision = Revision::single(alloc, change(ask, rev, shared)?)?;
    let entry = SharedRevision::new(alloc, revision)?;
    kept.reserve(1)?;
    let written = Written {
        rev,
        row: Row { obj, rev },
    };
    Ok((written, entry))
}

/// The object that an accepted write answers which finds this row: the new one, or the removed one.
pub fn object(
    ask: &WriteAsk,
    shared: &Option<Arc<Obj>>,
    at: u64,
    row: Option<&Row>,
) -> Result<Arc<Obj>, WriteNo>
    requires { option_map (λ obj. obj.value) shared.now ≡ new_object ask.now }
    ensures unrefused { OnOk result (fault_at at ask.now (option_copied row.entry) ≡ None) }
    ensures object { IfOk result (λ obj. Some obj.value ≡ written_object ask.now (option_copied row.entry)) }
    ensures refused { IfErr result (λ no. (no ≡ WriteNo.Memory) ⊎ (fault_at at ask.now (option_copied row.entry) ≡ Some no)) }
{
    if let Some(no) = fault(ask, at, row) {
        return Err(no);
    }
    match (shared, row) {
        (Some(obj), _) => Ok(obj.clone()?),
        (None, Some(row)) => Ok(row.obj.clone()?),
        (None, None) => Err(WriteNo::Absent { at }),
    }
}

/// Why the write is refused that finds this row. It takes no memory.
pub fn fault(ask: &WriteAsk, at: u64, row: Option<&Row>) -> Option<WriteNo>
    ensures { result ≡ fault_at at ask.now (option_copied row.entry) }
{
    match (ask, row) {
        (WriteAsk::Create { .. }, Some(row)) => Some(WriteNo::Exists {
            at,
            present: row.rev,
        }),
        (WriteAsk::Replace { given, .. }, Some(row)) => stale(*given, at, row.rev),
        (WriteAsk::Create { .. }, None) | (WriteAsk::Remove { .. }, Some(_)) => None,
        (WriteAsk::Replace { .. } | WriteAsk::Remove { .. }, None) => Some(WriteNo::Absent { at }),
    }
}

// The given revision isn't the present one.
fn stale(given: Option<u64>, at: u64, present: u64) -> Option<WriteNo>
    ensures { result ≡ stale_at at given present }
{
    match given {
        Some(given) if given != present => Some(WriteNo::Stale { at, given, present }),
        _ => None,
    }
}

/// The change of a write at a revision, with this new object.
pub fn change(ask: &WriteAsk, rev: u64, shared: Option<Arc<Obj>>) -> Result<Change, Memory>
    requires { option_map (λ obj. obj.value) shared ≡ new_object ask.now }
    ensures { IfOk result (λ change. change ≡ change_of rev ask.now) }
{
    Ok(Change {
        rev,
        resource: resource_of(ask),
        key: key_of(ask).clone()?,
        new: shared,
    })
}
