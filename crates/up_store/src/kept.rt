//! What a store keeps of its log.

ghost use Rattle.std.specs.Prelude.{◌≡◌, ℕ, ◌+◌, ◌-◌, ◌≤◌, ◌^◌, ◌∷◌, ◌++◌, [], max, min, IfOk, OnOk, drop, length, option_copied, take};
ghost use Rattle.std.specs.List.{sum_by};
ghost use Rattle.kube_meta.specs.Rows.{row_with};
ghost use Rattle.rev_log.specs.Logs.{Log, end_of};
ghost use Rattle.up_api.specs.Feeds.{IsPoll};
ghost use Rattle.up_store.specs.Kept.{Keeps, HasRoom, IsPlace, with_changes};
ghost use Rattle.up_store.specs.Kept as keeping;
ghost use Rattle.up_store.specs.Past.{IsOldState, IsOldHistory};
ghost use Rattle.up_store.specs.Writes.{row_before};

use crate::parts::part;
use crate::past::{OldHistory, OldState};
use crate::revisions::{SharedRevision, carried};
use crate::tables::Tables;
use crate::transactions::{key_of, resource_of};
use crate::writes::WriteAsk;
use kube_meta::{Key, Memory, Resource, Row};
use obj_tree::Tree;
use std::alloc::Global;
use std::collections::VecDeque;
use up_api::Polled;

/// What a store keeps of its log. Both tables follow the log, and may lag: what they lack is made upon them from the
/// revisions. Those at which nothing changes are not kept: they cost nothing.
#[derive(Drop)]
pub struct Kept {
    /// The revision up to which `floor_rows` have followed the log.
    pub from: u64,
    /// The revisions with changes after `from`.
    pub revisions: VecDeque<SharedRevision>,
    /// The bytes that these carry.
    pub bytes: u128,
    /// The log's end.
    pub end: u64,
    pub floor_rows: Tables,
    pub last_rows: Tables,
    /// The revision up to which `last_rows` have followed the log.
    pub last_at: u64,
}

impl Kept {
    // The place behind the revisions up to a number, and before those above it.
    fn place_of(&self, at: u64) -> usize
        ensures within { result ≤ length self.now.revisions.items }
        ensures place { (log : Log) (floor : ℕ) → Keeps log floor self.now → self.now.from ≤ at → at ≤ end_of log → IsPlace log self.now at result }
    {
        self.revisions
            .partition_point(|revision| revision.get().rev <= at)
    }

    /// Brings the last rows to the log's end.
    pub fn catch_up(&mut self) -> Result<(), Memory>
        ensures keeps { (log : Log) (floor : ℕ) → Keeps log floor self.old → Keeps log floor self.new }
        ensures from { self.new.from ≡ self.old.from }
        ensures end { self.new.end ≡ self.old.end }
        ensures revisions { self.new.revisions ≡ self.old.revisions }
        ensures done { OnOk result (self.new.last_at ≡ self.new.end) }
    {
        let start = self.place_of(self.last_at);
        for i in start..self.revisions.len() {
            self.last_rows.apply(&self.revisions[i])?;
            self.last_at = self.revisions[i].get().rev;
        }
        self.last_at = self.end;
        Ok(())
    }

    /// Brings the last rows to the log's end and the floor's rows to this floor. Revisions that the floor's rows have
    /// are kept no longer.
    pub fn settle(&mut self, floor: u64) -> Result<(), Memory>
        ensures keeps { (log : Log) → Keeps log floor self.old → Keeps log floor self.new }
        ensures done { OnOk result (self.new.from ≡ floor) }
    {
        self.catch_up()?;
        let count = self.place_of(floor);
        for _ in 0..count {
            self.drop_first()?;
        }
        self.from = floor;
        Ok(())
    }

    // Brings the floor's rows to the first revision, which is then kept no longer.
    fn drop_first(&mut self) -> Result<(), Memory>
        requires some { 1 ≤ length self.old.revisions.items }
        ensures keeps { (log : Log) (floor n : ℕ) → self.old.last_at ≡ end_of log → 1 ≤ n → IsPlace log self.old floor n → Keeps log floor self.old → Keeps log floor self.new }
        ensures place { OnOk result ((log : Log) (floor n : ℕ) → self.old.last_at ≡ end_of log → 1 ≤ n → IsPlace log self.old floor n → Keeps log floor self.old → IsPlace log self.new floor (n - 1)) }
        ensures last { self.new.last_at ≡ self.old.last_at }
        ensures end { self.new.end ≡ self.old.end }
        ensures shorter { OnOk result (length self.new.revisions.items + 1 ≡ length self.old.revisions.items) }
    {
        let first = &self.revisions[0];
        self.floor_rows.apply(first)?;
        self.from = first.get().rev;
        self.bytes = self.bytes.saturating_sub(u128::from(carried(first.get())));
        let _ = self.revisions.pop_front();
        Ok(())
    }

    /// Of the revisions that are kept the last one that has this many others behind it, or 0 where there is none.
    pub fn floor_behind(&self, history: u64) -> u64
        ensures within { (log : Log) (floor : ℕ) → Keeps log floor self.now → result ≤ end_of log }
        ensures behind { (log : Log) (floor : ℕ) → Keeps log floor self.now → max floor result ≡ max floor (keeping.floor_behind history log.revisions) }
    {
        let count = self.revisions.len() as u64;
        if count <= history {
            return 0;
        }
        let last = (count - history - 1) as usize;
        self.revisions[last].get().rev
    }

    /// The same of the revisions that carry no more than this many bytes behind it, but for the last one, which stays
    /// whatever it carries.
    pub fn floor_within(&self, bytes: u64) -> u64
        ensures within { (log : Log) (floor : ℕ) → Keeps log floor self.now → result ≤ end_of log }
        ensures bytes { (log : Log) (floor : ℕ) → Keeps log floor self.now → max floor result ≡ max floor (keeping.floor_within bytes log.revisions) }
    {
        self.floor_behind(self.fitting(u128::from(bytes)))
    }

    // How many of the last revisions carry at most this many bytes together, or one where the last carries more.
    fn fitting(&self, bytes: u128) -> u64
        ensures { self.now.bytes ≡ sum_by keeping.carried self.now.revisions.items → result ≡ keeping.fitting bytes self.now.revisions.items }
    {
        let count = self.revisions.len();
        let mut left = self.bytes;
        for i in 0..count {
            if left <= bytes {
                return (count - i) as u64;
            }
            left = left.saturating_sub(u128::from(carried(self.revisions[i].get())));
        }
        count.min(1) as u64
    }

    /// Makes room for this many more revisions.
    pub fn reserve(&mut self, count: usize) -> Result<(), Memory>
        ensures same { self.new ≡ record self.old { revisions = self.new.revisions } }
        ensures items { self.new.revisions.items ≡ self.old.revisions.items }
        ensures room { OnOk result (HasRoom count self.new) }
    {
        self.revisions.reserve(count)?;
        Ok(())
    }

    /// Adds the revision that the log got, for which there is room. It is kept if it has changes.
    pub fn push(&mut self, revision: SharedRevision)
        requires { HasRoom 1 self.old }
        ensures same { self.new ≡ record self.old { revisions = self.new.revisions; bytes = self.new.bytes; end = revision.rev } }
        ensures items { self.new.revisions.items ≡ self.old.revisions.items ++ with_changes (revision ∷ []) }
        ensures bytes { self.new.bytes ≡ min (self.old.bytes + keeping.carried revision) (2 ^ 128 - 1) }
        ensures room { (count : ℕ) → HasRoom (count + 1) self.old → HasRoom count self.new }
    {
        self.end = revision.get().rev;
        self.bytes = self
            .bytes
            .saturating_add(u128::from(carried(revision.get())));
        if !revision.get().changes.is_empty() {
            self.revisions.push_back_reserved(revision);
        }
    }

    /// The row of the write's object at the log's end, once the last rows have followed it.
    pub fn row_before(&self, ask: &WriteAsk) -> Option<&Row>
        requires { self.now.last_at ≡ self.now.end }
        ensures { (log : Log) (floor : ℕ) → Keeps log floor self.now → option_copied result ≡ row_before log ask.now }
    {
        row_in(self.last_rows.of(resource_of(ask)), key_of(ask))
    }

    /// What the state of the resource at a revision from the floor to the log's end is made of. It costs a count, and
    /// between the two also one for each revision that is to be made.
    pub fn old_state(&self, alloc: Global, resource: Resource, at: u64) -> Result<OldState, Memory>
        ensures { IfOk result (λ old. (log : Log) (floor : ℕ) → Keeps log floor self.now → floor ≤ at → at ≤ end_of log → IsOldState log resource at old) }
    {
        if self.last_at == at && self.end == at {
            return Ok(OldState {
                resource,
                rows: self.last_rows.of(resource).copy()?,
                revisions: Vec::new(alloc),
            });
        }
        let count = self.place_of(at);
        self.state_after(alloc, resource, count)
    }

    // What the state after this many revisions upon the floor's rows is made of.
    fn state_after(
        &self,
        alloc: Global,
        resource: Resource,
        count: usize,
    ) -> Result<OldState, Memory>
        requires { count ≤ length self.now.revisions.items }
        ensures { IfOk result (λ old. (log : Log) (floor at : ℕ) → Keeps log floor self.now → floor ≤ at → at ≤ end_of log → IsPlace log self.now at count → IsOldState log resource at old) }
    {
        let rows = self.floor_rows.of(resource).copy()?;
        let revisions = self.copied(alloc, 0, count)?;
        Ok(OldState {
            resource,
            rows,
            revisions,
        })
    }

    /// What the history of the resource from a revision on is made of, up to the log's end, which is `upto`. It costs
    /// what that revision's state does, and a count for each revision after it.
    pub fn old_history(
        &self,
        alloc: Global,
        resource: Resource,
        from: u64,
        upto: u64,
    ) -> Result<OldHistory, Memory>
        ensures history { IfOk result (λ old. (log : Log) (floor : ℕ) → Keeps log floor self.now → floor ≤ from → from ≤ upto → upto ≡ end_of log → IsOldHistory log from resource old) }
        ensures floor { IfOk result (λ old. old.floor ≡ from) }
        ensures upto { IfOk result (λ old. old.upto ≡ upto) }
    {
        let state = self.old_state(alloc, resource, from)?;
        let start = self.place_of(from);
        let revisions = self.copied(alloc, start, self.revisions.len())?;
        Ok(OldHistory {
            floor: from,
            upto,
            state,
            revisions,
        })
    }

    // The revisions from one place up to another, which are shared.
    fn copied(&self, alloc: Global, start: usize, end: usize) -> Result<Vec<SharedRevision>, Memory>
        requires order { start ≤ end }
        requires inside { end ≤ length self.now.revisions.items }
        ensures { IfOk result (λ list. list.items ≡ drop start (take end self.now.revisions.items)) }
    {
        let mut list = Vec::with_capacity(alloc, end - start)?;
        for i in start..end {
            list.push(self.revisions[i].again()?)?;
        }
        Ok(list)
    }

    /// What a poll behind the revision `from` gives.
    pub fn poll(
        &self,
        alloc: Global,
        resource: Resource,
        from: u64,
        max: usize,
    ) -> Result<Polled, Memory>
        requires max { 1 ≤ max }
        ensures { IfOk result (λ polled. (log : Log) (floor : ℕ) → Keeps log floor self.now → self.now.from ≤ from → from ≤ end_of log → IsPoll log resource from max polled) }
    {
        let mut revisions = Vec::new(alloc);
        let mut wanted = max;
        let start = self.place_of(from);
        for i in start..self.revisions.len() {
            let Some(found) = part(alloc, resource, self.revisions[i].get())? else {
                continue;
            };
            let upto = found.rev;
            let count = found.changes.len();
            revisions.push(found)?;
            if count >= wanted {
                return Ok(Polled {
                    from,
                    upto,
                    revisions,
                });
            }
            wanted -= count;
        }
        Ok(Polled {
            from,
            upto: self.end,
            revisions,
        })
    }
}

// The row of a key.
fn row_in<'a>(rows: &'a Tree, key: &Key) -> Option<&'a Row>
    ensures { option_copied result ≡ row_with rows.now key.now }
{
    match rows.get(key) {
        Some(shown) => Some(shown.row()),
        None => None,
    }
}
