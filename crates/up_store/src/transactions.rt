//! Writes that are accepted or refused together.

ghost use Rattle.std.specs.Prelude.{◌≡◌, ℕ, ◌<◌, ◌≤◌, ◌↔◌, [], length, map, IfOk, OnOk, MatchOption};
ghost use Rattle.std.specs.List.{list_any};
ghost use Rattle.up_store.specs.Transactions.{target_of, same_target, AreDistinct, AreTransaction, IsFirstRepeat};
ghost use Rattle.up_store.specs.Transacting.{RevisionsOfAreUnique};

use crate::writes::{WriteAsk, WriteNo};
use kube_meta::{Key, Memory, Resource};
use std::marker::Model;

/// The most writes of one transaction.
const MAX_ITEMS: usize = 64;

/// Writes that are accepted or refused together, at one revision: 1 to 64 of distinct objects.
/// Contracts see the list of writes.
#[derive(Debug, Drop)]
pub struct Transaction {
    items: Vec<WriteAsk>,
}

impl Model for Transaction {
    ghost use Rattle.std.specs.Prelude.{List};
    ghost use Rattle.up_store.specs.declared.writes.WriteAsk.{WriteAsk as Ask};
    ghost use Rattle.up_store.specs.Transactions.{AreTransaction};

    ghost Value = { List Ask };

    ghost view = { λ t. t.items.items };

    ghost invariant = { λ t. AreTransaction t.items.items };
}

/// Why writes are no transaction; the first of these that holds.
#[derive(Clone, Copy, Debug, PartialEq, Eq)]
pub enum TxNo {
    /// There is none.
    Empty,
    /// There are more than 64.
    TooManyItems,
    /// The write at this place, counted from 0, is the first that is of an object of which an
    /// earlier one is.
    Repeated { index: u64 },
}

/// Why a transaction was refused: nothing of it is done. `ReadOnly` comes before the others.
#[derive(Clone, Copy, Debug, PartialEq, Eq)]
pub enum TxWriteNo {
    /// The write at this place, counted from 0, is the first that would be refused by itself, as
    /// existing, absent or stale.
    Item { index: u64, no: WriteNo },
    /// No write would be refused, and the log's revision is 2 ^ 62, the last one.
    UsedUp { at: u64 },
    /// The log is a mirror's, which takes its changes from its peer alone.
    ReadOnly { at: u64 },
    /// There was no memory. A store's log is then as it was.
    Memory,
}

impl From<Memory> for TxWriteNo {
    ghost use Rattle.std.specs.Prelude.{◌≡◌};
    ghost use Rattle.up_store.specs.declared.transactions.TxWriteNo.TheVariants as refusals;

    ghost from_gives = { λ _ refusal. refusal ≡ refusals.Memory };

    fn from(_: Memory) -> TxWriteNo {
        TxWriteNo::Memory
    }
}

impl Transaction {
    /// The transaction of these writes, in their order.
    pub fn new(items: Vec<WriteAsk>) -> Result<Transaction, TxNo>
        ensures ok { IfOk result (λ transaction. transaction ≡ items.items) }
        ensures form { OnOk result (AreTransaction items.items) }
        ensures empty { (result ≡ Err TxNo.Empty) ↔ (items.items ≡ []) }
        ensures too_many { (result ≡ Err TxNo.TooManyItems) ↔ (64 < length items.items) }
        ensures repeated { (index : ℕ) → (result ≡ Err (TxNo.Repeated index)) ↔
            ((length items.items ≤ 64) × IsFirstRepeat (map target_of items.items) index) }
    {
        if items.is_empty() {
            return Err(TxNo::Empty);
        }
        if items.len() > MAX_ITEMS {
            return Err(TxNo::TooManyItems);
        }
        match first_repeat(items.as_slice()) {
            Some(index) => Err(TxNo::Repeated {
                index: index as u64,
            }),
            None => Ok(Transaction { items }),
        }
    }

    /// The writes, in their order.
    pub fn items(&self) -> &[WriteAsk]
        ensures value { result.now ≡ self.now }
        ensures form { AreTransaction self.now }
    {
        self.items.as_slice()
    }
}

/// Writes of distinct objects have one revision after a log: the changes of a revision have one order.
pub fn revisions_of_are_unique()
    ensures { RevisionsOfAreUnique }
{}

// The place of the first write that is of an object of which an earlier one is.
fn first_repeat(items: &[WriteAsk]) -> Option<usize>
    ensures { MatchOption result (AreDistinct (map target_of items.now)) (IsFirstRepeat (map target_of items.now)) }
{
    for (index, item) in items.iter().enumerate() {
        if is_among(&items[..index], item) {
            return Some(index);
        }
    }
    None
}

// Whether some write of these is of the same object.
fn is_among(items: &[WriteAsk], item: &WriteAsk) -> bool
    ensures { result ≡ list_any (λ earlier. same_target (target_of earlier) (target_of item.now)) items.now }
{
    items.iter().any(|earlier| is_of_same(earlier, item))
}

// Whether the two writes are of one object.
fn is_of_same(a: &WriteAsk, b: &WriteAsk) -> bool
    ensures { result ≡ same_target (target_of a.now) (target_of b.now) }
{
    resource_of(a) == resource_of(b) && key_of(a) == key_of(b)
}

pub(crate) fn resource_of(ask: &WriteAsk) -> Resource
    ensures { let target = target_of ask.now in result ≡ target.0 }
{
    match ask {
        WriteAsk::Create { resource, .. }
        | WriteAsk::Replace { resource, .. }
        | WriteAsk::Remove { resource, .. } => *resource,
    }
}

pub(crate) fn key_of(ask: &WriteAsk) -> &Key
    ensures { let target = target_of ask.now in result.now ≡ target.1 }
{
    match ask {
        WriteAsk::Create { obj, .. } | WriteAsk::Replace { obj, .. } => &obj.key,
        WriteAsk::Remove { key, .. } => key,
    }
}
