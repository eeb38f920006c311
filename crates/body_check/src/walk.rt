//! The walk over the lines of a body whose log isn't known: what stands behind them, and what may come next.

ghost use Rattle.std.specs.Prelude.{◌≡◌, ◌↔◌, ◌≤◌, ◌<◌, IfOk, OnOk, IfSome, ◌+◌, IsTrue, Some, None, option_copied, if◌then◌else◌, bytes_eq};
ghost use Rattle.std.specs.BTreeMap.{values};
ghost use Rattle.std.specs.Option.{option_or};
ghost use Rattle.kube_meta.specs.Rows.{key_of, row_with};
ghost use Rattle.rev_log.specs.Rows.{Follows, Holds};
ghost use Rattle.select_all.specs.Listings.{row_told};
ghost use Rattle.body_check.specs.Turns.{FitsRow, HasRoomFor, MayCome, HoldsTo, TakesTo, MarksTo, count_with};

use crate::held::{Held, pass};
use crate::same::same_obj;
use kube_meta::{Key, Memory, Obj, Row};
use rev_log::Rows;
use select_all::{Kind, Selection};
use std::alloc::Global;
use std::collections::BTreeMap;
use std::sync::Arc;
use watch_record::LaterList;

/// The most changes of one revision.
const MOST_AT_ONCE: u64 = 64;

/// The last event of a revision, by its key, and how many of the revision have come.
#[derive(Drop)]
pub struct Last {
    /// Its key.
    pub key: Key,
    /// How many have come.
    pub count: u64,
}

/// What stands behind lines, the revision that they have reached, its last event, if the last line was one, and the
/// later lists.
#[derive(Drop)]
pub struct Walk<'a> {
    /// What stands.
    pub rows: Rows,
    /// Up to here all was told.
    pub to: u64,
    /// The last event.
    pub last: Option<Last>,
    /// The later lists.
    pub held: Held<'a>,
}

impl<'a> Walk<'a> {
    /// Begins with the rows of a list, at its revision.
    pub fn new(
        alloc: Global,
        rows: &[Row],
        from: u64,
        later: &'a [LaterList],
    ) -> Result<Walk<'a>, Memory>
        ensures holds { IfOk result (λ walk. Holds walk.rows (row_with rows.now)) }
        ensures to { IfOk result (λ walk. walk.to ≡ from) }
        ensures last { IfOk result (λ walk. walk.last ≡ None) }
        ensures held { IfOk result (λ walk. walk.held ≡ Held.Left later.entry) }
    {
        Ok(Walk {
            rows: rows_of(alloc, rows)?,
            to: from,
            last: None,
            held: Held::Left(later),
        })
    }

    /// Whether an event may come next: its object is selected, its kind fits what stands, and it is above the last in
    /// the order of revisions and keys, with no more than 64 of a revision.
    pub fn takes(&self, selection: &Selection, kind: Kind, obj: &Obj, rev: u64) -> bool
        ensures { IsTrue result ↔ MayCome selection.now self.now kind obj.now rev }
    {
        selection.selects(obj)
            && fits(kind, obj, self.rows.get(&obj.key))
            && self.is_above(&obj.key, rev)
    }

    // Whether an event of this key and revision is above the last.
    fn is_above(&self, key: &Key, rev: u64) -> bool
        ensures { IsTrue result ↔ (self.now.to ≤ rev) × (rev ≡ self.now.to → HasRoomFor self.now.last key.now) }
    {
        if rev == self.to {
            has_room(&self.last, key)
        } else {
            self.to < rev
        }
    }

    /// Takes an event.
    pub fn take(&mut self, alloc: Global, kind: Kind, obj: Obj, rev: u64) -> Result<(), Memory>
        requires { rev ≡ self.old.to → HasRoomFor self.old.last obj.key }
        ensures { OnOk result (TakesTo (record { kind = kind; obj = obj; rev = rev }) self.old self.new) }
    {
        let key = obj.key.clone()?;
        let count = count_at(&self.last, rev == self.to);
        self.pass(rev);
        apply(alloc, &mut self.rows, kind, obj, rev)?;
        self.to = rev;
        self.last = Some(Last { key, count });
        Ok(())
    }

    /// Takes a bookmark.
    pub fn mark(&mut self, at: u64)
        ensures { MarksTo at self.old self.new }
    {
        self.pass(at);
        self.to = at;
        self.last = None;
    }

    /// Passes the later lists below a revision, up to which what stands has stood.
    pub fn pass(&mut self, below: u64)
        ensures held { HoldsTo (values self.old.rows) below self.old.held self.new.held }
        ensures rows { self.new.rows ≡ self.old.rows }
        ensures to { self.new.to ≡ self.old.to }
        ensures last { self.new.last ≡ self.old.last }
    {
        if let Held::Left(left) = self.held {
            self.held = pass(left, &self.rows, below);
        }
    }
}

// Whether a key may come behind the last of the same revision.
fn has_room(last: &Option<Last>, key: &Key) -> bool
    ensures { IsTrue result ↔ HasRoomFor last.now key.now }
{
    match last {
        Some(last) => last.key < *key && last.count < MOST_AT_ONCE,
        None => false,
    }
}

// How many events of a revision there are with one more, where the last is of it or of an older one.
fn count_at(last: &Option<Last>, same: bool) -> u64
    requires { IsTrue same → IfSome last.now (λ last. last.count < 64) }
    ensures { result ≡ (if same then count_with last.now else 1) }
{
    match last {
        Some(last) if same => last.count + 1,
        _ => 1,
    }
}

// Rows by their keys.
fn rows_of(alloc: Global, rows: &[Row]) -> Result<Rows, Memory>
    ensures { IfOk result (λ table. Holds table (row_with rows.now)) }
{
    let mut table = BTreeMap::new(alloc);
    for row in rows {
        put_first(&mut table, row)?;
    }
    Ok(table)
}

// Makes this the row of its key, where there is none.
fn put_first(rows: &mut Rows, row: &Row) -> Result<(), Memory>
    ensures { OnOk result (Follows rows.old rows.new (λ key old. option_or old (if bytes_eq key (key_of row.now) then Some row.now else None))) }
{
    if rows.contains_key(&row.obj.key) {
        return Ok(());
    }
    put(rows, row.clone()?)
}

// Makes this the row of its key.
fn put(rows: &mut Rows, row: Row) -> Result<(), Memory>
    ensures { OnOk result (Follows rows.old rows.new (λ key old. if bytes_eq key (key_of row) then Some row else old)) }
{
    let key = row.obj.key.clone()?;
    match rows.insert(key, row) {
        Ok(_) => Ok(()),
        Err(_) => Err(Memory),
    }
}

// Makes what an event tells: its object stands, or is gone.
fn apply(alloc: Global, rows: &mut Rows, kind: Kind, obj: Obj, rev: u64) -> Result<(), Memory>
    ensures { OnOk result (Follows rows.old rows.new (λ key row. row_told key row (record { kind = kind; obj = obj; rev = rev }))) }
{
    match kind {
        Kind::Deleted => {
            take_out(rows, &obj.key);
            Ok(())
        }
        _ => {
            let obj = Arc::new(alloc, obj)?;
            put(rows, Row { obj, rev })
        }
    }
}

// Leaves no row of this key.
fn take_out(rows: &mut Rows, key: &Key)
    ensures { Follows rows.old rows.new (λ other old. if bytes_eq other key.now then None else old) }
{
    let _ = rows.remove(key);
}

// Whether a kind fits the row that stands at the object's key: one is added where none stands; one is modified where
// one does; and what is deleted is the very object that stands.
fn fits(kind: Kind, obj: &Obj, row: Option<&Row>) -> bool
    ensures { IsTrue result ↔ FitsRow kind obj.now (option_copied row.entry) }
{
    match (kind, row) {
        (Kind::Added, None) => true,
        (Kind::Modified, Some(_)) => true,
        (Kind::Deleted, Some(row)) => same_obj(&row.obj, obj),
        _ => false,
    }
}
