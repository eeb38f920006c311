//! The keys of objects that stand.

ghost use Rattle.std.specs.Prelude.{◌≡◌, ◌&&◌, ◌||◌, ℕ, List, not, is_some, IfOk, OnOk, OnErr, bytes_eq};
ghost use Rattle.kube_meta.specs.Rows.{row_with};
ghost use Rattle.select_all.specs.declared.selection.Kind.TheVariants as kinds;
ghost use Rattle.mirror_log.specs.Intakes.{has, tells};
ghost use Rattle.mirror_log.specs.Intakes as intakes;

use crate::kinds::same_kind;
use crate::pending::Pending;
use kube_meta::{Key, Memory, Row};
use select_all::Kind;
use std::alloc::Global;
use std::collections::BTreeSet;

/// The keys of objects that stand.
pub type Keys = BTreeSet<Key>;

/// The keys of rows.
pub fn keys_of(alloc: Global, rows: &[Row]) -> Result<Keys, Memory>
    ensures { IfOk result (λ keys. (key : List ℕ) → has keys key ≡ is_some (row_with rows.now key)) }
{
    let mut keys = BTreeSet::new(alloc);
    for row in rows {
        let key = row.obj.key.clone()?;
        add(&mut keys, key)?;
    }
    Ok(keys)
}

// Adds a key, if there is memory for it.
fn add(keys: &mut Keys, key: Key) -> Result<(), Memory>
    ensures added { OnOk result ((other : List ℕ) → has keys.new other ≡ (has keys.old other || bytes_eq key other)) }
    ensures same { OnErr result (keys.new ≡ keys.old) }
{
    match keys.insert(key) {
        Ok(_) => Ok(()),
        Err(_) => Err(Memory),
    }
}

/// Adds the key of an object that is added by an event of this kind.
pub(crate) fn know(keys: &mut Keys, kind: Kind, key: Key) -> Result<(), Memory>
    ensures added { OnOk result ((other : List ℕ) → has keys.new other ≡ (has keys.old other || (intakes.same_kind kind kinds.Added && bytes_eq key other))) }
    ensures same { OnErr result (keys.new ≡ keys.old) }
{
    if same_kind(kind, Kind::Added) {
        add(keys, key)
    } else {
        Ok(())
    }
}

/// Takes out the keys of the lines of this kind.
pub(crate) fn take_out(keys: &mut Keys, kind: Kind, kept: &[Pending])
    ensures { (key : List ℕ) → has keys.new key ≡ (has keys.old key && not (tells kind kept.now key)) }
{
    for line in kept {
        take_one(keys, kind, line);
    }
}

// Takes out the key of a line, if it is of this kind.
fn take_one(keys: &mut Keys, kind: Kind, line: &Pending)
    ensures { (key : List ℕ) → has keys.new key ≡ (has keys.old key && not (intakes.same_kind line.now.kind kind && intakes.is_of key line.now)) }
{
    if same_kind(line.kind, kind) {
        let _ = keys.remove(&line.obj.key);
    }
}
