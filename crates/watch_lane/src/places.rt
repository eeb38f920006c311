//! Where lanes stand: under a text, or under none.

ghost use Rattle.std.specs.Prelude.{◌≡◌, ◌==◌, ℕ, false, true, not, ◌&&◌, ◌||◌, List, Option, Some, None, bytes_eq, IfOk, IsTrue, OnOk, OnErr, option_copied};
ghost use Rattle.std.specs.Ordering.{nat_cmp};
ghost use Rattle.std.specs.BTreeSet.{contains};
ghost use Rattle.std.specs.HashMap.{get_by_text};
ghost use Rattle.std.specs.List.Sorted.{IsStrictlyIncreasing};
ghost use Rattle.watch_lane.specs.Index.{is_listed};
ghost use Rattle.watch_lane.specs.Places.{has_id, same_text, stands};

use crate::merge::join;
use indexmap::IndexMap;
use kube_meta::Memory;
use std::alloc::Global;
use std::collections::BTreeSet;

/// Where lanes stand: under a text, or under none.
#[derive(Drop)]
pub struct Places {
    pub by_text: IndexMap<String, BTreeSet<u64>>,
    pub others: BTreeSet<u64>,
}

impl Places {
    /// No lane stands anywhere.
    pub fn new(alloc: Global) -> Places
        ensures { (text : Option (List ℕ)) (id : ℕ) → stands result text id ≡ false }
    {
        Places {
            by_text: IndexMap::new(alloc),
            others: BTreeSet::new(alloc),
        }
    }

    /// Puts a lane under a text, or under none.
    pub fn put(&mut self, alloc: Global, text: Option<&str>, id: u64) -> Result<(), Memory>
        ensures ok { OnOk result ((v : Option (List ℕ)) (i : ℕ) → stands self.new v i ≡ (same_text (option_copied text.entry) v && (id == i) || stands self.old v i)) }
        ensures err { OnErr result ((v : Option (List ℕ)) (i : ℕ) → stands self.new v i ≡ stands self.old v i) }
    {
        match text {
            Some(text) => put_under(&mut self.by_text, alloc, text, id),
            None => put_among(&mut self.others, id),
        }
    }

    /// Takes a lane from there.
    pub fn leave(&mut self, text: Option<&str>, id: u64)
        ensures { (v : Option (List ℕ)) (i : ℕ) → stands self.new v i ≡ (not (same_text (option_copied text.entry) v && (id == i)) && stands self.old v i) }
    {
        match text {
            Some(text) => leave_under(&mut self.by_text, text, id),
            None => {
                self.others.remove(&id);
            }
        }
    }

    /// Whether each lane that stands under a text surely stands under another one: they are the same, or none stands
    /// under the first.
    pub fn covers(&self, text: &str, by: &str) -> bool
        ensures covered { IsTrue result → (id : ℕ) → stands self.now (Some text.now) id ≡ true → stands self.now (Some by.now) id ≡ true }
        ensures own { text.now ≡ by.now → IsTrue result }
    {
        text == by || self.by_text.get(text).is_none()
    }

    /// Rising numbers with those of the lanes that stand under a text, in rising order.
    pub fn join_under(&self, alloc: Global, ids: Vec<u64>, text: &str) -> Result<Vec<u64>, Memory>
        requires { IsStrictlyIncreasing ids.items }
        ensures rising { IfOk result (λ all. IsStrictlyIncreasing all.items) }
        ensures joined { IfOk result (λ all. (i : ℕ) → is_listed all.items i ≡ (is_listed ids.items i || stands self.now (Some text.now) i)) }
    {
        match self.by_text.get(text) {
            Some(group) => join(alloc, ids, group),
            None => Ok(ids),
        }
    }
}

fn put_among(ids: &mut BTreeSet<u64>, id: u64) -> Result<(), Memory>
    ensures ok { OnOk result ((i : ℕ) → contains nat_cmp ids.new i ≡ ((id == i) || contains nat_cmp ids.old i)) }
    ensures err { OnErr result ((i : ℕ) → contains nat_cmp ids.new i ≡ contains nat_cmp ids.old i) }
{
    ids.insert(id)?;
    Ok(())
}

fn put_under(
    groups: &mut IndexMap<String, BTreeSet<u64>>,
    alloc: Global,
    text: &str,
    id: u64,
) -> Result<(), Memory>
    ensures ok { OnOk result ((v : List ℕ) (i : ℕ) → has_id (get_by_text groups.new v) i ≡ (bytes_eq text.now v && (id == i) || has_id (get_by_text groups.old v) i)) }
    ensures err { OnErr result ((v : List ℕ) (i : ℕ) → has_id (get_by_text groups.new v) i ≡ has_id (get_by_text groups.old v) i) }
{
    if let Some(ids) = groups.get_mut(text) {
        return put_among(ids, id);
    }
    let key = String::from_str(alloc, text)?;
    let mut ids = BTreeSet::new(alloc);
    put_among(&mut ids, id)?;
    groups.insert(key, ids)?;
    Ok(())
}

// A text under which none is left is forgotten.
fn leave_under(groups: &mut IndexMap<String, BTreeSet<u64>>, text: &str, id: u64)
    ensures { (v : List ℕ) (i : ℕ) → has_id (get_by_text groups.new v) i ≡ (not (bytes_eq text.now v && (id == i)) && has_id (get_by_text groups.old v) i) }
{
    let Some(ids) = groups.get_mut(text) else {
        return;
    };
    ids.remove(&id);
    if ids.is_empty() {
        groups.swap_remove(text);
    }
}
