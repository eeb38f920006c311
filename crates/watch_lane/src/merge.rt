//! Rising numbers, as those of lanes, joined with those of a set.

ghost use Rattle.std.specs.Prelude.{◌≡◌, ℕ, ◌||◌, IfOk};
ghost use Rattle.std.specs.Ordering.{nat_cmp};
ghost use Rattle.std.specs.BTreeSet.{contains};
ghost use Rattle.std.specs.List.Sorted.{IsStrictlyIncreasing};
ghost use Rattle.watch_lane.specs.Index.{is_listed};

use kube_meta::Memory;
use std::alloc::Global;
use std::collections::BTreeSet;

/// Rising numbers with those of a set, in rising order. An empty set costs nothing.
pub fn join(alloc: Global, ids: Vec<u64>, more: &BTreeSet<u64>) -> Result<Vec<u64>, Memory>
    requires { IsStrictlyIncreasing ids.items }
    ensures rising { IfOk result (λ all. IsStrictlyIncreasing all.items) }
    ensures joined { IfOk result (λ all. (i : ℕ) → is_listed all.items i ≡ (is_listed ids.items i || contains nat_cmp more.now i)) }
{
    if more.is_empty() {
        Ok(ids)
    } else {
        merged(alloc, &ids, more)
    }
}

// The same as a new list, in one pass over both.
fn merged(alloc: Global, ids: &[u64], more: &BTreeSet<u64>) -> Result<Vec<u64>, Memory>
    requires { IsStrictlyIncreasing ids.now }
    ensures rising { IfOk result (λ all. IsStrictlyIncreasing all.items) }
    ensures joined { IfOk result (λ all. (i : ℕ) → is_listed all.items i ≡ (is_listed ids.now i || contains nat_cmp more.now i)) }
{
    let mut all = Vec::with_capacity(alloc, ids.len().saturating_add(more.len()))?;
    let mut at = 0;
    for id in more.iter() {
        while at < ids.len() && ids[at] < *id {
            all.push(ids[at])?;
            at += 1;
        }
        if at < ids.len() && ids[at] == *id {
            at += 1;
        }
        all.push(*id)?;
    }
    all.extend_from_slice(&ids[at..])?;
    Ok(all)
}
