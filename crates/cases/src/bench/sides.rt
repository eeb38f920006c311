//! A tree and a plain map of the same objects.

use crate::bench::figures::Race;
use crate::bench::store::shown;
use encode_once::Shown;
use kube_meta::{Key, Memory};
use obj_tree::Tree;
use std::alloc::Global;
use std::collections::BTreeMap;
use std::sync::Arc;

/// What is done with all objects: new ones are put; they are put in place of others; the same, each behind a snapshot;
/// they are looked up; they are removed.
#[derive(Clone, Copy)]
pub enum Turn {
    Put,
    Replace,
    Behind,
    Get,
    Remove,
}

/// All turns, in an order in which each finds what it needs.
pub const TURNS: [(Turn, &str); 5] = [
    (Turn::Put, "put"),
    (Turn::Replace, "replace"),
    (Turn::Behind, "put behind a snapshot"),
    (Turn::Get, "get"),
    (Turn::Remove, "remove"),
];

/// The plain map beside a tree.
type Map = BTreeMap<Key, Arc<Shown>>;

/// A tree and a map, the objects in a mixed order, and what the next turn puts.
#[derive(Drop)]
pub struct Sides {
    pub turn: Turn,
    tree: Tree,
    map: Map,
    rows: Vec<Arc<Shown>>,
    first: Vec<Arc<Shown>>,
    second: Vec<(Key, Arc<Shown>)>,
}

impl Sides {
    /// Both sides without an object, and so many objects.
    pub fn new(alloc: Global, count: usize) -> Result<Sides, Memory> {
        let rows = rows(alloc, count)?;
        Ok(Sides {
            turn: Turn::Put,
            tree: Tree::new(alloc)?,
            map: BTreeMap::new(alloc),
            rows,
            first: Vec::new(alloc),
            second: Vec::new(alloc),
        })
    }

    /// How many objects a turn does something with.
    pub fn due(&self) -> u64 {
        self.rows.len() as u64
    }

    fn fill(&mut self) -> Result<(), Memory> {
        for shown in &self.rows {
            self.first.push(Arc::try_clone(shown)?)?;
            self.second
                .push((key_of(shown).clone()?, Arc::try_clone(shown)?))?;
        }
        Ok(())
    }
}

// So many objects, in a mixed order.
fn rows(alloc: Global, count: usize) -> Result<Vec<Arc<Shown>>, Memory> {
    let mut rows = Vec::with_capacity(alloc, count)?;
    for at in 0..count {
        rows.push(shown(alloc, at.wrapping_mul(7_919) % count.max(1), count, "")?)?;
    }
    Ok(rows)
}

impl Race for Sides {
    fn ready(&mut self) -> Result<(), Memory> {
        match self.turn {
            Turn::Put => {
                let _ = removals(&mut self.tree, &self.rows);
                let _ = map_removals(&mut self.map, &self.rows);
                self.fill()
            }
            Turn::Replace | Turn::Behind => self.fill(),
            Turn::Get => Ok(()),
            Turn::Remove => {
                self.fill()?;
                let _ = puts(&mut self.tree, &mut self.first, false);
                let _ = map_puts(&mut self.map, &mut self.second);
                Ok(())
            }
        }
    }

    fn step(&mut self) -> u64 {
        match self.turn {
            Turn::Put | Turn::Replace => puts(&mut self.tree, &mut self.first, false),
            Turn::Behind => puts(&mut self.tree, &mut self.first, true),
            Turn::Get => gets(&self.tree, &self.rows),
            Turn::Remove => removals(&mut self.tree, &self.rows),
        }
    }

    fn plain(&mut self) -> u64 {
        match self.turn {
            Turn::Put | Turn::Replace | Turn::Behind => map_puts(&mut self.map, &mut self.second),
            Turn::Get => map_gets(&self.map, &self.rows),
            Turn::Remove => map_removals(&mut self.map, &self.rows),
        }
    }
}

// Puts objects into a tree, the last one first, maybe each behind a snapshot that is let go of after the put. Answers
// how often it did something, as all of these do.
#[inline(never)]
fn puts(tree: &mut Tree, rows: &mut Vec<Arc<Shown>>, is_behind: bool) -> u64 {
    let mut done = 0u64;
    for _ in 0..rows.len() {
        if let Some(shown) = rows.pop() {
            let put = if is_behind {
                put_behind(tree, shown)
            } else {
                put(tree, shown)
            };
            done = done.wrapping_add(u64::from(put.is_ok()));
        }
    }
    done
}

fn put(tree: &mut Tree, shown: Arc<Shown>) -> Result<(), Memory> {
    tree.put(shown)?;
    Ok(())
}

fn put_behind(tree: &mut Tree, shown: Arc<Shown>) -> Result<(), Memory> {
    let _kept = tree.snapshot()?;
    put(tree, shown)
}

// Puts them into a map.
#[inline(never)]
fn map_puts(map: &mut Map, entries: &mut Vec<(Key, Arc<Shown>)>) -> u64 {
    let mut done = 0u64;
    for _ in 0..entries.len() {
        if let Some((key, shown)) = entries.pop() {
            done = done.wrapping_add(u64::from(map.insert(key, shown).is_ok()));
        }
    }
    done
}

fn key_of(shown: &Arc<Shown>) -> &Key {
    &shown.row().obj.key
}

// Looks objects up in a tree.
#[inline(never)]
fn gets(tree: &Tree, rows: &[Arc<Shown>]) -> u64 {
    let mut done = 0u64;
    for shown in rows {
        done = done.wrapping_add(u64::from(tree.get(key_of(shown)).is_some()));
    }
    done
}

// Looks them up in a map.
#[inline(never)]
fn map_gets(map: &Map, rows: &[Arc<Shown>]) -> u64 {
    let mut done = 0u64;
    for shown in rows {
        done = done.wrapping_add(u64::from(map.get(key_of(shown)).is_some()));
    }
    done
}

// Removes objects from a tree.
#[inline(never)]
fn removals(tree: &mut Tree, rows: &[Arc<Shown>]) -> u64 {
    let mut done = 0u64;
    for shown in rows {
        if let Ok(Some(_)) = tree.remove(key_of(shown)) {
            done = done.wrapping_add(1);
        }
    }
    done
}

// Removes them from a map.
#[inline(never)]
fn map_removals(map: &mut Map, rows: &[Arc<Shown>]) -> u64 {
    let mut done = 0u64;
    for shown in rows {
        done = done.wrapping_add(u64::from(map.remove(key_of(shown)).is_some()));
    }
    done
}
