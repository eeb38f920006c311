//! Trees of objects. The objects are `p-1100`, `p-1102` and so on, whose order is that of their numbers.

use crate::rows::{NO_STEP, Steps, Wording, number, object, split};
use encode_once::Shown;
use kube_meta::{Key, Memory, Resource, Row};
use obj_tree::Tree;
use std::alloc::Global;
use std::sync::Arc;

/// A tree.
#[derive(Drop)]
pub struct Trees {
    tree: Tree,
}

impl Trees {
    /// An empty tree.
    pub fn new(alloc: Global) -> Result<Trees, Memory> {
        let tree = Tree::new(alloc)?;
        Ok(Trees { tree })
    }
}

impl Steps for Trees {
    fn answer(&mut self, alloc: Global, step: &str, told: &mut Wording) -> Result<(), Memory> {
        let (verb, rest) = split(step);
        match verb {
            "evens" => {
                self.tree = evens(alloc, number(rest))?;
                told.show(&self.tree.pages());
            }
            "without" => without(alloc, &mut self.tree, rest, told)?,
            _ => told.add(NO_STEP),
        }
        told.show(&format_args!(" pages of {} rows", self.tree.len()));
        Ok(())
    }
}

// The even number at a place: 1100, 1102 and so on.
fn even(alloc: Global, place: u64) -> Result<Row, Memory> {
    let name = format!(in alloc; "p-{}", 1100 + place % 1000 * 2)?;
    let obj = object(alloc, Resource::Pods, ("default", name.as_str()), "", "")?;
    Ok(Row {
        obj: Arc::new(alloc, obj)?,
        rev: 1,
    })
}

// A tree of so many even numbers.
fn evens(alloc: Global, count: u64) -> Result<Tree, Memory> {
    let mut tree = Tree::new(alloc)?;
    for place in 0..count {
        tree.put(Shown::new(alloc, even(alloc, place)?)?)?;
    }
    Ok(tree)
}

// Removes the even numbers from a place on, so many, and tells how many pages there were before and after each, where
// that changed.
fn without(alloc: Global, tree: &mut Tree, text: &str, told: &mut Wording) -> Result<(), Memory> {
    let (from, count) = split(text);
    let from = number(from);
    let mut pages = tree.pages();
    told.show(&pages);
    for place in from..from.saturating_add(number(count)) {
        remove(tree, &even(alloc, place)?.obj.key)?;
        if pages != tree.pages() {
            pages = tree.pages();
            told.show(&format_args!(" {pages}"));
        }
    }
    Ok(())
}

fn remove(tree: &mut Tree, key: &Key) -> Result<(), Memory> {
    tree.remove(key)?;
    Ok(())
}
