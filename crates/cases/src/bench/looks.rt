//! What selections find among the objects of a tree, beside a walk that tests each of them.

use crate::bench::figures::{Race, done, time_race};
use crate::bench::store::shown;
use crate::rows::Wording;
use kube_meta::{Memory, Resource};
use obj_tree::{Rows, Snapshot, Tree};
use select_all::Selection;
use std::alloc::Global;

/// The names of labels beside `app`.
const NAMES: [&str; 7] = [
    "tier",
    "pod-template-hash",
    "app.kubernetes.io/component",
    "app.kubernetes.io/instance",
    "app.kubernetes.io/managed-by",
    "owner",
    "region",
];

/// What is looked for: the ten objects of one node, and one in ten, by a label.
const SOUGHT: [(&str, &str, &str); 2] = [
    ("ten of one node", "", "spec.nodeName=node-21"),
    ("one in ten by label", "app=web-7", ""),
];

/// Tells what is found among 300 objects; or times looks at 100,000, of three labels and of eight.
pub fn run_looks(
    rt: &HostRuntime,
    alloc: Global,
    timed: bool,
    told: &mut Wording,
) -> Result<(), Memory> {
    if !timed {
        return run_state(rt, state(alloc, 300, 3)?, timed, told);
    }
    for labels in [3, 8] {
        told.show(&format_args!("of 100000 objects of {labels} labels:\n"));
        run_state(rt, state(alloc, 100_000, labels)?, timed, told)?;
    }
    Ok(())
}

fn run_state(
    rt: &HostRuntime,
    state: Snapshot,
    timed: bool,
    told: &mut Wording,
) -> Result<(), Memory> {
    let mut looks = Looks {
        state,
        sought: None,
    };
    for sought in SOUGHT {
        look(rt, &mut looks, sought, timed, told)?;
    }
    Ok(())
}

fn look(
    rt: &HostRuntime,
    looks: &mut Looks,
    (name, label, field): (&str, &str, &str),
    timed: bool,
    told: &mut Wording,
) -> Result<(), Memory> {
    looks.sought = Selection::read(rt.alloc(), Resource::Pods, None, label, field).ok();
    if timed {
        return time_race(rt, name, looks, (5, 1), told);
    }
    let (step, plain) = (looks.step(), looks.plain());
    told.show(&format_args!("{name}: {step} found, {plain} by a walk\n"));
    Ok(())
}

/// Objects, and what is looked for.
#[derive(Drop)]
struct Looks {
    state: Snapshot,
    sought: Option<Selection>,
}

impl Race for Looks {
    fn ready(&mut self) -> Result<(), Memory> {
        Ok(())
    }

    fn step(&mut self) -> u64 {
        match &self.sought {
            Some(sought) => found(self.state.range(None), sought),
            None => 0,
        }
    }

    fn plain(&mut self) -> u64 {
        match &self.sought {
            Some(sought) => walked(self.state.range(None), sought),
            None => 0,
        }
    }
}

// How many of the rows a look finds, which passes over those whose words lack a bit.
#[inline(never)]
fn found(rows: Rows<'_>, sought: &Selection) -> u64 {
    let mask = sought.mask();
    let mut rows = rows;
    let mut found = 0u64;
    for _ in 0..u64::MAX {
        let Some(shown) = rows.next_with(mask) else {
            break;
        };
        found = found.wrapping_add(u64::from(sought.selects(&shown.row().obj)));
    }
    found
}

// The same by a walk over all of them.
#[inline(never)]
fn walked(rows: Rows<'_>, sought: &Selection) -> u64 {
    let mut found = 0u64;
    for shown in rows {
        found = found.wrapping_add(u64::from(sought.selects(&shown.row().obj)));
    }
    found
}

// So many objects, each of so many labels.
fn state(alloc: Global, count: usize, labels: usize) -> Result<Snapshot, Memory> {
    let mut tree = Tree::new(alloc)?;
    let filled = fill(alloc, &mut tree, count, labels);
    done(tree.into_snapshot(), filled)
}

fn fill(alloc: Global, tree: &mut Tree, count: usize, labels: usize) -> Result<(), Memory> {
    for number in 0..count {
        let labels = labels_of(alloc, number, labels)?;
        tree.put(shown(alloc, number, count, labels.as_str())?)?;
    }
    Ok(())
}

// So many labels, as a JSON object's members.
fn labels_of(alloc: Global, number: usize, count: usize) -> Result<String, Memory> {
    let mut labels = Wording::new(alloc);
    labels.show(&format_args!("\"app\":\"web-{}\"", number % 10));
    for name in NAMES.iter().take(count.saturating_sub(1)) {
        labels.show(&format_args!(",\"{name}\":\"v-{}\"", number % 23));
    }
    labels.whole()
}
