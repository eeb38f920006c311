//! Which lanes a change is told to, by the name, the node and the namespace of a pod.

use crate::rows::{NO_STEP, Steps, Wording, number, object, split};
use kube_meta::{Memory, Obj, Resource, Text};
use select_all::Selection;
use std::alloc::Global;
use watch_lane::LaneIndex;

/// An index of lanes by the first listed field of pods, `spec.nodeName`.
#[derive(Drop)]
pub struct Lanes {
    index: LaneIndex,
}

impl Lanes {
    /// An index without lanes.
    pub fn new(alloc: Global) -> Lanes {
        let index = LaneIndex::new(alloc, 0);
        Lanes { index }
    }
}

impl Steps for Lanes {
    fn answer(&mut self, alloc: Global, step: &str, told: &mut Wording) -> Result<(), Memory> {
        let (verb, rest) = split(step);
        let (first, second) = split(rest);
        match verb {
            "add" => add(alloc, &mut self.index, first, second)?,
            "drop" => self.index.drop_lane(number(first)),
            "change" => return change(alloc, &self.index, first, second, told),
            _ => told.add(NO_STEP),
        }
        told.add("ok");
        Ok(())
    }
}

// Adds a lane in a namespace, or with `*` in all: its number and its field selector.
fn add(alloc: Global, index: &mut LaneIndex, ns: &str, lane: &str) -> Result<(), Memory> {
    let (id, fields) = split(lane);
    let ns = if ns == "*" {
        None
    } else {
        Some(Text::new(alloc, ns)?)
    };
    match Selection::read(alloc, Resource::Pods, ns, "", fields) {
        Ok(selection) => index.add(number(id), &selection),
        Err(_) => Err(Memory),
    }
}

// The lanes that are told of a change from one pod to another.
fn change(
    alloc: Global,
    index: &LaneIndex,
    old: &str,
    new: &str,
    told: &mut Wording,
) -> Result<(), Memory> {
    let old = pod(alloc, old)?;
    let new = pod(alloc, new)?;
    told.add("lanes");
    for id in index.touched(old.as_ref(), new.as_ref())? {
        told.show(&format_args!(" {id}"));
    }
    Ok(())
}

// The pod that a word names: `none`, the node of one, or its namespace, its name and its node, as `shop/web@node-1`.
fn pod(alloc: Global, word: &str) -> Result<Option<Obj>, Memory> {
    if word == "none" {
        return Ok(None);
    }
    let (own, node) = word.split_once('@').unwrap_or(("default/web", word));
    let place = own.split_once('/').unwrap_or(("default", own));
    Ok(Some(object(alloc, Resource::Pods, place, node, "")?))
}
