//! A cache with lanes, and a plain list of its objects.

ghost use Rattle.std.specs.Prelude.{◌≡◌};
ghost use Rattle.kube_meta.specs.declared.resources.Resource.TheVariants.{Pods};

use crate::bench::figures::{Laps, Race, done};
use crate::rows::write_of;
use crate::scripts::Scene;
use encode_once::Shown;
use kube_meta::{Memory, Resource, Row, Text};
use obj_tree::Snapshot;
use select_all::Selection;
use std::alloc::Global;
use std::sync::Arc;
use up_api::LogFacts;
use watch_lane::LaneOut;

/// How many nodes there are: pod i runs on node i mod 1,000.
pub const NODES: usize = 1_000;

/// How many objects a page has.
const PAGE: usize = 500;

/// Of which pods each lane is: those of a node of its own, those of a namespace of its own, which has none, or all.
#[derive(Clone, Copy)]
pub enum Kind {
    Node,
    Namespace,
    All,
}

/// What the store is asked for: all objects, or the first page of them.
#[derive(Clone, Copy)]
pub enum Read {
    List,
    Page,
}

/// A cache with lanes, and a plain list of its objects; and what the store is asked for, so many revisions before its
/// end.
#[derive(Drop)]
pub struct Bench<N: LogFacts> {
    pub read: Read,
    pub behind: u64,
    pub objects: usize,
    pub alloc: Global,
    pub scene: Scene<N>,
    pub plain: Vec<Arc<Shown>>,
    pub lanes: Vec<LaneOut<N>>,
}

impl<N: LogFacts> Bench<N> {
    /// Creates the objects, which the cache takes in.
    pub fn fill(&mut self) -> Result<(), Memory> {
        for number in 0..self.objects {
            self.write("create", number)?;
        }
        self.scene.pump(u64::MAX)?;
        self.plain = first(self.alloc, &self.scene.hub.snapshot()?, usize::MAX)?;
        Ok(())
    }

    // Writes the pod of a number.
    fn write(&mut self, verb: &str, number: usize) -> Result<(), Memory> {
        let text = format!(in self.alloc;
            "{verb} web-6d4b75cb6d-{} node-{}",
            1_000_000usize.wrapping_add(number),
            number % NODES
        )?;
        let ask = write_of(self.alloc, text.as_str())?;
        drop(self.scene.write(&ask));
        Ok(())
    }

    /// Opens the lane of this kind and number.
    pub fn open(&mut self, kind: Kind, number: usize) -> Result<(), Memory> {
        let (ns, fields) = match kind {
            Kind::Node => (
                None,
                format!(in self.alloc; "spec.nodeName=node-{}", number % NODES)?,
            ),
            Kind::Namespace => (
                Some(Text::from_string(format!(in self.alloc; "space-{number}")?)),
                String::new(self.alloc),
            ),
            Kind::All => (None, String::new(self.alloc)),
        };
        self.open_lane(ns, fields.as_str())
    }

    fn open_lane(&mut self, ns: Option<Text>, fields: &str) -> Result<(), Memory> {
        match Selection::read(self.alloc, Resource::Pods, ns, "", fields) {
            Ok(selection) => self.open_for(&selection),
            Err(_) => Err(Memory),
        }
    }

    fn open_for(&mut self, selection: &Selection) -> Result<(), Memory>
        requires { selection.now.resource ≡ Pods }
    {
        let (_, lane) = self.scene.open(selection)?;
        self.lanes.push(lane)?;
        Ok(())
    }

    /// Makes so many changes, which go round the first 50 nodes, and on each round its pods. The cache then takes them
    /// in one by one. The answer is how many nanoseconds that took.
    pub fn changes(&mut self, rt: &HostRuntime, many: usize) -> Result<u64, Memory> {
        for number in 0..many {
            let round = (number / 50) % (self.objects / NODES).max(1);
            self.write(
                "replace",
                round.wrapping_mul(NODES).wrapping_add(number % 50),
            )?;
        }
        let mut laps = Laps::begin(rt);
        self.scene.pump(u64::MAX)?;
        Ok(laps.lap(rt))
    }

    /// Takes all batches out of the lanes. The answer is how many lines they had.
    pub fn drain(&mut self) -> usize {
        let mut lines = 0usize;
        for lane in &mut self.lanes {
            for _ in 0..256 {
                let Some(batch) = lane.ready() else {
                    break;
                };
                lines = lines.saturating_add(batch.len());
            }
        }
        lines
    }

    /// How often a store that keeps 100 changes, its cache and a list hold the objects of the list. One is held three
    /// times: by what the store shows at its floor and at its end; by what the cache's tree and events show; and by the
    /// list. One that was written after the floor is held by its change too. No contract can say this.
    pub fn held(&mut self) -> usize {
        self.plain.clear();
        let floor = self.scene.told.shown().saturating_sub(100);
        let _ = self.scene.compact(floor);
        let at = self.at();
        match self.scene.list(at) {
            Ok(rows) => holders(&rows),
            Err(_) => 0,
        }
    }

    // The revision that is asked for.
    fn at(&self) -> u64 {
        self.scene.told.shown().saturating_sub(self.behind)
    }

    fn list(&mut self) -> usize {
        let at = self.at();
        match self.scene.list(at) {
            Ok(rows) => rows.len(),
            Err(_) => 0,
        }
    }

    fn page(&mut self) -> Result<usize, Memory> {
        let at = self.at();
        match self.scene.old(at) {
            Ok(old) => Ok(first(self.alloc, &old.made()?, PAGE)?.len()),
            Err(_) => Ok(0),
        }
    }

    fn plain_copy(&self, limit: usize) -> Result<usize, Memory> {
        let mut list = Vec::new(self.alloc);
        for shown in &self.plain {
            if list.len() == limit {
                break;
            }
            list.push(Arc::try_clone(shown)?)?;
        }
        Ok(list.len())
    }
}

fn holders(rows: &[Row]) -> usize {
    let mut held = 0usize;
    for row in rows {
        held = held.saturating_add(Arc::strong_count(&row.obj));
    }
    held
}

// So many objects at most, the first ones in the order of their keys, each shared.
fn first(alloc: Global, state: &Snapshot, limit: usize) -> Result<Vec<Arc<Shown>>, Memory> {
    let mut list = Vec::new(alloc);
    let shared = share(state, limit, &mut list);
    done(list, shared)
}

fn share(state: &Snapshot, limit: usize, list: &mut Vec<Arc<Shown>>) -> Result<(), Memory> {
    for shown in state.range(None) {
        if list.len() == limit {
            break;
        }
        list.push(Arc::try_clone(shown)?)?;
    }
    Ok(())
}

/// What the store is asked for, beside a copy of as many objects of the plain list. Each answer is let go of.
impl<N: LogFacts> Race for Bench<N> {
    fn ready(&mut self) -> Result<(), Memory> {
        Ok(())
    }

    #[inline(never)]
    fn step(&mut self) -> u64 {
        match self.read {
            Read::List => self.list() as u64,
            Read::Page => self.page().unwrap_or(0) as u64,
        }
    }

    #[inline(never)]
    fn plain(&mut self) -> u64 {
        let limit = match self.read {
            Read::List => usize::MAX,
            Read::Page => PAGE,
        };
        self.plain_copy(limit).unwrap_or(0) as u64
    }
}
