//! What is answered to a step.

ghost use Rattle.std.specs.Prelude.{◌≡◌};
ghost use Rattle.kube_meta.specs.declared.resources.Resource.TheVariants.{Pods};

use crate::rows::{NO_STEP, Steps, Wording, number, split, tell_row, tell_rows, write_of};
use crate::scripts::scene::Scene;
use cache_hub::Hub;
use kube_meta::{Memory, Resource};
use rev_log::{Revision, state};
use select_all::Selection;
use std::alloc::Global;
use std::fmt::Debug;
use up_api::{Feed, LogFacts};
use up_store::{Transaction, WriteAsk};
use watch_lane::Line;

/// A scene, and a feed of its store that was begun.
#[derive(Drop)]
pub struct Stage<N: LogFacts> {
    pub scene: Scene<N>,
    pub feed: Option<Feed>,
}

impl<N: LogFacts> Steps for Stage<N> {
    fn answer(&mut self, alloc: Global, step: &str, told: &mut Wording) -> Result<(), Memory> {
        let (verb, rest) = split(step);
        let at = number(rest);
        match verb {
            "list" => list(&mut self.scene, at, told),
            "begin" => begin(self, at, told),
            "poll" => poll(self, at, told),
            "at" => tell_old(&self.scene.hub, at, told),
            "floor" => told.show(&self.scene.hub.floor()),
            "cut" => tell_number(self.scene.cut(), told),
            "compact" => tell_number(self.scene.compact(at), told),
            "tick" => self.scene.tick(at),
            _ => return answer_more(alloc, &mut self.scene, step, told),
        }
        Ok(())
    }
}

// The steps that want memory.
fn answer_more<N: LogFacts>(
    alloc: Global,
    scene: &mut Scene<N>,
    step: &str,
    told: &mut Wording,
) -> Result<(), Memory> {
    let (verb, rest) = split(step);
    match verb {
        "create" | "replace" | "remove" => write(scene, &write_of(alloc, step)?, told),
        "transact" => return transact(alloc, scene, rest, told),
        "state" => return tell_state(alloc, scene, number(rest), told),
        "pump" => return pump(scene, number(rest), told),
        "catch" => return catch(alloc, scene, rest, told),
        _ => told.add(NO_STEP),
    }
    Ok(())
}

// Tells a number, or why there is none.
fn tell_number<E: Debug + Copy>(answer: Result<u64, E>, told: &mut Wording) {
    match answer {
        Ok(number) => told.show(&number),
        Err(no) => told.debug(&no),
    }
}

fn write<N: LogFacts>(scene: &mut Scene<N>, ask: &WriteAsk, told: &mut Wording) {
    match scene.write(ask) {
        Ok(written) => told.show(&written.rev),
        Err(no) => told.debug(&no),
    }
}

// A transaction of the writes that are written so, with commas between them.
fn transact<N: LogFacts>(
    alloc: Global,
    scene: &mut Scene<N>,
    text: &str,
    told: &mut Wording,
) -> Result<(), Memory> {
    let mut asks = Vec::new(alloc);
    for part in text.split(", ") {
        if !part.is_empty() {
            asks.push(write_of(alloc, part)?)?;
        }
    }
    match Transaction::new(asks) {
        Ok(transaction) => tell_transacted(scene, &transaction, told),
        Err(no) => told.debug(&no),
    }
    Ok(())
}

fn tell_transacted<N: LogFacts>(
    scene: &mut Scene<N>,
    transaction: &Transaction,
    told: &mut Wording,
) {
    match scene.transact(transaction) {
        Ok(_) => told.show(&scene.told.shown()),
        Err(no) => told.debug(&no),
    }
}

fn list<N: LogFacts>(scene: &mut Scene<N>, at: u64, told: &mut Wording) {
    match scene.list(at) {
        Ok(rows) => tell_rows(&rows, "", told),
        Err(no) => told.debug(&no),
    }
}

fn begin<N: LogFacts>(stage: &mut Stage<N>, at: u64, told: &mut Wording) {
    match stage.scene.begin(at) {
        Ok(feed) => {
            stage.feed = Some(feed);
            told.show(&format_args!("upto {}, generation {}", feed.upto, feed.gen_));
        }
        Err(no) => told.debug(&no),
    }
}

fn poll<N: LogFacts>(stage: &mut Stage<N>, many: u64, told: &mut Wording) {
    let Some(mut feed) = stage.feed else {
        told.add("no feed");
        return;
    };
    match stage.scene.poll(&mut feed, many.clamp(1, 10_000) as usize) {
        Ok(polled) => tell_revisions(polled.upto, &polled.revisions, told),
        Err(no) => told.debug(&no),
    }
    stage.feed = Some(feed);
}

// How far revisions go, and how many changes each of them has.
fn tell_revisions(upto: u64, revisions: &[Revision], told: &mut Wording) {
    told.show(&format_args!("upto {upto}:"));
    for revision in revisions {
        let (rev, changes) = (revision.rev, revision.changes.len());
        told.show(&format_args!(" [{rev} of {changes}]"));
    }
}

// The rows that the store's history leaves at a revision, and how much of it that was.
fn tell_state<N: LogFacts>(
    alloc: Global,
    scene: &mut Scene<N>,
    at: u64,
    told: &mut Wording,
) -> Result<(), Memory> {
    let history = scene.history()?;
    let (floor, rows, revisions) = (history.floor, &history.rows, &history.revisions);
    let rows = state(alloc, rows, revisions, Resource::Pods, at)?;
    tell_rows(&rows, "", told);
    told.show(&format_args!(" from {floor}, "));
    tell_revisions(history.upto, revisions, told);
    Ok(())
}

// The cache's rows at a revision.
fn tell_old<N: LogFacts>(hub: &Hub<N>, at: u64, told: &mut Wording) {
    if at > hub.end() {
        told.add("above the end");
        return;
    }
    match hub.at(at) {
        Ok(snapshot) => {
            for shown in snapshot.range(None) {
                tell_row(shown.row(), told);
            }
        }
        Err(no) => told.debug(&no),
    }
}

fn pump<N: LogFacts>(scene: &mut Scene<N>, until: u64, told: &mut Wording) -> Result<(), Memory> {
    let pumped = scene.pump(until)?;
    let (end, cuts, rebuilds) = (pumped.end, pumped.cuts, pumped.rebuilds);
    told.show(&format_args!("end {end}, cuts {cuts}, rebuilds {rebuilds}"));
    Ok(())
}

// What a watch of all pods is told that catches up: from where, and about how many lines.
fn catch<N: LogFacts>(
    alloc: Global,
    scene: &mut Scene<N>,
    words: &str,
    told: &mut Wording,
) -> Result<(), Memory> {
    let (position, many) = split(words);
    match Selection::read(alloc, Resource::Pods, None, "", "") {
        Ok(selection) => {
            tell_caught(scene, &selection, number(position), number(many), told);
            Ok(())
        }
        Err(_) => Err(Memory),
    }
}

fn tell_caught<N: LogFacts>(
    scene: &mut Scene<N>,
    selection: &Selection,
    position: u64,
    many: u64,
    told: &mut Wording,
)
    requires { selection.now.resource ≡ Pods }
{
    let many = many.clamp(1, 10_000) as usize;
    match scene.catch_up(selection, position, many) {
        Ok(caught) => {
            told.show(&format_args!("up to {}:", caught.upto));
            for line in &caught.lines {
                told.add(" ");
                tell_line(line, told);
            }
        }
        Err(no) => told.debug(&no),
    }
}

/// A line as `[Added p-1 2]`.
pub fn tell_line(line: &Line, told: &mut Wording) {
    let row = line.shown.row();
    let name = row.obj.key.name();
    told.show(&format_args!("[{:?} {name} {}]", line.kind, row.rev));
}
