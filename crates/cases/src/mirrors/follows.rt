//! What rows of peers and of clusters share: connections, one after the other, and what a mirror hears of each.

use crate::mirrors::words::text_of;
use crate::rows::{Wording, number, tell_rows};
use edge_io::{MemSink, MemSource};
use kube_meta::{Memory, Resource};
use std::alloc::Global;
use std::sync::Wait;
use up_api::{LogFacts, Pass, Upstream};
use up_store::StoreDoor;

/// How many revisions the store of a mirror keeps.
pub const HISTORY: u64 = 1000;

/// How many lines a mirror hears of a connection at most.
const LINES: usize = 100;

/// A mirror.
pub trait Follows {
    /// Asks over a connection to go on, or to begin anew. Answers whether it may be heard, and tells why it may not.
    fn ask_by(
        &mut self,
        is_anew: bool,
        source: &mut MemSource,
        sink: &mut MemSink,
        why: &mut Wording,
    ) -> Result<bool, Memory>;

    /// Tells what is heard next, and answers whether there may be more.
    fn hear_next(&mut self, source: &mut MemSource, told: &mut Wording) -> Result<bool, Memory>;

    /// Tells the pods that stand in the mirror's store at a revision, or else at its last one.
    fn list_at(&self, at: Option<u64>, told: &mut Wording) -> Result<(), Memory>;
}

/// Follows connections, each with these words before it and behind it.
pub fn follow_all<M: Follows>(
    alloc: Global,
    mirror: &mut M,
    connections: &str,
    around: (&str, &str),
    told: &mut Wording,
) -> Result<(), Memory> {
    for words in connections.split(" | ") {
        if !words.is_empty() {
            told.add(around.0);
            go_on(alloc, mirror, words, told)?;
            told.add(around.1);
        }
    }
    Ok(())
}

// Lists the mirror's store at a revision; or goes on over another connection, or begins anew there.
fn go_on<M: Follows>(
    alloc: Global,
    mirror: &mut M,
    words: &str,
    told: &mut Wording,
) -> Result<(), Memory> {
    match words.strip_prefix("LIST:") {
        Some(at) => mirror.list_at(Some(number(at)), told),
        None => connect(alloc, mirror, words, told),
    }
}

fn connect<M: Follows>(
    alloc: Global,
    mirror: &mut M,
    words: &str,
    told: &mut Wording,
) -> Result<(), Memory> {
    let anew = words.strip_prefix("ANEW ");
    let mut source = source_of(alloc, anew.unwrap_or(words))?;
    match ask(alloc, mirror, anew.is_some(), &mut source, told)? {
        true => hear(mirror, &mut source, told),
        false => Ok(()),
    }
}

// Tells what is written to go on over another connection, or to begin anew over it.
fn ask<M: Follows>(
    alloc: Global,
    mirror: &mut M,
    is_anew: bool,
    source: &mut MemSource,
    told: &mut Wording,
) -> Result<bool, Memory> {
    let mut sink = MemSink::new(65536, Vec::new(alloc));
    let mut why = Wording::new(alloc);
    let is_asked = mirror.ask_by(is_anew, source, &mut sink, &mut why)?;
    tell_written(sink.bytes(), told);
    told.add(why.whole()?.as_str());
    Ok(is_asked)
}

/// Tells what a mirror hears, up to where nothing more comes.
pub fn hear<M: Follows>(
    mirror: &mut M,
    source: &mut MemSource,
    told: &mut Wording,
) -> Result<(), Memory> {
    for _ in 0..LINES {
        if !mirror.hear_next(source, told)? {
            break;
        }
    }
    Ok(())
}

/// A connection that gives the text of words.
pub fn source_of(alloc: Global, words: &str) -> Result<MemSource, Memory> {
    let bytes = text_of(alloc, words)?.as_bytes().to_vec(alloc)?;
    Ok(MemSource::new(bytes, 65536, Vec::new(alloc)))
}

/// The lines that were written.
pub fn tell_written(bytes: &[u8], told: &mut Wording) {
    let text = str::from_utf8(bytes).unwrap_or("(no UTF-8)");
    for line in text.lines() {
        told.show(&format_args!("{line}<CRLF>"));
    }
    told.add(" ");
}

/// The pods that stand in a store at a revision.
pub fn list_store<N: LogFacts, R: Wait + Copy>(
    door: &mut StoreDoor<N, R>,
    at: u64,
    told: &mut Wording,
) -> Result<(), Memory> {
    let mut pass = door.pass()?;
    tell_list(door, &mut pass, at, told);
    Ok(())
}

fn tell_list<N: LogFacts, R: Wait + Copy>(
    door: &mut StoreDoor<N, R>,
    pass: &mut Pass<N>,
    at: u64,
    told: &mut Wording,
) {
    match door.list_at(Resource::Pods, at, pass) {
        Ok(rows) => {
            told.show(&format_args!("at {at}"));
            tell_rows(&rows, " ", told);
        }
        Err(no) => told.debug(&no),
    }
}
