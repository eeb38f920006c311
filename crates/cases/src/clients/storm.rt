//! A storm: writers, watchers and operations at once, over the clients of one log, each in a thread of its own.

use crate::Host;
use crate::clients::asks::{list_ask, selected};
use crate::clients::seat::Seat;
use crate::clients::told::Told;
use crate::rows::{Draws, Wording, number, split, write_of};
use client_api::Client;
use kube_meta::Memory;
use select_all::{Meaning, Selection};
use shared_client::Cacher;
use std::alloc::Global;
use std::sync::Wait;
use std::sync::atomic::AtomicU64;
use std::sync::atomic::Ordering::SeqCst;
use std::thread::{self, Threads};
use std::time::Duration;
use up_api::LogFacts;
use up_store::{Operate, WriteAsk};

/// How many write. One more makes operations.
const WRITERS: usize = 8;

/// How many watch.
const WATCHERS: usize = 64;

/// How many pods are written in turns.
const PODS: u64 = 40;

/// How many operations are made.
const OPERATIONS: u64 = 40;

/// How many turns a watcher takes at most, and how often a part looks whether it may go on.
const TURNS: u64 = 40_000;

/// A storm: the seed of its draws, how many writes each writer asks for, how far it is, and what it came to.
#[derive(Drop)]
pub struct Storm {
    seed: u64,
    writes: u64,
    // How many watchers have begun, and how many writers and operators aren't done.
    begun: AtomicU64,
    busy: AtomicU64,
    // How many things were wrong, how many writes were accepted, and how many lines were told.
    wrongs: AtomicU64,
    accepted: AtomicU64,
    lines: AtomicU64,
}

impl Storm {
    /// What words say. Nobody has begun, and none is done.
    pub fn of_words(words: &str) -> Storm {
        let (seed, writes) = split(words);
        Storm {
            seed: number(seed),
            writes: number(writes),
            begun: AtomicU64::new(0),
            busy: AtomicU64::new(WRITERS as u64 + 1),
            wrongs: AtomicU64::new(0),
            accepted: AtomicU64::new(0),
            lines: AtomicU64::new(0),
        }
    }

    // The draws of a part.
    fn draws(&self, number: usize) -> Draws {
        Draws::from_seed(self.seed.wrapping_add(number as u64))
    }

    // What it leaves, having led from one revision to another: `right`, or what isn't.
    fn tell(&self, first: u64, last: u64, told: &mut Wording) {
        let (wrongs, accepted) = (self.wrongs.load(SeqCst), self.accepted.load(SeqCst));
        if wrongs > 0 {
            told.show(&format_args!("{wrongs} things went wrong"));
        } else if last != first.saturating_add(accepted) {
            told.show(&format_args!("{accepted} writes accepted, from {first} to {last}"));
        } else if accepted == 0 || self.lines.load(SeqCst) == 0 {
            told.add("little was done");
        } else {
            told.add("right");
        }
    }
}

/// Plays a storm, and tells what it leaves: `right`, or what isn't.
pub fn weather<N: LogFacts + Send + Sync, R: Host>(
    rt: R,
    alloc: Global,
    cacher: &Cacher<N, R>,
    storm: &Storm,
    told: &mut Wording,
) -> Result<(), Memory> {
    let first = newest(alloc, cacher.client()?)?;
    rage(&rt, alloc, cacher, storm)?;
    let last = newest(alloc, cacher.client()?)?;
    storm.tell(first, last, told);
    Ok(())
}

// Plays all parts of a storm, side by side, each by a client of its own.
fn rage<N: LogFacts + Send + Sync, R: Threads + Wait + std::time::Clock + Copy + Send + Sync>(
    rt: &R,
    alloc: Global,
    cacher: &Cacher<N, R>,
    storm: &Storm,
) -> Result<(), Memory> {
    let part = |number: usize| play::<N, R>(*rt, alloc, cacher, storm, number);
    let _ = thread::map_indices(rt, alloc, WRITERS + 1 + WATCHERS, &part)?;
    Ok(())
}

// The revision that the log has reached, as this client tells, which is let go.
fn newest<C: Client + Drop>(alloc: Global, client: C) -> Result<u64, Memory> {
    let mut seat = Seat::new(client);
    let ask = list_ask(alloc, some_selection(alloc, 0)?, Meaning::MostRecent)?;
    match seat.list(&ask) {
        Ok(listed) => Ok(listed.rev),
        Err(_) => Err(Memory),
    }
}

// Plays one part of a storm, and answers whether there was memory. It is wrong where there was none.
fn play<N: LogFacts, R: Wait + std::time::Clock + Copy>(
    rt: R,
    alloc: Global,
    cacher: &Cacher<N, R>,
    storm: &Storm,
    number: usize,
) -> bool {
    let is_played = play_by(rt, alloc, cacher.client(), storm, number).is_ok();
    if !is_played {
        storm.wrongs.fetch_add(1, SeqCst);
    }
    is_played
}

// The same with this client, which is let go.
fn play_by<C: Client + Drop, R: Wait + std::time::Clock + Copy>(
    rt: R,
    alloc: Global,
    client: Result<C, Memory>,
    storm: &Storm,
    number: usize,
) -> Result<(), Memory> {
    let mut seat = Seat::new(client?);
    if number > WRITERS {
        watch(rt, alloc, &mut seat, storm, number)
    } else {
        change(rt, alloc, &mut seat, storm, number)
    }
}

// Watches one of eight selections.
fn watch<C: Client, R: Wait + std::time::Clock + Copy>(
    rt: R,
    alloc: Global,
    seat: &mut Seat<C>,
    storm: &Storm,
    number: usize,
) -> Result<(), Memory> {
    let mut told = Told::new(alloc, some_selection(alloc, number)?);
    follow(rt, seat, (storm, number), &mut told)
}

// Writes, or makes operations, once all watchers have begun.
fn change<C: Client, R: Wait + std::time::Clock + Copy>(
    rt: R,
    alloc: Global,
    seat: &mut Seat<C>,
    storm: &Storm,
    number: usize,
) -> Result<(), Memory> {
    let mut draws = storm.draws(number);
    wait_until(rt, &storm.begun, WATCHERS as u64);
    let mut changed = Ok(());
    if number == WRITERS {
        operate(rt, seat, &mut draws, storm.writes);
    } else {
        changed = write(rt, alloc, seat, &mut draws, storm);
    }
    storm.busy.fetch_sub(1, SeqCst);
    changed
}

// Asks for writes, and counts those that are accepted. None is older than the one before.
fn write<C: Client, R: Wait + std::time::Clock + Copy>(
    rt: R,
    alloc: Global,
    seat: &mut Seat<C>,
    draws: &mut Draws,
    storm: &Storm,
) -> Result<(), Memory> {
    let mut last = 0u64;
    for _ in 0..storm.writes {
        if let Ok(written) = seat.write(&some_write(alloc, draws)?) {
            let wrongs = if last < written.rev { 0 } else { 1 };
            storm.wrongs.fetch_add(wrongs, SeqCst);
            storm.accepted.fetch_add(1, SeqCst);
            last = written.rev;
        }
        doze(rt, draws.below(3));
    }
    Ok(())
}

// A write of some pod: it is created, replaced or removed, as is drawn.
fn some_write(alloc: Global, draws: &mut Draws) -> Result<WriteAsk, Memory> {
    let number = draws.below(PODS);
    let app = match draws.below(4) {
        0 => "a",
        1 => "b",
        2 => "c",
        _ => "",
    };
    let verb = match draws.below(5) {
        0 | 1 => "create",
        2 | 3 => "replace",
        _ => "remove",
    };
    // It is bound to no node, whose name stands between two blanks.
    let text = format!(in alloc; "{verb} p-{number}  {app}")?;
    write_of(alloc, text.as_str())
}

// One of eight selections of pods.
fn some_selection(alloc: Global, number: usize) -> Result<Selection, Memory> {
    let labels = match number % 8 {
        0 => "",
        1 => "app=a",
        2 => "app!=a",
        3 => "app in (a,b)",
        4 => "!app",
        5 => "app notin (b,c)",
        6 => "app",
        _ => "app=c",
    };
    selected(alloc, labels, "").ok_or(Memory)
}

// Cuts, compacts and restarts. A compaction that is refused changes nothing.
fn operate<C: Client, R: Wait + std::time::Clock + Copy>(
    rt: R,
    seat: &mut Seat<C>,
    draws: &mut Draws,
    writes: u64,
) {
    for _ in 0..OPERATIONS {
        doze(rt, draws.below(20));
        let ask = match draws.below(4) {
            0 => Operate::Cut,
            1 => Operate::Restart,
            _ => Operate::Compact {
                at: draws.below(writes.max(1)).saturating_mul(WRITERS as u64),
            },
        };
        let _ = seat.operate(ask);
    }
}

// Watches until nobody is busy and all is told, and compares with lists by chance, and at the end. Each ninth watcher
// doesn't read until nobody is busy.
fn follow<C: Client, R: Wait + std::time::Clock + Copy>(
    rt: R,
    seat: &mut Seat<C>,
    (storm, number): (&Storm, usize),
    told: &mut Told,
) -> Result<(), Memory> {
    let mut draws = storm.draws(number);
    told.begin(seat)?;
    storm.begun.fetch_add(1, SeqCst);
    if number % 9 == 0 {
        wait_until(rt, &storm.busy, 0);
    }
    for _ in 0..TURNS {
        let is_last = storm.busy.load(SeqCst) == 0;
        if told.turn(seat)? {
            if is_last {
                break;
            }
            if draws.below(8) == 0 {
                told.compare(seat)?;
            }
            doze(rt, 1);
        }
    }
    let is_listed = told.compare(seat)?;
    told.expect(is_listed);
    storm.wrongs.fetch_add(told.wrongs, SeqCst);
    storm.lines.fetch_add(told.lines, SeqCst);
    Ok(())
}

// Waits until a count is this one.
fn wait_until<R: Wait + std::time::Clock + Copy>(rt: R, count: &AtomicU64, wanted: u64) {
    for _ in 0..TURNS {
        if count.load(SeqCst) == wanted {
            return;
        }
        doze(rt, 1);
    }
}

// Sleeps for so many milliseconds.
fn doze<R: Wait + std::time::Clock + Copy>(rt: R, ms: u64) {
    thread::sleep(&rt, Duration::from_millis(ms));
}
