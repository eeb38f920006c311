//! Cases as data, and benchmarks. Each word of the command line is a file of cases, or a subject that is timed behind
//! `time:`, or counted behind `count:`.
//!
//! Files of parts, of scripts and of mirrors have rows, each a step and the answer that is wanted; each file of
//! `clients/` is a script of clients that share caches; those of `sessions/` have whole sessions, byte for byte, and
//! those of `servers/` what each connection of a server sends and gets back. What comes out otherwise is printed; the
//! last line counts rows and mismatches. How cases are written stands in the `README.txt` of each folder of `data`.
#![tactic(auto)]

mod bench;
mod clients;
mod mirrors;
mod parts;
mod rows;
mod scripts;
mod servers;
mod sessions;
mod settings;

use crate::bench::run_subject;
use crate::clients::run_clients;
use crate::mirrors::run_mirrors;
use crate::parts::run_parts;
use crate::rows::{Lines, Tally};
use crate::scripts::run_scripts;
use crate::servers::run_servers;
use crate::sessions::run_sessions;
use kube_meta::Memory;
use std::alloc::Global;
use std::io::Eprint;
use std::sync::Wait;
use std::thread::Threads;
use std::{env, fs, io};

/// What the cases need of the runtime.
pub trait Host: Wait + Threads + std::time::Clock + Eprint + Copy + Send + Sync + Drop {}

impl<R: Wait + Threads + std::time::Clock + Eprint + Copy + Send + Sync + Drop> Host for R {}

fn main(rt: HostRuntime) -> io::Result<()> {
    let mut tally = Tally::new(rt.alloc());
    for word in env::args(&rt)?.skip(1) {
        run_word(&rt, rt, word.as_str(), &mut tally)?;
    }
    let told = tally.whole()?;
    print!(rt; "{told}")
}

/// Times a subject, or counts what it does; or runs a file of cases, in threads of a host.
fn run_word<R: Host>(rt: &HostRuntime, host: R, word: &str, tally: &mut Tally) -> io::Result<()> {
    let told = &mut tally.others;
    if let Some(subject) = word.strip_prefix("time:") {
        run_subject(rt, rt.alloc(), subject, true, told)?;
        return Ok(());
    }
    if let Some(subject) = word.strip_prefix("count:") {
        run_subject(rt, rt.alloc(), subject, false, told)?;
        return Ok(());
    }
    let text = fs::read_to_string(rt, word)?;
    let lines = Lines {
        file: word,
        first: 1,
        text: text.as_str(),
    };
    run_file(host, rt.alloc(), lines, tally)?;
    Ok(())
}

/// Runs the cases of a file, as its folder says.
fn run_file<R: Host>(
    rt: R,
    alloc: Global,
    lines: Lines<'_>,
    tally: &mut Tally,
) -> Result<(), Memory> {
    let (folder, _) = lines.file.split_once('/').unwrap_or(("", ""));
    match folder {
        "sessions" => run_sessions(rt, alloc, lines.text, tally),
        "servers" => run_servers(rt, alloc, lines.text, tally),
        "clients" => run_clients(rt, alloc, lines, tally),
        "mirrors" => run_mirrors(rt, alloc, lines, tally),
        "scripts" => run_scripts(alloc, lines, tally),
        _ => run_parts(alloc, lines, tally),
    }
}
