//! The watch cache of a Kubernetes API server.
//!
//! `watchcache session` reads the requests of one connection on standard input, and writes the replies to standard
//! output. `watchcache serve` does so for the connections to a port, and `watchcache load` with requests that it draws.
//! `watchcache check` judges the record of a watch's body on standard input.
//! `watchcache --help` says which options they have.
#![tactic(auto)]

mod advice;
mod asked;
mod checks;
mod cluster;
mod cluster_advice;
mod commands;
mod complaints;
mod inputs;
mod lists;
mod loads;
mod mirroring;
mod noted;
mod options;
mod peer;
mod reading;
mod redial;
mod scope;
mod server;
mod session;
mod settings;
mod statuses;
mod telling;
mod texts;
mod unknown;
mod unknown_advice;
mod words;

ghost use Rattle.edge_io.specs.Sent.{sent_through};
ghost use Rattle.std.specs.Prelude.{◌≡◌, ◌<◌, ◌^◌, None, map, string_bytes};
ghost use Rattle.watchcache.specs.Run.{IsRun, ends_of, use_of};

use advice::say_fault;
use asked::WordsNo;
use bells::Rung;
use commands::perform;
use edge_io::{Clock, Listener, Net, ReadEnd, Sink, Source, StepClock, SystemClock, WriteEnd};
use net_front::{Host, Redial};
use noted::NotedNet;
use redial::LoopbackRedial;
use statuses::{BAD_WORDS, OUT_OF_MEMORY};
use std::alloc::{AllocError, Global};
use std::env::{self, Env};
use std::io::{Eprint, ErrorKind};
use std::process::ExitCode;
use tcp_net::LoopbackNet;
use words::read_words;

/// Does all that the program does. `words` are those of the command line behind the program's name. Answers the exit
/// status.
///
/// `session` with its options is one session over `source` and `sink`, with a client that answers from caches of a log
/// of its own, whose first revision is 1. `serve` serves each connection to a port by such a session, over one log, and
/// tells on `sink` how many there were; the status is 9 where `net` failed. Where it has a peer, the log is a mirror of
/// the peer's pods, which is followed by `redial` too; where what the peer sends first is no opening, that is told on
/// `sink`: status 13. Where it has a cluster, the same holds of lists of its resources, each of which has a log then.
/// `net` notes at which port it listened, which port was dialled, and how all sessions were set: as the options say.
/// `load` serves a session of drawn requests in memory, and tells on `sink` what came of it. `check` reads a record
/// from `source`, and tells on `sink` how the body in it is judged: status 0 where it is lawful, 11 where it isn't, 12
/// where the bytes are no record. `--help` and `--version`, at any place, are told on `sink`: status 0. All else is a
/// bad command line: status 2. The status is 4 where `sink` failed, and 8 where memory ran out.
pub fn run<R: Host, S: Source, K: Sink, T: Clock + Send, N: Net, D: Redial + Send + Drop>(
    rt: R,
    alloc: Global,
    words: &[String],
    source: &mut S,
    sink: &mut K,
    clock: &mut T,
    net: &mut NotedNet<N>,
    redial: &mut D,
) -> u8
where
    <N::L as Listener>::T: Rung,
    requires few_faults { N.faults net.old.net < 2 ^ 62 }
    requires quiet { net.old.notes.dialled ≡ None }
    ensures { IsRun (map string_bytes words.now)
        (ends_of S.left S.faults source.old source.new T.readings clock.old clock.new
        (sent_through K.written K.settled K.faults sink.old sink.new))
        (use_of N.faults N.served N.ended N.peer net.old.net net.new.net net.new.notes) result }
{
    let asked = read_words(alloc, words);
    perform(rt, alloc, &asked, source, sink, clock, net, redial)
}

// Runs over standard input and output and TCP. A server shows the time; all else reads a clock that steps.
fn main(rt: HostRuntime) -> ExitCode {
    let alloc = rt.alloc();
    let Ok(words) = words_of(&rt) else {
        return ExitCode::from(OUT_OF_MEMORY);
    };
    let mut source = ReadEnd::new(rt.reader());
    let mut sink = WriteEnd::new(alloc, rt.stdout());
    let mut net = NotedNet::new(LoopbackNet::new(alloc, rt));
    let mut redial = LoopbackRedial::new(alloc, rt);
    let status = if is_server(&words) {
        let mut clock = SystemClock::new(rt);
        run(
            rt,
            alloc,
            &words,
            &mut source,
            &mut sink,
            &mut clock,
            &mut net,
            &mut redial,
        )
    } else {
        let mut clock = StepClock::new();
        run(
            rt,
            alloc,
            &words,
            &mut source,
            &mut sink,
            &mut clock,
            &mut net,
            &mut redial,
        )
    };
    if status == BAD_WORDS {
        explain(rt, alloc, &words);
    }
    ExitCode::from(status)
}

// Says what is wrong with words that ask for nothing.
fn explain<R: Eprint + Copy>(rt: R, alloc: Global, words: &[String]) {
    if let Err(WordsNo::Bad(fault)) = read_words(alloc, words) {
        say_fault(rt, alloc, words, fault);
    }
}

/// The words of the command line behind the program's name. No word stands for words that can't be read, as one that
/// isn't UTF-8: a bad command line too.
fn words_of<R: Env + AllocGlobal>(rt: &R) -> Result<Vec<String>, AllocError> {
    match env::args(rt) {
        Ok(args) => args.skip(1).collect(rt.alloc()),
        Err(error) if error.kind() == ErrorKind::OutOfMemory => Err(AllocError),
        Err(_) => Ok(Vec::new(rt.alloc())),
    }
}

// Whether the first word is `serve`.
fn is_server(words: &[String]) -> bool {
    words.first().is_some_and(|word| word.as_str() == "serve")
}
