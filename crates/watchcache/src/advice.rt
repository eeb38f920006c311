//! What helps whoever runs the program, on standard error, beside what it prints.

use crate::asked::Fault;
use crate::complaints::complaint;
use mirror_link::LinkNo;
use std::alloc::Global;
use std::io::Eprint;
use watch_record::RecordNo;

/// Says on standard error that nobody takes a connection at the peer's port. Here and below, a line that can't be
/// written is left out.
pub fn say_no_peer<R: Eprint + Copy>(rt: R, port: u16) {
    let _ = eprintln!(rt;
        "watchcache: nobody takes a connection at 127.0.0.1:{port}; does the peer run?"
    );
}

/// Says why the peer at a port has no opening.
pub fn say_no_opening<R: Eprint + Copy>(rt: R, port: u16, why: LinkNo) {
    let words = of_link(why);
    let _ = match code_of(why) {
        Some(code) => eprintln!(rt;
            "watchcache: the peer at 127.0.0.1:{port} answers {code}: {words}"
        ),
        None => eprintln!(rt; "watchcache: the peer at 127.0.0.1:{port}: {words}"),
    };
}

/// Says why what was to be checked is no record.
pub fn say_no_record<R: Eprint + Copy>(rt: R, why: RecordNo) {
    let words = of_record(why);
    let _ = match line_of(why) {
        Some(line) => eprintln!(rt; "watchcache: line {line} of the record: {words}"),
        None => eprintln!(rt; "watchcache: the record: {words}"),
    };
}

/// Says what is wrong with words that ask for nothing: which option, what it may be, and that `--help` tells the rest.
pub fn say_fault<R: Eprint + Copy>(rt: R, alloc: Global, words: &[String], fault: Fault) {
    match fault {
        Fault::OutOfRange { name, low, high } => say_range(rt, name.text(), low, high),
        Fault::Misused => say_misuse(rt, alloc, words),
        Fault::NoCommand => say_words(rt, "the first word is session, serve, load or check"),
        Fault::FirstWithPeer => say_words(
            rt,
            "--first-revision goes with neither --peer nor --cluster: a mirror's log begins where the list stands that it is sent",
        ),
        Fault::ClusterWithPeer => say_words(
            rt,
            "--peer and --cluster exclude each other: a mirror follows one of them",
        ),
        Fault::WantsCluster { name } => say_lack(rt, name.text()),
        Fault::OtherResources => say_words(
            rt,
            "--resources takes some of pods, configmaps and deployments, each once, with a comma between two",
        ),
        Fault::BadNamespace => say_words(
            rt,
            "--namespace takes a namespace's name: 1 to 63 of a to z, 0 to 9 and -, a letter or digit first and last",
        ),
    }
}

fn say_range<R: Eprint + Copy>(rt: R, name: &str, low: u64, high: u64) {
    let _ = eprintln!(rt;
        "watchcache: --{name} takes a number from {low} to {high}; watchcache --help tells more"
    );
}

fn say_words<R: Eprint + Copy>(rt: R, words: &str) {
    let _ = eprintln!(rt; "watchcache: {words}; watchcache --help tells more");
}

fn say_lack<R: Eprint + Copy>(rt: R, name: &str) {
    let _ = eprintln!(rt;
        "watchcache: --{name} says what is mirrored of a cluster, and wants --cluster; watchcache --help tells more"
    );
}

// By clap's own text, where there is memory for it.
fn say_misuse<R: Eprint + Copy>(rt: R, alloc: Global, words: &[String]) {
    match complaint(alloc, words) {
        Ok(Some(text)) => {
            let text = text.as_str();
            let _ = eprintln!(rt; "watchcache: {text}");
        }
        _ => say_words(rt, "each option stands at most once, with its number"),
    }
}

// What a peer's refusal of an opening, or what it sent in place of one, tells.
fn of_link(why: LinkNo) -> &'static str {
    match why {
        LinkNo::BadHead => {
            "it sent no head of a chunked HTTP response; is it a `watchcache serve`?"
        }
        LinkNo::BadChunk => "its stream has no chunk where one has to be",
        LinkNo::BadLine => {
            "it sent a line that no `watchcache serve` sends; the API server of a cluster can't be a peer"
        }
        LinkNo::Order { .. } => "its lines aren't in the order of their revisions",
        LinkNo::Gap { .. } => "it is too many revisions ahead",
        LinkNo::Refused { .. } => {
            "it refused a streaming list of its pods; is it a `watchcache serve`, and no proxy?"
        }
        LinkNo::Told { .. } => "it ended its stream with an error",
        LinkNo::CutShort => "it closed the connection before its list had ended",
        LinkNo::ReadFault => "the connection failed as it was read",
        LinkNo::WriteFault => "the connection failed as it was asked",
        LinkNo::TooLong => "its pods have more than 1 GiB",
        LinkNo::OtherLog => "it has another log",
        LinkNo::Passed { .. } => "the log was written past the mirror",
        LinkNo::Memory => "there is no memory for its pods",
    }
}

// The code of the peer's refusal, where it is one.
fn code_of(why: LinkNo) -> Option<u16> {
    match why {
        LinkNo::Refused { code } => Some(code),
        LinkNo::Told { code } => Some(code),
        _ => None,
    }
}

// What is wrong with bytes that are no record.
fn of_record(why: RecordNo) -> &'static str {
    match why {
        RecordNo::TooLong => "it has more than 64 MiB, or more than 10000 revisions",
        RecordNo::BadHeader => {
            "it has to be compact JSON with first, floor, namespace, query, resource and window, in this order (jq -cS), or with namespace, query and resource alone where the log is unknown"
        }
        RecordNo::NoBody => "an empty line has to end the log, and a line feed the last line",
        RecordNo::BadLog { .. } => {
            "it has to tell the next revision as compact JSON with changes and rev, each change with key, object and resource (jq -cS)"
        }
        RecordNo::BadFloor => "its floor is below the first revision, or behind the log",
        RecordNo::BadAsk => "its query asks for no watch of its resource",
        RecordNo::Memory => "there is no memory for it",
    }
}

// The number of the record's line that is wrong, from 1, where one alone is: the log's first line is the second.
fn line_of(why: RecordNo) -> Option<u64> {
    match why {
        RecordNo::BadLog { line } => Some(line.saturating_add(2)),
        RecordNo::BadHeader | RecordNo::BadFloor | RecordNo::BadAsk => Some(1),
        _ => None,
    }
}
