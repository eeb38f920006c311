//! What helps whoever has a record of an unknown log judged, on standard error.

use crate::cluster_advice::{of_trouble, text_of};
use crate::unknown::Judged;
use body_check::Verdict;
use kube_meta::Resource;
use std::alloc::Global;
use std::io::Eprint;
use watch_lines::{BadText, trouble_of};
use watch_record::BetweenNo;

/// Says why bytes are no record, or where no log tells what they say: the line, from 1, and what is wrong with it. Here
/// and below, a line that can't be written is left out.
pub fn say_unknown<R: Eprint + Copy>(
    rt: R,
    alloc: Global,
    bytes: &[u8],
    judged: Result<Judged, BetweenNo>,
) {
    match judged {
        Ok(judged) => say_verdict(rt, bytes, judged.verdict),
        Err(BetweenNo::BadList { list }) => say_bad_list(rt, alloc, bytes, list),
        Err(why) => {
            let (line, words) = (line_of(why), of_record(why));
            let _ = eprintln!(rt; "watchcache: line {line} of the record: {words}");
        }
    }
}

// Says where no log tells a record.
fn say_verdict<R: Eprint + Copy>(rt: R, bytes: &[u8], verdict: Verdict) {
    let _ = match verdict {
        Verdict::BadLine { line } => {
            let at = part_of(bytes, 1).0.saturating_add(line);
            eprintln!(rt;
                "watchcache: line {at} of the record: no log has the first list and tells the lines up to this one"
            )
        }
        Verdict::BadList { list } => {
            let at = part_of(bytes, part_at(list)).0;
            eprintln!(rt;
                "watchcache: line {at} of the record: no log that tells the lines has list {list} too"
            )
        }
        Verdict::Lawful { .. } => Ok(()),
    };
}

// Says why a part is no list: which object is wrong, if one is.
fn say_bad_list<R: Eprint + Copy>(rt: R, alloc: Global, bytes: &[u8], list: u64) {
    let (at, text) = part_of(bytes, part_at(list));
    let _ = match trouble_of(alloc, resource_of(bytes), text) {
        Ok(BadText { trouble, ns, name }) => {
            let (words, ns, name) = (of_trouble(trouble), text_of(&ns), text_of(&name));
            eprintln!(rt;
                "watchcache: line {at} of the record: list {list}, object {ns}/{name}: {words}, or it is a page with a `continue`, or of another revision than the query's, or below it"
            )
        }
        Err(_) => Ok(()),
    };
}

// Which part of a record a list is: the body stands behind the first.
fn part_at(list: u64) -> u64 {
    if list == 0 { 0 } else { list.saturating_add(1) }
}

// The number, from 1, of the first line of a part, and the part's text.
fn part_of(bytes: &[u8], part: u64) -> (u64, &[u8]) {
    let (line, start) = end_of(bytes, part);
    let (_, next) = end_of(bytes, part.saturating_add(1));
    if start < next && next <= bytes.len() {
        (line, &bytes[start..next])
    } else {
        (line, b"")
    }
}

// The number of the line behind so many empty lines behind the first line, and where it begins.
fn end_of(bytes: &[u8], empty: u64) -> (u64, usize) {
    let mut line: u64 = 1;
    let mut left = empty;
    let mut fresh = true;
    for (at, byte) in bytes.iter().enumerate() {
        if *byte != b'\n' {
            fresh = false;
            continue;
        }
        if line == 1 || fresh {
            if left == 0 {
                return (line.saturating_add(1), at + 1);
            }
            left -= 1;
        }
        line = line.saturating_add(1);
        fresh = true;
    }
    (line, bytes.len())
}

// The resource that the first line names.
fn resource_of(bytes: &[u8]) -> Resource {
    let first = first_line(bytes);
    if first.ends_with(b"\"configmaps\"}") {
        Resource::ConfigMaps
    } else if first.ends_with(b"\"deployments\"}") {
        Resource::Deployments
    } else {
        Resource::Pods
    }
}

// The first line of bytes.
fn first_line(bytes: &[u8]) -> &[u8] {
    match bytes.iter().position(|byte| *byte == b'\n') {
        Some(end) => &bytes[..end],
        None => bytes,
    }
}

// The line with which something is wrong.
fn line_of(why: BetweenNo) -> u64 {
    match why {
        BetweenNo::NoBody => 2,
        _ => 1,
    }
}

// What is wrong with bytes that are no record.
fn of_record(why: BetweenNo) -> &'static str {
    match why {
        BetweenNo::TooLong => "it has more than 268435456 bytes",
        BetweenNo::NoBody => "an empty line has to end the first list",
        BetweenNo::BadAsk => "its query asks for no watch of its resource from a revision",
        BetweenNo::BadHeader | BetweenNo::BadList { .. } | BetweenNo::Memory => "it can't be read",
    }
}
