//! Words of rows, and the texts of lines that they stand for, put together here without the crates that are tried.

use crate::rows::{Wording, plain};
use kube_meta::Memory;
use std::alloc::Global;

// What stands in a head behind its status code.
const HEAD: &str = " Told\r\nContent-Type: application/json\r\nTransfer-Encoding: chunked\r\n\r\n";

const CLOSING: &str = "\"annotations\":{\"k8s.io/initial-events-end\":\"true\"},";

/// The text that words stand for. Each line is a chunk.
pub fn text_of(alloc: Global, words: &str) -> Result<String, Memory> {
    let mut told = Wording::new(alloc);
    for word in words.split(' ') {
        tell_word(alloc, word, &mut told)?;
    }
    told.whole()
}

// Tells what a word stands for.
fn tell_word(alloc: Global, word: &str, told: &mut Wording) -> Result<(), Memory> {
    let (name, rest) = word.split_once(':').unwrap_or((word, ""));
    match name {
        "A" => tell_event(alloc, "ADDED", rest, told),
        "M" => tell_event(alloc, "MODIFIED", rest, told),
        "D" => tell_event(alloc, "DELETED", rest, told),
        "B" => tell_bookmark(alloc, "", rest, told),
        "C" => tell_bookmark(alloc, CLOSING, rest, told),
        "MANY" => tell_pods(alloc, rest, told),
        "H" => {
            let code = if rest.is_empty() { "200" } else { rest };
            told.show(&format_args!("HTTP/1.1 {code}{HEAD}"));
            Ok(())
        }
        _ => {
            told.add(plain(alloc, word)?.as_str());
            Ok(())
        }
    }
}

// The line of this type of the pod that is named, as `web@2`, or `shop/web@2` outside of `default`.
fn tell_event(alloc: Global, kind: &str, pod: &str, told: &mut Wording) -> Result<(), Memory> {
    let (place, rev) = pod.split_once('@').unwrap_or((pod, "1"));
    let (ns, name) = place.split_once('/').unwrap_or(("default", place));
    let metadata = format!(in alloc;
        "\"name\":\"{name}\",\"namespace\":\"{ns}\",\"resourceVersion\":\"{rev}\""
    )?;
    tell_line(alloc, kind, metadata.as_str(), told)
}

// The line of a bookmark of pods with these annotations.
fn tell_bookmark(
    alloc: Global,
    annotations: &str,
    rev: &str,
    told: &mut Wording,
) -> Result<(), Memory> {
    let metadata = format!(in alloc; "{annotations}\"resourceVersion\":\"{rev}\"")?;
    tell_line(alloc, "BOOKMARK", metadata.as_str(), told)
}

// The line of this type of a pod, as a chunk.
fn tell_line(alloc: Global, kind: &str, metadata: &str, told: &mut Wording) -> Result<(), Memory> {
    let line = format!(in alloc;
        "{{\"type\":\"{kind}\",\"object\":{{\"apiVersion\":\"v1\",\"kind\":\"Pod\",\"metadata\":{{{metadata}}}}}}}\n"
    )?;
    told.show(&format_args!("{:x}\r\n{line}\r\n", line.len()));
    Ok(())
}

// The lines that add so many pods, as `70@2`, whose names rise from `p-10`.
fn tell_pods(alloc: Global, pods: &str, told: &mut Wording) -> Result<(), Memory> {
    let (count, rev) = pods.split_once('@').unwrap_or((pods, "1"));
    for n in 0..count.parse::<u8>().unwrap_or(0) {
        let pod = format!(in alloc; "p-{}@{rev}", u32::from(n) + 10)?;
        tell_event(alloc, "ADDED", pod.as_str(), told)?;
    }
    Ok(())
}
