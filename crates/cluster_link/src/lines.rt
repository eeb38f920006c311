//! Lines of a cluster's watch, as a mirror's log hears them.

ghost use Rattle.std.specs.Prelude.{◌≡◌, ◌≤◌, ◌^◌, IfSome, Some};
ghost use Rattle.up_api.specs.Sections.{Learns};
ghost use Rattle.watch_lines.specs.declared.peer_line.PeerLine.TheVariants as peer;
ghost use Rattle.cluster_link.specs.Telling.{HearsTold, HearsTextOf, IsInBounds};

use crate::refusals::log_refusal;
use crate::{ClusterNo, Heard};
use kube_meta::Obj;
use mirror_log::MirrorLog;
use select_all::Kind;
use std::alloc::Global;
use std::sync::Wait;
use up_api::LogFacts;
use watch_lines::{PeerLine, tell_line, what_is_told_is_kept};

// Hears an event, which is alone in its revision, and answers the end of the log.
fn hear_event<N: LogFacts, R: Wait + Copy>(
    log: &mut MirrorLog<N, R>,
    kind: Kind,
    obj: Obj,
    rev: u64,
) -> Result<u64, ClusterNo>
    requires { rev ≤ 2 ^ 62 }
    ensures learns { Learns log.old.told log.new.told }
    ensures hears { HearsTold log.old (Some (peer.Told kind obj rev)) result log.new }
{
    match log.hear_alone(kind, obj, rev) {
        Ok(to) => Ok(to),
        Err(why) => Err(log_refusal(log.to(), why)),
    }
}

// Hears a bookmark.
fn hear_mark<N: LogFacts, R: Wait + Copy>(
    log: &mut MirrorLog<N, R>,
    at: u64,
    closing: bool,
) -> Result<u64, ClusterNo>
    requires { at ≤ 2 ^ 62 }
    ensures learns { Learns log.old.told log.new.told }
    ensures hears { HearsTold log.old (Some (peer.Bookmark at closing)) result log.new }
{
    match log.hear_mark(at, closing) {
        Ok(to) => Ok(to),
        Err(why) => Err(log_refusal(log.to(), why)),
    }
}

// Hears what a line's text tells.
fn hear_told<N: LogFacts, R: Wait + Copy>(
    log: &mut MirrorLog<N, R>,
    found: Option<PeerLine>,
) -> Result<u64, ClusterNo>
    requires { IfSome found IsInBounds }
    ensures learns { Learns log.old.told log.new.told }
    ensures hears { HearsTold log.old found result log.new }
{
    match found {
        None => Err(ClusterNo::BadLine),
        Some(PeerLine::Told { kind, obj, rev }) => hear_event(log, kind, obj, rev),
        Some(PeerLine::Bookmark { at, closing }) => hear_mark(log, at, closing),
        Some(PeerLine::Error { code }) => Err(ClusterNo::Told { code }),
    }
}

/// Hears a line by its text.
pub(crate) fn hear_text<N: LogFacts, R: Wait + Copy>(
    alloc: Global,
    log: &mut MirrorLog<N, R>,
    text: &[u8],
) -> Result<Heard, ClusterNo>
    ensures learns { Learns log.old.told log.new.told }
    ensures hears { HearsTextOf log.old text.now result log.new }
{
    what_is_told_is_kept();
    let found = match tell_line(alloc, log.selection().resource, text) {
        Ok(found) => found,
        Err(_) => return Err(ClusterNo::Memory),
    };
    match hear_told(log, found) {
        Ok(to) => Ok(Heard::Line { to }),
        Err(why) => Err(why),
    }
}
