//! Lines, as a mirror's log hears them.

ghost use Rattle.std.specs.Prelude.{◌≡◌, ◌≤◌, ◌^◌, IfSome, Some};
ghost use Rattle.watch_lines.specs.declared.peer_line.PeerLine.TheVariants as peer;
ghost use Rattle.up_api.specs.Sections.{Learns};
ghost use Rattle.mirror_link.specs.Lines.{HearsRead, HearsText, IsBounded};

use crate::Heard;
use crate::link_refusal::LinkNo;
use crate::refusals::hearing_refusal;
use kube_meta::{Obj, Resource};
use mirror_log::MirrorLog;
use select_all::Kind;
use std::alloc::Global;
use std::sync::Wait;
use up_api::LogFacts;
use watch_lines::{PeerLine, read_line};

// Hears an event, and answers the end of the log.
fn hear_event<N: LogFacts, R: Wait + Copy>(
    log: &mut MirrorLog<N, R>,
    kind: Kind,
    obj: Obj,
    rev: u64,
) -> Result<u64, LinkNo>
    requires { rev ≤ 2 ^ 62 }
    ensures learns { Learns log.old.told log.new.told }
    ensures hears { HearsRead log.old (Some (peer.Told kind obj rev)) result log.new }
{
    match log.hear_event(kind, obj, rev) {
        Ok(to) => Ok(to),
        Err(why) => Err(hearing_refusal(log.to(), why)),
    }
}

// Hears a bookmark.
fn hear_mark<N: LogFacts, R: Wait + Copy>(
    log: &mut MirrorLog<N, R>,
    at: u64,
    closing: bool,
) -> Result<u64, LinkNo>
    requires { at ≤ 2 ^ 62 }
    ensures learns { Learns log.old.told log.new.told }
    ensures hears { HearsRead log.old (Some (peer.Bookmark at closing)) result log.new }
{
    match log.hear_mark(at, closing) {
        Ok(to) => Ok(to),
        Err(why) => Err(hearing_refusal(log.to(), why)),
    }
}

// Hears what was read of a line's text.
fn hear_line<N: LogFacts, R: Wait + Copy>(
    log: &mut MirrorLog<N, R>,
    read: Option<PeerLine>,
) -> Result<u64, LinkNo>
    requires { IfSome read IsBounded }
    ensures learns { Learns log.old.told log.new.told }
    ensures hears { HearsRead log.old read result log.new }
{
    match read {
        None => Err(LinkNo::BadLine),
        Some(PeerLine::Told { kind, obj, rev }) => hear_event(log, kind, obj, rev),
        Some(PeerLine::Bookmark { at, closing }) => hear_mark(log, at, closing),
        Some(PeerLine::Error { code }) => Err(LinkNo::Told { code }),
    }
}

/// Hears a line by its text.
pub(crate) fn take_line<N: LogFacts, R: Wait + Copy>(
    alloc: Global,
    log: &mut MirrorLog<N, R>,
    text: &[u8],
) -> Result<Heard, LinkNo>
    ensures learns { Learns log.old.told log.new.told }
    ensures hears { HearsText log.old text.now result log.new }
{
    let read = match read_line(alloc, Resource::Pods, text) {
        Ok(read) => read,
        Err(_) => return Err(LinkNo::Memory),
    };
    match hear_line(log, read) {
        Ok(to) => Ok(Heard::Line { to }),
        Err(why) => Err(why),
    }
}
