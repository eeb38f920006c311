//! What a line is to a walk.

ghost use Rattle.std.specs.Prelude.{IfOk};
ghost use Rattle.body_check.specs.Turning.{IsTurn, IsTurnBy};

use crate::walk::Walk;
use kube_meta::Memory;
use std::alloc::Global;
use watch_lines::{PeerLine, tell_line};
use watch_rules::WatchAsk;

/// What a line is to a walk.
#[derive(Clone, Copy, Debug, PartialEq, Eq)]
pub enum Turn {
    /// It goes on.
    On,
    /// It is the loss that ends a body.
    End,
    /// No log tells it here.
    Bad,
}

/// Takes a line, if some log tells it behind those before it.
pub(crate) fn hear(
    alloc: Global,
    ask: &WatchAsk,
    walk: &mut Walk,
    text: &[u8],
) -> Result<Turn, Memory>
    ensures { IfOk result (IsTurn ask.now text.now walk.old walk.new) }
{
    match tell_line(alloc, ask.selection.resource, text)? {
        Some(line) => take_line(alloc, ask, walk, line),
        None => Ok(Turn::Bad),
    }
}

// Takes what a line tells.
fn take_line(alloc: Global, ask: &WatchAsk, walk: &mut Walk, line: PeerLine) -> Result<Turn, Memory>
    ensures { IfOk result (IsTurnBy ask.now line walk.old walk.new) }
{
    match line {
        PeerLine::Told { kind, obj, rev } => {
            if !walk.takes(&ask.selection, kind, &obj, rev) {
                return Ok(Turn::Bad);
            }
            walk.take(alloc, kind, obj, rev)?;
            Ok(Turn::On)
        }
        PeerLine::Bookmark { at, closing } => {
            if closing || !ask.bookmarks || at < walk.to {
                return Ok(Turn::Bad);
            }
            walk.mark(at);
            Ok(Turn::On)
        }
        PeerLine::Error { code } => {
            if code == 410 {
                Ok(Turn::End)
            } else {
                Ok(Turn::Bad)
            }
        }
    }
}
