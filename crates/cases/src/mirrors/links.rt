//! Rows of mirrors: whose pods are asked for, and the bytes of a peer's connections, one after the other.

ghost use Rattle.std.specs.Prelude.{◌≡◌, IfOk, IfSome, true};
ghost use Rattle.kube_meta.specs.Names.{IsNamespace};

use crate::mirrors::follows::{Follows, HISTORY, follow_all, hear, list_store, source_of};
use crate::rows::{Steps, Wording, split};
use edge_io::{MemSink, MemSource};
use kube_meta::{Memory, Resource, Text, is_namespace};
use mirror_link::{Heard, LinkNo, Mirror, Opening};
use rev_front::{Blank, blank};
use rev_log::Revision;
use select_all::Selection;
use std::alloc::Global;
use std::marker::Brand;
use std::sync::Wait;
use up_api::LogFacts;

/// Mirrors that follow a peer.
#[derive(Clone, Copy)]
pub struct Links<R> {
    pub rt: R,
}

impl<R: Wait + Copy> Steps for Links<R> {
    // Opens over the first connection, and follows it and the others.
    fn answer(&mut self, alloc: Global, step: &str, told: &mut Wording) -> Result<(), Memory> {
        let (first, others) = step.split_once(" | ").unwrap_or((step, ""));
        let (ns, rest) = split(first);
        let (label, rest) = split(rest);
        let (field, words) = split(rest);
        let mut source = source_of(alloc, words)?;
        let opened = opening_of(alloc, ns, (label, field), &mut source, told)?;
        match opened {
            Some(opening) => begin(self.rt, alloc, opening, &mut source, others, told),
            None => Ok(()),
        }
    }
}

/// The namespace that a word names. One that may name none, as `-`, stands for all.
pub fn namespace_of(alloc: Global, word: &str) -> Result<Option<Text>, Memory>
    ensures { IfOk result (λ ns. IfSome ns IsNamespace) }
{
    if is_namespace(word) {
        Ok(Some(Text::new(alloc, word)?))
    } else {
        Ok(None)
    }
}

// The opening of the pods that are selected, where `-` is no selector. Where there is none, it tells why.
fn opening_of(
    alloc: Global,
    ns: &str,
    (label, field): (&str, &str),
    source: &mut MemSource,
    told: &mut Wording,
) -> Result<Option<Opening>, Memory> {
    let ns = namespace_of(alloc, ns)?;
    let label = label.strip_prefix('-').unwrap_or(label);
    let field = field.strip_prefix('-').unwrap_or(field);
    let mut sink = MemSink::new(65536, Vec::new(alloc));
    match Selection::read(alloc, Resource::Pods, ns, label, field) {
        Ok(selection) => opened(
            Opening::read(alloc, selection, label, field, source, &mut sink),
            told,
        ),
        Err(_) => Err(Memory),
    }
}

fn opened(read: Result<Opening, LinkNo>, told: &mut Wording) -> Result<Option<Opening>, Memory> {
    match read {
        Ok(opening) => Ok(Some(opening)),
        Err(why) => {
            tell_why(why, told)?;
            Ok(None)
        }
    }
}

// Tells why a peer isn't heard any longer: there is nothing more.
fn tell_why(why: LinkNo, told: &mut Wording) -> Result<bool, Memory> {
    if let LinkNo::Memory = why {
        return Err(Memory);
    }
    told.debug(&why);
    Ok(false)
}

// Begins the log of an opening.
fn begin<R: Wait + Copy>(
    rt: R,
    alloc: Global,
    opening: Opening,
    source: &mut MemSource,
    others: &str,
    told: &mut Wording,
) -> Result<(), Memory> {
    let made = blank(alloc, opening.base())?;
    let others = String::from_str(alloc, others)?;
    follow::<Brand, R>(rt, alloc, opening, made, source, others, told)
}

// Follows the connections with the mirror of an opening.
fn follow<N: LogFacts, R: Wait + Copy>(
    rt: R,
    alloc: Global,
    opening: Opening,
    made: Blank<Revision>,
    source: &mut MemSource,
    others: String,
    told: &mut Wording,
) -> Result<(), Memory>
    requires name { made ≡ N.log }
    requires first { made.first ≡ opening.base }
    requires base { N.base ≡ opening.rows }
    requires mirror { N.mirror ≡ true }
{
    let mut mirror: Mirror<N, R> = Mirror::new(rt, alloc, opening, made, HISTORY)?;
    let gone = go_through(alloc, &mut mirror, source, others.as_str(), told);
    mirror.close();
    gone
}

fn go_through<M: Follows>(
    alloc: Global,
    mirror: &mut M,
    source: &mut MemSource,
    others: &str,
    told: &mut Wording,
) -> Result<(), Memory> {
    hear(mirror, source, told)?;
    follow_all(alloc, mirror, others, (" | ", ""), told)?;
    told.add("; ");
    mirror.list_at(None, told)
}

impl<N: LogFacts, R: Wait + Copy> Follows for Mirror<N, R> {
    fn ask_by(
        &mut self,
        is_anew: bool,
        source: &mut MemSource,
        sink: &mut MemSink,
        why: &mut Wording,
    ) -> Result<bool, Memory> {
        let asked = if is_anew {
            self.reopen(source, sink)
        } else {
            self.resume(source, sink)
        };
        match asked {
            Ok(()) => Ok(true),
            Err(no) => tell_why(no, why),
        }
    }

    fn hear_next(&mut self, source: &mut MemSource, told: &mut Wording) -> Result<bool, Memory> {
        match self.next(source) {
            Ok(Heard::Line { to }) => {
                told.show(&format_args!("Line {to}, "));
                Ok(true)
            }
            Ok(Heard::Ended { to }) => {
                told.show(&format_args!("Ended {to}"));
                Ok(false)
            }
            Err(no) => tell_why(no, told),
        }
    }

    fn list_at(&self, at: Option<u64>, told: &mut Wording) -> Result<(), Memory> {
        list_store(&mut self.door()?, at.unwrap_or(self.to()), told)
    }
}
