//! Rows of clusters: whose pods are asked for, and the bytes of a cluster's connections, one after the other.

ghost use Rattle.std.specs.Prelude.{◌≡◌, [], IfOk, true};
ghost use Rattle.kube_meta.specs.declared.resources.Resource.TheVariants.{Pods};
ghost use Rattle.cluster_link.specs.Lists.{IsOfAll};

use crate::mirrors::follows::{Follows, HISTORY, follow_all, list_store, source_of, tell_written};
use crate::mirrors::links::namespace_of;
use crate::rows::{Steps, Wording, split};
use cluster_link::{ClusterList, ClusterMirror, ClusterNo, Finding, Heard, read_uid};
use edge_io::{MemSink, MemSource};
use kube_meta::{Memory, Resource};
use rev_front::{Blank, blank};
use rev_log::Revision;
use select_all::Selection;
use std::alloc::Global;
use std::marker::Brand;
use std::sync::Wait;
use up_api::LogFacts;

/// Mirrors that follow a cluster, lists of it, and its uid.
#[derive(Clone, Copy)]
pub struct Clusters<R> {
    pub rt: R,
}

impl<R: Wait + Copy> Steps for Clusters<R> {
    // Asks for the uid; or lists over the first connection, and goes on over the others.
    fn answer(&mut self, alloc: Global, step: &str, told: &mut Wording) -> Result<(), Memory> {
        let (whose, rest) = split(step);
        let (first, others) = rest.split_once(" | ").unwrap_or((rest, ""));
        let mut source = source_of(alloc, first)?;
        let mut sink = MemSink::new(65536, Vec::new(alloc));
        if whose == "UID" {
            return tell_uid(alloc, &mut source, &mut sink, told);
        }
        match list_of(alloc, whose, &mut source, &mut sink, told)? {
            Some(list) => begin(self.rt, alloc, list, others, told),
            None => Ok(()),
        }
    }
}

// The uid that a cluster tells.
fn tell_uid(
    alloc: Global,
    source: &mut MemSource,
    sink: &mut MemSink,
    told: &mut Wording,
) -> Result<(), Memory> {
    let read = read_uid(alloc, source, sink);
    tell_written(sink.bytes(), told);
    match read {
        Ok(Some(uid)) => told.add(uid.as_str()),
        Ok(None) => told.add("hidden"),
        Err(why) => return tell_refusal(why, None, told),
    }
    Ok(())
}

// The list that the bytes have. Where there is none, it tells why.
fn list_of(
    alloc: Global,
    whose: &str,
    source: &mut MemSource,
    sink: &mut MemSink,
    told: &mut Wording,
) -> Result<Option<ClusterList>, Memory> {
    let Ok(selection) = Selection::read(alloc, Resource::Pods, namespace_of(alloc, whose)?, "", "")
    else {
        return Err(Memory);
    };
    let mut finding = None;
    let read = ClusterList::read(alloc, selection, source, sink, &mut finding);
    tell_written(sink.bytes(), told);
    match read {
        Ok(list) => Ok(Some(list)),
        Err(why) => {
            tell_refusal(why, finding.as_ref(), told)?;
            Ok(None)
        }
    }
}

// Begins the log of a list.
fn begin<R: Wait + Copy>(
    rt: R,
    alloc: Global,
    list: ClusterList,
    others: &str,
    told: &mut Wording,
) -> Result<(), Memory> {
    let made = blank(alloc, 1)?;
    let others = String::from_str(alloc, others)?;
    follow::<Brand, R>(rt, alloc, list, made, others, told)
}

// Follows the connections with the mirror of a list.
fn follow<N: LogFacts, R: Wait + Copy>(
    rt: R,
    alloc: Global,
    list: ClusterList,
    made: Blank<Revision>,
    others: String,
    told: &mut Wording,
) -> Result<(), Memory>
    requires name { made ≡ N.log }
    requires first { made.first ≡ 1 }
    requires base { N.base ≡ [] }
    requires mirror { N.mirror ≡ true }
{
    let made: Result<ClusterMirror<N, R>, ClusterNo> = ClusterMirror::new(
        rt, alloc, &list, made, HISTORY,
    );
    match made {
        Ok(mut mirror) => {
            let gone = go_through(alloc, &mut mirror, others.as_str(), told);
            mirror.close();
            gone
        }
        Err(why) => tell_refusal(why, None, told),
    }
}

fn go_through<M: Follows>(
    alloc: Global,
    mirror: &mut M,
    others: &str,
    told: &mut Wording,
) -> Result<(), Memory> {
    follow_all(alloc, mirror, others, ("| ", " "), told)?;
    mirror.list_at(None, told)
}

impl<N: LogFacts, R: Wait + Copy> Follows for ClusterMirror<N, R> {
    fn ask_by(
        &mut self,
        is_anew: bool,
        source: &mut MemSource,
        sink: &mut MemSink,
        why: &mut Wording,
    ) -> Result<bool, Memory> {
        let asked = if is_anew {
            self.take_list(source, sink)
        } else {
            self.resume(source, sink)
        };
        match asked {
            Ok(()) => return Ok(true),
            Err(no) => tell_refusal(no, self.finding(), why)?,
        }
        Ok(false)
    }

    fn hear_next(&mut self, source: &mut MemSource, told: &mut Wording) -> Result<bool, Memory> {
        match self.next(source) {
            Ok(Heard::Line { to }) => {
                told.show(&format_args!("Line {to}, "));
                return Ok(true);
            }
            Ok(Heard::Ended { to }) => told.show(&format_args!("Ended {to}")),
            Err(no) => tell_refusal(no, self.finding(), told)?,
        }
        Ok(false)
    }

    fn list_at(&self, at: Option<u64>, told: &mut Wording) -> Result<(), Memory> {
        list_store(&mut self.door()?, at.unwrap_or(self.to()), told)
    }
}

// Why a cluster isn't heard any longer, and what was found.
fn tell_refusal(
    why: ClusterNo,
    finding: Option<&Finding>,
    told: &mut Wording,
) -> Result<(), Memory> {
    if let ClusterNo::Memory = why {
        return Err(Memory);
    }
    told.debug(&why);
    match finding {
        Some(Finding::Text(bad)) => {
            told.add(" ");
            told.debug(&bad.trouble);
            for text in [&bad.ns, &bad.name] {
                match text {
                    Some(text) => told.show(&format_args!(" {}", text.as_str())),
                    None => told.add(" -"),
                }
            }
        }
        Some(Finding::Row(key)) => told.show(&format_args!(" {}/{}", key.ns(), key.name())),
        None => {}
    }
    Ok(())
}
