//! The judgement of a record of an unknown log.

ghost use Rattle.std.specs.Prelude.{◌≡◌, ◌≢◌, ◌++◌, Err, codes, decimal};
ghost use Rattle.edge_io.specs.Sent.{sent_through};
ghost use Rattle.watchcache.specs.Run.{IsSaidBetween, IsTold, status_of_between, status_of_lists};
ghost use Rattle.watchcache.specs.Texts as texts;
ghost use Rattle.watchcache.specs.Texts.{between_verdict, unknown_verdict};

use crate::statuses::{DONE, NO_RECORD, UNLAWFUL};
use crate::telling::tell;
use body_check::{Verdict, check_lists};
use edge_io::Sink;
use itoa::Buffer;
use std::alloc::Global;
use watch_record::{BetweenNo, read_between};

/// How a record is judged, and how many later lists it has.
#[derive(Clone, Copy, Debug, PartialEq, Eq)]
pub struct Judged {
    pub verdict: Verdict,
    pub lists: u64,
}

/// How the record of an unknown log that these bytes are is judged, or why they are none.
pub fn judge_unknown(alloc: Global, bytes: &[u8]) -> Result<Judged, BetweenNo>
    ensures { result ≢ Err BetweenNo.Memory → IsSaidBetween bytes.now result }
{
    let case = read_between(alloc, bytes)?;
    Ok(Judged {
        verdict: check_lists(alloc, &case)?,
        lists: case.later.len() as u64,
    })
}

/// Tells a judgement.
pub fn write_judged<K: Sink>(judged: Result<Judged, BetweenNo>, sink: &mut K) -> u8
    ensures { IsTold (between_verdict judged) (status_of_between judged) (sent_through K.written K.settled K.faults sink.old sink.new) result }
{
    match judged {
        Ok(judged) => write_found(judged, sink),
        Err(BetweenNo::BadList { list }) => write_bad_list(list, sink),
        Err(no) => {
            let pieces: [&[u8]; 3] = [b"record: ", name_of(no), b"\n"];
            tell(sink, &pieces, NO_RECORD)
        }
    }
}

fn write_found<K: Sink>(judged: Judged, sink: &mut K) -> u8
    ensures { IsTold (unknown_verdict judged.verdict judged.lists) (status_of_lists judged.verdict) (sent_through K.written K.settled K.faults sink.old sink.new) result }
{
    match judged.verdict {
        Verdict::Lawful { from, to, held } => write_lawful(from, to, held, judged.lists, sink),
        Verdict::BadLine { line } => write_unlawful(b"unlawful at line ", line, sink),
        Verdict::BadList { list } => write_unlawful(b"unlawful at list ", list, sink),
    }
}

fn write_lawful<K: Sink>(from: u64, to: u64, held: u64, lists: u64, sink: &mut K) -> u8
    ensures { IsTold (unknown_verdict (Verdict.Lawful from to held) lists) 0 (sent_through K.written K.settled K.faults sink.old sink.new) result }
{
    let (mut first, mut last) = (Buffer::new(), Buffer::new());
    let (mut some, mut all) = (Buffer::new(), Buffer::new());
    let pieces: [&[u8]; 9] = [
        b"lawful from ",
        first.format(from).as_bytes(),
        b" to ",
        last.format(to).as_bytes(),
        b", ",
        some.format(held).as_bytes(),
        b" of ",
        all.format(lists).as_bytes(),
        b" lists held\n",
    ];
    tell(sink, &pieces, DONE)
}

fn write_unlawful<K: Sink>(what: &[u8], number: u64, sink: &mut K) -> u8
    ensures { IsTold (what.now ++ (decimal number ++ codes "\n")) 11 (sent_through K.written K.settled K.faults sink.old sink.new) result }
{
    let mut digits = Buffer::new();
    let pieces: [&[u8]; 3] = [what, digits.format(number).as_bytes(), b"\n"];
    tell(sink, &pieces, UNLAWFUL)
}

fn write_bad_list<K: Sink>(list: u64, sink: &mut K) -> u8
    ensures { IsTold (between_verdict (Err (BetweenNo.BadList list))) 12 (sent_through K.written K.settled K.faults sink.old sink.new) result }
{
    let mut digits = Buffer::new();
    let pieces: [&[u8]; 3] = [b"record: BadList ", digits.format(list).as_bytes(), b"\n"];
    tell(sink, &pieces, NO_RECORD)
}

// The name of a refusal, without a list's place.
fn name_of(no: BetweenNo) -> &'static [u8]
    ensures { result.now ≡ texts.between_name no }
{
    match no {
        BetweenNo::BadHeader => b"BadHeader",
        BetweenNo::TooLong => b"TooLong",
        BetweenNo::NoBody => b"NoBody",
        BetweenNo::BadAsk => b"BadAsk",
        BetweenNo::BadList { .. } => b"BadList",
        BetweenNo::Memory => b"Memory",
    }
}
