//! The judgement of a recorded watch body.

ghost use Rattle.std.specs.Prelude.{◌≡◌, ◌≢◌, ◌⊎◌, Err, Ok};
ghost use Rattle.edge_io.specs.Counts.{Rose};
ghost use Rattle.edge_io.specs.Sent.{sent_through};
ghost use Rattle.watchcache.specs.Run.{ChecksBytes, ChecksLogged, ChecksSource, IsSaid, IsSaidBetween, IsSilent, IsTold, status_of_verdict};
ghost use Rattle.watchcache.specs.Texts as texts;
ghost use Rattle.watchcache.specs.Texts.{verdict};

use crate::advice::say_no_record;
use crate::inputs::{InputNo, read_all};
use crate::statuses::{DONE, NO_RECORD, OUT_OF_MEMORY, READ_FAULT, UNLAWFUL};
use crate::telling::tell;
use crate::unknown::{Judged, judge_unknown, write_judged};
use crate::unknown_advice::say_unknown;
use body_check::{Checked, check};
use edge_io::{Sink, Source};
use itoa::Buffer;
use std::alloc::Global;
use std::io::Eprint;
use watch_record::{BetweenNo, RecordNo, read_record};

/// The bytes of a record are at most so many: one of an unknown log may have more of them.
const MOST: usize = 268_435_456;

/// Reads a record from `source`, judges its body and tells the judgement. Standard error
/// has why there is none. Answers the status.
pub fn check_record<R: Eprint + Copy, S: Source, K: Sink>(
    rt: R,
    alloc: Global,
    source: &mut S,
    sink: &mut K,
) -> u8
    ensures { ChecksSource (S.left source.old) (S.left source.new) (Rose (S.faults source.old) (S.faults source.new))
        (sent_through K.written K.settled K.faults sink.old sink.new) result }
{
    match read_all(alloc, source, MOST) {
        Ok(bytes) => check_bytes(rt, alloc, &bytes, sink),
        Err(InputNo::Fault) => READ_FAULT,
        Err(InputNo::Memory) => OUT_OF_MEMORY,
    }
}

// Judges these bytes and tells the judgement.
fn check_bytes<R: Eprint + Copy, K: Sink>(rt: R, alloc: Global, bytes: &[u8], sink: &mut K) -> u8
    ensures { ChecksBytes bytes.now (sent_through K.written K.settled K.faults sink.old sink.new) result }
{
    match judge_unknown(alloc, bytes) {
        Err(BetweenNo::BadHeader) => check_logged(rt, alloc, bytes, sink),
        Err(BetweenNo::Memory) => OUT_OF_MEMORY,
        judged => tell_unknown(rt, alloc, bytes, judged, sink),
    }
}

// Tells how the record of an unknown log that these bytes are is judged, or why they are none.
fn tell_unknown<R: Eprint + Copy, K: Sink>(
    rt: R,
    alloc: Global,
    bytes: &[u8],
    judged: Result<Judged, BetweenNo>,
    sink: &mut K,
) -> u8
    requires said { IsSaidBetween bytes.now judged }
    requires other { judged ≢ Err BetweenNo.BadHeader }
    ensures { ChecksBytes bytes.now (sent_through K.written K.settled K.faults sink.old sink.new) result }
{
    say_unknown(rt, alloc, bytes, judged);
    write_judged(judged, sink)
}

// Judges the record of a log that these bytes are, and tells the judgement.
fn check_logged<R: Eprint + Copy, K: Sink>(rt: R, alloc: Global, bytes: &[u8], sink: &mut K) -> u8
    ensures { let sent = sent_through K.written K.settled K.faults sink.old sink.new in
        ChecksLogged bytes.now sent result ⊎ IsSilent 8 sent result }
{
    match judge(alloc, bytes) {
        Err(RecordNo::Memory) => OUT_OF_MEMORY,
        judged => {
            advise(rt, judged);
            write_verdict(judged, sink)
        }
    }
}

// How the record that these bytes are is judged, or why they are none.
fn judge(alloc: Global, bytes: &[u8]) -> Result<Checked, RecordNo>
    ensures { result ≢ Err RecordNo.Memory → IsSaid bytes.now result }
{
    let case = read_record(alloc, bytes)?;
    Ok(check(alloc, &case)?)
}

// Says what is wrong with bytes that are no record.
fn advise<R: Eprint + Copy>(rt: R, judged: Result<Checked, RecordNo>) {
    if let Err(why) = judged {
        say_no_record(rt, why);
    }
}

// Tells a judgement.
fn write_verdict<K: Sink>(judged: Result<Checked, RecordNo>, sink: &mut K) -> u8
    ensures { IsTold (verdict judged) (status_of_verdict judged) (sent_through K.written K.settled K.faults sink.old sink.new) result }
{
    match judged {
        Ok(Checked::Lawful { at, to }) => write_lawful(at, to, sink),
        Ok(Checked::Unlawful { line }) => write_unlawful(line, sink),
        Err(no) => write_refusal(no, sink),
    }
}

fn write_lawful<K: Sink>(at: u64, to: u64, sink: &mut K) -> u8
    ensures { IsTold (verdict (Ok (Checked.Lawful at to))) 0 (sent_through K.written K.settled K.faults sink.old sink.new) result }
{
    let (mut from, mut upto) = (Buffer::new(), Buffer::new());
    let pieces: [&[u8]; 5] = [
        b"lawful from ",
        from.format(at).as_bytes(),
        b" to ",
        upto.format(to).as_bytes(),
        b"\n",
    ];
    tell(sink, &pieces, DONE)
}

fn write_unlawful<K: Sink>(line: u64, sink: &mut K) -> u8
    ensures { IsTold (verdict (Ok (Checked.Unlawful line))) 11 (sent_through K.written K.settled K.faults sink.old sink.new) result }
{
    let mut digits = Buffer::new();
    let pieces: [&[u8]; 3] = [b"unlawful at line ", digits.format(line).as_bytes(), b"\n"];
    tell(sink, &pieces, UNLAWFUL)
}

fn write_refusal<K: Sink>(no: RecordNo, sink: &mut K) -> u8
    ensures { IsTold (verdict (Err no)) 12 (sent_through K.written K.settled K.faults sink.old sink.new) result }
{
    let pieces: [&[u8]; 3] = [b"record: ", name_of(no), b"\n"];
    tell(sink, &pieces, NO_RECORD)
}

// The name of a refusal.
fn name_of(no: RecordNo) -> &'static [u8]
    ensures { result.now ≡ texts.record_fault_name no }
{
    match no {
        RecordNo::TooLong => b"TooLong",
        RecordNo::BadHeader => b"BadHeader",
        RecordNo::NoBody => b"NoBody",
        RecordNo::BadLog { .. } => b"BadLog",
        RecordNo::BadFloor => b"BadFloor",
        RecordNo::BadAsk => b"BadAsk",
        RecordNo::Memory => b"Memory",
    }
}
