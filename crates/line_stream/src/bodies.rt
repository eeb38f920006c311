//! Whole bodies.

ghost use Rattle.std.specs.Prelude.{◌≡◌, ◌≢◌, ◌++◌, ◌<◌, ◌≤◌, ℕ, List, [], length, OnOk, IfErr};
ghost use Rattle.std.specs.Result.{result_map_both};
ghost use Rattle.edge_io.specs.Told.{prepended};
ghost use Rattle.http_read.specs.Heads.{most_head};
ghost use Rattle.line_stream.specs.Answers.{Counts};
ghost use Rattle.line_stream.specs.Bodies.{ReadsBody};
ghost use Rattle.line_stream.specs.BodySteps.{FillsKept, IsWithinFrame, Moved, PassesFrame, ReadsChunks, ReadsCounted, ReadsRest, StepsChunk};

use crate::chunks::{Frame, look_at_size, look_behind_data, look_behind_last};
use crate::framing::Framing;
use crate::head::read_framing;
use crate::place::Place;
use crate::refusal::LineNo;
use edge_io::Source;
use http_read::{FillNo, Unread};

// Takes more bytes from a source.
fn fill_kept<S: Source>(kept: &mut Unread, source: &mut S) -> Result<(), LineNo>
    requires { length kept.old < most_head }
    ensures { FillsKept kept.old kept.new (S.left source.old) (S.left source.new) (S.faults source.old) (S.faults source.new) result }
{
    match kept.fill(source) {
        Ok(0) => Err(LineNo::CutShort),
        Ok(_) => Ok(()),
        Err(FillNo::Fault) => Err(LineNo::ReadFault),
        Err(FillNo::Memory) => Err(LineNo::Memory),
    }
}

// Moves bytes to the data, as many as there are, until it has `whole`.
fn move_upto(kept: &mut Unread, content: &mut Vec<u8>, whole: u64) -> Result<(), LineNo>
    requires { length content.old.items ≤ whole }
    ensures moves { OnOk result (Moved kept.old content.old.items whole kept.new content.new.items) }
    ensures same { IfErr result (λ why. (why ≡ LineNo.Memory) × (kept.new ≡ kept.old) × (content.new.items ≡ content.old.items)) }
{
    let n = kept
        .bytes()
        .len()
        .min((whole - content.len() as u64) as usize);
    match content.extend_from_slice(&kept.bytes()[..n]) {
        Ok(()) => {}
        Err(_) => return Err(LineNo::Memory),
    }
    kept.consume(n);
    Ok(())
}

// Reads a body of so many bytes.
fn read_counted<S: Source>(
    kept: &mut Unread,
    source: &mut S,
    content: &mut Vec<u8>,
    size: u64,
) -> Result<(), LineNo>
    requires { content.old.items ≡ [] }
    ensures reads { (taken : List ℕ) × (S.left source.old ≡ prepended taken (S.left source.new))
        × ReadsCounted size (kept.old ++ taken) content.new.items kept.new (S.left source.new) result }
    ensures counted { Counts result (S.faults source.old) (S.faults source.new) }
{
    move_upto(kept, content, size)?;
    while (content.len() as u64) < size {
        fill_kept(kept, source)?;
        match move_upto(kept, content, size) {
            Ok(()) => {}
            Err(why) => return Err(why),
        }
    }
    Ok(())
}

// Lets a piece without data go.
fn pass(kept: &mut Unread, frame: Frame) -> Result<Option<Place>, LineNo>
    requires { IsWithinFrame kept.old frame }
    ensures { PassesFrame kept.old frame result kept.new }
{
    match frame {
        Frame::Passed(len, to) => {
            kept.consume(len);
            Ok(Some(to))
        }
        Frame::Open => Ok(None),
        Frame::Refused => Err(LineNo::BadChunk),
    }
}

// Goes one step on in a chunk of which so much is left: takes data, or what stands behind it.
fn step_inside(
    kept: &mut Unread,
    content: &mut Vec<u8>,
    size: u64,
    limit: u64,
) -> Result<Option<Place>, LineNo>
    ensures { StepsChunk limit (Place.Inside size) kept.old content.old.items result kept.new content.new.items }
{
    if size == 0 {
        let frame = look_behind_data(kept.bytes());
        return pass(kept, frame);
    }
    let here = content.len() as u64;
    if size > limit.saturating_sub(here) {
        return Err(LineNo::Overlong);
    }
    if kept.is_empty() {
        return Ok(None);
    }
    let whole = here + size;
    move_upto(kept, content, whole)?;
    Ok(Some(Place::Inside(whole - content.len() as u64)))
}

// Goes one step on in a body in chunks, in the bytes that are kept.
fn step(
    kept: &mut Unread,
    place: Place,
    content: &mut Vec<u8>,
    limit: u64,
) -> Result<Option<Place>, LineNo>
    requires { place ≢ Place.Over }
    ensures { StepsChunk limit place kept.old content.old.items result kept.new content.new.items }
{
    match place {
        Place::AtSize => {
            let frame = look_at_size(kept.bytes());
            pass(kept, frame)
        }
        Place::Inside(size) => step_inside(kept, content, size, limit),
        Place::Last => {
            let frame = look_behind_last(kept.bytes());
            pass(kept, frame)
        }
        Place::Over => unreachable!(),
    }
}

// Reads a body in chunks.
fn read_chunks<S: Source>(
    kept: &mut Unread,
    source: &mut S,
    content: &mut Vec<u8>,
    limit: u64,
) -> Result<(), LineNo>
    requires { content.old.items ≡ [] }
    ensures reads { (taken : List ℕ) × (S.left source.old ≡ prepended taken (S.left source.new))
        × ReadsChunks limit (kept.old ++ taken) content.new.items kept.new (S.left source.new) result }
    ensures counted { Counts result (S.faults source.old) (S.faults source.new) }
{
    let mut place = Place::AtSize;
    loop {
        if let Place::Over = place {
            return Ok(());
        }
        match step(kept, place, content, limit) {
            Ok(Some(to)) => place = to,
            Ok(None) => fill_kept(kept, source)?,
            Err(why) => return Err(why),
        }
    }
}

// Reads a body of at most `limit` bytes that is framed so.
fn read_rest<S: Source>(
    kept: &mut Unread,
    source: &mut S,
    content: &mut Vec<u8>,
    framing: Framing,
    limit: u64,
) -> Result<(), LineNo>
    requires { content.old.items ≡ [] }
    ensures reads { (taken : List ℕ) × (S.left source.old ≡ prepended taken (S.left source.new))
        × ReadsRest limit framing (kept.old ++ taken) content.new.items kept.new (S.left source.new) result }
    ensures counted { Counts result (S.faults source.old) (S.faults source.new) }
{
    match framing {
        Framing::Counted(size) if size > limit => Err(LineNo::Overlong),
        Framing::Counted(size) => read_counted(kept, source, content, size),
        Framing::Chunked => read_chunks(kept, source, content, limit),
    }
}

/// Reads a reply of code 200 whole: its head, and then its body, of at most `limit` bytes.
pub(crate) fn read_reply<S: Source>(
    kept: &mut Unread,
    source: &mut S,
    limit: u64,
) -> Result<Vec<u8>, LineNo>
    ensures reads { (taken : List ℕ) × (S.left source.old ≡ prepended taken (S.left source.new))
        × ReadsBody limit (kept.old ++ taken) kept.new (S.left source.new) (result_map_both (λ text. text.items) (λ why. why) result) }
    ensures counted { Counts result (S.faults source.old) (S.faults source.new) }
{
    let (start, framing) = match read_framing(kept, source) {
        Ok(found) => found,
        Err(why) => return Err(why),
    };
    kept.consume(start);
    let mut content = Vec::new(kept.allocator());
    match read_rest(kept, source, &mut content, framing, limit) {
        Ok(()) => Ok(content),
        Err(why) => Err(why),
    }
}
