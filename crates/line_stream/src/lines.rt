//! The reader of lines.

ghost use Rattle.std.specs.Result.{result_map_both};
ghost use Rattle.std.specs.Prelude.{◌≡◌, ◌<◌, ◌≤◌, ◌++◌, ℕ, List, [], None, Some, length, take, drop, OnOk, IfErr};
ghost use Rattle.edge_io.specs.Told.{prepended};
ghost use Rattle.http_read.specs.Heads.{most_head};
ghost use Rattle.line_stream.specs.Readers.{Spends, FitsRoom, HoldsLine, IsOpen, ReadsText};
ghost use Rattle.line_stream.specs.Looks.{IsFrame, IsData, IsFeed, LooksAt};
ghost use Rattle.line_stream.specs.Moves.{Moves};
ghost use Rattle.line_stream.specs.Steps.{Advances, Fills};
ghost use Rattle.line_stream.specs.Heads.{AnswersHead};
ghost use Rattle.line_stream.specs.Answers.{AnswersLine, Counts};
ghost use Rattle.line_stream.specs.Bodies.{AnswersBody};

use crate::bodies::read_reply;
use crate::head::read_start;
use crate::look::{Look, look_at};
use crate::place::Place;
use crate::refusal::LineNo;
use edge_io::Source;
use http_read::{FillNo, Unread};
use std::alloc::Global;
use std::marker::Model;
use std::mem::swap;

/// The most bytes of a line of a peer that is a server as this one.
pub const MOST_LINE: usize = 2_097_152;

/// What is read of a body.
#[derive(Clone, Copy, Debug)]
pub enum Step {
    /// A whole line, which [`LineReader::line`] lends.
    Line,
    /// The end of the body, behind its last line.
    Over,
}

/// What a step answers that reads nothing from a source.
#[derive(Clone, Copy)]
pub(crate) enum Advance {
    Passed,
    Line,
    Over,
    Open,
}

// What is left of the data that may be taken.
fn spent(room: Option<u64>, n: u64) -> Option<u64>
    requires { FitsRoom room n }
    ensures { Spends room n result }
{
    match room {
        Some(room) => Some(room - n),
        None => None,
    }
}

/// Reads lines from the chunked body of a response, or a reply whole. Contracts see where it stands, and the last whole
/// line.
#[derive(Debug, Drop)]
pub struct LineReader {
    kept: Unread,
    place: Place,
    part: Vec<u8>,
    line: Vec<u8>,
    room: Option<u64>,
    most: usize,
}

impl Model for LineReader {
    ghost use Rattle.line_stream.specs.Readers.{LinesData};

    ghost Value = { LinesData };

    ghost view = { λ r. record {
      at = record { kept = r.kept; place = r.place; part = r.part.items; room = r.room; most = r.most };
      line = r.line.items;
    } };
}

impl LineReader {
    /// A reader of a connection from which nothing was read. It takes at most `room` bytes of data in lines, of which
    /// each has at most `most`. Its memory is asked for as it reads.
    pub fn open(alloc: Global, room: u64, most: usize) -> LineReader
        ensures { result ≡ record { at = record { kept = []; place = Place.AtSize; part = []; room = Some room; most = most }; line = [] } }
    {
        LineReader {
            kept: Unread::new(alloc),
            place: Place::AtSize,
            part: Vec::new(alloc),
            line: Vec::new(alloc),
            room: Some(room),
            most,
        }
    }

    /// Lets the reader take any amount of data.
    pub fn unbound(&mut self)
        ensures { self.new ≡ record self.old { at = record self.old.at { room = None } } }
    {
        self.room = None;
    }

    /// The last whole line, without its line feed.
    pub fn line(&self) -> &[u8]
        ensures { result.now ≡ self.now.line }
    {
        self.line.as_slice()
    }

    /// Reads the head of a response, up to the beginning of its chunked body, and leaves the part of a line that was
    /// read before.
    ///
    /// # Errors
    ///
    /// [`LineNo`], and then all the bytes are kept.
    pub fn read_head<S: Source>(&mut self, source: &mut S) -> Result<(), LineNo>
        ensures reads { (taken : List ℕ) × (S.left source.old ≡ prepended taken (S.left source.new))
            × AnswersHead self.old (self.old.at.kept ++ taken) self.new (S.left source.new) result }
        ensures counted { Counts result (S.faults source.old) (S.faults source.new) }
    {
        let start = match read_start(&mut self.kept, source) {
            Ok(start) => start,
            Err(why) => return Err(why),
        };
        self.kept.consume(start);
        self.place = Place::AtSize;
        self.part.clear();
        Ok(())
    }

    // Passes over a piece without data.
    fn pass(&mut self, len: usize, to: Place)
        requires { IsFrame self.old.at.place self.old.at.kept len to }
        ensures moves { Moves self.old.at self.new.at }
        ensures line { self.new.line ≡ self.old.line }
    {
        self.kept.consume(len);
        self.place = to;
    }

    // Takes data of the line.
    fn take(&mut self, len: usize, left: u64) -> Result<(), LineNo>
        requires { IsData self.old.at len left }
        ensures moves { OnOk result (Moves self.old.at self.new.at) }
        ensures line { self.new.line ≡ self.old.line }
        ensures same { IfErr result (λ why. (why ≡ LineNo.Memory) × (self.new ≡ self.old)) }
    {
        if self
            .part
            .extend_from_slice(&self.kept.bytes()[..len])
            .is_err()
        {
            return Err(LineNo::Memory);
        }
        self.kept.consume(len);
        self.place = Place::Inside(left);
        self.room = spent(self.room, len as u64);
        Ok(())
    }

    // Ends the line at its line feed.
    fn end_line(&mut self, left: u64)
        requires { IsFeed self.old.at left }
        ensures { ReadsText self.old.at self.old.at.kept self.new.line self.new.at }
    {
        self.kept.consume(1);
        self.place = Place::Inside(left);
        self.room = spent(self.room, 1);
        swap(&mut self.line, &mut self.part);
        self.part.clear();
    }

    // Looks at the bytes that are kept.
    fn look(&self) -> Result<Look, LineNo>
        ensures { LooksAt self.now.at result }
    {
        look_at(
            self.kept.bytes(),
            self.place,
            self.part.as_slice(),
            self.room,
            self.most,
        )
    }

    // Goes one step on, in the bytes that are kept.
    fn go_on(&mut self) -> Result<Advance, LineNo>
        ensures { Advances self.old self.new result }
    {
        match self.look() {
            Ok(Look::Frame(len, to)) => self.pass(len, to),
            Ok(Look::Data(len, left)) => self.take(len, left)?,
            Ok(Look::Feed(left)) => {
                self.end_line(left);
                return Ok(Advance::Line);
            }
            Ok(Look::Over) => return Ok(Advance::Over),
            Ok(Look::Open) => return Ok(Advance::Open),
            Err(why) => return Err(why),
        }
        Ok(Advance::Passed)
    }

    // Takes more bytes from a source.
    fn fill<S: Source>(&mut self, source: &mut S) -> Result<(), LineNo>
        requires { length self.old.at.kept < most_head }
        ensures fills { Fills self.old self.new (S.left source.old) (S.left source.new) (S.faults source.old) (S.faults source.new) result }
    {
        match self.kept.fill(source) {
            Ok(0) => Err(LineNo::CutShort),
            Ok(_) => Ok(()),
            Err(FillNo::Fault) => Err(LineNo::ReadFault),
            Err(FillNo::Memory) => Err(LineNo::Memory),
        }
    }

    /// Reads the next line, or the end of the body. A line that stands whole in the bytes that were taken is answered
    /// without a read.
    ///
    /// # Errors
    ///
    /// [`LineNo`]: what is wrong first in the bytes. The reader stands where that shows; a later call finds the same
    /// again, but for [`LineNo::CutShort`], [`LineNo::ReadFault`] and [`LineNo::Memory`], after which it tries to go
    /// on.
    pub fn next_line<S: Source>(&mut self, source: &mut S) -> Result<Step, LineNo>
        ensures reads { (taken : List ℕ) × (S.left source.old ≡ prepended taken (S.left source.new))
            × AnswersLine self.old (self.old.at.kept ++ taken) self.new (S.left source.new) result }
        ensures idle { HoldsLine self.old.at → source.new ≡ source.old }
        ensures counted { Counts result (S.faults source.old) (S.faults source.new) }
    {
        loop {
            match self.go_on() {
                Ok(Advance::Passed) => {}
                Ok(Advance::Line) => return Ok(Step::Line),
                Ok(Advance::Over) => return Ok(Step::Over),
                Ok(Advance::Open) => self.fill(source)?,
                Err(why) => return Err(why),
            }
        }
    }

    /// Reads a reply of code 200 whole: its head, and then its body, of at most `limit` bytes, and answers the body's
    /// data. The body is counted by its head, or in chunks. What was read beyond it stays kept, for the next reply.
    ///
    /// # Errors
    ///
    /// [`LineNo`]: what is wrong first in the bytes. Of a reply that ended so nothing more is to be read.
    pub fn read_body<S: Source>(&mut self, source: &mut S, limit: u64) -> Result<Vec<u8>, LineNo>
        ensures reads { (taken : List ℕ) × (S.left source.old ≡ prepended taken (S.left source.new))
            × AnswersBody limit self.old (self.old.at.kept ++ taken) self.new (S.left source.new)
            (result_map_both (λ text. text.items) (λ why. why) result) }
        ensures counted { Counts result (S.faults source.old) (S.faults source.new) }
    {
        read_reply(&mut self.kept, source, limit)
    }
}
