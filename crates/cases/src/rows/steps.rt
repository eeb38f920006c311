//! How a row is written: `STEP => ANSWER`, and behind the answer, after two blanks, `# why`; and how rows are run.

ghost use Rattle.std.specs.Prelude.{◌≡◌, [], ◌∷◌, true, false, IfSome, IfNone, OnOk};
ghost use Rattle.std.specs.Str.Lines.{lines as lines_of};
ghost use Rattle.cases.specs.Rows.{is_silent, AreParts, IsBeforeComment, IsRowOf, CountsRows};

use crate::rows::tallies::Tally;
use crate::rows::wording::Wording;
use std::alloc::{AllocError, Global};

/// What a line wants that is no row: an answer that nothing gives.
pub const NO_ROW: &str = "(a row is written STEP => ANSWER)";

/// What is answered to what is no step of a file.
pub const NO_STEP: &str = "(this file has no such step)";

/// A step and the answer that is wanted.
#[derive(Clone, Copy)]
pub struct Row<'a> {
    /// The step.
    pub step: &'a str,
    /// The answer that is wanted.
    pub wanted: &'a str,
}

impl<'a> Row<'a> {
    /// The row of a line. An empty line and one that begins with `#` have none. A line without ` => ` wants `no_row`,
    /// an answer that nothing gives, and so is a mismatch, unless it ends with ` =>` and so wants an empty answer.
    pub fn of_line(line: &'a str, no_row: &'a str) -> Option<Row<'a>>
        ensures none { IfNone result (is_silent line.now ≡ true) }
        ensures row { IfSome result (λ row. (is_silent line.now ≡ false) × IsRowOf line.now no_row.now row.step.now row.wanted.now) }
    {
        if says_nothing(line) {
            return None;
        }
        let (step, rest) = parts(line, no_row);
        Some(Row {
            step,
            wanted: without_comment(rest).trim(),
        })
    }
}

/// Whether a line is empty, or begins with `#`.
pub fn says_nothing(line: &str) -> bool
    ensures { result ≡ is_silent line.now }
{
    line.is_empty() || line.starts_with('#')
}

// A line's step, and what stands behind its arrow.
fn parts<'a>(line: &'a str, no_row: &'a str) -> (&'a str, &'a str)
    ensures { AreParts line.now no_row.now result.0.now result.1.now }
{
    match line.split_once(" => ") {
        Some(parts) => parts,
        None => match line.strip_suffix(" =>") {
            Some(step) => (step, ""),
            None => (line, no_row),
        },
    }
}

// An answer without the comment behind it.
fn without_comment(text: &str) -> &str
    ensures { IsBeforeComment text.now result.now }
{
    match text.split_once("  # ") {
        Some((answer, _)) => answer,
        None => text,
    }
}

/// What the steps of a file are made on.
pub trait Steps {
    /// Makes a step, and tells its answer in words.
    fn answer(&mut self, alloc: Global, step: &str, told: &mut Wording) -> Result<(), AllocError>;
}

/// Lines of a file.
#[derive(Clone, Copy)]
pub struct Lines<'a> {
    /// The file's name.
    pub file: &'a str,
    /// The number of the first of them.
    pub first: u64,
    /// Their text.
    pub text: &'a str,
}

/// Makes the steps of some lines, one after the other, and counts each row, as far as there are numbers.
pub fn run_rows<S: Steps>(
    alloc: Global,
    lines: Lines<'_>,
    steps: &mut S,
    tally: &mut Tally,
) -> Result<(), AllocError>
    ensures { OnOk result (CountsRows (lines_of lines.entry.text.now) tally.old.rows tally.new.rows) }
{
    let mut number = lines.first;
    for line in lines.text.lines() {
        run_line(alloc, (lines.file, number), line, steps, tally)?;
        number = number.saturating_add(1);
    }
    Ok(())
}

// Makes the step of a line that is a row, and counts it.
fn run_line<S: Steps>(
    alloc: Global,
    place: (&str, u64),
    line: &str,
    steps: &mut S,
    tally: &mut Tally,
) -> Result<(), AllocError>
    ensures { OnOk result (CountsRows (line.now ∷ []) tally.old.rows tally.new.rows) }
{
    if let Some(row) = Row::of_line(line, NO_ROW) {
        let answer = answer_to(alloc, row.step, steps)?;
        tally.take(place, row, answer.as_str());
    }
    Ok(())
}

// What is answered to a step.
fn answer_to<S: Steps>(alloc: Global, step: &str, steps: &mut S) -> Result<String, AllocError> {
    let mut told = Wording::new(alloc);
    steps.answer(alloc, step, &mut told)?;
    told.whole()
}
