//! What a record of an unknown log is judged to be.

/// What a record of an unknown log is judged to be.
#[derive(Clone, Copy, Debug, PartialEq, Eq)]
pub enum Verdict {
    /// Some log tells all of it. The body begins at `from` and has reached `to`, the least such position; and so many
    /// later lists, `held`, stand at or below that.
    Lawful { from: u64, to: u64, held: u64 },
    /// None tells the first list and all lines. `line` is the greatest number of first lines that one tells with it.
    BadLine { line: u64 },
    /// Some log tells the first list and all lines, but none the list at this place too, with the lists before it, in
    /// the order of revisions; or none tells the first list, at place 0.
    BadList { list: u64 },
}
