//! What reading the lines of a start finds.

/// What reading the lines of a start finds.
#[derive(Clone, Copy, Debug, PartialEq, Eq)]
pub enum Found {
    /// They are those of a lawful body, which has reached this revision.
    Reached(u64),
    /// They aren't, and only as many of them begin one.
    Broken(usize),
}
