//! What turns of a watch give.

ghost use Rattle.std.specs.Prelude.{◌≡◌, ◌≤◌, false, IsTrue};
ghost use Rattle.cached_client.specs.Turns.{rests, took_of};

use client_api::{Line, Took};

/// What these lines are to a turn, where the log is seen up to a revision.
pub(crate) fn took(from: u64, upto: u64, lines: Vec<Line>, seen: u64) -> Took
    ensures { result ≡ took_of from upto lines seen }
{
    if lines.is_empty() {
        return Took::Quiet {
            upto,
            reached: upto <= seen,
        };
    }
    Took::Events { from, upto, lines }
}

/// Whether a watch to which nothing was sent rests where it is: its lane isn't behind, and the log stands at this
/// revision, which is neither above the watch's position nor above what is seen.
pub(crate) fn rests(is_behind: bool, loaded: u64, position: u64, seen: u64) -> bool
    ensures answer { result ≡ rests is_behind loaded position seen }
    ensures stands { IsTrue result → (is_behind ≡ false) × (loaded ≤ position) × (loaded ≤ seen) }
{
    !is_behind && loaded <= position && loaded <= seen
}
