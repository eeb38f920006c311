//! How long a watch rests, and whether it is asked to stop.

ghost use Rattle.std.specs.Prelude.{◌≡◌};
ghost use Rattle.net_front.specs.Rests as rests;

/// How many milliseconds a watch rests at most, whatever it waits for.
const MOST_MS: u64 = 30_000;

/// How many milliseconds a watch rests at most where nobody rings for it, or its clock shows no time that passes by
/// itself.
pub const SHORT_MS: u64 = 20;

/// Whether a quiet turn at `now` wrote a bookmark, where one is wanted each `bookmark_ms`, and the last came at `mark`.
pub fn is_marked(bookmark_ms: Option<u64>, mark: u64, now: u64) -> bool
    ensures { result ≡ rests.is_marked bookmark_ms mark now }
{
    match bookmark_ms {
        Some(ms) => mark.saturating_add(ms) <= now,
        None => false,
    }
}

/// For how many milliseconds behind `now` a watch rests that began at `start`, and whose last bookmark came at `mark`:
/// until its end or its next bookmark, and for 30 seconds at most.
pub fn rest_ms(timeout_ms: u64, bookmark_ms: Option<u64>, start: u64, mark: u64, now: u64) -> u64
    ensures { result ≡ rests.rest_of timeout_ms bookmark_ms start mark now }
{
    let end = start.saturating_add(timeout_ms);
    let due = match bookmark_ms {
        Some(ms) => end.min(mark.saturating_add(ms)),
        None => end,
    };
    due.saturating_sub(now).min(MOST_MS)
}

/// The same, as it depends on whether somebody rings for it.
pub fn rest_by(is_rung: bool, ms: u64) -> u64
    ensures { result ≡ rests.rest_by is_rung ms }
{
    if is_rung { ms } else { ms.min(SHORT_MS) }
}

/// Whether a watch is asked to stop: its clock asks for it, or all watches were ended behind its beginning. They were
/// ended so often then, and now.
pub fn is_stopped(stop: bool, began: u64, ended: u64) -> bool
    ensures { result ≡ rests.is_stopped stop began ended }
{
    stop || began < ended
}
