//! What a watch that rests has to do by itself.

use crate::rests::{is_marked, rest_ms};
use std::cell::Cell;
use up_api::Settings;
use watch_rules::WatchAsk;

/// After how many milliseconds a watch ends, and how many lie between its bookmarks, where it wants any. The client of
/// a session is told what the watch asks for, and leaves it here for the clock. No contract speaks of it.
#[derive(Drop)]
pub struct Schedule {
    settings: Settings,
    timeout_ms: Cell<u64>,
    bookmark_ms: Cell<Option<u64>>,
}

impl Schedule {
    /// That of a watch of no time and no bookmarks, in a session that is set so.
    pub fn new(settings: Settings) -> Schedule {
        Schedule {
            settings,
            timeout_ms: Cell::new(0),
            bookmark_ms: Cell::new(None),
        }
    }

    /// Takes down what a watch asks for.
    pub fn set(&self, ask: &WatchAsk) {
        let seconds = match ask.timeout_s {
            0 => self.settings.timeout_s,
            asked => asked,
        };
        self.timeout_ms.set(seconds.saturating_mul(1000));
        self.bookmark_ms.set(match ask.bookmarks {
            true => Some(self.settings.bookmark_ms),
            false => None,
        });
    }

    /// Whether a quiet turn at `now` wrote a bookmark, where the last one came at `mark`.
    pub fn is_marked(&self, mark: u64, now: u64) -> bool {
        is_marked(self.bookmark_ms.get(), mark, now)
    }

    /// For how many milliseconds behind `now` the watch rests, where it began at `start`, and its last bookmark came at
    /// `mark`.
    pub fn rest_ms(&self, start: u64, mark: u64, now: u64) -> u64 {
        rest_ms(
            self.timeout_ms.get(),
            self.bookmark_ms.get(),
            start,
            mark,
            now,
        )
    }
}
