//! How long a peer is left alone before it is asked again.

ghost use Rattle.std.specs.Prelude.{◌≡◌};
ghost use Rattle.net_front.specs.Paces.{longer_wait};

use crate::end::End;
use std::sync::Wait;

/// For how many milliseconds a peer is left alone at first, where its stream is over.
const FIRST_WAIT_MS: u64 = 20;

/// And at most, after attempts in vain.
const MOST_WAIT_MS: u64 = 5_000;

/// How long the peer is left alone before it is asked again.
#[derive(Clone, Copy, Debug)]
pub struct Pace {
    ms: u64,
    // Whether it isn't left alone once.
    at_once: bool,
    // Whether it was left alone, or told something, since it was last asked at once.
    may_skip: bool,
}

impl Pace {
    /// That of a peer that is there.
    pub fn new() -> Pace {
        Pace {
            ms: FIRST_WAIT_MS,
            at_once: false,
            may_skip: true,
        }
    }

    /// The peer told something: it is forgotten how often it was asked in vain.
    pub fn forget(&mut self) {
        self.ms = FIRST_WAIT_MS;
        self.may_skip = true;
    }

    /// The peer ended its stream as it was asked to: the next rest is as short as the first.
    pub fn shorten(&mut self) {
        self.ms = FIRST_WAIT_MS;
    }

    /// Leaves out the next rest, unless the one before was left out, and nothing was told since.
    pub fn skip(&mut self) {
        self.at_once = self.may_skip;
        self.may_skip = false;
    }

    /// Rests, and for twice as long the next time.
    pub fn rest<W: Wait>(&mut self, rt: &W, end: &End) {
        if self.at_once {
            self.at_once = false;
            return;
        }
        end.rest(rt, self.ms);
        self.ms = longer(self.ms);
        self.may_skip = true;
    }
}

// How long the next rest is.
fn longer(ms: u64) -> u64
    ensures { result ≡ longer_wait ms }
{
    ms.saturating_mul(2).min(MOST_WAIT_MS)
}
