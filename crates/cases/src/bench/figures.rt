//! What a step and its plain fellow take.

use crate::rows::Wording;
use kube_meta::Memory;
use std::time::Instant;

/// A watch that is read lap by lap.
#[derive(Clone, Copy)]
pub struct Laps {
    last: Option<Instant>,
}

impl Laps {
    /// The first lap begins.
    pub fn begin(rt: &HostRuntime) -> Laps {
        Laps {
            last: Instant::now(rt).ok(),
        }
    }

    /// The nanoseconds that a lap took. The next one begins. Where the system has no clock, a lap takes forever.
    pub fn lap(&mut self, rt: &HostRuntime) -> u64 {
        let took = match self.last {
            Some(from) => since(rt, from),
            None => None,
        };
        self.last = Instant::now(rt).ok();
        took.unwrap_or(u64::MAX)
    }
}

fn since(rt: &HostRuntime, from: Instant) -> Option<u64> {
    let took = from.elapsed(rt).ok()?;
    u64::try_from(took.as_nanos()).ok()
}

/// A value, once what it needs is done.
pub fn done<T: Drop>(value: T, done: Result<(), Memory>) -> Result<T, Memory> {
    match done {
        Ok(()) => Ok(value),
        Err(no) => Err(no),
    }
}

/// A step and its plain fellow, which do the same.
pub trait Race {
    /// Makes both ready for a run. This isn't timed.
    fn ready(&mut self) -> Result<(), Memory>;

    /// Takes the steps of a run. Answers a sum of what they did, which is printed, so that no compiler leaves them out.
    fn step(&mut self) -> u64;

    /// The same by the plain fellow.
    fn plain(&mut self) -> u64;
}

/// Times both in some runs that take turns, and tells the best of each. A run has so many steps.
pub fn time_race<C: Race>(
    rt: &HostRuntime,
    name: &str,
    race: &mut C,
    (runs, steps): (usize, u64),
    told: &mut Wording,
) -> Result<(), Memory> {
    let (mut step, mut plain, mut sum) = (u64::MAX, u64::MAX, 0u64);
    for _ in 0..runs {
        race.ready()?;
        let mut laps = Laps::begin(rt);
        sum = sum.wrapping_add(race.step());
        step = step.min(laps.lap(rt));
        sum = sum.wrapping_add(race.plain());
        plain = plain.min(laps.lap(rt));
    }
    tell_pair(name, (step, plain), steps, told);
    told.show(&format_args!("    sum {sum}\n"));
    Ok(())
}

/// Tells what so many steps and their plain fellows take: one of either, and their ratio.
pub fn tell_pair(name: &str, (step, plain): (u64, u64), steps: u64, told: &mut Wording) {
    told.add(name);
    tell_cents(" ", step, steps, told);
    tell_cents(" ns, plain ", plain, steps, told);
    tell_cents(" ns, ratio ", step, plain, told);
    told.add("\n");
}

// Tells some words, and a quotient in hundredths.
fn tell_cents(words: &str, number: u64, parts: u64, told: &mut Wording) {
    let cents = number.saturating_mul(100) / parts.max(1);
    told.show(&format_args!("{words}{}.{:02}", cents / 100, cents % 100));
}
