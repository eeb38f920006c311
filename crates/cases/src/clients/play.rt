//! A script as it is played: its store and caches, its clients, and its steps.

use crate::Host;
use crate::clients::seat::Seat;
use crate::clients::steps::answer;
use crate::clients::storm::{Storm, weather};
use crate::rows::{Lines, NO_ROW, Row, Tally, Wording, number, split};
use bells::Calls;
use client_api::Client;
use kube_meta::Memory;
use shared_client::{Cacher, SharedClient};
use std::alloc::Global;
use up_api::LogFacts;
use up_store::StoreDoor;

/// What all clients of a script share: the caches, and a door to the store, whose reads are counted from `noted` on;
/// and the clients, by the names that its steps give them.
#[derive(Drop)]
pub struct Stage<'a, N: LogFacts, R: Host, C: Client> {
    rt: R,
    cacher: &'a Cacher<N, R>,
    door: &'a StoreDoor<N, R>,
    noted: u64,
    names: Vec<String>,
    seats: Vec<Seat<C>>,
}

impl<N: LogFacts, R: Host, C: Client + Drop> Stage<'_, N, R, C> {
    /// Lets the clients go.
    pub fn close(self) {
        drop(self);
    }
}

impl<'a, N: LogFacts, R: Host> Stage<'a, N, R, SharedClient<'a, N, R>> {
    /// Nobody is named yet.
    pub fn new(
        rt: R,
        alloc: Global,
        cacher: &'a Cacher<N, R>,
        door: &'a StoreDoor<N, R>,
    ) -> Stage<'a, N, R, SharedClient<'a, N, R>> {
        Stage {
            rt,
            cacher,
            door,
            noted: door.reads(),
            names: Vec::new(alloc),
            seats: Vec::new(alloc),
        }
    }

    // A step of the client with this name.
    fn ask(
        &mut self,
        alloc: Global,
        name: &str,
        step: &str,
        told: &mut Wording,
    ) -> Result<(), Memory> {
        let place = self.place_of(alloc, name)?;
        match self.seats.get_mut(place) {
            Some(seat) => answer(alloc, seat, step, told),
            None => Err(Memory),
        }
    }

    // The place of the client with this name. One that isn't there yet is made.
    fn place_of(&mut self, alloc: Global, name: &str) -> Result<usize, Memory> {
        for (place, known) in self.names.iter().enumerate() {
            if known.as_str() == name {
                return Ok(place);
            }
        }
        self.seats.push(Seat::new(self.cacher.client()?))?;
        self.names.push(String::from_str(alloc, name)?)?;
        Ok(self.names.len().saturating_sub(1))
    }
}

impl<'a, N: LogFacts + Send + Sync, R: Host> Stage<'a, N, R, SharedClient<'a, N, R>> {
    // Makes a step once, and tells its answer: of the store and the caches, or of the client that it names.
    fn make(&mut self, alloc: Global, step: &str, told: &mut Wording) -> Result<(), Memory> {
        let (word, rest) = split(step);
        match word {
            "reads" => told.show(&self.door.reads().saturating_sub(self.noted)),
            "pump" => return pump(alloc, self.cacher, told),
            "tick" => tick(self.cacher, number(rest), told),
            "storm" => return weather(self.rt, alloc, self.cacher, &Storm::of_words(rest), told),
            _ => return self.ask(alloc, word, rest, told),
        }
        Ok(())
    }

    // Makes a step for one time of many, and answers as it does.
    fn made(&mut self, alloc: Global, step: &str, time: u64) -> Result<String, Memory> {
        let step = numbered(alloc, step, time)?;
        let mut told = Wording::new(alloc);
        self.make(alloc, step.as_str(), &mut told)?;
        told.whole()
    }

    // Tells the answer to a row's step: to `times N STEP` that of the first time, and then each that is another one.
    fn answer(&mut self, alloc: Global, step: &str, told: &mut Wording) -> Result<(), Memory> {
        let Some(rest) = step.strip_prefix("times ") else {
            return self.make(alloc, step, told);
        };
        let (times, step) = split(rest);
        let first = self.made(alloc, step, 1)?;
        told.add(first.as_str());
        for time in 1..number(times).clamp(1, 10_000) {
            let made = self.made(alloc, step, time.saturating_add(1))?;
            if made.as_str() != first.as_str() {
                told.add("; ");
                told.add(made.as_str());
            }
        }
        Ok(())
    }

    // What is answered to a row's step.
    fn answer_to(&mut self, alloc: Global, step: &str) -> Result<String, Memory> {
        let mut told = Wording::new(alloc);
        self.answer(alloc, step, &mut told)?;
        told.whole()
    }

    // Makes the step of a line that is a row, and counts it.
    fn play_line(
        &mut self,
        alloc: Global,
        place: (&str, u64),
        line: &str,
        tally: &mut Tally,
    ) -> Result<(), Memory> {
        if let Some(row) = Row::of_line(line, NO_ROW) {
            let answer = self.answer_to(alloc, row.step)?;
            tally.take(place, row, answer.as_str());
        }
        Ok(())
    }

    /// Plays the rows of a script, and counts them. Some of its steps run threads, which no step of a `Steps` may.
    pub fn play(
        &mut self,
        alloc: Global,
        rows: Lines<'_>,
        tally: &mut Tally,
    ) -> Result<(), Memory> {
        let mut number = rows.first;
        for line in rows.text.lines() {
            self.play_line(alloc, (rows.file, number), line, tally)?;
            number = number.saturating_add(1);
        }
        Ok(())
    }
}

// The step with the number of the time in place of each `*`.
fn numbered(alloc: Global, step: &str, time: u64) -> Result<String, Memory> {
    let mut text = Wording::new(alloc);
    let mut is_first = true;
    for part in step.split('*') {
        if !is_first {
            text.show(&time);
        }
        is_first = false;
        text.add(part);
    }
    text.whole()
}

// Brings each cache to the end of the log. No lane of a script has a bell to ring.
fn pump<N: LogFacts, R: Host>(
    alloc: Global,
    cacher: &Cacher<N, R>,
    told: &mut Wording,
) -> Result<(), Memory> {
    told.add("ok");
    let mut known = cacher.pass()?;
    let mut calls = Calls::new(alloc);
    let fed = cacher.feed(&mut known, &mut calls);
    calls.ring_all();
    fed
}

// Each cache is told a time.
fn tick<N: LogFacts, R: Host>(cacher: &Cacher<N, R>, ms: u64, told: &mut Wording) {
    cacher.tick(ms);
    told.add("ok");
}
