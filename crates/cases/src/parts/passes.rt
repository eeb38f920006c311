//! Logs of three words and passes of them: what passes know that look, split and meet.

ghost use Rattle.std.specs.Prelude.{◌≡◌};

use crate::rows::{NO_STEP, Steps, Wording};
use kube_meta::Memory;
use rev_front::{Author, Blank, Entry, Front, LogName, Pen, blank, start};
use std::alloc::Global;
use std::marker::Brand;

/// The greatest revision.
const LAST: u64 = 1 << 62;

/// An entry that fits its own number.
#[derive(Drop)]
pub struct Note {
    number: u64,
}

impl Entry for Note {
    ghost use Rattle.std.specs.Prelude.{◌≡◌};

    ghost fits = { λ n note. n ≡ note.number };

    ghost quiet = { λ n. record { number = n } };
}

/// Each step is of a log of its own.
#[derive(Clone, Copy)]
pub struct Passes;

impl Steps for Passes {
    fn answer(&mut self, alloc: Global, step: &str, told: &mut Wording) -> Result<(), Memory> {
        run(alloc, step, told)
    }
}

// Makes a step.
fn run(alloc: Global, step: &str, told: &mut Wording) -> Result<(), Memory> {
    let made = blank(alloc, 1)?;
    let step = String::from_str(alloc, step)?;
    run_log::<Brand>(made, step, told)
}

// What is told of a log of the five revisions behind 1.
fn run_log<N: LogName>(made: Blank<Note>, step: String, told: &mut Wording) -> Result<(), Memory>
    requires { made ≡ N.log }
{
    let (mut pen, mut author): (Pen<Note, N>, Author<N>) = start(made);
    let first = pen.front()?;
    commit_to(&mut pen, &mut author, 2);
    match step.as_str() {
        "one that looked at 2 meets one that has seen up to 6" => meet(
            &mut pen,
            &mut author,
            first,
            told,
        ),
        "one splits, and the pen learns the other" => learn(&mut pen, first, told),
        "the pen cuts and compacts" => cut(&mut pen, &mut author, first, told),
        _ => {
            told.add(NO_STEP);
            Ok(())
        }
    }
}

// Commits the next entries, up to a revision.
fn commit_to<N: LogName>(pen: &mut Pen<Note, N>, author: &mut Author<N>, end: u64) {
    for _ in 0..6 {
        let next = pen.revision() + 1;
        if next > end || next > LAST {
            return;
        }
        pen.commit(author, &Note { number: next });
    }
}

fn meet<N: LogName>(
    pen: &mut Pen<Note, N>,
    author: &mut Author<N>,
    first: Front<Note, N>,
    told: &mut Wording,
) -> Result<(), Memory> {
    let mut first = first;
    let mut second = pen.front()?;
    first.look();
    commit_to(pen, author, 6);
    pen.meet(&mut second);
    let _ = first.meet(second);
    tell_pass(&first, told);
    Ok(())
}

fn learn<N: LogName>(
    pen: &mut Pen<Note, N>,
    first: Front<Note, N>,
    told: &mut Wording,
) -> Result<(), Memory> {
    let mut first = first;
    let mut second = first.split()?;
    second.look();
    tell_pass(&first, told);
    told.add("; ");
    tell_pass(&second, told);
    let _ = pen.learn(second);
    Ok(())
}

fn cut<N: LogName>(
    pen: &mut Pen<Note, N>,
    author: &mut Author<N>,
    first: Front<Note, N>,
    told: &mut Wording,
) -> Result<(), Memory> {
    let mut first = first;
    if pen.generation() < LAST {
        pen.cut(author);
    }
    if pen.floor() <= 2 && pen.revision() >= 2 {
        pen.compact(2);
    }
    let (generation, floor) = (first.look_gen(), first.look_floor());
    told.show(&format_args!("generation {generation}, floor {floor}; "));
    tell_pass(&first, told);
    Ok(())
}

fn tell_pass<N: LogName>(pass: &Front<Note, N>, told: &mut Wording) {
    let (end, shown) = (pass.end(), pass.shown());
    let (last, floor) = (pass.last(), pass.floor());
    told.show(&format_args!("end {end}, shown {shown}, last {last}, floor {floor}"));
}
