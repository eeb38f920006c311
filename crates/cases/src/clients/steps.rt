//! What a client answers to a step, in words.

use crate::clients::asks::{get_ask, list_ask, meaning, selected, start, watch_ask};
use crate::clients::seat::Seat;
use crate::rows::{Wording, number, split, tell_row, write_of};
use crate::scripts::tell_line;
use client_api::{Begun, Client, Got, ItemRows, Line, ListNo, Listed, Took};
use kube_meta::Memory;
use std::alloc::Global;
use up_store::{Operate, WriteAsk};

/// The words of a step.
type Words<'a> = (&'a str, &'a str, &'a str);

/// Of more objects or lines than this the first and the last are shown.
const FEW: usize = 10;

/// Tells the answer of a client to a step.
pub fn answer<C: Client>(
    alloc: Global,
    seat: &mut Seat<C>,
    step: &str,
    told: &mut Wording,
) -> Result<(), Memory> {
    let (verb, rest) = split(step);
    let (first, second) = split(rest);
    match verb {
        "create" | "replace" | "remove" => {
            write(seat, &write_of(alloc, step)?, told);
            Ok(())
        }
        "fill" => fill(alloc, seat, number(first), told),
        "get" => get(alloc, seat, (verb, first, second), told),
        "list" | "count" => list(alloc, seat, (verb, first, second), told),
        "watch" => watch(alloc, seat, (verb, first, second), told),
        "take" => take(seat, number(first), told),
        _ => {
            act(seat, verb, number(first), told);
            Ok(())
        }
    }
}

// The steps that need no memory.
fn act<C: Client>(seat: &mut Seat<C>, verb: &str, number: u64, told: &mut Wording) {
    match verb {
        "cut" => operate(seat, Operate::Cut, told),
        "compact" => operate(seat, Operate::Compact { at: number }, told),
        "restart" => operate(seat, Operate::Restart, told),
        "end" => {
            seat.end_watch();
            told.add("ok");
        }
        _ => told.add("no such step"),
    }
}

fn operate<C: Client>(seat: &mut Seat<C>, ask: Operate, told: &mut Wording) {
    match seat.operate(ask) {
        Ok(number) => told.show(&number),
        Err(no) => told.debug(&no),
    }
}

fn write<C: Client>(seat: &mut Seat<C>, ask: &WriteAsk, told: &mut Wording) {
    match seat.write(ask) {
        Ok(written) => told.show(&written.rev),
        Err(no) => told.debug(&no),
    }
}

// Creates so many pods, one at least, each followed by a list, and answers as the last create does.
fn fill<C: Client>(
    alloc: Global,
    seat: &mut Seat<C>,
    pods: u64,
    told: &mut Wording,
) -> Result<(), Memory> {
    let pods = pods.clamp(1, 10_000);
    for number in 1..pods {
        create_and_list(alloc, seat, number, &mut Wording::new(alloc))?;
    }
    create_and_list(alloc, seat, pods, told)
}

// Creates the pod with this number, which is bound to a node by it.
fn create_and_list<C: Client>(
    alloc: Global,
    seat: &mut Seat<C>,
    number: u64,
    told: &mut Wording,
) -> Result<(), Memory> {
    let step = format!(in alloc; "create p-{number} node-{}", number % 3)?;
    write(seat, &write_of(alloc, step.as_str())?, told);
    let words = ("count", "newest", "");
    list(alloc, seat, words, &mut Wording::new(alloc))
}

fn get<C: Client>(
    alloc: Global,
    seat: &mut Seat<C>,
    words: Words<'_>,
    told: &mut Wording,
) -> Result<(), Memory> {
    let (_, word, name) = words;
    tell_got(&seat.get(&get_ask(alloc, word, name)?), told);
    Ok(())
}

fn tell_got(got: &Result<Got, ListNo>, told: &mut Wording) {
    match got {
        Ok(got) => told.show(&format_args!("at {}: {}", got.at, got.row.row().rev)),
        Err(no) => told.debug(no),
    }
}

// A list, and its objects or their count.
fn list<C: Client>(
    alloc: Global,
    seat: &mut Seat<C>,
    words: Words<'_>,
    told: &mut Wording,
) -> Result<(), Memory> {
    let (verb, word, fields) = words;
    match selected(alloc, "", fields) {
        Some(selection) => {
            let ask = list_ask(alloc, selection, meaning(word))?;
            tell_list(&seat.list(&ask), verb == "count", told);
        }
        None => told.add("no selection"),
    }
    Ok(())
}

fn tell_list(listed: &Result<Listed, ListNo>, counts: bool, told: &mut Wording) {
    match listed {
        Ok(listed) => {
            told.show(&format_args!("at {}: ", listed.rev));
            if counts {
                told.show(&listed.items.len());
            } else {
                tell_rows(listed.items.rows(), listed.items.len(), told);
            }
        }
        Err(no) => told.debug(no),
    }
}

fn watch<C: Client>(
    alloc: Global,
    seat: &mut Seat<C>,
    words: Words<'_>,
    told: &mut Wording,
) -> Result<(), Memory> {
    let (_, word, fields) = words;
    match selected(alloc, "", fields) {
        Some(selection) => tell_begun(&seat.watch(&watch_ask(selection, start(word))), told),
        None => told.add("no selection"),
    }
    Ok(())
}

fn tell_begun(begun: &Result<Begun, ListNo>, told: &mut Wording) {
    match begun {
        Ok(begun) => {
            told.show(&format_args!("at {}: ", begun.at));
            let initial = begun.initial.as_slice();
            tell_rows(ItemRows::Picked(initial), initial.len(), told);
        }
        Err(no) => told.debug(no),
    }
}

// A turn of at most so many lines, or of a hundred.
fn take<C: Client>(seat: &mut Seat<C>, most: u64, told: &mut Wording) -> Result<(), Memory> {
    let most = if most == 0 { 100 } else { most.min(10_000) };
    tell_turn(&seat.take(most as usize)?, told);
    Ok(())
}

fn tell_turn(took: &Option<Took>, told: &mut Wording) {
    match took {
        Some(Took::Events { from, upto, lines }) => {
            told.show(&format_args!("{from} to {upto}: "));
            tell_lines(lines.as_slice(), told);
        }
        Some(Took::Quiet { upto, reached }) => {
            let how = if *reached { "reached" } else { "not reached" };
            told.show(&format_args!("quiet at {upto}, {how}"));
        }
        Some(Took::Lost { at, floor }) => {
            told.show(&format_args!("lost at {at}, floor {floor}"));
        }
        None => told.add("no watch"),
    }
}

// Each of so many objects as `[p-1 2]`. Of many the first and the last are shown, and how many there are.
fn tell_rows(rows: ItemRows<'_>, count: usize, told: &mut Wording) {
    if count == 0 {
        told.add("nothing");
    }
    let mut number: usize = 0;
    for shown in rows {
        if count <= FEW || number == 0 {
            tell_row(shown.row(), told);
        }
        number = number.saturating_add(1);
        if count > FEW && number == count {
            told.add("..");
            tell_row(shown.row(), told);
            told.show(&format_args!(", {count} in all"));
        }
    }
}

// Each line as `[Added p-1 2]`. Of many the first and the last are shown, and how many there are.
fn tell_lines(lines: &[Line], told: &mut Wording) {
    let count = lines.len();
    for number in 0..count {
        let is_last = number.saturating_add(1) == count;
        if count > FEW && is_last {
            told.add("..");
        }
        if count <= FEW || number == 0 || is_last {
            tell_line(&lines[number], told);
        }
    }
    if count > FEW {
        told.show(&format_args!(", {count} in all"));
    }
}
