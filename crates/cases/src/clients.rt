//! Scripts of many clients of one log, which share its caches: each file is one script.

ghost use Rattle.std.specs.Prelude.{◌≡◌, [], false};
ghost use Rattle.up_api.specs.Settings.{AreInRange};

mod asks;
mod play;
mod seat;
mod steps;
mod storm;
mod told;

use crate::Host;
use crate::clients::play::Stage;
use crate::rows::{Lines, Tally};
use crate::settings::settings_of;
use kube_meta::Memory;
use rev_front::{Author, Blank, blank};
use rev_log::Revision;
use shared_client::Cacher;
use std::alloc::Global;
use std::marker::Brand;
use up_api::{LogFacts, Settings};
use up_store::{Store, StoreDoor};

/// Runs a script on a new log. Its first line says how all is set.
pub fn run_clients<R: Host>(
    rt: R,
    alloc: Global,
    lines: Lines<'_>,
    tally: &mut Tally,
) -> Result<(), Memory> {
    let (head, text) = lines.text.split_once('\n').unwrap_or((lines.text, ""));
    let settings = settings_of(head);
    let rows = Lines {
        file: lines.file,
        first: 2,
        text,
    };
    run_script::<Brand, R>(rt, alloc, blank(alloc, 1)?, &settings, rows, tally)
}

/// Runs the rows of a script on a new store.
fn run_script<N: LogFacts + Send + Sync, R: Host>(
    rt: R,
    alloc: Global,
    made: Blank<Revision>,
    settings: &Settings,
    rows: Lines<'_>,
    tally: &mut Tally,
) -> Result<(), Memory>
    requires name { made ≡ N.log }
    requires base { N.base ≡ [] }
    requires own { N.mirror ≡ false }
    requires window { N.window ≡ settings.now.window }
    requires settings { AreInRange settings.now }
{
    let (store, author): (Store<N>, Author<N>) = Store::new(alloc, made, settings.history)?;
    let door = StoreDoor::new(rt, store)?;
    let ran = run_rows_on(rt, alloc, &door, author, settings, rows, tally);
    drop(door);
    ran
}

/// Runs the rows of a script on caches of the store behind this door.
fn run_rows_on<N: LogFacts + Send + Sync, R: Host>(
    rt: R,
    alloc: Global,
    door: &StoreDoor<N, R>,
    author: Author<N>,
    settings: &Settings,
    rows: Lines<'_>,
    tally: &mut Tally,
) -> Result<(), Memory>
    requires window { N.window ≡ settings.now.window }
    requires settings { AreInRange settings.now }
{
    let cacher = Cacher::new(rt, alloc, door.again()?, author, settings)?;
    let played = play_rows(rt, alloc, &cacher, door, rows, tally);
    cacher.close();
    played
}

/// Plays the rows of a script by clients of these caches.
fn play_rows<N: LogFacts + Send + Sync, R: Host>(
    rt: R,
    alloc: Global,
    cacher: &Cacher<N, R>,
    door: &StoreDoor<N, R>,
    rows: Lines<'_>,
    tally: &mut Tally,
) -> Result<(), Memory> {
    let mut stage = Stage::new(rt, alloc, cacher, door);
    let played = stage.play(alloc, rows, tally);
    stage.close();
    played
}
