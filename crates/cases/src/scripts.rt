//! Scripts of a store and of a cache that follows it. Their first lines say how all is set.

ghost use Rattle.std.specs.Prelude.{◌≡◌, [], false};

mod scene;
mod steps;

use crate::rows::{Lines, Tally, run_rows};
pub use crate::scripts::scene::Scene;
use crate::scripts::steps::Stage;
pub use crate::scripts::steps::tell_line;
use crate::settings::first_of;
use kube_meta::Memory;
use rev_front::{Blank, blank};
use rev_log::Revision;
use std::alloc::Global;
use std::marker::Brand;
use up_api::LogFacts;

/// Runs the scripts of a file, which have an empty line between them.
pub fn run_scripts(alloc: Global, lines: Lines<'_>, tally: &mut Tally) -> Result<(), Memory> {
    let file = lines.file;
    let mut first = lines.first;
    for text in lines.text.split("\n\n") {
        run_script(alloc, Lines { file, first, text }, tally)?;
        first = first
            .saturating_add(text.lines().count() as u64)
            .saturating_add(1);
    }
    Ok(())
}

/// Runs a script on a new log.
fn run_script(alloc: Global, lines: Lines<'_>, tally: &mut Tally) -> Result<(), Memory> {
    let made = blank(alloc, first_of(lines.text))?;
    run_scene::<Brand>(alloc, made, lines, tally)
}

fn run_scene<N: LogFacts>(
    alloc: Global,
    made: Blank<Revision>,
    lines: Lines<'_>,
    tally: &mut Tally,
) -> Result<(), Memory>
    requires name { made ≡ N.log }
    requires base { N.base ≡ [] }
    requires own { N.mirror ≡ false }
{
    let (head, text) = lines.text.split_once('\n').unwrap_or((lines.text, ""));
    let rows = Lines {
        file: lines.file,
        first: lines.first.saturating_add(1),
        text,
    };
    let scene: Scene<N> = Scene::new(alloc, made, head)?;
    let mut stage = Stage { scene, feed: None };
    let ran = run_rows(alloc, rows, &mut stage, tally);
    drop(stage);
    ran
}
