//! The lines that wait to be sent.

ghost use Rattle.std.specs.Prelude.{◌≡◌, ℕ, cond, [], ◌∷◌, ◌++◌, None, Some, OnOk};
ghost use Rattle.std.specs.BTreeMap.{get};
ghost use Rattle.std.specs.Ordering.{is_eq, nat_cmp};
ghost use Rattle.cache_hub.specs.Due.{AddsTo, lines_at};

use kube_meta::Memory;
use std::alloc::Global;
use std::collections::BTreeMap;
use std::marker::Model;
use watch_lane::Line;

/// The lines that wait for one lane.
#[derive(Drop)]
pub(crate) struct Lines {
    pub lines: Vec<Line>,
}

impl Model for Lines {
    ghost use Rattle.std.specs.Prelude.{List};
    ghost use Rattle.select_all.specs.Streams.{TransitionData};

    ghost Value = { List TransitionData };

    ghost view = { λ l. l.lines.items };
}

/// The lines that wait for lanes, by the lanes' numbers.
pub(crate) type Waiting = BTreeMap<u64, Lines>;

/// Puts a line behind those that wait for a lane.
pub(crate) fn put_line(
    alloc: Global,
    waiting: &mut Waiting,
    id: u64,
    line: Line,
) -> Result<(), Memory>
    ensures { OnOk result (AddsTo id (Some line) waiting.old.entries waiting.new.entries) }
{
    let mut lines = taken(alloc, waiting, id);
    lines.push(line)?;
    waiting.insert(id, lines)?;
    Ok(())
}

// What waits for a lane, which is taken out.
fn taken(alloc: Global, waiting: &mut Waiting, id: u64) -> Lines
    ensures lines { result ≡ lines_at waiting.old.entries id }
    ensures taken { (q : ℕ) → get nat_cmp waiting.new q ≡ cond (is_eq (nat_cmp id q)) None (get nat_cmp waiting.old q) }
{
    match waiting.remove(&id) {
        Some(lines) => lines,
        None => Lines {
            lines: Vec::new(alloc),
        },
    }
}

impl Lines {
    fn push(&mut self, line: Line) -> Result<(), Memory>
        ensures { OnOk result (self.new ≡ self.old ++ line ∷ []) }
    {
        self.lines.push(line)?;
        Ok(())
    }
}
