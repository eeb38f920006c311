//! How a log, a cache and a server are set, by the words of the command line in lines `settings --window 1 --lane 2`.

ghost use Rattle.std.specs.Prelude.{◌≤◌, ◌^◌};
ghost use Rattle.up_api.specs.Settings.{AreInRange};

use crate::rows::{number, split};
use kube_meta::Memory;
use std::alloc::Global;
use up_api::Settings;

/// The number behind a word and a blank in the first lines, those of settings, or else the usual one.
pub fn option(lines: &str, name: &str, usual: u64) -> u64 {
    for line in lines.lines() {
        if !line.starts_with("settings ") {
            return usual;
        }
        if let Some((_, value)) = line.split_once(name) {
            return number(split(value).0);
        }
    }
    usual
}

/// The first revision of the log.
pub fn first_of(lines: &str) -> u64
    ensures low { 1 ≤ result }
    ensures high { result ≤ 2 ^ 62 }
{
    option(lines, "--first ", 1).clamp(1, 1 << 62)
}

/// The settings, each held within its range. What no line names is as usual, but that the greatest window is the
/// window.
pub fn settings_of(lines: &str) -> Settings
    ensures { AreInRange result }
{
    let window = option(lines, "--window ", 100).clamp(1, 102_400) as usize;
    let window_max = option(lines, "--window-max ", 1).clamp(1, 102_400) as usize;
    Settings {
        window,
        window_max: window_max.max(window),
        fresh_ms: option(lines, "--fresh-ms ", 75_000).clamp(1, 86_400_000),
        lane: option(lines, "--lane ", 16).clamp(1, 1_024) as usize,
        batch: option(lines, "--batch ", 100).clamp(1, 10_000) as usize,
        history: option(lines, "--history ", 10_000).clamp(1, 1_000_000),
        bookmark_ms: option(lines, "--bookmark-ms ", 60_000).clamp(1, 86_400_000),
        timeout_s: option(lines, "--timeout-s ", 1_800).clamp(1, 1_000_000),
        requests: option(lines, "--requests ", 1_000_000).clamp(1, 1_000_000),
    }
}

/// The polls, counted from 0, before which all feeds are cut: the numbers behind `--cut`.
pub fn cuts_of(alloc: Global, line: &str) -> Result<Vec<u64>, Memory> {
    let mut cuts = Vec::new(alloc);
    for words in line.split("--cut ").skip(1) {
        cuts.push(number(split(words).0))?;
    }
    Ok(cuts)
}

/// The polls before which the log is compacted, each with the revision: those behind `--compact`, as `2@6`.
pub fn compactions_of(alloc: Global, line: &str) -> Result<Vec<(u64, u64)>, Memory> {
    let mut compactions = Vec::new(alloc);
    for words in line.split("--compact ").skip(1) {
        let (poll, at) = split(words).0.split_once('@').unwrap_or(("", ""));
        compactions.push((number(poll), number(at)))?;
    }
    Ok(compactions)
}
