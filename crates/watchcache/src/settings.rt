//! The options that set a server.

ghost use Rattle.std.specs.Prelude.{◌≡◌, IfOk};
ghost use Rattle.clap.specs.Words.{app_of, found_of, rows_of};
ghost use Rattle.up_api.specs.Settings.{AreInRange};
ghost use Rattle.watchcache.specs.Options as spec;

use crate::asked::{Fault, OptionName};
use crate::options::{number, with_option};
use clap::{ArgMatches, Command};
use kube_meta::Memory;
use std::alloc::Global;
use up_api::Settings;

/// The command with the options that set a server.
pub(crate) fn with_settings<'a>(alloc: Global, command: Command<'a>) -> Result<Command<'a>, Memory>
    ensures { IfOk result (λ more. app_of more ≡ spec.with_settings (app_of command.entry)) }
{
    let command = with_option(alloc, command, "window")?;
    let command = with_option(alloc, command, "window-max")?;
    let command = with_option(alloc, command, "fresh-ms")?;
    let command = with_option(alloc, command, "lane")?;
    let command = with_option(alloc, command, "batch")?;
    let command = with_option(alloc, command, "history")?;
    let command = with_option(alloc, command, "bookmark-ms")?;
    with_option(alloc, command, "timeout-s")
}

/// The settings, or the first option whose number isn't in its range.
pub(crate) fn settings(matches: &ArgMatches<'_>) -> Result<Settings, Fault>
    ensures value { result ≡ spec.settings_of (rows_of (found_of matches.now)) }
    ensures range { IfOk result AreInRange }
{
    let window = number(matches, OptionName::Window, 1, 102_400, 100)?;
    let most = number(matches, OptionName::WindowMax, window, 102_400, window)?;
    let mut settings = Settings::usual();
    settings.window = window as usize;
    settings.window_max = most as usize;
    with_ages(matches, settings)
}

fn with_ages(matches: &ArgMatches<'_>, settings: Settings) -> Result<Settings, Fault>
    requires { AreInRange settings }
    ensures value { result ≡ spec.with_ages (rows_of (found_of matches.now)) settings }
    ensures range { IfOk result AreInRange }
{
    let mut settings = settings;
    settings.fresh_ms = number(matches, OptionName::FreshMs, 1, 86_400_000, 75_000)?;
    settings.history = number(matches, OptionName::History, 1, 1_000_000, 10_000)?;
    with_turns(matches, settings)
}

fn with_turns(matches: &ArgMatches<'_>, settings: Settings) -> Result<Settings, Fault>
    requires { AreInRange settings }
    ensures value { result ≡ spec.with_turns (rows_of (found_of matches.now)) settings }
    ensures range { IfOk result AreInRange }
{
    let mut settings = settings;
    settings.lane = number(matches, OptionName::Lane, 1, 1_024, 16)? as usize;
    settings.batch = number(matches, OptionName::Batch, 1, 10_000, 100)? as usize;
    with_watches(matches, settings)
}

fn with_watches(matches: &ArgMatches<'_>, settings: Settings) -> Result<Settings, Fault>
    requires { AreInRange settings }
    ensures value { result ≡ spec.with_watches (rows_of (found_of matches.now)) settings }
    ensures range { IfOk result AreInRange }
{
    let mut settings = settings;
    settings.bookmark_ms = number(matches, OptionName::BookmarkMs, 1, 86_400_000, 60_000)?;
    settings.timeout_s = number(matches, OptionName::TimeoutS, 1, 1_000_000, 1_800)?;
    Ok(settings)
}
