//! The commands with their options.

ghost use Rattle.std.specs.Prelude.{◌≡◌, ◌≤◌, ◌^◌, IfOk, map, string_bytes};
ghost use Rattle.clap.specs.Words.{app_of, first_of, found_of, rows_of};
ghost use Rattle.up_api.specs.Settings.{AreInRange};
ghost use Rattle.watchcache.specs.Options as spec;
ghost use Rattle.watchcache.specs.Words.{AreServed, IsServeAsk};

use crate::asked::{Fault, LoadOptions, OptionName, ServeAsk, ServeOptions, WordsNo};
use crate::options::{is_given, matched, number, optional, with_option};
use crate::scope::{namespace, with_cluster};
use crate::settings::{settings, with_settings};
use clap::{ArgMatches, Command};
use client_api::Resources;
use kube_meta::{MAX_REVISION, Memory};
use std::alloc::Global;
use up_api::Settings;

/// The settings that the words of a session give, the first of which is `session`.
pub(crate) fn read_settings(alloc: Global, words: &[String]) -> Result<Settings, WordsNo>
    ensures value { spec.ReadsSettings (map string_bytes words.now) result }
    ensures range { IfOk result AreInRange }
{
    let command = session_command(alloc)?;
    let matches = matched(command, words)?;
    match settings(&matches) {
        Ok(settings) => Ok(settings),
        Err(fault) => Err(WordsNo::Bad(fault)),
    }
}

/// The command `session`, with its options.
pub(crate) fn session_command<'a>(alloc: Global) -> Result<Command<'a>, Memory>
    ensures { IfOk result (λ command. app_of command ≡ spec.session) }
{
    with_settings(alloc, Command::new(alloc, "session"))
}

/// What the words of a server ask for, the first of which is `serve`.
pub(crate) fn read_serve(alloc: Global, words: &[String]) -> Result<ServeAsk, WordsNo>
    ensures value { spec.ReadsServe (map string_bytes words.now) result }
    ensures range { IfOk result IsServeAsk }
{
    let command = serve_command(alloc)?;
    let matches = matched(command, words)?;
    match serve_options(&matches) {
        Ok(options) => with_namespace(alloc, &matches, options),
        Err(fault) => Err(WordsNo::Bad(fault)),
    }
}

// What is asked for by these options, and the namespace that is given.
fn with_namespace(
    alloc: Global,
    matches: &ArgMatches<'_>,
    options: ServeOptions,
) -> Result<ServeAsk, WordsNo>
    requires { AreServed options }
    ensures value { spec.WordsGive (spec.ask_with (first_of (spec.option_text OptionName.Namespace) (rows_of (found_of matches.now))) options) result }
    ensures range { IfOk result IsServeAsk }
{
    match namespace(alloc, matches) {
        Ok(namespace) => Ok(ServeAsk { options, namespace }),
        Err(no) => Err(no),
    }
}

/// The command `serve`, with its options.
pub(crate) fn serve_command<'a>(alloc: Global) -> Result<Command<'a>, Memory>
    ensures { IfOk result (λ command. app_of command ≡ spec.serve) }
{
    let command = with_settings(alloc, Command::new(alloc, "serve"))?;
    let command = with_doors(alloc, command)?;
    with_origin(alloc, command)
}

// The command with the options that say which connections are taken, and by how many threads.
fn with_doors<'a>(alloc: Global, command: Command<'a>) -> Result<Command<'a>, Memory>
    ensures { IfOk result (λ more. app_of more ≡ spec.with_doors (app_of command.entry)) }
{
    let command = with_option(alloc, command, "port")?;
    let command = with_option(alloc, command, "workers")?;
    let command = with_option(alloc, command, "open")?;
    with_option(alloc, command, "connections")
}

// And with those that say where the log comes from.
fn with_origin<'a>(alloc: Global, command: Command<'a>) -> Result<Command<'a>, Memory>
    ensures { IfOk result (λ more. app_of more ≡ spec.with_origin (app_of command.entry)) }
{
    let command = with_option(alloc, command, "peer")?;
    let command = with_option(alloc, command, "cluster")?;
    let command = with_option(alloc, command, "resources")?;
    let command = with_option(alloc, command, "namespace")?;
    let command = with_option(alloc, command, "first-revision")?;
    with_option(alloc, command, "history-mib")
}

fn serve_options(matches: &ArgMatches<'_>) -> Result<ServeOptions, Fault>
    ensures value { result ≡ spec.serve_of (rows_of (found_of matches.now)) }
    ensures range { IfOk result AreServed }
{
    with_connections(matches, settings(matches)?)
}

fn with_connections(matches: &ArgMatches<'_>, settings: Settings) -> Result<ServeOptions, Fault>
    requires { AreInRange settings }
    ensures value { result ≡ spec.with_connections (rows_of (found_of matches.now)) settings }
    ensures range { IfOk result AreServed }
{
    let port = number(matches, OptionName::Port, 0, 65_535, 8_001)? as u16;
    let workers = number(matches, OptionName::Workers, 1, 64, 4)? as usize;
    let open = number(matches, OptionName::Open, 1, 65_536, 16_384)?;
    let connections = number(matches, OptionName::Connections, 0, MAX_REVISION, 0)?;
    with_peer(
        matches,
        ServeOptions {
            port,
            workers,
            open,
            connections,
            peer: None,
            cluster: None,
            resources: Resources::ALL,
            first: 1,
            history_mib: 256,
            settings,
        },
    )
}

fn with_peer(matches: &ArgMatches<'_>, options: ServeOptions) -> Result<ServeOptions, Fault>
    requires { AreServed options }
    ensures value { result ≡ spec.with_peer (rows_of (found_of matches.now)) options }
    ensures range { IfOk result AreServed }
{
    let mut options = options;
    options.peer = match optional(matches, OptionName::Peer, 1, 65_535)? {
        Some(port) => Some(port as u16),
        None => None,
    };
    with_cluster(matches, options)
}

pub(crate) fn with_first(
    matches: &ArgMatches<'_>,
    options: ServeOptions,
) -> Result<ServeOptions, Fault>
    requires { AreServed options }
    ensures value { result ≡ spec.with_first (rows_of (found_of matches.now)) options }
    ensures range { IfOk result AreServed }
{
    let mut options = options;
    let follows = options.peer.is_some() || options.cluster.is_some();
    if follows && is_given(matches, OptionName::FirstRevision) {
        return Err(Fault::FirstWithPeer);
    }
    options.first = number(matches, OptionName::FirstRevision, 1, MAX_REVISION, 1)?;
    options.history_mib = number(matches, OptionName::HistoryMib, 1, 1_048_576, 256)?;
    Ok(options)
}

/// The options that the words of a load give, the first of which is `load`.
pub(crate) fn read_load(alloc: Global, words: &[String]) -> Result<LoadOptions, WordsNo>
    ensures value { spec.ReadsLoad (map string_bytes words.now) result }
    ensures range { IfOk result (λ options. (options.from ≤ 2 ^ 62) × (options.requests ≤ 100000)) }
{
    let command = load_command(alloc)?;
    let matches = matched(command, words)?;
    match load_options(&matches) {
        Ok(options) => Ok(options),
        Err(fault) => Err(WordsNo::Bad(fault)),
    }
}

/// The command `load`, with its options.
pub(crate) fn load_command<'a>(alloc: Global) -> Result<Command<'a>, Memory>
    ensures { IfOk result (λ command. app_of command ≡ spec.load) }
{
    let command = with_option(alloc, Command::new(alloc, "load"), "from")?;
    with_option(alloc, command, "requests")
}

fn load_options(matches: &ArgMatches<'_>) -> Result<LoadOptions, Fault>
    ensures value { result ≡ spec.load_of (rows_of (found_of matches.now)) }
    ensures range { IfOk result (λ options. (options.from ≤ 2 ^ 62) × (options.requests ≤ 100000)) }
{
    let from = number(matches, OptionName::From, 0, MAX_REVISION, 1)?;
    let requests = number(matches, OptionName::Requests, 0, 100_000, 1_000)?;
    Ok(LoadOptions { from, requests })
}

/// Whether the words of a check, the first of which is `check`, are such: it has no options.
pub(crate) fn read_check(alloc: Global, words: &[String]) -> Result<(), WordsNo>
    ensures { spec.ReadsCheck (map string_bytes words.now) result }
{
    matched(check_command(alloc), words)?;
    Ok(())
}

/// The command `check`.
pub(crate) fn check_command<'a>(alloc: Global) -> Command<'a>
    ensures { app_of result ≡ spec.check }
{
    Command::new(alloc, "check")
}
