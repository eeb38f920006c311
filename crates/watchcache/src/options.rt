//! The words of a command and the numbers of its options, by clap.

ghost use Rattle.std.specs.Prelude.{◌≡◌, ◌≤◌, [], IfErr, IfOk, IfSome, Ok, Some, is_some, map, string_bytes, true};
ghost use Rattle.clap.specs.Words.{app_of, fault_of, first_of, found_of, is_simple, is_simple_and_free, kind_of, matches_of, rows_of, with_rule};
ghost use Rattle.kube_meta.specs.Revisions.{revision_of};
ghost use Rattle.watchcache.specs.Options as spec;

use crate::asked::{Fault, OptionName, WordsNo};
use clap::error::ErrorKind;
use clap::{Arg, ArgMatches, Command};
use kube_meta::{Memory, Rev};
use std::alloc::Global;

/// The command with one more option.
pub(crate) fn with_option<'a>(
    alloc: Global,
    command: Command<'a>,
    name: &'a str,
) -> Result<Command<'a>, Memory>
    ensures { IfOk result (λ more. app_of more ≡ with_rule (app_of command.entry) (spec.option name.entry.now)) }
{
    command.arg(Arg::new(alloc, name).long(name))
}

/// What clap matches of the words of a command, the first of which is its name.
pub(crate) fn matched<'a>(
    command: Command<'a>,
    words: &'a [String],
) -> Result<ArgMatches<'a>, WordsNo>
    requires simple { is_simple (app_of command) ≡ true }
    requires free { is_simple_and_free (app_of command) ≡ true }
    ensures faultless { IfOk result (λ matches. fault_of (app_of command.entry) (map string_bytes words.entry.now) ≡ []) }
    ensures rows { IfOk result (λ matches. rows_of (found_of matches) ≡ matches_of (app_of command.entry) (map string_bytes words.entry.now)) }
    ensures refused { IfErr result (spec.HasFault (app_of command.entry) (map string_bytes words.entry.now)) }
{
    match command.try_get_matches_from(words) {
        Ok(matches) => Ok(matches),
        Err(error) => Err(refusal(error.kind())),
    }
}

// Want of memory is told apart from all faults of the words.
fn refusal(kind: ErrorKind) -> WordsNo
    ensures { result ≡ spec.refusal kind }
{
    match kind {
        ErrorKind::OutOfMemory => WordsNo::Memory,
        _ => WordsNo::Bad(Fault::Misused),
    }
}

/// The number of an option, where it is in its range; the usual one where it isn't given.
pub(crate) fn number(
    matches: &ArgMatches<'_>,
    name: OptionName,
    low: u64,
    high: u64,
    usual: u64,
) -> Result<u64, Fault>
    requires usual { (low ≤ usual) × (usual ≤ high) }
    ensures value { result ≡ spec.number (rows_of (found_of matches.now)) name low high usual }
    ensures range { IfOk result (λ n. (low ≤ n) × (n ≤ high)) }
{
    match matches.get_str(name.text()) {
        None => Ok(usual),
        Some(text) => within(text, name, low, high),
    }
}

/// The number of an option that needn't be given.
pub(crate) fn optional(
    matches: &ArgMatches<'_>,
    name: OptionName,
    low: u64,
    high: u64,
) -> Result<Option<u64>, Fault>
    ensures value { result ≡ spec.optional (rows_of (found_of matches.now)) name low high }
    ensures range { IfOk result (λ given. IfSome given (λ n. (low ≤ n) × (n ≤ high))) }
{
    match matches.get_str(name.text()) {
        None => Ok(None),
        Some(text) => given(within(text, name, low, high)),
    }
}

fn given(number: Result<u64, Fault>) -> Result<Option<u64>, Fault>
    ensures { result ≡ spec.and_then (λ n. Ok (Some n)) number }
{
    match number {
        Ok(n) => Ok(Some(n)),
        Err(fault) => Err(fault),
    }
}

/// Whether an option is given.
pub(crate) fn is_given(matches: &ArgMatches<'_>, name: OptionName) -> bool
    ensures { result ≡ is_some (first_of (spec.option_text name) (rows_of (found_of matches.now))) }
{
    match matches.get_str(name.text()) {
        None => false,
        Some(_) => true,
    }
}

fn within(text: &str, name: OptionName, low: u64, high: u64) -> Result<u64, Fault>
    ensures value { result ≡ spec.within name low high (revision_of text.now) }
    ensures range { IfOk result (λ n. (low ≤ n) × (n ≤ high)) }
{
    match Rev::read(text.as_bytes()) {
        Ok(n) => bounded(n, name, low, high),
        Err(_) => Err(Fault::OutOfRange { name, low, high }),
    }
}

fn bounded(n: u64, name: OptionName, low: u64, high: u64) -> Result<u64, Fault>
    ensures value { result ≡ spec.bounded name low high n }
    ensures range { IfOk result (λ n. (low ≤ n) × (n ≤ high)) }
{
    if low <= n && n <= high {
        Ok(n)
    } else {
        Err(Fault::OutOfRange { name, low, high })
    }
}
