//! What clap says of words that aren't the options of their command.

use crate::reading::{check_command, load_command, serve_command, session_command};
use crate::words::begins_with;
use clap::Command;
use kube_meta::Memory;
use std::alloc::Global;

/// Clap's text on the words of a command, if it finds a fault with them: which word it is, the option that is like it,
/// and that `--help` tells more. It is for a person; what the program does rests on `read_words` alone.
pub fn complaint(alloc: Global, words: &[String]) -> Result<Option<String>, Memory> {
    let Some(command) = command_of(alloc, words)? else {
        return Ok(None);
    };
    match command.try_get_matches_from(words) {
        Ok(_) => Ok(None),
        Err(error) => Ok(Some(error.to_string(alloc)?)),
    }
}

// The command that the first of the words names.
fn command_of<'a>(alloc: Global, words: &[String]) -> Result<Option<Command<'a>>, Memory> {
    if begins_with(words, "session") {
        return Ok(Some(session_command(alloc)?));
    }
    if begins_with(words, "serve") {
        return Ok(Some(serve_command(alloc)?));
    }
    if begins_with(words, "load") {
        return Ok(Some(load_command(alloc)?));
    }
    if begins_with(words, "check") {
        return Ok(Some(check_command(alloc)));
    }
    Ok(None)
}
