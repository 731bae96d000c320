//! The commands.

use crate::arguments::with_arguments;
use crate::table::{ATTACH, INIT, KEY, MAKE, NEXT, REPLAY, SHOW, SIGNERS, TEXT, VERIFY};
use crate::texts::{
    ATTACH_END, HELP_END, INIT_END, KEY_END, MAKE_END, NEXT_END, REPLAY_END, SHOW_END, SIGNERS_END,
    TEXT_END, VERIFY_END,
};
use crate::version::VERSION;
use clap::{ArgMatches, Command, Error};
use std::alloc::{AllocError, Global};

/// Parses the arguments. Fails with what `clap` prints instead: a usage error, help or the version.
pub fn parse<'a>(alloc: Global, words: &'a [String]) -> Result<ArgMatches<'a>, Error> {
    tufcheck(alloc)?.try_get_matches_from(words)
}

fn tufcheck<'a>(alloc: Global) -> Result<Command<'a>, AllocError> {
    let command = Command::new(alloc, "tufcheck")
        .about("Verifies an update repository of TUF 1.0 with LMS signatures")
        .version(VERSION)
        .after_help(HELP_END)
        .no_binary_name(true)
        .subcommand_required(true);
    let command = command.bin_name("tufcheck")?;
    let command = with_command(command, init_command(alloc))?;
    let command = with_runs(alloc, command)?;
    let command = with_command(command, show_command(alloc))?;
    let command = with_ceremonies(alloc, command)?;
    with_command(command, make_command(alloc))
}

fn with_runs<'a>(alloc: Global, command: Command<'a>) -> Result<Command<'a>, AllocError> {
    let command = with_command(command, verify_command(alloc))?;
    let command = with_command(command, replay_command(alloc))?;
    with_command(command, next_command(alloc))
}

fn with_ceremonies<'a>(alloc: Global, command: Command<'a>) -> Result<Command<'a>, AllocError> {
    let command = with_command(command, key_command(alloc))?;
    let command = with_command(command, text_command(alloc))?;
    let command = with_command(command, attach_command(alloc))?;
    with_command(command, signers_command(alloc))
}

fn with_command<'a>(
    command: Command<'a>,
    other: Result<Command<'a>, AllocError>,
) -> Result<Command<'a>, AllocError> {
    command.subcommand(other?)
}

fn init_command<'a>(alloc: Global) -> Result<Command<'a>, AllocError> {
    let command = Command::new(alloc, "init")
        .about("Trusts a root file and writes the first state")
        .after_help(INIT_END);
    with_arguments(alloc, command, INIT)
}

fn verify_command<'a>(alloc: Global) -> Result<Command<'a>, AllocError> {
    let command = Command::new(alloc, "verify")
        .about("Brings the trusted state up to date and checks wanted targets")
        .after_help(VERIFY_END);
    with_arguments(alloc, command, VERIFY)
}

fn replay_command<'a>(alloc: Global) -> Result<Command<'a>, AllocError> {
    let command = Command::new(alloc, "replay")
        .about("Verifies repositories one after another, as `verify` does")
        .after_help(REPLAY_END);
    with_arguments(alloc, command, REPLAY)
}

fn next_command<'a>(alloc: Global) -> Result<Command<'a>, AllocError> {
    let command = Command::new(alloc, "next")
        .about("Prints the names of the files that have to be fetched next")
        .after_help(NEXT_END);
    with_arguments(alloc, command, NEXT)
}

fn show_command<'a>(alloc: Global) -> Result<Command<'a>, AllocError> {
    let command = Command::new(alloc, "show")
        .about("Prints the versions of the trusted files and when they expire")
        .after_help(SHOW_END);
    with_arguments(alloc, command, SHOW)
}

fn key_command<'a>(alloc: Global) -> Result<Command<'a>, AllocError> {
    let command = Command::new(alloc, "key")
        .about("Makes the key object of a public key")
        .after_help(KEY_END);
    with_arguments(alloc, command, KEY)
}

fn text_command<'a>(alloc: Global) -> Result<Command<'a>, AllocError> {
    let command = Command::new(alloc, "text")
        .about("Prints the text that signatures of a metadata file cover")
        .after_help(TEXT_END);
    with_arguments(alloc, command, TEXT)
}

fn attach_command<'a>(alloc: Global) -> Result<Command<'a>, AllocError> {
    let command = Command::new(alloc, "attach")
        .about("Attaches a signature to a metadata file, if it is valid")
        .after_help(ATTACH_END);
    with_arguments(alloc, command, ATTACH)
}

fn signers_command<'a>(alloc: Global) -> Result<Command<'a>, AllocError> {
    let command = Command::new(alloc, "signers")
        .about("Prints who signed a metadata file, and whether they are enough")
        .after_help(SIGNERS_END);
    with_arguments(alloc, command, SIGNERS)
}

fn make_command<'a>(alloc: Global) -> Result<Command<'a>, AllocError> {
    let command = Command::new(alloc, "make")
        .about("Makes a repository for tests from a script")
        .after_help(MAKE_END);
    with_arguments(alloc, command, MAKE)
}
