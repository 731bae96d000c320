//! The command line.

use clap::builder::ValueParser;
use clap::{Arg, ArgAction, ArgMatches, Command, Error};
use std::alloc::{AllocError, Global};

/// Parses the arguments. Fails with what `clap` prints instead: a usage error, help or the version.
pub fn parse<'a>(alloc: Global, words: &'a [String]) -> Result<ArgMatches<'a>, Error> {
    lmskey(alloc)?.try_get_matches_from(words)
}

fn lmskey<'a>(alloc: Global) -> Result<Command<'a>, AllocError> {
    let command = Command::new(alloc, "lmskey")
        .about("Signs with LMS keys whose leaves can't be used twice")
        .version("1.0.0 (rattle logic dac8208d650f15bf)")
        .no_binary_name(true)
        .subcommand_required(true);
    let command = command.bin_name("lmskey")?;
    let command = command.subcommand(new_command(alloc)?)?;
    let command = command.subcommand(sign_command(alloc)?)?;
    let command = command.subcommand(show_command(alloc)?)?;
    command.subcommand(restore_command(alloc)?)
}

fn new_command<'a>(alloc: Global) -> Result<Command<'a>, AllocError> {
    let command = Command::new(alloc, "new").about("Makes a key");
    let command = command.arg(choice(alloc, "width", &["4", "8"], "8"))?;
    let command = command.arg(choice(alloc, "height", &["5", "10", "15"], "10"))?;
    let command = with_log(alloc, command)?;
    command.arg(key_word(alloc))
}

fn sign_command<'a>(alloc: Global) -> Result<Command<'a>, AllocError> {
    let command = Command::new(alloc, "sign").about("Signs files, each by a leaf of its own");
    let command = with_log(alloc, command)?;
    let suffix = Arg::new(alloc, "suffix")
        .long("suffix")
        .value_name("TEXT")
        .default_value("sig")
        .help("What follows the file's name and a point in the name of its signature");
    let command = command.arg(suffix)?;
    let command = command.arg(key_word(alloc))?;
    let files = Arg::new(alloc, "FILE")
        .help("The files, whose bytes are signed as they are")
        .action(ArgAction::Append)
        .required(true)
        .num_args(1..);
    command.arg(files)
}

fn show_command<'a>(alloc: Global) -> Result<Command<'a>, AllocError> {
    let command = Command::new(alloc, "show").about("Prints a key's id, kind and leaves");
    command.arg(key_word(alloc))
}

fn restore_command<'a>(alloc: Global) -> Result<Command<'a>, AllocError> {
    let command = Command::new(alloc, "restore").about("Makes a lost leaves file again");
    let command = with_log(alloc, command)?;
    let gap = Arg::new(alloc, "gap")
        .long("gap")
        .value_name("N")
        .value_parser(ValueParser::unsigned(0, 65_536))
        .required(true)
        .help("How many leaves are given up beyond those that the log has");
    let command = command.arg(gap)?;
    command.arg(key_word(alloc))
}

fn key_word<'a>(alloc: Global) -> Arg<'a> {
    Arg::new(alloc, "KEY").help("The key file").required(true)
}

/// Returns an option with one of these words.
fn choice<'a>(alloc: Global, name: &'a str, of: &'a [&'a str], default: &'a str) -> Arg<'a> {
    let arg = Arg::new(alloc, name).long(name).value_name("N");
    arg.value_parser(of).default_value(default)
}

/// Returns the command with the two options of the log.
fn with_log<'a>(alloc: Global, command: Command<'a>) -> Result<Command<'a>, AllocError> {
    let log = Arg::new(alloc, "log")
        .long("log")
        .value_name("LOG")
        .help("The log of reserved leaves, on another device");
    let command = command.arg(log)?;
    let none = Arg::new(alloc, "no-log")
        .long("no-log")
        .help("Keep no log")
        .action(ArgAction::SetTrue)
        .conflicts_with("log")?;
    command.arg(none)
}
