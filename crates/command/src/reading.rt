//! Subcommands, read from the command line.

use crate::apart::are_apart;
use crate::listed::given_paths;
use crate::subcommand::{FolderPaths, Subcommand};
use crate::terms::{all_of, number, settings, wants, word};
use ceremony::{AttachPaths, By, Role};
use clap::ArgMatches;
use cycle::Step;
use failure::Failure;
use replay::Cycles;
use std::alloc::Global;
use update::{First, Terms, Wanted};

/// Returns the subcommand that the arguments name. Reads the file of `--paths-from`, if there is
/// one. Fails with `Words` if an argument is missing, and as [`given_paths`] does.
pub fn read_subcommand<'a>(
    rt: &HostRuntime,
    alloc: Global,
    matches: &ArgMatches<'a>,
) -> Result<Subcommand<'a>, Failure> {
    let (name, words) = matches.subcommand().ok_or(Failure::Words)?;
    match name {
        "init" => init_of(words),
        "key" => key_of(words),
        "text" => text_of(words),
        "attach" => attach_of(words),
        "signers" => signers_of(words),
        "make" => make_of(words),
        "next" => next_of(rt, alloc, words),
        "replay" => replay_of(rt, alloc, words),
        "show" => show_of(words),
        _ => verify_of(rt, alloc, words),
    }
}

/// Returns whether the subcommand has the option `--progress`.
pub fn has_progress(matches: &ArgMatches<'_>) -> bool {
    match matches.subcommand() {
        Some((_, words)) => words.get_flag("progress"),
        None => false,
    }
}

fn init_of<'a>(words: &ArgMatches<'a>) -> Result<Subcommand<'a>, Failure> {
    Ok(Subcommand::Init {
        first: First {
            root: word(words, "ROOT")?,
            state: word(words, "out")?,
            is_new: words.get_flag("new"),
        },
    })
}

fn key_of<'a>(words: &ArgMatches<'a>) -> Result<Subcommand<'a>, Failure> {
    Ok(Subcommand::Key {
        from: word(words, "FILE")?,
        to: word(words, "out")?,
    })
}

fn text_of<'a>(words: &ArgMatches<'a>) -> Result<Subcommand<'a>, Failure> {
    Ok(Subcommand::Text {
        file: word(words, "FILE")?,
    })
}

fn attach_of<'a>(words: &ArgMatches<'a>) -> Result<Subcommand<'a>, Failure> {
    Ok(Subcommand::Attach {
        paths: AttachPaths {
            file: word(words, "FILE")?,
            key: word(words, "KEY")?,
            sig: word(words, "SIG")?,
            to: word(words, "out")?,
        },
    })
}

fn signers_of<'a>(words: &ArgMatches<'a>) -> Result<Subcommand<'a>, Failure> {
    Ok(Subcommand::Signers {
        file: word(words, "FILE")?,
        by: by_of(words)?,
    })
}

/// Returns the file that lists the keys of a role: a root file, or a targets file that delegates
/// to it. Fails with `Words` unless just one of them is named.
fn by_of<'a>(words: &ArgMatches<'a>) -> Result<By<'a>, Failure> {
    let role = word(words, "role")?;
    match (words.get_str("root"), words.get_str("from")) {
        (Some(path), None) => Ok(By {
            path,
            role: Role::Top(step_of(role)?),
        }),
        (None, Some(path)) => Ok(By {
            path,
            role: Role::Delegated(role),
        }),
        _ => Err(Failure::Words),
    }
}

fn make_of<'a>(words: &ArgMatches<'a>) -> Result<Subcommand<'a>, Failure> {
    Ok(Subcommand::Make {
        script: word(words, "SCRIPT")?,
        folder: word(words, "DIR")?,
    })
}

fn show_of<'a>(words: &ArgMatches<'a>) -> Result<Subcommand<'a>, Failure> {
    let state = word(words, "STATE")?;
    match words.get_str("file") {
        Some(name) => Ok(Subcommand::ShowFile {
            state,
            file: step_of(name)?,
        }),
        None => Ok(Subcommand::Show {
            state,
            before: words.get_str("before"),
        }),
    }
}

/// Returns the step whose file has that name.
fn step_of(name: &str) -> Result<Step, Failure> {
    match name {
        "root" => Ok(Step::Root),
        "timestamp" => Ok(Step::Timestamp),
        "snapshot" => Ok(Step::Snapshot),
        "targets" => Ok(Step::Targets),
        _ => Err(Failure::Words),
    }
}

fn next_of<'a>(
    rt: &HostRuntime,
    alloc: Global,
    words: &ArgMatches<'a>,
) -> Result<Subcommand<'a>, Failure> {
    let wants = wants(words, given_paths(rt, alloc, words)?)?;
    let folders = folder_paths(words)?;
    Ok(Subcommand::Next { wants, folders })
}

fn replay_of<'a>(
    rt: &HostRuntime,
    alloc: Global,
    words: &ArgMatches<'a>,
) -> Result<Subcommand<'a>, Failure> {
    let settings = match settings(words) {
        Ok(settings) => settings,
        Err(failure) => return Err(failure),
    };
    let cycles = Cycles {
        settings,
        wanted: given_paths(rt, alloc, words)?,
        keep: number(words, "keep")?,
    };
    let repositories = all_of(alloc, words, "DIR")?;
    Ok(Subcommand::Replay {
        cycles,
        repositories,
    })
}

fn verify_of<'a>(
    rt: &HostRuntime,
    alloc: Global,
    words: &ArgMatches<'a>,
) -> Result<Subcommand<'a>, Failure> {
    let settings = match settings(words) {
        Ok(settings) => settings,
        Err(failure) => return Err(failure),
    };
    let folders = folder_paths(words)?;
    let into = into_of(rt, alloc, words)?;
    let terms = Terms {
        settings,
        wanted: wanted_of(rt, alloc, words)?,
    };
    Ok(match into {
        None => Subcommand::Verify { terms, folders },
        Some(into) => Subcommand::VerifyInto {
            terms,
            folders,
            into,
        },
    })
}

/// Returns what `verify` wants.
fn wanted_of(rt: &HostRuntime, alloc: Global, words: &ArgMatches<'_>) -> Result<Wanted, Failure> {
    if words.get_flag("every") {
        return Ok(Wanted::Every);
    }
    Ok(Wanted::Paths(given_paths(rt, alloc, words)?))
}

/// Returns the two folders of a repository.
fn folder_paths<'a>(words: &ArgMatches<'a>) -> Result<FolderPaths<'a>, Failure> {
    Ok(FolderPaths {
        metadata: word(words, "metadata")?,
        targets: word(words, "targets")?,
    })
}

/// The arguments that name what a run reads and stores.
const NAMED: [&str; 5] = ["state", "out", "metadata", "targets", "paths-from"];

/// Returns the folder for copies, if there is one. Fails with `Words` if its path is empty, or if
/// it isn't apart from what the other arguments name.
fn into_of<'a>(
    rt: &HostRuntime,
    alloc: Global,
    words: &ArgMatches<'a>,
) -> Result<Option<&'a str>, Failure> {
    let Some(into) = words.get_str("into") else {
        return Ok(None);
    };
    if into.is_empty() {
        return Err(Failure::Words);
    }
    for name in NAMED {
        if let Some(path) = words.get_str(name) {
            if path != "-" && !are_apart(rt, alloc, into, path)? {
                return Err(Failure::Words);
            }
        }
    }
    Ok(Some(into))
}
