//! The arguments of a subcommand.

use cjson::number::Within;
use clap::ArgMatches;
use cycle::Limits;
use failure::Failure;
use needs::Place;
use std::alloc::{AllocError, Global};
use update::{Detail, Locking, Settings, Wants};

/// Maximum number of checks of a plan.
const CHECKS: usize = 4096;

/// Returns what the arguments of both `verify` and `replay` name.
pub fn settings<'a>(matches: &ArgMatches<'a>) -> Result<Settings<'a>, Failure> {
    Ok(Settings {
        state: word(matches, "state")?,
        locking: locking(matches),
        moment: matches.get_str("now"),
        limits: limits(matches)?,
        workers: number(matches, "workers")?,
        out: word(matches, "out")?,
        detail: detail(matches),
    })
}

/// Returns whether the state file has to be locked.
fn locking(matches: &ArgMatches<'_>) -> Locking {
    if matches.get_flag("unlocked") {
        Locking::Without
    } else {
        Locking::Needed
    }
}

/// Returns what is printed of a stop.
fn detail(matches: &ArgMatches<'_>) -> Detail {
    if matches.get_flag("why") {
        Detail::Reasons
    } else {
        Detail::Faults
    }
}

/// Returns what the arguments of `next` name, with these wanted paths.
pub fn wants<'a>(matches: &ArgMatches<'a>, wanted: Vec<String>) -> Result<Wants<'a>, Failure> {
    Ok(Wants {
        state: word(matches, "state")?,
        moment: matches.get_str("now"),
        limits: limits(matches)?,
        wanted,
        only: matches.get_str("only").map(place_of),
    })
}

/// Returns the limits of a run. Fails with `Words` as [`number`] does.
fn limits(matches: &ArgMatches<'_>) -> Result<Limits, Failure> {
    Limits::new(whole(matches, "limit")?, CHECKS).ok_or(Failure::Words)
}

/// Returns the folder of that name.
fn place_of(name: &str) -> Place {
    if name == "targets" {
        Place::Targets
    } else {
        Place::Metadata
    }
}

/// Returns the argument of that name. Fails with `Words` if it is missing.
pub fn word<'a>(matches: &ArgMatches<'a>, name: &str) -> Result<&'a str, Failure> {
    matches.get_str(name).ok_or(Failure::Words)
}

/// Returns the number of that name. Fails with `Words` if it is missing or out of its range.
pub fn number<const LEAST: u64, const MOST: u64>(
    matches: &ArgMatches<'_>,
    name: &str,
) -> Result<Within<LEAST, MOST>, Failure> {
    Within::new(whole(matches, name)? as u64).ok_or(Failure::Words)
}

fn whole(matches: &ArgMatches<'_>, name: &str) -> Result<usize, Failure> {
    matches.get_one::<usize>(name).ok_or(Failure::Words)
}

/// Returns all arguments of that name, in order.
pub fn all_of(
    alloc: Global,
    matches: &ArgMatches<'_>,
    name: &str,
) -> Result<Vec<String>, AllocError> {
    let mut all = Vec::new(alloc);
    if let Some(words) = matches.get_strs(name) {
        for word in words {
            all.push(String::from_str(alloc, word)?)?;
        }
    }
    Ok(all)
}
