//! Lines that a run prints.

use anyhow::{Result, bail};
use cycle::{End, Fault, Step as Stage, Text, Verdict};
use report::{push_end, push_verdict};
use sessions::Step;
use std::alloc::Global;

/// Returns the line of a verdict on the path that the first word encodes in hexadecimal digits.
pub fn verdict(alloc: Global, step: &Step) -> Result<String> {
    let path = hex::decode(alloc, step.word(0)?)?;
    let path = std::str::from_utf8(&path)?;
    let verdict = verdict_of(alloc, step)?;
    let mut text = String::new(alloc);
    push_verdict(alloc, &mut text, path, &verdict)?;
    Ok(text)
}

fn verdict_of(alloc: Global, step: &Step) -> Result<Verdict> {
    match step.word(1)? {
        "Good" => good(alloc, step),
        "RoleRefused" => role_refused(alloc, step),
        "NotFound" => Ok(Verdict::NotFound),
        "LimitReached" => Ok(Verdict::LimitReached),
        "NotSearched" => Ok(Verdict::NotSearched),
        fault => Ok(Verdict::FileRefused(fault_of(fault)?)),
    }
}

fn good(alloc: Global, step: &Step) -> Result<Verdict> {
    let length = step.word(2)?.parse::<u64>()?;
    let role = role(alloc, step.word(3)?)?;
    Ok(Verdict::Good { role, length })
}

fn role_refused(alloc: Global, step: &Step) -> Result<Verdict> {
    let fault = fault_of(step.word(2)?)?;
    let role = role(alloc, step.word(3)?)?;
    Ok(Verdict::RoleRefused { role, fault })
}

fn role(alloc: Global, name: &str) -> Result<Text> {
    Ok(Text::new(String::from_str(alloc, name)?))
}

/// Returns the line of a cycle that is ready, or that stopped at a step with a fault.
pub fn end(alloc: Global, step: &Step) -> Result<String> {
    let end = end_of(step.words())?;
    let mut text = String::new(alloc);
    push_end(&mut text, end)?;
    Ok(text)
}

fn end_of(words: &[String]) -> Result<End> {
    match words {
        [] => Ok(End::Ready),
        [stage, fault] => {
            let stage = stage_of(stage.as_str())?;
            Ok(End::Stopped(stage, fault_of(fault.as_str())?))
        }
        _ => bail!("no such end"),
    }
}

fn stage_of(name: &str) -> Result<Stage> {
    Ok(match name {
        "root" => Stage::Root,
        "timestamp" => Stage::Timestamp,
        "snapshot" => Stage::Snapshot,
        "targets" => Stage::Targets,
        _ => bail!("no such step"),
    })
}

fn fault_of(name: &str) -> Result<Fault> {
    Ok(match name {
        "NotListed" => Fault::NotListed,
        "Missing" => Fault::Missing,
        "TooLong" => Fault::TooLong,
        "LengthWrong" => Fault::LengthWrong,
        "HashWrong" => Fault::HashWrong,
        "NoKnownHash" => Fault::NoKnownHash,
        "Malformed" => Fault::Malformed,
        "Unsigned" => Fault::Unsigned,
        "VersionWrong" => Fault::VersionWrong,
        "Rollback" => Fault::Rollback,
        "Expired" => Fault::Expired,
        _ => bail!("no such fault"),
    })
}
