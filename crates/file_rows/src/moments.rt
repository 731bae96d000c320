//! Moments and their texts.

use crate::plain::output;
use anyhow::{Context, Result};
use moment::Moment;
use sessions::Step;
use std::alloc::Global;

/// Returns the moment that a text encodes.
pub fn read(alloc: Global, step: &Step) -> Result<String> {
    shown(alloc, Moment::read(step.text_behind(0)))
}

/// Returns the moment that many seconds after 1970-01-01T00:00:00Z.
pub fn at(alloc: Global, step: &Step) -> Result<String> {
    shown(alloc, Moment::at(step.word(0)?.parse::<u64>()?))
}

/// Returns whether the moment of the first seconds is before that of the second ones.
pub fn before(alloc: Global, step: &Step) -> Result<String> {
    let (one, other) = (moment(step, 0)?, moment(step, 1)?);
    output(alloc, one.is_before(other))
}

fn moment(step: &Step, place: usize) -> Result<Moment> {
    Moment::at(step.word(place)?.parse::<u64>()?).context("no moment")
}

fn shown(alloc: Global, moment: Option<Moment>) -> Result<String> {
    match moment {
        Some(moment) => Ok(format!(in alloc; "{}\n", spelled(alloc, moment)?)?),
        None => Ok(String::from_str(alloc, "none\n")?),
    }
}

/// Returns the day and the second of a moment.
pub fn spelled(alloc: Global, moment: Moment) -> Result<String> {
    Ok(format!(in alloc; "day {} second {}", moment.day(), moment.second())?)
}
