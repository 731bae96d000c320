//! Values of Rust types that are read from JSON.

use crate::plain::Json;
use anyhow::{Result, bail};
use cjson::ReadFault;
use cjson::form::{FromJson, needed_member, optional_member};
use cjson::list::Items;
use cjson::number::{Length, Positive, Within};
use cjson::text::Text;
use sessions::Step;
use std::alloc::Global;

/// Reads a whole number with a lower bound.
pub fn at_least(alloc: Global, step: &Step) -> Result<String> {
    let json = Json::read(alloc, step.text_behind(1))?;
    match step.word(0)? {
        "0" => number(alloc, Length::from_json(alloc, &json.tree)),
        "1" => number(alloc, Positive::from_json(alloc, &json.tree)),
        "7" => number(
            alloc,
            Within::<7, 9_223_372_036_854_775_807>::from_json(alloc, &json.tree),
        ),
        "8" => number(
            alloc,
            Within::<8, 9_223_372_036_854_775_807>::from_json(alloc, &json.tree),
        ),
        _ => bail!("no such bound"),
    }
}

fn number<const LEAST: u64, const MOST: u64>(
    alloc: Global,
    number: Result<Within<LEAST, MOST>, ReadFault>,
) -> Result<String> {
    match number {
        Ok(number) => Ok(format!(in alloc; "{}\n", number.get())?),
        Err(fault) => not_read(alloc, fault),
    }
}

/// Reads the bytes, a given number of them, that a text encodes in hexadecimal digits.
pub fn digits(alloc: Global, step: &Step) -> Result<String> {
    let json = Json::read(alloc, step.text_behind(1))?;
    match step.word(0)? {
        "0" => spelled(alloc, <[u8; 0]>::from_json(alloc, &json.tree)),
        "3" => spelled(alloc, <[u8; 3]>::from_json(alloc, &json.tree)),
        _ => bail!("no such count"),
    }
}

fn spelled<const N: usize>(alloc: Global, bytes: Result<[u8; N], ReadFault>) -> Result<String> {
    match bytes {
        Ok(bytes) => Ok(format!(in alloc; "{:?}\n", hex::encode(alloc, bytes)?.as_str())?),
        Err(fault) => not_read(alloc, fault),
    }
}

/// Reads a required member, which is a truth.
pub fn needed_truth(alloc: Global, step: &Step) -> Result<String> {
    let json = Json::read(alloc, step.text_behind(1))?;
    truth(alloc, needed_member(alloc, &json.tree, step.word(0)?))
}

fn truth(alloc: Global, truth: Result<bool, ReadFault>) -> Result<String> {
    match truth {
        Ok(truth) => Ok(format!(in alloc; "{truth}\n")?),
        Err(fault) => not_read(alloc, fault),
    }
}

/// Reads an optional member, which is a truth.
pub fn optional_truth(alloc: Global, step: &Step) -> Result<String> {
    let json = Json::read(alloc, step.text_behind(1))?;
    truth_or_none(alloc, optional_member(alloc, &json.tree, step.word(0)?))
}

fn truth_or_none(alloc: Global, found: Result<Option<bool>, ReadFault>) -> Result<String> {
    match found {
        Ok(Some(found)) => truth(alloc, Ok(found)),
        Ok(None) => Ok(String::from_str(alloc, "none\n")?),
        Err(fault) => not_read(alloc, fault),
    }
}

/// Reads a required member, which is a text.
pub fn needed_text(alloc: Global, step: &Step) -> Result<String> {
    let json = Json::read(alloc, step.text_behind(1))?;
    quoted(alloc, needed_member(alloc, &json.tree, step.word(0)?))
}

fn quoted(alloc: Global, text: Result<Text, ReadFault>) -> Result<String> {
    match text {
        Ok(text) => Ok(format!(in alloc; "{:?}\n", text.into_string().as_str())?),
        Err(fault) => not_read(alloc, fault),
    }
}

/// Reads a list of truths, as a slice and as a vector.
pub fn list(alloc: Global, step: &Step) -> Result<String> {
    let json = Json::read(alloc, step.text_behind(0))?;
    match Items::<bool>::from_json(alloc, &json.tree) {
        Ok(items) => listed(alloc, items),
        Err(fault) => not_read(alloc, fault),
    }
}

fn listed(alloc: Global, items: Items<bool>) -> Result<String> {
    let mut text = String::new(alloc);
    push_truths(&mut text, "lent", items.as_slice())?;
    push_truths(&mut text, "given", items.into_vec().as_slice())?;
    Ok(text)
}

fn push_truths(text: &mut String, front: &str, truths: &[bool]) -> Result<()> {
    text.push_str(front)?;
    for truth in truths {
        write!(text, " {truth}")?;
    }
    text.push('\n')?;
    Ok(())
}

fn not_read(alloc: Global, fault: ReadFault) -> Result<String> {
    Ok(format!(in alloc; "{fault:?}\n")?)
}
