//! Whether enough of a role's keys signed a file.

use crate::layers::Layers;
use crate::plain::{output, value_of};
use anyhow::{Context, Result, bail};
use cjson::{NoMemory, signed_bytes};
use keys::{Ask, Direct, Judge, KeyRing, RoleKeys, enough, key_id};
use lms::{Height, Public, Secret};
use sessions::Step;
use std::alloc::Global;

/// The canonical text of what is signed, which the files here write differently.
const SIGNED: &[u8] = b"{\"a\":1,\"b\":[]}";

/// The file of the members of the object of keys.
const RING: &str = "ring";

/// Makes a key of a byte, with a type and further members, which signs once. It is in the ring
/// under its own id, or under that of the line.
pub fn signer(layers: &Layers<'_>, step: &Step) -> Result<String> {
    let alloc = layers.alloc;
    let name = step.word(0)?;
    let (public, sig) = signed_once(alloc, step.word(1)?)?;
    add(layers, name, "sig", sig.as_str())?;
    let key = key_text(alloc, &public, step.word(2)?, step.text_behind(3))?;
    let id = id_for(alloc, step, key.as_str())?;
    add_key(layers, name, id.as_str(), key.as_str())?;
    Ok(String::new(alloc))
}

/// Returns the id of the line, or the key's own if there is no line.
fn id_for(alloc: Global, step: &Step, key: &str) -> Result<String> {
    match step.script.first() {
        Some(id) => Ok(id.clone()?),
        None => own_id(alloc, key),
    }
}

/// Returns the public key of a byte, and a signature.
fn signed_once(alloc: Global, byte: &str) -> Result<(Public, String)> {
    let byte = byte.parse::<u8>()?;
    let mut secret = Secret::new(alloc, [byte; 16], [byte; 32], Height::H5)?;
    let sig = hex::encode(alloc, secret.sign(SIGNED)?)?;
    Ok((secret.public(), sig))
}

fn key_text(alloc: Global, public: &Public, kind: &str, more: &str) -> Result<String> {
    let public = hex::encode(alloc, *public.bytes())?;
    Ok(format!(in alloc;
        "{{\"scheme\":\"lms-sha256\",\"keytype\":\"{kind}\",\
\"keyval\":{{\"public\":\"{public}\"}}{more}}}"
    )?)
}

fn own_id(alloc: Global, key: &str) -> Result<String> {
    Ok(key_id(alloc, &value_of(alloc, key)?)?)
}

/// Writes what belongs to a signer.
fn add(layers: &Layers<'_>, name: &str, part: &str, text: &str) -> Result<()> {
    let file = format!(in layers.alloc; "{name}.{part}")?;
    layers.write(file.as_str(), text)
}

/// Writes the id of a signer, and puts its key into the ring.
fn add_key(layers: &Layers<'_>, name: &str, id: &str, key: &str) -> Result<()> {
    add(layers, name, "id", id)?;
    let mut members = String::new(layers.alloc);
    if layers.has(RING)? {
        members.push_str(layers.text(RING)?.as_str())?;
        members.push(',')?;
    }
    write!(members, "\"{id}\":{key}")?;
    layers.write(RING, members.as_str())
}

/// Returns a part of a signer's files.
fn part(layers: &Layers<'_>, name: &str, part: &str) -> Result<String> {
    let file = format!(in layers.alloc; "{name}.{part}")?;
    layers.text(file.as_str())
}

/// Returns the id of a signer. A name that no signer has is an id itself.
fn id_of(layers: &Layers<'_>, name: &str) -> Result<String> {
    let file = format!(in layers.alloc; "{name}.id")?;
    if layers.has(file.as_str())? {
        layers.text(file.as_str())
    } else {
        Ok(String::from_str(layers.alloc, name)?)
    }
}

fn ring(layers: &Layers<'_>) -> Result<KeyRing> {
    let members = layers.text(RING)?;
    let text = format!(in layers.alloc; "{{{members}}}")?;
    let value = value_of(layers.alloc, text.as_str())?;
    Ok(KeyRing::read(layers.alloc, &value)?.context("no ring")?)
}

/// Returns the role that lists signers, whose names are joined by commas.
fn role(layers: &Layers<'_>, threshold: &str, names: &str) -> Result<RoleKeys> {
    let mut ids = String::new(layers.alloc);
    for name in names.split(",") {
        push_id(layers, &mut ids, name)?;
    }
    let text = format!(in layers.alloc; "{{\"keyids\":[{ids}],\"threshold\":{threshold}}}")?;
    let value = value_of(layers.alloc, text.as_str())?;
    Ok(RoleKeys::read(layers.alloc, &value)?.context("no role")?)
}

fn push_id(layers: &Layers<'_>, ids: &mut String, name: &str) -> Result<()> {
    let id = id_of(layers, name)?;
    push_comma(ids)?;
    Ok(write!(ids, "\"{id}\"")?)
}

fn push_comma(text: &mut String) -> Result<()> {
    if !text.is_empty() {
        text.push(',')?;
    }
    Ok(())
}

/// Returns the file with the entries.
fn file(layers: &Layers<'_>, entries: &[String]) -> Result<String> {
    let mut listed = String::new(layers.alloc);
    for entry in entries {
        push_comma(&mut listed)?;
        push_entry(layers, &mut listed, entry.as_str())?;
    }
    Ok(format!(in layers.alloc;
        "{{\"signatures\":[{listed}],\"signed\":{{ \"b\" : [ ], \"a\" : 1 }}}}"
    )?)
}

/// Adds the entry that is written as `ID=SIGNATURE`.
fn push_entry(layers: &Layers<'_>, listed: &mut String, entry: &str) -> Result<()> {
    let (name, sig) = entry.split_once("=").context("no entry")?;
    let id = id_of(layers, name)?;
    let sig = signature(layers, sig)?;
    write!(listed, "{{\"sig\":\"{sig}\",\"keyid\":\"{id}\"}}")?;
    Ok(())
}

/// Returns a signer's signature, `NAME`, or a changed one: `NAME.capitals`, `NAME.short` without
/// its last digit, `NAME.bad` with a letter in the place of it, or `empty`.
fn signature(layers: &Layers<'_>, word: &str) -> Result<String> {
    if word == "empty" {
        return Ok(String::new(layers.alloc));
    }
    let (name, how) = word.split_once(".").unwrap_or((word, ""));
    spelled(part(layers, name, "sig")?, how)
}

fn spelled(mut text: String, how: &str) -> Result<String> {
    match how {
        "" => {}
        "capitals" => text.make_ascii_uppercase(),
        "short" => {
            text.pop();
        }
        "bad" => {
            text.pop();
            text.push('g')?;
        }
        _ => bail!("no such spelling"),
    }
    Ok(text)
}

/// Returns whether enough keys signed the file.
pub fn is_enough(layers: &Layers<'_>, step: &Step) -> Result<String> {
    output(layers.alloc, asked(layers, step, &mut Direct)?)
}

/// Returns whether enough keys signed the file that is named `root.json`.
fn asked<J: Judge>(layers: &Layers<'_>, step: &Step, judge: &mut J) -> Result<bool> {
    let role = role(layers, step.word(0)?, step.word(1)?)?;
    let file = file(layers, step.words_behind(2))?;
    let doc = signed_bytes(layers.alloc, file.as_bytes())?;
    let ring = ring(layers)?;
    Ok(enough(layers.alloc, &doc, "root.json", &ring, &role, judge)?)
}

/// The plain judge, with a record of the signatures that it checks.
#[derive(Drop)]
struct Witness {
    asks: String,
}

impl Witness {
    fn note(&mut self, ask: &Ask) -> Result<(), NoMemory> {
        if let Ask::Signature(ask) = ask {
            writeln!(self.asks, "asked of {} {}", ask.file, ask.place)?;
        }
        Ok(())
    }
}

impl Judge for Witness {
    fn valid(&mut self, ask: &Ask) -> Result<bool, NoMemory> {
        self.note(ask)?;
        Direct.valid(ask)
    }
}

/// Returns the same result, with the signatures that the judge checked.
pub fn asks(layers: &Layers<'_>, step: &Step) -> Result<String> {
    let mut witness = Witness {
        asks: String::new(layers.alloc),
    };
    let is_met = asked(layers, step, &mut witness)?;
    let mut text = output(layers.alloc, is_met)?;
    text.push_str(witness.asks.as_str())?;
    Ok(text)
}
