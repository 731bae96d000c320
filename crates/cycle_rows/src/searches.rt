//! Searches for a path through delegations, in a repository in memory.

use anyhow::{Context, Result, bail};
use cjson::number::Within;
use deleg::{Found, Search, search};
use keys::{Direct, key_id};
use lms::{Height, Secret};
use meta::{Moment, Repo};
use rolechain::Trusted;
use serde_json::Value;
use sessions::{Step, words_of};
use std::alloc::Global;
use std::collections::BTreeMap;

const ROOT: &str =
    "{\"signatures\":[],\"signed\":{\"_type\":\"root\",\"expires\":\"2030-01-01T00:00:00Z\",\
\"keys\":{},\"roles\":{\"root\":{\"keyids\":[],\"threshold\":1},\
\"snapshot\":{\"keyids\":[],\"threshold\":1},\
\"targets\":{\"keyids\":[],\"threshold\":1},\"timestamp\":{\"keyids\":[],\"threshold\":1}},\
\"spec_version\":\"1.0.31\",\"version\":1}}";

const TIMESTAMP: &str =
    "{\"signatures\":[],\"signed\":{\"_type\":\"timestamp\",\"expires\":\"2030-01-01T00:00:00Z\",\
\"meta\":{\"snapshot.json\":{\"version\":1}},\"spec_version\":\"1.0.31\",\"version\":1}}";

const SNAPSHOT: &str =
    "{\"signatures\":[],\"signed\":{\"_type\":\"snapshot\",\"expires\":\"2030-01-01T00:00:00Z\",\
\"meta\":{\"...json\":{\"version\":1},\".json\":{\"version\":1},\
\"../b.json\":{\"version\":1},\"a.json\":{\"version\":1},\
\"b.json\":{\"version\":1},\"c.json\":{\"version\":1},\
\"targets.json\":{\"version\":1}},\"spec_version\":\"1.0.31\",\"version\":1}}";

const DIGEST: &str = "ba7816bf8f01cfea414140de5dae2223b00361a396177a9cb410ff61f20015ad";

/// A key with its id and its secret.
struct Signer {
    id: String,
    key: String,
    secret: Secret,
}

impl Drop for Signer {
    fn drop(self) {
        let Signer { id, key, secret } = self;
    }
}

impl Signer {
    fn new(alloc: Global, byte: u8) -> Result<Signer> {
        let secret = Secret::new(alloc, [byte; 16], [byte; 32], Height::H5)?;
        let public = hex::encode(alloc, *secret.public().bytes())?;
        let key = format!(in alloc;
            "{{\"keytype\":\"lms\",\"keyval\":{{\"public\":\"{public}\"}},\
\"scheme\":\"lms-sha256\"}}"
        )?;
        let id = key_id(alloc, &Value::from_slice(alloc, key.as_bytes())?)?;
        Ok(Signer { id, key, secret })
    }

    /// Returns a signed targets file of version 1 that lists the path.
    fn file(&mut self, alloc: Global, path: &str) -> Result<String> {
        let signed = format!(in alloc;
            "{{\"_type\":\"targets\",\"expires\":\"2030-01-01T00:00:00Z\",\
\"spec_version\":\"1.0.31\",\"targets\":{{\"{path}\":{{\"hashes\":\
{{\"sha256\":\"{DIGEST}\"}},\"length\":3}}}},\"version\":1}}"
        )?;
        let sig = hex::encode(alloc, self.secret.sign(signed.as_bytes())?)?;
        let id = self.id.as_str();
        Ok(format!(in alloc;
            "{{\"signatures\":[{{\"keyid\":\"{id}\",\"sig\":\"{sig}\"}}],\"signed\":{signed}}}"
        )?)
    }
}

/// Two keys, the delegations of the top-level role, and the delegated files.
struct Parts {
    one: Signer,
    two: Signer,
    roles: String,
    repo: Repo,
}

impl Drop for Parts {
    fn drop(self) {
        let Parts {
            one,
            two,
            roles,
            repo,
        } = self;
    }
}

impl Parts {
    fn new(alloc: Global) -> Result<Parts> {
        Ok(Parts {
            one: Signer::new(alloc, 5)?,
            two: Signer::new(alloc, 6)?,
            roles: String::new(alloc),
            repo: Repo {
                metadata: BTreeMap::new(alloc),
                targets: BTreeMap::new(alloc),
            },
        })
    }

    fn signer(&mut self, name: &str) -> Result<&mut Signer> {
        Ok(match name {
            "one" => &mut self.one,
            "two" => &mut self.two,
            _ => bail!("no such key"),
        })
    }

    /// Follows a line: `delegate ROLE KEY go`, `delegate ROLE KEY stop` or `file ROLE KEY PATH`.
    fn follow(&mut self, alloc: Global, words: &[String]) -> Result<()> {
        let [kind, role, key, last] = words else {
            bail!("a line has four words");
        };
        match kind.as_str() {
            "delegate" => self.delegate(role.as_str(), key.as_str(), last.as_str() == "stop"),
            "file" => self.add(alloc, role.as_str(), key.as_str(), last.as_str()),
            _ => bail!("no such line"),
        }
    }

    /// Delegates `x/*` from the top-level role to the role.
    fn delegate(&mut self, role: &str, key: &str, terminating: bool) -> Result<()> {
        if !self.roles.is_empty() {
            self.roles.push(',')?;
        }
        let id = self.signer(key)?.id.clone()?;
        write!(
            self.roles,
            "{{\"keyids\":[\"{id}\"],\"name\":\"{role}\",\"paths\":[\"x/*\"],\
\"terminating\":{terminating},\"threshold\":1}}"
        )?;
        Ok(())
    }

    /// Adds the role's file, signed by the key, which lists the path.
    fn add(&mut self, alloc: Global, role: &str, key: &str, path: &str) -> Result<()> {
        let file = self.signer(key)?.file(alloc, path)?;
        let name = format!(in alloc; "{role}.json")?;
        self.repo.metadata.insert(name, file.into_bytes())?;
        Ok(())
    }

    /// Returns a top-level targets file of version 1 with the delegations, which lists `x/y` and
    /// `y`.
    fn top(&self, alloc: Global) -> Result<String> {
        let (one, two) = (self.one.id.as_str(), self.two.id.as_str());
        let (one_key, two_key) = (self.one.key.as_str(), self.two.key.as_str());
        let roles = self.roles.as_str();
        Ok(format!(in alloc;
            "{{\"signatures\":[],\"signed\":{{\"_type\":\"targets\",\"delegations\":{{\
\"keys\":{{\"{one}\":{one_key},\"{two}\":{two_key}}},\"roles\":[{roles}]}},\
\"expires\":\"2030-01-01T00:00:00Z\",\"spec_version\":\"1.0.31\",\
\"targets\":{{\"x/y\":{{\"hashes\":{{\"sha256\":\"{DIGEST}\"}},\"length\":3}},\
\"y\":{{\"hashes\":{{\"sha256\":\"{DIGEST}\"}},\"length\":3}}}},\"version\":1}}}}"
        )?)
    }
}

/// Returns the trusted state with that top-level targets file.
fn state(alloc: Global, targets: &str) -> Result<Trusted> {
    let root = hex::encode(alloc, ROOT.as_bytes())?;
    let snapshot = hex::encode(alloc, SNAPSHOT.as_bytes())?;
    let targets = hex::encode(alloc, targets.as_bytes())?;
    let timestamp = hex::encode(alloc, TIMESTAMP.as_bytes())?;
    let text = format!(in alloc;
        "{{\"root\":\"{root}\",\"snapshot\":\"{snapshot}\",\
\"targets\":\"{targets}\",\"timestamp\":\"{timestamp}\"}}"
    )?;
    Ok(Trusted::from_text(alloc, text.as_bytes())?)
}

/// Searches for a path with a limit, in the repository of the lines, and returns the lines of the
/// result.
pub fn output(alloc: Global, step: &Step) -> Result<String> {
    let parts = parts_of(alloc, step.script.as_slice())?;
    let trusted = state(alloc, parts.top(alloc)?.as_str())?;
    let limit = Within::new(step.word(1)?.parse()?).context("a limit is 1 to 256")?;
    let searched = searched(alloc, &trusted, &parts.repo, step.word(0)?, limit)?;
    lines_of(alloc, &searched)
}

/// Makes the repository of the lines.
fn parts_of(alloc: Global, lines: &[String]) -> Result<Parts> {
    let mut parts = Parts::new(alloc)?;
    for line in lines {
        let words = words_of(alloc, line.as_str())?;
        parts.follow(alloc, words.as_slice())?;
    }
    Ok(parts)
}

fn searched(
    alloc: Global,
    trusted: &Trusted,
    repo: &Repo,
    path: &str,
    limit: Within<1, 256>,
) -> Result<Search> {
    let now = Moment::read("2026-01-01T00:00:00Z").context("no moment")?;
    if !trusted.is_ready() {
        bail!("a state that isn't ready");
    }
    let limit = limit.get() as usize;
    Ok(search(alloc, trusted, repo, now, path, limit, &mut Direct)?)
}

/// Returns the accepted roles with their versions, and the finding.
fn lines_of(alloc: Global, searched: &Search) -> Result<String> {
    let mut text = String::new(alloc);
    for accepted in searched.accepted.as_slice() {
        writeln!(
            text,
            "role {:?} {}",
            accepted.role.as_str(),
            accepted.version
        )?;
    }
    push_found(&mut text, &searched.found)?;
    Ok(text)
}

fn push_found(text: &mut String, found: &Found) -> Result<()> {
    match found {
        Found::Listed {
            role,
            target,
            visited,
        } => {
            let (role, length) = (role.as_str(), target.length.get());
            writeln!(text, "{length} bytes in {role:?}, {visited} visited")?;
        }
        Found::NotFound => text.push_str("not found\n")?,
        Found::LimitReached => text.push_str("limit reached\n")?,
        Found::RoleRefused { role, fault } => {
            let role = role.as_str();
            writeln!(text, "{role:?} refused: {fault:?}")?;
        }
    }
    Ok(())
}
