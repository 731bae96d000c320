//! The repository that a script makes.

use crate::bins::Bins;
use crate::line::{
    Quorum, WriteLine, read_delegate, read_quorum, read_succinct, read_target, read_write,
};
use crate::objects::{
    Members, delegation_object, listing_object, put, quorum_members, succinct_object, target_name,
    target_object,
};
use crate::refusal::Refusal;
use crate::ring::{ids_of, new_signer, place_of, places_of, put_keys};
use crate::words::Words;
use cjson::canonical;
use meta::names;
use seals::{Signer, seal_text};
use serde_json::{Map, Value};
use std::alloc::{AllocError, Global};
use std::collections::BTreeMap;

/// The version of the standard that files name.
const SPEC_VERSION: &str = "1.0.0";

/// The contents of the next file of `targets` or of a delegated role.
#[derive(Drop)]
struct Role {
    targets: Map<String, Value>,
    delegations: Vec<Value>,
    succinct: Option<Value>,
    /// The keys that the delegations name.
    keys: Map<String, Value>,
}

impl Role {
    fn new(alloc: Global) -> Role {
        Role {
            targets: Map::new(alloc),
            delegations: Vec::new(alloc),
            succinct: None,
            keys: Map::new(alloc),
        }
    }

    /// Returns the member `delegations`, if there are any.
    fn delegations(&self, alloc: Global) -> Result<Option<Value>, AllocError> {
        if self.succinct.is_none() && self.delegations.is_empty() {
            return Ok(None);
        }
        let mut object = Members::new(alloc);
        object.put("keys", Value::Object(self.keys.clone()?))?;
        match &self.succinct {
            Some(succinct) => object.put("succinct_roles", succinct.clone()?)?,
            None => object.put("roles", Value::Array(self.delegations.clone()?))?,
        }
        Ok(Some(object.into_value()))
    }
}

/// The repository so far.
#[derive(Drop)]
pub struct Repository {
    alloc: Global,
    signers: Vec<Signer>,
    consistent: bool,
    expires: String,
    /// The top-level roles that have their `top` line.
    tops: BTreeMap<String, Quorum>,
    /// `targets` and the delegated roles. A bin is here from the first line that names it.
    roles: BTreeMap<String, Role>,
    bins: Vec<Bins>,
    /// The files that the next snapshot lists.
    listed: Map<String, Value>,
    /// The listing of the snapshot for the next timestamp.
    snapshot: Option<Value>,
    files: BTreeMap<String, Vec<u8>>,
}

impl Repository {
    /// Returns an empty repository, whose files expire in 2030. Fails only if out of memory.
    pub fn new(alloc: Global) -> Result<Repository, AllocError> {
        let expires = String::from_str(alloc, "2030-01-01T00:00:00Z")?;
        Ok(Repository {
            alloc,
            signers: Vec::new(alloc),
            consistent: false,
            expires,
            tops: BTreeMap::new(alloc),
            roles: BTreeMap::new(alloc),
            bins: Vec::new(alloc),
            listed: Map::new(alloc),
            snapshot: None,
            files: BTreeMap::new(alloc),
        })
    }

    /// Carries out a line without its line feed.
    pub fn follow(&mut self, line: &str) -> Result<(), Refusal> {
        if line.is_empty() || line.starts_with('#') {
            return Ok(());
        }
        let mut words = Words::of(line);
        self.follow_words(&mut words)?;
        words.end()
    }

    fn follow_words(&mut self, words: &mut Words<'_>) -> Result<(), Refusal> {
        match words.word()? {
            "key" => self.add_key(words),
            "consistent" => self.set_consistent(words),
            "expires" => self.set_expires(words),
            "top" => self.set_top(words),
            "target" => self.add_target(words),
            "delegate" => self.add_delegation(words),
            "succinct" => self.add_bins(words),
            "forget" => self.forget(words),
            "write" => self.write(words),
            _ => Err(Refusal::Line),
        }
    }

    /// Returns the files, in the order of their names.
    pub fn into_files(self) -> Result<Vec<(String, Vec<u8>)>, AllocError> {
        self.files.into_iter().collect(self.alloc)
    }

    fn set_consistent(&mut self, words: &mut Words<'_>) -> Result<(), Refusal> {
        self.consistent = words.choice("yes", "no")?;
        Ok(())
    }

    fn set_expires(&mut self, words: &mut Words<'_>) -> Result<(), Refusal> {
        self.expires = String::from_str(self.alloc, words.word()?)?;
        Ok(())
    }

    /// `key S H` or `key S H W`
    fn add_key(&mut self, words: &mut Words<'_>) -> Result<(), Refusal> {
        let byte = words.key_byte()?;
        let height = words.height()?;
        let width = words.width()?;
        if place_of(&self.signers, byte).is_ok() {
            return Err(Refusal::Line);
        }
        let signer = new_signer(self.alloc, byte, width, height)?;
        self.signers.push(signer)?;
        Ok(())
    }

    /// Makes a role whose file lists nothing, if there is none yet.
    fn make_role(&mut self, name: &str) -> Result<(), Refusal> {
        if self.roles.contains_key(name) {
            return Ok(());
        }
        let key = String::from_str(self.alloc, name)?;
        let _ = self.roles.insert(key, Role::new(self.alloc))?;
        Ok(())
    }

    /// `top ROLE T KEYS`
    fn set_top(&mut self, words: &mut Words<'_>) -> Result<(), Refusal> {
        let name = words.word()?;
        if !matches!(name, "root" | "timestamp" | "snapshot" | "targets") {
            return Err(Refusal::Line);
        }
        let quorum = self.known_quorum(words)?;
        if name == "targets" {
            self.make_role(name)?;
        }
        let key = String::from_str(self.alloc, name)?;
        let _ = self.tops.insert(key, quorum)?;
        Ok(())
    }

    /// Reads a threshold and keys, each of which has its `key` line.
    fn known_quorum(&self, words: &mut Words<'_>) -> Result<Quorum, Refusal> {
        let quorum = read_quorum(self.alloc, words)?;
        let _known = places_of(self.alloc, &self.signers, &quorum.keys)?;
        Ok(quorum)
    }

    /// Returns whether a `top`, `delegate` or `succinct` line has made the role.
    fn is_made(&self, name: &str) -> bool {
        self.tops.contains_key(name) || self.is_listing(name)
    }

    /// Returns whether the role can list targets: a delegated role, or `targets` after its `top`
    /// line.
    fn is_listing(&self, name: &str) -> bool {
        if name == "targets" {
            return self.tops.contains_key(name);
        }
        self.roles.contains_key(name) || self.bins.iter().any(|bins| bins.has(name))
    }

    /// Returns the role, if it can list targets.
    fn listing_role(&mut self, name: &str) -> Result<&mut Role, Refusal> {
        if !self.is_listing(name) {
            return Err(Refusal::Line);
        }
        self.make_role(name)?;
        self.roles.get_mut(name).ok_or(Refusal::Line)
    }

    fn forget(&mut self, words: &mut Words<'_>) -> Result<(), Refusal> {
        let name = words.word()?;
        if !self.is_made(name) {
            return Err(Refusal::Line);
        }
        let file = names::role_name(self.alloc, name)?;
        let _ = self.listed.remove(file.as_str());
        Ok(())
    }

    fn add_target(&mut self, words: &mut Words<'_>) -> Result<(), Refusal> {
        let alloc = self.alloc;
        let line = read_target(alloc, words)?;
        let role = self.listing_role(line.role)?;
        let object = target_object(alloc, &line.bytes, line.digests)?;
        put(alloc, &mut role.targets, line.path, object)?;
        let name = target_name(self.alloc, self.consistent, &line)?;
        let _ = self.files.insert(name, line.bytes.clone()?)?;
        Ok(())
    }

    fn add_delegation(&mut self, words: &mut Words<'_>) -> Result<(), Refusal> {
        let alloc = self.alloc;
        let line = read_delegate(alloc, words)?;
        let ids = ids_of(alloc, &self.signers, &line.quorum.keys)?;
        let role = self.delegating_role(line.from, &line.quorum)?;
        if role.succinct.is_some() {
            return Err(Refusal::Line);
        }
        role.delegations
            .push(delegation_object(alloc, &line, ids)?)?;
        self.make_role(line.to)
    }

    fn add_bins(&mut self, words: &mut Words<'_>) -> Result<(), Refusal> {
        let alloc = self.alloc;
        let line = read_succinct(alloc, words)?;
        let ids = ids_of(alloc, &self.signers, &line.quorum.keys)?;
        let role = self.delegating_role(line.from, &line.quorum)?;
        if !role.delegations.is_empty() {
            return Err(Refusal::Line);
        }
        role.succinct = Some(succinct_object(alloc, &line, ids)?);
        self.bins.push(Bins::new(alloc, line.bits, line.prefix)?)?;
        Ok(())
    }

    /// Returns the role, if it can list targets, after adding the keys to those that its
    /// delegations name.
    fn delegating_role(&mut self, name: &str, quorum: &Quorum) -> Result<&mut Role, Refusal> {
        let alloc = self.alloc;
        let mut keys = Map::new(alloc);
        put_keys(alloc, &mut keys, &self.signers, &quorum.keys)?;
        let role = self.listing_role(name)?;
        for (id, key) in keys {
            let _ = role.keys.insert(id, key)?;
        }
        Ok(role)
    }

    fn write(&mut self, words: &mut Words<'_>) -> Result<(), Refusal> {
        let line = read_write(self.alloc, words)?;
        let object = self.object_of(&line)?;
        let bytes = self.seal_file(object, &line.keys)?;
        let name = self.listed_name(&line, &bytes)?;
        let name = format!(in self.alloc; "metadata/{name}")?;
        let _ = self.files.insert(name, bytes)?;
        Ok(())
    }

    /// Returns the contents of the role's file, if the role is there.
    fn object_of(&mut self, line: &WriteLine<'_>) -> Result<Value, Refusal> {
        match line.role {
            "root" if self.tops.len() < 4 => Err(Refusal::Line),
            "root" => self.root_object(line.version),
            "timestamp" | "snapshot" if !self.is_made(line.role) => Err(Refusal::Line),
            "timestamp" => self.timestamp_object(line.version),
            "snapshot" => self.snapshot_object(line.version),
            role => {
                let _listing = self.listing_role(role)?;
                self.role_object(role, line.version)
            }
        }
    }

    /// Returns the name of the role's file, which the next timestamp or snapshot lists.
    fn listed_name(&mut self, line: &WriteLine<'_>, bytes: &[u8]) -> Result<String, Refusal> {
        let alloc = self.alloc;
        let name = names::role_name(alloc, line.role)?;
        match line.role {
            "root" => return Ok(names::root_name(alloc, line.version)?),
            "timestamp" => return Ok(name),
            "snapshot" => self.snapshot = Some(listing_object(alloc, bytes, line.version)?),
            _ => {
                let listing = listing_object(alloc, bytes, line.version)?;
                put(alloc, &mut self.listed, name.as_str(), listing)?;
            }
        }
        Ok(names::version_name(alloc, self.consistent, line.version, name.as_str())?)
    }

    /// Returns the members that each metadata file has (TUF 1.0 sections 4.3 to 4.6).
    fn members(&self, kind: &str, version: u64) -> Result<Members, AllocError> {
        let mut object = Members::new(self.alloc);
        object.put_text("_type", kind)?;
        object.put_text("expires", self.expires.as_str())?;
        object.put_text("spec_version", SPEC_VERSION)?;
        object.put("version", Value::from(version))?;
        Ok(object)
    }

    /// Returns the contents of a root file (TUF 1.0 section 4.3).
    fn root_object(&self, version: u64) -> Result<Value, Refusal> {
        let mut object = self.members("root", version)?;
        object.put("consistent_snapshot", Value::Bool(self.consistent))?;
        object.put("keys", Value::Object(self.root_keys()?))?;
        object.put("roles", Value::Object(self.root_roles()?))?;
        Ok(object.into_value())
    }

    /// Returns the keys of the top-level roles.
    fn root_keys(&self) -> Result<Map<String, Value>, Refusal> {
        let mut keys = Map::new(self.alloc);
        for quorum in self.tops.values() {
            put_keys(self.alloc, &mut keys, &self.signers, &quorum.keys)?;
        }
        Ok(keys)
    }

    /// Returns the top-level roles.
    fn root_roles(&self) -> Result<Map<String, Value>, Refusal> {
        let mut roles = Map::new(self.alloc);
        for (name, quorum) in self.tops.iter() {
            let ids = ids_of(self.alloc, &self.signers, &quorum.keys)?;
            let object = quorum_members(self.alloc, ids, quorum.threshold)?.into_value();
            put(self.alloc, &mut roles, name.as_str(), object)?;
        }
        Ok(roles)
    }

    /// Returns the contents of a timestamp file (TUF 1.0 section 4.6).
    fn timestamp_object(&self, version: u64) -> Result<Value, Refusal> {
        let snapshot = self.snapshot.as_ref().ok_or(Refusal::Line)?;
        let mut listed = Members::new(self.alloc);
        listed.put("snapshot.json", snapshot.clone()?)?;
        let mut object = self.members("timestamp", version)?;
        object.put("meta", listed.into_value())?;
        Ok(object.into_value())
    }

    /// Returns the contents of a snapshot file (TUF 1.0 section 4.4).
    fn snapshot_object(&self, version: u64) -> Result<Value, Refusal> {
        let mut object = self.members("snapshot", version)?;
        object.put("meta", Value::Object(self.listed.clone()?))?;
        Ok(object.into_value())
    }

    /// Returns the contents of the file of `targets` or of a delegated role (TUF 1.0 section 4.5).
    fn role_object(&self, name: &str, version: u64) -> Result<Value, Refusal> {
        let role = self.roles.get(name).ok_or(Refusal::Line)?;
        let mut object = self.members("targets", version)?;
        object.put("targets", Value::Object(role.targets.clone()?))?;
        if let Some(delegations) = role.delegations(self.alloc)? {
            object.put("delegations", delegations)?;
        }
        Ok(object.into_value())
    }

    /// Returns the file with these contents, an object, signed by the keys.
    fn seal_file(&mut self, signed: Value, keys: &[u8]) -> Result<Vec<u8>, Refusal> {
        if !signed.is_object() {
            return Err(Refusal::Line);
        }
        let by = places_of(self.alloc, &self.signers, keys)?;
        let text = canonical(self.alloc, &signed)?;
        Ok(seal_text(self.alloc, &signed, &text, &mut self.signers, &by)?)
    }
}
