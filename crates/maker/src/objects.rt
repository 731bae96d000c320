//! The objects of metadata files (TUF 1.0 section 4).

use crate::line::{DelegateLine, Digests, SuccinctLine, TargetLine};
use lms::Public;
use meta::names;
use serde_json::{Map, Value};
use sha2::{Digest, Sha256, Sha512};
use std::alloc::{AllocError, Global};

/// Puts a value at a key, in place of what is there.
pub fn put(
    alloc: Global,
    members: &mut Map<String, Value>,
    key: &str,
    value: Value,
) -> Result<(), AllocError> {
    let key = String::from_str(alloc, key)?;
    let _ = members.insert(key, value)?;
    Ok(())
}

/// An object and its members so far.
pub struct Members {
    alloc: Global,
    members: Map<String, Value>,
}

impl Drop for Members {
    fn drop(self) {
        let Members { alloc, members } = self;
    }
}

impl Members {
    /// Returns an object without members.
    pub fn new(alloc: Global) -> Members {
        Members {
            alloc,
            members: Map::new(alloc),
        }
    }

    /// Puts a value at a key, in place of what is there.
    pub fn put(&mut self, key: &str, value: Value) -> Result<(), AllocError> {
        put(self.alloc, &mut self.members, key, value)
    }

    /// Puts a text at a key, in place of what is there.
    pub fn put_text(&mut self, key: &str, text: &str) -> Result<(), AllocError> {
        let text = Value::try_from_str(self.alloc, text)?;
        self.put(key, text)
    }

    /// Returns the object.
    pub fn into_value(self) -> Value {
        let Members { alloc: _, members } = self;
        Value::Object(members)
    }
}

/// Returns a key object (TUF 1.0 section 4.2).
pub fn key_object(alloc: Global, public: &Public) -> Result<Value, AllocError> {
    let public = hex::encode(alloc, public.bytes().as_slice())?;
    let mut keyval = Members::new(alloc);
    keyval.put("public", Value::String(public))?;
    let mut object = Members::new(alloc);
    object.put_text("keytype", "lms")?;
    object.put("keyval", keyval.into_value())?;
    object.put_text("scheme", "lms-sha256")?;
    Ok(object.into_value())
}

/// Returns the key ids and the threshold of a role (TUF 1.0 section 4.3).
pub fn quorum_members(
    alloc: Global,
    ids: Vec<Value>,
    threshold: u64,
) -> Result<Members, AllocError> {
    let mut object = Members::new(alloc);
    object.put("keyids", Value::Array(ids))?;
    object.put("threshold", Value::from(threshold))?;
    Ok(object)
}

/// Returns the digests of a file, in lower-case hexadecimal.
pub fn hashes_object(alloc: Global, bytes: &[u8], digests: Digests) -> Result<Value, AllocError> {
    let mut hashes = Members::new(alloc);
    if digests != Digests::Sha512 {
        let digest: [u8; 32] = Sha256::digest(bytes);
        hashes.put("sha256", Value::String(hex::encode(alloc, digest)?))?;
    }
    if digests != Digests::Sha256 {
        let digest: [u8; 64] = Sha512::digest(bytes);
        hashes.put("sha512", Value::String(hex::encode(alloc, digest)?))?;
    }
    Ok(hashes.into_value())
}

/// Returns the listing of a metadata file (TUF 1.0 sections 4.4 and 4.6).
pub fn listing_object(alloc: Global, bytes: &[u8], version: u64) -> Result<Value, AllocError> {
    let mut object = file_members(alloc, bytes, Digests::Sha256)?;
    object.put("version", Value::from(version))?;
    Ok(object.into_value())
}

/// Returns the listing of a target (TUF 1.0 section 4.5).
pub fn target_object(alloc: Global, bytes: &[u8], digests: Digests) -> Result<Value, AllocError> {
    Ok(file_members(alloc, bytes, digests)?.into_value())
}

/// Returns the digests and the length of a file.
fn file_members(alloc: Global, bytes: &[u8], digests: Digests) -> Result<Members, AllocError> {
    let mut object = Members::new(alloc);
    object.put("hashes", hashes_object(alloc, bytes, digests)?)?;
    object.put("length", Value::from(bytes.len()))?;
    Ok(object)
}

/// Splits the text at commas, into a list.
pub fn list_object(alloc: Global, list: &str) -> Result<Value, AllocError> {
    let mut items = Vec::new(alloc);
    for item in list.split(',') {
        items.push(Value::try_from_str(alloc, item)?)?;
    }
    Ok(Value::Array(items))
}

/// Returns an entry of `delegations.roles` (TUF 1.0 section 4.5).
pub fn delegation_object(
    alloc: Global,
    line: &DelegateLine<'_>,
    ids: Vec<Value>,
) -> Result<Value, AllocError> {
    let matcher = if line.by_paths {
        "paths"
    } else {
        "path_hash_prefixes"
    };
    let mut object = quorum_members(alloc, ids, line.quorum.threshold)?;
    object.put_text("name", line.to)?;
    object.put(matcher, list_object(alloc, line.list)?)?;
    object.put("terminating", Value::Bool(line.terminating))?;
    Ok(object.into_value())
}

/// Returns the member `succinct_roles`.
pub fn succinct_object(
    alloc: Global,
    line: &SuccinctLine<'_>,
    ids: Vec<Value>,
) -> Result<Value, AllocError> {
    let mut object = quorum_members(alloc, ids, line.quorum.threshold)?;
    object.put("bit_length", Value::from(line.bits))?;
    object.put_text("name_prefix", line.prefix)?;
    Ok(object.into_value())
}

/// Returns the name of a target's file: under consistent snapshots it includes the SHA-256 digest,
/// or the SHA-512 digest if that alone is listed.
pub fn target_name(
    alloc: Global,
    consistent: bool,
    line: &TargetLine<'_>,
) -> Result<String, AllocError> {
    if !consistent {
        return format!(in alloc; "targets/{}", line.path);
    }
    let name = hashed_name(alloc, line)?;
    format!(in alloc; "targets/{name}")
}

fn hashed_name(alloc: Global, line: &TargetLine<'_>) -> Result<String, AllocError> {
    if line.digests == Digests::Sha512 {
        let digest: [u8; 64] = Sha512::digest(&line.bytes);
        return names::digest_name(alloc, &digest, line.path);
    }
    let digest: [u8; 32] = Sha256::digest(&line.bytes);
    names::digest_name(alloc, &digest, line.path)
}
