//! Repositories that scripts make, and what tests begin a cycle over one with.

use cycle::{Limits, Moment, Repo, Trusted};
use maker::make;
use std::alloc::{AllocError, Global};
use std::collections::BTreeMap;
use std::process::Abort;

/// Makes the repository of a script.
pub fn made<R: Abort + AllocGlobal>(rt: &R, script: &str) -> Repo {
    let alloc = rt.alloc();
    let mut repo = Repo {
        metadata: BTreeMap::new(alloc),
        targets: BTreeMap::new(alloc),
    };
    for (name, bytes) in make(alloc, script).expect(rt, "a repository") {
        insert(alloc, &mut repo, name.as_str(), bytes).expect(rt, "memory");
    }
    repo
}

/// Adds a file whose name begins with its folder.
fn insert(alloc: Global, repo: &mut Repo, name: &str, bytes: Vec<u8>) -> Result<(), AllocError> {
    if let Some(name) = name.strip_prefix("metadata/") {
        repo.metadata.insert(String::from_str(alloc, name)?, bytes)?;
    } else if let Some(name) = name.strip_prefix("targets/") {
        repo.targets.insert(String::from_str(alloc, name)?, bytes)?;
    }
    Ok(())
}

/// Returns a metadata file's bytes.
pub fn metadata<'a, R: Abort>(rt: &R, repo: &'a Repo, name: &str) -> &'a [u8] {
    repo.metadata.get(name).expect(rt, "a file").as_slice()
}

/// Returns the state that begins with the repository's first root.
pub fn first_state<R: Abort + AllocGlobal>(rt: &R, repo: &Repo) -> Trusted {
    let root = metadata(rt, repo, "1.root.json");
    Trusted::from_root(rt.alloc(), root).expect(rt, "a state")
}

/// Returns a moment at which no file has expired.
pub fn moment<R: Abort>(rt: &R) -> Moment {
    Moment::read("2026-01-01T00:00:00Z").expect(rt, "a moment")
}

/// Returns limits of 32 roles and this number of checks.
pub fn limits_of<R: Abort>(rt: &R, checks: usize) -> Limits {
    Limits::new(32, checks).expect(rt, "limits")
}

/// Returns a copy of the text.
pub fn string<R: Abort + AllocGlobal>(rt: &R, text: &str) -> String {
    String::from_str(rt.alloc(), text).expect(rt, "memory")
}
