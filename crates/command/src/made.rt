//! The sample repository: one key for each role, and one target, `abc.txt`.

use cycle::{Repo, Trusted};
use failure::Failure;
use std::alloc::Global;
use std::collections::BTreeMap;

/// The script that makes the repository.
const SCRIPT: &str = "\
key 1 5
key 2 5
key 3 5
key 4 5
top root 1 1
top timestamp 1 2
top snapshot 1 3
top targets 1 4
target targets abc.txt 616263 sha256
write root 1 1
write targets 1 4
write snapshot 1 3
write timestamp 1 2
";

/// Makes the repository of the script.
pub fn repository(alloc: Global) -> Result<Repo, Failure> {
    let mut repo = Repo {
        metadata: BTreeMap::new(alloc),
        targets: BTreeMap::new(alloc),
    };
    for (name, bytes) in maker::make(alloc, SCRIPT)? {
        keep(alloc, &mut repo, name.as_str(), bytes)?;
    }
    Ok(repo)
}

/// Stores the file under its name below `metadata/` or `targets/`.
fn keep(alloc: Global, repo: &mut Repo, name: &str, bytes: Vec<u8>) -> Result<(), Failure> {
    match name.split_once('/') {
        Some(("metadata", below)) => put(alloc, &mut repo.metadata, below, bytes),
        Some(("targets", below)) => put(alloc, &mut repo.targets, below, bytes),
        _ => Ok(()),
    }
}

fn put(
    alloc: Global,
    files: &mut BTreeMap<String, Vec<u8>>,
    name: &str,
    bytes: Vec<u8>,
) -> Result<(), Failure> {
    files.insert(String::from_str(alloc, name)?, bytes)?;
    Ok(())
}

/// Returns the trusted state of the repository's first root.
pub fn first_state(alloc: Global, repo: &Repo) -> Result<Trusted, Failure> {
    let root = repo.metadata.get("1.root.json").ok_or(Failure::Input)?;
    Ok(Trusted::from_root(alloc, root.as_slice())?)
}
