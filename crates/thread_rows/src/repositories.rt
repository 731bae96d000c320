//! Repositories that scripts make.

use anyhow::{Context, Result};
use cycle::{Repo, Trusted};
use folder::{Depth, Disk, load};
use sessions::{Output, Step, script_of};
use std::alloc::Global;
use std::collections::BTreeMap;
use std::fs;

/// A repository, and the trusted state that begins with its first root.
pub struct Made {
    /// The repository.
    pub repo: Repo,
    /// The trusted state.
    pub trusted: Trusted,
}

impl Drop for Made {
    fn drop(self) {
        let Made { repo, trusted } = self;
    }
}

/// Makes the repository of the step's lines in the folder of that name, or without lines the one of
/// the script `cases/NAME.script`.
pub fn make(rt: &HostRuntime, alloc: Global, step: &Step) -> Result<Output> {
    let name = step.word(0)?;
    let script = script_for(rt, alloc, step, name)?;
    for (file, bytes) in maker::make(alloc, script.as_str())? {
        write_below(rt, alloc, name, file.as_str(), bytes.as_slice())?;
    }
    Ok(Output::nothing(alloc))
}

fn script_for(rt: &HostRuntime, alloc: Global, step: &Step, name: &str) -> Result<String> {
    if !step.script.is_empty() {
        return script_of(rt, alloc, step.script.as_slice());
    }
    let path = format!(in alloc; "cases/{name}.script")?;
    Ok(fs::read_to_string(rt, path.as_str())?)
}

/// Writes a file below a folder, and makes the folders that contain it.
fn write_below(
    rt: &HostRuntime,
    alloc: Global,
    folder: &str,
    file: &str,
    bytes: &[u8],
) -> Result<()> {
    let path = format!(in alloc; "{folder}/{file}")?;
    let (above, _) = path.as_str().rsplit_once('/').context("no folder")?;
    fs::create_dir_all(rt, above)?;
    fs::write(rt, path.as_str(), bytes)?;
    Ok(())
}

/// Reads the repository in the folder of that name.
pub fn read(rt: &HostRuntime, alloc: Global, name: &str) -> Result<Made> {
    let repo = Repo {
        metadata: files(rt, alloc, name, "metadata")?,
        targets: files(rt, alloc, name, "targets")?,
    };
    let trusted = first_state(alloc, &repo)?;
    Ok(Made { repo, trusted })
}

fn files(
    rt: &HostRuntime,
    alloc: Global,
    name: &str,
    part: &str,
) -> Result<BTreeMap<String, Vec<u8>>> {
    let path = format!(in alloc; "{name}/{part}")?;
    Ok(load(alloc, &mut Disk::new(rt, path, Depth::Below))?)
}

fn first_state(alloc: Global, repo: &Repo) -> Result<Trusted> {
    let root = repo.metadata.get("1.root.json").context("no first root")?;
    Ok(Trusted::from_root(alloc, root.as_slice())?)
}
