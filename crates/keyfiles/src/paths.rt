//! Where the files of a key are.

ghost use Rattle.std.specs.Prelude.{◌≡◌, ◌++◌, IfOk, codes, string_bytes};
ghost use Rattle.keyfiles.specs.Folders.{IsFolderOf};

use std::alloc::{AllocError, Global};

/// Where the files of a key are: all of them beside the key file.
#[derive(Drop)]
pub struct KeyPaths {
    /// The key file, which is never replaced, so that a lock on it lasts.
    pub key: String,
    /// The leaves file.
    pub leaves: String,
    /// The new file that takes its place.
    pub new: String,
    /// The values of the tree's leaves.
    pub tree: String,
    /// The key object (TUF 1.0 section 4.2).
    pub object: String,
    /// The folder of them.
    pub folder: String,
}

impl KeyPaths {
    /// Returns the paths of the key whose key file has that path. Fails only if out of memory.
    pub fn of(alloc: Global, key: &str) -> Result<KeyPaths, AllocError>
        ensures key { IfOk result (λ p. string_bytes p.key ≡ key.now) }
        ensures leaves { IfOk result (λ p. string_bytes p.leaves ≡ key.now ++ codes ".leaves") }
        ensures new { IfOk result (λ p. string_bytes p.new ≡ key.now ++ codes ".leaves.new") }
        ensures tree { IfOk result (λ p. string_bytes p.tree ≡ key.now ++ codes ".tree") }
        ensures object { IfOk result (λ p. string_bytes p.object ≡ key.now ++ codes ".json") }
        ensures folder { IfOk result (λ p. IsFolderOf key.now (string_bytes p.folder)) }
    {
        Ok(KeyPaths {
            key: String::from_str(alloc, key)?,
            leaves: format!(in alloc; "{key}.leaves")?,
            new: format!(in alloc; "{key}.leaves.new")?,
            tree: format!(in alloc; "{key}.tree")?,
            object: format!(in alloc; "{key}.json")?,
            folder: String::from_str(alloc, folder_of(key))?,
        })
    }
}

/// Returns the folder that has the file.
#[tactic(auto, using(crate::proofs::Slashes::in_current))]
fn folder_of(path: &str) -> &str
    ensures folder { IsFolderOf path.now result.now }
{
    match path.rsplit_once('/') {
        Some((folder, _)) if folder.is_empty() => "/",
        Some((folder, _)) => folder,
        None => ".",
    }
}
