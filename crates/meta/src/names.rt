//! The names of the files of a repository (TUF 1.0, consistent snapshots).

ghost use Rattle.std.specs.Prelude.{◌≡◌, IfOk, string_bytes};
ghost use Rattle.hex.specs.Hex.{encode_lower};
ghost use Rattle.meta.specs.Content as spec;

use std::alloc::{AllocError, Global};

/// Returns the name of the root file of that version: `VERSION.root.json`. Fails only if out of
/// memory.
pub fn root_name(alloc: Global, version: u64) -> Result<String, AllocError>
    ensures name { IfOk result (λ s. string_bytes s ≡ spec.root_name version) }
{
    format!(in alloc; "{version}.root.json")
}

/// Returns the name of a role's file, as the snapshot lists it: `ROLE.json`. Fails only if out of
/// memory.
pub fn role_name(alloc: Global, role: &str) -> Result<String, AllocError>
    ensures name { IfOk result (λ s. string_bytes s ≡ spec.role_name role.now) }
{
    format!(in alloc; "{role}.json")
}

/// Returns the name of the file in that version: `VERSION.NAME` under consistent snapshots, else
/// `NAME`. Fails only if out of memory.
pub fn version_name(
    alloc: Global,
    consistent: bool,
    version: u64,
    name: &str,
) -> Result<String, AllocError>
    ensures name { IfOk result
        (λ s. string_bytes s ≡ spec.versioned consistent version name.now) }
{
    if consistent {
        format!(in alloc; "{version}.{name}")
    } else {
        format!(in alloc; "{name}")
    }
}

/// Returns the name of a target's file by its digest, under consistent snapshots: `DIR/HASH.BASE`,
/// where `BASE` is what follows the last `/` of the path and `HASH` the digest in lower-case
/// hexadecimal. Fails only if out of memory.
#[tactic(auto, using(crate::proofs::Hashed::in_folder, crate::proofs::Hashed::no_folder))]
pub fn digest_name(alloc: Global, digest: &[u8], path: &str) -> Result<String, AllocError>
    ensures name { IfOk result (λ s. string_bytes s
        ≡ spec.hashed (encode_lower digest.now) path.now) }
{
    let hash = hex::encode(alloc, digest)?;
    match path.rsplit_once('/') {
        Some((dir, base)) => format!(in alloc; "{dir}/{hash}.{base}"),
        None => format!(in alloc; "{hash}.{path}"),
    }
}
