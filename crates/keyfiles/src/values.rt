//! The leaves' values of a tree, kept in a file.

ghost use Rattle.std.specs.Prelude.{◌≡◌, IfOk, flat_map};

use crate::key_file::SecretFile;
use crate::paths::KeyPaths;
use crate::plain::read_plain;
use lms::{StoredFault, StoredSecret};
use std::alloc::{AllocError, Global};
use std::io;

/// The bytes of the values of the most leaves, 32,768.
const VALUES_MOST: u64 = 1_048_576;

/// Returns the values one after the other. Fails only if out of memory.
pub fn values_text(alloc: Global, values: &[[u8; 32]]) -> Result<Vec<u8>, AllocError>
    ensures text { IfOk result (λ text. text.items ≡ flat_map (λ v. v) values.now) }
{
    Vec::from_slice(alloc, values.as_flattened())
}

/// Returns the values in a file. What is left of it behind the last is ignored.
fn values_of(alloc: Global, text: &[u8]) -> Result<Vec<[u8; 32]>, AllocError> {
    let mut values = Vec::new(alloc);
    for bytes in text.chunks_exact(32) {
        let mut value = [0u8; 32];
        value.copy_from_slice(bytes);
        values.push(value)?;
    }
    Ok(values)
}

/// Returns the key of a key file, of which no leaf is used, by the values in the file beside it.
/// Fails with `Damaged` inside if these aren't the key's, or with an error of the file.
pub fn stored_secret(
    rt: &HostRuntime,
    alloc: Global,
    paths: &KeyPaths,
    secret: &SecretFile,
) -> io::Result<Result<StoredSecret, StoredFault>>
    ensures key { IfOk result (λ made. IfOk made (λ k. k.public ≡ secret.now.public)) }
    ensures unused { IfOk result (λ made. IfOk made (λ k. k.used ≡ 0)) }
{
    let text = read_plain(rt, alloc, paths.tree.as_str(), VALUES_MOST)?;
    let values = values_of(alloc, &text)?;
    Ok(StoredSecret::of(alloc, &secret.public, secret.seed, &values))
}
