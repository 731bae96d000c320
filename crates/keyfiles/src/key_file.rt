//! Key files.

ghost use Rattle.std.specs.Prelude.{◌≡◌, ◌↔◌, ◌++◌, List, ℕ, IfOk, IfSome, IsSome, length, take};
ghost use Rattle.lms.specs.Lms.{IsPublic};

use crate::paths::KeyPaths;
use crate::plain::{open_plain, read_file};
use lms::Public;
use std::alloc::{AllocError, Global};
use std::fs::{File, OpenOptions};
use std::io::{self, ErrorKind};

/// What a key file has. It never has a number of a leaf.
#[derive(Clone, Copy)]
pub struct SecretFile {
    /// The public key (RFC 8554 section 5.3), with the key's kind and identifier.
    pub public: Public,
    /// The secret from which the one-time keys are made (RFC 8554 appendix A).
    pub seed: [u8; 32],
}

/// Returns the bytes of a key file: 56 of the public key, and 32 of the secret. Fails only if out
/// of memory.
pub fn secret_text(alloc: Global, secret: &SecretFile) -> Result<Vec<u8>, AllocError>
    ensures text { IfOk result (λ text. text.items ≡ secret.now.public ++ secret.now.seed) }
{
    let mut text = Vec::with_capacity(alloc, 88)?;
    text.extend_from_slice(secret.public.bytes())?;
    text.extend_from_slice(&secret.seed)?;
    Ok(text)
}

/// Returns what the key file with these bytes has: a public key of a supported kind, and the
/// secret. Returns None if they aren't 88, or don't begin with such a key.
pub fn read_secret(bytes: &[u8]) -> Option<SecretFile>
    ensures text { IfSome result (λ s. bytes.now ≡ s.public ++ s.seed) }
    ensures form { IsSome result ↔ ((length bytes.now ≡ 88) × IsPublic (take 56 bytes.now)) }
{
    if bytes.len() != 88 {
        return None;
    }
    let (key, secret) = bytes.split_at(56);
    let public = Public::read(key)?;
    let mut seed = [0u8; 32];
    seed.copy_from_slice(secret);
    Some(SecretFile { public, seed })
}

/// A key file that is locked, until it is dropped.
#[derive(Drop)]
pub struct OpenKey {
    pub secret: SecretFile,
    pub lock: File,
}

/// Locks and reads the key file. Waits while another run has locked it. Fails if it can't be locked
/// or read, or with `InvalidData` if it isn't a key file.
pub fn open_key(rt: &HostRuntime, alloc: Global, paths: &KeyPaths) -> io::Result<OpenKey> {
    let mut options = OpenOptions::new();
    options.read(true).write(true);
    let mut lock = open_plain(rt, paths.key.as_str(), &options)?;
    lock.lock()?;
    let bytes = read_file(alloc, &mut lock, 88)?;
    match read_secret(&bytes) {
        Some(secret) => Ok(OpenKey { secret, lock }),
        None => Err(io::Error::from(ErrorKind::InvalidData)),
    }
}
