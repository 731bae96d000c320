//! New keys.

use crate::fault::{RunFault, of_io};
use crate::printing::{object_of, put_key};
use crate::run::Run;
use keyfiles::{
    OTHERS_READ, OWNERS, SecretFile, is_free, secret_text, values_text, write_new_file,
};
use leaves::{Logged, create};
use lms::{Height, Secret, Width};
use std::io::Write;
use std::random::RandomSource;

/// Makes a key of random bytes, writes its files and prints its line. Nothing that is there is
/// replaced. The leaves file is made last: without it the key doesn't sign.
pub fn make<W: Write>(
    run: &Run<'_>,
    width: Width,
    height: Height,
    out: &mut W,
) -> Result<(), RunFault> {
    all_free(run)?;
    let (id, seed) = random(run.rt)?;
    let Ok(secret) = Secret::of(run.alloc, id, seed, width, height) else {
        return Err(RunFault::Memory);
    };
    let public = secret.public();
    write_files(run, &secret, &SecretFile { public, seed })?;
    let mut disk = Logged::new(run.alloc, run.lock(Vec::new(run.alloc))?);
    create(run.alloc, &mut disk, &public)?;
    put_key(run.alloc, &public, out)
}

/// Fails with `Exists` if anything is where a file is to be made.
fn all_free(run: &Run<'_>) -> Result<(), RunFault> {
    let paths = &run.paths;
    for path in [&paths.key, &paths.leaves, &paths.tree, &paths.object] {
        must_be_free(run, path.as_str())?;
    }
    match &run.log {
        Some(path) => must_be_free(run, path.as_str()),
        None => Ok(()),
    }
}

/// Fails with `Exists` if anything is at the path.
pub fn must_be_free(run: &Run<'_>, path: &str) -> Result<(), RunFault> {
    match is_free(run.rt, path) {
        Ok(true) => Ok(()),
        Ok(false) => Err(RunFault::Exists),
        Err(error) => Err(of_io(&error, RunFault::Output)),
    }
}

/// Returns an identifier and a secret of the system's random bytes.
fn random<R: RandomSource>(rt: &R) -> Result<([u8; 16], [u8; 32]), RunFault> {
    let mut id = [0u8; 16];
    let mut seed = [0u8; 32];
    match rt.fill_bytes(&mut id) {
        Ok(()) => {}
        Err(_) => return Err(RunFault::Random),
    }
    match rt.fill_bytes(&mut seed) {
        Ok(()) => Ok((id, seed)),
        Err(_) => Err(RunFault::Random),
    }
}

/// Writes all files of the key but its leaves file, the key file last.
fn write_files(run: &Run<'_>, secret: &Secret, file: &SecretFile) -> Result<(), RunFault> {
    let values = values_text(run.alloc, secret.leaf_values())?;
    write(run, run.paths.tree.as_str(), OTHERS_READ, &values)?;
    let object = object_of(run.alloc, &file.public)?;
    write(run, run.paths.object.as_str(), OTHERS_READ, &object.text)?;
    if let Some(log) = &run.log {
        write(run, log.as_str(), OWNERS, b"")?;
    }
    let text = secret_text(run.alloc, file)?;
    write(run, run.paths.key.as_str(), OWNERS, &text)
}

fn write(run: &Run<'_>, path: &str, mode: u32, bytes: &[u8]) -> Result<(), RunFault> {
    match write_new_file(run.rt, path, mode, bytes) {
        Ok(()) => Ok(()),
        Err(error) => Err(of_io(&error, RunFault::Output)),
    }
}
