//! Signatures of files.

use crate::fault::{RunFault, of_io};
use crate::making::must_be_free;
use crate::printing::put;
use crate::run::Run;
use keyfiles::{KeyDisk, read_plain, stored_secret};
use leaves::{Logged, sign};
use lms::{StoredFault, StoredSecret};
use std::io::Write;

/// The bytes of the longest file that is signed.
const FILE_MOST: u64 = 5_000_000;

/// Signs the bytes of each file by a leaf of its own, writes each signature beside its file, with
/// this suffix, and prints how many were made. Nothing that is there is replaced. If a file can't
/// be read or a signature is there already, no leaf is reserved.
pub fn sign_files<W: Write>(
    run: &Run<'_>,
    files: &[&str],
    suffix: &str,
    out: &mut W,
) -> Result<(), RunFault> {
    let messages = read_all(run, files)?;
    let outputs = outputs_of(run, files, suffix)?;
    let disk = run.lock(outputs)?;
    let mut key = secret_of(run, &disk)?;
    let mut disk = Logged::new(run.alloc, disk);
    sign(run.alloc, &mut disk, &mut key, messages.as_slice())?;
    let made = disk.into_calls().made;
    let line = format!(in run.alloc; "signed {made}\n")?;
    put(out, line.as_str())
}

fn read_all(run: &Run<'_>, files: &[&str]) -> Result<Vec<Vec<u8>>, RunFault> {
    let mut messages = Vec::with_capacity(run.alloc, files.len())?;
    for file in files {
        match read_plain(run.rt, run.alloc, file, FILE_MOST) {
            Ok(message) => messages.push(message)?,
            Err(error) => return Err(of_io(&error, RunFault::Input)),
        }
    }
    Ok(messages)
}

/// Returns the paths of the signatures, at which nothing is.
fn outputs_of(run: &Run<'_>, files: &[&str], suffix: &str) -> Result<Vec<String>, RunFault> {
    let mut outputs = Vec::with_capacity(run.alloc, files.len())?;
    for file in files {
        let path = format!(in run.alloc; "{file}.{suffix}")?;
        must_be_free(run, path.as_str())?;
        outputs.push(path)?;
    }
    Ok(outputs)
}

/// Returns the key, of which no leaf is used.
fn secret_of(run: &Run<'_>, disk: &KeyDisk<'_>) -> Result<StoredSecret, RunFault> {
    match stored_secret(run.rt, run.alloc, &run.paths, &disk.key.secret) {
        Ok(Ok(key)) => Ok(key),
        Ok(Err(StoredFault::NoMemory)) => Err(RunFault::Memory),
        Ok(Err(_)) => Err(RunFault::Tree),
        Err(error) => Err(of_io(&error, RunFault::Tree)),
    }
}
