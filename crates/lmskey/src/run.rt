//! What each command runs on.

use crate::fault::{RunFault, of_io};
use keyfiles::{KeyDisk, KeyPaths, open_key};
use lms::Public;
use std::alloc::{AllocError, Global};

/// The system, and the files of the key.
#[derive(Drop)]
pub struct Run<'a> {
    pub rt: &'a HostRuntime,
    pub alloc: Global,
    pub paths: KeyPaths,
    /// The log on another device, if there is one.
    pub log: Option<String>,
}

impl<'a> Run<'a> {
    /// Returns the run on the key whose key file has that path.
    pub fn new(rt: &'a HostRuntime, key: &str, log: Option<&str>) -> Result<Run<'a>, RunFault> {
        let alloc = rt.alloc();
        let paths = KeyPaths::of(alloc, key)?;
        let log = copy_of(alloc, log)?;
        Ok(Run {
            rt,
            alloc,
            paths,
            log,
        })
    }

    /// Locks the key file, and returns the disk of the key, on which signatures are handed out to
    /// files of these paths. Fails with `KeyFile`.
    pub fn lock(&self, outputs: Vec<String>) -> Result<KeyDisk<'a>, RunFault> {
        let key = match open_key(self.rt, self.alloc, &self.paths) {
            Ok(key) => key,
            Err(error) => return Err(of_io(&error, RunFault::KeyFile)),
        };
        let paths = KeyPaths::of(self.alloc, self.paths.key.as_str())?;
        let log = copy_of(self.alloc, self.log.as_deref())?;
        Ok(KeyDisk {
            rt: self.rt,
            key,
            paths,
            log,
            outputs,
            made: 0,
        })
    }
}

/// Returns the public key.
pub fn public_of(disk: &KeyDisk<'_>) -> Public {
    disk.key.secret.public
}

fn copy_of(alloc: Global, path: Option<&str>) -> Result<Option<String>, AllocError> {
    match path {
        Some(path) => Ok(Some(String::from_str(alloc, path)?)),
        None => Ok(None),
    }
}
