//! The single calls by which leaves are reserved and signatures are handed out.
//!
//! What `leaves` proves rests on these: that each does what it says is read here, and not proved.

ghost use Rattle.std.specs.Prelude.{true};

use crate::key_file::OpenKey;
use crate::paths::KeyPaths;
use crate::plain::{OTHERS_READ, OWNERS, open_plain, read_plain, write_new_file};
use leaves::{Calls, Event};
use std::alloc::Global;
use std::fs::{self, File, OpenOptions};
use std::io::{self, ErrorKind, Write};
use std::os::unix::fs::OpenOptionsExt;

/// The bytes of a leaves file, and of each record of its log.
const RECORD: u64 = 60;

/// The leaves file of a key that is locked, its log, and the files of the signatures.
#[derive(Drop)]
pub struct KeyDisk<'a> {
    /// The files of the system.
    pub rt: &'a HostRuntime,
    /// The key file, which stays locked.
    pub key: OpenKey,
    /// Where the key's files are.
    pub paths: KeyPaths,
    /// The log on another device, if there is one.
    pub log: Option<String>,
    /// The files of the signatures, in order.
    pub outputs: Vec<String>,
    /// How many of them were made.
    pub made: usize,
}

impl<'a> Calls for KeyDisk<'a> {
    ghost has = { λ _ _. true };

    ghost is_flushed = { λ _. true };

    ghost holds = { λ _ _. true };

    ghost keeps = { λ _ _. true };

    ghost records = { λ _ _. true };

    ghost gives = { λ _ _. true };

    fn read(&mut self, alloc: Global) -> io::Result<Option<Vec<u8>>> {
        match read_plain(self.rt, alloc, self.paths.leaves.as_str(), RECORD) {
            Ok(text) => Ok(Some(text)),
            Err(error) if error.kind() == ErrorKind::NotFound => Ok(None),
            Err(error) => Err(error),
        }
    }

    /// Removes what a run that was killed has left at its path.
    fn write_new(&mut self, text: &[u8]) -> io::Result<()> {
        let path = self.paths.new.as_str();
        match fs::remove_file(self.rt, path) {
            Ok(()) => {}
            Err(error) if error.kind() == ErrorKind::NotFound => {}
            Err(error) => return Err(error),
        }
        let mut options = OpenOptions::new();
        options.write(true).create_new(true).mode(OWNERS);
        options.open(self.rt, path)?.write_all(text)
    }

    fn flush_new(&mut self) -> io::Result<()> {
        let mut options = OpenOptions::new();
        options.read(true);
        open_plain(self.rt, self.paths.new.as_str(), &options)?.sync_all()
    }

    fn take_over(&mut self, _text: &[u8], _noted: &[Event]) -> io::Result<()> {
        fs::rename(self.rt, self.paths.new.as_str(), self.paths.leaves.as_str())
    }

    fn flush_folder(&mut self) -> io::Result<()> {
        File::open(self.rt, self.paths.folder.as_str())?.sync_all()
    }

    /// Cuts off a record that was written in part.
    fn record(&mut self, text: &[u8]) -> io::Result<()> {
        let Some(path) = &self.log else {
            return Ok(());
        };
        let mut options = OpenOptions::new();
        options.append(true);
        let mut file = open_plain(self.rt, path.as_str(), &options)?;
        let length = file.metadata()?.len();
        file.set_len(length - length % RECORD)?;
        file.write_all(text)?;
        file.sync_all()
    }

    /// Makes the next file. Fails if anything is there.
    fn hand(&mut self, sig: &[u8], _noted: &[Event]) -> io::Result<()> {
        let Some(path) = self.outputs.get(self.made) else {
            return Err(io::Error::from(ErrorKind::InvalidInput));
        };
        self.made += 1;
        write_new_file(self.rt, path.as_str(), OTHERS_READ, sig)
    }
}
