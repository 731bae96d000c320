//! Single files and a clock in memory.

ghost use Rattle.std.specs.Prelude.{◌≡◌, ◌||◌, false, true, is_none, nat_eq, nat_lt, length};
ghost use Rattle.std.specs.BTreeMap.{get_by_text};
ghost use Rattle.std.specs.BTreeSet.{contains_text};
ghost use Rattle.std.specs.Option.{option_map_or};
ghost use Rattle.std.specs.Str.{bytes_eq};

use std::alloc::Global;
use std::collections::{BTreeMap, BTreeSet};
use std::io::{self, ErrorKind};
use system::{System, Temporary};

/// Files by their paths, those of them that are locked, the paths at which temporary files were
/// installed, and a clock that shows one second, or none. Contracts follow all of it, but for the
/// bytes of what was installed. No call fails but to read a file that isn't there or is too long.
#[derive(Drop)]
pub struct Desk {
    alloc: Global,
    files: BTreeMap<String, Vec<u8>>,
    locked: BTreeSet<String>,
    installed: BTreeSet<String>,
    seconds: Option<u64>,
}

impl Desk {
    /// Returns a desk without files, whose clock shows that second.
    pub fn new(alloc: Global, seconds: Option<u64>) -> Desk {
        Desk {
            alloc,
            files: BTreeMap::new(alloc),
            locked: BTreeSet::new(alloc),
            installed: BTreeSet::new(alloc),
            seconds,
        }
    }

    /// Returns the bytes of the file at the path, if there is one.
    pub fn file(&self, path: &str) -> Option<&[u8]> {
        Some(self.files.get(path)?.as_slice())
    }

    /// Returns whether the file at the path is locked.
    pub fn is_locked(&self, path: &str) -> bool {
        self.locked.contains(path)
    }

    /// Returns whether a temporary file was installed at the path.
    pub fn is_installed(&self, path: &str) -> bool {
        self.installed.contains(path)
    }
}

impl System for Desk {
    ghost gives = { λ d path bytes.
        option_map_or (λ v. bytes_eq v.items bytes) (get_by_text d.files path) false };

    ghost gives_locked = { λ d path bytes.
        option_map_or (λ v. bytes_eq v.items bytes) (get_by_text d.files path) false };

    ghost refuses = { λ d path.
        option_map_or (λ v. nat_lt 0 (length v.items)) (get_by_text d.files path) true };

    ghost locks = { λ d path. contains_text d.locked path };

    ghost keeps = { λ d path bytes. contains_text d.installed path
        || option_map_or (λ v. bytes_eq v.items bytes) (get_by_text d.files path) false };

    ghost obstacles = { λ _. record { blocks = λ _. false; fails = λ _. false } };

    ghost shows = { λ d second.
        option_map_or (λ n. option_map_or (nat_eq n) second false) d.seconds (is_none second) };

    fn read(&self, path: &str, most: u64) -> io::Result<Vec<u8>> {
        let Some(bytes) = self.files.get(path) else {
            return Err(io::Error::from(ErrorKind::NotFound));
        };
        if bytes.len() as u64 > most {
            return Err(io::Error::from(ErrorKind::FileTooLarge));
        }
        Ok(Vec::from_slice(self.alloc, bytes.as_slice())?)
    }

    #[tactic(auto, using(std::proofs::lemmas::Map::Text::text_keys))]
    fn read_locked(&mut self, path: &str, most: u64) -> io::Result<Vec<u8>> {
        let bytes = self.read(path, most)?;
        self.locked.insert(String::from_str(self.alloc, path)?)?;
        Ok(bytes)
    }

    #[tactic(auto, using(std::proofs::lemmas::Map::Text::text_keys))]
    fn store(&mut self, path: &str, bytes: &[u8]) -> io::Result<()> {
        let name = String::from_str(self.alloc, path)?;
        let bytes = Vec::from_slice(self.alloc, bytes)?;
        self.files.insert(name, bytes)?;
        Ok(())
    }

    #[tactic(auto, using(std::proofs::lemmas::Map::Text::text_keys))]
    fn install<K: Temporary>(&mut self, _file: &K, path: &str) -> io::Result<()> {
        let name = String::from_str(self.alloc, path)?;
        self.installed.insert(name)?;
        Ok(())
    }

    fn seconds(&self) -> Option<u64> {
        self.seconds
    }
}
