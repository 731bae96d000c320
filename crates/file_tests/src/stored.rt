//! A folder in memory.

ghost use Rattle.std.specs.Prelude.{◌≡◌, ◌≤◌, ◌<◌, ◌⊎◌, ◌^◌, ◌-◌, List, ℕ, Bool, false, IsErr};
ghost use Rattle.std.specs.Prelude.{None, OnErr, map, string_bytes};
ghost use Rattle.std.specs.BTreeMap.{get_by_text};
ghost use Rattle.std.specs.Cmp.Lexicographic.{pointwise};
ghost use Rattle.std.specs.Option.{option_map_or};
ghost use Rattle.std.specs.Str.{bytes_eq};
ghost use Rattle.folder.specs.Folders.{HasGrown};

use folder::{Folder, LoadFault};
use std::alloc::{AllocError, Global};
use std::collections::BTreeMap;

/// A folder that returns one list and one text for each name, and fails after some calls.
pub struct Memory {
    names: Vec<String>,
    files: BTreeMap<String, Vec<u8>>,
    calls: u64,
    faults: u64,
}

impl Drop for Memory {
    fn drop(self) {
        let Memory {
            names,
            files,
            calls,
            faults,
        } = self;
    }
}

impl Memory {
    /// Returns the folder of these files. `calls` calls succeed, and all later ones fail.
    pub fn of(alloc: Global, files: &[(&str, &str)], calls: u64) -> Result<Memory, AllocError> {
        let mut folder = Memory {
            names: Vec::new(alloc),
            files: BTreeMap::new(alloc),
            calls,
            faults: 0,
        };
        for (name, text) in files {
            let bytes = Vec::from_slice(alloc, text.as_bytes())?;
            folder.names.push(String::from_str(alloc, name)?)?;
            folder.files.insert(String::from_str(alloc, name)?, bytes)?;
        }
        Ok(folder)
    }

    fn fail(&mut self) -> LoadFault
        ensures failed { HasGrown self.old.faults self.new.faults }
        ensures counts { self.old.faults ≤ self.new.faults }
        ensures same_names { self.new.names ≡ self.old.names }
        ensures same_files { self.new.files ≡ self.old.files }
    {
        self.faults = self.faults.saturating_add(1);
        LoadFault::Folder
    }

    fn turn(&mut self) -> Result<(), LoadFault>
        ensures failed { OnErr result (HasGrown self.old.faults self.new.faults) }
        ensures counts { self.old.faults ≤ self.new.faults }
        ensures same_names { self.new.names ≡ self.old.names }
        ensures same_files { self.new.files ≡ self.old.files }
    {
        if self.calls == 0 {
            return Err(self.fail());
        }
        self.calls -= 1;
        Ok(())
    }
}

impl Folder for Memory {
    ghost gives = { λ s. record {
      lists = λ names. pointwise bytes_eq (map string_bytes s.names.items) names;
      holds = λ name bytes.
          option_map_or (λ v. bytes_eq v.items bytes) (get_by_text s.files name) false;
      failures = s.faults;
      place = None;
    } };

    fn names(&mut self, _alloc: Global) -> Result<Vec<String>, LoadFault> {
        self.turn()?;
        Ok(self.names.clone()?)
    }

    fn read(&mut self, alloc: Global, name: &str) -> Result<Vec<u8>, LoadFault> {
        self.turn()?;
        match self.files.get(name) {
            Some(bytes) => Ok(Vec::from_slice(alloc, bytes.as_slice())?),
            None => Err(self.fail()),
        }
    }

    fn failed(&self) -> u64 {
        self.faults
    }
}
