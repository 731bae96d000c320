//! A repository in memory.

use std::collections::BTreeMap;

/// An update repository from a folder: metadata files and target files by their names. A name is
/// only compared; none is opened as a path.
pub struct Repo {
    /// The metadata files, by name.
    pub metadata: BTreeMap<String, Vec<u8>>,
    /// The target files, by name.
    pub targets: BTreeMap<String, Vec<u8>>,
}

impl Drop for Repo {
    fn drop(self) {
        let Repo { metadata, targets } = self;
    }
}
