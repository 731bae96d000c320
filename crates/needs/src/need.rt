//! A file that is absent.

ghost use Rattle.std.specs.Prelude.{◌≡◌, false, string_bytes};
ghost use Rattle.needs.specs.Needs as spec;

use cjson::text::Text;

/// The folder in which a file is looked up.
#[derive(Clone, Copy, Debug, PartialEq, Eq)]
pub enum Place {
    /// The folder of metadata files.
    Metadata,
    /// The folder of target files.
    Targets,
}

/// A file that the workflow looked up and found absent.
#[derive(Drop)]
pub struct Need {
    /// The folder.
    pub place: Place,
    /// The name that was looked up.
    pub name: Text,
    /// Maximum number of bytes that the file may have: the limit of its kind, or its listed length
    /// if that is less.
    pub most: u64,
    /// Whether the file may be absent for good: the root of the next version, and a target's file
    /// under a name that isn't its last.
    pub optional: bool,
}

/// Returns a metadata file of that name that must be there.
pub(crate) fn metadata_file(name: String, most: u64) -> Need
    ensures { result ≡ spec.absent Place.Metadata false (string_bytes name) most }
{
    Need {
        place: Place::Metadata,
        name: Text::new(name),
        most,
        optional: false,
    }
}
