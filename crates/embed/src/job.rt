//! The input of a verification.

ghost use Rattle.std.specs.Prelude.{◌≡◌, IfErr, IfOk, OnOk, map, string_bytes};
ghost use Rattle.std.specs.Str.{IsUtf8};
ghost use Rattle.examine.specs.Checks.{file_in};
ghost use Rattle.embed.specs.Jobs as spec;

use crate::fault::JobFault;
use std::alloc::Global;
use std::collections::BTreeMap;

/// Bytes in the caller's memory.
#[repr(C)]
#[derive(Clone, Copy)]
pub struct Bytes<'a> {
    /// The bytes.
    pub bytes: &'a [u8],
}

/// A file in the caller's memory.
#[repr(C)]
#[derive(Clone, Copy)]
pub struct File<'a> {
    /// The file's name, in UTF-8.
    pub name: &'a [u8],
    /// The file's bytes.
    pub bytes: &'a [u8],
}

/// A target file that isn't in memory: its length, and those of its digests that are listed. A
/// listed digest that isn't given is refused as another one.
#[repr(C)]
#[derive(Clone, Copy)]
pub struct Digests<'a> {
    /// The file's name, in UTF-8.
    pub name: &'a [u8],
    /// The file's length in bytes.
    pub length: u64,
    /// 0 if the SHA-256 digest isn't given.
    pub has_sha256: u8,
    /// 0 if the SHA-512 digest isn't given.
    pub has_sha512: u8,
    /// The SHA-256 digest of the file's bytes.
    pub sha256: [u8; 32],
    /// The SHA-512 digest of the file's bytes.
    pub sha512: [u8; 64],
}

/// The input of a verification. Of all files with one name the last counts, and one of `digests`
/// counts after one of `targets`.
#[repr(C)]
#[derive(Clone, Copy)]
pub struct Job<'a> {
    /// The text of the trusted state.
    pub state: &'a [u8],
    /// The metadata files.
    pub metadata: &'a [File<'a>],
    /// The target files that are in memory.
    pub targets: &'a [File<'a>],
    /// The target files that are known by length and digests.
    pub digests: &'a [Digests<'a>],
    /// The wanted paths, in UTF-8.
    pub wanted: &'a [Bytes<'a>],
    /// The moment in seconds after 1970-01-01T00:00:00Z, up to the year 9999.
    pub moment: u64,
    /// Maximum number of roles that a search visits, 1 to 256.
    pub limit: usize,
}

/// Returns the files of the list by name. Fails with `Name` if one isn't UTF-8, or with `Memory`.
pub(crate) fn files_of(alloc: Global, files: &[File]) -> Result<BTreeMap<String, Vec<u8>>, JobFault>
    ensures files { IfOk result (λ all. file_in all ≡ spec.files_of files.now) }
    ensures errors { IfErr result (spec.IsNoText (spec.AreNamed files.now)) }
{
    let mut all = BTreeMap::new(alloc);
    for file in files {
        add_file(alloc, &mut all, file)?;
    }
    Ok(all)
}

/// Adds the file under its name.
fn add_file(alloc: Global, all: &mut BTreeMap<String, Vec<u8>>, file: &File) -> Result<(), JobFault>
    ensures added { OnOk result (file_in all.new ≡ spec.with_file (file_in all.old) file.now) }
    ensures errors { IfErr result (spec.IsNoText (IsUtf8 file.now.name.now)) }
{
    let name = text_of(alloc, file.name)?;
    let bytes = Vec::from_slice(alloc, file.bytes)?;
    all.insert(name, bytes)?;
    Ok(())
}

/// Returns the paths of the list, in order. Fails with `Name` if one isn't UTF-8, or with `Memory`.
pub(crate) fn paths_of(alloc: Global, paths: &[Bytes]) -> Result<Vec<String>, JobFault>
    ensures paths { IfOk result (λ all. map string_bytes all.items ≡ spec.paths_of paths.now) }
    ensures errors { IfErr result (spec.IsNoText (spec.AreTexts paths.now)) }
{
    let mut all = Vec::new(alloc);
    for path in paths {
        all.push(text_of(alloc, path.bytes)?)?;
    }
    Ok(all)
}

/// Returns the text that the bytes are. Fails with `Name` if they aren't UTF-8, or with `Memory`.
pub(crate) fn text_of(alloc: Global, bytes: &[u8]) -> Result<String, JobFault>
    ensures text { IfOk result (λ text. string_bytes text ≡ bytes.now) }
    ensures errors { IfErr result (spec.IsNoText (IsUtf8 bytes.now)) }
{
    match std::str::from_utf8(bytes) {
        Ok(text) => Ok(String::from_str(alloc, text)?),
        Err(_) => Err(JobFault::Name),
    }
}
