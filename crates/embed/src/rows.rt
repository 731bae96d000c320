//! Rows of numbers in which outcomes and listings are returned.

ghost use Rattle.std.specs.Prelude.{◌≡◌, length, replicate};
ghost use Rattle.embed.specs.Rows as spec;

use cycle::{End, Fault, Step, Trusted};

/// The verdict of a wanted path. The role's name is in the list of names.
#[repr(C)]
#[derive(Clone, Copy)]
pub struct VerdictRow {
    /// 17: the file is accepted; 18: no role lists it; 19: the search reached its limit; 20: a
    /// role's file is refused; 21: the file is refused; 22: the cycle stopped before any search.
    pub kind: u32,
    /// The number of the fault of a refused file, or 0.
    pub fault: u32,
    /// The length of an accepted file in bytes, or 0.
    pub length: u64,
    /// The place of the role's name in the names.
    pub role_at: usize,
    /// The length of the role's name in bytes, or 0.
    pub role_len: usize,
    /// The index of the file that was checked, or 0.
    pub file_at: usize,
    /// 81: that file is in the job's `targets`; 82: in its `digests`; 0: there is no file.
    pub source: u32,
    /// Zeros.
    pub reserved: [u32; 5],
}

/// A delegated role that was accepted. Its name is in the list of names.
#[repr(C)]
#[derive(Clone, Copy)]
pub struct RoleRow {
    /// The version of the role's file.
    pub version: u64,
    /// The place of the name in the names.
    pub name_at: usize,
    /// The length of the name in bytes.
    pub name_len: usize,
    /// Zeros.
    pub reserved: [u64; 2],
}

/// What roles list of a wanted path. The role's name, and the name of the file to fetch, are in the
/// list of names.
#[repr(C)]
#[derive(Clone, Copy)]
pub struct ListedRow {
    /// 23: a role lists the path; else 18, 19, 20 or 22, as in [`VerdictRow`].
    pub kind: u32,
    /// The number of the fault of a role's refused file, or 0.
    pub fault: u32,
    /// The listed length in bytes, or 0.
    pub length: u64,
    /// The place of the role's name in the names.
    pub role_at: usize,
    /// The length of the role's name in bytes, or 0.
    pub role_len: usize,
    /// The place of the name to fetch in the names.
    pub name_at: usize,
    /// The length of the name to fetch in bytes, or 0.
    pub name_len: usize,
    /// Whether a sha256 digest is listed.
    pub has_sha256: bool,
    /// Whether a sha512 digest is listed.
    pub has_sha512: bool,
    /// The listed sha256 digest, or zeros.
    pub sha256: [u8; 32],
    /// The listed sha512 digest, or zeros.
    pub sha512: [u8; 64],
    /// Zeros.
    pub reserved: [u8; 30],
}

/// A file to fetch. Its name is in the list of names.
#[repr(C)]
#[derive(Clone, Copy)]
pub struct NeedRow {
    /// 49: a metadata file; 50: a target file.
    pub place: u32,
    /// Whether the file may be absent for good, as the root of the next version.
    pub optional: bool,
    /// Maximum number of bytes that the file may have.
    pub most: u64,
    /// The place of the name in the names.
    pub name_at: usize,
    /// The length of the name in bytes.
    pub name_len: usize,
    /// Zeros.
    pub reserved: [u64; 2],
}

/// How the cycle ended, and how much was returned.
#[repr(C)]
#[derive(Clone, Copy)]
pub struct Summary {
    /// 33: ready; 34 to 37: stopped at the root, the timestamp, the snapshot or the targets.
    pub end: u32,
    /// The number of the fault that stopped the cycle, or 0.
    pub fault: u32,
    /// The version of the new trusted root.
    pub root_version: u64,
    /// The length of the new state's text in bytes.
    pub state_len: usize,
    /// The number of rows of wanted paths, or of files to fetch.
    pub verdict_count: usize,
    /// The number of rows of accepted roles.
    pub role_count: usize,
    /// The length of all names in bytes.
    pub name_len: usize,
    /// Zeros.
    pub reserved: [u64; 4],
}

/// Returns the summary of a state and an end, with no rows and no names.
pub(crate) fn summary_of(trusted: &Trusted, end: End, text: &[u8]) -> Summary
    ensures end { result.end ≡ spec.end_number end }
    ensures fault { result.fault ≡ spec.end_fault end }
    ensures root { result.root_version ≡ trusted.now.root.reading.header.version }
    ensures text { result.state_len ≡ length text.now }
    ensures reserved { result.reserved ≡ replicate 4 0 }
{
    let (end, fault) = end_numbers(end);
    Summary {
        end,
        fault,
        root_version: trusted.root_version(),
        state_len: text.len(),
        verdict_count: 0,
        role_count: 0,
        name_len: 0,
        reserved: [0; 4],
    }
}

/// Returns the number of an end, and the number of its fault or 0.
fn end_numbers(end: End) -> (u32, u32)
    ensures end { result.0 ≡ spec.end_number end }
    ensures fault { result.1 ≡ spec.end_fault end }
{
    match end {
        End::Ready => (33, 0),
        End::Stopped(step, fault) => (step_number(step), fault_number(fault)),
    }
}

fn step_number(step: Step) -> u32
    ensures { result ≡ spec.step_number step }
{
    match step {
        Step::Root => 34,
        Step::Timestamp => 35,
        Step::Snapshot => 36,
        Step::Targets => 37,
    }
}

/// Returns the number of a fault, 65 to 75.
pub(crate) fn fault_number(fault: Fault) -> u32
    ensures { result ≡ spec.fault_number fault }
{
    match fault {
        Fault::NotListed => 65,
        Fault::Missing => 66,
        Fault::TooLong => 67,
        Fault::LengthWrong => 68,
        Fault::HashWrong => 69,
        Fault::NoKnownHash => 70,
        Fault::Malformed => 71,
        Fault::Unsigned => 72,
        Fault::VersionWrong => 73,
        Fault::Rollback => 74,
        Fault::Expired => 75,
    }
}
