//! The metadata that a run probably reads.

ghost use Rattle.std.specs.Prelude.{◌≡◌, ◌≤◌, ◌+◌, IfOk, true, false};
ghost use Rattle.examine.specs.Checks.{file_in};
ghost use Rattle.plan.specs.Bound.{bytes_read};

use crate::document::Document;
use crate::steps::Steps;
use cjson::NoMemory;
use examine::Listed;
use meta::names::{root_name, version_name};
use meta::{ReadFault, Reading, Repo, Root, Snapshot, Stop, Targets, Timestamp, read_document};
use rolechain::{LAST_VERSION, MOST_ROOTS, Trusted, place_of};
use std::alloc::Global;
use std::collections::{BTreeMap, BTreeSet};

/// Maximum number of bytes of metadata files that a run reads in advance, roots included.
const MOST_BYTES: u64 = 4_000_000;

/// A file that was read, and the number of its document.
#[derive(Drop)]
pub(crate) struct ReadFile<A: Reading> {
    /// The number of the document.
    pub document: usize,
    /// What was read.
    pub reading: A,
}

/// A role's targets file.
pub(crate) struct RoleFile {
    /// The number of the document.
    pub document: usize,
    /// What was read.
    pub targets: Targets,
    /// The delegations that are followed for some wanted path: the place of each in the file, and
    /// the name of its bin if the file has bins.
    pub followed: BTreeSet<(usize, String)>,
    /// The number of the last wanted path whose walk visited the file.
    pub visitor: Option<usize>,
}

impl Drop for RoleFile {
    fn drop(self) {
        let RoleFile {
            document,
            targets,
            followed,
            visitor,
        } = self;
    }
}

/// Where a wanted path is listed.
#[derive(Clone, Copy)]
pub(crate) struct ListedAt {
    /// The place of the file.
    pub file: usize,
    /// The place of the target in the file.
    pub target: usize,
}

/// The targets files that were read, the place of each by its role's name, and where wanted paths
/// are listed. The place of a role whose file wasn't read is None.
pub(crate) struct RoleFiles {
    /// The files.
    pub files: Vec<RoleFile>,
    /// The place of each file by its role's name, or None if the file wasn't read.
    pub places: BTreeMap<String, Option<usize>>,
    /// Where wanted paths are listed.
    pub listed: Vec<ListedAt>,
}

impl Drop for RoleFiles {
    fn drop(self) {
        let RoleFiles {
            files,
            places,
            listed,
        } = self;
    }
}

/// What was read in advance, each file once.
pub struct Ahead {
    /// The roots after the trusted one, in order.
    pub(crate) roots: Vec<ReadFile<Root>>,
    /// The timestamp, if it was read.
    pub(crate) timestamp: Option<ReadFile<Timestamp>>,
    /// The snapshot, if it was read.
    pub(crate) snapshot: Option<ReadFile<Snapshot>>,
    /// The targets files that were read.
    pub(crate) roles: RoleFiles,
}

impl Drop for Ahead {
    fn drop(self) {
        let Ahead {
            roots,
            timestamp,
            snapshot,
            roles,
        } = self;
    }
}

/// The input of reading in advance.
#[derive(Clone, Copy)]
pub struct Scope<'a> {
    /// The allocator.
    pub alloc: Global,
    /// The trusted state of the run.
    pub trusted: &'a Trusted,
    /// The repository.
    pub repo: &'a Repo,
    /// The wanted paths.
    pub wanted: &'a [String],
    /// Maximum number of checks of the plan.
    pub most: usize,
}

/// The files that determine the name of a role's file: the last root and the snapshot.
#[derive(Clone, Copy)]
pub(crate) struct TopLevel<'a> {
    /// The last root.
    pub root: &'a Root,
    /// The snapshot.
    pub snapshot: &'a Snapshot,
}

/// Reads the roots after the trusted one, the timestamp, the snapshot that it lists, and the
/// targets files to which the wanted paths lead. Also returns the document of each. Fails only if
/// out of memory.
///
/// A file is skipped, together with all that it would lead to, if it is missing or malformed, if
/// it is longer than what is left of 4,000,000 bytes, or if it has more values than what is left of
/// the steps allows.
pub fn read_ahead(scope: &Scope) -> Result<(Ahead, Vec<Document>), NoMemory>
    ensures bounded { IfOk result (λ r.
        bytes_read (file_in scope.now.repo.now.metadata) r.1.items ≤ 4000000) }
{
    let mut reader = Reader {
        scope: *scope,
        documents: Vec::new(scope.alloc),
        bytes_left: MOST_BYTES,
        steps: Steps::new(),
    };
    let ahead = reader.read_all()?;
    Ok((ahead, reader.documents))
}

/// Returns the last of the roots.
pub(crate) fn last_root<'b>(trusted: &'b Trusted, roots: &'b [ReadFile<Root>]) -> &'b Root {
    match roots.last() {
        Some(read) => &read.reading,
        None => trusted.root().reading(),
    }
}

/// Reads files within the bound, and keeps the document of each.
#[derive(Drop)]
pub(crate) struct Reader<'a> {
    /// What to read for.
    pub scope: Scope<'a>,
    /// The documents of the files that were read.
    pub documents: Vec<Document>,
    /// Number of bytes that may still be read.
    pub bytes_left: u64,
    /// The steps that are left.
    pub steps: Steps,
    ghost bound: { bytes_read (file_in scope.repo.now.metadata) documents.items + bytes_left
        ≤ 4000000 },
}

impl<'a> Reader<'a> {
    fn read_all(&mut self) -> Result<Ahead, NoMemory>
        ensures scope { self.new.scope ≡ self.old.scope }
    {
        let roots = self.read_roots()?;
        let root = last_root(self.scope.trusted, roots.as_slice());
        let timestamp = self.read_file("timestamp.json")?;
        let snapshot = match &timestamp {
            Some(timestamp) => self.read_snapshot(root, &timestamp.reading)?,
            None => None,
        };
        let mut roles = RoleFiles {
            files: Vec::new(self.scope.alloc),
            places: BTreeMap::new(self.scope.alloc),
            listed: Vec::new(self.scope.alloc),
        };
        if let Some(snapshot) = &snapshot {
            let snapshot = &snapshot.reading;
            self.read_roles(&TopLevel { root, snapshot }, &mut roles)?;
        }
        Ok(Ahead {
            roots,
            timestamp,
            snapshot,
            roles,
        })
    }

    /// Reads the roots after the trusted one, by their names.
    fn read_roots(&mut self) -> Result<Vec<ReadFile<Root>>, NoMemory>
        ensures scope { self.new.scope ≡ self.old.scope }
    {
        let mut roots = Vec::new(self.scope.alloc);
        let mut version = self.scope.trusted.root_version();
        for _ in 0..MOST_ROOTS {
            if version >= LAST_VERSION {
                break;
            }
            version += 1;
            let name = root_name(self.scope.alloc, version)?;
            let Some(read) = self.read_file(name.as_str())? else {
                break;
            };
            roots.push(read)?;
        }
        Ok(roots)
    }

    /// Reads the snapshot under the name that follows from the timestamp's listing.
    fn read_snapshot(
        &mut self,
        root: &Root,
        timestamp: &Timestamp,
    ) -> Result<Option<ReadFile<Snapshot>>, NoMemory>
        ensures scope { self.new.scope ≡ self.old.scope }
    {
        let version = timestamp.snapshot().version.get();
        let alloc = self.scope.alloc;
        let name = version_name(alloc, root.consistent(), version, "snapshot.json")?;
        self.read_file(name.as_str())
    }

    /// Returns the place of a role's file. Reads the file unless that was tried before.
    pub(crate) fn place_of_role(
        &mut self,
        top: &TopLevel,
        role: String,
        roles: &mut RoleFiles,
    ) -> Result<Option<usize>, NoMemory>
        ensures scope { self.new.scope ≡ self.old.scope }
    {
        if let Some(place) = roles.places.get(role.as_str()) {
            return Ok(*place);
        }
        let place = match self.read_role(top, role.as_str())? {
            Some(file) => {
                let place = roles.files.len();
                roles.files.push(file)?;
                Some(place)
            }
            None => None,
        };
        roles.places.insert(role, place)?;
        Ok(place)
    }

    /// Reads a role's file, if the snapshot lists it.
    fn read_role(&mut self, top: &TopLevel, role: &str) -> Result<Option<RoleFile>, NoMemory>
        ensures scope { self.new.scope ≡ self.old.scope }
    {
        let alloc = self.scope.alloc;
        let (listed, name) = place_of(alloc, top.root, top.snapshot, role)?;
        let Listed::As(_) = listed else {
            return Ok(None);
        };
        let Some(read) = self.read_file::<Targets>(name.as_str())? else {
            return Ok(None);
        };
        Ok(Some(RoleFile {
            document: read.document,
            targets: read.reading,
            followed: BTreeSet::new(alloc),
            visitor: None,
        }))
    }

    /// Reads a file of this kind and keeps its document. Returns None if the file is missing,
    /// longer than its kind's limit or than what is left of the bytes, malformed, or if the steps
    /// don't suffice.
    fn read_file<A: Reading + Drop>(&mut self, name: &str) -> Result<Option<ReadFile<A>>, NoMemory>
        ensures scope { self.new.scope ≡ self.old.scope }
    {
        let alloc = self.scope.alloc;
        let Some(bytes) = self.scope.repo.metadata.get(name) else {
            return Ok(None);
        };
        let bytes = bytes.as_slice();
        let length = bytes.len() as u64;
        if length > A::limit() || length > self.bytes_left {
            return Ok(None);
        }
        self.bytes_left -= length;
        if !self.steps.read(bytes) {
            return Ok(None);
        }
        let doc = match read_document(alloc, bytes) {
            Ok(doc) => doc,
            Err(Stop::NoMemory) => return Err(NoMemory),
            Err(Stop::Refused(_)) => return Ok(None),
        };
        let reading = match A::read(alloc, &doc) {
            Ok(reading) => reading,
            Err(ReadFault::NoMemory) => return Err(NoMemory),
            Err(_) => return Ok(None),
        };
        let document = self.documents.len();
        self.documents.push(Document::new(alloc, name, &doc)?)?;
        Ok(Some(ReadFile { document, reading }))
    }
}
