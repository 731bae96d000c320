//! Target files that searches found, each of which is read once.

ghost use Rattle.std.specs.Prelude.{◌≡◌, ◌≤◌, ◌<◌, ◌⊎◌, ◌^◌, ◌-◌, true, IfSome, None};
ghost use Rattle.folder.specs.Folders.{HasGrown};
ghost use Rattle.folder.specs.Measures.{IsMeasure};

use crate::repositories::{first_state, limits_of, made, metadata, moment, string};
use cycle::{Course, Cycle, Repo, Round, Trusted, follow_alone};
use folder::{Folder, LoadFault, Measure, Need};
use measured::{Readers, close, measure};
use report::{Told, tell};
use std::alloc::{AllocError, Global};
use std::collections::BTreeMap;
use std::process::Abort;
use std::sync::atomic::{AtomicU64, Ordering};
use std::thread::Threads;

/// Three targets by one key: `b` is listed with both digests, and the others with one.
pub const PLAIN: &str = "key 1 5 4
top root 1 1
top timestamp 1 1
top snapshot 1 1
top targets 1 1
target targets a 61 sha256
target targets b 6262 both
target targets c 636363 sha512
write root 1 1
write targets 1 1
write snapshot 1 1
write timestamp 1 1
";

/// What `printf a | sha256sum`, `printf bb | sha256sum` and `printf ccc | sha512sum` print, before
/// the names of the targets.
const CONSISTENT: [&str; 3] = [
    "ca978112ca1bbdcafac231b39a23dc4da786eff8147c4e72b9807785afee48bb.a",
    "3b64db95cb55c763391c707108489ae18b4112d783300de38e033b4c98c3deaf.b",
    "2b83283b8caf7e952ad6b0443a87cd9ee263bc32c4d78c5b678ac03556175059\
679b4b8513b021b16a27f6d2a35484703129129f35b6cdfe418ef6473b1f8f23.c",
];

/// A file, and the number of its reads.
struct Counted {
    bytes: Vec<u8>,
    reads: AtomicU64,
}

impl Drop for Counted {
    fn drop(self) {
        let Counted { bytes, reads } = self;
    }
}

/// A folder in memory that counts the reads of each file. Threads may share it or not.
struct Counting {
    files: BTreeMap<String, Counted>,
    is_shared: bool,
    faults: u64,
}

impl Drop for Counting {
    fn drop(self) {
        let Counting {
            files,
            is_shared,
            faults,
        } = self;
    }
}

impl Counting {
    /// Returns a folder of these files, none of which was read.
    fn of(
        alloc: Global,
        files: &BTreeMap<String, Vec<u8>>,
        is_shared: bool,
    ) -> Result<Counting, AllocError> {
        let mut counted = BTreeMap::new(alloc);
        for (name, bytes) in files {
            let bytes = bytes.clone()?;
            let reads = AtomicU64::new(0);
            counted.insert(name.clone()?, Counted { bytes, reads })?;
        }
        Ok(Counting {
            files: counted,
            is_shared,
            faults: 0,
        })
    }

    /// Returns the number of reads of the file of that name, if it is there.
    fn reads(&self, name: &str) -> Option<u64> {
        Some(self.files.get(name)?.reads.load(Ordering::SeqCst))
    }

    /// Returns the measure of the file of that name, and counts one more read.
    fn counted(&self, name: &str, need: Need) -> Option<Measure>
        ensures measure { IfSome result (IsMeasure need) }
    {
        let file = self.files.get(name)?;
        file.reads.fetch_add(1, Ordering::SeqCst);
        Some(Measure::of(need, file.bytes.as_slice()))
    }

    fn fail(&mut self) -> LoadFault
        ensures failed { HasGrown self.old.faults self.new.faults }
        ensures counts { self.old.faults ≤ self.new.faults }
    {
        self.faults = self.faults.saturating_add(1);
        LoadFault::Folder
    }
}

impl Folder for Counting {
    ghost gives = { λ s. record {
      lists = λ _. true;
      holds = λ _ _. true;
      failures = s.faults;
      place = None;
    } };

    fn names(&mut self, alloc: Global) -> Result<Vec<String>, LoadFault> {
        let mut names = Vec::new(alloc);
        for (name, _) in &self.files {
            names.push(name.clone()?)?;
        }
        Ok(names)
    }

    fn read(&mut self, _alloc: Global, _name: &str) -> Result<Vec<u8>, LoadFault> {
        Err(self.fail())
    }

    fn measure(&mut self, _alloc: Global, name: &str, need: Need) -> Result<Measure, LoadFault> {
        match self.counted(name, need) {
            Some(measure) => Ok(measure),
            None => Err(self.fail()),
        }
    }

    fn measure_shared(&self, _alloc: Global, name: &str, need: Need) -> Option<Measure> {
        if !self.is_shared {
            return None;
        }
        self.counted(name, need)
    }

    fn failed(&self) -> u64 {
        self.faults
    }
}

/// Returns the wanted paths: two that are listed, the first of which is wanted twice, and one that
/// isn't.
pub fn wanted<R: Abort + AllocGlobal>(rt: &R) -> [String; 4] {
    [
        string(rt, "a"),
        string(rt, "b"),
        string(rt, "a"),
        string(rt, "d"),
    ]
}

/// Returns the cycle over the repository from the state, for these paths.
fn cycle_of<'a, R: Abort + AllocGlobal>(
    rt: &R,
    trusted: &'a Trusted,
    repo: &'a Repo,
    wanted: &'a [String],
) -> Cycle<'a> {
    let now = moment(rt);
    Cycle {
        alloc: rt.alloc(),
        trusted,
        round: Round { repo, now, wanted },
        limits: limits_of(rt, 0),
    }
}

/// Runs the cycle up to the searches for these paths.
pub fn course<R: Abort + AllocGlobal>(rt: &R, repo: &Repo, wanted: &[String]) -> Course {
    let trusted = first_state(rt, repo);
    follow_alone(&cycle_of(rt, &trusted, repo, wanted)).expect(rt, "memory")
}

/// Returns the lines of the outcome with those threads and the folder's files.
fn closed<R: Abort + AllocGlobal + Threads + Sync>(
    rt: &R,
    repo: &Repo,
    targets: &mut Counting,
    threads: usize,
) -> Vec<u8> {
    let (alloc, wanted) = (rt.alloc(), wanted(rt));
    let course = course(rt, repo, &wanted);
    let names = targets.names(alloc).expect(rt, "names");
    let readers = Readers { rt, threads };
    let known = measure(&readers, alloc, &course, targets, names).expect(rt, "files");
    let outcome = close(alloc, course, &known).expect(rt, "memory");
    let mut lines = Vec::new(alloc);
    tell(alloc, &Told::plain(alloc, outcome), &wanted, &mut lines).expect(rt, "memory");
    lines
}

/// The lines of that outcome.
pub const LINES: &str = "root 1
end ready
ok \"a\" 1 \"targets\"
ok \"b\" 2 \"targets\"
ok \"a\" 1 \"targets\"
no \"d\" NotFound
";

/// Returns whether that many threads read the files of these names once, once and never.
fn are_read_once<R: Abort + AllocGlobal + Threads + Sync>(
    rt: &R,
    (script, names): (&str, [&str; 3]),
    is_shared: bool,
    threads: usize,
) -> bool {
    let repo = made(rt, script);
    let mut targets = Counting::of(rt.alloc(), &repo.targets, is_shared).expect(rt, "memory");
    let lines = closed(rt, &repo, &mut targets, threads);
    let [a, b, c] = names;
    lines.as_slice() == LINES.as_bytes()
        && targets.reads(a) == Some(1)
        && targets.reads(b) == Some(1)
        && targets.reads(c) == Some(0)
}

#[test]
fn found_files_are_read_once(rt: HostRuntime) {
    let row = (PLAIN, ["a", "b", "c"]);
    for (is_shared, threads) in [(false, 0), (true, 0), (false, 2), (true, 2)] {
        assert!(rt; are_read_once(&rt, row, is_shared, threads), "{threads}");
    }
}

#[test]
fn found_files_with_consistent_names_are_read_once(rt: HostRuntime) {
    let script = format!(in rt.alloc(); "consistent yes\n{PLAIN}").expect(&rt, "memory");
    let row = (script.as_str(), CONSISTENT);
    for (is_shared, threads) in [(false, 0), (true, 0), (false, 2), (true, 2)] {
        assert!(rt; are_read_once(&rt, row, is_shared, threads), "{threads}");
    }
}

#[test]
fn names_are_consistent_by_the_last_root(rt: HostRuntime) {
    let alloc = rt.alloc();
    let script = format!(in alloc; "{PLAIN}consistent yes\nwrite root 2 1\n");
    let repo = made(&rt, script.expect(&rt, "memory").as_str());
    let trusted = first_state(&rt, &repo);
    assert!(rt; !trusted.root().reading().consistent());
    let wanted = wanted(&rt);
    let course = course(&rt, &repo, &wanted);
    assert!(rt; course.has_consistent_names());
    assert!(rt; course.trusted().root().bytes() == metadata(&rt, &repo, "2.root.json"));
}
