//! The end of a course, with copies of the files that its searches found.

ghost use Rattle.std.specs.Prelude.{◌≡◌, ◌≢◌, ◌≤◌, true, List, [], ℕ, Bool, Err, IfErr};
ghost use Rattle.std.specs.Prelude.{IfOk, IfSome, OnOk, map, string_bytes};
ghost use Rattle.folder.specs.Folders.{HasFailed, IsSameFolder};
ghost use Rattle.copies.specs.declared.fault.CopyFault.TheVariants as fault;
ghost use Rattle.measured.specs.Closed.{HasNamesOf, IsMeasured, is_found};
ghost use Rattle.measured.specs.Copied.{AreCopiesFor, HasContentOf, IsCopyFor, IsMade};
ghost use Rattle.measured.specs.Copied.{IsMeasuredInto};
ghost use Rattle.measured.specs.Known.{IsThere, StaysKnown};

use crate::fitting::fits;
use crate::known::{Known, There, Wanted, named, place, put};
use crate::need::widened;
use crate::reading::{is_measured, need_of, note_all, read_all, target_of};
use copies::{CopyFault, Destination, copy_fault, is_below};
use cycle::{Course, Search, Target};
use folder::{Folder, Measure, Need, Sink};
use std::alloc::Global;

/// What is known of the target files, and for each wanted path, by position, a temporary file with
/// the bytes of its target, or the copy that is there and has them. There is none if the target
/// isn't good, or if an earlier path has it.
#[derive(Drop)]
pub struct Copied<K> {
    pub known: Known,
    pub copies: Vec<Option<K>>,
}

/// Measures files as [`measure`](crate::measure) does, on one thread, and copies each to a temporary
/// file of `to` while it is read. A copy is left only if it has the length and the digests of the
/// target that the search found. If the copy that is there has the same bytes, nothing is written:
/// a file is read a second time only if its copy has the same length and other bytes.
///
/// Fails with `Folder` if a call of the folder failed, with `Output` if a copy can't be written, or
/// with `NoMemory`.
#[tactic(auto, using(folder::proofs::Sameness::sameness))]
pub fn measure_into<F: Folder, D: Destination>(
    alloc: Global,
    course: &Course,
    folder: &mut F,
    names: Vec<String>,
    to: &mut D,
) -> Result<Copied<D::Temporary>, CopyFault>
    requires listed { (F.gives folder.old).lists (map string_bytes names.items) ≡ true }
    ensures measured { IfOk result (λ c. IsMeasured (F.gives folder.old).lists
        (F.gives folder.old).holds course.now c.known) }
    ensures copies { IfOk result
        (λ c. AreCopiesFor D.Temporary.wrote c.copies.items course.now.searches) }
    ensures failed { IfErr result (λ e. e ≡ fault.Folder
        → HasFailed (F.gives folder.old) (F.gives folder.new)) }
    ensures output { IfErr result (λ e. e ≡ fault.Output → (D.site to.old).fails ≡ true) }
    ensures same { IsSameFolder (F.gives folder.old) (F.gives folder.new) }
    ensures same_site { D.site to.new ≡ D.site to.old }
{
    let consistent = course.has_consistent_names();
    let searches = course.searches();
    let mut known = named(alloc, names)?;
    note_all(alloc, searches, consistent, &mut known)?;
    let copies = copy_all(alloc, course, folder, &mut known, to)?;
    // What is needed was read by now.
    read_all(alloc, folder, searches, consistent, &mut known)?;
    Ok(Copied { known, copies })
}

/// Reads each file that a search found, once, and copies it. Returns a copy for each search, by
/// position, if its file is the target that it found and wasn't read before.
#[tactic(auto, using(folder::proofs::Sameness::sameness))]
fn copy_all<F: Folder, D: Destination>(
    alloc: Global,
    course: &Course,
    folder: &mut F,
    known: &mut Known,
    to: &mut D,
) -> Result<Vec<Option<D::Temporary>>, CopyFault>
    ensures known { OnOk result ((names : List (List ℕ))
        → StaysKnown names (F.gives folder.old).holds (is_found
        course.now.trusted.root.reading.consistent course.now.searches) known.old known.new) }
    ensures copies { IfOk result
        (λ copies. AreCopiesFor D.Temporary.wrote copies.items course.now.searches) }
    ensures failed { IfErr result (λ e. e ≡ fault.Folder
        → HasFailed (F.gives folder.old) (F.gives folder.new)) }
    ensures output { IfErr result (λ e. e ≡ fault.Output → (D.site to.old).fails ≡ true) }
    ensures same { IsSameFolder (F.gives folder.old) (F.gives folder.new) }
    ensures same_site { D.site to.new ≡ D.site to.old }
{
    let consistent = course.has_consistent_names();
    let mut copies = Vec::new(alloc);
    for search in course.searches() {
        let sought = Sought { search, consistent };
        let copy = copy_one(alloc, folder, &sought, known, to)?;
        copies.push(copy)?;
    }
    Ok(copies)
}

/// A search, and whether names of target files begin with a digest.
#[derive(Clone, Copy)]
struct Sought<'a> {
    search: &'a Option<Search>,
    consistent: bool,
}

/// Reads and copies the file that the search found, if it found one that is there and wasn't read.
#[tactic(auto, using(folder::proofs::Sameness::sameness))]
fn copy_one<F: Folder, D: Destination>(
    alloc: Global,
    folder: &mut F,
    sought: &Sought,
    known: &mut Known,
    to: &mut D,
) -> Result<Option<D::Temporary>, CopyFault>
    ensures known { (names : List (List ℕ)) (found : List ℕ → Bool)
        → HasNamesOf sought.now.consistent sought.now.search.now found
        → StaysKnown names (F.gives folder.old).holds found known.old known.new }
    ensures copy { IfOk result (λ copy. IsCopyFor D.Temporary.wrote copy sought.now.search.now) }
    ensures failed { IfErr result (λ e. e ≡ fault.Folder
        → HasFailed (F.gives folder.old) (F.gives folder.new)) }
    ensures output { IfErr result (λ e. e ≡ fault.Output → (D.site to.old).fails ≡ true) }
    ensures same { IsSameFolder (F.gives folder.old) (F.gives folder.new) }
    ensures same_site { D.site to.new ≡ D.site to.old }
{
    let Some(target) = target_of(sought.search) else {
        return Ok(None);
    };
    let Some(there) = place(alloc, known, sought.consistent, target)? else {
        return Ok(None);
    };
    copy_file(alloc, folder, Placed { there, target }, known, to)
}

/// A file that is there, and the target that it should be.
#[derive(Drop)]
struct Placed<'a> {
    there: There,
    target: &'a Target,
}

/// Reads and copies the file, unless it was read as far as the target needs it.
#[tactic(auto, using(folder::proofs::Sameness::sameness))]
fn copy_file<F: Folder, D: Destination>(
    alloc: Global,
    folder: &mut F,
    placed: Placed<'_>,
    known: &mut Known,
    to: &mut D,
) -> Result<Option<D::Temporary>, CopyFault>
    requires there { IsThere known.old placed.there }
    ensures known { (names : List (List ℕ)) (found : List ℕ → Bool)
        → found (string_bytes placed.entry.there.name) ≡ true
        → StaysKnown names (F.gives folder.old).holds found known.old known.new }
    ensures copy { IfOk result (λ copy. IfSome copy
        (λ file. HasContentOf (D.Temporary.wrote file) placed.entry.target.now)) }
    ensures failed { IfErr result (λ e. e ≡ fault.Folder
        → HasFailed (F.gives folder.old) (F.gives folder.new)) }
    ensures output { IfErr result (λ e. e ≡ fault.Output → (D.site to.old).fails ≡ true) }
    ensures same { IsSameFolder (F.gives folder.old) (F.gives folder.new) }
    ensures same_site { D.site to.new ≡ D.site to.old }
{
    let Placed { there, target } = placed;
    let There { name, wanted } = there;
    if is_measured(wanted, target) {
        return Ok(None);
    }
    let need = widened(need_of(wanted), target);
    let reading = Reading {
        name: name.as_str(),
        need,
        target,
    };
    let made = make_copy(alloc, folder, &reading, to)?;
    let Made { measure, copy } = made;
    let measured = Wanted {
        need,
        measure: Some(measure),
    };
    put(known, name, Some(measured))?;
    Ok(copy)
}

/// A file to be read, what is needed of it, and the target that it should be.
#[derive(Clone, Copy)]
struct Reading<'a> {
    name: &'a str,
    need: Need,
    target: &'a Target,
}

/// The measure of a file, and a copy if the file is the target.
#[derive(Drop)]
struct Made<K> {
    measure: Measure,
    copy: Option<K>,
}

/// Reads the file, and returns a copy if it is the target: the one that is there, if it has the
/// same bytes, or else a temporary file. For that the file is read again: what was there may change
/// before it is read a second time.
#[tactic(auto, using(folder::proofs::Sameness::sameness))]
fn make_copy<F: Folder, D: Destination>(
    alloc: Global,
    folder: &mut F,
    reading: &Reading<'_>,
    to: &mut D,
) -> Result<Made<D::Temporary>, CopyFault>
    ensures made { IfOk result (IsMade D.Temporary.wrote
        ((F.gives folder.old).holds reading.now.name.now) reading.now.need
        reading.now.target.now) }
    ensures failed { IfErr result (λ e. e ≡ fault.Folder
        → HasFailed (F.gives folder.old) (F.gives folder.new)) }
    ensures output { IfErr result (λ e. e ≡ fault.Output → (D.site to.old).fails ≡ true) }
    ensures same { IsSameFolder (F.gives folder.old) (F.gives folder.new) }
    ensures same_site { D.site to.new ≡ D.site to.old }
{
    if let Some(file) = standing(alloc, reading.target, to)? {
        if let Some(made) = compared(alloc, folder, reading, to, file)? {
            return Ok(made);
        }
    }
    written(alloc, folder, reading, to)
}

/// Opens the copy of the target that is there, if it may be the target by its length.
fn standing<D: Destination>(
    alloc: Global,
    target: &Target,
    to: &mut D,
) -> Result<Option<D::Temporary>, CopyFault>
    ensures empty { IfOk result (λ o. IfSome o (λ file. D.Temporary.took file [] ≡ true)) }
    ensures output { IfErr result (λ e. e ≡ fault.Output → (D.site to.old).fails ≡ true) }
    ensures read { result ≢ Err fault.Folder }
    ensures same_site { D.site to.new ≡ D.site to.old }
{
    let path = target.path.as_str();
    if !is_below(path) {
        return Ok(None);
    }
    match to.standing(alloc, path, target.length.get()) {
        Ok(file) => Ok(file),
        Err(error) => Err(copy_fault(&error)),
    }
}

/// Reads the file and compares it with the copy that is there. Returns None if the file is the
/// target and the copy has other bytes.
#[tactic(auto, using(folder::proofs::Sameness::sameness))]
fn compared<F: Folder, D: Destination>(
    alloc: Global,
    folder: &mut F,
    reading: &Reading<'_>,
    to: &mut D,
    file: D::Temporary,
) -> Result<Option<Made<D::Temporary>>, CopyFault>
    requires empty { D.Temporary.took file [] ≡ true }
    ensures made { IfOk result (λ o. IfSome o (IsMade D.Temporary.wrote
        ((F.gives folder.old).holds reading.now.name.now) reading.now.need
        reading.now.target.now)) }
    ensures failed { IfErr result (λ e. e ≡ fault.Folder
        → HasFailed (F.gives folder.old) (F.gives folder.new)) }
    ensures read { result ≢ Err fault.Output }
    ensures same { IsSameFolder (F.gives folder.old) (F.gives folder.new) }
    ensures same_site { D.site to.new ≡ D.site to.old }
{
    let mut file = file;
    let measure = measure_file(alloc, folder, reading, &mut file)?;
    if !fits(reading.target, reading.need, &measure) {
        let copy = None;
        return Ok(Some(Made { measure, copy }));
    }
    if !to.is_same(&mut file) {
        return Ok(None);
    }
    let copy = Some(file);
    Ok(Some(Made { measure, copy }))
}

/// Reads the file and copies it to a temporary one.
#[tactic(auto, using(folder::proofs::Sameness::sameness))]
fn written<F: Folder, D: Destination>(
    alloc: Global,
    folder: &mut F,
    reading: &Reading<'_>,
    to: &mut D,
) -> Result<Made<D::Temporary>, CopyFault>
    ensures made { IfOk result (IsMade D.Temporary.wrote
        ((F.gives folder.old).holds reading.now.name.now) reading.now.need
        reading.now.target.now) }
    ensures failed { IfErr result (λ e. e ≡ fault.Folder
        → HasFailed (F.gives folder.old) (F.gives folder.new)) }
    ensures output { IfErr result (λ e. e ≡ fault.Output → (D.site to.old).fails ≡ true) }
    ensures same { IsSameFolder (F.gives folder.old) (F.gives folder.new) }
    ensures same_site { D.site to.new ≡ D.site to.old }
{
    let mut file = match to.begin(alloc) {
        Ok(file) => file,
        Err(error) => return Err(copy_fault(&error)),
    };
    let measure = measure_file(alloc, folder, reading, &mut file)?;
    let copy = kept_if(fits(reading.target, reading.need, &measure), to, file)?;
    Ok(Made { measure, copy })
}

/// Measures the file, and passes the bytes that are measured on.
fn measure_file<F: Folder, K: Sink>(
    alloc: Global,
    folder: &mut F,
    reading: &Reading<'_>,
    sink: &mut K,
) -> Result<Measure, CopyFault>
    requires empty { K.took sink.old [] ≡ true }
    ensures given { IfOk result (IsMeasuredInto reading.now.need
        ((F.gives folder.old).holds reading.now.name.now) (K.took sink.new)) }
    ensures failed { IfErr result (λ e. e ≡ fault.Folder
        → HasFailed (F.gives folder.old) (F.gives folder.new)) }
    ensures read { result ≢ Err fault.Output }
    ensures same { IsSameFolder (F.gives folder.old) (F.gives folder.new) }
{
    Ok(folder.measure_into(alloc, reading.name, reading.need, sink)?)
}

/// Ends the writing of the temporary file and returns it, or removes it if it isn't to be kept.
fn kept_if<D: Destination>(
    is_kept: bool,
    to: &mut D,
    mut file: D::Temporary,
) -> Result<Option<D::Temporary>, CopyFault>
    ensures file { IfOk result (λ copy. IfSome copy (λ left. (is_kept ≡ true)
        × ((bytes : List ℕ) → D.Temporary.took file bytes ≡ true
        → D.Temporary.wrote left bytes ≡ true))) }
    ensures output { IfErr result (λ e. e ≡ fault.Output → (D.site to.old).fails ≡ true) }
    ensures written { result ≢ Err fault.Folder }
    ensures same_site { D.site to.new ≡ D.site to.old }
{
    if !is_kept {
        to.discard(file);
        return Ok(None);
    }
    match to.finish(&mut file) {
        Ok(()) => Ok(Some(file)),
        Err(error) => Err(copy_fault(&error)),
    }
}
