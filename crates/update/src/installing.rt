//! The copies of good targets, stored for their paths.

ghost use Rattle.std.specs.Prelude.{◌≡◌, ◌≢◌, List, ℕ, Option, Some, false, true};
ghost use Rattle.std.specs.Prelude.{IfErr, IfOk, IfSome, OnErr, OnOk, length, map};
ghost use Rattle.std.specs.Prelude.{bytes_eq, if◌then◌else◌, string_bytes};
ghost use Rattle.std.specs.BTreeSet.{contains_text};
ghost use Rattle.std.specs.IoError.{error_kind};
ghost use Rattle.std.specs.List.{slice_get};
ghost use Rattle.copies.specs.Paths as spec;
ghost use Rattle.copies.specs.Paths.{IsSameAt};
ghost use Rattle.cycle.specs.Workflow.{Target};
ghost use Rattle.folder.specs.Folders.{path_below};
ghost use Rattle.system.specs.Blocked as blocked;
ghost use Rattle.system.specs.Locks.{StaysLocked};
ghost use Rattle.failure.specs.Failures.{IsLate};
ghost use Rattle.update.specs.Copies.{IsFlag, OutsideKept, is_blocked, is_free};
ghost use Rattle.update.specs.Stored.{AreInstalled, AreSomeInstalled, DecidesOne, IsLentFor};
ghost use Rattle.update.specs.Stored.{IsStoredAs, placing_of};

use crate::placing::candidates;
use copies::Destination;
use cycle::Verdict;
use failure::{Failure, of_io};
use std::alloc::{AllocError, Global};
use std::collections::BTreeSet;
use std::io;
use system::{System, is_of_path};

/// The paths whose copy was stored, and those for which none can be.
#[derive(Drop)]
struct Decided {
    stored: BTreeSet<String>,
    refused: BTreeSet<String>,
}

/// Where copies are put: a folder for them, and the place of the state, which no copy takes.
#[derive(Drop)]
pub struct Places<'a, D> {
    pub alloc: Global,
    pub to: &'a D,
    pub state: &'a str,
}

/// Stores the copies of the wanted paths whose verdict is good, in order, and returns for each
/// wanted path, by position, whether its copy was stored; a path that is wanted twice is stored
/// once. None is stored for a path that isn't one below the folder, that is a folder of another one
/// with a good verdict, whose place is the state's, or where the system puts no file.
///
/// Fails with `Output` if a copy can't be written for another cause, or if out of memory; then the
/// copies before it were stored.
pub(crate) fn store_copies<S: System, D: Destination>(
    places: &Places<'_, D>,
    wanted: &[String],
    verdicts: &[Verdict],
    copies: &[Option<D::Temporary>],
    system: &mut S,
) -> Result<Vec<bool>, Failure>
    ensures by_position { IfOk result (λ stored. length stored.items ≡ length wanted.now) }
    ensures stored { IfOk result (λ stored. AreInstalled D.Temporary.wrote copies.now
        (placing_of D.site places.now (S.obstacles system.old)) (map string_bytes wanted.now)
        verdicts.now (S.keeps system.old) (S.keeps system.new) stored.items) }
    ensures begun { OnErr result (AreSomeInstalled D.Temporary.wrote copies.now
        (placing_of D.site places.now (S.obstacles system.old)) (map string_bytes wanted.now)
        verdicts.now (S.keeps system.old) (S.keeps system.new)) }
    ensures spared { IsSameAt places.now.state.now (S.keeps system.old) (S.keeps system.new) }
    ensures outside { OutsideKept (D.site places.now.to.now).path places.now.state.now
        (S.keeps system.old) (S.keeps system.new) }
    ensures same_obstacles { S.obstacles system.new ≡ S.obstacles system.old }
    ensures locked { StaysLocked (S.locks system.old) (S.locks system.new) }
    ensures refused { IfErr result IsLate }
{
    let mut flags = candidates(places.alloc, wanted, verdicts)?;
    let mut decided = Decided {
        stored: BTreeSet::new(places.alloc),
        refused: BTreeSet::new(places.alloc),
    };
    for i in 0..wanted.len() {
        if flags[i] {
            let copy = copy_at(copies, i);
            let path = wanted[i].as_str();
            flags[i] = store_copy(places, path, copy, &mut decided, system)?;
        }
    }
    Ok(flags)
}

/// Returns the copy at the index, if there is one.
fn copy_at<K>(copies: &[Option<K>], i: usize) -> Option<&K>
    ensures { IfSome result (λ file. slice_get copies.now i ≡ Some (Some file.now)) }
{
    copies.get(i)?.as_ref()
}

/// Stores the copy for the path, unless that was decided before, and returns whether it was stored.
/// Fails with `Output` if there is none.
fn store_copy<S: System, D: Destination>(
    places: &Places<'_, D>,
    path: &str,
    copy: Option<&D::Temporary>,
    decided: &mut Decided,
    system: &mut S,
) -> Result<bool, Failure>
    requires below { spec.is_below path.now ≡ true }
    ensures decided { IfOk result (DecidesOne
        (placing_of D.site places.now (S.obstacles system.old))
        decided.old decided.new path.now) }
    ensures copied { (t : Option Target) → IsLentFor D.Temporary.wrote copy.entry t
        → contains_text decided.old.stored path.now ≡ false → IfOk result
        (IsStoredAs (D.site places.now.to.now).path (S.keeps system.new) path.now t) }
    ensures again { contains_text decided.old.stored path.now ≡ true
        → OnOk result (S.keeps system.new ≡ S.keeps system.old) }
    ensures not_stored { IfOk result (λ is_stored. is_stored ≡ false
        → S.keeps system.new ≡ S.keeps system.old) }
    ensures others { OnOk result ((other : List ℕ)
        → other ≢ path_below (D.site places.now.to.now).path path.now
        → IsSameAt other (S.keeps system.old) (S.keeps system.new)) }
    ensures spared { IsSameAt places.now.state.now (S.keeps system.old) (S.keeps system.new) }
    ensures outside { OutsideKept (D.site places.now.to.now).path places.now.state.now
        (S.keeps system.old) (S.keeps system.new) }
    ensures same_obstacles { S.obstacles system.new ≡ S.obstacles system.old }
    ensures locked { StaysLocked (S.locks system.old) (S.locks system.new) }
    ensures unchanged { OnErr result (S.keeps system.new ≡ S.keeps system.old) }
    ensures refused { IfErr result IsLate }
{
    if has_path(&decided.stored, path) {
        return Ok(true);
    }
    if has_path(&decided.refused, path) {
        return Ok(false);
    }
    let Some(file) = copy else {
        return Err(Failure::Output);
    };
    add_path(places.alloc, &mut decided.stored, path)?;
    if install(places, path, file, system)? {
        return Ok(true);
    }
    drop_path(&mut decided.stored, path);
    add_path(places.alloc, &mut decided.refused, path)?;
    Ok(false)
}

/// Stores the copy at the place of its path, and returns whether it could: the place isn't the
/// state's, and the system puts a file there.
fn install<S: System, D: Destination>(
    places: &Places<'_, D>,
    path: &str,
    file: &D::Temporary,
    system: &mut S,
) -> Result<bool, Failure>
    requires below { spec.is_below path.now ≡ true }
    ensures decided { let p = placing_of D.site places.now (S.obstacles system.old) in
        IfOk result (IsFlag (is_free p.site.path p.state) (is_blocked p) path.now) }
    ensures stored { IfOk result (λ is_stored. is_stored ≡ true
        → (bytes : List ℕ) → D.Temporary.wrote file.now bytes ≡ true
        → S.keeps system.new (path_below (D.site places.now.to.now).path path.now) bytes ≡ true) }
    ensures not_stored { IfOk result (λ is_stored. is_stored ≡ false
        → S.keeps system.new ≡ S.keeps system.old) }
    ensures others { (other : List ℕ) → other ≢ path_below (D.site places.now.to.now).path path.now
        → IsSameAt other (S.keeps system.old) (S.keeps system.new) }
    ensures spared { IsSameAt places.now.state.now (S.keeps system.old) (S.keeps system.new) }
    ensures same_obstacles { S.obstacles system.new ≡ S.obstacles system.old }
    ensures unchanged { OnErr result (S.keeps system.new ≡ S.keeps system.old) }
    ensures locked { StaysLocked (S.locks system.old) (S.locks system.new) }
    ensures refused { IfErr result IsLate }
{
    let place = match places.to.place_for(places.alloc, path) {
        Ok(place) => place,
        Err(error) => return refused_by(&error),
    };
    if place.as_str() == places.state {
        return Ok(false);
    }
    match system.install(file, place.as_str()) {
        Ok(()) => Ok(true),
        Err(error) => refused_by(&error),
    }
}

/// Returns false if the error is that of the path. Fails for every other error.
fn refused_by(error: &io::Error) -> Result<bool, Failure>
    ensures path { IfOk result (λ is_stored.
        (is_stored ≡ false) × (blocked.is_of_path (error_kind error.now) ≡ true)) }
    ensures refused { IfErr result IsLate }
{
    if is_of_path(error) {
        return Ok(false);
    }
    Err(of_io(error, Failure::Output))
}

/// Returns whether the set has the path.
fn has_path(set: &BTreeSet<String>, path: &str) -> bool
    ensures { result ≡ contains_text set.now path.now }
{
    set.contains(path)
}

/// Adds the path to the set. Fails only if out of memory.
#[tactic(auto, using(std::proofs::lemmas::Map::Text::text_keys))]
fn add_path(alloc: Global, set: &mut BTreeSet<String>, path: &str) -> Result<(), AllocError>
    ensures { OnOk result ((other : List ℕ) → contains_text set.new other
        ≡ (if bytes_eq path.now other then true else contains_text set.old other)) }
{
    set.insert(String::from_str(alloc, path)?)?;
    Ok(())
}

/// Removes the path from the set.
#[tactic(auto, using(std::proofs::lemmas::Map::Text::text_keys))]
fn drop_path(set: &mut BTreeSet<String>, path: &str)
    ensures { (other : List ℕ) → contains_text set.new other
        ≡ (if bytes_eq path.now other then false else contains_text set.old other) }
{
    set.remove(path);
}
