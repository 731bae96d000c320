//! The reading of the files that searches found, each once.

ghost use Rattle.std.specs.Prelude.{◌≡◌, ◌≤◌, ◌⊎◌, true, false, ℕ, List, Bool, All, IfErr, OnOk};
ghost use Rattle.std.specs.Prelude.{option_map, string_bytes};
ghost use Rattle.std.specs.BTreeMap.{get_by_text};
ghost use Rattle.std.specs.Option.{option_map_or};
ghost use Rattle.folder.specs.Folders.{HasFailed, IsSameFolder};
ghost use Rattle.folder.specs.declared.files.LoadFault.TheVariants as fault;
ghost use Rattle.cycle.specs.Workflow.{Target, target_of};
ghost use Rattle.measured.specs.Closed.{HasNamesOf, is_found};
ghost use Rattle.measured.specs.Known as spec;
ghost use Rattle.measured.specs.Known.{Grows, IsCovered, StaysKnown};

use crate::known::{Known, There, Wanted, place, put};
use crate::need::{NOTHING, covers, widened};
use cycle::{Found, Search, Target};
use folder::{Folder, LoadFault, Need};
use std::alloc::{AllocError, Global};

/// Returns the target that the search found.
pub fn target_of(search: &Option<Search>) -> Option<&Target>
    ensures { option_map (λ t. t.now) result ≡ target_of search.now }
{
    match &search.as_ref()?.found {
        Found::Listed { target, .. } => Some(target),
        _ => None,
    }
}

/// Notes what the searches need of each file that they found. Fails only if out of memory.
pub(crate) fn note_all(
    alloc: Global,
    searches: &[Option<Search>],
    consistent: bool,
    known: &mut Known,
) -> Result<(), AllocError>
    ensures known { (names : List (List ℕ)) (holds : List ℕ → List ℕ → Bool)
        → StaysKnown names holds (is_found consistent searches.now) known.old known.new }
{
    for search in searches {
        note(alloc, search, consistent, known)?;
    }
    Ok(())
}

/// Notes what one search needs of the file that it found. Fails only if out of memory.
fn note(
    alloc: Global,
    search: &Option<Search>,
    consistent: bool,
    known: &mut Known,
) -> Result<(), AllocError>
    ensures known { (names : List (List ℕ)) (holds : List ℕ → List ℕ → Bool)
        (found : List ℕ → Bool) → HasNamesOf consistent search.now found
        → StaysKnown names holds found known.old known.new }
{
    let Some(target) = target_of(search) else {
        return Ok(());
    };
    let Some(there) = place(alloc, known, consistent, target)? else {
        return Ok(());
    };
    let need = widened(need_of(there.wanted), target);
    put(
        known,
        there.name,
        Some(Wanted {
            need,
            measure: None,
        }),
    )
}

/// Returns what has been needed of the file so far.
pub(crate) fn need_of(wanted: Option<Wanted>) -> Need
    ensures { (t : Target) → spec.is_measured wanted t ≡ true → spec.covers result t ≡ true }
{
    match wanted {
        Some(wanted) => wanted.need,
        None => NOTHING,
    }
}

/// Reads each file that a search found, unless it was read as far as it is needed. Fails if the
/// folder fails, or if out of memory.
#[tactic(auto, using(folder::proofs::Sameness::sameness))]
pub(crate) fn read_all<F: Folder>(
    alloc: Global,
    folder: &mut F,
    searches: &[Option<Search>],
    consistent: bool,
    known: &mut Known,
) -> Result<(), LoadFault>
    ensures known { (names : List (List ℕ))
        → StaysKnown names (F.gives folder.old).holds (is_found consistent searches.now)
        known.old known.new }
    ensures covered { OnOk result (All (IsCovered known.new consistent) searches.now) }
    ensures failed { IfErr result (λ e. e ≡ fault.Folder
        → HasFailed (F.gives folder.old) (F.gives folder.new)) }
    ensures same { IsSameFolder (F.gives folder.old) (F.gives folder.new) }
{
    for search in searches {
        read(alloc, folder, search, consistent, known)?;
    }
    Ok(())
}

/// Reads the file that the search found, if it found one that is there.
#[tactic(auto, using(folder::proofs::Sameness::sameness))]
fn read<F: Folder>(
    alloc: Global,
    folder: &mut F,
    search: &Option<Search>,
    consistent: bool,
    known: &mut Known,
) -> Result<(), LoadFault>
    ensures known { (names : List (List ℕ)) (found : List ℕ → Bool)
        → HasNamesOf consistent search.now found
        → StaysKnown names (F.gives folder.old).holds found known.old known.new }
    ensures covered { OnOk result (IsCovered known.new consistent search.now) }
    ensures grows { Grows known.old known.new }
    ensures failed { IfErr result (λ e. e ≡ fault.Folder
        → HasFailed (F.gives folder.old) (F.gives folder.new)) }
    ensures same { IsSameFolder (F.gives folder.old) (F.gives folder.new) }
{
    let Some(target) = target_of(search) else {
        return Ok(());
    };
    let Some(there) = place(alloc, known, consistent, target)? else {
        return Ok(());
    };
    read_file(alloc, folder, there, target, known)
}

/// Reads the file, unless it was read as far as the target needs it.
#[tactic(auto, using(folder::proofs::Sameness::sameness))]
fn read_file<F: Folder>(
    alloc: Global,
    folder: &mut F,
    there: There,
    target: &Target,
    known: &mut Known,
) -> Result<(), LoadFault>
    requires there { spec.IsThere known.old there }
    ensures known { (names : List (List ℕ)) (found : List ℕ → Bool)
        → found (string_bytes there.name) ≡ true
        → StaysKnown names (F.gives folder.old).holds found known.old known.new }
    ensures measured { OnOk result (option_map_or (λ o. spec.is_measured o target.now)
        (get_by_text known.new.files (string_bytes there.name)) false ≡ true) }
    ensures grows { Grows known.old known.new }
    ensures failed { IfErr result (λ e. e ≡ fault.Folder
        → HasFailed (F.gives folder.old) (F.gives folder.new)) }
    ensures same { IsSameFolder (F.gives folder.old) (F.gives folder.new) }
{
    let There { name, wanted } = there;
    if is_measured(wanted, target) {
        return Ok(());
    }
    let need = widened(need_of(wanted), target);
    let measure = Some(folder.measure(alloc, name.as_str(), need)?);
    put(known, name, Some(Wanted { need, measure }))?;
    Ok(())
}

/// Returns whether the file was measured as far as the target needs it.
pub(crate) fn is_measured(wanted: Option<Wanted>, target: &Target) -> bool
    ensures { result ≡ spec.is_measured wanted target.now }
{
    match wanted {
        Some(wanted) => wanted.measure.is_some() && covers(wanted.need, target),
        None => false,
    }
}
