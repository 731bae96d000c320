//! Where a refused metadata file is, and by which files it was examined.

ghost use Rattle.std.specs.Prelude.{◌≡◌, ◌+◌, IfOk, length, option_map, string_bytes};
ghost use Rattle.meta.specs.Content.{root_name};
ghost use Rattle.examine.specs.Checks.{file_in};
ghost use Rattle.rolechain.specs.Advance.{due_snapshot, reading_in};
ghost use Rattle.whys.specs.Places as spec;

use cjson::NoMemory;
use cjson::text::Text;
use examine::Context;
use meta::names::{root_name, version_name};
use meta::{Listing, Root, Snapshot, Timestamp};
use rolechain::{Step, Trusted, place_of};
use std::alloc::Global;

/// The version of a snapshot, and the number of names that it lists.
#[derive(Clone, Copy, Debug, PartialEq, Eq)]
pub(crate) struct Listings {
    pub version: u64,
    pub names: usize,
}

/// Where a refused file is, and by which files it was examined.
pub(crate) struct Place {
    /// The file's name in the repository.
    pub file: Text,
    /// Its length in bytes, if there is such a file.
    pub length: Option<u64>,
    /// The name of the file whose keys had to sign it.
    pub by: Text,
    /// What the trusted snapshot lists, if one is trusted.
    pub snapshot: Option<Listings>,
}

impl Drop for Place {
    fn drop(self) {
        let Place {
            file,
            length,
            by,
            snapshot,
        } = self;
    }
}

/// Returns the place of the file at which a step stopped a cycle, from the state that the stop
/// left. Fails only if out of memory.
pub(crate) fn stop_place(
    context: &Context,
    trusted: &Trusted,
    step: Step,
) -> Result<Place, NoMemory>
    ensures place { IfOk result (λ p. p
        ≡ spec.stop_place (file_in context.now.files.now) trusted.now step) }
{
    let name = step_name(context.alloc, trusted, step)?;
    let by = root_name(context.alloc, trusted.root_version())?;
    Ok(place_at(context, name, by, old_snapshot(trusted)))
}

/// Returns the place of a file of that name.
pub(crate) fn place_at(
    context: &Context,
    name: String,
    by: String,
    snapshot: Option<&Snapshot>,
) -> Place
    ensures place { result ≡ spec.place_of (file_in context.now.files.now) (string_bytes name)
        (string_bytes by) (option_map (λ s. s.now) snapshot.entry) }
{
    let length = length_of(context, name.as_str());
    Place {
        file: Text::new(name),
        length,
        by: Text::new(by),
        snapshot: listings_of(snapshot),
    }
}

/// Returns the length of the file of that name, if there is one.
fn length_of(context: &Context, name: &str) -> Option<u64>
    ensures { result ≡ option_map (λ bytes. length bytes)
        (file_in context.now.files.now name.now) }
{
    let bytes = context.files.get(name)?;
    Some(bytes.len() as u64)
}

fn listings_of(snapshot: Option<&Snapshot>) -> Option<Listings>
    ensures { result ≡ option_map spec.listings (option_map (λ s. s.now) snapshot.entry) }
{
    let snapshot = snapshot?;
    Some(Listings {
        version: snapshot.header().version.get(),
        names: snapshot.files().len(),
    })
}

/// Returns the contents of the trusted snapshot.
fn old_snapshot(trusted: &Trusted) -> Option<&Snapshot>
    ensures { option_map (λ s. s.now) result ≡ reading_in trusted.now.snapshot }
{
    Some(trusted.snapshot()?.reading())
}

/// Returns the contents of the trusted timestamp.
fn old_timestamp(trusted: &Trusted) -> Option<&Timestamp>
    ensures { option_map (λ t. t.now) result ≡ reading_in trusted.now.timestamp }
{
    Some(trusted.timestamp()?.reading())
}

/// Returns the name of the file that the step examines.
fn step_name(alloc: Global, trusted: &Trusted, step: Step) -> Result<String, NoMemory>
    ensures { IfOk result (λ s. string_bytes s ≡ spec.step_name trusted.now step) }
{
    match step {
        Step::Root => due_name(alloc, trusted.root().reading()),
        Step::Timestamp => Ok(String::from_str(alloc, "timestamp.json")?),
        Step::Snapshot => snapshot_name(alloc, trusted),
        Step::Targets => targets_name(alloc, trusted),
    }
}

/// Returns the name of a root's successor.
fn due_name(alloc: Global, root: &Root) -> Result<String, NoMemory>
    ensures { IfOk result (λ s. string_bytes s ≡ root_name (root.now.header.version + 1)) }
{
    Ok(root_name(alloc, root.header().version.get() + 1)?)
}

fn snapshot_name(alloc: Global, trusted: &Trusted) -> Result<String, NoMemory>
    ensures { IfOk result (λ s. string_bytes s ≡ spec.snapshot_name trusted.now) }
{
    match old_timestamp(trusted) {
        Some(timestamp) => listed_name(alloc, trusted.root().reading(), timestamp.snapshot()),
        None => Ok(String::from_str(alloc, "snapshot.json")?),
    }
}

/// Returns the name of the snapshot that a timestamp lists.
fn listed_name(alloc: Global, root: &Root, listing: &Listing) -> Result<String, NoMemory>
    ensures { IfOk result (λ s. string_bytes s ≡ (due_snapshot root.now listing.now).name) }
{
    let version = listing.version.get();
    Ok(version_name(alloc, root.consistent(), version, "snapshot.json")?)
}

fn targets_name(alloc: Global, trusted: &Trusted) -> Result<String, NoMemory>
    ensures { IfOk result (λ s. string_bytes s ≡ spec.targets_name trusted.now) }
{
    let Some(snapshot) = old_snapshot(trusted) else {
        return Ok(String::from_str(alloc, "targets.json")?);
    };
    let (_listed, name) = place_of(alloc, trusted.root().reading(), snapshot, "targets")?;
    Ok(name)
}
