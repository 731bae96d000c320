//! The files of the steps.

ghost use Rattle.std.specs.Prelude.{◌≡◌, IfOk, Some, option_map, true};
ghost use Rattle.examine.specs.Checks.{listed_length};
ghost use Rattle.needs.specs.Needs as spec;
ghost use Rattle.needs.specs.Needs.{is_in};

use crate::need::{Need, Place, metadata_file};
use cjson::NoMemory;
use cjson::number::Length;
use cjson::text::Text;
use cycle::{End, Fault, Step, Trusted};
use examine::Listed;
use meta::names::{root_name, version_name};
use meta::{Listing, Reading, Root, Snapshot, Targets, Timestamp};
use rolechain::{LAST_VERSION, MOST_ROOTS, place_of};
use std::alloc::Global;
use std::collections::BTreeMap;

/// Returns the root after `last`, the last one that was accepted in a cycle which began with `old`,
/// if it was looked up and isn't there (TUF 1.0 section 5.3).
pub(crate) fn root_need(
    alloc: Global,
    old: &Root,
    last: &Root,
    metadata: &BTreeMap<String, Vec<u8>>,
) -> Result<Option<Need>, NoMemory>
    ensures { IfOk result (λ n. n ≡ spec.root_need (is_in metadata.now) old.now last.now) }
{
    if !is_sought(old, last) {
        return Ok(None);
    }
    let name = root_name(alloc, last.header().version.get() + 1)?;
    if metadata.contains_key(name.as_str()) {
        return Ok(None);
    }
    Ok(Some(Need {
        place: Place::Metadata,
        name: Text::new(name),
        most: Root::limit(),
        optional: true,
    }))
}

/// Returns whether the root after the last one was looked up.
fn is_sought(old: &Root, last: &Root) -> bool
    ensures { result ≡ spec.is_sought old.now last.now }
{
    let (first, version) = (old.header().version.get(), last.header().version.get());
    version < LAST_VERSION && version < first + u64::from(MOST_ROOTS)
}

/// Returns the file that the cycle stopped for, if it stopped because that isn't there.
pub(crate) fn end_need(alloc: Global, trusted: &Trusted, end: End) -> Result<Option<Need>, NoMemory>
    ensures { IfOk result (λ n. n ≡ spec.end_need trusted.now end) }
{
    match end {
        End::Stopped(step, Fault::Missing) => step_need(alloc, trusted, step),
        _ => Ok(None),
    }
}

/// Returns the file of a step.
fn step_need(alloc: Global, trusted: &Trusted, step: Step) -> Result<Option<Need>, NoMemory>
    ensures { IfOk result (λ n. n ≡ spec.step_need trusted.now step) }
{
    match step {
        Step::Root => Ok(None),
        Step::Timestamp => timestamp_need(alloc),
        Step::Snapshot => snapshot_below(alloc, trusted),
        Step::Targets => role_below(alloc, trusted, "targets"),
    }
}

fn timestamp_need(alloc: Global) -> Result<Option<Need>, NoMemory>
    ensures { IfOk result (λ n. n ≡ Some spec.timestamp_need) }
{
    let name = String::from_str(alloc, "timestamp.json")?;
    Ok(Some(metadata_file(name, Timestamp::limit())))
}

/// Returns the snapshot that the trusted timestamp lists.
fn snapshot_below(alloc: Global, trusted: &Trusted) -> Result<Option<Need>, NoMemory>
    ensures { IfOk result (λ n. n ≡ spec.step_need trusted.now Step.Snapshot) }
{
    let root = trusted.root().reading();
    match trusted.timestamp() {
        Some(part) => Ok(Some(snapshot_need(alloc, root, part.reading().snapshot())?)),
        None => Ok(None),
    }
}

fn snapshot_need(alloc: Global, root: &Root, listing: &Listing) -> Result<Need, NoMemory>
    ensures { IfOk result (λ n. n ≡ spec.snapshot_need root.now listing.now) }
{
    let version = listing.version.get();
    let name = version_name(alloc, root.consistent(), version, "snapshot.json")?;
    let most = most_bytes(Snapshot::limit(), listing.length);
    Ok(metadata_file(name, most))
}

/// Returns the role's targets file, if a snapshot is trusted.
pub(crate) fn role_below(
    alloc: Global,
    trusted: &Trusted,
    role: &str,
) -> Result<Option<Need>, NoMemory>
    ensures { IfOk result (λ n. n ≡ spec.role_below trusted.now role.now) }
{
    let root = trusted.root().reading();
    match trusted.snapshot() {
        Some(part) => Ok(Some(role_need(alloc, root, part.reading(), role)?)),
        None => Ok(None),
    }
}

/// Returns the role's targets file, as the snapshot lists it.
fn role_need(alloc: Global, root: &Root, snapshot: &Snapshot, role: &str) -> Result<Need, NoMemory>
    ensures { IfOk result (λ n. n ≡ spec.role_need root.now snapshot.now role.now) }
{
    let (listed, name) = place_of(alloc, root, snapshot, role)?;
    let most = most_bytes(Targets::limit(), length_of(listed));
    Ok(metadata_file(name, most))
}

/// Returns the listed length.
fn length_of(listed: Listed) -> Option<Length>
    ensures { result ≡ listed_length listed }
{
    match listed {
        Listed::As(listing) => listing.length,
        Listed::NotDue | Listed::Absent => None,
    }
}

/// Returns the maximum number of bytes of a file with this listed length.
fn most_bytes(limit: u64, length: Option<Length>) -> u64
    ensures { result ≡ spec.most_bytes limit length }
{
    match length {
        Some(length) => limit.min(length.get()),
        None => limit,
    }
}
