//! The checks of versions, rollback and expiry.

ghost use Rattle.std.specs.Prelude.{◌≡◌, ◌≤◌, IfOk, OnOk, fold, length, option_map};
ghost use Rattle.examine.specs.Checks as checks;
ghost use Rattle.reasons.specs.Reasons as spec;
ghost use Rattle.reasons.specs.Reasons.{Explains};

use crate::reason::{Below, Ended, NameFall, Reason, TimestampFall};
use cjson::NoMemory;
use cjson::list::Items;
use cjson::text::Text;
use examine::{is_expired, place_kept};
use meta::{Header, Named, Snapshot, Timestamp};
use moment::Moment;
use std::alloc::Global;

/// Checks that the file has the version that is due, if one is.
pub(crate) fn version_check(due: Option<u64>, header: &Header) -> Result<(), Reason>
    ensures { result ≡ spec.version_check due header.now }
{
    let Some(due) = due else {
        return Ok(());
    };
    if due != header.version.get() {
        return Err(Reason::VersionWrong(header.version.get(), due));
    }
    Ok(())
}

/// Checks that the file isn't expired.
pub(crate) fn expiry_check(header: &Header, now: Moment) -> Result<(), Reason>
    ensures { result ≡ spec.expiry_check header.now now }
{
    if is_expired(header, now) {
        return Err(Reason::Expired(header.expires, now));
    }
    Ok(())
}

/// Checks that a trusted file isn't expired.
pub(crate) fn trusted_check(header: &Header, now: Moment) -> Result<(), Reason>
    ensures { result ≡ spec.trusted_check header.now now }
{
    if is_expired(header, now) {
        return Err(Reason::TrustedExpired(header.expires, now));
    }
    Ok(())
}

/// Returns whether the timestamp has the version of the trusted one.
pub(crate) fn is_again(old: &Timestamp, new: &Timestamp) -> bool
    ensures { result ≡ checks.is_again old.now new.now }
{
    new.header().version.get() == old.header().version.get()
}

/// Checks that the timestamp doesn't fall below the trusted one.
pub(crate) fn timestamp_order(old: &Timestamp, new: &Timestamp) -> Result<(), Reason>
    ensures { result ≡ spec.timestamp_order old.now new.now }
{
    let fall = timestamp_fall(old, new);
    if has_fall(&fall) {
        return Err(Reason::TimestampFell(fall));
    }
    Ok(())
}

fn timestamp_fall(old: &Timestamp, new: &Timestamp) -> TimestampFall
    ensures { result ≡ spec.timestamp_fall old.now new.now }
{
    TimestampFall {
        version: below(new.header().version.get(), old.header().version.get()),
        snapshot: below(new.snapshot().version.get(), old.snapshot().version.get()),
    }
}

fn has_fall(fall: &TimestampFall) -> bool
    ensures { result ≡ spec.has_fall fall.now }
{
    fall.version.is_some() || fall.snapshot.is_some()
}

fn below(found: u64, trusted: u64) -> Option<Below>
    ensures { result ≡ spec.below found trusted }
{
    if found < trusted {
        Some(Below { found, trusted })
    } else {
        None
    }
}

/// Checks that the snapshot lists each name of the trusted one, if there is one, in no lower
/// version.
pub(crate) fn snapshot_order(
    alloc: Global,
    old: Option<&Snapshot>,
    new: &Snapshot,
) -> Result<(), Ended>
    ensures { Explains (spec.snapshot_order (option_map (λ s. s.now) old.entry) new.now) result
        (λ x. x) }
{
    let Some(old) = old else {
        return Ok(());
    };
    if lists_less(old, new) {
        let falls = name_falls(alloc, old, new)?;
        return Err(Ended::Refused(Reason::SnapshotFell(Items::new(falls))));
    }
    Ok(())
}

/// Returns whether the snapshot leaves out a name of the trusted one, or lowers its version. Both
/// list their names in byte order, so each name of the new one is passed once.
fn lists_less(old: &Snapshot, new: &Snapshot) -> bool
    ensures { result ≡ checks.lists_less old.now new.now }
{
    let files = new.files();
    let mut from = 0;
    for named in old.files() {
        let Some(place) = place_kept(files, from, named) else {
            return true;
        };
        from = place;
    }
    false
}

/// Returns the trusted names that are missing or have a lower version. Looks up each by its name.
fn name_falls(alloc: Global, old: &Snapshot, new: &Snapshot) -> Result<Vec<NameFall>, NoMemory>
    ensures { IfOk result (λ fs. fs.items ≡ spec.name_falls old.now new.now) }
{
    let mut falls = Vec::new(alloc);
    add_falls(alloc, &mut falls, new, old.files())?;
    Ok(falls)
}

fn add_falls(
    alloc: Global,
    all: &mut Vec<NameFall>,
    new: &Snapshot,
    names: &[Named],
) -> Result<(), NoMemory>
    ensures { OnOk result (all.new.items
        ≡ fold (spec.with_fall new.now.files) all.old.items names.now) }
{
    for named in names {
        add_fall(alloc, all, new, named)?;
    }
    Ok(())
}

fn add_fall(
    alloc: Global,
    all: &mut Vec<NameFall>,
    new: &Snapshot,
    named: &Named,
) -> Result<(), NoMemory>
    ensures { OnOk result (all.new.items
        ≡ spec.with_fall new.now.files all.old.items named.now) }
{
    let found = version_of(new, named.name.as_str());
    if is_fallen(found, named.listing.version.get()) {
        all.push(name_fall(alloc, found, named)?)?;
    }
    Ok(())
}

/// Returns the version of the first file of that name.
fn version_of(snapshot: &Snapshot, name: &str) -> Option<u64>
    ensures { result ≡ spec.version_of snapshot.now.files name.now }
{
    let named = snapshot.find(name)?;
    Some(named.listing.version.get())
}

fn is_fallen(found: Option<u64>, trusted: u64) -> bool
    ensures { result ≡ spec.is_fallen found trusted }
{
    match found {
        Some(version) => version < trusted,
        None => true,
    }
}

fn name_fall(alloc: Global, found: Option<u64>, old: &Named) -> Result<NameFall, NoMemory>
    ensures { IfOk result (λ f. f ≡ record {
      name = old.now.name;
      trusted = old.now.listing.version;
      found = found;
    }) }
{
    Ok(NameFall {
        name: Text::new(String::from_str(alloc, old.name.as_str())?),
        trusted: old.listing.version.get(),
        found,
    })
}
