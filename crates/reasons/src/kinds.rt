//! The checks of a file of each kind, with the reason of the first that fails.

ghost use Rattle.std.specs.Prelude.{◌≡◌, option_map};
ghost use Rattle.cjson.specs.Tree.{view};
ghost use Rattle.examine.specs.Checks as checks;
ghost use Rattle.examine.specs.Checks.{expectation, file_in};
ghost use Rattle.reasons.specs.Reasons as spec;
ghost use Rattle.reasons.specs.Reasons.{Explains};

use crate::fetched::{Candidate, fetch};
use crate::order::{expiry_check, is_again, snapshot_order, timestamp_order, version_check};
use crate::reason::{Ended, Reason};
use crate::signed::{own_required, signing_by};
use cjson::Tree;
use examine::{Context, Expectation, Listed};
use meta::{Part, Root, Snapshot, Targets, Timestamp};
use signing::Signing;

/// Checks a root file that follows a trusted one (TUF 1.0 section 5.3).
pub(crate) fn root_check(
    context: &Context,
    expect: &Expectation,
    keys: &Tree,
    due: u64,
) -> Result<Part<Root>, Ended>
    ensures { Explains (spec.root_check (expectation expect.now) (view keys.now) due
        (file_in context.now.files.now)) result (λ p. p) }
{
    let found: Candidate<Root> = fetch(context, expect, keys)?;
    let root = found.part.reading();
    let own = own_required(&found.doc, root);
    let signing = signing_by(context.alloc, &found.doc, &own)?;
    root_order(due, root, signing)?;
    Ok(found.part)
}

/// Checks that a root is signed by enough of its own keys, and has the version that is due.
fn root_order(due: u64, root: &Root, signing: Signing) -> Result<(), Reason>
    ensures { result ≡ spec.root_order due root.now signing }
{
    if !signing.is_met {
        return Err(Reason::OwnUnsigned(signing));
    }
    version_check(Some(due), root.header())
}

/// Checks a timestamp file if none is trusted (TUF 1.0 section 5.4).
pub(crate) fn first_check(
    context: &Context,
    expect: &Expectation,
    keys: &Tree,
) -> Result<Part<Timestamp>, Ended>
    ensures { Explains (spec.first_check (expectation expect.now) (view keys.now)
        (file_in context.now.files.now) context.now.moment) result (λ p. p) }
{
    let found: Candidate<Timestamp> = fetch(context, expect, keys)?;
    expiry_check(found.part.reading().header(), context.moment)?;
    Ok(found.part)
}

/// Checks a timestamp file against the trusted one (TUF 1.0 section 5.4).
pub(crate) fn next_check(
    context: &Context,
    expect: &Expectation,
    keys: &Tree,
    old: &Timestamp,
) -> Result<Option<Part<Timestamp>>, Ended>
    ensures { Explains (spec.next_check (expectation expect.now) (view keys.now) old.now
        (file_in context.now.files.now) context.now.moment) result (λ p. p) }
{
    let found: Candidate<Timestamp> = fetch(context, expect, keys)?;
    let new = found.part.reading();
    if is_again(old, new) {
        return Ok(None);
    }
    timestamp_order(old, new)?;
    expiry_check(new.header(), context.moment)?;
    Ok(Some(found.part))
}

/// Checks a snapshot file (TUF 1.0 section 5.5).
pub(crate) fn snapshot_check(
    context: &Context,
    expect: &Expectation,
    keys: &Tree,
    old: Option<&Snapshot>,
) -> Result<Part<Snapshot>, Ended>
    ensures { Explains (spec.snapshot_check (expectation expect.now) (view keys.now)
        (option_map (λ s. s.now) old.entry) (file_in context.now.files.now) context.now.moment)
        result (λ p. p) }
{
    let found: Candidate<Snapshot> = fetch(context, expect, keys)?;
    let new = found.part.reading();
    version_check(listed_version(&expect.listed), new.header())?;
    snapshot_order(context.alloc, old, new)?;
    expiry_check(new.header(), context.moment)?;
    Ok(found.part)
}

/// Checks a targets file, top-level or delegated (TUF 1.0 sections 5.6 and 5.7).
pub(crate) fn targets_check(
    context: &Context,
    expect: &Expectation,
    keys: &Tree,
) -> Result<Part<Targets>, Ended>
    ensures { Explains (spec.targets_check (expectation expect.now) (view keys.now)
        (file_in context.now.files.now) context.now.moment) result (λ p. p) }
{
    let found: Candidate<Targets> = fetch(context, expect, keys)?;
    let header = found.part.reading().header();
    version_check(listed_version(&expect.listed), header)?;
    expiry_check(header, context.moment)?;
    Ok(found.part)
}

/// Returns the listed version of a file.
fn listed_version(listed: &Listed) -> Option<u64>
    ensures { result ≡ checks.listed_version listed.now }
{
    match listed {
        Listed::As(listing) => Some(listing.version.get()),
        _ => None,
    }
}
