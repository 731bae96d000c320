//! What is expected of each file of the workflow.

ghost use Rattle.std.specs.Prelude.{◌≡◌, ◌+◌, IfOk, codes, string_bytes};
ghost use Rattle.meta.specs.Content.{root_name, versioned as due_name};
ghost use Rattle.examine.specs.Checks.{expectation};
ghost use Rattle.rolechain.specs.Advance as spec;

use examine::{Expectation, Listed};
use meta::names::{role_name, version_name};
use meta::{Listing, Root, Snapshot};
use std::alloc::{AllocError, Global};

/// Returns what is expected of the root that follows (TUF 1.0 section 5.3).
pub fn due_root<'a>(root: &'a Root, name: &'a str) -> Expectation<'a>
    requires { name.now ≡ root_name (root.now.header.version + 1) }
    ensures { expectation result ≡ spec.due_root root.now }
{
    Expectation {
        name,
        listed: Listed::NotDue,
        ring: root.ring(),
        role: root.root(),
    }
}

/// Returns what is expected of the timestamp (TUF 1.0 section 5.4).
pub fn due_timestamp(root: &Root) -> Expectation<'_>
    ensures { expectation result ≡ spec.due_timestamp root.now }
{
    Expectation {
        name: "timestamp.json",
        listed: Listed::NotDue,
        ring: root.ring(),
        role: root.timestamp(),
    }
}

/// Returns what is expected of the snapshot with this listing (TUF 1.0 section 5.5).
pub fn due_snapshot<'a>(root: &'a Root, listing: &Listing, name: &'a str) -> Expectation<'a>
    requires { name.now
        ≡ due_name root.now.consistent listing.now.version (codes "snapshot.json") }
    ensures { expectation result ≡ spec.due_snapshot root.now listing.now }
{
    Expectation {
        name,
        listed: Listed::As(*listing),
        ring: root.ring(),
        role: root.snapshot(),
    }
}

/// Returns the listing of a role's targets file in the snapshot, and the name of the file. If it is
/// listed and the root requires consistent snapshots, the name begins with the listed version (TUF
/// 1.0 sections 5.6 and 5.6.7). Fails only if out of memory.
pub fn place_of(
    alloc: Global,
    root: &Root,
    snapshot: &Snapshot,
    role: &str,
) -> Result<(Listed, String), AllocError>
    ensures listed { IfOk result (λ p. p.0 ≡ spec.listing_of role.now snapshot.now) }
    ensures name { IfOk result (λ p. string_bytes p.1
        ≡ spec.file_name root.now role.now (spec.listing_of role.now snapshot.now)) }
{
    let plain = role_name(alloc, role)?;
    match snapshot.find(plain.as_str()) {
        Some(named) => {
            let version = named.listing.version.get();
            let name = version_name(alloc, root.consistent(), version, plain.as_str())?;
            Ok((Listed::As(named.listing), name))
        }
        None => Ok((Listed::Absent, plain)),
    }
}
