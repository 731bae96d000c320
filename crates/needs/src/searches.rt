//! The files of the searches.

ghost use Rattle.std.specs.Prelude.{◌≡◌, IfOk, map, string_bytes};
ghost use Rattle.examine.specs.Checks.{target_names};
ghost use Rattle.needs.specs.Needs as spec;
ghost use Rattle.needs.specs.Needs.{is_in};

use crate::need::{Need, Place};
use crate::steps::role_below;
use cjson::NoMemory;
use cjson::text::Text;
use cycle::{Fault, Found, Search, Target, Trusted};
use meta::names::digest_name;
use std::alloc::{AllocError, Global};
use std::collections::BTreeMap;

/// Returns the file of the role that the search was refused, if it was because that isn't there.
pub(crate) fn search_need(
    alloc: Global,
    trusted: &Trusted,
    search: &Option<Search>,
) -> Result<Option<Need>, NoMemory>
    ensures { IfOk result (λ n. n ≡ spec.search_need trusted.now search.now) }
{
    match search {
        Some(search) => found_need(alloc, trusted, &search.found),
        None => Ok(None),
    }
}

fn found_need(alloc: Global, trusted: &Trusted, found: &Found) -> Result<Option<Need>, NoMemory>
    ensures { IfOk result (λ n. n ≡ spec.found_need trusted.now found.now) }
{
    match found {
        Found::RoleRefused {
            role,
            fault: Fault::Missing,
        } => role_below(alloc, trusted, role.as_str()),
        _ => Ok(None),
    }
}

/// Returns the names under which the file of the target that the search found isn't there.
pub(crate) fn file_needs<V>(
    alloc: Global,
    consistent: bool,
    search: &Option<Search>,
    targets: &BTreeMap<String, V>,
) -> Result<Vec<Need>, NoMemory>
    ensures { IfOk result (λ all. all.items
        ≡ spec.file_needs (is_in targets.now) consistent search.now) }
{
    match search {
        Some(
            Search {
                found: Found::Listed { target, .. },
                ..
            },
        ) => target_need(alloc, consistent, target, targets),
        _ => Ok(Vec::new(alloc)),
    }
}

/// Returns the target's names, up to one that is there.
fn target_need<V>(
    alloc: Global,
    consistent: bool,
    target: &Target,
    targets: &BTreeMap<String, V>,
) -> Result<Vec<Need>, NoMemory>
    ensures { IfOk result (λ all. all.items
        ≡ spec.target_need (is_in targets.now) consistent target.now) }
{
    let names = names_of(alloc, consistent, target)?;
    name_needs(alloc, names.as_slice(), target.length.get(), targets)
}

/// Returns the names up to one that is there, each optional but the last (TUF 1.0 section 5.7).
fn name_needs<V>(
    alloc: Global,
    names: &[String],
    most: u64,
    targets: &BTreeMap<String, V>,
) -> Result<Vec<Need>, NoMemory>
    ensures { IfOk result (λ all. all.items
        ≡ spec.name_needs (is_in targets.now) most (map string_bytes names.now)) }
{
    let mut needs = Vec::new(alloc);
    let mut left = names.len();
    for name in names {
        if targets.contains_key(name.as_str()) {
            return Ok(needs);
        }
        left -= 1;
        needs.push(Need {
            place: Place::Targets,
            name: Text::new(String::from_str(alloc, name.as_str())?),
            most,
            optional: left > 0,
        })?;
    }
    Ok(needs)
}

/// Returns the names under which the target's file may lie: its path, or under consistent snapshots
/// the names under its sha256 and its sha512 digest, each if it is listed (TUF 1.0 section 5.7).
fn names_of(alloc: Global, consistent: bool, target: &Target) -> Result<Vec<String>, AllocError>
    ensures { IfOk result (λ names. map string_bytes names.items ≡ target_names consistent
        target.now.path target.now.hashes.sha256 target.now.hashes.sha512) }
{
    let path = target.path.as_str();
    let mut names = Vec::new(alloc);
    if !consistent {
        names.push(String::from_str(alloc, path)?)?;
        return Ok(names);
    }
    if let Some(digest) = &target.hashes.sha256 {
        names.push(digest_name(alloc, digest, path)?)?;
    }
    if let Some(digest) = &target.hashes.sha512 {
        names.push(digest_name(alloc, digest, path)?)?;
    }
    Ok(names)
}
