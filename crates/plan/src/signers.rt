//! The keys that must sign the files that were read.

use crate::reading::{Ahead, ReadFile, RoleFile, RoleFiles, Scope, last_root};
use crate::wanted::edges_in;
use cjson::NoMemory;
use keys::{KeyRing, RoleKeys};
use meta::Root;
use rolechain::Trusted;
use std::alloc::Global;

/// Maximum number of key ids that are looked up for all documents.
const MOST_IDS: usize = 262_144;

/// The keys that must sign a document, as one role lists them.
#[derive(Clone, Copy)]
pub(crate) struct Signers<'a> {
    /// The number of the document.
    pub document: usize,
    /// The keys of the file that lists the role.
    pub ring: &'a KeyRing,
    /// The listed key ids, and the threshold.
    pub role: &'a RoleKeys,
}

/// Returns the keys that must sign the files that were read: a root by those of the root before it
/// and by its own, the other top-level files by the last root's, and a delegated role by those of
/// each delegation that is followed to it. Leaves out the last ones if they list more than 262,144
/// ids together. Fails only if out of memory.
pub(crate) fn signers_of<'b>(
    scope: &Scope<'b>,
    ahead: &'b Ahead,
) -> Result<Vec<Signers<'b>>, NoMemory> {
    let mut all = Vec::new(scope.alloc);
    add_roots(scope.trusted, ahead.roots.as_slice(), &mut all)?;
    add_top(
        last_root(scope.trusted, ahead.roots.as_slice()),
        ahead,
        &mut all,
    )?;
    for file in ahead.roles.files.iter() {
        if all.len() >= scope.most {
            break;
        }
        add_delegated(scope.alloc, file, &ahead.roles, &mut all)?;
    }
    let count = count_within(all.as_slice());
    all.truncate(count);
    Ok(all)
}

/// Returns how many of the first signers list no more ids together than may be looked up.
fn count_within(all: &[Signers]) -> usize {
    let mut ids: usize = 0;
    for (place, signers) in all.iter().enumerate() {
        ids = ids.saturating_add(signers.role.ids.as_slice().len());
        if ids > MOST_IDS {
            return place;
        }
    }
    all.len()
}

/// Adds for each root the keys of the root before it, and its own.
fn add_roots<'b>(
    trusted: &'b Trusted,
    roots: &'b [ReadFile<Root>],
    all: &mut Vec<Signers<'b>>,
) -> Result<(), NoMemory> {
    let mut before = trusted.root().reading();
    for root in roots {
        all.push(Signers {
            document: root.document,
            ring: before.ring(),
            role: before.root(),
        })?;
        all.push(Signers {
            document: root.document,
            ring: root.reading.ring(),
            role: root.reading.root(),
        })?;
        before = &root.reading;
    }
    Ok(())
}

/// Adds the last root's keys for the timestamp, the snapshot and the top-level targets file.
fn add_top<'b>(
    root: &'b Root,
    ahead: &'b Ahead,
    all: &mut Vec<Signers<'b>>,
) -> Result<(), NoMemory> {
    let timestamp = ahead.timestamp.as_ref().map(|file| file.document);
    let snapshot = ahead.snapshot.as_ref().map(|file| file.document);
    let top = ahead.roles.files.first().map(|file| file.document);
    let rows = [
        (timestamp, root.timestamp()),
        (snapshot, root.snapshot()),
        (top, root.targets()),
    ];
    for (document, role) in rows {
        if let Some(document) = document {
            all.push(Signers {
                document,
                ring: root.ring(),
                role,
            })?;
        }
    }
    Ok(())
}

/// Adds the keys of the file's followed delegations that lead to files that were read, but for
/// those to the top-level role.
fn add_delegated<'b>(
    alloc: Global,
    file: &'b RoleFile,
    roles: &'b RoleFiles,
    all: &mut Vec<Signers<'b>>,
) -> Result<(), NoMemory> {
    for edge in edges_in(alloc, file)? {
        if edge.name == "targets" {
            continue;
        }
        if let Some(document) = document_of(roles, edge.name) {
            all.push(Signers {
                document,
                ring: edge.ring,
                role: edge.keys,
            })?;
        }
    }
    Ok(())
}

/// Returns the document of a role's file, if it was read.
fn document_of(roles: &RoleFiles, role: &str) -> Option<usize> {
    let place = (*roles.places.get(role)?)?;
    Some(roles.files.get(place)?.document)
}
