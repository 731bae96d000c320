//! The delegations that are followed for the wanted paths, and the digests of the wanted targets.

use crate::reading::{Ahead, ListedAt, RoleFile, Scope, last_root};
use cjson::NoMemory;
use cjson::text::Text;
use deleg::{Edge, edge_at};
use examine::target_file;
use keys::Algorithm;
use meta::Target;
use std::alloc::Global;

/// Maximum length in bytes of a target that is digested in advance. A worker stops between checks
/// only, so a run waits at most for the digest of this many bytes.
const MOST_DIGESTED: u64 = 16_000_000;

/// Returns the delegations of a file that are followed.
pub(crate) fn edges_in<'a>(alloc: Global, file: &'a RoleFile) -> Result<Vec<Edge<'a>>, NoMemory> {
    let mut edges = Vec::new(alloc);
    for (place, bin) in file.followed.iter() {
        if let Some(edge) = edge_at(&file.targets, bin.as_str(), *place) {
            edges.push(edge)?;
        }
    }
    Ok(edges)
}

/// A listed digest of a wanted target, and the bytes of the target's file.
pub(crate) struct Digest<'a> {
    /// The target's path.
    pub file: Text,
    /// The algorithm of the digest.
    pub algorithm: Algorithm,
    /// The bytes of the target's file.
    pub bytes: &'a [u8],
    /// The listed digest, as bytes.
    pub digest: Vec<u8>,
}

impl<'a> Drop for Digest<'a> {
    fn drop(self) {
        let Digest {
            file,
            algorithm,
            bytes,
            digest,
        } = self;
    }
}

/// Returns the listed digests of the wanted targets whose files are there with the listed length,
/// up to 16,000,000 bytes each. Stops once there are `scope.most`. Fails only if out of memory.
pub(crate) fn digests<'a>(scope: &Scope<'a>, ahead: &Ahead) -> Result<Vec<Digest<'a>>, NoMemory> {
    let consistent = last_root(scope.trusted, ahead.roots.as_slice()).consistent();
    let mut found = Vec::new(scope.alloc);
    for listed in ahead.roles.listed.iter() {
        if found.len() >= scope.most {
            break;
        }
        if let Some(target) = target_at(ahead, listed) {
            add_digests(scope, consistent, target, &mut found)?;
        }
    }
    Ok(found)
}

fn target_at<'b>(ahead: &'b Ahead, listed: &ListedAt) -> Option<&'b Target> {
    let file = ahead.roles.files.get(listed.file)?;
    file.targets.targets().get(listed.target)
}

fn add_digests<'a>(
    scope: &Scope<'a>,
    consistent: bool,
    target: &Target,
    found: &mut Vec<Digest<'a>>,
) -> Result<(), NoMemory> {
    let alloc = scope.alloc;
    if target.length.get() > MOST_DIGESTED {
        return Ok(());
    }
    let Some(bytes) = target_file(alloc, &scope.repo.targets, consistent, target)? else {
        return Ok(());
    };
    if target.length.get() != bytes.len() as u64 {
        return Ok(());
    }
    if let Some(digest) = &target.hashes.sha256 {
        found.push(digest_of(alloc, target, Algorithm::Sha256, bytes, digest)?)?;
    }
    if let Some(digest) = &target.hashes.sha512 {
        found.push(digest_of(alloc, target, Algorithm::Sha512, bytes, digest)?)?;
    }
    Ok(())
}

fn digest_of<'a>(
    alloc: Global,
    target: &Target,
    algorithm: Algorithm,
    bytes: &'a [u8],
    digest: &[u8],
) -> Result<Digest<'a>, NoMemory> {
    Ok(Digest {
        file: Text::new(String::from_str(alloc, target.path.as_str())?),
        algorithm,
        bytes,
        digest: Vec::from_slice(alloc, digest)?,
    })
}
