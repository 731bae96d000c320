//! The part of a file that is read to check a target.

ghost use Rattle.std.specs.Prelude.{◌≡◌};
ghost use Rattle.measured.specs.Known as spec;

use folder::Need;
use meta::Target;

/// Nothing of the file.
pub(crate) const NOTHING: Need = Need {
    up_to: 0,
    sha256: false,
    sha512: false,
};

/// Returns whether this is enough to check the target's length and digests. It takes one byte more
/// than the listed length to see that a file is too long.
pub(crate) fn covers(need: Need, target: &Target) -> bool
    ensures { result ≡ spec.covers need target.now }
{
    let hashes = &target.hashes;
    target.length.get() < need.up_to
        && (hashes.sha256.is_none() || need.sha256)
        && (hashes.sha512.is_none() || need.sha512)
}

/// Returns what is needed for one more target.
pub(crate) fn widened(need: Need, target: &Target) -> Need
    ensures { result ≡ spec.widened need target.now }
{
    let hashes = &target.hashes;
    Need {
        up_to: need.up_to.max(target.length.get() + 1),
        sha256: need.sha256 || hashes.sha256.is_some(),
        sha512: need.sha512 || hashes.sha512.is_some(),
    }
}
