//! The checks of versions, rollback and expiry.

ghost use Rattle.std.specs.Prelude.{◌≡◌, ◌≤◌, ◌<◌, length, false, is_none, IfSome, position};
ghost use Rattle.std.specs.Prelude.{option_map};
ghost use Rattle.std.specs.Option.{option_map_or};
ghost use Rattle.examine.specs.Checks as spec;

use meta::{Header, Named, Snapshot, Timestamp};
use moment::Moment;

/// Returns whether the file has another version than `due`, if there is one.
pub(crate) fn is_version_wrong(due: Option<u64>, header: &Header) -> bool
    ensures { result ≡ spec.is_version_wrong due header.now }
{
    due.is_some_and(|due| due != header.version.get())
}

/// Returns whether the file expires no later than the moment (TUF 1.0 section 5).
pub fn is_expired(header: &Header, now: Moment) -> bool
    ensures test { result ≡ spec.is_expired header.now now }
{
    !now.is_before(header.expires)
}

/// Returns whether the timestamp has the version of the trusted one.
pub(crate) fn is_again(old: &Timestamp, new: &Timestamp) -> bool
    ensures { result ≡ spec.is_again old.now new.now }
{
    new.header().version.get() == old.header().version.get()
}

/// Returns whether the timestamp, or the snapshot that it lists, has a lower version than before.
pub(crate) fn is_earlier(old: &Timestamp, new: &Timestamp) -> bool
    ensures { result ≡ spec.is_earlier old.now new.now }
{
    new.header().version.get() < old.header().version.get()
        || new.snapshot().version.get() < old.snapshot().version.get()
}

/// Returns whether the snapshot leaves out a name of the trusted one, or lowers its version.
pub(crate) fn falls_short(old: Option<&Snapshot>, new: &Snapshot) -> bool
    ensures { result ≡ option_map_or (λ s. spec.lists_less s new.now)
        (option_map (λ s. s.now) old.entry) false }
{
    old.is_some_and(|old| lists_less(old, new))
}

/// Returns whether the new snapshot leaves out a name of the old one, or lowers its version. Both
/// list their files in byte order of their names, so what keeps a file is close after what keeps
/// the file before it, and each name of the new snapshot is passed once.
fn lists_less(old: &Snapshot, new: &Snapshot) -> bool
    ensures { result ≡ spec.lists_less old.now new.now }
{
    let files = new.files();
    let mut from = 0;
    for named in old.files() {
        let Some(place) = place_kept(files, from, named) else {
            return true;
        };
        from = place;
    }
    false
}

/// Returns the place of a file that has the name of `old` and no lower version (TUF 1.0 section
/// 5.5.5): the first from `from` on, or else the first before it.
#[tactic(auto, using(crate::proofs::Places::within))]
pub fn place_kept(files: &[Named], from: usize, old: &Named) -> Option<usize>
    requires { from ≤ length files.now }
    ensures none { is_none result ≡ spec.is_listed_below files.now old.now }
    ensures within { IfSome result (λ p. p < length files.now) }
{
    let (before, after) = files.split_at(from);
    match first_kept(after, old) {
        Some(place) => Some(from + place),
        None => first_kept(before, old),
    }
}

/// Returns the first place of what keeps the file.
fn first_kept(files: &[Named], old: &Named) -> Option<usize>
    ensures { result ≡ position (spec.is_kept_by old.now) files.now }
{
    files.iter().position(|new| is_kept_by(old, new))
}

/// Returns whether `new` has the same name and no lower version.
fn is_kept_by(old: &Named, new: &Named) -> bool
    ensures { result ≡ spec.is_kept_by old.now new.now }
{
    new.name.as_str() == old.name.as_str() && old.listing.version.get() <= new.listing.version.get()
}
