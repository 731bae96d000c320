//! Rotation of the keys of timestamp and snapshot.

ghost use Rattle.std.specs.Prelude.{◌≡◌, bytes_eq};
ghost use Rattle.std.specs.List.{list_any};
ghost use Rattle.rolechain.specs.Advance as spec;

use cjson::text::Text;
use keys::RoleKeys;
use meta::Root;

/// Returns whether the new root lists different keys for the timestamp or the snapshot (TUF 1.0
/// section 5.3).
pub(crate) fn is_rotated(old: &Root, new: &Root) -> bool
    ensures { result ≡ spec.is_rotated old.now new.now }
{
    has_other_ids(old.timestamp(), new.timestamp()) || has_other_ids(old.snapshot(), new.snapshot())
}

fn has_other_ids(old: &RoleKeys, new: &RoleKeys) -> bool
    ensures { result ≡ spec.has_other_ids old.now new.now }
{
    let (old, new) = (old.ids.as_slice(), new.ids.as_slice());
    !(are_among(old, new) && are_among(new, old))
}

fn are_among(ids: &[Text], others: &[Text]) -> bool
    ensures { result ≡ spec.are_among ids.now others.now }
{
    ids.iter().all(|id| is_among(id, others))
}

fn is_among(id: &Text, others: &[Text]) -> bool
    ensures { result ≡ list_any (bytes_eq id.now) others.now }
{
    others.iter().any(|other| id.as_str() == other.as_str())
}
