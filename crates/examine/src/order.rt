//! The order of the last checks of a file.

ghost use Rattle.std.specs.Prelude.{◌≡◌};
ghost use Rattle.examine.specs.Checks as spec;

use crate::timing::{is_expired, is_version_wrong};
use meta::{Fault, Header, refuse_if};
use moment::Moment;

/// Checks a file that is signed as expected: its version, if one is due, whether it falls below
/// what is trusted, and expiry. These are checks 8 to 10.
pub(crate) fn check_order(
    due: Option<u64>,
    is_below: bool,
    header: &Header,
    now: Moment,
) -> Result<(), Fault>
    ensures { result ≡ spec.in_order due is_below header.now now }
{
    refuse_if(is_version_wrong(due, header), Fault::VersionWrong)?;
    refuse_if(is_below, Fault::Rollback)?;
    refuse_if(is_expired(header, now), Fault::Expired)
}
