//! Why the file of a role is refused.

ghost use Rattle.std.specs.Prelude.{◌≡◌, IfOk, option_map};
ghost use Rattle.examine.specs.Checks.{file_in, targets_part};
ghost use Rattle.rolechain.specs.Advance.{due_targets};
ghost use Rattle.reasons.specs.Reasons as spec;
ghost use Rattle.reasons.specs.Reasons.{Explains, fault_in, fault_of, reason_in};
ghost use Rattle.reasons.specs.Stops.{role_stop};

use crate::kinds::targets_check;
use crate::reason::{Ended, Reason, reason_of};
use cjson::NoMemory;
use examine::{Context, Expectation};
use meta::{Root, Snapshot};
use rolechain::place_of;
use signing::Required;

/// Returns why the file of a role is refused, by the keys and the threshold of the delegation that
/// a search follows (TUF 1.0 section 5.6.7), or None if it isn't. Fails only if out of memory.
pub fn why_role_refused(
    context: &Context,
    root: &Root,
    snapshot: &Snapshot,
    name: &str,
    by: &Required<'_>,
) -> Result<Option<Reason>, NoMemory>
    ensures value { IfOk result (λ o. o ≡ reason_in (role_stop (file_in context.now.files.now)
        context.now.moment root.now snapshot.now name.now (spec.by by.now))) }

    // There is a reason exactly if the workflow has a fault, and it is of that fault.
    ensures fault { IfOk result (λ o. option_map fault_of o ≡ fault_in (targets_part
        (due_targets root.now snapshot.now name.now by.now.ring.now by.now.role.now)
        (file_in context.now.files.now) context.now.moment)) }
{
    reason_of(role_check(context, root, snapshot, name, by))
}

fn role_check(
    context: &Context,
    root: &Root,
    snapshot: &Snapshot,
    name: &str,
    by: &Required<'_>,
) -> Result<(), Ended>
    ensures { Explains (role_stop (file_in context.now.files.now) context.now.moment root.now
        snapshot.now name.now (spec.by by.now)) result (λ x. x) }
{
    let (listed, name) = place_of(context.alloc, root, snapshot, name)?;
    let expect = Expectation {
        name: name.as_str(),
        listed,
        ring: by.ring,
        role: by.role,
    };
    let _part = targets_check(context, &expect, by.keys)?;
    Ok(())
}
