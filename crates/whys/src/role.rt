//! The lines of why the file of a role is refused.

ghost use Rattle.std.specs.Prelude.{◌≡◌, IfOk, string_bytes};
ghost use Rattle.examine.specs.Checks.{file_in};
ghost use Rattle.reasons.specs.Reasons.{by};
ghost use Rattle.whys.specs.Places.{role_place};
ghost use Rattle.whys.specs.Whys as spec;

use crate::lines::lines_of;
use crate::place::{Place, place_at};
use cjson::NoMemory;
use examine::Context;
use meta::{Root, Snapshot};
use reasons::why_role_refused;
use rolechain::place_of;
use signing::Required;

/// The file that delegates to a role.
#[derive(Clone, Copy)]
pub struct Delegator<'a> {
    /// The file's name in the repository.
    pub file: &'a str,
    /// The keys of the delegation.
    pub by: Required<'a>,
}

/// Returns the lines of why the file of a role is refused, by the delegation that a search follows
/// (TUF 1.0 section 5.6.7), and no line if it isn't. Fails only if out of memory.
pub fn role_lines(
    context: &Context,
    root: &Root,
    snapshot: &Snapshot,
    name: &str,
    delegator: &Delegator<'_>,
) -> Result<String, NoMemory>
    ensures lines { let d = delegator.now in IfOk result (λ text. string_bytes text
        ≡ spec.role_text (file_in context.now.files.now) context.now.moment root.now snapshot.now
        name.now (by d.by) d.file.now) }

    // They are those of a reason of the workflow's fault, if there is one.
    ensures fault { let d = delegator.now in IfOk result (λ text. spec.IsRoleWhy
        (file_in context.now.files.now) context.now.moment root.now snapshot.now name.now
        (by d.by) d.file.now (string_bytes text)) }
{
    let reason = why_role_refused(context, root, snapshot, name, &delegator.by)?;
    let place = role_place(context, root, snapshot, name, delegator)?;
    lines_of(context.alloc, &place, &reason)
}

fn role_place(
    context: &Context,
    root: &Root,
    snapshot: &Snapshot,
    name: &str,
    delegator: &Delegator<'_>,
) -> Result<Place, NoMemory>
    ensures { let d = delegator.now in IfOk result (λ p. p ≡ role_place
        (file_in context.now.files.now) root.now snapshot.now name.now (by d.by) d.file.now) }
{
    let (_listed, file) = place_of(context.alloc, root, snapshot, name)?;
    let by = String::from_str(context.alloc, delegator.file)?;
    Ok(place_at(context, file, by, Some(snapshot)))
}
