//! The examination of a role's targets file.

ghost use Rattle.meta.specs.Content.{Answers};
ghost use Rattle.examine.specs.Checks.{file_in, targets_part};
ghost use Rattle.rolechain.specs.Advance.{due_targets};

use crate::expected::place_of;
use examine::{Context, Expectation, examine_targets};
use keys::{Judge, KeyRing, RoleKeys};
use meta::{Part, Root, Snapshot, Stop, Targets};

/// A role with a targets file, as the file that delegates to it has it.
#[derive(Clone, Copy)]
pub struct Role<'a> {
    /// The name of the role.
    pub name: &'a str,
    /// The keys of the file that delegates to it.
    pub ring: &'a KeyRing,
    /// Which of the keys must sign the role's file, and how many.
    pub keys: &'a RoleKeys,
}

/// Examines the targets file of a role, top-level or delegated (TUF 1.0 sections 5.6 and 5.6.7).
/// The snapshot must list it. Fails with the first fault, or if out of memory.
pub fn examine_role<J: Judge>(
    context: &Context,
    root: &Root,
    snapshot: &Snapshot,
    role: Role<'_>,
    judge: &mut J,
) -> Result<Part<Targets>, Stop>
    ensures answer { let r = role.entry in Answers (targets_part
        (due_targets root.now snapshot.now r.name.now r.ring.now r.keys.now)
        (file_in context.now.files.now) context.now.moment) result (λ p. p) }
{
    let (listed, name) = place_of(context.alloc, root, snapshot, role.name)?;
    let expect = Expectation {
        name: name.as_str(),
        listed,
        ring: role.ring,
        role: role.keys,
    };
    examine_targets(context, &expect, judge)
}
