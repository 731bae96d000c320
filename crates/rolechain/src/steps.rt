//! The steps after the roots: timestamp, snapshot and top-level targets.

ghost use Rattle.std.specs.Prelude.{◌≡◌, Ok, option_map};
ghost use Rattle.meta.specs.Content.{Answers};
ghost use Rattle.examine.specs.Checks.{file_in};
ghost use Rattle.rolechain.specs.Advance as spec;
ghost use Rattle.rolechain.specs.Advance.{Leaves};

use crate::end::{Halt, Step, or_halt};
use crate::expected::{due_snapshot, due_timestamp};
use crate::role::{Role, examine_role};
use crate::state::Trusted;
use examine::{
    Context, examine_first_timestamp, examine_next_timestamp, examine_snapshot, is_expired,
};
use keys::Judge;
use meta::names::version_name;
use meta::{Fault, Part, Root, Snapshot, Stop, Targets, Timestamp};

/// Updates the timestamp (TUF 1.0 section 5.4).
pub(crate) fn timestamp_step<J: Judge>(
    context: &Context,
    state: &mut Trusted,
    judge: &mut J,
) -> Result<(), Halt>
    ensures { Leaves
        (spec.timestamp_step (file_in context.now.files.now) context.now.moment state.old)
        result state.new }
{
    let newer = or_halt(Step::Timestamp, newer_timestamp(context, state, judge))?;
    if let Some(part) = newer {
        state.timestamp = Some(part);
    }
    Ok(())
}

/// Updates the snapshot (TUF 1.0 section 5.5).
pub(crate) fn snapshot_step<J: Judge>(
    context: &Context,
    state: &mut Trusted,
    judge: &mut J,
) -> Result<(), Halt>
    ensures { Leaves
        (spec.snapshot_step (file_in context.now.files.now) context.now.moment state.old)
        result state.new }
{
    let part = or_halt(Step::Snapshot, listed_snapshot(context, state, judge))?;
    state.snapshot = Some(part);
    Ok(())
}

/// Updates the top-level targets file (TUF 1.0 section 5.6).
pub(crate) fn targets_step<J: Judge>(
    context: &Context,
    state: &mut Trusted,
    judge: &mut J,
) -> Result<(), Halt>
    ensures { Leaves
        (spec.targets_step (file_in context.now.files.now) context.now.moment state.old)
        result state.new }
{
    let part = or_halt(Step::Targets, listed_targets(context, state, judge))?;
    state.targets = Some(part);
    Ok(())
}

/// Returns the timestamp that is trusted next. Returns None if the trusted one stays, since its
/// version is the same; it must not be expired then.
fn newer_timestamp<J: Judge>(
    context: &Context,
    state: &Trusted,
    judge: &mut J,
) -> Result<Option<Part<Timestamp>>, Stop>
    ensures { Answers (spec.newer_timestamp (file_in context.now.files.now) context.now.moment
        state.now.root.reading state.now.timestamp) result (λ p. p) }
{
    let expect = due_timestamp(state.root().reading());
    let Some(old) = state.timestamp() else {
        return Ok(Some(examine_first_timestamp(context, &expect, judge)?));
    };
    let newer = examine_next_timestamp(context, &expect, old.reading(), judge)?;
    if newer.is_none() && is_expired(old.reading().header(), context.moment) {
        return Err(Stop::Refused(Fault::Expired));
    }
    Ok(newer)
}

/// Returns the snapshot that the trusted timestamp lists.
fn listed_snapshot<J: Judge>(
    context: &Context,
    state: &Trusted,
    judge: &mut J,
) -> Result<Part<Snapshot>, Stop>
    ensures { Answers (spec.listed_snapshot (file_in context.now.files.now) context.now.moment
        state.now) result (λ p. p) }
{
    let root = state.root().reading();
    let timestamp = state.timestamp().ok_or(Fault::NotListed)?;
    let listing = timestamp.reading().snapshot();
    let version = listing.version.get();
    let name = version_name(context.alloc, root.consistent(), version, "snapshot.json")?;
    let expect = due_snapshot(root, listing, name.as_str());
    let old = old_snapshot(state);
    examine_snapshot(context, &expect, old, judge)
}

/// Returns the contents of the trusted snapshot.
fn old_snapshot(state: &Trusted) -> Option<&Snapshot>
    ensures { option_map (λ s. s.now) result ≡ spec.reading_in state.now.snapshot }
{
    Some(state.snapshot()?.reading())
}

/// Returns the targets file that the trusted snapshot lists.
fn listed_targets<J: Judge>(
    context: &Context,
    state: &Trusted,
    judge: &mut J,
) -> Result<Part<Targets>, Stop>
    ensures { Answers (spec.listed_targets (file_in context.now.files.now) context.now.moment
        state.now) result (λ p. p) }
{
    let root = state.root().reading();
    let snapshot = state.snapshot().ok_or(Fault::NotListed)?;
    let role = Role {
        name: "targets",
        ring: root.ring(),
        keys: root.targets(),
    };
    examine_role(context, root, snapshot.reading(), role, judge)
}
