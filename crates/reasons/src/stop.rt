//! Why a step stopped a cycle.

ghost use Rattle.std.specs.Prelude.{◌≡◌, ◌+◌, ◌-◌, ◌^◌, ◌<◌, IfOk, Some, option_map};
ghost use Rattle.cjson.specs.Tree.{view};
ghost use Rattle.examine.specs.Checks.{file_in};
ghost use Rattle.rolechain.specs.Advance as advance;
ghost use Rattle.reasons.specs.Reasons.{Explains, fault_of, reason_in};
ghost use Rattle.reasons.specs.Stops as spec;

use crate::kinds::{first_check, next_check, root_check, snapshot_check, targets_check};
use crate::order::trusted_check;
use crate::reason::{Ended, Reason, reason_of};
use crate::signed::{keys_in, root_document};
use cjson::{NoMemory, Tree};
use examine::{Context, Expectation, is_expired};
use meta::names::{root_name, version_name};
use meta::{Fault, Header, Part, Root, Snapshot, Timestamp};
use moment::Moment;
use rolechain::{LAST_VERSION, Step, Trusted, due_root, due_snapshot, due_timestamp, place_of};

/// Returns why a cycle stopped in this step with this fault (TUF 1.0 sections 5.3 to 5.6), from the
/// state that it left, or None if it has no reason to. Examines the step's file again. Fails only
/// if out of memory.
pub fn why_stopped(
    context: &Context,
    trusted: &Trusted,
    step: Step,
    fault: Fault,
) -> Result<Option<Reason>, NoMemory>
    ensures value { IfOk result (λ o. o ≡ reason_in (spec.stop (file_in context.now.files.now)
        context.now.moment trusted.now step fault)) }

    // Whatever state such a cycle began with, there is a reason, and it is of this fault.
    ensures reason { (from : advance.State)
        → advance.advanced (file_in context.now.files.now) context.now.moment from
        ≡ advance.stops trusted.now step fault
        → IfOk result (λ o. option_map fault_of o ≡ Some fault) }
{
    reason_of(stop(context, trusted, step, fault))
}

fn stop(context: &Context, trusted: &Trusted, step: Step, fault: Fault) -> Result<(), Ended>
    ensures { Explains (spec.stop (file_in context.now.files.now) context.now.moment trusted.now
        step fault) result (λ x. x) }
{
    let doc = root_document(context.alloc, trusted.root())?;
    let keys = keys_in(&doc);
    step_stop(context, keys, trusted, step, fault)
}

fn step_stop(
    context: &Context,
    keys: &Tree,
    trusted: &Trusted,
    step: Step,
    fault: Fault,
) -> Result<(), Ended>
    ensures { Explains (spec.step_stop (file_in context.now.files.now) context.now.moment
        (view keys.now) trusted.now step fault) result (λ x. x) }
{
    match step {
        Step::Root => root_stop(context, keys, fault, trusted.root().reading()),
        Step::Timestamp => timestamp_stop(context, keys, trusted),
        Step::Snapshot => snapshot_stop(context, keys, trusted),
        Step::Targets => targets_stop(context, keys, trusted),
    }
}

fn root_stop(context: &Context, keys: &Tree, fault: Fault, root: &Root) -> Result<(), Ended>
    ensures { Explains (spec.root_stop (file_in context.now.files.now) context.now.moment
        (view keys.now) fault root.now) result (λ x. x) }
{
    expiry_first(fault, root.header(), context.moment)?;
    let _next = successor_check(context, keys, root)?;
    Ok(())
}

fn expiry_first(fault: Fault, header: &Header, now: Moment) -> Result<(), Reason>
    ensures { result ≡ spec.expiry_first fault header.now now }
{
    if is_expiry(fault) {
        return trusted_check(header, now);
    }
    Ok(())
}

fn is_expiry(fault: Fault) -> bool
    ensures { result ≡ spec.is_expiry fault }
{
    matches!(fault, Fault::Expired)
}

fn successor_check(context: &Context, keys: &Tree, root: &Root) -> Result<Option<Part<Root>>, Ended>
    ensures { Explains (spec.successor_check (file_in context.now.files.now) (view keys.now)
        root.now) result (λ p. p) }
{
    if root.header().version.get() >= LAST_VERSION {
        return Ok(None);
    }
    let version = due_version(root);
    let name = root_name(context.alloc, version)?;
    if !context.files.contains_key(name.as_str()) {
        return Ok(None);
    }
    let expect = due_root(root, name.as_str());
    let next = root_check(context, &expect, keys, version)?;
    Ok(Some(next))
}

fn due_version(root: &Root) -> u64
    requires last { root.now.header.version < 2 ^ 63 - 1 }
    ensures { result ≡ root.now.header.version + 1 }
{
    root.header().version.get() + 1
}

fn timestamp_stop(context: &Context, keys: &Tree, trusted: &Trusted) -> Result<(), Ended>
    ensures { Explains (spec.timestamp_stop (file_in context.now.files.now) context.now.moment
        (view keys.now) trusted.now) result (λ x. x) }
{
    let _newer = newer_check(context, keys, trusted)?;
    Ok(())
}

fn newer_check(
    context: &Context,
    keys: &Tree,
    trusted: &Trusted,
) -> Result<Option<Part<Timestamp>>, Ended>
    ensures { Explains (spec.newer_check (file_in context.now.files.now) context.now.moment
        (view keys.now) trusted.now.root.reading trusted.now.timestamp) result (λ p. p) }
{
    let expect = due_timestamp(trusted.root().reading());
    let Some(old) = trusted.timestamp() else {
        return Ok(Some(first_check(context, &expect, keys)?));
    };
    let newer = next_check(context, &expect, keys, old.reading())?;
    let header = old.reading().header();
    if newer.is_none() && is_expired(header, context.moment) {
        return Err(Ended::Refused(Reason::TrustedExpired(header.expires, context.moment)));
    }
    Ok(newer)
}

fn snapshot_stop(context: &Context, keys: &Tree, trusted: &Trusted) -> Result<(), Ended>
    ensures { Explains (spec.snapshot_stop (file_in context.now.files.now) context.now.moment
        (view keys.now) trusted.now) result (λ x. x) }
{
    let _part = listed_snapshot_check(context, keys, trusted)?;
    Ok(())
}

fn listed_snapshot_check(
    context: &Context,
    keys: &Tree,
    trusted: &Trusted,
) -> Result<Part<Snapshot>, Ended>
    ensures { Explains (spec.listed_snapshot_check (file_in context.now.files.now)
        context.now.moment (view keys.now) trusted.now) result (λ p. p) }
{
    let root = trusted.root().reading();
    let timestamp = trusted.timestamp().ok_or(Reason::NotListed)?;
    let listing = timestamp.reading().snapshot();
    let version = listing.version.get();
    let name = version_name(context.alloc, root.consistent(), version, "snapshot.json")?;
    let expect = due_snapshot(root, listing, name.as_str());
    let old = old_snapshot(trusted);
    snapshot_check(context, &expect, keys, old)
}

/// Returns the contents of the trusted snapshot.
fn old_snapshot(trusted: &Trusted) -> Option<&Snapshot>
    ensures { option_map (λ s. s.now) result ≡ advance.reading_in trusted.now.snapshot }
{
    Some(trusted.snapshot()?.reading())
}

fn targets_stop(context: &Context, keys: &Tree, trusted: &Trusted) -> Result<(), Ended>
    ensures { Explains (spec.targets_stop (file_in context.now.files.now) context.now.moment
        (view keys.now) trusted.now) result (λ x. x) }
{
    let root = trusted.root().reading();
    let snapshot = trusted.snapshot().ok_or(Reason::NotListed)?;
    let (listed, name) = place_of(context.alloc, root, snapshot.reading(), "targets")?;
    let expect = Expectation {
        name: name.as_str(),
        listed,
        ring: root.ring(),
        role: root.targets(),
    };
    let _part = targets_check(context, &expect, keys)?;
    Ok(())
}
