//! The chain of roots (TUF 1.0 section 5.3).

ghost use Rattle.std.specs.Prelude.{◌≡◌, ◌+◌, ◌-◌, ◌^◌, ◌<◌};
ghost use Rattle.meta.specs.Content.{Answers};
ghost use Rattle.examine.specs.Checks.{file_in};
ghost use Rattle.rolechain.specs.Advance as spec;
ghost use Rattle.rolechain.specs.Advance.{Leaves};

use crate::end::{Halt, Step, or_halt};
use crate::expected::due_root;
use crate::state::Trusted;
use examine::{Context, examine_root, is_expired};
use keys::Judge;
use meta::names::root_name;
use meta::{Fault, Part, Root, Stop};

/// Maximum number of roots that a cycle accepts (TUF 1.0 section 5.3.3).
pub const MOST_ROOTS: u32 = 256;

/// The greatest version: a root of this version has no successor.
pub const LAST_VERSION: u64 = i64::MAX as u64;

/// Trusts the roots that follow, the last of which must not be expired (TUF 1.0 section 5.3).
pub(crate) fn root_step<J: Judge>(
    context: &Context,
    state: &mut Trusted,
    judge: &mut J,
) -> Result<(), Halt>
    ensures { Leaves (spec.root_step (file_in context.now.files.now) context.now.moment state.old)
        result state.new }
{
    follow(context, state, judge)?;
    if is_expired(state.root().reading().header(), context.moment) {
        return Err(Halt::Stopped(Step::Root, Fault::Expired));
    }
    Ok(())
}

/// Follows the chain of roots.
fn follow<J: Judge>(context: &Context, state: &mut Trusted, judge: &mut J) -> Result<(), Halt>
    ensures { Leaves (spec.followed (file_in context.now.files.now) 256 state.old)
        result state.new }
{
    for _done in 0..MOST_ROOTS {
        match or_halt(
            Step::Root,
            successor(context, state.root().reading(), judge),
        )? {
            Some(next) => state.trust_root(next),
            None => return Ok(()),
        }
    }
    Ok(())
}

/// Returns the root that follows, if there is one.
fn successor<J: Judge>(
    context: &Context,
    root: &Root,
    judge: &mut J,
) -> Result<Option<Part<Root>>, Stop>
    ensures { Answers (spec.successor (file_in context.now.files.now) root.now)
        result (λ p. p) }
{
    if root.header().version.get() >= LAST_VERSION {
        return Ok(None);
    }
    let version = due_version(root);
    let name = root_name(context.alloc, version)?;
    if !context.files.contains_key(name.as_str()) {
        return Ok(None);
    }
    let expect = due_root(root, name.as_str());
    let next = examine_root(context, &expect, version, judge)?;
    Ok(Some(next))
}

/// Returns the version that a root's successor must have (TUF 1.0 section 5.3).
fn due_version(root: &Root) -> u64
    requires last { root.now.header.version < 2 ^ 63 - 1 }
    ensures { result ≡ root.now.header.version + 1 }
{
    root.header().version.get() + 1
}
