//! The search through the delegations of the files on a stack.

ghost use Rattle.std.specs.Prelude.{◌≡◌, ◌+◌, ◌<◌, ◌∷◌, ◌++◌, [], List, drop, length, option_map};
ghost use Rattle.std.specs.Prelude.{if◌then◌else◌, IfOk, IfSome, IsTrue, slice_get};
ghost use Rattle.deleg.specs.Search as spec;
ghost use Rattle.deleg.specs.Glue as glue;
ghost use Rattle.deleg.specs.Cache.{IsCacheOf, examination_in};
ghost use Rattle.deleg.specs.declared.found.Found.TheVariants as found;

use crate::accepted::{Accepted, Search};
use crate::cache::RoleCache;
use crate::found::Found;
use crate::frame::Frame;
use crate::once::examine_once;
use crate::query::{Query, is_visited, target_of};
use cjson::NoMemory;
use cjson::list::Items;
use cjson::text::Text;
use keys::Judge;
use meta::{Part, Stop, Targets};

/// What a search does after it tried a file's next delegation.
#[derive(Drop)]
enum Step {
    /// Leaves the file, which has no delegation left.
    Leaves,
    /// Ends with this finding.
    Ends(Found),
    /// Skips the delegation, whose role was visited.
    Skips { terminating: bool },
    /// Enters the file of the role, which is accepted and doesn't list the path.
    Enters { terminating: bool, below: Frame },
}

/// Tries the delegations of the files on the stack, the last file's first.
pub(crate) fn walk<J: Judge>(
    query: &Query,
    mut stack: Vec<Frame>,
    cache: &mut RoleCache,
    judge: &mut J,
) -> Result<Search, NoMemory>
    requires cache { IsCacheOf (examination_in query.now) cache.old }
    ensures searched { IfOk result (λ s.
        s ≡ glue.outlook query.now (glue.pending query.now.path.now stack.items) []) }
    ensures cache { IsCacheOf (examination_in query.now) cache.new }
{
    let mut seen = Vec::new(query.context.alloc);
    while let Some(mut frame) = stack.pop() {
        frame.skip_others(query.path);
        match follow(query, &frame, &mut seen, cache, judge)? {
            Step::Leaves => {}
            Step::Ends(found) => {
                let accepted = Items::new(seen);
                return Ok(Search { found, accepted });
            }
            Step::Skips { terminating } => put_back(frame, terminating, &mut stack)?,
            Step::Enters { terminating, below } => {
                put_back(frame, terminating, &mut stack)?;
                stack.push(below)?;
            }
        }
    }
    Ok(Search {
        found: Found::NotFound,
        accepted: Items::new(seen),
    })
}

/// Tries the file's next delegation, which is for the path. If its role wasn't visited, visits it.
fn follow<J: Judge>(
    query: &Query,
    frame: &Frame,
    seen: &mut Vec<Accepted>,
    cache: &mut RoleCache,
    judge: &mut J,
) -> Result<Step, NoMemory>
    requires first { IfSome (slice_get frame.now 0) (λ e.
        IsTrue (spec.is_for query.now.path.now e)) }
    requires cache { IsCacheOf (examination_in query.now) cache.old }
    ensures step { IfOk result (λ step. (others : List spec.Edge) → glue.IsStep query.now frame.now
        others seen.old.items step seen.new.items) }
    ensures progress { IfOk result (λ step.
        glue.Progresses query.now.limit frame.now seen.old.items step seen.new.items) }
    ensures cache { IsCacheOf (examination_in query.now) cache.new }
{
    let Some(edge) = frame.next() else {
        return Ok(Step::Leaves);
    };
    let terminating = edge.terminating;
    if is_visited(seen.as_slice(), edge.name) {
        return Ok(Step::Skips { terminating });
    }
    if seen.len() + 1 >= query.limit {
        return Ok(Step::Ends(Found::LimitReached));
    }
    let role = Text::new(String::from_str(query.context.alloc, edge.name)?);
    let entered = match examine_once(query, frame, &edge, cache, judge) {
        Ok(entered) => entered,
        Err(Stop::Refused(fault)) => return Ok(Step::Ends(Found::RoleRefused { role, fault })),
        Err(Stop::NoMemory) => return Err(NoMemory),
    };
    if let Some(found) = accept(query, role, &entered.file, seen)? {
        return Ok(Step::Ends(found));
    }
    let below = Frame::of(query.context.alloc, entered, query.path)?;
    Ok(Step::Enters { terminating, below })
}

/// Accepts a role, and looks the path up in its file.
fn accept(
    query: &Query,
    role: Text,
    part: &Part<Targets>,
    seen: &mut Vec<Accepted>,
) -> Result<Option<Found>, NoMemory>
    requires { length seen.old.items + 1 < query.now.limit }
    ensures accepted { IfOk result (λ _. seen.new.items ≡ seen.old.items
        ++ record { role = role; version = part.now.reading.header.version } ∷ []) }
    ensures found { IfOk result (λ o.
        o ≡ option_map (λ t. found.Listed role t (length seen.new.items + 1))
        (spec.target_of part.now.reading query.now.path.now)) }
{
    let name = Text::new(String::from_str(query.context.alloc, role.as_str())?);
    let version = part.reading().header().version.get();
    seen.push(Accepted {
        role: name,
        version,
    })?;
    let Some(target) = target_of(part.reading(), query.path.as_str()) else {
        return Ok(None);
    };
    let target = target.copy(query.context.alloc)?;
    Ok(Some(Found::Listed {
        role,
        target,
        visited: seen.len() + 1,
    }))
}

/// Puts the file back without its first delegation. If that is terminating, clears the stack
/// instead: no other delegation is tried.
fn put_back(mut frame: Frame, terminating: bool, stack: &mut Vec<Frame>) -> Result<(), NoMemory>
    ensures { IfOk result (λ _. stack.new.items
        ≡ (if terminating then [] else stack.old.items ++ drop 1 frame ∷ [])) }
{
    if terminating {
        stack.clear();
        return Ok(());
    }
    frame.skip();
    stack.push(frame)?;
    Ok(())
}
