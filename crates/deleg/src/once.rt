//! The examination of a role, which is done once for equal delegations.

ghost use Rattle.std.specs.Prelude.{◌≡◌, IfSome, Result, Some, slice_get};
ghost use Rattle.meta.specs.Content.{Answers};
ghost use Rattle.examine.specs.Checks.{file_in};
ghost use Rattle.deleg.specs.Search as spec;
ghost use Rattle.deleg.specs.Cache.{IsCacheOf, examination_in};

use crate::cache::{Entered, RoleCache};
use crate::edge::Edge;
use crate::frame::Frame;
use crate::query::{Query, examine};
use keys::Judge;
use meta::{Fault, Part, Stop, Targets};

/// Returns the file of the role to which the frame's first delegation leads, or its first fault.
/// Takes the outcome from the cache, or else examines the role and caches the outcome.
pub(crate) fn examine_once<J: Judge>(
    query: &Query,
    frame: &Frame,
    edge: &Edge,
    cache: &mut RoleCache,
    judge: &mut J,
) -> Result<Entered, Stop>
    requires first { Some (spec.edge_of edge.now) ≡ slice_get frame.now 0 }
    requires cache { IsCacheOf (examination_in query.now) cache.old }
    ensures answer { Answers (spec.examined (file_in query.now.context.files.now)
        query.now.context.moment query.now.root.now query.now.snapshot.now
        (spec.edge_of edge.now)) result (λ e. e.file) }
    ensures cache { IsCacheOf (examination_in query.now) cache.new }
{
    if let Some(outcome) = cache.find(edge) {
        return Ok(Entered {
            file: outcome?,
            held: true,
        });
    }
    let examined = match examine(query, edge, judge) {
        Ok(file) => Ok(cache.shared_file(edge.name, file)),
        Err(stop) => Err(stop),
    };
    let held = remember(query, frame, edge, &examined, cache);
    Ok(Entered {
        file: examined?,
        held,
    })
}

/// Caches the outcome of an examination if possible, and returns whether it is cached.
fn remember(
    query: &Query,
    frame: &Frame,
    edge: &Edge,
    examined: &Result<Part<Targets>, Stop>,
    cache: &mut RoleCache,
) -> bool
    requires first { Some (spec.edge_of edge.now) ≡ slice_get frame.now 0 }
    requires answer { Answers (spec.examined (file_in query.now.context.files.now)
        query.now.context.moment query.now.root.now query.now.snapshot.now
        (spec.edge_of edge.now)) examined.now (λ p. p) }
    requires cache { IsCacheOf (examination_in query.now) cache.old }
    ensures cache { IsCacheOf (examination_in query.now) cache.new }
{
    let Some(outcome) = outcome_of(examined) else {
        return false;
    };
    cache
        .insert(query.context.alloc, edge.name, frame, outcome)
        .unwrap_or(false)
}

/// Returns the outcome of an examination, or None if it was out of memory.
fn outcome_of(examined: &Result<Part<Targets>, Stop>) -> Option<Result<Part<Targets>, Fault>>
    ensures { (role : Result (spec.Part spec.Targets) spec.Fault)
        → Answers role examined.now (λ p. p) → IfSome result (λ outcome. role ≡ outcome) }
{
    match examined {
        Ok(part) => Some(Ok(part.copy().ok()?)),
        Err(Stop::Refused(fault)) => Some(Err(*fault)),
        Err(Stop::NoMemory) => None,
    }
}
