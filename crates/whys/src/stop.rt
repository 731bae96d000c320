//! The lines of why a cycle stopped.

ghost use Rattle.std.specs.Prelude.{◌≡◌, Some, IfOk, string_bytes};
ghost use Rattle.examine.specs.Checks.{file_in};
ghost use Rattle.whys.specs.Places.{stop_place};
ghost use Rattle.whys.specs.Whys as spec;

use crate::lines::lines_of;
use crate::place::stop_place;
use cjson::NoMemory;
use examine::Context;
use meta::Fault;
use reasons::why_stopped;
use rolechain::{Step, Trusted};

/// Returns the lines of why a cycle stopped in this step with this fault, from the state that the
/// stop left. Examines the step's file again. Fails only if out of memory.
pub fn stop_lines(
    context: &Context,
    trusted: &Trusted,
    step: Step,
    fault: Fault,
) -> Result<String, NoMemory>
    ensures lines { IfOk result (λ text. string_bytes text ≡ spec.stop_text
        (file_in context.now.files.now) context.now.moment trusted.now step fault) }

    // They are those of a reason of this fault.
    ensures reason { IfOk result (λ text. spec.IsStopWhy (file_in context.now.files.now)
        context.now.moment trusted.now step fault (string_bytes text)) }
{
    let reason = why_stopped(context, trusted, step, fault)?;
    let place = stop_place(context, trusted, step)?;
    lines_of(context.alloc, &place, &reason)
}
