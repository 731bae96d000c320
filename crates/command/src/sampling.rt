//! The verification of a small repository, made in memory, if there are no arguments.

ghost use Rattle.std.specs.Prelude.{◌∷◌, [], IfOk, codes, map, string_bytes};
ghost use Rattle.report.specs.Lines.{IsStatus};
ghost use Rattle.command.specs.Sampled.{IsSampled};

use crate::made::{first_state, repository};
use cycle::{Limits, Moment, run_alone};
use failure::Failure;
use report::Told;
use std::alloc::Global;
use std::io::Write;
use update::tell_outcome;

/// The moment of the verification.
const MOMENT: &str = "2026-01-01T00:00:00Z";

/// Makes the repository, verifies its target as the workflow does (TUF 1.0 section 5), prints the
/// lines and returns the status, at most 2. Fails if out of memory or if `out` can't be written.
#[tactic(auto, using(crate::proofs::Sampled::renamed))]
pub fn sample<W: Write>(alloc: Global, out: &mut W) -> Result<u8, Failure>
    ensures sampled { IfOk result (λ status. IsSampled (codes "abc.txt" ∷ []) status
        (W.contents out.old) (W.contents out.new)) }
    ensures known { IfOk result IsStatus }
{
    let wanted = [String::from_str(alloc, "abc.txt")?];
    verify(alloc, &wanted, out)
}

fn verify<W: Write>(alloc: Global, wanted: &[String], out: &mut W) -> Result<u8, Failure>
    ensures sampled { IfOk result (λ status. IsSampled (map string_bytes wanted.now) status
        (W.contents out.old) (W.contents out.new)) }
    ensures known { IfOk result IsStatus }
{
    let repo = repository(alloc)?;
    let now = Moment::read(MOMENT).ok_or(Failure::Now)?;
    let limits = Limits::new(32, 4096).ok_or(Failure::Words)?;
    let trusted = first_state(alloc, &repo)?;
    let outcome = run_alone(alloc, &trusted, &repo, now, wanted, &limits)?;
    tell_outcome(alloc, &Told::plain(alloc, outcome), wanted, out)
}
