//! A measure as the proof that bytes are a target's.

ghost use Rattle.std.specs.Prelude.{◌≡◌, ◌&&◌, true, List, ℕ, is_ok};
ghost use Rattle.folder.specs.Measures.{measure_of};
ghost use Rattle.measured.specs.Copied.{IsContentOf};
ghost use Rattle.measured.specs.Known as spec;

use crate::check::check_measure;
use crate::need::covers;
use folder::{Measure, Need};
use meta::Target;

/// Returns whether a file of that measure was measured as far as the target needs it, and has the
/// target's length and digests (TUF 1.0 section 5.7).
#[tactic(auto, using(crate::proofs::Fitted::fitting))]
pub(crate) fn fits(target: &Target, need: Need, measure: &Measure) -> bool
    ensures test { result ≡ (spec.covers need target.now
        && is_ok (spec.measured_content target.now measure.now)) }
    ensures content { result ≡ true → (bytes : List ℕ)
        → measure.now ≡ measure_of need bytes → IsContentOf target.now bytes }
{
    covers(need, target) && check_measure(target, measure).is_ok()
}
