//! The target files of a folder, as far as they were measured.

ghost use Rattle.std.specs.Prelude.{◌≡◌, true};
ghost use Rattle.measured.specs.Known as spec;

use crate::check::check_measure;
use crate::known::{Known, place};
use cycle::Store;
use keys::Judge;
use meta::{Fault, Stop, Target};
use std::alloc::Global;

/// The names of the files, with the measures that were taken.
#[derive(Clone, Copy)]
pub(crate) struct Measured<'a> {
    pub alloc: Global,
    pub known: &'a Known,
}

impl Store for Measured<'_> {
    ghost may_give = { λ s checks. spec.MayGive s.known.now checks };

    ghost knows = { λ s consistent t. spec.knows s.known.now consistent t ≡ true };

    /// Compares the measure. Doesn't use the judge, which would need the bytes.
    #[tactic(auto, using(crate::proofs::Checking::checked, crate::proofs::Checking::missing))]
    fn check<J: Judge>(
        &self,
        consistent: bool,
        target: &Target,
        _judge: &mut J,
    ) -> Result<(), Stop> {
        let Some(there) = place(self.alloc, self.known, consistent, target)? else {
            return Err(Stop::Refused(Fault::Missing));
        };
        let Some(wanted) = there.wanted else {
            unreachable!();
        };
        let Some(measure) = &wanted.measure else {
            unreachable!();
        };
        match check_measure(target, measure) {
            Ok(()) => Ok(()),
            Err(fault) => Err(Stop::Refused(fault)),
        }
    }
}
