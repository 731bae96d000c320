//! The truths of a board's checks, for contracts alone.

ghost use Rattle.std.specs.Prelude.{◌≡◌, Bool, List};
ghost use Rattle.std.specs.Coded.{coded_list, coded_bool};
ghost use base.Fml.{ftrue};

use crate::checks::Checks;
use std::marker::{Model, PhantomData};

/// The truths of some checks, as contracts see them. It has no bytes, and borrows no check.
pub struct Truths {
    marker: PhantomData<()>,
    /// The truths, in the order of the checks.
    pub ghost list: { List Bool } by { coded_list coded_bool },
}

impl Model for Truths {
    ghost also_owns = { λ _. ftrue };
}

impl Truths {
    /// Returns the truths of these checks. Decides nothing.
    pub fn of<C: Checks>(_checks: &C) -> Truths
        ensures { result.list ≡ C.truths _checks.now }
    {
        Truths {
            marker: PhantomData,
        }
    }
}

impl Drop for Truths {
    fn drop(self) {
        let Self { marker: _ } = self;
    }
}
