//! What is told of a cycle.

ghost use Rattle.std.specs.Prelude.{◌≡◌, map, option_map, string_bytes};
ghost use Rattle.report.specs.Whys as spec;

use cycle::Outcome;
use std::alloc::Global;
use std::marker::Model;

/// The lines that say why: why a cycle stopped, and for each wanted path, by position, why it is
/// refused, if that is asked for. There are none of a cycle that didn't stop, nor of an accepted
/// path.
#[derive(Drop)]
pub struct Why {
    pub stop: String,
    pub paths: Option<Vec<String>>,
}

impl Model for Why {
    ghost Value = { spec.Whys };

    ghost view = { λ w. record {
      stop = string_bytes w.stop;
      paths = option_map (λ texts. map string_bytes texts.items) w.paths;
    } };
}

/// An outcome, and the lines that say why it isn't another one.
#[derive(Drop)]
pub struct Told {
    pub outcome: Outcome,
    pub why: Why,
}

impl Told {
    /// Returns the outcome without lines that say why.
    pub fn plain(alloc: Global, outcome: Outcome) -> Told
        ensures outcome { result.outcome ≡ outcome }
        ensures nothing { result.why ≡ spec.nothing }
    {
        let why = Why {
            stop: String::new(alloc),
            paths: None,
        };
        Told { outcome, why }
    }
}
