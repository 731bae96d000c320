//! A plan as the checks of a board.

ghost use Rattle.plan.specs.Questions.{truths_of};

use crate::plan::Plan;
use board::Checks;
use cjson::NoMemory;
use crew::Questions;
use keys::Ask;

impl Checks for Plan<'_> {
    ghost truths = { λ p. truths_of p };

    fn count(&self) -> usize {
        self.len()
    }

    #[tactic(auto, using(board::proofs::SeatLemmas::truth_of))]
    fn decide(&self, j: usize) -> Result<bool, NoMemory> {
        self.answer(j)
    }
}

impl Questions for Plan<'_> {
    #[tactic(auto, using(crate::proofs::Truths::truth_at, crate::proofs::Truths::below))]
    fn find(&self, ask: &Ask) -> Option<usize> {
        self.place_of(ask)
    }
}
