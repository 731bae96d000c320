//! A deque of numbers under its protocol.

ghost use Rattle.std.specs.Prelude.{◌≡◌, ◌≤◌, ◌<◌, ◌-◌, ◌⊎◌, true, false, ◌∷◌, []};
ghost use Rattle.std.specs.Prelude.{IfOk, IfSome, IfNone};
ghost use Rattle.std.specs.List.{range_with_len};
ghost use Rattle.crossbeam_deque.specs.Handles.{view, IsPassOf, worker_deque, stealer_deque};
ghost use Rattle.crossbeam_deque.specs.Handles.{worker_flavor, stealer_flavor, worker_view};
ghost use Rattle.crossbeam_deque.specs.Handles.{taken, SameWorker};
ghost use Rattle.hands.specs.Parts.{took, Takes, FoundEmpty};

use crate::rule::{Cut, Pushed, Rule, Taken, Took};
use cjson::NoMemory;
use crossbeam_deque::{Pass, Steal, Stealer, Worker};
use std::alloc::Global;

/// A worker's own deque.
pub type Deck = Worker<usize, Global, Took, Rule>;

/// A way to steal from a deque.
pub type Thief = Stealer<usize, Global, Took, Rule>;

/// Makes a deque of the numbers from `from` up to `end`, which isn't one of them, first in first
/// out. Fails only if out of memory.
#[tactic(auto, using(crate::proofs::Deals::range_more))]
pub fn deck_of(alloc: Global, from: usize, end: usize) -> Result<Deck, NoMemory>
    requires order { from ≤ end }
    ensures flavor { IfOk result (λ d. worker_flavor d ≡ 0) }
    ensures view { IfOk result (λ d.
        worker_view d ≡ took (range_with_len from (end - from)) [] true) }
{
    let mut deck = Deck::fifo_as(alloc, end - from)?;
    for n in from..end {
        if deck.push_as::<Pushed>(n).is_err() {
            return Err(NoMemory);
        }
    }
    Ok(deck)
}

/// Lets another thread take, which knows what was pushed. From then on nothing is pushed.
pub fn another(deck: &mut Deck) -> Pass<usize, Took>
    ensures deck { SameWorker deck.old deck.new × IsPassOf (worker_deque deck.old) result }
    ensures mine { worker_view deck.new
        ≡ took (worker_view deck.old).pushed (worker_view deck.old).taken false }
    ensures theirs { view result ≡ took (worker_view deck.old).pushed [] false }
{
    deck.another::<Cut>()
}

/// Takes the next number of one's own deque. Returns None if it was found empty.
pub fn pop(deck: &mut Deck) -> Option<usize>
    requires fifo { worker_flavor deck.old ≡ 0 }
    ensures same { SameWorker deck.old deck.new }
    ensures some { IfSome result (λ n.
        Takes (worker_view deck.old) (n ∷ []) (worker_view deck.new)) }
    ensures none { IfNone result (worker_view deck.new ≡ worker_view deck.old) }
    ensures empty { IfNone result (FoundEmpty (worker_view deck.old)) }
{
    deck.pop_as::<Taken>()
}

/// Tries once to take a number from another's deque. Returns None if it was found empty, or if a
/// number left it during the try.
pub fn steal(thief: &Thief, pass: &mut Pass<usize, Took>) -> Option<usize>
    requires fifo { stealer_flavor thief.now ≡ 0 }
    requires pass { IsPassOf (stealer_deque thief.now) pass.old }
    ensures same { IsPassOf (stealer_deque thief.now) pass.new }
    ensures some { IfSome result (λ n. Takes (view pass.old) (n ∷ []) (view pass.new)) }
    ensures none { IfNone result (view pass.new ≡ view pass.old) }
    ensures why { IfNone result (FoundEmpty (view pass.old) ⊎ (taken pass.old < taken pass.new)) }
{
    match thief.steal_as::<Taken>(pass) {
        Steal::Success(n) => Some(n),
        Steal::Empty | Steal::Retry => None,
    }
}
