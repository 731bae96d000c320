//! The deques that a hand takes numbers from.

ghost use Rattle.std.specs.Prelude.{◌≡◌, ◌≤◌, true, [], IfOk, IfSome, IfNone};
ghost use Rattle.hands.specs.Parts.{FoundEmpty};
ghost use Rattle.hands.specs.Sources.{Gave, GaveNone, known, part_from};

use crate::deck::{Deck, Thief, another, deck_of, pop, steal};
use crate::rule::Took;
use cjson::NoMemory;
use crossbeam_deque::Pass;
use std::alloc::Global;
use std::marker::Model;

/// A worker's own deque, to which the numbers of its part were pushed.
#[derive(Drop)]
pub(crate) struct Own {
    from: usize,
    end: usize,
    deck: Deck,
}

impl Model for Own {
    ghost use Rattle.crossbeam_deque.specs.Handles.{worker_view, taken};
    ghost use Rattle.hands.specs.Sources.{Source, source_of, part_from, IsOwn};

    ghost Value = { Source };

    ghost view = { λ o.
        source_of (part_from o.from o.end) (worker_view o.deck) (taken o.deck.end.pass) };

    ghost invariant = { λ o. IsOwn (part_from o.from o.end) o.deck };
}

impl Own {
    /// Makes a deque of the numbers from `from` up to `end`, which isn't one of them. Fails only if
    /// out of memory.
    pub(crate) fn of_part(alloc: Global, from: usize, end: usize) -> Result<Own, NoMemory>
        requires order { from ≤ end }
        ensures part { IfOk result (λ o. o.part ≡ part_from from end) }
        ensures alone { IfOk result (λ o. o.alone ≡ true) }
        ensures taken { IfOk result (λ o. o.taken ≡ []) }
    {
        Ok(Own {
            from,
            end,
            deck: deck_of(alloc, from, end)?,
        })
    }

    /// Makes a way to steal from it. Fails only if out of memory.
    pub(crate) fn way(&mut self) -> Result<Other, NoMemory>
        ensures part { self.new.part ≡ self.old.part }
        ensures taken { self.new.taken ≡ self.old.taken }
        ensures way_part { IfOk result (λ w. w.part ≡ self.old.part) }
        ensures way_taken { IfOk result (λ w. w.taken ≡ []) }
    {
        let pass = another(&mut self.deck);
        Ok(Other {
            from: self.from,
            end: self.end,
            thief: self.deck.stealer()?,
            pass,
        })
    }

    /// Takes its next number. Returns None if it was found empty.
    #[tactic(auto, using(crate::proofs::Trying::gave_some))]
    pub(crate) fn pop(&mut self) -> Option<usize>
        ensures some { IfSome result (λ n. Gave n self.old self.new) }
        ensures none { IfNone result (GaveNone self.old self.new) }
        ensures empty { IfNone result (FoundEmpty (known self.old)) }
    {
        pop(&mut self.deck)
    }
}

/// A way to another worker's deque, with the part whose numbers were pushed to it.
#[derive(Drop)]
pub(crate) struct Other {
    from: usize,
    end: usize,
    thief: Thief,
    pass: Pass<usize, Took>,
}

impl Model for Other {
    ghost use Rattle.crossbeam_deque.specs.Handles.{view as knows, taken};
    ghost use Rattle.hands.specs.Sources.{Source, source_of, part_from, IsOther};

    ghost Value = { Source };

    ghost view = { λ o. source_of (part_from o.from o.end) (knows o.pass) (taken o.pass) };

    ghost invariant = { λ o. IsOther (part_from o.from o.end) o.thief o.pass };
}

impl Other {
    /// Tries once to take its next number. Returns None if it was found empty, or if a number left
    /// it during the try.
    #[tactic(auto, using(crate::proofs::Trying::gave_some))]
    pub(crate) fn steal(&mut self) -> Option<usize>
        ensures some { IfSome result (λ n. Gave n self.old self.new) }
        ensures none { IfNone result (GaveNone self.old self.new) }
    {
        steal(&self.thief, &mut self.pass)
    }
}
