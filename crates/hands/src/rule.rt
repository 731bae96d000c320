//! The protocol of one deque.

use crossbeam_deque::protocol::{Outcome, Protocol, Split};
use std::collections::LinkedList;

/// What a thread that uses the deque knows: all that was pushed, what it took itself, and whether
/// it is the only one. No value of it is made.
pub struct Took {
    /// All numbers that were pushed, in order.
    pub pushed: LinkedList<usize>,
    /// The numbers that this thread took, in order.
    pub taken: LinkedList<usize>,
    /// Whether no other thread may take.
    pub alone: bool,
}

/// What holds of a deque and of all that its threads know, between any two calls.
pub struct Rule;

impl Protocol<usize, Took> for Rule {
    ghost use Rattle.std.specs.Prelude.{true, false, []};
    ghost use Rattle.hands.specs.Parts.{took, Dealt};

    ghost holds = { Dealt };

    ghost first = { took [] [] true };

    ghost guest = { took [] [] false };
}

/// Numbers joined at the back.
pub struct Pushed;

impl Outcome<usize, Took> for Pushed {
    ghost use Rattle.hands.specs.Parts.{Pushes};

    ghost then = { Pushes };
}

/// Numbers left at the front, and this thread took them.
pub struct Taken;

impl Outcome<usize, Took> for Taken {
    ghost use Rattle.hands.specs.Parts.{Takes, FoundEmpty};

    ghost then = { Takes };

    ghost empty = { FoundEmpty };
}

/// A second thread may take, which took nothing yet. Nothing is pushed from then on.
pub struct Cut;

impl Split<Took> for Cut {
    ghost use Rattle.std.specs.Prelude.{false, []};
    ghost use Rattle.hands.specs.Parts.{took};

    ghost left = { λ v. took v.pushed v.taken false };

    ghost right = { λ v. took v.pushed [] false };
}
