//! The rule of a board's words, and what each step shows.

use crate::truths::Truths;
use crate::view::View;
use atomic_table::{Join, Play, Split, TableRule};

/// The invariant of a board's words and seats between any two steps.
pub struct Rule;

impl TableRule<(), View, Truths> for Rule {
    ghost use Rattle.board.specs.Board.{IsLawful};
    ghost use Rattle.board.specs.Board.{newcomer};

    ghost holds = { λ key s. IsLawful key.list s.words s.views };

    ghost first = { λ key. newcomer key.list };
}

/// An open check is taken.
pub struct Claim;

impl Play<(), View> for Claim {
    ghost use Rattle.board.specs.Board.{Claims};

    ghost then = { Claims };
}

/// A verdict is stored.
pub struct Publish;

impl Play<(), View> for Publish {
    ghost use Rattle.board.specs.Board.{Publishes};

    ghost then = { Publishes };
}

/// A taken check is opened again.
pub struct GiveBack;

impl Play<(), View> for GiveBack {
    ghost use Rattle.board.specs.Board.{GivesBack};

    ghost then = { GivesBack };
}

/// A check's word is read.
pub struct LookAt;

impl Play<(), View> for LookAt {
    ghost use Rattle.board.specs.Board.{Looks};

    ghost then = { Looks };
}

/// The stop word is set.
pub struct Stop;

impl Play<(), View> for Stop {
    ghost use Rattle.board.specs.Board.{Stops};

    ghost then = { Stops };
}

/// The stop word is read.
pub struct Notice;

impl Play<(), View> for Notice {
    ghost use Rattle.board.specs.Board.{Notices};

    ghost then = { Notices };
}

/// The stop word is read, to learn how long the seat's own list is.
pub struct Count;

impl Play<(), View> for Count {
    ghost use Rattle.board.specs.Board.{Counts};

    ghost then = { Counts };
}

/// A seat is split into itself and one that knows nothing, or two seats become one.
pub struct Seats;

impl Split<View> for Seats {
    ghost use Rattle.board.specs.Board.{newcomer};

    ghost left = { λ v. v };

    ghost right = { λ v. newcomer v.truths };
}

impl Join<View> for Seats {
    ghost use Rattle.std.specs.Prelude.{[]};
    ghost use Rattle.board.specs.Board.{joined, newcomer};

    ghost both = { joined };

    ghost spent = { newcomer [] };
}
