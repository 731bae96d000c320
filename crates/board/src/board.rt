//! The board. Each call on it but [`Board::new`] is one step on one word; a join is two.

ghost use Rattle.std.specs.Prelude.{◌≡◌, ◌<◌, ◌≤◌, true, false, Some, None, length, nat_eq, IsTrue};
ghost use Rattle.std.specs.Prelude.{IsSome, IfSome, IfOk};
ghost use Rattle.std.specs.List.{IsDistinct};
ghost use Rattle.board.specs.Board.{truth, Knows, newcomer, holding, released, having_seen};
ghost use Rattle.board.specs.Board.{having_done, halting, joined, IsSeatOf, IsFree, HasAll, Keeps};
ghost use Rattle.board.specs.Board.{IsVerdict, having_found, word_of_look};

use crate::checks::{Checks, MOST_CHECKS};
use crate::look::{INVALID, Look, OPEN, TAKEN, VALID};
use crate::rule::{Claim, Count, GiveBack, LookAt, Notice, Publish, Rule, Seats, Stop};
use crate::seat::Seat;
use crate::truths::Truths;
use crate::view::View;
use atomic_table::Table;
use cjson::NoMemory;
use std::alloc::Global;
use std::marker::Model;

/// The table's part of a seat.
type Inner = atomic_table::Seat<(), View>;

/// The word that says whether the work was stopped. Word `j + 1` is that of check `j`.
const STOP: usize = 0;

/// A word for each check, and one that says whether the work was stopped. Threads share it through
/// a `&`, each with a seat of its own. Contracts see the truths of its checks.
#[derive(Drop)]
pub struct Board {
    table: Table<(), View, Truths, Rule, Global>,
}

impl Model for Board {
    ghost use Rattle.std.specs.Prelude.{◌≡◌, ◌+◌, ◌≤◌, length};
    ghost use Rattle.board.specs.declared.checks.TheConstants.{MOST_CHECKS};
    ghost use Rattle.board.specs.Board.{BoardValue};

    ghost Value = { BoardValue };

    ghost view = { λ b. record { id = b.table.shared.table_id; truths = b.table.shared.key.list } };

    ghost invariant = { λ b.
        (b.table.shared.table_id.words ≡ length b.table.shared.key.list + 1)
        × (length b.table.shared.key.list ≤ MOST_CHECKS) };
}

impl Board {
    /// Returns a board of these checks, all open, and its first seat, which knows nothing and has
    /// no claim. Decides no check, and doesn't borrow the checks. Allocates one word of 8 bytes for
    /// each check and one more. Fails only if out of memory.
    pub fn new<C: Checks>(alloc: Global, checks: &C) -> Result<(Board, Seat), NoMemory>
        ensures truths { IfOk result (λ r. r.0.truths ≡ C.truths checks.now) }
        ensures seat { IfOk result (λ r. IsSeatOf r.0 r.1) }
        ensures fresh { IfOk result (λ r. r.1.view ≡ newcomer r.0.truths) }
    {
        let words = Vec::from_elem(alloc, OPEN, checks.count() + 1)?;
        let (table, inner) = Table::of_words(alloc, words.as_slice(), &Truths::of(checks))?;
        let seat = Seat {
            inner,
            held: None,
            published: 0,
        };
        Ok((Board { table }, seat))
    }

    /// Returns what the board has for check `j`: the meaning of the word that this step found,
    /// which the seat records. A verdict is the truth of the check, and the seat records that it
    /// saw one. The result is `Taken` if the seat itself has claimed the check, and a verdict if
    /// the seat saw or published one before.
    #[tactic(auto, using(crate::proofs::Calls::looks))]
    pub fn look(&self, seat: &mut Seat, j: usize) -> Look
        requires seat { IsSeatOf self.now seat.old }
        requires check { j < length self.now.truths }
        ensures board { seat.new.board ≡ seat.old.board }
        ensures kept { Keeps seat.old seat.new }
        ensures valid { result ≡ Look.Valid → truth self.now.truths j ≡ true }
        ensures invalid { result ≡ Look.Invalid → truth self.now.truths j ≡ false }
        ensures taken { seat.old.view.right ≡ Some j → result ≡ Look.Taken }
        ensures known { Knows seat.old.view j → IsVerdict result }
        ensures seen { IsVerdict result → seat.new.view
            ≡ having_found (word_of_look result) (having_seen seat.old.view j) }
        ensures same { ¬ IsVerdict result → seat.new.view
            ≡ having_found (word_of_look result) seat.old.view }
    {
        let shared = &self.table.shared;
        let found = shared.load::<LookAt>(&mut seat.inner, j + 1);
        Look::of_word(found)
    }

    /// Claims check `j` if it is open, and returns whether it did. Then no other seat can claim the
    /// check until it is released. The seat must have no claim. Tries only once.
    #[tactic(auto, using(crate::proofs::Calls::claims))]
    pub fn claim(&self, seat: &mut Seat, j: usize) -> bool
        requires seat { IsSeatOf self.now seat.old }
        requires check { j < length self.now.truths }
        requires free { seat.old.view.right ≡ None }
        ensures board { seat.new.board ≡ seat.old.board }
        ensures kept { Keeps seat.old seat.new }
        ensures won { IsTrue result → seat.new.view ≡ holding seat.old.view j }
        ensures unknown { IsTrue result → ¬ Knows seat.old.view j }
        ensures lost { result ≡ false → seat.new ≡ seat.old }
    {
        let shared = &self.table.shared;
        let found = shared.compare_exchange::<Claim>(&mut seat.inner, j + 1, OPEN, TAKEN);
        if found != OPEN {
            return false;
        }
        seat.held = Some(j);
        true
    }

    /// Publishes the verdict of the check that the seat has claimed, and ends the claim. The
    /// verdict must be the truth. From then on every look finds it.
    #[tactic(auto, using(crate::proofs::Calls::publishes))]
    pub fn publish(&self, seat: &mut Seat, verdict: bool)
        requires seat { IsSeatOf self.now seat.old }
        requires holds { IsSome seat.old.view.right }
        requires truth { IfSome seat.old.view.right (λ j. verdict ≡ truth self.now.truths j) }
        ensures board { seat.new.board ≡ seat.old.board }
        ensures kept { Keeps seat.old seat.new }
        ensures view { IfSome seat.old.view.right (λ j.
            seat.new.view ≡ having_done seat.old.view j) }
    {
        let Some(j) = seat.held else { unreachable!() };
        let word = if verdict { VALID } else { INVALID };
        let shared = &self.table.shared;
        shared.store::<Publish>(&mut seat.inner, j + 1, word);
        seat.held = None;
        seat.published += 1;
    }

    /// Releases the check that the seat has claimed, which is open again.
    #[tactic(auto, using(crate::proofs::Calls::kept_released))]
    pub fn give_back(&self, seat: &mut Seat)
        requires seat { IsSeatOf self.now seat.old }
        requires holds { IsSome seat.old.view.right }
        ensures board { seat.new.board ≡ seat.old.board }
        ensures kept { Keeps seat.old seat.new }
        ensures view { seat.new.view ≡ released seat.old.view }
    {
        let Some(j) = seat.held else { unreachable!() };
        let shared = &self.table.shared;
        shared.store::<GiveBack>(&mut seat.inner, j + 1, OPEN);
        seat.held = None;
    }

    /// Stops the work of all seats, for good. Changes no check.
    pub fn stop(&self, seat: &mut Seat)
        requires seat { IsSeatOf self.now seat.old }
        ensures board { seat.new.board ≡ seat.old.board }
        ensures kept { Keeps seat.old seat.new }
        ensures view { seat.new.view ≡ halting seat.old.view }
    {
        let shared = &self.table.shared;
        shared.store::<Stop>(&mut seat.inner, STOP, 1);
    }

    /// Returns whether some seat stopped the work. Stays true once the seat has found it so.
    #[tactic(auto, using(crate::proofs::Keeps::notices))]
    pub fn stopped(&self, seat: &mut Seat) -> bool
        requires seat { IsSeatOf self.now seat.old }
        ensures board { seat.new.board ≡ seat.old.board }
        ensures kept { Keeps seat.old seat.new }
        ensures known { seat.old.view.halted ≡ true → IsTrue result }
        ensures halted { IsTrue result → seat.new.view ≡ halting seat.old.view }
        ensures same { result ≡ false → seat.new.view ≡ seat.old.view }
    {
        let shared = &self.table.shared;
        shared.load::<Notice>(&mut seat.inner, STOP) == 1
    }

    /// Returns the seat unchanged, and a second seat of the board, which knows nothing and has no
    /// claim.
    pub fn split(&self, seat: Seat) -> (Seat, Seat)
        requires free { IsFree self.now seat }
        ensures first { result.0 ≡ seat }
        ensures second { IsSeatOf self.now result.1 }
        ensures fresh { result.1.view ≡ newcomer self.now.truths }
    {
        let Seat {
            mut inner,
            held,
            published,
        } = seat;
        let shared = &self.table.shared;
        let other = shared.split_seat::<Seats>(&mut inner);
        let first = Seat {
            inner,
            held,
            published,
        };
        let second = Seat {
            inner: other,
            held: None,
            published: 0,
        };
        (first, second)
    }

    /// Returns one seat that has seen and done what both had, the first one's before the second
    /// one's. It knows of a stop if either did.
    pub fn join(&self, first: Seat, second: Seat) -> Seat
        requires first { IsFree self.now first }
        requires second { IsFree self.now second }
        ensures seat { IsSeatOf self.now result }
        ensures view { result.view ≡ joined first.view second.view }
        ensures kept { Keeps first result }
    {
        let Seat {
            mut inner,
            held,
            published,
        } = first;
        let Seat {
            inner: other,
            held: _,
            published: more,
        } = second;
        let shared = &self.table.shared;
        shared.join_seat::<Seats>(&mut inner, other);
        shared.load::<Count>(&mut inner, STOP);
        Seat {
            inner,
            held,
            published: published + more,
        }
    }
}
