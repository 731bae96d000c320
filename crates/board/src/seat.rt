//! A thread's part in the work on a board.

ghost use Rattle.std.specs.Prelude.{◌≡◌, None, length, nat_eq};
ghost use Rattle.std.specs.List.{IsDistinct};

use crate::view::View;
use std::marker::Model;

/// A thread's part in the work on one board. It records which check it has claimed, and how many
/// verdicts it published.
///
/// A seat ends by [`Board::join`](crate::Board::join) or by [`retire`]. A seat that is dropped with
/// a claim leaves that check taken for good.
#[derive(Drop)]
pub struct Seat {
    /// The table's part of the seat.
    pub(crate) inner: atomic_table::Seat<(), View>,
    /// The check that the seat has claimed.
    pub(crate) held: Option<usize>,
    /// The number of verdicts that the seat published.
    pub(crate) published: usize,
}

impl Model for Seat {
    ghost use Rattle.board.specs.Board.{SeatValue, IsKept};

    ghost Value = { SeatValue };

    ghost view = { λ s. record { board = s.inner.table_id; view = s.inner.me.0 } };

    ghost invariant = { λ s. IsKept s.inner.me s.held s.published };
}

/// Returns the number of verdicts that the seat published, with those of the seats that joined it.
/// No check is counted twice.
pub fn done(seat: &Seat) -> usize
    ensures count { result ≡ length seat.now.view.done }
    ensures once { IsDistinct nat_eq seat.now.view.done }
{
    seat.published
}

/// Ends a seat that has no claim.
pub fn retire(seat: Seat)
    requires free { seat.view.right ≡ None }
{
    drop(seat);
}
