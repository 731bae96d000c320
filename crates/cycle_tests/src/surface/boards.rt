//! Boards and their seats.

ghost use Rattle.std.specs.Prelude.{◌≡◌, ◌∷◌, [], true};
ghost use Rattle.board.specs.Board.{IsFree, IsSeatOf};

use board::{Board, Checks, Look, Seat, done, retire};
use cjson::NoMemory;

/// One true check.
#[derive(Clone, Copy, Drop)]
struct One;

impl Checks for One {
    ghost truths = { λ _. true ∷ [] };

    fn count(&self) -> usize {
        1
    }

    fn decide(&self, _j: usize) -> Result<bool, NoMemory> {
        Ok(true)
    }
}

/// Claims the only check, releases it, claims it again and decides it. False if a claim fails.
fn claimed_twice(board: &Board, seat: &mut Seat) -> bool
    requires free { IsFree board.now seat.old }
    requires truths { board.now.truths ≡ true ∷ [] }
    ensures seat { IsSeatOf board.now seat.new }
{
    if !board.claim(seat, 0) {
        return false;
    }
    board.give_back(seat);
    if !board.claim(seat, 0) {
        return false;
    }
    board.publish(seat, true);
    true
}

#[test]
fn two_seats(rt: HostRuntime) {
    let (board, seat) = Board::new(rt.alloc(), &One).expect(&rt, "memory");
    let (mut first, mut second): (Seat, Seat) = board.split(seat);
    let is_open = board.look(&mut second, 0) == Look::Open;
    let is_claimed = claimed_twice(&board, &mut first);
    let is_valid = board.look(&mut second, 0) == Look::Valid;
    let before = board.stopped(&mut second);
    board.stop(&mut first);
    let after = board.stopped(&mut second);
    assert!(rt; is_open && is_claimed && is_valid && !before && after);
    assert_eq!(rt; (done(&first), done(&second)), (1, 0));
}

#[test]
fn seats_are_joined(rt: HostRuntime) {
    let (board, seat) = Board::new(rt.alloc(), &One).expect(&rt, "memory");
    let (first, second) = board.split(seat);
    let seat: Seat = board.join(first, second);
    assert_eq!(rt; done(&seat), 0);
    retire(seat);
}
