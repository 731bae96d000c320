//! Plans, hands and workers.

use super::repository::{repository, wanted};
use crate::repositories::first_state;
use board::{Board, Checks, Seat, done, retire};
use cjson::NoMemory;
use crew::{Gate, Hand, Open, deal, work};
use plan::Plan;
use std::alloc::Global;
use std::process::Abort;

/// Returns how many verdicts one worker publishes for a plan.
fn published<R: Abort, G: Gate>(rt: &R, alloc: Global, plan: &Plan, gate: &G) -> usize {
    let (board, seat) = Board::new(alloc, plan).expect(rt, "memory");
    let hands: Result<Vec<Hand>, NoMemory> = deal(alloc, plan.count(), 1);
    let hand = hands.expect(rt, "memory").into_iter().next();
    let seat: Seat = work(&board, seat, plan, hand.expect(rt, "a hand"), gate);
    let count = done(&seat);
    retire(seat);
    count
}

/// The signatures of timestamp, snapshot, targets file and role a, and the two targets' digests.
#[test]
fn plans_are_worked(rt: HostRuntime) {
    let repo = repository(&rt);
    let trusted = first_state(&rt, &repo);
    let wanted = wanted(&rt);
    let plan: Result<Plan, NoMemory> = Plan::of(rt.alloc(), &trusted, &repo, &wanted, 4096);
    let plan = plan.expect(&rt, "memory");
    assert_eq!(rt; plan.count(), 6);
    let verdict: Result<bool, NoMemory> = plan.decide(5);
    assert!(rt; verdict.expect(&rt, "memory"));
    assert_eq!(rt; published(&rt, rt.alloc(), &plan, &Open), 6);
}

#[test]
fn gates_are_called(rt: HostRuntime) {
    let gate = Open;
    gate.begin();
    gate.enter(0);
    gate.leave(0);
    gate.end();
    assert_eq!(rt; deal(rt.alloc(), 10, 4).expect(&rt, "memory").len(), 4);
}
