//! Boards that threads share, without a cycle.

ghost use Rattle.std.specs.Prelude.{◌≡◌, ◌<◌, All, IfOk, IfSome, OnOk, length};
ghost use Rattle.board.specs.Board.{IsSeatOf, IsFree};

use crate::gates::{Rule, Schedule};
use crate::given::Given;
use anyhow::{Context, Result, bail, ensure};
use board::{Board, Checks, Look, Seat, done, retire};
use cjson::NoMemory;
use crew::{Gate, Hand, Open, deal, work};
use sessions::Step;
use std::alloc::Global;
use std::sync::Wait;
use std::thread;
use std::thread::Threads;

/// Runs a step of a board or of hands, and returns what it prints.
pub fn printed<R: Threads + Wait + Sync>(rt: &R, alloc: Global, step: &Step) -> Result<String> {
    match step.name()? {
        "two-seats" => two_seats(alloc),
        "two-threads" => two_threads(rt, alloc, step),
        "worker" => one_worker(alloc, step),
        "worker-beside" => worker_beside(alloc, step),
        "stealing" => stealing(rt, alloc, step),
        "turns" => turns(alloc, step),
        _ => bail!("no such command"),
    }
}

/// Returns what the second of two seats finds at one true check: before the first one's verdict,
/// after it, and after its stop.
fn two_seats(alloc: Global) -> Result<String> {
    let mut truths = Vec::new(alloc);
    truths.push(String::from_str(alloc, "valid")?)?;
    let checks = Given::of_words(alloc, truths.as_slice())?;
    ensure!(checks.count() == 1, "one check");
    let (board, seat) = Board::new(alloc, &checks)?;
    let (first, second) = board.split(seat);
    in_turns(alloc, &board, &checks, first, second)
}

fn in_turns(
    alloc: Global,
    board: &Board,
    checks: &Given,
    mut first: Seat,
    mut second: Seat,
) -> Result<String>
    requires first { IsFree board.now first }
    requires second { IsFree board.now second }
    requires truths { board.now.truths ≡ checks.now.truths.items }
    requires check { 0 < length board.now.truths }
{
    let mut text = String::new(alloc);
    ensure!(board.claim(&mut first, 0), "an open check isn't won");
    push_found(&mut text, board, &mut second)?;
    match checks.decide(0) {
        Ok(verdict) => board.publish(&mut first, verdict),
        Err(NoMemory) => board.give_back(&mut first),
    }
    push_found(&mut text, board, &mut second)?;
    board.stop(&mut first);
    push_found(&mut text, board, &mut second)?;
    writeln!(text, "done {} and {}", done(&first), done(&second))?;
    retire(first);
    retire(second);
    Ok(text)
}

/// Adds what the seat finds at check 0, and whether it finds a stop. Tries to claim the check
/// first, which must fail.
fn push_found(text: &mut String, board: &Board, seat: &mut Seat) -> Result<()>
    requires free { IsFree board.now seat.old }
    requires check { 0 < length board.now.truths }
    ensures free { OnOk result (IsFree board.now seat.new) }
{
    ensure!(!board.claim(seat, 0), "a taken or decided check is won");
    let look = board.look(seat, 0);
    let is_stopped = board.stopped(seat);
    writeln!(text, "{look:?}, stopped: {is_stopped}")?;
    Ok(())
}

/// Runs two threads, each of which claims all checks in order and publishes those that it claimed.
fn two_threads<R: Threads>(rt: &R, alloc: Global, step: &Step) -> Result<String> {
    let checks = Given::of_words(alloc, step.words())?;
    let (board, seat) = Board::new(alloc, &checks)?;
    let (first, second) = board.split(seat);
    let seat = both_claim(rt, &board, &checks, first, second);
    output(alloc, &board, &checks, seat)
}

fn both_claim<R: Threads>(rt: &R, board: &Board, checks: &Given, first: Seat, second: Seat) -> Seat
    requires first { IsFree board.now first }
    requires second { IsFree board.now second }
    requires truths { board.now.truths ≡ checks.now.truths.items }
    ensures { IsFree board.now result }
{
    let (first, second) = thread::join(
        rt,
        move || -> Seat
            requires { IsFree board.now first × (board.now.truths ≡ checks.now.truths.items) }
            ensures { IsFree board.entry.now result }
        { claim_all(board, checks, first) },
        move || -> Seat
            requires { IsFree board.now second × (board.now.truths ≡ checks.now.truths.items) }
            ensures { IsFree board.entry.now result }
        { claim_all(board, checks, second) },
    );
    board.join(first, second)
}

/// Claims each check, and publishes those that it claimed.
fn claim_all(board: &Board, checks: &Given, mut seat: Seat) -> Seat
    requires free { IsFree board.now seat }
    requires truths { board.now.truths ≡ checks.now.truths.items }
    ensures { IsFree board.now result }
{
    for j in 0..checks.count() {
        decide(board, checks, &mut seat, j);
    }
    seat
}

/// Decides the check, if the seat can claim it.
#[tactic(auto, using(board::proofs::SeatLemmas::free_kept))]
fn decide(board: &Board, checks: &Given, seat: &mut Seat, j: usize)
    requires free { IsFree board.now seat.old }
    requires truths { board.now.truths ≡ checks.now.truths.items }
    requires check { j < length board.now.truths }
    ensures { IsFree board.now seat.new }
{
    if !board.claim(seat, j) {
        return;
    }
    match checks.decide(j) {
        Ok(verdict) => board.publish(seat, verdict),
        Err(NoMemory) => board.give_back(seat),
    }
}

/// Runs one worker with all checks.
fn one_worker(alloc: Global, step: &Step) -> Result<String> {
    let checks = Given::of_words(alloc, step.words())?;
    let (board, seat) = Board::new(alloc, &checks)?;
    let hands = hands_for(alloc, checks.count(), 1)?;
    let seat = work_all(&board, seat, &checks, hands, &Open);
    output(alloc, &board, &checks, seat)
}

/// Runs one worker with all checks, the last of which another seat has claimed before. That seat
/// gives no verdict, and releases its claim afterwards.
fn worker_beside(alloc: Global, step: &Step) -> Result<String> {
    let checks = Given::of_words(alloc, step.words())?;
    let last = checks.count().checked_sub(1).context("no check")?;
    let (board, seat) = Board::new(alloc, &checks)?;
    let hands = hands_for(alloc, checks.count(), 1)?;
    let (mut holder, seat) = board.split(seat);
    ensure!(
        board.claim(&mut holder, last),
        "an open check can't be claimed"
    );
    let seat = work_all(&board, seat, &checks, hands, &Open);
    board.give_back(&mut holder);
    let seat = board.join(seat, holder);
    output(alloc, &board, &checks, seat)
}

/// Returns a hand for each worker.
fn hands_for(alloc: Global, count: usize, workers: usize) -> Result<Vec<Hand>, NoMemory>
    requires { 0 < workers }
    ensures { IfOk result (λ v. All (λ h. h.count ≡ count) v.items) }
{
    deal(alloc, count, workers)
}

/// Does the work of all hands, one after another, with one seat.
fn work_all<G: Gate>(board: &Board, seat: Seat, checks: &Given, hands: Vec<Hand>, gate: &G) -> Seat
    requires free { IsFree board.now seat }
    requires truths { board.now.truths ≡ checks.now.truths.items }
    requires hands { All (λ h. h.count ≡ length board.now.truths) hands.items }
    ensures { IsFree board.now result }
{
    let mut mine = seat;
    for hand in hands {
        mine = work(board, mine, checks, hand, gate);
    }
    mine
}

/// Runs two workers with half of the checks each, one of which has to steal from the other.
fn stealing<R: Threads>(rt: &R, alloc: Global, step: &Step) -> Result<String> {
    let checks = Given::of_words(alloc, step.words())?;
    let (board, seat) = Board::new(alloc, &checks)?;
    let (first, second) = two_hands(alloc, checks.count())?;
    let gate = Schedule::new(Rule::Stealing);
    let (mine, theirs) = board.split(seat);
    let seat = both_work(rt, &board, &checks, (mine, first), (theirs, second), &gate);
    let (done, late) = (done(&seat), gate.late());
    retire(seat);
    Ok(format!(in alloc; "done {done}, late {late}\n")?)
}

/// Returns the hands of two workers.
fn two_hands(alloc: Global, count: usize) -> Result<(Hand, Hand)>
    ensures { IfOk result (λ h. (h.0.count ≡ count) × (h.1.count ≡ count)) }
{
    let mut hands = hands_for(alloc, count, 2)?;
    let second = last_hand(&mut hands, count).context("no second hand")?;
    let first = last_hand(&mut hands, count).context("no first hand")?;
    Ok((first, second))
}

/// Takes the last hand.
fn last_hand(hands: &mut Vec<Hand>, count: usize) -> Option<Hand>
    requires { All (λ h. h.count ≡ count) hands.old.items }
    ensures hand { IfSome result (λ h. h.count ≡ count) }
    ensures rest { All (λ h. h.count ≡ count) hands.new.items }
{
    hands.pop()
}

/// Returns the turns of all numbers, as one of the hands takes them.
fn turns(alloc: Global, step: &Step) -> Result<String> {
    let count = step.word(0)?.parse::<usize>()?;
    let workers = step.word(1)?.parse::<usize>()?;
    let place = step.word(2)?.parse::<usize>()?;
    ensure!(workers > 0, "no worker");
    let mut hands = hands_for(alloc, count, workers)?;
    let hand = hands.get_mut(place).context("no such hand")?;
    let mut text = String::from_str(alloc, "turns:")?;
    push_turns(&mut text, count, hand)?;
    Ok(text)
}

/// Adds the turns of the numbers that the hand takes.
fn push_turns(text: &mut String, count: usize, hand: &mut Hand) -> Result<()> {
    for _ in 0..count {
        if let Some(n) = hand.next() {
            write!(text, " {}", hand.turn(n))?;
        }
    }
    text.push('\n')?;
    Ok(())
}

fn both_work<R: Threads>(
    rt: &R,
    board: &Board,
    checks: &Given,
    first: (Seat, Hand),
    second: (Seat, Hand),
    gate: &Schedule,
) -> Seat
    requires first { IsFree board.now first.0 × (first.1.count ≡ length board.now.truths) }
    requires second { IsFree board.now second.0 × (second.1.count ≡ length board.now.truths) }
    requires truths { board.now.truths ≡ checks.now.truths.items }
    ensures { IsFree board.now result }
{
    let (one, its) = first;
    let (other, theirs) = second;
    let (one, other) = thread::join(
        rt,
        move || -> Seat
            requires { IsFree board.now one × (its.count ≡ length board.now.truths)
                × (board.now.truths ≡ checks.now.truths.items) }
            ensures { IsFree board.entry.now result }
        { work(board, one, checks, its, gate) },
        move || -> Seat
            requires { IsFree board.now other × (theirs.count ≡ length board.now.truths)
                × (board.now.truths ≡ checks.now.truths.items) }
            ensures { IsFree board.entry.now result }
        { work(board, other, checks, theirs, gate) },
    );
    board.join(one, other)
}

/// Returns the number of verdicts of the seat, the result of a look at each check, and how many
/// checks can still be claimed.
fn output(alloc: Global, board: &Board, checks: &Given, mut seat: Seat) -> Result<String>
    requires free { IsFree board.now seat }
    requires truths { board.now.truths ≡ checks.now.truths.items }
{
    let mut text = format!(in alloc; "done {}:", done(&seat))?;
    push_looks(&mut text, board, checks.count(), &mut seat)?;
    let won = won_of(board, checks.count(), &mut seat);
    writeln!(text, ", won {won}")?;
    retire(seat);
    Ok(text)
}

/// Adds the result of a look at each check.
fn push_looks(text: &mut String, board: &Board, count: usize, seat: &mut Seat) -> Result<()>
    requires free { IsFree board.now seat.old }
    requires count { count ≡ length board.now.truths }
    ensures free { OnOk result (IsFree board.now seat.new) }
{
    for j in 0..count {
        push_look(text, look(board, seat, j))?;
    }
    Ok(())
}

fn push_look(text: &mut String, look: Look) -> Result<()> {
    write!(text, " {look:?}")?;
    Ok(())
}

#[tactic(auto, using(board::proofs::SeatLemmas::free_kept))]
fn look(board: &Board, seat: &mut Seat, j: usize) -> Look
    requires free { IsFree board.now seat.old }
    requires check { j < length board.now.truths }
    ensures free { IsFree board.now seat.new }
{
    board.look(seat, j)
}

/// Returns how many checks the seat can claim. Releases each of them.
fn won_of(board: &Board, count: usize, seat: &mut Seat) -> usize
    requires free { IsFree board.now seat.old }
    requires count { count ≡ length board.now.truths }
    ensures free { IsFree board.now seat.new }
{
    let mut won: usize = 0;
    for j in 0..count {
        if wins(board, seat, j) {
            won = won.saturating_add(1);
        }
    }
    won
}

/// Returns whether the seat can claim the check, and releases it.
#[tactic(auto, using(board::proofs::SeatLemmas::free_kept))]
fn wins(board: &Board, seat: &mut Seat, j: usize) -> bool
    requires free { IsFree board.now seat.old }
    requires check { j < length board.now.truths }
    ensures free { IsFree board.now seat.new }
{
    let is_won = board.claim(seat, j);
    if is_won {
        board.give_back(seat);
    }
    is_won
}
