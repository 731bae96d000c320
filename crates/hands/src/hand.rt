//! A worker's numbers.

ghost use Rattle.std.specs.Prelude.{◌≡◌, ◌≤◌, ◌<◌, [], IfOk, IfSome, IfNone};
ghost use Rattle.hands.specs.Parts.{HasTurn, FoundEmpty};
ghost use Rattle.hands.specs.Sources.{Source, known, parts_in, part_from, sources, Share, share_in};
ghost use Rattle.hands.specs.Sources.{with_way, Untaken, FirstGave, EachGaveNone, TookAll};

use crate::source::{Other, Own};
use crate::turn::turn_of;
use cjson::NoMemory;
use std::alloc::Global;
use std::marker::Model;

/// A worker's numbers: a deque to which its whole part was pushed, and ways to steal from the other
/// workers' deques. Contracts see of each deque its part, and what this hand took.
#[derive(Drop)]
pub struct Hand {
    count: usize,
    workers: usize,
    own: Own,
    others: Vec<Other>,
}

impl Model for Hand {
    ghost use Rattle.hands.specs.Sources.{Held, IsHeld};

    ghost Value = { Held };

    ghost view = { λ h.
        record { count = h.count; workers = h.workers; own = h.own; others = h.others.items } };

    ghost invariant = { λ h. IsHeld
        (record { count = h.count; workers = h.workers; own = h.own; others = h.others.items }) };
}

impl Hand {
    /// Makes a hand of the numbers from `from` up to `end`, which isn't one of them, with no way to
    /// others. It is one of `workers` hands to which the numbers below `count` are dealt. Fails
    /// only if out of memory.
    pub(crate) fn apart(
        alloc: Global,
        count: usize,
        workers: usize,
        from: usize,
        end: usize,
    ) -> Result<Hand, NoMemory>
        requires some { 0 < workers }
        requires order { from ≤ end }
        requires below { end ≤ count }
        ensures share { IfOk result (λ h. share_in h ≡
            record { count = count; workers = workers; part = part_from from end; others = [] }) }
        ensures untaken { IfOk result Untaken }
    {
        Ok(Hand {
            count,
            workers,
            own: Own::of_part(alloc, from, end)?,
            others: Vec::new(alloc),
        })
    }

    /// Makes a way to this hand's deque, for another worker. Fails only if out of memory.
    pub(crate) fn way(&mut self) -> Result<Other, NoMemory>
        requires others { 1 < self.old.workers }
        ensures share { share_in self.new ≡ share_in self.old }
        ensures untaken { Untaken self.old → Untaken self.new }
        ensures part { IfOk result (λ w. w.part ≡ (share_in self.old).part) }
        ensures most { IfOk result (λ w. w.part.end ≤ self.old.count) }
        ensures taken { IfOk result (λ w. w.taken ≡ []) }
    {
        self.own.way()
    }

    /// Adds a way to another hand's deque, after those that are there. Fails only if out of
    /// memory.
    pub(crate) fn add(&mut self, other: Other) -> Result<(), NoMemory>
        requires most { other.part.end ≤ self.old.count }
        requires taken { other.taken ≡ [] }
        ensures share { IfOk result (λ _.
            share_in self.new ≡ with_way (share_in self.old) other.part) }
        ensures untaken { IfOk result (λ _. Untaken self.old → Untaken self.new) }
    {
        self.others.push(other)?;
        Ok(())
    }

    /// Takes the next number: one of its own, and one of another hand's only if its own deque is
    /// empty. Then it tries each other deque once, from the next hand's upwards and round, until
    /// one gives a number. Returns None if no try gave one: an only worker then has taken all
    /// numbers, and another hand may have some left, since a try fails too if a number leaves the
    /// deque meanwhile. Waits for no thread and does not allocate.
    #[tactic(auto, using(crate::proofs::Trying::only_took, crate::proofs::Trying::below_held))]
    pub fn next(&mut self) -> Option<usize>
        ensures some { IfSome result (λ n. FirstGave n (sources self.old) (sources self.new)) }
        ensures none { IfNone result (EachGaveNone (sources self.old) (sources self.new)) }
        ensures own { self.new.own.taken ≡ self.old.own.taken → FoundEmpty (known self.old.own) }
        ensures only { self.old.workers ≡ 1 → IfNone result (TookAll self.old.own) }
        ensures below { IfSome result (λ n. n < self.old.count) }
        ensures count { self.new.count ≡ self.old.count }
        ensures workers { self.new.workers ≡ self.old.workers }
    {
        if let Some(n) = self.own.pop() {
            return Some(n);
        }
        steal_first(&mut self.others)
    }

    /// Returns the place of number `n` if the parts of all workers are taken in turns: the first
    /// number of each comes first, then the second ones, and so on. No two numbers have one place.
    pub fn turn(&self, n: usize) -> usize
        requires below { n < self.now.count }
        ensures turn { HasTurn self.now.count self.now.workers n result }
        ensures below { result < self.now.count }
    {
        turn_of(self.count, self.workers, n)
    }
}

/// Takes a number of the first of these deques that gives one. Tries each at most once, and returns
/// None if none gives one.
#[tactic(auto, using(crate::proofs::Trying::tries))]
fn steal_first(others: &mut Vec<Other>) -> Option<usize>
    ensures some { IfSome result (λ n. FirstGave n others.old.items others.new.items) }
    ensures none { IfNone result (EachGaveNone others.old.items others.new.items) }
    ensures parts { parts_in others.new.items ≡ parts_in others.old.items }
{
    for place in 0..others.len() {
        if let Some(stolen) = others[place].steal() {
            return Some(stolen);
        }
    }
    None
}
