//! The hands of all workers.

ghost use Rattle.std.specs.Prelude.{◌≡◌, ◌≤◌, ◌<◌, ◌+◌, ◌%◌, map, IfOk, All, vec_len};
ghost use Rattle.hands.specs.Parts.{start_of, AreEven, EachOnce};
ghost use Rattle.hands.specs.Sources.{share_in, shares, shares_at, own_parts, Untaken};

use crate::hand::Hand;
use cjson::NoMemory;
use std::alloc::Global;

/// Deals the numbers below `count` to a hand for each worker, of which there is at least one.
/// Together the hands hold each number once, in order, in parts whose sizes differ by at most one,
/// the longer ones first. Each hand can steal from every other one, and tries them from the next
/// one upwards and round. Fails only if out of memory.
pub fn deal(alloc: Global, count: usize, workers: usize) -> Result<Vec<Hand>, NoMemory>
    requires some { 0 < workers }
    ensures shares { IfOk result (λ v. map share_in v.items ≡ shares count workers) }
    ensures even { IfOk result (λ v. AreEven (own_parts v.items)) }
    ensures once { IfOk result (λ v. EachOnce count (own_parts v.items)) }
    ensures untaken { IfOk result (λ v. All Untaken v.items) }
    ensures counts { IfOk result (λ v. All (λ h. h.count ≡ count) v.items) }
{
    let mut hands = hands_apart(alloc, count, workers)?;
    for k in 0..workers {
        link(&mut hands, count, k)?;
    }
    Ok(hands)
}

/// Makes the hands, which can't steal yet. Fails only if out of memory.
fn hands_apart(alloc: Global, count: usize, workers: usize) -> Result<Vec<Hand>, NoMemory>
    requires { 0 < workers }
    ensures shares { IfOk result (λ v. map share_in v.items ≡ shares_at count workers 0 1) }
    ensures untaken { IfOk result (λ v. All Untaken v.items) }
{
    let mut hands = Vec::with_capacity(alloc, workers)?;
    let mut from = 0;
    for k in 0..workers {
        let end = end_of(count, workers, k, from);
        hands.push(Hand::apart(alloc, count, workers, from, end)?)?;
        from = end;
    }
    Ok(hands)
}

/// Returns where part `k` ends, which begins with number `from`. It is not past the count.
#[tactic(auto, using(crate::proofs::PartLemmas::next_start, crate::proofs::PartLemmas::within))]
fn end_of(count: usize, workers: usize, k: usize, from: usize) -> usize
    requires below { k < workers }
    requires from { from ≡ start_of count workers k }
    ensures end { result ≡ start_of count workers (k + 1) }
    ensures order { from ≤ result }
    ensures most { result ≤ count }
{
    let longer = if k < count % workers { 1 } else { 0 };
    from + count / workers + longer
}

/// Gives hand `k` a way to each of the others, from the next one upwards and round. Fails only if
/// out of memory.
fn link(hands: &mut Vec<Hand>, count: usize, k: usize) -> Result<(), NoMemory>
    requires hand { k < vec_len hands.old }
    requires shares { map share_in hands.old.items ≡ shares_at count (vec_len hands.old) k 1 }
    requires untaken { All Untaken hands.old.items }
    ensures shares { IfOk result (λ _.
        map share_in hands.new.items ≡ shares_at count (vec_len hands.old) (k + 1) 1) }
    ensures untaken { IfOk result (λ _. All Untaken hands.new.items) }
{
    for step in 1..hands.len() {
        add_way(hands, count, k, step)?;
    }
    Ok(())
}

/// Gives hand `k` a way to the hand at this distance. Fails only if out of memory.
fn add_way(hands: &mut Vec<Hand>, count: usize, k: usize, step: usize) -> Result<(), NoMemory>
    requires hand { k < vec_len hands.old }
    requires some { 0 < step }
    requires step { step < vec_len hands.old }
    requires shares { map share_in hands.old.items ≡ shares_at count (vec_len hands.old) k step }
    requires untaken { All Untaken hands.old.items }
    ensures shares { IfOk result (λ _.
        map share_in hands.new.items ≡ shares_at count (vec_len hands.old) k (step + 1)) }
    ensures untaken { IfOk result (λ _. All Untaken hands.new.items) }
{
    let other = next_of(k, step, hands.len());
    let way = hands[other].way()?;
    hands[k].add(way)?;
    Ok(())
}

/// Returns the number of the hand that is `step` after hand `k`, round.
fn next_of(k: usize, step: usize, workers: usize) -> usize
    requires hand { k < workers }
    requires step { step < workers }
    ensures hand { result ≡ (k + step) % workers }
    ensures below { result < workers }
{
    if step < workers - k {
        k + step
    } else {
        step - (workers - k)
    }
}
