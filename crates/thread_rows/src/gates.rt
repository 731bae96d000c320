//! Gates that choose a schedule.

use anyhow::{Result, bail};
use crew::Gate;
use std::sync::atomic::{AtomicU64, Ordering};
use std::thread;

/// Maximum number of times that a wait yields to other threads.
const MOST_YIELDS: u64 = 500_000;

/// Number of looks before a wait yields: a wait has at most 50,000,000 turns.
const TURNS: u64 = 100;

/// Where the threads of a run are blocked.
#[derive(Clone, Copy)]
pub enum Rule {
    /// Nowhere.
    Open,
    /// The sequential run begins once this number of checks have left.
    AllLeft(u64),
    /// A check that has entered is decided once the sequential run has ended, which begins once
    /// this number have entered.
    HeldToEnd(u64),
    /// The sequential run begins, and a check that has entered is decided, once two have entered.
    TwoEntered,
    /// Check 7 waits until six checks have entered, and the others until check 7 has.
    Stealing,
    /// Each check takes this number of turns before it is decided.
    Slow(u64),
    /// The beginning and each check take as many turns as a seed draws.
    Random(u64),
}

impl Rule {
    /// Returns the rule of a word: its name, and after a `=` its number, 0 unless given.
    pub fn of_word(word: &str) -> Result<Rule> {
        match word.split_once("=") {
            Some((name, number)) => Rule::named(name, number.parse::<u64>()?),
            None => Rule::named(word, 0),
        }
    }

    fn named(name: &str, number: u64) -> Result<Rule> {
        Ok(match name {
            "open" => Rule::Open,
            "all-left" => Rule::AllLeft(number),
            "held-to-end" => Rule::HeldToEnd(number),
            "two-entered" => Rule::TwoEntered,
            "slow" => Rule::Slow(number),
            "random" => Rule::Random(number),
            _ => bail!("no such gate"),
        })
    }
}

/// A gate with its rule, and what it has seen so far.
#[derive(Drop)]
pub struct Schedule {
    rule: Rule,
    /// Number of checks that have entered.
    entered: AtomicU64,
    /// Number of times that check 7 has entered.
    seventh: AtomicU64,
    /// Number of checks that have left.
    left: AtomicU64,
    /// Number of times that the end was reached.
    ended: AtomicU64,
    /// Number of waits that met their limit.
    late: AtomicU64,
}

impl Schedule {
    /// Returns a gate with this rule.
    pub fn new(rule: Rule) -> Schedule {
        Schedule {
            rule,
            entered: AtomicU64::new(0),
            seventh: AtomicU64::new(0),
            left: AtomicU64::new(0),
            ended: AtomicU64::new(0),
            late: AtomicU64::new(0),
        }
    }

    /// Returns the number of checks that have entered.
    pub fn entered(&self) -> u64 {
        self.entered.load(Ordering::SeqCst)
    }

    /// Returns the number of waits that met their limit.
    pub fn late(&self) -> u64 {
        self.late.load(Ordering::SeqCst)
    }

    /// Waits until the count is at least `least`.
    fn wait(&self, count: &AtomicU64, least: u64) {
        if !reaches(count, least) {
            self.late.fetch_add(1, Ordering::SeqCst);
        }
    }

    fn enter_stealing(&self, j: usize) {
        match j {
            7 => self.wait(&self.entered, 6),
            _ => self.wait(&self.seventh, 1),
        }
    }
}

impl Gate for Schedule {
    fn begin(&self) {
        match self.rule {
            Rule::AllLeft(checks) => self.wait(&self.left, checks),
            Rule::HeldToEnd(checks) => self.wait(&self.entered, checks),
            Rule::TwoEntered => self.wait(&self.entered, 2),
            Rule::Random(seed) => spin(&self.ended, turns(seed)),
            Rule::Open | Rule::Stealing | Rule::Slow(_) => {}
        }
    }

    fn enter(&self, j: usize) {
        if j == 7 {
            self.seventh.fetch_add(1, Ordering::SeqCst);
        }
        self.entered.fetch_add(1, Ordering::SeqCst);
        match self.rule {
            Rule::HeldToEnd(_) => self.wait(&self.ended, 1),
            Rule::TwoEntered => self.wait(&self.entered, 2),
            Rule::Stealing => self.enter_stealing(j),
            Rule::Slow(turns) => spin(&self.ended, turns),
            Rule::Random(seed) => spin(&self.ended, turns(seed ^ mixed(j as u64))),
            Rule::Open | Rule::AllLeft(_) => {}
        }
    }

    fn leave(&self, _j: usize) {
        self.left.fetch_add(1, Ordering::SeqCst);
    }

    fn end(&self) {
        self.ended.fetch_add(1, Ordering::SeqCst);
    }
}

/// Returns whether the count reaches `least` within the turns of a wait.
fn reaches(count: &AtomicU64, least: u64) -> bool {
    for _ in 0..MOST_YIELDS {
        if is_soon(count, least) {
            return true;
        }
        thread::yield_now();
    }
    false
}

/// Returns whether the count reaches `least` within a few turns.
fn is_soon(count: &AtomicU64, least: u64) -> bool {
    for _ in 0..TURNS {
        if count.load(Ordering::SeqCst) >= least {
            return true;
        }
    }
    false
}

/// Looks at the count this number of times.
fn spin(count: &AtomicU64, turns: u64) {
    for _ in 0..turns {
        let _ = count.load(Ordering::SeqCst);
    }
}

/// Returns a number of turns below 2^18 that the seed draws, mostly a small one.
fn turns(seed: u64) -> u64 {
    let drawn = mixed(seed);
    (drawn >> 46) >> (drawn % 19)
}

/// Returns a number that looks drawn: the mixing step of the generator SplitMix64.
pub fn mixed(seed: u64) -> u64 {
    let one = seed.wrapping_add(0x9e37_79b9_7f4a_7c15);
    let two = (one ^ (one >> 30)).wrapping_mul(0xbf58_476d_1ce4_e5b9);
    let three = (two ^ (two >> 27)).wrapping_mul(0x94d0_49bb_1331_11eb);
    three ^ (three >> 31)
}
