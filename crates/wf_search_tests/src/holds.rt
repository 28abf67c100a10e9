//! An observer that holds workers, and counts the moments that they reach.

use std::sync::atomic::AtomicU64;
use std::sync::atomic::Ordering::SeqCst;
use wf_pool::{Gate, Moment};

/// The number of times that a held worker looks whether it may go on, before it gives up.
const TURNS: u32 = 1_000_000_000;

const BRANCHES: usize = 3;

/// Which workers are held, and until when.
#[derive(Clone, Copy, PartialEq, Eq)]
pub enum Rule {
    // nobody
    Nobody,
    // the first worker that takes a branch, until another worker has settled one after that
    FirstTaker,
    // each worker that takes a branch above branch 0, until branch 0 is settled
    LaterBranches,
    // each worker at a turn of branch 0 or 1, until both branches had a turn
    FirstTurns,
}

/// The workers that may not have a thread of their own.
#[derive(Clone, Copy)]
pub enum Barred {
    Nobody,
    // only the worker with this index
    Worker(u32),
    All,
}

/// An observer of a problem with three branches. It holds workers by a rule, and counts their
/// moments.
#[derive(Drop)]
pub struct Hold {
    rule: Rule,
    barred: Barred,
    asked: AtomicU64,
    tellings: AtomicU64,
    branches: AtomicU64,
    taken: AtomicU64,
    settled: AtomicU64,
    turns: [AtomicU64; BRANCHES],
    settlings: [AtomicU64; BRANCHES],
    given_up: AtomicU64,
}

/// Creates a counter for each branch.
fn zeros() -> [AtomicU64; BRANCHES] {
    [AtomicU64::new(0), AtomicU64::new(0), AtomicU64::new(0)]
}

/// Adds one to the counter of `branch`, if there is one.
fn count(counts: &[AtomicU64; BRANCHES], branch: u32) {
    if let Some(n) = counts.get(branch as usize) {
        n.fetch_add(1, SeqCst);
    }
}

impl Hold {
    /// Creates an observer that holds workers by `rule`, and lets all start but those of `barred`.
    pub(crate) fn new(rule: Rule, barred: Barred) -> Hold {
        Hold {
            rule,
            barred,
            asked: AtomicU64::new(0),
            tellings: AtomicU64::new(0),
            branches: AtomicU64::new(0),
            taken: AtomicU64::new(0),
            settled: AtomicU64::new(0),
            turns: zeros(),
            settlings: zeros(),
            given_up: AtomicU64::new(0),
        }
    }

    /// Returns five numbers: 1 if a held worker gave up, and 0 otherwise; how many workers were to
    /// be started besides the first; how often the number of branches was reported before one was
    /// taken; that number; and how many branches were settled.
    pub(crate) fn counts(&self) -> [u64; 5] {
        [
            self.given_up.load(SeqCst),
            self.asked.load(SeqCst),
            self.tellings.load(SeqCst),
            self.branches.load(SeqCst),
            self.settled.load(SeqCst),
        ]
    }

    /// Returns whether a turn was taken at `branch`.
    fn had_turn(&self, branch: usize) -> bool {
        match self.turns.get(branch) {
            Some(n) => n.load(SeqCst) > 0,
            None => false,
        }
    }

    /// Returns whether a turn was taken at branch `first` or at a later one.
    pub(crate) fn had_turn_from(&self, first: usize) -> bool {
        for branch in first..BRANCHES {
            if self.had_turn(branch) {
                return true;
            }
        }
        false
    }

    /// Returns whether a worker may go on that was held when `settled` branches were settled.
    fn is_over(&self, settled: u64) -> bool {
        match self.rule {
            Rule::Nobody => true,
            Rule::FirstTaker => self.settled.load(SeqCst) > settled,
            Rule::LaterBranches => self.settlings[0].load(SeqCst) > 0,
            Rule::FirstTurns => self.had_turn(0) && self.had_turn(1),
        }
    }

    /// Holds the calling worker until the rule lets it go on, or until it gives up.
    fn hold(&self) {
        let settled = self.settled.load(SeqCst);
        for _ in 0..TURNS {
            if self.is_over(settled) {
                return;
            }
        }
        self.given_up.store(1, SeqCst);
    }
}

impl Gate for Hold {
    fn branches(&self, count: u32) {
        if self.taken.load(SeqCst) == 0 {
            self.tellings.fetch_add(1, SeqCst);
        }
        self.branches.store(u64::from(count), SeqCst);
    }

    fn at(&self, _worker: u32, moment: Moment) {
        match moment {
            Moment::Taken(branch) => {
                let is_first = self.taken.fetch_add(1, SeqCst) == 0;
                if self.rule == Rule::FirstTaker && is_first
                    || self.rule == Rule::LaterBranches && branch > 0
                {
                    self.hold();
                }
            }
            Moment::Turn(branch) => {
                count(&self.turns, branch);
                if self.rule == Rule::FirstTurns && branch < 2 {
                    self.hold();
                }
            }
            Moment::Settled(branch) => {
                count(&self.settlings, branch);
                self.settled.fetch_add(1, SeqCst);
            }
        }
    }

    fn may_start(&self, worker: u32) -> bool {
        self.asked.fetch_add(1, SeqCst);
        match self.barred {
            Barred::Nobody => true,
            Barred::Worker(barred) => worker != barred,
            Barred::All => false,
        }
    }
}
