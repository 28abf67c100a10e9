//! Workers that search the branches of a problem, and the answer that they find together.
//!
//! [`solve`] shares out the branches to workers; begin reading here. Each worker has a seat at the
//! board, where it sees the least branch that has a map so far, and a share of the handout.
//! [`solve_one`] searches the branches in order, in the calling thread. [`solve_root`] searches the
//! whole problem at once, without an account of branches, and [`solve_within`] does so up to a
//! number of turns. All of them return the answer of the canonical search of the whole problem: its
//! least map, or that there is none, with those of its lines that [`KeptLines`] selects.
//! [`solve_branch`] searches one branch only. A [`Gate`] observes the workers.
//!
//! A worker keeps at most one map, that of the least branch that it posted, and the lines of the
//! branches that it refuted, as long as it has seen no lower branch posted. Other lines are freed
//! as soon as their branch is searched; if no lines are kept, those of a turn are freed before the
//! next one. At the end the kept lists are moved to the indices of their branches, and copied only
//! once, into the lines of the root.
//!
//! Each worker begins a branch with the kernel cache of its earlier branches. Workers don't share
//! caches. A cache only saves time: the answer is the same whatever it holds.
#![tactic(auto)]

mod answer;
mod crew;
mod finding;
mod gate;
mod laws;
mod shared;
mod solving;
mod watch;
mod worker;

pub use answer::{Answer, BranchAnswer, KeptLines};
pub use finding::SearchSpec;
pub use gate::{Gate, Moment, Open};
pub use laws::{a_problem_has_one_answer, searches_have_most_workers};
pub use solving::{
    MAX_WORKERS, solve, solve_branch, solve_one, solve_one_watched, solve_root, solve_within,
};
