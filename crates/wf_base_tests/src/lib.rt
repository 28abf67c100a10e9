//! Tests of the public calls of the crates that the engines are built on, except the search: texts,
//! simplices, tasks, refined tasks, views, reports, obstructions, balances, covers and trees with
//! their checkers, the finder, questions of branches, and the checkers of solvers' proofs.
//!
//! These tests have a crate of their own since a crate with tests is proved twice, with them and
//! without. Beyond the contracts of the tested crates they show that calls get their memory and
//! succeed, and that the definitions mean what they should, by values from outside. The tasks were
//! written by hand or by another program, never by this one. What shows on a command line is tested
//! by `tests/rows` and by the scripts in `checks` instead.
#![tactic(auto)]

#[cfg(test)]
mod asking;
#[cfg(test)]
mod balances;
#[cfg(test)]
mod branches;
#[cfg(test)]
mod certificates;
#[cfg(test)]
mod checkers;
#[cfg(test)]
mod clauses;
#[cfg(test)]
mod covers;
#[cfg(test)]
mod finder;
#[cfg(test)]
mod hints;
#[cfg(test)]
mod proofs;
#[cfg(test)]
mod readers;
#[cfg(test)]
mod refined;
#[cfg(test)]
mod reports;
#[cfg(test)]
mod simplices;
#[cfg(test)]
mod tasks;
#[cfg(test)]
mod texts;
#[cfg(test)]
mod tree_texts;
#[cfg(test)]
mod trees;
#[cfg(test)]
mod views;
