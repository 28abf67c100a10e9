//! The rules of the board's table, for the proofs: what its seats know, and what each step does.

ghost use Rattle.std.specs.Prelude.{ℕ, [], take, drop};
ghost use Rattle.wf_board.specs.Desk.{knows, joined, nothing};
ghost use Rattle.wf_board.specs.Rule.{Shown, opening_view, looks, posts, refutes, cuts};

use atomic_table::{Join, Play, Split, TableRule};
use std::collections::LinkedList;
use std::marker::{Brand, PhantomData};

/// What a seat knows: the number that each of its workers has seen last, and the branches that it
/// has settled. The type is for proofs only; no value of it is ever made.
pub struct SeatView {
    pub seen: LinkedList<u32>,
    pub posted: LinkedList<u32>,
    pub refuted: LinkedList<u32>,
    pub cut: LinkedList<u32>,
}

/// The numbers of branches and workers of a board, to which the rule of its table refers.
#[derive(Drop)]
pub struct Ledger {
    pub branches: u32,
    pub workers: u32,
}

/// The rule of a board's table: it relates what all seats know to the values of the three words.
pub struct BoardRule;

impl TableRule<(), SeatView, Ledger> for BoardRule {
    ghost holds = { λ ledger s. Shown ledger s };

    ghost first = { opening_view };
}

/// Names the branch that a step is about, in proofs, since the step's operand does not say it. A
/// call with `Brand` chooses the branch.
pub trait About {
    ghost branch: { ℕ };
}

impl About for Brand {
    ghost branch = { 0 };
}

/// The step that reads the least posted branch.
pub struct Look;

impl Play<(), SeatView> for Look {
    ghost then = { looks };
}

/// The step that posts a branch, and returns the smaller of it and the least posted branch so far.
pub struct Post;

impl Play<(), SeatView> for Post {
    ghost then = { posts };
}

/// The step that counts a branch as refuted. `J` names the branch.
pub struct Refute<J> {
    of: PhantomData<J>,
}

impl<J: About> Play<(), SeatView> for Refute<J> {
    ghost then = { refutes J.branch };
}

/// The step that counts a branch as cut. `J` names the branch.
pub struct Cut<J> {
    of: PhantomData<J>,
}

impl<J: About> Play<(), SeatView> for Cut<J> {
    ghost then = { cuts J.branch };
}

/// The split that gives one worker's part of a seat to a new seat, which has settled nothing.
pub struct Hand;

impl Split<SeatView> for Hand {
    ghost left = { λ v. knows (drop 1 v.seen) v.posted v.refuted v.cut };

    ghost right = { λ v. knows (take 1 v.seen) [] [] [] };
}

/// The join of two seats: the first then knows what both knew.
pub struct GatherSeats;

impl Join<SeatView> for GatherSeats {
    ghost both = { joined };

    ghost spent = { nothing };
}
