//! Lists the branches of a task's question.

ghost use Rattle.std.specs.Prelude.{◌≡◌, ◌++◌, ◌<◌, ◌+◌, ◌^◌, IfOk, OnOk, cond, length, nat_lt, string_bytes};
ghost use Rattle.std.specs.List.{enumerate_from};
ghost use Rattle.wf_model.specs.Box.{count};
ghost use Rattle.wf_model.specs.Execution.{executions};
ghost use Rattle.wf_model.specs.Outline.{boxes_left_out};
ghost use Rattle.wf_model.specs.Points.{points};
ghost use Rattle.wf_complex.specs.Protocol.{IsProtocol};
ghost use Rattle.wf_run.specs.Texts.{IsTextOf};
ghost use Rattle.wf_run_branches.specs.Listing.{branches_text, entries_text, entry_line, header_text, open_points};

use crate::branch::branches_of_question;
use std::alloc::{AllocError, Global};
use std::fmt::Write as _;
use wf_base::lines::{put_number, put_words};
use wf_base::set::count;
use wf_box::Box0;
use wf_complex::Protocol;
use wf_run::{Answered, TaskAnswer};
use wf_search::Cover;
use wf_task::Task;

/// The list of the branches into which a task's question is cut. It has a line for each branch: its
/// index, how many of its points have two or more candidates, and how many candidates its points
/// have together.
#[derive(Clone, Copy)]
pub struct BranchList;

impl TaskAnswer for BranchList {
    type Answer = ();

    ghost is_text = { λ list. IsTextOf branches_text };

    fn of_task(&self, alloc: Global, task: &Task, rounds: u32) -> Answered<()> {
        let protocol = Protocol::build(alloc, task, rounds)?;
        Ok(((), write_branches(alloc, task, &protocol)?))
    }
}

/// Returns the text that lists the branches of the task's question on `protocol`.
fn write_branches(alloc: Global, task: &Task, protocol: &Protocol) -> Result<Vec<u8>, AllocError>
    requires { IsProtocol task.now protocol.now.rounds protocol.now }
    ensures { IfOk result (λ text. text.items ≡ branches_text task.now protocol.now.rounds) }
{
    let cover = branches_of_question(alloc, task, protocol)?;
    let mut text = String::new(alloc);
    ListingHeader::of(task, protocol, cover.branches()).put(&mut text)?;
    put_entries(alloc, &mut text, &cover)?;
    put_words(&mut text, "end")?;
    Ok(text.into_bytes())
}

/// The numbers in the first lines of the list of branches.
#[derive(Clone, Copy)]
struct ListingHeader {
    processes: u8,
    rounds: u32,
    points: u32,
    executions: u32,
    branches: u32,
}

impl ListingHeader {
    /// Collects the numbers of a task and its protocol complex. `branches` is the number of
    /// branches.
    fn of(task: &Task, protocol: &Protocol, branches: u32) -> ListingHeader
        requires { IsProtocol task.now protocol.now.rounds protocol.now }
        ensures processes { result.processes ≡ task.now.processes }
        ensures rounds { result.rounds ≡ protocol.now.rounds }
        ensures points { result.points ≡ length (points task.now protocol.now.rounds) }
        ensures executions { result.executions ≡ length (executions task.now protocol.now.rounds) }
        ensures branches { result.branches ≡ branches }
    {
        ListingHeader {
            processes: task.processes(),
            rounds: protocol.rounds(),
            points: protocol.points(),
            executions: protocol.executions(),
            branches,
        }
    }

    /// Appends the first lines of the list, down to the number of branches, to `text`.
    fn put(&self, text: &mut String) -> Result<(), AllocError>
        ensures { OnOk result (string_bytes text.new
            ≡ string_bytes text.old ++ header_text self.now) }
    {
        put_words(text, "wfcheck branches 1")?;
        put_number(text, "processes", self.processes as u32)?;
        put_number(text, "rounds", self.rounds)?;
        put_number(text, "points", self.points)?;
        put_number(text, "executions", self.executions)?;
        put_number(text, "branches", self.branches)?;
        Ok(())
    }
}

/// Appends a line for each branch in `cover` to `text`.
fn put_entries(alloc: Global, text: &mut String, cover: &Cover) -> Result<(), AllocError>
    ensures { OnOk result (string_bytes text.new
        ≡ string_bytes text.old ++ entries_text (enumerate_from 0 (boxes_left_out cover.now))) }
{
    for number in 0..cover.branches() {
        let boxed = cover.branch(alloc, number)?;
        put_entry(text, number, &boxed)?;
    }
    Ok(())
}

/// Appends the line of branch `number`, whose box is `boxed`, to `text`.
fn put_entry(text: &mut String, number: u32, boxed: &Box0) -> Result<(), AllocError>
    ensures { OnOk result (string_bytes text.new
        ≡ string_bytes text.old ++ entry_line (number, boxed.now.sets)) }
{
    let BoxSize { open, candidates } = BoxSize::of(boxed);
    writeln!(text, "branch {number} {open} {candidates}")?;
    Ok(())
}

/// The size of a box.
#[derive(Clone, Copy)]
struct BoxSize {
    /// The number of points with two or more candidates.
    open: u32,
    /// The number of candidates of all points together.
    candidates: u32,
}

impl BoxSize {
    /// Returns the size of `boxed`.
    fn of(boxed: &Box0) -> BoxSize
        ensures open { result.open ≡ open_points boxed.now.sets }
        ensures candidates { result.candidates ≡ count boxed.now.sets }
    {
        let mut size = BoxSize {
            open: 0,
            candidates: 0,
        };
        for point in 0..boxed.points() {
            size = size.with(count(boxed.candidates(point)));
        }
        size
    }

    /// Adds a point with `candidates` candidates to the size.
    fn with(self, candidates: u32) -> BoxSize
        requires open { self.open + 1 < 2 ^ 32 }
        requires candidates { self.candidates + candidates < 2 ^ 32 }
        ensures open { result.open ≡ self.open + cond (nat_lt 1 candidates) 1 0 }
        ensures candidates { result.candidates ≡ self.candidates + candidates }
    {
        BoxSize {
            open: if candidates > 1 {
                self.open + 1
            } else {
                self.open
            },
            candidates: self.candidates + candidates,
        }
    }
}
