//! One branch of a task's question.

ghost use Rattle.std.specs.Prelude.{◌≡◌, ◌<◌, IfErr, IfOk, length, string_bytes};
ghost use Rattle.wf_model.specs.Outline.{boxes_left_out};
ghost use Rattle.wf_complex.specs.Protocol.{IsProtocol};
ghost use Rattle.wf_base.specs.Set.Sets.{box_of};
ghost use Rattle.wf_run_branches.specs.Branches.{IsBranch, IsBranchIn, IsCoverOf, IsNoBranch};
ghost use Rattle.wf_run_branches.specs.Refuting.{accepted_in};
ghost use Rattle.wf_run_branches.specs.Solving.{part_head};

use std::alloc::{AllocError, Global};
use wf_base::lines::{put_number, put_words};
use wf_base::set::Mask;
use wf_box::{Box0, Problem};
use wf_complex::Protocol;
use wf_run::RunFault;
use wf_search::{Cover, split};
use wf_task::Task;

/// A branch of a task's problem, with its candidates at each point.
#[derive(Drop)]
pub(crate) struct BranchCandidates {
    /// The 0-based index of the branch.
    pub(crate) number: u32,
    /// The number of branches of the question.
    pub(crate) count: u32,
    /// The set of candidates at each point, in the order of the points.
    pub(crate) sets: Vec<Mask>,
}

/// The index of a branch, and the number of branches of the question.
#[derive(Clone, Copy)]
pub(crate) struct BranchIndex {
    /// The 0-based index of the branch.
    pub(crate) number: u32,
    /// The number of branches of the question.
    pub(crate) count: u32,
}

impl BranchCandidates {
    /// Returns the index of the branch and the number of branches.
    pub(crate) fn index(&self) -> BranchIndex
        ensures number { result.number ≡ self.now.number }
        ensures count { result.count ≡ self.now.count }
    {
        BranchIndex {
            number: self.number,
            count: self.count,
        }
    }
}

impl BranchIndex {
    /// Returns the first three lines of a part, the text about a single branch: the line `wfcheck
    /// part 1`, the index of the branch, and the number of branches.
    pub(crate) fn head(self, alloc: Global) -> Result<String, AllocError>
        ensures { IfOk result (λ text. string_bytes text ≡ part_head self.number self.count) }
    {
        let mut text = String::new(alloc);
        put_words(&mut text, "wfcheck part 1")?;
        put_number(&mut text, "branch", self.number)?;
        put_number(&mut text, "branches", self.count)?;
        Ok(text)
    }

    /// Returns the line that says what was accepted about the branch. It begins with `words`, such
    /// as `accepted none`, and ends in a line feed.
    pub(crate) fn accepted(
        self,
        alloc: Global,
        words: &str,
        rounds: u32,
    ) -> Result<String, AllocError>
        ensures { IfOk result (λ text. string_bytes text
            ≡ accepted_in words.now self.number self.count rounds) }
    {
        let number = self.number;
        let count = self.count;
        if rounds == 1 {
            format!(in alloc; "{words} in branch {number} of {count} at 1 round\n")
        } else {
            format!(in alloc; "{words} in branch {number} of {count} at {rounds} rounds\n")
        }
    }
}

/// Returns the branch of index `number` of a task's question.
///
/// # Errors
///
/// Returns `RunFault::NoBranch` with the number of branches if `number` is not below it, and
/// `RunFault::OutOfMemory` if memory runs out.
pub(crate) fn branch_of(
    alloc: Global,
    task: &Task,
    protocol: &Protocol,
    number: u32,
) -> Result<BranchCandidates, RunFault>
    requires { IsProtocol task.now protocol.now.rounds protocol.now }
    ensures found { IfOk result (IsBranch task.now protocol.now.rounds number) }
    ensures refused { IfErr result (IsNoBranch task.now protocol.now.rounds number) }
{
    let cover = branches_of_question(alloc, task, protocol)?;
    let count = cover.branches();
    if number >= count {
        return Err(RunFault::NoBranch { branches: count });
    }
    Ok(branch_in(alloc, &cover, number)?)
}

/// Returns the branch of index `number` in `cover`, the branches of a task's question.
pub(crate) fn branch_in(
    alloc: Global,
    cover: &Cover,
    number: u32,
) -> Result<BranchCandidates, AllocError>
    requires { number < length (boxes_left_out cover.now) }
    ensures { IfOk result (IsBranchIn cover.now number) }
{
    let boxed = cover.branch(alloc, number)?;
    let sets = candidate_sets(alloc, &boxed)?;
    Ok(BranchCandidates {
        number,
        count: cover.branches(),
        sets,
    })
}

/// Returns the branches of a task's question. The problem that they are computed from takes more
/// memory than they do, and is freed before the function returns.
pub(crate) fn branches_of_question(
    alloc: Global,
    task: &Task,
    protocol: &Protocol,
) -> Result<Cover, AllocError>
    requires { IsProtocol task.now protocol.now.rounds protocol.now }
    ensures { IfOk result (IsCoverOf task.now protocol.now.rounds) }
{
    let problem = Problem::join(alloc, task, protocol)?;
    split(alloc, &problem)
}

/// Returns the set of candidates of `boxed` at each point.
fn candidate_sets(alloc: Global, boxed: &Box0) -> Result<Vec<Mask>, AllocError>
    ensures { IfOk result (λ sets. box_of sets.items ≡ boxed.now.sets) }
{
    let points = boxed.points();
    let mut sets = Vec::with_capacity(alloc, points as usize)?;
    for point in 0..points {
        sets.push(boxed.candidates(point))?;
    }
    Ok(sets)
}
