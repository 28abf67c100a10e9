//! One pass over the lines of a refutation that finds those which are needed.

ghost use Rattle.std.specs.Prelude.{◌<◌, IfOk, length};
ghost use Rattle.wf_report_trim.specs.Among.{AreAmong};

use crate::kept::Kept;
use crate::needs::Needs;
use crate::path::{Path, Removal, VALUES};
use crate::reasons::{Known, PlacedValue, removed_value};
use std::alloc::{AllocError, Global};
use wf_base::lines::{Line, Lines};
use wf_base::set::{Mask, contains, split_first};
use wf_complex::Protocol;
use wf_task::Task;

/// The largest number of places of a tuple beside a given one.
const OTHER_PLACES: usize = 3;

/// Returns the lines of a refutation, or of a search for a least map, that are needed as far as one
/// pass shows.
///
/// Lines form blocks: removals, and then either a line whose point has no candidate left, or a
/// branching with a block for each candidate. Each block is processed backwards:
///
/// - The line whose point has no candidate left needs every removal at that point.
/// - A needed removal needs, for each tuple with its value at its place, one earlier removal of
///   another value of the tuple.
/// - A branching is replaced by one of its blocks if this refutes without using the branching.
/// - In a search for a least map, the lines that lead to the map are needed, and so are the
///   removals at points below the point of each branching that is kept.
///
/// The result has some of `lines`, in their order. Nothing else is proved: not that the result is
/// accepted, nor anything about `lines` that the checker refuses. So check the result.
///
/// # Errors
///
/// Returns `AllocError` if memory runs out.
pub fn trim(
    alloc: Global,
    task: &Task,
    protocol: &Protocol,
    lines: &[Line],
) -> Result<Lines, AllocError>
    ensures { IfOk result (λ kept. AreAmong kept.items lines.now) }
{
    let mut trimmer = Trimmer::start(alloc, task.values(), protocol.points(), lines)?;
    let told = TaskLines {
        task,
        protocol,
        lines,
    };
    for number in 0..lines.len() {
        trimmer.read(&told, number)?;
    }
    trimmer.kept.of(alloc, lines)
}

/// Lines, with the task and the protocol complex that they are about.
#[derive(Clone, Copy)]
struct TaskLines<'a> {
    task: &'a Task,
    protocol: &'a Protocol,
    lines: &'a [Line],
}

/// The state at the beginning of a block.
#[derive(Clone, Copy, Debug, Drop)]
struct Block {
    // the index of the block's first line
    line: usize,
    // the number of removals and the length of the log of needs when the block began
    path: usize,
    needs: usize,
}

/// A block of a branching that refutes without what the branching decided. `line..line_end` are its
/// lines, and `needs..needs_end` its entries in the log of needs.
#[derive(Clone, Copy, Debug, Drop)]
struct Alone {
    line: usize,
    line_end: usize,
    needs: usize,
    needs_end: usize,
}

/// A branching whose blocks were not all read yet.
#[derive(Clone, Copy, Debug, Drop)]
struct OpenBranch {
    line: usize,
    point: u32,
    // the block that the branching ends
    block: Block,
    // the candidates of the point, and those whose blocks were not read yet
    candidates: Mask,
    left: Mask,
    // the number of removals and the length of the log of needs at the branching
    path: usize,
    needs: usize,
    // the number of needs of the branching's line when the current block began
    count: u32,
    // every removal at a point below this one is needed
    bound: u32,
    alone: Option<Alone>,
}

/// The state of the pass after some lines.
#[derive(Drop)]
struct Trimmer {
    // the candidates of each point in the root
    values: Mask,
    // whether the lines are a search that ends in a map
    is_least: bool,
    path: Path,
    needs: Needs,
    kept: Kept,
    // the current block, and the branchings around it, innermost last
    block: Block,
    branches: Vec<OpenBranch>,
}

impl Trimmer {
    /// Creates the state before the first of `lines`, in the root: each of `points` points has the
    /// candidates `values`.
    fn start(
        alloc: Global,
        values: Mask,
        points: u32,
        lines: &[Line],
    ) -> Result<Trimmer, AllocError> {
        Ok(Trimmer {
            values,
            is_least: leads_to_map(lines),
            path: Path::start(alloc, points)?,
            needs: Needs::none(alloc, lines.len())?,
            kept: Kept::none(alloc, lines.len())?,
            block: Block {
                line: 0,
                path: 0,
                needs: 0,
            },
            branches: Vec::new(alloc),
        })
    }

    /// Processes the line with index `number`.
    fn read(&mut self, told: &TaskLines, number: usize) -> Result<(), AllocError>
        requires { number < length told.now.lines.now }
    {
        match told.lines[number] {
            Line::Remove {
                execution,
                process,
                value,
            } => match point_of(told.protocol, execution, process) {
                Some(point) => self.remove(number, point, value),
                None => Ok(()),
            },
            Line::Empty { point } => self.close(told, number, point),
            Line::Branch { point } => self.open(number, point),
            Line::Found => {
                self.keep_all(number);
                Ok(())
            }
        }
    }

    /// Records that the line with index `number` removes `value` at `point`. Ignored if the value
    /// is not a candidate.
    fn remove(&mut self, number: usize, point: u32, value: u8) -> Result<(), AllocError> {
        let values = self.values;
        if contains(values, value) && self.path.find(point, value).is_none() {
            self.path.push(point, value, number)?;
        }
        Ok(())
    }

    /// Branches at `point`, by the line with index `number`, and enters the first block.
    fn open(&mut self, number: usize, point: u32) -> Result<(), AllocError>
        requires { number < usize.MAX }
    {
        let values = self.values;
        let candidates = self.path.left(values, point);
        let path = self.path.len();
        let needs = self.needs.len();
        let branch = OpenBranch {
            line: number,
            point,
            block: self.block,
            candidates,
            left: candidates,
            path,
            needs,
            count: 0,
            bound: 0,
            alone: None,
        };
        self.enter(branch, number + 1)?;
        Ok(())
    }

    /// Enters the next block of `branch`, whose first line has index `line`. Returns `false` if all
    /// blocks of `branch` were read.
    fn enter(&mut self, branch: OpenBranch, line: usize) -> Result<bool, AllocError> {
        let mut branch = branch;
        let before = branch.left;
        let candidates = branch.candidates;
        let Some(split) = split_first(before) else {
            return Ok(false);
        };
        let (value, left) = split;
        self.take_others(candidates, value, branch.point, branch.line)?;
        self.block = Block {
            line,
            path: self.path.len(),
            needs: self.needs.len(),
        };
        branch.left = left;
        branch.count = self.needs.count(branch.line);
        self.branches.push(branch)?;
        Ok(true)
    }

    /// Records that the branching in `line` removes all `candidates` of `point` but `value`.
    fn take_others(
        &mut self,
        candidates: Mask,
        value: u8,
        point: u32,
        line: usize,
    ) -> Result<(), AllocError> {
        let mut others = candidates;
        for _ in 0..VALUES {
            let Some(split) = split_first(others) else {
                return Ok(());
            };
            let (other, left) = split;
            others = left;
            if other != value {
                self.path.push(point, other, line)?;
            }
        }
        Ok(())
    }

    /// Ends the current block by the line with index `number`, which says that `point` has no
    /// candidate left, and all branchings whose last block this is. Enters the next block, if there
    /// is one.
    fn close(&mut self, told: &TaskLines, number: usize, point: u32) -> Result<(), AllocError>
        requires { number < length told.now.lines.now }
    {
        self.kept.keep(number);
        self.need_all(point)?;
        self.end_block(told, 0)?;
        let end = number + 1;
        let mut bound = 0;
        for _ in 0..self.branches.len() {
            let Some(branch) = self.branches.pop() else {
                return Ok(());
            };
            let branch = self.end_child(branch, bound, end);
            if self.enter(branch, end)? {
                return Ok(());
            }
            bound = self.end_branch(&branch, end)?;
            self.end_block(told, bound)?;
        }
        Ok(())
    }

    /// Adds a need of each line that removed a value at `point`.
    fn need_all(&mut self, point: u32) -> Result<(), AllocError> {
        let mut number = self.path.latest_at(point);
        for _ in 0..VALUES {
            let Some(step) = self.path.step(number) else {
                return Ok(());
            };
            self.needs.add(step.line, self.block.needs)?;
            number = step.before;
        }
        Ok(())
    }

    /// Undoes the removals of the current block, last to first, and keeps the lines of those that
    /// are needed. All removals at points below `bound` are needed.
    fn end_block(&mut self, told: &TaskLines, bound: u32) -> Result<(), AllocError> {
        for _ in self.block.path..self.path.len() {
            if let Some(step) = self.path.pop() {
                self.judge(told, step, bound)?;
            }
        }
        Ok(())
    }

    /// Keeps the line of the removal `step` if it is needed, and adds the needs of its reasons.
    fn judge(&mut self, told: &TaskLines, step: Removal, bound: u32) -> Result<(), AllocError> {
        if step.point >= bound && self.needs.count(step.line) == 0 {
            return Ok(());
        }
        self.kept.keep(step.line);
        let Some(line) = told.lines.get(step.line) else {
            return Ok(());
        };
        match removed_value(told.task, told.protocol, *line) {
            Some(claim) => self.need_reasons(claim, bound),
            None => Ok(()),
        }
    }

    /// Adds the needs of a needed removal: for each tuple with the value of `claim`, a line that
    /// removed another of its values.
    ///
    /// Tuples with fewer removed values come first, since they leave less choice.
    fn need_reasons(&mut self, claim: PlacedValue, bound: u32) -> Result<(), AllocError> {
        for count in 1..=OTHER_PLACES {
            self.need_reasons_among(claim, bound, count)?;
        }
        Ok(())
    }

    /// Adds the needs of a needed removal, `claim`, for those tuples of which exactly `count` other
    /// values were removed.
    fn need_reasons_among(
        &mut self,
        claim: PlacedValue,
        bound: u32,
        count: usize,
    ) -> Result<(), AllocError> {
        let known = Known {
            needs: self.block.needs,
            bound,
        };
        for row in claim.rows {
            if claim.is_of(row) {
                let options = claim.options(row, &self.path, &self.needs, known);
                if let (true, Some(line)) = (options.count == count, options.line) {
                    self.needs.add(line, known.needs)?;
                }
            }
        }
        Ok(())
    }

    /// Returns to `branch` from its current block, whose lines end before index `end`. Notes the
    /// block if it is the first that refutes without what the branching decided.
    fn end_child(&mut self, branch: OpenBranch, bound: u32, end: usize) -> OpenBranch {
        let mut branch = branch;
        let uses = branch.point < bound || self.needs.count(branch.line) > branch.count;
        if !uses && branch.alone.is_none() {
            branch.alone = Some(Alone {
                line: self.block.line,
                line_end: end,
                needs: self.block.needs,
                needs_end: self.needs.len(),
            });
        }
        branch.bound = branch.bound.max(bound);
        self.path.back_to(branch.path);
        branch
    }

    /// Finishes `branch`, all of whose blocks were read; the last one ends before index `end`.
    /// Keeps the branching, or replaces it by a block that refutes without it.
    ///
    /// Returns a point: in the enclosing block, the removals at all points below it are needed.
    fn end_branch(&mut self, branch: &OpenBranch, end: usize) -> Result<u32, AllocError> {
        self.block = branch.block;
        if let Some(alone) = branch.alone {
            self.needs.forget(alone.needs_end, self.needs.len());
            self.needs.forget(branch.needs, alone.needs);
            self.kept.leave_out(branch.line, alone.line);
            self.kept.leave_out(alone.line_end, end);
            return Ok(0);
        }
        self.kept.keep(branch.line);
        self.need_all(branch.point)?;
        Ok(if self.is_least {
            branch.bound.max(branch.point)
        } else {
            0
        })
    }

    /// Keeps the line with index `number` and the lines of all removals.
    fn keep_all(&mut self, number: usize) {
        self.kept.keep(number);
        for step in self.path.steps() {
            self.kept.keep(step.line);
        }
    }
}

/// Returns the point of `process` in `execution`, or `None` if there is none.
fn point_of(protocol: &Protocol, execution: u32, process: u8) -> Option<u32> {
    if execution >= protocol.executions() {
        return None;
    }
    protocol.point_at(execution, process)
}

/// Returns whether the last line is `f`, which ends a search at its map.
fn leads_to_map(lines: &[Line]) -> bool {
    match lines.last() {
        Some(Line::Found) => true,
        _ => false,
    }
}
