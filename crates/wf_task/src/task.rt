//! Decision tasks: reading them from a text, with all checks, and writing their canonical text.

ghost use Rattle.std.specs.Prelude.{◌≡◌, ◌<◌, ◌≤◌, length, map, true, Some, None, Ok, IfOk, OnOk, vec_items};
ghost use Rattle.wf_model.specs.Simplex.{complex_of};
ghost use Rattle.wf_model.specs.Task.{IsTask, first_block, inputs, values};
ghost use Rattle.serde_json.specs.View.{view};
ghost use Rattle.wf_task.specs.Canonical.{HasFewFacets, IsListable, canonical_text, task_data, version_of};
ghost use Rattle.wf_base.specs.Set.Sets.{values_in};
ghost use Rattle.wf_task_parse.specs.RawTask.{Gives};
ghost use Rattle.wf_task_parse.specs.DraftSeen.{draft_seen, pairs_seen, entry_seen};
ghost use Rattle.wf_task.specs.Judge.{is_first_block, judged, drafted, task_of_text};
ghost use Rattle.wf_task.specs.Slots.{AreOf};
ghost use Rattle.wf_task.specs.TaskSeen.{task_of_parts, tuples_at};
ghost use Rattle.wf_task_parse.specs.Listed.{ListsVertices, ListsFew};
ghost use Rattle.wf_task.specs.Faultless.{IsFaultless};

use crate::canonical::{TaskFields, entries, facets, list, task_value};
use crate::complexes::{complex, judge_sizes};
use crate::judge::{judge_first_block, judge_numbers};
use crate::row::Row;
use crate::rows::{all_rows, mask};
use crate::slots::{EntryCount, judge_entries, slots};
use crate::tuples::judge_tuples;
use serde_json::Value;
use std::alloc::{AllocError, Global};
use std::marker::Model;
use wf_base::set::Mask;
use wf_simplex::Complex;
use wf_task_parse::{RawTask, TaskFault, draft_in};

/// The largest number of bytes in a text, of a task or of a report: 16 MiB.
pub const MAX_TEXT_BYTES: usize = 16_777_216;

/// A decision task (Herlihy and Shavit 1999): input simplices, output simplices, and for each input
/// simplex the tuples of output values that its processes may decide.
///
/// A task is valid by construction: its inputs and outputs are complexes, each tuple is an output
/// simplex on the processes of its input simplex, and the numbers of processes, inputs and tuples
/// and the values are within the limits of task texts.
#[derive(Drop)]
pub struct Task {
    processes: u8,
    symmetric: bool,
    inputs: Complex,
    outputs: Complex,
    // the tuples of each input simplex, in the order of `inputs`
    tuples: Vec<Vec<Row>>,
    // the values that occur in `outputs`
    values: Mask,
    // the least number of participants in a first block; `None` if all words are allowed
    least_block: Option<u8>,
}

impl Model for Task {
    ghost use Rattle.wf_model.specs.Task.{Task};

    ghost Value = { Task };

    ghost use Rattle.wf_task.specs.TaskSeen.{task_seen, IsKept};

    ghost view = { task_seen };

    ghost invariant = { IsKept };
}

impl Task {
    /// Reads and checks the text of a task.
    ///
    /// # Errors
    ///
    /// Returns the first fault of the text, in the order in which [`TaskFault`] numbers the checks,
    /// or `OutOfMemory` if memory runs out.
    #[tactic(auto, unfolding(crate::specs::Judge::task_of_text, crate::specs::Judge::task_of_json))]
    pub fn read_text(alloc: Global, bytes: &[u8]) -> Result<Task, TaskFault>
        ensures { Gives (λ t. t) result (task_of_text bytes.now) }
    {
        if bytes.len() > MAX_TEXT_BYTES {
            return Err(TaskFault::TooLong);
        }
        let draft = draft_in(alloc, bytes)?;
        judge(alloc, &draft)
    }

    /// Creates a task from its parts, which must be those of a valid task. `tuples` has the tuples
    /// of each input simplex, in the order of `inputs`. The task allows all words in each round.
    pub fn of_parts(
        processes: u8,
        symmetric: bool,
        inputs: Complex,
        outputs: Complex,
        tuples: Vec<Vec<Row>>,
    ) -> Task
        requires task { IsTask
            (task_of_parts processes symmetric inputs (map vec_items tuples.items) outputs) }
        requires each { length (map vec_items tuples.items) ≡ length inputs }
        requires few { HasFewFacets outputs }
        ensures { result
            ≡ task_of_parts processes symmetric inputs (map vec_items tuples.items) outputs }
    {
        Task {
            values: mask(outputs.simplices()),
            least_block: None,
            processes,
            symmetric,
            inputs,
            outputs,
            tuples,
        }
    }

    /// Returns the canonical text: compact JSON with its keys in alphabetical order, the facets of
    /// the input and the output complex in order, and an entry for each input simplex in order,
    /// with its tuples ascending. Reading the text gives the same task.
    ///
    /// # Errors
    ///
    /// Returns `AllocError` if memory runs out.
    #[tactic(auto, unfolding(crate::specs::Canonical::canonical_text), using(crate::proofs::Written::task_has_no_float))]
    pub fn write_text(&self, alloc: Global) -> Result<Vec<u8>, AllocError>
        ensures text { IfOk result (λ text. text.items ≡ canonical_text self.now) }
        ensures reads_back { IfOk result (λ text. task_of_text text.items ≡ Ok self.now) }
    {
        let text = self.value(alloc)?.to_string(alloc)?;
        Ok(text.into_bytes())
    }

    /// Returns the JSON value of the canonical text.
    fn value(&self, alloc: Global) -> Result<Value, AllocError>
        ensures value { IfOk result (λ v. view v ≡ task_data self.now) }
        ensures listable { OnOk result (IsListable self.now) }
    {
        let delta = entries(alloc, self.inputs.simplices(), &self.tuples)?;
        let inputs = list(alloc, &facets(alloc, &self.inputs)?)?;
        let outputs = list(alloc, &facets(alloc, &self.outputs)?)?;
        let fields = TaskFields {
            least_block: self.least_block,
            processes: self.processes,
            symmetric: self.symmetric,
            inputs,
            outputs,
            delta,
        };
        task_value(alloc, fields)
    }

    /// Returns the number of processes, from 1 to 4.
    pub fn processes(&self) -> u8
        ensures processes { result ≡ self.now.processes }
        ensures task { IsTask self.now }
    {
        self.processes
    }

    /// Returns whether the task is symmetric: processes know one another by their rank among those
    /// that they have seen, and not by name.
    pub fn symmetric(&self) -> bool
        ensures { result ≡ self.now.symmetric }
    {
        self.symmetric
    }

    /// Returns the least number of participants in the first block of a word. Words with fewer
    /// participants have all of them in it. 1 means that all words are allowed.
    pub fn first_block(&self) -> u8
        ensures first_block { result ≡ first_block self.now }
        ensures some { 1 ≤ result }
        ensures few { result ≤ 4 }
    {
        self.least_block.unwrap_or(1)
    }

    /// Returns the version of the task's texts: 1 if all words are allowed, and 2 if they name the
    /// least size of a first block.
    pub fn version(&self) -> u8
        ensures { result ≡ version_of self.now.least_block }
    {
        match self.least_block {
            None => 1,
            Some(_) => 2,
        }
    }

    /// Returns the input complex.
    pub fn inputs(&self) -> &Complex
        ensures inputs { result.now ≡ inputs self.now }
        ensures task { IsTask self.now }
    {
        &self.inputs
    }

    /// Returns the output complex.
    pub fn outputs(&self) -> &Complex
        ensures { result.now ≡ self.now.outputs }
    {
        &self.outputs
    }

    /// Returns the tuples of the input simplex with index `simplex`, in ascending order, each once.
    pub fn tuples(&self, simplex: u32) -> &[Row]
        requires { simplex < length self.now.delta }
        ensures { tuples_at self.now simplex ≡ Some result.now }
    {
        let tuples = self.tuples.as_slice();
        let place = simplex as usize;
        tuples[place].as_slice()
    }

    /// Returns the set of the values that occur in the output complex.
    pub fn values(&self) -> Mask
        ensures values { values_in result ≡ values self.now }
    {
        self.values
    }
}

/// Checks `draft`, and creates its task.
///
/// # Errors
///
/// Returns the first fault, in the order in which [`TaskFault`] numbers the checks.
#[tactic(auto, unfolding(crate::specs::Judge::judged))]
fn judge(alloc: Global, draft: &RawTask) -> Result<Task, TaskFault>
    requires vertices { ListsVertices (draft_seen draft.now) }
    requires few { ListsFew (draft_seen draft.now) }
    ensures { Gives (λ t. t) result (judged (draft_seen draft.now)) }
{
    judge_numbers(draft)?;
    let inputs = complex(alloc, &draft.inputs)?;
    judge_sizes(draft, inputs.simplices())?;
    let slots = slots(alloc, &inputs, &draft.delta)?;
    judge_entries(draft, &inputs, &slots)?;
    let outputs = complex(alloc, &draft.outputs)?;
    judge_tuples(draft, inputs.simplices(), &slots, &outputs)?;
    if draft.inputs.is_empty() {
        return Err(TaskFault::NoInput);
    }
    judge_first_block(draft)?;
    Ok(task_of_draft(alloc, draft, inputs, outputs, &slots)?)
}

/// Converts the least size of a first block, which must be from 1 to 4 if present, to eight bits.
fn to_u8(least_block: Option<u64>) -> Option<u8>
    requires { is_first_block least_block ≡ true }
    ensures { result ≡ least_block }
{
    match least_block {
        None => None,
        Some(m) => Some(m as u8),
    }
}

/// Creates the task of a draft that has passed all checks. `inputs` and `outputs` must be its
/// complexes, and `slots` the entries of its input simplices.
fn task_of_draft(
    alloc: Global,
    draft: &RawTask,
    inputs: Complex,
    outputs: Complex,
    slots: &[EntryCount],
) -> Result<Task, AllocError>
    requires faultless { IsFaultless (draft_seen draft.now) }
    requires inputs { inputs ≡ complex_of (map pairs_seen draft.now.inputs.items) }
    requires outputs { outputs ≡ complex_of (map pairs_seen draft.now.outputs.items) }
    requires slots { AreOf slots.now (map entry_seen draft.now.delta.items) inputs }
    ensures { IfOk result (λ t. t ≡ drafted (draft_seen draft.now)) }
{
    let tuples = all_rows(alloc, &draft.delta, slots)?;
    let values = mask(outputs.simplices());
    Ok(Task {
        processes: draft.processes as u8,
        symmetric: draft.symmetric,
        inputs,
        outputs,
        tuples,
        values,
        least_block: to_u8(draft.least_block),
    })
}
