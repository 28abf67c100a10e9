//! The protocol complex of a task after r rounds.

ghost use Rattle.std.specs.Prelude.{◌≡◌, ◌<◌, ◌≤◌, Some, [], length, map, zip, slice_get, All, AllPairs, IfOk};
ghost use Rattle.std.specs.List.{slice_index_or};
ghost use Rattle.wf_model.specs.Limits.{most_executions, most_inputs, most_points, most_processes, most_rounds};
ghost use Rattle.wf_model.specs.Simplex.{processes_of};
ghost use Rattle.wf_model.specs.Task.{IsTaskSimplex};
ghost use Rattle.wf_complex.specs.Layout.{execution_total, laid_out, place_total};
ghost use Rattle.wf_complex.specs.Packed.{packed_on};
ghost use Rattle.wf_complex.specs.Places.{firsts_at, firsts_in};
ghost use Rattle.wf_complex.specs.Protocol.{ArePacked, Builds, point_in};
ghost use Rattle.wf_complex.specs.ProtocolMade.{IsMade};

use crate::classes::points_of;
use crate::fault::BuildFault;
use crate::firsts::{First, firsts_of};
use crate::layout::{MAX_EXECUTIONS, execution_count, lay_out, place_count};
use crate::packed::{PackedExecution, pack};
use crate::rounds::{RoundPlan, last_views};
use crate::views::Views;
use std::alloc::{AllocError, Global};
use std::marker::Model;
use std::sync::Arc;
use wf_simplex::Simplex;
use wf_task::Task;

/// The largest number of rounds.
const MAX_ROUNDS: u32 = 8;

/// The protocol complex of a task after some rounds of iterated immediate snapshot (Borowsky and
/// Gafni 1997): its executions, and its points, which are the views after the last round, or in a
/// symmetric task their classes.
///
/// Executions and points have indices from 0. Executions are ordered simplex by simplex, and on one
/// simplex by the word of the first round, then of the second, and so on. Points are ordered by
/// first appearance, execution by execution and by ascending process.
#[derive(Drop)]
pub struct Protocol {
    rounds: u32,
    views: Views,
    // the number of different last views
    view_count: u32,
    // the id of each point's class in `views`
    classes: Vec<u32>,
    // the first appearance of each point
    firsts: Vec<First>,
    // the input simplices, which say what processes an execution has
    inputs: Vec<Simplex>,
    executions: Arc<Vec<PackedExecution>, Global>,
}

impl Model for Protocol {
    ghost use Rattle.wf_complex.specs.Protocol.{Built};

    ghost Value = { Built };

    ghost use Rattle.wf_complex.specs.ProtocolSeen.{built_seen, built_code, IsKept};

    ghost coded = { built_code };

    ghost view = { built_seen };

    ghost invariant = { IsKept };
}

impl Protocol {
    /// Builds the protocol complex of `task` after `rounds` rounds.
    ///
    /// # Errors
    ///
    /// - `Rounds` if there are more than 8 rounds.
    /// - `TooManyExecutions` if there are more than 500,000 executions. They are counted before
    ///   anything is built.
    /// - `OutOfMemory` if memory runs out.
    pub fn build(alloc: Global, task: &Task, rounds: u32) -> Result<Protocol, BuildFault>
        ensures { Builds task.now rounds result }
    {
        if rounds > MAX_ROUNDS {
            return Err(BuildFault::Rounds);
        }
        let inputs = task.inputs().simplices();
        let first_block = task.first_block();
        if execution_count(inputs, first_block, rounds) > MAX_EXECUTIONS {
            return Err(BuildFault::TooManyExecutions);
        }
        Ok(complex_from(alloc, inputs, task.symmetric(), first_block, rounds)?)
    }

    /// Returns the number of rounds.
    pub fn rounds(&self) -> u32
        ensures { result ≡ self.now.rounds }
    {
        self.rounds
    }

    /// Returns the number of points.
    pub fn points(&self) -> u32
        ensures points { result ≡ length self.now.points }
        ensures few { result ≤ most_points }
    {
        self.classes.len() as u32
    }

    /// Returns the number of executions.
    pub fn executions(&self) -> u32
        ensures executions { result ≡ length self.now.scopes }
        ensures few { result ≤ most_executions }
    {
        self.executions.len() as u32
    }

    /// Returns the index of the input simplex of the execution with index `execution`.
    pub fn simplex_of(&self, execution: u32) -> u32
        requires { execution < length self.now.scopes }
        ensures { slice_get self.now.simplices execution ≡ Some result }
    {
        self.executions[execution as usize].simplex
    }

    /// Returns the point of `process` in the execution with index `execution`, or `None` if the
    /// process does not take part.
    pub fn point_at(&self, execution: u32, process: u8) -> Option<u32>
        requires { execution < length self.now.scopes }
        ensures { result ≡ point_in process (slice_index_or self.now.scopes execution []) }
    {
        let at = &self.executions[execution as usize];
        let simplex = &self.inputs[at.simplex as usize];
        point_among(simplex, self.points_of(execution), process)
    }

    /// Returns the points of the execution with index `execution`, by ascending process.
    pub fn points_of(&self, execution: u32) -> &[u32]
        requires { execution < length self.now.scopes }
        ensures { result.now ≡ map (λ at. at.1) (slice_index_or self.now.scopes execution []) }
    {
        let at = &self.executions[execution as usize];
        let simplex = &self.inputs[at.simplex as usize];
        &at.points[..simplex.colours() as usize]
    }

    /// Returns all executions in their packed form. They are shared and not copied.
    ///
    /// # Errors
    ///
    /// Returns `AllocError`, for instance if there are too many references to them.
    pub fn packed(&self) -> Result<Arc<Vec<PackedExecution>, Global>, AllocError>
        ensures packed { IfOk result (λ executions. ArePacked self.now executions.value.items) }
        ensures few { IfOk result
            (λ executions. length executions.value.items ≤ most_executions) }
    {
        Arc::try_clone(&self.executions)
    }

    /// Returns the id, in [`Protocol::views`], of the view of `point`, or in a symmetric task of
    /// its class.
    pub fn view_of(&self, point: u32) -> u32
        requires { point < length self.now.points }
        ensures { slice_get self.now.table result ≡ slice_get self.now.points point }
    {
        self.classes[point as usize]
    }

    /// Returns the execution and the process in which `point` appears first.
    pub fn first_of(&self, point: u32) -> (u32, u8)
        requires { point < length self.now.points }
        ensures { slice_get self.now.firsts point ≡ Some result }
    {
        let first = self.firsts[point as usize];
        (first.execution, first.process)
    }

    /// Returns the number of different last views. In a symmetric task several of them may be one
    /// point.
    pub fn view_count(&self) -> u32
        ensures { result ≡ self.now.view_count }
    {
        self.view_count
    }

    /// Returns the table of views.
    pub fn views(&self) -> &Views
        ensures { result.now ≡ self.now.table }
    {
        &self.views
    }
}

/// Builds the protocol complex on the input simplices `inputs`. In each round, the first block has
/// at least `first_block` participants, or all if there are fewer.
fn complex_from(
    alloc: Global,
    inputs: &[Simplex],
    symmetric: bool,
    first_block: u8,
    rounds: u32,
) -> Result<Protocol, AllocError>
    requires one { 1 ≤ first_block }
    requires most { first_block ≤ most_processes }
    requires rounds { rounds ≤ most_rounds }
    requires executions { execution_total first_block rounds inputs.now ≤ most_executions }
    requires few { length inputs.now ≤ most_inputs }
    requires simplices { All IsTaskSimplex inputs.now }
    ensures { IfOk result (IsMade inputs.now symmetric first_block rounds) }
{
    let mut views = Views::start(alloc);
    let room = place_count(inputs, first_block, rounds);
    let plan = RoundPlan {
        first_block,
        rounds,
    };
    let lasts = last_views(alloc, &mut views, inputs, plan, room)?;
    let points = points_of(alloc, &mut views, lasts, symmetric)?;
    let placed = place_all(alloc, inputs, plan, points.numbers, &points.firsts)?;
    Ok(Protocol {
        rounds,
        views,
        view_count: points.view_count,
        classes: points.classes,
        firsts: placed.firsts,
        inputs: placed.inputs,
        executions: placed.executions,
    })
}

/// Input simplices, the executions on them, and the first appearances of their points.
#[derive(Drop)]
struct LaidOut {
    inputs: Vec<Simplex>,
    executions: Arc<Vec<PackedExecution>, Global>,
    firsts: Vec<First>,
}

/// Returns `inputs` with the executions on them and the first appearances of the points. `numbers`
/// are the points of the executions' processes, one execution after another, and `places` the
/// positions in this list at which the points appear first.
fn place_all(
    alloc: Global,
    inputs: &[Simplex],
    plan: RoundPlan,
    numbers: Vec<u32>,
    places: &[u32],
) -> Result<LaidOut, AllocError>
    requires one { 1 ≤ plan.first_block }
    requires most { plan.first_block ≤ most_processes }
    requires few { execution_total plan.first_block plan.rounds inputs.now ≤ most_executions }
    requires inputs { length inputs.now ≤ most_inputs }
    requires sizes { All (λ s. length s ≤ most_processes) inputs.now }
    requires numbers { length numbers.items ≡ place_total plan.first_block plan.rounds inputs.now }
    requires places { All (λ j. j < length numbers.items) places.now }
    requires ascending { AllPairs (λ i j. i < j) places.now }
    ensures inputs { IfOk result (λ p. p.inputs.items ≡ inputs.now) }
    ensures executions { IfOk result (λ p. p.executions.value.items
        ≡ map (packed_on numbers.items) (laid_out plan.first_block plan.rounds 0 0 inputs.now)) }
    ensures firsts { IfOk result (λ p. firsts_in p.firsts.items ≡ firsts_at inputs.now
        (laid_out plan.first_block plan.rounds 0 0 inputs.now) places.now) }
{
    let first_block = plan.first_block;
    let rounds = plan.rounds;
    let packed = pack(alloc, inputs, first_block, rounds, numbers)?;
    let firsts = firsts_among(alloc, inputs, first_block, rounds, places)?;
    let inputs = inputs.to_vec(alloc)?;
    Ok(LaidOut {
        inputs,
        executions: Arc::new(alloc, packed)?,
        firsts,
    })
}

/// Returns the execution and the process at each of `places`, which are ascending positions in the
/// list of last views of all executions on `inputs`.
fn firsts_among(
    alloc: Global,
    inputs: &[Simplex],
    first_block: u8,
    rounds: u32,
    places: &[u32],
) -> Result<Vec<First>, AllocError>
    requires one { 1 ≤ first_block }
    requires most { first_block ≤ most_processes }
    requires few { execution_total first_block rounds inputs.now ≤ most_executions }
    requires inputs { length inputs.now ≤ most_inputs }
    requires sizes { All (λ s. length s ≤ most_processes) inputs.now }
    requires places { All (λ j. j < place_total first_block rounds inputs.now) places.now }
    requires ascending { AllPairs (λ i j. i < j) places.now }
    ensures { IfOk result (λ firsts. firsts_in firsts.items
        ≡ firsts_at inputs.now (laid_out first_block rounds 0 0 inputs.now) places.now) }
{
    let spans = lay_out(alloc, inputs, first_block, rounds)?;
    firsts_of(alloc, inputs, &spans, places)
}

/// Returns the item of `points` that belongs to `process`. `points` has one item for each process
/// of `simplex`.
fn point_among(simplex: &Simplex, points: &[u32], process: u8) -> Option<u32>
    requires { length simplex.now ≡ length points.now }
    ensures { result ≡ point_in process (zip (processes_of simplex.now) points.now) }
{
    for place in 0..simplex.colours() {
        if simplex.colour(place) == process {
            return Some(points[place as usize]);
        }
    }
    None
}
