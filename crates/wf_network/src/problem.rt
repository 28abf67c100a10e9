//! The constraint problem of a task and its protocol complex.

ghost use Rattle.std.specs.Prelude.{◌≡◌, ◌<◌, ◌≤◌, ◌^◌, ℕ, All, length, map, slice_index, take, IfOk};
ghost use Rattle.std.specs.List.{slice_index_or};
ghost use Rattle.wf_model.specs.Simplex.{processes_of};
ghost use Rattle.wf_model.specs.Task.{IsTask, IsTaskSimplex};
ghost use Rattle.wf_model.specs.Problem.{IsWellFormed, problem_of};
ghost use Rattle.wf_complex.specs.Protocol.{IsProtocol};
ghost use Rattle.wf_model.specs.Split.{most_values};
ghost use Rattle.wf_model.specs.Limits.{most_points};
ghost use Rattle.wf_base.specs.Set.Sets.{values_in};
ghost use Rattle.wf_network.specs.Problems.{AreAlike, HasTable, IsNetwork, IsRuleOf, IsWide, KeepsProcesses, constraints_in, executions_in, rule_seen};
ghost use Rattle.wf_network.specs.Users.{AreWordsBelow, users_of};

use crate::leads::leads;
use crate::users::{MarkMask, Users};
use std::alloc::{AllocError, Global};
use std::marker::Model;
use std::sync::Arc;
use wf_base::set::Mask;
use wf_complex::{PackedExecution, Protocol};
use wf_lane::TupleTable;
use wf_simplex::Simplex;
use wf_task::{Row, Task};

/// Number of preceding rules that are compared with a new one to find the same tuples.
const NEAR: usize = 64;

/// What a task allows at an input simplex: the processes of the simplex, and its tuples as a table.
#[derive(Drop)]
pub struct Rule {
    /// The input simplex.
    pub simplex: Simplex,
    /// Number of processes of the simplex.
    pub places: u8,
    /// The processes of the simplex, in ascending order, followed by zeros.
    pub processes: [u8; 4],
    /// The tuples of the simplex, in the table that the kernel revises. Rules with the same tuples
    /// may share it.
    pub table: TupleTable,
    /// Index of a rule with the same table. It is this rule's own index if no rule shortly before
    /// it has the same tuples.
    pub like: u32,
}

impl Rule {
    /// Creates the rule of `simplex` with the table `table` of its tuples. `like` is the index of a
    /// rule with the same table.
    pub(crate) fn of(simplex: Simplex, table: TupleTable, like: u32) -> Rule
        requires wide { table.width ≡ length simplex }
        ensures rule { IsRuleOf simplex table.rows result }
        ensures wide { IsWide result }
        ensures processes { KeepsProcesses result }
        ensures like { result.like ≡ like }
    {
        Rule {
            simplex,
            places: simplex.colours(),
            processes: processes(simplex),
            table,
            like,
        }
    }

    /// Returns the number of processes of the input simplex, at most 4.
    #[inline]
    pub fn places(&self) -> u8
        requires kept { KeepsProcesses self.now }
        ensures count { result ≡ length self.now.simplex }
        ensures few { result ≤ 4 }
        ensures simplex { IsTaskSimplex self.now.simplex }
    {
        self.places
    }

    /// Returns the process of the input simplex at `place`. The places are in ascending order of
    /// the processes.
    #[inline]
    pub fn process_at(&self, place: u8) -> u8
        requires kept { KeepsProcesses self.now }
        requires place { place < length self.now.simplex }
        ensures { result ≡ slice_index (processes_of self.now.simplex) place }
    {
        self.processes[place as usize]
    }
}

/// Returns the processes of `simplex` in ascending order, followed by zeros.
fn processes(simplex: Simplex) -> [u8; 4]
    ensures long { length result ≡ 4 }
    ensures processes { (i : ℕ) → i < length simplex
        → slice_index result i ≡ slice_index (processes_of simplex) i }
{
    let mut processes = [0; 4];
    for place in 0..simplex.colours() {
        processes[place as usize] = simplex.colour(place);
    }
    processes
}

/// The constraints of a problem: a rule for each input simplex, the executions, and the executions
/// of each point.
#[derive(Drop)]
pub struct Network {
    /// Number of points.
    pub points: u32,
    /// The rule of each input simplex.
    pub rules: Vec<Rule>,
    /// For each rule the number of an execution that stands for all rules with its table: the key
    /// of their results in the kernel cache. It is the number of executions if there is no such
    /// execution, and then nothing is cached for the rule.
    pub leads: Vec<u32>,
    /// The executions, each with the index of its input simplex, which is the index of its rule.
    /// They are shared with the protocol complex.
    pub executions: Arc<Vec<PackedExecution>, Global>,
    /// The executions of each point.
    pub users: Users,
}

impl Network {
    /// Returns the number of executions.
    #[inline]
    pub fn execution_count(&self) -> usize
        ensures { result ≡ length (executions_in self.now) }
    {
        self.executions.len()
    }

    /// Returns the execution `number`.
    #[inline]
    pub fn execution(&self, number: usize) -> PackedExecution
        requires { number < length (executions_in self.now) }
        ensures { result ≡ slice_index_or (executions_in self.now) number result }
    {
        self.executions[number]
    }

    /// Returns all executions in which `point` stands, as masks for the marks of executions.
    #[inline]
    pub fn executions_of(&self, point: u32) -> &[MarkMask]
        requires network { IsNetwork self.now }
        requires point { point < self.now.points }
        ensures users { result.now ≡ users_of self.now.users point }
        ensures below { AreWordsBelow (length (executions_in self.now)) result.now }
    {
        self.users
            .of(point, self.points, self.executions.len() as u32)
    }
}

/// The constraint problem of a task after some rounds: it asks for a value for each point, so that
/// in each execution the values at its points are a tuple that the task allows. Such values are a
/// decision map.
///
/// Points and executions have the numbers of the protocol complex. The tuples of an input simplex
/// are stored once, for all its executions.
#[derive(Drop)]
pub struct Problem {
    // the values that occur in the task's outputs
    values: Mask,
    network: Network,
}

impl Model for Problem {
    ghost use Rattle.wf_model.specs.Problem.{Problem};

    ghost Value = { Problem };

    ghost use Rattle.wf_model.specs.Limits.{most_points};
    ghost use Rattle.wf_network.specs.Problems.{problem_seen, IsKept};

    ghost view = { problem_seen };

    ghost invariant = { IsKept };
}

impl Problem {
    /// Builds the problem of `task` on `protocol`, which must be the protocol complex of the same
    /// task.
    ///
    /// # Errors
    ///
    /// Returns `AllocError` if memory runs out.
    pub fn join(alloc: Global, task: &Task, protocol: &Protocol) -> Result<Problem, AllocError>
        requires built { IsProtocol task.now protocol.now.rounds protocol.now }
        ensures { IfOk result (λ problem. problem ≡ problem_of task.now protocol.now.rounds) }
    {
        let rules = rules(alloc, task)?;
        let executions = protocol.packed()?;
        let points = protocol.points();
        let users = Users::of_points(alloc, points, &executions)?;
        let leads = leads(alloc, &rules, &executions)?;
        Ok(Problem {
            values: task.values(),
            network: Network {
                points,
                rules,
                leads,
                executions,
                users,
            },
        })
    }

    /// Returns the number of points.
    pub fn points(&self) -> u32
        ensures points { result ≡ self.now.points }
        ensures few { result ≤ most_points }
        ensures few_values { length self.now.values ≤ most_values }
        ensures well_formed { IsWellFormed self.now }
    {
        self.network.points
    }

    /// Returns the values that occur in the outputs of the task: the candidates of each point in
    /// the root box.
    pub fn values(&self) -> Mask
        ensures { values_in result ≡ self.now.values }
    {
        self.values
    }

    /// Returns the constraints of the problem.
    pub fn network(&self) -> &Network
        ensures network { IsNetwork result.now }
        ensures points { result.now.points ≡ self.now.points }
        ensures constraints { constraints_in result.now ≡ self.now.constraints }
        ensures well_formed { IsWellFormed self.now }
    {
        &self.network
    }
}

/// Returns the rule of each input simplex of `task`, in the order of the simplices. A rule shares
/// the table of a rule with the same tuples if one of the [`NEAR`] rules before it has them.
fn rules(alloc: Global, task: &Task) -> Result<Vec<Rule>, AllocError>
    ensures rules { IfOk result (λ rules. map rule_seen rules.items ≡ task.now.delta) }
    ensures wide { IfOk result (λ rules. All IsWide rules.items) }
    ensures processes { IfOk result (λ rules. All KeepsProcesses rules.items) }
    ensures alike { IfOk result (λ rules. AreAlike rules.items) }
    ensures task { IsTask task.now }
{
    let inputs = task.inputs().simplices();
    let mut rules = Vec::with_capacity(alloc, inputs.len())?;
    for (number, simplex) in inputs.iter().enumerate() {
        let tuples = task.tuples(number as u32);
        let like = rule_with_table(task, &rules, *simplex, tuples);
        let table = table_of(alloc, &rules, like, *simplex, tuples)?;
        rules.push(Rule::of(*simplex, table, like))?;
    }
    Ok(rules)
}

/// Returns the index of a rule with as many processes as `simplex` and the tuples `tuples`, if one
/// of the last [`NEAR`] rules has these, or else the index that the next rule will have, which is
/// the length of `rules`.
fn rule_with_table(task: &Task, rules: &[Rule], simplex: Simplex, tuples: &[Row]) -> u32
    requires rules { map rule_seen rules.now ≡ take (length rules.now) task.now.delta }
    requires wide { All IsWide rules.now }
    requires alike { AreAlike rules.now }
    requires within { length rules.now ≤ length task.now.delta }
    requires few { length rules.now < 2 ^ 32 }
    ensures within { result ≤ length rules.now }
    ensures same { result < length rules.now → HasTable simplex tuples.now rules.now result }
{
    let count = rules.len();
    for number in count.saturating_sub(NEAR)..count {
        let rule = &rules[number];
        if rule.simplex.colours() == simplex.colours() && task.tuples(number as u32) == tuples {
            return rule.like;
        }
    }
    count as u32
}

/// Returns the table of the tuples of `simplex`. It shares the table of the rule `like` if there is
/// such a rule, and else builds a new one.
fn table_of(
    alloc: Global,
    rules: &[Rule],
    like: u32,
    simplex: Simplex,
    tuples: &[Row],
) -> Result<TupleTable, AllocError>
    requires same { like < length rules.now → HasTable simplex tuples.now rules.now like }
    requires long { All (λ tuple. length tuple ≡ length simplex) tuples.now }
    requires few { length tuples.now < 2 ^ 32 }
    ensures { IfOk result
        (λ table. table ≡ record { width = length simplex; rows = tuples.now }) }
{
    let like = like as usize;
    if like < rules.len() {
        return rules[like].table.share();
    }
    TupleTable::build(alloc, tuples, simplex.colours())
}
