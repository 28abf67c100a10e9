//! The question of a task as text.

ghost use Rattle.std.specs.Prelude.{◌≡◌, IfOk, length, map};
ghost use Rattle.wf_complex.specs.Protocol.{IsProtocol};
ghost use Rattle.wf_base.specs.Set.Sets.{values_in};
ghost use Rattle.wf_sat_formula.specs.Branches.{box_text};
ghost use Rattle.wf_sat_formula.specs.Dimacs.{question_text};
ghost use Rattle.wf_base.specs.Streams.Ends.{CanWrite};
ghost use Rattle.wf_base.specs.Streams.Texts.{WritesText};
ghost use Rattle.wf_sat_cnf.specs.Patterns.{patterns_seen};
ghost use Rattle.wf_sat_cnf.specs.Clauses.{patterns_of};
ghost use Rattle.wf_sat_cnf.specs.Exclusions.{Fits, part_text};

use crate::clauses::count_clauses;
use crate::exclusions::{Branch, candidates_of, count_exclusions};
use crate::head::Counts;
use crate::patterns::Patterns;
use crate::source::{ClauseSource, give_clauses};
use crate::variables::Variables;
use std::alloc::{AllocError, Global};
use std::io::Write;
use std::marker::Model;
use wf_base::streams::{Page, Sink, WriteFault};
use wf_complex::Protocol;
use wf_task::Task;

/// The formula that asks whether a task has a decision map over its protocol complex, or whether it
/// has one in a branch, ready to be written in DIMACS.
///
/// Contracts see the text.
#[derive(Drop)]
pub struct CnfFormula<'a> {
    protocol: &'a Protocol,
    // `None` if the question is the whole one
    branch: Option<Branch<'a>>,
    head: String,
    variables: Variables,
    // the minimal forbidden patterns of each input simplex, by its index
    patterns: Vec<Patterns>,
    page: Page,
}

impl<'a> Model for CnfFormula<'a> {
    ghost use Rattle.std.specs.Prelude.{ℕ, List};
    ghost use Rattle.wf_sat_cnf.specs.Questions.{question_seen, IsReady};

    ghost Value = { List ℕ };

    ghost view = { question_seen };

    ghost invariant = { IsReady };
}

impl<'a> CnfFormula<'a> {
    /// Creates the question of `task` over `protocol`, its protocol complex. All memory that is
    /// needed is taken here; it does not grow with the number of clauses.
    ///
    /// # Errors
    ///
    /// Returns `AllocError` if memory runs out, or if there are more than `u64::MAX` clauses.
    pub fn of(
        alloc: Global,
        task: &Task,
        protocol: &'a Protocol,
    ) -> Result<CnfFormula<'a>, AllocError>
        requires { IsProtocol task.now protocol.now.rounds protocol.now }
        ensures { IfOk result (λ q. q ≡ question_text task.now protocol.now.rounds) }
    {
        CnfFormula::on(alloc, task, protocol, None)
    }

    /// Creates the question of `task` over `protocol`, its protocol complex, that asks only for the
    /// maps in `branch`. All memory that is needed is taken here; it does not grow with the number
    /// of clauses.
    ///
    /// # Errors
    ///
    /// Returns `AllocError` if memory runs out, or if there are more than `u64::MAX` clauses.
    pub fn of_branch(
        alloc: Global,
        task: &Task,
        protocol: &'a Protocol,
        branch: Branch<'a>,
    ) -> Result<CnfFormula<'a>, AllocError>
        requires protocol { IsProtocol task.now protocol.now.rounds protocol.now }
        requires sets { length branch.sets.now ≡ length protocol.now.points }
        ensures { let b = branch.entry in IfOk result (λ q. q
            ≡ box_text task.now protocol.now.rounds b.number b.count (map values_in b.sets.now)) }
    {
        CnfFormula::on(alloc, task, protocol, Some(branch))
    }

    /// Creates the question of `branch`, or the whole question if `branch` is `None`.
    fn on(
        alloc: Global,
        task: &Task,
        protocol: &'a Protocol,
        branch: Option<Branch<'a>>,
    ) -> Result<CnfFormula<'a>, AllocError>
        requires protocol { IsProtocol task.now protocol.now.rounds protocol.now }
        requires branch { Fits branch protocol.now }
        ensures { IfOk result (λ q. q ≡ part_text task.now protocol.now.rounds branch.entry) }
    {
        let values = task.values();
        let variables = Variables::of(alloc, values)?;
        let patterns = all_patterns(alloc, task)?;
        let points = protocol.points();
        let Some(clauses) = count_clauses(&patterns, protocol) else {
            return Err(AllocError);
        };
        let Some(clauses) = count_exclusions(clauses, values, candidates_of(branch)) else {
            return Err(AllocError);
        };
        let counts = Counts {
            processes: task.processes(),
            rounds: protocol.rounds(),
            points,
            executions: protocol.executions(),
            variables: variables.count(points),
            clauses,
        };
        Ok(CnfFormula {
            protocol,
            branch,
            head: counts.head(alloc, branch, values)?,
            variables,
            patterns,
            page: Page::new(alloc)?,
        })
    }

    /// Writes the formula to `sink` and flushes it.
    ///
    /// # Errors
    ///
    /// Returns a `WriteFault` if a call of the writer fails; a prefix of the text was written then.
    pub fn write<W: Write>(self, sink: &mut Sink<W>) -> Result<(), WriteFault>
        requires { CanWrite sink.old }
        ensures { WritesText sink.old sink.new self.entry result }
    {
        let mut page = self.page;
        page.put(sink, self.head.as_bytes())?;
        let source = ClauseSource {
            variables: &self.variables,
            patterns: &self.patterns,
            protocol: self.protocol,
            sets: candidates_of(self.branch),
        };
        give_clauses(&mut page, sink, &source)?;
        page.finish(sink)
    }
}

/// Returns the minimal forbidden patterns of the rule of each input simplex, by the index of the
/// simplex.
///
/// # Errors
///
/// Returns `AllocError` if memory runs out.
pub fn all_patterns(alloc: Global, task: &Task) -> Result<Vec<Patterns>, AllocError>
    ensures { IfOk result (λ patterns. map patterns_seen patterns.items ≡ patterns_of task.now) }
{
    let values = task.values();
    let inputs = task.inputs().simplices();
    let mut patterns = Vec::new(alloc);
    for (simplex, input) in inputs.iter().enumerate() {
        let tuples = task.tuples(simplex as u32);
        patterns.push(Patterns::of(alloc, input.colours(), values, tuples)?)?;
    }
    Ok(patterns)
}
