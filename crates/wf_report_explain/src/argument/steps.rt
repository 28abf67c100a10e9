//! Writing the steps that remove values from a point.

ghost use Rattle.std.specs.Prelude.{◌≡◌, ◌<◌, ◌≤◌, ◌++◌, ◌+◌, ◌^◌, codes, drop, length, string_bytes, IfOk, OnOk};
ghost use Rattle.wf_model.specs.Task.{inputs};
ghost use Rattle.wf_model.specs.Problem.{constraint_at};
ghost use Rattle.wf_model.specs.Check.{place_of};
ghost use Rattle.wf_base.specs.Set.Sets.{values_in};
ghost use Rattle.wf_report_explain.specs.Argument.ArgumentState.{after_taking, left_at};
ghost use Rattle.wf_report_explain.specs.Words.Subject.{IsMatched, executions_in, problem_in};
ghost use Rattle.wf_report_explain.specs.Argument.Subject.{IsSeat, state_after, taking_left};
ghost use Rattle.wf_report_explain.specs.Words.Text.{execution_at, indented, rest_text};
ghost use Rattle.wf_report_explain.specs.Argument.Text.{claim_text, grounds_text, left_there, told_taking};
ghost use Rattle.wf_report_explain.specs.Argument.Trail.{state_of, values_of};

use crate::argument::grounds::Grounds;
use crate::argument::reasons::values_at;
use crate::argument::seat::Participant;
use crate::argument::state::ArgumentState;
use crate::argument::words::put_reasons;
use crate::words::{Subject, put_margin, put_needed, put_remaining, put_values};
use std::alloc::AllocError;
use std::fmt::Write;
use wf_base::set::{Mask, intersection};

/// A step that removes values from a point of an execution.
#[derive(Clone, Copy, Debug)]
struct TakingStep<'a> {
    seat: Participant<'a>,
    point: u32,
    values: &'a [u8],
}

/// The values that consecutive lines remove from one process in one execution.
#[derive(Clone, Copy, Debug)]
pub(crate) struct LineRun<'a> {
    execution: u32,
    process: u8,
    values: &'a [u8],
}

/// The values that are still to be removed from a process in an execution.
#[derive(Clone, Copy, Debug)]
struct ValuesToTake<'a> {
    seat: Participant<'a>,
    values: &'a [u8],
}

impl<'a> LineRun<'a> {
    /// Creates the run of lines that remove `values` from `process` in `execution`.
    pub(crate) fn of(execution: u32, process: u8, values: &'a [u8]) -> LineRun<'a>
        ensures execution { result.execution ≡ execution }
        ensures process { result.process ≡ process }
        ensures values { result.values.now ≡ values.now }
    {
        LineRun {
            execution,
            process,
            values,
        }
    }
}

/// Appends the steps that remove the values of `run`, and removes them in `state`. Appends nothing
/// if the process takes no part in the execution, or there is no such execution.
pub(crate) fn put_taking(
    text: &mut String,
    subject: &Subject,
    run: &LineRun,
    state: &mut ArgumentState,
    grounds: &mut Grounds,
) -> Result<(), AllocError>
    requires subject { IsMatched subject.now }
    requires few { state.old.number + length run.now.values.now < 2 ^ 64 }
    requires values { values_of state.old ≡ (problem_in subject.now).values }
    ensures text { let p = problem_in subject.now in let s = state_of state.old in
        let at = place_of 0 run.now.process (constraint_at p run.now.execution).scope in
        let es = executions_in subject.now in
        OnOk result (string_bytes text.new ≡ string_bytes text.old
        ++ told_taking p es s run.now.execution run.now.values.now at) }
    ensures state { let p = problem_in subject.now in let s = state_of state.old in
        let at = place_of 0 run.now.process (constraint_at p run.now.execution).scope in OnOk result
        (state_of state.new ≡ after_taking p s run.now.execution run.now.values.now at) }
    ensures values { state.new.values ≡ state.old.values }
{
    let protocol = subject.protocol;
    if run.execution >= protocol.executions() {
        return Ok(());
    }
    let number = protocol.simplex_of(run.execution);
    let simplex = &subject.task.inputs().simplices()[number as usize];
    let Some(place) = simplex.place(run.process) else {
        return Ok(());
    };
    let seat = Participant {
        execution: run.execution,
        place,
        points: protocol.points_of(run.execution),
        tuples: subject.task.tuples(number),
    };
    let taking = ValuesToTake {
        seat,
        values: run.values,
    };
    put_steps(text, subject, &taking, state, grounds)
}

/// Appends the steps that remove the values of `taking`, and removes them in `state`.
fn put_steps(
    text: &mut String,
    subject: &Subject,
    taking: &ValuesToTake,
    state: &mut ArgumentState,
    grounds: &mut Grounds,
) -> Result<(), AllocError>
    requires subject { IsMatched subject.now }
    requires seat { IsSeat subject.now taking.now.seat }
    requires few { state.old.number + length taking.now.values.now < 2 ^ 64 }
    requires values { values_of state.old ≡ (problem_in subject.now).values }
    ensures text { let x = taking.now in OnOk result (string_bytes text.new
        ≡ string_bytes text.old ++ taking_left subject.now x.seat state.old x.values.now) }
    ensures state { let x = taking.now in OnOk result (state_of state.new
        ≡ state_after subject.now x.seat state.old x.values.now) }
    ensures values { state.new.values ≡ state.old.values }
{
    let mut told = 0;
    'steps: while told < taking.values.len() {
        let rest = ValuesToTake {
            seat: taking.seat,
            values: &taking.values[told..],
        };
        told += put_next(text, subject, &rest, state, grounds)?;
    }
    Ok(())
}

/// Appends the step that removes the first of the values in `taking`, and removes the step's values
/// in `state`. Returns their number.
fn put_next(
    text: &mut String,
    subject: &Subject,
    taking: &ValuesToTake,
    state: &mut ArgumentState,
    grounds: &mut Grounds,
) -> Result<usize, AllocError>
    requires subject { IsMatched subject.now }
    requires seat { IsSeat subject.now taking.now.seat }
    requires some { 0 < length taking.now.values.now }
    requires few { state.old.number + 1 < 2 ^ 64 }
    requires values { values_of state.old ≡ (problem_in subject.now).values }
    ensures text { let x = subject.now in let seat = taking.now.seat in IfOk result (λ count.
        string_bytes text.new ++ taking_left x seat state.new (drop count taking.now.values.now)
        ≡ string_bytes text.old ++ taking_left x seat state.old taking.now.values.now) }
    ensures state { let x = subject.now in let seat = taking.now.seat in IfOk result (λ count.
        state_after x seat state.new (drop count taking.now.values.now)
        ≡ state_after x seat state.old taking.now.values.now) }
    ensures number { OnOk result (state.new.number ≡ state.old.number + 1) }
    ensures some { IfOk result (λ count. 0 < count) }
    ensures within { IfOk result (λ count. count ≤ length taking.now.values.now) }
    ensures values { state.new.values ≡ state.old.values }
{
    let seat = &taking.seat;
    let count = grounds.choose_step(seat, taking.values, state)?;
    let step = TakingStep {
        seat: *seat,
        point: seat.points[seat.place as usize],
        values: &taking.values[..count],
    };
    put_step(text, subject, &step, state, grounds)?;
    state.number += 1;
    Ok(count)
}

/// Appends `step` with its grounds. Its values must be removed in `state` already.
fn put_step(
    text: &mut String,
    subject: &Subject,
    step: &TakingStep,
    state: &ArgumentState,
    grounds: &mut Grounds,
) -> Result<(), AllocError>
    requires subject { IsMatched subject.now }
    requires execution { step.now.seat.execution < length subject.now.protocol.now.simplices }
    ensures { let s = state_of state.now in let v = step.now.point in let x = step.now.seat in
        let left = left_there x.tuples.now x.place (left_at (values_of state.now) s.gone v) in
        let tuples = grounds.old.needed.items in let reasons = grounds.old.reasons.items in
        OnOk result (string_bytes text.new ≡ string_bytes text.old
        ++ indented s.depth (claim_text s.number v step.now.values.now x.execution
        ++ (execution_at (executions_in subject.now) x.execution ++ (codes ", "
        ++ (grounds_text x.points.now tuples reasons ++ rest_text v left))))) }
{
    put_margin(text, state.depth)?;
    put_claim(text, state.number, step)?;
    subject
        .executions
        .put(text, subject.task, subject.protocol, step.seat.execution)?;
    write!(text, ", ")?;
    put_grounds(text, step.seat.points, grounds)?;
    put_remaining(text, step.point, left_there(step, state), &mut grounds.room)?;
    writeln!(text)?;
    Ok(())
}

/// Returns the values that the point of `step` has left, of those that the execution allows there.
fn left_there(step: &TakingStep, state: &ArgumentState) -> Mask
    ensures { let x = step.now.seat in values_in result ≡ left_there x.tuples.now x.place
        (left_at (values_of state.now) (state_of state.now).gone step.now.point) }
{
    let seat = &step.seat;
    intersection(state.left(step.point), values_at(seat.tuples, seat.place))
}

/// Appends the beginning of step `number`: its point and values, and the number of the execution.
fn put_claim(text: &mut String, number: usize, step: &TakingStep) -> Result<(), AllocError>
    ensures { let v = step.now.point in OnOk result (string_bytes text.new ≡ string_bytes text.old
        ++ claim_text number v step.now.values.now step.now.seat.execution) }
{
    let point = step.point;
    let execution = step.seat.execution;
    write!(text, "{number}. v{point} is not ")?;
    put_values(text, step.values)?;
    write!(text, ": in execution {execution}, ")?;
    Ok(())
}

/// Appends the tuples that the execution with `points` would need, and the reasons why none of them
/// is possible.
fn put_grounds(text: &mut String, points: &[u32], grounds: &mut Grounds) -> Result<(), AllocError>
    ensures { let tuples = grounds.old.needed.items in let reasons = grounds.old.reasons.items in
        OnOk result (string_bytes text.new ≡ string_bytes text.old
        ++ grounds_text points.now tuples reasons) }
{
    put_needed(text, points, grounds.needed.as_slice())?;
    put_reasons(text, grounds.reasons.as_slice(), &mut grounds.room)?;
    write!(text, ".")?;
    Ok(())
}
