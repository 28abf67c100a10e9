//! Writing the parts of an argument: steps, cases and their ends.

ghost use Rattle.std.specs.Prelude.{◌≡◌, ◌<◌, ◌≤◌, ◌∷◌, ◌++◌, ◌+◌, ◌^◌, codes, suc, drop, length, map, string_bytes, Some, None, IfOk, IfSome, OnOk};
ghost use Rattle.wf_model.specs.Problem.{problem_of};
ghost use Rattle.wf_complex.specs.Protocol.{IsProtocol};
ghost use Rattle.wf_base.specs.Lines.Lines.{line_of};
ghost use Rattle.wf_report_explain.specs.Argument.Parts.{parts_of};
ghost use Rattle.wf_report_explain.specs.Argument.ArgumentState.{cases_at, entered, start};
ghost use Rattle.wf_report_explain.specs.Words.Subject.{IsMatched, executions_in, problem_in};
ghost use Rattle.wf_report_explain.specs.Argument.Subject.{after_same, begun_text, now_if, one_if, same_value, same_values, steps_to_come, to_come};
ghost use Rattle.wf_report_explain.specs.Words.Text.{indented, name, named_executions, values_text};
ghost use Rattle.wf_report_explain.specs.Argument.Text.{end_text, parts_text, split_text, step_text, steps_made};
ghost use Rattle.wf_report_explain.specs.Argument.Trail.{state_of, values_of};

use crate::argument::grounds::Grounds;
use crate::argument::state::{ArgumentState, Case};
use crate::argument::steps::{LineRun, put_taking};
use crate::words::{Executions, Subject, list_values, put_margin, put_values};
use std::alloc::{AllocError, Global};
use std::fmt::Write;
use wf_base::lines::Line;
use wf_complex::Protocol;
use wf_task::Task;

/// Working memory that is shared by all parts.
#[derive(Drop)]
struct Room {
    // the grounds of the current step
    grounds: Grounds,
    // the values of the current part
    values: Vec<u8>,
}

/// Appends the parts of the argument that `lines` make. Returns the number of its steps.
pub(crate) fn put_lines(
    alloc: Global,
    text: &mut String,
    task: &Task,
    protocol: &Protocol,
    lines: &[Line],
) -> Result<usize, AllocError>
    requires { IsProtocol task.now protocol.now.rounds protocol.now }
    ensures text { let p = problem_of task.now protocol.now.rounds in
        let es = named_executions task.now protocol.now.rounds in
        OnOk result (string_bytes text.new ≡ string_bytes text.old
        ++ parts_text p es (Some (start p)) (parts_of (map line_of lines.now))) }
    ensures steps { let p = problem_of task.now protocol.now.rounds in
        IfOk result (λ steps. steps
        ≡ steps_made p (Some (start p)) (parts_of (map line_of lines.now))) }
{
    // The contract of this call says that the complex has few enough executions for the table.
    let _count = protocol.executions();
    let executions = Executions::of(alloc, task, protocol.rounds())?;
    let subject = Subject {
        task,
        protocol,
        executions: &executions,
    };
    let mut state = ArgumentState::start(alloc, protocol.points(), task.values())?;
    put_parts(alloc, text, &subject, lines, &mut state)?;
    Ok(state.number - 1)
}

/// Appends the parts that `lines` make, starting from `state`, until no case is left.
fn put_parts(
    alloc: Global,
    text: &mut String,
    subject: &Subject,
    lines: &[Line],
    state: &mut ArgumentState,
) -> Result<(), AllocError>
    requires subject { IsMatched subject.now }
    requires number { state.old.number ≡ 1 }
    requires values { values_of state.old ≡ (problem_in subject.now).values }
    ensures text { let p = problem_in subject.now in let es = executions_in subject.now in
        let parts = parts_of (map line_of lines.now) in
        OnOk result (string_bytes text.new ≡ string_bytes text.old
        ++ parts_text p es (Some (state_of state.old)) parts) }
    ensures number { let p = problem_in subject.now in
        let parts = parts_of (map line_of lines.now) in
        OnOk result (state.new.number ≡ 1 + steps_made p (Some (state_of state.old)) parts) }
{
    let mut room = Room {
        grounds: Grounds::new(alloc),
        values: Vec::new(alloc),
    };
    let mut told = 0;
    'parts: while told < lines.len() {
        let rest = &lines[told..];
        let Some(count) = put_part(text, subject, rest, state, &mut room)? else {
            return Ok(());
        };
        told += count;
    }
    Ok(())
}

/// Appends the part with which `lines` begins, and advances `state` past it. Returns the number of
/// its lines, or `None` if the argument is complete.
fn put_part(
    text: &mut String,
    subject: &Subject,
    lines: &[Line],
    state: &mut ArgumentState,
    room: &mut Room,
) -> Result<Option<usize>, AllocError>
    requires subject { IsMatched subject.now }
    requires some { 0 < length lines.now }
    requires few { state.old.number + length lines.now < 2 ^ 64 }
    requires values { values_of state.old ≡ (problem_in subject.now).values }
    ensures text { let x = subject.now in let ls = lines.now in IfOk result (λ count.
        string_bytes text.new ++ to_come x ls state.new count
        ≡ string_bytes text.old ++ to_come x ls state.old (Some 0)) }
    ensures count { IfOk result (λ count. IfSome count (λ n. 0 < n)) }
    ensures lines { IfOk result (λ count. IfSome count (λ n. n ≤ length lines.now)) }
    ensures steps { let x = subject.now in let ls = lines.now in IfOk result (λ count.
        state.new.number + steps_to_come x ls state.new count
        ≡ state.old.number + steps_to_come x ls state.old (Some 0)) }
    ensures number { IfOk result (λ count.
        IfSome count (λ n. state.new.number ≤ state.old.number + n)) }
    ensures values { state.new.values ≡ state.old.values }
{
    match lines[0] {
        Line::Remove {
            execution,
            process,
            value,
        } => {
            let count = set_values(&mut room.values, execution, process, value, lines)?;
            let run = LineRun::of(execution, process, &room.values);
            put_taking(text, subject, &run, state, &mut room.grounds)?;
            Ok(Some(count))
        }
        Line::Empty { point } => Ok(one_if(put_end(text, point, state)?)),
        Line::Branch { point } => Ok(one_if(put_split(text, point, state, &mut room.values)?)),
        Line::Found => Ok(None),
    }
}

/// Returns `Some(1)`, the number of lines of a part, if the argument continues, and `None`
/// otherwise.
fn one_if(is_going: bool) -> Option<usize>
    ensures { result ≡ one_if is_going }
{
    if is_going { Some(1) } else { None }
}

/// Replaces `values` by the values that the first lines remove from `process` in `execution`.
/// Returns the number of those lines. `first` is the value of the first one.
fn set_values(
    values: &mut Vec<u8>,
    execution: u32,
    process: u8,
    first: u8,
    lines: &[Line],
) -> Result<usize, AllocError>
    requires { 0 < length lines.now }
    ensures values { let rest = map line_of (drop 1 lines.now) in
        OnOk result (values.new.items ≡ first ∷ same_values execution process rest) }
    ensures after { let rest = map line_of (drop 1 lines.now) in IfOk result (λ count.
        map line_of (drop count lines.now) ≡ after_same execution process rest) }
    ensures count { IfOk result (λ count. count ≡ length values.new.items) }
    ensures some { IfOk result (λ count. 0 < count) }
    ensures within { IfOk result (λ count. count ≤ length lines.now) }
{
    values.clear();
    values.push(first)?;
    for place in 1..lines.len() {
        let Some(value) = value_of(&lines[place], execution, process) else {
            return Ok(place);
        };
        values.push(value)?;
    }
    Ok(lines.len())
}

/// Returns the value that `line` removes from process `from` in execution `of`, if it removes one.
fn value_of(line: &Line, of: u32, from: u8) -> Option<u8>
    ensures { result ≡ same_value of from (line_of line.now) }
{
    match line {
        Line::Remove {
            execution,
            process,
            value,
        } if *execution == of && *process == from => Some(*value),
        _ => None,
    }
}

/// Appends that `point` has no value left, and the beginning of the next case. Returns whether
/// there is one.
fn put_end(text: &mut String, point: u32, state: &mut ArgumentState) -> Result<bool, AllocError>
    ensures text { let s = state_of state.old in
        OnOk result (string_bytes text.new ≡ string_bytes text.old ++ end_text s point) }
    ensures state { let s = state_of state.old in
        IfOk result (λ is_going. now_if is_going state.new ≡ entered s.number s.later) }
    ensures number { state.new.number ≡ state.old.number }
    ensures values { state.new.values ≡ state.old.values }
{
    put_emptied(text, state.depth, point)?;
    let case = state.next()?;
    put_case(text, case)?;
    Ok(case.is_some())
}

/// Appends the line that says that `point` has no value left.
fn put_emptied(text: &mut String, depth: u8, point: u32) -> Result<(), AllocError>
    ensures { OnOk result (string_bytes text.new ≡ string_bytes text.old
        ++ indented depth (name point ++ codes " has no value left.")) }
{
    put_margin(text, depth)?;
    writeln!(text, "v{point} has no value left.")?;
    Ok(())
}

/// Appends that `point` has one of its remaining values, and the beginning of the case for the
/// first one. Returns whether there is a next case.
fn put_split(
    text: &mut String,
    point: u32,
    state: &mut ArgumentState,
    values: &mut Vec<u8>,
) -> Result<bool, AllocError>
    requires { state.old.number + 1 < 2 ^ 64 }
    ensures text { let s = state_of state.old in OnOk result (string_bytes text.new
        ≡ string_bytes text.old ++ split_text (values_of state.old) s point) }
    ensures state { let s = state_of state.old in
        let cases = cases_at (values_of state.old) s point ++ s.later in
        IfOk result (λ is_going. now_if is_going state.new ≡ entered (suc s.number) cases) }
    ensures number { OnOk result (state.new.number ≡ state.old.number + 1) }
    ensures values { state.new.values ≡ state.old.values }
{
    list_values(values, state.left(point))?;
    put_choice(text, state.depth, state.number, point, values)?;
    state.number += 1;
    let case = state.split(point)?;
    put_case(text, case)?;
    Ok(case.is_some())
}

/// Appends step `number`, which says that `point` has one of `values`.
fn put_choice(
    text: &mut String,
    depth: u8,
    number: usize,
    point: u32,
    values: &[u8],
) -> Result<(), AllocError>
    ensures { OnOk result (string_bytes text.new ≡ string_bytes text.old
        ++ indented depth (step_text number point
        ++ (codes " is " ++ (values_text values.now ++ codes ".")))) }
{
    put_margin(text, depth)?;
    write!(text, "{number}. v{point} is ")?;
    put_values(text, values)?;
    writeln!(text, ".")?;
    Ok(())
}

/// Appends the line that begins `case`, if there is one.
fn put_case(text: &mut String, case: Option<Case>) -> Result<(), AllocError>
    ensures { OnOk result (string_bytes text.new ≡ string_bytes text.old ++ begun_text case) }
{
    let Some(
        Case {
            point,
            value,
            depth,
        },
    ) = case
    else {
        return Ok(());
    };
    put_margin(text, depth)?;
    writeln!(text, "Case v{point} = {value}")?;
    Ok(())
}
