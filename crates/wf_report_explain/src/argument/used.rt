//! Finding the executions and points that an argument uses.

ghost use Rattle.std.specs.Prelude.{◌≡◌, ◌==◌, IfOk, count_by, length, map};
ghost use Rattle.std.specs.List.{list_any};
ghost use Rattle.wf_base.specs.Lines.Lines.{line_of};
ghost use Rattle.wf_model.specs.Lists.{has};
ghost use Rattle.wf_report_explain.specs.Argument.Text.{is_in};
ghost use Rattle.wf_report_explain.specs.Argument.Used.{AreMarked, MarksEach, is_named, points_at};

use std::alloc::{AllocError, Global};
use wf_base::lines::Line;
use wf_complex::Protocol;

/// Returns for each execution whether `lines` remove a value in it.
pub(crate) fn used_executions(
    alloc: Global,
    protocol: &Protocol,
    lines: &[Line],
) -> Result<Vec<bool>, AllocError>
    ensures { IfOk result (λ marks. MarksEach (length protocol.now.scopes) marks.items
        (λ e. list_any (is_in e) (map line_of lines.now))) }
{
    let mut marks = vec![in alloc; false; protocol.executions() as usize]?;
    for line in lines {
        mark_execution(&mut marks, line);
    }
    Ok(marks)
}

/// Returns for each point whether `lines` name it: as empty, as the point of a branching, or as a
/// point of an execution in which a value is removed.
pub(crate) fn used_points(
    alloc: Global,
    protocol: &Protocol,
    lines: &[Line],
) -> Result<Vec<bool>, AllocError>
    ensures { IfOk result (λ marks. MarksEach (length protocol.now.points) marks.items
        (λ v. list_any (is_named protocol.now.scopes v) (map line_of lines.now))) }
{
    let mut marks = vec![in alloc; false; protocol.points() as usize]?;
    for line in lines {
        mark_points(&mut marks, protocol, line);
    }
    Ok(marks)
}

/// Returns the number of marks that are true.
pub(crate) fn count(marks: &[bool]) -> usize
    ensures { result ≡ count_by (λ is_marked. is_marked) marks.now }
{
    let mut count = 0;
    for is_marked in marks {
        if *is_marked {
            count += 1;
        }
    }
    count
}

/// Marks the execution in which `line` removes a value, if it does.
fn mark_execution(marks: &mut Vec<bool>, line: &Line)
    ensures { AreMarked marks.old.items marks.new.items (λ e. is_in e (line_of line.now)) }
{
    if let Line::Remove { execution, .. } = line {
        mark(marks, *execution);
    }
}

/// Marks the points that `line` names, as in [`used_points`].
fn mark_points(marks: &mut Vec<bool>, protocol: &Protocol, line: &Line)
    ensures { AreMarked marks.old.items marks.new.items
        (λ v. is_named protocol.now.scopes v (line_of line.now)) }
{
    match line {
        Line::Remove { execution, .. } => mark_each(marks, points_of(protocol, *execution)),
        Line::Empty { point } | Line::Branch { point } => mark(marks, *point),
        Line::Found => {}
    }
}

/// Marks each of the indices `numbers`.
fn mark_each(marks: &mut Vec<bool>, numbers: &[u32])
    ensures { AreMarked marks.old.items marks.new.items (λ k. has numbers.now k) }
{
    for number in numbers {
        mark(marks, *number);
    }
}

/// Marks the index `number`, unless it is out of range.
fn mark(marks: &mut Vec<bool>, number: u32)
    ensures { AreMarked marks.old.items marks.new.items (λ k. k == number) }
{
    if (number as usize) < marks.len() {
        marks[number as usize] = true;
    }
}

/// Returns the points of `execution`, or no points if there is no such execution.
fn points_of(protocol: &Protocol, execution: u32) -> &[u32]
    ensures { result.now ≡ points_at protocol.now.scopes execution }
{
    if execution < protocol.executions() {
        protocol.points_of(execution)
    } else {
        &[]
    }
}
