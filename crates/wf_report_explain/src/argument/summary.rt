//! The summary that ends an argument: its steps, the executions that its lines name, and the
//! participants of those.

ghost use Rattle.std.specs.Prelude.{◌≡◌, ◌==◌, ◌&&◌, ◌<◌, [], ◌++◌, false, count_by, length, IfOk, OnOk, string_bytes};
ghost use Rattle.std.specs.List.{slice_index_or};
ghost use Rattle.wf_model.specs.Lists.{has};
ghost use Rattle.wf_model.specs.Simplex.{processes_of};
ghost use Rattle.wf_report_explain.specs.Argument.Text.{count_of_size, participants_of, sizes_of, summary_of, takes_part};
ghost use Rattle.wf_report_explain.specs.Argument.Used.{scopes_in};

use crate::argument::used::count;
use crate::words::{MAX_PROCESSES, SizeCount, put_count, put_participants};
use std::alloc::{AllocError, Global};
use std::fmt::Write;
use wf_complex::Protocol;

/// The executions that the lines of an argument name.
#[derive(Clone, Copy)]
pub(crate) struct UsedExecutions<'a> {
    protocol: &'a Protocol,
    marks: &'a [bool],
}

impl<'a> UsedExecutions<'a> {
    /// Creates the set of the executions whose entry in `marks` is true.
    pub(crate) fn of(protocol: &'a Protocol, marks: &'a [bool]) -> UsedExecutions<'a>
        ensures protocol { result.protocol.now ≡ protocol.now }
        ensures marks { result.marks.now ≡ marks.now }
    {
        UsedExecutions { protocol, marks }
    }
}

/// Appends the summary of an argument with `steps` steps, whose lines name the executions in
/// `used`. If `ranks` is true, the participants are counted and not named.
pub(crate) fn put_summary(
    alloc: Global,
    text: &mut String,
    ranks: bool,
    steps: usize,
    used: &UsedExecutions,
) -> Result<(), AllocError>
    requires { length used.now.marks.now ≡ length used.now.protocol.now.scopes }
    ensures { let marked = count_by (λ is_marked. is_marked) used.now.marks.now in
        OnOk result (string_bytes text.new
        ≡ string_bytes text.old ++ summary_of ranks steps marked (scopes_in used.now)) }
{
    let processes = participants_of(alloc, used)?;
    let sizes = sizes_of(alloc, used)?;
    write!(text, "In all: ")?;
    put_count(text, steps, "step")?;
    write!(text, " over ")?;
    put_count(text, count(used.marks), "execution")?;
    put_participants(text, ranks, processes.as_slice(), sizes.as_slice())?;
    writeln!(text, ".")?;
    Ok(())
}

/// Returns the processes that take part in the used executions, ascending.
fn participants_of(alloc: Global, used: &UsedExecutions) -> Result<Vec<u8>, AllocError>
    requires { length used.now.marks.now ≡ length used.now.protocol.now.scopes }
    ensures { IfOk result (λ processes. processes.items ≡ participants_of (scopes_in used.now)) }
{
    let mut processes = Vec::new(alloc);
    for process in 0..MAX_PROCESSES {
        if takes_part(used, process) {
            processes.push(process)?;
        }
    }
    Ok(processes)
}

/// Returns whether `process` takes part in a used execution.
fn takes_part(used: &UsedExecutions, process: u8) -> bool
    requires { length used.now.marks.now ≡ length used.now.protocol.now.scopes }
    ensures { result ≡ takes_part (scopes_in used.now) process }
{
    for execution in 0..used.protocol.executions() {
        if is_used_by(used, execution, process) {
            return true;
        }
    }
    false
}

/// Returns whether `execution` is used, and `process` takes part in it.
fn is_used_by(used: &UsedExecutions, execution: u32, process: u8) -> bool
    requires long { length used.now.marks.now ≡ length used.now.protocol.now.scopes }
    requires inside { execution < length used.now.protocol.now.scopes }
    ensures { let scope = slice_index_or used.now.protocol.now.scopes execution [] in
        result ≡ (slice_index_or used.now.marks.now execution false
        && has (processes_of scope) process) }
{
    used.marks[execution as usize] && used.protocol.point_at(execution, process).is_some()
}

/// Returns the number of used executions for each number of participants that occurs, ascending.
fn sizes_of(alloc: Global, used: &UsedExecutions) -> Result<Vec<SizeCount>, AllocError>
    requires { length used.now.marks.now ≡ length used.now.protocol.now.scopes }
    ensures { IfOk result (λ sizes. sizes.items ≡ sizes_of (scopes_in used.now)) }
{
    let mut sizes = Vec::new(alloc);
    for others in 0..MAX_PROCESSES {
        let size = usize::from(others) + 1;
        let count = count_of_size(used, size);
        if count > 0 {
            sizes.push(SizeCount { size, count })?;
        }
    }
    Ok(sizes)
}

/// Returns the number of used executions with `size` participants.
fn count_of_size(used: &UsedExecutions, size: usize) -> usize
    requires { length used.now.marks.now ≡ length used.now.protocol.now.scopes }
    ensures { result ≡ count_of_size (scopes_in used.now) size }
{
    let mut count = 0;
    for execution in 0..used.protocol.executions() {
        if is_used_with_size(used, execution, size) {
            count += 1;
        }
    }
    count
}

/// Returns whether `execution` is used, and has `size` participants.
fn is_used_with_size(used: &UsedExecutions, execution: u32, size: usize) -> bool
    requires long { length used.now.marks.now ≡ length used.now.protocol.now.scopes }
    requires inside { execution < length used.now.protocol.now.scopes }
    ensures { let scope = slice_index_or used.now.protocol.now.scopes execution [] in
        result ≡ (slice_index_or used.now.marks.now execution false && (length scope == size)) }
{
    used.marks[execution as usize] && used.protocol.points_of(execution).len() == size
}
