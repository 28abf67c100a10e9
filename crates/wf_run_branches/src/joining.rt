//! Joins the parts of all branches into the report of the whole question.

ghost use Rattle.std.specs.Prelude.{◌≡◌, ◌++◌, ◌∷◌, [], IfOk, Ok, OnOk};
ghost use Rattle.std.specs.Thread.{IsSync};
ghost use Rattle.wf_complex.specs.Protocol.{Builds, IsProtocol};
ghost use Rattle.wf_report.specs.Reports.{body_length, body_of};
ghost use Rattle.wf_run.specs.Run.{answered};
ghost use Rattle.wf_run_branches.specs.Branches.{IsCoverOf};
ghost use Rattle.wf_run_branches.specs.Joining.{AcceptsJoined, GathersAll, HasListsFor, JoinsText, ReadsParts, gathered_of, gathered_seen, joined_body};

use crate::branch::branches_of_question;
use crate::parts::{check_next_part, next_part};
use crate::verifying::PartContext;
use std::alloc::{AllocError, Global};
use std::io::Read;
use std::thread::Threads;
use wf_base::lines::Lines;
use wf_base::streams::{Source, read_all};
use wf_complex::Protocol;
use wf_report::{Body, Header, Report};
use wf_report_check::{ReportChecker, check};
use wf_run::{Answered, ComplexAnswer, RunFault, TaskWithComplex};
use wf_search::Cover;
use wf_task::Task;

/// The largest number of bytes that the parts of all branches may have together.
const MAX_PARTS_BYTES: usize = u32::MAX as usize;

/// The number that the values and lines of a report together have to stay below.
const MAX_LINES: usize = 1 << 31;

/// The report of a task's whole question, joined from the parts of its branches. The second source
/// gives the parts, one behind another in the order of the branches. Each part up to the first one
/// with a map is checked without a search, and so is the report before it is written.
///
/// A part ends with its line `end`. The run is refused with [`NoPart`](RunFault::NoPart) if the
/// next piece of the text is no part about the next branch, with [`InPart`](RunFault::InPart) if a
/// part is not accepted, and with [`TooManyParts`](RunFault::TooManyParts) if the text goes on
/// behind the part of the last branch. Whatever follows the first part with a map is ignored.
#[derive(Clone, Copy)]
pub struct JoinParts<'a, T> {
    /// The runtime that starts the threads of the check.
    pub rt: &'a T,
}

impl<'a, T: Threads + Sync> ComplexAnswer for JoinParts<'a, T> {
    ghost is_ready = { λ _. IsSync T.row };

    ghost reads = { λ whole. ReadsParts };

    fn read_about<C: Read>(
        &self,
        subject: &TaskWithComplex,
        source: &mut Source<C>,
    ) -> Answered<()> {
        let text = read_all(subject.alloc, source, MAX_PARTS_BYTES)?;
        join_text(self.rt, subject.alloc, subject.task, subject.protocol, text)
    }
}

/// Joins the parts in `text` into the report of the whole question, and returns its text. `text` is
/// freed before the report is built.
fn join_text<T: Threads + Sync>(
    rt: &T,
    alloc: Global,
    task: &Task,
    protocol: &Protocol,
    text: Vec<u8>,
) -> Answered<()>
    requires { Builds task.now protocol.now.rounds (Ok protocol.now) }
    ensures { JoinsText task.now protocol.now.rounds text.items (answered result) }
{
    let cover = branches_of_question(alloc, task, protocol)?;
    let gathered = check_parts(rt, alloc, task, protocol, &cover, &text)?;
    drop(text);
    let body = gathered.join(alloc, &cover)?;
    accept_joined(rt, alloc, task, protocol, body)
}

/// The answer that the parts of a question's branches give together.
#[derive(Drop)]
enum Gathered {
    /// No branch has a map. The lists are the lines of the branches, in order.
    WithoutMap(Vec<Lines>),
    /// The map of the first branch that has one, without lines.
    WithMap(Vec<u8>),
    /// The map of the first branch that has one, and the lines of each branch up to and including
    /// that one.
    WithLeast(Vec<u8>, Vec<Lines>),
}

/// Checks the parts in `text` in the order of the branches, up to the first part with a map, and
/// collects their answers.
fn check_parts<T: Threads + Sync>(
    rt: &T,
    alloc: Global,
    task: &Task,
    protocol: &Protocol,
    cover: &Cover,
    text: &[u8],
) -> Result<Gathered, RunFault>
    requires protocol { IsProtocol task.now protocol.now.rounds protocol.now }
    requires cover { IsCoverOf task.now protocol.now.rounds cover.now }
    ensures gathers { GathersAll task.now protocol.now.rounds text.now (gathered_seen result) }
    ensures few { IfOk result (HasListsFor cover.now) }
{
    let checker = ReportChecker::of(alloc, task)?;
    let judge = PartContext { rt, task, protocol };
    let mut rest = text;
    let mut lists = Vec::new(alloc);
    for number in 0..cover.branches() {
        let (part, behind) = next_part(rest);
        match check_next_part(&judge, alloc, cover, &checker, number, part)? {
            Body::Map(values) => return Ok(Gathered::WithMap(values)),
            Body::Nothing(lines) => append_lines(&mut lists, lines)?,
            Body::Least(values, lines) => {
                append_lines(&mut lists, lines)?;
                return Ok(Gathered::WithLeast(values, lists));
            }
        }
        rest = behind;
    }
    if !rest.is_empty() {
        return Err(RunFault::TooManyParts {
            branches: cover.branches(),
        });
    }
    Ok(Gathered::WithoutMap(lists))
}

/// Appends `lines`, those of the next branch, to `lists`.
fn append_lines(lists: &mut Vec<Lines>, lines: Lines) -> Result<(), AllocError>
    ensures { OnOk result (lists.new.items ≡ lists.old.items ++ lines ∷ []) }
{
    lists.push(lines)?;
    Ok(())
}

impl Gathered {
    /// Returns the answer of the whole question: the branches' lines are filled in where the
    /// outline of `cover` leaves them open.
    fn join(self, alloc: Global, cover: &Cover) -> Result<Body, AllocError>
        requires { HasListsFor cover.now self }
        ensures { IfOk result (λ body. body_of body ≡ joined_body cover.now (gathered_of self)) }
    {
        match self {
            Gathered::WithoutMap(lists) => Ok(Body::Nothing(cover.fill(alloc, lists)?)),
            Gathered::WithMap(values) => Ok(Body::Map(values)),
            Gathered::WithLeast(values, lists) => {
                Ok(Body::Least(values, cover.fill_least(alloc, lists)?))
            }
        }
    }
}

/// Checks the report with the answer `body`, and returns its text if the check accepts it.
fn accept_joined<T: Threads + Sync>(
    rt: &T,
    alloc: Global,
    task: &Task,
    protocol: &Protocol,
    body: Body,
) -> Answered<()>
    requires { Builds task.now protocol.now.rounds (Ok protocol.now) }
    ensures { AcceptsJoined task.now protocol.now.rounds (body_of body) (answered result) }
{
    if count_lines(&body) >= MAX_LINES {
        return Err(RunFault::TooLong);
    }
    let header = Header::about(task, protocol);
    let report = Report { header, body };
    check(rt, alloc, task, protocol, &report)?;
    Ok(((), report.into_text(alloc)?))
}

/// Returns how many values and lines `body` has together.
fn count_lines(body: &Body) -> usize
    ensures { result ≡ body_length body.now }
{
    match body {
        Body::Map(values) => values.len(),
        Body::Nothing(lines) => lines.len(),
        Body::Least(values, lines) => values.len() + lines.len(),
    }
}
