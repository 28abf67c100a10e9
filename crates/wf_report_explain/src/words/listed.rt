//! Listing all executions of a task, each with its points.

ghost use Rattle.std.specs.Prelude.{◌≡◌, ◌++◌, ◌<◌, [], false, codes, decimal, flat_map, length};
ghost use Rattle.wf_base.specs.Streams.Ends.{CanWrite};
ghost use Rattle.wf_base.specs.Streams.Texts.{PutsText, WritesText};
ghost use Rattle.wf_complex.specs.Protocol.{IsProtocol};
ghost use Rattle.wf_report_explain.specs.Words.Listing.{before_process, execution_line, executions_text, spaced};
ghost use Rattle.wf_report_explain.specs.Words.Subject.{IsMatched, executions_in, problem_in};
ghost use Rattle.wf_report_explain.specs.Words.Table.{IsWhole, break_text, table_of, text_of};
ghost use Rattle.wf_report_explain.specs.Words.Text.{block_text, participant_text, plain_names, word_text};

use crate::words::executions::{Executions, LocatedExecution, block_of, members_of};
use crate::words::subject::Subject;
use std::io::Write;
use wf_base::streams::{Page, Sink, WriteFault};
use wf_complex::Protocol;
use wf_simplex::Word;
use wf_task::Task;

/// Writes a line for each execution: its index, its words, and its points by ascending process, as
/// `20 {p1}{p0 p2} ; {p0 p1 p2} : 3 1 11`.
///
/// The lines go through `page`, which must be empty, so the text may be longer than memory. Nothing
/// is allocated. `table` and `protocol` must be those of `task`.
///
/// # Errors
///
/// Returns [`WriteFault`] if a write fails; a beginning of the text was then written.
pub fn write_executions<W: Write>(
    page: Page,
    sink: &mut Sink<W>,
    table: &Executions,
    task: &Task,
    protocol: &Protocol,
) -> Result<(), WriteFault>
    requires open { CanWrite sink.old }
    requires empty { page ≡ [] }
    requires protocol { IsProtocol task.now protocol.now.rounds protocol.now }
    requires table { table.now ≡ table_of task.now protocol.now.rounds }
    ensures { WritesText sink.old sink.new
        (executions_text task.now protocol.now.rounds) result }
{
    let mut page = page;
    let subject = Subject {
        task,
        protocol,
        executions: table,
    };
    put_executions(&mut page, sink, &subject)?;
    page.finish(sink)
}

/// Writes a line for each execution of `subject`.
fn put_executions<W: Write>(
    page: &mut Page,
    sink: &mut Sink<W>,
    subject: &Subject,
) -> Result<(), WriteFault>
    requires open { CanWrite sink.old }
    requires subject { IsMatched subject.now }
    ensures { PutsText sink.old page.old sink.new page.new
        (executions_text subject.now.task.now subject.now.protocol.now.rounds) result }
{
    for execution in 0..subject.protocol.executions() {
        put_execution(page, sink, subject, execution)?;
    }
    Ok(())
}

/// Writes the line of `execution`.
fn put_execution<W: Write>(
    page: &mut Page,
    sink: &mut Sink<W>,
    subject: &Subject,
    execution: u32,
) -> Result<(), WriteFault>
    requires open { CanWrite sink.old }
    requires subject { IsMatched subject.now }
    requires execution { execution < length subject.now.protocol.now.simplices }
    ensures { PutsText sink.old page.old sink.new page.new (execution_line
        (problem_in subject.now) (executions_in subject.now).all execution) result }
{
    let protocol = subject.protocol;
    put_number(page, sink, execution)?;
    let found = subject.executions.find(subject.task, protocol, execution);
    put_words(page, sink, &found)?;
    put_end(page, sink, protocol.points_of(execution))
}

/// Writes the index of an execution, and a space.
fn put_number<W: Write>(
    page: &mut Page,
    sink: &mut Sink<W>,
    execution: u32,
) -> Result<(), WriteFault>
    requires { CanWrite sink.old }
    ensures { PutsText sink.old page.old sink.new page.new
        (decimal execution ++ codes " ") result }
{
    page.put_number(sink, u64::from(execution))?;
    page.put(sink, b" ")
}

/// Writes the points of an execution, and ends the line.
fn put_end<W: Write>(page: &mut Page, sink: &mut Sink<W>, points: &[u32]) -> Result<(), WriteFault>
    requires { CanWrite sink.old }
    ensures { PutsText sink.old page.old sink.new page.new
        (codes " :" ++ (flat_map spaced points.now ++ codes "\n")) result }
{
    page.put(sink, b" :")?;
    for point in points {
        put_point(page, sink, *point)?;
    }
    page.put(sink, b"\n")
}

/// Writes a space, and a point.
fn put_point<W: Write>(page: &mut Page, sink: &mut Sink<W>, point: u32) -> Result<(), WriteFault>
    requires { CanWrite sink.old }
    ensures { PutsText sink.old page.old sink.new page.new (spaced point) result }
{
    page.put(sink, b" ")?;
    page.put_number(sink, u64::from(point))
}

/// Writes the words of `found`, with processes but no inputs.
fn put_words<W: Write>(
    page: &mut Page,
    sink: &mut Sink<W>,
    found: &LocatedExecution<'_>,
) -> Result<(), WriteFault>
    requires open { CanWrite sink.old }
    requires whole { IsWhole found.now }
    ensures { PutsText sink.old page.old sink.new page.new (text_of plain_names found.now) result }
{
    let members = members_of(&found.simplex, false);
    if found.rounds == 0 {
        return put_block(page, sink, members.as_slice());
    }
    let words = found.words;
    let mut count = found.count as usize;
    let mut place = found.place as usize;
    for round in 0..found.rounds {
        count /= words.len();
        put_round(page, sink, round, members.as_slice(), &words[place / count])?;
        place %= count;
    }
    Ok(())
}

/// Writes the word of `round`, and before it the separator from the round before. `all` are the
/// participants.
fn put_round<W: Write>(
    page: &mut Page,
    sink: &mut Sink<W>,
    round: u32,
    all: &[(u8, u8)],
    word: &Word,
) -> Result<(), WriteFault>
    requires open { CanWrite sink.old }
    requires long { length word.now ≡ length all.now }
    ensures { PutsText sink.old page.old sink.new page.new
        (break_text round ++ word_text (participant_text false false) all.now word.now) result }
{
    page.put(sink, before_round(round).as_bytes())?;
    put_word(page, sink, all, word)
}

/// Returns the separator before the word of `round`, which is empty for round 0.
fn before_round(round: u32) -> &'static str
    ensures { result.now ≡ break_text round }
{
    if round == 0 { "" } else { " ; " }
}

/// Writes the blocks of `word`, in order. `all` are its participants.
fn put_word<W: Write>(
    page: &mut Page,
    sink: &mut Sink<W>,
    all: &[(u8, u8)],
    word: &Word,
) -> Result<(), WriteFault>
    requires open { CanWrite sink.old }
    requires long { length word.now ≡ length all.now }
    ensures { PutsText sink.old page.old sink.new page.new
        (word_text (participant_text false false) all.now word.now) result }
{
    for block in 0..word.size() {
        let members = block_of(all, word, block);
        put_block(page, sink, members.as_slice())?;
    }
    Ok(())
}

/// Writes a block with `members` in braces, or nothing if it has none.
fn put_block<W: Write>(
    page: &mut Page,
    sink: &mut Sink<W>,
    members: &[(u8, u8)],
) -> Result<(), WriteFault>
    requires { CanWrite sink.old }
    ensures { PutsText sink.old page.old sink.new page.new
        (block_text (participant_text false false) members.now) result }
{
    if members.is_empty() {
        return Ok(());
    }
    page.put(sink, b"{")?;
    for (place, member) in members.iter().enumerate() {
        put_process(page, sink, place, member.0)?;
    }
    page.put(sink, b"}")
}

/// Writes the process at `place` of a block.
fn put_process<W: Write>(
    page: &mut Page,
    sink: &mut Sink<W>,
    place: usize,
    process: u8,
) -> Result<(), WriteFault>
    requires { CanWrite sink.old }
    ensures { PutsText sink.old page.old sink.new page.new
        (before_process place ++ decimal process) result }
{
    page.put(sink, before_process(place).as_bytes())?;
    page.put_number(sink, u64::from(process))
}

/// Returns the text before the number of the process at `place` of a block.
fn before_process(place: usize) -> &'static str
    ensures { result.now ≡ before_process place }
{
    if place == 0 { "p" } else { " p" }
}
