//! Writing executions in words.

ghost use Rattle.std.specs.Prelude.{◌≡◌, ◌++◌, ◌<◌, ◌≤◌, ◌+◌, [], IfOk, OnOk, length, map, slice_get, slice_index_or, string_bytes, vec_items};
ghost use Rattle.wf_model.specs.Limits.{most_executions, most_processes};
ghost use Rattle.wf_model.specs.Task.{IsTaskSimplex};
ghost use Rattle.wf_model.specs.Word.{words};
ghost use Rattle.wf_model.specs.Execution.{executions};
ghost use Rattle.wf_complex.specs.Layout.{execution_total};
ghost use Rattle.wf_complex.specs.Protocol.{IsProtocol};
ghost use Rattle.wf_complex.specs.Rounds.{only_if};
ghost use Rattle.wf_report_explain.specs.Words.Table.{IsWhole, Naming, break_text, members_in, spans_of, table_of, text_of, words_up_to};
ghost use Rattle.wf_report_explain.specs.Words.Text.{argument_names, block_of, block_text, execution_at, execution_text, named, named_executions, participant_text, word_text};

use crate::words::words::between;
use std::alloc::{AllocError, Global};
use std::fmt::Write;
use std::marker::Model;
use wf_complex::{Protocol, execution_count_of_size};
use wf_simplex::{Simplex, Word, allowed_count};
use wf_task::Task;

/// The largest number of processes of a task.
pub const MAX_PROCESSES: u8 = 4;

/// The indices of the executions on one input simplex: the first one, and their number.
#[derive(Clone, Copy, Debug)]
pub(crate) struct ExecutionRange {
    first: u32,
    count: u32,
}

/// A table for writing the executions of a task, after some number of rounds, in words.
///
/// It has the range of executions on each input simplex, and the words (ordered partitions into
/// blocks) of one to four participants that the task allows. So an execution is written with one
/// look-up for each round. Clauses see the table as a `Table`; `table_of` is that of a task after
/// some rounds.
#[derive(Drop)]
pub struct Executions {
    spans: Vec<ExecutionRange>,
    // the words of one participant, of two, of three and of four
    words: Vec<Vec<Word>>,
}

impl Model for Executions {
    ghost use Rattle.wf_report_explain.specs.Words.Table.{Table, table_seen};

    ghost Value = { Table };

    ghost view = { table_seen };
}

impl Executions {
    /// Creates the table for `task` after `rounds` rounds.
    ///
    /// There must be at most as many executions as a protocol complex may have.
    ///
    /// # Errors
    ///
    /// Returns `AllocError` if memory runs out.
    pub fn of(alloc: Global, task: &Task, rounds: u32) -> Result<Executions, AllocError>
        requires few { length (executions task.now rounds) ≤ most_executions }
        ensures { IfOk result (λ table. table ≡ table_of task.now rounds) }
    {
        let first_block = task.first_block();
        let spans = spans_of(alloc, task.inputs().simplices(), first_block, rounds)?;
        let words = word_table(alloc, first_block)?;
        Ok(Executions { spans, words })
    }

    /// Appends the execution with index `execution` to `text`, as `{p1=0}{p0=1 p2=0} ; {p0 p1 p2}`.
    ///
    /// The blocks of each round are in order. With 0 rounds, all participants are in one block. In
    /// a symmetric task, processes are written by their ranks, as `#0`. `task` and `protocol` must
    /// be those of the table.
    ///
    /// # Errors
    ///
    /// Returns `AllocError` if memory runs out; `text` may then have a beginning of the words.
    pub fn put(
        &self,
        text: &mut String,
        task: &Task,
        protocol: &Protocol,
        execution: u32,
    ) -> Result<(), AllocError>
        requires protocol { IsProtocol task.now protocol.now.rounds protocol.now }
        requires table { self.now ≡ table_of task.now protocol.now.rounds }
        requires execution { execution < length protocol.now.simplices }
        ensures { OnOk result (string_bytes text.new ≡ string_bytes text.old
            ++ execution_at (named_executions task.now protocol.now.rounds) execution) }
    {
        put_words(
            text,
            &self.find(task, protocol, execution),
            task.symmetric(),
        )
    }

    /// Looks up the execution with index `execution`.
    pub(crate) fn find<'a>(
        &'a self,
        task: &Task,
        protocol: &Protocol,
        execution: u32,
    ) -> LocatedExecution<'a>
        requires protocol { IsProtocol task.now protocol.now.rounds protocol.now }
        requires table { self.now ≡ table_of task.now protocol.now.rounds }
        requires execution { execution < length protocol.now.simplices }
        ensures whole { IsWhole result }
        ensures text { (names : Naming) → text_of names result
            ≡ execution_text names (slice_get (executions task.now protocol.now.rounds) execution) }
    {
        let number = protocol.simplex_of(execution) as usize;
        let simplex = task.inputs().simplices()[number];
        let spans = self.spans.as_slice();
        let span = spans[number];
        let table = self.words.as_slice();
        let words = table[simplex.colours() as usize - 1].as_slice();
        LocatedExecution {
            simplex,
            words,
            rounds: protocol.rounds(),
            count: span.count,
            place: execution - span.first,
        }
    }
}

/// An execution that was looked up in the table.
///
/// It has its input simplex, the words of as many participants, and its index `place` among the
/// `count` lists of `rounds` words.
#[derive(Clone, Copy)]
pub(crate) struct LocatedExecution<'a> {
    pub(crate) simplex: Simplex,
    pub(crate) words: &'a [Word],
    pub(crate) rounds: u32,
    pub(crate) count: u32,
    pub(crate) place: u32,
}

/// Returns the words of one participant, of two, of three and of four, whose first block has at
/// least `first_block` participants or all.
fn word_table(alloc: Global, first_block: u8) -> Result<Vec<Vec<Word>>, AllocError>
    requires one { 1 ≤ first_block }
    requires most { first_block ≤ most_processes }
    ensures { IfOk result (λ table. map vec_items table.items ≡ words_up_to first_block 4) }
{
    let mut table = Vec::new(alloc);
    for others in 0..MAX_PROCESSES {
        table.push(words_of(alloc, others + 1, first_block)?)?;
    }
    Ok(table)
}

/// Returns the words of `size` participants whose first block has at least `first_block`
/// participants or all, in order.
fn words_of(alloc: Global, size: u8, first_block: u8) -> Result<Vec<Word>, AllocError>
    requires some { 1 ≤ size }
    requires few { size ≤ most_processes }
    requires one { 1 ≤ first_block }
    requires most { first_block ≤ most_processes }
    ensures { IfOk result (λ list. list.items ≡ words first_block size) }
{
    let mut list = Vec::new(alloc);
    let mut word = Word::first_allowed(size, first_block);
    for _turn in 0..allowed_count(size, first_block) {
        list.push(word)?;
        let _more = word.next_allowed(first_block);
    }
    Ok(list)
}

/// Returns the range of executions on each simplex of `inputs`, after `rounds` rounds.
fn spans_of(
    alloc: Global,
    inputs: &[Simplex],
    first_block: u8,
    rounds: u32,
) -> Result<Vec<ExecutionRange>, AllocError>
    requires one { 1 ≤ first_block }
    requires most { first_block ≤ most_processes }
    requires few { execution_total first_block rounds inputs.now ≤ most_executions }
    ensures { IfOk result (λ spans. spans.items ≡ spans_of first_block rounds 0 inputs.now) }
{
    let mut spans = Vec::new(alloc);
    let mut first = 0;
    for simplex in inputs {
        let count = execution_count_of_size(simplex.colours(), first_block, rounds);
        spans.push(ExecutionRange { first, count })?;
        first += count;
    }
    Ok(spans)
}

/// Appends the execution `found`, with the inputs of the participants in its first round. If
/// `ranks` is true, processes are written by their ranks.
fn put_words(text: &mut String, found: &LocatedExecution<'_>, ranks: bool) -> Result<(), AllocError>
    requires { IsWhole found.now }
    ensures { OnOk result (string_bytes text.new
        ≡ string_bytes text.old ++ text_of (argument_names ranks) found.now) }
{
    let members = members_of(&found.simplex, ranks);
    if found.rounds == 0 {
        return put_block(text, members.as_slice(), ranks, true);
    }
    let words = found.words;
    let mut count = found.count as usize;
    let mut place = found.place as usize;
    for round in 0..found.rounds {
        count /= words.len();
        put_round_separator(text, round)?;
        let word = &words[place / count];
        put_word(text, members.as_slice(), word, ranks, round == 0)?;
        place %= count;
    }
    Ok(())
}

/// Appends the separator before the word of `round`. There is none before round 0.
fn put_round_separator(text: &mut String, round: u32) -> Result<(), AllocError>
    ensures { OnOk result (string_bytes text.new ≡ string_bytes text.old ++ break_text round) }
{
    if round > 0 {
        write!(text, " ; ")?;
    }
    Ok(())
}

/// Appends the blocks of `word`, in order. `all` are its participants.
fn put_word(
    text: &mut String,
    all: &[(u8, u8)],
    word: &Word,
    ranks: bool,
    with_inputs: bool,
) -> Result<(), AllocError>
    requires { length word.now ≡ length all.now }
    ensures { OnOk result (string_bytes text.new
        ≡ string_bytes text.old
        ++ word_text (participant_text ranks with_inputs) all.now word.now) }
{
    for block in 0..word.size() {
        let members = block_of(all, word, block);
        put_block(text, members.as_slice(), ranks, with_inputs)?;
    }
    Ok(())
}

/// Appends a block with `members` in braces, or nothing if it has none.
fn put_block(
    text: &mut String,
    members: &[(u8, u8)],
    ranks: bool,
    with_inputs: bool,
) -> Result<(), AllocError>
    ensures { OnOk result (string_bytes text.new
        ≡ string_bytes text.old ++ block_text (participant_text ranks with_inputs) members.now) }
{
    if members.is_empty() {
        return Ok(());
    }
    write!(text, "{{")?;
    let length = members.len();
    for (place, member) in members.iter().enumerate() {
        let before = between(place, length, " ", " ");
        write!(text, "{before}")?;
        put_participant(text, *member, ranks, with_inputs)?;
    }
    write!(text, "}}")?;
    Ok(())
}

/// Appends a participant, as `p0=1` with its input, and as `p0` without. If `ranks` is true, the
/// process is a rank, as `#0`.
fn put_participant(
    text: &mut String,
    member: (u8, u8),
    ranks: bool,
    with_input: bool,
) -> Result<(), AllocError>
    ensures { OnOk result (string_bytes text.new
        ≡ string_bytes text.old ++ participant_text ranks with_input member) }
{
    let (process, input) = member;
    let mark = if ranks { "#" } else { "p" };
    write!(text, "{mark}{process}")?;
    if with_input {
        write!(text, "={input}")?;
    }
    Ok(())
}

/// At most four participants, each a process or rank with its input.
#[derive(Clone, Copy)]
pub(crate) struct Members {
    count: usize,
    members: [(u8, u8); 4],
}

impl Members {
    /// Creates an empty list.
    fn none() -> Members
        ensures count { result.count ≡ 0 }
        ensures members { members_in result ≡ [] }
    {
        Members {
            count: 0,
            members: [(0, 0); 4],
        }
    }

    /// Appends `member` if `wanted` is true.
    fn push_if(&mut self, wanted: bool, member: (u8, u8))
        requires { self.old.count < 4 }
        ensures count { self.new.count ≤ self.old.count + 1 }
        ensures members { members_in self.new ≡ members_in self.old ++ only_if wanted member }
    {
        if wanted {
            self.members[self.count] = member;
            self.count += 1;
        }
    }

    /// Returns the participants.
    pub(crate) fn as_slice(&self) -> &[(u8, u8)]
        requires { self.now.count ≤ 4 }
        ensures { result.now ≡ members_in self.now }
    {
        &self.members[..self.count]
    }
}

/// Returns those of the participants `all` that are in block `block` of `word`.
pub(crate) fn block_of(all: &[(u8, u8)], word: &Word, block: u8) -> Members
    requires { length word.now ≡ length all.now }
    ensures count { result.count ≤ 4 }
    ensures members { members_in result ≡ block_of all.now word.now block }
{
    let mut members = Members::none();
    for place in 0..word.size() {
        members.push_if(word.level(place) == block, all[place as usize]);
    }
    members
}

/// Returns the participants of `simplex`, by their ranks if `ranks` is true, and otherwise by their
/// processes.
pub(crate) fn members_of(simplex: &Simplex, ranks: bool) -> Members
    ensures count { result.count ≤ 4 }
    ensures members { members_in result ≡ named ranks simplex.now }
{
    let mut members = Members::none();
    for place in 0..simplex.colours() {
        members.push_if(true, participant(simplex, place, ranks));
    }
    members
}

/// Returns the participant at `place` of `simplex`, by its rank if `ranks` is true, with its input.
fn participant(simplex: &Simplex, place: u8, ranks: bool) -> (u8, u8)
    requires place { place < length simplex.now }
    requires simplex { IsTaskSimplex simplex.now }
    ensures { result ≡ slice_index_or (named ranks simplex.now) place (0, 0) }
{
    let process = simplex.colour(place);
    let Some(input) = simplex.value(process) else {
        unreachable!()
    };
    if ranks {
        (place, input)
    } else {
        (process, input)
    }
}
