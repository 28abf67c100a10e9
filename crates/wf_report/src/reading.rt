//! Reading a report from a text in memory, line by line.

ghost use Rattle.std.specs.Prelude.{◌≡◌, ◌==◌, ◌+◌, ◌<◌, ◌≤◌, ◌++◌, ◌∷◌, [], true, codes, length, map, option_map, IfOk, OnOk};
ghost use Rattle.wf_model.specs.Limits.{most_number};
ghost use Rattle.wf_model.specs.Report.{any_step, body_at, fixed_at, least_body, line, lines_of, map_body, none_body, number_at, number_of_line, number_upto, step_of_words, steps_from, value_of_line, values_at_front};
ghost use Rattle.wf_model.specs.Refutation.{branch, empty};
ghost use Rattle.wf_base.specs.Lines.Lines.{line_of};
ghost use Rattle.wf_report.specs.Reading.{Gives, IsRead, lacks};
ghost use Rattle.wf_report.specs.Reports.{AreNumbered, body_length, body_of};
ghost use Rattle.wf_report.specs.Steps.{removal_of, step_in, words};

use crate::bytes::{number, split_once};
use crate::fault::CertFault;
use crate::report::{Body, Header, Report};
use std::alloc::{AllocError, Global};
use wf_base::lines::{Line, Lines};
use wf_task::MAX_TEXT_BYTES;

/// The 1-based number of the first line of a body: it follows the five lines of the header and the
/// answer line.
pub const FIRST_LINE: u32 = 7;

/// The largest value that a line may name.
const LARGEST_VALUE: u32 = 255;

/// The largest process that a line may name.
const LAST_PROCESS: u32 = 3;

/// The section of a report in which a line stands. It decides what kinds of lines may come.
#[derive(Clone, Copy, Debug)]
pub enum Section {
    /// The lines after `answer map`. After its values only `end` may come.
    Values,
    /// The lines after `answer none`: removals, empty points and branchings.
    Refutation,
    /// The lines after `answer least` and the map's values: as in a refutation, and the line `f`
    /// that ends the search.
    Search,
}

/// Parses `text` as a report. It checks the grammar only, not whether the answer is true.
///
/// # Errors
///
/// Returns `TooLong` if `text` has more than 16,777,216 bytes, `Syntax` with the 1-based number of
/// the first line that is malformed, and `OutOfMemory` if memory runs out.
pub fn read_report(alloc: Global, text: &[u8]) -> Result<Report, CertFault>
    ensures read { IsRead result text.now }
    ensures few { IfOk result (λ report. AreNumbered (body_length report.body)) }
{
    if text.len() > MAX_TEXT_BYTES {
        return Err(CertFault::TooLong);
    }
    let rest = read_fixed(text, 1, b"wfcheck report 1")?;
    let (processes, rest) = read_number(rest, 2, b"processes")?;
    let (rounds, rest) = read_number(rest, 3, b"rounds")?;
    let (points, rest) = read_number(rest, 4, b"points")?;
    let (executions, rest) = read_number(rest, 5, b"executions")?;
    let body = read_body(alloc, rest)?;
    let header = Header {
        processes,
        rounds,
        points,
        executions,
    };
    Ok(Report { header, body })
}

/// Returns the text after the first line of `text`, which must be `wanted`. `at` is the line's
/// number.
///
/// # Errors
///
/// Fails with `Syntax(at)` if the line is another one, or has no line feed.
fn read_fixed<'a>(text: &'a [u8], at: u32, wanted: &[u8]) -> Result<&'a [u8], CertFault>
    ensures rest { let read = fixed_at at (line wanted.now []) (lines_of text.now) in
        Gives (λ rest. lines_of rest.now) result read }
    ensures shorter { IfOk result (λ rest. length rest.now < length text.now) }
{
    let Some((found, rest)) = split_once(text, b'\n') else {
        return Err(CertFault::Syntax(at));
    };
    if found != wanted {
        return Err(CertFault::Syntax(at));
    }
    Ok(rest)
}

/// Returns the number in the first line of `text`, which must be `name`, a space and a number, and
/// the text after it. `at` is the line's number.
///
/// # Errors
///
/// Fails with `Syntax(at)` for any other line.
fn read_number<'a>(text: &'a [u8], at: u32, name: &[u8]) -> Result<(u32, &'a [u8]), CertFault>
    requires name { lacks 32 name.now ≡ true }
    requires word { lacks 10 name.now ≡ true }
    ensures rest { let read = number_at at name.now (lines_of text.now) in
        Gives (λ p. (p.0, lines_of p.1.now)) result read }
    ensures shorter { IfOk result (λ p. length p.1.now < length text.now) }
{
    let Some((found, rest)) = split_once(text, b'\n') else {
        return Err(CertFault::Syntax(at));
    };
    let Some(number) = number_after(found, name) else {
        return Err(CertFault::Syntax(at));
    };
    Ok((number, rest))
}

/// Parses `line`, given without its line feed, as `name`, a space and a number of at most
/// 4,294,967,295. Returns `None` for any other line.
pub fn number_after(line: &[u8], name: &[u8]) -> Option<u32>
    requires { lacks 10 line.now ≡ true }
    ensures { result ≡ number_of_line name.now (line.now ++ 10 ∷ []) }
{
    let Some((word, rest)) = split_once(line, b' ') else {
        return None;
    };
    if word != name {
        return None;
    }
    number(rest, u32::MAX)
}

/// Parses the answer line and the lines after it as the body of a report.
fn read_body(alloc: Global, text: &[u8]) -> Result<Body, CertFault>
    requires { length text.now ≤ MAX_TEXT_BYTES }
    ensures body { Gives body_of result (body_at (lines_of text.now)) }
    ensures few { IfOk result (λ body. body_length body ≤ MAX_TEXT_BYTES) }
{
    let Some((found, rest)) = split_once(text, b'\n') else {
        return Err(CertFault::Syntax(FIRST_LINE - 1));
    };
    if found == b"answer map".as_slice() {
        return read_map(alloc, rest);
    }
    if found == b"answer none".as_slice() {
        return read_refutation(alloc, rest);
    }
    if found == b"answer least".as_slice() {
        return read_least(alloc, rest);
    }
    Err(CertFault::Syntax(FIRST_LINE - 1))
}

/// Parses the rest of a report after `answer map`: values, then `end`.
fn read_map(alloc: Global, text: &[u8]) -> Result<Body, CertFault>
    requires { length text.now ≤ MAX_TEXT_BYTES }
    ensures map { Gives body_of result (map_body (lines_of text.now)) }
    ensures few { IfOk result (λ body. body_length body ≤ MAX_TEXT_BYTES) }
{
    let (values, rest) = read_values(alloc, text)?;
    let at = FIRST_LINE + values.len() as u32;
    read_lines(alloc, rest, at, Section::Values)?;
    Ok(Body::Map(values))
}

/// Parses the rest of a report after `answer none`: the lines of a refutation, then `end`.
fn read_refutation(alloc: Global, text: &[u8]) -> Result<Body, CertFault>
    requires { length text.now ≤ MAX_TEXT_BYTES }
    ensures lines { Gives body_of result (none_body (lines_of text.now)) }
    ensures few { IfOk result (λ body. body_length body ≤ MAX_TEXT_BYTES) }
{
    let lines = read_lines(alloc, text, FIRST_LINE, Section::Refutation)?;
    Ok(Body::Nothing(lines))
}

/// Parses the rest of a report after `answer least`: values, the lines of a search, then `end`.
fn read_least(alloc: Global, text: &[u8]) -> Result<Body, CertFault>
    requires { length text.now ≤ MAX_TEXT_BYTES }
    ensures least { Gives body_of result (least_body (lines_of text.now)) }
    ensures few { IfOk result (λ body. body_length body ≤ MAX_TEXT_BYTES) }
{
    let (values, rest) = read_values(alloc, text)?;
    let at = FIRST_LINE + values.len() as u32;
    let lines = read_lines(alloc, rest, at, Section::Search)?;
    Ok(Body::Least(values, lines))
}

/// Returns the values in the leading lines `m A` of `text`, and the text from the first other line
/// on.
fn read_values<'a>(alloc: Global, text: &'a [u8]) -> Result<(Vec<u8>, &'a [u8]), AllocError>
    ensures front { IfOk result (λ r.
        values_at_front (lines_of text.now) ≡ (r.0.items, lines_of r.1.now)) }
    ensures few { IfOk result (λ r. length r.0.items + length r.1.now ≤ length text.now) }
{
    let mut values = Vec::new(alloc);
    let mut rest = text;
    'lines: while let Some((found, others)) = split_once(rest, b'\n') {
        let Some(value) = value_of(found) else {
            return Ok((values, rest));
        };
        put(&mut values, value)?;
        rest = others;
    }
    Ok((values, rest))
}

/// Parses the lines of `text` up to `end`, which must be its last line. `first` is the number of
/// its first line, and `part` says which lines may come.
///
/// # Errors
///
/// Fails with `Syntax` and the number of the first line that is malformed, missing, or follows
/// `end`.
fn read_lines(alloc: Global, text: &[u8], first: u32, part: Section) -> Result<Lines, CertFault>
    requires { first + length text.now ≤ FIRST_LINE + MAX_TEXT_BYTES }
    ensures lines { let read = steps_from (step_in part) first (lines_of text.now) in
        Gives (λ lines. map line_of lines.items) result read }
    ensures few { IfOk result (λ lines. length lines.items ≤ length text.now) }
{
    let mut lines = Vec::new(alloc);
    let mut rest = text;
    let mut at = first;
    'lines: while let Some((found, others)) = split_once(rest, b'\n') {
        if found == b"end".as_slice() {
            if !is_end(others) {
                return Err(CertFault::Syntax(at + 1));
            }
            return Ok(lines);
        }
        let Some(line) = step_in(part, found) else {
            return Err(CertFault::Syntax(at));
        };
        put(&mut lines, line)?;
        rest = others;
        at += 1;
    }
    Err(CertFault::Syntax(at))
}

/// Returns whether `behind`, the text after the line `end`, is empty.
fn is_end(behind: &[u8]) -> bool
    ensures { result ≡ (length behind.now == 0) }
{
    behind.is_empty()
}

/// Appends the item `one` to `list`.
fn put<T: Drop>(list: &mut Vec<T>, one: T) -> Result<(), AllocError>
    ensures { OnOk result (list.new.items ≡ list.old.items ++ one ∷ []) }
{
    list.push(one)?;
    Ok(())
}

/// Parses `line`, given without its line feed, as the line `m A` of a map, with a value of at most
/// 255.
pub fn value_of(line: &[u8]) -> Option<u8>
    requires { lacks 10 line.now ≡ true }
    ensures { result ≡ value_of_line (line.now ++ 10 ∷ []) }
{
    let value = number_after(line, b"m")?;
    if value > LARGEST_VALUE {
        return None;
    }
    Some(value as u8)
}

/// Parses `line`, given without its line feed, as a line of a refutation or a search. Returns
/// `None` if it is malformed, or may not stand in `part`.
pub fn step_in(part: Section, line: &[u8]) -> Option<Line>
    requires { lacks 10 line.now ≡ true }
    ensures { option_map line_of result ≡ step_in part (line.now ++ 10 ∷ []) }
{
    let step = step_of(line)?;
    match (part, step) {
        (Section::Values, _) | (Section::Refutation, Line::Found) => None,
        _ => Some(step),
    }
}

/// Parses `line` as any of the lines `p`, `z`, `b` and `f`.
fn step_of(line: &[u8]) -> Option<Line>
    requires { lacks 10 line.now ≡ true }
    ensures { option_map line_of result ≡ any_step (line.now ++ 10 ∷ []) }
{
    let Some((name, rest)) = split_once(line, b' ') else {
        return end_of(line);
    };
    if name == b"p".as_slice() {
        return removal_of(rest);
    }
    if name == b"z".as_slice() {
        return empty_of(rest);
    }
    if name == b"b".as_slice() {
        return branch_of(rest);
    }
    None
}

/// Parses a line without a space, which can only be `f`: the map was found.
fn end_of(word: &[u8]) -> Option<Line>
    ensures { option_map line_of result ≡ step_of_words (word.now ∷ []) }
{
    if word == b"f".as_slice() {
        return Some(Line::Found);
    }
    None
}

/// Parses `point`, the rest of a line `z V`, as the line that says that this point has no
/// candidate.
fn empty_of(point: &[u8]) -> Option<Line>
    ensures { option_map line_of result ≡ option_map empty (number_upto most_number point.now) }
{
    let point = number(point, u32::MAX)?;
    Some(Line::Empty { point })
}

/// Parses `point`, the rest of a line `b V`, as the line that branches at this point.
fn branch_of(point: &[u8]) -> Option<Line>
    ensures { option_map line_of result ≡ option_map branch (number_upto most_number point.now) }
{
    let point = number(point, u32::MAX)?;
    Some(Line::Branch { point })
}

/// Parses `numbers`, the rest of a line `p E C A`, as a removal: an execution, a process and a
/// value.
fn removal_of(numbers: &[u8]) -> Option<Line>
    ensures { option_map line_of result ≡ step_of_words (codes "p" ∷ words numbers.now) }
{
    let Some((execution, rest)) = split_once(numbers, b' ') else {
        return None;
    };
    let Some((process, value)) = split_once(rest, b' ') else {
        return None;
    };
    removal(execution, process, value)
}

/// Returns the removal that the words `execution`, `process` and `value` spell. Returns `None` if
/// one is no number, or too large.
fn removal(execution: &[u8], process: &[u8], value: &[u8]) -> Option<Line>
    ensures { option_map line_of result ≡ removal_of execution.now process.now value.now }
{
    Some(Line::Remove {
        execution: number(execution, u32::MAX)?,
        process: number(process, LAST_PROCESS)? as u8,
        value: number(value, LARGEST_VALUE)? as u8,
    })
}
