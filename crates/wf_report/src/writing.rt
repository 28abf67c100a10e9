//! Writing the text of a report.

ghost use Rattle.std.specs.Prelude.{◌≡◌, ◌<◌, ◌≤◌, ◌+◌, ◌∷◌, [], ◌++◌, IfOk, OnOk, codes, decimal, drop, flat_map, length, map};
ghost use Rattle.wf_model.specs.Report.{line, value_line, line_text, answer_line, body_lines, body_values, report_text};
ghost use Rattle.wf_base.specs.Lines.Lines.{line_of};
ghost use Rattle.wf_report.specs.Reports.{body_of, report_seen};
ghost use Rattle.wf_report.specs.Writing.{IsBeginning};

use crate::report::{Body, Report};
use itoa::write_digits;
use std::alloc::{AllocError, Global};
use wf_base::lines::{Line, Lines, put_number, put_words};

/// The number of lines after which the memory of the written lines is released.
const PIECE: usize = 65_536;

/// The size of the buffer for a line. The longest line takes 21 bytes: a letter, then numbers of up
/// to ten, three and three digits, each behind a space, and a line feed.
const ROOM: usize = 32;

/// Returns the text of `report`: the header, the values of a map, the lines of a refutation or a
/// search, and `end`.
///
/// Every line ends in one line feed, and numbers are decimal. [`Report::into_text`] needs less
/// memory.
///
/// # Errors
///
/// Returns `AllocError` if memory runs out.
pub fn write_report(alloc: Global, report: &Report) -> Result<Vec<u8>, AllocError>
    ensures text { IfOk result (λ text. text.items ≡ report_text (report_seen report.now)) }
{
    let mut text = beginning(alloc, report)?;
    put_lines(&mut text, report.body.lines())?;
    put_end(&mut text)?;
    Ok(text)
}

impl Report {
    /// Returns the text of the report, as [`write_report`] does, and consumes the report.
    ///
    /// The memory of the lines is released while they are written, so text and lines together take
    /// little more than the larger of the two.
    ///
    /// # Errors
    ///
    /// Returns `AllocError` if memory runs out; the report is then lost.
    pub fn into_text(self, alloc: Global) -> Result<Vec<u8>, AllocError>
        ensures text { IfOk result (λ text. text.items ≡ report_text (report_seen self)) }
    {
        let mut text = beginning(alloc, &self)?;
        take_lines(&mut text, self.body.into_lines(alloc))?;
        put_end(&mut text)?;
        Ok(text)
    }
}

/// Returns the text of `report` up to its lines: the header, the answer line and the values.
fn beginning(alloc: Global, report: &Report) -> Result<Vec<u8>, AllocError>
    ensures { IfOk result (λ text. IsBeginning (report_seen report.now) text.items) }
{
    let mut header = String::new(alloc);
    put_words(&mut header, "wfcheck report 1")?;
    put_number(&mut header, "processes", report.header.processes)?;
    put_number(&mut header, "rounds", report.header.rounds)?;
    put_number(&mut header, "points", report.header.points)?;
    put_number(&mut header, "executions", report.header.executions)?;
    put_words(&mut header, report.body.answer())?;
    let mut text = header.into_bytes();
    put_values(&mut text, report.body.values())?;
    Ok(text)
}

impl Body {
    /// Returns the answer line, without its line feed.
    fn answer(&self) -> &'static str
        ensures { line result.now [] ≡ answer_line (body_of self.now) }
    {
        match self {
            Body::Map(_) => "answer map",
            Body::Nothing(_) => "answer none",
            Body::Least(..) => "answer least",
        }
    }

    /// Returns the values of the map, in the order of the points. Empty if the body has no map.
    pub fn values(&self) -> &[u8]
        ensures { result.now ≡ body_values (body_of self.now) }
    {
        match self {
            Body::Map(values) | Body::Least(values, _) => values,
            Body::Nothing(_) => &[],
        }
    }

    /// Returns the lines of the refutation or the search. Empty if the body is only a map.
    pub fn lines(&self) -> &[Line]
        ensures { map line_of result.now ≡ body_lines (body_of self.now) }
    {
        match self {
            Body::Map(_) => &[],
            Body::Nothing(lines) | Body::Least(_, lines) => lines,
        }
    }

    /// Returns the lines of the refutation or the search, and drops the values. Empty if the body
    /// is only a map.
    fn into_lines(self, alloc: Global) -> Lines
        ensures { map line_of result.items ≡ body_lines (body_of self) }
    {
        match self {
            Body::Map(_values) => Vec::new(alloc),
            Body::Nothing(lines) => lines,
            Body::Least(_values, lines) => lines,
        }
    }
}

/// Appends a line `m A` for each of `values` to `text`.
fn put_values(text: &mut Vec<u8>, values: &[u8]) -> Result<(), AllocError>
    ensures { OnOk result (text.new.items ≡ text.old.items ++ flat_map value_line values.now) }
{
    for value in values {
        put_value(text, *value)?;
    }
    Ok(())
}

/// Appends the text of `lines` to `text`.
fn put_lines(text: &mut Vec<u8>, lines: &[Line]) -> Result<(), AllocError>
    ensures { OnOk result (text.new.items
        ≡ text.old.items ++ flat_map line_text (map line_of lines.now)) }
{
    for line in lines {
        put_line(text, *line)?;
    }
    Ok(())
}

/// Appends the text of `lines` to `text`, and releases their memory piece by piece.
fn take_lines(text: &mut Vec<u8>, lines: Lines) -> Result<(), AllocError>
    ensures { OnOk result (text.new.items
        ≡ text.old.items ++ flat_map line_text (map line_of lines.items)) }
{
    let mut left = lines;
    left.reverse();
    'lines: while let Some(line) = left.pop() {
        put_line(text, line)?;
        if left.len() % PIECE == 0 {
            left.shrink_to_fit();
        }
    }
    Ok(())
}

/// Appends the line `end` to `text`.
fn put_end(text: &mut Vec<u8>) -> Result<(), AllocError>
    ensures { OnOk result (text.new.items ≡ text.old.items ++ line (codes "end") []) }
{
    text.extend_from_slice(b"end\n")
}

/// Appends the line `m A` of `value` to `text`.
fn put_value(text: &mut Vec<u8>, value: u8) -> Result<(), AllocError>
    ensures { OnOk result (text.new.items ≡ text.old.items ++ value_line value) }
{
    let mut room = [0; ROOM];
    let feed = write_byte(b'\n', &mut room, ROOM);
    let number = write_number(u32::from(value), &mut room, feed);
    let begin = write_byte(b'm', &mut room, number);
    text.extend_from_slice(&room[begin..])
}

/// Appends the text of `line` to `text`. It is first written into a buffer, from right to left.
fn put_line(text: &mut Vec<u8>, line: Line) -> Result<(), AllocError>
    ensures { OnOk result (text.new.items ≡ text.old.items ++ line_text (line_of line)) }
{
    let mut room = [0; ROOM];
    let begin = write_line(line, &mut room);
    text.extend_from_slice(&room[begin..])
}

/// Writes the text of `line`, with its line feed, at the end of `room`. Returns the index at which
/// it begins.
fn write_line(line: Line, room: &mut [u8; ROOM]) -> usize
    ensures within { result ≤ ROOM }
    ensures written { drop result room.new ≡ line_text (line_of line) }
{
    let feed = write_byte(b'\n', room, ROOM);
    match line {
        Line::Remove {
            execution,
            process,
            value,
        } => {
            let third = write_number(u32::from(value), room, feed);
            let second = write_number(u32::from(process), room, third);
            let first = write_number(execution, room, second);
            write_byte(b'p', room, first)
        }
        Line::Empty { point } => {
            let number = write_number(point, room, feed);
            write_byte(b'z', room, number)
        }
        Line::Branch { point } => {
            let number = write_number(point, room, feed);
            write_byte(b'b', room, number)
        }
        Line::Found => write_byte(b'f', room, feed),
    }
}

/// Writes a space and `number` into `room` so that they end before index `end`. Returns the index
/// at which they begin.
fn write_number(number: u32, room: &mut [u8], end: usize) -> usize
    requires { (length (decimal number) < end) × (end ≤ length room.old) }
    ensures begin { result + 1 + length (decimal number) ≡ end }
    ensures written { drop result room.new ≡ 32 ∷ decimal number ++ drop end room.old }
{
    let digits = write_digits(u64::from(number), room, end);
    write_byte(b' ', room, digits)
}

/// Writes `byte` into `room` before index `end`. Returns its index.
fn write_byte(byte: u8, room: &mut [u8], end: usize) -> usize
    requires { (0 < end) × (end ≤ length room.old) }
    ensures begin { result + 1 ≡ end }
    ensures written { drop result room.new ≡ byte ∷ drop end room.old }
{
    room[end - 1] = byte;
    end - 1
}
