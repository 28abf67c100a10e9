//! Reading the model in a SAT solver's text.

ghost use Rattle.std.specs.Prelude.{◌≡◌, ◌<◌, ◌≤◌, ◌++◌, ◌∷◌, [], IfOk, MatchOption, None, Some, drop, false, if◌then◌else◌, length, nat_le, slice_index, take, true};
ghost use Rattle.std.specs.List.{list_all};
ghost use Rattle.wf_model.specs.Limits.{most_bytes};
ghost use Rattle.wf_model.specs.Report.{same_text};
ghost use Rattle.wf_complex.specs.Protocol.{IsProtocol};
ghost use Rattle.wf_sat_formula.specs.SolverText.{is_blank, is_digit, is_numeral, lines, is_passed_over, literal_of, literal_on, model_words, number_of, words};
ghost use Rattle.wf_sat_cnf.specs.declared.solver.ModelFault.TheVariants.{OutOfMemory};
ghost use Rattle.wf_sat_cnf.specs.Models.{IsMapOfModel, map_seen};
ghost use Rattle.wf_sat_cnf.specs.Reading.{AreWordsRead, Gives, HasRoom, IsEnd, IsFirstLine, IsFirstWord, IsFresh, IsStated, IsTextRead, begins_blank, has_no_blank, has_no_feed, literal_seen, signed};

use crate::models::least_values;
use crate::variables::Variables;
use std::alloc::{AllocError, Global};
use wf_complex::Protocol;
use wf_task::Task;

/// A reason why a solver's text gives no map. Lines are counted from 1.
#[derive(Clone, Copy, Debug, PartialEq, Eq)]
pub enum ModelFault {
    /// Memory ran out.
    OutOfMemory,
    /// The model ends, with the word 0 or with the text, before its first literal. That is so for
    /// the text of a solver that found no model. `line` is the number of the line on which the
    /// model ends.
    NoModel { line: u32 },
    /// A word on the line `line` is not a literal.
    NotALiteral { line: u32 },
    /// A literal on the line `line` has a greater variable than the formula has.
    NoSuchVariable { line: u32 },
}

impl From<AllocError> for ModelFault {
    ghost from_gives = { λ _ e. e ≡ OutOfMemory };

    fn from(_refused: AllocError) -> ModelFault {
        ModelFault::OutOfMemory
    }
}

/// Reads the model in `text`, which a solver wrote for the formula of `task` over `protocol`, and
/// returns the values of the map that it gives, by the indices of the points: at each point the
/// least value whose variable is true, or 0 if none is. It does not check that the map is a
/// decision map.
///
/// The literals are the words after `v` in the lines that begin with this word, and all words of
/// the other lines, except that lines beginning with `c`, `s`, `SAT`, `UNSAT` or `INDET` are
/// skipped. The model ends with the word 0, or with the text, which may have at most 16,777,216
/// bytes.
///
/// The time is linear in the text and the number of variables, and the memory is a byte for each
/// variable, and the map.
///
/// # Errors
///
/// Returns a [`ModelFault`] if memory runs out, at the first word that is not a literal of the
/// formula, or if the model has no literal.
pub fn read_map(
    alloc: Global,
    task: &Task,
    protocol: &Protocol,
    text: &[u8],
) -> Result<Vec<u8>, ModelFault>
    requires protocol { IsProtocol task.now protocol.now.rounds protocol.now }
    requires short { length text.now ≤ most_bytes }
    ensures { IsMapOfModel task.now protocol.now.rounds text.now (map_seen result) }
{
    let variables = Variables::of(alloc, task.values())?;
    let mut stated = ModelReader::empty(alloc, protocol.points() * variables.width)?;
    match stated.read(text) {
        Ok(()) => Ok(least_values(alloc, &variables, &stated.truths, protocol.points())?),
        Err(fault) => Err(fault),
    }
}

/// The part of a model that was read so far.
#[derive(Drop)]
pub(crate) struct ModelReader {
    /// The number of variables of the formula.
    pub variables: u32,
    /// The truth values of the variables, by their numbers. The value at index 0 is not used.
    pub truths: Vec<bool>,
    /// Whether a literal was read.
    pub is_begun: bool,
}

impl ModelReader {
    /// Creates a model in which no literal was read, for the variables from 1 to `variables`.
    fn empty(alloc: Global, variables: u32) -> Result<ModelReader, AllocError>
        requires { variables < 4294967295 }
        ensures { IfOk result (IsFresh variables) }
    {
        Ok(ModelReader {
            variables,
            truths: vec![in alloc; false; variables as usize + 1]?,
            is_begun: false,
        })
    }

    /// Reads the literals of `text`, up to the word 0 or the end.
    fn read(&mut self, text: &[u8]) -> Result<(), ModelFault>
        requires room { HasRoom self.old }
        requires short { length text.now ≤ most_bytes }
        ensures room { HasRoom self.new }
        ensures read { IsTextRead text.now self.old self.new result }
    {
        let mut left = text;
        let mut line = 1;
        'lines: while let Some((found, others)) = next_line(left) {
            if self.read_line(found, line)? {
                return self.end(line);
            }
            left = others;
            line += 1;
        }
        self.read_line(left, line)?;
        self.end(line)
    }

    /// Reads the literals of `line`, whose number is `number`. Returns whether the model ends on
    /// it, with the word 0.
    fn read_line(&mut self, line: &[u8], number: u32) -> Result<bool, ModelFault>
        requires room { HasRoom self.old }
        ensures room { HasRoom self.new }
        ensures same { self.new.variables ≡ self.old.variables }
        ensures read { AreWordsRead number (model_words (words line.now)) self.old self.new result }
    {
        let Some((first, rest)) = next_word(line) else {
            return Ok(false);
        };
        if is_passed_over(first) {
            return Ok(false);
        }
        if is_word(first, b"v") {
            self.read_words(rest, number)
        } else {
            self.read_words(line, number)
        }
    }

    /// Reads the words of `text` as literals, on the line with the number `number`. Returns `true`
    /// if the word 0 ends the model among them.
    fn read_words(&mut self, text: &[u8], number: u32) -> Result<bool, ModelFault>
        requires room { HasRoom self.old }
        ensures room { HasRoom self.new }
        ensures same { self.new.variables ≡ self.old.variables }
        ensures read { AreWordsRead number (words text.now) self.old self.new result }
    {
        let mut left = text;
        'words: while let Some((word, rest)) = next_word(left) {
            if is_word(word, b"0") {
                return Ok(true);
            }
            let literal = literal_of(word, self.variables, number)?;
            self.state(literal);
            left = rest;
        }
        Ok(false)
    }

    /// Records `literal` as part of the model.
    fn state(&mut self, literal: ModelLiteral)
        requires room { HasRoom self.old }
        requires variable { literal.variable ≤ self.old.variables }
        ensures room { HasRoom self.new }
        ensures same { self.new.variables ≡ self.old.variables }
        ensures stated { IsStated (literal_seen literal) self.old self.new }
    {
        self.is_begun = true;
        if literal.is_positive {
            self.truths[literal.variable as usize] = true;
        }
    }

    /// Ends the model on the line with the number `line`. Fails with [`ModelFault::NoModel`] if no
    /// literal was read.
    fn end(&self, line: u32) -> Result<(), ModelFault>
        ensures { IsEnd line self.now result }
    {
        if self.is_begun {
            Ok(())
        } else {
            Err(ModelFault::NoModel { line })
        }
    }
}

/// A literal in a model: a variable or its negation.
#[derive(Clone, Copy, Debug)]
pub(crate) struct ModelLiteral {
    /// The number of the variable, from 1.
    pub variable: u32,
    /// Whether the literal is the variable itself, and not its negation.
    pub is_positive: bool,
}

/// Parses `word` as a literal of one of the variables from 1 to `variables`. `line` is the number
/// of its line, for the error.
fn literal_of(word: &[u8], variables: u32, line: u32) -> Result<ModelLiteral, ModelFault>
    ensures literal { Gives literal_seen result (literal_of variables line word.now) }
    ensures variable { IfOk result (λ l. l.variable ≤ variables) }
{
    if word.is_empty() {
        return Err(ModelFault::NotALiteral { line });
    }
    if word[0] == b'-' {
        return literal_on(&word[1..], false, variables, line);
    }
    literal_on(word, true, variables, line)
}

/// Parses `digits` as one of the variables from 1 to `variables`, and returns its literal with the
/// given sign. `line` is the number of the line, for the error.
fn literal_on(
    digits: &[u8],
    is_positive: bool,
    variables: u32,
    line: u32,
) -> Result<ModelLiteral, ModelFault>
    ensures literal { Gives literal_seen result
        (literal_on variables line (signed is_positive) digits.now) }
    ensures variable { IfOk result (λ l. l.variable ≤ variables) }
{
    if !is_numeral(digits) {
        return Err(ModelFault::NotALiteral { line });
    }
    let Some(variable) = number_upto(digits, variables) else {
        return Err(ModelFault::NoSuchVariable { line });
    };
    Ok(ModelLiteral {
        variable,
        is_positive,
    })
}

/// Returns the number that `digits` spell if it is at most `most`.
fn number_upto(digits: &[u8], most: u32) -> Option<u32>
    ensures { result
        ≡ (if nat_le (number_of digits.now) most then Some (number_of digits.now) else None) }
{
    let mut number: u64 = 0;
    for digit in digits {
        number = 10 * number + u64::from(digit.saturating_sub(b'0'));
        if number > u64::from(most) {
            return None;
        }
    }
    Some(number as u32)
}

/// Returns whether `word` is a number from 1 on in decimal digits, without leading zeros.
fn is_numeral(word: &[u8]) -> bool
    ensures { result ≡ is_numeral word.now }
{
    if word.is_empty() {
        return false;
    }
    if word[0] == b'0' {
        return false;
    }
    are_digits(word)
}

/// Returns whether each byte of `word` is a decimal digit.
fn are_digits(word: &[u8]) -> bool
    ensures { result ≡ list_all is_digit word.now }
{
    for byte in word {
        if !byte.is_ascii_digit() {
            return false;
        }
    }
    true
}

/// Returns whether a line that begins with `word` is a comment or a status line, which is not part
/// of the model.
fn is_passed_over(word: &[u8]) -> bool
    ensures { result ≡ is_passed_over word.now }
{
    is_word(word, b"c")
        || is_word(word, b"s")
        || is_word(word, b"SAT")
        || is_word(word, b"UNSAT")
        || is_word(word, b"INDET")
}

/// Returns whether `word` is the same as `wanted`.
fn is_word(word: &[u8], wanted: &[u8]) -> bool
    ensures { result ≡ same_text word.now wanted.now }
{
    word == wanted
}

/// Splits `text` at its first line feed: returns the first line and the text after it, or `None` if
/// there is no line feed.
fn next_line(text: &[u8]) -> Option<(&[u8], &[u8])>
    ensures { MatchOption result (lines text.now ≡ text.now ∷ [])
        (λ parts. IsFirstLine parts.0.now parts.1.now text.now) }
{
    cut(text)
}

/// Splits `text` at its first line feed, like `split_once`. Returns `None` if there is none.
fn cut(text: &[u8]) -> Option<(&[u8], &[u8])>
    ensures { MatchOption result (has_no_feed text.now ≡ true) (λ parts.
        (text.now ≡ parts.0.now ++ 10 ∷ parts.1.now) × (has_no_feed parts.0.now ≡ true)) }
{
    for (place, byte) in text.iter().enumerate() {
        if *byte == b'\n' {
            return Some((&text[..place], &text[place + 1..]));
        }
    }
    None
}

/// Returns the first word of `text` and the text after it, or `None` if there is no word.
fn next_word(text: &[u8]) -> Option<(&[u8], &[u8])>
    ensures { MatchOption result (words text.now ≡ [])
        (λ parts. IsFirstWord parts.0.now parts.1.now text.now) }
{
    let mut left = text;
    'blanks: while !left.is_empty() {
        if !is_blank(left[0]) {
            return Some(split_word(left));
        }
        left = &left[1..];
    }
    None
}

/// Splits `text`, which begins with a word, into that word and the text after it.
fn split_word(text: &[u8]) -> (&[u8], &[u8])
    requires some { 0 < length text.now }
    requires first { is_blank (slice_index text.now 0) ≡ false }
    ensures { IsFirstWord result.0.now result.1.now text.now }
{
    let end = word_length(text);
    (&text[..end], &text[end..])
}

/// Returns the number of bytes before the first blank of `text`, or its length if it has none.
fn word_length(text: &[u8]) -> usize
    ensures few { result ≤ length text.now }
    ensures word { has_no_blank (take result text.now) ≡ true }
    ensures end { begins_blank (drop result text.now) ≡ true }
{
    for (place, byte) in text.iter().enumerate() {
        if is_blank(*byte) {
            return place;
        }
    }
    text.len()
}

/// Returns whether `byte` separates words within a line: a space, a tab or a carriage return.
fn is_blank(byte: u8) -> bool
    ensures { result ≡ is_blank byte }
{
    byte == b' ' || byte == b'\t' || byte == b'\r'
}
