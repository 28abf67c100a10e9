//! The parser for the text of a clausal proof.

ghost use Rattle.std.specs.Prelude.{◌≡◌, ◌<◌, ◌≤◌, IfOk, IsTrue, length};
ghost use Rattle.std.specs.Char.{is_ascii_digit};
ghost use Rattle.wf_sat_text.specs.declared.drat.reader.Transition.TheVariants.{GoesOn, BeginsDeletion, Takes, Ends};
ghost use Rattle.wf_sat_text.specs.Drat.Moves.{Moves, MovesOverNumber};
ghost use Rattle.wf_sat_text.specs.Drat.Text.{at_start, comment_transition, digit_transition, after_blank, is_between_steps, is_blank, is_of_text, between_steps, next_line, number_transition, sign_transition, state_after, parse_error, turn_of};

use crate::drat::digits::{digits_from, with_digit};
use crate::drat::literal::{Literal, MAX_VARIABLES};
use std::alloc::{AllocError, Global};
use std::marker::Model;

/// A reason why a text is not a proof.
#[derive(Clone, Copy)]
pub enum ParseError {
    /// A word is not a literal.
    NotALiteral,
    /// A literal's variable is larger than the largest one that the reader accepts.
    NoSuchVariable,
    /// The text holds a byte that only the binary form of DRAT has.
    Binary,
}

/// The kind of token that the bytes before the next one belong to.
#[derive(Clone, Copy)]
pub enum Reading {
    /// No token: the last byte was white space, or ended a comment, or nothing of the text was
    /// read.
    Blank,
    /// A comment, which lasts until the end of its line.
    Comment,
    /// A minus sign. A digit has to follow.
    Minus,
    /// The first digits of a number. `value` is the number they spell, at most `u32::MAX`, and
    /// `is_negative` says whether a minus sign stood before them.
    Number { is_negative: bool, value: u32 },
}

/// A transition of the parser's state machine: the effect of one byte. The [`Reader`] methods
/// [`go_on`](Reader::go_on), [`begin_deletion`](Reader::begin_deletion), [`push`](Reader::push) and
/// [`end_step`](Reader::end_step) apply it.
#[derive(Clone, Copy)]
pub enum Transition {
    /// The byte completes nothing, and `reading` is the token that it belongs to.
    GoesOn { reading: Reading },
    /// The byte is the `d` that begins a deletion.
    BeginsDeletion,
    /// The byte ends the number of `literal`, which belongs to the current step.
    Takes { literal: Literal },
    /// The byte ends the `0` that ends the current step.
    Ends,
    /// The text is not a proof, for the reason `flaw`.
    Stops { flaw: ParseError },
}

/// The state of a parser that has read a proof up to some byte.
///
/// The current step is the lemma or the deletion whose `0` was not read yet; between two steps it
/// has no literals and counts as a lemma.
#[derive(Drop)]
pub struct Reader {
    variables: u32,
    line: u64,
    reading: Reading,
    is_deletion: bool,
    clause: Vec<Literal>,
}

impl Model for Reader {
    ghost use Rattle.std.specs.Prelude.{◌≤◌};
    ghost use Rattle.wf_sat_text.specs.Drat.Codes.{most_variables};
    ghost use Rattle.wf_sat_text.specs.Drat.Text.{State};

    ghost Value = { State };

    ghost view = { λ r. record {
      variables = r.variables;
      line = r.line;
      reading = r.reading;
      is_deletion = r.is_deletion;
      clause = r.clause.items;
    } };

    ghost invariant = { λ r. r.variables ≤ most_variables };
}

impl Reader {
    /// Creates a reader at the beginning of a text whose variables are those from 1 to `variables`,
    /// or to [`MAX_VARIABLES`] if that is less.
    pub fn new(alloc: Global, variables: u32) -> Reader
        ensures { result ≡ at_start variables }
    {
        Reader {
            variables: variables.min(MAX_VARIABLES),
            line: 1,
            reading: Reading::Blank,
            is_deletion: false,
            clause: Vec::new(alloc),
        }
    }

    /// Returns the number of the line that the next byte belongs to. Lines are counted from 1.
    pub fn line(&self) -> u64
        ensures { result ≡ self.now.line }
    {
        self.line
    }

    /// Returns whether the current step is a deletion.
    pub fn is_deletion(&self) -> bool
        ensures { result ≡ self.now.is_deletion }
    {
        self.is_deletion
    }

    /// Returns the literals of the current step that were read so far, in the order of the text.
    pub fn clause(&self) -> &[Literal]
        ensures { result.now ≡ self.now.clause }
    {
        &self.clause
    }

    /// Returns the transition that `byte` causes if it is the next byte. The reader does not move.
    #[inline]
    pub fn transition(&self, byte: u8) -> Transition
        ensures { result ≡ turn_of self.now byte }
    {
        match self.reading {
            Reading::Blank => self.after_blank(byte),
            Reading::Comment => comment_transition(byte),
            Reading::Minus => sign_transition(byte),
            Reading::Number { is_negative, value } => {
                if byte.is_ascii_digit() {
                    digit_transition(is_negative, value, byte)
                } else if is_blank(byte) {
                    self.number_transition(is_negative, value)
                } else {
                    parse_error(byte)
                }
            }
        }
    }

    /// Returns the transition for a byte that follows white space or begins the text.
    fn after_blank(&self, byte: u8) -> Transition
        ensures { result ≡ after_blank self.now byte }
    {
        if is_blank(byte) {
            Transition::GoesOn {
                reading: Reading::Blank,
            }
        } else if byte == b'-' {
            Transition::GoesOn {
                reading: Reading::Minus,
            }
        } else if byte.is_ascii_digit() {
            digit_transition(false, 0, byte)
        } else if self.is_between_steps() {
            between_steps(byte)
        } else {
            parse_error(byte)
        }
    }

    /// Returns whether the reader is between two steps: no deletion has begun, and no literal was
    /// read.
    fn is_between_steps(&self) -> bool
        ensures { result ≡ is_between_steps self.now }
    {
        !self.is_deletion && self.clause.is_empty()
    }

    /// Returns the transition for white space after a number: it completes a literal or the 0 that
    /// ends a step, or the number is an error.
    fn number_transition(&self, is_negative: bool, value: u32) -> Transition
        ensures { result ≡ number_transition self.now is_negative value }
    {
        if value == 0 {
            if is_negative {
                Transition::Stops {
                    flaw: ParseError::NotALiteral,
                }
            } else {
                Transition::Ends
            }
        } else if value > self.variables {
            Transition::Stops {
                flaw: ParseError::NoSuchVariable,
            }
        } else {
            Transition::Takes {
                literal: Literal::new(is_negative, value),
            }
        }
    }

    /// Moves past `byte` and sets the current token to `reading`, which applies the transition
    /// [`Transition::GoesOn`].
    #[inline]
    pub fn go_on(&mut self, reading: Reading, byte: u8)
        ensures { self.new ≡ state_after (GoesOn reading) byte self.old }
    {
        self.reading = reading;
        self.count_line(byte);
    }

    /// Moves past `byte` and makes the current step a deletion, which applies the transition
    /// [`Transition::BeginsDeletion`].
    pub fn begin_deletion(&mut self, byte: u8)
        ensures { self.new ≡ state_after BeginsDeletion byte self.old }
    {
        self.reading = Reading::Blank;
        self.is_deletion = true;
        self.count_line(byte);
    }

    /// Moves past `byte` and appends `literal` to the current step, which applies the transition
    /// [`Transition::Takes`].
    ///
    /// # Errors
    ///
    /// Returns `AllocError` if memory runs out; what the reader holds is then unspecified.
    pub fn push(&mut self, literal: Literal, byte: u8) -> Result<(), AllocError>
        ensures { IfOk result (λ done. self.new ≡ state_after (Takes literal) byte self.old) }
    {
        self.reading = Reading::Blank;
        self.clause.push(literal)?;
        self.count_line(byte);
        Ok(())
    }

    /// Moves past `byte` and ends the current step, which applies the transition
    /// [`Transition::Ends`]. The clause becomes empty, and the next step begins as a lemma. Read
    /// the step with [`clause`](Reader::clause) and [`is_deletion`](Reader::is_deletion) before.
    pub fn end_step(&mut self, byte: u8)
        ensures { self.new ≡ state_after Ends byte self.old }
    {
        self.reading = Reading::Blank;
        self.is_deletion = false;
        self.clause.clear();
        self.count_line(byte);
    }

    /// Reads a whole literal at the index `from` of `piece`, and returns the index of the first
    /// byte after it and after the space behind it.
    ///
    /// This is a fast path with the same effect as reading the bytes one by one. It returns `None`
    /// and changes nothing unless the reader is between two words and `piece` holds at `from` a
    /// literal of an accepted variable, complete, with a space behind it. The 0 at the end of a
    /// step is never read this way.
    ///
    /// # Errors
    ///
    /// Returns `AllocError` if memory runs out; what the reader holds is then unspecified.
    #[inline(always)]
    pub fn take_literal(&mut self, piece: &[u8], from: usize) -> Result<Option<usize>, AllocError>
        requires { from < length piece.now }
        ensures { IfOk result (Moves piece.now self.old from self.old self.new) }
    {
        if !matches!(self.reading, Reading::Blank) {
            return Ok(None);
        }
        if piece[from] == b'-' {
            self.take_number(piece, from + 1, true)
        } else {
            self.take_number(piece, from, false)
        }
    }

    /// Reads a literal whose digits begin at the index `from` of `piece`, with a minus sign before
    /// them if `is_negative`, under the conditions of [`take_literal`](Reader::take_literal).
    #[inline(always)]
    fn take_number(
        &mut self,
        piece: &[u8],
        from: usize,
        is_negative: bool,
    ) -> Result<Option<usize>, AllocError>
        requires { from ≤ length piece.now }
        ensures { IfOk result (MovesOverNumber piece.now is_negative from self.old self.new) }
    {
        let digits = digits_from(piece, from);
        if digits.end == from || digits.end == piece.len() || piece[digits.end] != b' ' {
            return Ok(None);
        }
        if digits.value == 0 || digits.value > self.variables {
            return Ok(None);
        }
        self.reading = Reading::Blank;
        self.clause.push(Literal::new(is_negative, digits.value))?;
        Ok(Some(digits.end + 1))
    }

    /// Advances the line number if `byte` is a line feed. The line number stays at `u64::MAX` once
    /// it is there.
    #[inline]
    fn count_line(&mut self, byte: u8)
        ensures { self.new ≡ next_line byte self.old }
    {
        if byte == b'\n' {
            self.line = self.line.saturating_add(1);
        }
    }
}

/// Returns the transition for a byte within a comment. A line feed ends the comment.
fn comment_transition(byte: u8) -> Transition
    ensures { result ≡ comment_transition byte }
{
    if byte == b'\n' {
        Transition::GoesOn {
            reading: Reading::Blank,
        }
    } else {
        Transition::GoesOn {
            reading: Reading::Comment,
        }
    }
}

/// Returns the transition for a byte after a minus sign, which has to be a digit.
fn sign_transition(byte: u8) -> Transition
    ensures { result ≡ sign_transition byte }
{
    if byte.is_ascii_digit() {
        digit_transition(true, 0, byte)
    } else {
        parse_error(byte)
    }
}

/// Returns the transition for a byte that is between two steps and is neither white space, a minus
/// sign nor a digit. It may begin a comment or a deletion.
fn between_steps(byte: u8) -> Transition
    ensures { result ≡ between_steps byte }
{
    match byte {
        // a comment; `%` is how PicoSAT begins the first line of a proof
        b'c' | b'%' => Transition::GoesOn {
            reading: Reading::Comment,
        },
        b'd' => Transition::BeginsDeletion,
        // the byte that marks a lemma in binary DRAT
        b'a' => Transition::Stops {
            flaw: ParseError::Binary,
        },
        _ => parse_error(byte),
    }
}

/// Returns the transition for a byte that no literal can have: an error, which names the binary
/// form if the byte can't occur in a text.
fn parse_error(byte: u8) -> Transition
    ensures { result ≡ parse_error byte }
{
    let flaw = if is_of_text(byte) {
        ParseError::NotALiteral
    } else {
        ParseError::Binary
    };
    Transition::Stops { flaw }
}

/// Returns the transition for one more digit of a number whose digits so far spell `value`.
fn digit_transition(is_negative: bool, value: u32, digit: u8) -> Transition
    requires { IsTrue (is_ascii_digit digit) }
    ensures { result ≡ digit_transition is_negative value digit }
{
    let value = with_digit(value, digit);
    Transition::GoesOn {
        reading: Reading::Number { is_negative, value },
    }
}

/// Returns whether `byte` is a space, a tab, a carriage return or a line feed.
fn is_blank(byte: u8) -> bool
    ensures { result ≡ is_blank byte }
{
    byte == b' ' || byte == b'\t' || byte == b'\r' || byte == b'\n'
}

/// Returns whether `byte` may occur in a text proof: printable ASCII or white space, but no other
/// control character and no byte from 0x7F on.
fn is_of_text(byte: u8) -> bool
    ensures { result ≡ is_of_text byte }
{
    is_blank(byte) || (b' ' <= byte && byte <= b'~')
}
