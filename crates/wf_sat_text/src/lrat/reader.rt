//! The parser for the text of a clausal proof with hints.

ghost use Rattle.std.specs.Prelude.{◌≡◌, ◌<◌, ◌≤◌, IfOk, length};
ghost use Rattle.wf_sat_text.specs.Lrat.Moves.{Moves, MovesOverNumber, is_last};
ghost use Rattle.wf_sat_text.specs.Lrat.Text.{after, at_start, after_blank, literal_transition, next_line, number_transition, other_turn_in, state_after, turn_of};
ghost use Rattle.wf_sat_text.specs.declared.lrat.reader.LratTransition.TheVariants.{Ends};

use crate::drat::{Literal, MAX_VARIABLES};
use crate::lrat::numbers::number_from;
use crate::lrat::transitions::{
    after_id, between_steps, comment_transition, deletion_transition, digit_transition,
    hint_transition, id_transition, is_blank, parse_error, sign_transition,
};
use std::alloc::{AllocError, Global};
use std::marker::Model;

/// A reason why a text is not a proof with hints.
#[derive(Clone, Copy)]
pub enum LratParseError {
    /// A word is neither a literal nor an id.
    NotALiteral,
    /// A literal's variable is larger than the largest one that the reader accepts.
    NoSuchVariable,
    /// The text holds a byte that only the binary form of a proof has.
    Binary,
}

/// The kind of token that the bytes before the next one belong to.
#[derive(Clone, Copy)]
pub enum LratToken {
    /// No token: the last byte was white space, or ended a comment, or nothing of the text was
    /// read.
    Blank,
    /// A comment, which lasts until the end of its line.
    Comment,
    /// A minus sign. A digit has to follow.
    Minus,
    /// The first digits of a number. `value` is the number they spell, at most
    /// [`MAX_NUMBER`](crate::lrat::MAX_NUMBER), and `is_negative` says whether a minus sign stood
    /// before them.
    Number { is_negative: bool, value: u64 },
}

/// The part of an LRAT step that the next number or letter belongs to.
#[derive(Clone, Copy)]
pub enum LratStepPart {
    /// The beginning: no step has begun, and the next number is the id of one.
    Front,
    /// The literals of a clause, up to their 0. A `d` in place of the first literal makes the step
    /// a deletion.
    Literals,
    /// The hints that justify the clause, up to the 0 that ends the step.
    Hints,
    /// The ids of the clauses that a deletion deletes, up to the 0 that ends the step.
    Ids,
}

/// A hint: the id of a clause, with or without a minus sign.
#[derive(Clone, Copy, Debug, PartialEq, Eq)]
pub struct Hint {
    /// The id of the clause.
    pub id: u64,
    /// Whether a minus sign stands before the id. Such a hint begins a group: the hints after it
    /// justify the resolvent with the clause that it names.
    pub is_negative: bool,
}

/// A transition of the parser's state machine: the effect of one byte. [`LratReader::follow`]
/// applies it.
#[derive(Clone, Copy)]
pub enum LratTransition {
    /// The byte completes nothing, and `reading` is the token that it belongs to.
    GoesOn { reading: LratToken },
    /// The byte ends the number `id`, with which a step begins.
    Begins { id: u64 },
    /// The byte is the `d` that makes the current step a deletion.
    BeginsDeletion,
    /// The byte ends the number of `literal`, which belongs to the clause of the current step.
    Takes { literal: Literal },
    /// The byte ends the 0 after the literals of the clause. The hints come next.
    EndsClause,
    /// The byte ends the number of `hint`, which belongs to the current step.
    Names { hint: Hint },
    /// The byte ends the number `id`, the id of a clause that the current step deletes.
    Deletes { id: u64 },
    /// The byte ends the 0 that ends the current step.
    Ends,
    /// The text is not a proof, for the reason `flaw`.
    Stops { flaw: LratParseError },
}

/// The state of a parser that has read a proof with hints up to some byte.
///
/// The current step is the one whose final 0 was not read yet. Between two steps it has the id 0,
/// no literals, no hints and no ids.
#[derive(Drop)]
pub struct LratReader {
    variables: u32,
    line: u64,
    reading: LratToken,
    part: LratStepPart,
    id: u64,
    clause: Vec<Literal>,
    hints: Vec<Hint>,
    // the ids of the clauses that the current step deletes
    ids: Vec<u64>,
}

impl Model for LratReader {
    ghost use Rattle.std.specs.Prelude.{◌≤◌};
    ghost use Rattle.wf_sat_text.specs.Drat.Codes.{most_variables};
    ghost use Rattle.wf_sat_text.specs.Lrat.Text.{State};

    ghost Value = { State };

    ghost view = { λ r. record {
      variables = r.variables;
      line = r.line;
      reading = r.reading;
      part = r.part;
      id = r.id;
      clause = r.clause.items;
      hints = r.hints.items;
      ids = r.ids.items;
    } };

    ghost invariant = { λ r. r.variables ≤ most_variables };
}

impl LratReader {
    /// Creates a reader at the beginning of a text whose variables are those from 1 to `variables`,
    /// or to `MAX_VARIABLES` if that is less.
    pub fn new(alloc: Global, variables: u32) -> LratReader
        ensures { result ≡ at_start variables }
    {
        LratReader {
            variables: variables.min(MAX_VARIABLES),
            line: 1,
            reading: LratToken::Blank,
            part: LratStepPart::Front,
            id: 0,
            clause: Vec::new(alloc),
            hints: Vec::new(alloc),
            ids: Vec::new(alloc),
        }
    }

    /// Returns the number of the line that the next byte belongs to. Lines are counted from 1.
    #[inline]
    pub fn line(&self) -> u64
        ensures { result ≡ self.now.line }
    {
        self.line
    }

    /// Returns the part of the current step that the next word belongs to.
    #[inline]
    pub fn part(&self) -> LratStepPart
        ensures { result ≡ self.now.part }
    {
        self.part
    }

    /// Returns the id of the current step, or 0 between two steps.
    #[inline]
    pub fn id(&self) -> u64
        ensures { result ≡ self.now.id }
    {
        self.id
    }

    /// Returns the literals of the current step that were read so far, in the order of the text.
    #[inline]
    pub fn clause(&self) -> &[Literal]
        ensures { result.now ≡ self.now.clause }
    {
        &self.clause
    }

    /// Returns the hints of the current step that were read so far, in the order of the text.
    #[inline]
    pub fn hints(&self) -> &[Hint]
        ensures { result.now ≡ self.now.hints }
    {
        &self.hints
    }

    /// Returns the ids that were read so far of the clauses that the current step deletes.
    #[inline]
    pub fn ids(&self) -> &[u64]
        ensures { result.now ≡ self.now.ids }
    {
        &self.ids
    }

    /// Returns the transition that `byte` causes if it is the next byte. The reader does not move.
    #[inline]
    pub fn transition(&self, byte: u8) -> LratTransition
        ensures { result ≡ turn_of self.now byte }
    {
        match self.reading {
            LratToken::Blank => self.after_blank(byte),
            LratToken::Comment => comment_transition(byte),
            LratToken::Minus => sign_transition(byte),
            LratToken::Number { is_negative, value } => {
                if byte.is_ascii_digit() {
                    digit_transition(is_negative, value, byte)
                } else if is_blank(byte) {
                    self.number_transition(is_negative, value)
                } else {
                    parse_error(byte)
                }
            }
        }
    }

    /// Returns the transition for a byte that follows white space or begins the text.
    fn after_blank(&self, byte: u8) -> LratTransition
        ensures { result ≡ after_blank self.now byte }
    {
        if is_blank(byte) {
            LratTransition::GoesOn {
                reading: LratToken::Blank,
            }
        } else if byte == b'-' {
            LratTransition::GoesOn {
                reading: LratToken::Minus,
            }
        } else if byte.is_ascii_digit() {
            digit_transition(false, 0, byte)
        } else {
            self.other_transition(byte)
        }
    }

    /// Returns the transition for a byte that follows white space or begins the text, and is
    /// neither white space, a minus sign nor a digit.
    fn other_transition(&self, byte: u8) -> LratTransition
        ensures { result ≡ other_turn_in self.now.part (length self.now.clause) byte }
    {
        match self.part {
            LratStepPart::Front => between_steps(byte),
            LratStepPart::Literals => after_id(self.clause.len(), byte),
            LratStepPart::Hints => parse_error(byte),
            LratStepPart::Ids => parse_error(byte),
        }
    }

    /// Returns the transition for white space after a number. Its meaning depends on the part of
    /// the step.
    #[inline(always)]
    fn number_transition(&self, is_negative: bool, value: u64) -> LratTransition
        ensures { result ≡ number_transition self.now is_negative value }
    {
        match self.part {
            LratStepPart::Front => id_transition(is_negative, value),
            LratStepPart::Literals => self.literal_transition(is_negative, value),
            LratStepPart::Hints => hint_transition(is_negative, value),
            LratStepPart::Ids => deletion_transition(is_negative, value),
        }
    }

    /// Returns the transition for white space after a number among the literals of a clause: it
    /// completes a literal or the 0 after them, or the number is an error.
    #[inline(always)]
    fn literal_transition(&self, is_negative: bool, value: u64) -> LratTransition
        ensures { result ≡ literal_transition self.now.variables is_negative value }
    {
        if value == 0 {
            if is_negative {
                LratTransition::Stops {
                    flaw: LratParseError::NotALiteral,
                }
            } else {
                LratTransition::EndsClause
            }
        } else if value > u64::from(self.variables) {
            LratTransition::Stops {
                flaw: LratParseError::NoSuchVariable,
            }
        } else {
            LratTransition::Takes {
                literal: Literal::new(is_negative, value as u32),
            }
        }
    }

    /// Moves past `byte` and applies `transition`, which has to be what
    /// [`transition`](LratReader::transition) returned for `byte`. [`LratTransition::Ends`] empties
    /// the current step, so read the step before.
    ///
    /// # Errors
    ///
    /// Returns `AllocError` if memory runs out; what the reader holds is then unspecified.
    #[inline(always)]
    pub fn follow(&mut self, transition: LratTransition, byte: u8) -> Result<(), AllocError>
        ensures { IfOk result (λ done. self.new ≡ state_after transition byte self.old) }
    {
        self.change(transition)?;
        self.count_line(byte);
        Ok(())
    }

    /// Applies `transition`, except for the line number.
    #[inline(always)]
    fn change(&mut self, transition: LratTransition) -> Result<(), AllocError>
        ensures { IfOk result (λ done. self.new ≡ after transition self.old) }
    {
        match transition {
            LratTransition::GoesOn { reading } => self.reading = reading,
            LratTransition::Begins { id } => {
                self.reading = LratToken::Blank;
                self.part = LratStepPart::Literals;
                self.id = id;
            }
            LratTransition::BeginsDeletion => {
                self.reading = LratToken::Blank;
                self.part = LratStepPart::Ids;
            }
            LratTransition::Takes { literal } => {
                self.reading = LratToken::Blank;
                self.clause.push(literal)?;
            }
            LratTransition::EndsClause => {
                self.reading = LratToken::Blank;
                self.part = LratStepPart::Hints;
            }
            LratTransition::Names { hint } => {
                self.reading = LratToken::Blank;
                self.hints.push(hint)?;
            }
            LratTransition::Deletes { id } => {
                self.reading = LratToken::Blank;
                self.ids.push(id)?;
            }
            LratTransition::Ends => self.clear(),
            LratTransition::Stops { flaw: _ } => {}
        }
        Ok(())
    }

    /// Empties the current step, so that the reader is between two steps.
    fn clear(&mut self)
        ensures { self.new ≡ after Ends self.old }
    {
        self.reading = LratToken::Blank;
        self.part = LratStepPart::Front;
        self.id = 0;
        self.clause.clear();
        self.hints.clear();
        self.ids.clear();
    }

    /// Reads a whole number at the index `from` of `piece`, and returns the index of the first byte
    /// after it and after the white space behind it.
    ///
    /// This is a fast path with the same effect as reading the bytes one by one. It returns `None`
    /// and changes nothing unless the reader is between two words and `piece` holds at `from` a
    /// complete number, with white space behind it. A number that ends a step or is an error is
    /// never read this way.
    ///
    /// # Errors
    ///
    /// Returns `AllocError` if memory runs out; what the reader holds is then unspecified.
    #[inline(always)]
    pub fn take_word(&mut self, piece: &[u8], from: usize) -> Result<Option<usize>, AllocError>
        requires { from < length piece.now }
        ensures { IfOk result (Moves piece.now self.old from self.old self.new) }
    {
        if !matches!(self.reading, LratToken::Blank) {
            return Ok(None);
        }
        if piece[from] == b'-' {
            self.take_number(piece, from + 1, true)
        } else {
            self.take_number(piece, from, false)
        }
    }

    /// Reads a number whose digits begin at the index `from` of `piece`, with a minus sign before
    /// them if `is_negative`, under the conditions of [`take_word`](LratReader::take_word).
    #[inline(always)]
    fn take_number(
        &mut self,
        piece: &[u8],
        from: usize,
        is_negative: bool,
    ) -> Result<Option<usize>, AllocError>
        requires { from ≤ length piece.now }
        ensures { IfOk result (MovesOverNumber piece.now is_negative from self.old self.new) }
    {
        let number = number_from(piece, from);
        if number.end == from || number.end == piece.len() || !is_blank(piece[number.end]) {
            return Ok(None);
        }
        let transition = self.number_transition(is_negative, number.value);
        if ends_step_or_fails(&transition) {
            return Ok(None);
        }
        self.follow(transition, piece[number.end])?;
        Ok(Some(number.end + 1))
    }

    /// Advances the line number if `byte` is a line feed. The line number stays at `u64::MAX` once
    /// it is there.
    #[inline(always)]
    fn count_line(&mut self, byte: u8)
        ensures { self.new ≡ next_line byte self.old }
    {
        if byte == b'\n' {
            self.line = self.line.saturating_add(1);
        }
    }
}

/// Returns whether `transition` ends a step or reports that the text is not a proof.
#[inline(always)]
fn ends_step_or_fails(transition: &LratTransition) -> bool
    ensures { result ≡ is_last transition.now }
{
    matches!(
        *transition,
        LratTransition::Ends | LratTransition::Stops { flaw: _ }
    )
}
