//! Checking the text form of clausal proofs with hints (LRAT).
//!
//! A proof is a list of steps. A clause has an id, its literals in DIMACS, ended by 0, and its
//! hints, ended by 0: the ids of the clauses from which it follows. A resolution asymmetric
//! tautology (RAT) has groups after these ids: each group is the negated id of a clause, and the
//! hints for the resolvent with that clause. A deletion has an id without meaning, `d`, and the ids
//! of the clauses to delete, ended by 0. A step may span lines. Lines that begin with `c` or `%`
//! between two steps are comments.

ghost use Rattle.std.specs.Prelude.{◌≡◌, ◌∷◌, List, ℕ, false, IfErr, IfOk};
ghost use Rattle.wf_sat_check.specs.Lrat.Fed.{IsReadTo, IsRefusedFor, Outcome, by_step, fault_at, outcome_at_end, outcome_of, proof_start, refutes};
ghost use Rattle.wf_sat_check.specs.Lrat.Ledger.{Ledger};
ghost use Rattle.wf_sat_check.specs.Lrat.Models.{HasNoModel, KeepsSatisfiable};
ghost use Rattle.wf_sat_text.specs.Lrat.Text.{state_after, step_in, step_of, text_from, text_of};
ghost use Rattle.wf_sat_text.specs.declared.lrat.reader.LratStepPart.TheVariants.{Hints};
ghost use Rattle.wf_sat_text.specs.declared.lrat.reader.LratTransition.TheVariants.{Ends};
ghost use Rattle.wf_sat_check.specs.declared.lrat.proof.LratFault.TheVariants.{OutOfMemory};

use crate::lrat::checker::LratChecker;
use crate::lrat::verdict::LratVerdict;
use std::alloc::{AllocError, Global};
use std::marker::Model;
use wf_sat_text::drat::last_variable;
use wf_sat_text::lrat::{LratParseError, LratReader, LratStepPart, LratTransition};

/// A reason why a proof is refused. Lines are counted from 1.
#[derive(Clone, Copy, Debug, PartialEq, Eq)]
pub enum LratFault {
    /// A word is neither a literal nor an id.
    NotALiteral {
        /// The number of the line with the word.
        line: u64,
    },
    /// A literal's variable is larger than [`last_variable`] allows for the number of the formula's
    /// variables.
    NoSuchVariable {
        /// The number of the line with the literal.
        line: u64,
    },
    /// The hints of a clause lead to no conflict.
    NoConflict {
        /// The number of the line in which the step of the clause ends.
        line: u64,
    },
    /// A hint of a clause is the id of no clause that is kept.
    UnknownHint {
        /// The number of the line in which the step of the clause ends.
        line: u64,
    },
    /// A RAT clause lacks the group of hints for a clause that needs one, or has it in another
    /// place.
    ClauseLeftOut {
        /// The number of the line in which the step of the RAT clause ends.
        line: u64,
    },
    /// The id of a clause is not larger than all ids so far, or is beyond the limit of
    /// [`MAX_ID_GROWTH`](crate::lrat::MAX_ID_GROWTH).
    IdOutOfRange {
        /// The number of the line in which the step of the clause ends.
        line: u64,
    },
    /// The proof ends before the empty clause was derived.
    NoContradiction {
        /// The number of the last line.
        line: u64,
    },
    /// The proof is in the binary form, which is not supported.
    Binary,
    /// Memory ran out before the proof was checked.
    OutOfMemory,
}

impl From<AllocError> for LratFault {
    fn from(_error: AllocError) -> LratFault {
        LratFault::OutOfMemory
    }
}

/// A proof with hints that is parsed piece by piece and checked step by step.
///
/// The proof is not trusted: whatever its bytes are, if it is accepted then what the checker knew
/// before the first piece has no model. Contracts see the state of the parser.
#[derive(Drop)]
pub struct LratProof {
    reader: LratReader,
}

impl Model for LratProof {
    ghost use Rattle.wf_sat_text.specs.Lrat.Text.{State};

    ghost Value = { State };

    ghost view = { λ p. p.reader };
}

impl LratProof {
    /// Creates a proof of which nothing was read, for a formula with the variables from 1 to
    /// `variables`. The proof itself may use the variables up to [`last_variable`].
    pub fn new(alloc: Global, variables: u32) -> LratProof
        ensures { result ≡ proof_start variables }
    {
        LratProof {
            reader: LratReader::new(alloc, last_variable(variables)),
        }
    }

    /// Returns the number of the line that the next byte belongs to. Lines are counted from 1.
    pub fn line(&self) -> u64
        ensures { result ≡ self.now.line }
    {
        self.reader.line()
    }

    /// Parses `piece`, the next piece of the proof, and passes its complete steps to `checker`.
    ///
    /// A word may be split between two pieces. Once the checker is refuted, all further bytes are
    /// ignored.
    ///
    /// # Errors
    ///
    /// Returns the first fault in the order of the text: a parse error, a clause that its hints do
    /// not justify, or a lack of memory. Unless memory ran out, `checker` has then taken exactly
    /// the steps before the fault. The state of the parser is unspecified after an error.
    pub fn feed(&mut self, checker: &mut LratChecker, piece: &[u8]) -> Result<(), LratFault>
        ensures kept { KeepsSatisfiable checker.old checker.new }
        ensures read { IfOk result (λ done. IsReadTo
            (outcome_of (text_of self.old piece.now) checker.old) self.new checker.new) }
        ensures refused { IfErr result (λ fault. IsRefusedFor
            (outcome_of (text_of self.old piece.now) checker.old) fault checker.new) }
    {
        if checker.is_refuted() {
            return Ok(());
        }
        let mut at = 0;
        'bytes: while at < piece.len() {
            match self.reader.take_word(piece, at) {
                Ok(Some(next)) => at = next,
                Ok(None) => match self.read(checker, piece[at]) {
                    Ok(()) => {
                        at += 1;
                        if checker.is_refuted() {
                            return Ok(());
                        }
                    }
                    Err(fault) => return Err(fault),
                },
                Err(_) => return Err(LratFault::OutOfMemory),
            }
        }
        Ok(())
    }

    /// Ends the proof as if a line feed came last. A step that lacks its final 0 is ignored. It is
    /// accepted exactly if `checker` is refuted then; in that case what `checker` knew before this
    /// call has no model.
    ///
    /// # Errors
    ///
    /// Returns a fault of the last line as [`feed`](LratProof::feed) does, or
    /// [`LratFault::NoContradiction`] if the checker is not refuted at the end.
    pub fn finish(mut self, checker: &mut LratChecker) -> Result<(), LratFault>
        ensures sound { IfOk result (λ accepted. HasNoModel checker.old) }
        ensures accepted { IfOk result (λ accepted.
            outcome_at_end self checker.old ≡ refutes checker.new) }
        ensures refused { IfErr result (λ fault. IsRefusedFor
            (outcome_at_end self checker.old) fault checker.new) }
    {
        let line = self.reader.line();
        if let Err(fault) = self.feed(checker, b"\n") {
            return Err(fault);
        }
        if checker.is_refuted() {
            return Ok(());
        }
        Err(LratFault::NoContradiction { line })
    }

    /// Reads `byte` and passes the step that it ends, if any, to `checker`, which is not refuted
    /// yet.
    fn read(&mut self, checker: &mut LratChecker, byte: u8) -> Result<(), LratFault>
        requires { checker.old.is_refuted ≡ false }
        ensures kept { KeepsSatisfiable checker.old checker.new }
        ensures read { IfOk result (λ done. (bytes : List ℕ) →
            outcome_of (text_of self.old (byte ∷ bytes)) checker.old
            ≡ outcome_of (text_of self.new bytes) checker.new) }
        ensures refused { IfErr result (λ fault. (bytes : List ℕ) → IsRefusedFor
            (outcome_of (text_of self.old (byte ∷ bytes)) checker.old) fault checker.new) }
    {
        match self.reader.transition(byte) {
            LratTransition::Ends => self.end_step(checker, byte),
            LratTransition::Stops { flaw } => Err(fault_at(self.reader.line(), flaw)),
            LratTransition::GoesOn { reading } => self.go_on(
                LratTransition::GoesOn { reading },
                byte,
            ),
            LratTransition::Begins { id } => self.go_on(LratTransition::Begins { id }, byte),
            LratTransition::BeginsDeletion => self.go_on(LratTransition::BeginsDeletion, byte),
            LratTransition::Takes { literal } => self.go_on(
                LratTransition::Takes { literal },
                byte,
            ),
            LratTransition::EndsClause => self.go_on(LratTransition::EndsClause, byte),
            LratTransition::Names { hint } => self.go_on(LratTransition::Names { hint }, byte),
            LratTransition::Deletes { id } => self.go_on(LratTransition::Deletes { id }, byte),
        }
    }

    /// Applies `transition`, the transition for `byte`, to the parser.
    fn go_on(&mut self, transition: LratTransition, byte: u8) -> Result<(), LratFault>
        ensures read { IfOk result (λ done. self.new ≡ state_after transition byte self.old) }
        ensures refused { IfErr result (λ fault. fault ≡ OutOfMemory) }
    {
        match self.reader.follow(transition, byte) {
            Ok(()) => Ok(()),
            Err(_) => Err(LratFault::OutOfMemory),
        }
    }

    /// Passes the current step, which `byte` ends, to the checker and empties it.
    fn end_step(&mut self, checker: &mut LratChecker, byte: u8) -> Result<(), LratFault>
        requires { checker.old.is_refuted ≡ false }
        ensures kept { KeepsSatisfiable checker.old checker.new }
        ensures read { IfOk result (λ done. (bytes : List ℕ) → outcome_of
            (text_from Ends self.old byte (λ next. text_of next bytes)) checker.old
            ≡ outcome_of (text_of self.new bytes) checker.new) }
        ensures refused { IfErr result (λ fault. (bytes : List ℕ) → IsRefusedFor (outcome_of
            (text_from Ends self.old byte (λ next. text_of next bytes)) checker.old)
            fault checker.new) }
    {
        if let Err(fault) = self.judge(checker) {
            return Err(fault);
        }
        self.go_on(LratTransition::Ends, byte)
    }

    /// Deletes the clauses that the current step names from `checker`, or checks its clause.
    fn judge(&self, checker: &mut LratChecker) -> Result<(), LratFault>
        ensures kept { KeepsSatisfiable checker.old checker.new }
        ensures taken { IfOk result (λ done. (rest : Ledger → Outcome) →
            by_step (step_of self.now) checker.old rest ≡ rest checker.new) }
        ensures refused { IfErr result (λ fault. (rest : Ledger → Outcome) → IsRefusedFor
            (by_step (step_of self.now) checker.old rest) fault checker.new) }
    {
        match self.reader.part() {
            LratStepPart::Ids => {
                checker.delete(self.reader.ids());
                Ok(())
            }
            LratStepPart::Front => self.learn(checker),
            LratStepPart::Literals => self.learn(checker),
            LratStepPart::Hints => self.learn(checker),
        }
    }

    /// Checks the clause of the current step by its hints, and keeps it in `checker` if they
    /// justify it.
    fn learn(&self, checker: &mut LratChecker) -> Result<(), LratFault>
        ensures kept { KeepsSatisfiable checker.old checker.new }
        ensures taken { IfOk result (λ done. (rest : Ledger → Outcome) →
            by_step (step_in Hints self.now) checker.old rest ≡ rest checker.new) }
        ensures refused { IfErr result (λ fault. (rest : Ledger → Outcome) → IsRefusedFor
            (by_step (step_in Hints self.now) checker.old rest) fault checker.new) }
    {
        let line = self.reader.line();
        match checker.derive(self.reader.id(), self.reader.clause(), self.reader.hints()) {
            Ok(LratVerdict::Conflict) => Ok(()),
            Ok(LratVerdict::NoConflict) => Err(LratFault::NoConflict { line }),
            Ok(LratVerdict::UnknownHint) => Err(LratFault::UnknownHint { line }),
            Ok(LratVerdict::ClauseLeftOut) => Err(LratFault::ClauseLeftOut { line }),
            Ok(LratVerdict::IdOutOfRange) => Err(LratFault::IdOutOfRange { line }),
            Err(_) => Err(LratFault::OutOfMemory),
        }
    }
}

/// Returns the fault for a parse error `flaw` in the line `line`.
fn fault_at(line: u64, flaw: LratParseError) -> LratFault
    ensures { result ≡ fault_at line flaw }
{
    match flaw {
        LratParseError::NotALiteral => LratFault::NotALiteral { line },
        LratParseError::NoSuchVariable => LratFault::NoSuchVariable { line },
        LratParseError::Binary => LratFault::Binary,
    }
}
