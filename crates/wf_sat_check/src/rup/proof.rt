//! Checking the text form of clausal proofs with deletions (DRAT).
//!
//! A proof is a list of lemmas and deletions. Each is written as the literals of a clause in
//! DIMACS, ended by 0, with `d` before the literals if the clause is deleted. A clause may span
//! lines. Lines that begin with `c` or `%` between two steps are comments.

ghost use Rattle.std.specs.Prelude.{◌≡◌, IfErr, IfOk};
ghost use Rattle.wf_sat_check.specs.Rup.Fed.{IsFaultAtEnd, IsFaultIn, IsFaultOfStep, IsFaultOfTurn, IsReadIn, IsTurned, TakesStep, fault_at, proof_start};
ghost use Rattle.wf_sat_check.specs.Rup.Rat.{KeepsSatisfiable};
ghost use Rattle.wf_sat_check.specs.Rup.Seen.{HasNoModel};
ghost use Rattle.wf_sat_text.specs.Drat.Text.{step_of, text_of, turn_of};
ghost use Rattle.wf_sat_text.specs.declared.drat.reader.Transition.TheVariants.{Ends};

use crate::rup::checker::Checker;
use std::alloc::{AllocError, Global};
use std::marker::Model;
use wf_sat_text::drat::{ParseError, Reader, Transition, last_variable};

/// A reason why a proof is refused. Lines are counted from 1.
#[derive(Clone, Copy, Debug, PartialEq, Eq)]
pub enum ProofFault {
    /// A word is not a literal.
    NotALiteral {
        /// The number of the line with the word.
        line: u64,
    },
    /// A literal's variable is larger than [`last_variable`] allows for the number of the formula's
    /// variables.
    NoSuchVariable {
        /// The number of the line with the literal.
        line: u64,
    },
    /// A lemma neither follows by unit propagation nor is a resolution asymmetric tautology (RAT)
    /// on its first literal.
    NotImplied {
        /// The number of the line in which the lemma ends.
        line: u64,
    },
    /// The proof ends before a contradiction, and the empty clause does not follow by unit
    /// propagation.
    NoContradiction {
        /// The number of the last line.
        line: u64,
    },
    /// The proof is in the binary form of DRAT, which is not supported.
    Binary,
    /// Memory ran out before the proof was checked.
    OutOfMemory,
}

impl From<AllocError> for ProofFault {
    ghost use Rattle.std.specs.Prelude.{◌≡◌};
    ghost use Rattle.wf_sat_check.specs.declared.rup.proof.ProofFault.TheVariants.{OutOfMemory};

    ghost from_gives = { λ _ e. e ≡ OutOfMemory };

    fn from(_error: AllocError) -> ProofFault {
        ProofFault::OutOfMemory
    }
}

/// A proof that is parsed piece by piece and checked step by step.
///
/// The proof is not trusted: whatever its bytes are, if it is accepted then what the checker knew
/// before the first piece has no model. Contracts see the state of the parser.
#[derive(Drop)]
pub struct Proof {
    reader: Reader,
}

impl Model for Proof {
    ghost use Rattle.wf_sat_text.specs.Drat.Text.{State};

    ghost Value = { State };

    ghost view = { λ p. p.reader };
}

impl Proof {
    /// Creates a proof of which nothing was read, for a formula with the variables from 1 to
    /// `variables`. The proof itself may use the variables up to [`last_variable`].
    pub fn new(alloc: Global, variables: u32) -> Proof
        ensures { result ≡ proof_start variables }
    {
        Proof {
            reader: Reader::new(alloc, last_variable(variables)),
        }
    }

    /// Returns the number of the line that the next byte belongs to. Lines are counted from 1.
    pub fn line(&self) -> u64
        ensures { result ≡ self.now.line }
    {
        self.reader.line()
    }

    /// Parses `piece`, the next piece of the proof, and passes its complete steps to `checker`.
    ///
    /// A literal may be split between two pieces. Once the checker is refuted, all further bytes
    /// are ignored.
    ///
    /// # Errors
    ///
    /// Returns the first fault in the order of the text: a parse error, a lemma that may not be
    /// added, or a lack of memory. Unless memory ran out, `checker` has then taken exactly the
    /// steps before the fault. The state of the parser is unspecified after an error.
    pub fn feed(
        &mut self,
        alloc: Global,
        checker: &mut Checker,
        piece: &[u8],
    ) -> Result<(), ProofFault>
        ensures kept { KeepsSatisfiable checker.old checker.new }
        ensures read { IfOk result (λ done.
            IsReadIn (text_of self.old piece.now) self.new checker.old checker.new) }
        ensures refused { IfErr result
            (IsFaultIn (text_of self.old piece.now) checker.old checker.new) }
    {
        if checker.is_refuted() {
            return Ok(());
        }
        let mut at = 0;
        'bytes: while at < piece.len() {
            match self.reader.take_literal(piece, at) {
                Ok(Some(next)) => at = next,
                Ok(None) => match self.read(alloc, checker, piece[at]) {
                    Ok(false) => at += 1,
                    Ok(true) => return Ok(()),
                    Err(fault) => return Err(fault),
                },
                Err(_) => return Err(ProofFault::OutOfMemory),
            }
        }
        Ok(())
    }

    /// Ends the proof as if a line feed came last. A step that lacks its final 0 is ignored. It is
    /// accepted if `checker` is refuted then, or if the empty clause follows by unit propagation.
    /// In that case what `checker` knew before this call has no model.
    ///
    /// # Errors
    ///
    /// Returns a fault of the last line as [`feed`](Proof::feed) does, or
    /// [`ProofFault::NoContradiction`] if the proof refutes nothing.
    pub fn finish(mut self, alloc: Global, checker: &mut Checker) -> Result<(), ProofFault>
        ensures accepted { IfOk result (λ accepted. HasNoModel checker.old) }
        ensures refused { IfErr result (IsFaultAtEnd self checker.old checker.new) }
    {
        let line = self.reader.line();
        if let Err(fault) = self.feed(alloc, checker, b"\n") {
            return Err(fault);
        }
        if checker.is_refuted() {
            return Ok(());
        }
        match checker.derive(alloc, &[]) {
            Ok(true) => Ok(()),
            Ok(false) => Err(ProofFault::NoContradiction { line }),
            Err(_) => Err(ProofFault::OutOfMemory),
        }
    }

    /// Reads `byte` and returns whether the checker is refuted by the step that it ends.
    fn read(&mut self, alloc: Global, checker: &mut Checker, byte: u8) -> Result<bool, ProofFault>
        ensures kept { KeepsSatisfiable checker.old checker.new }
        ensures read { IfOk result
            (IsTurned (turn_of self.old byte) byte self.old self.new checker.old checker.new) }
        ensures refused { IfErr result
            (IsFaultOfTurn (turn_of self.old byte) self.old checker.old checker.new) }
    {
        let transition = self.reader.transition(byte);
        self.take(alloc, checker, transition, byte)
    }

    /// Applies `transition`, the transition for `byte`, and returns whether the checker is refuted
    /// by the step that it ends.
    fn take(
        &mut self,
        alloc: Global,
        checker: &mut Checker,
        transition: Transition,
        byte: u8,
    ) -> Result<bool, ProofFault>
        ensures kept { KeepsSatisfiable checker.old checker.new }
        ensures taken { IfOk result
            (IsTurned transition byte self.old self.new checker.old checker.new) }
        ensures refused { IfErr result (IsFaultOfTurn transition self.old checker.old checker.new) }
    {
        match transition {
            Transition::GoesOn { reading } => {
                self.reader.go_on(reading, byte);
                Ok(false)
            }
            Transition::BeginsDeletion => {
                self.reader.begin_deletion(byte);
                Ok(false)
            }
            Transition::Takes { literal } => match self.reader.push(literal, byte) {
                Ok(()) => Ok(false),
                Err(_) => Err(ProofFault::OutOfMemory),
            },
            Transition::Ends => self.end_step(alloc, checker, byte),
            Transition::Stops { flaw } => Err(fault_at(self.reader.line(), flaw)),
        }
    }

    /// Passes the current step, which `byte` ends, to the checker, and returns whether the checker
    /// is refuted.
    fn end_step(
        &mut self,
        alloc: Global,
        checker: &mut Checker,
        byte: u8,
    ) -> Result<bool, ProofFault>
        ensures kept { KeepsSatisfiable checker.old checker.new }
        ensures taken { IfOk result
            (IsTurned Ends byte self.old self.new checker.old checker.new) }
        ensures refused { IfErr result (IsFaultOfStep (step_of self.old) checker.old checker.new) }
    {
        if let Err(fault) = self.judge(alloc, checker) {
            return Err(fault);
        }
        self.reader.end_step(byte);
        Ok(checker.is_refuted())
    }

    /// Deletes the clause of the current step from `checker`, or checks it as a lemma.
    fn judge(&self, alloc: Global, checker: &mut Checker) -> Result<(), ProofFault>
        ensures kept { KeepsSatisfiable checker.old checker.new }
        ensures taken { IfOk result (λ done. TakesStep (step_of self.now) checker.old checker.new) }
        ensures refused { IfErr result (IsFaultOfStep (step_of self.now) checker.old checker.new) }
    {
        if self.reader.is_deletion() {
            return match checker.delete(self.reader.clause()) {
                Ok(()) => Ok(()),
                Err(_) => Err(ProofFault::OutOfMemory),
            };
        }
        match checker.derive(alloc, self.reader.clause()) {
            Ok(true) => Ok(()),
            Ok(false) => Err(ProofFault::NotImplied {
                line: self.reader.line(),
            }),
            Err(_) => Err(ProofFault::OutOfMemory),
        }
    }
}

/// Returns the fault for a parse error `flaw` in the line `line`.
fn fault_at(line: u64, flaw: ParseError) -> ProofFault
    ensures { result ≡ fault_at line flaw }
{
    match flaw {
        ParseError::NotALiteral => ProofFault::NotALiteral { line },
        ParseError::NoSuchVariable => ProofFault::NoSuchVariable { line },
        ParseError::Binary => ProofFault::Binary,
    }
}
