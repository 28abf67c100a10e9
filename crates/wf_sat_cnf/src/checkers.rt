//! Passing the clauses of a question to a proof checker.

ghost use Rattle.std.specs.Prelude.{[], ◌∷◌, IfOk};
ghost use Rattle.wf_sat_text.specs.Clauses.Formula.{Formula};
ghost use Rattle.wf_sat_cnf.specs.Posed.{Adds};

use crate::taker::TokenSink;
use std::alloc::{AllocError, Global};
use wf_sat_check::lrat::LratChecker;
use wf_sat_check::rup::{Checker, Literal};

/// A checker of clausal proofs that the clauses of a question can be added to.
pub trait ClauseSink: Drop + Sized {
    // states that a checker knows the formula and nothing else
    ghost is_posed: { Formula → Self → Type 0 };

    /// Creates a checker that knows no clause, for the variables from 1 to `variables`.
    ///
    /// # Errors
    ///
    /// Returns `AllocError` if memory runs out.
    fn on_variables(alloc: Global, variables: u32) -> Result<Self, AllocError>
        ensures { IfOk result (is_posed (record { variables = variables; clauses = [] })) };

    /// Adds `clause` after the clauses that the checker knows.
    ///
    /// # Errors
    ///
    /// Returns `AllocError` if memory runs out; what the checker knows is then unspecified.
    fn take(&mut self, alloc: Global, clause: &[Literal]) -> Result<(), AllocError>
        ensures { IfOk result (λ done. Adds is_posed (clause.now ∷ []) self.old self.new) };
}

impl ClauseSink for Checker {
    ghost use Rattle.wf_sat_check.specs.Rup.Posed.{IsPosed};

    ghost is_posed = { IsPosed };

    fn on_variables(alloc: Global, variables: u32) -> Result<Checker, AllocError> {
        Checker::new(alloc, variables)
    }

    fn take(&mut self, alloc: Global, clause: &[Literal]) -> Result<(), AllocError> {
        self.add(alloc, clause)
    }
}

impl ClauseSink for LratChecker {
    ghost use Rattle.std.specs.Prelude.{◌≡◌};
    ghost use Rattle.wf_sat_check.specs.Lrat.Ledger.{ledger_of};

    ghost is_posed = { λ f ledger. ledger ≡ ledger_of f };

    fn on_variables(alloc: Global, variables: u32) -> Result<LratChecker, AllocError> {
        LratChecker::new(alloc, variables)
    }

    fn take(&mut self, _alloc: Global, clause: &[Literal]) -> Result<(), AllocError> {
        self.add(clause)
    }
}

/// The literals of a clause that is not complete yet. When the clause ends, it is added to a
/// checker.
#[derive(Drop)]
pub(crate) struct PendingClause {
    pub(crate) alloc: Global,
    pub(crate) literals: Vec<Literal>,
}

impl<C: ClauseSink> TokenSink<C> for PendingClause {
    ghost use Rattle.std.specs.Prelude.{IfOk};
    ghost use Rattle.wf_sat_cnf.specs.Tokens.{AddsTokens};
    ghost use Rattle.wf_sat_cnf.specs.TakingLaws.{adding_laws};

    type Fault = AllocError;

    ghost takes = { λ tokens clause checker clause' checker' result. IfOk result (λ done.
        AddsTokens C.is_posed tokens clause.literals.items checker clause'.literals.items
        checker') };

    ghost is_open = { λ checker. Unit {0} };

    fn positive(&mut self, _to: &mut C, variable: u32) -> Result<(), AllocError> {
        Ok(self.literals.push(Literal::positive(variable))?)
    }

    fn negative(&mut self, _to: &mut C, variable: u32) -> Result<(), AllocError> {
        Ok(self.literals.push(Literal::negative(variable))?)
    }

    fn end_clause(&mut self, to: &mut C) -> Result<(), AllocError> {
        to.take(self.alloc, &self.literals)?;
        self.literals.clear();
        Ok(())
    }

    ghost laws = { adding_laws C.is_posed (λ clause. clause.literals.items) };
}
