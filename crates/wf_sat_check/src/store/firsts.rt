//! A lower bound, for each literal, on the numbers of the clauses that have it.

ghost use Rattle.std.specs.Prelude.{ℕ, suc, ◌≡◌, ◌≤◌, ◌-◌, ◌^◌, true, get_or, replicate, IfOk};
ghost use Rattle.wf_sat_check.specs.Store.FirstOccurrence.{IsLowered};
ghost use Rattle.wf_sat_check.specs.Store.Literals.{has};

use std::alloc::{AllocError, Global};
use std::marker::Model;
use wf_sat_text::drat::Code;

/// A lower bound, for each literal, on the numbers of the clauses that have it: the least number
/// that was noted for the literal.
///
/// Contracts see the list of bounds by the literals' codes. A literal beyond the list is in no
/// clause.
#[derive(Drop)]
pub struct FirstOccurrence {
    numbers: Vec<u32>,
}

impl Model for FirstOccurrence {
    ghost use Rattle.std.specs.Prelude.{List, ℕ};

    ghost Value = { List ℕ };

    ghost view = { λ f. f.numbers.items };
}

impl FirstOccurrence {
    /// Creates the bounds for the literals with codes below `codes`, of which no clause has any:
    /// each bound is `u32::MAX`.
    ///
    /// # Errors
    ///
    /// Returns `AllocError` if memory runs out.
    pub fn new(alloc: Global, codes: usize) -> Result<FirstOccurrence, AllocError>
        ensures { IfOk result (λ firsts. firsts ≡ replicate codes (2 ^ 32 - 1)) }
    {
        let numbers = vec![in alloc; u32::MAX; codes]?;
        Ok(FirstOccurrence { numbers })
    }

    /// Returns the bound of `literal`: no noted clause that has `literal` has a smaller number. It
    /// is `u32::MAX` if no clause with `literal` was noted.
    pub fn of(&self, literal: Code) -> u32
        ensures sound { (n : ℕ) → get_or self.now literal (suc n) ≤ n → result ≤ n }
        ensures exact { result ≡ get_or self.now literal (2 ^ 32 - 1) }
    {
        match self.numbers.get(literal as usize) {
            Some(number) => *number,
            None => u32::MAX,
        }
    }

    /// Notes that the clause `number` has the literals of `clause`, which lowers their bounds to
    /// `number` where they are larger.
    ///
    /// # Errors
    ///
    /// Returns `AllocError` if memory runs out; the bounds of some of the literals may then be
    /// lowered already.
    pub fn note(&mut self, clause: &[Code], number: u32) -> Result<(), AllocError>
        ensures still { IsLowered self.old self.new }
        ensures noted { IfOk result (λ done. (l : ℕ) → has clause.now l ≡ true
            → get_or self.new l (suc number) ≤ number) }
    {
        'literals: for literal in clause {
            self.lower(*literal, number)?;
        }
        Ok(())
    }

    /// Lowers the bound of `literal` to `number` if it is larger, and makes room for it if there is
    /// no bound yet.
    fn lower(&mut self, literal: Code, number: u32) -> Result<(), AllocError>
        ensures still { IsLowered self.old self.new }
        ensures noted { IfOk result (λ done. get_or self.new literal (suc number) ≤ number) }
    {
        let at = literal as usize;
        if at >= self.numbers.len() {
            self.numbers.resize(at + 1, u32::MAX)?;
        }
        if number < self.numbers[at] {
            self.numbers[at] = number;
        }
        Ok(())
    }
}
