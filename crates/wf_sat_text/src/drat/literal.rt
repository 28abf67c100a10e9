//! Literals and their codes.

ghost use Rattle.std.specs.Prelude.{◌≡◌, ◌≤◌, if◌then◌else◌, min};
ghost use Rattle.wf_sat_text.specs.Clauses.Formula.{pos, neg};
ghost use Rattle.wf_sat_text.specs.Drat.Codes.{code_of, last_variable, most_variables};

use std::marker::Model;

/// The code of a literal: `2 * v` for the variable `v`, and `2 * v + 1` for its negation.
pub type Code = u32;

/// The largest number that a variable may have. The codes of its two literals are below `u32::MAX`.
pub const MAX_VARIABLES: u32 = 2_147_483_646;

/// The number of variables that a proof may use beyond twice the number of the formula's variables.
pub const SPARE_VARIABLES: u32 = 65_536;

/// Returns the largest variable that a proof may use if its formula has the variables from 1 to
/// `variables`: twice that number plus [`SPARE_VARIABLES`], and at most [`MAX_VARIABLES`].
///
/// The limit keeps a short proof from asking for much memory.
pub fn last_variable(variables: u32) -> u32
    ensures { result ≡ min (last_variable variables) most_variables }
{
    let twice = variables.saturating_mul(2);
    twice.saturating_add(SPARE_VARIABLES).min(MAX_VARIABLES)
}

/// A literal: a variable, named by its number, or the negation of a variable.
///
/// DIMACS numbers variables from 1.
#[derive(Clone, Copy, Debug, PartialEq, Eq)]
pub struct Literal {
    code: Code,
}

impl Model for Literal {
    ghost use Rattle.wf_sat_text.specs.Clauses.Formula.{Literal};
    ghost use Rattle.wf_sat_text.specs.Drat.Codes.{code_of, code_of-literal_of, literal_of};
    ghost use Rattle.std.proofs.Common.{ap};

    ghost Value = { Literal };

    ghost view = { λ l. literal_of l.code };

    ghost inverse = { λ literal. record { code = code_of literal } };

    ghost inverse_ok = { λ l _. ap (λ n. record { code = n }) (code_of-literal_of l.code) };
}

impl Literal {
    /// Returns the positive literal of `variable`.
    pub fn positive(variable: u32) -> Literal
        requires { variable ≤ most_variables }
        ensures { result ≡ pos variable }
    {
        Literal { code: 2 * variable }
    }

    /// Returns the negative literal of `variable`.
    pub fn negative(variable: u32) -> Literal
        requires { variable ≤ most_variables }
        ensures { result ≡ neg variable }
    {
        Literal {
            code: 2 * variable + 1,
        }
    }

    /// Returns the literal of `variable`, negated if `is_negative`.
    #[inline]
    pub fn new(is_negative: bool, variable: u32) -> Literal
        requires { variable ≤ most_variables }
        ensures { result ≡ if is_negative then neg variable else pos variable }
    {
        Literal {
            code: 2 * variable + u32::from(is_negative),
        }
    }

    /// Returns the code of the literal.
    #[inline]
    pub fn code(self) -> Code
        ensures { result ≡ code_of self }
    {
        self.code
    }
}
