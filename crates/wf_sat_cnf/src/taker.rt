//! The receiver of a question's clauses.

ghost use Rattle.std.specs.Prelude.{◌≤◌, [], ◌∷◌, List, Some, None, Result};
ghost use Rattle.wf_sat_text.specs.Clauses.Formula.{pos, neg};
ghost use Rattle.wf_sat_check.specs.Rup.Codes.{most_variables};
ghost use Rattle.wf_sat_cnf.specs.Tokens.{IsTaking, Token};

/// A receiver of the clauses of a question, token by token, that passes them on to a `T`: a page of
/// text that is written to a sink, or a clause that is added to a checker when it is complete.
pub(crate) trait TokenSink<T> {
    /// The error if a token can't be passed on.
    type Fault: Drop;

    // states that the tokens were passed on, or at which of them it failed, by the result
    ghost takes: { List Token → Self → T → Self → T → Result (Unit {0}) Self.Fault → Type 0 };

    // states that the target can be passed more tokens
    ghost is_open: { T → Type 0 };

    /// Passes on the positive literal of `variable`.
    fn positive(&mut self, to: &mut T, variable: u32) -> Result<(), Self::Fault>
        requires ready { is_open to.old }
        requires known { variable ≤ most_variables }
        ensures { takes (Some (pos variable) ∷ []) self.old to.old self.new to.new result };

    /// Passes on the negative literal of `variable`.
    fn negative(&mut self, to: &mut T, variable: u32) -> Result<(), Self::Fault>
        requires ready { is_open to.old }
        requires known { variable ≤ most_variables }
        ensures { takes (Some (neg variable) ∷ []) self.old to.old self.new to.new result };

    /// Passes on the end of a clause.
    fn end_clause(&mut self, to: &mut T) -> Result<(), Self::Fault>
        requires { is_open to.old }
        ensures { takes (None ∷ []) self.old to.old self.new to.new result };

    ghost laws: { IsTaking takes is_open };
}
