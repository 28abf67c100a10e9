//! Defines propositional formulas in conjunctive normal form.
//!
//! This module has no functions. `specs/Clauses/Formula.antt` defines literals, clauses, formulas,
//! assignments, models, and when a formula is unsatisfiable.
