//! Creates clauses from the numbers of DIMACS literals, for tests.

use std::alloc::{AllocError, Global};
use wf_sat_check::rup::Literal;

/// The four clauses with a literal of each of two variables.
pub const FOUR: [&[i8]; 4] = [&[1, 2], &[1, -2], &[-1, 2], &[-1, -2]];

/// Creates the clause whose literals have the DIMACS numbers `numbers`.
pub fn clause(alloc: Global, numbers: &[i8]) -> Result<Vec<Literal>, AllocError> {
    let mut literals = Vec::new(alloc);
    for number in numbers {
        let variable = u32::from(number.unsigned_abs());
        literals.push(Literal::new(*number < 0, variable))?;
    }
    Ok(literals)
}

/// Creates a clause for each of `rows`, which lists the DIMACS numbers of its literals.
pub fn clauses(alloc: Global, rows: &[&[i8]]) -> Result<Vec<Vec<Literal>>, AllocError> {
    let mut all = Vec::new(alloc);
    for row in rows {
        match all.push(clause(alloc, row)?) {
            Ok(()) => {}
            Err(_) => return Err(AllocError),
        }
    }
    Ok(all)
}
