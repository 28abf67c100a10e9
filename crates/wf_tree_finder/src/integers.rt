//! The search for an integer solution of the equations, which excludes balances of every modulus.

use crate::equations::Equations;
use crate::fault::{FinderFault, number};
use crate::listener::FinderProgress;
use crate::problem::TuplesByClass;
use crate::system::solution;
use std::alloc::Global;
use wf_tree_elimination::{Ring, prime_powers};

/// The prime modulo which a solution is computed: the largest prime below 2^31.
const LARGE_PRIME: u32 = 2_147_483_647;

/// The value of the constant, which is the unknown 0.
const CONSTANT: i64 = 1;

/// Returns whether the finder finds an integer solution of the equations of `problem`. It is a
/// solution modulo every number, so no modulus has a balance. If none is found, there may be
/// balances or not.
///
/// The function computes a solution modulo a large prime, reads each value above half of the prime
/// as a negative integer, and checks that these integers solve every equation, with the value 1 of
/// the constant. It is not proved that such a solution excludes balances.
///
/// # Errors
///
/// Returns the limit at which the finder gave up, or [`FinderFault::OutOfMemory`] if memory runs
/// out.
pub fn has_integer_solution<L: FinderProgress>(
    alloc: Global,
    problem: &TuplesByClass,
    listener: &L,
) -> Result<bool, FinderFault> {
    let ring = large_prime(alloc)?;
    match solution(alloc, problem, ring, listener)? {
        Some(values) => Solution { values }.satisfies_all(alloc, problem),
        None => Ok(false),
    }
}

/// Returns the ring of the integers modulo the large prime.
fn large_prime(alloc: Global) -> Result<Ring, FinderFault> {
    match prime_powers(alloc, LARGE_PRIME)?.first() {
        Some(ring) => Ok(*ring),
        None => Err(FinderFault::Internal),
    }
}

/// A solution modulo the large prime, which is to be checked over the integers.
#[derive(Drop)]
struct Solution {
    // the value of each unknown
    values: Vec<u32>,
}

impl Solution {
    /// Returns whether the constant is 1 and all equations hold over the integers, including those
    /// that a system leaves out because they follow from others.
    fn satisfies_all(&self, alloc: Global, problem: &TuplesByClass) -> Result<bool, FinderFault> {
        if self.value(0)? != CONSTANT {
            return Ok(false);
        }
        let mut equations = Equations::new(alloc);
        for place in 1..problem.classes.count() {
            if !self.satisfies_class(problem, number(place)?, &mut equations)? {
                return Ok(false);
            }
        }
        Ok(true)
    }

    /// Returns whether all equations of the class `number` hold. `equations` is a buffer.
    fn satisfies_class(
        &self,
        problem: &TuplesByClass,
        number: u32,
        equations: &mut Equations,
    ) -> Result<bool, FinderFault> {
        let class = problem.classes.class(number)?;
        for place in 0..class.size {
            equations.fill(&problem.classes, class, place)?;
            if !self.satisfies(equations)? {
                return Ok(false);
            }
        }
        Ok(true)
    }

    /// Returns whether the terms of each of `equations` add up to 0.
    ///
    /// No sum overflows an `i64`: there are at most 4,000,000 unknowns, each occurs at most once in
    /// an equation, and its value is between -2^30 and 2^30. So sums are between -2^52 and 2^52.
    /// The finder gives up if one overflows nevertheless.
    fn satisfies(&self, equations: &Equations) -> Result<bool, FinderFault> {
        let mut sum = 0i64;
        for (at, term) in equations.terms.iter().enumerate() {
            let value = self.value(term.unknown)?;
            let next = if term.negative {
                sum.checked_sub(value)
            } else {
                sum.checked_add(value)
            };
            sum = match next {
                Some(next) => next,
                None => return Err(FinderFault::Internal),
            };
            if equations.ends(at, term.rest) {
                if sum != 0 {
                    return Ok(false);
                }
                sum = 0;
            }
        }
        Ok(true)
    }

    /// Returns the value of `unknown` as an integer. Values above half of the prime are negative.
    fn value(&self, unknown: u32) -> Result<i64, FinderFault> {
        match self.values.get(unknown as usize) {
            Some(value) if *value > LARGE_PRIME / 2 => {
                Ok(i64::from(*value) - i64::from(LARGE_PRIME))
            }
            Some(value) => Ok(i64::from(*value)),
            None => Err(FinderFault::Internal),
        }
    }
}
