//! The search for a balance modulo a given number.

use crate::fault::FinderFault;
use crate::listener::FinderProgress;
use crate::problem::TuplesByClass;
use crate::system::solve;
use std::alloc::Global;
use wf_tree_elimination::prime_powers;
use wf_tree_steps::balance::Balance;

/// Looks for a balance of `problem` modulo `modulus`.
///
/// The search goes through the prime powers of which `modulus` is the product, in ascending order
/// of the primes. The first one modulo which there is a balance gives the result, multiplied by the
/// others. The result depends on the problem and the modulus only.
///
/// Nothing is proved about the result: check the balance with `wf_tree_steps`. If there is none,
/// that says nothing about the task.
///
/// # Errors
///
/// Returns the limit at which the finder gave up, or [`FinderFault::OutOfMemory`] if memory runs
/// out.
pub fn find_balance<L: FinderProgress>(
    alloc: Global,
    problem: &TuplesByClass,
    modulus: u32,
    listener: &L,
) -> Result<Option<Balance>, FinderFault> {
    for ring in &prime_powers(alloc, modulus)? {
        if let Some(found) = solve(alloc, problem, *ring, listener)? {
            let times = modulus / ring.modulus();
            return Ok(Some(
                found
                    .scaled(*ring)
                    .find_balance_modulo(alloc, modulus, times)?,
            ));
        }
    }
    Ok(None)
}
