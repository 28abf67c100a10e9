//! The factorisation of a modulus into prime powers.

use crate::primes::is_prime;
use crate::ring::{Ring, divides, power_in};
use std::alloc::{AllocError, Global};

/// The largest integer whose square is less than 2^32.
const MAX_ROOT: u32 = 65_535;

/// Returns the rings of the prime powers of which `modulus` is the product, in ascending order of
/// the primes. The list is empty for 0 and 1.
///
/// # Errors
///
/// Returns `AllocError` if memory runs out.
pub fn prime_powers(alloc: Global, modulus: u32) -> Result<Vec<Ring>, AllocError> {
    let mut rings = Vec::new(alloc);
    let mut left = modulus;
    let mut is_last = is_prime(left);
    for prime in 2..=MAX_ROOT {
        if left <= 1 || is_last {
            break;
        }
        if divides(prime, left) {
            let power = power_in(left, prime);
            rings.push(Ring::of(power, prime))?;
            left /= power;
            is_last = is_prime(left);
        }
    }
    if left > 1 {
        rings.push(Ring::of(left, left))?;
    }
    Ok(rings)
}
