//! A primality test.

ghost use Rattle.std.specs.Prelude.{◌≤◌};

use crate::ring::{MAX_DOUBLINGS, Ring, power_in};

/// The bases of the test. No composite number below 4,759,123,141 passes it for all three
/// (Jaeschke, On strong pseudoprimes to several bases, 1993).
const BASES: [u32; 3] = [2, 7, 61];

/// Returns whether `number` is a prime, by the Miller-Rabin test with fixed bases.
///
/// The test takes at most a few hundred multiplications. Trial division of a large prime would take
/// longer than solving a small system of equations.
pub(crate) fn is_prime(number: u32) -> bool {
    if number < 2 {
        return false;
    }
    BASES
        .iter()
        .all(|base| number == *base || passes(number, *base))
}

/// Returns whether `number`, which is at least 2, passes the Miller-Rabin test for `base`. With
/// `number - 1 = d * 2^s` and `d` odd, it passes if `base^d` is 1 modulo `number`, or `base^(d *
/// 2^i)` is -1 for some `i < s`.
fn passes(number: u32, base: u32) -> bool
    requires { 2 ≤ number }
{
    let ring = Ring::of(number, number);
    let last = number - 1;
    let mut exponent = last / power_in(last, 2);
    let mut power = ring.power(base % number, exponent);
    if power == 1 {
        return true;
    }
    for _ in 0..MAX_DOUBLINGS {
        if power == last || exponent >= last {
            break;
        }
        power = ring.product(power, power);
        exponent = exponent.saturating_mul(2);
    }
    power == last && exponent < last
}
