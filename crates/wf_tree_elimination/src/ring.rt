//! Arithmetic modulo a power of a prime.

ghost use Rattle.std.specs.Prelude.{◌<◌};

/// The number of bits of a `u32`, which bounds the loops that double or halve a number.
pub(crate) const MAX_DOUBLINGS: u8 = 32;

/// The integers modulo a power of a prime, as the numbers from 0 to the modulus less 1. Methods
/// take only such numbers.
#[derive(Clone, Copy)]
pub struct Ring {
    // the power of the prime
    modulus: u32,
    // the prime
    prime: u32,
    ghost some: { 0 < modulus },
    ghost some_prime: { 0 < prime },
}

impl Ring {
    /// Creates the ring of the integers modulo `power`, which is a power of `prime`.
    pub(crate) fn of(power: u32, prime: u32) -> Ring
        requires a_power { 0 < power }
        requires a_prime { 0 < prime }
    {
        Ring {
            modulus: power,
            prime,
        }
    }

    /// Returns the modulus, a power of a prime.
    pub fn modulus(self) -> u32
        ensures { 0 < result }
    {
        self.modulus
    }

    /// Returns `number` plus `factor` times `times`.
    #[inline]
    pub(crate) fn add_product(self, number: u32, factor: u32, times: u32) -> u32 {
        if self.modulus == 2 {
            return number ^ (factor & times);
        }
        let more = if times == self.modulus - 1 {
            u64::from(self.modulus.saturating_sub(factor))
        } else {
            u64::from(factor) * u64::from(times)
        };
        self.reduced(u64::from(number) + more)
    }

    /// Returns `number` modulo the modulus. Most numbers are so small that this needs no division.
    #[inline]
    fn reduced(self, number: u64) -> u32 {
        let modulus = u64::from(self.modulus);
        if number < modulus {
            return number as u32;
        }
        let less = number - modulus;
        if less < modulus {
            return less as u32;
        }
        (less % modulus) as u32
    }

    /// Returns the sum of `number` and `other`.
    pub fn sum(self, number: u32, other: u32) -> u32 {
        self.add_product(number, other, 1)
    }

    /// Returns the product of `factor` and `times`.
    pub fn product(self, factor: u32, times: u32) -> u32 {
        self.add_product(0, factor, times)
    }

    /// Returns the negative of `number`.
    pub fn negative(self, number: u32) -> u32 {
        if number == 0 {
            return 0;
        }
        self.modulus.saturating_sub(number)
    }

    /// Returns whether `number` has an inverse.
    pub(crate) fn is_unit(self, number: u32) -> bool {
        if self.prime == self.modulus {
            return number != 0;
        }
        number % self.prime != 0
    }

    /// Returns whether `number` is 1 or -1.
    pub(crate) fn is_plus_or_minus_one(self, number: u32) -> bool {
        number == 1 || number == self.modulus - 1
    }

    /// Returns the inverse of `unit`, a number that the prime does not divide. It is computed as a
    /// power of `unit` (Euler's theorem).
    pub fn inverse(self, unit: u32) -> u32 {
        if self.is_plus_or_minus_one(unit) {
            return unit;
        }
        let count = self.modulus - self.modulus / self.prime;
        self.power(unit, count.saturating_sub(1))
    }

    /// Returns `number` to the power `exponent`.
    pub(crate) fn power(self, number: u32, exponent: u32) -> u32 {
        let mut result_so_far = 1;
        let mut square = number;
        let mut left = exponent;
        for _ in 0..MAX_DOUBLINGS {
            if left == 0 {
                break;
            }
            if left % 2 == 1 {
                result_so_far = self.product(result_so_far, square);
            }
            square = self.product(square, square);
            left /= 2;
        }
        result_so_far
    }

    /// Returns the largest power of the prime that divides `number`, which is not 0.
    pub fn part(self, number: u32) -> u32
        ensures { 0 < result }
    {
        power_in(number, self.prime)
    }

    /// Returns the modulus divided by `divisor`.
    pub(crate) fn share(self, divisor: u32) -> u32
        requires { 0 < divisor }
    {
        self.modulus / divisor
    }
}

/// Returns the largest power of `prime` that divides `number`, which is not 0.
pub(crate) fn power_in(number: u32, prime: u32) -> u32
    ensures { 0 < result }
{
    let mut power = 1u32;
    for _ in 0..MAX_DOUBLINGS {
        let next = power.saturating_mul(prime);
        if next == 0 || number % next != 0 {
            return power;
        }
        power = next;
    }
    power
}

/// Returns whether `divisor` divides `number`.
pub(crate) fn divides(divisor: u32, number: u32) -> bool {
    divisor != 0 && number % divisor == 0
}
