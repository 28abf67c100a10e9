//! Balances and their multipliers.

use crate::balance::others::Others;

/// The multiplier of one equation: how often the equation counts in the sum. The equation belongs
/// to an input simplex, to the participant at one of its places, and to a value for each other
/// participant.
#[derive(Clone, Copy, Debug)]
pub struct Multiplier {
    /// The index of the input simplex in the input complex.
    pub simplex: u32,
    /// The 0-based place in the simplex.
    pub place: u8,
    /// The values of the other participants, in ascending order of their processes.
    pub others: Others,
    /// The weight, from 1 to the modulus less 1.
    pub weight: u32,
}

/// A balance: multipliers with which each tuple that a task allows is to count 0 modulo `modulus`.
#[derive(Debug, Drop)]
pub struct Balance {
    /// The modulus of all sums and weights.
    pub modulus: u32,
    /// The sum of the weights of the multipliers of vertices, from 1 to the modulus less 1.
    pub sum: u32,
    /// The multipliers, in any order.
    pub multipliers: Vec<Multiplier>,
}
