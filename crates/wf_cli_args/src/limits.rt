//! Limits of the options of `obstruction`.

/// The smallest modulus that the finder of obstructions takes; [`MAX_MODULUS`] is the largest.
pub(crate) const MIN_MODULUS: u32 = 2;

pub(crate) const MAX_MODULUS: u32 = 2_147_483_647;

/// The largest number of covers above one another that the finder of obstructions takes.
pub(crate) const MAX_COVER_LEVELS: u32 = 8;
