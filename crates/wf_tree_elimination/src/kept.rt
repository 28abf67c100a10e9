//! The stored form of equations, and the results of an elimination.

/// A record that the stored equation `solved` was subtracted `times` times from another one.
#[derive(Clone, Copy)]
pub(crate) struct Use {
    pub(crate) solved: u32,
    pub(crate) times: u32,
}

/// A range of indices: from `first` up to, but not including, `end`.
#[derive(Clone, Copy)]
pub(crate) struct PlaceRange {
    pub(crate) first: usize,
    pub(crate) end: usize,
}

/// The origin of a stored equation: from an equation that was taken in, the equations of `uses`
/// were subtracted; the rest was divided by `divisor` and then multiplied by `times`.
#[derive(Clone, Copy)]
pub(crate) struct Origin {
    /// The number of the equation that was taken in; `None` if the stored equation only defines a
    /// new unknown.
    pub(crate) equation: Option<u32>,
    /// The range of the records of the equations that were subtracted.
    pub(crate) uses: PlaceRange,
    pub(crate) divisor: u32,
    pub(crate) times: u32,
}

/// A stored equation, solved for `unknown`, which has the coefficient 1 in it.
#[derive(Clone, Copy)]
pub(crate) struct Solved {
    pub(crate) unknown: u32,
    pub(crate) entries: PlaceRange,
    pub(crate) origin: Origin,
}

/// A contradiction: a multiple of the last equation, minus multiples of earlier ones, says that a
/// constant other than 0 is 0.
#[derive(Clone, Copy)]
pub struct Contradiction {
    pub(crate) equation: u32,
    pub(crate) times: u32,
    pub(crate) uses: PlaceRange,
    /// The constant, less than the modulus.
    pub constant: u32,
}

/// A multiplier of an equation in a contradiction.
#[derive(Clone, Copy)]
pub struct Multiple {
    /// The number under which the equation was taken in.
    pub equation: u32,
    /// The factor by which the equation is multiplied.
    pub factor: u32,
}
