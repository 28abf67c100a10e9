//! Covers: sheets over the values that processes decide on an input simplex.

/// How the sheets over a value at one place of a simplex continue over a value at another place.
#[derive(Debug, Drop)]
pub struct Move {
    /// The first place, 0-based.
    pub first: u8,
    /// The value at the first place.
    pub value: u8,
    /// The second place, 0-based.
    pub second: u8,
    /// The value at the second place.
    pub other: u8,
    /// The list of sheets over the second value: sheet `s` over the first value continues as sheet
    /// `sheets[s]`, or as sheet 0 if the list is shorter.
    ///
    /// Used backwards, from the second place to the first, sheet `s` continues as the index of the
    /// first `s` in the list.
    pub sheets: Vec<u8>,
}

/// A cover: sheets over the values that processes decide on an input simplex.
#[derive(Debug, Drop)]
pub struct Covering {
    /// The index of the input simplex in the input complex.
    pub simplex: u32,
    /// The number of sheets.
    pub sheets: u8,
    /// The 0-based place of the corner: the vertex of the simplex on which values are on sheet 0.
    pub corner: u8,
    /// How sheets continue from one place to another. If no move names two places and their values,
    /// each sheet continues as itself between them; if several do, the first one counts.
    pub moves: Vec<Move>,
}

/// The reasons for which a cover is not valid, in the order in which they are checked.
#[derive(Clone, Copy, Debug, PartialEq, Eq)]
pub enum CoverFault {
    /// The simplex is a vertex. A covered simplex needs at least two participants.
    OneParticipant,
    /// The corner is not a place of the simplex.
    NoCorner,
    /// The number of sheets is 0.
    NoSheet,
    /// The sheets are not flat over a tuple: going round its places takes a sheet to another one,
    /// or to one that does not exist.
    NotFlat {
        /// The index of the tuple in the list of the simplex's tuples.
        tuple: u64,
    },
}
