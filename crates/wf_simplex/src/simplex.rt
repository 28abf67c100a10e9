//! Simplices: vertices of distinct processes.

ghost use Rattle.std.specs.Prelude.{◌≡◌, ◌+◌, ℕ, ◌<◌, ◌≤◌, ◌++◌, [], ◌∷◌, All, drop, length, None, Some, MatchResult, OnOk, slice_index, vec_len, vec_capacity};
ghost use Rattle.wf_model.specs.Simplex.{processes_of, is_face, simplex_cmp};
ghost use Rattle.wf_model.specs.Task.{IsTaskSimplex};
ghost use Rattle.wf_simplex.specs.Adding.{faces_in_turn, joined};
ghost use Rattle.wf_simplex.specs.Entries.{place_in, value_at};
ghost use Rattle.wf_simplex.specs.Reading.{read_fault};

use crate::keys::{ABSENT, NO_VERTEX, ONE_VERTEX, digit, entry, is_within, key_with};
use std::alloc::AllocError;
use std::cmp::Ordering;
use std::fmt;
use std::marker::Model;

/// The number of faces of a simplex of four processes, itself included.
const MAX_FACES: usize = 15;

/// The multiplier that spreads keys over the slots of a table: 2^64 divided by the golden ratio.
const MIX: u64 = 0x9e37_79b9_7f4a_7c15;

/// The reason why a list of pairs is not a simplex.
#[derive(Clone, Copy, Debug, PartialEq, Eq)]
pub enum SimplexFault {
    /// The list is empty.
    Empty,
    /// The processes do not strictly ascend, or one is above 3.
    Colour,
}

impl fmt::Display for SimplexFault {
    ghost use Rattle.std.specs.Prelude.{Some};
    ghost use Rattle.wf_simplex.specs.FaultText.{fault_text};

    ghost output = { λ fault. Some (fault_text fault) };

    fn fmt<W: fmt::Write>(&self, f: &mut fmt::Formatter<W>) -> fmt::Result {
        let name = match self {
            SimplexFault::Empty => "Empty",
            SimplexFault::Colour => "Colour",
        };
        write!(f, "{name}")
    }
}

/// A simplex: at least one of the processes 0 to 3, each with a value from 0 to 255.
///
/// Contracts see it as the list of its vertices: pairs of a process and its value, by ascending
/// process. Simplices are ordered by size first, and then as these lists. A simplex is kept as an
/// integer of eight bytes in the same order.
#[derive(Clone, Copy, Debug)]
pub struct Simplex {
    // the size, and then one digit for each process: see the module `keys`
    key: u64,
}

impl Model for Simplex {
    ghost use Rattle.std.specs.Prelude.{ℕ, List};
    ghost use Rattle.std.proofs.Common.{ap};
    ghost use Rattle.wf_simplex.specs.Keys.{key_of, simplex_of, IsKey};

    ghost Value = { List (ℕ × ℕ) };

    ghost view = { λ s. simplex_of s.key };

    ghost invariant = { λ s. IsKey s.key };

    ghost inverse = { λ s. record { key = key_of s } };

    ghost inverse_ok = { λ s h. ap (λ k. record { key = k }) h.exact };
}

impl Simplex {
    /// Creates the simplex of `pairs`, each a process and its value.
    ///
    /// # Errors
    ///
    /// Returns `Empty` if there is no pair, and `Colour` if the processes do not strictly ascend or
    /// one is above 3.
    pub fn read(pairs: &[(u8, u8)]) -> Result<Simplex, SimplexFault>
        ensures { MatchResult result
            (λ s. (read_fault pairs.now ≡ None) × (s ≡ pairs.now))
            (λ e. read_fault pairs.now ≡ Some e) }
    {
        if pairs.is_empty() {
            return Err(SimplexFault::Empty);
        }
        let mut key = NO_VERTEX;
        let mut least = 0;
        for (process, value) in pairs {
            if *process < least || *process > 3 {
                return Err(SimplexFault::Colour);
            }
            key = key_with(key, *process, *value);
            least = *process + 1;
        }
        Ok(Simplex { key })
    }

    /// Creates the simplex of `pairs`, each a process and its value. They must be known to form a
    /// simplex: at least one pair, strictly ascending processes up to 3, values up to 255.
    pub fn of_pairs(pairs: &[(u64, u64)]) -> Simplex
        requires { IsTaskSimplex pairs.now }
        ensures { result ≡ pairs.now }
    {
        let mut key = NO_VERTEX;
        for (process, value) in pairs {
            key = key_with(key, *process as u8, *value as u8);
        }
        Simplex { key }
    }

    /// Returns the number of processes that take part, from 1 to 4.
    pub fn colours(&self) -> u8
        ensures count { result ≡ length self.now }
        ensures some { 1 ≤ result }
        ensures few { result ≤ 4 }
        ensures simplex { IsTaskSimplex self.now }
    {
        (self.key / ONE_VERTEX) as u8
    }

    /// Returns the process at `place`, from 0, among the participating processes in ascending
    /// order.
    pub fn colour(&self, place: u8) -> u8
        requires { place < length self.now }
        ensures { result ≡ slice_index (processes_of self.now) place }
    {
        let mut left = place;
        for process in 0..4 {
            if digit(self.key, process) < ABSENT {
                if left == 0 {
                    return process;
                }
                left -= 1;
            }
        }
        unreachable!()
    }

    /// Returns the place of `process`, from 0, among the participating processes in ascending
    /// order; or `None` if it does not take part.
    pub fn place(&self, process: u8) -> Option<u8>
        ensures { result ≡ place_in 0 process (processes_of self.now) }
    {
        for place in 0..self.colours() {
            if self.colour(place) == process {
                return Some(place);
            }
        }
        None
    }

    /// Returns the value of `process`, or `None` if it does not take part.
    pub fn value(&self, process: u8) -> Option<u8>
        ensures { result ≡ value_at self.now process }
    {
        if process < 4 {
            entry(digit(self.key, process))
        } else {
            None
        }
    }

    /// Returns `true` if the simplex is a face of `other`: if each of its vertices is one of
    /// `other`.
    pub fn is_face(&self, other: &Simplex) -> bool
        ensures { result ≡ is_face self.now other.now }
    {
        is_within(digit(self.key, 0), digit(other.key, 0))
            & is_within(digit(self.key, 1), digit(other.key, 1))
            & is_within(digit(self.key, 2), digit(other.key, 2))
            & is_within(digit(self.key, 3), digit(other.key, 3))
    }

    /// Appends all faces of the simplex to `faces`, itself included. They are not sorted.
    pub(crate) fn add_faces(&self, faces: &mut Vec<Simplex>) -> Result<(), AllocError>
        ensures added { OnOk result (faces.new.items
            ≡ faces.old.items ++ faces_in_turn self.now) }
        ensures simplex { IsTaskSimplex self.now }
    {
        // needed by the proof only: it makes known that the key is that of a simplex
        let _ = &self.key;
        faces.reserve(MAX_FACES)?;
        let start = faces.len();
        for process in 0..4 {
            if let Some(value) = self.value(process) {
                add_joined(faces, start, process, value);
            }
        }
        Ok(())
    }

    /// Returns the slot of the simplex in a hash table of `places` slots, a power of two.
    pub(crate) fn slot(&self, places: usize) -> usize
        requires { 0 < places }
        ensures { result < places }
    {
        (self.key.wrapping_mul(MIX) >> 32) as usize & (places - 1)
    }

    /// Returns the simplex whose only vertex is `process` with `value`.
    fn vertex(process: u8, value: u8) -> Simplex
        requires { IsTaskSimplex ((process, value) ∷ []) }
        ensures { result ≡ (process, value) ∷ [] }
    {
        Simplex {
            key: key_with(NO_VERTEX, process, value),
        }
    }

    /// Returns the simplex with one more vertex, `process` with `value`. `process` must come after
    /// all its processes.
    fn with_vertex(&self, process: u8, value: u8) -> Simplex
        requires { IsTaskSimplex (self.now ++ ((process, value) ∷ [])) }
        ensures { result ≡ self.now ++ ((process, value) ∷ []) }
    {
        Simplex {
            key: key_with(self.key, process, value),
        }
    }
}

/// Appends to `faces` the vertex of `process` and `value`, and then each simplex from index `start`
/// on with this vertex joined to it. `faces` must have the capacity for all of them.
fn add_joined(faces: &mut Vec<Simplex>, start: usize, process: u8, value: u8)
    requires place { start ≤ vec_len faces.old }
    requires room { vec_len faces.old + vec_len faces.old + 1 ≤ start + vec_capacity faces.old }
    requires alone { IsTaskSimplex ((process, value) ∷ []) }
    requires joined { All (λ s. IsTaskSimplex (s ++ ((process, value) ∷ [])))
        (drop start faces.old.items) }
    ensures added { faces.new.items ≡ faces.old.items
        ++ ((process, value) ∷ []) ∷ joined (process, value) (drop start faces.old.items) }
    ensures count { vec_len faces.new + start ≡ vec_len faces.old + vec_len faces.old + 1 }
    ensures capacity { vec_capacity faces.new ≡ vec_capacity faces.old }
{
    let end = faces.len();
    faces.push_reserved(Simplex::vertex(process, value));
    for place in start..end {
        let face = faces[place].with_vertex(process, value);
        faces.push_reserved(face);
    }
}

impl PartialEq for Simplex {
    ghost use Rattle.wf_simplex.specs.Order.{same_simplex, same_simplex-equivalence};
    ghost use Rattle.std.specs.Cmp.{partial_equiv_from_equiv};

    ghost eq = { same_simplex };

    ghost laws = { partial_equiv_from_equiv same_simplex-equivalence };

    fn eq(&self, other: &Simplex) -> bool {
        self.key == other.key
    }
}

impl Eq for Simplex {
    ghost use Rattle.wf_simplex.specs.Order.{same_simplex-equivalence};

    ghost laws = { same_simplex-equivalence };
}

impl Ord for Simplex {
    ghost use Rattle.std.specs.Prelude.{refl};
    ghost use Rattle.wf_simplex.specs.Order.{simplex_cmp-total, same_simplex-ties};

    ghost cmp = { simplex_cmp };

    ghost total = { simplex_cmp-total };

    ghost matches_partial_cmp = { λ s t. refl };

    ghost matches_eq = { same_simplex-ties };

    fn cmp(&self, other: &Simplex) -> Ordering {
        self.key.cmp(&other.key)
    }
}

impl PartialOrd for Simplex {
    ghost use Rattle.std.specs.Cmp.{po};
    ghost use Rattle.std.specs.Ordering.{as_partial_cmp};
    ghost use Rattle.wf_simplex.specs.Order.{simplex_cmp-total, same_simplex-ties};

    ghost partial_cmp = { as_partial_cmp simplex_cmp };

    ghost laws = { po simplex_cmp-total same_simplex-ties };

    fn partial_cmp(&self, other: &Simplex) -> Option<Ordering> {
        Some(self.cmp(other))
    }
}
