//! A tuple of at most four values, as an array.

ghost use Rattle.std.specs.Prelude.{◌≡◌, ℕ, ◌<◌, ◌≤◌, All, length, slice_index};
ghost use Rattle.wf_task.specs.Tuples.{IsRow};

use std::cmp::Ordering;
use std::marker::Model;

/// The values of a tuple, by ascending process: one to four values from 0 to 255.
///
/// Contracts see a row as the list of its values, and rows are ordered as these lists.
#[derive(Clone, Copy, Debug)]
pub struct Row {
    size: u8,
    // the values, padded with zeros
    values: [u8; 4],
}

impl Model for Row {
    ghost use Rattle.std.specs.Prelude.{◌≡◌, ◌≤◌, ℕ, List, All, length, take};
    ghost use Rattle.std.proofs.Common.{ap₂};
    ghost use Rattle.wf_task.specs.Filled.{filled};

    ghost Value = { List ℕ };

    ghost view = { λ r. take r.size r.values };

    ghost invariant = { λ r. (length (take r.size r.values) ≡ r.size)
        × (filled (take r.size r.values) ≡ r.values)
        × (1 ≤ r.size) × (r.size ≤ 4) × (length r.values ≡ 4)
        × All (λ x. x ≤ 255) (take r.size r.values) };

    ghost inverse = { λ values. record { size = length values; values = filled values } };

    ghost inverse_ok = { λ r h. ap₂ (λ n xs. record { size = n; values = xs }) h.0 h.1 };
}

impl Row {
    /// Creates the row of `values`, of which there must be one to four.
    pub fn new(values: &[u8]) -> Row
        requires some { 1 ≤ length values.now }
        requires few { length values.now ≤ 4 }
        ensures { result ≡ values.now }
    {
        let mut row = [0; 4];
        for (place, value) in values.iter().enumerate() {
            row[place] = *value;
        }
        Row {
            size: values.len() as u8,
            values: row,
        }
    }

    /// Creates the row of `values`: one to four values, each at most 255.
    pub(crate) fn of_values(values: &[u64]) -> Row
        requires { IsRow values.now }
        ensures { result ≡ values.now }
    {
        let mut row = [0; 4];
        for (place, value) in values.iter().enumerate() {
            row[place] = *value as u8;
        }
        Row {
            size: values.len() as u8,
            values: row,
        }
    }

    /// Returns the number of values, from 1 to 4.
    pub fn size(&self) -> u8
        ensures count { result ≡ length self.now }
        ensures some { 1 ≤ result }
        ensures few { result ≤ 4 }
        ensures small { All (λ x. x ≤ 255) self.now }
    {
        self.size
    }

    /// Returns the value at `place`, counted from 0.
    pub fn value(&self, place: u8) -> u8
        requires { place < length self.now }
        ensures { result ≡ slice_index self.now place }
    {
        self.values[place as usize]
    }

    /// Returns the values as a slice.
    pub fn as_slice(&self) -> &[u8]
        ensures { result.now ≡ self.now }
    {
        &self.values[..self.size as usize]
    }
}

impl PartialEq for Row {
    ghost use Rattle.std.specs.Prelude.{◌==◌};
    ghost use Rattle.std.specs.Cmp.{partial_equiv_from_equiv};
    ghost use Rattle.std.specs.Cmp.Lexicographic.{pointwise, nat_list_eq_equiv};

    ghost eq = { pointwise (λ x y. x == y) };

    ghost laws = { partial_equiv_from_equiv nat_list_eq_equiv };

    fn eq(&self, other: &Row) -> bool {
        self.as_slice() == other.as_slice()
    }
}

impl Eq for Row {
    ghost use Rattle.std.specs.Cmp.Lexicographic.{nat_list_eq_equiv};

    ghost laws = { nat_list_eq_equiv };
}

impl Ord for Row {
    ghost use Rattle.std.specs.Prelude.{refl};
    ghost use Rattle.std.specs.Ordering.{nat_cmp};
    ghost use Rattle.std.specs.Cmp.Lexicographic.{slice_cmp, nat_list_cmp_total, texts_ties};

    ghost cmp = { slice_cmp nat_cmp };

    ghost total = { nat_list_cmp_total };

    ghost matches_partial_cmp = { λ s t. refl };

    ghost matches_eq = { texts_ties };

    fn cmp(&self, other: &Row) -> Ordering {
        self.as_slice().cmp(&other.as_slice())
    }
}

impl PartialOrd for Row {
    ghost use Rattle.std.specs.Cmp.{po};
    ghost use Rattle.std.specs.Ordering.{nat_cmp, as_partial_cmp};
    ghost use Rattle.std.specs.Cmp.Lexicographic.{slice_cmp, nat_list_cmp_total, texts_ties};

    ghost partial_cmp = { as_partial_cmp (slice_cmp nat_cmp) };

    ghost laws = { po nat_list_cmp_total texts_ties };

    fn partial_cmp(&self, other: &Row) -> Option<Ordering> {
        Some(self.cmp(other))
    }
}
