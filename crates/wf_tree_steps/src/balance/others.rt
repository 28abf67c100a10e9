//! The values that a multiplier names.

ghost use Rattle.std.specs.Prelude.{◌≡◌, ◌≤◌, All, length};

use std::marker::Model;

/// The values of the other participants of a simplex, in ascending order of their processes: at
/// most three values.
///
/// Clauses see it as the list of the values.
#[derive(Clone, Copy, Debug)]
pub struct Others {
    size: u8,
    // the first `size` of these are the values; the rest are 0
    values: [u8; 3],
}

impl Model for Others {
    ghost use Rattle.std.specs.Prelude.{◌≡◌, ◌≤◌, ℕ, List, All, length, take};
    ghost use Rattle.std.proofs.Common.{ap₂};
    ghost use Rattle.wf_tree_steps.specs.Balance.Filled.{filled};

    ghost Value = { List ℕ };

    ghost view = { λ r. take r.size r.values };

    ghost invariant = { λ r. (length (take r.size r.values) ≡ r.size)
        × (filled (take r.size r.values) ≡ r.values)
        × (r.size ≤ 3) × (length r.values ≡ 3)
        × All (λ x. x ≤ 255) (take r.size r.values) };

    ghost inverse = { λ values. record { size = length values; values = filled values } };

    ghost inverse_ok = { λ r h. ap₂ (λ n xs. record { size = n; values = xs }) h.0 h.1 };
}

impl Others {
    /// Creates the list of `values`, at most three.
    pub fn new(values: &[u8]) -> Others
        requires { length values.now ≤ 3 }
        ensures { result ≡ values.now }
    {
        let mut others = [0; 3];
        for (place, value) in values.iter().enumerate() {
            others[place] = *value;
        }
        Others {
            size: values.len() as u8,
            values: others,
        }
    }

    /// Returns the number of values.
    pub fn size(&self) -> u8
        ensures count { result ≡ length self.now }
        ensures few { result ≤ 3 }
        ensures small { All (λ x. x ≤ 255) self.now }
    {
        self.size
    }

    /// Returns the values as a slice.
    pub fn as_slice(&self) -> &[u8]
        ensures { result.now ≡ self.now }
    {
        &self.values[..self.size as usize]
    }
}
