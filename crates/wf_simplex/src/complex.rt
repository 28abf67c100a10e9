//! Complexes: sets of simplices that contain all faces of their simplices.

ghost use Rattle.std.specs.Prelude.{◌≡◌, ◌<◌, ◌≤◌, ◌↔◌, IfOk, IfSome, IsTrue, IsNone, Contains, length, slice_get, Some};
ghost use Rattle.wf_model.specs.Limits.{most_facets};
ghost use Rattle.wf_model.specs.Simplex.{complex_of};
ghost use Rattle.wf_simplex.specs.Faces.{IsComplex};

use crate::recent::{Recent, add_each};
use crate::simplex::Simplex;
use std::alloc::{AllocError, Global};
use std::marker::Model;

/// A simplicial complex: simplices with all their faces, in ascending order, each once.
///
/// Contracts see it as the list of its simplices. Their positions in this list, from 0, are their
/// indices.
#[derive(Drop)]
pub struct Complex {
    simplices: Vec<Simplex>,
}

impl Model for Complex {
    ghost use Rattle.std.specs.Prelude.{ℕ, List};
    ghost use Rattle.wf_simplex.specs.Faces.{IsComplex};

    ghost Value = { List (List (ℕ × ℕ)) };

    ghost view = { λ c. c.simplices.items };

    ghost invariant = { λ c. IsComplex c.simplices.items };
}

impl Complex {
    /// Creates the complex of `facets` and all their faces.
    ///
    /// The faces are sorted, in O(n log n) steps. They take eight bytes each, and a facet has at
    /// most 15, in a vector that grows by doubling and is shrunk at the end. Until then, a face
    /// that several facets share may be stored more than once. A table of recently added faces
    /// avoids some of these copies; it takes about 16 bytes a facet, and at most 64 KiB.
    ///
    /// # Errors
    ///
    /// Returns `AllocError` if memory runs out.
    pub fn from_facets(alloc: Global, facets: &[Simplex]) -> Result<Complex, AllocError>
        requires { length facets.now ≤ most_facets }
        ensures { IfOk result (λ c. c ≡ complex_of facets.now) }
    {
        let mut simplices = Vec::new(alloc);
        let mut faces = Vec::new(alloc);
        let mut recent = Recent::new(alloc, facets.len())?;
        for facet in facets {
            faces.clear();
            facet.add_faces(&mut faces)?;
            add_each(&mut simplices, &mut recent, &faces)?;
        }
        simplices.sort_unstable();
        simplices.dedup();
        simplices.shrink_to_fit();
        Ok(Complex { simplices })
    }

    /// Returns `true` if `simplex` belongs to the complex.
    pub fn contains(&self, simplex: &Simplex) -> bool
        ensures { IsTrue result ↔ Contains self.now simplex.now }
    {
        self.index(simplex).is_some()
    }

    /// Returns the simplices in ascending order.
    pub fn simplices(&self) -> &[Simplex]
        ensures simplices { result.now ≡ self.now }
        ensures complex { IsComplex self.now }
    {
        &self.simplices
    }

    /// Returns the index of `simplex`, found by binary search, or `None` if it does not belong to
    /// the complex.
    pub fn index(&self, simplex: &Simplex) -> Option<u32>
        ensures place { IfSome result (λ i. slice_get self.now i ≡ Some simplex.now) }
        ensures absent { IsNone result → Contains self.now simplex.now → ⊥ }
    {
        match self.simplices.binary_search(simplex) {
            Ok(place) => Some(place as u32),
            Err(_) => None,
        }
    }
}
