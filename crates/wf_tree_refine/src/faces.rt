//! Faces of a simplex, and the restriction of its tuples to them.

ghost use Rattle.std.specs.Prelude.{◌≡◌, ◌<◌, ◌∷◌, [], IfOk, length, slice_index_or};
ghost use Rattle.wf_tree_model.specs.Counting.Signs.{keep};
ghost use Rattle.wf_tree_model.specs.Tuples.{is_part, mask_of};

use crate::cases::value_at;
use std::alloc::{AllocError, Global};
use wf_simplex::Simplex;
use wf_task::Row;

/// Returns whether `face` is a face of `simplex`.
pub fn is_part(face: &Simplex, simplex: &Simplex) -> bool
    ensures { result ≡ is_part face.now simplex.now }
{
    // for the proof only: the clauses of these calls state what holds for every simplex
    let _ = face.colours();
    let _ = simplex.colours();
    face.is_face(simplex)
}

/// Returns for each place of `simplex` whether its vertex belongs to `face`.
///
/// # Errors
///
/// Returns `AllocError` if memory runs out.
pub fn mask_of(alloc: Global, face: &Simplex, simplex: &Simplex) -> Result<Vec<bool>, AllocError>
    ensures { IfOk result (λ mask. mask.items ≡ mask_of face.now simplex.now) }
{
    let mut mask = Vec::with_capacity(alloc, 4)?;
    'places: for place in 0..simplex.colours() {
        mask.push_reserved(vertex_at(simplex, place).is_face(face));
    }
    Ok(mask)
}

/// Returns the vertex at `place` of `simplex`, as a simplex of its own.
pub fn vertex_at(simplex: &Simplex, place: u8) -> Simplex
    requires { place < length simplex.now }
    ensures { result ≡ slice_index_or simplex.now place (0, 0) ∷ [] }
{
    // for the proof only: the clauses of this call state what holds for every simplex
    let _ = simplex.colours();
    let process = simplex.colour(place);
    let value = value_at(simplex, place);
    Simplex::of_pairs(&[(u64::from(process), u64::from(value))])
}

/// Restricts `row` to the places that are true in `mask`.
pub fn restricted_row(mask: &[bool], row: &Row) -> Row
    requires long { length mask.now ≡ length row.now }
    requires some { 0 < length (keep mask.now row.now) }
    ensures { result ≡ keep mask.now row.now }
{
    let mut values = [0; 4];
    let mut size = 0;
    'places: for place in 0..row.size() {
        if mask[usize::from(place)] {
            values[size] = row.value(place);
            size += 1;
        }
    }
    Row::new(&values[..size])
}
