//! Simplices and their participants in words.

ghost use Rattle.std.specs.Prelude.{◌≡◌, ◌++◌, ◌<◌, codes, length, OnOk, slice_index, slice_index_or, string_bytes};
ghost use Rattle.std.specs.List.{remove};
ghost use Rattle.wf_model.specs.Simplex.{values_of};
ghost use Rattle.wf_model.specs.Task.{IsTaskSimplex};
ghost use Rattle.wf_tree_explain.specs.Places.{before_at, vertex_in};
ghost use Rattle.wf_tree_explain.specs.Words.{at_text, deciders_text, simplex_text};

use crate::lists::{before_at, separator};
use std::alloc::AllocError;
use std::fmt::Write;
use wf_simplex::Simplex;

/// A place that no simplex has, since places are below 4: passed as `skipped`, it skips no vertex.
const NONE: u8 = 4;

/// Appends the participants of `simplex`, with their inputs.
#[tactic(auto, using(crate::proofs::FacesInWords::all_kept))]
pub(crate) fn put_simplex(text: &mut String, simplex: &Simplex) -> Result<(), AllocError>
    ensures { OnOk result (string_bytes text.new
        ≡ string_bytes text.old ++ simplex_text simplex.now) }
{
    // for the proof only: a clause of this call states that there are at most four participants
    let _ = simplex.colours();
    put_face(text, simplex, NONE)
}

/// Appends the participants of `simplex` with their inputs, except for the one at the place
/// `skipped`.
pub(crate) fn put_face(text: &mut String, simplex: &Simplex, skipped: u8) -> Result<(), AllocError>
    ensures { OnOk result (string_bytes text.new
        ≡ string_bytes text.old ++ simplex_text (remove simplex.now skipped)) }
{
    write!(text, "{{")?;
    'vertices: for told in 0..face_size(simplex, skipped) {
        put_vertex(text, simplex, place_in_face(simplex, skipped, told), told)?;
    }
    write!(text, "}}")?;
    Ok(())
}

/// Appends the vertex at `place`, after a separator unless it is the first one. `told` is the
/// number of vertices before it in the list.
fn put_vertex(text: &mut String, simplex: &Simplex, place: u8, told: u8) -> Result<(), AllocError>
    requires { place < length simplex.now }
    ensures { OnOk result (string_bytes text.new ≡ string_bytes text.old
        ++ (before_at (codes ", ") told ++ vertex_in simplex.now place)) }
{
    // for the proof only: the clauses of this call state what holds for every simplex
    let _ = simplex.colours();
    let before = before_at(", ", told as usize);
    let process = simplex.colour(place);
    let input = input_at(simplex, place);
    write!(text, "{before}p{process}={input}")?;
    Ok(())
}

/// Appends the participants of `simplex`, without inputs, except for the one at the place
/// `skipped`.
pub(crate) fn put_deciders(
    text: &mut String,
    simplex: &Simplex,
    skipped: u8,
) -> Result<(), AllocError>
    ensures { OnOk result (string_bytes text.new
        ≡ string_bytes text.old ++ deciders_text (remove simplex.now skipped)) }
{
    let size = face_size(simplex, skipped);
    'vertices: for told in 0..size {
        let before = separator(told as usize, size as usize, ", ", " and ");
        let process = simplex.colour(place_in_face(simplex, skipped, told));
        write!(text, "{before}p{process}")?;
    }
    Ok(())
}

/// Returns the number of participants of `simplex` without the one at the place `skipped`, if there
/// is such a place.
pub(crate) fn face_size(simplex: &Simplex, skipped: u8) -> u8
    ensures { result ≡ length (remove simplex.now skipped) }
{
    let size = simplex.colours();
    if skipped < size { size - 1 } else { size }
}

/// Returns the place in `simplex` of the vertex at index `told` of the face without the vertex at
/// the place `skipped`.
fn place_in_face(simplex: &Simplex, skipped: u8, told: u8) -> u8
    requires { told < length (remove simplex.now skipped) }
    ensures inside { result < length simplex.now }
    ensures same { slice_index_or simplex.now result (0, 0)
        ≡ slice_index_or (remove simplex.now skipped) told (0, 0) }
{
    // for the proof only: the clauses of this call state what holds for every simplex
    let _ = simplex.colours();
    if told < skipped { told } else { told + 1 }
}

/// Appends the process at `place`, or `nobody` if there is no such place.
pub(crate) fn put_process(text: &mut String, simplex: &Simplex, place: u8) -> Result<(), AllocError>
    ensures { OnOk result (string_bytes text.new
        ≡ string_bytes text.old ++ at_text simplex.now place) }
{
    if place < simplex.colours() {
        let process = simplex.colour(place);
        write!(text, "p{process}")?;
    } else {
        write!(text, "nobody")?;
    }
    Ok(())
}

/// Returns the input at `place` of `simplex`.
fn input_at(simplex: &Simplex, place: u8) -> u8
    requires place { place < length simplex.now }
    requires simplex { IsTaskSimplex simplex.now }
    ensures { result ≡ slice_index (values_of simplex.now) place }
{
    let process = simplex.colour(place);
    let Some(value) = simplex.value(process) else {
        unreachable!()
    };
    value
}
