//! The keys of equations, under which weights are added up.

ghost use Rattle.std.specs.Prelude.{◌≡◌, ◌<◌, ◌≤◌, ◌+◌, ◌*◌, ◌^◌, All, length, map, slice_index};
ghost use Rattle.wf_tree_steps.specs.Balance.Keys.{but, digits_code, key_of, label};

use wf_simplex::Simplex;

/// Returns the key of one side of an equation. `place` is the place of the participant of the
/// equation, or `WHOLE` for the side without it; `labels` is the code of the vertices on this side,
/// and `values` that of the values.
///
/// Keys of different arguments differ, as long as `values` is less than 2^64 and `place` is less
/// than 2047.
pub(crate) fn key_of(place: u8, labels: u64, values: u64) -> u128
    requires place { place < 2047 }
    requires labels { labels < 2 ^ 44 }
    ensures { result ≡ key_of place labels values }
{
    u128::from(labels * 2048 + (u64::from(place) + 1)) * 18_446_744_073_709_551_616
        + u128::from(values)
}

/// Returns the label of the vertex at `place` of `simplex`: the input in a symmetric task, and
/// otherwise a number that no other vertex has.
fn label_at(symmetric: bool, simplex: &Simplex, place: u8) -> u64
    requires { place < length simplex.now }
    ensures same { result ≡ slice_index (map (label symmetric) simplex.now) place }
    ensures small { result < 1024 }
{
    // for the proof only: the clauses of this call state what holds for every simplex
    let _ = simplex.colours();
    let process = simplex.colour(place);
    let Some(value) = simplex.value(process) else {
        unreachable!()
    };
    label_of(symmetric, process, value)
}

/// Returns the label of a vertex: in a symmetric task its input `value`; otherwise a number that no
/// other vertex has.
fn label_of(symmetric: bool, process: u8, value: u8) -> u64
    requires { process < 4 }
    ensures same { result ≡ label symmetric (process, value) }
    ensures small { result < 1024 }
{
    if symmetric {
        u64::from(value)
    } else {
        u64::from(process) * 256 + u64::from(value)
    }
}

/// Encodes the labels of the vertices of `simplex` as one number in base 2048, with the digit
/// `label + 1` for each vertex except the one at the place `skipped`.
pub(crate) fn labels_code(symmetric: bool, simplex: &Simplex, skipped: u8) -> u64
    ensures same { result ≡ digits_code (but 0 skipped (map (label symmetric) simplex.now)) }
    ensures small { result < 2 ^ 44 }
{
    let mut code = 0;
    'places: for place in (0..simplex.colours()).rev() {
        if place != skipped {
            code = code * 2048 + (label_at(symmetric, simplex, place) + 1);
        }
    }
    code
}

/// Encodes `values` as one number in base 2048, with the digit `value + 1` for each value except
/// the one at the place `skipped`.
pub(crate) fn values_code(values: &[u8], skipped: u8) -> u64
    requires { length values.now ≤ 4 }
    ensures same { result ≡ digits_code (but 0 skipped values.now) }
    ensures small { result < 2 ^ 44 }
    ensures digits { All (λ x. x < 2047) values.now }
{
    let mut code = 0;
    'places: for place in (0..values.len() as u8).rev() {
        if place != skipped {
            code = code * 2048 + (u64::from(values[place as usize]) + 1);
        }
    }
    code
}
