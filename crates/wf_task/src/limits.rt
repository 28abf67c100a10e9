//! The size limits of tasks.

ghost use Rattle.std.specs.Prelude.{◌≡◌};
ghost use Rattle.wf_model.specs.Limits.{most_bytes};

use crate::task::MAX_TEXT_BYTES;

/// The largest number of vertices in an input complex.
pub const MAX_VERTICES: usize = 64;
/// The largest number of simplices in an input complex.
pub const MAX_INPUTS: usize = 4_096;
/// The largest number of output simplices that a task may list.
pub const MAX_OUTPUTS: usize = 65_536;
/// The largest number of tuples that a task may list, in all entries together.
pub const MAX_TUPLES: usize = 65_536;

/// States that [`MAX_TEXT_BYTES`] equals `most_bytes`, the limit in the definitions of `wf_model`.
pub fn texts_have_most_bytes()
    ensures { MAX_TEXT_BYTES ≡ most_bytes }
{}
