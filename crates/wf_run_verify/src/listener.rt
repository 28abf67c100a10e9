//! Progress of the check of a solver's proof.

/// The first line number of a proof that is reported.
const FIRST_TOLD: u64 = 65_536;

/// A listener that is told the progress of the check of a solver's proof. No contract depends on
/// what it does.
pub trait ProofProgress {
    /// Called when the check has reached the line `_line` of the proof and `_bytes` bytes of it
    /// were read.
    ///
    /// It is called after each piece of the proof by which the line number reached or passed a
    /// power of two, from line 65,536 on.
    fn at_line(&self, _line: u64, _bytes: u64) {}
}

/// A listener that ignores the progress.
pub struct NoProofProgress;

impl ProofProgress for NoProofProgress {}

/// Calls `listener`, if given, if a power of two from [`FIRST_TOLD`] on is larger than `before` and
/// at most `line`. The check moved from the line `before` to `line`, and `bytes` bytes of the proof
/// were read.
pub(crate) fn report_line<L: ProofProgress>(
    listener: Option<&L>,
    before: u64,
    line: u64,
    bytes: u64,
) {
    let is_told = line >= FIRST_TOLD && line.leading_zeros() < before.leading_zeros();
    if let (true, Some(listener)) = (is_told, listener) {
        listener.at_line(line, bytes);
    }
}
