//! Reading a proof from a source, piece by piece.

ghost use Rattle.std.specs.Prelude.{◌++◌, ◌<◌, ℕ, [], IfErr, IfOk, List, Option, length};
ghost use Rattle.std.specs.Io.KnownBytes.{IsAtEnd};
ghost use Rattle.wf_base.specs.Streams.Ends.{CanRead};
ghost use Rattle.wf_run.specs.declared.fault.RunFault.{RunFault};
ghost use Rattle.wf_run_verify.specs.Proofs.{IsFaultFor, ReadsBytes};

use crate::listener::{ProofProgress, report_line};
use std::alloc::Global;
use std::io::Read;
use wf_base::streams::Source;
use wf_run::RunFault;

/// The largest number of bytes that a proof may have.
pub const MAX_PROOF_BYTES: u64 = 1 << 62;

/// The number of bytes of a proof that are requested from the source at once.
const PIECE: usize = 65_536;

/// A parser for a proof, with a checker for its steps. It takes the proof piece by piece.
pub(crate) trait ProofReader: Drop {
    // states that the first reader, after reading these bytes, is in the state of the second one
    ghost has_read: { Self → List ℕ → Self → Type 0 };

    // states that a reader that began in this state accepts a proof with these bytes
    ghost is_accepted: { Self → List ℕ → Type 0 };

    // states that a reader that began in this state refuses these bytes for this fault; the option
    // is the rest of the source
    ghost is_refused: { Self → List ℕ → Option (List ℕ) → RunFault → Type 0 };

    /// Returns the number of the line that the next byte belongs to. Lines are counted from 1.
    fn line(&self) -> u64;

    /// Parses `piece`, the next piece of the proof, and checks the steps that it completes.
    ///
    /// # Errors
    ///
    /// Returns the first fault of the proof, or that memory ran out.
    fn feed(&mut self, alloc: Global, piece: &[u8]) -> Result<(), RunFault>
        ensures read { IfOk result (λ done. (begun : Self) (given : List ℕ)
            → has_read begun given self.old → has_read begun (given ++ piece.now) self.new) }
        ensures refused { IfErr result (λ fault.
            (begun : Self) (given : List ℕ) (left : Option (List ℕ))
            → has_read begun given self.old
            → IsFaultFor (is_refused begun (given ++ piece.now) left) fault) };

    /// Ends the proof.
    ///
    /// # Errors
    ///
    /// Returns a fault if the proof has one in its last line or does not refute what the checker
    /// knew, or that memory ran out.
    fn finish(self, alloc: Global) -> Result<(), RunFault>
        ensures accepted { IfOk result (λ done. (begun : Self) (given : List ℕ)
            → has_read begun given self → is_accepted begun given) }
        ensures refused { IfErr result (λ fault.
            (begun : Self) (given : List ℕ) (left : Option (List ℕ))
            → has_read begun given self → IsAtEnd left
            → IsFaultFor (is_refused begun given left) fault) };
}

/// Reads `source` to its end as a proof and checks it with `reader`, which has read nothing yet.
/// `listener`, if given, hears of the progress.
pub(crate) fn read_proof<R: ProofReader, L: ProofProgress, C: Read>(
    alloc: Global,
    source: &mut Source<C>,
    reader: R,
    listener: Option<&L>,
) -> Result<(), RunFault>
    requires source { CanRead source.old }
    requires reader { R.has_read reader [] reader }
    ensures { ReadsBytes (λ given done. R.is_accepted reader given) (R.is_refused reader)
        source.old source.new result }
{
    let mut piece = vec![in alloc; 0u8; PIECE]?;
    read_pieces(alloc, source, reader, &mut piece, listener)
}

/// Reads `source` to its end as a proof, using the non-empty buffer `piece`, and checks it with
/// `reader`, which has read nothing yet. `listener`, if given, hears of the progress.
fn read_pieces<R: ProofReader, L: ProofProgress, C: Read>(
    alloc: Global,
    source: &mut Source<C>,
    mut reader: R,
    piece: &mut [u8],
    listener: Option<&L>,
) -> Result<(), RunFault>
    requires source { CanRead source.old }
    requires reader { R.has_read reader [] reader }
    requires piece { 0 < length piece.old }
    ensures { ReadsBytes (λ given done. R.is_accepted reader given) (R.is_refused reader)
        source.old source.new result }
{
    let mut given = 0;
    'pieces: while given <= MAX_PROOF_BYTES {
        let room = (MAX_PROOF_BYTES + 1 - given).min(piece.len() as u64) as usize;
        match source.read(&mut piece[..room]) {
            Ok(0) => return reader.finish(alloc),
            Ok(n) => {
                given += n as u64;
                let before = reader.line();
                reader.feed(alloc, &piece[..n])?;
                report_line(listener, before, reader.line(), given);
            }
            Err(_) => return Err(RunFault::Read),
        }
    }
    Err(RunFault::TooLong)
}
