//! The words of the command line that the program was called with.

use crate::words::fault::WordsFault;
use std::alloc::Global;
use std::env;
use std::env::Env;

/// Returns the words of the command line. The first is the program's own name.
///
/// # Errors
///
/// Returns `WordsFault::OutOfMemory` if memory runs out, and `UsageError::NotUtf8` if the words
/// can't be read for any other reason, such as a word that isn't UTF-8.
pub fn arguments(rt: &(impl Env + Alloc<A = Global>)) -> Result<Vec<String>, WordsFault> {
    let words = env::args(rt)?;
    Ok(words.collect(rt.alloc())?)
}
