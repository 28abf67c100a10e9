//! What both programs share besides their command lines: opening the task's file, running a job on
//! it, and reporting how the run ended.
//!
//! - [`Files`] opens files, and [`Disk`] those of the file system; an [`Opener`] counts the
//!   requests.
//! - [`run_with_file`] runs any [`TaskRun`] on the task in a file.
//! - [`Refusal`] is the reason why a program refuses, with its text and its exit status; [`refuse`]
//!   writes it to the error stream.
//! - [`show_or_refuse`] handles words that ask for no job: it shows the help or the version, or
//!   refuses.
//! - [`Program`] has the name and the hints in which the programs differ.

mod disk;
mod files;
mod laws;
mod notes;
mod refusal;
mod runs;
mod telling;
#[cfg(test)]
mod tests;
mod version;

pub use disk::{Disk, occupy_closed_descriptors};
pub use files::{FileState, Files, Opener};
pub use laws::{declining_is_counted, file_runs_are_counted};
pub use refusal::{Program, Refusal, as_file_refusal};
pub use runs::{TaskRun, discard_value, run_with_file};
pub use telling::{refuse, show_or_refuse, write_error_text};
pub use version::VersionLine;
