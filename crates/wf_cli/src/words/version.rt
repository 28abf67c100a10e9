//! The version of the programs, and the logic that proved them.

/// The version of both programs, as `--version` prints it.
pub const VERSION: &str = "0.4.0";

/// The identity of the logic that proved the programs: what `rt version` prints after the word
/// `logic`.
pub const LOGIC: &str = "dac8208d650f15bf";
