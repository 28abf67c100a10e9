//! The line that identifies a program.

ghost use Rattle.std.specs.Prelude.{Some};
ghost use Rattle.wf_cli.specs.Service.VersionText.{version_line};

use crate::words::{LOGIC, VERSION};
use std::fmt;

/// The line that names a program, its version and the logic that proved it, so that an answer can
/// cite them.
#[derive(Clone, Copy, Debug)]
pub struct VersionLine(
    /// The name of the program.
    pub &'static str,
);

impl fmt::Display for VersionLine {
    ghost output = { λ line. Some (version_line line.0.now) };

    fn fmt<W: fmt::Write>(&self, f: &mut fmt::Formatter<W>) -> fmt::Result {
        writeln!(f, "{} {VERSION} (logic {LOGIC})", self.0)
    }
}
