//! Functions that append lines of words and decimal numbers to a text.

ghost use Rattle.std.specs.Prelude.{◌≡◌, ◌∷◌, [], ◌++◌, OnOk, string_bytes};
ghost use Rattle.wf_model.specs.Report.{line};

use std::alloc::AllocError;
use std::fmt::Write;

/// Appends `words` and a line feed to `text`.
///
/// # Errors
///
/// Returns `AllocError` if memory runs out; `text` may then end in a part of the line.
pub fn put_words(text: &mut String, words: &str) -> Result<(), AllocError>
    ensures { OnOk result (string_bytes text.new ≡ string_bytes text.old ++ line words.now []) }
{
    writeln!(text, "{words}")?;
    Ok(())
}

/// Appends a line to `text`: `name`, a space, and `number` in decimal digits.
///
/// # Errors
///
/// Returns `AllocError` if memory runs out; `text` may then end in a part of the line.
pub fn put_number(text: &mut String, name: &str, number: u32) -> Result<(), AllocError>
    ensures { OnOk result (string_bytes text.new
        ≡ string_bytes text.old ++ line name.now (number ∷ [])) }
{
    writeln!(text, "{name} {number}")?;
    Ok(())
}
