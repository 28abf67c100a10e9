//! The title of an argument: its number of steps, and how many of the executions it uses.

ghost use Rattle.std.specs.Prelude.{◌≡◌, ◌++◌, OnOk, string_bytes};
ghost use Rattle.wf_report_explain.specs.Argument.Used.{title_of, usage_of};

use crate::words::put_count;
use std::alloc::AllocError;
use std::fmt::Write;

/// Appends the title of an argument with `steps` steps, which uses `used` of `executions`
/// executions after `rounds` rounds.
pub(crate) fn put_title(
    text: &mut String,
    rounds: u32,
    steps: usize,
    used: usize,
    executions: u32,
) -> Result<(), AllocError>
    ensures { OnOk result (string_bytes text.new
        ≡ string_bytes text.old ++ title_of rounds steps used executions) }
{
    write!(text, "No decision map after ")?;
    put_count(text, rounds as usize, "round")?;
    write!(text, ": ")?;
    put_count(text, steps, "step")?;
    put_usage(text, used, executions)?;
    Ok(())
}

/// Appends how many of the executions are used, and ends the title.
fn put_usage(text: &mut String, used: usize, executions: u32) -> Result<(), AllocError>
    ensures { OnOk result (string_bytes text.new
        ≡ string_bytes text.old ++ usage_of used executions) }
{
    write!(text, " over {used} of ")?;
    put_count(text, executions as usize, "execution")?;
    write!(text, ".\n\n")?;
    Ok(())
}
