//! Balances in words.

ghost use Rattle.std.specs.Prelude.{◌≡◌, ◌++◌, OnOk, string_bytes};
ghost use Rattle.wf_tree_steps.specs.Balance.Multipliers.{multipliers_seen};
ghost use Rattle.wf_tree_explain.specs.Words.{balance_text, count_text, signed_text, sum_text};

use crate::entry::in_order;
use crate::equations::put_lines;
use crate::lists::put_indent;
use std::alloc::{AllocError, Global};
use std::fmt::Write;
use wf_task::Task;
use wf_tree_steps::balance::Balance;

/// Describes `balance` in `text`. `depth` is the number of cases above it. Besides the text, this
/// needs 16 bytes of memory for each multiplier, and for n multipliers time O(n log n).
pub(crate) fn put_balance(
    alloc: Global,
    text: &mut String,
    task: &Task,
    depth: u32,
    balance: &Balance,
) -> Result<(), AllocError>
    ensures { OnOk result (string_bytes text.new ≡ string_bytes text.old
        ++ balance_text task.now depth balance.now.modulus balance.now.sum
        (multipliers_seen balance.now.multipliers.items)) }
{
    let entries = in_order(alloc, &balance.multipliers)?;
    put_indent(text, depth)?;
    put_count(text, balance.modulus)?;
    put_lines(text, task, depth, &entries)?;
    writeln!(text, ".")?;
    put_indent(text, depth)?;
    put_sum(text, balance.modulus, balance.sum)
}

/// Appends the line that announces a count modulo `modulus`.
fn put_count(text: &mut String, modulus: u32) -> Result<(), AllocError>
    ensures { OnOk result (string_bytes text.new ≡ string_bytes text.old ++ count_text modulus) }
{
    let signed = signed(modulus);
    write!(text, "Count executions{signed} modulo {modulus}:")?;
    Ok(())
}

/// Returns the words for counting with signs, or nothing if `modulus` is 2, where signs make no
/// difference.
fn signed(modulus: u32) -> &'static str
    ensures { result.now ≡ signed_text modulus }
{
    if modulus > 2 { " with their signs" } else { "" }
}

/// Appends the sentence that adds the equations up to a contradiction: 0 would be `sum`.
fn put_sum(text: &mut String, modulus: u32, sum: u32) -> Result<(), AllocError>
    ensures { OnOk result (string_bytes text.new
        ≡ string_bytes text.old ++ sum_text modulus sum) }
{
    writeln!(
        text,
        "Add these equations up. Each tuple that is allowed counts as often on the left as on the right modulo {modulus}, but the single executions add {sum} on the right. So 0 would be {sum} modulo {modulus}."
    )?;
    Ok(())
}
