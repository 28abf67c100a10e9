//! Lists of numbers in a line.

ghost use Rattle.std.specs.Prelude.{◌≡◌, IfOk};
ghost use Rattle.wf_report.specs.Steps.{words};
ghost use Rattle.wf_tree_text.specs.Steps.{changed};
ghost use Rattle.wf_tree_text.specs.Text.{numbers_of_words};

use std::alloc::AllocError;
use wf_report::{number, split_once};

/// Parses `text` as numbers separated by single spaces, and puts them into `numbers` in place of
/// what the list held. Returns `false` if a word is not a number; `numbers` then holds those before
/// it.
pub(crate) fn read_numbers(text: &[u8], numbers: &mut Vec<u32>) -> Result<bool, AllocError>
    ensures { IfOk result (λ are_numbers.
        changed are_numbers numbers.new.items ≡ numbers_of_words (words text.now)) }
{
    numbers.clear();
    let mut rest = text;
    'words: while let Some((word, others)) = split_once(rest, b' ') {
        let Some(number) = number(word, u32::MAX) else {
            return Ok(false);
        };
        numbers.push(number)?;
        rest = others;
    }
    let Some(last) = number(rest, u32::MAX) else {
        return Ok(false);
    };
    numbers.push(last)?;
    Ok(true)
}
