//! The words of the summary that ends an argument.

ghost use Rattle.std.specs.Prelude.{◌≡◌, ◌<◌, ◌++◌, codes, false, length, OnOk, string_bytes};
ghost use Rattle.wf_model.specs.PointsText.{process_text};
ghost use Rattle.wf_report_explain.specs.Words.Summary.{about_text, processes_text, size_text, whose_text};
ghost use Rattle.wf_report_explain.specs.Words.Text.{list_text};

use crate::words::words::between;
use std::alloc::AllocError;
use std::fmt::Write;

/// The number of executions with a given number of participants.
#[derive(Clone, Copy, Debug, Drop)]
pub struct SizeCount {
    /// The number of participants.
    pub size: usize,
    /// The number of executions.
    pub count: usize,
}

/// Appends who takes part in executions, and how many executions have each number of participants,
/// as `of p0, p1 and p2: 3 of two processes, 5 of three processes`.
///
/// `processes` are the participants, and `sizes` the numbers of executions, with the largest size
/// last. If `ranks` is true, `at most three processes` stands in place of the names. Empty `sizes`
/// write nothing.
///
/// # Errors
///
/// Returns `AllocError` if memory runs out; `text` may then have a beginning of the words.
pub fn put_participants(
    text: &mut String,
    ranks: bool,
    processes: &[u8],
    sizes: &[SizeCount],
) -> Result<(), AllocError>
    ensures { OnOk result (string_bytes text.new
        ≡ string_bytes text.old ++ about_text ranks processes.now sizes.now) }
{
    if sizes.is_empty() {
        return Ok(());
    }
    write!(text, " of ")?;
    put_whose(text, ranks, processes, sizes)?;
    write!(text, ": ")?;
    put_sizes(text, sizes)
}

/// Appends who takes part: the names of `processes`, or if `ranks` is true their largest number in
/// an execution.
fn put_whose(
    text: &mut String,
    ranks: bool,
    processes: &[u8],
    sizes: &[SizeCount],
) -> Result<(), AllocError>
    requires { 0 < length sizes.now }
    ensures { OnOk result (string_bytes text.new
        ≡ string_bytes text.old ++ whose_text ranks processes.now sizes.now) }
{
    if !ranks {
        return put_processes(text, processes);
    }
    let most = processes_in_words(sizes[sizes.len() - 1].size);
    write!(text, "at most {most}")?;
    Ok(())
}

/// Appends the names of `processes`.
fn put_processes(text: &mut String, processes: &[u8]) -> Result<(), AllocError>
    ensures { OnOk result (string_bytes text.new ≡ string_bytes text.old
        ++ list_text (process_text false) (codes ", ") (codes " and ") processes.now) }
{
    let length = processes.len();
    for (place, process) in processes.iter().enumerate() {
        let before = between(place, length, ", ", " and ");
        write!(text, "{before}p{process}")?;
    }
    Ok(())
}

/// Appends the number of executions with each number of participants.
fn put_sizes(text: &mut String, sizes: &[SizeCount]) -> Result<(), AllocError>
    ensures { OnOk result (string_bytes text.new ≡ string_bytes text.old
        ++ list_text size_text (codes ", ") (codes ", ") sizes.now) }
{
    let length = sizes.len();
    for (place, of_size) in sizes.iter().enumerate() {
        let before = between(place, length, ", ", ", ");
        let SizeCount { size, count } = *of_size;
        let participants = processes_in_words(size);
        write!(text, "{before}{count} of {participants}")?;
    }
    Ok(())
}

/// Returns `count` in words, as `two processes`. `count` is 1 to 4.
fn processes_in_words(count: usize) -> &'static str
    ensures { result.now ≡ processes_text count }
{
    if count == 1 {
        "one process"
    } else if count == 2 {
        "two processes"
    } else if count == 3 {
        "three processes"
    } else {
        "four processes"
    }
}
