//! Writes the canonical text of a preset.

ghost use Rattle.std.specs.Prelude.{◌≡◌, ◌++◌, ◌∷◌, [], IfOk};
ghost use Rattle.wf_base.specs.Streams.Ends.{CanWrite};
ghost use Rattle.wf_task.specs.Canonical.{canonical_text};
ghost use Rattle.wf_run.specs.Run.{answered};
ghost use Rattle.wf_cli_program.specs.Presets.{IsPreset, WritesPreset};

use std::alloc::{AllocError, Global};
use std::io::Write;
use wf_base::streams::Sink;
use wf_run::{Answered, RunFault, write_answer};
use wf_task::Task;
use wf_task_presets::Preset;

/// Writes the canonical text of the task of `preset` and a line feed to `sink`.
///
/// # Errors
///
/// Returns the fault of [`Preset::task`] if the preset is refused or memory runs out; nothing is
/// written then. Returns `RunFault::Write` if the write fails.
pub fn run_preset<W: Write>(
    alloc: Global,
    sink: &mut Sink<W>,
    preset: Preset,
) -> Result<(), RunFault>
    requires { CanWrite sink.old }
    ensures { WritesPreset preset sink.old sink.new result }
{
    let answer = preset_text(alloc, preset);
    write_answer(sink, answer)
}

/// Returns the text of the task of `preset`.
fn preset_text(alloc: Global, preset: Preset) -> Answered<()>
    ensures { IsPreset preset (answered result) }
{
    let task = preset.task(alloc)?;
    Ok(((), line_of(alloc, &task)?))
}

/// Returns the canonical text of `task` with a line feed.
fn line_of(alloc: Global, task: &Task) -> Result<Vec<u8>, AllocError>
    ensures { IfOk result (λ line. line.items ≡ canonical_text task.now ++ 10 ∷ []) }
{
    let mut line = task.write_text(alloc)?;
    line.push(b'\n')?;
    Ok(line)
}
