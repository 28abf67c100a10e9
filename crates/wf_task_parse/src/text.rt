//! Reading a draft from the bytes of a text.

ghost use Rattle.std.specs.Prelude.{◌≡◌, ◌≤◌, Ok, IfOk, IfSome, length};
ghost use Rattle.serde_json.specs.View.{view};
ghost use Rattle.wf_model.specs.Limits.{most_bytes};
ghost use Rattle.wf_task_parse.specs.RawTask.{Gives, or_fault};
ghost use Rattle.wf_task_parse.specs.DraftSeen.{draft_seen};
ghost use Rattle.wf_task_parse.specs.Listed.{ListsFew, ListsVertices};
ghost use Rattle.wf_task_parse.specs.Text.{json_of, draft_in};

use crate::cursor::Cursor;
use crate::draft::RawTask;
use crate::fault::TaskFault;
use crate::members::plain_draft;
use serde_json::Value;
use serde_json::error::Category;
use std::alloc::{AllocError, Global};

/// Reads the draft of a text of at most 16,777,216 bytes.
///
/// A text in the usual form, with plain keys and numbers of at most three digits, is read token by
/// token, which is faster. Any other text is read by way of its JSON value. Both have the same
/// result.
///
/// # Errors
///
/// - `NotJson` if the text is not UTF-8, not JSON, or nested deeper than 127 levels.
/// - `Shape` for the first key that is missing, has a value of the wrong shape, or is unknown.
/// - `OutOfMemory` if memory runs out.
pub fn draft_in(alloc: Global, bytes: &[u8]) -> Result<RawTask, TaskFault>
    requires { length bytes.now ≤ most_bytes }
    ensures draft { Gives draft_seen result (draft_in bytes.now) }
    ensures vertices { IfOk result (λ draft. ListsVertices (draft_seen draft)) }
    ensures few { IfOk result (λ draft. ListsFew (draft_seen draft)) }
{
    if let Some(draft) = usual_draft(alloc, bytes)? {
        return Ok(draft);
    }
    let value = json(alloc, bytes)?;
    RawTask::of(alloc, &value)
}

/// Reads the draft of a text token by token, if the text certainly has the usual form: plain keys
/// and numbers of at most three digits. Otherwise returns `None`.
fn usual_draft(alloc: Global, bytes: &[u8]) -> Result<Option<RawTask>, AllocError>
    ensures { IfOk result (λ found. IfSome found
        (λ draft. draft_in bytes.now ≡ Ok (draft_seen draft))) }
{
    let Ok(_text) = simdutf8::basic::from_utf8(bytes) else {
        return Ok(None);
    };
    let mut cursor = Cursor::new(bytes);
    let found = plain_draft(alloc, &mut cursor)?;
    if !cursor.is_at_end() {
        return Ok(None);
    }
    Ok(found)
}

/// Parses the JSON value of a text.
///
/// # Errors
///
/// Returns `NotJson` if the text is not UTF-8, not JSON or nested too deeply, and `OutOfMemory` if
/// memory runs out.
fn json(alloc: Global, bytes: &[u8]) -> Result<Value, TaskFault>
    ensures { Gives view result (or_fault TaskFault.NotJson (json_of bytes.now)) }
{
    match Value::from_slice(alloc, bytes) {
        Ok(value) => Ok(value),
        Err(error) => match error.classify() {
            Category::Memory => Err(TaskFault::OutOfMemory),
            _ => Err(TaskFault::NotJson),
        },
    }
}
