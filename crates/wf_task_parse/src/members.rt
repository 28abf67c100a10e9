//! Reading JSON objects from tokens: the entries of `delta`, and the draft of a whole text.

ghost use Rattle.std.specs.Prelude.{◌≡◌, ℕ, Ok, Some, IfOk, IfSome, IsTrue, is_some, ◌==◌};
ghost use Rattle.std.specs.Result.{result_ok};
ghost use Rattle.serde_json.specs.Data.{Members, no_members, object};
ghost use Rattle.wf_task_parse.specs.RawTask.{draft_of};
ghost use Rattle.wf_task_parse.specs.DraftSeen.{draft_seen};
ghost use Rattle.wf_task_parse.specs.Plain.{Takes, Adds, Fills, TakesMembers};

use crate::cursor::Cursor;
use crate::draft::{RawTask, SECOND_VERSION};
use crate::plain::Plain;
use crate::shape::{DeltaEntry, ListedSimplex, ValueList};
use std::alloc::{AllocError, Global};

/// The members of an object while it is read: an optional field for each key.
trait Fields: Sized {
    // relates the fields to an object's members: the fields hold all of them
    ghost hold: { Self → Members → Type 0 };

    // how deeply the arrays and objects under the keys are nested
    ghost deep: { ℕ };

    /// Reads the next value of `cursor` into the field of `key` and returns `true`, if the field is
    /// empty and the value certainly has the field's shape. Otherwise returns `false`; the value
    /// may then be partly read.
    fn fill(
        &mut self,
        alloc: Global,
        key: &str,
        cursor: &mut Cursor<'_>,
    ) -> Result<bool, AllocError>
        ensures { IfOk result (λ sure. IsTrue sure
            → Adds hold deep key.now self.old cursor.old self.new cursor.new) };
}

/// Reads the next value of `cursor` into `field` and returns `true`, if `field` is empty and the
/// value certainly has the field's shape. Otherwise returns `false`; the value may then be partly
/// read.
fn fill<T: Plain + Drop>(
    alloc: Global,
    field: &mut Option<T>,
    cursor: &mut Cursor<'_>,
) -> Result<bool, AllocError>
    ensures { IfOk result (λ sure. IsTrue sure
        → Fills T.reading T.seen T.deep field.old cursor.old field.new cursor.new) }
{
    if field.is_some() {
        return Ok(false);
    }
    *field = T::plain(alloc, cursor)?;
    Ok(field.is_some())
}

/// Reads the members of an object from `cursor` into `fields`, up to the closing brace. Returns
/// `true` if each key certainly has a field, occurs once and has a value of the field's shape.
fn members<S: Fields>(
    alloc: Global,
    fields: &mut S,
    cursor: &mut Cursor<'_>,
) -> Result<bool, AllocError>
    requires { S.hold fields.old no_members }
    ensures { IfOk result (λ sure. IsTrue sure
        → TakesMembers S.hold S.deep cursor.old fields.new cursor.new) }
{
    'members: while let Some(next) = cursor.next_key() {
        let Some(key) = next else {
            return Ok(true);
        };
        if !fields.fill(alloc, key, cursor)? {
            return Ok(false);
        }
    }
    Ok(false)
}

// ---- an entry of `delta`

/// The members of an entry of `delta`, as far as they have been read.
#[derive(Drop)]
pub(crate) struct EntryFields {
    input: Option<ListedSimplex>,
    tuples: Option<Vec<ValueList>>,
}

impl Fields for EntryFields {
    ghost use Rattle.wf_task_parse.specs.Members.{HoldEntry};

    ghost hold = { HoldEntry };

    ghost deep = { 2 };

    fn fill(
        &mut self,
        alloc: Global,
        key: &str,
        cursor: &mut Cursor<'_>,
    ) -> Result<bool, AllocError> {
        match key {
            "in" => fill(alloc, &mut self.input, cursor),
            "out" => fill(alloc, &mut self.tuples, cursor),
            _ => Ok(false),
        }
    }
}

impl EntryFields {
    ghost use Rattle.wf_task_parse.specs.Shape.{entry_of};
    ghost use Rattle.wf_task_parse.specs.DraftSeen.{entry_seen};
    ghost use Rattle.wf_task_parse.specs.Members.{HoldEntry};

    /// Returns the entry with these members, or `None` if one is missing.
    fn entry(self) -> Option<DeltaEntry>
        ensures { IfSome result (λ entry. (ms : Members) → HoldEntry self ms
            → entry_of (object ms) ≡ Some (entry_seen entry)) }
    {
        let EntryFields { input, tuples } = self;
        Some(DeltaEntry {
            input: input?,
            tuples: tuples?,
        })
    }
}

impl Plain for DeltaEntry {
    ghost deep = { 3 };

    fn plain(alloc: Global, cursor: &mut Cursor<'_>) -> Result<Option<DeltaEntry>, AllocError> {
        if !cursor.take_begin_object() {
            return Ok(None);
        }
        let mut fields = EntryFields {
            input: None,
            tuples: None,
        };
        if !members(alloc, &mut fields, cursor)? {
            return Ok(None);
        }
        Ok(fields.entry())
    }
}

// ---- a draft

/// The members of a draft, as far as they have been read.
#[derive(Drop)]
pub(crate) struct RawTaskFields {
    version: Option<u64>,
    least_block: Option<u64>,
    processes: Option<u64>,
    symmetric: Option<bool>,
    inputs: Option<Vec<ListedSimplex>>,
    outputs: Option<Vec<ListedSimplex>>,
    delta: Option<Vec<DeltaEntry>>,
}

impl Fields for RawTaskFields {
    ghost use Rattle.wf_task_parse.specs.Members.{HoldDraft};

    ghost hold = { HoldDraft };

    ghost deep = { 4 };

    fn fill(
        &mut self,
        alloc: Global,
        key: &str,
        cursor: &mut Cursor<'_>,
    ) -> Result<bool, AllocError> {
        match key {
            "version" => fill(alloc, &mut self.version, cursor),
            "first_block" => fill(alloc, &mut self.least_block, cursor),
            "processes" => fill(alloc, &mut self.processes, cursor),
            "symmetric" => fill(alloc, &mut self.symmetric, cursor),
            "inputs" => fill(alloc, &mut self.inputs, cursor),
            "outputs" => fill(alloc, &mut self.outputs, cursor),
            "delta" => fill(alloc, &mut self.delta, cursor),
            _ => Ok(false),
        }
    }
}

/// Returns `true` if `first_block` is present exactly if `version` requires it.
fn matches_version(version: u64, least_block: Option<u64>) -> bool
    ensures { IsTrue result → (version == 2) ≡ is_some least_block }
{
    match least_block {
        None => version != SECOND_VERSION,
        Some(_) => version == SECOND_VERSION,
    }
}

impl RawTaskFields {
    ghost use Rattle.wf_task_parse.specs.Members.{HoldDraft};

    /// Creates fields that are all empty.
    fn empty() -> RawTaskFields
        ensures { HoldDraft result no_members }
    {
        RawTaskFields {
            version: None,
            least_block: None,
            processes: None,
            symmetric: None,
            inputs: None,
            outputs: None,
            delta: None,
        }
    }

    /// Returns the draft with these members, or `None` if one is missing, or one is present that
    /// the version does not have.
    fn draft(self) -> Option<RawTask>
        ensures { IfSome result (λ draft. (ms : Members) → HoldDraft self ms
            → draft_of (object ms) ≡ Ok (draft_seen draft)) }
    {
        let RawTaskFields {
            version,
            least_block,
            processes,
            symmetric,
            inputs,
            outputs,
            delta,
        } = self;
        let version = version?;
        if !matches_version(version, least_block) {
            return None;
        }
        Some(RawTask {
            version,
            least_block,
            processes: processes?,
            symmetric: symmetric?,
            inputs: inputs?,
            outputs: outputs?,
            delta: delta?,
        })
    }
}

/// Reads a draft from the tokens of `cursor`, if they certainly begin with one.
pub(crate) fn plain_draft(
    alloc: Global,
    cursor: &mut Cursor<'_>,
) -> Result<Option<RawTask>, AllocError>
    ensures { IfOk result (λ found. IfSome found
        (λ draft. Takes (λ d. result_ok (draft_of d)) 5 cursor.old (draft_seen draft) cursor.new)) }
{
    if !cursor.take_begin_object() {
        return Ok(None);
    }
    let mut fields = RawTaskFields::empty();
    if !members(alloc, &mut fields, cursor)? {
        return Ok(None);
    }
    Ok(fields.draft())
}
