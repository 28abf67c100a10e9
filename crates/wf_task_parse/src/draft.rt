//! The content of a task text before it is checked.

ghost use Rattle.std.specs.Prelude.{◌≡◌, ◌==◌, map, option_map};
ghost use Rattle.serde_json.specs.Find.{as_bool};
ghost use Rattle.serde_json.specs.View.{view};
ghost use Rattle.wf_task_parse.specs.Shape.{whole_of};
ghost use Rattle.wf_task_parse.specs.RawTask.{Gives, value_at, least_block_at, key_count, list_at, draft_of};
ghost use Rattle.wf_task_parse.specs.DraftSeen.{draft_seen};
ghost use Rattle.wf_task_parse.specs.Parts.{IsOfText, IsPart};

use crate::fault::{Key, TaskFault};
use crate::shape::{DeltaEntry, ListedSimplex, Shape, list};
use serde_json::Value;
use std::alloc::Global;

/// The format version of tasks that allow all words in each round.
pub const FIRST_VERSION: u64 = 1;

/// The format version whose texts have the key `first_block`, which bounds the size of a round's
/// first block from below.
pub const SECOND_VERSION: u64 = 2;

/// The content of a task text whose JSON value has the right shape. Nothing else has been checked
/// yet: numbers may be out of range, and simplices may be invalid or missing.
#[derive(Drop)]
pub struct RawTask {
    /// The value of `version`.
    pub version: u64,
    /// The value of `first_block` if the version is 2, and `None` otherwise.
    pub least_block: Option<u64>,
    /// The value of `processes`.
    pub processes: u64,
    /// The value of `symmetric`.
    pub symmetric: bool,
    /// The simplices listed under `inputs`.
    pub inputs: Vec<ListedSimplex>,
    /// The simplices listed under `outputs`.
    pub outputs: Vec<ListedSimplex>,
    /// The entries listed under `delta`.
    pub delta: Vec<DeltaEntry>,
}

/// Reads the whole number that `key` has as its `value`.
///
/// # Errors
///
/// Returns `Shape(key, 0)` if there is no value, or it is not a whole number of at most 64 bits.
fn read_number_member(key: Key, value: Option<&Value>) -> Result<u64, TaskFault>
    ensures { Gives (λ n. n) result
        (value_at key whole_of (option_map (λ v. view v.now) value.entry)) }
{
    match value.and_then(Value::as_u64) {
        Some(number) => Ok(number),
        None => Err(TaskFault::Shape(key, 0)),
    }
}

/// Reads the `value` of `first_block`, which only texts of version 2 have. Returns `None` in other
/// versions.
fn least_block_under(version: u64, value: Option<&Value>) -> Result<Option<u64>, TaskFault>
    ensures { Gives (λ m. m) result
        (least_block_at version (option_map (λ v. view v.now) value.entry)) }
{
    if version == SECOND_VERSION {
        Ok(Some(read_number_member(Key::FirstBlock, value)?))
    } else {
        Ok(None)
    }
}

/// Returns `true` if `keys` is the number of keys that a text has: 7 if it has `first_block`, and 6
/// otherwise.
fn is_key_count(keys: usize, least_block: Option<u64>) -> bool
    ensures { result ≡ (keys == key_count least_block) }
{
    match least_block {
        None => keys == 6,
        Some(_) => keys == 7,
    }
}

/// Reads the truth value that `key` has as its `value`.
///
/// # Errors
///
/// Returns `Shape(key, 0)` if there is no value, or it is neither `true` nor `false`.
fn read_bool_member(key: Key, value: Option<&Value>) -> Result<bool, TaskFault>
    ensures { Gives (λ b. b) result
        (value_at key as_bool (option_map (λ v. view v.now) value.entry)) }
{
    match value.and_then(Value::as_bool) {
        Some(truth) => Ok(truth),
        None => Err(TaskFault::Shape(key, 0)),
    }
}

/// Reads the list that `key` has as its `value`.
///
/// # Errors
///
/// Returns `Shape(key, index)` with the index of the first item of the wrong shape; 0 if there is
/// no value, or it is no list. The index fits in 32 bits, since a list has fewer items than the
/// text has bytes.
fn read_list_member<T: Shape + Drop>(
    alloc: Global,
    key: Key,
    value: Option<&Value>,
) -> Result<Vec<T>, TaskFault>
    requires { IsPart (option_map (λ v. view v.now) value) }
    ensures { Gives (λ v. map T.seen v.items) result
        (list_at key T.reading (option_map (λ v. view v.now) value.entry)) }
{
    let Some(value) = value else {
        return Err(TaskFault::Shape(key, 0));
    };
    let Some(items) = value.as_array() else {
        return Err(TaskFault::Shape(key, 0));
    };
    match list(alloc, items)? {
        Ok(found) => Ok(found),
        Err(place) => Err(TaskFault::Shape(key, place as u32)),
    }
}

impl RawTask {
    /// Reads a draft from the JSON value of a text.
    ///
    /// # Errors
    ///
    /// Returns `Shape` for the first key that is missing or has a value of the wrong shape. The
    /// keys are tested in the order of the fields of `RawTask`; then comes `Key::Other` if there is
    /// any further key.
    #[tactic(auto, using(crate::proofs::Lists::members_count), unfolding(crate::specs::RawTask::draft_of))]
    pub(crate) fn of(alloc: Global, value: &Value) -> Result<RawTask, TaskFault>
        requires { IsOfText (view value.now) }
        ensures { Gives draft_seen result (draft_of (view value.now)) }
    {
        let Some(members) = value.as_object() else {
            return Err(TaskFault::Shape(Key::Whole, 0));
        };
        let version = read_number_member(Key::Version, value.get("version"))?;
        let least_block = least_block_under(version, value.get("first_block"))?;
        let processes = read_number_member(Key::Processes, value.get("processes"))?;
        let symmetric = read_bool_member(Key::Symmetric, value.get("symmetric"))?;
        let inputs = read_list_member(alloc, Key::Inputs, value.get("inputs"))?;
        let outputs = read_list_member(alloc, Key::Outputs, value.get("outputs"))?;
        let delta = read_list_member(alloc, Key::Delta, value.get("delta"))?;
        if !is_key_count(members.len(), least_block) {
            return Err(TaskFault::Shape(Key::Other, 0));
        }
        Ok(RawTask {
            version,
            least_block,
            processes,
            symmetric,
            inputs,
            outputs,
            delta,
        })
    }
}
