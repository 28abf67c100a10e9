//! Reading the parts of a draft from JSON values.

ghost use Rattle.std.specs.Prelude.{◌≡◌, ℕ, Bool, List, map, ◌<◌, Option, option_map, option_and_then, IfOk};
ghost use Rattle.serde_json.specs.Data.{Data};
ghost use Rattle.serde_json.specs.Find.{as_bool};
ghost use Rattle.serde_json.specs.View.{view, items_view};
ghost use Rattle.smallvec.specs.SmallVec.{small_vec_len};
ghost use Rattle.wf_model.specs.Task.{Rule};
ghost use Rattle.wf_task_parse.specs.Shape.{whole_of, pair_of, list_of, simplex_of, entry_of, rule_of, each, list_seen};

use crate::growing::{Growing, INLINE};
use serde_json::Value;
use smallvec::SmallVec;
use std::alloc::{AllocError, Global};
use std::default::MadeWith;

/// The number of keys of an entry of `delta`.
const ENTRY_KEYS: usize = 2;

/// A type whose values can be read from JSON values of one shape.
pub(crate) trait Shape: Sized {
    // what contracts see of a value of the type
    ghost Seen: { Type 0 };

    ghost seen: { Self → Seen };

    // the value of the type that a JSON value stands for, if any
    ghost reading: { Data → Option Seen };

    /// Returns the value of this type that the JSON value `value` stands for, or `None` if `value`
    /// has another shape.
    fn shape(alloc: Global, value: &Value) -> Result<Option<Self>, AllocError>
        ensures { IfOk result (λ found. option_map seen found ≡ reading (view value.now)) };
}

impl Shape for u64 {
    ghost Seen = { ℕ };

    ghost seen = { λ n. n };

    ghost reading = { whole_of };

    fn shape(_alloc: Global, value: &Value) -> Result<Option<u64>, AllocError> {
        Ok(value.as_u64())
    }
}

impl Shape for bool {
    ghost Seen = { Bool };

    ghost seen = { λ b. b };

    ghost reading = { as_bool };

    fn shape(_alloc: Global, value: &Value) -> Result<Option<bool>, AllocError> {
        Ok(value.as_bool())
    }
}

impl Shape for (u64, u64) {
    ghost Seen = { ℕ × ℕ };

    ghost seen = { λ p. p };

    ghost reading = { pair_of };

    fn shape(_alloc: Global, value: &Value) -> Result<Option<(u64, u64)>, AllocError> {
        Ok(pair(value))
    }
}

/// Returns the pair that `value` stands for: a list of exactly two whole numbers.
fn pair(value: &Value) -> Option<(u64, u64)>
    ensures { result ≡ pair_of (view value.now) }
{
    let items = value.as_array()?;
    match items.as_slice() {
        [first, second] => Some((first.as_u64()?, second.as_u64()?)),
        _ => None,
    }
}

impl<T: Shape + Drop> Shape for Vec<T> {
    ghost Seen = { List T.Seen };

    ghost seen = { λ v. map T.seen v.items };

    ghost reading = { list_of T.reading };

    fn shape(alloc: Global, value: &Value) -> Result<Option<Vec<T>>, AllocError> {
        read_array(alloc, value)
    }
}

impl<T: Shape + MadeWith<Global> + Drop> Shape for SmallVec<T, INLINE> {
    ghost Seen = { List T.Seen };

    ghost seen = { λ v. map T.seen v.items };

    ghost reading = { list_of T.reading };

    fn shape(alloc: Global, value: &Value) -> Result<Option<SmallVec<T, INLINE>>, AllocError> {
        read_array(alloc, value)
    }
}

/// Reads the items of the list `value`. Returns `None` if it is no list, or an item has another
/// shape than `T`.
fn read_array<T: Shape + Drop, L: Growing<T> + Drop>(
    alloc: Global,
    value: &Value,
) -> Result<Option<L>, AllocError>
    ensures { IfOk result (λ found. option_map (λ l. map T.seen (L.listed l)) found
        ≡ list_of T.reading (view value.now)) }
{
    match value.as_array() {
        Some(items) => Ok(list(alloc, items)?.ok()),
        None => Ok(None),
    }
}

/// Reads the items `values` of a list. The inner error is the index of the first one that has
/// another shape than `T`.
pub(crate) fn list<T: Shape + Drop, L: Growing<T> + Drop>(
    alloc: Global,
    values: &[Value],
) -> Result<Result<L, usize>, AllocError>
    ensures { IfOk result
        (λ found. list_seen (λ l. map T.seen (L.listed l)) found
        ≡ each T.reading (items_view values.now)) }
{
    let mut found = L::empty(alloc);
    for (place, value) in values.iter().enumerate() {
        match T::shape(alloc, value)? {
            Some(x) => found.put(x)?,
            None => return Ok(Err(place)),
        }
    }
    Ok(Ok(found))
}

/// The values of one tuple in `delta`, in the order of the text. Up to four are stored inline.
pub type ValueList = SmallVec<u64, INLINE>;

/// A simplex in a text: a non-empty list of pairs of a process and its value, not checked yet.
#[derive(Drop)]
pub struct ListedSimplex {
    /// The pairs, in the order of the text. Up to four are stored inline.
    pub pairs: SmallVec<(u64, u64), INLINE>,
    ghost some: { 0 < small_vec_len pairs },
}

impl Shape for ListedSimplex {
    ghost Seen = { List (ℕ × ℕ) };

    ghost seen = { λ s. s.pairs.items };

    ghost reading = { simplex_of };

    fn shape(alloc: Global, value: &Value) -> Result<Option<ListedSimplex>, AllocError> {
        match SmallVec::shape(alloc, value)? {
            Some(pairs) if !pairs.is_empty() => Ok(Some(ListedSimplex { pairs })),
            _ => Ok(None),
        }
    }
}

/// An entry of `delta`: an input simplex, and the value lists that are allowed there.
#[derive(Drop)]
pub struct DeltaEntry {
    /// The input simplex, under `in`.
    pub input: ListedSimplex,
    /// The value lists, under `out`.
    pub tuples: Vec<ValueList>,
}

impl Shape for DeltaEntry {
    ghost use Rattle.std.specs.Prelude.{map};
    ghost use Rattle.wf_model.specs.Task.{Rule};
    ghost use Rattle.wf_task_parse.specs.Shape.{rule_of, entry_of};

    ghost Seen = { Rule };

    ghost seen = { λ e. rule_of e.input.pairs.items (map (λ t. t.items) e.tuples.items) };

    ghost reading = { entry_of };

    #[tactic(auto, using(crate::proofs::Lists::members_count))]
    fn shape(alloc: Global, value: &Value) -> Result<Option<DeltaEntry>, AllocError> {
        let Some(members) = value.as_object() else {
            return Ok(None);
        };
        let Some(input) = read_member(alloc, value.get("in"))? else {
            return Ok(None);
        };
        let Some(tuples) = read_member(alloc, value.get("out"))? else {
            return Ok(None);
        };
        if members.len() != ENTRY_KEYS {
            return Ok(None);
        }
        Ok(Some(DeltaEntry { input, tuples }))
    }
}

/// Reads the value of a member, or returns `None` if there is no such member or it has another
/// shape than `T`.
pub(crate) fn read_member<T: Shape + Drop>(
    alloc: Global,
    value: Option<&Value>,
) -> Result<Option<T>, AllocError>
    ensures { IfOk result (λ found. option_map T.seen found
        ≡ option_and_then T.reading (option_map (λ v. view v.now) value.entry)) }
{
    match value {
        Some(value) => T::shape(alloc, value),
        None => Ok(None),
    }
}
