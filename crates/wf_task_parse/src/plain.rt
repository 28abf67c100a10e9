//! Reading a draft from the tokens of a text, without a JSON value in between.
//!
//! Texts in the usual form, with plain keys and numbers of at most three digits, are read this way.
//! If a reader is not certain, it returns `None`, and the text is read again by way of its JSON
//! value. So only the latter decides which texts are refused, and why.

ghost use Rattle.std.specs.Prelude.{ℕ, suc, map, IfOk, IfSome};
ghost use Rattle.wf_task_parse.specs.Plain.{Takes, TakesItems};
ghost use Rattle.wf_task_parse.specs.Shape.{list_of, pair_of};

use crate::cursor::Cursor;
use crate::growing::{Growing, INLINE};
use crate::shape::{ListedSimplex, Shape};
use smallvec::SmallVec;
use std::alloc::{AllocError, Global};
use std::default::MadeWith;

/// A type whose values can be read from tokens.
pub(crate) trait Plain: Shape {
    // how deeply its arrays and objects are nested
    ghost deep: { ℕ };

    /// Reads the next value of `cursor`, if it certainly has the shape of this type. Otherwise
    /// returns `None`; the value may then be partly read.
    fn plain(alloc: Global, cursor: &mut Cursor<'_>) -> Result<Option<Self>, AllocError>
        ensures { IfOk result (λ found. IfSome found
            (λ x. Takes Self.reading deep cursor.old (Self.seen x) cursor.new)) };
}

impl Plain for u64 {
    ghost deep = { 0 };

    #[inline(always)]
    fn plain(_alloc: Global, cursor: &mut Cursor<'_>) -> Result<Option<u64>, AllocError> {
        Ok(cursor.next_number())
    }
}

impl Plain for bool {
    ghost deep = { 0 };

    fn plain(_alloc: Global, cursor: &mut Cursor<'_>) -> Result<Option<bool>, AllocError> {
        Ok(cursor.next_bool())
    }
}

impl Plain for (u64, u64) {
    ghost deep = { 1 };

    #[inline(always)]
    fn plain(alloc: Global, cursor: &mut Cursor<'_>) -> Result<Option<(u64, u64)>, AllocError> {
        if let Some(pair) = cursor.next_pair() {
            return Ok(Some(pair));
        }
        pair_by_tokens(alloc, cursor)
    }
}

/// Reads an array of two numbers, token by token. The cursor reads numbers of at most three digits.
fn pair_by_tokens(alloc: Global, cursor: &mut Cursor<'_>) -> Result<Option<(u64, u64)>, AllocError>
    ensures { IfOk result (λ found. IfSome found
        (λ pair. Takes pair_of 1 cursor.old pair cursor.new)) }
{
    if !cursor.take_begin_array() {
        return Ok(None);
    }
    let Some(first) = u64::plain(alloc, cursor)? else {
        return Ok(None);
    };
    let Some(second) = u64::plain(alloc, cursor)? else {
        return Ok(None);
    };
    if !cursor.take_end_array() {
        return Ok(None);
    }
    Ok(Some((first, second)))
}

impl<T: Plain + Drop> Plain for Vec<T> {
    ghost deep = { suc T.deep };

    fn plain(alloc: Global, cursor: &mut Cursor<'_>) -> Result<Option<Vec<T>>, AllocError> {
        read_array(alloc, cursor)
    }
}

impl<T: Plain + MadeWith<Global> + Drop> Plain for SmallVec<T, INLINE> {
    ghost deep = { suc T.deep };

    fn plain(
        alloc: Global,
        cursor: &mut Cursor<'_>,
    ) -> Result<Option<SmallVec<T, INLINE>>, AllocError> {
        read_array(alloc, cursor)
    }
}

/// Reads an array whose items all certainly have the shape of `T`.
fn read_array<T: Plain + Drop, L: Growing<T> + Drop>(
    alloc: Global,
    cursor: &mut Cursor<'_>,
) -> Result<Option<L>, AllocError>
    ensures { IfOk result (λ found. IfSome found
        (λ l. Takes (list_of T.reading) (suc T.deep) cursor.old
        (map T.seen (L.listed l)) cursor.new)) }
{
    if !cursor.take_begin_array() {
        return Ok(None);
    }
    items(alloc, cursor)
}

/// Reads the items of an array behind its opening bracket, up to the closing one, if all certainly
/// have the shape of `T`.
fn items<T: Plain + Drop, L: Growing<T> + Drop>(
    alloc: Global,
    cursor: &mut Cursor<'_>,
) -> Result<Option<L>, AllocError>
    ensures { IfOk result (λ found. IfSome found
        (λ l. TakesItems T.reading T.deep cursor.old
        (map T.seen (L.listed l)) cursor.new)) }
{
    let mut found = L::empty(alloc);
    'items: while !cursor.take_end_array() {
        let Some(item) = T::plain(alloc, cursor)? else {
            return Ok(None);
        };
        found.put(item)?;
    }
    Ok(Some(found))
}

impl Plain for ListedSimplex {
    ghost deep = { 2 };

    fn plain(alloc: Global, cursor: &mut Cursor<'_>) -> Result<Option<ListedSimplex>, AllocError> {
        match SmallVec::plain(alloc, cursor)? {
            Some(pairs) if !pairs.is_empty() => Ok(Some(ListedSimplex { pairs })),
            _ => Ok(None),
        }
    }
}
