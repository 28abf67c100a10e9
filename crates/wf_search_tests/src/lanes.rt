//! Tests of the kernel on tables: some worked out by hand, some of each length up to 17, and some
//! of many rows.

ghost use Rattle.std.specs.Prelude.{◌≡◌, ◌≤◌, length};

use std::alloc::{AllocError, Global};
use std::test::Fail;
use wf_base::set::{Mask, from_set64};
use wf_lane::{Support, TupleTable};
use wf_task::Row;

/// Returns four sets of values below 64, whose words are `words`.
fn sets_of(words: [u64; 4]) -> [Mask; 4] {
    let [first, second, third, fourth] = words;
    [
        from_set64(first),
        from_set64(second),
        from_set64(third),
        from_set64(fourth),
    ]
}

/// Returns a row of the first `width` of `values`.
fn row_of(width: u8, values: [u8; 4]) -> Row
    requires some { 1 ≤ width }
    requires narrow { width ≤ 4 }
    ensures { length result ≡ width }
{
    Row::new(&values[..usize::from(width)])
}

/// Returns what the kernel supports of `candidates` in a table of the first 4096 of `rows`, each
/// cut to its first `width` values.
fn support_of(
    alloc: Global,
    width: u8,
    rows: &[[u8; 4]],
    candidates: [Mask; 4],
) -> Result<Support, AllocError>
    requires some { 1 ≤ width }
    requires narrow { width ≤ 4 }
{
    let mut kept = Vec::new(alloc);
    for i in 0..rows.len().min(4096) {
        kept.push(row_of(width, rows[i]))?;
    }
    let table = TupleTable::build(alloc, &kept, width)?;
    Ok(table.revise(candidates))
}

/// Rows of one place, with the values 0 to 7, 63, 64 and 255.
static VALUES: [[u8; 4]; 11] = [
    [0, 0, 0, 0],
    [1, 0, 0, 0],
    [2, 0, 0, 0],
    [3, 0, 0, 0],
    [4, 0, 0, 0],
    [5, 0, 0, 0],
    [6, 0, 0, 0],
    [7, 0, 0, 0],
    [63, 0, 0, 0],
    [64, 0, 0, 0],
    [255, 0, 0, 0],
];

/// The number of rows in [`VALUES`] whose value is below 64. They come first.
const SMALL_VALUES: usize = 9;

const ALL: Mask = [u64::MAX; 4];

const NONE: Mask = [0; 4];

const LAST: Mask = [0x8000_0000_0000_0000, 0, 0, 0];

const ALL_SMALL: Mask = [0x8000_0000_0000_00ff, 0, 0, 0];

/// The set of all values in [`VALUES`]. `ALL_SMALL` has only those below 64.
const ALL_LARGE: Mask = [0x8000_0000_0000_00ff, 1, 0, 0x8000_0000_0000_0000];

/// Checks tables of rows of one place, with small and with large values, and one without rows.
#[test]
fn rows_of_one_place(rt: HostRuntime) -> Result<(), Fail> {
    let small = &VALUES[..SMALL_VALUES];
    let cases = [
        (small, sets_of([u64::MAX, 0, 5, 9]), ALL_SMALL, 9),
        (small, [LAST, NONE, NONE, NONE], LAST, 1),
        (VALUES.as_slice(), [ALL; 4], ALL_LARGE, 11),
        (&[], sets_of([u64::MAX; 4]), NONE, 0),
    ];
    for (rows, candidates, first, alive) in cases {
        let masks = [first, NONE, NONE, NONE];
        let found = support_of(rt.alloc(), 1, rows, candidates)?;
        assert_eq!(rt; found, Support { masks, alive });
    }
    Ok(())
}

/// The pairs of values from 0 to 2 that differ by at most 1.
static NEAR: [[u8; 4]; 7] = [
    [0, 0, 0, 0],
    [0, 1, 0, 0],
    [1, 0, 0, 0],
    [1, 1, 0, 0],
    [1, 2, 0, 0],
    [2, 1, 0, 0],
    [2, 2, 0, 0],
];

/// Returns all pairs of a value below `firsts` and a value below `seconds`.
fn all_pairs(alloc: Global, firsts: u8, seconds: u8) -> Result<Vec<[u8; 4]>, AllocError> {
    let mut pairs = Vec::new(alloc);
    for first in 0..firsts {
        for second in 0..seconds {
            pairs.push([first, second, 0, 0])?;
        }
    }
    Ok(pairs)
}

/// Checks tables of pairs. In a table of all pairs of values below two bounds, a candidate below
/// its bound is supported if the other place has such a candidate too. The tables have many rows,
/// the 64 rows of a word, and one row more than that.
#[test]
fn rows_of_two_places(rt: HostRuntime) -> Result<(), Fail> {
    let many = all_pairs(rt.alloc(), 40, 30)?;
    let word = all_pairs(rt.alloc(), 8, 8)?;
    let longer = all_pairs(rt.alloc(), 13, 5)?;
    let all = many.as_slice();
    let cases = [
        (NEAR.as_slice(), [1, 7, 7, 7], [1, 3], 2),
        (
            all,
            [u64::MAX, u64::MAX, 0, 9],
            [0xff_ffff_ffff, 0x3fff_ffff],
            1200,
        ),
        (
            all,
            [0x80_0000_0000, 0x2000_0000, 5, 0],
            [0x80_0000_0000, 0x2000_0000],
            1,
        ),
        (all, [0xff00_0000_0007, 6, 0, 0], [7, 6], 6),
        (all, [u64::MAX, 0x4000_0000, 1, 1], [0, 0], 0),
        (all, [0, u64::MAX, 1, 1], [0, 0], 0),
        (word.as_slice(), [0x81, 0x1fe, 0, 0], [0x81, 0xfe], 14),
        (word.as_slice(), [u64::MAX, 0x100, 0, 0], [0, 0], 0),
        (longer.as_slice(), [0x1001, 0x30, 0, 0], [0x1001, 0x10], 2),
    ];
    for (rows, candidates, [first, second], alive) in cases {
        let masks = sets_of([first, second, 0, 0]);
        let found = support_of(rt.alloc(), 2, rows, sets_of(candidates))?;
        assert_eq!(rt; found, Support { masks, alive });
    }
    Ok(())
}

/// Returns the values 63, 5, 0 and 32, with 9 in place of the one at `other`.
fn values_with_9_at(other: usize) -> [u8; 4] {
    let mut values = [63, 5, 0, 32];
    if other < 4 {
        values[other] = 9;
    }
    values
}

/// Returns 17 rows, of which only the one with index `at` has the values 63, 5, 0 and 32. Each
/// other row has 9 at a place below `width`.
fn rows_with_one_match(width: u8, at: usize) -> [[u8; 4]; 17]
    requires { 1 ≤ width }
{
    let mut rows = [[63, 5, 0, 32]; 17];
    for i in 0..17 {
        if i != at {
            rows[i] = values_with_9_at(i % usize::from(width));
        }
    }
    rows
}

/// The sets of the single values 63, 5, 0 and 32, as words.
const FOUR_SINGLETONS: [u64; 4] = [0x8000_0000_0000_0000, 0x20, 1, 0x1_0000_0000];

/// Returns the expected support of a table of `width` columns whose candidates are
/// [`FOUR_SINGLETONS`]: these candidates with one live row if `is_there`, and otherwise nothing.
fn expected_support(is_there: bool, width: u8) -> Support {
    let mut words = [0; 4];
    for place in 0..4 {
        if is_there && place < usize::from(width) {
            words[place] = FOUR_SINGLETONS[place];
        }
    }
    Support {
        masks: sets_of(words),
        alive: u32::from(is_there),
    }
}

/// Checks that the only supported row is found at each index, in tables of each width and of each
/// length up to 17.
#[test]
fn one_row_is_found_at_each_place(rt: HostRuntime) -> Result<(), Fail> {
    for width in 1..5 {
        for length in 0..18 {
            for at in 0..length + 1 {
                let rows = rows_with_one_match(width, at);
                let candidates = sets_of(FOUR_SINGLETONS);
                let found = support_of(rt.alloc(), width, &rows[..length], candidates)?;
                assert_eq!(rt; found, expected_support(at < length, width));
            }
        }
    }
    Ok(())
}
