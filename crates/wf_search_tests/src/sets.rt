//! Tests of the kernels that work on sets, some worked out by hand, and some at each index of lists
//! of each length up to 17.

ghost use Rattle.std.specs.Prelude.{◌≤◌};

use wf_base::set::Mask;
use wf_lane::{count, first_empty, first_open, meet};

static OPEN_AT_2: [Mask; 4] = [[1, 0, 0, 0], [2, 0, 0, 0], [6, 0, 0, 0], [3, 0, 0, 0]];

static OPEN_AT_1: [Mask; 2] = [[1, 0, 0, 0], [0, 0, 1, 1]];

/// Sets with at most one value each. The first one is empty.
static SINGLE: [Mask; 4] = [[0; 4], [0, 0, 0, 1 << 63], [0, 4, 0, 0], [1, 0, 0, 0]];

static EMPTY_AT_1: [Mask; 3] = [[1, 0, 0, 0], [0; 4], [0; 4]];

static THREE_VALUES: [Mask; 3] = [[3, 0, 0, 0], [4, 0, 0, 0], [0; 4]];

/// Checks the first open set, the first empty set, the count and the intersection of lists of sets.
#[test]
fn sets_are_met_and_counted(rt: HostRuntime) {
    let cases = [
        (OPEN_AT_2.as_slice(), Some(2), None),
        (OPEN_AT_1.as_slice(), Some(1), None),
        (&[], None, None),
        (SINGLE.as_slice(), None, Some(0)),
        (&SINGLE[1..], None, None),
        (EMPTY_AT_1.as_slice(), None, Some(1)),
    ];
    for (sets, open, empty) in cases {
        assert_eq!(rt; (first_open(sets), first_empty(sets)), (open, empty));
    }
    let counts = [
        count(&THREE_VALUES),
        count(&SINGLE),
        count(&[]),
        count(&[[u64::MAX; 4]; 17]),
    ];
    let mut sets = [[7, 0, 0, 5], [5, 1, 0, 0], [1, 0, 2, 0]];
    meet(&mut sets, &[[3, 1, 0, 4], [4, 1, 0, 0], [2, 0, 1, 0]]);
    let met = [[3, 0, 0, 4], [4, 1, 0, 0], [0; 4]];
    assert_eq!(rt; (counts, sets), ([3, 3, 0, 4352], met));
}

/// Returns 17 sets: `before` at indices below `place`, and `from` at the others.
fn sets_from(place: usize, before: Mask, from: Mask) -> [Mask; 17] {
    let mut sets = [before; 17];
    for i in place..17 {
        sets[i] = from;
    }
    sets
}

/// Applies the three kernels to lists of `length` sets that change at index `place`. Returns the
/// result of `first_open` for sets that are open from `place` on, that of `first_empty` for sets
/// that are empty from there on, and the number of values of sets that have two values before
/// `place` and three from there on.
fn answers_at(length: usize, place: usize) -> (Option<usize>, Option<usize>, u64)
    requires { length ≤ 17 }
{
    let open = sets_from(place, [0, 0, 0, 1 << 63], [0, 2, 4, 0]);
    let empty = sets_from(place, [0, 0, 0, 1 << 63], [0; 4]);
    let counted = sets_from(place, [1, 0, 0, 1 << 63], [4, 2, 1, 0]);
    (
        first_open(&open[..length]),
        first_empty(&empty[..length]),
        count(&counted[..length]),
    )
}

/// Returns 17 sets that were all equal and of which the first `length` were then intersected with
/// other sets: one set at the indices below `place`, and another at those from `place` on.
fn met_at(length: usize, place: usize) -> [Mask; 17]
    requires { length ≤ 17 }
{
    let mut sets = [[7, 0, 0, 7]; 17];
    let others = sets_from(place, [11, 1, 0, 21], [21, 0, 1, 11]);
    meet(&mut sets[..length], &others[..length]);
    sets
}

/// Returns the sets that [`met_at`] has to return.
fn left_at(length: usize, place: usize) -> [Mask; 17] {
    let mut left = sets_from(place, [3, 0, 0, 5], [5, 0, 0, 3]);
    for i in length..17 {
        left[i] = [7, 0, 0, 7];
    }
    left
}

/// Checks the kernels for each index of lists of each length up to 17.
#[test]
fn sets_at_each_place(rt: HostRuntime) {
    for length in 0..18 {
        for place in 0..length + 1 {
            let at = if place < length { Some(place) } else { None };
            let answers = (at, at, (3 * length - place) as u64);
            let found = (answers_at(length, place), met_at(length, place));
            assert_eq!(rt; found, (answers, left_at(length, place)));
        }
    }
}
