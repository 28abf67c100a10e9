//! Finding the minimal forbidden patterns of a rule.

ghost use Rattle.std.specs.Prelude.{◌≡◌, ◌<◌, ◌+◌, ◌≤◌, ◌∷◌, ◌++◌, [], IfOk, OnOk, drop, filter, get_or, length, map, slice_index, vec_items, zip, List};
ghost use Rattle.wf_model.specs.Task.{Tuple};
ghost use Rattle.wf_sat_formula.specs.Patterns.{minimal_patterns};
ghost use Rattle.wf_base.specs.Set.Sets.{values_in};
ghost use Rattle.wf_sat_cnf.specs.Found.{choices, found_at, found_with, having, occurs_in_each, patterns_on, patterns_with};
ghost use Rattle.wf_sat_cnf.specs.Groups.{AreAllowed, AreFollowers, group_of};
ghost use Rattle.wf_sat_cnf.specs.Patterns.{pattern_seen, patterns_seen};

use crate::followers::Followers;
use crate::groups::Groups;
use crate::tuples::{group_each, having, having_each, values_at};
use std::alloc::{AllocError, Global};
use wf_base::set::{Mask, difference, intersection, split_first};
use wf_task::Row;

/// A pattern with at least one place: values at some of the places of a tuple.
#[derive(Clone, Copy)]
pub struct Pattern {
    /// The places of the pattern, in ascending order.
    pub places: Row,
    /// The value at each of the places, in the order of `places`.
    pub values: Row,
}

/// The minimal forbidden patterns of a list of tuples. A pattern is forbidden if no tuple has all
/// its values, and minimal if it is no longer forbidden with any one value less.
///
/// Each pattern takes ten bytes.
#[derive(Drop)]
pub struct Patterns {
    /// Whether there are no tuples at all. Then the only minimal forbidden pattern is the empty
    /// one, and `others` is empty.
    pub nothing_is_allowed: bool,
    /// The minimal forbidden patterns if there are tuples, ordered by size, then by places, then by
    /// values.
    pub others: Vec<Pattern>,
}

/// The tuples that a rule allows, with the number of their places and the values that a pattern may
/// have.
#[derive(Clone, Copy)]
struct AllowedTuples<'a> {
    // the number of places, at each of which every tuple has a value
    size: u8,
    // the values that a pattern may have
    values: Mask,
    tuples: &'a [Row],
}

/// The state of a search for the patterns at given places whose first values are chosen.
#[derive(Clone, Copy)]
struct PatternSearch<'a> {
    // the values that a pattern may have
    values: Mask,
    // all places of the patterns, in ascending order
    places: Row,
    // the index in `places` of the next place whose value is to be chosen
    from: u8,
    // the values chosen for the places before the index `from`
    begun: &'a [u8],
    // the tuples that have the chosen values at those places
    fitting: &'a [Row],
    ghost few: { length places ≤ 4 },
}

/// The data that a search computes once for its last three places, because they do not depend on
/// the value chosen at the first of the three.
#[derive(Clone, Copy)]
struct LastThree<'a> {
    // for each value chosen before, the tuples that fit all other chosen values, grouped by their
    // value at the first of the three places
    groups: &'a [Groups],
    // for each value at the second of the three places, the values at the last one in the tuples
    // that fit
    behind: &'a Followers,
}

/// The number of non-empty subsets of four places.
const CHOICES: u8 = 15;

impl Patterns {
    /// Finds the minimal forbidden patterns of `tuples`, each of which has `size` places, at most
    /// four, among the patterns with values from `values`.
    ///
    /// With n tuples and k values, the time for each choice of places is of the order of n * k plus
    /// the number of patterns found.
    ///
    /// # Errors
    ///
    /// Returns `AllocError` if memory runs out.
    pub fn of(alloc: Global, size: u8, values: Mask, tuples: &[Row]) -> Result<Patterns, AllocError>
        requires { size ≤ 4 }
        ensures { IfOk result (λ p. patterns_seen p
            ≡ minimal_patterns size (values_in values) tuples.now) }
    {
        let mut others = Vec::new(alloc);
        if tuples.is_empty() {
            return Ok(Patterns {
                nothing_is_allowed: true,
                others,
            });
        }
        let allowed = AllowedTuples {
            size,
            values,
            tuples,
        };
        for number in 0..CHOICES {
            add_patterns(alloc, &allowed, number, &mut others)?;
        }
        Ok(Patterns {
            nothing_is_allowed: false,
            others,
        })
    }

    /// Returns the number of patterns, the empty one included.
    pub fn count(&self) -> u64
        ensures { result ≡ length (patterns_seen self.now) }
    {
        if self.nothing_is_allowed {
            1
        } else {
            self.others.len() as u64
        }
    }
}

/// Returns a non-empty subset of the places 0 to 3, in ascending order. The `number`, below
/// [`CHOICES`], counts the subsets by size and then by their places.
fn choice(number: u8) -> Row
    requires { number < 15 }
    ensures places { result ≡ get_or choices number [] }
    ensures some { 0 < length (get_or choices number []) }
    ensures few { length (get_or choices number []) ≤ 4 }
{
    match number {
        0 => Row::new(&[0]),
        1 => Row::new(&[1]),
        2 => Row::new(&[2]),
        3 => Row::new(&[3]),
        4 => Row::new(&[0, 1]),
        5 => Row::new(&[0, 2]),
        6 => Row::new(&[0, 3]),
        7 => Row::new(&[1, 2]),
        8 => Row::new(&[1, 3]),
        9 => Row::new(&[2, 3]),
        10 => Row::new(&[0, 1, 2]),
        11 => Row::new(&[0, 1, 3]),
        12 => Row::new(&[0, 2, 3]),
        13 => Row::new(&[1, 2, 3]),
        _ => Row::new(&[0, 1, 2, 3]),
    }
}

/// Appends to `found` the minimal forbidden patterns of `allowed` whose places are the subset
/// [`choice(number)`](choice). Does nothing if the tuples lack one of the places.
fn add_patterns(
    alloc: Global,
    allowed: &AllowedTuples,
    number: u8,
    found: &mut Vec<Pattern>,
) -> Result<(), AllocError>
    requires { number < 15 }
    ensures { OnOk result (map pattern_seen found.new.items ≡ map pattern_seen found.old.items
        ++ patterns_on allowed.now.size (values_in allowed.now.values) allowed.now.tuples.now
        (get_or choices number [])) }
{
    let places = choice(number);
    if places.value(places.size() - 1) < allowed.size {
        let search = PatternSearch {
            values: allowed.values,
            places,
            from: 0,
            begun: &[],
            fitting: allowed.tuples,
        };
        return add_found(alloc, &search, &[], found);
    }
    Ok(())
}

/// Appends to `found` the minimal forbidden patterns that begin with the values that `search` has
/// chosen.
///
/// `nearly` has for each chosen value the tuples that fit all other chosen values. A value at the
/// last place completes such a pattern if no fitting tuple has it there, but some tuple of each
/// list in `nearly` does.
fn add_found(
    alloc: Global,
    search: &PatternSearch,
    nearly: &[Vec<Row>],
    found: &mut Vec<Pattern>,
) -> Result<(), AllocError>
    requires from { search.now.from < length search.now.places }
    requires begun { length search.now.begun.now ≡ search.now.from }
    ensures { let s = search.now in
        OnOk result (map pattern_seen found.new.items ≡ map pattern_seen found.old.items
        ++ patterns_with s.places s.begun.now (found_at (values_in s.values)
        (drop s.from s.places) s.fitting.now (map vec_items nearly.now))) }
{
    let from = search.from;
    let places = search.places;
    let place = places.value(from);
    let there = values_at(search.fitting, place);
    if from + 1 == places.size() {
        let missing = missing_at(difference(search.values, there), nearly, place);
        return add_last(places, search.begun, missing, found);
    }
    if from + 2 == places.size() {
        let next = places.value(from + 1);
        let near = Followers::common(alloc, search.values, nearly, place, next)?;
        return add_last_two(alloc, search, &near, found);
    }
    if from + 3 == places.size() {
        return add_last_three(alloc, search, nearly, found);
    }
    add_all_four(alloc, search, nearly, found)
}

/// Appends to `found` the patterns of a search with four places left, as [`add_found`] does. It
/// tries each value that occurs at the first of them in a fitting tuple.
fn add_all_four(
    alloc: Global,
    search: &PatternSearch,
    nearly: &[Vec<Row>],
    found: &mut Vec<Pattern>,
) -> Result<(), AllocError>
    requires from { search.now.from + 4 ≡ length search.now.places }
    requires begun { length search.now.begun.now ≡ search.now.from }
    ensures { let s = search.now in
        OnOk result (map pattern_seen found.new.items ≡ map pattern_seen found.old.items
        ++ patterns_with s.places s.begun.now (found_at (values_in s.values)
        (drop s.from s.places) s.fitting.now (map vec_items nearly.now))) }
{
    let place = search.places.value(search.from);
    let groups = group_each(alloc, nearly, place)?;
    let mut left = intersection(search.values, values_at(search.fitting, place));
    'values: while let Some(split) = split_first(left) {
        let (value, others) = split;
        left = others;
        add_four_with(alloc, search, &groups, value, found)?;
    }
    Ok(())
}

/// Appends to `found` the patterns of a search with four places left that have `value` at the first
/// of them. `groups` has the lists of nearly fitting tuples, grouped by their value at that place.
fn add_four_with(
    alloc: Global,
    search: &PatternSearch,
    groups: &[Groups],
    value: u8,
    found: &mut Vec<Pattern>,
) -> Result<(), AllocError>
    requires from { search.now.from + 4 ≡ length search.now.places }
    requires begun { length search.now.begun.now ≡ search.now.from }
    ensures { let s = search.now in
        OnOk result ((nearly : List (List Tuple)) → map (group_of value) groups.now
        ≡ map (having (slice_index s.places s.from) value) nearly
        → map pattern_seen found.new.items ≡ map pattern_seen found.old.items
        ++ found_with (values_in s.values) s.places s.from s.begun.now s.fitting.now nearly value) }
{
    let place = search.places.value(search.from);
    let more = longer(search.begun, value);
    let fit = having(alloc, search.fitting, place, value)?;
    let near = lists_with(alloc, groups, value, search.fitting)?;
    let chosen = PatternSearch {
        values: search.values,
        places: search.places,
        from: search.from + 1,
        begun: more.as_slice(),
        fitting: &fit,
    };
    add_last_three(alloc, &chosen, &near, found)
}

/// Returns the lists of the tuples that have `value` in each of `groups`, followed by `tuples` as
/// one more list.
fn lists_with(
    alloc: Global,
    groups: &[Groups],
    value: u8,
    tuples: &[Row],
) -> Result<Vec<Vec<Row>>, AllocError>
    ensures { IfOk result (λ lists. map vec_items lists.items
        ≡ map (group_of value) groups.now ++ tuples.now ∷ []) }
{
    let mut lists = having_each(alloc, groups, value)?;
    lists.push(tuples.to_vec(alloc)?)?;
    Ok(lists)
}

/// Appends to `found` the patterns of a search with three places left, as [`add_found`] does. It
/// tries each value that occurs at the first of them in a fitting tuple.
fn add_last_three(
    alloc: Global,
    search: &PatternSearch,
    nearly: &[Vec<Row>],
    found: &mut Vec<Pattern>,
) -> Result<(), AllocError>
    requires from { search.now.from + 3 ≡ length search.now.places }
    requires begun { length search.now.begun.now ≡ search.now.from }
    ensures { let s = search.now in
        OnOk result (map pattern_seen found.new.items ≡ map pattern_seen found.old.items
        ++ patterns_with s.places s.begun.now (found_at (values_in s.values)
        (drop s.from s.places) s.fitting.now (map vec_items nearly.now))) }
{
    let place = search.places.value(search.from);
    let next = search.places.value(search.from + 1);
    let last = search.places.value(search.from + 2);
    let behind = Followers::of(alloc, search.fitting, next, last)?;
    let groups = group_each(alloc, nearly, place)?;
    let three = LastThree {
        groups: &groups,
        behind: &behind,
    };
    let mut left = intersection(search.values, values_at(search.fitting, place));
    'values: while let Some(split) = split_first(left) {
        let (value, others) = split;
        left = others;
        add_three_with(alloc, search, &three, value, found)?;
    }
    Ok(())
}

/// Appends to `found` the patterns of a search with three places left that have `value` at the
/// first of them.
fn add_three_with(
    alloc: Global,
    search: &PatternSearch,
    three: &LastThree,
    value: u8,
    found: &mut Vec<Pattern>,
) -> Result<(), AllocError>
    requires from { search.now.from + 3 ≡ length search.now.places }
    requires begun { length search.now.begun.now ≡ search.now.from }
    requires behind { let s = search.now in AreFollowers (slice_index s.places (s.from + 1))
        (slice_index s.places (s.from + 2)) s.fitting.now three.now.behind.now }
    ensures { let s = search.now in
        OnOk result ((nearly : List (List Tuple)) → map (group_of value) three.now.groups.now
        ≡ map (having (slice_index s.places s.from) value) nearly
        → map pattern_seen found.new.items ≡ map pattern_seen found.old.items
        ++ found_with (values_in s.values) s.places s.from s.begun.now s.fitting.now nearly value) }
{
    let from = search.from;
    let places = search.places;
    let place = places.value(from);
    let next = places.value(from + 1);
    let last = places.value(from + 2);
    let more = longer(search.begun, value);
    let fit = having(alloc, search.fitting, place, value)?;
    let lists = having_each(alloc, three.groups, value)?;
    let mut near = Followers::common(alloc, search.values, &lists, next, last)?;
    near.narrow(three.behind);
    let chosen = PatternSearch {
        values: search.values,
        places,
        from: from + 1,
        begun: more.as_slice(),
        fitting: &fit,
    };
    add_last_two(alloc, &chosen, &near, found)
}

/// Appends to `found` the patterns of a search with two places left.
///
/// `near` has for each value at the first of the two places the values at the second that occur
/// with it in each list of nearly fitting tuples.
fn add_last_two(
    alloc: Global,
    search: &PatternSearch,
    near: &Followers,
    found: &mut Vec<Pattern>,
) -> Result<(), AllocError>
    requires from { search.now.from + 2 ≡ length search.now.places }
    requires begun { length search.now.begun.now ≡ search.now.from }
    ensures { let s = search.now in
        OnOk result ((nearly : List (List Tuple)) → AreAllowed (slice_index s.places s.from)
        (slice_index s.places (s.from + 1)) (values_in s.values) nearly near.now
        → map pattern_seen found.new.items ≡ map pattern_seen found.old.items
        ++ patterns_with s.places s.begun.now (found_at (values_in s.values)
        (drop s.from s.places) s.fitting.now nearly)) }
{
    let places = search.places;
    let place = places.value(search.from);
    let last = places.value(search.from + 1);
    let there = values_at(search.fitting, last);
    let fit = Followers::of(alloc, search.fitting, place, last)?;
    let mut left = intersection(search.values, values_at(search.fitting, place));
    'values: while let Some(next) = split_first(left) {
        let (value, others) = next;
        left = others;
        let more = longer(search.begun, value);
        let lacking = difference(search.values, fit.set(value));
        let missing = intersection(intersection(lacking, there), near.set(value));
        add_last(places, more.as_slice(), missing, found)?;
    }
    Ok(())
}

/// Returns those of `values` that occur at `place` in each list of tuples in `nearly`.
fn missing_at(values: Mask, nearly: &[Vec<Row>], place: u8) -> Mask
    ensures { values_in result
        ≡ filter (occurs_in_each (map vec_items nearly.now) place) (values_in values) }
{
    let mut missing = values;
    for tuples in nearly {
        let fewer = intersection(missing, values_at(tuples, place));
        missing = fewer;
    }
    missing
}

/// Appends to `found`, for each value in `last`, the pattern at `places` with the values `begun`
/// followed by that value.
fn add_last(
    places: Row,
    begun: &[u8],
    last: Mask,
    found: &mut Vec<Pattern>,
) -> Result<(), AllocError>
    requires { length begun.now < 4 }
    ensures { OnOk result (map pattern_seen found.new.items ≡ map pattern_seen found.old.items
        ++ map (λ a. zip places (begun.now ++ a ∷ [])) (values_in last)) }
{
    let mut left = last;
    'values: while let Some(next) = split_first(left) {
        let (value, others) = next;
        left = others;
        let values = longer(begun, value);
        found.push(Pattern { places, values })?;
    }
    Ok(())
}

/// Returns `values` followed by `last` as a row. There may be at most three `values`.
fn longer(values: &[u8], last: u8) -> Row
    requires { length values.now < 4 }
    ensures { result ≡ values.now ++ last ∷ [] }
{
    match values.len() {
        0 => Row::new(&[last]),
        1 => Row::new(&[values[0], last]),
        2 => Row::new(&[values[0], values[1], last]),
        _ => Row::new(&[values[0], values[1], values[2], last]),
    }
}
