//! The views after one more round of immediate snapshot, by their ids.

ghost use Rattle.std.specs.Prelude.{◌≡◌, ◌<◌, ◌≤◌, ◌+◌, ◌++◌, length, take, flat_map, slice_index, get_or, slice_get, Some, All, IfOk, OnOk};
ghost use Rattle.wf_model.specs.Limits.{most_number, most_processes};
ghost use Rattle.wf_model.specs.View.{base, round, base_views};
ghost use Rattle.wf_complex.specs.Rounds.{views_at, picked, places_seen, numbers_in, only_if, words_in, IsSight, IsSightOf, AreSights, IsRound, AreKnown, Extends, AreViews, leaves, cost, leaves_of, cost_of_each};

use crate::views::Views;
use std::alloc::{AllocError, Global};
use wf_simplex::{Simplex, Word, allowed_count};

/// The number of cache slots for each participant: one for each set of places that it may see.
const ANSWERS: usize = 16;

/// A list of at most four view ids.
#[derive(Clone, Copy)]
struct Ids {
    count: usize,
    ids: [u32; 4],
}

impl Ids {
    /// Appends `id` if `wanted` is `true`.
    fn push_if(&mut self, wanted: bool, id: u32)
        requires { self.old.count < 4 }
        ensures count { self.new.count ≤ self.old.count + 1 }
        ensures ids { numbers_in self.new ≡ numbers_in self.old ++ only_if wanted id }
    {
        if wanted {
            self.ids[self.count] = id;
            self.count += 1;
        }
    }
}

/// A word, and for each participant whom it sees: bit `j` of `seen[i]` is set if the participant at
/// place `i` sees the one at place `j`.
#[derive(Clone, Copy)]
struct ImmediateSnapshot {
    word: Word,
    seen: [u8; 4],
}

/// The sights of all words of one size that the task allows.
#[derive(Drop)]
struct Round {
    // the number of participants, or 0 if no sights were made yet
    size: u8,
    sights: Vec<ImmediateSnapshot>,
}

impl Round {
    /// Replaces the sights by those of `size` participants whose first block has at least
    /// `first_block` of them, or all if there are fewer. If they are of that size already, they are
    /// kept.
    ///
    /// Simplices come by ascending size, so the sights of each size are made once.
    fn make(&mut self, alloc: Global, size: u8, first_block: u8) -> Result<(), AllocError>
        requires some { 1 ≤ size }
        requires few { size ≤ 4 }
        requires one { 1 ≤ first_block }
        requires most { first_block ≤ most_processes }
        requires made { IsRound first_block self.old }
        ensures made { OnOk result (IsRound first_block self.new) }
        ensures size { OnOk result (self.new.size ≡ size) }
    {
        if self.size != size {
            self.sights = sights_of(alloc, size, first_block)?;
            self.size = size;
        }
        Ok(())
    }
}

/// Returns the sights of `size` participants whose first block has at least `first_block` of them,
/// or all if there are fewer, in the order of their words.
fn sights_of(alloc: Global, size: u8, first_block: u8) -> Result<Vec<ImmediateSnapshot>, AllocError>
    requires some { 1 ≤ size }
    requires few { size ≤ 4 }
    requires one { 1 ≤ first_block }
    requires most { first_block ≤ most_processes }
    ensures { IfOk result (λ all. AreSights first_block size all.items) }
{
    let count = allowed_count(size, first_block);
    let mut all = Vec::with_capacity(alloc, count as usize)?;
    let mut word = Word::first_allowed(size, first_block);
    for turn in 0..count {
        all.push(sight_of(word))?;
        word.next_allowed(first_block);
    }
    Ok(all)
}

/// Returns `word` with whom each of its participants sees.
fn sight_of(word: Word) -> ImmediateSnapshot
    ensures word { result.word ≡ word }
    ensures seen { IsSight result }
{
    let mut seen = [0u8; 4];
    for i in 0..word.size() {
        seen[i as usize] = places_seen(&word, i);
    }
    ImmediateSnapshot { word, seen }
}

/// Returns the places that participant `i` of `word` sees: bit `j` is set if it sees participant
/// `j`.
fn places_seen(word: &Word, i: u8) -> u8
    requires place { i < length word.now }
    ensures places { result ≡ places_seen (slice_index word.now i) word.now }
{
    let size = word.size();
    let mut places = 0u8;
    for later in 0..size {
        let bit = if word.sees(i, size - 1 - later) { 1 } else { 0 };
        places = bit + 2 * places;
    }
    places
}

/// Returns the items of `current` at the indices whose bits are set in `places`.
fn picked(current: &[u32], places: u8) -> Ids
    requires few { length current.now ≤ 4 }
    ensures count { result.count ≤ 4 }
    ensures ids { numbers_in result ≡ picked places current.now }
{
    let mut seen = Ids {
        count: 0,
        ids: [0; 4],
    };
    let mut rest = places;
    for j in 0..current.len() {
        seen.push_if(rest % 2 == 1, current[j]);
        rest /= 2;
    }
    seen
}

/// Returns the ids of the views of the input `simplex` before the first round, by ascending
/// process.
///
/// # Errors
///
/// Returns `AllocError` if memory runs out; all views in the table keep their ids.
fn first_views(views: &mut Views, simplex: &Simplex) -> Result<[u32; 4], AllocError>
    requires room { length views.old + 4 ≤ most_number }
    ensures extends { Extends views.old views.new }
    ensures few { length views.new ≤ length views.old + length simplex.now }
    ensures views { IfOk result (λ ids. AreViews views.new (take (length simplex.now) ids)
        × (views_at views.new (take (length simplex.now) ids) ≡ base_views simplex.now)) }
{
    let mut ids = [0u32; 4];
    for place in 0..simplex.colours() {
        let process = simplex.colour(place);
        let Some(value) = simplex.value(process) else {
            unreachable!()
        };
        ids[place as usize] = views.base(process, value)?;
    }
    Ok(ids)
}

/// Returns the id of the view that the participant at place `i` has after one more round.
///
/// The view depends only on `i` and on the places that `i` sees, so it is looked up once and cached
/// in `known`, at index `16 * i` plus the bits of these places.
///
/// # Errors
///
/// Returns `AllocError` if memory runs out; all views in the table keep their ids.
fn next_view(
    views: &mut Views,
    known: &mut [Option<u32>],
    current: &[u32],
    sight: &ImmediateSnapshot,
    i: u8,
) -> Result<u32, AllocError>
    requires long { length current.now ≡ length sight.now.word }
    requires few { length current.now ≤ 4 }
    requires place { i < length current.now }
    requires views { AreViews views.old current.now }
    requires sight { IsSight sight.now }
    requires known { AreKnown views.old (views_at views.old current.now) known.old }
    requires room { length views.old < most_number }
    ensures extends { Extends views.old views.new }
    ensures few { length views.new ≤ length views.old + 1 }
    ensures known { AreKnown views.new (views_at views.old current.now) known.new }
    ensures stands { IfOk result (λ n. slice_get views.new n
        ≡ Some (get_or (round (views_at views.old current.now) sight.now.word) i (base 0 0))) }
{
    let places = sight.seen[i as usize];
    let answer = ANSWERS * i as usize + places as usize;
    if let Some(id) = known[answer] {
        return Ok(id);
    }
    let seen = picked(current, places);
    let process = views.colour(current[i as usize]);
    let id = views.seen(process, &seen.ids[..seen.count])?;
    known[answer] = Some(id);
    Ok(id)
}

/// Returns the ids of the views after one more round, by ascending process. `current` are the ids
/// before it, `sight` is what happens in it, and `known` is the cache of [`next_view`]. New views
/// get the next ids.
///
/// # Errors
///
/// Returns `AllocError` if memory runs out; all views in the table keep their ids.
fn next_views(
    views: &mut Views,
    known: &mut [Option<u32>],
    current: &[u32],
    sight: &ImmediateSnapshot,
) -> Result<[u32; 4], AllocError>
    requires long { length current.now ≡ length sight.now.word }
    requires views { AreViews views.old current.now }
    requires sight { IsSight sight.now }
    requires known { AreKnown views.old (views_at views.old current.now) known.old }
    requires room { length views.old + 4 ≤ most_number }
    ensures extends { Extends views.old views.new }
    ensures few { length views.new ≤ length views.old + length current.now }
    ensures known { AreKnown views.new (views_at views.old current.now) known.new }
    ensures views { IfOk result (λ ids. AreViews views.new (take (length current.now) ids)
        × (views_at views.new (take (length current.now) ids)
        ≡ round (views_at views.old current.now) sight.now.word)) }
{
    let mut next = [0u32; 4];
    for i in 0..sight.word.size() {
        next[i as usize] = next_view(views, known, current, sight, i)?;
    }
    Ok(next)
}

/// Appends to `lasts` the last views of all executions that go on from the views `current` for
/// `rounds` rounds, each of which is one of `sights`. It goes depth first, so the executions come
/// in order.
///
/// # Errors
///
/// Returns `AllocError` if memory runs out; all views in the table keep their ids.
fn walk(
    views: &mut Views,
    lasts: &mut Vec<u32>,
    current: &[u32],
    sights: &[ImmediateSnapshot],
    rounds: u32,
) -> Result<(), AllocError>
    requires few { length current.now ≤ most_processes }
    requires sights { All (IsSightOf (length current.now)) sights.now }
    requires views { AreViews views.old current.now }
    requires lasts { All (λ k. k < length views.old) lasts.old.items }
    requires room { length views.old + cost (length sights.now) (length current.now) rounds + 4
        ≤ most_number }
    ensures extends { Extends views.old views.new }
    ensures added { length views.new
        ≤ length views.old + cost (length sights.now) (length current.now) rounds }
    ensures within { OnOk result (All (λ k. k < length views.new) lasts.new.items) }
    ensures made { OnOk result (views_at views.new lasts.new.items
        ≡ views_at views.old lasts.old.items
        ++ leaves (words_in sights.now) rounds (views_at views.old current.now)) }
{
    if rounds == 0 {
        lasts.extend_from_slice(current)?;
        return Ok(());
    }
    let mut known = [None; 4 * ANSWERS];
    for sight in sights {
        let next = next_views(views, &mut known, current, sight)?;
        walk(views, lasts, &next[..current.len()], sights, rounds - 1)?;
    }
    Ok(())
}

/// The rounds for which executions are made.
#[derive(Clone, Copy)]
pub(crate) struct RoundPlan {
    /// The least number of participants in the first block of a round. A round with fewer
    /// participants has all of them in that block.
    pub first_block: u8,
    /// The number of rounds.
    pub rounds: u32,
}

/// Returns the last views of all executions on `simplices` by `plan`, one after another: simplex by
/// simplex, execution by execution, and by ascending process. `room` is the capacity with which the
/// list is created.
pub(crate) fn last_views(
    alloc: Global,
    views: &mut Views,
    simplices: &[Simplex],
    plan: RoundPlan,
    room: usize,
) -> Result<Vec<u32>, AllocError>
    requires one { 1 ≤ plan.first_block }
    requires most { plan.first_block ≤ most_processes }
    requires room { length views.old + cost_of_each plan.first_block plan.rounds simplices.now + 4
        ≤ most_number }
    ensures extends { Extends views.old views.new }
    ensures added { OnOk result (length views.new
        ≤ length views.old + cost_of_each plan.first_block plan.rounds simplices.now) }
    ensures within { IfOk result (λ lasts. All (λ k. k < length views.new) lasts.items) }
    ensures made { IfOk result (λ lasts. views_at views.new lasts.items
        ≡ flat_map (leaves_of plan.first_block plan.rounds) simplices.now) }
{
    let mut lasts = Vec::with_capacity(alloc, room)?;
    let mut round = Round {
        size: 0,
        sights: Vec::new(alloc),
    };
    for simplex in simplices {
        let first = first_views(views, simplex)?;
        let size = simplex.colours();
        round.make(alloc, size, plan.first_block)?;
        walk(
            views,
            &mut lasts,
            &first[..size as usize],
            &round.sights,
            plan.rounds,
        )?;
    }
    Ok(lasts)
}
