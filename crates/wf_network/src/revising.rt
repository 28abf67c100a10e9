//! Support: the candidates of an execution's points that occur in a tuple of its rule all of whose
//! values are candidates.

ghost use Rattle.std.specs.Prelude.{◌≡◌, ◌≢◌, ◌<◌, ◌%◌, ℕ, All, length, map, slice_index, IfSome, IfNone};
ghost use Rattle.std.specs.Bool.{OnFalse, OnTrue};
ghost use Rattle.wf_lane.specs.Table.{AreFirstParts, HasSupported};
ghost use Rattle.wf_network.specs.Problems.{IsNetwork, IsWide, KeepsProcesses, constraints_in, rule_at};
ghost use Rattle.wf_network.specs.Revising.{AreKnown, AreWide, answers_in, found_at, left_of, nibbles_in, parts_in, wide_set, widened};

use crate::memo::{
    CacheEntry, NibbleEntry, Set64Entry, SupportCache, WordEntry, slot_of, slot_of_nibbles,
    slot_of_word,
};
use crate::problem::{Network, Rule};
use wf_base::set::set64::Set64;
use wf_base::set::{Mask, low_set64};
use wf_complex::PackedExecution;

/// Exclusive upper bound of the bit masks of values below 4.
const TINY_LIMIT: u64 = 16;

/// Exclusive upper bound of the bit masks of values below 16.
const SMALL_LIMIT: u64 = 65_536;

/// Returns the candidates of the four points of `execution`. An execution with fewer than four
/// participants repeats its first point.
#[inline]
pub fn candidates_at(execution: PackedExecution, sets: &[Mask]) -> [Mask; 4]
    requires long { length execution.points ≡ 4 }
    requires within { All (λ v. v < length sets.now) execution.points }
    ensures candidates { result ≡ found_at execution sets.now }
    ensures long { length result ≡ 4 }
{
    let [first, second, third, fourth] = execution.points;
    [
        sets[first as usize],
        sets[second as usize],
        sets[third as usize],
        sets[fourth as usize],
    ]
}

/// Packs the four bit masks `parts` into 16 bits, four for each, the first one lowest. Returns
/// `None` unless all values are below 4.
#[inline]
pub fn pack_nibbles(parts: [Set64; 4]) -> Option<u16>
    requires { length parts ≡ 4 }
    ensures parts { IfSome result (λ nibbles. nibbles_in nibbles ≡ parts) }
    ensures none { IfNone result (All (λ part. part < TINY_LIMIT) parts → ⊥) }
{
    if are_below(TINY_LIMIT, parts) {
        Some(nibbles_of(parts))
    } else {
        None
    }
}

/// Packs the four bit masks `parts` into a word, 16 bits for each, the first one lowest. Returns
/// `None` unless all values are below 16.
#[inline]
pub fn pack_word(parts: [Set64; 4]) -> Option<u64>
    requires { length parts ≡ 4 }
    ensures parts { IfSome result (λ word. parts_in word ≡ parts) }
    ensures none { IfNone result (All (λ part. part < SMALL_LIMIT) parts → ⊥) }
{
    if are_below(SMALL_LIMIT, parts) {
        Some(word_of(parts))
    } else {
        None
    }
}

/// Returns the values that the rule with index `rule` supports at each place for `candidates` below
/// 4, four bits for each place. Past the places of the rule, the first place is repeated.
///
/// Results are cached in `memo`, since many executions of a simplex have the same candidates, and
/// have them again and again.
#[inline]
pub fn supported_nibbles(
    rule: u32,
    candidates: u16,
    network: &Network,
    memo: &mut SupportCache,
) -> u16
    requires network { IsNetwork network.now }
    requires rule { rule < length network.now.rules.items }
    requires known { AreKnown (constraints_in network.now) (answers_in memo.old) }
    ensures supported { HasSupported (widened (nibbles_in result))
        (rule_at network.now rule).table (widened (nibbles_in candidates)) }
    ensures known { AreKnown (constraints_in network.now) (answers_in memo.new) }
{
    let lead = network.leads[rule as usize];
    let slot = slot_of_nibbles(lead, candidates, memo.tiny.len());
    if slot < memo.tiny.len() {
        let answer = memo.tiny[slot];
        if answer.candidates == candidates && answer.execution == lead {
            return answer.supported;
        }
    }
    revise_nibbles(rule, slot, candidates, network, memo)
}

/// Computes from the rule's table what the rule supports for `candidates` below 4, and caches the
/// result in the slot `slot`.
#[inline(never)]
fn revise_nibbles(
    rule: u32,
    slot: usize,
    candidates: u16,
    network: &Network,
    memo: &mut SupportCache,
) -> u16
    requires network { IsNetwork network.now }
    requires rule { rule < length network.now.rules.items }
    requires known { AreKnown (constraints_in network.now) (answers_in memo.old) }
    ensures supported { HasSupported (widened (nibbles_in result))
        (rule_at network.now rule).table (widened (nibbles_in candidates)) }
    ensures known { AreKnown (constraints_in network.now) (answers_in memo.new) }
{
    let parts = revised(&network.rules[rule as usize], unpacked_nibbles(candidates));
    let supported = nibbles_of(cut(TINY_LIMIT, parts));
    let execution = network.leads[rule as usize];
    if (execution as usize) < network.execution_count() {
        memo.keep_nibbles(
            slot,
            NibbleEntry {
                execution,
                candidates,
                supported,
            },
        );
    }
    supported
}

/// Returns the values that the rule with index `rule` supports at each place for candidates below
/// 16, which `word` packs, 16 bits for each place. Past the places of the rule, the first place is
/// repeated. Results are cached in `memo`.
#[inline]
pub fn supported_word(rule: u32, word: u64, network: &Network, memo: &mut SupportCache) -> u64
    requires network { IsNetwork network.now }
    requires rule { rule < length network.now.rules.items }
    requires known { AreKnown (constraints_in network.now) (answers_in memo.old) }
    ensures supported { HasSupported (widened (parts_in result))
        (rule_at network.now rule).table (widened (parts_in word)) }
    ensures known { AreKnown (constraints_in network.now) (answers_in memo.new) }
{
    let lead = network.leads[rule as usize];
    let slot = slot_of_word(lead, word, memo.small.len());
    if slot < memo.small.len() {
        let answer = memo.small[slot];
        if answer.candidates == word && answer.execution == lead {
            return answer.supported;
        }
    }
    revise_word(rule, slot, word, network, memo)
}

/// Computes from the rule's table what the rule supports for candidates below 16, which `word`
/// packs, and caches the result in the slot `slot`.
#[inline(never)]
fn revise_word(rule: u32, slot: usize, word: u64, network: &Network, memo: &mut SupportCache) -> u64
    requires network { IsNetwork network.now }
    requires rule { rule < length network.now.rules.items }
    requires known { AreKnown (constraints_in network.now) (answers_in memo.old) }
    ensures supported { HasSupported (widened (parts_in result))
        (rule_at network.now rule).table (widened (parts_in word)) }
    ensures known { AreKnown (constraints_in network.now) (answers_in memo.new) }
{
    let parts = revised(&network.rules[rule as usize], unpacked(word));
    let supported = word_of(cut(SMALL_LIMIT, parts));
    let execution = network.leads[rule as usize];
    if (execution as usize) < network.execution_count() {
        memo.keep_small(
            slot,
            WordEntry {
                execution,
                candidates: word,
                supported,
            },
        );
    }
    supported
}

/// Returns whether each of `parts` is below `limit`.
#[inline]
fn are_below(limit: u64, parts: [Set64; 4]) -> bool
    requires { length parts ≡ 4 }
    ensures below { OnTrue result (All (λ part. part < limit) parts) }
    ensures beyond { OnFalse result (All (λ part. part < limit) parts → ⊥) }
{
    let [a, b, c, d] = parts;
    (a < limit) & (b < limit) & (c < limit) & (d < limit)
}

/// Clears in each of `parts` the bits from `limit` on, which is a power of two.
fn cut(limit: u64, parts: [Set64; 4]) -> [Set64; 4]
    requires { 0 < limit }
    ensures { result ≡ map (λ part. part % limit) parts }
{
    let [a, b, c, d] = parts;
    [a % limit, b % limit, c % limit, d % limit]
}

/// Packs four bit masks below 16 into 16 bits, four for each, the first one lowest.
#[inline]
fn nibbles_of(parts: [Set64; 4]) -> u16
    requires long { length parts ≡ 4 }
    requires below { All (λ part. part < TINY_LIMIT) parts }
    ensures { nibbles_in result ≡ parts }
{
    let [a, b, c, d] = parts;
    (a + TINY_LIMIT * (b + TINY_LIMIT * (c + TINY_LIMIT * d))) as u16
}

/// Packs four bit masks below 65,536 into a word, 16 bits for each, the first one lowest.
#[inline]
fn word_of(parts: [Set64; 4]) -> u64
    requires long { length parts ≡ 4 }
    requires below { All (λ part. part < SMALL_LIMIT) parts }
    ensures { parts_in result ≡ parts }
{
    let [a, b, c, d] = parts;
    a + SMALL_LIMIT * (b + SMALL_LIMIT * (c + SMALL_LIMIT * d))
}

/// Unpacks the four bit masks that [`pack_nibbles`] packed.
pub fn unpacked_nibbles(nibbles: u16) -> [Set64; 4]
    ensures { result ≡ nibbles_in nibbles }
{
    let all = u64::from(nibbles);
    [
        all % TINY_LIMIT,
        all / TINY_LIMIT % TINY_LIMIT,
        all / (TINY_LIMIT * TINY_LIMIT) % TINY_LIMIT,
        all / (TINY_LIMIT * TINY_LIMIT * TINY_LIMIT),
    ]
}

/// Unpacks the four bit masks that [`pack_word`] packed.
pub fn unpacked(word: u64) -> [Set64; 4]
    ensures { result ≡ parts_in word }
{
    [
        word % SMALL_LIMIT,
        word / SMALL_LIMIT % SMALL_LIMIT,
        word / (SMALL_LIMIT * SMALL_LIMIT) % SMALL_LIMIT,
        word / (SMALL_LIMIT * SMALL_LIMIT * SMALL_LIMIT),
    ]
}

/// Returns the values that the rule with index `rule` supports at each place for `candidates` below
/// 64, or `None` if it supports all of them. Past the places of the rule, the first place is
/// repeated. Results are cached in `memo`.
pub fn supported_narrow(
    rule: u32,
    candidates: [Set64; 4],
    network: &Network,
    memo: &mut SupportCache,
) -> Option<[Set64; 4]>
    requires network { IsNetwork network.now }
    requires rule { rule < length network.now.rules.items }
    requires long { length candidates ≡ 4 }
    requires known { AreKnown (constraints_in network.now) (answers_in memo.old) }
    ensures supported { HasSupported (widened (left_of candidates result))
        (rule_at network.now rule).table (widened candidates) }
    ensures long { IfSome result (λ parts. length parts ≡ 4) }
    ensures known { AreKnown (constraints_in network.now) (answers_in memo.new) }
{
    let lead = network.leads[rule as usize];
    let slot = slot_of(lead, candidates, memo.narrow.len());
    if slot < memo.narrow.len()
        && let Some(known) = &memo.narrow[slot]
        && known.candidates == candidates
        && known.execution == lead
    {
        return changed(candidates, known.supported);
    }
    revise_parts(rule, slot, candidates, network, memo)
}

/// Computes from the rule's table what the rule supports for `candidates` below 64, and caches the
/// result in the slot `slot`. Returns `None` if all candidates are supported.
fn revise_parts(
    rule: u32,
    slot: usize,
    candidates: [Set64; 4],
    network: &Network,
    memo: &mut SupportCache,
) -> Option<[Set64; 4]>
    requires network { IsNetwork network.now }
    requires rule { rule < length network.now.rules.items }
    requires long { length candidates ≡ 4 }
    requires known { AreKnown (constraints_in network.now) (answers_in memo.old) }
    ensures supported { HasSupported (widened (left_of candidates result))
        (rule_at network.now rule).table (widened candidates) }
    ensures long { IfSome result (λ parts. length parts ≡ 4) }
    ensures known { AreKnown (constraints_in network.now) (answers_in memo.new) }
{
    let supported = revised(&network.rules[rule as usize], candidates);
    let execution = network.leads[rule as usize];
    if (execution as usize) < network.execution_count() {
        memo.keep_narrow(
            slot,
            Set64Entry {
                execution,
                candidates,
                supported,
            },
        );
    }
    changed(candidates, supported)
}

/// Computes from the table of `rule` the values that it supports at each place for `candidates`
/// below 64. Past the places of the rule, the first place is repeated.
fn revised(rule: &Rule, candidates: [Set64; 4]) -> [Set64; 4]
    requires kept { KeepsProcesses rule.now }
    requires wide { IsWide rule.now }
    requires long { length candidates ≡ 4 }
    ensures supported { HasSupported (widened result) rule.now.table (widened candidates) }
    ensures long { length result ≡ 4 }
{
    let masks = rule.table.revise(widened(candidates)).masks;
    up_to(rule.places(), first_parts(masks))
}

/// Returns `others` if they differ from `parts`.
fn changed(parts: [Set64; 4], others: [Set64; 4]) -> Option<[Set64; 4]>
    ensures parts { left_of parts result ≡ others }
    ensures long { IfSome result (λ parts. length parts ≡ 4) }
{
    if parts == others {
        return None;
    }
    let [a, b, c, d] = others;
    Some([a, b, c, d])
}

/// Returns the values below 64 of each set.
fn first_parts(sets: [Mask; 4]) -> [Set64; 4]
    ensures parts { AreFirstParts result sets }
    ensures long { length result ≡ 4 }
{
    let [a, b, c, d] = sets;
    [low_set64(a), low_set64(b), low_set64(c), low_set64(d)]
}

/// Returns `parts` with the first one repeated from `place` on.
fn up_to(place: u8, parts: [Set64; 4]) -> [Set64; 4]
    requires long { length parts ≡ 4 }
    ensures firsts { (i : ℕ) → i < place → slice_index result i ≡ slice_index parts i }
    ensures long { length result ≡ 4 }
{
    let first = parts[0];
    [
        first,
        part_if(1 < place, parts[1], first),
        part_if(2 < place, parts[2], first),
        part_if(3 < place, parts[3], first),
    ]
}

/// Returns `part` if `test` is true, or else `other`.
fn part_if(test: bool, part: Set64, other: Set64) -> Set64
    ensures { OnTrue test (result ≡ part) }
{
    if test { part } else { other }
}

/// Converts sets of values below 64 to sets of four words each.
fn widened(parts: [Set64; 4]) -> [Mask; 4]
    ensures { result ≡ widened parts }
{
    let [a, b, c, d] = parts;
    [[a, 0, 0, 0], [b, 0, 0, 0], [c, 0, 0, 0], [d, 0, 0, 0]]
}

/// Converts the four sets to one machine word each. Returns `None` unless all values are below 64.
#[inline]
pub fn narrowed(sets: [Mask; 4]) -> Option<[Set64; 4]>
    ensures parts { IfSome result (λ parts. widened parts ≡ sets) }
    ensures none { IfNone result (AreWide sets) }
    ensures long { IfSome result (λ parts. length parts ≡ 4) }
{
    let [a, b, c, d] = sets;
    if is_low(a) & is_low(b) & is_low(c) & is_low(d) {
        Some([a[0], b[0], c[0], d[0]])
    } else {
        None
    }
}

/// Returns whether all values of `set` are below 64.
fn is_low(set: Mask) -> bool
    ensures low { OnTrue result (set ≡ wide_set (slice_index set 0)) }
    ensures wide { OnFalse result ((part : ℕ) → wide_set part ≢ set) }
{
    let [_, b, c, d] = set;
    (b == 0) & (c == 0) & (d == 0)
}

/// Returns the values that the rule with index `rule` supports at each place for `candidates`, of
/// which one is 64 or more. Past the places of the rule the sets are empty. Results are cached in
/// `memo`.
pub fn supported_sets(
    rule: u32,
    candidates: [Mask; 4],
    network: &Network,
    memo: &mut SupportCache,
) -> [Mask; 4]
    requires network { IsNetwork network.now }
    requires rule { rule < length network.now.rules.items }
    requires known { AreKnown (constraints_in network.now) (answers_in memo.old) }
    ensures supported { HasSupported result (rule_at network.now rule).table candidates }
    ensures known { AreKnown (constraints_in network.now) (answers_in memo.new) }
{
    let execution = network.leads[rule as usize];
    let [[a, ..], [b, ..], [c, ..], [d, ..]] = candidates;
    let slot = slot_of(execution, [a, b, c, d], memo.wide.len());
    if slot < memo.wide.len()
        && let Some(answer) = memo.wide[slot]
        && answer.candidates == candidates
        && answer.execution == execution
    {
        return answer.supported;
    }
    let supported = network.rules[rule as usize].table.revise(candidates).masks;
    if (execution as usize) < network.execution_count() {
        memo.keep_wide(
            slot,
            CacheEntry {
                execution,
                candidates,
                supported,
            },
        );
    }
    supported
}
