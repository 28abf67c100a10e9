//! The hash of a clause that depends only on its set of literals.

ghost use Rattle.std.specs.Prelude.{◌≡◌, IfOk};
ghost use Rattle.wf_sat_check.specs.Store.Index.{IsHashOf, finished, hash_of_each, joined, mixed};

use crate::store::alike::see;
use crate::store::trail::Trail;
use std::alloc::AllocError;
use wf_sat_text::drat::Code;

/// The increment of the first generator: the first 64 bits of the golden ratio's fractional part.
const FIRST_STEP: u64 = 0x9e37_79b9_7f4a_7c15;

/// The increment of the second generator: the first 64 bits of the fractional part of √2, made odd.
const SECOND_STEP: u64 = 0x6a09_e667_f3bc_c909;

/// The two multipliers of splitmix64's output function.
const FIRST_FACTOR: u64 = 0xbf58_476d_1ce4_e5b9;

const SECOND_FACTOR: u64 = 0x94d0_49bb_1331_11eb;

/// Returns the hash of `clause` as a set: the order of its literals and their repetition do not
/// matter.
///
/// `seen` is scratch space: what it holds before is discarded.
pub(crate) fn hash_of(seen: &mut Trail, clause: &[Code]) -> Result<u32, AllocError>
    ensures { IfOk result (IsHashOf clause.now) }
{
    see(seen, clause)?;
    Ok(hash_of_distinct(seen.literals()))
}

/// Returns the hash of distinct `literals`. It does not depend on their order.
fn hash_of_distinct(literals: &[Code]) -> u32
    ensures { result ≡ hash_of_each literals.now }
{
    let mut first: u64 = 0;
    let mut second: u64 = 0;
    for literal in literals {
        first = first.wrapping_add(mix(FIRST_STEP, *literal));
        second = second.wrapping_add(mix(SECOND_STEP, *literal));
    }
    join(first, second)
}

/// Returns the term that `literal` adds to a sum of the hash: the output with the index `literal`,
/// from 0, of a splitmix64 generator that starts at 0 and has the increment `step`.
#[inline]
fn mix(step: u64, literal: Code) -> u64
    ensures { result ≡ mixed step literal }
{
    finish((literal as u64 + 1).wrapping_mul(step))
}

/// Combines the two sums of a clause to its hash.
#[inline]
fn join(first: u64, second: u64) -> u32
    ensures { result ≡ joined first second }
{
    (finish(finish(first).wrapping_add(second)) >> 32) as u32
}

/// Returns the output of splitmix64 at the state `state`: its bits are mixed so that each bit of
/// `state` influences the whole result.
#[inline]
fn finish(state: u64) -> u64
    ensures { result ≡ finished state }
{
    let once = (state ^ (state >> 30)).wrapping_mul(FIRST_FACTOR);
    let twice = (once ^ (once >> 27)).wrapping_mul(SECOND_FACTOR);
    twice ^ (twice >> 31)
}
