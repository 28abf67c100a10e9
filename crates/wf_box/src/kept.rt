//! The candidate sets of a [`Snapshot`](crate::Snapshot), in as few bytes as they need.

ghost use Rattle.std.specs.Prelude.{◌≡◌, map, not, true, IfOk};
ghost use Rattle.wf_model.specs.Box.{first_open};
ghost use Rattle.wf_base.specs.Set.Parts.{part_values};
ghost use Rattle.wf_base.specs.Set.Sets.{box_of, values_in};
ghost use Rattle.wf_box.specs.Kept.{IsTight, are_bytes, are_narrow, box_kept, is_narrow, is_wide, low_values};

use std::alloc::{AllocError, Global};
use wf_base::set::set64::{self, Set64};
use wf_base::set::{Mask, from_set64, low_set64};
use wf_lane::first_open;

/// Largest bit mask of a set whose values are all below 8.
const MAX_OF_A_BYTE: Set64 = 255;

/// A candidate set for each point, all of the same size in memory.
#[derive(Drop)]
pub(crate) enum KeptSets {
    /// Sets of values below 8, one byte each.
    Bytes(Vec<u8>),
    /// Sets of values below 64, one machine word each.
    Narrow(Vec<Set64>),
    /// Sets of which one has a value of 64 or more, four machine words each.
    Wide(Vec<Mask>),
}

impl KeptSets {
    /// Copies `sets` in the smallest of the three forms that holds them all.
    pub(crate) fn of(alloc: Global, sets: &[Mask]) -> Result<KeptSets, AllocError>
        ensures sets { IfOk result (λ kept. box_kept kept ≡ box_of sets.now) }
        ensures wide { IfOk result (λ kept. is_wide kept ≡ not (are_narrow (box_of sets.now))) }
        ensures tight { IfOk result IsTight }
    {
        if !are_narrow(sets) {
            return Ok(KeptSets::Wide(sets.to_vec(alloc)?));
        }
        let parts = narrow(alloc, sets)?;
        if are_bytes(&parts) {
            Ok(KeptSets::Bytes(to_bytes(alloc, &parts)?))
        } else {
            Ok(KeptSets::Narrow(parts))
        }
    }

    /// Copies the sets to the form of a box, with four machine words each.
    pub(crate) fn to_sets(&self, alloc: Global) -> Result<Vec<Mask>, AllocError>
        ensures { IfOk result (λ sets. box_of sets.items ≡ box_kept self.now) }
    {
        match self {
            KeptSets::Bytes(bytes) => widen_bytes(alloc, bytes),
            KeptSets::Narrow(parts) => widen(alloc, parts),
            KeptSets::Wide(sets) => sets.as_slice().to_vec(alloc),
        }
    }

    /// Returns the index of the first set with two values or more.
    pub(crate) fn first_open(&self) -> Option<usize>
        ensures { result ≡ first_open (box_kept self.now) }
    {
        match self {
            KeptSets::Bytes(bytes) => first_open_byte(bytes),
            KeptSets::Narrow(parts) => first_open_part(parts),
            KeptSets::Wide(sets) => first_open(sets),
        }
    }
}

/// Returns whether each value of each set is below 64.
fn are_narrow(sets: &[Mask]) -> bool
    ensures { result ≡ are_narrow (box_of sets.now) }
{
    for set in sets {
        if !is_narrow(*set) {
            return false;
        }
    }
    true
}

/// Returns whether each value of the set is below 64.
fn is_narrow(set: Mask) -> bool
    ensures { result ≡ is_narrow (values_in set) }
{
    let [_, b, c, d] = set;
    set64::is_empty(b) & set64::is_empty(c) & set64::is_empty(d)
}

/// Returns the values below 64 of each set.
fn narrow(alloc: Global, sets: &[Mask]) -> Result<Vec<Set64>, AllocError>
    ensures { IfOk result (λ parts. map part_values parts.items ≡ low_values (box_of sets.now)) }
{
    let mut parts = Vec::with_capacity(alloc, sets.len())?;
    for set in sets {
        parts.push_reserved(low_set64(*set));
    }
    Ok(parts)
}

/// Converts sets of one machine word to sets of four.
fn widen(alloc: Global, parts: &[Set64]) -> Result<Vec<Mask>, AllocError>
    ensures { IfOk result (λ sets. box_of sets.items ≡ map part_values parts.now) }
{
    let mut sets = Vec::with_capacity(alloc, parts.len())?;
    for part in parts {
        sets.push_reserved(from_set64(*part));
    }
    Ok(sets)
}

/// Returns whether all values of all `parts` are below 8, so that each part fits a byte.
fn are_bytes(parts: &[Set64]) -> bool
    ensures { result ≡ are_bytes parts.now }
{
    for part in parts {
        if *part > MAX_OF_A_BYTE {
            return false;
        }
    }
    true
}

/// Converts `parts` to one byte each. All their values must be below 8.
fn to_bytes(alloc: Global, parts: &[Set64]) -> Result<Vec<u8>, AllocError>
    requires { are_bytes parts.now ≡ true }
    ensures { IfOk result (λ bytes. bytes.items ≡ parts.now) }
{
    let mut bytes = Vec::with_capacity(alloc, parts.len())?;
    for part in parts {
        bytes.push_reserved(*part as u8);
    }
    Ok(bytes)
}

/// Converts sets of one byte to sets of four machine words.
fn widen_bytes(alloc: Global, bytes: &[u8]) -> Result<Vec<Mask>, AllocError>
    ensures { IfOk result (λ sets. box_of sets.items ≡ map part_values bytes.now) }
{
    let mut sets = Vec::with_capacity(alloc, bytes.len())?;
    for byte in bytes {
        sets.push_reserved(from_set64(u64::from(*byte)));
    }
    Ok(sets)
}

/// Returns the index of the first part with two values or more, or `None` if each has at most one.
fn first_open_part(parts: &[Set64]) -> Option<usize>
    ensures { result ≡ first_open (map part_values parts.now) }
{
    for i in 0..parts.len() {
        if set64::count(parts[i]) > 1 {
            return Some(i);
        }
    }
    None
}

/// Returns the index of the first byte with two values or more, or `None` if each has at most one.
fn first_open_byte(bytes: &[u8]) -> Option<usize>
    ensures { result ≡ first_open (map part_values bytes.now) }
{
    for i in 0..bytes.len() {
        if set64::count(u64::from(bytes[i])) > 1 {
            return Some(i);
        }
    }
    None
}
