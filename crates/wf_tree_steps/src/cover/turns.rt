//! The moves of a cover, found by the places and values that they join.

ghost use Rattle.std.specs.Prelude.{◌≡◌, ◌==◌, ◌≤◌, ℕ, IfOk, Some, if◌then◌else◌};
ghost use Rattle.std.specs.BTreeMap.{get};
ghost use Rattle.std.specs.Ordering.{nat_cmp};
ghost use Rattle.wf_tree_steps.specs.Cover.Turns.{AreTurns, turn_key};

use crate::cover::cover::Move;
use std::alloc::{AllocError, Global};
use std::collections::BTreeMap;

/// The index of a move, and whether it is used backwards, from its second place to its first.
pub(crate) type DirectedMove = (usize, bool);

/// Returns the key of the pair of places `first` and `second` with the values `value` and `other`.
pub(crate) fn move_key(first: u8, value: u8, second: u8, other: u8) -> u32
    ensures key { result ≡ turn_key first value second other }
    ensures value { value ≤ 255 }
    ensures second { second ≤ 255 }
    ensures other { other ≤ 255 }
{
    let from = u32::from(first) * 256 + u32::from(value);
    (from * 256 + u32::from(second)) * 256 + u32::from(other)
}

/// Indexes `moves` by key. Each move has a key for each direction; if several moves have the same
/// key, the first one counts.
pub(crate) fn index_moves(
    alloc: Global,
    moves: &[Move],
) -> Result<BTreeMap<u32, DirectedMove>, AllocError>
    ensures { IfOk result (λ turns. AreTurns moves.now (get nat_cmp turns)) }
{
    let mut turns = BTreeMap::new(alloc);
    'moves: for number in (0..moves.len()).rev() {
        let way = &moves[number];
        let back = move_key(way.second, way.other, way.first, way.value);
        put(&mut turns, back, (number, true))?;
        let forth = move_key(way.first, way.value, way.second, way.other);
        put(&mut turns, forth, (number, false))?;
    }
    Ok(turns)
}

/// Stores `turn` under `key`, and replaces the entry that was there.
fn put(
    turns: &mut BTreeMap<u32, DirectedMove>,
    key: u32,
    turn: DirectedMove,
) -> Result<(), AllocError>
    ensures { IfOk result (λ done. (q : ℕ) → get nat_cmp turns.new q
        ≡ (if key == q then Some turn else get nat_cmp turns.old q)) }
{
    turns.insert(key, turn)?;
    Ok(())
}
