//! Entries of the table of views.

ghost use Rattle.std.specs.Prelude.{◌≡◌, ◌≤◌, ◌+◌, ◌*◌, true, length, take};
ghost use Rattle.wf_model.specs.Lists.{has};
ghost use Rattle.wf_model.specs.Simplex.{is_ascending};
ghost use Rattle.wf_complex.specs.Table.{base_node, seen_node, hash_writes};
ghost use Rattle.wf_complex.specs.Same.{hashed_alike};
ghost use Rattle.wf_complex.specs.Renaming.{HaveNewNumbers, number_beside, renumbered_node};

use std::hash::{Hash, Hasher};

/// An entry of the table of views: a view, which refers to the views inside it by their ids.
///
/// An input has the count 0, and its value in `ids[0]`. Unused items of `ids` are 0, so that equal
/// views are equal entries.
#[derive(Clone, Copy, PartialEq, Eq)]
pub struct Node {
    pub process: u8,
    pub count: u8,
    pub ids: [u32; 4],
}

impl Node {
    /// Returns the ids of the views inside this one. An input has none.
    pub fn parts(&self) -> &[u32]
        requires { self.now.count ≤ 4 }
        ensures { result.now ≡ take self.now.count self.now.ids }
    {
        &self.ids[..usize::from(self.count)]
    }
}

/// The number of different ids: 2^32.
const NUMBERS: u64 = 1 << 32;

/// Hashes two ids as one number, which is less work. The count is left out: entries with the same
/// ids and process seldom differ in it.
impl Hash for Node {
    ghost hash_input = { hash_writes };

    ghost respects_eq = { hashed_alike };

    fn hash<H: Hasher>(&self, state: &mut H) {
        let [a, b, c, d] = self.ids;
        state.write_u64(u64::from(a) + NUMBERS * u64::from(b));
        state.write_u64(u64::from(c) + NUMBERS * u64::from(d));
        state.write_u8(self.process);
    }
}

/// Returns the entry of `process` with the input `value`.
pub fn input(process: u8, value: u8) -> Node
    ensures { result ≡ base_node process value }
{
    Node {
        process,
        count: 0,
        ids: [u32::from(value), 0, 0, 0],
    }
}

/// Returns the entry of `process` after it saw the views `ids`, of which there are at most four.
pub fn snapshot(process: u8, ids: &[u32]) -> Node
    requires { length ids.now ≤ 4 }
    ensures { result ≡ seen_node process ids.now }
{
    let count = ids.len() as u8;
    let four = match ids {
        [] => [0, 0, 0, 0],
        [a] => [*a, 0, 0, 0],
        [a, b] => [*a, *b, 0, 0],
        [a, b, c] => [*a, *b, *c, 0],
        [a, b, c, d, ..] => [*a, *b, *c, *d],
    };
    Node {
        process,
        count,
        ids: four,
    }
}

/// Returns `node` with `process` as its process, and each id in it replaced: the id `old[i]` by
/// `new[i]`. `old` must ascend, and have each id of `node` at an index below the length of `new`.
pub fn renumber(node: Node, process: u8, old: &[u32], new: &[u32]) -> Node
    requires count { node.count ≤ 4 }
    requires ascending { is_ascending old.now ≡ true }
    requires fewer { length new.now ≤ length old.now }
    requires known { HaveNewNumbers old.now new.now (take node.count node.ids) }
    ensures { result ≡ renumbered_node process (number_beside old.now new.now) node }
{
    let mut ids = node.ids;
    for place in 0..usize::from(node.count) {
        ids[place] = new_id(old, new, ids[place]);
    }
    Node {
        process,
        count: node.count,
        ids,
    }
}

/// Returns `new[i]`, where `old[i]` is `id`. `old` must ascend, and have `id` at an index below the
/// length of `new`.
pub fn new_id(old: &[u32], new: &[u32], id: u32) -> u32
    requires ascending { is_ascending old.now ≡ true }
    requires fewer { length new.now ≤ length old.now }
    requires known { has (take (length new.now) old.now) id ≡ true }
    ensures { result ≡ number_beside old.now new.now id }
{
    match old[..new.len()].binary_search(&id) {
        Ok(place) => new[place],
        Err(_) => unreachable!(),
    }
}
