//! The table of views.

ghost use Rattle.std.specs.Prelude.{◌≡◌, ◌==◌, ◌&&◌, nat_lt, slice_index, ◌<◌, ◌≤◌, ◌^◌, bit_or, true, [], ◌+◌, length, take, All, map, is_ok, OnOk, IfOk, IfSome, Some, slice_get};
ghost use Rattle.std.specs.BTreeSet.{insert_key};
ghost use Rattle.std.specs.List.{fold};
ghost use Rattle.std.specs.Ordering.{nat_cmp};
ghost use Rattle.wf_model.specs.Lists.{has, distinct};
ghost use Rattle.wf_model.specs.Limits.{most_number};
ghost use Rattle.wf_model.specs.Simplex.{is_ascending};
ghost use Rattle.wf_model.specs.View.{base, process_of, same_view, normal};
ghost use Rattle.wf_model.specs.Problem.{number_of};
ghost use Rattle.wf_complex.specs.Views.{view_at, view_seen, processes_at, with_view_if, input_of, inner_views, process_bits, count_within, GrowsByAtMost};
ghost use Rattle.wf_complex.specs.Table.{StandsAt, process_bits_at};
ghost use Rattle.wf_complex.specs.Renaming.{rank_in, are_lowest, renamed_at, SawAmong, AreInside, AreRenamed};

use crate::node::{Node, input, new_id, renumber, snapshot};
use indexmap::IndexSet;
use std::alloc::{AllocError, Global};
use std::marker::Model;

/// A table of views, in which each view occurs once. The id of a view is its index, from 0.
/// Contracts see the table as the list of its views.
///
/// An id is never changed or removed.
#[derive(Drop)]
pub struct Views {
    // the entries of the views, in the order of their ids
    nodes: IndexSet<Node>,
    // for each view the set of the processes that occur in it
    bits: Vec<u8>,
    // a cache of ids, by `slot_of` their entries: an item may be the id of another entry, and is
    // compared before use
    recent: [u32; RECENT],
}

/// The number of slots in the cache of recently used ids.
const RECENT: usize = 256;

/// The initial capacity of a list of the views inside a view.
const ROOM: usize = 16;

impl Model for Views {
    ghost use Rattle.std.specs.Prelude.{List};
    ghost use Rattle.wf_model.specs.View.{View};
    ghost use Rattle.wf_model.specs.ViewCode.{view_list_code};
    ghost use Rattle.wf_complex.specs.Table.{shown, IsTable};

    ghost Value = { List View };

    ghost coded = { view_list_code };

    ghost view = { λ t. shown t.nodes.keys };

    ghost invariant = { λ t. IsTable t.nodes.keys t.bits.items };
}

impl Views {
    ghost use Rattle.wf_complex.specs.Table.{IsEntry, node_view};

    /// Creates an empty table. It does not allocate; later calls allocate from `alloc`.
    pub fn start(alloc: Global) -> Views
        ensures { result ≡ [] }
    {
        Views {
            nodes: IndexSet::new(alloc),
            bits: Vec::new(alloc),
            recent: [0; RECENT],
        }
    }

    /// Returns the number of views in the table.
    pub fn len(&self) -> u32
        ensures count { result ≡ length self.now }
        ensures once { distinct same_view self.now ≡ self.now }
    {
        self.nodes.len() as u32
    }

    /// Returns the id of the view of `process` before the first round, when it knows only its input
    /// `value`. A new view gets the next id.
    ///
    /// # Errors
    ///
    /// Returns `AllocError` if memory runs out; the table is then unchanged.
    pub fn base(&mut self, process: u8, value: u8) -> Result<u32, AllocError>
        requires process { process ≤ 3 }
        requires room { length self.old < most_number }
        ensures table { self.new ≡ with_view_if (is_ok result) self.old (base process value) }
        ensures number { IfOk result (λ n. n ≡ number_of self.new (base process value)) }
        ensures stands { IfOk result (λ n. slice_get self.new n ≡ Some (base process value)) }
    {
        self.number(input(process, value))
    }

    /// Returns the id of the view of `process` after it saw the views `parts`. These are given by
    /// their ids, in ascending order of their processes, and a view of `process` must be among
    /// them. A new view gets the next id.
    ///
    /// # Errors
    ///
    /// Returns `AllocError` if memory runs out; the table is then unchanged.
    pub fn seen(&mut self, process: u8, parts: &[u32]) -> Result<u32, AllocError>
        requires process { process ≤ 3 }
        requires numbers { All (λ k. k < length self.old) parts.now }
        requires ascending { is_ascending (processes_at self.old parts.now) ≡ true }
        requires own { has (processes_at self.old parts.now) process ≡ true }
        requires room { length self.old < most_number }
        ensures table { self.new
            ≡ with_view_if (is_ok result) self.old (view_seen self.old process parts.now) }
        ensures number { IfOk result
            (λ n. n ≡ number_of self.new (view_seen self.old process parts.now)) }
        ensures stands { IfOk result
            (λ n. slice_get self.new n ≡ Some (view_seen self.old process parts.now)) }
    {
        // needed by the proof only: it makes known that at most four processes have views
        let _ = &self.nodes;
        self.number(snapshot(process, parts))
    }

    /// Returns the process of the view `id`.
    pub fn colour(&self, id: u32) -> u8
        requires { id < length self.now }
        ensures process { result ≡ process_of (view_at self.now id) }
    {
        self.entry(id).process
    }

    /// Returns the input value of the view `id`, or `None` if it is not an input but a view of a
    /// process that saw views.
    pub fn input(&self, id: u32) -> Option<u8>
        requires { id < length self.now }
        ensures value { result ≡ input_of (view_at self.now id) }
    {
        let node = self.entry(id);
        if node.count == 0 {
            Some(node.ids[0] as u8)
        } else {
            None
        }
    }

    /// Returns the set of the processes that occur in the view `id` at any depth: bit `p` is set if
    /// process `p` does.
    pub fn colours_in(&self, id: u32) -> u8
        requires { id < length self.now }
        ensures bits { result ≡ process_bits (view_at self.now id) }
    {
        self.bits[id as usize]
    }

    /// Returns the ids of the views that the view `id` saw, in ascending order of their processes.
    /// An input saw none.
    pub fn parts(&self, id: u32) -> &[u32]
        requires { id < length self.now }
        ensures views { map (view_at self.now) result.now ≡ inner_views (view_at self.now id) }
        ensures earlier { All (λ k. k < id) result.now }
    {
        self.entry(id).parts()
    }

    /// Returns the id of the view `id` with each process replaced, at every depth, by its rank
    /// among the processes that occur in the view.
    ///
    /// If these are the processes from 0 on without a gap, then it is the view itself, which is
    /// detected at once. Otherwise the views inside it are renamed in the same way, and at most one
    /// new view is added for each different view inside and for the view itself.
    ///
    /// # Errors
    ///
    /// Returns `AllocError` if memory runs out. All views then keep their ids, and some of the new
    /// views may have been added.
    pub fn normal(&mut self, id: u32) -> Result<u32, AllocError>
        requires id { id < length self.old }
        requires room { length self.old + count_within (view_at self.old id) ≤ most_number }
        ensures grows { GrowsByAtMost (count_within (view_at self.old id)) self.old self.new }
        ensures number { IfOk result
            (λ n. n ≡ number_of self.new (normal (view_at self.old id))) }
        ensures stands { IfOk result
            (λ n. slice_get self.new n ≡ Some (normal (view_at self.old id))) }
    {
        let alloc = *self.nodes.allocator();
        let processes = self.colours_in(id);
        if has_no_gap(processes) {
            return Ok(id);
        }
        let inside = self.inside(id)?;
        let mut numbers = Vec::with_capacity(alloc, inside.len())?;
        for old in &inside {
            let number = self.put_renamed(*old, processes, &inside, &numbers)?;
            numbers.push(number)?;
        }
        Ok(new_id(&inside, &numbers, id))
    }

    /// Returns the ids of the view `id` and of all views inside it, in ascending order.
    fn inside(&self, id: u32) -> Result<Vec<u32>, AllocError>
        requires { id < length self.now }
        ensures { IfOk result (λ ids. AreInside self.now id ids.items) }
    {
        let mut open = Vec::with_capacity(*self.nodes.allocator(), ROOM)?;
        let mut inside = Vec::with_capacity(*self.nodes.allocator(), ROOM)?;
        open.push_reserved(id);
        while let Some(greatest) = open.pop() {
            inside.push(greatest)?;
            put_all(&mut open, self.parts(greatest))?;
        }
        inside.reverse();
        Ok(inside)
    }

    /// Returns the id of the view `id` with its processes replaced by their ranks in the set
    /// `processes`. The views inside it must have been renamed before: `new[i]` is the id of the
    /// renamed view `old[i]`.
    fn put_renamed(
        &mut self,
        id: u32,
        processes: u8,
        old: &[u32],
        new: &[u32],
    ) -> Result<u32, AllocError>
        requires id { id < length self.old }
        requires room { length self.old < most_number }
        requires ascending { is_ascending old.now ≡ true }
        requires numbers { All (λ k. k < length self.old) old.now }
        requires fewer { length new.now ≤ length old.now }
        requires parts { SawAmong self.old id (take (length new.now) old.now) }
        requires renamed { AreRenamed self.old (rank_in processes) old.now new.now }
        ensures table { self.new
            ≡ with_view_if (is_ok result) self.old (renamed_at self.old (rank_in processes) id) }
        ensures number { IfOk result
            (λ n. n ≡ number_of self.new (renamed_at self.old (rank_in processes) id)) }
        ensures stands { IfOk result
            (λ n. slice_get self.new n ≡ Some (renamed_at self.old (rank_in processes) id)) }
    {
        let node = self.nodes[id as usize];
        self.number(renumber(node, rank(processes, node.process), old, new))
    }

    /// Returns the entry of the view `id`.
    fn entry(&self, id: u32) -> &Node
        requires { id < length self.now }
        ensures entry { IsEntry id result.now }
        ensures view { node_view self.now result.now ≡ view_at self.now id }
    {
        &self.nodes[id as usize]
    }

    /// Returns the id of an entry's view. A new view gets the next id. The cache of recent ids is
    /// tried before the hash table.
    fn number(&mut self, node: Node) -> Result<u32, AllocError>
        requires room { length self.old < most_number }
        requires entry { IsEntry (length self.old) node }
        ensures table { self.new ≡ with_view_if (is_ok result) self.old (node_view self.old node) }
        ensures number { IfOk result (λ n. n ≡ number_of self.new (node_view self.old node)) }
        ensures stands { IfOk result (λ n. slice_get self.new n ≡ Some (node_view self.old node)) }
    {
        let slot = slot_of(node);
        if let Some(number) = recent_number(self.nodes.as_slice(), self.recent[slot], node) {
            return Ok(number);
        }
        let number = self.number_by_hash(node)?;
        self.recent[slot] = number;
        Ok(number)
    }

    /// Returns the id of an entry's view by the hash table, for which the entry is hashed once. A
    /// new view gets the next id.
    fn number_by_hash(&mut self, node: Node) -> Result<u32, AllocError>
        requires room { length self.old < most_number }
        requires entry { IsEntry (length self.old) node }
        ensures table { self.new ≡ with_view_if (is_ok result) self.old (node_view self.old node) }
        ensures number { IfOk result (λ n. n ≡ number_of self.new (node_view self.old node)) }
        ensures stands { IfOk result (λ n. slice_get self.new n ≡ Some (node_view self.old node)) }
    {
        self.bits.reserve(1)?;
        let (place, is_new) = self.nodes.insert_full(node)?;
        let number = place as u32;
        if !is_new {
            return Ok(number);
        }
        let bits = process_bits_seen(&self.bits, node.process, node.parts());
        self.bits.push_reserved(bits);
        Ok(number)
    }
}

/// Returns `number` if `node` is the entry with that id.
fn recent_number(nodes: &[Node], number: u32, node: Node) -> Option<u32>
    ensures { IfSome result (λ n. StandsAt nodes.now n node) }
{
    let place = number as usize;
    if place < nodes.len() && nodes[place] == node {
        Some(number)
    } else {
        None
    }
}

/// Returns the slot of `node` in the cache of recent ids.
fn slot_of(node: Node) -> usize
    ensures { result < 256 }
{
    let [a, b, c, d] = node.ids;
    let seen = a
        .wrapping_add(b.wrapping_mul(3))
        .wrapping_add(c.wrapping_mul(5))
        .wrapping_add(d.wrapping_mul(7));
    let mixed = seen
        .wrapping_add(16 * u32::from(node.process))
        .wrapping_mul(0x9e37_79b1);
    (mixed >> 20) as usize % RECENT
}

/// Returns the set of the processes that occur in the view of `process` after it saw the views
/// `ids`. `bits` has these sets for the views so far.
fn process_bits_seen(bits: &[u8], process: u8, ids: &[u32]) -> u8
    requires process { process ≤ 3 }
    requires numbers { All (λ k. k < length bits.now) ids.now }
    ensures { result ≡ bit_or (2 ^ process) (process_bits_at bits.now ids.now) }
{
    let mut all = 1u8 << process;
    for id in ids {
        all |= bits[*id as usize];
    }
    all
}

/// Inserts `numbers` into `among`, which ascends and keeps each number once.
///
/// `among` is searched from its front, since it is short: the views inside a view of an execution
/// are at most four for each round.
fn put_all(among: &mut Vec<u32>, numbers: &[u32]) -> Result<(), AllocError>
    ensures { OnOk result
        (among.new.items ≡ fold (insert_key nat_cmp) among.old.items numbers.now) }
{
    for number in numbers {
        put(among, *number)?;
    }
    Ok(())
}

/// Inserts `number` into `among`, which ascends, unless it is there already.
fn put(among: &mut Vec<u32>, number: u32) -> Result<(), AllocError>
    ensures { OnOk result (among.new.items ≡ insert_key nat_cmp among.old.items number) }
{
    let place = place_of(among, number);
    if stands_at(among, place, number) {
        return Ok(());
    }
    among.insert(place, number)?;
    Ok(())
}

/// Returns the index of the first of `numbers` that is at least `number`, or their count if there
/// is none.
fn place_of(numbers: &[u32], number: u32) -> usize
    ensures within { result ≤ length numbers.now }
    ensures lower { All (λ n. n < number) (take result numbers.now) }
    ensures first { result < length numbers.now → number ≤ slice_index numbers.now result }
{
    for place in 0..numbers.len() {
        if numbers[place] >= number {
            return place;
        }
    }
    numbers.len()
}

/// Returns `true` if `number` is at index `place` of `numbers`.
fn stands_at(numbers: &[u32], place: usize, number: u32) -> bool
    ensures { result ≡ (nat_lt place (length numbers.now)
        && slice_index numbers.now place == number) }
{
    place < numbers.len() && numbers[place] == number
}

/// Returns `true` if the set `processes` consists of the processes from 0 on without a gap, so that
/// each is its own rank. Bit `p` is set if process `p` is in the set.
fn has_no_gap(processes: u8) -> bool
    ensures { result ≡ are_lowest processes }
{
    matches!(processes, 0b1 | 0b11 | 0b111 | 0b1111)
}

/// Returns the rank of `process`: the number of processes in the set `processes` that are below it.
/// Bit `p` is set if process `p` is in the set.
fn rank(processes: u8, process: u8) -> u8
    requires { process ≤ 3 }
    ensures { result ≡ rank_in processes process }
{
    let mut rank = 0;
    for lower in 0..process {
        if processes >> lower & 1 == 1 {
            rank += 1;
        }
    }
    rank
}
