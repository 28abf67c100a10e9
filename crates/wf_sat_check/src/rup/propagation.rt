//! Unit propagation with two watched literals.

ghost use Rattle.std.specs.Prelude.{◌≡◌, ◌≤◌, IfOk, IsTrue, vec_len};
ghost use Rattle.wf_sat_check.specs.Rup.Propagation.{Conflicts, Extends, IsSound};
ghost use Rattle.wf_sat_check.specs.Rup.Stored.{kept_of};

use crate::rup::scan::other_open_literal;
use crate::rup::watches::{Watcher, Watches};
use crate::store::{ClauseDb, Trail, negated};
use std::alloc::{AllocError, Global};
use wf_sat_text::drat::Code;

/// The result of visiting a clause in the watch list of a literal that became false.
enum WatchOutcome {
    /// The clause leaves the watch list: it was deleted, or it does not watch the literal any more.
    Gone,
    /// The clause keeps watching the literal, because the given literal, the other one that it
    /// watches, is true.
    Stays(Code),
    /// The clause is unit: all its literals but the given one are false. It keeps watching the
    /// false literal.
    Forces(Code),
    /// The clause is a conflict: all its literals are false.
    Fails,
}

/// Propagates the literals of `trail` from the index `from` on, and appends to it the literals that
/// the clauses force. Returns `true` at a conflict: then the clauses and the literals that `trail`
/// had before have no common model.
///
/// A result of `false` proves nothing by itself, because it rests on the watch lists.
pub(crate) fn propagate(
    alloc: Global,
    from: usize,
    clauses: &mut ClauseDb,
    trail: &mut Trail,
    watches: &mut Watches,
) -> Result<bool, AllocError>
    ensures clauses { clauses.new ≡ clauses.old }
    ensures trail { Extends (kept_of clauses.old) trail.old trail.new }
    ensures conflict { IfOk result (λ found. IsTrue found
        → Conflicts (kept_of clauses.old) trail.old) }
{
    for place in from..trail.room() {
        let Some(literal) = trail.at(place) else {
            break;
        };
        if visit_watchers(alloc, negated(literal), clauses, trail, watches)? {
            return Ok(true);
        }
    }
    Ok(false)
}

/// Visits the clauses in the watch list of `falsified`, a literal that became false, and appends
/// the literals that they force to `trail`. Returns whether one of the clauses is false; the rest
/// of the list is not visited then.
fn visit_watchers(
    alloc: Global,
    falsified: Code,
    clauses: &mut ClauseDb,
    trail: &mut Trail,
    watches: &mut Watches,
) -> Result<bool, AllocError>
    ensures clauses { clauses.new ≡ clauses.old }
    ensures trail { Extends (kept_of clauses.old) trail.old trail.new }
    ensures conflict { IfOk result (λ found. IsTrue found
        → Conflicts (kept_of clauses.old) trail.old) }
{
    let mut list = watches.take(alloc, falsified);
    let mut kept = 0;
    let mut seen = 0;
    let mut fails = false;
    for at in 0..list.len() {
        let Watcher { place, blocker } = list[at];
        seen = at + 1;
        if trail.is_true(blocker) {
            list[kept] = Watcher { place, blocker };
            kept += 1;
            continue;
        }
        match visit(place, falsified, clauses, trail, watches)? {
            WatchOutcome::Gone => continue,
            WatchOutcome::Stays(blocker) => list[kept] = Watcher { place, blocker },
            WatchOutcome::Forces(blocker) => {
                trail.put(blocker)?;
                list[kept] = Watcher { place, blocker };
            }
            WatchOutcome::Fails => {
                list[kept] = Watcher { place, blocker };
                kept += 1;
                fails = true;
                break;
            }
        }
        kept += 1;
    }
    remove_range(&mut list, kept, seen);
    watches.give(falsified, list);
    Ok(fails)
}

/// Removes the items with the indices from `to` up to but not including `from`, keeping the order
/// of the others.
fn remove_range(list: &mut Vec<Watcher>, to: usize, from: usize)
    requires ordered { to ≤ from }
    requires within { from ≤ vec_len list.old }
{
    if to < from {
        let length = list.len() - (from - to);
        list.copy_within(from.., to);
        list.truncate(length);
    }
}

/// Visits the clause whose first word in the clause database has the index `place`, from the watch
/// list of the false literal `falsified`. If the clause can watch another literal that is not
/// false, it is moved to the watch list of that one.
#[inline]
fn visit(
    place: u32,
    falsified: Code,
    clauses: &mut ClauseDb,
    trail: &Trail,
    watches: &mut Watches,
) -> Result<WatchOutcome, AllocError>
    ensures clauses { clauses.new ≡ clauses.old }
    ensures sound { IfOk result (IsSound (kept_of clauses.old) trail.now) }
{
    let Some(other) = other_watched(place, falsified, clauses) else {
        return Ok(WatchOutcome::Gone);
    };
    if trail.is_true(other) {
        return Ok(WatchOutcome::Stays(other));
    }
    let literals = clauses.literals_at(place);
    if literals.is_empty() {
        return Ok(WatchOutcome::Gone);
    }
    match other_open_literal(literals, trail, other) {
        Some(literal) => {
            clauses.watch_at(place, other, literal);
            let blocker = other;
            watches.push(literal, Watcher { place, blocker })?;
            Ok(WatchOutcome::Gone)
        }
        None => {
            if trail.is_false(other) {
                Ok(WatchOutcome::Fails)
            } else {
                Ok(WatchOutcome::Forces(other))
            }
        }
    }
}

/// Returns the other literal that is watched by the clause whose first word has the index `place`,
/// or `None` if it does not watch `falsified`.
#[inline]
fn other_watched(place: u32, falsified: Code, clauses: &ClauseDb) -> Option<Code> {
    let (first, second) = clauses.watched_at(place)?;
    if first == falsified || second == falsified {
        Some(first ^ second ^ falsified)
    } else {
        None
    }
}
